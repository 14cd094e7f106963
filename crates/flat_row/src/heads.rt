//! The first words of components, by which most states that differ are told apart.
ghost use Rattle.std.specs.Prelude.{◌≡◌, ◌<◌, ◌≤◌, length, Some};
ghost use Rattle.std.specs.Mem.{FitsInMemory};
ghost use Rattle.flat_row.specs.contracts.queue.Places.{the_row};
ghost use Rattle.omega_net.specs.Limits.{queue_places};
ghost use Rattle.omega_net.specs.Numbers.{lines, half, Exists};
ghost use Rattle.omega_net.specs.declared.component.Component.TheVariants.{Module as ModuleAt, Switch};
ghost use Rattle.omega_net.specs.declared.component.Net.TheVariants.{Low as LowNet, Comb as CombNet};
ghost use Rattle.machine_cells.specs.Words.{head_of};
ghost use Rattle.flat_row.specs.Row.{level_at, queue_of, state_of};

use crate::level::Level;
use crate::marks::Routed;
use crate::read::{messages_at, ports};
use crate::row::Row;
use omega_net::{Component, Net};
use state_words::{proc_head, queues_head};

impl Row {
    /// The first of the words that [`Row::words`] appends. It takes no memory.
    pub fn first_word(&self, component: Component) -> u64
        requires { Exists self.now.k component }
        ensures { result ≡ head_of (state_of self.now (Some component)) }
    {
        match component {
            Component::Proc(p) => proc_head(&self.processor(u32::from(p))),
            Component::Module(m) => self.module_head(u32::from(m)),
            Component::Switch {
                net: Net::Low,
                stage,
                index,
            } => self.low_head(u32::from(stage), u32::from(index)),
            Component::Switch {
                net: Net::Comb,
                stage,
                index,
            } => self.comb_head(u32::from(stage), u32::from(index)),
        }
    }

    /// The first word of a module.
    fn module_head(&self, m: u32) -> u64
        requires { m < lines self.now.k }
        ensures { result ≡ head_of (state_of self.now (Some (ModuleAt m))) }
    {
        let k = self.shape.k() as usize;
        let requests = (
            messages_at(&self.low.requests, k + 1, m).len(),
            messages_at(&self.comb.requests, k + 1, m).len(),
        );
        let replies = (
            messages_at(&self.low.replies, k, m).len(),
            messages_at(&self.comb.replies, k, m).len(),
        );
        queues_head(1, requests, replies, 0, self.module_small(m))
    }

    /// The first word of a low switch.
    fn low_head(&self, stage: u32, index: u32) -> u64
        requires stage { stage < self.now.k }
        requires index { index < half self.now.k }
        ensures { result ≡ head_of (state_of self.now (Some (Switch LowNet stage index))) }
    {
        let (x, y) = ports(self.shape, stage, index);
        let s = stage as usize;
        let requests = sizes_at(&self.low.requests, s + 1, x, y);
        let replies = sizes_at(&self.low.replies, s, x, y);
        queues_head(2, requests, replies, 0, self.low_small(s, x, y))
    }

    /// The first word of a combining switch.
    fn comb_head(&self, stage: u32, index: u32) -> u64
        requires stage { stage < self.now.k }
        requires index { index < half self.now.k }
        ensures { result ≡ head_of (state_of self.now (Some (Switch CombNet stage index))) }
    {
        let (x, y) = ports(self.shape, stage, index);
        let s = stage as usize;
        let requests = sizes_at(&self.comb.requests, s + 1, x, y);
        let replies = sizes_at(&self.comb.replies, s, x, y);
        let waits = &self.waits[s];
        let wait = waits.entries[x as usize].as_slice().len();
        queues_head(3, requests, replies, wait, self.comb_small(s, x, y))
    }
}

/// How many messages wait at two labels of a level.
fn sizes_at<T: Routed>(levels: &[Level<T>], level: usize, x: u32, y: u32) -> (usize, usize)
    requires there { level < length levels.now }
    requires first { x < length (level_at levels.now level).queues }
    requires second { y < length (level_at levels.now level).queues }
    requires fits { FitsInMemory (the_row T.row) }
    ensures first { result.0 ≡ length (queue_of levels.now level x).items }
    ensures second { result.1 ≡ length (queue_of levels.now level y).items }
    ensures fits { (result.0 ≤ queue_places) × (result.1 ≤ queue_places) }
{
    (
        messages_at(levels, level, x).len(),
        messages_at(levels, level, y).len(),
    )
}
