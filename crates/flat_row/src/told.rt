//! The states of the row are told by their words. Nothing of it is done when it runs.
ghost use Rattle.std.specs.Prelude.{◌≡◌, ◌<◌, ◌^◌, length, Some};
ghost use Rattle.std.specs.Mem.{FitsInMemory};
ghost use Rattle.flat_row.specs.contracts.queue.Places.{the_row};
ghost use Rattle.omega_net.specs.Numbers.{lines, half, Exists};
ghost use Rattle.grid_law.specs.Codec.{IsTold};
ghost use Rattle.state_words.specs.Fits.{IsQueue, IsProc, IsModule, IsLow, IsComb};
ghost use Rattle.machine_cells.specs.Words.{IsState};
ghost use Rattle.machine_cells.specs.Codec.{rp3_codec};
ghost use Rattle.flat_row.specs.Labels.{switch_label};
ghost use Rattle.flat_row.specs.Row.{buffers_at, comb_of, combined_of, level_at, low_of, module_of, proc_of, queue_of, state_of, wait_of};

use crate::level::Level;
use crate::marks::Routed;
use crate::read::{messages_at, ports};
use crate::row::Row;
use omega_net::{Component, Net};
use state_words::{TwoWords, all_fit, is_proc};

impl Row {
    /// A component's words, those that [`Row::words`] appends, and its memory tell its state: the numbers of its messages fit their types,
    /// and its turns are bits. Nothing is done when it runs.
    #[tactic(auto, using(machine_cells::proofs::Telling::told_state))]
    pub fn is_told(&self, component: Component)
        requires { Exists self.now.k component }
        ensures { IsTold rp3_codec (state_of self.now (Some component)) }
    {
        self.is_state_of(component);
    }

    /// It is a state of the machine's types.
    fn is_state_of(&self, component: Component)
        requires { Exists self.now.k component }
        ensures { IsState (state_of self.now (Some component)) }
    {
        match component {
            Component::Proc(p) => is_proc(&self.processor(u32::from(p))),
            Component::Module(m) => self.module_fits(u32::from(m)),
            Component::Switch {
                net: Net::Low,
                stage,
                index,
            } => self.low_fits(u32::from(stage), u32::from(index)),
            Component::Switch {
                net: Net::Comb,
                stage,
                index,
            } => self.comb_fits(u32::from(stage), u32::from(index)),
        }
    }

    fn module_fits(&self, m: u32)
        requires { m < lines self.now.k }
        ensures { IsModule (module_of self.now m) }
    {
        let k = self.shape.k() as usize;
        queue_fits(&self.low.requests, k + 1, m);
        queue_fits(&self.comb.requests, k + 1, m);
        queue_fits(&self.low.replies, k, m);
        queue_fits(&self.comb.replies, k, m);
    }

    #[tactic(auto, using(crate::proofs::Telling::turns_fit))]
    fn low_fits(&self, stage: u32, index: u32)
        requires stage { stage < self.now.k }
        requires index { index < half self.now.k }
        ensures { IsLow (low_of self.now.k self.now.low stage index) }
    {
        let (x, y) = ports(self.shape, stage, index);
        let s = stage as usize;
        queue_fits(&self.low.requests, s + 1, x);
        queue_fits(&self.low.requests, s + 1, y);
        queue_fits(&self.low.replies, s, x);
        queue_fits(&self.low.replies, s, y);
    }

    #[tactic(auto, using(crate::proofs::Telling::turns_fit, crate::proofs::Telling::turn_fits, crate::proofs::Telling::combined_fit))]
    fn comb_fits(&self, stage: u32, index: u32)
        requires stage { stage < self.now.k }
        requires index { index < half self.now.k }
        ensures { IsComb (comb_of self.now.k self.now.comb stage index (wait_of (buffers_at self.now stage) (switch_label self.now.k stage index)) (combined_of (buffers_at self.now stage) (switch_label self.now.k stage index))) }
    {
        let (x, y) = ports(self.shape, stage, index);
        let s = stage as usize;
        queue_fits(&self.comb.requests, s + 1, x);
        queue_fits(&self.comb.requests, s + 1, y);
        queue_fits(&self.comb.replies, s, x);
        queue_fits(&self.comb.replies, s, y);
        all_fit(self.waits[s].entries[x as usize].as_slice());
    }
}

/// A queue of a level holds messages whose numbers fit.
fn queue_fits<T: Routed + TwoWords>(levels: &[Level<T>], level: usize, x: u32)
    requires there { level < length levels.now }
    requires label { x < length (level_at levels.now level).queues }
    requires fits { FitsInMemory (the_row T.row) }
    ensures { IsQueue T.fits (queue_of levels.now level x) }
{
    all_fit(messages_at(levels, level, x));
}
