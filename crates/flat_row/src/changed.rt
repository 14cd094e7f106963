//! What a step changes of a row.
ghost use Rattle.std.specs.Prelude.{◌≡◌, ℕ, ◌<◌, ◌||◌, length, slice_index_or};
ghost use Rattle.omega_net.specs.Numbers.{half, Exists};
ghost use Rattle.flat_row.specs.Labels.{switch_label};
ghost use Rattle.flat_row.specs.Masks.{has, IsSetOf};
ghost use Rattle.flat_row.specs.Row.{buffers_at};
ghost use Rattle.flat_row.specs.Changed.{has_changed, none_changed, is_still, passes, crosses, has_combined, AreTouched};

use crate::bits::{are_empty, has};
use crate::decide::Served;
use crate::labels::label_of;
use crate::leaving::Plan;
use crate::pairs::{at_first, to_first};
use crate::row::Row;
use omega_net::{Component, Net, Shape};

/// Sets of components, a bit for each: processors and modules by number, the switches of each network by stage and the label of
/// port 0; and the modules that wrote.
#[derive(Clone, Copy, Debug)]
pub struct Changed {
    pub procs: u64,
    pub modules: u64,
    pub low: [u64; 6],
    pub comb: [u64; 6],
    /// Those in which a word of memory is another one.
    pub wrote: u64,
}

impl Changed {
    /// No components.
    pub(crate) fn none() -> Changed
        ensures { result.wrote ≡ 0 }
    {
        Changed {
            procs: 0,
            modules: 0,
            low: [0; 6],
            comb: [0; 6],
            wrote: 0,
        }
    }

    /// Whether a component of the machine is in the sets.
    pub fn has(&self, shape: Shape, component: Component) -> bool
        requires { Exists shape component }
        ensures { result ≡ has_changed shape self.now component }
    {
        // There are at most 64 processors.
        let _k = shape.k();
        match component {
            Component::Proc(p) => has(self.procs, u32::from(p)),
            Component::Module(m) => has(self.modules, u32::from(m)),
            Component::Switch {
                net: Net::Low,
                stage,
                index,
            } => has_switch(&self.low, shape, u32::from(stage), u32::from(index)),
            Component::Switch {
                net: Net::Comb,
                stage,
                index,
            } => has_switch(&self.comb, shape, u32::from(stage), u32::from(index)),
        }
    }

    /// Whether a word of a module's memory is another one.
    pub fn has_written(&self, m: u32) -> bool
        requires { m < 64 }
        ensures { result ≡ has self.now.wrote m }
    {
        has(self.wrote, m)
    }

    /// Whether nothing is in the sets.
    pub fn is_empty(&self) -> bool
        ensures { result ≡ none_changed self.now }
    {
        self.procs == 0 && self.modules == 0 && are_empty(&self.low) && are_empty(&self.comb)
    }
}

/// Whether a switch is in the set of its stage.
fn has_switch(sets: &[u64; 6], shape: Shape, stage: u32, index: u32) -> bool
    requires stage { stage < shape }
    requires index { index < half shape }
    ensures { result ≡ has (slice_index_or sets.now stage 0) (switch_label shape stage index) }
{
    // There are at most 64 labels.
    let _k = shape.k();
    let x = label_of(shape, stage, index);
    has(sets[stage as usize], x)
}

impl Row {
    /// Where something moves in a cycle, or a mark of the cycle before falls. What modules write isn't told.
    pub(crate) fn touched(&self, served: &Served, low: &Plan, comb: &Plan) -> Changed
        ensures { AreTouched self.now.k self.now served.now low.now comb.now result }
    {
        self.is_row();
        let shape = self.shape;
        let serving = self.served | (served.low | served.comb);
        let entering = low.enter | comb.enter;
        let leaving = low.replies_leave(shape.k()) | comb.replies_leave(shape.k());
        Changed {
            procs: low.requests_leave(shape, 0) | comb.requests_leave(shape, 0),
            modules: (serving | entering) | leaving,
            low: crossed(shape, low),
            comb: self.combs_crossed(comb),
            wrote: 0,
        }
    }

    /// The combining switches at which a message comes or leaves, and those that combined in the cycle before, by stage.
    fn combs_crossed(&self, plan: &Plan) -> [u64; 6]
        ensures { (s : ℕ) → s < self.now.k → IsSetOf (λ x. crosses self.now.k plan.now s x || has_combined (buffers_at self.now s) x) (slice_index_or result s 0) }
    {
        self.is_row();
        let mut sets = crossed(self.shape, plan);
        for stage in 0..self.shape.k() {
            let waits = &self.waits[stage as usize];
            sets[stage as usize] |= waits.once | waits.twice;
        }
        sets
    }
}

/// The switches of a network at which a message comes or leaves, by stage.
fn crossed(shape: Shape, plan: &Plan) -> [u64; 6]
    ensures sets { (s : ℕ) → s < shape → IsSetOf (crosses shape plan.now s) (slice_index_or result s 0) }
    ensures long { length result ≡ 6 }
{
    if is_still(plan) {
        return [0; 6];
    }
    let mut sets = [0; 6];
    for stage in 0..shape.k() {
        sets[stage as usize] = crossed_at(shape, plan, stage);
    }
    sets
}

/// Whether nothing moves on a network.
fn is_still(plan: &Plan) -> bool
    ensures { result ≡ is_still plan.now }
{
    plan.enter == 0
        && plan.receive == 0
        && are_empty(&plan.forth.leave)
        && are_empty(&plan.back.leave)
}

/// The switches of a stage at which a message comes or leaves.
fn crossed_at(shape: Shape, plan: &Plan, stage: u32) -> u64
    requires { stage < shape }
    ensures { IsSetOf (crosses shape plan.now stage) result }
{
    let by = shape.deciding_bit(stage as u8);
    let ports = passed_at(shape, plan, stage);
    at_first(by, ports) | to_first(by, ports)
}

/// The labels of a stage at which a message comes or leaves.
fn passed_at(shape: Shape, plan: &Plan, stage: u32) -> u64
    requires { stage < shape }
    ensures { (x : ℕ) → has result x ≡ passes shape plan.now stage x }
{
    let s = stage as usize;
    let forth = plan.forth.leave[s] | plan.requests_leave(shape, stage + 1);
    let back = plan.back.leave[s] | plan.replies_leave(stage);
    forth | back
}
