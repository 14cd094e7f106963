//! Messages that cross a stage of combining switches, in the order of their labels: so of each switch that by port 0 comes before that
//! by port 1, and no step asks whether a message comes.
ghost use Rattle.std.specs.Prelude.{◌≡◌, ℕ, ◌<◌, IsSome, length, true};
ghost use Rattle.omega_net.specs.Queues.{head};
ghost use Rattle.comb_switch.specs.CombSwitch.{arrives, returns_to};
ghost use Rattle.flat_row.specs.Labels.{port};
ghost use Rattle.flat_row.specs.Masks.{has};
ghost use Rattle.flat_row.specs.Row.{queue_of, combined_of};
ghost use Rattle.flat_row.specs.Combining.{CanCross, Met, AllMet, meeting, splitting};

use crate::combining::{arrives, returns_to};
use crate::level::Level;
use crate::moving::{first_from, port_of};
use crate::waits::Waits;
use comb_switch::CombSettings;
use omega_net::{Reply, Request};

/// A stage of combining switches that messages cross from one level to another: what the switches read of the project, and the
/// labels whose heads leave.
#[derive(Clone, Copy, Debug)]
pub(crate) struct Crossing {
    pub(crate) settings: CombSettings,
    pub(crate) from: usize,
    pub(crate) to: usize,
    pub(crate) leave: u64,
}

/// All requests that leave a level arrive at their switches, where nothing has combined yet.
pub(crate) fn cross_forth(levels: &mut Vec<Level<Request>>, waits: &mut Waits, crossing: &Crossing)
    requires can { CanCross crossing.now.settings.bit crossing.now.from crossing.now.to levels.old.items waits.old }
    requires from { crossing.now.from < length levels.old.items }
    requires to { crossing.now.to < length levels.old.items }
    requires some { (y : ℕ) → y < 64 → has crossing.now.leave y ≡ true → IsSome (head (queue_of levels.old.items crossing.now.from y)) }
    requires none { (x : ℕ) → combined_of waits.old x ≡ 0 }
    ensures { AllMet (meeting crossing.now.settings.bit) (arrives crossing.now.settings) crossing.now.settings.bit crossing.now.from crossing.now.to crossing.now.leave levels.old.items levels.new.items waits.old waits.new }
{
    let mut next = 0;
    while let Some(y) = first_from(crossing.leave, next) {
        meet(levels, waits, crossing, y);
        next = y + 1;
    }
}

/// All replies that leave a level return to their switches.
pub(crate) fn cross_back(levels: &mut Vec<Level<Reply>>, waits: &mut Waits, crossing: &Crossing)
    requires can { CanCross crossing.now.settings.bit crossing.now.from crossing.now.to levels.old.items waits.old }
    requires from { crossing.now.from < length levels.old.items }
    requires to { crossing.now.to < length levels.old.items }
    requires some { (y : ℕ) → y < 64 → has crossing.now.leave y ≡ true → IsSome (head (queue_of levels.old.items crossing.now.from y)) }
    ensures { AllMet (splitting crossing.now.settings.bit) (returns_to crossing.now.settings) crossing.now.settings.bit crossing.now.from crossing.now.to crossing.now.leave levels.old.items levels.new.items waits.old waits.new }
{
    let mut next = 0;
    while let Some(y) = first_from(crossing.leave, next) {
        return_one(levels, waits, crossing, y);
        next = y + 1;
    }
}

/// The request at a label leaves its level and arrives at its switch.
fn meet(levels: &mut Vec<Level<Request>>, waits: &mut Waits, crossing: &Crossing, y: u32)
    requires can { CanCross crossing.now.settings.bit crossing.now.from crossing.now.to levels.old.items waits.old }
    requires from { crossing.now.from < length levels.old.items }
    requires to { crossing.now.to < length levels.old.items }
    requires there { y < 64 }
    requires some { IsSome (head (queue_of levels.old.items crossing.now.from y)) }
    requires few { combined_of waits.old (port crossing.now.settings.bit 0 y) < 2 }
    ensures { Met (meeting crossing.now.settings.bit) (arrives crossing.now.settings) crossing.now.settings.bit crossing.now.from crossing.now.to y levels.old.items levels.new.items waits.old waits.new }
{
    let x = port_of(crossing.settings.bit, y, 0);
    let before = &mut levels[crossing.from];
    let request = before.take(y);
    let behind = &mut levels[crossing.to];
    arrives(behind, waits, &crossing.settings, x, request);
}

/// The reply at a label leaves its level and returns to its switch.
fn return_one(levels: &mut Vec<Level<Reply>>, waits: &mut Waits, crossing: &Crossing, y: u32)
    requires can { CanCross crossing.now.settings.bit crossing.now.from crossing.now.to levels.old.items waits.old }
    requires from { crossing.now.from < length levels.old.items }
    requires to { crossing.now.to < length levels.old.items }
    requires there { y < 64 }
    requires some { IsSome (head (queue_of levels.old.items crossing.now.from y)) }
    ensures { Met (splitting crossing.now.settings.bit) (returns_to crossing.now.settings) crossing.now.settings.bit crossing.now.from crossing.now.to y levels.old.items levels.new.items waits.old waits.new }
{
    let x = port_of(crossing.settings.bit, y, 0);
    let before = &mut levels[crossing.from];
    let reply = before.take(y);
    let behind = &mut levels[crossing.to];
    returns_to(behind, waits, &crossing.settings, x, reply);
}
