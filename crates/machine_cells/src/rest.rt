//! Whether a switch or a module stays as it is, known by a look at what comes and leaves.
ghost use Rattle.std.specs.Prelude.{◌≡◌, ℕ, IsTrue, length};
ghost use Rattle.low_switch.specs.LowSwitch.{low_after};
ghost use Rattle.comb_switch.specs.declared.settings.CombSettings.{CombSettings as Settings};
ghost use Rattle.comb_switch.specs.CombSwitch.{comb_after};
ghost use Rattle.mem_module.specs.MemModule.{module_after};
ghost use Rattle.machine_cells.specs.Pulls.{traffic, module_traffic};

use crate::pulls::{ModulePulls, SwitchPulls};
use comb_switch::CombState;
use low_switch::LowState;
use mem_module::ModuleState;

/// Says that a pair has two items, to the proofs of those who call it.
fn pair<T>(items: &[T; 2])
    ensures { length items.now ≡ 2 }
{}

/// Whether a low switch stays as it is.
#[tactic(auto, using(crate::proofs::Resting::low_rests))]
pub(crate) fn low_rests(own: &LowState, pulls: &SwitchPulls) -> bool
    ensures { IsTrue result → (bit : ℕ) → low_after bit (traffic pulls.now) own.now ≡ own.now }
{
    pair(&own.fwd);
    pair(&own.turn);
    pair(&own.rev);
    pair(&own.rturn);
    pulls.is_quiet()
}

/// Whether a combining switch stays as it is.
#[tactic(auto, using(crate::proofs::Resting::comb_rests))]
pub(crate) fn comb_rests(own: &CombState, pulls: &SwitchPulls) -> bool
    ensures { IsTrue result → (settings : Settings) → comb_after settings (traffic pulls.now) own.now ≡ own.now }
{
    pair(&own.fwd);
    pair(&own.turn);
    pair(&own.rev);
    own.combined == 0 && pulls.is_quiet()
}

/// Whether a module stays as it is: where nothing waits, nothing can be served.
#[tactic(auto, using(crate::proofs::Resting::module_rests))]
pub(crate) fn module_rests(own: &ModuleState, pulls: &ModulePulls) -> bool
    ensures { IsTrue result → (depth : ℕ) → module_after depth (module_traffic pulls.now) own.now ≡ own.now }
{
    pair(&own.requests);
    pair(&own.replies);
    !own.served && own.requests[0].is_empty() && own.requests[1].is_empty() && pulls.is_quiet()
}
