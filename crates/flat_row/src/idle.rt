//! A row in which nothing waits and no processor acts: it is its own successor.
ghost use Rattle.std.specs.Prelude.{◌≡◌, ℕ, true};
ghost use Rattle.omega_net.specs.Ports.{empty};
ghost use Rattle.machine_cells.specs.Cycle.{cycle};
ghost use Rattle.flat_row.specs.Row.{IsRowOf, states_of};
ghost use Rattle.flat_row.specs.Idle.{AllBlank, NoneCombined, IsIdle};

use crate::bits::not_in;
use crate::level::Level;
use crate::marks::Routed;
use crate::row::Row;
use crate::waits::Waits;
use project_book::Project;

impl Row {
    /// Whether all processors rest, no message waits, and no mark of the cycle before has still to fall.
    pub(crate) fn is_idle(&self) -> bool
        ensures { result ≡ true → IsIdle self.now }
    {
        not_in(self.rests) == 0
            && self.served == 0
            && none_waits(&self.low.requests)
            && none_waits(&self.low.replies)
            && none_waits(&self.comb.requests)
            && none_waits(&self.comb.replies)
            && none_combined(&self.waits)
    }

    /// Then the machine stands still. Nothing is done when it runs.
    pub(crate) fn stands_still(&self, project: &Project)
        requires of { IsRowOf project.now self.now }
        requires idle { IsIdle self.now }
        ensures { states_of self.now ≡ cycle project.now (states_of self.now) }
    {
        project.is_project();
        self.is_row();
    }
}

/// Whether no message waits in any queue of these levels.
fn none_waits<T: Routed>(levels: &[Level<T>]) -> bool
    ensures { result ≡ true → AllBlank levels.now }
{
    match levels {
        [] => true,
        [first, later @ ..] => first.is_blank() && none_waits(later),
    }
}

/// Whether no switch of these stages combined in the cycle before.
fn none_combined(stages: &[Waits]) -> bool
    ensures { result ≡ true → NoneCombined stages.now }
{
    match stages {
        [] => true,
        [first, later @ ..] => first.once == 0 && first.twice == 0 && none_combined(later),
    }
}
