//! Rows of all components that whoever settles keeps from call to call.
ghost use Rattle.std.specs.Prelude.{◌≡◌, ℕ, IfSome, OnOk, is_some, replicate, true, false, None};
ghost use Rattle.grid_law.specs.Codec.{Codec};
ghost use Rattle.due_cells.specs.Beside.{AreBeside};
ghost use Rattle.cell_states.specs.NextWords.{HoldsWords};
ghost use Rattle.due_cells.specs.Spares.{AreKept, GoesAlong};

use crate::along::Along;
use cell_states::{Near, WholeRow};
use grid_law::Grid;
use std::alloc::Global;

/// Rows that whoever settles a table hands over for each call: one into which the words near a cell are put to settle it, and one that
/// goes along from cycle to cycle where many cells are due. They hold the run of the table's slots (`AreKept`), so that a further call goes
/// on from where they are. Whoever changes the slots, or turns to another table, calls `forget` before the next one.
#[derive(Drop)]
pub struct Beside<M> {
    pub near: Option<Near<M>>,
    pub along: Option<Along<M>>,
    /// A row that holds anything.
    pub idle: Option<M>,
    /// Whether the rows may stand for other slots than the table's.
    pub forgotten: bool,
}

impl<M> Beside<M> {
    /// No row yet: a call makes them as it needs them. They serve every table.
    pub fn none() -> Beside<M>
        ensures { result.forgotten ≡ true }
    {
        Beside {
            near: None,
            along: None,
            idle: None,
            forgotten: true,
        }
    }

    /// What the rows hold means nothing any more: they serve every table, and keep their memory.
    pub fn forget(&mut self)
        ensures { self.new.forgotten ≡ true }
    {
        self.forgotten = true;
    }
}

/// The rows stand for these slots, whatever they stood for, and none goes along. Those that can't are let go.
#[inline(never)]
fn resume_all<G: Grid, M: WholeRow<G>>(beside: &mut Beside<M>, slots: &G::Slots)
    ensures rows { AreBeside G.rules G.codec M.stands M.state slots.now beside.new }
    ensures along { beside.new.along ≡ None }
{
    match beside.along.take() {
        Some(along) => beside.idle = Some(along.row),
        None => {}
    }
    let stays = match &mut beside.near {
        Some(near) => near.resume::<G>(slots),
        None => true,
    };
    if !stays {
        beside.near = None;
    }
    let stays = match &mut beside.idle {
        Some(row) => row.resume(slots),
        None => true,
    };
    if !stays {
        beside.idle = None;
    }
}

/// The rows stand for these slots, and what they hold is of their run. Where they aren't forgotten nothing is done.
pub fn renew<G: Grid, M: WholeRow<G>>(beside: &mut Beside<M>, slots: &G::Slots)
    requires { AreKept G.rules G.codec M.stands M.state slots.now beside.old }
    ensures rows { AreBeside G.rules G.codec M.stands M.state slots.now beside.new }
    ensures along { IfSome beside.new.along (GoesAlong G.rules M.stands M.state slots.now) }
{
    if beside.forgotten {
        resume_all::<G, M>(beside, slots);
        beside.forgotten = false;
    }
}

/// Puts such a row where there is none. An idle one is taken.
#[inline(never)]
fn add_near<G: Grid, M: WholeRow<G>>(alloc: Global, slots: &G::Slots, beside: &mut Beside<M>)
    requires { AreBeside G.rules G.codec M.stands M.state slots.now beside.old }
    ensures { AreBeside G.rules G.codec M.stands M.state slots.now beside.new }
{
    let idle = beside.idle.take();
    beside.near = Near::new::<G>(alloc, slots, idle);
}

/// Gets a row ready for the words near a cell: whether there is one.
pub(crate) fn make_near<G: Grid, M: WholeRow<G>>(
    alloc: Global,
    slots: &G::Slots,
    beside: &mut Beside<M>,
) -> bool
    requires { AreBeside G.rules G.codec M.stands M.state slots.now beside.old }
    ensures rows { AreBeside G.rules G.codec M.stands M.state slots.now beside.new }
    ensures there { result ≡ is_some beside.new.near }
{
    if beside.near.is_none() {
        add_near::<G, M>(alloc, slots, beside);
    }
    beside.near.is_some()
}
