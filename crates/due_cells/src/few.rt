//! The due cells of a cycle get what the run has there: many of them by a step of all components, few by a step of each.
ghost use Rattle.std.specs.Prelude.{◌≡◌, true, false};
ghost use Rattle.cell_states.specs.Near.{AreNear};
ghost use Rattle.cell_states.specs.Put.{AreMarks};
ghost use Rattle.due_cells.specs.Beside.{AreBeside};
ghost use Rattle.due_cells.specs.DuePut.{IsDuePut};
ghost use Rattle.due_cells.specs.Spares.{AreRowsOf};
ghost use Rattle.due_cells.specs.WholeRows.{IsToPut};

use crate::along::{Along, go_along};
use crate::beside::{Beside, make_near};
use crate::cells::{Cells, put_due, put_each};
use cell_marks::Row;
use cell_states::{Neighbours, WholeRow};
use grid_law::Grid;

/// How many cells of a cycle are due at least where a row of all components is loaded to settle it.
const WIDE: u32 = 24;

/// The same where the row holds the cycle before already.
const STILL_WIDE: u32 = 16;

/// How many cells of a cycle are due at least where a row settles it.
fn least_due<M>(along: &Option<Along<M>>, cycle: u32) -> u32 {
    match along {
        Some(a) => {
            if cycle > 0 && a.cycle == cycle - 1 {
                STILL_WIDE
            } else {
                WIDE
            }
        }
        None => WIDE,
    }
}

/// By the row that goes along: whether they got it.
fn put_stepped<G: Grid, M: WholeRow<G>>(
    cells: &mut Cells<G>,
    slots: &G::Slots,
    along: &mut Option<Along<M>>,
    beside: &mut Beside<M>,
    cycle: u32,
    set: &Row,
    changes: &mut Row,
    worded: &mut Row,
) -> bool
    requires ready { IsToPut G.rules slots.now cells.old cycle set.now }
    requires marks { AreMarks (G.rules.components slots.now) changes.old worded.old }
    requires rows { AreRowsOf G.rules G.codec M.stands M.state slots.now along.old beside.old }
    ensures marks { AreMarks (G.rules.components slots.now) changes.new worded.new }
    ensures put { result ≡ true → IsDuePut G.rules G.codec slots.now cells.old cells.new cycle changes.new worded.new }
    ensures err { result ≡ false → cells.new ≡ cells.old }
    ensures rows { AreRowsOf G.rules G.codec M.stands M.state slots.now along.new beside.new }
{
    let step = match go_along::<G, M>(cells, slots, along, beside, cycle) {
        Some(step) => step,
        None => return false,
    };
    let row = match along {
        Some(a) => &a.row,
        None => return false,
    };
    match put_due(cells, slots, row, &step, cycle, set, changes, worded) {
        Ok(()) => true,
        Err(_) => false,
    }
}

/// One after another: whether they got it.
fn put_few<G: Grid, M: WholeRow<G>>(
    cells: &mut Cells<G>,
    slots: &G::Slots,
    near: &Neighbours,
    beside: &mut Beside<M>,
    cycle: u32,
    set: &Row,
    changes: &mut Row,
    worded: &mut Row,
) -> bool
    requires ready { IsToPut G.rules slots.now cells.old cycle set.now }
    requires marks { AreMarks (G.rules.components slots.now) changes.old worded.old }
    requires near { AreNear G.rules slots.now near.now }
    requires beside { AreBeside G.rules G.codec M.stands M.state slots.now beside.old }
    ensures marks { AreMarks (G.rules.components slots.now) changes.new worded.new }
    ensures put { result ≡ true → IsDuePut G.rules G.codec slots.now cells.old cells.new cycle changes.new worded.new }
    ensures err { result ≡ false → cells.new ≡ cells.old }
    ensures beside { AreBeside G.rules G.codec M.stands M.state slots.now beside.new }
{
    if !make_near::<G, M>(cells.allocator(), slots, beside) {
        return false;
    }
    match &mut beside.near {
        Some(held) => match put_each(cells, slots, near, held, cycle, set, changes, worded) {
            Ok(()) => true,
            Err(_) => false,
        },
        None => false,
    }
}

/// Gives the due cells of a cycle the states of the run, and none of that cycle is due then: whether it did. Of `changes` those components
/// are marked that held another state, or none. Where it didn't, nothing is changed but those marks and the rows.
pub fn put_row<G: Grid, M: WholeRow<G>>(
    cells: &mut Cells<G>,
    slots: &G::Slots,
    near: &Neighbours,
    along: &mut Option<Along<M>>,
    beside: &mut Beside<M>,
    cycle: u32,
    set: &Row,
    changes: &mut Row,
    worded: &mut Row,
) -> bool
    requires ready { IsToPut G.rules slots.now cells.old cycle set.now }
    requires marks { AreMarks (G.rules.components slots.now) changes.old worded.old }
    requires near { AreNear G.rules slots.now near.now }
    requires rows { AreRowsOf G.rules G.codec M.stands M.state slots.now along.old beside.old }
    ensures marks { AreMarks (G.rules.components slots.now) changes.new worded.new }
    ensures put { result ≡ true → IsDuePut G.rules G.codec slots.now cells.old cells.new cycle changes.new worded.new }
    ensures err { result ≡ false → cells.new ≡ cells.old }
    ensures rows { AreRowsOf G.rules G.codec M.stands M.state slots.now along.new beside.new }
{
    if set.count() >= least_due(along, cycle) {
        put_stepped::<G, M>(cells, slots, along, beside, cycle, set, changes, worded)
    } else {
        put_few::<G, M>(cells, slots, near, beside, cycle, set, changes, worded)
    }
}
