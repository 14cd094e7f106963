//! What cells hold as a row of all components takes it, and gives it.
ghost use Rattle.std.specs.Prelude.{◌≡◌, ◌↔◌, ℕ, ◌-◌, ◌<◌, ◌≤◌, OnOk, OnErr, None, Some, [], false, length};
ghost use Rattle.cell_states.specs.Filling.{is_awake};
ghost use Rattle.std.specs.Option.{option_copied};
ghost use Rattle.grid_law.specs.Codec.{IsTold};
ghost use Rattle.grid_law.specs.Run.{run};
ghost use Rattle.due_cells.specs.Seen.{held_at, row_at};
ghost use Rattle.cell_states.specs.NextWords.{HoldsWords, HoldsNear};
ghost use Rattle.cell_states.specs.Put.{AreMarks};
ghost use Rattle.due_cells.specs.DuePut.{IsDuePut};
ghost use Rattle.due_cells.specs.WholeRows.{HoldsRow, IsKnown, IsToPut};

use super::{Cells, clear_rows};
use cell_marks::Row;
use cell_states::{Cell, Near, Neighbours, WholeRow};
use grid_law::{Grid, NoMemory};

impl<G: Grid> Cells<G> {
    /// The words of the state that a cell holds; none where it holds none.
    pub fn words(&self, cell: Cell) -> &[u64]
        ensures none { result.now ≡ [] ↔ ((held_at self.now cell.cycle cell.component).state ≡ None) }
        ensures told { (x : G.State) → (held_at self.now cell.cycle cell.component).state ≡ Some x → IsTold G.codec x × (G.codec.words x ≡ result.now) }
    {
        self.states.words(cell)
    }

    /// Its memory.
    pub fn memory(&self, cell: Cell) -> Option<&G::Memory>
        ensures { (x : G.State) → (held_at self.now cell.cycle cell.component).state ≡ Some x → G.codec.memory x ≡ option_copied result }
    {
        self.states.memory(cell)
    }
}

impl<G: Grid> Cells<G> {
    /// Which cells of a cycle are due.
    pub fn due_row(&self, cycle: u32) -> &Row
        requires { cycle < length self.now }
        ensures len { length result.now ≡ length (row_at self.now cycle) }
        ensures due { (c : ℕ) → is_awake result.now c ≡ (held_at self.now cycle c).is_due }
    {
        self.due.row(cycle)
    }

    /// Marks just components, those at least whose cells hold at a cycle another state than at an earlier one.
    pub fn find_changed(&self, from: u32, to: u32, marks: &mut Row)
        requires order { from ≤ to }
        requires within { to < length self.now }
        requires width { length marks.old ≡ length (row_at self.now 0) }
        ensures len { length marks.new ≡ length marks.old }
        ensures same { (c : ℕ) → c < length marks.old → is_awake marks.new c ≡ false → (held_at self.now to c).state ≡ (held_at self.now from c).state }
    {
        self.states.find_changed(from, to, marks);
    }
}

/// A cell that isn't due has no version. Nothing is done when it runs.
pub fn no_versions<G: Grid>(cells: &Cells<G>)
    ensures { (t c : ℕ) → (held_at cells.now t c).is_due ≡ false → (held_at cells.now t c).version ≡ 0 }
{
    let _due = &cells.due;
}

/// Gives the due cells of a cycle the states that a row holds, which are those of the run, and none of that cycle is due then: those of a
/// set, and all other ones have theirs already. Of `changes` those components are marked that held another state, or none, and of `worded`
/// those of them that held other words, or none. Where memory is wanting, nothing is changed but those marks.
pub(crate) fn put_due<G: Grid, M: WholeRow<G>>(
    cells: &mut Cells<G>,
    slots: &G::Slots,
    row: &M,
    step: &M::Step,
    cycle: u32,
    set: &Row,
    changes: &mut Row,
    worded: &mut Row,
) -> Result<(), NoMemory>
    requires ready { IsToPut G.rules slots.now cells.old cycle set.now }
    requires marks { AreMarks (G.rules.components slots.now) changes.old worded.old }
    requires row { HoldsRow G.rules M.stands M.state slots.now row.now cycle }
    requires known { IsKnown G.rules G.codec (M.is_still step.now slots.now) (M.has_written step.now slots.now) slots.now cycle }
    ensures marks { AreMarks (G.rules.components slots.now) changes.new worded.new }
    ensures put { OnOk result (IsDuePut G.rules G.codec slots.now cells.old cells.new cycle changes.new worded.new) }
    ensures err { OnErr result (cells.new ≡ cells.old) }
{
    match cells
        .states
        .put_whole::<M>(slots, row, step, set, changes, worded, cycle)
    {
        Ok(()) => {}
        Err(_) => return Err(NoMemory),
    }
    clear_rows(&mut cells.due, cycle, cycle + 1);
    Ok(())
}

/// The same by a step of each due cell, out of a row into which what is near it is put.
pub(crate) fn put_each<G: Grid, M: WholeRow<G>>(
    cells: &mut Cells<G>,
    slots: &G::Slots,
    near: &Neighbours,
    held: &mut Near<M>,
    cycle: u32,
    set: &Row,
    changes: &mut Row,
    worded: &mut Row,
) -> Result<(), NoMemory>
    requires ready { IsToPut G.rules slots.now cells.old cycle set.now }
    requires marks { AreMarks (G.rules.components slots.now) changes.old worded.old }
    requires near { HoldsNear G.rules G.codec M.stands M.state slots.now held.old near.now }
    ensures held { HoldsWords G.rules G.codec M.stands M.state slots.now held.new }
    ensures marks { AreMarks (G.rules.components slots.now) changes.new worded.new }
    ensures put { OnOk result (IsDuePut G.rules G.codec slots.now cells.old cells.new cycle changes.new worded.new) }
    ensures err { OnErr result (cells.new ≡ cells.old) }
{
    match cells
        .states
        .put_each::<M>(slots, held, near, set, changes, worded, cycle)
    {
        Ok(()) => {}
        Err(_) => return Err(NoMemory),
    }
    clear_rows(&mut cells.due, cycle, cycle + 1);
    Ok(())
}
