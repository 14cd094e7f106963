//! Giving a result back.
ghost use Rattle.std.specs.Prelude.{◌≡◌, ℕ, ◌<◌, ◌≤◌, ◌-◌, ◌^◌, ◌↔◌, IsTrue, true, false, Some, map, List, OnOk, OnErr, IfErr};
ghost use Rattle.std.specs.Arc.{arc_value};
ghost use Rattle.due_cells.specs.Seen.{held_at};
ghost use Rattle.due_cells.specs.Inputs.{inputs_of};
ghost use Rattle.cell_table.specs.Cells.{IsThere};
ghost use Rattle.cell_table.specs.Consistent.{IsCurrentState, current_of};
ghost use Rattle.cell_table.specs.Gives.{IsPresent, GivesAs, IsAfterStore};
ghost use Rattle.cell_table.specs.Settling.{IsAsBefore};
ghost use Rattle.cell_table.specs.Events.{Event, Start};
ghost use Rattle.cell_table.specs.Stands.{Stands};
ghost use Rattle.cell_table.specs.Made.{Made};
ghost use Rattle.cell_table.specs.Answers.{AnswersMade, after_give};

use super::Table;
use crate::{Claim, Done, Given};
use cell_states::{Cell, Room};
use due_cells::{are_held, clock_after, repeat_in, store_in};
use grid_law::{Grid, NoMemory};
use std::sync::Arc;

/// Takes room for the versions of a cycle, where a store changes a state and so makes cells due.
fn make_room(room: &mut Room, count: u32, changed: bool) -> Result<(), NoMemory>
    ensures ok { OnOk result (changed ≡ true → count ≤ room.new) }
    ensures err { OnErr result (changed ≡ true) }
{
    if !changed {
        return Ok(());
    }
    room.make(count)
}

impl<G: Grid> Table<G> {
    /// Whether these are the states that the cell is computed from now.
    fn has_same_inputs(&self, cell: Cell, near: &[Arc<G::State>]) -> bool
        requires { IsThere G.rules self.now cell.cycle cell.component }
        ensures { IsTrue result
            ↔ (inputs_of G.rules self.now.slots self.now.rows cell.cycle cell.component ≡ Some (map arc_value near.now)) }
    {
        if cell.cycle == 0 {
            return near.is_empty();
        }
        let components = self.near(cell.component);
        are_held::<G>(&self.cells, cell.cycle - 1, components, near)
    }

    /// Whether what the claim was computed from is what is there now.
    fn is_present(&self, claim: &Claim<G>) -> bool
        requires { IsThere G.rules self.now claim.now.cell.cycle claim.now.cell.component }
        ensures { IsTrue result ↔ IsPresent G.rules self.now claim.now }
    {
        self.has_same_inputs(claim.cell(), claim.near()) && claim.agrees_with(&self.slots)
    }

    /// Whether the cell holds this state, the whole of it.
    #[inline(always)]
    pub(super) fn holds(&self, cell: Cell, state: &G::State) -> bool
        ensures { IsTrue result ↔ ((held_at self.now.rows cell.cycle cell.component).state ≡ Some state.now) }
    {
        self.cells.holds(cell, state)
    }

    /// Stores a state that was computed from what is there now. Where memory is wanting, nothing is
    /// changed, and the state comes back.
    pub(super) fn store(
        &mut self,
        cell: Cell,
        state: Arc<G::State>,
        changed: bool,
    ) -> Result<(), Arc<G::State>>
        requires there { IsThere G.rules self.old cell.cycle cell.component }
        requires room { changed ≡ true → self.old.clock < 2 ^ 64 - 1 }
        requires changes { (changed ≡ false) ↔ ((held_at self.old.rows cell.cycle cell.component).state ≡ Some (arc_value state)) }
        requires computed { IsCurrentState G.rules self.old.slots self.old.rows cell.cycle cell.component (arc_value state) }
        ensures ok { OnOk result (IsAfterStore G.rules self.old self.new cell.cycle cell.component (arc_value state) changed) }
        ensures err { OnErr result (self.new ≡ self.old) }
        ensures back { IfErr result (λ back. (arc_value back ≡ arc_value state) × (changed ≡ true)) }
    {
        match make_room(&mut self.room, G::components(&self.slots), changed) {
            Ok(()) => {}
            Err(_) => return Err(state),
        }
        let clock = clock_after(self.clock, changed);
        match store_in::<G>(
            &mut self.cells,
            &self.slots,
            &self.readers,
            cell,
            state,
            changed,
            clock,
            &mut self.room,
        ) {
            Ok(()) => {
                self.clock = clock;
                Ok(())
            }
            Err(state) => Err(state),
        }
    }

    /// Stores the state that the cell one cycle earlier holds, where it is what is computed from
    /// what is there now; it may be known that the cell holds it already. Where memory is wanting,
    /// nothing is changed.
    pub(super) fn store_again(
        &mut self,
        cell: Cell,
        stays: bool,
        changed: bool,
    ) -> Result<(), NoMemory>
        requires there { IsThere G.rules self.old cell.cycle cell.component }
        requires again { IsAsBefore G.rules self.old cell.cycle cell.component }
        requires stays { stays ≡ true → (held_at self.old.rows (cell.cycle - 1) cell.component).state ≡ (held_at self.old.rows cell.cycle cell.component).state }
        requires room { changed ≡ true → self.old.clock < 2 ^ 64 - 1 }
        requires changes { (changed ≡ false) ↔ ((held_at self.old.rows cell.cycle cell.component).state ≡ Some (current_of G.rules self.old.slots self.old.rows cell.cycle cell.component)) }
        requires computed { IsCurrentState G.rules self.old.slots self.old.rows cell.cycle cell.component (current_of G.rules self.old.slots self.old.rows cell.cycle cell.component) }
        ensures ok { OnOk result (IsAfterStore G.rules self.old self.new cell.cycle cell.component (current_of G.rules self.old.slots self.old.rows cell.cycle cell.component) changed) }
        ensures err { OnErr result (self.new ≡ self.old) }
    {
        make_room(&mut self.room, G::components(&self.slots), changed)?;
        let clock = clock_after(self.clock, changed);
        match repeat_in::<G>(
            &mut self.cells,
            &self.slots,
            &self.readers,
            cell,
            stays,
            changed,
            clock,
            &mut self.room,
        ) {
            Ok(()) => {
                self.clock = clock;
                Ok(())
            }
            Err(_) => Err(NoMemory),
        }
    }

    fn give_plain(&mut self, done: Done<G>) -> Given<Done<G>>
        ensures { GivesAs G.rules self.old done result self.new }
    {
        let cell = done.cell();
        if !self.has(cell) {
            return Given::Gone;
        }
        if !self.due(cell) {
            return Given::NotDue;
        }
        if self.version(cell) != done.claim().version() {
            return Given::Overtaken;
        }
        if !self.is_present(done.claim()) {
            return Given::Foreign;
        }
        let changed = !self.holds(cell, done.state());
        if changed && self.clock == u64::MAX {
            return Given::ClockSpent(done);
        }
        let (claim, state) = done.into_parts();
        match self.store(cell, state, changed) {
            Ok(()) => Given::Stored { changed },
            Err(state) => Given::Memory(Done::of(claim, state)),
        }
    }

    /// Stores the result of a claim where, since the claim, its cell stayed due and nothing that it
    /// read has changed. The answer is the first of `Given` that applies, in that order; all but
    /// `Stored` change nothing. Where the state is another one than the cell held, the clock rises
    /// by one, and the cells one cycle later that have this one among their near cells become due.
    /// It gets its memory before it changes anything, and needs none where the state is the one held.
    /// It looks at this cell, those near it and those that read it.
    pub fn give(&mut self, done: Done<G>) -> Given<Done<G>>
        ensures headline_foreign { GivesAs G.rules self.old done result self.new }
        ensures headline_stands { (o : Start G.Slots) (h : List (Event G.State G.Slots G.Slot)) → Stands G.rules o self.old h
            → Stands G.rules o self.new (after_give result done h) }
        ensures headline_gives { (o : Start G.Slots) (h : List (Event G.State G.Slots G.Slot)) (n : ℕ) → Stands G.rules o self.old h
            → Made G.rules o done.claim h n → AnswersMade G.rules o h n done result }
    {
        self.give_plain(done)
    }
}
