//! Settling: computing the due cells, by cycle and then component, until none is left.
ghost use Rattle.std.specs.Prelude.{◌≡◌, ◌≢◌, ℕ, ◌+◌, ◌-◌, ◌^◌, ◌<◌, ◌≤◌, ◌↔◌, IsTrue, IfOk, IfErr, OnOk, OnErr, IfNone, IfSome, MatchOption, is_some, true, false, Some, List, length};
ghost use Rattle.std.specs.Arc.{arc_value};
ghost use Rattle.due_cells.specs.Seen.{Seen, held_at, row_at};
ghost use Rattle.cell_table.specs.Cells.{IsThere, AtOrAfter};
ghost use Rattle.due_cells.specs.Inputs.{inputs_of};
ghost use Rattle.cell_table.specs.Consistent.{current_of};
ghost use Rattle.cell_table.specs.Gives.{IsAfterStore, IsStored, HoldsSame};
ghost use Rattle.cell_table.specs.Events.{Event, Start};
ghost use Rattle.cell_table.specs.Stands.{Stands};
ghost use Rattle.cell_table.specs.Settling.{IsAsBefore, NoneDueBefore, NoneDueFrom, HoldsRunBefore, IsNextDue, IsSettled, IsSettledTo, SettlesNext, IsSpent, IsSpentBefore, IsAt, StopsBefore, computed_of, IsClockSpent};
ghost use Rattle.cell_table.specs.Later.{IsLater};
ghost use Rattle.cell_table.specs.Tended.{IsTended, IsWorked};
ghost use Rattle.cell_table.specs.Advances.{Advances};
ghost use Rattle.due_cells.specs.NextDue.{IsNextDueInRow};
ghost use Rattle.cell_table.specs.Cost.{Settles, SettlesTo, SettlesFirst, SettlesFirstTo};

use super::Table;
use super::alike::Passed;
use crate::watcher::{Nobody, Watcher};
use crate::{SettleFault, Settled, StoreFault};
use cell_states::{Cell, NoRow, WholeRow};
use due_cells::{Along, Beside, Spare, renew};
use grid_law::{Grid, NoMemory};
use std::sync::Arc;

/// A cell that was settled, and whether it held no state or another one before.
#[derive(Clone, Copy)]
struct SettledCell {
    cell: Cell,
    changed: bool,
}

impl<G: Grid> Table<G> {
    /// The first due cell of a cycle, from a component on.
    fn next_due_in(&self, cycle: u32, component: u32) -> Option<u32>
        requires { cycle ≤ self.now.horizon }
        ensures { MatchOption result
            ((k : ℕ) → component ≤ k → (held_at self.now.rows cycle k).is_due ≡ false)
            (λ c. IsNextDueInRow (row_at self.now.rows cycle) component c × (c < G.rules.components self.now.slots)) }
    {
        if !self.is_row_due(cycle) {
            return None;
        }
        self.cells.next_due(cycle, component)
    }

    /// The first due cell at or after `from`, of those before a cycle.
    pub(super) fn next_due_before(&self, from: Cell, end: u32) -> Option<Cell>
        requires { end ≤ self.now.horizon + 1 }
        ensures { MatchOption result
            ((t c : ℕ) → IsThere G.rules self.now t c → AtOrAfter from.cycle from.component t c → t < end → (held_at self.now.rows t c).is_due ≡ false)
            (λ cell. IsNextDue G.rules self.now from.cycle from.component cell × (cell.cycle < end)) }
    {
        if self.cells.due_total() == 0 {
            return None;
        }
        for cycle in from.cycle..end {
            let start = if cycle == from.cycle {
                from.component
            } else {
                0
            };
            if let Some(component) = self.next_due_in(cycle, start) {
                return Some(Cell { cycle, component });
            }
        }
        None
    }

    /// The first due cell at or after `from`, by cycle and then component. It takes no memory, a
    /// cycle with nothing due is passed in one step, and where no cell is due one number tells it.
    pub fn next_due(&self, from: Cell) -> Option<Cell>
        ensures { MatchOption result
            (NoneDueFrom G.rules self.now from.cycle from.component)
            (IsNextDue G.rules self.now from.cycle from.component) }
    {
        self.next_due_before(from, self.cells.cycles())
    }

    /// Whether the cell's state is that of the cell before it, known without a look at any state:
    /// the cell before isn't due, and the near cells held one cycle earlier what they held two
    /// cycles earlier.
    fn is_as_before(&self, cell: Cell) -> bool
        requires { IsThere G.rules self.now cell.cycle cell.component }
        ensures { result ≡ true → IsAsBefore G.rules self.now cell.cycle cell.component }
    {
        if cell.cycle < 2 {
            return false;
        }
        let before = Cell {
            cycle: cell.cycle - 1,
            component: cell.component,
        };
        let near = self.near(cell.component);
        !self.due(before) && self.cells.all_stay(before.cycle, near)
    }

    /// The state that the present slots and near states give a cell.
    fn stepped(&self, cell: Cell) -> Result<Arc<G::State>, NoMemory>
        requires there { IsThere G.rules self.now cell.cycle cell.component }
        requires ready { is_some (inputs_of G.rules self.now.slots self.now.rows cell.cycle cell.component) ≡ true }
        requires later { 0 < cell.cycle }
        ensures { IfOk result (λ x. arc_value x ≡ current_of G.rules self.now.slots self.now.rows cell.cycle cell.component) }
    {
        let alloc = self.cells.allocator();
        let mut near = Vec::new(alloc);
        let all = self.inputs(cell, &mut near)?;
        if all {
            G::step(alloc, &self.slots, near.as_slice(), cell.component)
        } else {
            unreachable!()
        }
    }

    /// A state that was computed for a cell, or none where the cell before holds it.
    fn other_than_before(&self, cell: Cell, state: Arc<G::State>) -> Option<Arc<G::State>>
        requires later { 0 < cell.cycle }
        requires computed { arc_value state ≡ current_of G.rules self.now.slots self.now.rows cell.cycle cell.component }
        ensures { MatchOption result (IsAsBefore G.rules self.now cell.cycle cell.component)
            (λ x. arc_value x ≡ current_of G.rules self.now.slots self.now.rows cell.cycle cell.component) }
    {
        let before = Cell {
            cycle: cell.cycle - 1,
            component: cell.component,
        };
        if self.holds(before, &state) {
            None
        } else {
            Some(state)
        }
    }

    /// The state that the present slots and near states give a cell, or none where it is that of
    /// the cell before.
    pub(super) fn computed(&self, cell: Cell) -> Result<Option<Arc<G::State>>, NoMemory>
        requires there { IsThere G.rules self.now cell.cycle cell.component }
        requires ready { is_some (inputs_of G.rules self.now.slots self.now.rows cell.cycle cell.component) ≡ true }
        ensures { IfOk result (λ o. MatchOption o (IsAsBefore G.rules self.now cell.cycle cell.component)
            (λ x. arc_value x ≡ current_of G.rules self.now.slots self.now.rows cell.cycle cell.component)) }
    {
        if cell.cycle == 0 {
            let alloc = self.cells.allocator();
            return Ok(Some(G::start(alloc, &self.slots, cell.component)?));
        }
        if self.is_as_before(cell) {
            return Ok(None);
        }
        let state = self.stepped(cell)?;
        Ok(self.other_than_before(cell, state))
    }

    /// Whether a cell holds the state of the cell before it, where it may be known that it does.
    pub(super) fn holds_as_before(&self, cell: Cell, stays: bool) -> bool
        requires later { 0 < cell.cycle }
        requires stays { stays ≡ true → (held_at self.now.rows (cell.cycle - 1) cell.component).state ≡ (held_at self.now.rows cell.cycle cell.component).state }
        ensures known { stays ≡ true → result ≡ true }
        ensures holds { (x : G.State) → (held_at self.now.rows (cell.cycle - 1) cell.component).state ≡ Some x
            → IsTrue result ↔ ((held_at self.now.rows cell.cycle cell.component).state ≡ Some x) }
    {
        if stays {
            return true;
        }
        self.cells.is_as_before(cell)
    }

    /// Stores what was computed, as `settle_cell` does.
    #[tactic(auto, using(crate::proofs::Stores::current_of_inputs))]
    pub(super) fn settle_state(
        &mut self,
        cell: Cell,
        state: Arc<G::State>,
    ) -> Result<bool, StoreFault>
        requires there { IsThere G.rules self.old cell.cycle cell.component }
        requires ready { is_some (inputs_of G.rules self.old.slots self.old.rows cell.cycle cell.component) ≡ true }
        requires computed { arc_value state ≡ current_of G.rules self.old.slots self.old.rows cell.cycle cell.component }
        ensures ok { IfOk result (λ changed. IsAfterStore G.rules self.old self.new cell.cycle cell.component
            (current_of G.rules self.old.slots self.old.rows cell.cycle cell.component) changed) }
        ensures room { IfOk result (λ changed. changed ≡ true → self.old.clock < 2 ^ 64 - 1) }
        ensures err { OnErr result (self.new ≡ self.old) }
        ensures spent { result ≡ Err StoreFault.ClockSpent → (self.old.clock ≡ 2 ^ 64 - 1)
            × ((held_at self.old.rows cell.cycle cell.component).state ≢ Some (current_of G.rules self.old.slots self.old.rows cell.cycle cell.component)) }
    {
        let changed = !self.holds(cell, &state);
        if changed && self.clock == u64::MAX {
            return Err(StoreFault::ClockSpent);
        }
        match self.store(cell, state, changed) {
            Ok(()) => Ok(changed),
            Err(_) => Err(StoreFault::Memory),
        }
    }

    /// Stores the state of the cell before, as `settle_cell` does.
    #[tactic(auto, using(crate::proofs::Stores::current_of_inputs))]
    pub(super) fn settle_again(&mut self, cell: Cell) -> Result<bool, StoreFault>
        requires there { IsThere G.rules self.old cell.cycle cell.component }
        requires ready { is_some (inputs_of G.rules self.old.slots self.old.rows cell.cycle cell.component) ≡ true }
        requires computed { IsAsBefore G.rules self.old cell.cycle cell.component }
        ensures ok { IfOk result (λ changed. IsAfterStore G.rules self.old self.new cell.cycle cell.component
            (current_of G.rules self.old.slots self.old.rows cell.cycle cell.component) changed) }
        ensures room { IfOk result (λ changed. changed ≡ true → self.old.clock < 2 ^ 64 - 1) }
        ensures err { OnErr result (self.new ≡ self.old) }
        ensures spent { result ≡ Err StoreFault.ClockSpent → (self.old.clock ≡ 2 ^ 64 - 1)
            × ((held_at self.old.rows cell.cycle cell.component).state ≢ Some (current_of G.rules self.old.slots self.old.rows cell.cycle cell.component)) }
    {
        let stays = self.cells.stays(cell);
        let changed = !self.holds_as_before(cell, stays);
        if changed && self.clock == u64::MAX {
            return Err(StoreFault::ClockSpent);
        }
        match self.store_again(cell, stays, changed) {
            Ok(()) => Ok(changed),
            Err(_) => Err(StoreFault::Memory),
        }
    }

    /// Computes the cell and stores its state; tells whether the cell held no state or another one.
    pub(super) fn settle_cell(&mut self, cell: Cell) -> Result<bool, StoreFault>
        requires there { IsThere G.rules self.old cell.cycle cell.component }
        requires ready { is_some (inputs_of G.rules self.old.slots self.old.rows cell.cycle cell.component) ≡ true }
        ensures ok { IfOk result (λ changed. IsAfterStore G.rules self.old self.new cell.cycle cell.component
            (current_of G.rules self.old.slots self.old.rows cell.cycle cell.component) changed) }
        ensures room { IfOk result (λ changed. changed ≡ true → self.old.clock < 2 ^ 64 - 1) }
        ensures err { OnErr result (self.new ≡ self.old) }
        ensures spent { result ≡ Err StoreFault.ClockSpent → (self.old.clock ≡ 2 ^ 64 - 1)
            × ((held_at self.old.rows cell.cycle cell.component).state ≢ Some (current_of G.rules self.old.slots self.old.rows cell.cycle cell.component)) }
    {
        match self.computed(cell) {
            Ok(Some(state)) => self.settle_state(cell, state),
            Ok(None) => self.settle_again(cell),
            Err(_) => Err(StoreFault::Memory),
        }
    }

    /// Computes the first cell at or after `from` that is due before a cycle and stores its state, which is that of
    /// the run; the cell is told, or none where no cell is due before that cycle. After a fault nothing is changed.
    #[tactic(auto, using(crate::proofs::Stores::holds_same))]
    fn settle_next(&mut self, from: Cell, end: u32) -> Result<Option<SettledCell>, StoreFault>
        requires within { end ≤ self.old.horizon + 1 }
        requires before { NoneDueBefore G.rules self.old from.cycle from.component }
        ensures none { IfOk result (λ o. IfNone o (NoneDueBefore G.rules self.old end 0 × HoldsRunBefore G.rules self.old end 0 × (self.new ≡ self.old))) }
        ensures some { IfOk result (λ o. IfSome o (λ s. SettlesNext G.rules self.old self.new from.cycle from.component s.cell)) }
        ensures kept { IfOk result (λ o. IfSome o (λ s. s.changed ≡ false → HoldsSame G.rules self.old self.new)) }
        ensures fits { IfOk result (λ o. IfSome o (λ s. (s.cell.cycle < end) × (s.cell.component + 1 < 2 ^ 32))) }
        ensures err { OnErr result (self.new ≡ self.old) }
        ensures spent { result ≡ Err StoreFault.ClockSpent → IsSpentBefore G.rules end self.old from.cycle from.component }
    {
        // The number of a component is below this one, so that of the next fits.
        let _count = G::components(&self.slots);
        match self.next_due_before(from, end) {
            Some(cell) => match self.settle_cell(cell) {
                Ok(changed) => Ok(Some(SettledCell { cell, changed })),
                Err(fault) => Err(fault),
            },
            None => Ok(None),
        }
    }

    /// Tells a watcher of a cell that was settled.
    fn tell<W: Watcher<G>>(&self, watcher: &mut W, settled: SettledCell)
        requires { (before : Seen G.State G.Slots) × W.keeps watcher.old before × IsStored G.rules before self.now settled.cell.cycle settled.cell.component × (settled.changed ≡ false → HoldsSame G.rules before self.now) }
        ensures { W.keeps watcher.new self.now }
    {
        if settled.changed {
            watcher.stored(self, settled.cell);
        } else {
            watcher.kept(self, settled.cell);
        }
    }

    /// Computes the first cell at or after `from` that is due before a cycle, or at once the cells of all cycles from there
    /// on in which the same happens as in the one before, and tells a watcher: where to go on, or none where no cell is due
    /// before that cycle. After a fault nothing is changed.
    fn settle_more<M: WholeRow<G>, W: Watcher<G>>(
        &mut self,
        from: Cell,
        end: u32,
        spare: &mut Spare,
        along: &mut Option<Along<M>>,
        beside: &mut Beside<M>,
        watcher: &mut W,
    ) -> Result<Option<Passed>, StoreFault>
        requires within { end ≤ self.old.horizon + 1 }
        requires none { NoneDueBefore G.rules self.old from.cycle from.component }
        requires worked { IsWorked G.rules G.codec M.stands M.state (W.keeps watcher.old) self.old spare.old along.old beside.old }
        ensures worked { IsWorked G.rules G.codec M.stands M.state (W.keeps watcher.new) self.new spare.new along.new beside.new }
        ensures none { IfOk result (λ o. IfNone o (NoneDueBefore G.rules self.old end 0 × HoldsRunBefore G.rules self.old end 0 × (self.new ≡ self.old))) }
        ensures on { IfOk result (λ o. IfSome o (λ p. Advances G.rules end self.old self.new from.cycle from.component p.to.cycle p.to.component p.computed)) }
        ensures err { OnErr result (self.new ≡ self.old) }
        ensures spent { result ≡ Err StoreFault.ClockSpent → IsSpentBefore G.rules end self.old from.cycle from.component }
    {
        match self.settle_at_once(from, end, spare, along, beside, watcher) {
            Some(passed) => return Ok(Some(passed)),
            None => {}
        }
        match self.settle_next(from, end) {
            Ok(Some(settled)) => {
                spare.known_at = 0;
                self.tell(watcher, settled);
                let to = Cell {
                    cycle: settled.cell.cycle,
                    component: settled.cell.component + 1,
                };
                Ok(Some(Passed { to, computed: 1 }))
            }
            Ok(None) => Ok(None),
            Err(fault) => Err(fault),
        }
    }

    /// As `settle_each`, from a cycle on before which no cell is due, where there is what settling takes beside the table.
    fn settle_all<M: WholeRow<G>, W: Watcher<G>>(
        &mut self,
        start: u32,
        end: u32,
        spare: &mut Spare,
        along: &mut Option<Along<M>>,
        beside: &mut Beside<M>,
        watcher: &mut W,
    ) -> Result<Settled, SettleFault>
        requires start { start ≤ end }
        requires at { IsAt G.rules self.old self.old start 0 0 }
        requires within { end ≤ self.old.horizon + 1 }
        requires worked { IsWorked G.rules G.codec M.stands M.state (W.keeps watcher.old) self.old spare.old along.old beside.old }
        ensures worked { IsWorked G.rules G.codec M.stands M.state (W.keeps watcher.new) self.new spare.new along.new beside.new }
        ensures all { IfOk result (λ s. IsAt G.rules self.old self.new end 0 s.computed) }
        ensures stops { IfErr result (λ f. StopsBefore G.rules end self.old self.new (computed_of f)) }
        ensures spent { IfErr result (λ f. IsClockSpent f → IsSpentBefore G.rules end self.new 0 0) }
    {
        let mut computed: u64 = 0;
        let mut from = Cell {
            cycle: start,
            component: 0,
        };
        loop {
            match self.settle_more(from, end, spare, along, beside, watcher) {
                Ok(Some(passed)) => {
                    computed += passed.computed;
                    from = passed.to;
                }
                Ok(None) => return Ok(Settled { computed }),
                Err(StoreFault::ClockSpent) => return Err(SettleFault::ClockSpent { computed }),
                Err(StoreFault::Memory) => return Err(SettleFault::Memory { computed }),
            }
        }
    }

    /// As `settle_before`, one cell after another, and cycles at once where the same happens as in the one before.
    fn settle_each<M: WholeRow<G>, W: Watcher<G>>(
        &mut self,
        end: u32,
        beside: &mut Beside<M>,
        watcher: &mut W,
    ) -> Result<Settled, SettleFault>
        requires within { end ≤ self.old.horizon + 1 }
        requires tended { IsTended G.rules G.codec M.stands M.state (W.keeps watcher.old) self.old beside.old }
        ensures tended { IsTended G.rules G.codec M.stands M.state (W.keeps watcher.new) self.new beside.new }
        ensures all { IfOk result (λ s. IsAt G.rules self.old self.new end 0 s.computed) }
        ensures stops { IfErr result (λ f. StopsBefore G.rules end self.old self.new (computed_of f)) }
        ensures spent { IfErr result (λ f. IsClockSpent f → IsSpentBefore G.rules end self.new 0 0) }
    {
        let computed: u64 = 0;
        let from = Cell {
            cycle: 0,
            component: 0,
        };
        let start = match self.next_due_before(from, end) {
            Some(cell) => cell.cycle,
            None => return Ok(Settled { computed }),
        };
        let count = G::components(&self.slots);
        let mut spare = match Spare::new(self.cells.allocator(), count) {
            Ok(spare) => spare,
            Err(_) => return Err(SettleFault::Memory { computed }),
        };
        renew::<G, M>(beside, &self.slots);
        let mut along = beside.along.take();
        let settled = self.settle_all(start, end, &mut spare, &mut along, beside, watcher);
        beside.along = along;
        settled
    }

    /// The cycle behind one, at most that behind the horizon.
    fn end_of(&self, last: u32) -> u32
        ensures within { result ≤ self.now.horizon + 1 }
        ensures up_to { result ≤ last + 1 }
        ensures covers { (t : ℕ) → t ≤ last → t ≤ self.now.horizon → t < result }
    {
        if last < self.horizon {
            last + 1
        } else {
            self.cells.cycles()
        }
    }

    /// Keeps in mind that each cell before a cycle holds a state: none of them is due.
    fn note_held(&mut self, end: u32)
        requires within { end ≤ self.old.horizon + 1 }
        requires none { NoneDueBefore G.rules self.old end 0 }
        ensures { self.new ≡ self.old }
    {
        self.held = self.held.max(end);
    }

    /// Settles the cells before a cycle, and tells a watcher.
    fn settle_before<M: WholeRow<G>, W: Watcher<G>>(
        &mut self,
        end: u32,
        beside: &mut Beside<M>,
        watcher: &mut W,
    ) -> Result<Settled, SettleFault>
        requires within { end ≤ self.old.horizon + 1 }
        requires tended { IsTended G.rules G.codec M.stands M.state (W.keeps watcher.old) self.old beside.old }
        ensures tended { IsTended G.rules G.codec M.stands M.state (W.keeps watcher.new) self.new beside.new }
        ensures all { IfOk result (λ s. IsAt G.rules self.old self.new end 0 s.computed) }
        ensures stops { IfErr result (λ f. StopsBefore G.rules end self.old self.new (computed_of f)) }
        ensures spent { IfErr result (λ f. IsClockSpent f → IsSpentBefore G.rules end self.new 0 0) }
    {
        let settled = self.settle_each::<M, W>(end, beside, watcher)?;
        self.note_held(end);
        Ok(settled)
    }

    /// `settle_to`, where `watcher` is told of what is stored as soon as it is, and cycles are settled by rows of all components, which
    /// are kept: a further call goes on by them.
    ///
    /// # Errors
    ///
    /// As `settle`. The watcher was told of just those cells that stay stored.
    pub fn settle_rows_to<M: WholeRow<G>, W: Watcher<G>>(
        &mut self,
        last: u32,
        beside: &mut Beside<M>,
        watcher: &mut W,
    ) -> Result<Settled, SettleFault>
        requires tended { IsTended G.rules G.codec M.stands M.state (W.keeps watcher.old) self.old beside.old }
        ensures tended { IsTended G.rules G.codec M.stands M.state (W.keeps watcher.new) self.new beside.new }
        ensures headline_settles { IfOk result (λ s. (done : List (Event G.State G.Slots G.Slot)) × ((o : Start G.Slots) (h : List (Event G.State G.Slots G.Slot)) → Stands G.rules o self.old h
            → SettlesTo G.rules o last h self.new done s.computed)) }
        ensures after_fault { IfErr result (λ f. (done : List (Event G.State G.Slots G.Slot)) × ((o : Start G.Slots) (h : List (Event G.State G.Slots G.Slot)) → Stands G.rules o self.old h
            → SettlesFirstTo G.rules o last h self.new done (computed_of f))) }
        ensures settled { OnOk result (IsSettledTo G.rules last self.new) }
        ensures later { IsLater self.old self.new }
        ensures spent { IfErr result (λ f. IsClockSpent f → self.new.clock ≡ 2 ^ 64 - 1) }
        ensures differs { IfErr result (λ f. IsClockSpent f → (spent : IsSpent G.rules self.new 0 0) × (spent.cell.cycle ≤ last)) }
    {
        let end = self.end_of(last);
        self.settle_before::<M, W>(end, beside, watcher)
    }

    /// `settle`, where `watcher` is told of what is stored as soon as it is, and cycles of which many cells are due are settled by a row of
    /// all components.
    ///
    /// # Errors
    ///
    /// As `settle`. The watcher was told of just those cells that stay stored.
    pub fn settle_rows<M: WholeRow<G>, W: Watcher<G>>(
        &mut self,
        beside: &mut Beside<M>,
        watcher: &mut W,
    ) -> Result<Settled, SettleFault>
        requires tended { IsTended G.rules G.codec M.stands M.state (W.keeps watcher.old) self.old beside.old }
        ensures tended { IsTended G.rules G.codec M.stands M.state (W.keeps watcher.new) self.new beside.new }
        ensures headline_settles { IfOk result (λ s. (done : List (Event G.State G.Slots G.Slot)) × ((o : Start G.Slots) (h : List (Event G.State G.Slots G.Slot)) → Stands G.rules o self.old h
            → Settles G.rules o h self.new done s.computed)) }
        ensures after_fault { IfErr result (λ f. (done : List (Event G.State G.Slots G.Slot)) × ((o : Start G.Slots) (h : List (Event G.State G.Slots G.Slot)) → Stands G.rules o self.old h
            → SettlesFirst G.rules o h self.new done (computed_of f))) }
        ensures settled { OnOk result (IsSettled G.rules self.new) }
        ensures later { IsLater self.old self.new }
        ensures spent { IfErr result (λ f. IsClockSpent f → self.new.clock ≡ 2 ^ 64 - 1) }
        ensures differs { IfErr result (λ f. IsClockSpent f → IsSpent G.rules self.new 0 0) }
    {
        let last = self.horizon();
        self.settle_rows_to::<M, W>(last, beside, watcher)
    }

    /// Settles the cells up to a cycle as `settle` settles all. The cells stored are exactly those of that cycle or an
    /// earlier one that `settle` would store, each once, by cycle and then component, and `computed` is their number.
    /// Afterwards every cell up to that cycle holds the run. What is due behind it stays due, and a further call goes on.
    ///
    /// # Errors
    ///
    /// As `settle`.
    pub fn settle_to(&mut self, last: u32) -> Result<Settled, SettleFault>
        ensures headline_settles { IfOk result (λ s. (done : List (Event G.State G.Slots G.Slot)) × ((o : Start G.Slots) (h : List (Event G.State G.Slots G.Slot)) → Stands G.rules o self.old h
            → SettlesTo G.rules o last h self.new done s.computed)) }
        ensures after_fault { IfErr result (λ f. (done : List (Event G.State G.Slots G.Slot)) × ((o : Start G.Slots) (h : List (Event G.State G.Slots G.Slot)) → Stands G.rules o self.old h
            → SettlesFirstTo G.rules o last h self.new done (computed_of f))) }
        ensures settled { OnOk result (IsSettledTo G.rules last self.new) }
        ensures later { IsLater self.old self.new }
        ensures spent { IfErr result (λ f. IsClockSpent f → self.new.clock ≡ 2 ^ 64 - 1) }
        ensures differs { IfErr result (λ f. IsClockSpent f → (spent : IsSpent G.rules self.new 0 0) × (spent.cell.cycle ≤ last)) }
    {
        self.settle_rows_to::<NoRow, Nobody>(last, &mut Beside::none(), &mut Nobody)
    }

    /// Computes and stores the first due cell until none is due. The cells stored are exactly those
    /// that were due, or that had a near cell one cycle earlier with another state than that of the
    /// run; each is stored once, by cycle and then component, and `computed` is their number.
    /// Afterwards every cell holds the run. After a fault the cells computed stay stored and the
    /// rest stays due, and a further call goes on. The clock never falls. The cells are passed once
    /// in all, a cycle with nothing due in one step, and cycles in which the same happens as in the one before together.
    ///
    /// # Errors
    ///
    /// ClockSpent where a store would change a state and the clock is 2^64 - 1, Memory where a growth
    /// was refused; each with the number of cells that were computed and stay stored.
    pub fn settle(&mut self) -> Result<Settled, SettleFault>
        ensures headline_settles { IfOk result (λ s. (done : List (Event G.State G.Slots G.Slot)) × ((o : Start G.Slots) (h : List (Event G.State G.Slots G.Slot)) → Stands G.rules o self.old h
            → Settles G.rules o h self.new done s.computed)) }
        ensures after_fault { IfErr result (λ f. (done : List (Event G.State G.Slots G.Slot)) × ((o : Start G.Slots) (h : List (Event G.State G.Slots G.Slot)) → Stands G.rules o self.old h
            → SettlesFirst G.rules o h self.new done (computed_of f))) }
        ensures settled { OnOk result (IsSettled G.rules self.new) }
        ensures later { IsLater self.old self.new }
        ensures spent { IfErr result (λ f. IsClockSpent f → self.new.clock ≡ 2 ^ 64 - 1) }
        ensures differs { IfErr result (λ f. IsClockSpent f → IsSpent G.rules self.new 0 0) }
    {
        self.settle_rows::<NoRow, Nobody>(&mut Beside::none(), &mut Nobody)
    }
}
