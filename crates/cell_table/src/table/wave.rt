//! Settling by states that were computed beside the table, a cycle at a time.
ghost use Rattle.std.specs.Prelude.{◌≡◌, ◌≢◌, ℕ, ◌+◌, ◌-◌, ◌^◌, ◌<◌, ◌≤◌, ◌++◌, ◌∷◌, [], All, IfOk, OnOk, OnErr, IfNone, IfSome, Err, is_some, option_map, true, false, None, Some, if◌then◌else◌};
ghost use Rattle.std.specs.Arc.{arc_value};
ghost use Rattle.due_cells.specs.Seen.{due_at, held_at};
ghost use Rattle.cell_table.specs.Cells.{IsThere};
ghost use Rattle.due_cells.specs.Inputs.{inputs_of};
ghost use Rattle.cell_table.specs.Consistent.{current_of};
ghost use Rattle.cell_table.specs.Gives.{IsAfterStore};
ghost use Rattle.cell_table.specs.Settling.{NoneDueBefore, IsSettled, SettlesNext, IsSpent};
ghost use Rattle.cell_table.specs.Waves.{known_of, works_below, IsFound, IsWork, IsReady, IsNextWave};

use super::Table;
use crate::{StoreFault, Work};
use cell_states::Cell;
use grid_law::{Grid, NoMemory};
use std::sync::Arc;

/// What was computed for a cell, where the work is of that cell.
fn found_for<G: Grid>(
    work: Option<Work<G>>,
    cell: Cell,
) -> Option<Result<Option<Arc<G::State>>, NoMemory>>
    ensures { (s : G.Slots) → IfSome work (IsWork G.rules s) → IfSome (known_of arc_value result) (IsFound G.rules s cell.cycle cell.component) }
{
    match work {
        Some(work) if work.cell() == cell => work.into_found(),
        _ => None,
    }
}

impl<G: Grid> Table<G> {
    /// The state of the run for a cell where no earlier cycle has a due one; none where it is that of
    /// the cell before it.
    pub(crate) fn find(&self, cell: Cell) -> Result<Option<Arc<G::State>>, NoMemory>
        requires { IsReady G.rules self.now cell.cycle cell.component }
        ensures { IfOk result (λ o. IsFound G.rules self.now.slots cell.cycle cell.component (option_map arc_value o)) }
    {
        let _ = &self.slots;
        self.computed(cell)
    }

    /// Stores what was found for a cell; where nothing was, computes it here.
    fn settle_found(
        &mut self,
        cell: Cell,
        found: Option<Result<Option<Arc<G::State>>, NoMemory>>,
    ) -> Result<bool, StoreFault>
        requires there { IsReady G.rules self.old cell.cycle cell.component }
        requires ready { is_some (inputs_of G.rules self.old.slots self.old.rows cell.cycle cell.component) ≡ true }
        requires found { IfSome (known_of arc_value found) (IsFound G.rules self.old.slots cell.cycle cell.component) }
        ensures ok { IfOk result (λ changed. IsAfterStore G.rules self.old self.new cell.cycle cell.component
            (current_of G.rules self.old.slots self.old.rows cell.cycle cell.component) changed) }
        ensures room { IfOk result (λ changed. changed ≡ true → self.old.clock < 2 ^ 64 - 1) }
        ensures err { OnErr result (self.new ≡ self.old) }
        ensures spent { result ≡ Err StoreFault.ClockSpent → (self.old.clock ≡ 2 ^ 64 - 1)
            × ((held_at self.old.rows cell.cycle cell.component).state ≢ Some (current_of G.rules self.old.slots self.old.rows cell.cycle cell.component)) }
    {
        let _ = &self.slots;
        match found {
            Some(Ok(Some(state))) => self.settle_state(cell, state),
            Some(Ok(None)) => self.settle_again(cell),
            Some(Err(_)) => Err(StoreFault::Memory),
            None => self.settle_cell(cell),
        }
    }

    /// Adds the work of a cell, where that is due.
    fn add_work(&self, works: &mut Vec<Work<G>>, cell: Cell) -> Result<(), NoMemory>
        ensures { OnOk result (works.new.items ≡ works.old.items
            ++ (if due_at self.now.rows cell.cycle cell.component then record { cell = cell; known = None } ∷ [] else [])) }
    {
        if self.due(cell) {
            works.push(Work::new(cell))?;
        }
        Ok(())
    }

    /// The due cells of a cycle.
    fn due_works(&self, cycle: u32) -> Result<Vec<Work<G>>, NoMemory>
        requires cycle { cycle ≤ self.now.horizon }
        requires earlier { NoneDueBefore G.rules self.now cycle 0 }
        ensures ready { IfOk result (λ works. All (λ w. IsReady G.rules self.now w.cell.cycle w.cell.component) works.items) }
        ensures all { IfOk result (λ works. works.items ≡ works_below self.now.rows cycle (G.rules.components self.now.slots)) }
    {
        let mut works = Vec::with_capacity(
            self.cells.allocator(),
            self.cells.due_count(cycle) as usize,
        )?;
        for component in 0..G::components(&self.slots) {
            self.add_work(&mut works, Cell { cycle, component })?;
        }
        Ok(works)
    }

    /// The due cells of the first cycle that has any at or after `from`, in the order of components,
    /// where none before `from` is due. They may be computed on any threads, by `Work::compute`.
    ///
    /// # Errors
    ///
    /// Where a growth was refused. Nothing is changed.
    pub fn next_works(&self, from: Cell) -> Result<Vec<Work<G>>, NoMemory>
        requires { NoneDueBefore G.rules self.now from.cycle from.component }
        ensures ready { IfOk result (λ works. All (λ w. IsReady G.rules self.now w.cell.cycle w.cell.component) works.items) }
        ensures all { IfOk result (λ works. IsNextWave G.rules self.now works.items) }
    {
        match self.next_due(from) {
            Some(cell) => self.due_works(cell.cycle),
            None => Ok(Vec::new(self.cells.allocator())),
        }
    }

    /// Stores the state of the first due cell at or after `from`, where none before `from` is due, and
    /// tells the cell, or none where no cell is due. The state is what the work found, where it is of
    /// that cell; else it is computed here. After a fault nothing is changed: Memory also where the
    /// work met want of memory.
    ///
    /// # Errors
    ///
    /// ClockSpent where the store would change a state and the clock is 2^64 - 1, Memory where a growth
    /// was refused, here or in the work. Nothing is changed.
    pub fn settle_work(
        &mut self,
        from: Cell,
        work: Option<Work<G>>,
    ) -> Result<Option<Cell>, StoreFault>
        requires before { NoneDueBefore G.rules self.old from.cycle from.component }
        requires work { IfSome work (IsWork G.rules self.old.slots) }
        ensures none { IfOk result (λ o. IfNone o (IsSettled G.rules self.old × (self.new ≡ self.old))) }
        ensures some { IfOk result (λ o. IfSome o (SettlesNext G.rules self.old self.new from.cycle from.component)) }
        ensures fits { IfOk result (λ o. IfSome o (λ cell. (cell.cycle < 2 ^ 32) × (cell.component + 1 < 2 ^ 32))) }
        ensures err { OnErr result (self.new ≡ self.old) }
        ensures spent { result ≡ Err StoreFault.ClockSpent → IsSpent G.rules self.old from.cycle from.component }
    {
        // The number of a component is below this one, so that of the next fits.
        let _count = G::components(&self.slots);
        match self.next_due(from) {
            Some(cell) => match self.settle_found(cell, found_for(work, cell)) {
                Ok(_changed) => Ok(Some(cell)),
                Err(fault) => Err(fault),
            },
            None => Ok(None),
        }
    }
}
