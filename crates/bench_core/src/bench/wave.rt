//! Computing due cells a cycle at a time, on whatever threads.
ghost use Rattle.std.specs.Prelude.{◌≡◌, ℕ, ◌+◌, ◌^◌, ◌<◌, All, IfOk, OnErr, IfNone, IfSome, Err};
ghost use Rattle.cell_table.specs.Settling.{NoneDueBefore, IsSettled, SettlesNext, IsSpent};
ghost use Rattle.cell_table.specs.Waves.{IsReady, IsWork, IsNextWave};
ghost use Rattle.machine_cells.specs.GridRules.{rp3_rules};
ghost use Rattle.bench_core.specs.Shown.{project_of};

use super::Bench;
use cell_table::{Cell, StoreFault, Table, Watcher, Work};
use grid_law::NoMemory;
use machine_cells::Rp3;

impl Bench {
    /// The cells.
    pub fn cells(&self) -> &Table<Rp3>
        ensures { result.now ≡ self.now.table }
    {
        &self.table
    }

    /// The due cells of the first cycle that has any at or after `from`, in the order of components, where none before
    /// `from` is due. They may be computed on any threads, by `Work::compute`, from the cells as they are.
    ///
    /// # Errors
    ///
    /// Where a growth was refused. Nothing is changed.
    pub fn next_works(&self, from: Cell) -> Result<Vec<Work<Rp3>>, NoMemory>
        requires { NoneDueBefore rp3_rules self.now.table from.cycle from.component }
        ensures ready { IfOk result (λ works. All (λ w. IsReady rp3_rules self.now.table w.cell.cycle w.cell.component) works.items) }
        ensures all { IfOk result (λ works. IsNextWave rp3_rules self.now.table works.items) }
    {
        self.table.next_works(from)
    }

    /// Stores the state of the first due cell at or after `from`, where none before `from` is due, and tells the cell, or
    /// none where no cell is due. The state is what the work found, where it is of that cell; else it is computed here.
    /// After a fault nothing is changed: Memory also where the work met want of memory.
    ///
    /// # Errors
    ///
    /// ClockSpent where the store would change a state and the clock is 2^64 - 1, Memory where a growth
    /// was refused, here or in the work. Nothing is changed.
    pub fn settle_work(
        &mut self,
        from: Cell,
        work: Option<Work<Rp3>>,
    ) -> Result<Option<Cell>, StoreFault>
        requires before { NoneDueBefore rp3_rules self.old.table from.cycle from.component }
        requires work { IfSome work (IsWork rp3_rules (project_of self.old)) }
        ensures none { IfOk result (λ o. IfNone o (IsSettled rp3_rules self.old.table × (self.new ≡ self.old))) }
        ensures some { IfOk result (λ o. IfSome o (SettlesNext rp3_rules self.old.table self.new.table from.cycle from.component)) }
        ensures fits { IfOk result (λ o. IfSome o (λ cell. (cell.cycle < 2 ^ 32) × (cell.component + 1 < 2 ^ 32))) }
        ensures err { OnErr result (self.new ≡ self.old) }
        ensures spent { result ≡ Err StoreFault.ClockSpent → IsSpent rp3_rules self.old.table from.cycle from.component }
        ensures journal { self.new.journal ≡ self.old.journal }
    {
        match self.table.settle_work(from, work) {
            Ok(Some(cell)) => {
                self.counters.stored(&self.table, cell);
                Ok(Some(cell))
            }
            Ok(None) => Ok(None),
            Err(fault) => Err(fault),
        }
    }
}
