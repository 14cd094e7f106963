//! Computing due cells.
ghost use Rattle.std.specs.Prelude.{◌≡◌, ℕ, ◌-◌, ◌^◌, ◌≤◌, IfOk, IfErr, IfNone, IfSome, OnOk, List, ◌∷◌, length};
ghost use Rattle.cell_table.specs.Claims.{NoneDue, IsNextRound, IsClaim};
ghost use Rattle.cell_table.specs.Gives.{GivesAs};
ghost use Rattle.cell_table.specs.Settling.{IsSettled, IsSettledTo, IsSpent, computed_of, IsClockSpent};
ghost use Rattle.cell_table.specs.Events.{Event as TableEvent, Start};
ghost use Rattle.cell_table.specs.Stands.{Stands as TableStands};
ghost use Rattle.cell_table.specs.Cost.{Settles as SettlesTable, SettlesFirst as SettlesTableFirst};
ghost use Rattle.machine_cells.specs.declared.state.MachineState.{MachineState as CellState};
ghost use Rattle.machine_cells.specs.GridRules.{rp3_rules};
ghost use Rattle.project_book.specs.Project.{Project as ProjectValue};
ghost use Rattle.project_book.specs.declared.slot.Slot.{Slot as ReadSlot};
ghost use Rattle.run_queries.specs.declared.query.Query.{Query as AnyQuery};
ghost use Rattle.bench_core.specs.Later.{IsLater};
ghost use Rattle.bench_core.specs.Shown.{project_of};
ghost use Rattle.bench_core.specs.Asks.{pending, last_cycle, IsUpTo};
ghost use Rattle.bench_core.specs.Events.{Event, Claimed, Opening};
ghost use Rattle.bench_core.specs.Stands.{Stands};
ghost use Rattle.bench_core.specs.Answers.{Made, AnswersMade, after_give, clock_given, Settles, SettlesTo, SettlesFirst, SettlesFirstTo};

use super::Bench;
use cell_table::{Cell, Claim, Done, Given, SettleFault, Settled, Watcher};
use grid_law::NoMemory;
use machine_cells::Rp3;
use whole_rows::MachineRow;

impl Bench {
    /// A claim of the first cell at or after `from`, by cycle and then component, that is due and whose near cells one
    /// cycle earlier all hold a state, wrapping round once; none exactly where no cell is due. Nothing is changed.
    ///
    /// # Errors
    ///
    /// Where a growth was refused, or a state has as many owners as can be counted. The bench is as
    /// before.
    pub fn claim(&self, from: Cell) -> Result<Option<Claim<Rp3>>, NoMemory>
        ensures none { IfOk result (λ r. IfNone r (NoneDue rp3_rules self.now.table)) }
        ensures next { IfOk result (λ r. IfSome r (λ claim. IsNextRound rp3_rules self.now.table from.cycle from.component claim.cell)) }
        ensures holds { IfOk result (λ r. IfSome r (IsClaim rp3_rules self.now.table)) }
        ensures headline_claims { IfOk result (λ r. IfSome r (λ claim. (o : Opening) (h : List Event) → Stands o self.now h
            → Stands o self.now (Claimed claim.cell.cycle claim.cell.component ∷ h)
            × Made o claim (Claimed claim.cell.cycle claim.cell.component ∷ h) (length h))) }
    {
        self.table.claim(from)
    }

    /// Stores the result of a claim where, since the claim, its cell stayed due and nothing that it read has changed.
    /// The answer is the first of `Given` that applies, in that order; all but `Stored` change nothing. The clock rises
    /// by one where the state is another one than the cell held. It gets its memory before it changes anything, and
    /// needs none where the state is the one held.
    pub fn give(&mut self, done: Done<Rp3>) -> Given<Done<Rp3>>
        ensures headline_foreign { GivesAs rp3_rules self.old.table done result self.new.table }
        ensures journal { self.new.journal ≡ self.old.journal }
        ensures project { project_of self.new ≡ project_of self.old }
        ensures clock { self.new.table.clock ≡ clock_given result self.old.table.clock }
        ensures headline_stands { (o : Opening) (h : List Event) → Stands o self.old h → Stands o self.new (after_give result done h) }
        ensures headline_gives { (o : Opening) (h : List Event) (n : ℕ) → Stands o self.old h → Made o done.claim h n
            → AnswersMade o h n done result }
    {
        let cell = done.cell();
        match self.table.give(done) {
            Given::Stored { changed } => {
                self.counters.stored(&self.table, cell);
                Given::Stored { changed }
            }
            given => given,
        }
    }

    /// Computes the first due cell, by cycle and then component, until none is due. The cells stored are exactly those
    /// that were due, or that had a near cell one cycle earlier with another state than that of the run; each is stored
    /// once, and `computed` is their number. Afterwards every cell holds the run, and no query is answered Pending. After
    /// a fault the cells computed stay stored and the rest stays due, and a further call goes on. The clock never falls.
    ///
    /// # Errors
    ///
    /// ClockSpent where a store would change a state and the clock is 2^64 - 1, Memory where a growth
    /// was refused; each with the number of cells that were computed and stay stored.
    pub fn settle(&mut self) -> Result<Settled, SettleFault>
        ensures headline_settles { IfOk result (λ s. (done : List (TableEvent CellState ProjectValue ReadSlot)) × ((o : Opening) (h : List Event) → Stands o self.old h
            → Settles o h self.new done s.computed)) }
        ensures after_fault { IfErr result (λ f. (done : List (TableEvent CellState ProjectValue ReadSlot)) × ((o : Opening) (h : List Event) → Stands o self.old h
            → SettlesFirst o h self.new done (computed_of f))) }
        ensures settled { OnOk result (IsSettled rp3_rules self.new.table) }
        ensures ready { OnOk result ((query : AnyQuery) → pending self.new query ≡ 0) }
        ensures later { IsLater self.old self.new }
        ensures spent { IfErr result (λ f. IsClockSpent f → self.new.table.clock ≡ 2 ^ 64 - 1) }
        ensures differs { IfErr result (λ f. IsClockSpent f → IsSpent rp3_rules self.new.table 0 0) }
    {
        let table = &mut self.table;
        table.settle_rows::<MachineRow, _>(&mut self.rows, &mut self.counters)
    }

    /// Settles the cells up to a cycle as `settle` settles all. The cells stored are exactly those of that cycle or an
    /// earlier one that `settle` would store, each once, and `computed` is their number. Afterwards every cell up to that
    /// cycle holds the run, and no query whose last cycle isn't behind it is answered Pending. What is due behind it stays
    /// due.
    ///
    /// # Errors
    ///
    /// As `settle`.
    pub fn settle_to(&mut self, last: u32) -> Result<Settled, SettleFault>
        ensures headline_settles { IfOk result (λ s. (done : List (TableEvent CellState ProjectValue ReadSlot)) × ((o : Opening) (h : List Event) → Stands o self.old h
            → SettlesTo last o h self.new done s.computed)) }
        ensures after_fault { IfErr result (λ f. (done : List (TableEvent CellState ProjectValue ReadSlot)) × ((o : Opening) (h : List Event) → Stands o self.old h
            → SettlesFirstTo last o h self.new done (computed_of f))) }
        ensures settled { OnOk result (IsSettledTo rp3_rules last self.new.table) }
        ensures ready { OnOk result ((query : AnyQuery) → IsUpTo (last_cycle (project_of self.new) query) last → pending self.new query ≡ 0) }
        ensures later { IsLater self.old self.new }
        ensures spent { IfErr result (λ f. IsClockSpent f → self.new.table.clock ≡ 2 ^ 64 - 1) }
        ensures differs { IfErr result (λ f. IsClockSpent f → (spent : IsSpent rp3_rules self.new.table 0 0) × (spent.cell.cycle ≤ last)) }
    {
        let (table, counters) = (&mut self.table, &mut self.counters);
        table.settle_rows_to::<MachineRow, _>(last, &mut self.rows, counters)
    }
}
