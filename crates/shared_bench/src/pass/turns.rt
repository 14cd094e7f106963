//! What a pass does in its turn. Each call waits for the turn, makes one call of the bench, and passes the turn on: one turn
//! more, with the bench that it met and the bench that it left. While another pass has the turn, the thread sleeps. Where a
//! call returns is all that is said: that another pass ever passes its turn on isn't.
ghost use Rattle.std.specs.Prelude.{◌≡◌, ◌≤◌, true, [], ◌∷◌, ◌++◌, min, length, All, IfOk, IfErr, IfSome, Err, vec_len, vec_capacity};
ghost use Rattle.cell_table.specs.Gives.{GivesAs};
ghost use Rattle.cell_table.specs.Settling.{IsClockSpent};
ghost use Rattle.machine_cells.specs.GridRules.{rp3_rules};
ghost use Rattle.bench_core.specs.Shown.{Shown as AnyBench};
ghost use Rattle.bench_core.specs.Asks.{AsksAs};
ghost use Rattle.shared_bench.specs.Known.{IsLater, TookTurn};
ghost use Rattle.bench_core.specs.Told.{TellsAt, TellsAsked, AnswersAt, RefusesAt};
ghost use Rattle.bench_core.specs.Answering.{SettlesAs};
ghost use Rattle.shared_bench.specs.Answers.{project_seen, IsMet, IsInTurn, EditsAs, ClaimsAs, IsGivenSpent};
ghost use Rattle.shared_bench.specs.Slices.{SlicesAs};
ghost use Rattle.shared_bench.specs.Lots.{ClaimsLot, GivesLot};

use super::Pass;
use crate::steps::{leave, leave_edited, wait_turn};
use bench_core::{Asked, Told};
use cell_table::{Cell, Claim, Done, Given, SettleFault};
use grid_law::NoMemory;
use machine_cells::Rp3;
use project_book::{Edit, EditFault, Project};
use run_queries::Query;
use std::sync::Wait;
use std::thread::Threads;

impl Pass {
    /// Settles the bench as far as the answer looks and answers it, as `Bench::answer`, in one turn. At an answer, `version`
    /// is the length of the journal that the pass has then seen, and `body` is the answer of the run, simulated from cycle
    /// 0, of the opening's project with the edits of that journal applied. It is never kept waiting for due cells; after any
    /// answer the cells stored stay stored, and what is due behind the cycles that the answer looks at stays due.
    pub fn ask<R: Threads + Wait + Sync>(&mut self, rt: &R, query: Query) -> Told
        ensures threads_ask { TellsAt (project_seen self.new) (length self.new.seen) query result }
        ensures later { IsLater self.old self.new }
        ensures own { (self.new.numbers ≡ self.old.numbers) × (self.new.receipts ≡ self.old.receipts) }
        ensures in_turn { (d : AnyBench) × (next : AnyBench) × IsInTurn self.new d × IsInTurn self.new next × SettlesAs query result d next × TellsAsked next query result × TookTurn self.old self.new d next }
        ensures spent { result ≡ Told.ClockSpent → self.new.spent ≡ true }
    {
        self.ask_with(rt, rt, query)
    }

    /// As `ask`, where one handle lets it wait and another start threads.
    pub fn ask_with<W: Wait, T: Threads + Sync>(&mut self, host: &W, rt: &T, query: Query) -> Told
        ensures threads_ask { TellsAt (project_seen self.new) (length self.new.seen) query result }
        ensures later { IsLater self.old self.new }
        ensures own { (self.new.numbers ≡ self.old.numbers) × (self.new.receipts ≡ self.old.receipts) }
        ensures in_turn { (d : AnyBench) × (next : AnyBench) × IsInTurn self.new d × IsInTurn self.new next × SettlesAs query result d next × TellsAsked next query result × TookTurn self.old self.new d next }
        ensures spent { result ≡ Told.ClockSpent → self.new.spent ≡ true }
    {
        let mut bench = wait_turn(host, &self.table.shared, &mut self.seat, self.ticket);
        self.ticket = None;
        let told = bench.ask(rt, query);
        bench.history();
        leave(&self.table.shared, &mut self.seat, bench);
        told
    }

    /// Asks the bench as it is, in one turn, without settling it: an answer as `ask`'s, or the number of due cells that it
    /// waits for. Nothing of the bench is changed, whatever it answers.
    pub fn look<R: Threads + Wait + Sync>(&mut self, rt: &R, query: Query) -> Asked
        ensures answer { AnswersAt (project_seen self.new) (length self.new.seen) query result }
        ensures later { IsLater self.old self.new }
        ensures own { (self.new.numbers ≡ self.old.numbers) × (self.new.receipts ≡ self.old.receipts) }
        ensures in_turn { (d : AnyBench) × IsInTurn self.new d × AsksAs d query result × TookTurn self.old self.new d d }
    {
        let mut bench = wait_turn(rt, &self.table.shared, &mut self.seat, self.ticket);
        self.ticket = None;
        let asked = bench.look(rt, query);
        leave(&self.table.shared, &mut self.seat, bench);
        asked
    }

    /// A claim of the first cell at or after `from` that is due and can be computed, as `Bench::claim`, in one turn. Its
    /// result is computed outside of any turn. Nothing of the bench is changed, whatever it answers.
    ///
    /// # Errors
    ///
    /// Where a growth was refused, or a state has as many owners as can be counted. The turn was taken,
    /// and the pass has seen what stood then.
    pub fn claim<R: Wait>(&mut self, rt: &R, from: Cell) -> Result<Option<Claim<Rp3>>, NoMemory>
        ensures project { IfOk result (λ r. IfSome r (λ claim. claim.slots ≡ project_seen self.new)) }
        ensures later { IsLater self.old self.new }
        ensures own { (self.new.numbers ≡ self.old.numbers) × (self.new.receipts ≡ self.old.receipts) }
        ensures in_turn { (d : AnyBench) × IsInTurn self.new d × ClaimsAs d from result × TookTurn self.old self.new d d }
    {
        let bench = wait_turn(rt, &self.table.shared, &mut self.seat, self.ticket);
        self.ticket = None;
        let claim = bench.claim(from);
        leave(&self.table.shared, &mut self.seat, bench);
        claim
    }

    /// Gives the result of a claim back, as `Bench::give`, in one turn. All answers but `Stored` change nothing of the bench.
    pub fn give<R: Wait>(&mut self, rt: &R, done: Done<Rp3>) -> Given<Done<Rp3>>
        ensures later { IsLater self.old self.new }
        ensures own { (self.new.numbers ≡ self.old.numbers) × (self.new.receipts ≡ self.old.receipts) }
        ensures in_turn { (d : AnyBench) × (next : AnyBench) × IsInTurn self.new d × IsInTurn self.new next × GivesAs rp3_rules d.table done result next.table × TookTurn self.old self.new d next }
        ensures spent { IsGivenSpent result → self.new.spent ≡ true }
    {
        let mut bench = wait_turn(rt, &self.table.shared, &mut self.seat, self.ticket);
        self.ticket = None;
        let given = bench.give(done);
        leave(&self.table.shared, &mut self.seat, bench);
        given
    }

    /// Claims of cells of one cycle, at most so many and at most 64, in one turn: greater numbers are taken for 64. The first is
    /// what `claim` claims from `from` on. Each further one is of the next cell of its cycle, by component, that is due and can
    /// be computed; where they are fewer than asked for, the cycle has no further one. None exactly where no cell is due, or
    /// none was asked for. Nothing of the bench is changed, whatever it answers.
    ///
    /// # Errors
    ///
    /// As `claim`, for any of the cells: then nothing was claimed. The turn was taken, and the pass has seen what stood
    /// then.
    pub fn claim_many<R: Wait>(
        &mut self,
        rt: &R,
        from: Cell,
        most: u32,
    ) -> Result<Vec<Claim<Rp3>>, NoMemory>
        ensures project { IfOk result (λ claims. All (λ claim. claim.slots ≡ project_seen self.new) claims.items) }
        ensures later { IsLater self.old self.new }
        ensures own { (self.new.numbers ≡ self.old.numbers) × (self.new.receipts ≡ self.old.receipts) }
        ensures in_turn { (d : AnyBench) × IsInTurn self.new d × IfOk result (λ claims. ClaimsLot d from (min most 64) claims.items) × TookTurn self.old self.new d d }
    {
        let bench = wait_turn(rt, &self.table.shared, &mut self.seat, self.ticket);
        self.ticket = None;
        let claims = bench.claim_many(from, most);
        leave(&self.table.shared, &mut self.seat, bench);
        claims
    }

    /// Gives the results of claims back, in this order, each as `give` does to the bench that the one before left, in one turn.
    /// Their answers, in the same order, replace what the buffer held. It has room for them, so no memory is wanted while
    /// results are in hand.
    pub fn give_many<R: Wait>(
        &mut self,
        rt: &R,
        lot: Vec<Done<Rp3>>,
        answers: &mut Vec<Given<Done<Rp3>>>,
    )
        requires { vec_len lot ≤ vec_capacity answers.old }
        ensures later { IsLater self.old self.new }
        ensures own { (self.new.numbers ≡ self.old.numbers) × (self.new.receipts ≡ self.old.receipts) }
        ensures in_turn { (d : AnyBench) × (next : AnyBench) × IsInTurn self.new d × IsInTurn self.new next × GivesLot d lot.items answers.new.items next × TookTurn self.old self.new d next }
        ensures spent { All (λ given. IsGivenSpent given → self.new.spent ≡ true) answers.new.items }
        ensures room { vec_capacity answers.new ≡ vec_capacity answers.old }
    {
        let mut bench = wait_turn(rt, &self.table.shared, &mut self.seat, self.ticket);
        self.ticket = None;
        bench.give_many(lot, answers);
        leave(&self.table.shared, &mut self.seat, bench);
    }

    /// Settles the next slice of the bench, as `Bench::settle_to`, in one turn: from the cycle of its first due cell on, as many
    /// whole cycles as have so many cells, at least one. The last of these cycles is told, and behind it more may be due; none
    /// where no cell is due, and then nothing of the bench is changed.
    ///
    /// # Errors
    ///
    /// ClockSpent where a store would change a state and the clock is 2^64 - 1, Memory where a growth was refused. The cells
    /// computed stay stored, and the rest stays due.
    pub fn settle_some<R: Wait>(&mut self, rt: &R, cells: u32) -> Result<Option<u32>, SettleFault>
        ensures later { IsLater self.old self.new }
        ensures own { (self.new.numbers ≡ self.old.numbers) × (self.new.receipts ≡ self.old.receipts) }
        ensures in_turn { (d : AnyBench) × (next : AnyBench) × IsInTurn self.new d × IsInTurn self.new next × SlicesAs d cells result next × TookTurn self.old self.new d next }
        ensures spent { IfErr result (λ f. IsClockSpent f → self.new.spent ≡ true) }
    {
        let mut bench = wait_turn(rt, &self.table.shared, &mut self.seat, self.ticket);
        self.ticket = None;
        let settled = bench.settle_some(cells);
        bench.history();
        leave(&self.table.shared, &mut self.seat, bench);
        settled
    }

    /// Makes an edit under the pass's number, in one turn: the new version, which is the length of the journal.
    ///
    /// # Errors
    ///
    /// Those of `Bench::edit`, judged by the bench in the turn, whose project and journal the pass has then seen. Then nothing
    /// is changed.
    pub fn edit<R: Wait>(&mut self, rt: &R, edit: Edit) -> Result<u32, EditFault>
        ensures ok { IfOk result (λ v. (v ≡ length self.new.seen) × (self.new.receipts ≡ self.old.receipts ++ (v, edit) ∷ [])) }
        ensures err { IfErr result (λ f. self.new.receipts ≡ self.old.receipts) }
        ensures refused { IfErr result (λ f. RefusesAt (project_seen self.new) (length self.new.seen) edit f) }
        ensures later { IsLater self.old self.new }
        ensures numbers { self.new.numbers ≡ self.old.numbers }
        ensures in_turn { (d : AnyBench) × (next : AnyBench) × IsMet self.old d × IsInTurn self.new next × EditsAs d self.old.number edit result next × TookTurn self.old self.new d next }
        ensures spent { result ≡ Err EditFault.ClockSpent → self.new.spent ≡ true }
        ensures wants { result ≡ Err EditFault.Memory → self.new.spent ≡ true → ⊥ }
    {
        let mut bench = wait_turn(rt, &self.table.shared, &mut self.seat, self.ticket);
        self.ticket = None;
        match bench.edit(self.number, edit) {
            Ok(version) => {
                leave_edited(&self.table.shared, &mut self.seat, bench);
                Ok(version)
            }
            Err(fault) => {
                leave(&self.table.shared, &mut self.seat, bench);
                Err(fault)
            }
        }
    }

    /// The length of the journal that the pass has then seen, and the project of that journal, in one turn. The project has
    /// two more owners of what it shares with the bench's, and takes no other memory.
    ///
    /// # Errors
    ///
    /// Where what is shared has 2^63 - 1 owners. The turn was taken, and the pass has seen what stood
    /// then.
    pub fn project<R: Wait>(&mut self, rt: &R) -> Result<(u32, Project), NoMemory>
        ensures threads_project { IfOk result (λ r. (r.0 ≡ length self.new.seen) × (r.1 ≡ project_seen self.new)) }
        ensures later { IsLater self.old self.new }
        ensures own { (self.new.numbers ≡ self.old.numbers) × (self.new.receipts ≡ self.old.receipts) }
        ensures in_turn { (d : AnyBench) × IsInTurn self.new d × TookTurn self.old self.new d d }
    {
        let bench = wait_turn(rt, &self.table.shared, &mut self.seat, self.ticket);
        self.ticket = None;
        let project = bench.project();
        leave(&self.table.shared, &mut self.seat, bench);
        project
    }
}
