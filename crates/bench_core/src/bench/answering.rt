//! Answering queries once the cells are computed that an answer looks at.
ghost use Rattle.std.specs.Prelude.{◌≡◌, ◌⊎◌, ℕ, ◌-◌, ◌^◌, ◌<◌, ◌≤◌, None, Some, OnOk, IfErr, List};
ghost use Rattle.cell_table.specs.Settling.{IsClockSpent};
ghost use Rattle.omega_net.specs.Numbers.{components};
ghost use Rattle.run_queries.specs.Queries.{bad_query};
ghost use Rattle.run_queries.specs.declared.query.Query.TheVariants.{Reply as ReplyTo, Order as OrderOf};
ghost use Rattle.bench_core.specs.Later.{IsLater};
ghost use Rattle.bench_core.specs.Shown.{project_of, version_of};
ghost use Rattle.bench_core.specs.Events.{Event, Opening, project_after, version_after};
ghost use Rattle.bench_core.specs.Stands.{Stands};
ghost use Rattle.bench_core.specs.Asks.{module_of, pending, IsUpToDate};
ghost use Rattle.bench_core.specs.Told.{TellsAt, TellsAsked, told_at_fault};
ghost use Rattle.bench_core.specs.Settled.{settled_for, IsSettledFrom, IsPartlySettledFrom, IsSpentTo, SettlesOnceAs};
ghost use Rattle.bench_core.specs.Answering.{has_few_due, IsOnce, StaysAs, SettlesReplyAs, SettlesFew, SettlesOrderAs, SettlesAs};

use super::Bench;
use crate::{Asked, Told};
use cell_table::SettleFault;
use run_queries::{Body, Query};
use std::thread::Threads;

/// A cell that is settled costs about as much as so many cells of a run that keeps none.
const RUN_CELLS: u64 = 6;

/// What is told where settling met a fault.
fn told_at_fault(fault: SettleFault) -> Told
    ensures { result ≡ told_at_fault fault }
{
    match fault {
        SettleFault::ClockSpent { .. } => Told::ClockSpent,
        SettleFault::Memory { .. } => Told::Memory,
    }
}

impl Bench {
    /// Each address stands in a module that is there. No work is done.
    fn is_placed(&self)
        ensures { (a : ℕ) → module_of (project_of self.now) a < components (project_of self.now).k }
    {
        self.project().is_project();
    }

    /// Settles the bench to the last cycle of the cells that the answer to a query waits for.
    ///
    /// # Errors
    ///
    /// As `settle_to`.
    fn settle_for(&mut self, query: Query) -> Result<(), SettleFault>
        requires good { bad_query (project_of self.old) query ≡ None }
        ensures settles { OnOk result (IsSettledFrom (settled_for (project_of self.old) query) self.old self.new) }
        ensures after_fault { IfErr result (λ f. IsPartlySettledFrom (settled_for (project_of self.old) query) self.old self.new) }
        ensures ready { OnOk result (pending self.new query ≡ 0) }
        ensures there { OnOk result (IsUpToDate self.new query) }
        ensures later { IsLater self.old self.new }
        ensures spent { IfErr result (λ f. IsClockSpent f → self.new.table.clock ≡ 2 ^ 64 - 1) }
        ensures differs { IfErr result (λ f. IsClockSpent f → IsSpentTo (settled_for (project_of self.old) query) self.new) }
    {
        let last = match self.last_cycle(query) {
            Some(last) => last,
            None => return Ok(()),
        };
        match self.settle_to(last) {
            Ok(_) => {
                self.is_bench();
                self.is_placed();
                Ok(())
            }
            Err(fault) => Err(fault),
        }
    }

    /// What is told where the cells that the answer looks at hold the run.
    #[tactic(auto, using(crate::proofs::Settled::tells_answer, crate::proofs::Settled::tells_bad, crate::proofs::Settled::tells_no_number))]
    fn tell<R: Threads + Sync>(&mut self, rt: &R, query: Query) -> Told
        requires good { bad_query (project_of self.old) query ≡ None }
        requires ready { pending self.old query ≡ 0 }
        requires there { IsUpToDate self.old query }
        ensures told { TellsAt (project_of self.old) (version_of self.old) query result }
        ensures asks { TellsAsked self.old query result }
        ensures in_time { result ≡ Told.ClockSpent → ⊥ }
        ensures unchanged { self.new ≡ self.old }
    {
        match self.told(rt, query) {
            Asked::Answer { version, body } => Told::Answer { version, body },
            Asked::BadQuery(number) => Told::BadQuery(number),
            Asked::Pending(_) => unreachable!(),
            Asked::Memory => Told::Memory,
        }
    }

    /// Settles the bench to the last cycle of the cells that the answer to a query waits for, and answers it.
    fn answer_at_once<R: Threads + Sync>(&mut self, rt: &R, query: Query) -> Told
        requires good { bad_query (project_of self.old) query ≡ None }
        requires once { IsOnce query }
        ensures told { TellsAt (project_of self.new) (version_of self.new) query result }
        ensures asks { TellsAsked self.new query result }
        ensures settles { SettlesOnceAs query result self.old self.new }
        ensures later { IsLater self.old self.new }
        ensures spent { result ≡ Told.ClockSpent → self.new.table.clock ≡ 2 ^ 64 - 1 }
    {
        match self.settle_for(query) {
            Ok(()) => self.tell(rt, query),
            Err(fault) => told_at_fault(fault),
        }
    }

    /// Answers a query of a reply: it is sought slice by slice, and what is due behind the slice that tells it stays due. Where
    /// no cell is due there is nothing to settle.
    fn answer_reply<R: Threads + Sync>(&mut self, rt: &R, proc: u32, issue: u32) -> Told
        requires good { bad_query (project_of self.old) (ReplyTo proc issue) ≡ None }
        ensures told { TellsAt (project_of self.new) (version_of self.new) (ReplyTo proc issue) result }
        ensures asks { TellsAsked self.new (ReplyTo proc issue) result }
        ensures settles { StaysAs (ReplyTo proc issue) result self.old self.new ⊎ SettlesReplyAs proc issue result self.old self.new }
        ensures later { IsLater self.old self.new }
        ensures spent { result ≡ Told.ClockSpent → self.new.table.clock ≡ 2 ^ 64 - 1 }
    {
        let query = Query::Reply { proc, issue };
        if self.pending_to(self.project().horizon()) == 0 {
            return self.tell(rt, query);
        }
        let begin = self.begins_at(proc, issue);
        match self.seek(proc, issue, begin) {
            Ok(Some(received)) => Told::Answer {
                version: self.version(),
                body: Body::Reply(Some(received)),
            },
            Ok(None) => self.tell(rt, query),
            Err(fault) => told_at_fault(fault),
        }
    }

    /// Whether so few cells are due that settling them costs no more than a run of the whole project.
    fn has_few_due(&self) -> bool
        ensures { result ≡ has_few_due self.now }
    {
        let horizon = self.project().horizon();
        let cells = (u64::from(horizon) + 1) * u64::from(self.project().shape().components());
        self.pending_to(horizon) <= cells / RUN_CELLS
    }

    /// Settles the run where few cells are due. What a fault leaves due stays due.
    #[tactic(auto, using(crate::proofs::Answering::leaves_many))]
    fn settle_few(&mut self)
        ensures settles { SettlesFew (has_few_due self.old) self.old self.new }
        ensures later { IsLater self.old self.new }
    {
        if !self.has_few_due() {
            return;
        }
        let horizon = self.project().horizon();
        let _ = self.settle_to(horizon);
    }

    /// What is told of an order, whatever cells are due: nothing is settled.
    #[tactic(auto, using(crate::proofs::Answering::order_told, crate::proofs::Answering::order_is_there, crate::proofs::Answering::order_waits_not))]
    fn tell_order<R: Threads + Sync>(&mut self, rt: &R, address: u32) -> Told
        requires good { bad_query (project_of self.old) (OrderOf address) ≡ None }
        ensures told { TellsAt (project_of self.old) (version_of self.old) (OrderOf address) result }
        ensures asks { TellsAsked self.old (OrderOf address) result }
        ensures in_time { result ≡ Told.ClockSpent → ⊥ }
        ensures unchanged { self.new ≡ self.old }
    {
        match self.told(rt, Query::Order { address }) {
            Asked::Answer { version, body } => Told::Answer { version, body },
            Asked::BadQuery(_) | Asked::Pending(_) => unreachable!(),
            Asked::Memory => Told::Memory,
        }
    }

    /// Answers a query of an order: where few cells are due the run is settled, and the order is read from it; where many are,
    /// or where settling met a fault, they stay due, and it is read from a run that keeps no cells.
    fn answer_order<R: Threads + Sync>(&mut self, rt: &R, address: u32) -> Told
        requires good { bad_query (project_of self.old) (OrderOf address) ≡ None }
        ensures told { TellsAt (project_of self.new) (version_of self.new) (OrderOf address) result }
        ensures asks { TellsAsked self.new (OrderOf address) result }
        ensures settles { SettlesOrderAs result self.old self.new }
        ensures later { IsLater self.old self.new }
        ensures in_time { result ≡ Told.ClockSpent → ⊥ }
    {
        self.settle_few();
        self.tell_order(rt, address)
    }

    /// Settles the bench as far as the answer to a query looks, and answers it: never Pending. The first that applies:
    /// BadQuery 1, 2, 3, 5 or 6 by the query's numbers, for which nothing is computed; ClockSpent and Memory where
    /// settling met that fault; BadQuery 4 where the processor issued no such reference by the horizon; Memory where the
    /// answer needs more than there is; the answer.
    ///
    /// A state, a word or a level settles the cells up to its cycle, a counter those up to its last one, a profile or a tree
    /// all; a bound and a place settle none. A reply is sought slice by slice: up to the cycle where the states held tell it,
    /// or to cycle 15, and each time about twice as far, until it is there. An order settles all where few cells are due, else
    /// none, and is then read from a run that keeps no cells, so that it tells no spent clock. What is due behind that stays
    /// due, and what was computed stays stored, whatever is told. The answer is that of `ask` once all is settled, found and
    /// kept as there.
    pub fn answer<R: Threads + Sync>(&mut self, rt: &R, query: Query) -> Told
        ensures told { TellsAt (project_of self.new) (version_of self.new) query result }
        ensures asks { TellsAsked self.new query result }
        ensures settles { SettlesAs query result self.old self.new }
        ensures later { IsLater self.old self.new }
        ensures spent { result ≡ Told.ClockSpent → self.new.table.clock ≡ 2 ^ 64 - 1 }
        ensures headline_tells { (o : Opening) (h : List Event) → Stands o self.old h → TellsAt (project_after o h) (version_after h) query result }
    {
        if let Some(number) = query.bad(self.project()) {
            return Told::BadQuery(number);
        }
        match query {
            Query::Reply { proc, issue } => self.answer_reply(rt, proc, issue),
            Query::Order { address } => self.answer_order(rt, address),
            _ => self.answer_at_once(rt, query),
        }
    }
}
