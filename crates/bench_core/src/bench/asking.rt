//! Answering queries.
ghost use Rattle.std.specs.Prelude.{◌≡◌, ℕ, ◌^◌, ◌<◌, ◌≤◌, Bool, None, Some, IfOk, OnErr, List};
ghost use Rattle.due_cells.specs.Cones.{count_to, count_cone};
ghost use Rattle.due_cells.specs.Seen.{due_at};
ghost use Rattle.grid_law.specs.Run.{run};
ghost use Rattle.omega_net.specs.Numbers.{components};
ghost use Rattle.machine_cells.specs.GridRules.{rp3_rules};
ghost use Rattle.page_map.specs.Limits.{address_count};
ghost use Rattle.project_book.specs.Project.{place_in};
ghost use Rattle.run_queries.specs.Queries.{bad_query, reach};
ghost use Rattle.bench_core.specs.Shown.{project_of, version_of, held};
ghost use Rattle.bench_core.specs.Events.{Event, Opening};
ghost use Rattle.bench_core.specs.Stands.{Stands};
ghost use Rattle.bench_core.specs.Asks.{module_of, waits, last_cycle, IsUpTo, pending, AsksAs, TellsRun, IsOneCell, HoldsRunTo, HoldsRunAt, IsUpToDate};
ghost use Rattle.bench_core.specs.Answers.{AnswersRun, AsksRun};

use super::Bench;
use crate::Asked;
use crate::recent::Asking;
use cell_table::Cell;
use grid_law::NoMemory;
use omega_net::Shape;
use page_map::Place;
use run_queries::{Body, Query, Reach};
use saturation::bound;
use std::thread::Threads;

impl Bench {
    /// Where an address stands.
    pub(super) fn place(&self, address: u32) -> Place
        requires { address < address_count }
        ensures place { result ≡ place_in (project_of self.now) address }
        ensures within { result.«module» < 2 ^ (project_of self.now).k }
    {
        self.project().place(address).unwrap()
    }

    /// The cell of the module in which an address stands.
    pub(super) fn module_cell(&self, address: u32, cycle: u32) -> Cell
        requires { address < address_count }
        ensures cell { result ≡ record { cycle = cycle; component = module_of (project_of self.now) address } }
        ensures within { result.component < components (project_of self.now).k }
    {
        let shape = Shape::new(self.project().k()).unwrap();
        let component = shape.lines() + u32::from(self.place(address).module);
        Cell { cycle, component }
    }

    pub(super) fn answered(&self, body: Body) -> Asked
        ensures { result ≡ Asked.Answer (version_of self.now) body }
    {
        Asked::Answer {
            version: self.version(),
            body,
        }
    }

    /// What the run says to a query.
    #[tactic(auto, using(run_queries::proofs::Good::good_place, run_queries::proofs::Good::good_order))]
    fn found<R: Threads + Sync>(&mut self, rt: &R, query: Query) -> Asked
        requires good { bad_query (project_of self.old) query ≡ None }
        requires there { IsUpToDate self.old query }
        ensures tells { TellsRun self.old query result }
        ensures unchanged { self.new ≡ self.old }
    {
        match query {
            Query::Reply { proc, issue } => self.reply(proc, issue),
            Query::State { component, cycle } => self.state(component, cycle),
            Query::Memory { address, cycle } => self.word(address, cycle),
            Query::Counter {
                counter,
                who,
                from,
                to,
            } => match self.counted(counter, who, from, to) {
                Ok(total) => self.answered(Body::Count(total)),
                Err(NoMemory) => Asked::Memory,
            },
            Query::Profile { net, stage } => match self.profile(net, stage) {
                Ok(profile) => self.answered(Body::Profile(profile)),
                Err(NoMemory) => Asked::Memory,
            },
            Query::Tree { net, module } => self.tree(rt, net, module),
            Query::Level { net, module, cycle } => self.level(net, module, cycle),
            Query::Bound { a, b, p } => match bound(a, b, p) {
                Some((numerator, denominator)) => {
                    self.answered(Body::Fraction(numerator, denominator))
                }
                None => Asked::BadQuery(6),
            },
            Query::Place { address } => self.answered(Body::Place(self.place(address))),
            Query::Order { address } => self.listed(address),
        }
    }

    /// How many cells up to a cycle are due.
    pub(super) fn pending_to(&self, to: u32) -> u64
        requires { to ≤ (project_of self.now).horizon }
        ensures count { result ≡ count_to rp3_rules (project_of self.now) (project_of self.now).horizon (due_at self.now.table.rows) to }
        ensures ready { result ≡ 0 → HoldsRunTo self.now to }
    {
        self.is_bench();
        self.table.due_to(to)
    }

    /// How many cells are due in the cone of one that is there. That none is due at all is known by one number.
    #[tactic(auto, using(crate::proofs::Waiting::none_in_cone))]
    fn pending_cell(&self, cell: Cell) -> Result<u64, NoMemory>
        requires cycle { cell.cycle ≤ (project_of self.now).horizon }
        requires component { cell.component < components (project_of self.now).k }
        ensures count { IfOk result (λ n. n ≡ count_cone rp3_rules (project_of self.now) (project_of self.now).horizon (due_at self.now.table.rows) cell.cycle cell.component) }
        ensures ready { IfOk result (λ n. n ≡ 0 → held self.now.table cell.cycle cell.component ≡ Some (run rp3_rules (project_of self.now) cell.cycle cell.component)) }
    {
        self.is_bench();
        if self.pending_to(self.project().horizon()) == 0 {
            return Ok(0);
        }
        self.table.due_cone(cell)
    }

    /// How many due cells the answer to a query waits for.
    #[tactic(auto, using(run_queries::proofs::Good::good_reach))]
    fn pending(&self, query: Query) -> Result<u64, NoMemory>
        requires { bad_query (project_of self.now) query ≡ None }
        ensures count { IfOk result (λ n. n ≡ pending self.now query) }
        ensures ready { IfOk result (λ n. n ≡ 0 → HoldsRunAt self.now (reach (project_of self.now) query)) }
        ensures err { OnErr result (IsOneCell (reach (project_of self.now) query)) }
    {
        match query.reach(self.project()) {
            Reach::Nothing => Ok(0),
            Reach::State { component, cycle } => self.pending_cell(Cell { cycle, component }),
            Reach::Word { address, cycle } => self.pending_cell(self.module_cell(address, cycle)),
            Reach::To(cycle) => Ok(self.pending_to(cycle)),
        }
    }

    /// The last cycle of the cells that the answer to a query waits for, or none where it waits for no cell: what is due
    /// behind it counts for nothing.
    #[tactic(auto, using(crate::proofs::Waiting::waits_to))]
    pub fn last_cycle(&self, query: Query) -> Option<u32>
        ensures is { result ≡ last_cycle (project_of self.now) query }
        ensures enough { (f g : ℕ → ℕ → Bool) (last : ℕ) → IsUpTo (last_cycle (project_of self.now) query) last → ((t c : ℕ) → t ≤ last → f t c ≡ g t c)
            → waits (project_of self.now) f query ≡ waits (project_of self.now) g query }
    {
        query.reach(self.project()).last()
    }

    /// What the run says to a query: what was told of it at this version, where that is still kept, else what is found,
    /// which is kept from then on.
    pub(super) fn told<R: Threads + Sync>(&mut self, rt: &R, query: Query) -> Asked
        requires good { bad_query (project_of self.old) query ≡ None }
        requires there { IsUpToDate self.old query }
        ensures tells { TellsRun self.old query result }
        ensures unchanged { self.new ≡ self.old }
    {
        let version = self.version();
        let asking = Asking { version, query };
        if let Some(body) = self.recent.answer(asking) {
            return self.answered(body);
        }
        let told = self.found(rt, query);
        if let Asked::Answer { body, .. } = &told {
            self.recent.keep(asking, body);
        }
        told
    }

    // What it answers of the bench as it is; the clauses over all lists of events follow from this one.
    #[tactic(auto, using(crate::proofs::Asking::asks_bad, crate::proofs::Asking::asks_pending, crate::proofs::Asking::asks_wanting, crate::proofs::Asking::asks_found, crate::proofs::Settled::is_up_to_date))]
    fn ask_plain<R: Threads + Sync>(&mut self, rt: &R, query: Query) -> Asked
        ensures asks { AsksAs self.old query result }
        ensures unchanged { self.new ≡ self.old }
    {
        if let Some(number) = query.bad(self.project()) {
            return Asked::BadQuery(number);
        }
        match self.pending(query) {
            Ok(0) => self.told(rt, query),
            Ok(due) => Asked::Pending(due),
            Err(NoMemory) => Asked::Memory,
        }
    }

    /// Answers a query of the project as it stands, without computing anything; nothing is changed. The first that
    /// applies: BadQuery 1, 2, 3, 5 or 6 by the query's numbers; Pending where cells are due that the answer rests on,
    /// with their number; BadQuery 4 where the processor issued no such reference by the horizon; the answer. Memory
    /// only in the place of an answer or of Pending.
    ///
    /// A state or a word waits for the cells that it rests on alone, a counter or a level for the cycles up to its last
    /// one, a reply, a profile, a tree or an order for the whole run. The first counter or profile that a bench is asked counts all
    /// its cells; stores and edits keep the counts from then on. A counter over the whole run and a profile are looked up;
    /// a counter over a window adds up its cells; a reply looks at each stretch of its processor's equal states once at
    /// most, up to where the answer is known; a tree looks at each state, in several threads. The 64 answers that were
    /// told last are kept, and told again where the same is asked at the same version.
    pub fn ask<R: Threads + Sync>(&mut self, rt: &R, query: Query) -> Asked
        ensures asks { AsksAs self.old query result }
        ensures unchanged { self.new ≡ self.old }
        ensures headline_answers { (o : Opening) (h : List Event) → Stands o self.old h → AnswersRun o h query result }
        ensures headline_asks { (o : Opening) (h : List Event) → Stands o self.old h → AsksRun o h query result }
    {
        self.ask_plain(rt, query)
    }
}
