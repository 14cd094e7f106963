//! A pass to a shared bench as a desk: others may edit beside it.
ghost use Rattle.std.specs.Prelude.{◌≡◌, [], length};
ghost use Rattle.shared_bench.specs.Legal.{StartsWith};
ghost use Rattle.bench_shell.specs.Store.{version_in};
ghost use Rattle.worker_sessions.specs.Seated.{seated_store};

use bench_core::Told;
use bench_shell::Desk;
use project_book::{Edit, EditFault};
use run_queries::Query;
use shared_bench::Pass;
use std::alloc::Global;
use std::marker::Model;
use std::sync::Wait;
use std::thread::Threads;

/// A pass, with what lets it wait for its turn. Its own edits are those that it makes as a desk. Contracts see what the
/// pass knows.
#[derive(Drop)]
pub struct Seated<R> {
    rt: R,
    alloc: Global,
    pass: Pass,
}

impl<R> Model for Seated<R> {
    ghost use Rattle.shared_bench.specs.Known.{Known};
    ghost use Rattle.worker_sessions.specs.Seated.{IsSeated};

    ghost Value = { Known };

    ghost view = { λ s. s.pass };

    ghost invariant = { λ s. IsSeated s.pass };
}

impl<R: Wait + Drop> Seated<R> {
    /// The desk of a pass that hasn't edited since its opening.
    #[tactic(auto, using(crate::proofs::Seats::seated_new, crate::proofs::Seats::fresh))]
    pub fn new(rt: R, alloc: Global, pass: Pass) -> Seated<R>
        requires edits { pass.receipts ≡ [] }
        requires seen { StartsWith pass.seen pass.opened }
        ensures pass { result ≡ pass }
        ensures opened { length result.opened ≡ version_in (seated_store result) }
    {
        Seated { rt, alloc, pass }
    }

    /// The pass.
    pub fn into_pass(self) -> Pass
        ensures { result ≡ self }
    {
        self.pass
    }
}

impl<R: Wait> Desk for Seated<R> {
    ghost use Rattle.std.specs.Prelude.{◌≡◌, true, length};
    ghost use Rattle.worker_sessions.specs.Seated.{seated_store, own_journal};

    ghost store = { seated_store };

    ghost opening = { λ p. length p.opened };

    // What the pass has seen is the journal of the opening with its own edits.
    ghost is_alone = { λ p. p.seen ≡ own_journal p };

    ghost clock_is_spent = { λ p. p.spent ≡ true };

    fn opened(&self) -> (u32, u32) {
        (self.pass.k(), self.pass.base())
    }

    fn edit(&mut self, edit: Edit) -> Result<u32, EditFault> {
        self.pass.edit(&self.rt, edit)
    }

    /// Settles the bench as far as the answer looks, and answers it, in one turn.
    fn ask<T: Threads + Sync>(&mut self, rt: &T, query: Query) -> Told {
        self.pass.ask_with(&self.rt, rt, query)
    }
}
