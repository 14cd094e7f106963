//! A bench as a desk: one editor alone.
use crate::desk::Desk;
use bench_core::{Bench, Told};
use project_book::{Edit, EditFault};
use run_queries::Query;
use std::thread::Threads;

/// The author of the edits of a run on a bench.
const AUTHOR: u32 = 0;

impl Desk for Bench {
    ghost use Rattle.std.specs.Prelude.{◌≡◌, ◌-◌, ◌^◌};
    ghost use Rattle.bench_core.specs.Shown.{version_of};
    ghost use Rattle.bench_shell.specs.Store.{store_of};

    ghost store = { store_of };

    // Each run opens a bench anew.
    ghost opening = { version_of };

    ghost is_alone = { λ _. Unit {0} };

    ghost clock_is_spent = { λ b. b.table.clock ≡ 2 ^ 64 - 1 };

    fn opened(&self) -> (u32, u32) {
        (self.project().k(), self.version())
    }

    fn edit(&mut self, edit: Edit) -> Result<u32, EditFault> {
        Bench::edit(self, AUTHOR, edit)
    }

    /// Settles the bench as far as the answer looks, and answers it. What is due behind that stays due.
    fn ask<T: Threads + Sync>(&mut self, rt: &T, query: Query) -> Told {
        self.answer(rt, query)
    }
}
