//! A bench that is settled by waves where they pay, as a desk: one editor alone.
ghost use Rattle.std.specs.Prelude.{◌≡◌};

use bench_core::{Bench, Told};
use bench_shell::Desk;
use project_book::{Edit, EditFault};
use run_queries::Query;
use std::alloc::Global;
use std::marker::Model;
use std::thread::Threads;
use wave_workers::{settle_where_it_pays, waves_pay};

/// A bench that several threads settle where that pays, and one where it doesn't. It is told the same, and edited as
/// the bench itself: which of the two settled it shows in nothing but time. Contracts see the bench.
#[derive(Drop)]
pub struct Waves {
    alloc: Global,
    bench: Bench,
}

impl Model for Waves {
    ghost use Rattle.bench_core.specs.Shown.{Shown};

    ghost Value = { Shown };

    ghost view = { λ w. w.bench };
}

impl Waves {
    /// The desk of a bench.
    pub fn new(alloc: Global, bench: Bench) -> Waves
        ensures { result ≡ bench }
    {
        Waves { alloc, bench }
    }

    /// The bench.
    pub fn into_bench(self) -> Bench
        ensures { result ≡ self }
    {
        self.bench
    }
}

impl Desk for Waves {
    ghost use Rattle.std.specs.Prelude.{◌≡◌, ◌-◌, ◌^◌};
    ghost use Rattle.bench_core.specs.Shown.{version_of};
    ghost use Rattle.bench_shell.specs.Store.{store_of};

    ghost store = { store_of };

    // Each run opens a bench anew.
    ghost opening = { version_of };

    ghost is_alone = { λ _. Unit {0} };

    ghost clock_is_spent = { λ b. b.table.clock ≡ 2 ^ 64 - 1 };

    fn opened(&self) -> (u32, u32) {
        self.bench.opened()
    }

    fn edit(&mut self, edit: Edit) -> Result<u32, EditFault> {
        Desk::edit(&mut self.bench, edit)
    }

    /// Settles the whole run by waves where they pay, and then as the bench itself, which settles what is left of the cells
    /// that the answer looks at.
    fn ask<T: Threads + Sync>(&mut self, rt: &T, query: Query) -> Told {
        if waves_pay(&self.bench) {
            let _ = settle_where_it_pays(rt, self.alloc, &mut self.bench);
        }
        self.bench.answer(rt, query)
    }
}
