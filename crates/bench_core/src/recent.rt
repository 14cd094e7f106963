//! The most recent answers of a bench.
ghost use Rattle.std.specs.Prelude.{◌≡◌, ◌⊎◌, [], IfOk, IfSome, Contains};
ghost use Rattle.bench_core.specs.Recent.{Entry};

use grid_law::NoMemory;
use lru::LruCache;
use run_queries::{Body, Query};
use std::alloc::Global;
use std::marker::Model;
use std::num::NonZeroUsize;

/// How many answers are kept.
pub(crate) const KEPT: usize = 64;

/// A query, and the version at which it was asked.
#[derive(Clone, Copy, PartialEq, Eq, Hash)]
pub(crate) struct Asking {
    pub(crate) version: u32,
    pub(crate) query: Query,
}

/// The answers that were told last, by version and query. Contracts see them in a list.
#[derive(Drop)]
pub(crate) struct Recent {
    answers: LruCache<Asking, Body>,
}

impl Model for Recent {
    ghost use Rattle.std.specs.Prelude.{List};
    ghost use Rattle.bench_core.specs.Recent.{Entry};

    ghost Value = { List Entry };

    ghost view = { λ r. r.answers.entries };
}

impl Recent {
    /// No answer yet; room is made for each when it comes.
    pub(crate) fn new(alloc: Global) -> Result<Recent, NoMemory>
        ensures { IfOk result (λ r. r ≡ []) }
    {
        let answers = LruCache::sparse(alloc, NonZeroUsize::new(KEPT).unwrap())?;
        Ok(Recent { answers })
    }

    /// The answer that is kept, if one is and finds memory to be told once more.
    pub(crate) fn answer(&mut self, asking: Asking) -> Option<Body>
        ensures kept { IfSome result (λ body. Contains self.old (asking, body)) }
        ensures stays { (a : Entry) → Contains self.new a → Contains self.old a }
    {
        self.answers.get(&asking)?.share().ok()
    }

    /// Keeps one more answer in the place of the one that was told longest ago. Where no memory is found nothing is kept.
    pub(crate) fn keep(&mut self, asking: Asking, body: &Body)
        ensures { (a : Entry) → Contains self.new a → Contains self.old a ⊎ (a ≡ (asking, body.now)) }
    {
        if let Ok(body) = body.share() {
            drop(self.answers.put(asking, body));
        }
    }
}
