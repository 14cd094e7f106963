//! Counters: the first counter or profile that a bench is asked makes them. Where that is refused there are none, as before.
use crate::again::again;
use crate::benches::{answer, counter, is_done, is_made, served, settles, whole, whole_of};
use crate::projects::EDITS;
use bench_core::{Asked, Bench};
use monitor_sums::Counter;
use omega_net::Net;
use project_book::Edit;
use run_queries::{Body, Query};
use std::alloc::Global;
use std::thread::Threads;

const PROFILE: Query = Query::Profile {
    net: Net::Comb,
    stage: 0,
};

/// The two adds are combined into one request, which waits in one of the stage's two queues at one of 7 cycles.
const LENGTHS: [u64; 17] = [13, 1, 0, 0, 0, 0, 0, 0, 0, 0, 0, 0, 0, 0, 0, 0, 0];

/// The request of the two adds is served once.
pub(crate) fn counted<R: Threads + Sync>(rt: &R, alloc: Global) -> bool {
    match whole(alloc) {
        Some(mut bench) => {
            matches!(answer(rt, &mut bench, served(6)), Some(Body::Count(1)))
                && counts_as_fresh(rt, alloc, &mut bench)
        }
        None => false,
    }
}

pub(crate) fn profiled<R: Threads + Sync>(rt: &R, alloc: Global) -> bool {
    match whole(alloc) {
        Some(mut bench) => { has_profile(rt, &mut bench) && counts_as_fresh(rt, alloc, &mut bench) }
        None => false,
    }
}

fn has_profile<R: Threads + Sync>(rt: &R, bench: &mut Bench) -> bool {
    match answer(rt, bench, PROFILE) {
        Some(Body::Profile(lengths)) => lengths == LENGTHS,
        _ => false,
    }
}

/// A module's state has a copy of its words.
const MODULE: Query = Query::State {
    component: 2,
    cycle: 6,
};

/// What takes no counters is answered by a settled bench at once: a refused growth costs the answer that would be kept, or the state
/// of a module.
pub(crate) fn uncounted<R: Threads + Sync>(rt: &R, alloc: Global) -> bool {
    let Some(mut bench) = whole(alloc) else {
        return false;
    };
    let queries = [
        Query::Reply { proc: 1, issue: 0 },
        Query::Memory {
            address: 0,
            cycle: 6,
        },
        Query::Bound { a: 1, b: 10, p: 2 },
        Query::Place { address: 300 },
    ];
    let mut all = matches!(bench.ask(rt, MODULE), Asked::Answer { .. } | Asked::Memory);
    for query in queries {
        all &= matches!(bench.ask(rt, query), Asked::Answer { .. });
    }
    all
}

/// Cuts off what is counted, and counts some of it again.
const HORIZONS: [Edit; 2] = [Edit::Horizon(4), Edit::Horizon(6)];

/// Counters are kept through edits, results and settlings of which one is refused. Where they are refused themselves, they
/// are made only after all of these.
pub(crate) fn kept<R: Threads + Sync>(rt: &R, alloc: Global) -> bool {
    match whole(alloc) {
        Some(mut bench) => {
            is_counted_or_refused(rt, &mut bench)
                && goes_on(&mut bench, &EDITS)
                && goes_on(&mut bench, &HORIZONS)
                && counts_as_fresh(rt, alloc, &mut bench)
        }
        None => false,
    }
}

/// It is asked once.
fn is_counted_or_refused<R: Threads + Sync>(rt: &R, bench: &mut Bench) -> bool {
    match bench.ask(rt, served(6)) {
        Asked::Answer {
            body: Body::Count(total),
            ..
        } => total == 1,
        Asked::Memory => true,
        _ => false,
    }
}

/// Whether each edit is made, and what it makes due is computed: the first cell by hand.
fn goes_on(bench: &mut Bench, edits: &[Edit]) -> bool {
    let mut all = true;
    for edit in edits {
        all &= is_made(bench, *edit) && gives(bench) && settles(bench).is_some();
    }
    all
}

/// Whether no cell is due, or the result of the first is stored.
fn gives(bench: &mut Bench) -> bool {
    bench.cells().due_to(bench.project().horizon()) == 0 || is_done(bench)
}

/// Whether it counts what a fresh bench of the same project does. One of the two at least was never refused.
pub(crate) fn counts_as_fresh<R: Threads + Sync>(rt: &R, alloc: Global, bench: &mut Bench) -> bool {
    let Some(project) = again!(bench.project().share()) else {
        return false;
    };
    match whole_of(alloc, project) {
        Some(mut fresh) => count_the_same(rt, bench, &mut fresh),
        None => false,
    }
}

/// Whether two benches answer each counter and a profile the same.
fn count_the_same<R: Threads + Sync>(rt: &R, bench: &mut Bench, other: &mut Bench) -> bool {
    let mut all = is_same(rt, bench, other, PROFILE);
    for which in Counter::ALL {
        all &= is_same_count(rt, bench, other, which);
    }
    all
}

/// Whether they answer a counter the same: of the whole run, of module 0 alone, and from cycle 2 to 4.
fn is_same_count<R: Threads + Sync>(
    rt: &R,
    bench: &mut Bench,
    other: &mut Bench,
    which: Counter,
) -> bool {
    let horizon = bench.project().horizon();
    is_same(rt, bench, other, counter(which, None, 0, horizon))
        && is_same(rt, bench, other, counter(which, Some(2), 0, horizon))
        && is_same(rt, bench, other, counter(which, None, 2, 4))
}

fn is_same<R: Threads + Sync>(rt: &R, bench: &mut Bench, other: &mut Bench, query: Query) -> bool {
    match (answer(rt, bench, query), answer(rt, other, query)) {
        (Some(Body::Count(one)), Some(Body::Count(other))) => one == other,
        (Some(Body::Profile(one)), Some(Body::Profile(other))) => one == other,
        _ => false,
    }
}
