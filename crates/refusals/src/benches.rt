//! Benches: what stands after a refusal, and that the same call then does its work.
use crate::again::again;
use crate::projects::{EDITS, FILE, is_order, project, project_of};
use bench_core::{Asked, Bench};
use cell_table::{Cell, Claim, Done, Given, SettleFault};
use machine_cells::{MachineState, Rp3, from_scratch};
use monitor_sums::Counter;
use omega_net::Net;
use project_book::{Edit, EditFault, Project};
use run_queries::{Body, Query};
use serial_order::Ordered;
use std::alloc::Global;
use std::sync::Arc;
use std::thread::Threads;

/// How a bench looks: version, journal, clock, horizon, and how many cells are due.
#[derive(Clone, Copy, PartialEq, Eq)]
struct Looks {
    version: u32,
    edits: usize,
    clock: u64,
    horizon: u32,
    due: u64,
}

/// How many requests were served up to a cycle.
pub(crate) fn served(to: u32) -> Query {
    counter(Counter::Served, None, 0, to)
}

pub(crate) fn counter(counter: Counter, who: Option<u32>, from: u32, to: u32) -> Query {
    Query::Counter {
        counter,
        who,
        from,
        to,
    }
}

/// It asks nothing, so it takes no memory, and no counters are made by it.
fn look_at(bench: &Bench) -> Looks {
    let horizon = bench.project().horizon();
    Looks {
        version: bench.version(),
        edits: bench.journal().len(),
        clock: bench.clock(),
        horizon,
        due: bench.cells().due_to(horizon),
    }
}

/// A bench of the project of the file, with no cell computed.
pub(crate) fn fresh(alloc: Global) -> Option<Box<Bench>> {
    bench_of(alloc, FILE)
}

/// A bench of the project of a file, with no cell computed. It stands in a box, since each way out of a function costs its
/// proof something for every field that it lets go.
pub(crate) fn bench_of(alloc: Global, file: &str) -> Option<Box<Bench>> {
    opened(alloc, project_of(alloc, file)?)
}

/// A bench of a project, with no cell computed.
fn opened(alloc: Global, project: Project) -> Option<Box<Bench>> {
    let bench = Bench::new(alloc, project, 0)
        .or_else(|project| Bench::new(alloc, project, 0))
        .ok()?;
    Box::new(alloc, bench)
        .or_else(|failed| Box::new(alloc, failed.value))
        .ok()
}

/// A bench of the project of the file, with every cell computed.
pub(crate) fn whole(alloc: Global) -> Option<Box<Bench>> {
    whole_of(alloc, project(alloc)?)
}

/// A bench of a project, with every cell computed.
pub(crate) fn whole_of(alloc: Global, project: Project) -> Option<Box<Bench>> {
    let mut bench = opened(alloc, project)?;
    match settles(&mut bench) {
        Some(_) => Some(bench),
        None => None,
    }
}

pub(crate) fn made(alloc: Global) -> bool {
    match fresh(alloc) {
        Some(bench) => bench.version() == 0 && bench.clock() == 0,
        None => false,
    }
}

pub(crate) fn edited(alloc: Global) -> bool {
    match whole(alloc) {
        Some(mut bench) => are_made(&mut bench, &EDITS),
        None => false,
    }
}

/// Whether each edit is made.
pub(crate) fn are_made(bench: &mut Bench, edits: &[Edit]) -> bool {
    let mut all = true;
    for edit in edits {
        all &= is_made(bench, *edit);
    }
    all
}

/// Whether an edit is made; where memory is wanting the bench is as before, and the edit is made again.
pub(crate) fn is_made(bench: &mut Bench, edit: Edit) -> bool {
    let before = look_at(bench);
    let next = before.version.saturating_add(1);
    match bench.edit(0, edit) {
        Ok(version) => version == next,
        Err(EditFault::Memory) => look_at(bench) == before && bench.edit(0, edit) == Ok(next),
        Err(_) => false,
    }
}

/// Settles, over again where memory is wanting: how many cells both calls computed.
pub(crate) fn settles(bench: &mut Bench) -> Option<u64> {
    match bench.settle() {
        Ok(settled) => Some(settled.computed),
        Err(SettleFault::Memory { computed }) => match bench.settle() {
            Ok(settled) => Some(computed.saturating_add(settled.computed)),
            Err(_) => None,
        },
        Err(SettleFault::ClockSpent { .. }) => None,
    }
}

/// What was computed stays: the counts of the calls add up to all cells, and then each state is that of the simulation.
pub(crate) fn settled<R: Threads + Sync>(rt: &R, alloc: Global) -> bool {
    match fresh(alloc) {
        Some(mut bench) => settles(&mut bench) == Some(42) && is_simulated(rt, alloc, &mut bench),
        None => false,
    }
}

/// Whether each state that the bench answers is that of the plain simulation.
pub(crate) fn is_simulated<R: Threads + Sync>(rt: &R, alloc: Global, bench: &mut Bench) -> bool {
    let Some(rows) = again!(from_scratch(alloc, bench.project())) else {
        return false;
    };
    let mut cycle = 0u32;
    for row in &rows {
        if !is_row(rt, bench, cycle, row) {
            return false;
        }
        cycle = cycle.saturating_add(1);
    }
    true
}

/// Whether the bench answers these states of a cycle.
fn is_row<R: Threads + Sync>(
    rt: &R,
    bench: &mut Bench,
    cycle: u32,
    row: &[Arc<MachineState>],
) -> bool {
    let mut component = 0u32;
    for state in row {
        let told = answer(rt, bench, Query::State { component, cycle });
        let same = match &told {
            Some(Body::State(held)) => held.state().same(state),
            _ => false,
        };
        if !same {
            return false;
        }
        component = component.saturating_add(1);
    }
    true
}

/// What a query is answered; where memory is wanting the bench is as before, and it is asked again.
pub(crate) fn answer<R: Threads + Sync>(rt: &R, bench: &mut Bench, query: Query) -> Option<Body> {
    let before = look_at(bench);
    match bench.ask(rt, query) {
        Asked::Answer { body, .. } => Some(body),
        Asked::Memory if look_at(bench) == before => match bench.ask(rt, query) {
            Asked::Answer { body, .. } => Some(body),
            _ => None,
        },
        _ => None,
    }
}

/// Every cell is claimed, computed and given, by hand.
pub(crate) fn given<R: Threads + Sync>(rt: &R, alloc: Global) -> bool {
    let Some(mut bench) = fresh(alloc) else {
        return false;
    };
    are_done(&mut bench, 42)
        && matches!(again!(bench.claim(FIRST)), Some(None))
        && is_simulated(rt, alloc, &mut bench)
}

const FIRST: Cell = Cell {
    cycle: 0,
    component: 0,
};

/// Whether so many cells are claimed, and their results are stored.
fn are_done(bench: &mut Bench, cells: u32) -> bool {
    let mut all = true;
    for _ in 0..cells {
        all &= is_done(bench);
    }
    all
}

/// Whether the result of the first claimable cell is stored.
pub(crate) fn is_done(bench: &mut Bench) -> bool {
    match again!(bench.claim(FIRST)) {
        Some(Some(claim)) => match computed(claim) {
            Some(done) => is_stored(bench, done),
            None => false,
        },
        _ => false,
    }
}

/// The result of a claim. One that isn't computed comes back.
pub(crate) fn computed(claim: Claim<Rp3>) -> Option<Done<Rp3>> {
    match claim.compute() {
        Ok(done) => Some(done),
        Err(claim) => claim.compute().ok(),
    }
}

/// Whether a result is stored; where memory is wanting it comes back, the bench is as before, and it is given again.
fn is_stored(bench: &mut Bench, done: Done<Rp3>) -> bool {
    let before = look_at(bench);
    match bench.give(done) {
        Given::Stored { .. } => true,
        Given::Memory(done) => {
            look_at(bench) == before && matches!(bench.give(done), Given::Stored { .. })
        }
        _ => false,
    }
}

pub(crate) fn asked<R: Threads + Sync>(rt: &R, alloc: Global) -> bool {
    let Some(mut bench) = whole(alloc) else {
        return false;
    };
    let net = Net::Comb;
    let queries = [
        Query::Reply { proc: 0, issue: 0 },
        Query::State {
            component: 2,
            cycle: 6,
        },
        Query::Memory {
            address: 0,
            cycle: 6,
        },
        served(6),
        Query::Profile { net, stage: 0 },
        Query::Tree { net, module: 0 },
        Query::Level {
            net,
            module: 0,
            cycle: 6,
        },
        Query::Bound { a: 1, b: 10, p: 2 },
        Query::Place { address: 300 },
        Query::Order { address: 0 },
    ];
    let mut all = true;
    for query in queries {
        all &= is_told(rt, &mut bench, query);
    }
    all
}

/// Whether a query is answered, and answered again from what was kept of it.
fn is_told<R: Threads + Sync>(rt: &R, bench: &mut Bench, query: Query) -> bool {
    answer(rt, bench, query).is_some() && answer(rt, bench, query).is_some()
}

/// By the states that the bench holds, and, with cells due, by a simulation.
pub(crate) fn ordered(alloc: Global) -> bool {
    is_ordered(whole(alloc)) && is_ordered(fresh(alloc))
}

fn is_ordered(bench: Option<Box<Bench>>) -> bool {
    match bench {
        Some(bench) => match bench.order(0) {
            Ordered::Memory => is_order(&bench.order(0)),
            ordered => is_order(&ordered),
        },
        None => false,
    }
}
