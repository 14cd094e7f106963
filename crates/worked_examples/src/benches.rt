//! What a bench answers.
use bench_core::{Asked, Bench};
use machine_cells::{MachineState, from_scratch};
use omega_net::Net;
use page_map::Place;
use run_queries::{Body, Query};
use std::sync::Arc;
use std::test::Fail;
use std::thread::Threads;

/// What benches are asked with, and shells run.
pub(crate) trait Host: AllocGlobal + Threads + Sync {}

impl<R: AllocGlobal + Threads + Sync> Host for R {}

/// What the bench answers at once.
pub(crate) fn ask(rt: &impl Host, bench: &mut Bench, query: Query) -> Asked {
    bench.ask(rt, query)
}

/// How many cells of a settled bench, each asked for its state, are as the plain simulation has them.
pub(crate) fn same_cells(rt: &impl Host, bench: &mut Bench) -> Result<usize, Fail> {
    let rows = from_scratch(rt.alloc(), bench.project())?;
    let mut same = 0usize;
    for (cycle, row) in rows.iter().enumerate() {
        same = same.saturating_add(same_in_cycle(rt, bench, u32::try_from(cycle)?, row)?);
    }
    Ok(same)
}

fn same_in_cycle(
    rt: &impl Host,
    bench: &mut Bench,
    cycle: u32,
    row: &[Arc<MachineState>],
) -> Result<usize, Fail> {
    let mut same = 0usize;
    for (component, want) in row.iter().enumerate() {
        let component = u32::try_from(component)?;
        if is_told(rt, bench, Query::State { component, cycle }, want) {
            same = same.saturating_add(1);
        }
    }
    Ok(same)
}

/// Whether a query is answered by this state.
fn is_told(rt: &impl Host, bench: &mut Bench, query: Query, want: &MachineState) -> bool {
    match ask(rt, bench, query) {
        Asked::Answer {
            body: Body::State(state),
            ..
        } => state.state().same(want),
        _ => false,
    }
}

/// What a query is answered, but for most bodies.
#[derive(Clone, Copy, PartialEq, Eq, Debug)]
pub(crate) enum Heard {
    Pending(u64),
    Bad(u8),
    Place(Place),
    Other,
}

/// What a query is answered.
pub(crate) fn answered(rt: &impl Host, bench: &mut Bench, query: Query) -> Heard {
    match ask(rt, bench, query) {
        Asked::Pending(due) => Heard::Pending(due),
        Asked::BadQuery(number) => Heard::Bad(number),
        Asked::Answer {
            body: Body::Place(place),
            ..
        } => Heard::Place(place),
        _ => Heard::Other,
    }
}

/// How far the queues of the low network towards module 0 were full, by cycle.
pub(crate) fn levels(rt: &impl Host, bench: &mut Bench) -> Result<Vec<u8>, Fail> {
    let query = Query::Tree {
        net: Net::Low,
        module: 0,
    };
    match ask(rt, bench, query) {
        Asked::Answer {
            body: Body::Tree(tree),
            ..
        } => Ok(tree.levels.into_vec()),
        _ => Err(Fail::from("no tree")),
    }
}
