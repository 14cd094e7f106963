//! What benches hold, beside the plain simulation.
use bench_core::{Asked, Bench, Told};
use machine_cells::{MachineState, from_scratch};
use project_book::{Edit, Project};
use run_queries::{Body, Query};
use shared_bench::Pass;
use std::alloc::Global;
use std::sync::Wait;
use std::thread::Threads;

/// Sets the word of an address.
pub(crate) fn word(address: u32, word: u32) -> Edit {
    Edit::Word { address, word }
}

/// Whether every cell of a settled bench has the state of the plain simulation.
pub(crate) fn is_simulated<R: Threads + Sync>(rt: &R, alloc: Global, bench: &mut Bench) -> bool {
    let Ok(rows) = from_scratch(alloc, bench.project()) else {
        return false;
    };
    for (cycle, row) in rows.iter().enumerate() {
        for (component, want) in row.iter().enumerate() {
            let asked = bench.ask(rt, state(component, cycle));
            let same = match asked {
                Asked::Answer { body, .. } => is_state(&body, want),
                _ => false,
            };
            if !same {
                return false;
            }
        }
    }
    true
}

/// Whether every answer that a pass gets has the state of the plain simulation of its project.
pub(crate) fn tells_simulated<R: Threads + Wait + Sync>(
    rt: &R,
    alloc: Global,
    pass: &mut Pass,
) -> bool {
    let Ok((_, project)) = pass.project(rt) else {
        return false;
    };
    let Ok(rows) = from_scratch(alloc, &project) else {
        return false;
    };
    for (cycle, row) in rows.iter().enumerate() {
        for (component, want) in row.iter().enumerate() {
            let same = match pass.ask(rt, state(component, cycle)) {
                Told::Answer { body, .. } => is_state(&body, want),
                _ => false,
            };
            if !same {
                return false;
            }
        }
    }
    true
}

fn state(component: usize, cycle: usize) -> Query {
    Query::State {
        component: u32::try_from(component).unwrap_or(u32::MAX),
        cycle: u32::try_from(cycle).unwrap_or(u32::MAX),
    }
}

fn is_state(body: &Body, want: &MachineState) -> bool {
    match body {
        Body::State(held) => held.state().same(want),
        _ => false,
    }
}
