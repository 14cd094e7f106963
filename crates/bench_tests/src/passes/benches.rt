//! A bench that has begun, and the run of the base project.
use crate::base::{adds, entry, fresh};
use bench_core::Bench;
use cell_table::Cell;
use machine_cells::from_scratch;
use project_book::{Edit, Project};
use run_queries::word_in;
use std::alloc::Global;
use std::test::Fail;

/// The processor's first entry: it adds 1 to address 0.
pub(super) fn add(proc: u32) -> Edit {
    entry(proc, 0, adds(true, 1, 1))
}

/// A bench of the base project, with the cells of cycle 0 stored.
pub(super) fn begun(alloc: Global) -> Result<Box<Bench>, Fail> {
    let mut bench = fresh(alloc)?;
    for component in 0..6 {
        let from = Cell {
            cycle: 0,
            component,
        };
        let claim = bench.claim(from)?.ok_or("due")?;
        let done = claim.compute().ok().ok_or("no memory")?;
        bench.give(done);
    }
    Ok(bench)
}

/// The word of address 0 at the horizon, by the plain simulation.
pub(super) fn simulated(alloc: Global, project: &Project) -> Result<u32, Fail> {
    let rows = from_scratch(alloc, project)?;
    let last = rows.last().ok_or("a row")?;
    let state = last.get(2).ok_or("a state")?;
    Ok(word_in(Some(&**state), 0))
}
