//! Passes of a shared bench.
use crate::again::again;
use crate::benches::{computed, fresh};
use bench_core::{Asked, Told};
use cell_table::{Cell, Done, Given};
use machine_cells::Rp3;
use project_book::{Edit, EditFault};
use run_queries::{Body, Query};
use shared_bench::{Pass, SplitFault, open};
use std::alloc::Global;
use std::sync::Wait;
use std::thread::Threads;

const FIRST_WORD: Query = Query::Memory {
    address: 0,
    cycle: 0,
};

/// The first pass of two seats.
fn first(alloc: Global) -> Option<Pass> {
    let bench = fresh(alloc)?;
    open(alloc, Box::into_inner(bench), 2)
        .or_else(|bench| open(alloc, bench, 2))
        .ok()
}

/// A refused split leaves its seat free.
pub(crate) fn opened(alloc: Global) -> bool {
    match first(alloc) {
        Some(mut pass) => { splits(&mut pass) && matches!(pass.split(), Err(SplitFault::NoSeat)) }
        None => false,
    }
}

/// Whether a pass is split.
fn splits(pass: &mut Pass) -> bool {
    match pass.split() {
        Ok(_) => true,
        Err(SplitFault::Memory) => pass.split().is_ok(),
        Err(SplitFault::NoSeat) => false,
    }
}

pub(crate) fn used<R: Threads + Wait + Sync>(rt: &R, alloc: Global) -> bool {
    match first(alloc) {
        Some(mut pass) => {
            edits(rt, &mut pass)
                && asks(rt, &mut pass)
                && looks(rt, &mut pass)
                && shares(rt, &mut pass)
        }
        None => false,
    }
}

/// Word 0 is set to 20 as the first edit: a refused one is none.
fn edits<R: Threads + Wait + Sync>(rt: &R, pass: &mut Pass) -> bool {
    let edit = Edit::Word {
        address: 0,
        word: 20,
    };
    let version = match pass.edit(rt, edit) {
        Err(EditFault::Memory) if pass.length() == 0 => pass.edit(rt, edit),
        version => version,
    };
    version == Ok(1)
}

fn asks<R: Threads + Wait + Sync>(rt: &R, pass: &mut Pass) -> bool {
    let told = match pass.ask(rt, FIRST_WORD) {
        Told::Memory => pass.ask(rt, FIRST_WORD),
        told => told,
    };
    matches!(
        told,
        Told::Answer {
            version: 1,
            body: Body::Word(20)
        }
    )
}

fn looks<R: Threads + Wait + Sync>(rt: &R, pass: &mut Pass) -> bool {
    let asked = match pass.look(rt, FIRST_WORD) {
        Asked::Memory => pass.look(rt, FIRST_WORD),
        asked => asked,
    };
    matches!(
        asked,
        Asked::Answer {
            version: 1,
            body: Body::Word(20)
        }
    )
}

fn shares<R: Threads + Wait + Sync>(rt: &R, pass: &mut Pass) -> bool {
    match again!(pass.project(rt)) {
        Some((version, project)) => version == 1 && project.word(0) == 20,
        None => false,
    }
}

/// A pass claims, computes and gives the first cell: a result that comes back is given again.
pub(crate) fn given<R: Threads + Wait + Sync>(rt: &R, alloc: Global) -> bool {
    let Some(mut pass) = first(alloc) else {
        return false;
    };
    match result(rt, &mut pass) {
        Some(done) => match pass.give(rt, done) {
            Given::Stored { .. } => true,
            Given::Memory(done) => matches!(pass.give(rt, done), Given::Stored { .. }),
            _ => false,
        },
        None => false,
    }
}

fn result<R: Threads + Wait + Sync>(rt: &R, pass: &mut Pass) -> Option<Done<Rp3>> {
    let from = Cell {
        cycle: 0,
        component: 0,
    };
    match again!(pass.claim(rt, from)) {
        Some(Some(claim)) => computed(claim),
        _ => None,
    }
}
