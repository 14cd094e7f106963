//! Claims that are dropped, and results that are given twice, elsewhere or late, to a bench in one thread.
use crate::benches::{is_simulated, word};
use crate::sessions::{bench_of, fresh, other};
use bench_core::Bench;
use cell_table::{Cell, Done, Given};
use machine_cells::Rp3;
use omega_net::ScriptEntry;
use project_book::Edit;
use std::alloc::Global;
use std::thread::Threads;

/// The first cell of all.
const FIRST: Cell = Cell {
    cycle: 0,
    component: 0,
};

/// It was stored, as another state.
pub(crate) const STORED: Came = Came::Stored { changed: true };

/// What became of a result.
#[derive(Clone, Copy, PartialEq, Eq)]
pub(crate) enum Came {
    Gone,
    NotDue,
    Overtaken,
    Foreign,
    Spent,
    Stored { changed: bool },
    Memory,
}

impl Came {
    pub(crate) fn of<D: Drop>(given: Given<D>) -> Came {
        match given {
            Given::Gone => Came::Gone,
            Given::NotDue => Came::NotDue,
            Given::Overtaken => Came::Overtaken,
            Given::Foreign => Came::Foreign,
            Given::ClockSpent(_) => Came::Spent,
            Given::Stored { changed } => Came::Stored { changed },
            Given::Memory(_) => Came::Memory,
        }
    }
}

/// The result of the first claimable cell at or after one.
fn result(bench: &Bench, from: Cell) -> Option<Done<Rp3>> {
    match bench.claim(from) {
        Ok(Some(claim)) => claim.compute().ok(),
        _ => None,
    }
}

/// Whether a bench is settled by so many cells, and then holds the plain simulation.
fn settles<R: Threads + Sync>(rt: &R, alloc: Global, bench: &mut Bench, cells: u64) -> bool {
    match bench.settle() {
        Ok(settled) => settled.computed == cells && is_simulated(rt, alloc, bench),
        Err(_) => false,
    }
}

/// Ten thousand claims, each of the first cell, since none is given; all 66 cells are due after.
pub(crate) fn dropped<R: Threads + Sync>(rt: &R, alloc: Global) -> Option<u32> {
    let mut bench = fresh(alloc)?;
    let held = drops(&bench);
    if settles(rt, alloc, &mut bench, 66) {
        held
    } else {
        None
    }
}

fn drops(bench: &Bench) -> Option<u32> {
    let mut held = 0u32;
    for _ in 0..10_000 {
        if first_cell(bench)? != FIRST {
            return None;
        }
        held = held.saturating_add(1);
    }
    Some(held)
}

/// The first claimable cell.
fn first_cell(bench: &Bench) -> Option<Cell> {
    match bench.claim(FIRST) {
        Ok(Some(claim)) => Some(claim.cell()),
        _ => None,
    }
}

/// Two results for each cell, both given: the first is stored, and then the cell isn't due.
pub(crate) fn twice<R: Threads + Sync>(rt: &R, alloc: Global) -> Option<u32> {
    let mut bench = fresh(alloc)?;
    let held = all_twice(&mut bench);
    if settles(rt, alloc, &mut bench, 0) {
        held
    } else {
        None
    }
}

fn all_twice(bench: &mut Bench) -> Option<u32> {
    let mut held = 0u32;
    for _ in 0..66 {
        if given_twice(bench) != Some((STORED, Came::NotDue)) {
            return None;
        }
        held = held.saturating_add(2);
    }
    Some(held)
}

/// What comes of two results for the first cell.
fn given_twice(bench: &mut Bench) -> Option<(Came, Came)> {
    let one = result(bench, FIRST)?;
    let other = result(bench, one.cell())?;
    let first = Came::of(bench.give(one));
    Some((first, Came::of(bench.give(other))))
}

/// Each result of one bench is given to another, whose word 0 is 11 and not 10. Both modules read it at cycle 0, and module 0
/// holds it from then on, so that it and the two switches beside it step from other near states. These 32 results are
/// foreign, and the cell's own one is given in their place, so that both clocks go on as one; all others are as good as own
/// ones.
pub(crate) fn elsewhere<R: Threads + Sync>(rt: &R, alloc: Global) -> Option<u32> {
    let mut here = fresh(alloc)?;
    let other = other(alloc)?;
    let mut there = bench_of(alloc, other, 0)?;
    let held = all_elsewhere(&mut here, &mut there);
    if settles(rt, alloc, &mut there, 0) {
        held
    } else {
        None
    }
}

fn all_elsewhere(here: &mut Bench, there: &mut Bench) -> Option<u32> {
    let mut held = 0u32;
    for _ in 0..66 {
        let cell = first_cell(here)?;
        let came = given(there, result(here, cell)?);
        let is_foreign = match cell.cycle {
            0 => cell.component == 2 || cell.component == 3,
            _ => cell.component == 2 || cell.component == 4 || cell.component == 5,
        };
        let want = if is_foreign { Came::Foreign } else { STORED };
        if came != want || is_foreign && given(there, result(there, cell)?) != STORED {
            return None;
        }
        given(here, result(here, cell)?);
        held = held.saturating_add(1);
    }
    Some(held)
}

fn given(bench: &mut Bench, done: Done<Rp3>) -> Came {
    Came::of(bench.give(done))
}

/// The result for module 1 at cycle 0, held over edits.
const MODULE: Cell = Cell {
    cycle: 0,
    component: 3,
};

/// Makes edits, each accepted.
fn edited(bench: &mut Bench, edits: &[Edit]) -> Option<()> {
    for edit in edits {
        if bench.edit(0, *edit).is_err() {
            return None;
        }
    }
    Some(())
}

/// A thousand times: a word is another one, so that both modules at cycle 0 are due; the result for one is held while the
/// word is set away and back, and is overtaken; another is held while a script changes that no module reads, and is stored.
pub(crate) fn over_edits<R: Threads + Sync>(rt: &R, alloc: Global) -> Option<u32> {
    let mut bench = fresh(alloc)?;
    let held = all_over_edits(&mut bench);
    if is_settled(rt, alloc, &mut bench) {
        held
    } else {
        None
    }
}

fn all_over_edits(bench: &mut Bench) -> Option<u32> {
    bench.settle().ok()?;
    let mut held = 0u32;
    for round in 100..1_100 {
        if held_over_edits(bench, round) != Some((Came::Overtaken, STORED)) {
            return None;
        }
        held = held.saturating_add(2);
    }
    Some(held)
}

/// What comes of the two results.
fn held_over_edits(bench: &mut Bench, mine: u32) -> Option<(Came, Came)> {
    edited(bench, &[word(300, mine)])?;
    let early = result(bench, MODULE)?;
    edited(bench, &[word(300, 6), word(300, mine)])?;
    let late = result(bench, MODULE)?;
    edited(bench, &[FENCE, Edit::Cut { proc: 1, length: 0 }])?;
    let first = given(bench, early);
    Some((first, given(bench, late)))
}

/// Whether a bench can be settled, and then holds the plain simulation.
fn is_settled<R: Threads + Sync>(rt: &R, alloc: Global, bench: &mut Bench) -> bool {
    bench.settle().is_ok() && is_simulated(rt, alloc, bench)
}

/// An entry of processor 1's script, which no module reads.
const FENCE: Edit = Edit::Entry {
    proc: 1,
    index: 0,
    entry: ScriptEntry::Fence,
};

/// A hundred times: cycle 11 is new, and the results of its six cells are held. Three are given while it is cut off, and the
/// three others once it is there again: those cells are gone, and these are new since. Then it is cut off for good.
pub(crate) fn over_horizons<R: Threads + Sync>(rt: &R, alloc: Global) -> Option<u32> {
    let mut bench = fresh(alloc)?;
    let held = all_over_horizons(alloc, &mut bench);
    if is_settled(rt, alloc, &mut bench) {
        held
    } else {
        None
    }
}

fn all_over_horizons(alloc: Global, bench: &mut Bench) -> Option<u32> {
    bench.settle().ok()?;
    let mut held = 0u32;
    for _ in 0..100 {
        edited(bench, &[Edit::Horizon(11)])?;
        let mut results = last_results(alloc, bench)?;
        edited(bench, &[Edit::Horizon(10)])?;
        let gone = all_come(bench, &mut results, Came::Gone);
        edited(bench, &[Edit::Horizon(11)])?;
        let overtaken = all_come(bench, &mut results, Came::Overtaken);
        edited(bench, &[Edit::Horizon(10)])?;
        if !gone || !overtaken {
            return None;
        }
        held = held.saturating_add(6);
    }
    Some(held)
}

/// The results of cycle 11.
fn last_results(alloc: Global, bench: &Bench) -> Option<Vec<Done<Rp3>>> {
    let mut results = Vec::new(alloc);
    for component in 0..6 {
        let done = result(
            bench,
            Cell {
                cycle: 11,
                component,
            },
        )?;
        if results.push(done).is_err() {
            return None;
        }
    }
    Some(results)
}

/// Whether this comes of three of the results.
fn all_come(bench: &mut Bench, results: &mut Vec<Done<Rp3>>, want: Came) -> bool {
    for _ in 0..3 {
        match results.pop() {
            Some(done) => {
                if given(bench, done) != want {
                    return false;
                }
            }
            None => return false,
        }
    }
    true
}
