//! Waves: the cells that one thread settles by itself, and by waves of several pieces.
ghost use Rattle.std.specs.Prelude.{◌≤◌, ◌<◌};

use crate::benches::{opened, settled};
use crate::clock::{Beside, Times, row_beside, taken};
use crate::edits::Change;
use crate::load::{Load, loaded};
use anyhow::{Error, Result};
use bench_core::Bench;
use project_book::Project;
use std::alloc::Global;
use std::fmt;
use std::thread::Threads;
use std::time::Instant;
use wave_workers::{Ungated, settle_wave};

/// How often each thing is done.
const TIMES: u32 = 5;

/// How long a bench was settled by one thread, and by waves of 1, 2 and 4 pieces.
#[derive(Clone, Copy)]
struct Ways {
    alone: Times,
    one: Times,
    two: Times,
    four: Times,
    cells: u64,
}

impl Ways {
    fn none() -> Ways {
        Ways {
            alone: Times::none(),
            one: Times::none(),
            two: Times::none(),
            four: Times::none(),
            cells: 0,
        }
    }

    fn rows(self, rt: &HostRuntime, load: Load, what: &str) -> Result<()> {
        let Ways {
            alone,
            one,
            two,
            four,
            cells,
        } = self;
        let beside = Beside {
            name: "by settle",
            all: alone.best(),
            count: cells,
        };
        eprintln!(rt; "{load}, {what}, a cell of {cells}:")?;
        row_beside(rt, load, "waves of 1 piece", one, cells, beside)?;
        row_beside(rt, load, "waves of 2 pieces", two, cells, beside)?;
        row_beside(rt, load, "waves of 4 pieces", four, cells, beside)
    }
}

/// Settles a bench by waves of so many pieces, or without: how many cells were computed.
fn settled_by<R: Threads + Sync>(
    alloc: Global,
    threads: &R,
    bench: &mut Bench,
    pieces: usize,
) -> Result<u64>
    requires { pieces ≤ 16 }
{
    let settled = if pieces == 0 {
        bench.settle()
    } else {
        settle_wave(threads, bench, vec![in alloc; Ungated; pieces]?)
    };
    match settled {
        Ok(settled) => Ok(settled.computed),
        Err(_) => Err(Error::msg("not settled")),
    }
}

/// Settles a fresh bench so: the time, and the cells.
fn fresh<R: Threads + Sync>(
    rt: &HostRuntime,
    threads: &R,
    project: &Project,
    pieces: usize,
) -> Result<(u64, u64)>
    requires { pieces ≤ 16 }
{
    let mut bench = opened(rt.alloc(), project.share()?)?;
    let since = Instant::now(rt)?;
    let cells = settled_by(rt.alloc(), threads, &mut bench, pieces)?;
    Ok((taken(rt, since)?, cells))
}

/// Makes an edit, settles the bench so, and does both again with the edit taken back: the time, and the cells.
fn held<R: Threads + Sync>(
    rt: &HostRuntime,
    threads: &R,
    load: Load,
    bench: &mut Bench,
    change: Change,
    pieces: usize,
) -> Result<(u64, u64)>
    requires { pieces ≤ 16 }
{
    let k = bench.project().k();
    let since = Instant::now(rt)?;
    bench.edit(0, change.edit(load, k, 0))?;
    let there = settled_by(rt.alloc(), threads, bench, pieces)?;
    bench.edit(0, change.edit(load, k, 1))?;
    let back = settled_by(rt.alloc(), threads, bench, pieces)?;
    Ok((taken(rt, since)?, there.wrapping_add(back)))
}

fn all_fresh<R: Threads + Sync>(
    rt: &HostRuntime,
    threads: &R,
    load: Load,
    project: &Project,
) -> Result<u64> {
    let mut ways = Ways::none();
    for _ in 0..TIMES {
        let (alone, cells) = fresh(rt, threads, project, 0)?;
        ways = Ways {
            alone: ways.alone.and(alone),
            one: ways.one.and(fresh(rt, threads, project, 1)?.0),
            two: ways.two.and(fresh(rt, threads, project, 2)?.0),
            four: ways.four.and(fresh(rt, threads, project, 4)?.0),
            cells,
        };
    }
    ways.rows(rt, load, "a fresh bench")?;
    Ok(ways.cells)
}

fn all_held<R: Threads + Sync>(
    rt: &HostRuntime,
    threads: &R,
    load: Load,
    bench: &mut Bench,
    change: Change,
) -> Result<u64> {
    let mut ways = Ways::none();
    for _ in 0..TIMES {
        let (alone, cells) = held(rt, threads, load, bench, change, 0)?;
        ways = Ways {
            alone: ways.alone.and(alone),
            one: ways.one.and(held(rt, threads, load, bench, change, 1)?.0),
            two: ways.two.and(held(rt, threads, load, bench, change, 2)?.0),
            four: ways.four.and(held(rt, threads, load, bench, change, 4)?.0),
            cells,
        };
    }
    ways.rows(rt, load, change.name())?;
    Ok(ways.cells)
}

/// What came of a load: the cells of a fresh bench, and those that two edits had computed, there and back.
#[derive(Clone, Copy)]
struct Told {
    load: Load,
    fresh: u64,
    depth: u64,
    window: u64,
}

impl fmt::Display for Told {
    fn fmt<W: fmt::Write>(&self, f: &mut fmt::Formatter<W>) -> fmt::Result {
        let Told {
            load,
            fresh,
            depth,
            window,
        } = self;
        write!(
            f,
            "{load}: {fresh} cells at first, {depth} for a depth, {window} for the window"
        )
    }
}

/// What came of all loads.
#[derive(Drop)]
pub struct All {
    k: u32,
    horizon: u32,
    told: Vec<Told>,
}

impl fmt::Display for All {
    fn fmt<W: fmt::Write>(&self, f: &mut fmt::Formatter<W>) -> fmt::Result {
        write!(f, "waves k {} horizon {}", self.k, self.horizon)?;
        for told in &self.told {
            write!(f, "; {told}")?;
        }
        Ok(())
    }
}

/// Measures the waves of each of the loads on 2^k processors.
pub fn measure<R: Threads + Sync>(
    rt: &HostRuntime,
    threads: &R,
    loads: &[Load],
    k: u32,
    horizon: u32,
) -> Result<All> {
    let mut told = Vec::new(rt.alloc());
    for load in loads {
        told.push(one_load(rt, threads, *load, k, horizon)?)?;
    }
    Ok(All { k, horizon, told })
}

fn one_load<R: Threads + Sync>(
    rt: &HostRuntime,
    threads: &R,
    load: Load,
    k: u32,
    horizon: u32,
) -> Result<Told> {
    let project = loaded(rt.alloc(), load, k, horizon)?;
    let fresh = all_fresh(rt, threads, load, &project)?;
    let mut bench = opened(rt.alloc(), project)?;
    settled(&mut bench)?;
    Ok(Told {
        load,
        fresh,
        depth: all_held(rt, threads, load, &mut bench, Change::Depth)?,
        window: all_held(rt, threads, load, &mut bench, Change::Window)?,
    })
}
