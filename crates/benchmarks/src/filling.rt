//! How many cells workers fill in a second.
use crate::benches::second;
use crate::clock::{Ratio, Times, a_second, taken};
use crate::crew::{
    Board, Hall, answered, attended, cells_of, end, fresh_pass, gates, last_word, new_board,
};
use crate::load::Load;
use anyhow::{Error, Result};
use bench_core::Asked;
use project_book::Project;
use run_queries::Query;
use shared_bench::Pass;
use std::thread;
use std::time::{Duration, Instant};
use wave_workers::work;

/// How often cells are computed.
const TIMES: u32 = 5;

/// How many cells workers claim at most.
const CLAIMS: u64 = 20_000;

/// How long who waits for workers sleeps between two looks, in microseconds.
const LOOK: u64 = 100;

/// Settles a fresh bench in one turn: the time.
fn settled_alone<H: Hall>(rt: &HostRuntime, host: &H, project: &Project) -> Result<u64> {
    let mut pass = fresh_pass(rt.alloc(), project)?;
    let since = Instant::now(rt)?;
    answered(&mut pass, host, last_word(project))?;
    taken(rt, since)
}

/// Computes so many cells of a fresh bench by so many workers, that claim them: the time, and how many results were stored.
fn claimed<H: Hall>(
    rt: &HostRuntime,
    host: &H,
    project: &Project,
    workers: u32,
    cells: u64,
) -> Result<(u64, u64)> {
    let pass = fresh_pass(rt.alloc(), project)?;
    let board = new_board(rt.alloc(), cells)?;
    let gates = gates(rt.alloc(), &board, workers)?;
    let since = Instant::now(rt)?;
    let worked = work(host, pass, gates, u64::MAX);
    let time = taken(rt, since)?;
    match worked.fault {
        None => Ok((time, worked.stored)),
        Some(_) => Err(Error::msg("no worker")),
    }
}

/// Looks until the question is answered, and then ends the workers: how long that took. A look takes a turn, so the first one
/// comes only when one thread would have settled the bench.
fn waited<H: Hall>(
    rt: &HostRuntime,
    host: &H,
    pass: Pass,
    query: Query,
    since: Instant,
    first: u64,
    board: &Board,
) -> Result<u64> {
    let mut pass = pass;
    thread::sleep(rt, Duration::from_micros(first / 1_000));
    for _ in 0..u32::MAX {
        if let Asked::Answer { .. } = pass.look(host, query) {
            break;
        }
        thread::sleep(rt, Duration::from_micros(LOOK));
    }
    let time = taken(rt, since);
    end(board, &pass);
    time
}

/// Settles a fresh bench by so many workers, slice by slice, which one thread settles in `alone` nanoseconds: the time.
fn sliced<H: Hall>(
    rt: &HostRuntime,
    host: &H,
    project: &Project,
    workers: u32,
    alone: u64,
) -> Result<u64> {
    let mut pass = fresh_pass(rt.alloc(), project)?;
    let own = second(&mut pass)?;
    let board = new_board(rt.alloc(), u64::MAX)?;
    let gates = gates(rt.alloc(), &board, workers)?;
    let since = Instant::now(rt)?;
    let (time, ()) = thread::join(
        host,
        || -> Result<u64> { waited(rt, host, pass, last_word(project), since, alone, &board) },
        || attended(host, own, gates, &board),
    );
    time
}

/// What settling a fresh bench takes without workers: so many cells in so many nanoseconds.
#[derive(Clone, Copy)]
struct Settled {
    cells: u64,
    time: u64,
}

impl Settled {
    /// Writes a row: how many cells workers computed in a second, and how much of that which is settled without them.
    fn row(
        self,
        rt: &HostRuntime,
        load: Load,
        workers: u32,
        how: &str,
        cells: u64,
        time: u64,
    ) -> Result<()> {
        let (each, alone) = (a_second(cells, time), a_second(self.cells, self.time));
        let ratio = Ratio::of(each, alone);
        eprintln!(rt;
            "{load}, a fresh bench, workers {workers}, {how}: {each} cells a second; without {alone}: {ratio}"
        )?;
        Ok(())
    }
}

/// Fills a fresh bench without workers, and by 1, 2 and 4.
pub fn filled<H: Hall>(rt: &HostRuntime, host: &H, load: Load, project: &Project) -> Result<()> {
    let mut alone = Times::none();
    for _ in 0..TIMES {
        alone = alone.and(settled_alone(rt, host, project)?);
    }
    let alone = Settled {
        cells: cells_of(project),
        time: alone.best(),
    };
    for workers in [1, 2, 4] {
        filled_by(rt, host, load, project, workers, alone)?;
    }
    Ok(())
}

/// Fills a fresh bench by so many workers, in slices and by claims.
fn filled_by<H: Hall>(
    rt: &HostRuntime,
    host: &H,
    load: Load,
    project: &Project,
    workers: u32,
    alone: Settled,
) -> Result<()> {
    let claims = alone.cells.min(CLAIMS);
    let (mut slices, mut claiming, mut stored) = (Times::none(), Times::none(), 0);
    for _ in 0..TIMES {
        slices = slices.and(sliced(rt, host, project, workers, alone.time)?);
        let (time, results) = claimed(rt, host, project, workers, claims)?;
        claiming = claiming.and(time);
        stored = results;
    }
    alone.row(rt, load, workers, "in slices", alone.cells, slices.best())?;
    alone.row(rt, load, workers, "by claims", claims, claiming.best())?;
    eprintln!(rt;
        "{load}, a fresh bench, workers {workers}: {stored} claimed results stored of {claims}"
    )?;
    Ok(())
}
