//! The loads, each with the plain simulation beside it.
use crate::benches::{edited, opened, replied, settled};
use crate::clock::{Beside, Times, bytes_beside, resident, row_beside, taken};
use crate::edits::{CHANGES, Change};
use crate::load::{LOADS, Load, loaded};
use crate::scratch::bytes_of;
use anyhow::{Error, Result};
use bench_core::{Asked, Bench};
use flat_row::Row;
use machine_cells::from_scratch;
use monitor_sums::Counter;
use project_book::{Edit, Project};
use run_queries::{Body, Query, Received};
use serial_order::Ordered;
use std::fmt;
use std::thread::Threads;
use std::time::Instant;

/// How often each thing is done.
const TIMES: u32 = 7;

/// How often each edit is made or taken back: in the end all are taken back.
const EDITS: u32 = 8;

/// How often all replies are asked for, anew and again.
const AGAIN: u32 = 100;

/// What came of a load: how many cells were computed at first, and after the last of each kind of edit; the last
/// processor's first reply.
#[derive(Drop)]
struct Told {
    load: Load,
    fresh: u64,
    edits: Vec<(Change, u64)>,
    reply: Option<Received>,
}

impl fmt::Display for Told {
    fn fmt<W: fmt::Write>(&self, f: &mut fmt::Formatter<W>) -> fmt::Result {
        write!(f, "{}: {} cells at first, ", self.load, self.fresh)?;
        for (change, cells) in &self.edits {
            write!(f, "{cells} for {}, ", change.name())?;
        }
        match self.reply {
            Some(reply) => write!(f, "a reply {reply}"),
            None => write!(f, "no reply"),
        }
    }
}

/// What came of all loads.
#[derive(Drop)]
pub struct All {
    k: u32,
    horizon: u32,
    told: Vec<Told>,
}

impl fmt::Display for All {
    fn fmt<W: fmt::Write>(&self, f: &mut fmt::Formatter<W>) -> fmt::Result {
        write!(f, "loads k {} horizon {}", self.k, self.horizon)?;
        for told in &self.told {
            write!(f, "; {told}")?;
        }
        Ok(())
    }
}

/// Measures each of the loads on 2^k processors.
pub fn measure<T: Threads + Sync>(
    rt: &HostRuntime,
    threads: &T,
    loads: &[Load],
    k: u32,
    horizon: u32,
) -> Result<All> {
    memory(rt, loads, k, horizon)?;
    let mut told = Vec::new(rt.alloc());
    for load in loads {
        told.push(one_load(rt, threads, *load, k, horizon)?)?;
    }
    Ok(All { k, horizon, told })
}

/// A settled bench, and what it takes.
#[derive(Drop)]
struct Held {
    load: Load,
    bytes: u64,
    cells: u64,
    bench: Box<Bench>,
}

/// The memory of a settled bench of each load, those first that take less: what the process has more. None is dropped before
/// all are measured, so that no memory is used twice. A small one comes before them: what the stack grows by isn't a bench's.
fn memory(rt: &HostRuntime, loads: &[Load], k: u32, horizon: u32) -> Result<()> {
    let _small = bench_held(rt, Load::Hot, 1, 10)?;
    let mut all = Vec::new(rt.alloc());
    for load in LOADS {
        if loads.contains(&load) {
            all.push(bench_held(rt, load, k, horizon)?)?;
        }
    }
    for held in &all {
        plain_memory(rt, held)?;
    }
    Ok(())
}

fn bench_held(rt: &HostRuntime, load: Load, k: u32, horizon: u32) -> Result<Held> {
    let project = loaded(rt.alloc(), load, k, horizon)?;
    let before = resident(rt)?;
    let mut bench = opened(rt.alloc(), project)?;
    let cells = settled(&mut bench)?;
    let bytes = resident(rt)?.saturating_sub(before);
    Ok(Held {
        load,
        bytes,
        cells,
        bench,
    })
}

/// Writes what a bench takes beside the plain simulation.
fn plain_memory(rt: &HostRuntime, held: &Held) -> Result<()> {
    let rows = from_scratch(rt.alloc(), held.bench.project())?;
    let beside = Beside {
        name: "from_scratch",
        all: bytes_of(&rows),
        count: held.cells,
    };
    bytes_beside(rt, held.load, held.bytes, held.cells, beside)
}

/// How long the plain simulation takes, and dropping what it made.
#[derive(Clone, Copy)]
struct Plain {
    whole: u64,
    dropping: u64,
}

impl Plain {
    /// The simulation of so many cells, which are all.
    fn of(self, cells: u64) -> Beside<'static> {
        Beside {
            name: "from_scratch",
            all: self.whole,
            count: cells,
        }
    }

    fn dropping(self) -> Beside<'static> {
        Beside {
            name: "of from_scratch",
            all: self.dropping,
            count: 1,
        }
    }
}

/// Simulates a project from cycle 0 on, several times.
fn simulated(rt: &HostRuntime, project: &Project) -> Result<Plain> {
    let (mut whole, mut dropping) = (Times::none(), Times::none());
    for _ in 0..TIMES {
        let since = Instant::now(rt)?;
        let rows = from_scratch(rt.alloc(), project)?;
        whole = whole.and(taken(rt, since)?);
        let since = Instant::now(rt)?;
        drop(rows);
        dropping = dropping.and(taken(rt, since)?);
    }
    Ok(Plain {
        whole: whole.best(),
        dropping: dropping.best(),
    })
}

/// What keeps no cells: a run of flat rows, and the order of the references to word 0 by such a run.
fn not_kept(rt: &HostRuntime, load: Load, project: &Project, plain: Plain) -> Result<()> {
    let (mut runs, mut orders) = (Times::none(), Times::none());
    for _ in 0..TIMES {
        runs = runs.and(run_once(rt, project)?);
        orders = orders.and(ordered_once(rt, project)?);
    }
    row_beside(rt, load, "a run that keeps nothing", runs, 1, plain.of(1))?;
    row_beside(rt, load, "an order, unsettled", orders, 1, plain.of(1))
}

/// How long a run takes of which only the present row is held.
fn run_once(rt: &HostRuntime, project: &Project) -> Result<u64> {
    let since = Instant::now(rt)?;
    let mut row = Row::start(rt.alloc(), project)?;
    for _ in 0..project.horizon() {
        row.step(project)?;
    }
    taken(rt, since)
}

/// How long a bench of which all cells are due takes for the order of the references to word 0.
fn ordered_once(rt: &HostRuntime, project: &Project) -> Result<u64> {
    let bench = opened(rt.alloc(), project.share()?)?;
    let since = Instant::now(rt)?;
    match bench.order(0) {
        Ordered::Order(_) => taken(rt, since),
        _ => Err(Error::msg("no order")),
    }
}

/// Measures a load.
fn one_load<T: Threads + Sync>(
    rt: &HostRuntime,
    threads: &T,
    load: Load,
    k: u32,
    horizon: u32,
) -> Result<Told> {
    let project = loaded(rt.alloc(), load, k, horizon)?;
    let plain = simulated(rt, &project)?;
    not_kept(rt, load, &project, plain)?;
    let fresh = opened_often(rt, load, &project, plain)?;
    first_counters(rt, threads, load, &project, plain)?;
    let mut bench = opened(rt.alloc(), project)?;
    edited_told(rt, threads, load, &mut bench, fresh, plain)
}

/// Measures edits and answers of a bench that had so many cells computed at first.
fn edited_told<T: Threads + Sync>(
    rt: &HostRuntime,
    threads: &T,
    load: Load,
    bench: &mut Bench,
    fresh: u64,
    plain: Plain,
) -> Result<Told> {
    settled(bench)?;
    let mut edits = Vec::new(rt.alloc());
    for change in CHANGES {
        edits.push((
            change,
            edited_often(rt, threads, load, bench, change, plain)?,
        ))?;
    }
    Ok(Told {
        load,
        fresh,
        edits,
        reply: replies(rt, threads, load, bench, plain)?,
    })
}

/// How long a bench was opened, settled from the opening on, and dropped; how many cells were computed.
#[derive(Clone, Copy)]
struct Opening {
    opening: Times,
    settling: Times,
    dropping: Times,
    cells: u64,
}

/// Opens, settles and drops a bench several times: how many cells were computed.
fn opened_often(rt: &HostRuntime, load: Load, project: &Project, plain: Plain) -> Result<u64> {
    let mut times = Opening {
        opening: Times::none(),
        settling: Times::none(),
        dropping: Times::none(),
        cells: 0,
    };
    for _ in 0..TIMES {
        times = once_more(rt, project, times)?;
    }
    let Opening {
        opening,
        settling,
        dropping,
        cells,
    } = times;
    row_beside(rt, load, "opening", opening, 1, plain.of(1))?;
    let beside = plain.of(cells);
    row_beside(rt, load, "fresh settling, a cell", settling, cells, beside)?;
    row_beside(rt, load, "dropping", dropping, 1, plain.dropping())?;
    Ok(cells)
}

fn once_more(rt: &HostRuntime, project: &Project, times: Opening) -> Result<Opening> {
    let project = project.share()?;
    let since = Instant::now(rt)?;
    let mut bench = opened(rt.alloc(), project)?;
    let opening = taken(rt, since)?;
    let cells = settled(&mut bench)?;
    let settling = taken(rt, since)?;
    let since = Instant::now(rt)?;
    drop(bench);
    Ok(Opening {
        opening: times.opening.and(opening),
        settling: times.settling.and(settling),
        dropping: times.dropping.and(taken(rt, since)?),
        cells,
    })
}

/// The first counter of a settled bench, a fresh one each time: it counts all that the bench holds.
fn first_counters<T: Threads + Sync>(
    rt: &HostRuntime,
    threads: &T,
    load: Load,
    project: &Project,
    plain: Plain,
) -> Result<()> {
    let mut times = Times::none();
    for _ in 0..TIMES {
        times = times.and(first_counter(rt, threads, project)?);
    }
    row_beside(rt, load, "a first counter", times, 1, plain.of(1))
}

/// How long it takes to ask a settled bench first how many requests module 0 served up to the horizon.
fn first_counter<T: Threads + Sync>(
    rt: &HostRuntime,
    threads: &T,
    project: &Project,
) -> Result<u64> {
    let mut bench = opened(rt.alloc(), project.share()?)?;
    settled(&mut bench)?;
    let query = Query::Counter {
        counter: Counter::Served,
        who: Some(bench.project().processors()),
        from: 0,
        to: bench.project().horizon(),
    };
    let since = Instant::now(rt)?;
    match bench.ask(threads, query) {
        Asked::Answer {
            body: Body::Count(_),
            ..
        } => taken(rt, since),
        _ => Err(Error::msg("no counter")),
    }
}

/// Edits of one kind on a settled bench, each with the last processor's first reply: how many cells the last had computed.
fn edited_often<T: Threads + Sync>(
    rt: &HostRuntime,
    threads: &T,
    load: Load,
    bench: &mut Bench,
    change: Change,
    plain: Plain,
) -> Result<u64> {
    let (k, last) = (
        bench.project().k(),
        bench.project().processors().saturating_sub(1),
    );
    let what = change.name();
    let mut times = Times::none();
    let mut cells = 0;
    for time in 0..EDITS {
        let since = Instant::now(rt)?;
        cells = edited(bench, change.edit(load, k, time))?;
        replied(threads, bench, last)?;
        times = times.and(taken(rt, since)?);
    }
    row_beside(rt, load, what, times, 1, plain.of(1))?;
    eprintln!(rt; "{load}, {what}: {cells} cells")?;
    Ok(cells)
}

/// The first replies of all processors on a settled bench, asked for anew, each time after an edit that changes nothing, and
/// again: the last one.
fn replies<T: Threads + Sync>(
    rt: &HostRuntime,
    threads: &T,
    load: Load,
    bench: &mut Bench,
    plain: Plain,
) -> Result<Option<Received>> {
    let count = bench.project().processors();
    let (mut anew, mut again) = (Times::none(), Times::none());
    let mut reply = None;
    for _ in 0..TIMES {
        anew = anew.and(asked_anew(rt, threads, bench, count)?);
        let since = Instant::now(rt)?;
        reply = all_replied(threads, bench, count, AGAIN)?;
        again = again.and(taken(rt, since)?);
    }
    let count = u64::from(count).saturating_mul(u64::from(AGAIN));
    row_beside(rt, load, "a reply, asked anew", anew, count, plain.of(1))?;
    row_beside(rt, load, "a reply, asked again", again, count, plain.of(1))?;
    Ok(reply)
}

/// How long the first replies of so many processors take, asked for often, each time after an edit that changes nothing.
fn asked_anew<T: Threads + Sync>(
    rt: &HostRuntime,
    threads: &T,
    bench: &mut Bench,
    count: u32,
) -> Result<u64> {
    let mut all = 0u64;
    for _ in 0..AGAIN {
        let same = Edit::Window(bench.project().window());
        edited(bench, same)?;
        let since = Instant::now(rt)?;
        all_replied(threads, bench, count, 1)?;
        all = all.saturating_add(taken(rt, since)?);
    }
    Ok(all)
}

/// Asks for the first replies of so many processors so often: the last one.
fn all_replied<T: Threads + Sync>(
    threads: &T,
    bench: &mut Bench,
    count: u32,
    times: u32,
) -> Result<Option<Received>> {
    let mut reply = None;
    for _ in 0..times {
        for proc in 0..count {
            reply = replied(threads, bench, proc)?;
        }
    }
    Ok(reply)
}
