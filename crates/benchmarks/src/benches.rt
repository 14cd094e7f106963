//! Benches that are measured: opened, edited, settled and asked, and passes to one.
ghost use Rattle.std.specs.Prelude.{◌<◌, ◌≤◌};

use anyhow::{Error, Result};
use bench_core::{Asked, Bench};
use project_book::{Edit, Project};
use run_queries::{Body, Query, Received};
use shared_bench::{Pass, open};
use std::alloc::Global;
use std::thread::Threads;

/// A fresh bench.
pub fn opened(alloc: Global, project: Project) -> Result<Box<Bench>> {
    let bench = Bench::new(alloc, project, 0)
        .ok()
        .ok_or_else(|| Error::msg("no memory"))?;
    Ok(Box::new(alloc, bench)?)
}

/// Settles the bench: how many cells were computed.
pub fn settled(bench: &mut Bench) -> Result<u64> {
    match bench.settle() {
        Ok(settled) => Ok(settled.computed),
        Err(_) => Err(Error::msg("not settled")),
    }
}

/// Makes an edit and settles the bench: how many cells were computed.
pub fn edited(bench: &mut Bench, edit: Edit) -> Result<u64> {
    bench.edit(0, edit)?;
    settled(bench)
}

/// The first reply of a processor, of a settled bench.
pub fn replied<T: Threads + Sync>(
    threads: &T,
    bench: &mut Bench,
    proc: u32,
) -> Result<Option<Received>> {
    match bench.ask(threads, Query::Reply { proc, issue: 0 }) {
        Asked::Answer {
            body: Body::Reply(received),
            ..
        } => Ok(received),
        _ => Err(Error::msg("no reply")),
    }
}

/// The first pass to a bench, with so many seats.
pub fn shared(alloc: Global, bench: Box<Bench>, seats: u32) -> Result<Pass>
    requires { (0 < seats) × (seats ≤ 64) }
{
    open(alloc, Box::into_inner(bench), seats)
        .ok()
        .ok_or_else(|| Error::msg("no memory"))
}

/// A pass more.
pub fn second(pass: &mut Pass) -> Result<Pass> {
    match pass.split() {
        Ok(pass) => Ok(pass),
        Err(_) => Err(Error::msg("no pass")),
    }
}
