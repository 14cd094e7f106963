//! Workers in threads of their own. Here threads are refused too: `settle_wave` then computes the piece itself, `work` gives its
//! pass back with `NoThread`, and a session can't start, or goes on without the worker.
use crate::again::again;
use crate::benches::{fresh, is_simulated, served as served_query};
use bench_core::{Asked, Bench};
use cell_table::{SettleFault, Settled};
use run_queries::Body;
use shared_bench::{Pass, open};
use std::alloc::Global;
use std::thread::Threads;
use wave_workers::{Ungated, WorkFault, Worked, settle_wave, work};
use worker_sessions::Hall;

/// Waves of three gates: a growth that is refused in one of their threads is refused to the call, and what was stored stays;
/// a piece whose thread isn't started is computed all the same.
pub(crate) fn waved<R: Threads + Sync>(rt: &R, alloc: Global) -> bool {
    match fresh(alloc) {
        Some(mut bench) => {
            waves(rt, alloc, &mut bench) == Some(42) && is_simulated(rt, alloc, &mut bench)
        }
        None => false,
    }
}

/// How many cells are computed, in two calls where memory is wanting.
fn waves<R: Threads + Sync>(rt: &R, alloc: Global, bench: &mut Bench) -> Option<u64> {
    match wave(rt, alloc, bench) {
        Some(Ok(settled)) => Some(settled.computed),
        Some(Err(SettleFault::Memory { computed })) => match wave(rt, alloc, bench) {
            Some(Ok(settled)) => Some(computed.saturating_add(settled.computed)),
            _ => None,
        },
        _ => None,
    }
}

fn wave<R: Threads + Sync>(
    rt: &R,
    alloc: Global,
    bench: &mut Bench,
) -> Option<Result<Settled, SettleFault>> {
    match again!(vec![in alloc; Ungated, Ungated, Ungated]) {
        Some(gates) => Some(settle_wave(rt, bench, gates)),
        None => None,
    }
}

/// A pass to a fresh bench, with seats for two workers more than are needed.
fn opened(alloc: Global) -> Option<Pass> {
    let bench = fresh(alloc)?;
    open(alloc, Box::into_inner(bench), 4)
        .or_else(|bench| open(alloc, bench, 4))
        .ok()
}

/// What comes of one worker.
fn with_worker<H: Hall>(rt: &H, alloc: Global, pass: Pass) -> Option<Worked> {
    match again!(vec![in alloc; Ungated]) {
        Some(gates) => Some(work(rt, pass, gates, 100)),
        None => None,
    }
}

/// One worker computes all cells: a growth that is refused in a turn ends the turn alone. Where it can't be started, the pass
/// comes back, nothing was given, and the next one does the work.
pub(crate) fn works<H: Hall>(rt: &H, alloc: Global) -> bool {
    let Some(pass) = opened(alloc) else {
        return false;
    };
    let Some(worked) = with_worker(rt, alloc, pass) else {
        return false;
    };
    match worked.fault {
        None => is_done(rt, worked),
        Some(WorkFault::Memory | WorkFault::NoThread) if worked.given == 0 => {
            match with_worker(rt, alloc, worked.pass) {
                Some(worked) => worked.fault.is_none() && is_done(rt, worked),
                None => false,
            }
        }
        Some(_) => false,
    }
}

/// Whether all cells were stored, and the counter of served requests is that of the run.
fn is_done<H: Hall>(rt: &H, worked: Worked) -> bool {
    let mut pass = worked.pass;
    let asked = match pass.look(rt, served_query(6)) {
        Asked::Memory => pass.look(rt, served_query(6)),
        asked => asked,
    };
    worked.stored == 42
        && matches!(
            asked,
            Asked::Answer {
                version: 0,
                body: Body::Count(1)
            }
        )
}
