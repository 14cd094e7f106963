//! Workers whose gates hold them.

mod answers;
mod benches;
mod gates;
mod sleeping;
mod waves;

use crate::base::bench_back;
use bench_core::Asked;
use benches::opened;
use expect::equal;
use gates::{Board, Meeting, Stopping};
use monitor_sums::Counter;
use run_queries::{Body, Query};
use shared_bench::Pass;
use std::alloc::Global;
use std::process::Abort;
use std::sync::{Arc, Wait};
use std::test::*;
use std::thread::Threads;
use std::time::Clock;
use wave_workers::{Gate, Ungated, WorkFault, work};

/// How many references all modules have served.
const SERVED: Query = Query::Counter {
    counter: Counter::Served,
    who: None,
    from: 0,
    to: 10,
};

/// What comes of workers with these gates: how many results were given, how many stored, and why they ended before their
/// turns were over. The pass is closed.
fn worked<R, G>(
    rt: &R,
    alloc: Global,
    pass: Pass,
    gates: Vec<G>,
    turns: u64,
) -> (u64, u64, Option<WorkFault>)
where
    R: Threads + Wait + Clock + Abort + Sync + Send + Copy + 'static,
    G: Gate + Send + Drop + 'static,
{
    let worked = work(rt, pass, gates, turns);
    bench_back(rt, alloc, worked.pass);
    (worked.given, worked.stored, worked.fault)
}

/// 27: the opening has one seat, which the pass has. With another seat the first of two workers is started, and ends.
#[test]
fn example_27_no_seat(rt: HostRuntime) -> Result<(), Fail> {
    for (seats, stored) in [(1, 0), (2, 1)] {
        let gates = vec![in rt.alloc(); Ungated, Ungated]?;
        let came = worked(&rt, rt.alloc(), opened(rt.alloc(), seats)?, gates, 1);
        assert!(rt; equal(&rt, came, (stored, stored, Some(WorkFault::NoSeat))));
    }
    Ok(())
}

/// 27: the first worker ends its computation only once the second has ended one, so both are at work.
#[test]
fn example_27_at_once(rt: HostRuntime) -> Result<(), Fail> {
    let board = Arc::new(rt.alloc(), Board::new())?;
    let gates = Meeting::both(rt.alloc(), &board)?;
    let came = worked(&rt, rt.alloc(), opened(rt.alloc(), 3)?, gates, 1);
    assert!(rt; equal(&rt, came, (2, 2, None)));
    assert!(rt; equal(&rt, (board.both_met(), board.first_cells()), (true, (0, 1))));
    Ok(())
}

/// 27: two workers compute all cells, each of which is stored once.
#[test]
fn example_27_all_cells(rt: HostRuntime) -> Result<(), Fail> {
    let alloc = rt.alloc();
    let mut pass = opened(alloc, 3)?;
    assert!(rt; matches!(pass.look(&rt, SERVED), Asked::Pending(66)));
    let worked = work(&rt, pass, vec![in alloc; Ungated, Ungated]?, 66);
    assert!(rt; equal(&rt, (worked.stored, worked.fault), (66, None)));
    let mut pass = worked.pass;
    let asked = pass.look(&rt, SERVED);
    assert!(rt;
        matches!(
            asked,
            Asked::Answer {
                version: 0,
                body: Body::Count(0)
            }
        )
    );
    Ok(())
}

/// Each cell of a lot is a turn for which the gate is asked. One of two workers is stopped at once. The other one, which is
/// stopped within its lot of 3 cells, gives back what it has computed; where it has fewer turns it claims no more; and in 66 turns
/// it computes all.
#[test]
fn a_worker_stops_within_a_lot(rt: HostRuntime) -> Result<(), Fail> {
    let cases = [
        (0, 66, 0),
        (2, 66, 2),
        (3, 66, 3),
        (4, 66, 4),
        (66, 2, 2),
        (66, 66, 66),
        (80, 70, 66),
    ];
    for (stop, turns, given) in cases {
        let gates = vec![in rt.alloc(); Stopping::at(0), Stopping::at(stop)]?;
        let came = worked(&rt, rt.alloc(), opened(rt.alloc(), 3)?, gates, turns);
        assert!(rt; equal(&rt, came, (given, given, None)));
    }
    Ok(())
}
