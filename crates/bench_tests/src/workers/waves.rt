//! Waves: benches that are settled by several threads.
use super::answers::answer_the_same;
use super::benches::contended;
use super::gates::{Board, Counting, Meeting};
use crate::base::{base, bench_of, entry, fresh, word};
use bench_core::Bench;
use cell_table::{SettleFault, Settled};
use expect::equal;
use omega_net::ScriptEntry;
use project_book::{Depths, Edit};
use std::sync::Arc;
use std::test::*;
use std::thread::Threads;
use wave_workers::{Ungated, settle_wave};

/// 11.2: the thread of the first piece ends its first computation only once that of the second has ended one, so both are
/// at work. The pieces of cycle 0 are the components 0 to 2 and 3 to 5.
#[test]
fn example_11_2(rt: HostRuntime) -> Result<(), Fail> {
    let alloc = rt.alloc();
    let board = Arc::new(alloc, Board::new())?;
    let gates = Meeting::both(alloc, &board)?;
    if gates.len() != 2 {
        return Err(Fail::from("another number of gates"));
    }
    let settled = settle_wave(&rt, &mut *fresh(alloc)?, gates);
    assert!(rt; equal(&rt, settled, Ok(Settled { computed: 66 })));
    assert!(rt; equal(&rt, (board.both_met(), board.first_cells()), (true, (0, 3))));
    Ok(())
}

/// Settles a bench by waves of three pieces: how many cells were computed.
fn waved<R: AllocGlobal + Threads + Sync>(rt: &R, bench: &mut Bench) -> Result<u64, Fail> {
    let gates = vec![in rt.alloc(); Ungated, Ungated, Ungated]?;
    match settle_wave(rt, bench, gates) {
        Ok(settled) => Ok(settled.computed),
        Err(_) => Err(Fail::from("not settled")),
    }
}

/// 9: 32 cells after an edit of word 300, 28 after an entry of processor 0, 12 at a greater horizon, none at a smaller one.
#[test]
fn example_9_by_waves(rt: HostRuntime) -> Result<(), Fail> {
    let alloc = rt.alloc();
    let word = word(300, 5);
    let fence = entry(0, 0, ScriptEntry::Fence);
    for (edit, then, cells) in [
        (word, word, (32, 0)),
        (fence, fence, (28, 0)),
        (Edit::Horizon(12), Edit::Horizon(5), (12, 0)),
    ] {
        let mut bench = fresh(alloc)?;
        assert!(rt; equal(&rt, waved(&rt, &mut bench)?, 66));
        bench.edit(0, edit)?;
        let first = waved(&rt, &mut bench)?;
        bench.edit(0, then)?;
        assert!(rt; equal(&rt, (first, waved(&rt, &mut bench)?), cells));
    }
    Ok(())
}

/// At the clock's last value no state is stored: the first cell's would be a new one.
#[test]
fn waves_tell_a_spent_clock(rt: HostRuntime) -> Result<(), Fail> {
    let alloc = rt.alloc();
    let mut bench = bench_of(alloc, base(alloc)?, u64::MAX)?;
    let gates = vec![in alloc; Ungated, Ungated]?;
    let settled = settle_wave(&rt, &mut bench, gates);
    assert!(rt; equal(&rt, settled, Err(SettleFault::ClockSpent { computed: 0 })));
    Ok(())
}

/// Settles a bench by waves of three pieces, and another one by itself: how many cells were computed, the same number, and
/// how many by each piece so far.
fn settled_beside<R: AllocGlobal + Threads + Sync>(
    rt: &R,
    bench: &mut Bench,
    alone: &mut Bench,
    counts: &[Counting; 3],
) -> Result<(u64, [u64; 3]), Fail> {
    let [first, second, third] = counts;
    let gates = vec![in rt.alloc(); first.again()?, second.again()?, third.again()?]?;
    let waved = settle_wave(rt, bench, gates);
    if waved != alone.settle() {
        return Err(Fail::from("not settled the same"));
    }
    match waved {
        Ok(settled) => Ok((
            settled.computed,
            [first.turns(), second.turns(), third.turns()],
        )),
        Err(_) => Err(Fail::from("not settled")),
    }
}

/// What example 15's bench answers first.
const SATURATED: &str = "\
0 first 4 6
0 24 0 1 3 0 0 0 0 0 0 0 0 0 0 0 0 0
0 18 7 1 2 0 0 0 0 0 0 0 0 0 0 0 0 0
0 6
0 2
";

/// 15: a bench that is settled by waves of three pieces, fresh and again after an edit, answers what one does that settles
/// by itself: the trees, profiles, counters, replies and states. Each of the 7 cycles has 16 new cells, in pieces of 6, 5
/// and 5.
#[test]
fn example_15_by_waves(rt: HostRuntime) -> Result<(), Fail> {
    let alloc = rt.alloc();
    let counts = [
        Counting::new(alloc)?,
        Counting::new(alloc)?,
        Counting::new(alloc)?,
    ];
    let mut bench = contended(alloc)?;
    let mut alone = contended(alloc)?;
    let fresh = settled_beside(&rt, &mut bench, &mut alone, &counts)?;
    assert!(rt; equal(&rt, fresh, (112, [42, 35, 35])));
    assert!(rt; answer_the_same(&rt, &mut bench, &mut alone, SATURATED)?);
    let narrow = Edit::Depth {
        queue: Depths::LowForward,
        depth: 2,
    };
    bench.edit(0, narrow)?;
    alone.edit(0, narrow)?;
    let (cells, [first, second, third]) = settled_beside(&rt, &mut bench, &mut alone, &counts)?;
    let turns = first.saturating_add(second).saturating_add(third);
    assert!(rt; equal(&rt, turns, cells.saturating_add(112)));
    assert!(rt; answer_the_same(&rt, &mut bench, &mut alone, "1 first 3 4\n")?);
    Ok(())
}
