//! Passes that sleep until their turn comes, and threads that are parked until an edit is made. Where one of them sleeps
//! on, a watcher gives up.
use super::doing::Host;
use super::{opened, split};
use crate::base::{base, bench_of, fresh, word};
use bench_core::{Bench, Told};
use expect::equal;
use project_book::Edit;
use run_queries::Query;
use shared_bench::{Pass, SplitFault};
use std::alloc::Global;
use std::process::Abort;
use std::sync::Wait;
use std::sync::atomic::{AtomicU64, Ordering};
use std::test::*;
use std::thread;
use std::time::{Clock, Duration};

/// How often a watcher looks before it gives up, a millisecond apart.
const MOST_LOOKS: u32 = 30_000;

/// How many threads have come so far.
#[derive(Drop)]
pub(super) struct Board {
    come: AtomicU64,
}

impl Board {
    pub(super) fn new() -> Board {
        Board {
            come: AtomicU64::new(0),
        }
    }

    pub(super) fn comes(&self) {
        self.come.fetch_add(1, Ordering::SeqCst);
    }

    fn count(&self) -> u64 {
        self.come.load(Ordering::SeqCst)
    }

    /// Waits until so many have come: whether they do in time.
    pub(super) fn sees<R: Clock>(&self, rt: &R, all: u64) -> bool {
        for _ in 0..MOST_LOOKS {
            if self.count() >= all {
                return true;
            }
            pause(rt);
        }
        false
    }
}

fn pause<R: Clock>(rt: &R) {
    thread::sleep(rt, Duration::from_millis(1));
}

/// A bench with one edit, so that it has as many edits as turns when it is first asked, and with so many due cells that who
/// waits for the first answer falls asleep.
fn long(alloc: Global) -> Result<Box<Bench>, Fail> {
    let mut bench = bench_of(alloc, base(alloc)?, 0)?;
    match bench.edit(0, Edit::Horizon(1_000)) {
        Ok(_) => Ok(bench),
        Err(_) => Err(Fail::from("refused")),
    }
}

/// The state of processor 0 at the last cycle of that bench.
const LAST_STATE: Query = Query::State {
    component: 0,
    cycle: 1_000,
};

/// Asks once, and comes where it is answered.
fn asks<R: Host>(rt: &R, mut pass: Pass, board: &Board) {
    if let Told::Answer { version: 1, .. } = pass.ask(rt, LAST_STATE) {
        board.comes();
    }
}

/// Two passes ask at once.
fn both_ask<R: Host>(rt: &R, one: Pass, other: Pass, board: &Board) {
    thread::join(
        rt,
        move || asks(rt, one, board),
        move || asks(rt, other, board),
    );
}

/// While one pass settles the bench, another waits.
#[test]
fn a_turn_that_ends_wakes_who_waits(rt: HostRuntime) -> Result<(), Fail> {
    let mut one = opened(rt.alloc(), long(rt.alloc())?, 2)?;
    let other = split(&mut one)?;
    let board = Board::new();
    thread::join(
        &rt,
        || assert!(rt; board.sees(&rt, 2)),
        || both_ask(&rt, one, other, &board),
    );
    Ok(())
}

/// While one settles it, three wait, and then each has its turn.
#[test]
fn all_who_wait_are_woken(rt: HostRuntime) -> Result<(), Fail> {
    let mut one = opened(rt.alloc(), long(rt.alloc())?, 4)?;
    let (two, three, four) = (split(&mut one)?, split(&mut one)?, split(&mut one)?);
    let board = Board::new();
    thread::join(
        &rt,
        || assert!(rt; board.sees(&rt, 4)),
        || {
            thread::join(
                &rt,
                || both_ask(&rt, one, two, &board),
                || both_ask(&rt, three, four, &board),
            )
        },
    );
    Ok(())
}

/// Sleeps until an edit is made, and comes: how often it woke.
fn sleeps<R: Host>(rt: &R, mut pass: Pass, ready: &Board, board: &Board) -> u32 {
    ready.comes();
    let mut woken = 0u32;
    for _ in 0..u32::MAX {
        if pass.length() != 0 {
            break;
        }
        pass.park(rt, 0);
        woken = woken.saturating_add(1);
    }
    board.comes();
    woken
}

/// Who is parked sleeps until the edit, which wakes it.
#[test]
fn an_edit_wakes_who_is_parked(rt: HostRuntime) -> Result<(), Fail> {
    let mut one = opened(rt.alloc(), fresh(rt.alloc())?, 2)?;
    let other = split(&mut one)?;
    let (ready, board) = (Board::new(), Board::new());
    let (_, woken) = thread::join(
        &rt,
        || {
            assert!(rt; ready.sees(&rt, 1));
            pause(&rt);
            assert!(rt; equal(&rt, one.edit(&rt, word(0, 20)), Ok(1)));
            assert!(rt; board.sees(&rt, 1));
        },
        || sleeps(&rt, other, &ready, &board),
    );
    assert!(rt; woken < 100);
    Ok(())
}

/// Two sleep until the edit.
fn both_sleep<R: Host>(rt: &R, one: Pass, other: Pass, ready: &Board, board: &Board) {
    thread::join(
        rt,
        move || sleeps(rt, one, ready, board),
        move || sleeps(rt, other, ready, board),
    );
}

/// The edit wakes one of them, and that one lets the other go.
#[test]
fn an_edit_wakes_all_who_are_parked(rt: HostRuntime) -> Result<(), Fail> {
    let mut one = opened(rt.alloc(), fresh(rt.alloc())?, 3)?;
    let (two, three) = (split(&mut one)?, split(&mut one)?);
    let (ready, board) = (Board::new(), Board::new());
    thread::join(
        &rt,
        || {
            assert!(rt; ready.sees(&rt, 2));
            pause(&rt);
            assert!(rt; equal(&rt, one.edit(&rt, word(0, 20)), Ok(1)));
            assert!(rt; board.sees(&rt, 2));
        },
        || both_sleep(&rt, two, three, &ready, &board),
    );
    Ok(())
}

/// Wakes until so many have come: whether they do in time.
fn wakes<R: Clock>(rt: &R, pass: Pass, board: &Board, all: u64) -> bool {
    for _ in 0..MOST_LOOKS {
        if board.count() >= all {
            return true;
        }
        pass.wake_all();
        pause(rt);
    }
    false
}

/// Sleeps once.
fn parks<R: Wait>(rt: &R, pass: Pass, board: &Board) {
    pass.park(rt, 0);
    board.comes();
}

/// Two passes are parked at once.
fn both_park<R: Host>(rt: &R, one: Pass, other: Pass, board: &Board) {
    thread::join(
        rt,
        move || parks(rt, one, board),
        move || parks(rt, other, board),
    );
}

/// All who are parked wake, without an edit.
#[test]
fn all_who_are_parked_are_woken(rt: HostRuntime) -> Result<(), Fail> {
    let mut one = opened(rt.alloc(), fresh(rt.alloc())?, 3)?;
    let (two, three) = (split(&mut one)?, split(&mut one)?);
    let board = Board::new();
    thread::join(
        &rt,
        || assert!(rt; wakes(&rt, one, &board, 2)),
        || both_park(&rt, two, three, &board),
    );
    Ok(())
}

/// There are as many passes as seats, and no further one.
#[test]
fn every_seat_is_taken(rt: HostRuntime) -> Result<(), Fail> {
    let mut one = opened(rt.alloc(), fresh(rt.alloc())?, 64)?;
    for _ in 1..64 {
        split(&mut one)?;
    }
    assert!(rt; matches!(one.split(), Err(SplitFault::NoSeat)));
    Ok(())
}
