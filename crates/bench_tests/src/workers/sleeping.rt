//! Workers that sleep: an edit wakes them, and so does the end.
use super::SERVED;
use super::benches::opened;
use crate::base::word;
use bench_core::Asked;
use cell_table::Cell;
use expect::equal;
use shared_bench::Pass;
use std::alloc::Global;
use std::sync::atomic::{AtomicU64, Ordering};
use std::sync::{Arc, Wait};
use std::test::Fail;
use std::thread;
use std::thread::Threads;
use std::time::{Clock, Duration};
use wave_workers::{Gate, attend};

/// How many milliseconds something is waited for at most.
const LONGEST: u32 = 15_000;

/// How often two workers that sleep between their slices and those of an edit ask their gates at most, woken for no reason now
/// and then; two that don't sleep ask as often within a pause, on a slow machine too.
const MOST_TURNS: u64 = 1_000;

/// For how many milliseconds they are let be once all is computed.
const PAUSE: u64 = 100;

/// What the workers are told, and tell.
#[derive(Drop)]
struct Board {
    ended: AtomicU64,
    left: AtomicU64,
    asked: AtomicU64,
}

fn is_told(word: &AtomicU64) -> bool {
    word.load(Ordering::SeqCst) != 0
}

/// Goes on until the end is told.
#[derive(Drop)]
struct Until {
    board: Arc<Board, Global>,
}

impl Until {
    /// Two of them.
    fn both(alloc: Global, board: &Arc<Board, Global>) -> Result<Vec<Until>, Fail> {
        let mut gates = Vec::new(alloc);
        for _ in 0..2 {
            let board = Arc::try_clone(board)?;
            gates.push(Until { board })?;
        }
        Ok(gates)
    }
}

impl Gate for Until {
    fn go_on(&mut self, _turn: u64) -> bool {
        self.board.asked.fetch_add(1, Ordering::SeqCst);
        !is_told(&self.board.ended)
    }

    fn claimed(&mut self, _cell: Cell) {}

    fn computed(&mut self, _cell: Cell) {}
}

fn pause<R: Clock>(rt: &R, milliseconds: u64) {
    thread::sleep(rt, Duration::from_millis(milliseconds));
}

/// Whether no cell is due any more at this version, before long.
fn settles<R: Threads + Wait + Sync + Clock>(rt: &R, pass: &mut Pass, version: u32) -> bool {
    for _ in 0..LONGEST {
        if matches!(pass.look(rt, SERVED), Asked::Answer { version: at, .. } if at == version) {
            return true;
        }
        pause(rt, 1);
    }
    false
}

/// Tells the workers to end, and wakes them: whether they have ended before long.
fn ends<R: Clock>(rt: &R, pass: &Pass, board: &Board) -> bool {
    board.ended.store(1, Ordering::SeqCst);
    for _ in 0..LONGEST {
        if is_told(&board.left) {
            return true;
        }
        pass.wake_all();
        pause(rt, 1);
    }
    false
}

/// Two workers settle all cells and sleep, settle those of an edit and sleep again, and end, without many turns. The opening has as many seats
/// as there are passes: this one, that of the thread, and one for each worker.
#[test]
fn sleeping_workers_wake(rt: HostRuntime) -> Result<(), Fail> {
    let alloc = rt.alloc();
    let board = Arc::new(
        alloc,
        Board {
            ended: AtomicU64::new(0),
            left: AtomicU64::new(0),
            asked: AtomicU64::new(0),
        },
    )?;
    let gates = Until::both(alloc, &board)?;
    let mut pass = opened(alloc, 4)?;
    let own = pass.split().ok().ok_or("no seat")?;
    let theirs = Arc::try_clone(&board)?;
    let thread = thread::spawn(&rt, move || {
        let worked = attend(&rt, own, gates);
        theirs.left.store(1, Ordering::SeqCst);
        (worked.started, worked.fault)
    })
    .ok()
    .ok_or("no thread")?;
    assert!(rt; settles(&rt, &mut pass, 0));
    pause(&rt, PAUSE);
    assert!(rt; equal(&rt, pass.edit(&rt, word(300, 5)), Ok(1)));
    assert!(rt; settles(&rt, &mut pass, 1));
    pause(&rt, PAUSE);
    assert!(rt; ends(&rt, &pass, &board));
    assert!(rt; equal(&rt, thread.join(&rt), (2, None)));
    assert!(rt; board.asked.load(Ordering::SeqCst) < MOST_TURNS);
    Ok(())
}
