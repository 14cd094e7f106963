//! Sessions whose workers sleep as they end.
use super::workers::{base, is_told, served};
use cell_table::Cell;
use expect::equal;
use project_book::Project;
use std::alloc::Global;
use std::io::{Read, Result};
use std::sync::Arc;
use std::sync::atomic::{AtomicU64, Ordering};
use std::test::Fail;
use std::thread;
use std::time::{Clock, Duration};
use wave_workers::Gate;
use worker_sessions::{Hall, Left};

/// How many milliseconds the end is waited for at most.
const LONGEST: u32 = 5_000;

/// How often a gate looks for the last read at most, and how often it yields behind that.
const MOST_LOOKS: u32 = 10_000_000;

const MORE_LOOKS: u32 = 20_000;

/// What a reader, the gates and the test tell each other.
#[derive(Drop)]
struct Board {
    last: AtomicU64,
    asked: AtomicU64,
    ended: AtomicU64,
}

/// Gives its line, and says that it has no further one once both gates were asked: a worker that starts only after the end
/// asks no gate.
#[derive(Drop)]
struct Ending {
    line: &'static [u8],
    board: Arc<Board, Global>,
}

impl Read for Ending {
    fn read(&mut self, buf: &mut [u8]) -> Result<usize> {
        let count = self.line.read(buf)?;
        if count == 0 {
            for _ in 0..MOST_LOOKS {
                if self.board.asked.load(Ordering::SeqCst) >= 2 {
                    break;
                }
                thread::yield_now();
            }
            self.board.last.store(1, Ordering::SeqCst);
        }
        Ok(count)
    }
}

/// Holds its worker until the reader has said so, and the session has told its end: then it lets it go on, to a turn in which
/// nothing is due.
#[derive(Drop)]
struct Late {
    board: Arc<Board, Global>,
}

impl Gate for Late {
    fn go_on(&mut self, turn: u64) -> bool {
        self.board.asked.fetch_add(1, Ordering::SeqCst);
        if turn == 0 {
            for _ in 0..MOST_LOOKS {
                if is_told(&self.board.last) {
                    break;
                }
                thread::yield_now();
            }
            for _ in 0..MORE_LOOKS {
                thread::yield_now();
            }
        }
        true
    }

    fn claimed(&mut self, _cell: Cell) {}

    fn computed(&mut self, _cell: Cell) {}
}

/// Whether the session has ended before long.
fn has_ended<R: Clock>(rt: &R, board: &Board) -> bool {
    for _ in 0..LONGEST {
        if is_told(&board.ended) {
            return true;
        }
        thread::sleep(rt, Duration::from_millis(1));
    }
    false
}

/// A session of a line with two such workers: what it writes, and how many were started.
fn serves<H: Hall>(
    rt: &H,
    alloc: Global,
    project: Project,
    board: &Arc<Board, Global>,
) -> Option<(Vec<u8>, usize)> {
    let mut gates = Vec::new(alloc);
    let one = Arc::try_clone(board).ok()?;
    gates.push(Late { board: one }).ok()?;
    let other = Arc::try_clone(board).ok()?;
    gates.push(Late { board: other }).ok()?;
    let mut reader = Ending {
        line: b"memory 0 0\n",
        board: Arc::try_clone(board).ok()?,
    };
    let mut writer = Vec::new(alloc);
    let left = served(rt, alloc, &mut reader, &mut writer, project, gates)?;
    Some((writer, started(left)))
}

/// Both workers go to sleep only after the session has told its end, which wakes them nevertheless. All were started, and
/// each was asked whether it goes on.
#[test]
fn late_sleepers_are_woken(rt: HostRuntime) -> std::result::Result<(), Fail> {
    let alloc = rt.alloc();
    let board = Arc::new(
        alloc,
        Board {
            last: AtomicU64::new(0),
            asked: AtomicU64::new(0),
            ended: AtomicU64::new(0),
        },
    )?;
    let project = base(alloc, 10)?;
    let theirs = Arc::try_clone(&board)?;
    let thread = thread::spawn(&rt, move || {
        let left = serves(&rt, alloc, project, &theirs);
        theirs.ended.store(1, Ordering::SeqCst);
        left
    })
    .ok()
    .ok_or("no thread")?;
    assert!(rt; has_ended(&rt, &board));
    let (written, started) = thread.join(&rt).ok_or("no session")?;
    assert!(rt;
        equal(
            &rt,
            (written.as_slice(), started),
            (b"ok 0 10\n".as_slice(), 2)
        )
    );
    assert!(rt; board.asked.load(Ordering::SeqCst) >= 2);
    Ok(())
}

/// How many workers were started.
fn started(left: Left) -> usize {
    match left {
        Left::Bench(_) => 0,
        Left::Passes(_, worked) => worked.started,
    }
}
