//! Sessions with workers, and beside another editor.
ghost use Rattle.std.specs.Prelude.{◌≡◌, ◌≤◌, [], vec_len, IfOk};
ghost use Rattle.shared_bench.specs.Legal.{StartsWith};

use super::bench;
use bench_shell::{Reading, RunFault, Writing, run};
use cell_table::Cell;
use expect::equal;
use project_book::{Edit, Project};
use shared_bench::{Pass, open};
use std::alloc::Global;
use std::io::{Read, Result, Write};
use std::sync::Arc;
use std::sync::atomic::{AtomicU64, Ordering};
use std::test::Fail;
use std::thread;
use wave_workers::{Gate, Ungated};
use worker_sessions::{Hall, Left, Seated, serve};

/// Two processors and this horizon; page 0 on module 0, page 1 on module 1; word 0 is 10.
pub(super) fn base(alloc: Global, horizon: u32) -> std::result::Result<Project, Fail> {
    let mut project = Project::new(alloc, 1, horizon)?.ok_or("within the limits")?;
    for (page, module) in [(0, 0), (1, 1)] {
        let edit = Edit::Page {
            page,
            amount: 0,
            base: module,
        };
        project = project.apply(edit)?.0;
    }
    let word = Edit::Word {
        address: 0,
        word: 10,
    };
    Ok(project.apply(word)?.0)
}

const LINES: &[u8] =
    b"entry 0 0 sync add 0 1\nentry 1 0 sync add 0 2\nreply 1 0\ncombine 0 on\nreply 1 0\nmemory 0 8\ncounter served all 0 8\nplace 300\norder 0\norder 300\norder 16384\n";

const ANSWERS: &[u8] =
    b"ok 1\nok 2\nok 2 at 7 word 11\nok 3\nok 3 at 6 word 11\nok 3 13\nok 3 1\nok 3 1:300\nok 3 order 0.0 1.0\nok 3 order\nbad 3\n";

/// What a session leaves that ends well, over a reader and a writer.
pub(super) fn served<H: Hall, R: Read, W: Write, G: Gate + Send + Drop + 'static>(
    rt: &H,
    alloc: Global,
    reader: &mut R,
    writer: &mut W,
    project: Project,
    gates: Vec<G>,
) -> Option<Left>
    requires { vec_len gates ≤ 16 }
{
    let mut source = Reading::within(reader, u32::MAX);
    let mut sink = Writing::new(writer);
    let served = serve(rt, alloc, &mut source, &mut sink, project, gates).ok()?;
    match served.ended {
        Ok(()) => Some(served.left),
        Err(_) => None,
    }
}

/// What is written for the lines with so many workers.
fn answers<H: AllocGlobal + Hall>(rt: &H, workers: usize) -> std::result::Result<Vec<u8>, Fail>
    requires { workers ≤ 16 }
{
    let alloc = rt.alloc();
    let gates = vec![in alloc; Ungated; workers]?;
    let mut reader = LINES;
    let mut writer = Vec::new(alloc);
    let project = base(alloc, 8)?;
    match served(rt, alloc, &mut reader, &mut writer, project, gates) {
        Some(_) => Ok(writer),
        None => Err(Fail::from("a fault")),
    }
}

/// 18, and 16.3: the same bytes with 0, 1 and 4 workers.
#[test]
fn examples_18_and_16_3(rt: HostRuntime) -> std::result::Result<(), Fail> {
    assert!(rt; equal(&rt, answers(&rt, 0)?.as_slice(), ANSWERS));
    assert!(rt; equal(&rt, answers(&rt, 1)?.as_slice(), ANSWERS));
    assert!(rt; equal(&rt, answers(&rt, 4)?.as_slice(), ANSWERS));
    Ok(())
}

/// How often a reader or a gate looks for the other at most.
const MOST_LOOKS: u64 = 10_000_000;

/// What a reader and a gate tell each other.
#[derive(Drop)]
struct Meeting {
    asked: AtomicU64,
    computed: AtomicU64,
}

pub(super) fn is_told(word: &AtomicU64) -> bool {
    word.load(Ordering::SeqCst) != 0
}

/// Whether it was told, looked for often.
fn comes(word: &AtomicU64) -> bool {
    for _ in 0..MOST_LOOKS {
        if is_told(word) {
            return true;
        }
        thread::yield_now();
    }
    false
}

/// Gives its line once the worker has settled a slice.
#[derive(Drop)]
struct Waiting<'a> {
    line: &'a [u8],
    meeting: Arc<Meeting, Global>,
}

impl Read for Waiting<'_> {
    fn read(&mut self, buf: &mut [u8]) -> Result<usize> {
        self.meeting.asked.store(1, Ordering::SeqCst);
        if !comes(&self.meeting.computed) {
            return Ok(0);
        }
        self.line.read(buf)
    }
}

/// Behind its first slice it says that it has computed, once the reader was asked.
#[derive(Drop)]
struct Holding {
    meeting: Arc<Meeting, Global>,
}

impl Gate for Holding {
    fn go_on(&mut self, turn: u64) -> bool {
        if turn == 1 && comes(&self.meeting.asked) {
            self.meeting.computed.store(1, Ordering::SeqCst);
        }
        true
    }

    fn claimed(&mut self, _cell: Cell) {}

    fn computed(&mut self, _cell: Cell) {}
}

/// A worker that waits for the reader.
fn gates_of(
    alloc: Global,
    meeting: &Arc<Meeting, Global>,
) -> std::result::Result<Vec<Holding>, Fail>
    ensures { IfOk result (λ gates. vec_len gates ≤ 16) }
{
    let gate = Holding {
        meeting: Arc::try_clone(meeting)?,
    };
    Ok(vec![in alloc; gate]?)
}

/// A reader that waits for the worker.
fn reader_of(meeting: &Arc<Meeting, Global>) -> std::result::Result<Waiting<'static>, Fail> {
    Ok(Waiting {
        line: b"memory 0 0\n",
        meeting: Arc::try_clone(meeting)?,
    })
}

/// What is written where the two wait for each other.
fn met<H: AllocGlobal + Hall>(
    rt: &H,
    meeting: &Arc<Meeting, Global>,
) -> std::result::Result<Vec<u8>, Fail> {
    let alloc = rt.alloc();
    let gates = gates_of(alloc, meeting)?;
    let mut reader = reader_of(meeting)?;
    let mut writer = Vec::new(alloc);
    let project = base(alloc, 10)?;
    match served(rt, alloc, &mut reader, &mut writer, project, gates) {
        Some(_) => Ok(writer),
        None => Err(Fail::from("a fault")),
    }
}

/// 9.1: the shell waits for its reader while the worker computes, and the worker for the shell.
#[test]
fn example_9_1(rt: HostRuntime) -> std::result::Result<(), Fail> {
    let meeting = Arc::new(
        rt.alloc(),
        Meeting {
            asked: AtomicU64::new(0),
            computed: AtomicU64::new(0),
        },
    )?;
    assert!(rt; equal(&rt, met(&rt, &meeting)?.as_slice(), b"ok 0 10\n".as_slice()));
    assert!(rt; is_told(&meeting.asked) && is_told(&meeting.computed));
    Ok(())
}

/// Two passes to a bench of the built-in machine.
fn two_passes(alloc: Global) -> std::result::Result<(Pass, Pass), Fail>
    ensures edits { IfOk result (λ p. p.0.receipts ≡ []) }
    ensures seen { IfOk result (λ p. StartsWith p.0.seen p.0.opened) }
{
    let bench = bench(alloc, 0)?;
    let Ok(mut pass) = open(alloc, Box::into_inner(bench), 2) else {
        return Err(Fail::from("no memory"));
    };
    match pass.split() {
        Ok(other) => Ok((pass, other)),
        Err(_) => Err(Fail::from("no seat")),
    }
}

/// 9.2: the other pass has set word 0 to 20, so the run is answered at a version that isn't of its own edits.
#[test]
fn example_9_2(rt: HostRuntime) -> std::result::Result<(), Fail> {
    let (pass, mut other) = two_passes(rt.alloc())?;
    let word = Edit::Word {
        address: 0,
        word: 20,
    };
    assert!(rt; equal(&rt, other.edit(&rt, word), Ok(1)));
    let mut desk = Seated::new(&rt, rt.alloc(), pass);
    let mut reader = b"memory 0 0\n".as_slice();
    let mut writer = Vec::new(rt.alloc());
    let ended = run(&rt, rt.alloc(), &mut reader, &mut writer, &mut desk);
    assert!(rt; equal(&rt, ended, Err(RunFault::OtherEditor)));
    assert!(rt; writer.is_empty());
    Ok(())
}
