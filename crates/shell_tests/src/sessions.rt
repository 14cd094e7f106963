//! Sessions at the built-in project: in one piece, byte by byte, and with faults.
mod ends;
mod workers;

use bench_core::Bench;
use bench_shell::{RunFault, run, run_within};
use expect::equal;
use project_book::Project;
use std::alloc::Global;
use std::cell::Cell;
use std::io::{Error, ErrorKind, Read, Result, Write};
use std::test::Fail;

/// Gives at most so many bytes a call.
#[derive(Drop)]
struct Slow<'a> {
    bytes: &'a [u8],
    most: usize,
}

impl Read for Slow<'_> {
    fn read(&mut self, buf: &mut [u8]) -> Result<usize> {
        let most = self.most.min(buf.len()).min(self.bytes.len());
        let (front, rest) = self.bytes.split_at(most);
        buf[..most].copy_from_slice(front);
        self.bytes = rest;
        Ok(most)
    }
}

/// Takes one byte a call, and fails at a call.
#[derive(Drop)]
struct Failing {
    bytes: Vec<u8>,
    calls: u32,
}

impl Write for Failing {
    fn write(&mut self, buf: &[u8]) -> Result<usize> {
        if self.calls == 0 {
            return Err(Error::from(ErrorKind::Other));
        }
        self.calls -= 1;
        match buf.first() {
            None => Ok(0),
            Some(byte) => {
                self.bytes.push(*byte)?;
                Ok(1)
            }
        }
    }

    fn flush(&mut self) -> Result<()> {
        Ok(())
    }
}

/// A bench of the built-in project, in a box, which is handed over as one word.
fn bench(alloc: Global, clock: u64) -> std::result::Result<Box<Bench>, Fail> {
    let project = Project::built_in(alloc)?;
    let bench = Bench::new(alloc, project, clock).ok().ok_or("no memory")?;
    Ok(Box::new(alloc, bench)?)
}

// The built-in machine's first reference is answered at cycle 4; the edited word is answered at once.
const SESSION: &[u8] =
    b"word 0 10\nentry 0 0 sync add 0 1\nreply 0 0\nword 0 20\nreply 0 0\n\nword 16384 0\nreply 0 1\nplace 300\nmemory 0 8\nstate p0 9\nwor";

const ANSWERS: &[u8] =
    b"ok 1\nok 2\nok 2 at 4 word 10\nok 3\nok 3 at 4 word 20\nbad command\nrefused 5\nbad 4\nok 3 0:300\nok 3 21\nbad 2\nbad cut\n";

#[test]
fn sessions_in_any_pieces(rt: HostRuntime) -> std::result::Result<(), Fail> {
    for most in [1, 7, 5000] {
        let mut desk = bench(rt.alloc(), 0)?;
        let mut reader = Slow {
            bytes: SESSION,
            most,
        };
        let mut writer = Vec::new(rt.alloc());
        assert!(rt; run(&rt, rt.alloc(), &mut reader, &mut writer, &mut *desk).is_ok());
        assert!(rt; equal(&rt, writer.as_slice(), ANSWERS));
    }
    Ok(())
}

// Two components: the cells of cycle 0 are computed, and those of the eight later cycles stay due.
#[test]
fn what_is_behind_a_question_stays_due(rt: HostRuntime) -> std::result::Result<(), Fail> {
    let mut desk = bench(rt.alloc(), 0)?;
    let mut reader = b"memory 0 0\n".as_slice();
    let mut writer = Vec::new(rt.alloc());
    assert!(rt; run(&rt, rt.alloc(), &mut reader, &mut writer, &mut *desk).is_ok());
    assert!(rt; equal(&rt, writer.as_slice(), b"ok 0 0\n".as_slice()));
    assert!(rt; equal(&rt, desk.cells().due_to(8), 16));
    Ok(())
}

// Ten bytes and the end of the input are eleven reads of one byte.
#[test]
fn reads_are_counted(rt: HostRuntime) -> std::result::Result<(), Fail> {
    for (reads, want) in [(11, Ok(())), (10, Err(RunFault::Read))] {
        let mut desk = bench(rt.alloc(), 0)?;
        let mut reader = Slow {
            bytes: b"word 0 10\n",
            most: 1,
        };
        let mut writer = Vec::new(rt.alloc());
        assert!(rt;
            equal(
                &rt,
                run_within(&rt, rt.alloc(), &mut reader, &mut writer, &mut *desk, reads),
                want
            )
        );
        assert!(rt; equal(&rt, writer.as_slice(), b"ok 1\n".as_slice()));
    }
    Ok(())
}

// 4,096 bytes are a line, and no command; one more is too long, also where the end cuts it.
#[test]
fn long_lines_are_skipped(rt: HostRuntime) -> std::result::Result<(), Fail> {
    let mut input = vec![in rt.alloc(); b'x'; 4096]?;
    input.extend_from_slice(b"\nx")?;
    input.extend_from_slice(vec![in rt.alloc(); b'x'; 4096]?.as_slice())?;
    input.extend_from_slice(b"\nplace 5\nx")?;
    input.extend_from_slice(vec![in rt.alloc(); b'x'; 9000]?.as_slice())?;
    let mut desk = bench(rt.alloc(), 0)?;
    let mut reader = input.as_slice();
    let mut writer = Vec::new(rt.alloc());
    assert!(rt; run(&rt, rt.alloc(), &mut reader, &mut writer, &mut *desk).is_ok());
    assert!(rt;
        equal(
            &rt,
            writer.as_slice(),
            b"bad command\nbad line\nok 0 0:5\nbad line\n".as_slice()
        )
    );
    Ok(())
}

#[test]
fn a_writer_fails_at_each_call(rt: HostRuntime) -> std::result::Result<(), Fail> {
    let output = b"ok 1\nok 1 0:0\n".as_slice();
    for calls in 0..15 {
        let mut desk = bench(rt.alloc(), 0)?;
        let mut reader = b"word 0 10\nplace 0\n".as_slice();
        let mut writer = Failing {
            bytes: Vec::new(rt.alloc()),
            calls,
        };
        let ended = run(&rt, rt.alloc(), &mut reader, &mut writer, &mut *desk);
        let written = writer.bytes;
        let want = if calls >= 14 {
            Ok(())
        } else {
            Err(RunFault::Write)
        };
        assert!(rt; equal(&rt, ended, want));
        assert!(rt; output.starts_with(written.as_slice()));
        assert!(rt; equal(&rt, written.len(), (calls as usize).min(14)));
    }
    Ok(())
}

// At the clock's last value an edit or a query that isn't refused for another reason ends the run, and no other line does.
#[test]
fn a_spent_clock_ends_the_run(rt: HostRuntime) -> std::result::Result<(), Fail> {
    let runs: [(&[u8], &[u8]); 2] = [
        (
            b"word 16384 0\nstate p1 0\nmemory 16384 0\nword 0 10\nplace 0\n",
            b"refused 5\nbad 1\nbad 3\n",
        ),
        (b"memory 0 9\nmemory 0 8\nplace 0\n", b"bad 2\n"),
    ];
    for (input, output) in runs {
        let mut desk = bench(rt.alloc(), u64::MAX)?;
        let mut reader = input;
        let mut writer = Vec::new(rt.alloc());
        let ended = run(&rt, rt.alloc(), &mut reader, &mut writer, &mut *desk);
        assert!(rt; equal(&rt, ended, Err(RunFault::Clock)));
        assert!(rt; equal(&rt, writer.as_slice(), output));
    }
    Ok(())
}

/// Both ends of a run, of which one shows the other that nothing waits to be flushed.
#[derive(Drop)]
struct Waiting<'a> {
    bytes: Vec<u8>,
    waits: &'a Cell<bool>,
    flushes: u32,
}

impl Write for Waiting<'_> {
    fn write(&mut self, buf: &[u8]) -> Result<usize> {
        self.waits.set(true);
        self.bytes.extend_from_slice(buf)?;
        Ok(buf.len())
    }

    fn flush(&mut self) -> Result<()> {
        if self.flushes == 0 {
            return Err(Error::from(ErrorKind::Other));
        }
        self.flushes -= 1;
        self.waits.set(false);
        Ok(())
    }
}

/// A reader that fails where an answer still waits.
#[derive(Drop)]
struct Impatient<'a> {
    slow: Slow<'a>,
    waits: &'a Cell<bool>,
}

impl Read for Impatient<'_> {
    fn read(&mut self, buf: &mut [u8]) -> Result<usize> {
        if self.waits.get() {
            return Err(Error::from(ErrorKind::Other));
        }
        self.slow.read(buf)
    }
}

// The flush of each answer reaches the writer before the next read, and an error of a flush ends the run as `Write`: of
// two answers both are flushed, or the second isn't.
#[test]
fn answers_are_flushed_before_the_next_read(rt: HostRuntime) -> std::result::Result<(), Fail> {
    for (flushes, want) in [
        (2, Ok(())),
        (1, Err(RunFault::Write)),
        (0, Err(RunFault::Write)),
    ] {
        let mut desk = bench(rt.alloc(), 0)?;
        let waits = Cell::new(false);
        let mut reader = Impatient {
            slow: Slow {
                bytes: b"word 0 10\nplace 0\n",
                most: 10,
            },
            waits: &waits,
        };
        let mut writer = Waiting {
            bytes: Vec::new(rt.alloc()),
            waits: &waits,
            flushes,
        };
        let ended = run(&rt, rt.alloc(), &mut reader, &mut writer, &mut *desk);
        assert!(rt; equal(&rt, ended, want));
    }
    Ok(())
}
