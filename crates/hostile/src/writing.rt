//! Writers that fail, or take little or nothing.
use crate::reading::answers_rest;
use crate::sessions::{ANSWERS, LINES, desk, lines_in};
use bench_shell::{RunFault, run};
use std::alloc::Global;
use std::io::{Error, ErrorKind, Result, Write};
use std::thread::Threads;

/// Takes so many bytes a call at most, and none after so many calls, flushes among them.
#[derive(Drop)]
struct Taking {
    bytes: Vec<u8>,
    most: usize,
    calls: u32,
    /// Whether the writes after that fail, and don't only take nothing.
    fails: bool,
    /// Whether it was a write that failed or took none.
    failed_write: bool,
}

impl Write for Taking {
    fn write(&mut self, buf: &[u8]) -> Result<usize> {
        if self.calls == 0 {
            self.failed_write = true;
            return if self.fails {
                Err(Error::from(ErrorKind::Other))
            } else {
                Ok(0)
            };
        }
        self.calls -= 1;
        let most = self.most.min(buf.len());
        self.bytes.extend_from_slice(buf.split_at(most).0)?;
        Ok(most)
    }

    fn flush(&mut self) -> Result<()> {
        if self.calls == 0 {
            return Err(Error::from(ErrorKind::Other));
        }
        self.calls -= 1;
        Ok(())
    }
}

/// A writer that takes whole lines and fails at each of its calls in turn.
pub(crate) fn failing<R: Threads + Sync>(rt: &R, alloc: Global) -> Option<u32> {
    at_each_call(rt, alloc, usize::MAX, true)
}

/// One of a byte a call that fails at each of its calls in turn.
pub(crate) fn slow<R: Threads + Sync>(rt: &R, alloc: Global) -> Option<u32> {
    at_each_call(rt, alloc, 1, true)
}

/// Both, where a write takes nothing in place of failing.
pub(crate) fn taking_none<R: Threads + Sync>(rt: &R, alloc: Global) -> Option<u32> {
    let whole = at_each_call(rt, alloc, usize::MAX, false)?;
    Some(whole.saturating_add(at_each_call(rt, alloc, 1, false)?))
}

/// How many runs held, from the one whose first call fails to the one that ends well.
fn at_each_call<R: Threads + Sync>(rt: &R, alloc: Global, most: usize, fails: bool) -> Option<u32> {
    let mut held = 0u32;
    for calls in 0..1_000 {
        let writer = Taking {
            bytes: Vec::new(alloc),
            most,
            calls,
            fails,
            failed_write: false,
        };
        let is_whole = is_whole(rt, alloc, writer)?;
        held = held.saturating_add(1);
        if is_whole {
            return Some(held);
        }
    }
    None
}

/// Whether a run over this writer ended well; none where it didn't end as it must, or what stands after it doesn't: what was
/// written is a beginning of the answers, the line whose answer failed was obeyed, and a further run answers the lines
/// behind it.
fn is_whole<R: Threads + Sync>(rt: &R, alloc: Global, mut writer: Taking) -> Option<bool> {
    let mut bench = desk(alloc)?;
    let mut reader = LINES;
    let ended = run(rt, alloc, &mut reader, &mut writer, &mut *bench);
    let written = writer.bytes.as_slice();
    let broken = if writer.failed_write { 1 } else { 0 };
    let obeyed = lines_in(written).saturating_add(broken);
    let is_fault = ended == Err(RunFault::Write) && ANSWERS.starts_with(written);
    let is_whole = ended == Ok(()) && written == ANSWERS;
    if (is_fault || is_whole) && answers_rest(rt, alloc, &mut bench, obeyed) {
        Some(is_whole)
    } else {
        None
    }
}
