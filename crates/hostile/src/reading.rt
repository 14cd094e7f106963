//! Readers that give their bytes in pieces, or fail.
use crate::sessions::{ANSWERS, LINES, after_lines, desk, first_lines, lines_in};
use bench_core::Bench;
use bench_shell::{RunFault, run, run_within};
use std::alloc::Global;
use std::io::{Error, ErrorKind, Read, Result};
use std::thread::Threads;

/// Gives so many bytes a call at most, and fails after so many calls.
#[derive(Drop)]
pub(crate) struct Pieces<'a> {
    bytes: &'a [u8],
    most: usize,
    calls: usize,
}

impl<'a> Pieces<'a> {
    pub(crate) fn new(bytes: &'a [u8], most: usize, calls: usize) -> Pieces<'a> {
        Pieces { bytes, most, calls }
    }
}

impl Read for Pieces<'_> {
    fn read(&mut self, buf: &mut [u8]) -> Result<usize> {
        if self.calls == 0 {
            return Err(Error::from(ErrorKind::Other));
        }
        self.calls -= 1;
        let most = self.most.min(buf.len()).min(self.bytes.len());
        let (front, rest) = self.bytes.split_at(most);
        buf[..most].copy_from_slice(front);
        self.bytes = rest;
        Ok(most)
    }
}

/// How a run over these pieces ended, and what it wrote, in so many reads at most.
fn told<R: Threads + Sync>(
    rt: &R,
    alloc: Global,
    bench: &mut Bench,
    mut reader: Pieces,
    reads: u32,
) -> (std::result::Result<(), RunFault>, Vec<u8>) {
    let mut writer = Vec::new(alloc);
    let ended = run_within(rt, alloc, &mut reader, &mut writer, bench, reads);
    (ended, writer)
}

/// Pieces of each length, from one byte to all at once: the whole session is answered.
pub(crate) fn in_pieces<R: Threads + Sync>(rt: &R, alloc: Global) -> Option<u32> {
    let mut held = 0u32;
    for most in 1..LINES.len() + 1 {
        let reader = Pieces::new(LINES, most, usize::MAX);
        if !holds(rt, alloc, reader, u32::MAX, Has::All)? {
            return None;
        }
        held = held.saturating_add(1);
    }
    Some(held)
}

/// A reader of so many bytes a call that fails at each of its calls in turn, the one that would find the end among them.
pub(crate) fn failing<R: Threads + Sync>(rt: &R, alloc: Global) -> Option<u32> {
    let mut held = 0u32;
    for most in [1, 2, 7, 64, 4096] {
        held = held.saturating_add(failing_pieces(rt, alloc, most)?);
    }
    Some(held)
}

fn failing_pieces<R: Threads + Sync>(rt: &R, alloc: Global, most: usize) -> Option<u32> {
    if most == 0 {
        return None;
    }
    let pieces = LINES.len().div_ceil(most);
    let mut held = 0u32;
    for calls in 0..pieces + 1 {
        let reader = Pieces::new(LINES, most, calls);
        let read = calls.saturating_mul(most).min(LINES.len());
        if !holds(rt, alloc, reader, u32::MAX, Has::Bytes(read))? {
            return None;
        }
        held = held.saturating_add(1);
    }
    Some(held)
}

/// The same by a bound on the reads, with a reader of one byte a call.
pub(crate) fn bounded<R: Threads + Sync>(rt: &R, alloc: Global) -> Option<u32> {
    let mut held = 0u32;
    for read in 0..LINES.len() + 1 {
        let reader = Pieces::new(LINES, 1, usize::MAX);
        let reads = u32::try_from(read).ok()?;
        if !holds(rt, alloc, reader, reads, Has::Bytes(read))? {
            return None;
        }
        held = held.saturating_add(1);
    }
    Some(held)
}

/// What a run has read: all and the end, or so many bytes before a fault.
#[derive(Clone, Copy)]
enum Has {
    All,
    Bytes(usize),
}

/// Whether a run has answered the whole lines that it has read, and ended well or as a read that failed; and whether a
/// further run on the other lines gives the other answers, so that nothing was lost or done twice.
fn holds<R: Threads + Sync>(
    rt: &R,
    alloc: Global,
    reader: Pieces,
    reads: u32,
    has: Has,
) -> Option<bool> {
    let mut bench = desk(alloc)?;
    let (ended, written) = told(rt, alloc, &mut bench, reader, reads);
    let (want, read) = match has {
        Has::All => (Ok(()), LINES.len()),
        Has::Bytes(read) => (Err(RunFault::Read), read.min(LINES.len())),
    };
    let lines = lines_in(LINES.split_at(read).0);
    let is_told = ended == want && written.as_slice() == first_lines(ANSWERS, lines);
    Some(is_told && answers_rest(rt, alloc, &mut bench, lines))
}

/// Whether a run on what is left behind so many lines gives their answers.
pub(crate) fn answers_rest<R: Threads + Sync>(
    rt: &R,
    alloc: Global,
    bench: &mut Bench,
    lines: usize,
) -> bool {
    let mut reader = after_lines(LINES, lines);
    let mut writer = Vec::new(alloc);
    let ended = run(rt, alloc, &mut reader, &mut writer, bench);
    ended == Ok(()) && writer.as_slice() == after_lines(ANSWERS, lines)
}
