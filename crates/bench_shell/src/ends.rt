//! The ends of a run: where its bytes come from, and where they go.
ghost use Rattle.std.specs.Prelude.{◌≡◌, ◌⊎◌, ℕ, ◌+◌, ◌<◌, ◌≤◌, Bool, true, false, List, Option, length, OnOk, OnErr, IfOk};
ghost use Rattle.std.specs.Io.{ReadsAtMost, WritesAtMost};
ghost use Rattle.std.specs.Io.KnownBytes.{ReadConsumes, WriteAppends, Keeps};

use std::io;
use std::io::{ErrorKind, Read, Write};

/// Where the bytes of a run come from, and whether that has failed.
pub trait Source {
    /// The bytes that reads will give from here on, where they are known.
    ghost remaining: { Self → Option (List ℕ) };

    /// How many reads are left.
    ghost left: { Self → ℕ };

    /// A read has failed.
    ghost has_failed: { Self → Bool };

    /// Which reference stands behind: the same for as long as the source lives.
    ghost lender: { Self → ℕ };

    /// The next bytes; none only at the end, or where there is no room for them. It is called only where all that was
    /// written to the sink was handed on, so that nobody waits for an answer while more input is waited for.
    ///
    /// # Errors
    ///
    /// Where the reading failed, or no read was left.
    fn read<W: Sink>(&mut self, sink: &W, buf: &mut [u8]) -> io::Result<usize>
        requires flushed { W.is_flushed sink.now ≡ true }
        ensures bound { ReadsAtMost result buf.new }
        ensures bytes { ReadConsumes (remaining self.old) (remaining self.new) result buf.new }
        ensures counts { OnOk result (left self.new + 1 ≡ left self.old) }
        ensures no_more { left self.new ≤ left self.old }
        ensures kept { OnOk result (has_failed self.new ≡ has_failed self.old) }
        ensures failed { OnErr result ((has_failed self.new ≡ true) ⊎ (left self.new ≡ 0)) }
        ensures same_reference { lender self.new ≡ lender self.old };
}

/// Where the bytes of a run go, whether that has failed, and whether all of them were handed on.
pub trait Sink {
    /// The bytes written, where they are known.
    ghost contents: { Self → Option (List ℕ) };

    /// A write or a flush has failed, or a write took nothing.
    ghost has_failed: { Self → Bool };

    /// All that was written was handed on: nothing was written since the last flush that ended well.
    ghost is_flushed: { Self → Bool };

    /// Which reference stands behind: the same for as long as the sink lives.
    ghost lender: { Self → ℕ };

    /// Writes some of the bytes, at least one of them.
    ///
    /// # Errors
    ///
    /// Where the writing failed, or nothing was taken.
    fn write(&mut self, bytes: &[u8]) -> io::Result<usize>
        requires { 0 < length bytes.now }
        ensures some { IfOk result (λ n. 0 < n) }
        ensures bound { WritesAtMost result bytes.now }
        ensures bytes { WriteAppends (contents self.old) (contents self.new) result bytes.now }
        ensures kept { OnOk result (has_failed self.new ≡ has_failed self.old) }
        ensures failed { OnErr result (has_failed self.new ≡ true) }
        ensures same_reference { lender self.new ≡ lender self.old };

    /// Hands on what was written.
    ///
    /// # Errors
    ///
    /// Where that failed.
    fn flush(&mut self) -> io::Result<()>
        ensures bytes { Keeps (contents self.old) (contents self.new) }
        ensures flushed { OnOk result (is_flushed self.new ≡ true) }
        ensures kept { OnOk result (has_failed self.new ≡ has_failed self.old) }
        ensures failed { OnErr result (has_failed self.new ≡ true) }
        ensures same_reference { lender self.new ≡ lender self.old };
}

/// A reader, of which so many reads are made at most.
#[derive(Drop)]
pub struct Reading<'a, R> {
    reader: &'a mut R,
    left: u32,
    has_failed: bool,
}

impl<'a, R: Read> Reading<'a, R> {
    /// So many reads at most.
    pub fn within(reader: &'a mut R, left: u32) -> Self
        ensures remaining { ⟦<Reading<'a, R> as Source>⟧.remaining result ≡ R.remaining reader.old }
        ensures left { ⟦<Reading<'a, R> as Source>⟧.left result ≡ left }
        ensures has_failed { ⟦<Reading<'a, R> as Source>⟧.has_failed result ≡ false }
        ensures same_reference { result.reader.ghost_name ≡ reader.entry.ghost_name }
    {
        Reading {
            reader,
            left,
            has_failed: false,
        }
    }
}

impl<R: Read> Source for Reading<'_, R> {
    ghost remaining = { λ s. R.remaining s.reader.now };

    ghost left = { λ s. s.left };

    ghost has_failed = { λ s. s.has_failed };

    ghost lender = { λ s. s.reader.ghost_name };

    fn read<W: Sink>(&mut self, _sink: &W, buf: &mut [u8]) -> io::Result<usize> {
        if self.left == 0 {
            return Err(io::Error::from(ErrorKind::QuotaExceeded));
        }
        self.left -= 1;
        match self.reader.read(buf) {
            Ok(count) => Ok(count),
            Err(fault) => {
                self.has_failed = true;
                Err(fault)
            }
        }
    }
}

/// A writer.
#[derive(Drop)]
pub struct Writing<'a, W> {
    writer: &'a mut W,
    has_failed: bool,
    is_flushed: bool,
}

impl<'a, W: Write> Writing<'a, W> {
    /// Nothing was written yet, so all of that was handed on.
    pub fn new(writer: &'a mut W) -> Self
        ensures contents { ⟦<Writing<'a, W> as Sink>⟧.contents result ≡ W.contents writer.old }
        ensures has_failed { ⟦<Writing<'a, W> as Sink>⟧.has_failed result ≡ false }
        ensures flushed { ⟦<Writing<'a, W> as Sink>⟧.is_flushed result ≡ true }
        ensures same_reference { result.writer.ghost_name ≡ writer.entry.ghost_name }
    {
        Writing {
            writer,
            has_failed: false,
            is_flushed: true,
        }
    }
}

impl<W: Write> Sink for Writing<'_, W> {
    ghost contents = { λ s. W.contents s.writer.now };

    ghost has_failed = { λ s. s.has_failed };

    ghost is_flushed = { λ s. s.is_flushed };

    ghost lender = { λ s. s.writer.ghost_name };

    fn write(&mut self, bytes: &[u8]) -> io::Result<usize> {
        self.is_flushed = false;
        match self.writer.write(bytes) {
            Ok(0) => {
                self.has_failed = true;
                Err(io::Error::from(ErrorKind::WriteZero))
            }
            Ok(count) => Ok(count),
            Err(fault) => {
                self.has_failed = true;
                Err(fault)
            }
        }
    }

    fn flush(&mut self) -> io::Result<()> {
        match self.writer.flush() {
            Ok(()) => {
                self.is_flushed = true;
                Ok(())
            }
            Err(fault) => {
                self.has_failed = true;
                Err(fault)
            }
        }
    }
}
