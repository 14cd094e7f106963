//! The ends of the program other than the input's: words that it refuses, a file that isn't there, a file that is no project,
//! and a reader that fails. Each prints the exit status.
use bench_shell::{Reading, Writing};
use command_line::{Disk, Host, program_of};
use std::io::{self, Error, ErrorKind, Read, Result, Write};
use std::process::ExitCode;

/// Gives one line, and then fails.
#[derive(Drop)]
struct OneLine {
    line: &'static [u8],
}

impl Read for OneLine {
    fn read(&mut self, buf: &mut [u8]) -> Result<usize> {
        if self.line.is_empty() {
            return Err(Error::from(ErrorKind::Other));
        }
        self.line.read(buf)
    }
}

/// Runs the program with these words, and prints how it ended.
fn play<H: Host, R: Read, W: Write>(
    rt: &H,
    words: &[&str],
    reader: &mut R,
    writer: &mut W,
) -> ExitCode {
    let mut source = Reading::within(reader, u32::MAX);
    let mut sink = Writing::new(writer);
    let end = program_of(rt, words, &Disk::new(rt), &mut source, &mut sink);
    let _ = println!(rt; "{end:?}");
    end
}

/// Plays the four ends over this input, of which none is read, and gives the last one's status.
pub(crate) fn played<H: Host, R: Read>(rt: &H, input: &mut R) -> ExitCode {
    let writer = &mut io::writer(rt);
    play(rt, &["--workers", "17"], input, writer);
    play(rt, &["no such file.toml"], input, writer);
    play(rt, &["cut.toml"], input, writer);
    let mut reader = OneLine { line: b"place 5\n" };
    play(rt, &[], &mut reader, writer)
}
