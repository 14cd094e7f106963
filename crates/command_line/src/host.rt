//! The program at a terminal.
ghost use Rattle.std.specs.Prelude.{◌≡◌, ◌≢◌, true};
ghost use Rattle.std.specs.IoError.{error_kind};
ghost use Rattle.std.specs.Process.{exit_status};
ghost use Rattle.clap.specs.Walk.{texts};
ghost use Rattle.bench_shell.specs.Cause.{CantRead};
ghost use Rattle.command_line.specs.Ends.{status_of, end_at};
ghost use Rattle.command_line.specs.Opening.{EndsWith};

use crate::end::{End, status};
use crate::folder::{Disk, Folder};
use crate::start::{Stop, serve_words};
use bench_shell::{Reading, Sink, Source, Writing};
use std::env;
use std::io::{BufWriter, Eprint, Error, ErrorKind, Print, Read, Write};
use std::process::ExitCode;
use std::rt::{Env, Files};
use worker_sessions::Hall;

/// What the program takes of its host: memory, arguments, files, threads, and both outputs.
pub trait Host: AllocGlobal + Env + Files + Print + Eprint + Hall {}

impl<R: AllocGlobal + Env + Files + Print + Eprint + Hall> Host for R {}

/// How the program ends where its arguments can't be had: for want of memory, or one isn't UTF-8.
fn without_words(fault: &Error) -> End<'static>
    ensures memory { error_kind fault.now ≡ ErrorKind.OutOfMemory → result ≡ End.CannotStart }
    ensures words { error_kind fault.now ≢ ErrorKind.OutOfMemory → result ≡ End.Words }
{
    if fault.kind() == ErrorKind::OutOfMemory {
        End::CannotStart
    } else {
        End::Words
    }
}

/// The program, from the host's arguments to its exit status. It answers what is read from the reader, and writes to
/// standard error why it ended, where that is no end of the input.
pub fn program<H: Host, R: Read, W: Write>(rt: &H, reader: &mut R, writer: &mut W) -> ExitCode {
    let words = match env::args(rt) {
        Ok(words) => words.collect::<Vec<String>>(rt.alloc()),
        Err(fault) => {
            let end = without_words(&fault);
            if end == End::Words {
                let _ = eprintln!(rt; "hotspot: the command line is not UTF-8");
            }
            return ended(rt, &Stop::At(end));
        }
    };
    let Ok(words) = words else {
        return ended(rt, &Stop::At(End::CannotStart));
    };
    let Ok(texts) = words
        .iter()
        .skip(1)
        .map(String::as_str)
        .collect::<Vec<&str>>(rt.alloc())
    else {
        return ended(rt, &Stop::At(End::CannotStart));
    };
    // Answers are handed on before more input is read, in one write where several lines were at hand.
    let Ok(mut writer) = BufWriter::new(rt.alloc(), writer) else {
        return ended(rt, &Stop::At(End::CannotStart));
    };
    let mut source = Reading::within(reader, u32::MAX);
    let mut sink = Writing::new(&mut writer);
    program_of(rt, texts.as_slice(), &Disk::new(rt), &mut source, &mut sink)
}

/// The program with these words behind its name, over a folder, to its exit status. It writes to standard error why it
/// ended, where that is no end of the input.
#[tactic(auto, using(crate::proofs::Starting::ends_with))]
pub fn program_of<H: Host, F: Folder, R: Source, W: Sink>(
    rt: &H,
    words: &[&str],
    folder: &F,
    reader: &mut R,
    writer: &mut W,
) -> ExitCode
    requires { W.is_flushed writer.old ≡ true }
    ensures { EndsWith (F.gives folder.now) (texts words.entry.now) (CantRead (R.has_failed reader.new) (R.left reader.new)) (W.has_failed writer.new ≡ true)
        (record { unread = R.remaining reader.old; rest = R.remaining reader.new; before = W.contents writer.old; after = W.contents writer.new }) (exit_status result) }
{
    let stop = serve_words(rt, rt.alloc(), words, folder, reader, writer);
    ended(rt, &stop)
}

/// Prints the text of an end that has one, and gives its status.
pub fn ended<P: Print + Eprint>(rt: &P, stop: &Stop<'_>) -> ExitCode
    ensures { exit_status result ≡ status_of (end_at stop.now) }
{
    let end = stop.end();
    let _ = match stop {
        // What clap would say of the words is then that there is no memory.
        Stop::Words(_) if matches!(end, End::CannotStart) => eprintln!(rt; "{end}"),
        Stop::Words(error) => error.print(rt),
        Stop::At(End::Ended | End::Words) => Ok(()),
        Stop::Refused(_, Some(place)) => eprintln!(rt; "{end}\nhotspot: {place}"),
        Stop::Refused(_, None) | Stop::At(_) => eprintln!(rt; "{end}"),
    };
    ExitCode::from(status(&end))
}
