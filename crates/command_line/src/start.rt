//! From the program's words to its end.
ghost use Rattle.std.specs.Prelude.{◌≡◌, ◌≤◌, true, vec_len, IfOk, IfErr, option_map};
ghost use Rattle.clap.specs.Walk.{texts};
ghost use Rattle.clap.specs.Words.{matches_of};
ghost use Rattle.bench_shell.specs.Cause.{CantRead};
ghost use Rattle.command_line.specs.Arguments.{hotspot, IsNumberHeld};
ghost use Rattle.command_line.specs.Ends.{end_at};
ghost use Rattle.command_line.specs.Opening.{IsNamed, FileStops, Opens, StopsFor, ServesFor, stop_for};

use crate::end::{End, refusal};
use crate::folder::Folder;
use crate::words::arguments;
use bench_shell::{Sink, Source};
use clap::Error;
use project_book::Project;
use project_file::{ProjectFault, fault_place, read_project};
use std::alloc::{AllocError, Global};
use std::mem;
use wave_workers::Ungated;
use worker_sessions::{Hall, NoStart, Served, serve};

/// What the program ends with.
#[derive(Drop)]
pub enum Stop<'a> {
    /// The words are no command line, or ask for help or the version: the text is the error's.
    Words(Error),
    /// The project was refused: why, and where its file is wrong, where that can be told.
    Refused(ProjectFault, Option<String>),
    /// Any other end.
    At(End<'a>),
}

impl<'a> Stop<'a> {
    /// How the program ends.
    pub fn end(&self) -> End<'a>
        ensures { result ≡ end_at self.now }
    {
        match self {
            Stop::Words(error) => refusal(error),
            Stop::Refused(fault, _) => End::Project(*fault),
            Stop::At(end) => *end,
        }
    }
}

/// The project that FILE is, or the built-in one without it.
#[tactic(auto, using(crate::proofs::Starting::is_read, crate::proofs::Starting::is_refused))]
fn project<'a, F: Folder>(
    alloc: Global,
    file: Option<&'a str>,
    folder: &F,
) -> Result<Project, Stop<'a>>
    ensures ok { IfOk result (IsNamed (F.gives folder.now) (option_map (λ name. name.now) file.entry)) }
    ensures err { IfErr result (FileStops (F.gives folder.now) (option_map (λ name. name.now) file.entry)) }
{
    let name = match file {
        Some(name) => name,
        None => {
            return match Project::built_in(alloc) {
                Ok(project) => Ok(project),
                Err(_) => Err(Stop::At(End::CannotStart)),
            };
        }
    };
    let bytes = match folder.read(name) {
        Ok(bytes) => bytes,
        Err(_) => return Err(Stop::At(End::NoFile(name))),
    };
    match read_project(alloc, bytes.as_slice()) {
        Ok(project) => Ok(project),
        Err(fault) => Err(Stop::Refused(fault, place_in(alloc, bytes.as_slice()))),
    }
}

/// Where a file that was refused is wrong, as far as that can be told.
fn place_in(alloc: Global, bytes: &[u8]) -> Option<String> {
    match fault_place(alloc, bytes) {
        Ok(place) => place,
        Err(_) => None,
    }
}

/// With what the program begins.
#[derive(Drop)]
pub struct Beginning {
    /// The project of FILE, or without FILE the built-in one.
    pub project: Project,
    /// How many workers run beside the shell, at most 16.
    pub workers: u32,
}

/// With what the program begins.
///
/// # Errors
///
/// The first that applies: the words are no command line, or ask for help or the version; FILE can't be read, for whatever
/// cause; it is no project. Want of memory may stand in the place of each: it is `CannotStart`, `NoFile`, or the project's
/// `Memory`.
#[tactic(auto, using(crate::proofs::Starting::stops_for))]
pub fn opening<'a, F: Folder>(
    alloc: Global,
    words: &'a [&'a str],
    folder: &F,
) -> Result<Beginning, Stop<'a>>
    ensures opens { IfOk result (λ b. Opens (F.gives folder.now) (texts words.entry.now) b.project) }
    ensures workers { IfOk result (λ b. IsNumberHeld (matches_of hotspot (texts words.entry.now)) b.workers) }
    ensures most { IfOk result (λ b. b.workers ≤ 16) }
    ensures stops { IfErr result (StopsFor (F.gives folder.now) (texts words.entry.now)) }
{
    let told = match arguments(alloc, words) {
        Ok(told) => told,
        Err(error) => return Err(Stop::Words(error)),
    };
    match project(alloc, told.file, folder) {
        Ok(project) => Ok(Beginning {
            project,
            workers: told.workers,
        }),
        Err(stop) => Err(stop),
    }
}

/// So many gates that hold nothing.
fn ungated(alloc: Global, count: u32) -> Result<Vec<Ungated>, AllocError>
    ensures { IfOk result (λ gates. vec_len gates ≡ count) }
{
    vec![in alloc; Ungated; count as usize]
}

/// What the program ends with, whose session has ended so. The bench that it leaves isn't taken apart: its memory goes with the
/// program at once, and state by state that takes a third of the time in which it was filled.
fn stopped<'a>(served: Result<Served, NoStart>) -> Stop<'a>
    ensures { result ≡ stop_for served }
{
    match served {
        Ok(Served { ended, left }) => {
            mem::forget(left);
            match ended {
                Ok(()) => Stop::At(End::Ended),
                Err(fault) => Stop::At(End::Served(fault)),
            }
        }
        Err(NoStart) => Stop::At(End::CannotStart),
    }
}

/// The program but for its texts on standard error: it opens a bench as the words say, with as many workers beside it, and
/// answers what is read from the reader until the input ends. With help, the version or a refusal nothing is read. The memory of
/// the bench isn't given back: it is for a process that ends then.
#[tactic(auto, using(crate::proofs::Starting::no_start, crate::proofs::Starting::has_served))]
pub fn serve_words<'a, H: Hall, F: Folder, R: Source, W: Sink>(
    rt: &H,
    alloc: Global,
    words: &'a [&'a str],
    folder: &F,
    reader: &mut R,
    writer: &mut W,
) -> Stop<'a>
    requires { W.is_flushed writer.old ≡ true }
    ensures { ServesFor (F.gives folder.now) (texts words.entry.now) (CantRead (R.has_failed reader.new) (R.left reader.new)) (W.has_failed writer.new ≡ true)
        (record { unread = R.remaining reader.old; rest = R.remaining reader.new; before = W.contents writer.old; after = W.contents writer.new }) result }
{
    let beginning = match opening(alloc, words, folder) {
        Ok(beginning) => beginning,
        Err(stop) => return stop,
    };
    let gates = match ungated(alloc, beginning.workers) {
        Ok(gates) => gates,
        Err(_) => return Stop::At(End::CannotStart),
    };
    let served = serve(rt, alloc, reader, writer, beginning.project, gates);
    stopped(served)
}
