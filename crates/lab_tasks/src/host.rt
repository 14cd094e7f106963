//! The program at a terminal.
use crate::comparison::compare;
use crate::end::{End, Reason, refusal, status};
use crate::other_net::AllOn;
use crate::outcome::{OutFile, Outcome};
use crate::progress::Progress;
use crate::series::SeriesWords;
use crate::shell::{Shelf, ShellWords, end_after, hold, opened, session_voice};
use crate::task::perform;
use crate::words::{Asked, CompareWords, CurveWords, DelayWords, SweepWords, read_words};
use bench_core::Bench;
use bench_shell::{RunFault, Writing};
use clap::Error;
use lab_shell::Manner;
use project_book::Project;
use project_file::{MAX_BYTES, fault_place};
use std::alloc::Global;
use std::io::{BufWriter, Eprint, Input, Print, Read, Write};
use std::path::{Path, PathBuf};
use std::process::ExitCode;
use std::rt::{Env, Files};
use std::thread::Threads;
use std::time::{Clock, Duration, Instant};
use std::{env, fs, io};

/// What the program takes of its host.
pub trait Host: AllocGlobal + Env + Files + Input + Print + Eprint + Clock + Threads + Sync {}

impl<R: AllocGlobal + Env + Files + Input + Print + Eprint + Clock + Threads + Sync> Host for R {}

/// Which of the program's ends are terminals.
#[derive(Clone, Copy)]
pub struct Terminals {
    pub input: bool,
    /// Standard error.
    pub errors: bool,
}

/// A line on a terminal that says how far a task is, once it takes longer than a second.
#[derive(Drop)]
struct Line<'a, R> {
    rt: &'a R,
    /// When the task began, where there is a terminal.
    begun: Option<Instant>,
    shown: bool,
}

impl<R: Eprint + Clock> Progress for Line<'_, R> {
    fn tell(&mut self, done: usize, all: usize) {
        let Some(begun) = self.begun else {
            return;
        };
        let Ok(passed) = begun.elapsed(self.rt) else {
            return;
        };
        if done < all && passed.as_secs() >= 1 {
            let _ = eprint!(self.rt; "\rlab: {done} of {all} runs");
            self.shown = true;
        }
    }
}

impl<R: Eprint> Line<'_, R> {
    /// Takes the line away.
    fn clear(&mut self) {
        if self.shown {
            let _ = eprint!(self.rt; "\r\x1b[K");
        }
    }
}

fn file_bytes<R: Files + AllocGlobal>(rt: &R, name: &str) -> io::Result<Vec<u8>> {
    let mut bytes = Vec::new(rt.alloc());
    let file = fs::open(rt, name)?;
    file.take(MAX_BYTES as u64 + 1).read_to_end(&mut bytes)?;
    Ok(bytes)
}

/// How many names of a file in the making are tried.
const MOST_PARTS: u32 = 100;

/// The name of a file in the making that is tried at this turn: with a number from the second turn on.
fn beside(alloc: Global, name: &str, turn: u32) -> io::Result<String> {
    if turn == 0 {
        return Ok(format!(in alloc; "{name}.part")?);
    }
    Ok(format!(in alloc; "{name}.part{turn}")?)
}

/// Makes an empty file: whether it did, since nothing had that name.
fn is_made<R: Files>(rt: &R, name: &str) -> io::Result<bool> {
    match fs::File::create_new(rt, name) {
        Ok(_file) => Ok(true),
        Err(fault) => {
            if fault.kind() == io::ErrorKind::AlreadyExists {
                Ok(false)
            } else {
                Err(fault)
            }
        }
    }
}

/// Makes an empty file beside a name, and gives the name of that: none that there was, so neither the file that was read nor
/// another is written over, or taken away.
fn part_of<R: Files + AllocGlobal>(rt: &R, name: &str) -> io::Result<String> {
    for turn in 0..MOST_PARTS {
        let part = beside(rt.alloc(), name, turn)?;
        if is_made(rt, part.as_str())? {
            return Ok(part);
        }
    }
    Err(io::Error::from(io::ErrorKind::AlreadyExists))
}

/// Writes a file as `part`, and then gives it its name.
fn write_as<R: Files>(rt: &R, part: &str, file: &OutFile) -> io::Result<()> {
    fs::write(rt, part, file.bytes.as_slice())?;
    fs::rename(rt, part, file.name.as_str())
}

/// Writes a file beside its name first, so that it is never half written there; where that fails the part is taken away.
fn save_file<R: Files + AllocGlobal>(rt: &R, file: &OutFile) -> io::Result<()> {
    let part = part_of(rt, file.name.as_str())?;
    match write_as(rt, part.as_str(), file) {
        Ok(()) => Ok(()),
        Err(fault) => {
            let _ = fs::remove_file(rt, part.as_str());
            Err(fault)
        }
    }
}

/// How it ends where a file failed: for want of memory, or as said.
fn failed<'a>(fault: &io::Error, end: End<'a>) -> End<'a> {
    if fault.kind() == io::ErrorKind::OutOfMemory {
        End::Memory
    } else {
        end
    }
}

/// The first file that can't be written; none is half written.
fn save<'a, R: Files + AllocGlobal>(rt: &R, outcome: &'a Outcome) -> Result<(), End<'a>> {
    if let Some(folder) = &outcome.folder {
        if let Err(fault) = fs::create_dir_all(rt, folder.as_str()) {
            return Err(failed(&fault, End::NotWritten(folder.as_str())));
        }
    }
    for file in &outcome.files {
        if let Err(fault) = save_file(rt, file) {
            return Err(failed(&fault, End::NotWritten(file.name.as_str())));
        }
    }
    Ok(())
}

/// Writes what is printed, and the files.
fn delivered<R: Host>(rt: &R, outcome: &Outcome) -> u8 {
    if let Err(end) = save(rt, outcome) {
        return ended(rt, &end);
    }
    if io::writer(rt)
        .write_all(outcome.printed.as_slice())
        .is_err()
    {
        return ended(rt, &End::Output);
    }
    if let Some(net) = outcome.elsewhere {
        let _ = eprintln!(rt; "{}", AllOn(net));
    }
    status(&End::Done)
}

/// Prints the line of an end that has one, and gives its status.
fn ended<R: Eprint>(rt: &R, end: &End<'_>) -> u8 {
    let _ = match end {
        End::Done | End::Words => Ok(()),
        _ => eprintln!(rt; "{end}"),
    };
    status(end)
}

/// The status after words that are no command line, or ask for help or the version.
fn refused<R: Print + Eprint>(rt: &R, error: &Error) -> u8 {
    let end = refusal(error);
    // What clap would say of the words is then that there is no memory.
    if let End::Memory = end {
        return ended(rt, &end);
    }
    let _ = error.print(rt);
    status(&end)
}

/// The bytes of the file that is to be read, or none.
fn bytes_for<'a, R: Files + AllocGlobal>(rt: &R, asked: &Asked<'a>) -> Result<Vec<u8>, End<'a>> {
    match asked.file() {
        None => Ok(Vec::new(rt.alloc())),
        Some(name) => match file_bytes(rt, name) {
            Ok(bytes) => Ok(bytes),
            Err(fault) => Err(failed(&fault, End::NotRead(name))),
        },
    }
}

/// The outcome of what is asked for; meanwhile it is told how far it is.
fn performed<'a, R: Host>(
    rt: &R,
    asked: &Asked<'a>,
    bytes: &[u8],
    terminal: bool,
) -> Result<Outcome, End<'a>> {
    let begun = if terminal {
        Instant::now(rt).ok()
    } else {
        None
    };
    let mut line = Line {
        rt,
        begun,
        shown: false,
    };
    let outcome = perform(rt, rt.alloc(), asked, bytes, &mut line);
    line.clear();
    outcome
}

/// Where a file of a name will be that isn't there: by its folder, without links.
fn new_place<R: Files + AllocGlobal>(rt: &R, name: &str) -> io::Result<PathBuf> {
    let path = Path::new(name);
    let (Some(folder), Some(last)) = (path.parent(), path.file_name()) else {
        return Err(io::Error::from(io::ErrorKind::NotFound));
    };
    let folder = if folder.as_str().is_empty() {
        fs::canonicalize(rt, ".")?
    } else {
        fs::canonicalize(rt, folder.as_str())?
    };
    Ok(folder.join(rt.alloc(), last)?)
}

/// Where the file of a name is, or will be.
fn place<R: Files + AllocGlobal>(rt: &R, name: &str) -> io::Result<PathBuf> {
    match fs::canonicalize(rt, name) {
        Err(fault) if fault.kind() == io::ErrorKind::NotFound => new_place(rt, name),
        found => found,
    }
}

/// Whether two names are of one file, be it there or not.
fn is_one_file<R: Files + AllocGlobal>(rt: &R, name: &str, other: &str) -> io::Result<bool> {
    if name == other {
        return Ok(true);
    }
    let (path, other) = (place(rt, name)?, place(rt, other)?);
    Ok(path == other)
}

/// Why a file isn't written over the one that is read, where no word allows it.
const NOT_SOURCE: &str = "another file than the one that is read";

/// Why a picture isn't written where its table goes, which would be written over it.
const NOT_TABLE: &str = "another file than the one at --csv";

/// Refuses a word that names the file of this name, by whatever name.
fn refuse_file<'a, R: Files + AllocGlobal>(
    rt: &R,
    name: &str,
    option: &'static str,
    word: Option<&'a str>,
    reason: Reason,
) -> Result<(), End<'a>> {
    let Some(word) = word else {
        return Ok(());
    };
    match is_one_file(rt, name, word) {
        Ok(true) => Err(End::Word {
            option,
            word,
            reason,
        }),
        Err(fault) if fault.kind() == io::ErrorKind::OutOfMemory => Err(End::Memory),
        Ok(false) | Err(_) => Ok(()),
    }
}

/// Refuses to write a picture and its table to one file.
fn refuse_table<'a, R: Files + AllocGlobal>(rt: &R, words: &CurveWords<'a>) -> Result<(), End<'a>> {
    match words.csv {
        Some(table) => refuse_file(rt, table, "--out", words.out, Reason::Form(NOT_TABLE)),
        None => Ok(()),
    }
}

/// Refuses to write the table or the picture of a sweep over the file that is read, or both to one file.
fn refuse_sweep<'a, R: Files + AllocGlobal>(rt: &R, words: &SweepWords<'a>) -> Result<(), End<'a>> {
    let source = Reason::Form(NOT_SOURCE);
    refuse_file(rt, words.file, "--csv", words.csv, source)?;
    refuse_file(rt, words.file, "--plot", words.plot, source)?;
    match words.csv {
        Some(table) => refuse_file(rt, table, "--plot", words.plot, Reason::Form(NOT_TABLE)),
        None => Ok(()),
    }
}

/// Refuses to write a histogram over its file, or a picture and its table to one file.
fn refuse_delays<'a, R: Files + AllocGlobal>(
    rt: &R,
    words: &DelayWords<'a>,
) -> Result<(), End<'a>> {
    if let Some(file) = words.file {
        let source = Reason::Form(NOT_SOURCE);
        refuse_file(rt, file, "--out", words.curves.out, source)?;
    }
    refuse_table(rt, &words.curves)
}

/// Refuses to write the table or the picture of a series over its file, or both to one file.
fn refuse_series<'a, R: Files + AllocGlobal>(
    rt: &R,
    words: &SeriesWords<'a>,
) -> Result<(), End<'a>> {
    let source = Reason::Form(NOT_SOURCE);
    refuse_file(rt, words.file, "--csv", words.csv, source)?;
    refuse_file(rt, words.file, "--out", words.out, source)?;
    match words.csv {
        Some(table) => refuse_file(rt, table, "--out", words.out, Reason::Form(NOT_TABLE)),
        None => Ok(()),
    }
}

/// Refuses to write over the file that is read, but for a converted project that may be, or two files as one.
fn refuse_over<'a, R: Files + AllocGlobal>(rt: &R, asked: &Asked<'a>) -> Result<(), End<'a>> {
    let source = Reason::Form(NOT_SOURCE);
    match asked {
        Asked::Map(words) => refuse_file(rt, words.file, "--out", words.out, source),
        Asked::Compare(words) => {
            refuse_file(rt, words.map.file, "--out", words.map.out, source)?;
            refuse_file(rt, words.other, "--out", words.map.out, source)
        }
        Asked::Order(words) | Asked::Page(words) => {
            refuse_file(rt, words.file, "--out", words.out, source)
        }
        Asked::Trace(words) => refuse_file(rt, words.file, "--out", words.out, source),
        Asked::Series(words) => refuse_series(rt, words),
        Asked::Sweep(words) => refuse_sweep(rt, words),
        Asked::Rates(words) => refuse_table(rt, words),
        Asked::Delays(words) => refuse_delays(rt, words),
        Asked::Load(words) => refuse_table(rt, &words.curves),
        Asked::Convert(words) => {
            if words.force {
                return Ok(());
            }
            refuse_file(rt, words.file, "--out", words.out, Reason::Source)
        }
        Asked::Latency(_)
        | Asked::Done { .. }
        | Asked::Full { .. }
        | Asked::Busy(_)
        | Asked::Check { .. }
        | Asked::Shell(_) => Ok(()),
    }
}

/// Says where a file is wrong that was refused as a project.
fn tell_place<R: Eprint + AllocGlobal>(rt: &R, bytes: &[u8]) {
    if let Ok(Some(place)) = fault_place(rt.alloc(), bytes) {
        let _ = eprintln!(rt; "lab: {place}");
    }
}

/// The files of the host, each written beside its name first. What they hold no contract can say.
#[derive(Drop)]
struct Disk<'a, R> {
    rt: &'a R,
}

impl<R: Files + AllocGlobal> Shelf for Disk<'_, R> {
    ghost saves = { λ _ _ _ _. Unit {0} };

    fn save(&self, file: &OutFile) -> bool {
        save_file(self.rt, file).is_ok()
    }
}

/// A bench on a project, in a box, since each way out of a function costs its proof something for every field that it lets go.
fn bench_of(alloc: Global, project: Project) -> Option<Box<Bench>> {
    match Bench::new(alloc, project, 0) {
        Ok(bench) => Box::new(alloc, bench).ok(),
        Err(_) => None,
    }
}

/// A session from standard input to standard output, over a bench.
fn session<R: Host>(
    rt: &R,
    words: &ShellWords<'_>,
    at_terminal: bool,
    bench: &mut Bench,
) -> Result<u8, RunFault> {
    let manner = Manner {
        voice: session_voice(words.json, at_terminal),
        strict: words.strict,
    };
    let mut output = io::writer(rt);
    let Ok(mut writer) = BufWriter::new(rt.alloc(), &mut output) else {
        return Err(RunFault::Memory);
    };
    let mut sink = Writing::new(&mut writer);
    let mut input = rt.reader();
    hold(
        rt,
        rt.alloc(),
        manner,
        &Disk { rt },
        &mut input,
        &mut sink,
        bench,
    )
}

/// A session on a project: its status.
fn sat<R: Host>(rt: &R, words: &ShellWords<'_>, at_terminal: bool, project: Project) -> u8 {
    let Some(mut bench) = bench_of(rt.alloc(), project) else {
        return ended(rt, &End::Memory);
    };
    match session(rt, words, at_terminal, &mut bench) {
        Ok(status) => status,
        Err(fault) => ended(rt, &end_after(fault)),
    }
}

/// Prints why there is no outcome or no project, and where its file is wrong, and gives the status.
fn refused_file<R: Eprint + AllocGlobal>(rt: &R, end: &End<'_>, bytes: &[u8]) -> u8 {
    let status = ended(rt, end);
    if let End::Project(_) = end {
        tell_place(rt, bytes);
    }
    status
}

/// Compares the runs of two files, of which the first one has these bytes.
fn compared<R: Host>(rt: &R, words: &CompareWords<'_>, bytes: &[u8]) -> u8 {
    let other = match file_bytes(rt, words.other) {
        Ok(other) => other,
        Err(fault) => return ended(rt, &failed(&fault, End::NotRead(words.other))),
    };
    match compare(rt.alloc(), words, bytes, other.as_slice()) {
        Ok(outcome) => delivered(rt, &outcome),
        Err(end) => {
            let status = refused_file(rt, &end, bytes);
            if let End::Word {
                reason: Reason::NoProject(_),
                ..
            } = end
            {
                tell_place(rt, other.as_slice());
            }
            status
        }
    }
}

/// Does what is asked for.
fn done<R: Host>(rt: &R, asked: &Asked<'_>, terminals: Terminals) -> u8 {
    if let Err(end) = refuse_over(rt, asked) {
        return ended(rt, &end);
    }
    let bytes = match bytes_for(rt, asked) {
        Ok(bytes) => bytes,
        Err(end) => return ended(rt, &end),
    };
    if let Asked::Shell(words) = asked {
        return match opened(rt.alloc(), words.file, bytes.as_slice()) {
            Ok(project) => sat(rt, words, terminals.input, project),
            Err(end) => refused_file(rt, &end, bytes.as_slice()),
        };
    }
    if let Asked::Compare(words) = asked {
        return compared(rt, words, bytes.as_slice());
    }
    match performed(rt, asked, bytes.as_slice(), terminals.errors) {
        Ok(outcome) => delivered(rt, &outcome),
        Err(end) => refused_file(rt, &end, bytes.as_slice()),
    }
}

/// The program, from the host's arguments to its status. Where standard error is a terminal it tells how far it is, and where
/// standard input is one the shell has a prompt.
pub fn program<R: Host>(rt: &R, terminals: Terminals) -> ExitCode {
    let words = match env::args(rt) {
        Ok(words) => words.collect::<Vec<String>>(rt.alloc()),
        Err(fault) if fault.kind() == io::ErrorKind::OutOfMemory => {
            return ExitCode::from(ended(rt, &End::Memory));
        }
        Err(_) => {
            let _ = eprintln!(rt; "lab: the command line is not UTF-8");
            return ExitCode::from(ended(rt, &End::Words));
        }
    };
    let status = match words {
        Ok(words) => told(rt, words.as_slice(), terminals),
        Err(_) => ended(rt, &End::Memory),
    };
    ExitCode::from(status)
}

/// Does what the words ask for, of which the first is the program's name.
fn told<R: Host>(rt: &R, words: &[String], terminals: Terminals) -> u8 {
    let Ok(texts) = words
        .iter()
        .skip(1)
        .map(String::as_str)
        .collect::<Vec<&str>>(rt.alloc())
    else {
        return ended(rt, &End::Memory);
    };
    match read_words(rt.alloc(), texts.as_slice()) {
        Ok(asked) => done(rt, &asked, terminals),
        Err(error) => refused(rt, &error),
    }
}
