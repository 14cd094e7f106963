//! A session of the shell: what it is told, what it says of projects, and how it ends.
ghost use Rattle.std.specs.Prelude.{◌≡◌, ◌⊎◌, ◌++◌, ◌-◌, ◌^◌, ℕ, List, Bool, true, false, codes, IfErr, IfOk, OnOk, string_bytes};
ghost use Rattle.std.specs.List.{flat_map};
ghost use Rattle.omega_net.specs.Wires.{below};
ghost use Rattle.line_words.specs.Numbers.{number_of};
ghost use Rattle.project_book.specs.Project.{blank};
ghost use Rattle.bench_shell.specs.Cause.{HasCause};
ghost use Rattle.bench_shell.specs.Store.{store_of};
ghost use Rattle.line_words.specs.Words.{words_of};
ghost use Rattle.lab_shell.specs.Talks.{Talked, TalksPlainly};
ghost use Rattle.lab_shell.specs.Words.{first_word};
ghost use Rattle.lab_tasks.specs.Shells.{entry_line, entry_words, script_answer, script_said, status_of_session, voice_of, Gives, IsEndAfter, IsNotOpened, IsOpened, IsSaid, IsSaved};
ghost use Rattle.lab_tasks.specs.ShellReports.{IsText};
ghost use Rattle.lab_tasks.specs.Summaries.{IsSummary};
ghost use Rattle.lab_tasks.specs.Words.{text_of};

use crate::check::summary;
use crate::convert::convert_file;
use crate::end::End;
use crate::outcome::OutFile;
use crate::shell_report::{reported, series_reported};
use crate::task::project_in;
use bench_core::Bench;
use bench_shell::{Answer, RunFault, Sink};
use lab_shell::{Clerk, Ended, Manner, Said, ShellWord, Voice, first_word, talk};
use line_words::number;
use omega_net::ScriptEntry;
use project_book::{EntryText, Project};
use std::alloc::{AllocError, Global};
use std::fmt::Write;
use std::io::BufRead;
use std::thread::Threads;

/// What `shell` is told.
#[derive(Clone, Copy)]
pub struct ShellWords<'a> {
    /// None for the built-in project.
    pub file: Option<&'a str>,
    /// The first refusal ends the session.
    pub strict: bool,
    /// Each line is answered by one object of JSON.
    pub json: bool,
}

/// Where files are written by name.
pub trait Shelf {
    ghost use Rattle.std.specs.Prelude.{ℕ, List, Bool, string_bytes};

    /// What writing a file of this name and these bytes may come to: whether it was written.
    ghost saves: { Self → List ℕ → List ℕ → Bool → Type 0 };

    /// Writes a file whole, or doesn't: whether it did.
    fn save(&self, file: &OutFile) -> bool
        ensures { saves self.now (string_bytes file.now.name) file.now.bytes.items result };
}

/// Who answers the requests of a session, with a shelf for files.
#[derive(Drop)]
pub struct ShellClerk<'a, S> {
    pub shelf: &'a S,
}

/// Adds the words of an entry.
fn add_words(text: &mut String, entry: Option<ScriptEntry>) -> Result<(), AllocError>
    ensures { OnOk result (string_bytes text.new ≡ string_bytes text.old ++ entry_words entry) }
{
    match entry {
        Some(entry) => {
            let entry = EntryText(entry);
            write!(text, "{entry}")
        }
        None => Ok(()),
    }
}

/// Adds the edit that makes an entry.
fn add_entry(text: &mut String, project: &Project, proc: u32, index: u32) -> Result<(), AllocError>
    ensures { OnOk result (string_bytes text.new ≡ string_bytes text.old ++ entry_line project.now proc index) }
{
    write!(text, "entry {proc} {index} ")?;
    add_words(text, project.entry(proc, index))?;
    text.push_str("\n")
}

/// Adds the edits that make a script.
#[tactic(auto, using(crate::proofs::Listing::flat_next))]
fn add_script(text: &mut String, project: &Project, proc: u32) -> Result<(), AllocError>
    ensures { OnOk result (string_bytes text.new ≡ string_bytes text.old ++ script_said project.now proc) }
{
    for index in 0..project.length(proc) {
        add_entry(text, project, proc, index)?;
    }
    Ok(())
}

/// What is said to `script P`.
fn scripted(alloc: Global, project: &Project, argument: &[u8]) -> Result<Said, AllocError>
    ensures { IfOk result (λ said. Gives (script_answer project.now (number_of argument.now)) said) }
{
    let Some(proc) = number(argument) else {
        return Ok(Said::Refused(Answer::BadCommand));
    };
    if proc >= project.processors() {
        return Ok(Said::Refused(Answer::Bad(1)));
    }
    let mut text = String::new(alloc);
    add_script(&mut text, project, proc)?;
    Ok(Said::Text(text))
}

/// That a file of this name was written.
fn saved(alloc: Global, name: &str) -> Result<Said, AllocError>
    ensures { IfOk result (λ said. IsText (λ text. text ≡ codes "saved " ++ (name.now ++ codes "\n")) said) }
{
    let mut text = String::new(alloc);
    text.push_str("saved ")?;
    text.push_str(name)?;
    text.push_str("\n")?;
    Ok(Said::Text(text))
}

/// Saves a project as a file of this name.
fn kept<S: Shelf>(
    alloc: Global,
    shelf: &S,
    project: &Project,
    name: &str,
) -> Result<Said, AllocError>
    ensures { IfOk result (λ said. IsSaved (S.saves shelf.now) project.now name.now said) }
{
    let mut file = OutFile {
        name: String::new(alloc),
        bytes: match convert_file(alloc, project) {
            Ok(bytes) => bytes,
            Err(_) => return Err(AllocError),
        },
    };
    file.name.push_str(name)?;
    if shelf.save(&file) {
        saved(alloc, name)
    } else {
        Ok(Said::Unsaved)
    }
}

/// What is said to `save F`.
fn saving<S: Shelf>(
    alloc: Global,
    shelf: &S,
    project: &Project,
    argument: &[u8],
) -> Result<Said, AllocError>
    ensures { IfOk result (λ said. IsSaved (S.saves shelf.now) project.now argument.now said) }
{
    match str::from_utf8(argument) {
        Ok(name) => kept(alloc, shelf, project, name),
        Err(_) => Ok(Said::Unsaved),
    }
}

/// What is said to `show`.
fn shown(alloc: Global, project: &Project) -> Result<Said, AllocError>
    ensures { IfOk result (λ said. IsText (IsSummary project.now) said) }
{
    let text = summary(alloc, project)?;
    Ok(Said::Text(text))
}

impl<S: Shelf> Clerk for ShellClerk<'_, S> {
    ghost use Rattle.lab_tasks.specs.Shells.{IsSaid};

    ghost says = { λ clerk. IsSaid (S.saves clerk.shelf.now) };

    fn say(
        &self,
        alloc: Global,
        project: &Project,
        word: ShellWord,
        argument: &[u8],
    ) -> Result<Said, AllocError> {
        match word {
            ShellWord::Show => shown(alloc, project),
            ShellWord::Script => scripted(alloc, project, first_word(argument)),
            ShellWord::Save => saving(alloc, self.shelf, project, first_word(argument)),
            ShellWord::Latency => reported(alloc, "latency", argument, project),
            ShellWord::Done => reported(alloc, "done", argument, project),
            ShellWord::Trace => reported(alloc, "trace", argument, project),
            ShellWord::Full => reported(alloc, "full", argument, project),
            ShellWord::Busy => reported(alloc, "busy", argument, project),
            ShellWord::Series => series_reported(alloc, argument, project),
            ShellWord::OrderAll => reported(alloc, "order", b"".as_slice(), project),
            ShellWord::Quit | ShellWord::Help | ShellWord::HelpOn | ShellWord::Undo => {
                Ok(Said::Unsaved)
            }
        }
    }
}

/// For whom a session answers, which is asked for JSON or not, where standard input is a terminal or not.
pub fn session_voice(json: bool, at_terminal: bool) -> Voice
    ensures { result ≡ voice_of json at_terminal }
{
    if json {
        Voice::Json
    } else if at_terminal {
        Voice::People
    } else {
        Voice::Plain
    }
}

/// The status of a session that ended so: 1 where a line was refused in a strict one, else 0.
pub fn session_status(ended: Ended) -> u8
    ensures { result ≡ status_of_session ended }
{
    match ended {
        Ended::Input | Ended::Quit => 0,
        Ended::Refused => 1,
    }
}

/// How the program ends after a fault of a session.
pub(crate) fn end_after(fault: RunFault) -> End<'static>
    ensures { IsEndAfter fault result }
{
    match fault {
        RunFault::Read => End::NotRead("standard input"),
        RunFault::Write => End::Output,
        RunFault::Memory => End::Memory,
        RunFault::Clock | RunFault::OtherEditor => End::Spent,
    }
}

/// Holds a session over a bench, which saves to the shelf: the program's status.
///
/// # Errors
///
/// The fault that ended it. The lines that were answered before stand as they were obeyed.
pub fn hold<T: Threads + Sync, S: Shelf, R: BufRead, W: Sink>(
    rt: &T,
    alloc: Global,
    manner: Manner,
    shelf: &S,
    reader: &mut R,
    writer: &mut W,
    bench: &mut Bench,
) -> Result<u8, RunFault>
    ensures talks { IfOk result (λ status. (how : Ended) × (status ≡ status_of_session how)
        × Talked (IsSaid (S.saves shelf.now)) manner (R.remaining reader.old) (R.remaining reader.new)
        (W.contents writer.old) (W.contents writer.new) (store_of bench.old) (store_of bench.new) how) }
    ensures plain { manner.voice ≡ Voice.Plain → OnOk result (TalksPlainly (R.remaining reader.old) (R.remaining reader.new)
        (W.contents writer.old) (W.contents writer.new) (store_of bench.old) (store_of bench.new)) }
    ensures cause { HasCause result (Unit {0}) (W.has_failed writer.new ≡ true) ⊥ (Unit {0}) (bench.new.table.clock ≡ 2 ^ 64 - 1) }
    ensures same_writer { W.lender writer.new ≡ W.lender writer.old }
{
    let clerk = ShellClerk { shelf };
    match talk(rt, alloc, manner, &clerk, reader, writer, bench) {
        Ok(how) => Ok(session_status(how)),
        Err(fault) => Err(fault),
    }
}

/// The built-in project.
fn built_in<'a>(alloc: Global) -> Result<Project, End<'a>>
    ensures built { IfOk result (λ P. P ≡ blank 0 8) }
    ensures memory { IfErr result (λ e. e ≡ End.Memory) }
{
    match Project::built_in(alloc) {
        Ok(project) => Ok(project),
        Err(_) => Err(End::Memory),
    }
}

/// The project of a session: that of its file, which has these bytes, or without a file the built-in one.
pub(crate) fn opened<'a>(
    alloc: Global,
    file: Option<&str>,
    bytes: &[u8],
) -> Result<Project, End<'a>>
    ensures opened { IfOk result (IsOpened (text_of file.entry) bytes.now) }
    ensures refused { IfErr result (IsNotOpened (text_of file.entry) bytes.now) }
{
    match file {
        Some(_) => project_in(alloc, bytes),
        None => built_in(alloc),
    }
}
