//! Why there is no outcome, and how the program ends.
ghost use Rattle.std.specs.Prelude.{◌≡◌};
ghost use Rattle.clap.specs.Words.{kind_of};
ghost use Rattle.lab_tasks.specs.Ends.{end_of, status_of};

use clap::Error;
use clap::error::ErrorKind;
use experiments::Fault;
use grid_law::NoMemory;
use project_book::EditFault;
use project_file::{ProjectFault, WriteFault};
use std::alloc::{AllocError, AllocFailed};
use std::fmt;

/// What is wrong with a word.
#[derive(Clone, Copy)]
pub enum Reason {
    /// It isn't written as the option wants it.
    Form(&'static str),
    /// It has a number that isn't within these two, both allowed.
    Within(u32, u32),
    /// Its second number is less than its first.
    Backwards,
    /// The question was refused with this number.
    Refused(u8),
    /// The edit was refused with this number.
    RefusedEdit(u8),
    /// It names the file that is read, which isn't to be written over.
    Source,
    /// It names a file that is refused as a project.
    NoProject(ProjectFault),
    /// It names a project of a machine of another size than 2^k processors.
    OtherSize(u32),
}

/// Why there is no outcome. It prints as its line on standard error, without LF; `Asked` and `Words` have none, since help
/// and the reasons against a command line are `clap`'s own texts.
#[derive(Clone, Copy)]
pub enum End<'a> {
    /// Nothing is in the way, or help or the version was asked for.
    Done,
    /// The command line was refused.
    Words,
    /// The word at an option is refused.
    Word {
        option: &'static str,
        word: &'a str,
        reason: Reason,
    },
    /// The file of this name can't be read, or can't be written.
    NotRead(&'a str),
    NotWritten(&'a str),
    /// The project was refused.
    Project(ProjectFault),
    /// There was no memory.
    Memory,
    /// The bench of a sweep takes no more edits, or its clock is at its last value.
    Spent,
    /// Standard output can't be written.
    Output,
}

/// The status with which the program ends: 0 done, 2 words, 3 files, 4 project, 5 memory, a bench that takes no more edits and
/// standard output, 7 a number outside of what there is.
pub fn status(end: &End<'_>) -> u8
    ensures { result ≡ status_of end.now }
{
    match end {
        End::Done => 0,
        End::Words => 2,
        End::Word { reason, .. } => match reason {
            Reason::Form(_) | Reason::Source => 2,
            Reason::Within(_, _)
            | Reason::Backwards
            | Reason::Refused(_)
            | Reason::RefusedEdit(_)
            | Reason::OtherSize(_) => 7,
            Reason::NoProject(_) => 4,
        },
        End::NotRead(_) | End::NotWritten(_) => 3,
        End::Project(_) => 4,
        End::Memory | End::Spent | End::Output => 5,
    }
}

/// How the program ends where the words are no command line: help and the version were asked for, want of memory is no fault
/// of the words.
pub fn refusal(error: &Error) -> End<'static>
    ensures { result ≡ end_of (kind_of error.now) }
{
    match error.kind() {
        ErrorKind::DisplayHelp | ErrorKind::DisplayVersion => End::Done,
        ErrorKind::OutOfMemory => End::Memory,
        _ => End::Words,
    }
}

impl fmt::Display for Reason {
    ghost use Rattle.lab_tasks.specs.Ends.{reason_text};
    ghost use Rattle.std.specs.Prelude.{Some};

    ghost output = { λ reason. Some (reason_text reason) };

    fn fmt<W: fmt::Write>(&self, f: &mut fmt::Formatter<W>) -> fmt::Result {
        match self {
            Reason::Form(wanted) => write!(f, "is not {wanted}"),
            Reason::Within(least, most) => write!(f, "is not within {least} to {most}"),
            Reason::Backwards => write!(f, "ends before it begins"),
            Reason::Refused(number) => write!(f, "is answered bad {number}"),
            Reason::RefusedEdit(number) => write!(f, "is answered refused {number}"),
            Reason::Source => write!(f, "is the file that is read; --force writes over it"),
            Reason::NoProject(fault) => write!(f, "is refused as a project: {}", fault.number()),
            Reason::OtherSize(k) => write!(f, "is not of k {k}"),
        }
    }
}

impl fmt::Display for End<'_> {
    ghost use Rattle.lab_tasks.specs.Ends.{end_text};
    ghost use Rattle.std.specs.Prelude.{Some};

    ghost output = { λ end. Some (end_text end) };

    fn fmt<W: fmt::Write>(&self, f: &mut fmt::Formatter<W>) -> fmt::Result {
        match self {
            End::Done | End::Words => Ok(()),
            End::Word {
                option,
                word,
                reason,
            } => write!(f, "lab: {option}: {word} {reason}"),
            End::NotRead(name) => write!(f, "lab: cannot read {name}"),
            End::NotWritten(name) => write!(f, "lab: cannot write {name}"),
            End::Project(fault) => write!(f, "lab: project refused: {}", fault.number()),
            End::Memory => write!(f, "lab: no memory"),
            End::Spent => write!(f, "lab: the bench takes no more edits"),
            End::Output => write!(f, "lab: cannot write to standard output"),
        }
    }
}

impl From<AllocError> for End<'_> {
    ghost use Rattle.lab_tasks.specs.declared.end.End.TheVariants.{Memory};

    ghost from_gives = { λ _ e. e ≡ Memory };

    fn from(_fault: AllocError) -> Self {
        End::Memory
    }
}

impl<T: Drop> From<AllocFailed<T>> for End<'_> {
    ghost use Rattle.lab_tasks.specs.declared.end.End.TheVariants.{Memory};

    ghost from_gives = { λ _ e. e ≡ Memory };

    fn from(_fault: AllocFailed<T>) -> Self {
        End::Memory
    }
}

impl From<NoMemory> for End<'_> {
    ghost use Rattle.lab_tasks.specs.declared.end.End.TheVariants.{Memory};

    ghost from_gives = { λ _ e. e ≡ Memory };

    fn from(_fault: NoMemory) -> Self {
        End::Memory
    }
}

impl From<Fault> for End<'_> {
    ghost use Rattle.lab_tasks.specs.Ends.{end_for};

    ghost from_gives = { λ fault e. e ≡ end_for fault };

    fn from(fault: Fault) -> Self {
        match fault {
            Fault::Clock | Fault::Edit(EditFault::ClockSpent | EditFault::JournalFull) =>
                End::Spent,
            Fault::Memory | Fault::Query(_) | Fault::Load | Fault::Edit(_) => End::Memory,
        }
    }
}

impl From<WriteFault> for End<'_> {
    ghost use Rattle.lab_tasks.specs.declared.end.End.TheVariants.{Memory};

    ghost from_gives = { λ _ e. e ≡ Memory };

    fn from(_fault: WriteFault) -> Self {
        End::Memory
    }
}
