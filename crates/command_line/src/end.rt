//! How the program ends.
ghost use Rattle.std.specs.Prelude.{◌≡◌};
ghost use Rattle.clap.specs.Words.{kind_of};
ghost use Rattle.command_line.specs.Ends.{status_of, end_of};

use bench_shell::RunFault;
use clap::Error;
use clap::error::ErrorKind;
use project_file::ProjectFault;
use std::fmt;

/// How the program ends. It prints as its line on standard error, without LF; `Ended` and `Words` have none, since help,
/// the version and the reasons against a command line are `clap`'s own texts.
#[derive(Clone, Copy, PartialEq, Eq, Debug)]
pub enum End<'a> {
    /// The run ended, or help or the version was asked for.
    Ended,
    /// The command line was refused.
    Words,
    /// FILE, by the name that was given, can't be read.
    NoFile(&'a str),
    /// The project was refused.
    Project(ProjectFault),
    /// The run met a fault.
    Served(RunFault),
    /// There was no memory or no thread at the start.
    CannotStart,
}

/// The status with which the program ends: 0 ended, 2 command line, 3 FILE, 4 project, 5 fault of the run, 6 start.
pub fn status(end: &End<'_>) -> u8
    ensures { result ≡ status_of end.now }
{
    match end {
        End::Ended => 0,
        End::Words => 2,
        End::NoFile(_) => 3,
        End::Project(_) => 4,
        End::Served(_) => 5,
        End::CannotStart => 6,
    }
}

/// How the program ends where `arguments` answered no command line: help and the version were asked for, want of memory
/// is no fault of the words.
pub fn refusal(error: &Error) -> End<'static>
    ensures { result ≡ end_of (kind_of error.now) }
{
    match error.kind() {
        ErrorKind::DisplayHelp | ErrorKind::DisplayVersion => End::Ended,
        ErrorKind::OutOfMemory => End::CannotStart,
        _ => End::Words,
    }
}

impl fmt::Display for End<'_> {
    ghost use Rattle.command_line.specs.Ends.{end_text};

    ghost output = { end_text };

    fn fmt<W: fmt::Write>(&self, f: &mut fmt::Formatter<W>) -> fmt::Result {
        match self {
            End::Ended | End::Words => Ok(()),
            End::NoFile(name) => write!(f, "hotspot: cannot read {name}"),
            End::Project(fault) => write!(f, "hotspot: project refused: {}", fault.number()),
            End::Served(fault) => write!(f, "hotspot: {fault}"),
            End::CannotStart => write!(f, "hotspot: cannot start"),
        }
    }
}
