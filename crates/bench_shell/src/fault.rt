//! Why a run ended before its input.
use std::error::Error;
use std::fmt;

/// Why a run ended before its input did. The edits that were accepted stand, and so do the cells that were stored.
#[derive(Clone, Copy, PartialEq, Eq, Debug)]
pub enum RunFault {
    /// The reader failed, or no read was left.
    Read,
    /// The writer failed, or took nothing.
    Write,
    /// Somebody else has edited the project.
    OtherEditor,
    /// A growth was refused.
    Memory,
    /// The clock of the bench is at its last value.
    Clock,
}

impl fmt::Display for RunFault {
    ghost use Rattle.std.specs.Prelude.{Some};
    ghost use Rattle.bench_shell.specs.Cause.{fault_text};

    ghost output = { λ f. Some (fault_text f) };

    fn fmt<W: fmt::Write>(&self, f: &mut fmt::Formatter<W>) -> fmt::Result {
        match self {
            RunFault::Read => write!(f, "read failed"),
            RunFault::Write => write!(f, "write failed"),
            RunFault::OtherEditor => write!(f, "other editor"),
            RunFault::Memory => write!(f, "no memory"),
            RunFault::Clock => write!(f, "clock spent"),
        }
    }
}

impl Error for RunFault {}
