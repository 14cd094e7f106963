//! What is said of sessions, and the status with which the program ends.
ghost use Rattle.std.specs.Prelude.{◌≡◌};
ghost use Rattle.example_runs.specs.Verdicts.{status_after};

use std::fmt;

/// What is said of a session.
#[derive(Clone, Copy, PartialEq, Eq, Debug)]
pub enum Verdict {
    /// The answers are the expected ones.
    AsExpected,
    /// They are others.
    Differs,
    /// A file can't be read.
    NotRead,
    /// The run met a fault.
    NotRun,
}

impl fmt::Display for Verdict {
    fn fmt<W: fmt::Write>(&self, f: &mut fmt::Formatter<W>) -> fmt::Result {
        match self {
            Verdict::AsExpected => write!(f, "as expected"),
            Verdict::Differs => write!(f, "differs"),
            Verdict::NotRead => write!(f, "can't be read"),
            Verdict::NotRun => write!(f, "can't be run"),
        }
    }
}

/// The status with which the program ends: that of the sessions before where this one is as expected, and else 1.
pub fn status_after(status: u8, verdict: Verdict) -> u8
    ensures { result ≡ status_after status verdict }
{
    match verdict {
        Verdict::AsExpected => status,
        Verdict::Differs | Verdict::NotRead | Verdict::NotRun => 1,
    }
}
