//! Why a project wasn't written.
ghost use Rattle.std.specs.Prelude.{◌≡◌};
ghost use Rattle.project_file.specs.WriteFaults.{number_of};

use std::alloc::{AllocError, AllocFailed};
use std::error::Error;
use std::fmt;

/// Why a project wasn't written.
#[derive(Clone, Copy, PartialEq, Eq, Debug)]
pub enum WriteFault {
    /// The text would have more than 4,194,304 bytes, or more than 67,108,864 where it is of format 3.
    TooLong,
    /// A growth was refused.
    Memory,
    /// The text isn't read as the project.
    Unread,
}

impl WriteFault {
    /// The number of a fault, 1 to 3, in the order above.
    pub fn number(self) -> u8
        ensures { result ≡ number_of self }
    {
        self as u8 + 1
    }
}

impl From<AllocError> for WriteFault {
    ghost use Rattle.project_file.specs.declared.write_fault.WriteFault.TheVariants.{Memory};

    ghost from_gives = { λ _ e. e ≡ Memory };

    fn from(_error: AllocError) -> WriteFault {
        WriteFault::Memory
    }
}

impl<T: Drop> From<AllocFailed<T>> for WriteFault {
    ghost use Rattle.project_file.specs.declared.write_fault.WriteFault.TheVariants.{Memory};

    ghost from_gives = { λ _ e. e ≡ Memory };

    fn from(_error: AllocFailed<T>) -> WriteFault {
        WriteFault::Memory
    }
}

impl fmt::Display for WriteFault {
    ghost use Rattle.std.specs.Prelude.{Some};
    ghost use Rattle.project_file.specs.WriteFaults.{fault_text};

    ghost output = { λ fault. Some (fault_text fault) };

    fn fmt<W: fmt::Write>(&self, f: &mut fmt::Formatter<W>) -> fmt::Result {
        f.write_str(match self {
            WriteFault::TooLong => "the file would be longer than 4,194,304 bytes",
            WriteFault::Memory => "no memory",
            WriteFault::Unread => "the file is not read as the project",
        })
    }
}

impl Error for WriteFault {}
