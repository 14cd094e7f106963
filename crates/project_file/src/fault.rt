//! Why a project file was refused.
ghost use Rattle.std.specs.Prelude.{◌≡◌};
ghost use Rattle.project_file.specs.declared.fault.ProjectFault.TheVariants.{Memory};
ghost use Rattle.project_file.specs.Faults.{number_of};

use grid_law::NoMemory;
use std::alloc::{AllocError, AllocFailed};
use std::error::Error;
use std::fmt;

/// Why a project file was refused. Of several faults the first is answered: TooLong, Text and Format
/// in this order, then keys of the root that aren't known, then the keys in their order.
///
/// Within a table, keys that aren't known come first, and then its keys in their order. At a key it
/// is Missing, WrongType, Entry or Range, in this order and judged over the whole value, and then
/// Twice.
#[derive(Clone, Copy, PartialEq, Eq, Debug)]
pub enum ProjectFault {
    /// The file has more than 4,194,304 bytes, or more than 67,108,864 where it is of format 3.
    TooLong,
    /// The bytes aren't UTF-8, or aren't a TOML document.
    Text,
    /// The key `format` is absent, or isn't the integer 1, 2 or 3.
    Format,
    /// A table has a key that means nothing there.
    UnknownKey,
    /// A key that has to be there isn't.
    Missing,
    /// A value is of another type than its key takes.
    WrongType,
    /// A number is outside its limits, which in format 1 are narrower for k and the horizon, a page has
    /// no such interleaving, `combine` has another count than k, or a script has more entries than the format allows.
    Range,
    /// A text in a script isn't an entry.
    Entry,
    /// A page, an address or a processor is given twice.
    Twice,
    /// A growth was refused.
    Memory,
}

impl ProjectFault {
    /// The number by which a fault is printed, 1 to 10, in the order above.
    pub fn number(self) -> u8
        ensures { result ≡ number_of self }
    {
        self as u8 + 1
    }
}

impl From<NoMemory> for ProjectFault {
    ghost from_gives = { λ _ e. e ≡ Memory };

    fn from(_error: NoMemory) -> ProjectFault {
        ProjectFault::Memory
    }
}

impl From<AllocError> for ProjectFault {
    ghost from_gives = { λ _ e. e ≡ Memory };

    fn from(_error: AllocError) -> ProjectFault {
        ProjectFault::Memory
    }
}

impl<T: Drop> From<AllocFailed<T>> for ProjectFault {
    ghost from_gives = { λ _ e. e ≡ Memory };

    fn from(_error: AllocFailed<T>) -> ProjectFault {
        ProjectFault::Memory
    }
}

impl fmt::Display for ProjectFault {
    ghost use Rattle.std.specs.Prelude.{Some};
    ghost use Rattle.project_file.specs.Faults.{fault_text};

    ghost output = { λ fault. Some (fault_text fault) };

    fn fmt<W: fmt::Write>(&self, f: &mut fmt::Formatter<W>) -> fmt::Result {
        f.write_str(match self {
            ProjectFault::TooLong => "the file is longer than 4,194,304 bytes",
            ProjectFault::Text => "the file is not a TOML document",
            ProjectFault::Format => "the key format is none of 1, 2 and 3",
            ProjectFault::UnknownKey => "a key is not known",
            ProjectFault::Missing => "a key is missing",
            ProjectFault::WrongType => "a value is of the wrong type",
            ProjectFault::Range => "a value is outside its limits",
            ProjectFault::Entry => "a text is not a script entry",
            ProjectFault::Twice => "a page, an address or a processor is given twice",
            ProjectFault::Memory => "no memory",
        })
    }
}

impl Error for ProjectFault {}
