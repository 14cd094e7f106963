//! Why an edit was refused.
ghost use Rattle.std.specs.Prelude.{◌≡◌};
ghost use Rattle.project_book.specs.declared.fault.EditFault.TheVariants.{Memory};
ghost use Rattle.project_book.specs.Faults.{number_of};

use grid_law::NoMemory;
use std::error::Error;
use std::fmt;

/// Why an edit was refused. The faults stand in the order in which they are looked for: of several
/// that apply, the first is answered.
#[derive(Clone, Copy, PartialEq, Eq, Debug)]
pub enum EditFault {
    /// The journal holds 65,535 edits. Only a bench answers this.
    JournalFull,
    /// The processor isn't below 2^k.
    BadProcessor,
    /// The index, or the length of a cut, is above the script's length.
    BadEntry,
    /// An entry would be appended to a script that has as many as its project's scale allows.
    ScriptFull,
    /// The address isn't below 16,384.
    BadAddress,
    /// The page isn't below 64.
    BadPage,
    /// The amount is above k, or the base isn't below 2^k or no multiple of 2^amount.
    BadInterleave,
    /// The stage isn't below k.
    BadStage,
    /// The depth isn't within 2 to 16: 4 to 16 for the reverse queues of combining switches, 1 to 16
    /// for wait buffers.
    BadDepth,
    /// The window isn't within 1 to 8.
    BadWindow,
    /// The times of a reference, or the turns of an idle, aren't within 1 to 1,000.
    BadTimes,
    /// The horizon is above the last that its project's scale allows.
    BadHorizon,
    /// The clock is at its last value. Only a bench answers this.
    ClockSpent,
    /// A growth was refused.
    Memory,
}

impl EditFault {
    /// The number by which a fault is printed, 1 to 14, in the order above.
    pub fn number(self) -> u8
        ensures { result ≡ number_of self }
    {
        self as u8 + 1
    }
}

impl From<NoMemory> for EditFault {
    ghost from_gives = { λ _ e. e ≡ Memory };

    fn from(_error: NoMemory) -> EditFault {
        EditFault::Memory
    }
}

impl fmt::Display for EditFault {
    ghost use Rattle.std.specs.Prelude.{Some};
    ghost use Rattle.project_book.specs.Faults.{fault_text};

    ghost output = { λ fault. Some (fault_text fault) };

    fn fmt<W: fmt::Write>(&self, f: &mut fmt::Formatter<W>) -> fmt::Result {
        f.write_str(match self {
            EditFault::JournalFull => "the journal is full",
            EditFault::BadProcessor => "no such processor",
            EditFault::BadEntry => "no such entry",
            EditFault::ScriptFull => "the script is full",
            EditFault::BadAddress => "no such address",
            EditFault::BadPage => "no such page",
            EditFault::BadInterleave => "no such interleaving",
            EditFault::BadStage => "no such stage",
            EditFault::BadDepth => "no such depth",
            EditFault::BadWindow => "no such window",
            EditFault::BadTimes => "no such number of times",
            EditFault::BadHorizon => "no such horizon",
            EditFault::ClockSpent => "the clock is spent",
            EditFault::Memory => "no memory",
        })
    }
}

impl Error for EditFault {}
