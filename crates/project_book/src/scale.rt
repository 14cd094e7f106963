//! How large a project may be.
ghost use Rattle.std.specs.Prelude.{◌≡◌, ◌≤◌};
ghost use Rattle.project_book.specs.Limits.{max_horizon, script_entries};
ghost use Rattle.project_book.specs.Scales.{most_horizon, most_entries};

use crate::limits::{MAX_HORIZON, SCRIPT_ENTRIES, USUAL_ENTRIES, USUAL_HORIZON};

/// How large a project may be: how long its run, and how long its scripts. No edit changes it.
#[derive(Clone, Copy, PartialEq, Eq, Debug)]
pub enum Scale {
    /// Horizons up to 2,000, and scripts of up to 256 entries.
    Usual,
    /// Horizons up to 20,000, and scripts of up to 4,096 entries.
    Large,
}

impl Scale {
    /// The last cycle that a horizon may name: 2,000 or 20,000.
    pub fn most_horizon(self) -> u32
        ensures value { result ≡ most_horizon self }
        ensures within { result ≤ max_horizon }
    {
        match self {
            Scale::Usual => USUAL_HORIZON,
            Scale::Large => MAX_HORIZON,
        }
    }

    /// How many entries a script may have: 256 or 4,096.
    pub fn most_entries(self) -> u32
        ensures value { result ≡ most_entries self }
        ensures within { result ≤ script_entries }
    {
        match self {
            Scale::Usual => USUAL_ENTRIES,
            Scale::Large => SCRIPT_ENTRIES,
        }
    }
}
