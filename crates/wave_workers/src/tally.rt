//! How many results were given and stored.
ghost use Rattle.std.specs.Prelude.{◌≡◌, ◌≤◌};
ghost use Rattle.wave_workers.specs.Working.{came_for, came_for_slice, counted, does_nothing, given_by, stored_by};

use cell_table::{Done, Given, SettleFault};
use machine_cells::Rp3;

/// What a turn came to.
#[derive(Clone, Copy)]
pub enum Came {
    /// No cell was due.
    Idle,
    /// A slice met a fault.
    Failed,
    /// The result was given, and refused since the clock is spent.
    Spent,
    /// The result was given, and refused for another reason.
    Refused,
    /// The result was stored.
    Stored,
    /// A slice was settled, and more may be due.
    Settled,
}

impl Came {
    /// What a turn came to whose result was answered so.
    pub fn of(given: Given<Done<Rp3>>) -> Came
        ensures came { result ≡ came_for given }
        ensures not_idle { result ≡ Came.Idle → ⊥ }
    {
        match given {
            Given::Stored { .. } => Came::Stored,
            Given::ClockSpent(_) => Came::Spent,
            Given::Gone | Given::NotDue | Given::Overtaken | Given::Foreign | Given::Memory(_) =>
                Came::Refused,
        }
    }

    /// What a turn came to in which a slice was settled so.
    pub fn of_slice(settled: Result<Option<u32>, SettleFault>) -> Came
        ensures { result ≡ came_for_slice settled }
    {
        match settled {
            Ok(Some(_)) => Came::Settled,
            Ok(None) => Came::Idle,
            Err(_) => Came::Failed,
        }
    }

    /// Whether the worker waits for an edit: no cell was due, or the next turn would meet the same fault.
    pub fn is_for_nothing(self) -> bool
        ensures { result ≡ does_nothing self }
    {
        match self {
            Came::Idle | Came::Failed | Came::Spent => true,
            Came::Refused | Came::Stored | Came::Settled => false,
        }
    }
}

/// How many results were given, and how many of them stored. Both stop at their greatest value.
#[derive(Clone, Copy)]
pub struct Tally {
    pub given: u64,
    pub stored: u64,
    pub ghost fewer: { stored ≤ given },
}

impl Tally {
    pub fn new() -> Tally
        ensures given { result.given ≡ 0 }
        ensures stored { result.stored ≡ 0 }
    {
        Tally {
            given: 0,
            stored: 0,
        }
    }

    /// With what a turn came to.
    pub fn after(self, came: Came) -> Tally
        ensures given { result.given ≡ counted self.given (given_by came) }
        ensures stored { result.stored ≡ counted self.stored (stored_by came) }
    {
        match came {
            Came::Idle | Came::Failed | Came::Settled => self,
            Came::Spent | Came::Refused => Tally {
                given: self.given.saturating_add(1),
                stored: self.stored,
            },
            Came::Stored => Tally {
                given: self.given.saturating_add(1),
                stored: self.stored.saturating_add(1),
            },
        }
    }

    /// Both together.
    pub fn and(self, other: Tally) -> Tally
        ensures given { result.given ≡ counted self.given other.given }
        ensures stored { result.stored ≡ counted self.stored other.stored }
    {
        Tally {
            given: self.given.saturating_add(other.given),
            stored: self.stored.saturating_add(other.stored),
        }
    }
}
