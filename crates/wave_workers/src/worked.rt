//! What comes of work.
ghost use Rattle.std.specs.Prelude.{◌≡◌};
ghost use Rattle.wave_workers.specs.Working.{unsplit};

use shared_bench::{Pass, SplitFault};

/// Why no further worker was started.
#[derive(Clone, Copy, PartialEq, Eq, Debug, Drop)]
pub enum WorkFault {
    /// The opening has made as many passes as it has seats.
    NoSeat,
    /// The system has refused a thread.
    NoThread,
    /// A growth was refused.
    Memory,
}

impl WorkFault {
    /// Why no further worker was started, where no further pass was made.
    pub(crate) fn of(fault: SplitFault) -> WorkFault
        ensures { result ≡ unsplit fault }
    {
        match fault {
            SplitFault::NoSeat => WorkFault::NoSeat,
            SplitFault::Memory => WorkFault::Memory,
        }
    }
}

/// What comes of work.
#[derive(Drop)]
pub struct Worked {
    /// The pass, with those of the workers joined into it.
    pub pass: Pass,
    /// How many results were given.
    pub given: u64,
    /// How many of them were stored.
    pub stored: u64,
    /// How many workers were started. All have ended.
    pub started: usize,
    /// Why no further worker was started, where one wasn't.
    pub fault: Option<WorkFault>,
}
