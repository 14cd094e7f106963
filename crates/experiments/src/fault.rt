//! Why an experiment has no figure.
ghost use Rattle.std.specs.Prelude.{◌≡◌};

use grid_law::NoMemory;
use project_book::EditFault;
use std::alloc::{AllocError, AllocFailed};

/// Why an experiment has no figure.
#[derive(Clone, Copy, PartialEq, Eq, Debug)]
pub enum Fault {
    /// A growth was refused.
    Memory,
    /// The bench's clock is at its last value.
    Clock,
    /// The query has no answer, by the number of its reason.
    Query(u8),
    /// There is no machine of the load's k, or its cycles are past the last horizon.
    Load,
    /// The edit was refused.
    Edit(EditFault),
}

impl From<NoMemory> for Fault {
    ghost use Rattle.experiments.specs.declared.fault.Fault.TheVariants.{Memory};

    ghost from_gives = { λ _ fault. fault ≡ Memory };

    fn from(_fault: NoMemory) -> Fault {
        Fault::Memory
    }
}

impl From<AllocError> for Fault {
    ghost use Rattle.experiments.specs.declared.fault.Fault.TheVariants.{Memory};

    ghost from_gives = { λ _ fault. fault ≡ Memory };

    fn from(_fault: AllocError) -> Fault {
        Fault::Memory
    }
}

impl<T: Drop> From<AllocFailed<T>> for Fault {
    ghost use Rattle.experiments.specs.declared.fault.Fault.TheVariants.{Memory};

    ghost from_gives = { λ _ fault. fault ≡ Memory };

    fn from(_fault: AllocFailed<T>) -> Fault {
        Fault::Memory
    }
}
