//! Rows of small numbers.
ghost use Rattle.std.specs.Prelude.{◌≡◌};

use std::marker::Model;

/// Small numbers, one for each cycle of a window. Contracts see the list.
#[derive(Drop)]
pub struct Series {
    numbers: Vec<u8>,
}

impl Model for Series {
    ghost use Rattle.std.specs.Prelude.{ℕ, List};

    ghost Value = { List ℕ };

    ghost view = { λ s. s.numbers.items };
}

impl Series {
    /// The numbers of this list. It takes no memory.
    pub fn from_vec(numbers: Vec<u8>) -> Series
        ensures { result ≡ numbers.items }
    {
        Series { numbers }
    }

    pub fn as_slice(&self) -> &[u8]
        ensures { result.now ≡ self.now }
    {
        &self.numbers
    }
}

/// A queue by its line, with its length at each cycle of a window.
#[derive(Drop)]
pub struct QueueLengths {
    pub line: u32,
    pub lengths: Series,
}

/// Several such queues. Contracts see the list.
#[derive(Drop)]
pub struct Queues {
    queues: Vec<QueueLengths>,
}

impl Model for Queues {
    ghost use Rattle.std.specs.Prelude.{List};
    ghost use Rattle.experiments.specs.declared.series.QueueLengths.{QueueLengths};

    ghost Value = { List QueueLengths };

    ghost view = { λ q. q.queues.items };
}

impl Queues {
    /// The queues of this list. It takes no memory.
    pub fn from_vec(queues: Vec<QueueLengths>) -> Queues
        ensures { result ≡ queues.items }
    {
        Queues { queues }
    }

    pub fn as_slice(&self) -> &[QueueLengths]
        ensures { result.now ≡ self.now }
    {
        &self.queues
    }
}
