//! What a table answers.

/// What became of a result that was given back.
#[derive(Drop)]
pub enum Given<D> {
    /// There is no such cell now.
    Gone,
    /// The cell isn't due.
    NotDue,
    /// The cell is due with another version: since the claim, something that it reads has changed,
    /// or it was removed and is new.
    Overtaken,
    /// The near states, or the slots read, that it was computed from aren't the present ones.
    Foreign,
    /// The state is another one, and the clock is at its last value. The result comes back.
    ClockSpent(D),
    /// The state is another one, and a growth was refused. The result comes back, and may be given
    /// again.
    Memory(D),
    /// The state was stored; `changed` where the cell held no state or another one.
    Stored { changed: bool },
}

/// Why an edit was refused.
#[derive(Clone, Copy, Debug, PartialEq, Eq)]
pub enum TouchFault {
    /// The clock is at its last value.
    ClockSpent,
    /// A growth was refused.
    Memory,
}

/// Why a due cell wasn't settled.
#[derive(Clone, Copy, Debug, PartialEq, Eq)]
pub enum StoreFault {
    /// The state is another one, and the clock is at its last value.
    ClockSpent,
    /// A growth was refused.
    Memory,
}

/// The table was settled.
#[derive(Clone, Copy, Debug, PartialEq, Eq)]
pub struct Settled {
    /// How many cells were computed and stored.
    pub computed: u64,
}

/// The table was settled in part: the cells computed stay stored, and the rest stays due.
#[derive(Clone, Copy, Debug, PartialEq, Eq)]
pub enum SettleFault {
    /// The next cell's state is another one, and the clock is at its last value.
    ClockSpent { computed: u64 },
    /// A growth was refused.
    Memory { computed: u64 },
}
