//! Where along a run a component reads a slot.

/// At which cycles of a run a component may read a slot, as one of its states tells.
#[derive(Clone, Copy, PartialEq, Eq, Debug, Drop)]
pub enum Turn {
    /// At none up to that state's.
    Ahead,
    /// It can't be told.
    Here,
    /// At none from that state's on.
    Passed,
}
