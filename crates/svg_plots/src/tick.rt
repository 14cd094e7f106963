//! Numbers along an axis.

/// A place of an axis that has a number.
#[derive(Clone, Copy, PartialEq, Eq, Debug)]
pub struct Tick {
    pub value: u32,
    /// What is written there.
    pub number: u32,
}
