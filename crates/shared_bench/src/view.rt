//! What a seat knows. No value of it is ever made: the rule and the contracts speak of it.

use bench_core::{Bench, Noted};
use project_book::{Edit, Project};
use std::collections::LinkedList;
use std::snapshot::Snapshot;

/// What a table is told when it is made.
#[derive(Drop)]
pub struct Opening {
    pub seats: u32,
    pub bench: Snapshot<Bench>,
}

/// A turn: the bench that was met, and the bench that was left.
pub struct Turn {
    pub met: Bench,
    pub left: Bench,
}

/// Where a seat is in a turn.
pub enum Stage {
    /// It has no ticket.
    Idle,
    /// Its ticket isn't served yet.
    Waiting(u64),
    /// It has the slot: its ticket, and the bench that it met there.
    Serving(u64, Bench),
    /// It has the first turn, and the slot is at home, empty.
    Filling(u64, Bench),
}

/// The view of a seat.
pub struct View {
    /// It was joined into another.
    pub gone: bool,
    /// The project, the journal and the seats at the opening.
    pub project: Project,
    pub opened: LinkedList<Noted>,
    pub seats: u32,
    /// The journal, as far as it was seen.
    pub seen: LinkedList<Noted>,
    /// What another pass had seen that was joined into this one.
    pub heard: LinkedList<Noted>,
    /// The authors' numbers that it has, and the edits made under them, each with its version.
    pub numbers: LinkedList<u32>,
    pub receipts: LinkedList<(u32, Edit)>,
    /// Numbers that others had drawn before it came.
    pub others: LinkedList<u32>,
    /// The turns that it took.
    pub turns: LinkedList<Turn>,
    /// It knows that the clock is at its last value.
    pub spent: bool,
    pub stage: Stage,
    /// Tickets that no pass waits for any more.
    pub lost: u64,
}
