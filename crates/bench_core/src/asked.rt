//! What a bench answers at once.

use run_queries::Body;

/// What a bench answers without computing anything.
#[derive(Drop)]
pub enum Asked {
    /// The answer for the project as it stands; the version is the number of accepted edits.
    Answer { version: u32, body: Body },
    /// So many due cells come before the answer, one at least.
    Pending(u64),
    /// The query has no answer: 1 no such component, network stage, processor or module, 2 a cycle past the horizon, 3 no
    /// such address, 4 no such issue number, 5 an empty window, 6 no such fraction.
    BadQuery(u8),
    /// A growth was refused, and the query's numbers are no reason against it.
    Memory,
}
