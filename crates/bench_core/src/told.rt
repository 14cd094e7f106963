//! What is answered once the cells were computed.

use run_queries::Body;

/// What a query is answered where the due cells are computed first.
#[derive(Drop)]
pub enum Told {
    /// The answer for the project as it stands; the version is the number of accepted edits.
    Answer { version: u32, body: Body },
    /// The query has no answer: 1 no such component, network stage, processor or module, 2 a cycle past the horizon, 3 no
    /// such address, 4 no such issue number, 5 an empty window, 6 no such fraction.
    BadQuery(u8),
    /// A cell's state is another one, and the clock is at its last value; the query's numbers are no reason against it.
    ClockSpent,
    /// A growth was refused, and the query's numbers are no reason against it.
    Memory,
}
