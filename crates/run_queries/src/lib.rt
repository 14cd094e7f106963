//! Questions about the run of a project, and what they are answered.
//!
//! A query asks for a reply, for a component's state or a word of memory at a cycle, for a counter, a profile or a
//! report of tree saturation, for a bound, for the place of an address, or for the serial order of the references to a
//! word. What it is answered is a look-up, a sum or a report over the run of the project, simulated from cycle 0: the
//! definition `answer`. The functions here say which
//! queries a project has no answer to and which cells an answer looks at, and read single states; whoever holds a run answers by them.
//!
//! It stands on `machine_cells` for the run and its states, on `project_book` for projects, on `monitor_sums` for
//! counters, on `saturation` for reports, and on `serial_order` for orders.
#![tactic(auto)]

mod body;
mod query;
mod spaced;
mod states;

pub use body::{Body, Received, SharedState};
pub use query::{NumberName, Query, Reach};
pub use states::{has_sent, word_got, word_in};
