//! Running counters over the cells of a run.
//!
//! A cell is one component at one cycle. [`Sums`] stands for a map from cells to states, in which
//! some cells hold none, and it follows that map one cell at a time. For each component, and for all
//! of them together, it gives what each [`Counter`] counts, as references issued and requests served,
//! over all cycles or over a window of them; and for each stage of each network how long its output
//! queues were, cycle by cycle.
//!
//! The crate stands on `machine_cells`, whose states it counts, and on the components and wires
//! below it. It promises that each sum is that of what the map's states count
//! (`specs/Sums.antt`), after any changes in any order.
#![tactic(auto)]

mod counted;
mod counter;
mod counts;
mod profile;
mod sums;

pub use counter::Counter;
pub use sums::Sums;
