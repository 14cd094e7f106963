//! The words of a table's cells over time, kept as rows of changes.
//!
//! `Rows` has for each cycle a row, and a row has for each component a list of words; the empty list stands for nothing yet.
//! Kept is what begins: a row has the words of those components at which other words begin than a cycle before, one
//! cell's after another's, and all others go on. For 64 components each a word a row marks which begin, so the last
//! change of a cell is found by a walk back over one piece of memory.
//!
//! A draft, `Cells`, is put as a row at once: its cells hold its words, and all other cells of all rows hold what they
//! held. So what stood in the row behind has to begin there. That seam is held beside the rows until another row than
//! that one is put; a pass that puts row after row writes each once. A row is put from a `Source` too, who has the words
//! of cells in a form of its own; the call tells which cells held others. All buffers are made before anything changes, so
//! after an error all cells hold what they held.
//!
//! The crate knows of no machine: what words mean is the caller's. It stands on `std` alone.
#![tactic(auto)]

mod cells;
mod changes;
mod edit;
mod fill;
mod grow;
mod head;
mod kinds;
mod marks;
mod merge;
mod notes;
mod rows;
mod run;
mod sets;
mod source;
mod sourced;

pub use cells::Cells;
pub use rows::Rows;
pub use source::Source;
