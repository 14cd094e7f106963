//! A project with its run: edits are noted in a journal, cells are computed where an edit can reach them, and questions
//! are answered from what is up to date.
//!
//! Whatever edits, claims, returned results and questions come, in whatever order, each answer is that of simulating
//! the project as it then stands from cycle 0; a result is stored exactly where its cell stayed due since its claim;
//! and a cell is computed only where it is new or something that it read has changed. The definition `Stands` says
//! which list of events a bench has behind it. `Bench::new` stands for the empty list, and each call that changes a
//! bench leaves it standing for that list with the call's own events in front.
//!
//! It stands on `cell_table` for the cells, on `machine_cells` for what they hold, on `project_book` for projects and
//! edits, on `run_queries` for questions and their answers, and on `serial_order` for the order of the references to a
//! word.
#![tactic(auto)]

mod asked;
mod bench;
mod counters;
mod lent;
mod limits;
mod noted;
mod recent;
mod told;
mod words;

pub use asked::Asked;
pub use bench::Bench;
pub use limits::constants_are_limits;
pub use noted::Noted;
pub use told::Told;
