//! The cells of a simulated run, kept up to date as the project is edited.
//!
//! A cell is one component of a grid at one cycle from 0 to the horizon. A `Table` keeps for each
//! cell its state and whether it is due. After an edit, `touch` makes due the cells that read what
//! was edited and those that are new; a store of another state makes due the cells one cycle later
//! that read it. So a cell is computed only if it is new or something that it read has changed.
//!
//! Due cells are computed in one of two ways. `settle` computes them all, by cycle and then
//! component, `settle_to` those up to a cycle, and `settle_rows` tells a `Watcher` of each. Or they are claimed, computed
//! elsewhere, and given back:
//!
//! ```text
//! while let Some(claim) = table.claim(from)? {
//!     match claim.compute() {
//!         Ok(done) => match table.give(done) {
//!             Given::Stored { changed } => ..
//!             _ => ..
//!         },
//!         Err(claim) => .. // want of memory: it may be computed later
//!     }
//! }
//! ```
//!
//! Claims may be dropped, given back late, or stand twice for one cell, while others are given back
//! and the project is edited. `shared` puts a state together for an owner, who keeps it while the table
//! goes on; no state is lent.
//!
//! # What is promised
//!
//! The promises are over every list of events: edits, claims and stores, in any order
//! (`specs/Events.antt`). From the list alone follow each cell's value (`val`), whether it is `due`,
//! which events change it, and whether a claim was `overtaken`. A table stands for the list of what
//! happened to it (`Stands`), and every call keeps it so.
//!
//! - Every cell that isn't due holds its start, or the step of the present slots and near states
//!   (`Table::consistent`); where none is due, the cells hold the run (`Table::settled`).
//! - `claim` hands out the first claimable cell at or after a given one, and none exactly where no
//!   cell is due; `Claim::compute` gives the start or the step of what the claim holds.
//! - `give` stores the result of a claim exactly where the claim wasn't overtaken: since then no
//!   event changed its cell, stored it or removed it. It comes back where its state is another one
//!   and the clock is at its last value (`ClockSpent`) or a growth was refused (`Memory`). A result
//!   of another table is stored only where its cell is due and what it read is present.
//! - `settle` stores exactly the cells that cost (`specs/Cost.antt`), each once and in order; `settle_to` those of them up to a
//!   cycle, and then these cells hold the run.
//!
//! # How it is kept
//!
//! Callers see a list of rows, one for each cycle. Inside, the states are words and memories (`cell_states`), and beside them stand marks of
//! the due cells and their versions (`due_cells`). No state is kept itself: `shared` puts one together. So an edit asks a reader of a slot
//! once for each stretch of cells at which nothing begins, or not at all where it is sure to read it; a cell at whose near cells nothing
//! begins gets the state of the cell before it without a step; and where nothing is due, one number tells it. A cycle of which many cells
//! are due is settled at once by a row of all components, and so are cycles in which the same happens as in the one before, since each due
//! cell gets the state of the cell before it.
//!
//! The crate stands on `grid_law` for grids and their laws, on `due_cells` and `cell_states` for the cells, and on `cell_marks` for sets of
//! components.
#![tactic(auto)]

mod claim;
mod given;
mod table;
mod watcher;
mod work;

pub use cell_states::{Cell, CellRange, WholeRow};
pub use claim::{Claim, Done};
pub use due_cells::Beside;
pub use given::{Given, SettleFault, Settled, StoreFault, TouchFault};
pub use table::Table;
pub use watcher::Watcher;
pub use work::Work;
