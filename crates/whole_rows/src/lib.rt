//! The flat row of the RP3-like machine as the whole row of a table: where many cells of a cycle are due, the table steps all of them by it.
//!
//! The crate joins `flat_row` and the trait [`cell_states::WholeRow`], for which `machine_cells` has the grid. It promises what the trait
//! asks: a row that holds the states of a cycle holds, after its step, for each cell the step of the near ones; what it says to be
//! still is as it was, and what it says not to have written has the memory that it had; and a state's words and memory are put, compared
//! and read exactly (`specs/Rows.antt`).
#![tactic(auto)]

mod memory;
mod moved;
mod row;
mod words;

pub use row::MachineRow;
