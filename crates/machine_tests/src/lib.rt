//! Tests of `omega_net`, `machine_cells`, `state_words`, `flat_row`, `whole_rows`, `monitor_sums` and `saturation`: wires, cells, words and rows of
//! the machine, and what is counted and reported of them. A crate with tests is proved twice by the gate, so those of a crate whose proofs take minutes stand
//! beside it. Nothing stands on this crate.
#![tactic(auto)]

#[cfg(test)]
mod cells;
#[cfg(test)]
mod drawn;
#[cfg(test)]
mod row_words;
#[cfg(test)]
mod rows;
#[cfg(test)]
mod sums;
#[cfg(test)]
mod trees;
#[cfg(test)]
mod whole;
#[cfg(test)]
mod wires;
#[cfg(test)]
mod words;
