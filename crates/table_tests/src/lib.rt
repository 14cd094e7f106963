//! Tests of `cell_table`, over the smallest grid. A crate with tests is proved twice by the gate, so those of a crate
//! whose proofs take minutes stand beside it. Nothing stands on this crate.
#![tactic(auto)]

#[cfg(test)]
mod tables;
