//! Tests of `change_rows` and `change_lists`. A crate with tests is proved twice by the gate, so they stand beside them.
//! Nothing stands on this crate.
#![tactic(auto)]

#[cfg(test)]
mod lists;
#[cfg(test)]
mod rows;
#[cfg(test)]
mod sourced;
