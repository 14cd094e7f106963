//! Tests of `lab_shell`: sessions with words of the shell, for people and not, and strict ones. A crate with tests is proved
//! twice by the gate, so they stand beside it. Nothing stands on this crate.
#![tactic(auto)]

#[cfg(test)]
mod talks;
