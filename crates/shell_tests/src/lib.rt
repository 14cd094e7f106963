//! Tests of `bench_shell`, `worker_sessions` and `command_line`: sessions, with faults and with workers, and how the program
//! begins and ends. A crate with tests is proved twice by the gate, so those of a crate whose proofs take minutes stand
//! beside it. Nothing stands on this crate.
#![tactic(auto)]

#[cfg(test)]
mod programs;
#[cfg(test)]
mod sessions;
