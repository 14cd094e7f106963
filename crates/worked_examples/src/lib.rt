//! The worked examples of the machine, run by the bench and its shell.
//!
//! Each test gives steps to a bench of `bench_core`, or lines to `run` of `bench_shell`, as a user would,
//! and compares what comes of them with numbers that were worked out by hand, or the states that the
//! bench holds with those of the plain simulation. The lines that are commands, and those that aren't, are read here too.
//! Nothing stands on the crate.
#![tactic(auto)]

#[cfg(test)]
mod benches;
#[cfg(test)]
mod command_lines;
#[cfg(test)]
mod edits;
#[cfg(test)]
mod lines;
#[cfg(test)]
mod plain;
#[cfg(test)]
mod projects;
#[cfg(test)]
mod stories;
#[cfg(test)]
mod tests;
