//! Tests of `bench_core`, `shared_bench` and `wave_workers`: a bench, passes to one, and workers. A crate with tests is
//! proved twice by the gate, so those of a crate whose proofs take minutes stand beside it. Nothing stands on this crate.
//! What a bench is told and asked by a user, one command after another, is in `worked_examples`.
#![tactic(auto)]

#[cfg(test)]
mod base;
#[cfg(test)]
mod benches;
#[cfg(test)]
mod passes;
#[cfg(test)]
mod workers;
