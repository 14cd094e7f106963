//! Tests of the parts that the machine and its table are built of: words, places, marks, grids, and each component alone. A
//! crate with tests is proved twice by the gate, so the tests of crates whose proofs take long stand beside them. Nothing
//! stands on this crate.
#![tactic(auto)]

#[cfg(test)]
mod comb;
#[cfg(test)]
mod grids;
#[cfg(test)]
#[cfg(test)]
mod low;
#[cfg(test)]
mod marks;
#[cfg(test)]
mod modules;
#[cfg(test)]
mod operations;
#[cfg(test)]
mod places;
#[cfg(test)]
mod processors;
#[cfg(test)]
mod queues;
#[cfg(test)]
mod words;
