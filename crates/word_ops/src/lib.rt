//! Fetch-and-op words: what a request leaves where a word stood, and the one request that does two.
//!
//! Each fetch-and-op is answered the old word and leaves a new one. Two requests of one kind to one
//! word combine into one, after Gottlieb and others 1983; Kruskal, Rudolph and Snir 1988 describe
//! the families of updates that are closed under this. The kinds are this project's profile.
//! The crate stands on nothing but `std`, and takes no memory.
//!
//! It promises model-words: [`Op::apply`] is the kind's word function, and [`Op::then`] is None
//! exactly where the kinds differ, and else leaves of every word what both leave in turn.
#![tactic(auto)]

mod kind;
mod op;

pub use kind::{KIND_BITS, Kind, constants_are_limits};
pub use op::Op;
