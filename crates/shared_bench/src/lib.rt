//! One bench shared by threads: each holds a pass, and the passes take turns.
//!
//! `open` puts a bench into a slot and gives the first pass; `split` makes further ones, each with a number of its own,
//! under which its edits stand in the journal. A pass that wants the bench takes a ticket, waits until that ticket is
//! served, takes the bench out of the slot, makes one call of the bench, puts it back and passes the turn on. `join` makes
//! one pass of two, and `close` takes the bench out for good.
//!
//! Whatever other threads do meanwhile, an answer of `Pass::ask` is that of simulating, from cycle 0, the project of the
//! opening with the edits that the pass has then seen, and its version is their number. There is one journal that goes on
//! from all that any pass has seen, each of its entries was accepted in its turn, and the entries under a pass's numbers
//! are exactly the edits that it was answered for (the *legal journal*, `specs/Legal.antt`).
//!
//! It stands on `bench_core` for the bench, and on `atomic_table` for the words, the slot and the seats. Nothing is
//! promised of who comes first, or that a waiting pass is ever served.
#![tactic(auto)]

mod carried;
mod pass;
mod plays;
mod post;
mod steps;
mod view;

pub use pass::{Pass, SplitFault, open};
