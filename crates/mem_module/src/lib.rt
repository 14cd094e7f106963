//! Memory modules: the words of their rows, and one fetch-and-op served each cycle at most.
//!
//! A module of the machine has a request queue and a reply queue for each of the two networks. It stands on
//! `omega_net` for messages and queues, on `word_ops` for what a request does to a word, and on `grid_law` for the
//! answer that memory was refused. Promise: `step` is `module_after` of `specs/MemModule.antt` on every value of the
//! types. Its words are shared with the state before, and copied only where a request changes one.
#![tactic(auto)]

mod shared;
mod state;
mod step;
mod text;
mod words;

pub use shared::SharedWords;
pub use state::ModuleState;
pub use step::ModuleTraffic;
pub use words::{Stored, Words};
