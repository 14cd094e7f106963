//! The switches of the combining network: where two requests of one kind for one word meet in an output queue, one
//! request that does both goes on, and its reply becomes the two replies.
//!
//! Combining in a switch is taken from Gottlieb and others 1983 and Kruskal, Rudolph and Snir 1988. The crate stands
//! on the messages and queues of `omega_net` and on `Op::then` of `word_ops`. It promises that `step` is `comb_after`
//! of `specs/CombSwitch.antt`, for every state and all that may be handed to it. A step takes memory for the messages
//! that wait afterwards.
#![tactic(auto)]

mod combine;
mod held;
mod ports;
mod returns;
mod settings;
mod state;
mod step;
mod text;
mod waiting;

pub use combine::requests_are_kept;
pub use held::messages_are_held;
pub use returns::replies_are_kept;
pub use settings::CombSettings;
pub use state::CombState;
pub use waiting::Waiting;
