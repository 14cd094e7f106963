//! The switches of the low network: two inputs, two outputs, a queue for each direction and no combining.
//!
//! A stage of switches stands between processors and modules (Lawrie 1975). A request comes to an input and waits in
//! the queue of an output; a reply comes back to the side of an output and waits in the queue of an input. The crate
//! stands on the messages and queues of `omega_net`. It promises that `step` is `low_after` of
//! `specs/LowSwitch.antt`, for every state and all that may be handed to it. A step takes memory for the
//! messages that wait afterwards.
#![tactic(auto)]

mod ports;
mod state;
mod step;
mod text;

pub use state::LowState;
