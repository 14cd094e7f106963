//! The cells of an RP3-like machine: each component at each cycle, computed from the cells near it.
//!
//! The machine has 2^k processors and as many memory modules, for k from 0 to 6, joined by a
//! low-latency network and by one that combines requests to one word (Pfister and others 1985;
//! Gottlieb and others 1983), each an omega network of two-by-two switches (Lawrie 1975). The crate
//! stands on the four components (`ref_proc`, `mem_module`, `low_switch`, `comb_switch`) and their words (`state_words`), on the
//! wires of `omega_net`, on the settings of `project_book`, and on the trait of `grid_law`.
//!
//! It promises five things, of every project and of every whole state of the types:
//! - A component's step from its near states is its part of the machine's cycle, in which all
//!   messages move at once ([`steps_are_parts`], `specs/Cycle.antt`).
//! - [`Rp3`] keeps the laws of a grid: a cell's state hangs on the slots that it reads and on the
//!   near states, and on nothing else (`specs/Reads.antt`, `specs/GridLaws.antt`).
//! - [`from_scratch`] is the run: the first states, then one cycle after another (`specs/Run.antt`),
//!   which is also what the cells of the grid are, computed one from another ([`runs_are_one`]).
//! - No message is lost: each that moves arrives, and each that doesn't stays ([`no_message_is_lost`], `specs/Kept.antt`,
//!   [`messages_stay`], `specs/Stay.antt`).
//! - A state is told by its words, those of `state_words`, and a module by them and its memory: [`encode`] appends them, [`decode`] gives
//!   back the state that has them, [`has_words`] compares a state with words and takes no memory, and two states have the same words
//!   exactly where they are the same but for a module's memory ([`words_tell`], `specs/WordLaws.antt`; `specs/Codec.antt`).
//!
//! A state is made where something changes. Where nothing does, the next state is the one before, with one more owner.
//!
//! What a cell reads of the project, beside its shape, which no edit changes:
//!
//! | Cell | Reads |
//! |---|---|
//! | module at cycle 0 | all first words, all pages |
//! | processor or switch at cycle 0 | nothing |
//! | processor later | the entry at its index, where that is below 4,096; where that is a reference or an `until`, the window and the page of its address; where a request waits to leave, the depth of the queue that it would enter |
//! | low switch later | the depths of its network; at the last stage, that of the modules' queues |
//! | combining switch later | the depths of its network, that of the wait buffers, whether its stage combines; at the last stage, the depth of the modules' queues |
//! | module later | the depth of the modules' queues; where there are switches, those of their reverse queues |
//!
//! The index and the request are those of the processor's state one cycle earlier. What a component
//! reads at some state it may read: a processor every entry of its script, every page, the window and
//! the depths of the queues behind its ports, the others the same slots at every state (`always_reads`).
#![tactic(auto)]

mod agree;
mod grid;
mod laws;
mod near;
mod pull;
mod pulls;
mod readers;
mod reads;
mod rest;
mod scratch;
mod start;
mod state;
mod step;
mod switch;
mod text;
mod words;

pub use grid::Rp3;
pub use laws::{
    messages_stay, no_message_is_lost, runs_are_one, steps_are_parts, words_are_words, words_tell,
};
pub use scratch::{first_row, from_scratch, next_row};
pub use state::MachineState;
pub use words::{decode, encode, has_words, is_state};
