//! Components as words of 64 bits: what the words of each are, how they are written, and the component that they are.
//!
//! A component is an object with up to five queues, each in memory of its own. Its words are one short list, which can be kept, copied
//! and compared as a whole, many components behind one another. The first word is the head: the kind of the component, the lengths of its
//! queues and its turns and marks. A processor's second word has what it has spent and issued. Then come the messages in the order of the
//! queues, two words each. So a component in which nothing waits has one or two words. A module's words of memory are not among them.
//!
//! The crate stands on the crates of the four components and on that of messages. It promises, of every component of the types
//! ([`is_proc`] and the like, `specs/Fits.antt`):
//! - [`write_proc`], [`write_module`], [`write_low`] and [`write_comb`] append its words, a head and a body (`specs/Words.antt`), or
//!   nothing.
//! - [`proc_has_words`], [`module_has_words`], [`low_has_words`] and [`comb_has_words`] say whether its words are a head and a body, which
//!   they compare word by word and without memory.
//! - [`read_proc`], [`read_module`], [`read_low`] and [`read_comb`] give back the component that has these words, a module with the memory
//!   that is passed ([`components_are_told`], `specs/Laws.antt`).
//! - Each word is below 2^64, and the head says which kind it is, and how many words there are ([`words_are_words`], [`length_of`]).
//!
//! The states of `machine_cells` are these four, and it says of them as a whole what is said here of each.
//!
//! Fields are at fixed bits, so that other ways to keep a machine can write the same words from their own arrays: by [`queues_head`],
//! [`bytes`] and [`proc_head`] the head, and by [`write_messages`] what waits.
#![tactic(auto)]

mod comparing;
mod decoding;
mod encoding;
mod fields;
mod fits;
mod heads;
mod laws;
mod message;
mod reading;
mod writing;

pub use comparing::{comb_has_words, low_has_words, module_has_words, proc_has_words};
pub use decoding::{index_in, read_comb, read_low, read_module, read_proc, shows_in};
pub use encoding::{write_comb, write_low, write_module, write_proc};
pub use fits::{all_fit, is_comb, is_low, is_module, is_proc};
pub use heads::{bytes, length_of, proc_head, queues_head};
pub use laws::{components_are_told, words_are_words};
pub use message::TwoWords;
pub use reading::split_first;
pub use writing::write_messages;
