//! Processors that issue the references of a script, one each cycle at most, and await their replies.
//!
//! A processor of the machine reads one entry of its script at a time: a reference (a fetch-and-op, sent over the
//! combining network where it is synchronizing and over the low-latency one where it is plain), the same again and
//! again until a reply has a word, a fence or a pause.
//! It stands on `omega_net` for messages and entries. Promise: `step` is `proc_after` of `specs/RefProc.antt` on every
//! value of the types, and takes no memory.
#![tactic(auto)]

mod state;
mod step;
mod text;

pub use state::{Outgoing, ProcState};
pub use step::{ProcSettings, ProcTraffic};
