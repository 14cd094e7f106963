//! The shell of the workbench: lines from a reader are answered to a writer, one line each.
//!
//! [`run`] reads bytes from a reader, cuts them into lines, reads each line as a command (`commands`), gives it to a
//! [`Desk`], and writes what it is answered to a writer. A desk takes edits and is asked: a bench is one. [`run_within`]
//! makes so many reads at most. [`run_watched`], which both call, is over a [`Source`] and a [`Sink`]: a reader and a
//! writer that keep whether they have failed, and whether all that was written was handed on.
//!
//! Promise: where a run ends well, what was written is exactly `output` (`specs/Output.antt`) of the desk's project and
//! journal at the start and of all bytes that were read, which is defined over the whole text, apart from the pieces in
//! which it is read; and the desk's project and journal are then `store_after` of the same. After a fault both are so of a
//! part of what was read, to a line; and each fault comes only for its cause (`specs/Cause.antt`). No more input is read
//! while an answer isn't flushed. A line of any length takes bounded memory.
#![tactic(auto)]

mod answer;
mod bench;
mod desk;
mod ends;
mod fault;
mod held;
mod session;

pub use answer::Answer;
pub use desk::Desk;
pub use ends::{Reading, Sink, Source, Writing};
pub use fault::RunFault;
pub use session::{answer_line, hand_on, run, run_watched, run_within, write_bytes};
