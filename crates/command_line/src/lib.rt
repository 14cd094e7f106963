//! The program but for its `main`: its command line, how it begins, and how it ends.
//!
//! [`arguments`] reads the program's words, `hotspot [FILE] [--workers N]`, with the crate `clap`. [`opening`] makes the
//! project that they ask for: it reads FILE from a [`Folder`]. [`serve_words`] then answers the lines of a reader to a writer. An
//! [`End`] is what becomes of the program: it has a [`status`] and a line for standard error, which [`ended`] prints.
//! [`program_of`] does it all for some words and a folder, to the exit status; [`program`] over the host's arguments, files
//! and standard error.
//!
//! Promise: where [`arguments`] answers Ok, it gives the FILE and the number of workers, at most 16, that the matches of
//! the words hold, as `clap` defines them for the command of `specs/Arguments.antt`; and it answers Ok exactly where
//! `clap` finds no fault in the words, want of memory aside. [`opening`] begins with the project that the words and the
//! folder give, or answers why not, in a fixed order (`specs/Opening.antt`). Statuses and lines are those of
//! `specs/Ends.antt`, and the status of [`program_of`] is that of what [`serve_words`] did.
#![tactic(auto)]

mod end;
mod file;
mod folder;
mod host;
mod start;
mod words;

pub use end::{End, refusal, status};
pub use file::{MOST_BYTES, read_bytes, read_file};
pub use folder::{Disk, Folder};
pub use host::{Host, ended, program, program_of};
pub use start::{Beginning, Stop, opening, serve_words};
pub use words::{CommandLine, arguments};
