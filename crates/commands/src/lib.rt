//! The command language: lines that are read into edits and queries.
//!
//! A line is a keyword and the words behind it. [`Command::parse`] reads it once, into an enum; nothing above looks at
//! it as text again. It stands on `line_words` for words and numbers, on `omega_net` for the names of components, on
//! `project_book` for edits and the texts of script entries, and on `run_queries` for queries.
//!
//! Promise: a line is the command that `command_of` of `specs/Commands.antt` makes of its words, or none exactly where
//! that makes none. It takes no memory.
#![tactic(auto)]

mod command;
mod component;
mod edits;
mod keyword;
mod numbers;
mod queries;
mod queue;
mod reports;

pub use command::Command;
pub use keyword::Keyword;
