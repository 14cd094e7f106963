//! The words of a line, and the numbers among them.
//!
//! A line is a run of bytes. Its *words* are the parts between separators (space, tab and CR) that have a byte, in their
//! order; separators may also stand at both ends. A *number* is a word of 1 to 10 decimal digits whose value is at most
//! 4,294,967,295. [`split_word`] takes the first word off a line, [`number`] reads a word.
//!
//! Promise: both are the definitions, for every line of bytes, and neither takes memory.
#![tactic(auto)]

mod numbers;
mod words;

pub use numbers::number;
pub use words::split_word;
