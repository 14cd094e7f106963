//! The shell for people: the commands of the workbench, answered in the same bytes, and words of its own.
//!
//! [`talk`] reads lines from a reader. A line that begins with one of the shell's own words ([`ShellWord`]) is a request;
//! a [`Clerk`] answers those that need more than the bench. Each other line is answered as `bench_shell` does it, one with a
//! range of processors ([`lines_of_range`]) as the lines for each of them. What takes back each edit (`edit_undo`) is kept. A
//! [`Manner`] says for whom the answers are ([`Voice`]): people get a prompt, and a reason behind each refusal
//! ([`Reasoned`]) with the word that a mistyped one may be (`specs/Hints.antt`), a program one object of JSON for each line
//! (`specs/Json.antt`), and everybody else the bytes of `bench_shell`; and whether the first refusal ends the session.
//!
//! It stands on `bench_shell` for answers, on `bench_core` for the bench, on `edit_undo` for what takes edits back, on `commands`
//! and `line_words` for commands and words, on `word_ops` for the names of kinds, and on `strsim` for slips.
//!
//! Promise: what was written is the prompt and the answer of each line that was read, in turn, up to the line that ends the
//! session (`specs/Talks.antt`); where no line is a request or has a range and the voice is `Plain`, it is exactly `output`
//! of `bench_shell`.
#![tactic(auto)]

mod clerk;
mod help;
mod hint;
mod json;
mod manner;
mod range;
mod reason;
mod session;
mod undo;
mod word;

pub use clerk::{Clerk, Said};
pub use manner::{Ended, Manner, Voice};
pub use range::lines_of_range;
pub use reason::{Reasoned, told_line};
pub use session::talk;
pub use word::{ShellWord, first_word, request};
