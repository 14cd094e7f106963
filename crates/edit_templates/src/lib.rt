//! Edits of the command language with braces in them, from which many edits come.
//!
//! A [`Template`] is a line as `combine {0..k} on`. In its braces stand a range of numbers, where `k` is the machine's k, or
//! words with commas between. Each way to put words in makes a line, which has to be an edit. A [`Step`] is the words that
//! were put in and the edits that came of it, an [`Axis`] the steps that are gone through; [`each`] joins each step of one axis
//! with each of others, [`in_turn`] the first ones of all axes, the second ones and so on. [`after_edits`] is the project after some edits.
//!
//! Promise: these are the definitions of `specs/`, for every text, every machine and every project.
#![tactic(auto)]

mod choices;
mod edited;
mod lines;
mod parts;
mod put;
mod span;
mod step;
mod template;

pub use edited::after_edits;
pub use put::Put;
pub use step::{Axis, Step, behind, each, in_turn};
pub use template::Template;
