//! Scripts that are drawn from a seed.
//!
//! A [`Mix`] says what references are: a share of them goes to one hot word, the others are spread over a page (Pfister and
//! Norton 1985, "Hot Spot" Contention and Combining in Multistage Interconnection Networks). [`references`] draws some from a
//! generator. A [`Draw`] says also at which rate a processor offers them (Dally and Towles 2004, open-loop measurement), and
//! [`Draw::script`] has a processor's script.
//!
//! The crate stands on `project_book` for script entries, on `page_map` and `word_ops` for addresses and operations, and on
//! `rand_pcg` for the generator (O'Neill 2014). It promises that a script is `script_drawn` of `specs/Draws.antt`: a function
//! of the draw and of the processor's number alone, so that the same numbers mean the same script for ever.
#![tactic(auto)]

mod draw;
mod mix;

pub use draw::{Draw, MOST_REFERENCES};
pub use mix::{Mix, references};
