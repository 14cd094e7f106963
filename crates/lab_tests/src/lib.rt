//! Tests of `lab`: of `svg_plots`, the text of pictures, scales and ticks; of `experiments`, figures of small machines; of
//! `lab_tasks`, words that are taken and refused, tables, summaries, sessions, files that are written and files that can't be.
//! A crate with tests is proved twice by the gate, so those of a crate whose proof takes minutes stand beside it. Nothing
//! stands on this crate.
#![tactic(auto)]

#[cfg(test)]
mod figures;
#[cfg(test)]
mod outcomes;
#[cfg(test)]
mod pictures;
#[cfg(test)]
mod refusals;
#[cfg(test)]
mod shells;
#[cfg(test)]
mod words;
