//! Tests of `project_book` and `project_file`: projects, their edits and their files. A crate with tests is proved twice by
//! the gate, so those of a crate whose proofs take minutes stand beside it. Nothing stands on this crate.
#![tactic(auto)]

#[cfg(test)]
mod books;
#[cfg(test)]
mod files;
#[cfg(test)]
mod words;
