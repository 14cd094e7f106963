//! Project files: a project as a TOML document.
//!
//! [`read_project`] reads the bytes of a file into a [`project_book::Project`], or answers the first
//! [`ProjectFault`] that it meets. Nothing of a file is trusted: bytes of any kind are read, and a
//! project is within its limits whenever there is one. `toml` says which bytes are a document, and
//! `project_book` what a project is, what limits it, and which texts are script entries.
//!
//! [`write_project`] writes a project as a file, and answers it only where that is read as the project.
//!
//! Promise: what is read is `filed` of `specs/Filed.antt`, which is a function of the whole
//! file, want of memory aside.
#![tactic(auto)]

mod depths;
mod entry_fault;
mod expanding;
mod fault;
mod fields;
mod format;
mod items;
mod lines;
mod nearest;
mod pages;
mod place;
mod processors;
mod reading;
mod scripts;
mod stages;
mod traffic;
mod words;
mod write_fault;
mod writing;

pub use fault::ProjectFault;
pub use format::format_of;
pub use place::fault_place;
pub use reading::{MAX_BYTES, read_project};
pub use write_fault::WriteFault;
pub use writing::write_project;
