//! The edits that take edits back.
//!
//! [`undoing`] lists, for an edit that is yet to be made, the edits that make the project what it is again, and [`Undos`] keeps
//! such lists, the last one first. It stands on `project_book`.
//!
//! Promise: after an accepted edit each of its list is accepted in turn, as long as the journal has room, and the project is
//! then exactly the one before the edit (`specs/Undoing.antt`).
#![tactic(auto)]

mod edits;
mod stack;

pub use edits::undoing;
pub use stack::Undos;
