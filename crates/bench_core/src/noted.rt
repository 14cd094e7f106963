//! Edits in a journal.

use project_book::Edit;

/// An accepted edit and who made it: 0 where there is one editor alone.
#[derive(Clone, Copy, PartialEq, Eq, Debug)]
pub struct Noted {
    pub author: u32,
    pub edit: Edit,
}
