//! What an edit changed.

/// The slots that got another value, and the new horizon where it differs from the old one.
///
/// For a grid's old and new slots the list is that of `Differ` in `specs/Rules.antt`: every slot
/// whose values differ, and no other.
#[derive(Debug, Drop)]
pub struct Changed<S> {
    pub slots: Vec<S>,
    pub horizon: Option<u32>,
}
