//! What takes back each edit of a session.
ghost use Rattle.std.specs.Prelude.{◌≡◌, [], ◌∷◌, drop, map, option_map, reverse, slice_get, OnOk, OnErr};

use project_book::Edit;
use std::alloc::{AllocError, Global};
use std::marker::Model;

/// What takes back each edit that was made and not yet taken back, the last one first.
#[derive(Drop)]
pub struct Undos {
    lists: Vec<Vec<Edit>>,
}

impl Model for Undos {
    ghost use Rattle.std.specs.Prelude.{List, map, reverse};
    ghost use Rattle.project_book.specs.declared.edit.Edit.{Edit as AnyEdit};

    ghost Value = { List (List AnyEdit) };

    ghost view = { λ u. reverse (map (λ l. l.items) u.lists.items) };
}

impl Undos {
    /// Nothing to take back. Takes no memory.
    pub fn new(alloc: Global) -> Undos
        ensures { result ≡ [] }
    {
        Undos {
            lists: Vec::new(alloc),
        }
    }

    /// What takes back the last edit.
    pub fn last(&self) -> Option<&[Edit]>
        ensures { option_map (λ edits. edits.now) result ≡ slice_get self.now 0 }
    {
        last_of(&self.lists)
    }

    /// One edit more was made, which these take back.
    ///
    /// # Errors
    ///
    /// Where a growth was refused. Then nothing is changed.
    pub fn push(&mut self, edits: Vec<Edit>) -> Result<(), AllocError>
        ensures ok { OnOk result (self.new ≡ edits.items ∷ self.old) }
        ensures err { OnErr result (self.new ≡ self.old) }
    {
        self.lists.push(edits)?;
        Ok(())
    }

    /// The last edit is taken back, or was not made.
    pub fn drop_last(&mut self)
        ensures { self.new ≡ drop 1 self.old }
    {
        let _ = self.lists.pop();
    }
}

/// The last of several lists.
fn last_of(lists: &[Vec<Edit>]) -> Option<&[Edit]>
    ensures { option_map (λ edits. edits.now) result ≡ slice_get (reverse (map (λ l. l.items) lists.now)) 0 }
{
    match lists.last() {
        Some(edits) => Some(edits.as_slice()),
        None => None,
    }
}
