//! What is noted beside the rows of one put for the next.
ghost use Rattle.std.specs.Prelude.{◌≡◌, ℕ, IfOk, false, length, replicate};
ghost use Rattle.change_rows.specs.Marks.{is_in};
ghost use Rattle.change_rows.specs.Kinds.{HasRoom};

use crate::sets::wipe;
use std::alloc::{AllocError, Global};

/// What is known of the cells of the row behind the one that was put last, where what stood there goes on. Sets have a bit for each
/// component, 64 in a word.
#[derive(Drop)]
pub(crate) struct Notes {
    /// The components that hold other words there than in the row that was put.
    pub apart: Vec<u64>,
    /// The components whose first word in the row that was put is kept.
    pub known: Vec<u64>,
    /// These words, by component.
    pub heads: Vec<u64>,
    /// Those of one kind that hold other words, and those of which what stood goes on. Between two puts they mean nothing.
    pub other: Vec<u64>,
    pub kept: Vec<u64>,
}

impl Notes {
    /// Nothing is known.
    ///
    /// # Errors
    ///
    /// Where a growth was refused.
    pub fn new(alloc: Global, width: u32) -> Result<Notes, AllocError>
        ensures room { IfOk result (HasRoom width) }
        ensures apart { IfOk result (λ n. (c : ℕ) → is_in n.apart.items c ≡ false) }
        ensures known { IfOk result (λ n. (c : ℕ) → is_in n.known.items c ≡ false) }
    {
        let lines = width.div_ceil(64) as usize;
        Ok(Notes {
            apart: vec![in alloc; 0; lines]?,
            known: vec![in alloc; 0; lines]?,
            heads: vec![in alloc; 0; width as usize]?,
            other: vec![in alloc; 0; lines]?,
            kept: vec![in alloc; 0; lines]?,
        })
    }
}

/// Nothing is known any more.
pub(crate) fn forget(n: &mut Notes)
    ensures apart { (c : ℕ) → is_in n.new.apart.items c ≡ false }
    ensures known { (c : ℕ) → is_in n.new.known.items c ≡ false }
    ensures room { (width : ℕ) → HasRoom width n.old → HasRoom width n.new }
{
    wipe(&mut n.apart);
    wipe(&mut n.known);
}
