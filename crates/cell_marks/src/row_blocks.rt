//! Rows of marks, by blocks of components.
ghost use Rattle.std.specs.Prelude.{◌≡◌, ℕ, ◌<◌, ◌+◌, ◌*◌, IfOk, length};
ghost use Rattle.cell_marks.specs.Bits.{block_rows};
ghost use Rattle.cell_marks.specs.Marked.{is_set, row_at};

use crate::row::Row;
use std::alloc::{AllocError, Global};
use std::marker::Model;

/// Rows of marks that don't change, for who looks at one block of 256 components of many rows: in each block the four words of
/// every row stand side by side, in one piece of memory.
#[derive(Drop)]
pub struct RowBlocks {
    by_block: Vec<Vec<[u64; 4]>>,
    count: usize,
    width: u32,
}

impl Model for RowBlocks {
    ghost use Rattle.std.specs.Prelude.{Bool, List, ◌≡◌, ◌≤◌, ◌*◌, length, map, All};
    ghost use Rattle.cell_marks.specs.Bits.{rows_by_blocks};

    ghost Value = { List (List Bool) };

    ghost view = { λ r. rows_by_blocks (map (λ block. block.items) r.by_block.items) r.count r.width };

    ghost invariant = { λ r. (r.width ≤ 256 * length r.by_block.items) × All (λ block. length block ≡ r.count) (map (λ block. block.items) r.by_block.items) };
}

impl RowBlocks {
    /// These rows, each of `width` components.
    ///
    /// # Errors
    ///
    /// Where a growth was refused. What was taken is given back.
    pub fn new(alloc: Global, rows: &[Row], width: u32) -> Result<RowBlocks, AllocError>
        requires { (c : ℕ) → c < length rows.now → length (row_at rows.now c) ≡ width }
        ensures { IfOk result (λ blocked. blocked ≡ rows.now) }
    {
        let count = width.div_ceil(256);
        let mut by_block = Vec::with_capacity(alloc, count as usize)?;
        for block in 0..count {
            let words = block_of(alloc, rows, block)?;
            match by_block.push(words) {
                Ok(()) => {}
                Err(_) => return Err(AllocError),
            }
        }
        Ok(RowBlocks {
            by_block,
            count: rows.len(),
            width,
        })
    }

    /// The words of all rows in a block.
    #[inline(always)]
    pub(crate) fn block(&self, block: u32) -> &[[u64; 4]]
        requires { (c : ℕ) → c < length self.now → 256 * block < length (row_at self.now c) }
        ensures len { length result.now ≡ length self.now }
        ensures bits { (c k : ℕ) → c < length self.now → k < 256 → 256 * block + k < length (row_at self.now c) → is_set (row_at (block_rows result.now) c) k ≡ is_set (row_at self.now c) (256 * block + k) }
    {
        let _shape = (self.count, self.width);
        match self.by_block.get(block as usize) {
            Some(words) => words.as_slice(),
            // Then there is no row, either.
            None => &[],
        }
    }
}

/// The words of these rows in a block.
fn block_of(alloc: Global, rows: &[Row], block: u32) -> Result<Vec<[u64; 4]>, AllocError>
    requires { (c : ℕ) → c < length rows.now → 256 * block < length (row_at rows.now c) }
    ensures len { IfOk result (λ words. length words.items ≡ length rows.now) }
    ensures bits { IfOk result (λ words. (c k : ℕ) → c < length rows.now → k < 256 → 256 * block + k < length (row_at rows.now c) → is_set (row_at (block_rows words.items) c) k ≡ is_set (row_at rows.now c) (256 * block + k)) }
{
    let mut words = Vec::with_capacity(alloc, rows.len())?;
    for row in rows {
        match words.push(row.block_words(block)) {
            Ok(()) => {}
            Err(_) => return Err(AllocError),
        }
    }
    Ok(words)
}
