//! Another state for one cell.
ghost use Rattle.std.specs.Prelude.{◌≡◌, ℕ, ◌-◌, ◌<◌, OnOk, OnErr, MatchResult, length, slice_index_or, slice_set, ◌∷◌, []};
ghost use Rattle.change_rows.specs.Rows.{overlaid, words_at};
ghost use Rattle.change_lists.specs.Changes.{list_at, held_at as memory_at};
ghost use Rattle.grid_law.specs.Codec.{IsTold};
ghost use Rattle.cell_states.specs.Kept.{IsThere, IsOtherMemory};

use super::memory::{put_memory, ready_memory};
use crate::Cell;
use change_lists::Lists;
use change_rows::{Cells as Draft, Rows};
use grid_law::{Grid, NoMemory};
use std::alloc::Global;

/// Some words for one cell.
fn put_words(
    alloc: Global,
    rows: &mut Rows,
    draft: &mut Draft,
    cell: Cell,
    words: &[u64],
) -> Result<(), NoMemory>
    requires there { IsThere rows.old cell.cycle cell.component }
    ensures { MatchResult result
        (λ _. rows.new ≡ record { width = rows.old.width; rows = slice_set rows.old.rows cell.cycle (overlaid (slice_index_or rows.old.rows cell.cycle []) (record { component = cell.component; words = words.now } ∷ [])) })
        (λ _. rows.new ≡ rows.old) }
{
    draft.clear();
    match draft.push(cell.component, words) {
        Ok(()) => {}
        Err(_) => return Err(NoMemory),
    }
    match rows.put_row(alloc, cell.cycle, draft) {
        Ok(()) => Ok(()),
        Err(_) => Err(NoMemory),
    }
}

/// The words of the cell before for one cell.
fn repeat_words(
    alloc: Global,
    rows: &mut Rows,
    draft: &mut Draft,
    cell: Cell,
) -> Result<(), NoMemory>
    requires there { IsThere rows.old cell.cycle cell.component }
    requires later { 0 < cell.cycle }
    ensures { MatchResult result
        (λ _. rows.new ≡ record { width = rows.old.width; rows = slice_set rows.old.rows cell.cycle (overlaid (slice_index_or rows.old.rows cell.cycle []) (record { component = cell.component; words = words_at rows.old.rows (cell.cycle - 1) cell.component } ∷ [])) })
        (λ _. rows.new ≡ rows.old) }
{
    draft.clear();
    match draft.push(cell.component, rows.words(cell.cycle - 1, cell.component)) {
        Ok(()) => {}
        Err(_) => return Err(NoMemory),
    }
    match rows.put_row(alloc, cell.cycle, draft) {
        Ok(()) => Ok(()),
        Err(_) => Err(NoMemory),
    }
}

/// The words of a state for a cell, and its memory. Where memory is wanting, no cell has another.
pub(super) fn put_state<G: Grid>(
    rows: &mut Rows,
    memories: &mut Lists<G::Memory>,
    draft: &mut Draft,
    buffer: &mut Vec<u64>,
    cell: Cell,
    state: &G::State,
) -> Result<(), NoMemory>
    requires there { IsThere rows.old cell.cycle cell.component }
    requires memories { cell.component < length memories.old }
    ensures told { IsTold G.codec state.now }
    ensures rows { MatchResult result
        (λ _. rows.new ≡ record { width = rows.old.width; rows = slice_set rows.old.rows cell.cycle (overlaid (slice_index_or rows.old.rows cell.cycle []) (record { component = cell.component; words = G.codec.words state.now } ∷ [])) })
        (λ _. rows.new ≡ rows.old) }
    ensures here { OnOk result (memory_at memories.new cell.component cell.cycle ≡ G.codec.memory state.now) }
    ensures other { IsOtherMemory memories.old memories.new cell.cycle cell.component (length rows.old.rows) }
    ensures err { OnErr result ((c : ℕ) → list_at memories.new c ≡ list_at memories.old c) }
{
    let alloc = *buffer.allocator();
    let end = rows.len();
    buffer.clear();
    G::encode(state, buffer)?;
    let value = G::memory(state)?;
    let change = ready_memory::<G>(memories, cell, value)?;
    put_words(alloc, rows, draft, cell, buffer.as_slice())?;
    put_memory(memories, cell, end, change);
    Ok(())
}

/// What the cell before has for a cell. Where memory is wanting, no cell has another.
pub(super) fn repeat_state<M: Drop>(
    alloc: Global,
    rows: &mut Rows,
    memories: &mut Lists<M>,
    draft: &mut Draft,
    cell: Cell,
) -> Result<(), NoMemory>
    requires there { IsThere rows.old cell.cycle cell.component }
    requires later { 0 < cell.cycle }
    requires memories { cell.component < length memories.old }
    ensures rows { MatchResult result
        (λ _. rows.new ≡ record { width = rows.old.width; rows = slice_set rows.old.rows cell.cycle (overlaid (slice_index_or rows.old.rows cell.cycle []) (record { component = cell.component; words = words_at rows.old.rows (cell.cycle - 1) cell.component } ∷ [])) })
        (λ _. rows.new ≡ rows.old) }
    ensures here { OnOk result (memory_at memories.new cell.component cell.cycle ≡ memory_at memories.old cell.component (cell.cycle - 1)) }
    ensures other { IsOtherMemory memories.old memories.new cell.cycle cell.component (length rows.old.rows) }
    ensures err { OnErr result ((c : ℕ) → list_at memories.new c ≡ list_at memories.old c) }
{
    let end = rows.len();
    repeat_words(alloc, rows, draft, cell)?;
    put_memory(memories, cell, end, None);
    Ok(())
}
