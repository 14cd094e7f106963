//! Other states for all components that change.
ghost use Rattle.std.specs.Prelude.{◌≡◌, ℕ, ◌-◌, ◌<◌, ◌≤◌, OnOk, OnErr, length, true, false, None, slice_index_or};
ghost use Rattle.change_lists.specs.Changes.{held_at as memory_at};
ghost use Rattle.cell_states.specs.Filling.{is_awake};
ghost use Rattle.cell_states.specs.Kept.{IsLaterCycle, IsOtherMemory, AreRepeated};
ghost use Rattle.cell_states.specs.Readied.{AreEach};
ghost use Rattle.cell_states.specs.Ready.{value_in, IsReady};

use super::memory::{Change, put_memory};
use crate::Cell;
use cell_marks::Row;
use change_lists::Lists;
use change_rows::Rows;
use grid_law::NoMemory;
use std::alloc::Global;

/// The cells of a component from one cycle on to before another have the memory of the cell before them.
fn go_on_changed<M: Drop>(memories: &mut Lists<M>, changes: &Row, from: u32, to: u32, end: u32)
    requires cycle { IsLaterCycle from to }
    requires width { length changes.now ≡ length memories.old }
    ensures width { length memories.new ≡ length memories.old }
    ensures repeated { (c t : ℕ) → is_awake changes.now c ≡ true → from ≤ t → t < to → memory_at memories.new c t ≡ memory_at memories.old c (from - 1) }
    ensures earlier { (c t : ℕ) → t < from → memory_at memories.new c t ≡ memory_at memories.old c t }
    ensures behind { (c t : ℕ) → to ≤ t → t < end → memory_at memories.new c t ≡ memory_at memories.old c t }
    ensures others { (c t : ℕ) → is_awake changes.now c ≡ false → memory_at memories.new c t ≡ memory_at memories.old c t }
{
    // The number of a component is below this one, so that of the next fits.
    let _count = changes.len();
    let mut next = 0;
    while let Some(c) = changes.first_from(next) {
        let _ = memories.go_on(c, from, to, end);
        next = c + 1;
    }
}

/// The components that change have from one cycle on to before another what they have at the cycle before. Where memory is wanting,
/// no cell has another.
pub(super) fn repeat_changed<M: Drop>(
    alloc: Global,
    rows: &mut Rows,
    memories: &mut Lists<M>,
    changes: &Row,
    from: u32,
    to: u32,
) -> Result<(), NoMemory>
    requires cycle { IsLaterCycle from to }
    requires within { to ≤ length rows.old.rows }
    requires width { length changes.now ≡ rows.old.width }
    requires memories { length memories.old ≡ rows.old.width }
    ensures ok { OnOk result (AreRepeated rows.old rows.new memories.old memories.new changes.now from to) }
    ensures err { OnErr result ((rows.new ≡ rows.old) × (memories.new ≡ memories.old)) }
{
    let end = rows.len();
    match rows.repeat(alloc, from, to, changes.words()) {
        Ok(()) => {}
        Err(_) => return Err(NoMemory),
    }
    go_on_changed(memories, changes, from, to, end);
    Ok(())
}

/// A cell has the memory that is ready for it; all others before cycle `end` have what they had.
fn put_ready<M: Drop>(
    memories: &mut Lists<M>,
    ready: &mut Vec<Option<Change<M>>>,
    cell: Cell,
    end: u32,
)
    requires within { cell.cycle < end }
    requires component { cell.component < length memories.old }
    requires there { cell.component < length ready.old.items }
    requires ready { IsReady memories.old cell.component cell.cycle (slice_index_or ready.old.items cell.component None) }
    ensures here { memory_at memories.new cell.component cell.cycle ≡ value_in memories.old cell.component cell.cycle (slice_index_or ready.old.items cell.component None) }
    ensures other { IsOtherMemory memories.old memories.new cell.cycle cell.component end }
    ensures len { length ready.new.items ≡ length ready.old.items }
    ensures other_ready { (c : ℕ) → (c ≡ cell.component → ⊥) → slice_index_or ready.new.items c None ≡ slice_index_or ready.old.items c None }
{
    let change = ready[cell.component as usize].take();
    put_memory(memories, cell, end, change);
}

/// The components that change have at a cycle the memories that are ready for them; all others before cycle `end` have what they had.
pub(super) fn put_memories<M: Drop>(
    memories: &mut Lists<M>,
    ready: &mut Vec<Option<Change<M>>>,
    changes: &Row,
    cycle: u32,
    end: u32,
)
    requires within { cycle < end }
    requires each { AreEach (length changes.now) memories.old ready.old.items changes.now }
    requires ready { (c : ℕ) → is_awake changes.now c ≡ true → IsReady memories.old c cycle (slice_index_or ready.old.items c None) }
    ensures width { length memories.new ≡ length memories.old }
    ensures len { length ready.new.items ≡ length ready.old.items }
    ensures put { (c : ℕ) → is_awake changes.now c ≡ true → memory_at memories.new c cycle ≡ value_in memories.old c cycle (slice_index_or ready.old.items c None) }
    ensures cycles { (c t : ℕ) → t < end → (t ≡ cycle → ⊥) → memory_at memories.new c t ≡ memory_at memories.old c t }
    ensures others { (c t : ℕ) → is_awake changes.now c ≡ false → memory_at memories.new c t ≡ memory_at memories.old c t }
{
    // The number of a component is below this one, so that of the next fits.
    let _count = changes.len();
    let mut next = 0;
    while let Some(component) = changes.first_from(next) {
        put_ready(memories, ready, Cell { cycle, component }, end);
        next = component + 1;
    }
}
