//! What of a cell's state isn't in its words.
ghost use Rattle.std.specs.Prelude.{◌≡◌, ℕ, ◌+◌, ◌-◌, ◌<◌, ◌≤◌, ◌↔◌, IsTrue, IfOk, length, option_map, true, false, None, slice_index_or};
ghost use Rattle.change_lists.specs.Changes.{changes_at, list_at, held_at as memory_at, held_before};
ghost use Rattle.cell_states.specs.Kept.{IsOtherMemory};
ghost use Rattle.cell_states.specs.Ready.{value_in, IsReady};

use crate::Cell;
use change_lists::Lists;
use grid_law::{Grid, NoMemory};
use std::alloc::Global;

/// The memory that a cell is to have, or none, and what stands there with one more owner.
#[derive(Drop)]
pub(crate) struct Change<M> {
    pub value: Option<M>,
    pub stood: Option<M>,
}

/// Room for a change of each of so many components.
pub(super) fn no_changes<M: Drop>(
    alloc: Global,
    count: u32,
) -> Result<Vec<Option<Change<M>>>, NoMemory>
    ensures { IfOk result (λ changes. length changes.items ≡ count) }
{
    let mut changes = Vec::with_capacity(alloc, count as usize)?;
    for _c in 0..count {
        match changes.push(None) {
            Ok(()) => {}
            Err(_) => return Err(NoMemory),
        }
    }
    Ok(changes)
}

/// Whether two memories are equal, or both are none.
pub(super) fn is_same<G: Grid>(a: Option<&G::Memory>, b: Option<&G::Memory>) -> bool
    ensures { IsTrue result ↔ (option_map (λ m. m.now) a.entry ≡ option_map (λ m. m.now) b.entry) }
{
    match (a, b) {
        (Some(a), Some(b)) => G::same_memory(a, b),
        (None, None) => true,
        _ => false,
    }
}

/// Whether what stands before a cell is this memory, or none as this.
fn stood_before<G: Grid>(memories: &Lists<G::Memory>, cell: Cell, value: Option<&G::Memory>) -> bool
    ensures { result ≡ true → held_before memories.now cell.component cell.cycle ≡ option_map (λ m. m.now) value.entry }
{
    if cell.cycle == 0 {
        return value.is_none();
    }
    is_same::<G>(memories.at(cell.component, cell.cycle - 1), value)
}

/// What stands at a cell, with one more owner.
pub(super) fn share_at<G: Grid>(
    memories: &Lists<G::Memory>,
    cell: Cell,
) -> Result<Option<G::Memory>, NoMemory>
    ensures { IfOk result (λ stood. stood ≡ memory_at memories.now cell.component cell.cycle) }
{
    match memories.at(cell.component, cell.cycle) {
        Some(memory) => Ok(Some(G::share_memory(memory)?)),
        None => Ok(None),
    }
}

/// Gets all that a cell needs to have another memory: nothing where the cell before has it. No memory changes.
pub(super) fn ready_memory<G: Grid>(
    memories: &mut Lists<G::Memory>,
    cell: Cell,
    value: Option<G::Memory>,
) -> Result<Option<Change<G::Memory>>, NoMemory>
    requires component { cell.component < length memories.old }
    ensures width { length memories.new ≡ length memories.old }
    ensures same { (c : ℕ) → list_at memories.new c ≡ list_at memories.old c }
    ensures others { (c : ℕ) → (c ≡ cell.component → ⊥) → changes_at memories.new c ≡ changes_at memories.old c }
    ensures ready { IfOk result (λ change. IsReady memories.new cell.component cell.cycle change) }
    ensures value { IfOk result (λ change. value_in memories.new cell.component cell.cycle change ≡ value) }
{
    if stood_before::<G>(memories, cell, value.as_ref()) {
        return Ok(None);
    }
    let stood = share_at::<G>(memories, cell)?;
    match memories.reserve(cell.component) {
        Ok(()) => Ok(Some(Change { value, stood })),
        Err(_) => Err(NoMemory),
    }
}

/// A cell has the memory that is ready for it, or that of the cell before; all others before cycle `end` have what they had.
pub(super) fn put_memory<M: Drop>(
    memories: &mut Lists<M>,
    cell: Cell,
    end: u32,
    change: Option<Change<M>>,
)
    requires component { cell.component < length memories.old }
    requires within { cell.cycle < end }
    requires ready { IsReady memories.old cell.component cell.cycle change }
    ensures here { memory_at memories.new cell.component cell.cycle ≡ value_in memories.old cell.component cell.cycle change }
    ensures other { IsOtherMemory memories.old memories.new cell.cycle cell.component end }
{
    match change {
        Some(change) => {
            let _ = memories.put(cell.component, cell.cycle, end, change.value, change.stood);
        }
        None => {
            let _ = memories.go_on(cell.component, cell.cycle, cell.cycle + 1, end);
        }
    }
}
