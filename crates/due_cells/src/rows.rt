//! Storing a state, and marking the cells that read it.
ghost use Rattle.std.specs.Prelude.{◌≡◌, ℕ, ◌+◌, ◌*◌, ◌<◌, ◌≤◌, ◌-◌, ◌^◌, ◌↔◌, ◌&&◌, ◌==◌, Some, true, false, length, All, if◌then◌else◌, OnOk, OnErr, IfErr};
ghost use Rattle.std.specs.Arc.{arc_value};
ghost use Rattle.due_cells.specs.Seen.{held_at, row_at, marked, fresh};
ghost use Rattle.cell_states.specs.Filling.{is_awake};
ghost use Rattle.due_cells.specs.Woken.{woken};
ghost use Rattle.cell_states.specs.Near.{has};
ghost use Rattle.due_cells.specs.Readers.{readers_at, IsIndex, IsIndexed};
ghost use Rattle.due_cells.specs.Stores.{Stores};
ghost use Rattle.cell_states.specs.Versions.{any_changes};

use crate::cells::Cells;
use crate::readers::Readers;
use cell_marks::Row;
use cell_states::{Cell, Room};
use grid_law::{Grid, NoMemory};
use std::sync::Arc;

/// Marks the cells that read a cell, one cycle later.
fn mark_readers<G: Grid>(
    cells: &mut Cells<G>,
    readers: &Readers,
    cell: Cell,
    version: u64,
    room: &mut Room,
)
    requires room { (t : ℕ) → t < length cells.old → length (row_at cells.old t) ≤ room.old }
    requires cycle { cell.cycle < length cells.old }
    requires within { (t : ℕ) → t < length cells.old → All (λ k. k < length (row_at cells.old t)) (readers_at readers.now cell.component) }
    ensures len { length cells.new ≡ length cells.old }
    ensures lens { (t : ℕ) → length (row_at cells.new t) ≡ length (row_at cells.old t) }
    ensures at { (t c : ℕ) → t < length cells.old → held_at cells.new t c
        ≡ (if (t == cell.cycle + 1) && has (readers_at readers.now cell.component) c then marked (held_at cells.old t c) version else held_at cells.old t c) }
{
    let cycles = cells.cycles();
    if cell.cycle + 1 < cycles {
        cells.mark(cell.cycle + 1, readers.of(cell.component), version, room);
    }
}

/// Marks just the components that read one that changes.
pub fn reach_in<G: Grid>(slots: &G::Slots, readers: &Readers, changes: &Row, reached: &mut Row)
    requires index { IsIndex G.rules slots.now readers.now }
    requires width { length changes.now ≡ G.rules.components slots.now }
    requires len { length reached.old ≡ G.rules.components slots.now }
    ensures len { length reached.new ≡ length reached.old }
    ensures reached { (c : ℕ) → c < G.rules.components slots.now
        → is_awake reached.new c ≡ any_changes changes.now (G.rules.near slots.now c) (G.rules.components slots.now) }
{
    let _ = slots;
    readers.gather(changes, reached);
}

/// Marks the cells one cycle later, as the stores of the components that change do one after another, the clock being
/// `clock` before them. Which cells read one of them is known. Takes no memory but that room.
pub fn mark_changed<G: Grid>(
    cells: &mut Cells<G>,
    slots: &G::Slots,
    readers: &Readers,
    changes: &Row,
    reached: &Row,
    cycle: u32,
    clock: u64,
    room: &mut Room,
)
    requires there { IsIndexed G.rules slots.now cells.old cycle readers.now }
    requires width { (length changes.now ≡ G.rules.components slots.now) × (length reached.now ≡ G.rules.components slots.now) × (length changes.now ≤ room.old) }
    requires reached { (c : ℕ) → c < G.rules.components slots.now → is_awake reached.now c ≡ any_changes changes.now (G.rules.near slots.now c) (G.rules.components slots.now) }
    requires fits { clock + length changes.now < 2 ^ 64 }
    ensures len { length cells.new ≡ length cells.old }
    ensures lens { (t : ℕ) → length (row_at cells.new t) ≡ length (row_at cells.old t) }
    ensures others { (t c : ℕ) → t < length cells.old → (t ≡ cycle + 1 → ⊥) → held_at cells.new t c ≡ held_at cells.old t c }
    ensures marked { cycle + 1 < length cells.old → (c : ℕ) → c < G.rules.components slots.now
        → held_at cells.new (cycle + 1) c ≡ woken G.rules slots.now cells.old (λ t k. is_awake changes.now k) clock cycle (G.rules.components slots.now) c }
{
    let cycles = cells.cycles();
    if cycle + 1 >= cycles {
        return;
    }
    cells.note(cycle + 1, readers.near(), changes, reached, clock, room);
}

/// Whether the clock has room for so many cells in each of so many cycles.
pub fn has_room(clock: u64, cycles: u32, count: u32) -> bool
    ensures { result ≡ true → clock + cycles * count < 2 ^ 64 }
{
    let cells = u64::from(cycles) * u64::from(count);
    cells <= u64::MAX - clock
}

/// The clock after so many cycles of so many cells.
pub fn clock_filled(clock: u64, cycles: u32, count: u32) -> u64
    requires { clock + cycles * count < 2 ^ 64 }
    ensures { result ≡ clock + cycles * count }
{
    clock + u64::from(cycles) * u64::from(count)
}

/// The clock after a store.
pub fn clock_after(clock: u64, changed: bool) -> u64
    requires { changed ≡ true → clock < 2 ^ 64 - 1 }
    ensures { result ≡ (if changed then clock + 1 else clock) }
{
    if changed { clock + 1 } else { clock }
}

/// Stores a state; where it changed, marks the cells one cycle later that read it. Where memory is
/// wanting, nothing is changed, and the state comes back.
pub fn store_in<G: Grid>(
    cells: &mut Cells<G>,
    slots: &G::Slots,
    readers: &Readers,
    cell: Cell,
    state: Arc<G::State>,
    changed: bool,
    version: u64,
    room: &mut Room,
) -> Result<(), Arc<G::State>>
    requires there { IsIndexed G.rules slots.now cells.old cell.cycle readers.now }
    requires component { cell.component < G.rules.components slots.now }
    requires room { changed ≡ true → G.rules.components slots.now ≤ room.old }
    requires changes { (changed ≡ false) ↔ ((held_at cells.old cell.cycle cell.component).state ≡ Some (arc_value state)) }
    ensures ok { OnOk result (Stores G.rules slots.now cells.old cells.new cell (arc_value state) changed version) }
    ensures err { OnErr result (cells.new ≡ cells.old) }
    ensures back { IfErr result (λ back. (arc_value back ≡ arc_value state) × (changed ≡ true)) }
{
    if !changed {
        cells.keep(cell);
        return Ok(());
    }
    match cells.put(cell, state) {
        Ok(()) => {
            mark_readers(cells, readers, cell, version, room);
            Ok(())
        }
        Err(state) => Err(state),
    }
}

/// Stores the state of the cell one cycle earlier, which it may be known to hold already; where it
/// changed, marks the cells one cycle later that read it. Where memory is wanting, nothing is
/// changed.
pub fn repeat_in<G: Grid>(
    cells: &mut Cells<G>,
    slots: &G::Slots,
    readers: &Readers,
    cell: Cell,
    stays: bool,
    changed: bool,
    version: u64,
    room: &mut Room,
) -> Result<(), NoMemory>
    requires there { IsIndexed G.rules slots.now cells.old cell.cycle readers.now }
    requires later { 0 < cell.cycle }
    requires component { cell.component < G.rules.components slots.now }
    requires room { changed ≡ true → G.rules.components slots.now ≤ room.old }
    requires stays { stays ≡ true → (held_at cells.old (cell.cycle - 1) cell.component).state ≡ (held_at cells.old cell.cycle cell.component).state }
    requires kept { stays ≡ true → changed ≡ false }
    ensures ok { OnOk result ((x : G.State) → (held_at cells.old (cell.cycle - 1) cell.component).state ≡ Some x
        → Stores G.rules slots.now cells.old cells.new cell x changed version) }
    ensures err { OnErr result (cells.new ≡ cells.old) }
{
    if stays {
        cells.keep(cell);
        return Ok(());
    }
    match cells.repeat(cell) {
        Ok(()) => {
            if changed {
                mark_readers(cells, readers, cell, version, room);
            }
            Ok(())
        }
        Err(_) => Err(NoMemory),
    }
}
