//! Making cells due, with the version of an edit or a store.
ghost use Rattle.std.specs.Prelude.{◌≡◌, ℕ, ◌+◌, ◌<◌, ◌≤◌, ◌&&◌, ◌==◌, nat_le, nat_lt, not, OnOk, All, length, slice_index_or, []};
ghost use Rattle.cell_states.specs.Near.{has};
ghost use Rattle.cell_states.specs.Filling.{is_awake};
ghost use Rattle.cell_states.specs.Versions.{version_at, lists, IsOtherRow};
ghost use Rattle.due_cells.specs.Layout.{IsLayout};
ghost use Rattle.due_cells.specs.Marking.{IsReady, AreMarked};
ghost use Rattle.due_cells.specs.Ranges.{covers, is_later, is_marked_else, IsWithin};

use super::begin_idle;
use crate::marks::is_later;
use cell_marks::{Marks, Row};
use cell_states::{Cell, CellRange, Versions, give_in, make_room_in};
use grid_law::NoMemory;

/// Takes room for a version of each cell of a cycle, where some are due. No version changes.
fn make_room(due: &Marks, versions: &mut Vec<Versions>, t: u32) -> Result<(), NoMemory>
    requires { t < length versions.old.items }
    ensures row { IsOtherRow versions.old.items versions.new.items t }
    ensures same { (c : ℕ) → version_at (lists versions.new.items) t c ≡ version_at (lists versions.old.items) t c }
    ensures ready { OnOk result ((v : ℕ) → IsReady v due.now versions.new.items t) }
{
    if due.row_count(t) == 0 {
        return Ok(());
    }
    make_room_in(versions, t)?;
    Ok(())
}

/// The same of the cycles from one on to before another.
pub(super) fn make_rooms(
    due: &Marks,
    versions: &mut Vec<Versions>,
    from: u32,
    to: u32,
) -> Result<(), NoMemory>
    requires layout { IsLayout due.now (lists versions.old.items) }
    requires within { to ≤ length due.now.rows }
    ensures len { length (lists versions.new.items) ≡ length (lists versions.old.items) }
    ensures lens { (t : ℕ) → length (slice_index_or (lists versions.new.items) t []) ≡ length (slice_index_or (lists versions.old.items) t []) }
    ensures same { (t c : ℕ) → version_at (lists versions.new.items) t c ≡ version_at (lists versions.old.items) t c }
    ensures ready { OnOk result ((v t : ℕ) → from ≤ t → t < to → IsReady v due.now versions.new.items t) }
{
    for t in from..to {
        make_room(due, versions, t)?;
    }
    Ok(())
}

/// Makes a cell due.
fn mark_cell(due: &mut Marks, versions: &mut Vec<Versions>, cell: Cell, version: u64)
    requires layout { IsLayout due.old (lists versions.old.items) }
    requires cycle { cell.cycle < length due.old.rows }
    requires component { cell.component < due.old.width }
    requires ready { IsReady version due.old versions.old.items cell.cycle }
    ensures { AreMarked version due.old versions.old.items due.new versions.new.items (λ t c. (t == cell.cycle) && (c == cell.component)) }
{
    begin_idle(versions, due, cell.cycle, version);
    give_in(versions, cell.cycle, &[cell.component], version);
    due.set(cell.cycle, cell.component);
}

/// Makes the cells of these components at a cycle due.
pub(super) fn mark_list(
    due: &mut Marks,
    versions: &mut Vec<Versions>,
    cycle: u32,
    components: &[u32],
    version: u64,
)
    requires layout { IsLayout due.old (lists versions.old.items) }
    requires cycle { cycle < length due.old.rows }
    requires there { All (λ c. c < due.old.width) components.now }
    requires ready { IsReady version due.old versions.old.items cycle }
    ensures { AreMarked version due.old versions.old.items due.new versions.new.items (λ t c. (t == cycle) && has components.now c) }
{
    for component in components {
        let component = *component;
        mark_cell(due, versions, Cell { cycle, component }, version);
    }
}

/// The same at once, where they are marked too.
fn mark_row(
    due: &mut Marks,
    versions: &mut Vec<Versions>,
    cycle: u32,
    row: &Row,
    list: &[u32],
    version: u64,
)
    requires layout { IsLayout due.old (lists versions.old.items) }
    requires cycle { cycle < length due.old.rows }
    requires width { length row.now ≡ due.old.width }
    requires listed { (c : ℕ) → is_awake row.now c ≡ has list.now c }
    requires there { All (λ c. c < due.old.width) list.now }
    requires ready { IsReady version due.old versions.old.items cycle }
    ensures { AreMarked version due.old versions.old.items due.new versions.new.items (λ t c. (t == cycle) && has list.now c) }
{
    begin_idle(versions, due, cycle, version);
    give_in(versions, cycle, list, version);
    due.set_all(cycle, row);
}

/// Makes the cells of a range due.
fn mark_range(due: &mut Marks, versions: &mut Vec<Versions>, range: CellRange, version: u64)
    requires layout { IsLayout due.old (lists versions.old.items) }
    requires within { IsWithin (length due.old.rows) due.old.width range }
    requires ready { (t : ℕ) → range.from ≤ t → t < range.to → IsReady version due.old versions.old.items t }
    ensures { AreMarked version due.old versions.old.items due.new versions.new.items (λ t c. covers range t c) }
{
    for cycle in range.from..range.to {
        let component = range.component;
        mark_cell(due, versions, Cell { cycle, component }, version);
    }
}

/// Makes the cells of these components due at the cycles from 1 on to before one.
pub(super) fn mark_later(
    due: &mut Marks,
    versions: &mut Vec<Versions>,
    row: &Row,
    list: &[u32],
    to: u32,
    version: u64,
)
    requires some { 0 < to }
    requires to { to ≤ length due.old.rows }
    requires layout { IsLayout due.old (lists versions.old.items) }
    requires width { length row.now ≡ due.old.width }
    requires listed { (c : ℕ) → is_awake row.now c ≡ has list.now c }
    requires there { All (λ c. c < due.old.width) list.now }
    requires ready { (t : ℕ) → (list.now ≡ [] → ⊥) → 1 ≤ t → t < to → IsReady version due.old versions.old.items t }
    ensures { AreMarked version due.old versions.old.items due.new versions.new.items (λ t c. has list.now c && (nat_le 1 t && nat_lt t to)) }
{
    if list.is_empty() {
        return;
    }
    for cycle in 1..to {
        mark_row(due, versions, cycle, row, list, version);
    }
}

/// Makes the cells of a range due, unless it has all cycles from 1 on to before one.
fn mark_other(
    due: &mut Marks,
    versions: &mut Vec<Versions>,
    range: CellRange,
    to: u32,
    version: u64,
)
    requires layout { IsLayout due.old (lists versions.old.items) }
    requires within { IsWithin (length due.old.rows) due.old.width range }
    requires ready { (t : ℕ) → range.from ≤ t → t < range.to → IsReady version due.old versions.old.items t }
    ensures { AreMarked version due.old versions.old.items due.new versions.new.items (λ t c. not (is_later to range) && covers range t c) }
{
    if !is_later(range, to) {
        mark_range(due, versions, range, version);
    }
}

/// The same of each of these.
pub(super) fn mark_others(
    due: &mut Marks,
    versions: &mut Vec<Versions>,
    ranges: &[CellRange],
    to: u32,
    version: u64,
)
    requires layout { IsLayout due.old (lists versions.old.items) }
    requires within { All (IsWithin (length due.old.rows) due.old.width) ranges.now }
    requires ready { All (λ range. (t : ℕ) → range.from ≤ t → t < range.to → IsReady version due.old versions.old.items t) ranges.now }
    ensures { AreMarked version due.old versions.old.items due.new versions.new.items (λ t c. is_marked_else ranges.now to t c) }
{
    for range in ranges {
        mark_other(due, versions, *range, to, version);
    }
}
