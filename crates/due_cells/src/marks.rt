//! Following an edit: the cells that it marks, and the cycles up to its horizon.
ghost use Rattle.std.specs.Prelude.{IsTrue, ◌↔◌, ◌≡◌, ℕ, ◌+◌, ◌<◌, ◌≤◌, OnOk, OnErr, length, take, replicate, All, Some, if◌then◌else◌, nat_lt, ◌^◌, ◌&&◌, ◌||◌, ◌==◌, nat_le};
ghost use Rattle.due_cells.specs.Seen.{row_at, fresh};
ghost use Rattle.cell_states.specs.Near.{has};
ghost use Rattle.cell_states.specs.Filling.{is_awake};
ghost use Rattle.due_cells.specs.Ranges.{GoesOn, covers, is_later, has_later, is_marked, IsWithin, AreRetouched};

use crate::cells::Cells;
use cell_marks::Row;
use cell_states::CellRange;
use grid_law::{Grid, NoMemory};

/// Whether a range begins where another one of its component ends.
fn goes_on(last: CellRange, range: CellRange) -> bool
    ensures { IsTrue result ↔ GoesOn last range }
{
    last.component == range.component
        && last.to == range.from
        && last.from <= last.to
        && range.from <= range.to
}

/// Adds a range, where its cells read a slot; to the last one, where it goes on from that.
pub fn add_where(ranges: &mut Vec<CellRange>, range: CellRange, reads: bool) -> Result<(), NoMemory>
    ensures at { OnOk result ((t c : ℕ) → is_marked ranges.new.items t c ≡ (is_marked ranges.old.items t c || (covers range t c && reads))) }
    ensures within { (n count : ℕ) → All (IsWithin n count) ranges.old.items → IsWithin n count range → OnOk result (All (IsWithin n count) ranges.new.items) }
{
    if !reads {
        return Ok(());
    }
    let count = ranges.len();
    if count > 0 && goes_on(ranges[count - 1], range) {
        ranges[count - 1].to = range.to;
        return Ok(());
    }
    ranges.push(range)?;
    Ok(())
}

/// Whether a range has all cycles from 1 on to before one.
pub(crate) fn is_later(range: CellRange, to: u32) -> bool
    ensures { result ≡ is_later to range }
{
    range.from == 1 && range.to == to
}

/// Marks and lists a range's component, where the range has all cycles from 1 on to before one.
fn gather_one(range: CellRange, to: u32, row: &mut Row, list: &mut Vec<u32>) -> Result<(), NoMemory>
    requires { range.component < length row.old }
    ensures len { length row.new ≡ length row.old }
    ensures marked { OnOk result ((c : ℕ) → is_awake row.new c ≡ (is_awake row.old c || (is_later to range && (c == range.component)))) }
    ensures listed { OnOk result ((c : ℕ) → has list.new.items c ≡ (has list.old.items c || (is_later to range && (c == range.component)))) }
    ensures there { (n : ℕ) → range.component < n → All (λ c. c < n) list.old.items → OnOk result (All (λ c. c < n) list.new.items) }
{
    if is_later(range, to) {
        list.push(range.component)?;
        row.set(range.component);
    }
    Ok(())
}

/// Marks and lists the components of the ranges with all cycles from 1 on to before one.
fn gather(ranges: &[CellRange], to: u32, row: &mut Row, list: &mut Vec<u32>) -> Result<(), NoMemory>
    requires { All (λ range. range.component < length row.old) ranges.now }
    ensures len { length row.new ≡ length row.old }
    ensures marked { OnOk result ((c : ℕ) → is_awake row.new c ≡ (is_awake row.old c || has_later ranges.now to c)) }
    ensures listed { OnOk result ((c : ℕ) → has list.new.items c ≡ (has list.old.items c || has_later ranges.now to c)) }
    ensures there { All (λ c. c < length row.old) list.old.items → OnOk result (All (λ c. c < length row.old) list.new.items) }
{
    for range in ranges {
        gather_one(*range, to, row, list)?;
    }
    Ok(())
}

/// The first cycle of which one of these ranges has a cell.
fn first_of(ranges: &[CellRange]) -> u32
    ensures { All (λ range. result ≤ range.from) ranges.now }
{
    let mut first = u32::MAX;
    for range in ranges {
        first = first.min(range.from);
    }
    first
}

/// Before which cycle all of these ranges end.
fn end_of(ranges: &[CellRange]) -> u32
    ensures { All (λ range. range.to ≤ result) ranges.now }
{
    let mut end = 0;
    for range in ranges {
        if end < range.to {
            end = range.to;
        }
    }
    end
}

/// Adds cycles of new cells up to the horizon, where there are fewer.
fn grow_to<G: Grid>(cells: &mut Cells<G>, horizon: u32, version: u64) -> Result<(), NoMemory>
    requires some { 0 < length cells.old }
    ensures len { OnOk result (horizon < length cells.new) }
    ensures at { OnOk result ((t : ℕ) → t < length cells.new → row_at cells.new t
        ≡ (if nat_lt t (length cells.old) then row_at cells.old t else replicate (length (row_at cells.old 0)) (fresh version))) }
    ensures before { OnOk result (take (length cells.old) cells.new ≡ cells.old) }
    ensures err { OnErr result (cells.new ≡ cells.old) }
{
    let before = cells.cycles();
    if horizon < before {
        return Ok(());
    }
    if horizon == u32::MAX {
        return Err(NoMemory);
    }
    match cells.grow(horizon + 1 - before, version) {
        Ok(()) => Ok(()),
        Err(_) => Err(NoMemory),
    }
}

/// Removes the cycles past the horizon, if there are some.
fn cut<G: Grid>(cells: &mut Cells<G>, horizon: u32)
    ensures { cells.new ≡ take (horizon + 1) cells.old }
{
    let cycles = cells.cycles();
    if horizon >= cycles {
        return;
    }
    // A truncation at the end looks at all that it leaves.
    if horizon + 1 == cycles {
        return;
    }
    cells.truncate(horizon + 1);
}

/// Follows an edit: the cycles up to the horizon, with these cells marked.
pub fn retouch<G: Grid>(
    cells: &mut Cells<G>,
    ranges: &[CellRange],
    last: u32,
    horizon: u32,
    count: u32,
    version: u64,
) -> Result<(), NoMemory>
    requires some { 0 < length cells.old }
    requires within { All (IsWithin (last + 1) count) ranges.now }
    requires last { last < length cells.old }
    requires last_kept { last ≤ horizon }
    requires whole { (t : ℕ) → t < length cells.old → length (row_at cells.old t) ≡ count }
    ensures ok { OnOk result (AreRetouched cells.old cells.new ranges.now horizon count version) }
    ensures err { OnErr result (cells.new ≡ cells.old) }
{
    let alloc = cells.allocator();
    // The cycles are at most this many, so the next cycle's number fits.
    let before = cells.cycles();
    // All ranges end there, so no later cycle is looked at; `mark_ranges` wants a cycle at least.
    let to = end_of(ranges).min(last + 1);
    let to = if to == 0 { 1 } else { to };
    let mut row = Row::new(alloc, count, false)?;
    let mut list = Vec::new(alloc);
    gather(ranges, to, &mut row, &mut list)?;
    grow_to(cells, horizon, version)?;
    let from = first_of(ranges);
    match cells.mark_ranges(ranges, from, to, &row, list.as_slice(), version) {
        Ok(()) => {}
        Err(_) => {
            cells.truncate(before);
            return Err(NoMemory);
        }
    }
    cut(cells, horizon);
    Ok(())
}
