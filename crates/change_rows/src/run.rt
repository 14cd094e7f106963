//! Cells that hold over several rows what they hold before them.
ghost use Rattle.std.specs.Prelude.{◌≡◌, ℕ, ◌+◌, ◌-◌, ◌*◌, ◌<◌, ◌≤◌, [], List, None, Some, true, false, cond, ◌&&◌, nat_lt, nat_le, All, OnOk, OnErr, IfOk, length, is_some, unwrap_or, slice_index_or, slice_set};
ghost use Rattle.change_rows.specs.Cells.{found, end_of};
ghost use Rattle.change_rows.specs.Marks.{is_in};
ghost use Rattle.change_rows.specs.Standing.{standing};
ghost use Rattle.change_rows.specs.Changes.{row_at, begins_at, IsChanges};
ghost use Rattle.change_rows.specs.Edited.{IsEdited};
ghost use Rattle.change_rows.specs.Left.{left_in};

use crate::cells::Cells;
use crate::changes::{Changes, is_change, next_begin, put_cells, words_in};
use crate::edit::{Buffers, push_other, settle};
use crate::sets::{is_member, next_in};
use std::alloc::{AllocError, Global};
use std::mem;

/// The cells of whose components a set has none.
///
/// # Errors
///
/// Where a growth was refused.
fn without(cells: &Cells, set: &[u64], out: &mut Cells) -> Result<(), AllocError>
    ensures found { OnOk result ((c : ℕ) → found out.new c ≡ cond (is_in set.now c) None (found cells.now c)) }
    ensures end { OnOk result (end_of out.new ≤ end_of cells.now) }
{
    out.clear();
    for i in 0..cells.len() {
        let c = cells.component(i);
        if !is_member(set, c) {
            out.push(c, cells.words(i))?;
        }
    }
    Ok(())
}

/// Cells without words of the components of a set.
fn chosen_of(set: &[u64], width: u32, out: &mut Cells) -> Result<(), AllocError>
    ensures chosen { OnOk result ((c : ℕ) → c < width → is_some (found out.new c) ≡ is_in set.now c) }
    ensures end { OnOk result (end_of out.new ≤ width) }
{
    out.clear();
    let mut c = next_in(set, 0, width);
    while c < width {
        out.push(c, &[])?;
        c = next_in(set, c + 1, width);
    }
    Ok(())
}

/// What a component held at row `last`, for the row behind it, unless it holds there what it holds at row `before`.
fn keep_behind(
    s: &Changes,
    before: usize,
    last: usize,
    c: u32,
    out: &mut Cells,
) -> Result<(), AllocError>
    requires changes { IsChanges s.now.width s.now.rows.items s.now.marks.items s.now.seam s.now.at }
    requires order { before ≤ last }
    requires row { last + 1 < length s.now.rows.items }
    requires component { c < s.now.width }
    requires ascending { end_of out.old ≤ c }
    ensures kept { OnOk result (found (row_at s.now.rows.items (last + 1)) c ≡ None → unwrap_or (found out.new c) (standing (begins_at s.now.rows.items s.now.seam s.now.at c) before) ≡ standing (begins_at s.now.rows.items s.now.seam s.now.at c) last) }
    ensures others { OnOk result ((d : ℕ) → (d ≡ c → ⊥) → found out.new d ≡ found out.old d) }
    ensures end { OnOk result (end_of out.new ≤ c + 1) }
{
    if is_change(&s.marks, last + 1, c) {
        return Ok(());
    }
    push_other(c, words_in(s, last, c), words_in(s, before, c), out)?;
    Ok(())
}

/// What the chosen components held at row `last`, for the row behind it.
fn seam_behind(
    s: &Changes,
    before: usize,
    last: usize,
    chosen: &Cells,
    out: &mut Cells,
) -> Result<(), AllocError>
    requires changes { IsChanges s.now.width s.now.rows.items s.now.marks.items s.now.seam s.now.at }
    requires order { before ≤ last }
    requires row { last + 1 < length s.now.rows.items }
    requires wide { end_of chosen.now ≤ s.now.width }
    ensures kept { OnOk result ((c : ℕ) (w : List ℕ) → found chosen.now c ≡ Some w → found (row_at s.now.rows.items (last + 1)) c ≡ None → unwrap_or (found out.new c) (standing (begins_at s.now.rows.items s.now.seam s.now.at c) before) ≡ standing (begins_at s.now.rows.items s.now.seam s.now.at c) last) }
    ensures only { OnOk result ((c : ℕ) → found chosen.now c ≡ None → found out.new c ≡ None) }
    ensures end { OnOk result (end_of out.new ≤ end_of chosen.now) }
{
    out.clear();
    for i in 0..chosen.len() {
        keep_behind(s, before, last, chosen.component(i), out)?;
    }
    Ok(())
}

/// The same; none behind the last row.
fn seam_of(
    s: &Changes,
    before: usize,
    last: usize,
    chosen: &Cells,
    out: &mut Cells,
) -> Result<(), AllocError>
    requires changes { IsChanges s.now.width s.now.rows.items s.now.marks.items s.now.seam s.now.at }
    requires order { before ≤ last }
    requires row { last < length s.now.rows.items }
    requires wide { end_of chosen.now ≤ s.now.width }
    ensures kept { OnOk result (last + 1 < length s.now.rows.items → (c : ℕ) (w : List ℕ) → found chosen.now c ≡ Some w → found (row_at s.now.rows.items (last + 1)) c ≡ None → unwrap_or (found out.new c) (standing (begins_at s.now.rows.items s.now.seam s.now.at c) before) ≡ standing (begins_at s.now.rows.items s.now.seam s.now.at c) last) }
    ensures only { OnOk result ((c : ℕ) → found chosen.now c ≡ None → found out.new c ≡ None) }
    ensures end { OnOk result (end_of out.new ≤ end_of chosen.now) }
    ensures past { OnOk result ((last + 1 < length s.now.rows.items → ⊥) → out.new ≡ []) }
{
    if last + 1 < s.rows.len() {
        return seam_behind(s, before, last, chosen, out);
    }
    out.clear();
    Ok(())
}

/// A row, and the cells that it is left.
#[derive(Drop)]
struct Left {
    row: usize,
    cells: Cells,
}

/// A row without the cells of the components of a set.
///
/// # Errors
///
/// Where a growth was refused.
fn left_of(
    alloc: Global,
    s: &Changes,
    row: usize,
    set: &[u64],
    buffer: &mut Cells,
) -> Result<Left, AllocError>
    requires changes { IsChanges s.now.width s.now.rows.items s.now.marks.items s.now.seam s.now.at }
    requires row { row < length s.now.rows.items }
    ensures row { IfOk result (λ left. left.row ≡ row) }
    ensures found { IfOk result (λ left. (c : ℕ) → found left.cells c ≡ cond (is_in set.now c) None (found (row_at s.now.rows.items row) c)) }
    ensures end { IfOk result (λ left. end_of left.cells ≤ s.now.width) }
{
    without(&s.rows[row], set, buffer)?;
    let cells = buffer.copy(alloc)?;
    Ok(Left { row, cells })
}

/// Those of the rows behind `before` up to `last` at which a component of a set may begin, without the cells of these components, by row.
///
/// # Errors
///
/// Where a growth was refused.
fn rest_of(
    alloc: Global,
    s: &Changes,
    before: usize,
    last: usize,
    set: &[u64],
    buffer: &mut Cells,
) -> Result<Vec<Left>, AllocError>
    requires changes { IsChanges s.now.width s.now.rows.items s.now.marks.items s.now.seam s.now.at }
    requires order { before ≤ last }
    requires row { last < length s.now.rows.items }
    ensures rows { IfOk result (λ rest. All (λ left. left.row ≤ last) rest.items) }
    ensures end { IfOk result (λ rest. All (λ left. end_of left.cells ≤ s.now.width) rest.items) }
    ensures before { IfOk result (λ rest. (u : ℕ) → u ≤ before → left_in rest.items u ≡ None) }
    ensures behind { IfOk result (λ rest. (u : ℕ) → last < u → left_in rest.items u ≡ None) }
    ensures found { IfOk result (λ rest. (u c : ℕ) → before < u → u ≤ last → c < s.now.width → found (unwrap_or (left_in rest.items u) (row_at s.now.rows.items u)) c ≡ cond (is_in set.now c) None (found (row_at s.now.rows.items u) c)) }
{
    let mut rest = Vec::new(alloc);
    let end = last as u32 + 1;
    let mut row = next_begin(s, before as u32 + 1, end, set);
    while row < end {
        match rest.push(left_of(alloc, s, row as usize, set, buffer)?) {
            Ok(()) => {}
            Err(_) => return Err(AllocError),
        }
        row = next_begin(s, row + 1, end, set);
    }
    Ok(rest)
}

/// The cells that a row is left, in the place of its own.
fn put_left(s: &mut Changes, left: Left)
    requires changes { IsChanges s.old.width s.old.rows.items s.old.marks.items s.old.seam s.old.at }
    requires row { left.row < length s.old.rows.items }
    requires wide { end_of left.cells ≤ s.old.width }
    ensures changes { IsChanges s.new.width s.new.rows.items s.new.marks.items s.new.seam s.new.at }
    ensures width { s.new.width ≡ s.old.width }
    ensures seam { s.new.seam ≡ s.old.seam }
    ensures rows { s.new.rows.items ≡ slice_set s.old.rows.items left.row left.cells }
{
    put_cells(&mut s.rows, &mut s.marks, left.row, left.cells);
}

/// The cells that rows are left, in the place of theirs.
fn put_rows(s: &mut Changes, rest: Vec<Left>)
    requires changes { IsChanges s.old.width s.old.rows.items s.old.marks.items s.old.seam s.old.at }
    requires rows { All (λ left. left.row < length s.old.rows.items) rest.items }
    requires wide { All (λ left. end_of left.cells ≤ s.old.width) rest.items }
    ensures edited { IsEdited s.old s.new }
    ensures seam { s.new.seam ≡ s.old.seam }
    ensures rows { (u : ℕ) → row_at s.new.rows.items u ≡ unwrap_or (left_in rest.items u) (row_at s.old.rows.items u) }
{
    let mut rest = rest;
    while let Some(left) = rest.pop() {
        put_left(s, left);
    }
}

/// The components of a set hold behind row `before` and up to row `last` what they hold in row `before`; all other cells
/// hold what they held.
///
/// # Errors
///
/// Where a growth was refused. All cells hold what they held.
pub(crate) fn repeat(
    alloc: Global,
    s: &mut Changes,
    b: &mut Buffers,
    before: usize,
    last: usize,
    set: &[u64],
) -> Result<(), AllocError>
    requires changes { IsChanges s.old.width s.old.rows.items s.old.marks.items s.old.seam s.old.at }
    requires order { before ≤ last }
    requires row { last < length s.old.rows.items }
    ensures edited { IsEdited s.old s.new }
    ensures run { OnOk result ((c u : ℕ) → c < s.old.width → u < length s.old.rows.items → standing (begins_at s.new.rows.items s.new.seam s.new.at c) u ≡ cond (is_in set.now c && (nat_lt before u && nat_le u last)) (standing (begins_at s.old.rows.items s.old.seam s.old.at c) before) (standing (begins_at s.old.rows.items s.old.seam s.old.at c) u)) }
    ensures err { OnErr result ((c u : ℕ) → begins_at s.new.rows.items s.new.seam s.new.at c u ≡ begins_at s.old.rows.items s.old.seam s.old.at c u) }
{
    settle(s, &mut b.row)?;
    chosen_of(set, s.width, &mut b.chosen)?;
    seam_of(s, before, last, &b.chosen, &mut b.seam)?;
    let rest = rest_of(alloc, s, before, last, set, &mut b.row)?;
    put_rows(s, rest);
    mem::swap(&mut s.seam, &mut b.seam);
    s.at = last + 1;
    Ok(())
}
