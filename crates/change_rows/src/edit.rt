//! A row is put, step by step: all buffers are made before anything changes.
ghost use Rattle.std.specs.Prelude.{◌≡◌, ℕ, ◌+◌, ◌*◌, ◌<◌, ◌≤◌, ◌↔◌, [], None, true, false, cond, nat_eq, IsTrue, OnOk, OnErr, length, is_some, unwrap_or, slice_index_or};
ghost use Rattle.std.specs.Option.{option_or};
ghost use Rattle.change_rows.specs.Cells.{found, end_of, IsSplit};
ghost use Rattle.change_rows.specs.Standing.{standing, standing_before};
ghost use Rattle.change_rows.specs.Changes.{row_at, begins_at, IsChanges};
ghost use Rattle.change_rows.specs.Edited.{IsEdited};
ghost use Rattle.change_rows.specs.Drafts.{IsSettledFor, IsPushed, IsCellLaid, IsDraftLaid};

use crate::cells::{Cells, same_words};
use crate::changes::{Changes, is_change, lay, words_in};
use crate::merge::{behind, seek, unite, words_or};
use std::alloc::{AllocError, Global};
use std::mem;

/// Cells that are put together on the way to a row.
#[derive(Drop)]
pub(crate) struct Buffers {
    /// Those of the components of a run.
    pub chosen: Cells,
    /// A row with the seam that stands there.
    pub under: Cells,
    pub row: Cells,
    pub seam: Cells,
}

impl Buffers {
    pub fn new(alloc: Global) -> Buffers {
        Buffers {
            chosen: Cells::new(alloc),
            under: Cells::new(alloc),
            row: Cells::new(alloc),
            seam: Cells::new(alloc),
        }
    }
}

/// The seam goes into its row.
///
/// # Errors
///
/// Where a growth was refused. Nothing is changed.
pub(crate) fn settle(s: &mut Changes, buffer: &mut Cells) -> Result<(), AllocError>
    requires { IsChanges s.old.width s.old.rows.items s.old.marks.items s.old.seam s.old.at }
    ensures edited { IsEdited s.old s.new }
    ensures same { (c u : ℕ) → begins_at s.new.rows.items s.new.seam s.new.at c u ≡ begins_at s.old.rows.items s.old.seam s.old.at c u }
    ensures settled { OnOk result (s.new.seam ≡ []) }
{
    let at = s.at;
    if at >= s.rows.len() || s.seam.is_empty() {
        return Ok(());
    }
    unite(&s.rows[at], &s.seam, buffer)?;
    lay(&mut s.rows, &mut s.marks, at, buffer)?;
    s.seam.clear();
    Ok(())
}

/// The words of a cell a cycle before; none before row 0.
pub(crate) fn words_before(s: &Changes, t: usize, c: u32) -> &[u64]
    requires changes { IsChanges s.now.width s.now.rows.items s.now.marks.items s.now.seam s.now.at }
    requires row { t < length s.now.rows.items }
    requires component { c < s.now.width }
    ensures { result.now ≡ standing_before (begins_at s.now.rows.items s.now.seam s.now.at c) t }
{
    if t == 0 {
        return &[];
    }
    words_in(s, t - 1, c)
}

/// The same, unless it is put at row t.
///
/// # Errors
///
/// Where a growth was refused. Nothing is changed.
pub(crate) fn settle_for(s: &mut Changes, t: usize, buffer: &mut Cells) -> Result<(), AllocError>
    requires { IsChanges s.old.width s.old.rows.items s.old.marks.items s.old.seam s.old.at }
    ensures edited { IsEdited s.old s.new }
    ensures same { (c u : ℕ) → begins_at s.new.rows.items s.new.seam s.new.at c u ≡ begins_at s.old.rows.items s.old.seam s.old.at c u }
    ensures elsewhere { OnOk result ((s.new.at ≡ t → ⊥) → s.new.seam ≡ []) }
{
    if s.at == t {
        return Ok(());
    }
    settle(s, buffer)
}

/// A cell more, behind all others, unless its component holds its words anyway.
pub(crate) fn push_other(
    c: u32,
    words: &[u64],
    held: &[u64],
    out: &mut Cells,
) -> Result<(), AllocError>
    requires ascending { end_of out.old ≤ c }
    ensures { OnOk result (IsPushed c words.now held.now out.old out.new) }
{
    if same_words(held, words) {
        return Ok(());
    }
    out.push(c, words)?;
    Ok(())
}

/// Whether there is a row behind row t, and a component goes on there.
pub(crate) fn goes_on(s: &Changes, t: usize, c: u32) -> bool
    requires changes { IsChanges s.now.width s.now.rows.items s.now.marks.items s.now.seam s.now.at }
    requires row { t < length s.now.rows.items }
    requires component { c < s.now.width }
    ensures yes { result ≡ true → t + 1 < length s.now.rows.items }
    ensures no { result ≡ false → t + 1 < length s.now.rows.items → found (row_at s.now.rows.items (t + 1)) c ≡ None → ⊥ }
{
    t + 1 < s.rows.len() && !is_change(&s.marks, t + 1, c)
}

/// What a cell of a draft is for its row, and what stood there for the row behind it, where that has none of its component.
fn put_cell(
    s: &Changes,
    t: usize,
    c: u32,
    words: &[u64],
    under: &Cells,
    place: usize,
    row: &mut Cells,
    seam: &mut Cells,
) -> Result<(), AllocError>
    requires settled { IsSettledFor s.now t }
    requires component { c < s.now.width }
    requires here { found under.now c ≡ option_or (found (row_at s.now.rows.items t) c) (found s.now.seam c) }
    requires split { IsSplit under.now c place }
    requires ascending { end_of row.old ≤ c }
    requires seam_ascending { end_of seam.old ≤ c }
    ensures { OnOk result (IsCellLaid s.now t c words.now row.old row.new seam.old seam.new) }
{
    let before = words_before(s, t, c);
    push_other(c, words, before, row)?;
    if goes_on(s, t, c) {
        let stood = words_or(under, place, c, before);
        push_other(c, stood, words, seam)?;
    }
    Ok(())
}

/// A draft over the cells that begin at row t: the row once it is put there, and the seam behind it.
fn lay_over(
    s: &Changes,
    t: usize,
    under: &Cells,
    draft: &Cells,
    row: &mut Cells,
    seam: &mut Cells,
) -> Result<(), AllocError>
    requires settled { IsSettledFor s.now t }
    requires wide { end_of draft.now ≤ s.now.width }
    requires under_wide { end_of under.now ≤ s.now.width }
    requires here { (c : ℕ) → found under.now c ≡ option_or (found (row_at s.now.rows.items t) c) (found s.now.seam c) }
    ensures { OnOk result (IsDraftLaid s.now t draft.now (found under.now) row.new seam.new) }
{
    row.clear();
    seam.clear();
    let mut from = 0;
    for i in 0..draft.len() {
        let c = draft.component(i);
        let place = seek(under, from, c);
        row.append(under, from, place)?;
        put_cell(s, t, c, draft.words(i), under, place, row, seam)?;
        from = behind(under, place, c);
    }
    row.append(under, from, under.len())?;
    Ok(())
}

/// The row once a draft is put there, and the seam behind it. What begins at the row already is its own cells, those of the
/// seam, or both.
fn row_of(s: &Changes, t: usize, draft: &Cells, b: &mut Buffers) -> Result<(), AllocError>
    requires settled { IsSettledFor s.now t }
    requires wide { end_of draft.now ≤ s.now.width }
    ensures { OnOk result (IsDraftLaid s.now t draft.now (λ c. option_or (found (row_at s.now.rows.items t) c) (found s.now.seam c)) b.new.row b.new.seam) }
{
    if s.seam.is_empty() {
        return lay_over(s, t, &s.rows[t], draft, &mut b.row, &mut b.seam);
    }
    if s.rows[t].is_empty() {
        return lay_over(s, t, &s.seam, draft, &mut b.row, &mut b.seam);
    }
    unite(&s.rows[t], &s.seam, &mut b.under)?;
    lay_over(s, t, &b.under, draft, &mut b.row, &mut b.seam)
}

/// The cells of a draft hold its words at row t; all other cells of all rows hold what they held.
///
/// # Errors
///
/// Where a growth was refused. All cells hold what they held.
pub(crate) fn put(
    s: &mut Changes,
    b: &mut Buffers,
    t: usize,
    draft: &Cells,
) -> Result<(), AllocError>
    requires changes { IsChanges s.old.width s.old.rows.items s.old.marks.items s.old.seam s.old.at }
    requires row { t < length s.old.rows.items }
    requires wide { end_of draft.now ≤ s.old.width }
    ensures edited { IsEdited s.old s.new }
    ensures put { OnOk result ((c u : ℕ) → u < length s.old.rows.items → standing (begins_at s.new.rows.items s.new.seam s.new.at c) u ≡ cond (nat_eq u t) (unwrap_or (found draft.now c) (standing (begins_at s.old.rows.items s.old.seam s.old.at c) u)) (standing (begins_at s.old.rows.items s.old.seam s.old.at c) u)) }
    ensures err { OnErr result ((c u : ℕ) → begins_at s.new.rows.items s.new.seam s.new.at c u ≡ begins_at s.old.rows.items s.old.seam s.old.at c u) }
{
    settle_for(s, t, &mut b.row)?;
    row_of(s, t, draft, b)?;
    lay(&mut s.rows, &mut s.marks, t, &b.row)?;
    mem::swap(&mut s.seam, &mut b.seam);
    s.at = t + 1;
    Ok(())
}
