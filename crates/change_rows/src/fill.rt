//! A row that holds no words is filled from a source.
ghost use Rattle.std.specs.Prelude.{◌≡◌, ℕ, ◌+◌, ◌<◌, ◌≤◌, [], None, Some, true, false, cond, nat_eq, OnOk, OnErr, length};
ghost use Rattle.change_rows.specs.Cells.{found, end_of};
ghost use Rattle.change_rows.specs.Marks.{is_in};
ghost use Rattle.change_rows.specs.Standing.{standing, standing_before};
ghost use Rattle.change_rows.specs.Changes.{begins_at};
ghost use Rattle.change_rows.specs.Edited.{IsEdited, IsBlankRow};
ghost use Rattle.change_rows.specs.Kinds.{IsRoomy};

use crate::cells::Cells;
use crate::changes::{Changes, lay};
use crate::edit::{Buffers, settle_for};
use crate::grow::blank;
use crate::kinds::{Kinds, mark_moved};
use crate::sets::next_in;
use crate::source::Source;
use std::alloc::AllocError;
use std::mem;

/// A cell for each component of a set.
///
/// # Errors
///
/// Where a growth was refused.
fn write_all<S: Source>(
    width: u32,
    source: &S,
    moved: &[u64],
    row: &mut Cells,
) -> Result<(), AllocError>
    requires { (c : ℕ) → c < width → S.has source.now c }
    ensures written { OnOk result ((c : ℕ) → c < width → is_in moved.now c ≡ true → found row.new c ≡ Some (S.words source.now c)) }
    ensures still { OnOk result ((c : ℕ) → is_in moved.now c ≡ false → found row.new c ≡ None) }
    ensures end { OnOk result (end_of row.new ≤ width) }
{
    row.clear();
    let mut c = next_in(moved, 0, width);
    while c < width {
        row.push_from(c, source, &[])?;
        c = next_in(moved, c + 1, width);
    }
    Ok(())
}

/// A cell without words for each component: those that stand at row t, where these are known to be such.
///
/// # Errors
///
/// Where a growth was refused.
fn blank_from(s: &Changes, t: usize, out: &mut Cells) -> Result<(), AllocError>
    requires { IsBlankRow s.now t }
    ensures found { OnOk result ((c : ℕ) → c < s.now.width → found out.new c ≡ Some []) }
    ensures end { OnOk result (end_of out.new ≤ s.now.width) }
{
    if s.at == t && s.rows[t].is_empty() && s.seam.len() == s.width as usize {
        out.assign(&s.seam)?;
        return Ok(());
    }
    blank(s.width, out)
}

/// The same for the row behind row t; nothing behind the last row.
///
/// # Errors
///
/// Where a growth was refused.
fn blank_behind(s: &Changes, t: usize, out: &mut Cells) -> Result<(), AllocError>
    requires { IsBlankRow s.now t }
    ensures found { OnOk result (t + 1 < length s.now.rows.items → (c : ℕ) → c < s.now.width → found out.new c ≡ Some []) }
    ensures end { OnOk result (end_of out.new ≤ s.now.width) }
    ensures past { OnOk result ((t + 1 < length s.now.rows.items → ⊥) → out.new ≡ []) }
{
    if t + 1 < s.rows.len() {
        return blank_from(s, t, out);
    }
    out.clear();
    Ok(())
}

/// All components hold at row t the words that a source has, where they held none there; all other rows hold what they held.
///
/// # Errors
///
/// Where a growth was refused. All cells hold what they held.
pub(crate) fn fill<S: Source>(
    s: &mut Changes,
    b: &mut Buffers,
    k: &mut Kinds,
    t: usize,
    source: &S,
) -> Result<(), AllocError>
    requires blank { IsBlankRow s.old t }
    requires room { IsRoomy s.old.width k.old }
    requires has { (c : ℕ) → c < s.old.width → S.has source.now c }
    requires still { (c : ℕ) → c < s.old.width → S.still source.now c ≡ true → S.words source.now c ≡ standing_before (begins_at s.old.rows.items s.old.seam s.old.at c) t }
    ensures edited { IsEdited s.old s.new }
    ensures filled { OnOk result ((c u : ℕ) → c < s.old.width → u < length s.old.rows.items → standing (begins_at s.new.rows.items s.new.seam s.new.at c) u ≡ cond (nat_eq u t) (S.words source.now c) (standing (begins_at s.old.rows.items s.old.seam s.old.at c) u)) }
    ensures room { IsRoomy s.old.width k.new }
    ensures err { OnErr result ((c u : ℕ) → begins_at s.new.rows.items s.new.seam s.new.at c u ≡ begins_at s.old.rows.items s.old.seam s.old.at c u) }
{
    settle_for(s, t, &mut b.row)?;
    blank_behind(s, t, &mut b.seam)?;
    mark_moved(k, source);
    write_all(s.width, source, &k.moved, &mut b.row)?;
    lay(&mut s.rows, &mut s.marks, t, &b.row)?;
    mem::swap(&mut s.seam, &mut b.seam);
    s.at = t + 1;
    Ok(())
}
