//! Rows more, and fewer.
ghost use Rattle.std.specs.Prelude.{◌≡◌, ℕ, ◌+◌, ◌*◌, ◌<◌, ◌≤◌, ◌^◌, ◌++◌, min, [], Some, OnOk, OnErr, length, take, replicate, vec_len, vec_capacity, slice_index_or};
ghost use Rattle.change_rows.specs.Cells.{found, end_of};
ghost use Rattle.change_rows.specs.Changes.{begins_at, IsChanges};
ghost use Rattle.change_rows.specs.Edited.{IsGrown};

use crate::cells::Cells;
use crate::changes::{Changes, put_cells};
use crate::marks::{cut_lines, grow_lines};
use std::alloc::{AllocError, Global};

/// A cell without words for each component.
pub(crate) fn blank(width: u32, out: &mut Cells) -> Result<(), AllocError>
    ensures found { OnOk result ((c : ℕ) → c < width → found out.new c ≡ Some []) }
    ensures end { OnOk result (end_of out.new ≤ width) }
{
    out.clear();
    for c in 0..width {
        out.push(c, &[])?;
    }
    Ok(())
}

/// Rows more in which nothing begins.
fn push_rows(alloc: Global, rows: &mut Vec<Cells>, m: usize)
    requires { vec_len rows.old + m ≤ vec_capacity rows.old }
    ensures { rows.new.items ≡ rows.old.items ++ replicate m [] }
{
    for _t in 0..m {
        rows.push_reserved(Cells::new(alloc));
    }
}

/// Rows more, whose cells have no words.
///
/// # Errors
///
/// Where a growth was refused. There are as many rows as before.
pub(crate) fn grow(
    alloc: Global,
    s: &mut Changes,
    buffer: &mut Cells,
    m: usize,
) -> Result<(), AllocError>
    requires changes { IsChanges s.old.width s.old.rows.items s.old.marks.items s.old.seam s.old.at }
    requires some { 0 < m }
    requires few { length s.old.rows.items + m < 2 ^ 32 }
    ensures changes { IsChanges s.new.width s.new.rows.items s.new.marks.items s.new.seam s.new.at }
    ensures width { s.new.width ≡ s.old.width }
    ensures grown { OnOk result (IsGrown m s.old s.new) }
    ensures err { OnErr result ((c u : ℕ) → begins_at s.new.rows.items s.new.seam s.new.at c u ≡ begins_at s.old.rows.items s.old.seam s.old.at c u) }
    ensures err_len { OnErr result (length s.new.rows.items ≡ length s.old.rows.items) }
{
    blank(s.width, buffer)?;
    let row = buffer.copy(alloc)?;
    let n = s.rows.len();
    let all = n + m;
    grow_lines(&mut s.marks, all)?;
    s.rows.reserve(m)?;
    push_rows(alloc, &mut s.rows, m);
    put_cells(&mut s.rows, &mut s.marks, n, row);
    Ok(())
}

/// The first n rows stay.
pub(crate) fn cut(s: &mut Changes, n: usize)
    requires { IsChanges s.old.width s.old.rows.items s.old.marks.items s.old.seam s.old.at }
    ensures changes { IsChanges s.new.width s.new.rows.items s.new.marks.items s.new.seam s.new.at }
    ensures width { s.new.width ≡ s.old.width }
    ensures len { length s.new.rows.items ≡ min n (length s.old.rows.items) }
    ensures same { (c u : ℕ) → u < n → begins_at s.new.rows.items s.new.seam s.new.at c u ≡ begins_at s.old.rows.items s.old.seam s.old.at c u }
{
    s.rows.truncate(n);
    cut_lines(&mut s.marks, n);
    cut_seam(&mut s.seam, s.at, n);
}

/// No seam stays at a row that is removed.
fn cut_seam(seam: &mut Cells, at: usize, n: usize)
    ensures kept { at < n → seam.new ≡ seam.old }
    ensures gone { n ≤ at → seam.new ≡ [] }
{
    if at >= n {
        seam.clear();
    }
}
