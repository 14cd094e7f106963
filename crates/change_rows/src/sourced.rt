//! A row is put from a source, kind by kind of its cells, and all buffers are made before anything changes.
//!
//! Of a cell that is still only what began there is looked at, and where it is known to hold other words nothing is. So a pass that
//! puts row after row has work with the cells that move, and with those at which something began.
ghost use Rattle.std.specs.Prelude.{◌≡◌, ℕ, ◌+◌, ◌*◌, ◌/◌, ◌<◌, ◌≤◌, true, false, cond, ◌&&◌, ◌||◌, not, nat_eq, List, OnOk, OnErr, IfOk, length, slice_index_or};
ghost use Rattle.change_rows.specs.Cells.{found, end_of};
ghost use Rattle.change_rows.specs.Marks.{is_in};
ghost use Rattle.change_rows.specs.Standing.{standing, standing_before};
ghost use Rattle.change_rows.specs.Changes.{row_at, begins_at, IsChanges};
ghost use Rattle.change_rows.specs.Laid.{IsTold};
ghost use Rattle.change_rows.specs.Kinds.{HasRoom, IsSorted, AreMoved, IsKept, AreHeads, IsSeamLaid, GoOn};
ghost use Rattle.change_rows.specs.Edited.{IsEdited};
ghost use Rattle.change_rows.specs.Drafts.{IsPushed};
ghost use Rattle.change_rows.specs.Sourced.{AreNotes, IsMember, IsFurther, CanPut, IsStill, CanLay, IsNext, TellsOther, TellsMoved, IsOneLaid, IsLaidTo, IsLaidFrom, IsHeadKept, StaysNoted, IsNotedAs};

use crate::cells::Cells;
use crate::changes::{Changes, lay};
use crate::edit::{Buffers, settle, words_before};
use crate::kinds::{Kinds, append_own, append_under, begun_at, find_own, sort};
use crate::notes::{Notes, forget};
use crate::sets::{
    add, copy, is_member, is_void, join, keep, leave, next_in, remove, same_to, wipe, word_at,
};
use crate::source::Source;
use std::alloc::AllocError;
use std::mem;

/// A component more, where it held other words.
fn tell(changed: &mut Vec<u64>, c: u32, other: bool)
    requires { c / 64 < length changed.old.items }
    ensures len { length changed.new.items ≡ length changed.old.items }
    ensures here { other ≡ true → is_in changed.new.items c ≡ true }
    ensures none { other ≡ false → changed.new.items ≡ changed.old.items }
    ensures others { (d : ℕ) → (d ≡ c → ⊥) → is_in changed.new.items d ≡ is_in changed.old.items d }
{
    if other {
        add(changed, c);
    }
}

/// The first word that a source has for a component that is still. It is kept from then on.
fn head_of<S: Source>(n: &mut Notes, source: &S, c: u32) -> u64
    requires has { S.has source.now c }
    requires room { c / 64 < length n.old.known.items }
    requires heads { c < length n.old.heads.items }
    requires known { is_in n.old.known.items c ≡ true → slice_index_or n.old.heads.items c 0 ≡ slice_index_or (S.words source.now c) 0 0 }
    ensures head { result ≡ slice_index_or (S.words source.now c) 0 0 }
    ensures kept { IsHeadKept c (S.words source.now c) n.old n.new }
{
    if !is_member(&n.known, c) {
        n.heads[c as usize] = source.first(c);
        add(&mut n.known, c);
    }
    n.heads[c as usize]
}

/// Whether a component that is still holds other words at the row.
///
/// # Errors
///
/// Where a growth was refused.
fn ask_one<S: Source>(
    s: &Changes,
    k: &Kinds,
    n: &mut Notes,
    c: u32,
    source: &S,
    row: &mut Cells,
) -> Result<bool, AllocError>
    requires sorted { IsSorted s.now k.now }
    requires still { IsStill s.now c (S.has source.now) (S.words source.now) }
    requires notes { AreNotes s.now n.old }
    ensures row { row.new ≡ row.old }
    ensures notes { AreNotes s.now n.new }
    ensures others { n.new.other.items ≡ n.old.other.items }
    ensures apart { n.new.apart.items ≡ n.old.apart.items }
    ensures told { IfOk result (TellsOther s.now c (S.words source.now c)) }
{
    match begun_at(s, k, c) {
        Some(stood) => {
            if head_of(n, source, c) != word_at(stood, 0) {
                return Ok(true);
            }
            Ok(!row.tells(c, source, stood)?)
        }
        None => Ok(false),
    }
}

/// Which of the components that are still, and at which something begins, hold other words at the row.
///
/// # Errors
///
/// Where a growth was refused.
fn ask_all<S: Source>(
    s: &Changes,
    k: &Kinds,
    asked: &[u64],
    n: &mut Notes,
    source: &S,
    row: &mut Cells,
) -> Result<(), AllocError>
    requires sorted { IsSorted s.now k.now }
    requires has { (c : ℕ) → c < s.now.width → is_in asked.now c ≡ true → S.has source.now c }
    requires still { (c : ℕ) → c < s.now.width → is_in asked.now c ≡ true → S.words source.now c ≡ standing_before (begins_at s.now.rows.items s.now.seam s.now.at c) s.now.at }
    requires notes { AreNotes s.now n.old }
    ensures row { row.new ≡ row.old }
    ensures notes { AreNotes s.now n.new }
    ensures told { OnOk result (IsTold s.now.rows.items s.now.seam s.now.at s.now.at asked.now (S.words source.now) s.now.width n.new.other.items) }
{
    wipe(&mut n.other);
    let mut c = next_in(asked, 0, s.width);
    while c < s.width {
        let other = ask_one(s, k, n, c, source, row)?;
        tell(&mut n.other, c, other);
        c = next_in(asked, c + 1, s.width);
    }
    Ok(())
}

/// Puts the words of a cell that may have moved behind all cells of the row, and keeps the first of them: whether it held other words.
///
/// # Errors
///
/// Where a growth was refused.
fn lay_moved<S: Source>(
    s: &Changes,
    k: &Kinds,
    c: u32,
    source: &S,
    row: &mut Cells,
    heads: &mut Vec<u64>,
) -> Result<bool, AllocError>
    requires sorted { IsSorted s.now k.now }
    requires next { IsNext s.now.width c row.old heads.old.items }
    requires has { S.has source.now c }
    ensures pushed { OnOk result (IsPushed c (S.words source.now c) (standing_before (begins_at s.now.rows.items s.now.seam s.now.at c) s.now.at) row.old row.new) }
    ensures len { length heads.new.items ≡ length heads.old.items }
    ensures head { OnOk result (slice_index_or heads.new.items c 0 ≡ slice_index_or (S.words source.now c) 0 0) }
    ensures heads { (d : ℕ) → (d ≡ c → ⊥) → slice_index_or heads.new.items d 0 ≡ slice_index_or heads.old.items d 0 }
    ensures told { IfOk result (TellsOther s.now c (S.words source.now c)) }
{
    match begun_at(s, k, c) {
        Some(stood) => {
            let same = row.push_from(c, source, stood)?;
            heads[c as usize] = row.last_head();
            Ok(!same)
        }
        None => {
            let before = words_before(s, s.at, c);
            let same = row.push_unless(c, source, before)?;
            heads[c as usize] = if same {
                word_at(before, 0)
            } else {
                row.last_head()
            };
            Ok(!same)
        }
    }
}

/// Puts what begins at a cell behind all cells of the row.
///
/// # Errors
///
/// Where a growth was refused.
fn lay_begun(s: &Changes, k: &Kinds, c: u32, row: &mut Cells) -> Result<(), AllocError>
    requires sorted { IsSorted s.now k.now }
    requires component { c < s.now.width }
    requires ascending { end_of row.old ≤ c }
    ensures begun { OnOk result (found row.new c ≡ begins_at s.now.rows.items s.now.seam s.now.at c s.now.at) }
    ensures others { OnOk result ((d : ℕ) → (d ≡ c → ⊥) → found row.new d ≡ found row.old d) }
    ensures end { OnOk result (end_of row.new ≤ c + 1) }
{
    match begun_at(s, k, c) {
        Some(words) => {
            row.push(c, words)?;
            Ok(())
        }
        None => Ok(()),
    }
}

/// Puts a cell behind all cells of the row: its words where it may have moved, else what begins there. Whether it may have moved and
/// held other words.
///
/// # Errors
///
/// Where a growth was refused.
fn lay_one<S: Source>(
    s: &Changes,
    k: &Kinds,
    c: u32,
    source: &S,
    row: &mut Cells,
    heads: &mut Vec<u64>,
) -> Result<bool, AllocError>
    requires sorted { IsSorted s.now k.now }
    requires next { IsNext s.now.width c row.old heads.old.items }
    requires has { is_in k.now.moved.items c ≡ true → S.has source.now c }
    ensures laid { OnOk result (IsOneLaid s.now k.now.moved.items c (S.words source.now c) row.old row.new) }
    ensures len { length heads.new.items ≡ length heads.old.items }
    ensures head { OnOk result (is_in k.now.moved.items c ≡ true → slice_index_or heads.new.items c 0 ≡ slice_index_or (S.words source.now c) 0 0) }
    ensures heads { (d : ℕ) → (d ≡ c → is_in k.now.moved.items c ≡ true → ⊥) → slice_index_or heads.new.items d 0 ≡ slice_index_or heads.old.items d 0 }
    ensures told { IfOk result (TellsMoved s.now k.now.moved.items c (S.words source.now c)) }
{
    if is_member(&k.moved, c) {
        return lay_moved(s, k, c, source, row, heads);
    }
    lay_begun(s, k, c, row)?;
    Ok(false)
}

/// Puts the next components of a set behind all cells of the row: one of them, or a run of those that may not have moved, and at whose
/// cells of the row something begins. The component from which it goes on.
///
/// # Errors
///
/// Where a growth was refused.
fn lay_next<S: Source>(
    s: &Changes,
    k: &Kinds,
    laid: &[u64],
    c: u32,
    n: &mut Notes,
    source: &S,
    row: &mut Cells,
) -> Result<u32, AllocError>
    requires can { CanLay s.now k.now laid.now (S.has source.now) }
    requires room { HasRoom s.now.width n.old }
    requires member { IsMember s.now.width laid.now c }
    requires laid { IsLaidTo s.now k.now.moved.items laid.now (S.words source.now) c row.old n.old.other.items }
    ensures stays { StaysNoted s.now.width k.now.moved.items n.old n.new }
    ensures further { IfOk result (IsFurther s.now.width c) }
    ensures laid { IfOk result (λ next. IsLaidTo s.now k.now.moved.items laid.now (S.words source.now) next row.new n.new.other.items) }
    ensures heads { IfOk result (λ next. (heads : List ℕ) → AreHeads k.now.moved.items (S.words source.now) c heads n.old.heads.items → AreHeads k.now.moved.items (S.words source.now) next heads n.new.heads.items) }
{
    let width = s.width;
    if !is_member(&k.moved, c) {
        let end = same_to(laid, &k.own, &k.moved, c, width);
        // A cell alone is cheaper to push.
        if c + 1 < end {
            append_own(s, k, c, end, row)?;
            return Ok(end);
        }
    }
    let other = lay_one(s, k, c, source, row, &mut n.heads)?;
    tell(&mut n.other, c, other);
    Ok(c + 1)
}

/// The row once it is put, the first words of those that may have moved, and which of these hold other words.
///
/// # Errors
///
/// Where a growth was refused.
fn lay_all<S: Source>(
    s: &Changes,
    k: &Kinds,
    laid: &[u64],
    n: &mut Notes,
    source: &S,
    row: &mut Cells,
) -> Result<(), AllocError>
    requires can { CanLay s.now k.now laid.now (S.has source.now) }
    requires room { HasRoom s.now.width n.old }
    ensures stays { StaysNoted s.now.width k.now.moved.items n.old n.new }
    ensures laid { OnOk result (IsLaidTo s.now k.now.moved.items laid.now (S.words source.now) s.now.width row.new n.new.other.items) }
    ensures heads { OnOk result (AreHeads k.now.moved.items (S.words source.now) s.now.width n.old.heads.items n.new.heads.items) }
{
    row.clear();
    wipe(&mut n.other);
    let mut c = next_in(laid, 0, s.width);
    while c < s.width {
        let next = lay_next(s, k, laid, c, n, source, row)?;
        c = next_in(laid, next, s.width);
    }
    Ok(())
}

/// What a component holds at the row.
fn stood_at<'a>(s: &'a Changes, k: &Kinds, c: u32) -> &'a [u64]
    requires sorted { IsSorted s.now k.now }
    requires component { c < s.now.width }
    ensures { result.now ≡ standing (begins_at s.now.rows.items s.now.seam s.now.at c) s.now.at }
{
    match begun_at(s, k, c) {
        Some(stood) => stood,
        None => words_before(s, s.at, c),
    }
}

/// Whether all components of a set hold at the row what a source has for them. The first that doesn't ends it.
///
/// # Errors
///
/// Where a growth was refused.
fn are_same<S: Source>(
    s: &Changes,
    k: &Kinds,
    moved: &[u64],
    source: &S,
    row: &mut Cells,
) -> Result<bool, AllocError>
    requires sorted { IsSorted s.now k.now }
    requires has { (c : ℕ) → c < s.now.width → is_in moved.now c ≡ true → S.has source.now c }
    ensures same { IfOk result (λ same. same ≡ true → (c : ℕ) → c < s.now.width → is_in moved.now c ≡ true → standing (begins_at s.now.rows.items s.now.seam s.now.at c) s.now.at ≡ S.words source.now c) }
    ensures other { IfOk result (λ same. same ≡ false → ((c : ℕ) → c < s.now.width → is_in moved.now c ≡ true → standing (begins_at s.now.rows.items s.now.seam s.now.at c) s.now.at ≡ S.words source.now c) → ⊥) }
{
    let mut c = next_in(moved, 0, s.width);
    while c < s.width {
        if !row.tells(c, source, stood_at(s, k, c))? {
            return Ok(false);
        }
        c = next_in(moved, c + 1, s.width);
    }
    Ok(true)
}

/// Those components of a set that go on in the row behind.
fn find_kept(s: &Changes, changed: &[u64], kept: &mut [u64])
    requires changes { IsChanges s.now.width s.now.rows.items s.now.marks.items s.now.seam s.now.at }
    requires row { s.now.at < length s.now.rows.items }
    requires room { s.now.width ≤ 64 * length kept.old }
    requires within { (c : ℕ) → is_in changed.now c ≡ true → c < s.now.width }
    ensures len { length kept.new ≡ length kept.old }
    ensures kept { GoOn s.now.rows.items s.now.at s.now.width changed.now kept.new }
{
    wipe(kept);
    if s.at + 1 < s.rows.len() {
        find_own(s, s.at + 1, kept);
        leave(kept, changed);
    }
}

/// Puts what the next components of a set hold at the row behind all cells: of one of them, or of a run of those that stand in the
/// seam already. The component from which it goes on.
///
/// # Errors
///
/// Where a growth was refused.
fn keep_next(
    s: &Changes,
    k: &Kinds,
    kept: &[u64],
    c: u32,
    seam: &mut Cells,
) -> Result<u32, AllocError>
    requires sorted { IsSorted s.now k.now }
    requires member { IsMember s.now.width kept.now c }
    requires laid { IsSeamLaid s.now.rows.items s.now.seam s.now.at kept.now c seam.old }
    ensures further { IfOk result (IsFurther s.now.width c) }
    ensures laid { IfOk result (λ next. IsSeamLaid s.now.rows.items s.now.seam s.now.at kept.now next seam.new) }
{
    let end = same_to(kept, &k.under, &k.own, c, s.width);
    // A cell alone is cheaper to push.
    if c + 1 < end {
        append_under(s, k, c, end, seam)?;
        return Ok(end);
    }
    seam.push(c, stood_at(s, k, c))?;
    Ok(c + 1)
}

/// The seam behind the row: what components that go on there hold at the row.
///
/// # Errors
///
/// Where a growth was refused.
fn keep_all(s: &Changes, k: &Kinds, kept: &[u64], seam: &mut Cells) -> Result<(), AllocError>
    requires sorted { IsSorted s.now k.now }
    ensures { OnOk result (IsSeamLaid s.now.rows.items s.now.seam s.now.at kept.now s.now.width seam.new) }
{
    seam.clear();
    let mut c = next_in(kept, 0, s.width);
    while c < s.width {
        let next = keep_next(s, k, kept, c, seam)?;
        c = next_in(kept, next, s.width);
    }
    Ok(())
}

/// Components that would be asked, and are known to hold other words, are told, and are asked no more.
fn tell_apart(k: &mut Kinds, n: &Notes, changed: &mut [u64])
    ensures len { length changed.new ≡ length changed.old }
    ensures told { (c : ℕ) → c / 64 < length changed.old → is_in changed.new c ≡ (is_in n.now.apart.items c && is_in k.old.asked.items c) }
    ensures asked { (c : ℕ) → c / 64 < length k.old.asked.items → is_in k.new.asked.items c ≡ (is_in k.old.asked.items c && not (is_in n.now.apart.items c)) }
    ensures own { k.new.own.items ≡ k.old.own.items }
    ensures under { k.new.under.items ≡ k.old.under.items }
    ensures moved { k.new.moved.items ≡ k.old.moved.items }
    ensures laid { k.new.laid.items ≡ k.old.laid.items }
    ensures asked_len { length k.new.asked.items ≡ length k.old.asked.items }
{
    copy(changed, &n.apart);
    keep(changed, &k.asked);
    remove(&mut k.asked, &n.apart);
}

/// The first words of components that may have moved are kept no more.
fn forget_moved(n: &mut Notes, k: &Kinds)
    ensures known { (c : ℕ) → c / 64 < length n.old.known.items → is_in n.new.known.items c ≡ (is_in n.old.known.items c && not (is_in k.now.moved.items c)) }
    ensures len { length n.new.known.items ≡ length n.old.known.items }
    ensures apart { n.new.apart.items ≡ n.old.apart.items }
    ensures heads { n.new.heads.items ≡ n.old.heads.items }
    ensures other { n.new.other.items ≡ n.old.other.items }
    ensures kept { n.new.kept.items ≡ n.old.kept.items }
{
    remove(&mut n.known, &k.moved);
}

/// The seam behind the row, of those components of a set that go on there.
///
/// # Errors
///
/// Where a growth was refused.
fn keep_noted(
    s: &Changes,
    k: &Kinds,
    n: &mut Notes,
    changed: &[u64],
    seam: &mut Cells,
) -> Result<(), AllocError>
    requires sorted { IsSorted s.now k.now }
    requires within { (c : ℕ) → is_in changed.now c ≡ true → c < s.now.width }
    requires room { HasRoom s.now.width n.old }
    ensures room { HasRoom s.now.width n.new }
    ensures noted { IsNotedAs n.old n.new }
    ensures kept { GoOn s.now.rows.items s.now.at s.now.width changed.now n.new.kept.items }
    ensures laid { OnOk result (IsSeamLaid s.now.rows.items s.now.seam s.now.at n.new.kept.items s.now.width seam.new) }
{
    find_kept(s, changed, &mut n.kept);
    keep_all(s, k, &n.kept, seam)?;
    Ok(())
}

/// The row once it is put, the seam behind it, and which components held other words. It answers false where none did; then nothing is
/// laid.
///
/// # Errors
///
/// Where a growth was refused.
fn lay_from<S: Source>(
    s: &Changes,
    k: &mut Kinds,
    n: &mut Notes,
    set: &[u64],
    source: &S,
    row: &mut Cells,
    seam: &mut Cells,
    changed: &mut [u64],
) -> Result<bool, AllocError>
    requires kept { IsKept s.now.width s.now.rows.items s.now.marks.items s.now.seam s.now.at k.old n.old }
    requires can { CanPut s.now s.now.at set.now (S.has source.now) (S.still source.now) (S.words source.now) }
    requires changed { length changed.old ≡ length set.now }
    ensures kept { IsKept s.now.width s.now.rows.items s.now.marks.items s.now.seam s.now.at k.new n.new }
    ensures laid { IfOk result (λ laid. laid ≡ true → IsLaidFrom s.now set.now (S.words source.now) k.new.moved.items changed.new row.new seam.new n.new) }
    ensures told { OnOk result (IsTold s.now.rows.items s.now.seam s.now.at s.now.at set.now (S.words source.now) s.now.width changed.new) }
    ensures none { IfOk result (λ laid. laid ≡ false → (c : ℕ) → is_in changed.new c ≡ false) }
    ensures moved { OnOk result (AreMoved (S.still source.now) s.now.width set.now k.new.moved.items) }
{
    sort(s, k, set, source);
    tell_apart(k, n, changed);
    ask_all(s, k, &k.asked, n, source, row)?;
    join(changed, &n.other);
    if is_void(changed) && are_same(s, k, &k.moved, source, row)? {
        return Ok(false);
    }
    forget_moved(n, k);
    lay_all(s, k, &k.laid, n, source, row)?;
    join(changed, &n.other);
    keep_noted(s, k, n, changed, seam)?;
    Ok(true)
}

/// The seam stands at row t.
///
/// # Errors
///
/// Where a growth was refused. All cells hold what they held.
fn bring_seam(
    s: &mut Changes,
    n: &mut Notes,
    t: usize,
    buffer: &mut Cells,
) -> Result<(), AllocError>
    requires changes { IsChanges s.old.width s.old.rows.items s.old.marks.items s.old.seam s.old.at }
    requires row { t < length s.old.rows.items }
    requires notes { AreNotes s.old n.old }
    ensures edited { IsEdited s.old s.new }
    ensures same { (c u : ℕ) → begins_at s.new.rows.items s.new.seam s.new.at c u ≡ begins_at s.old.rows.items s.old.seam s.old.at c u }
    ensures here { OnOk result (s.new.at ≡ t) }
    ensures notes { AreNotes s.new n.new }
{
    if s.at == t {
        return Ok(());
    }
    forget(n);
    settle(s, buffer)?;
    s.at = t;
    Ok(())
}

/// Notes what is known once a row is put: of the members of a set, some of which may have moved.
fn note(n: &mut Notes, moved: &[u64], set: &[u64])
    ensures apart { n.new.apart.items ≡ n.old.kept.items }
    ensures heads { n.new.heads.items ≡ n.old.heads.items }
    ensures known { (c : ℕ) → c / 64 < length n.old.known.items → is_in n.new.known.items c ≡ ((is_in n.old.known.items c && is_in set.now c) || is_in moved.now c) }
    ensures room { (width : ℕ) → HasRoom width n.old → HasRoom width n.new }
{
    mem::swap(&mut n.apart, &mut n.kept);
    keep(&mut n.known, set);
    join(&mut n.known, moved);
}

/// The cells of a set hold at row t what a source has; all other cells of all rows hold what they held. Tells which of them held other
/// words.
///
/// # Errors
///
/// Where a growth was refused. All cells hold what they held.
pub(crate) fn put_from<S: Source>(
    s: &mut Changes,
    b: &mut Buffers,
    k: &mut Kinds,
    n: &mut Notes,
    t: usize,
    set: &[u64],
    source: &S,
    changed: &mut [u64],
) -> Result<(), AllocError>
    requires kept { IsKept s.old.width s.old.rows.items s.old.marks.items s.old.seam s.old.at k.old n.old }
    requires can { CanPut s.old t set.now (S.has source.now) (S.still source.now) (S.words source.now) }
    requires changed { length changed.old ≡ length set.now }
    ensures edited { IsEdited s.old s.new }
    ensures kept { IsKept s.new.width s.new.rows.items s.new.marks.items s.new.seam s.new.at k.new n.new }
    ensures put { OnOk result ((c u : ℕ) → c < s.old.width → u < length s.old.rows.items → standing (begins_at s.new.rows.items s.new.seam s.new.at c) u ≡ cond (nat_eq u t && is_in set.now c) (S.words source.now c) (standing (begins_at s.old.rows.items s.old.seam s.old.at c) u)) }
    ensures told { OnOk result (IsTold s.old.rows.items s.old.seam s.old.at t set.now (S.words source.now) s.old.width changed.new) }
    ensures err { OnErr result ((c u : ℕ) → begins_at s.new.rows.items s.new.seam s.new.at c u ≡ begins_at s.old.rows.items s.old.seam s.old.at c u) }
{
    bring_seam(s, n, t, &mut b.row)?;
    let (row, seam) = (&mut b.row, &mut b.seam);
    if !lay_from(s, k, n, set, source, row, seam, changed)? {
        return Ok(());
    }
    lay(&mut s.rows, &mut s.marks, t, &b.row)?;
    mem::swap(&mut s.seam, &mut b.seam);
    s.at = t + 1;
    note(n, &k.moved, set);
    Ok(())
}
