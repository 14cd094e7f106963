//! The components of a put, sorted by what is to be done with them.
ghost use Rattle.std.specs.Prelude.{◌≡◌, ℕ, ◌*◌, ◌/◌, ◌<◌, ◌≤◌, ◌&&◌, ◌||◌, not, true, false, IfOk, OnOk, is_some, length};
ghost use Rattle.std.specs.Option.{option_copied};
ghost use Rattle.change_rows.specs.Cells.{found, end_of};
ghost use Rattle.change_rows.specs.Marks.{is_in};
ghost use Rattle.change_rows.specs.Changes.{row_at, begins_at, IsChanges};
ghost use Rattle.change_rows.specs.Kinds.{IsRoomy, AreBegun, IsSorted, AreMoved};

use crate::cells::Cells;
use crate::changes::{Changes, add_cells};
use crate::merge::append_between;
use crate::sets::{copy, is_member, join, keep, remove, wipe, word_at};
use crate::source::Source;
use std::alloc::{AllocError, Global};

/// Sets of components, with a bit for each, 64 in a word. Between two puts they mean nothing.
#[derive(Drop)]
pub(crate) struct Kinds {
    /// At whose cells something begins: a row's own, and those of its seam.
    pub own: Vec<u64>,
    pub under: Vec<u64>,
    /// How many of these there are below each word: by that the place of a cell is guessed.
    own_below: Vec<u32>,
    under_below: Vec<u32>,
    /// Members that may have moved.
    pub moved: Vec<u64>,
    /// Other members at which something begins, of which it isn't known whether they hold other words.
    pub asked: Vec<u64>,
    /// All of which the row is laid.
    pub laid: Vec<u64>,
}

impl Kinds {
    /// Room for so many components.
    ///
    /// # Errors
    ///
    /// Where a growth was refused.
    pub fn new(alloc: Global, width: u32) -> Result<Kinds, AllocError>
        ensures { IfOk result (IsRoomy width) }
    {
        let lines = width.div_ceil(64) as usize;
        Ok(Kinds {
            own: vec![in alloc; 0; lines]?,
            under: vec![in alloc; 0; lines]?,
            own_below: vec![in alloc; 0; lines]?,
            under_below: vec![in alloc; 0; lines]?,
            moved: vec![in alloc; 0; lines]?,
            asked: vec![in alloc; 0; lines]?,
            laid: vec![in alloc; 0; lines]?,
        })
    }
}

/// The components that are marked in a row.
pub(crate) fn find_own(s: &Changes, t: usize, own: &mut [u64])
    requires changes { IsChanges s.now.width s.now.rows.items s.now.marks.items s.now.seam s.now.at }
    requires row { t < length s.now.rows.items }
    requires room { s.now.width ≤ 64 * length own.old }
    ensures len { length own.new ≡ length own.old }
    ensures own { (c : ℕ) → c < s.now.width → is_in own.new c ≡ is_some (found (row_at s.now.rows.items t) c) }
{
    for w in 0..own.len().min(s.marks.len()) {
        own[w] = s.marks[w].word(t);
    }
}

/// The components of the seam.
fn find_under(s: &Changes, under: &mut [u64])
    requires room { end_of s.now.seam ≤ 64 * length under.old }
    ensures len { length under.new ≡ length under.old }
    ensures under { (c : ℕ) → is_in under.new c ≡ is_some (found s.now.seam c) }
{
    wipe(under);
    add_cells(&s.seam, under);
}

/// The components that a source doesn't know to be still.
fn find_moved<S: Source>(source: &S, moved: &mut [u64])
    ensures len { length moved.new ≡ length moved.old }
    ensures still { (c : ℕ) → c / 64 < length moved.old → is_in moved.new c ≡ false → S.still source.now c ≡ true }
{
    for w in 0..moved.len() {
        moved[w] = source.moved(w);
    }
}

/// Marks the components that a source doesn't know to be still.
pub(crate) fn mark_moved<S: Source>(k: &mut Kinds, source: &S)
    ensures room { (width : ℕ) → IsRoomy width k.old → IsRoomy width k.new }
    ensures still { (c : ℕ) → c / 64 < length k.old.moved.items → is_in k.new.moved.items c ≡ false → S.still source.now c ≡ true }
{
    find_moved(source, &mut k.moved);
}

/// How many components of a set are below each of its words.
fn count_below(set: &[u64], below: &mut [u32]) {
    let mut count: u32 = 0;
    for w in 0..below.len() {
        below[w] = count;
        count = count.wrapping_add(word_at(set, w).count_ones());
    }
}

/// How many components of a set are below one, where that is counted for its words; no fewer than there are, behind all words.
#[inline(always)]
fn place_of(set: &[u64], below: &[u32], c: u32) -> usize {
    let w = c as usize / 64;
    let before = word_at(set, w) & !(u64::MAX << (c % 64));
    match below.get(w) {
        Some(count) => count.wrapping_add(before.count_ones()) as usize,
        None => usize::MAX,
    }
}

/// Sorts what begins at the row `at`, and the components of a set.
pub(crate) fn sort<S: Source>(s: &Changes, k: &mut Kinds, set: &[u64], source: &S)
    requires changes { IsChanges s.now.width s.now.rows.items s.now.marks.items s.now.seam s.now.at }
    requires row { s.now.at < length s.now.rows.items }
    requires room { IsRoomy s.now.width k.old }
    ensures room { IsRoomy s.now.width k.new }
    ensures begun { AreBegun s.now.rows.items s.now.seam s.now.at s.now.width k.new }
    ensures moved { AreMoved (S.still source.now) s.now.width set.now k.new.moved.items }
    ensures asked { (c : ℕ) → c < s.now.width → is_in k.new.asked.items c ≡ (((is_in k.new.own.items c || is_in k.new.under.items c) && is_in set.now c) && not (is_in k.new.moved.items c)) }
    ensures laid { (c : ℕ) → c < s.now.width → is_in k.new.laid.items c ≡ (((is_in k.new.own.items c || is_in k.new.under.items c) && not (is_in set.now c)) || is_in k.new.moved.items c) }
{
    find_own(s, s.at, &mut k.own);
    find_under(s, &mut k.under);
    count_below(&k.own, &mut k.own_below);
    count_below(&k.under, &mut k.under_below);
    find_moved(source, &mut k.moved);
    keep(&mut k.moved, set);
    copy(&mut k.laid, &k.own);
    join(&mut k.laid, &k.under);
    copy(&mut k.asked, &k.laid);
    keep(&mut k.asked, set);
    remove(&mut k.asked, &k.moved);
    remove(&mut k.laid, set);
    join(&mut k.laid, &k.moved);
}

/// What begins at a cell of the row `at`.
#[inline(always)]
pub(crate) fn begun_at<'a>(s: &'a Changes, k: &Kinds, c: u32) -> Option<&'a [u64]>
    requires sorted { IsSorted s.now k.now }
    requires component { c < s.now.width }
    ensures { option_copied result ≡ begins_at s.now.rows.items s.now.seam s.now.at c s.now.at }
{
    if is_member(&k.own, c) {
        return s.rows[s.at].find_at(c, place_of(&k.own, &k.own_below, c));
    }
    if is_member(&k.under, c) {
        return s.seam.find_at(c, place_of(&k.under, &k.under_below, c));
    }
    None
}

/// The row's own cells of the components from one on and before another one, behind all cells.
///
/// # Errors
///
/// Where a growth was refused. Nothing is changed.
pub(crate) fn append_own(
    s: &Changes,
    k: &Kinds,
    from: u32,
    to: u32,
    out: &mut Cells,
) -> Result<(), AllocError>
    requires row { s.now.at < length s.now.rows.items }
    requires order { from ≤ to }
    requires ascending { end_of out.old ≤ from }
    ensures between { OnOk result ((c : ℕ) → from ≤ c → c < to → found out.new c ≡ found (row_at s.now.rows.items s.now.at) c) }
    ensures others { OnOk result ((c : ℕ) → (from ≤ c → c < to → ⊥) → found out.new c ≡ found out.old c) }
    ensures end { OnOk result (end_of out.new ≤ to) }
{
    let place_from = place_of(&k.own, &k.own_below, from);
    let place_to = place_of(&k.own, &k.own_below, to);
    append_between(out, &s.rows[s.at], from, to, place_from, place_to)
}

/// The same of the seam's cells.
///
/// # Errors
///
/// Where a growth was refused. Nothing is changed.
pub(crate) fn append_under(
    s: &Changes,
    k: &Kinds,
    from: u32,
    to: u32,
    out: &mut Cells,
) -> Result<(), AllocError>
    requires order { from ≤ to }
    requires ascending { end_of out.old ≤ from }
    ensures between { OnOk result ((c : ℕ) → from ≤ c → c < to → found out.new c ≡ found s.now.seam c) }
    ensures others { OnOk result ((c : ℕ) → (from ≤ c → c < to → ⊥) → found out.new c ≡ found out.old c) }
    ensures end { OnOk result (end_of out.new ≤ to) }
{
    let place_from = place_of(&k.under, &k.under_below, from);
    let place_to = place_of(&k.under, &k.under_below, to);
    append_between(out, &s.seam, from, to, place_from, place_to)
}
