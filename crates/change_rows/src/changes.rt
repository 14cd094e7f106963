//! Rows of changes, and where a cell's words are found in them.
ghost use Rattle.std.specs.Prelude.{◌≡◌, ℕ, ◌+◌, ◌*◌, ◌/◌, ◌%◌, ◌<◌, ◌≤◌, ◌||◌, [], None, Some, true, false, cond, nat_eq, MatchOption, IfSome, OnOk, OnErr, length, is_some, unwrap_or, slice_index_or, slice_set};
ghost use Rattle.change_rows.specs.Cells.{found, end_of};
ghost use Rattle.change_rows.specs.Marks.{is_one, is_set, is_marked, is_in};
ghost use Rattle.change_rows.specs.Standing.{standing};
ghost use Rattle.change_rows.specs.Changes.{row_at, begins_at, IsChanges};

use crate::cells::Cells;
use crate::marks::{Marks, block_has_any, has_any, mark_row, rank, tighten_lines, with_bit};
use crate::sets::{add, is_member};
use std::alloc::{AllocError, Global};

/// For each row the cells at which other words begin than a cycle before; all others go on.
#[derive(Drop)]
pub(crate) struct Changes {
    pub width: u32,
    pub rows: Vec<Cells>,
    /// For 64 components each, at which rows they begin.
    pub marks: Vec<Marks>,
    /// Cells that begin at row `at` too, where that row has none of their component: what stood
    /// there before the row above it was put.
    pub seam: Cells,
    pub at: usize,
}

/// What the seam has for a component, if it begins behind the cycle of the last change and up to t.
#[inline]
fn in_seam<'a>(s: &'a Changes, last: Option<usize>, t: usize, c: u32) -> Option<&'a [u64]>
    ensures { MatchOption result
        (s.now.at ≤ t → IfSome last (λ b. b < s.now.at) → found s.now.seam c ≡ None)
        (λ words. (s.now.at ≤ t) × IfSome last (λ b. b < s.now.at) × (found s.now.seam c ≡ Some words.now)) }
{
    let later = match last {
        Some(b) => b < s.at,
        None => true,
    };
    if later && s.at <= t {
        s.seam.find(c)
    } else {
        None
    }
}

/// The words of a cell.
pub(crate) fn words_in(s: &Changes, t: usize, c: u32) -> &[u64]
    requires changes { IsChanges s.now.width s.now.rows.items s.now.marks.items s.now.seam s.now.at }
    requires row { t < length s.now.rows.items }
    requires component { c < s.now.width }
    ensures { result.now ≡ standing (begins_at s.now.rows.items s.now.seam s.now.at c) t }
{
    if is_change(&s.marks, t, c) {
        return words_from(&s.rows, &s.marks, Some(t), c);
    }
    let last = last_change(&s.marks, t, c);
    match in_seam(s, last, t, c) {
        Some(words) => words,
        None => words_from(&s.rows, &s.marks, last, c),
    }
}

/// The words of a component in the row of its last change.
fn words_from<'a>(
    rows: &'a Vec<Cells>,
    marks: &Vec<Marks>,
    last: Option<usize>,
    c: u32,
) -> &'a [u64]
    requires row { IfSome last (λ b. b < length rows.now.items) }
    requires marked { IfSome last (λ b. (w : ℕ) → w < length marks.now.items → b < length (slice_index_or marks.now.items w [])) }
    requires component { c < 64 * length marks.now.items }
    ensures { MatchOption last (result.now ≡ []) (λ b. result.now ≡ unwrap_or (found (row_at rows.now.items b) c) []) }
{
    match last {
        Some(b) => rows[b].words_near(c, rank(marks, b, c)),
        None => &[],
    }
}

/// The last row up to t in which a component is marked.
#[inline]
fn last_change(marks: &Vec<Marks>, t: usize, c: u32) -> Option<usize>
    requires component { c < 64 * length marks.now.items }
    requires row { t < length (slice_index_or marks.now.items (c / 64) []) }
    ensures { MatchOption result
        ((u : ℕ) → u ≤ t → is_marked marks.now.items u c ≡ false)
        (λ b. (b ≤ t) × (is_marked marks.now.items b c ≡ true) × ((u : ℕ) → b < u → u ≤ t → is_marked marks.now.items u c ≡ false)) }
{
    marks[c as usize / 64].last(t, c % 64)
}

/// Whether a component is marked in a row.
#[inline]
pub(crate) fn is_change(marks: &Vec<Marks>, t: usize, c: u32) -> bool
    requires component { c < 64 * length marks.now.items }
    requires row { t < length (slice_index_or marks.now.items (c / 64) []) }
    ensures { result ≡ is_marked marks.now.items t c }
{
    marks[c as usize / 64].has(t, c % 64)
}

/// Whether something begins at a cell.
pub(crate) fn begins_in(s: &Changes, t: usize, c: u32) -> bool
    requires changes { IsChanges s.now.width s.now.rows.items s.now.marks.items s.now.seam s.now.at }
    requires row { t < length s.now.rows.items }
    requires component { c < s.now.width }
    ensures { result ≡ false → begins_at s.now.rows.items s.now.seam s.now.at c t ≡ None }
{
    if is_change(&s.marks, t, c) {
        return true;
    }
    t == s.at && s.seam.has(c)
}

/// A word of marks with those of 64 components of which there are cells.
fn with_cells(cells: &Cells, w: usize, word: u64) -> u64
    ensures kept { (k : ℕ) → is_one result k ≡ false → is_one word k ≡ false }
    ensures cells { (c : ℕ) → c / 64 ≡ w → is_one result (c % 64) ≡ false → found cells.now c ≡ None }
{
    let mut word = word;
    for i in 0..cells.len() {
        let c = cells.component(i);
        if c as usize / 64 == w {
            word = with_bit(word, c % 64);
        }
    }
    word
}

/// Of 64 components those at whose cells something begins.
pub(crate) fn begin_word(s: &Changes, t: usize, w: usize) -> u64
    requires changes { IsChanges s.now.width s.now.rows.items s.now.marks.items s.now.seam s.now.at }
    requires row { t < length s.now.rows.items }
    requires word { w < length s.now.marks.items }
    ensures { (c : ℕ) → c / 64 ≡ w → c < s.now.width → is_one result (c % 64) ≡ false → begins_at s.now.rows.items s.now.seam s.now.at c t ≡ None }
{
    let word = s.marks[w].word(t);
    if t == s.at {
        return with_cells(&s.seam, w, word);
    }
    word
}

/// Adds to a set the components of cells.
pub(crate) fn add_cells(cells: &Cells, set: &mut [u64])
    requires { end_of cells.now ≤ 64 * length set.old }
    ensures len { length set.new ≡ length set.old }
    ensures all { (c : ℕ) → is_in set.new c ≡ (is_in set.old c || is_some (found cells.now c)) }
{
    for i in 0..cells.len() {
        add(set, cells.component(i));
    }
}

/// Whether there is a cell of a component of a set.
fn is_any(cells: &Cells, set: &[u64]) -> bool
    ensures { result ≡ false → (c : ℕ) → is_in set.now c ≡ true → found cells.now c ≡ None }
{
    for i in 0..cells.len() {
        if is_member(set, cells.component(i)) {
            return true;
        }
    }
    false
}

/// Whether something may begin at a cell of a set of components; one word tells it of 64 of them.
fn may_begin(s: &Changes, t: usize, set: &[u64]) -> bool
    requires changes { IsChanges s.now.width s.now.rows.items s.now.marks.items s.now.seam s.now.at }
    requires row { t < length s.now.rows.items }
    ensures { result ≡ false → (c : ℕ) → c < s.now.width → is_in set.now c ≡ true → begins_at s.now.rows.items s.now.seam s.now.at c t ≡ None }
{
    if t == s.at && is_any(&s.seam, set) {
        return true;
    }
    has_any(&s.marks, t, set)
}

/// To before which row, `end` at most, the 64 rows go on that row u is among.
fn block_to(u: u32, end: u32) -> u32
    requires { u < end }
    ensures after { u < result }
    ensures within { result ≤ end }
    ensures near { (k : ℕ) → u ≤ k → k < result → k / 64 ≡ u / 64 }
{
    let left = 64 - u % 64;
    if end - u <= left { end } else { u + left }
}

/// Whether nothing begins at the cells of a set of components in the rows from row u on and before another one, which are all among the
/// same 64.
fn is_quiet(s: &Changes, u: u32, to: u32, set: &[u64]) -> bool
    requires changes { IsChanges s.now.width s.now.rows.items s.now.marks.items s.now.seam s.now.at }
    requires row { u < to }
    requires near { (k : ℕ) → u ≤ k → k < to → k / 64 ≡ u / 64 }
    requires end { to ≤ length s.now.rows.items }
    ensures steady { result ≡ true → (k c : ℕ) → u ≤ k → k < to → c < s.now.width → is_in set.now c ≡ true → begins_at s.now.rows.items s.now.seam s.now.at c k ≡ None }
{
    (s.at < u as usize || s.at >= to as usize) && !block_has_any(&s.marks, u as usize, set)
}

/// The first row from row u on, and before another one, at which something of a set of components may begin.
fn first_begin(s: &Changes, u: u32, to: u32, set: &[u64]) -> u32
    requires changes { IsChanges s.now.width s.now.rows.items s.now.marks.items s.now.seam s.now.at }
    requires order { u ≤ to }
    requires end { to ≤ length s.now.rows.items }
    ensures from { u ≤ result }
    ensures to { result ≤ to }
    ensures steady { (k c : ℕ) → u ≤ k → k < result → c < s.now.width → is_in set.now c ≡ true → begins_at s.now.rows.items s.now.seam s.now.at c k ≡ None }
{
    let mut k = u;
    while k < to && !may_begin(s, k as usize, set) {
        k += 1;
    }
    k
}

/// The first row from t on, and before `end`, at which something of a set of components may begin. Rows are passed over at once, as far
/// as 64 of them have nothing of it.
pub(crate) fn next_begin(s: &Changes, t: u32, end: u32, set: &[u64]) -> u32
    requires changes { IsChanges s.now.width s.now.rows.items s.now.marks.items s.now.seam s.now.at }
    requires end { end ≤ length s.now.rows.items }
    ensures from { t ≤ result }
    ensures to { t ≤ end → result ≤ end }
    ensures past { end < t → result ≡ t }
    ensures steady { (u c : ℕ) → t ≤ u → u < result → c < s.now.width → is_in set.now c ≡ true → begins_at s.now.rows.items s.now.seam s.now.at c u ≡ None }
{
    let mut u = t;
    while u < end {
        let to = block_to(u, end);
        if !is_quiet(s, u, to, set) {
            let first = first_begin(s, u, to, set);
            if first < to {
                return first;
            }
        }
        u = to;
    }
    u
}

/// The same of one component.
#[inline(always)]
pub(crate) fn next_of(s: &Changes, t: u32, end: u32, c: u32) -> u32
    requires changes { IsChanges s.now.width s.now.rows.items s.now.marks.items s.now.seam s.now.at }
    requires end { end ≤ length s.now.rows.items }
    requires component { c < s.now.width }
    ensures from { t ≤ result }
    ensures to { t ≤ end → result ≤ end }
    ensures past { end < t → result ≡ t }
    ensures steady { (u : ℕ) → t ≤ u → u < result → begins_at s.now.rows.items s.now.seam s.now.at c u ≡ None }
{
    let next = s.marks[c as usize / 64].next(t as usize, end as usize, c % 64) as u32;
    if s.at >= t as usize && s.at < next as usize && s.seam.has(c) {
        return s.at as u32;
    }
    next
}

/// The words of a cell, and to before which row, `end` at most, its component goes on with them; it may go on longer.
#[inline(always)]
pub(crate) fn words_to(s: &Changes, t: u32, end: u32, c: u32) -> (&[u64], u32)
    requires changes { IsChanges s.now.width s.now.rows.items s.now.marks.items s.now.seam s.now.at }
    requires before { t < end }
    requires end { end ≤ length s.now.rows.items }
    requires component { c < s.now.width }
    ensures words { result.0.now ≡ standing (begins_at s.now.rows.items s.now.seam s.now.at c) t }
    ensures after { t < result.1 }
    ensures to { result.1 ≤ end }
    ensures steady { (u : ℕ) → t < u → u < result.1 → begins_at s.now.rows.items s.now.seam s.now.at c u ≡ None }
{
    let next = next_of(s, t + 1, end, c);
    let row = t as usize;
    // What begins there is found by its place, with no walk back.
    match s.rows[row].find_there(c, rank(&s.marks, row, c)) {
        Some(words) => (words, next),
        None => (words_in(s, row, c), next),
    }
}

/// Other cells for a row, with their marks.
pub(crate) fn put_cells(rows: &mut Vec<Cells>, marks: &mut Vec<Marks>, t: usize, row: Cells)
    requires there { t < length rows.old.items }
    requires tall { (w : ℕ) → w < length marks.old.items → t < length (slice_index_or marks.old.items w []) }
    requires wide { end_of row ≤ 64 * length marks.old.items }
    ensures rows { rows.new.items ≡ slice_set rows.old.items t row }
    ensures len { length marks.new.items ≡ length marks.old.items }
    ensures tall { (w : ℕ) → length (slice_index_or marks.new.items w []) ≡ length (slice_index_or marks.old.items w []) }
    ensures marks { (u c : ℕ) → c < 64 * length marks.old.items → is_marked marks.new.items u c ≡ cond (nat_eq u t) (is_some (found row c)) (is_marked marks.old.items u c) }
{
    mark_row(marks, t, &row);
    // The row may have fewer cells than before.
    tighten_lines(marks, t);
    rows[t] = row;
}

/// The same, where a growth may be refused.
///
/// # Errors
///
/// Where a growth was refused. Nothing is changed.
pub(crate) fn lay(
    rows: &mut Vec<Cells>,
    marks: &mut Vec<Marks>,
    t: usize,
    row: &Cells,
) -> Result<(), AllocError>
    requires there { t < length rows.old.items }
    requires tall { (w : ℕ) → w < length marks.old.items → t < length (slice_index_or marks.old.items w []) }
    requires wide { end_of row.now ≤ 64 * length marks.old.items }
    ensures rows { OnOk result (rows.new.items ≡ slice_set rows.old.items t row.now) }
    ensures err { OnErr result ((rows.new.items ≡ rows.old.items) × (marks.new.items ≡ marks.old.items)) }
    ensures len { length marks.new.items ≡ length marks.old.items }
    ensures tall { (w : ℕ) → length (slice_index_or marks.new.items w []) ≡ length (slice_index_or marks.old.items w []) }
    ensures marks { OnOk result ((u c : ℕ) → c < 64 * length marks.old.items → is_marked marks.new.items u c ≡ cond (nat_eq u t) (is_some (found row.now c)) (is_marked marks.old.items u c)) }
{
    rows[t].assign(row)?;
    mark_row(marks, t, row);
    // A pass that puts row after row does so once in 64 rows, when it has put all of them.
    if t % 64 == 63 {
        tighten_lines(marks, t);
    }
    Ok(())
}
