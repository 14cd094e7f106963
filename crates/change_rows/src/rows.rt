//! The words of all cells of a table.
ghost use Rattle.std.specs.Prelude.{◌≡◌, ℕ, ◌+◌, ◌-◌, ◌*◌, ◌/◌, ◌%◌, ◌^◌, ◌<◌, ◌≤◌, ◌++◌, [], List, true, false, MatchResult, IfOk, OnOk, length, take, replicate, slice_index_or, slice_set};
ghost use Rattle.change_rows.specs.Cells.{end_of};
ghost use Rattle.change_rows.specs.Marks.{is_one, is_in};
ghost use Rattle.change_rows.specs.Rows.{Table, words_at, overlaid, replaced, filled, repeated, IsWhole};

use crate::cells::Cells;
use crate::changes::{Changes, begin_word, begins_in, next_begin, next_of, words_in, words_to};
use crate::edit::{Buffers, put};
use crate::fill::fill;
use crate::grow::{cut, grow};
use crate::kinds::Kinds;
use crate::marks::Marks;
use crate::notes::{Notes, forget};
use crate::run::repeat;
use crate::source::Source;
use crate::sourced::put_from;
use std::alloc::{AllocError, Global};
use std::marker::Model;

/// A list of words for each cell by cycle, then component, kept as what begins at each cycle.
///
/// A row that is put is one piece of memory written for its components and one for its words. What
/// stood in the row behind it is held beside the rows, until another row than that one is put.
pub struct Rows {
    changes: Changes,
    buffers: Buffers,
    kinds: Kinds,
    notes: Notes,
}

// Not derived: whoever drops a table of rows calls this, and proves nothing of its parts anew.
impl Drop for Rows {
    fn drop(self) {
        let Rows {
            changes,
            buffers,
            kinds,
            notes,
        } = self;
        drop(changes);
        drop(buffers);
        drop(kinds);
        drop(notes);
    }
}

impl Model for Rows {
    ghost use Rattle.change_rows.specs.Marks.{is_in};
    ghost use Rattle.change_rows.specs.Rows.{Table};
    ghost use Rattle.change_rows.specs.Changes.{cells_in};
    ghost use Rattle.change_rows.specs.Kinds.{IsKept};

    ghost Value = { Table };

    ghost view = { λ r. record { width = r.changes.width; rows = cells_in r.changes.rows.items r.changes.seam r.changes.at r.changes.width } };

    ghost invariant = { λ r. IsKept r.changes.width r.changes.rows.items r.changes.marks.items r.changes.seam r.changes.at r.kinds r.notes };
}

impl Rows {
    /// No row yet, for that many components.
    ///
    /// # Errors
    ///
    /// Where a growth was refused.
    pub fn new(alloc: Global, width: u32) -> Result<Rows, AllocError>
        ensures { IfOk result (λ rows. rows ≡ record { width = width; rows = [] }) }
    {
        let marks = no_marks(alloc, width.div_ceil(64))?;
        let kinds = Kinds::new(alloc, width)?;
        let notes = Notes::new(alloc, width)?;
        Ok(Rows {
            changes: Changes {
                width,
                rows: Vec::new(alloc),
                marks,
                seam: Cells::new(alloc),
                at: 0,
            },
            buffers: Buffers::new(alloc),
            kinds,
            notes,
        })
    }

    /// How many rows there are. Each has a cell for each component.
    pub fn len(&self) -> u32
        ensures count { result ≡ length self.now.rows }
        ensures whole { IsWhole self.now }
    {
        self.changes.rows.len() as u32
    }

    /// How many components there are.
    pub fn width(&self) -> u32
        ensures { result ≡ self.now.width }
    {
        self.changes.width
    }

    /// The words of a cell; none where there is no such cell.
    pub fn words(&self, t: u32, c: u32) -> &[u64]
        ensures { result.now ≡ words_at self.now.rows t c }
    {
        if t as usize >= self.changes.rows.len() || c >= self.changes.width {
            return &[];
        }
        words_in(&self.changes, t as usize, c)
    }

    /// The words of a cell, and to before which row, `end` at most, its component holds them; it may hold them longer.
    #[inline(always)]
    pub fn words_to(&self, t: u32, end: u32, c: u32) -> (&[u64], u32)
        requires before { t < end }
        requires within { end ≤ length self.now.rows }
        ensures after { t < result.1 }
        ensures before { result.1 ≤ end }
        ensures same { (u : ℕ) → t ≤ u → u < result.1 → words_at self.now.rows u c ≡ result.0.now }
    {
        if c >= self.changes.width {
            return (&[], end);
        }
        words_to(&self.changes, t, end, c)
    }

    /// Whether other words may begin at a cell than its component holds a cycle before. Where they
    /// don't, it holds the same; there may be such cells besides.
    pub fn begins(&self, t: u32, c: u32) -> bool
        ensures { result ≡ false → (0 < t) × (words_at self.now.rows t c ≡ words_at self.now.rows (t - 1) c) }
    {
        if t == 0 || t as usize >= self.changes.rows.len() || c >= self.changes.width {
            return true;
        }
        begins_in(&self.changes, t as usize, c)
    }

    /// The first row from t on, and before `to`, at which a component of a set may begin, or else where such rows end.
    /// The set has a bit for each component, 64 in a word. All rows before that one hold for each
    /// component of the set what the row before them holds.
    pub fn next_change(&self, t: u32, to: u32, set: &[u64]) -> u32
        ensures from { t ≤ result }
        ensures to { t ≤ to → result ≤ to }
        ensures steady { (u c : ℕ) → t ≤ u → u < result → c < self.now.width → is_in set.now c ≡ true → (0 < u) × (words_at self.now.rows u c ≡ words_at self.now.rows (u - 1) c) }
    {
        if t == 0 {
            return 0;
        }
        let end = to.min(self.changes.rows.len() as u32);
        next_begin(&self.changes, t, end, set)
    }

    /// The first row from t on, and before `to`, at which a component may begin, or else where such rows end. In all rows before that one
    /// it holds what it holds in the row before them.
    pub fn next_of(&self, t: u32, to: u32, c: u32) -> u32
        ensures from { t ≤ result }
        ensures to { t ≤ to → result ≤ to }
        ensures steady { (u : ℕ) → t ≤ u → u < result → (0 < u) × (words_at self.now.rows u c ≡ words_at self.now.rows (u - 1) c) }
    {
        if t == 0 || c >= self.changes.width {
            return t;
        }
        let end = to.min(self.changes.rows.len() as u32);
        next_of(&self.changes, t, end, c)
    }

    /// Of the 64 components of a word those at which other words may begin in row t than they hold a cycle before. Where a bit is 0
    /// the component holds the same; there may be such components besides.
    pub fn begin_word(&self, t: u32, w: usize) -> u64
        ensures { (c : ℕ) → c / 64 ≡ w → c < self.now.width → is_one result (c % 64) ≡ false → (0 < t) × (words_at self.now.rows t c ≡ words_at self.now.rows (t - 1) c) }
    {
        if t == 0 || t as usize >= self.changes.rows.len() || w >= self.changes.marks.len() {
            return u64::MAX;
        }
        begin_word(&self.changes, t as usize, w)
    }

    /// Rows more, whose cells have no words.
    ///
    /// # Errors
    ///
    /// Where a growth was refused. There are as many rows as before.
    pub fn grow(&mut self, alloc: Global, m: u32) -> Result<(), AllocError>
        requires { length self.old.rows + m < 2 ^ 32 }
        ensures { MatchResult result
            (λ _. self.new ≡ record { width = self.old.width; rows = self.old.rows ++ replicate m (replicate self.old.width []) })
            (λ _. self.new ≡ self.old) }
    {
        if m == 0 {
            return Ok(());
        }
        forget(&mut self.notes);
        grow(alloc, &mut self.changes, &mut self.buffers.row, m as usize)?;
        Ok(())
    }

    /// The first n rows stay.
    pub fn truncate(&mut self, n: u32)
        ensures { self.new ≡ record { width = self.old.width; rows = take n self.old.rows } }
    {
        forget(&mut self.notes);
        cut(&mut self.changes, n as usize);
    }

    /// The components of a set hold from row `from` on and before row `to` what they hold in the row before `from`; all other
    /// cells hold what they held. The set has a bit for each component, 64 in a word.
    ///
    /// # Errors
    ///
    /// Where a growth was refused. All cells hold what they held.
    pub fn repeat(
        &mut self,
        alloc: Global,
        from: u32,
        to: u32,
        set: &[u64],
    ) -> Result<(), AllocError>
        requires before { 0 < from }
        requires some { from < to }
        requires rows { to ≤ length self.old.rows }
        ensures { MatchResult result
            (λ _. self.new ≡ record { width = self.old.width; rows = repeated self.old.rows self.old.width from to set.now })
            (λ _. self.new ≡ self.old) }
    {
        forget(&mut self.notes);
        repeat(
            alloc,
            &mut self.changes,
            &mut self.buffers,
            from as usize - 1,
            to as usize - 1,
            set,
        )?;
        Ok(())
    }

    /// The components of a set hold in row t the words that a source has for them, and all other cells of all rows hold what they held.
    /// Of `changed` those components are then the members that held other words. Both have a bit for each component, 64 in a word; a
    /// bit behind the last component means nothing.
    ///
    /// # Errors
    ///
    /// Where a growth was refused. All cells hold what they held.
    pub fn put_from<S: Source>(
        &mut self,
        t: u32,
        set: &[u64],
        source: &S,
        changed: &mut [u64],
    ) -> Result<(), AllocError>
        requires row { t < length self.old.rows }
        requires changed { length changed.old ≡ length set.now }
        requires has { (c : ℕ) → c < self.old.width → is_in set.now c ≡ true → S.has source.now c }
        requires still { (c : ℕ) → c < self.old.width → is_in set.now c ≡ true → S.still source.now c ≡ true → (0 < t) × (S.words source.now c ≡ words_at self.old.rows (t - 1) c) }
        ensures row { MatchResult result
            (λ _. self.new ≡ record { width = self.old.width; rows = slice_set self.old.rows t (replaced (slice_index_or self.old.rows t []) set.now (S.words source.now)) })
            (λ _. self.new ≡ self.old) }
        ensures changed { OnOk result ((c : ℕ) → is_in changed.new c ≡ true → (c < self.old.width) × (is_in set.now c ≡ true) × (words_at self.old.rows t c ≡ S.words source.now c → ⊥)) }
        ensures same { OnOk result ((c : ℕ) → c < self.old.width → is_in set.now c ≡ true → is_in changed.new c ≡ false → words_at self.old.rows t c ≡ S.words source.now c) }
    {
        put_from(
            &mut self.changes,
            &mut self.buffers,
            &mut self.kinds,
            &mut self.notes,
            t as usize,
            set,
            source,
            changed,
        )?;
        Ok(())
    }

    /// Whether it is known at once that no component holds words in row t: that it is the row behind the one that was put last, and that
    /// what stands beside the rows for it has no words. Where it says no, row t may be without words too.
    #[inline(always)]
    pub fn is_blank(&self, t: u32) -> bool
        requires { t < length self.now.rows }
        ensures { result ≡ true → (c : ℕ) → c < self.now.width → words_at self.now.rows t c ≡ [] }
    {
        let s = &self.changes;
        if s.at == t as usize && s.rows[t as usize].is_empty() && s.seam.len() == s.width as usize {
            return s.seam.has_no_words();
        }
        false
    }

    /// All components hold in row t the words that a source has for them, where they held none there; all other rows hold what they
    /// held.
    ///
    /// # Errors
    ///
    /// Where a growth was refused. All cells hold what they held.
    pub fn fill<S: Source>(&mut self, t: u32, source: &S) -> Result<(), AllocError>
        requires row { t < length self.old.rows }
        requires none { (c : ℕ) → c < self.old.width → words_at self.old.rows t c ≡ [] }
        requires has { (c : ℕ) → c < self.old.width → S.has source.now c }
        requires still { (c : ℕ) → c < self.old.width → S.still source.now c ≡ true → (0 < t) × (S.words source.now c ≡ words_at self.old.rows (t - 1) c) }
        ensures { MatchResult result
            (λ _. self.new ≡ record { width = self.old.width; rows = slice_set self.old.rows t (filled self.old.width (S.words source.now)) })
            (λ _. self.new ≡ self.old) }
    {
        forget(&mut self.notes);
        fill(
            &mut self.changes,
            &mut self.buffers,
            &mut self.kinds,
            t as usize,
            source,
        )?;
        Ok(())
    }

    /// The cells of a draft hold its words in row t, and all other cells of all rows hold what they held.
    ///
    /// # Errors
    ///
    /// Where a growth was refused. All cells hold what they held.
    pub fn put_row(&mut self, alloc: Global, t: u32, draft: &Cells) -> Result<(), AllocError>
        requires row { t < length self.old.rows }
        requires components { end_of draft.now ≤ self.old.width }
        ensures { MatchResult result
            (λ _. self.new ≡ record { width = self.old.width; rows = slice_set self.old.rows t (overlaid (slice_index_or self.old.rows t []) draft.now) })
            (λ _. self.new ≡ self.old) }
    {
        let _ = alloc;
        forget(&mut self.notes);
        put(&mut self.changes, &mut self.buffers, t as usize, draft)?;
        Ok(())
    }
}

/// Marks of no row, for that many times 64 components.
fn no_marks(alloc: Global, lines: u32) -> Result<Vec<Marks>, AllocError>
    ensures len { IfOk result (λ marks. length marks.items ≡ lines) }
    ensures none { IfOk result (λ marks. (w : ℕ) → slice_index_or marks.items w [] ≡ []) }
{
    let mut marks = Vec::with_capacity(alloc, lines as usize)?;
    for _w in 0..lines {
        match marks.push(Marks::new(alloc)) {
            Ok(()) => {}
            Err(_) => return Err(AllocError),
        }
    }
    Ok(marks)
}
