//! A mark for each cell.
ghost use Rattle.std.specs.Prelude.{◌≡◌, ℕ, ◌<◌, ◌≤◌, ◌+◌, ◌*◌, ◌++◌, ◌^◌, ◌↔◌, ◌||◌, true, false, IsTrue, MatchOption, IfOk, OnErr, MatchResult, length, replicate, slice_set, slice_index_or, take, [], if◌then◌else◌};
ghost use Rattle.cell_marks.specs.Marked.{is_set, has, count_in, count_of, row_at, union, IsFirstFrom};

use crate::row::Row;
use std::alloc::{AllocError, Global};
use std::marker::Model;

/// A mark for each cell by cycle, then component, and how many are set.
#[derive(Drop)]
pub struct Marks {
    rows: Vec<Row>,
    width: u32,
    total: u64,
}

impl Model for Marks {
    ghost use Rattle.cell_marks.specs.Marked.{Marked, IsMarked};

    ghost Value = { Marked };

    ghost view = { λ m. record { width = m.width; rows = m.rows.items } };

    ghost invariant = { λ m. IsMarked m.width m.rows.items m.total };
}

impl Marks {
    /// No row yet, for that many components.
    pub fn new(alloc: Global, width: u32) -> Marks
        ensures { result ≡ record { width = width; rows = [] } }
    {
        Marks {
            rows: Vec::new(alloc),
            width,
            total: 0,
        }
    }

    /// How many cells are marked; no cell is looked at.
    pub fn total(&self) -> u64
        ensures { result ≡ count_of self.now.rows }
    {
        self.total
    }

    /// How many rows there are.
    pub fn len(&self) -> u32
        ensures { result ≡ length self.now.rows }
    {
        self.rows.len() as u32
    }

    /// How many cells of a row are marked; no mark is looked at.
    pub fn row_count(&self, t: u32) -> u32
        ensures { result ≡ count_in (row_at self.now.rows t) }
    {
        match self.rows.get(t as usize) {
            Some(row) => row.count(),
            None => 0,
        }
    }

    /// How many cells of the rows up to t are marked; one number tells it of all rows.
    #[tactic(auto, using(crate::proofs::Totals::count_all_taken, crate::proofs::Totals::count_taken_none))]
    pub fn count_to(&self, t: u32) -> u64
        ensures { result ≡ count_of (take (t + 1) self.now.rows) }
    {
        let _ = &self.rows;
        let wanted = t as usize + 1;
        if self.total == 0 || wanted >= self.rows.len() {
            return self.total;
        }
        counted(&self.rows[..wanted])
    }

    /// The marks of a cycle.
    pub fn row(&self, t: u32) -> &Row
        requires { t < length self.now.rows }
        ensures { result.now ≡ row_at self.now.rows t }
    {
        &self.rows[t as usize]
    }

    /// Whether a cell is marked; one that isn't there isn't.
    pub fn has(&self, t: u32, c: u32) -> bool
        ensures { result ≡ has self.now.rows t c }
    {
        match self.rows.get(t as usize) {
            Some(row) => row.has(c),
            None => false,
        }
    }

    /// The first marked component of a row, from that one on.
    pub fn first_from(&self, t: u32, from: u32) -> Option<u32>
        ensures { MatchOption result
            ((k : ℕ) → from ≤ k → has self.now.rows t k ≡ false)
            (λ c. IsFirstFrom (row_at self.now.rows t) from c × (c < length (row_at self.now.rows t))) }
    {
        match self.rows.get(t as usize) {
            Some(row) => row.first_from(from),
            None => None,
        }
    }

    /// Whether the components marked in row t or in `with` are just those marked in row u; 64 of them in one step.
    pub fn is_alike(&self, t: u32, with: &Row, u: u32) -> bool
        requires width { length with.now ≡ self.now.width }
        requires row { t < length self.now.rows }
        requires other { u < length self.now.rows }
        ensures { IsTrue result ↔ ((c : ℕ) → c < self.now.width → (has self.now.rows t c || is_set with.now c) ≡ has self.now.rows u c) }
    {
        self.rows[u as usize].is_union(&self.rows[t as usize], with)
    }

    /// Marks a cell.
    pub fn set(&mut self, t: u32, c: u32)
        requires row { t < length self.old.rows }
        requires component { c < self.old.width }
        ensures { self.new ≡ record { width = self.old.width; rows = slice_set self.old.rows t (slice_set (row_at self.old.rows t) c true) } }
    {
        let row = &mut self.rows[t as usize];
        let before = row.count();
        row.set(c);
        let after = row.count();
        self.total = moved(self.total, before, after);
    }

    /// Marks the cells of a row at which another row has marks, too; 64 of them in one step.
    pub fn set_all(&mut self, t: u32, row: &Row)
        requires row { t < length self.old.rows }
        requires width { length row.now ≡ self.old.width }
        ensures { self.new ≡ record { width = self.old.width; rows = slice_set self.old.rows t (union (row_at self.old.rows t) row.now) } }
    {
        let marked = &mut self.rows[t as usize];
        let before = marked.count();
        marked.add(row);
        let after = marked.count();
        self.total = moved(self.total, before, after);
    }

    /// Takes a cell's mark away.
    pub fn clear(&mut self, t: u32, c: u32)
        requires row { t < length self.old.rows }
        requires component { c < self.old.width }
        ensures { self.new ≡ record { width = self.old.width; rows = slice_set self.old.rows t (slice_set (row_at self.old.rows t) c false) } }
    {
        let row = &mut self.rows[t as usize];
        let before = row.count();
        row.clear(c);
        let after = row.count();
        self.total = moved(self.total, before, after);
    }

    /// Takes all marks of a row away; a word of 64 in one step.
    pub fn clear_row(&mut self, t: u32)
        requires { t < length self.old.rows }
        ensures { self.new ≡ record { width = self.old.width; rows = slice_set self.old.rows t (replicate self.old.width false) } }
    {
        let row = &mut self.rows[t as usize];
        let before = row.count();
        row.clear_all();
        self.total -= u64::from(before);
    }

    /// Adds m rows in which all is marked, or nothing.
    ///
    /// # Errors
    ///
    /// Where a growth was refused. There are as many rows as before.
    #[tactic(auto, using(crate::proofs::Totals::marked_grown))]
    pub fn grow(&mut self, alloc: Global, m: u32, is_marked: bool) -> Result<(), AllocError>
        requires { length self.old.rows + m < 2 ^ 32 }
        ensures { MatchResult result
            (λ _. self.new ≡ record { width = self.old.width; rows = self.old.rows ++ replicate m (replicate self.old.width is_marked) })
            (λ _. self.new ≡ self.old) }
    {
        let mut more = rows_of(alloc, m, self.width, is_marked)?;
        let added = added(m, self.width, is_marked);
        match self.rows.append(&mut more) {
            Ok(()) => {
                self.total += added;
                Ok(())
            }
            Err(_) => Err(AllocError),
        }
    }

    /// Removes the rows from n on.
    pub fn truncate(&mut self, n: u32)
        ensures { self.new ≡ record { width = self.old.width; rows = take n self.old.rows } }
    {
        while self.rows.len() > n as usize {
            match self.rows.pop() {
                Some(row) => self.total -= u64::from(row.count()),
                None => {}
            }
        }
    }
}

/// How many cells of these rows are marked.
fn counted(rows: &[Row]) -> u64
    requires { length rows.now ≤ 2 ^ 32 }
    ensures { result ≡ count_of rows.now }
{
    let mut count = 0;
    for row in rows {
        count += u64::from(row.count());
    }
    count
}

/// Rows in which all is marked, or nothing.
fn rows_of(alloc: Global, m: u32, width: u32, is_marked: bool) -> Result<Vec<Row>, AllocError>
    ensures { IfOk result (λ rows. rows.items ≡ replicate m (replicate width is_marked)) }
{
    let mut rows = Vec::with_capacity(alloc, m as usize)?;
    for _t in 0..m {
        match rows.push(Row::new(alloc, width, is_marked)?) {
            Ok(()) => {}
            Err(_) => return Err(AllocError),
        }
    }
    Ok(rows)
}

/// How many marks there are in such rows.
fn added(m: u32, width: u32, is_marked: bool) -> u64
    ensures { result ≡ m * (if is_marked then width else 0) }
{
    if is_marked {
        u64::from(m) * u64::from(width)
    } else {
        0
    }
}

/// The total once a row's count has changed.
fn moved(total: u64, before: u32, after: u32) -> u64
    requires counted { before ≤ total }
    requires fits { total + after < 2 ^ 64 + before }
    ensures { result + before ≡ total + after }
{
    total - u64::from(before) + u64::from(after)
}
