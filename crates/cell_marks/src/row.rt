//! One row of marks.
ghost use Rattle.std.specs.Prelude.{◌≡◌, ℕ, ◌<◌, ◌≤◌, ◌+◌, ◌*◌, ◌^◌, ◌↔◌, ◌||◌, ◌&&◌, ◌/◌, ◌%◌, true, false, nat_eq, IsTrue, MatchOption, IfOk, length, replicate, slice_set, take, if◌then◌else◌, not};
ghost use Rattle.cell_marks.specs.Bits.{bit_in, bits_of, block_rows};
ghost use Rattle.std.specs.Int.{bit_at};
ghost use Rattle.cell_marks.specs.Marked.{is_set, count_in, union, row_at, any_marks, IsFirstFrom};

use crate::row_blocks::RowBlocks;
use crate::word::word_of;
use crate::words::{
    add_in, add_one, clear_all_in, clear_in, counted_in, first_in, has_in, is_union_in, join_four,
    keep_in, put_four, remove_in, set_all_in, set_in,
};
use smallvec::{SmallVec, smallvec};
use std::alloc::{AllocError, Global};
use std::marker::Model;

/// A mark for each component, and how many are set. The words come by fours, one four for each 256 components: the first four
/// lie in the row itself, more in a piece of memory of their own.
pub struct Row {
    words: SmallVec<u64, 4>,
    len: u32,
    count: u32,
}

// Not derived: whoever drops a row calls this, and proves nothing of where its words lie anew.
impl Drop for Row {
    fn drop(self) {
        let Row {
            words,
            len: _,
            count: _,
        } = self;
        drop(words);
    }
}

impl Model for Row {
    ghost use Rattle.std.specs.Prelude.{Bool, List, ◌≡◌, ◌≤◌, ◌+◌, ◌*◌, ◌/◌, ◌^◌, length};
    ghost use Rattle.cell_marks.specs.Bits.{bits_of};
    ghost use Rattle.cell_marks.specs.Marked.{count_in};

    ghost Value = { List Bool };

    ghost view = { λ r. bits_of r.words.items r.len };

    ghost invariant = { λ r. (r.len / 256 * 4 + 4 ≤ length r.words.items) × (length r.words.items ≤ 2 ^ 32) × (r.count ≡ count_in (bits_of r.words.items r.len)) };
}

impl Row {
    /// A row of n components, all of which are marked, or none.
    ///
    /// # Errors
    ///
    /// Where a growth was refused. What was taken is given back.
    #[tactic(auto, using(crate::proofs::Bits::bits_of_one, crate::proofs::Bits::count_one))]
    pub fn new(alloc: Global, n: u32, is_marked: bool) -> Result<Row, AllocError>
        ensures { IfOk result (λ r. r ≡ replicate n is_marked) }
    {
        let word = word_of(is_marked);
        let words = smallvec![in alloc; word; n as usize / 256 * 4 + 4]?;
        Ok(Row {
            words,
            len: n,
            count: all_or_none(n, is_marked),
        })
    }

    /// How many components there are.
    pub fn len(&self) -> u32
        ensures { result ≡ length self.now }
    {
        self.len
    }

    /// How many are marked; no mark is looked at.
    pub fn count(&self) -> u32
        ensures { result ≡ count_in self.now }
    {
        self.count
    }

    /// Whether a component is marked; one that isn't there isn't.
    pub fn has(&self, c: u32) -> bool
        ensures { result ≡ is_set self.now c }
    {
        if c >= self.len {
            return false;
        }
        has_in(&self.words, c)
    }

    /// The first that is marked, from that one on.
    pub fn first_from(&self, from: u32) -> Option<u32>
        ensures { MatchOption result
            ((k : ℕ) → from ≤ k → is_set self.now k ≡ false)
            (λ c. IsFirstFrom self.now from c × (c < length self.now)) }
    {
        match first_in(&self.words, from) {
            Some(place) => {
                if place < self.len as usize {
                    return Some(place as u32);
                }
                None
            }
            None => None,
        }
    }

    /// The marks as bits, 64 in a word; a bit behind the last component means nothing.
    pub fn words(&self) -> &[u64]
        ensures room { length self.now ≤ 64 * length result.now }
        ensures bits { (c : ℕ) → c < length self.now → bit_in result.now c ≡ is_set self.now c }
    {
        let _len = self.len;
        &self.words
    }

    /// One of these words.
    #[inline(always)]
    pub fn word(&self, at: usize) -> u64
        requires { 64 * at < length self.now }
        ensures { (i : ℕ) → i < 64 → 64 * at + i < length self.now → nat_eq (bit_at result i) 1 ≡ is_set self.now (64 * at + i) }
    {
        self.words()[at]
    }

    /// Whether the components marked in one row or the other are just those marked here; 64 of them in one step.
    pub(crate) fn is_union(&self, one: &Row, other: &Row) -> bool
        requires one { length one.now ≡ length self.now }
        requires other { length other.now ≡ length self.now }
        ensures { IsTrue result ↔ ((c : ℕ) → c < length self.now → (is_set one.now c || is_set other.now c) ≡ is_set self.now c) }
    {
        let _len = (one.len, other.len);
        is_union_in(&one.words, &other.words, &self.words, self.len)
    }

    /// Marks a component.
    pub fn set(&mut self, c: u32)
        requires { c < length self.old }
        ensures { self.new ≡ slice_set self.old c true }
    {
        let was_set = self.has(c);
        self.count = more(self.count, was_set);
        set_in(&mut self.words, self.len, c);
    }

    /// How many of the first n are marked; 64 in one step.
    pub fn count_to(&self, n: u32) -> u32
        requires { n ≤ length self.now }
        ensures { result ≡ count_in (take n self.now) }
    {
        let _len = self.len;
        counted_in(&self.words, n)
    }

    /// Marks all components that another row marks, too; 64 of them in one step.
    #[tactic(auto, using(crate::proofs::Added::count_le))]
    pub fn add(&mut self, other: &Row)
        requires { length other.now ≡ length self.old }
        ensures { self.new ≡ union self.old other.now }
    {
        let _len = other.len;
        let added = add_in(&mut self.words, &other.words, self.len);
        self.count += added;
    }

    /// Marks all components whose bits are set in these words, too; 64 of them in one step.
    #[tactic(auto, using(crate::proofs::Added::count_le))]
    pub fn add_words(&mut self, words: &[u64])
        requires { length self.old ≤ 64 * length words.now }
        ensures { self.new ≡ union self.old (bits_of words.now (length self.old)) }
    {
        let more = add_in(&mut self.words, words, self.len);
        self.count += more;
    }

    /// Marks those of the 64 components of a word whose bits are set in another one, too.
    #[inline(always)]
    pub fn add_word(&mut self, w: usize, word: u64)
        requires { 64 * w < length self.old }
        ensures len { length self.new ≡ length self.old }
        ensures marks { (c : ℕ) → c < length self.old → is_set self.new c ≡ (is_set self.old c || (nat_eq (c / 64) w && nat_eq (bit_at word (c % 64)) 1)) }
    {
        let fresh = add_one(&mut self.words, self.len, w, word);
        self.count += fresh;
    }

    /// Takes away the marks of the components that another row doesn't mark; 64 of them in one step.
    pub fn keep(&mut self, other: &Row)
        requires { length other.now ≡ length self.old }
        ensures len { length self.new ≡ length self.old }
        ensures marks { (c : ℕ) → c < length self.old → is_set self.new c ≡ (is_set self.old c && is_set other.now c) }
    {
        let _len = other.len;
        self.count = keep_in(&mut self.words, &other.words, self.len);
    }

    /// Takes away the marks of the components that another row marks; 64 of them in one step.
    pub fn remove(&mut self, other: &Row)
        requires { length other.now ≡ length self.old }
        ensures len { length self.new ≡ length self.old }
        ensures marks { (c : ℕ) → c < length self.old → is_set self.new c ≡ (is_set self.old c && not (is_set other.now c)) }
    {
        let _len = other.len;
        self.count = remove_in(&mut self.words, &other.words, self.len);
    }

    /// The words of a block of 256 components.
    pub(crate) fn block_words(&self, block: u32) -> [u64; 4]
        requires { 256 * block < length self.now }
        ensures { (k : ℕ) → k < 256 → 256 * block + k < length self.now → bit_in result k ≡ is_set self.now (256 * block + k) }
    {
        let _len = self.len;
        let mut four = [0; 4];
        join_four(&mut four, &self.words, block as usize * 4);
        four
    }

    /// Marks just the components that some of these rows marks, of those whose own component is marked in `set`: 256 of them in
    /// one pass over the rows, and they are counted once.
    pub fn gather(&mut self, rows: &RowBlocks, set: &Row)
        requires rows { length rows.now ≡ length set.now }
        requires width { (c : ℕ) → c < length set.now → length (row_at rows.now c) ≡ length self.old }
        ensures len { length self.new ≡ length self.old }
        ensures marks { (k : ℕ) → k < length self.old → is_set self.new k ≡ any_marks set.now rows.now k (length set.now) }
    {
        gather_in(&mut self.words, self.len, rows, set);
        self.count = counted_in(&self.words, self.len);
    }

    /// Takes a component's mark away.
    pub fn clear(&mut self, c: u32)
        requires { c < length self.old }
        ensures { self.new ≡ slice_set self.old c false }
    {
        let was_set = self.has(c);
        self.count = fewer(self.count, was_set);
        clear_in(&mut self.words, self.len, c);
    }

    /// Marks all components.
    pub fn mark_all(&mut self)
        ensures { self.new ≡ replicate (length self.old) true }
    {
        set_all_in(&mut self.words);
        self.count = self.len;
    }

    /// Takes all marks away.
    pub fn clear_all(&mut self)
        ensures { self.new ≡ replicate (length self.old) false }
    {
        clear_all_in(&mut self.words);
        self.count = 0;
    }
}

/// Sets the bits of four words that a row of a block has set; none where there is no such row.
#[inline(always)]
fn join_row(four: &mut [u64; 4], block: &[[u64; 4]], c: usize)
    ensures { (k : ℕ) → k < 256 → bit_in four.new k ≡ (bit_in four.old k || is_set (row_at (block_rows block.now) c) k) }
{
    match block.get(c) {
        Some(row) => join_four(four, row, 0),
        None => {}
    }
}

/// The same of each row of the block whose own component is marked in one word of `set`.
#[inline(always)]
fn join_rows(four: &mut [u64; 4], block: &[[u64; 4]], set: &Row, word: usize)
    requires rows { length block.now ≡ length set.now }
    requires word { 64 * word < length set.now }
    requires before { (k : ℕ) → k < 256 → bit_in four.old k ≡ any_marks set.now (block_rows block.now) k (64 * word) }
    ensures { (k : ℕ) → k < 256 → bit_in four.new k ≡ any_marks set.now (block_rows block.now) k (64 * word + 64) }
{
    let mut rest = set.word(word);
    while rest != 0 {
        let c = 64 * word + rest.trailing_zeros() as usize;
        join_row(four, block, c);
        rest &= rest - 1;
    }
}

/// The bits that some row of a block has set, of those rows whose own component is marked in `set`.
fn gather_four(block: &[[u64; 4]], set: &Row) -> [u64; 4]
    requires { length block.now ≡ length set.now }
    ensures { (k : ℕ) → k < 256 → bit_in result k ≡ any_marks set.now (block_rows block.now) k (length set.now) }
{
    let mut four = [0; 4];
    for word in 0..set.len().div_ceil(64) {
        join_rows(&mut four, block, set, word as usize);
    }
    four
}

/// Sets just the bits among the first n that some of these rows marks, of those whose own component is marked in `set`.
fn gather_in(words: &mut [u64], n: u32, rows: &RowBlocks, set: &Row)
    requires room { n / 256 * 4 + 4 ≤ length words.old }
    requires rows { length rows.now ≡ length set.now }
    requires width { (c : ℕ) → c < length set.now → length (row_at rows.now c) ≡ n }
    ensures len { length words.new ≡ length words.old }
    ensures bits { (k : ℕ) → k < n → bit_in words.new k ≡ any_marks set.now rows.now k (length set.now) }
{
    for block in 0..n.div_ceil(256) {
        let four = gather_four(rows.block(block), set);
        put_four(words, block as usize * 4, &four);
    }
}

/// How many of n are marked, where all are or none.
fn all_or_none(n: u32, is_marked: bool) -> u32
    ensures { result ≡ (if is_marked then n else 0) }
{
    if is_marked { n } else { 0 }
}

/// How many are set once one of them was set.
fn more(count: u32, was_set: bool) -> u32
    requires { was_set ≡ false → count + 1 < 2 ^ 32 }
    ensures { result + (if was_set then 1 else 0) ≡ count + 1 }
{
    if was_set { count } else { count + 1 }
}

/// How many are set once one of them was cleared.
fn fewer(count: u32, was_set: bool) -> u32
    requires { was_set ≡ true → 0 < count }
    ensures { result + (if was_set then 1 else 0) ≡ count + 0 }
{
    if was_set { count - 1 } else { count }
}
