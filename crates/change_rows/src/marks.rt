//! At which cycles the cells of components begin.
ghost use Rattle.std.specs.Prelude.{◌≡◌, ℕ, ◌+◌, ◌*◌, ◌/◌, ◌<◌, ◌≤◌, max, ◌++◌, ◌||◌, [], List, true, false, cond, nat_eq, MatchOption, OnOk, length, take, replicate, is_some, slice_index_or, slice_set};
ghost use Rattle.change_rows.specs.Cells.{found, end_of, IsSplit};
ghost use Rattle.change_rows.specs.Marks.{is_one, is_set, is_marked, is_in, IsCovered};

use crate::cells::Cells;
use std::alloc::{AllocError, Global};
use std::marker::Model;

/// For 64 components a word of marks for each cycle.
#[derive(Drop)]
pub(crate) struct Marks {
    words: Vec<u64>,
    /// For 64 cycles each a word that has at least the marks of each of them.
    blocks: Vec<u64>,
}

impl Model for Marks {
    ghost use Rattle.std.specs.Prelude.{List, ℕ};
    ghost use Rattle.change_rows.specs.Marks.{IsCovered};

    ghost Value = { List ℕ };

    ghost view = { λ m. m.words.items };

    ghost invariant = { λ m. IsCovered m.words.items m.blocks.items };
}

impl Marks {
    /// No cycle.
    pub fn new(alloc: Global) -> Marks
        ensures { result ≡ [] }
    {
        Marks {
            words: Vec::new(alloc),
            blocks: Vec::new(alloc),
        }
    }

    /// At least the marks of each of the 64 cycles that a cycle is among.
    #[inline]
    pub fn block(&self, t: usize) -> u64
        requires { t < length self.now }
        ensures { (u k : ℕ) → u / 64 ≡ t / 64 → is_set self.now u k ≡ true → is_one result k ≡ true }
    {
        self.blocks[t / 64]
    }

    /// The marks of a cycle.
    #[inline]
    pub fn word(&self, t: usize) -> u64
        requires { t < length self.now }
        ensures { result ≡ slice_index_or self.now t 0 }
    {
        self.words[t]
    }

    /// Whether a component is marked at a cycle.
    #[inline]
    pub fn has(&self, t: usize, k: u32) -> bool
        requires cycle { t < length self.now }
        requires component { k < 64 }
        ensures { result ≡ is_set self.now t k }
    {
        has_bit(self.words[t], k)
    }

    /// The last cycle up to t at which a component is marked.
    pub fn last(&self, t: usize, k: u32) -> Option<usize>
        requires cycle { t < length self.now }
        requires component { k < 64 }
        ensures { MatchOption result
            ((u : ℕ) → u ≤ t → is_set self.now u k ≡ false)
            (λ b. (b ≤ t) × (is_set self.now b k ≡ true) × ((u : ℕ) → b < u → u ≤ t → is_set self.now u k ≡ false)) }
    {
        last_in(self.words.as_slice(), self.blocks.as_slice(), t, k)
    }

    /// The first cycle from t on, and before `end`, at which a component is marked, or else that.
    #[inline(always)]
    pub fn next(&self, t: usize, end: usize, k: u32) -> usize
        requires cycles { end ≤ length self.now }
        requires component { k < 64 }
        ensures from { t ≤ result }
        ensures to { t ≤ end → result ≤ end }
        ensures past { end < t → result ≡ t }
        ensures none { (u : ℕ) → t ≤ u → u < result → is_set self.now u k ≡ false }
    {
        // Mostly it is marked there already, and no block is looked at.
        if t < end && has_bit(self.words[t], k) {
            return t;
        }
        next_in(self.words.as_slice(), self.blocks.as_slice(), t, end, k)
    }

    /// Marks just these components at a cycle.
    pub fn put(&mut self, t: usize, word: u64)
        requires { t < length self.old }
        ensures { self.new ≡ slice_set self.old t word }
    {
        self.words[t] = word;
        let block = self.blocks[t / 64] | word;
        self.blocks[t / 64] = block;
    }

    /// Makes the block of a cycle anew, from the marks that its 64 cycles have now. One that was taken away from all of them stays in it
    /// till then, and has them looked at one by one.
    pub fn tighten(&mut self, t: usize)
        requires { t < length self.old }
        ensures { self.new ≡ self.old }
    {
        let from = t / 64 * 64;
        let to = self.words.len().min(from + 64);
        let block = marks_of(self.words.as_slice(), from, to);
        self.blocks[t / 64] = block;
    }

    /// Room for n cycles; nothing is marked at those that come in addition.
    ///
    /// # Errors
    ///
    /// Where a growth was refused. Nothing is changed.
    pub fn grow_to(&mut self, n: usize) -> Result<(), AllocError>
        ensures same { (t k : ℕ) → is_set self.new t k ≡ is_set self.old t k }
        ensures longer { length self.old ≤ length self.new }
        ensures ok { OnOk result (n ≤ length self.new) }
    {
        stretch(&mut self.blocks, n.div_ceil(64))?;
        stretch(&mut self.words, n)
    }

    /// The first n cycles stay.
    pub fn truncate(&mut self, n: usize)
        ensures { self.new ≡ take n self.old }
    {
        self.words.truncate(n);
    }
}

/// The marks of the cycles from one on and before another one.
fn marks_of(words: &[u64], from: usize, to: usize) -> u64
    requires { to ≤ length words.now }
    ensures { (u k : ℕ) → from ≤ u → u < to → is_set words.now u k ≡ true → is_one result k ≡ true }
{
    let mut word = 0;
    for u in from..to {
        word |= words[u];
    }
    word
}

/// Words more, all 0.
fn grow_by(words: &mut Vec<u64>, m: usize) -> Result<(), AllocError>
    ensures same { (t k : ℕ) → is_set words.new.items t k ≡ is_set words.old.items t k }
    ensures longer { length words.old.items ≤ length words.new.items }
    ensures most { length words.new.items ≤ length words.old.items + m }
    ensures ok { OnOk result (length words.new.items ≡ length words.old.items + m) }
{
    words.reserve(m)?;
    for _t in 0..m {
        words.push_reserved(0);
    }
    Ok(())
}

/// Room for n words; those that come in addition are 0.
fn stretch(words: &mut Vec<u64>, n: usize) -> Result<(), AllocError>
    ensures same { (t k : ℕ) → is_set words.new.items t k ≡ is_set words.old.items t k }
    ensures longer { length words.old.items ≤ length words.new.items }
    ensures most { length words.new.items ≤ max n (length words.old.items) }
    ensures ok { OnOk result (n ≤ length words.new.items) }
{
    let len = words.len();
    if n <= len {
        return Ok(());
    }
    grow_by(words, n - len)
}

/// Room for n cycles in all lines.
///
/// # Errors
///
/// Where a growth was refused. All marks stay.
pub(crate) fn grow_lines(lines: &mut Vec<Marks>, n: usize) -> Result<(), AllocError>
    ensures len { length lines.new.items ≡ length lines.old.items }
    ensures same { (t c : ℕ) → is_marked lines.new.items t c ≡ is_marked lines.old.items t c }
    ensures longer { (w : ℕ) → length (slice_index_or lines.old.items w []) ≤ length (slice_index_or lines.new.items w []) }
    ensures ok { OnOk result ((w : ℕ) → w < length lines.old.items → n ≤ length (slice_index_or lines.new.items w [])) }
{
    for w in 0..lines.len() {
        lines[w].grow_to(n)?;
    }
    Ok(())
}

/// Makes the block of a cycle anew in all lines, as `Marks::tighten`.
pub(crate) fn tighten_lines(lines: &mut Vec<Marks>, t: usize)
    requires { (w : ℕ) → w < length lines.old.items → t < length (slice_index_or lines.old.items w []) }
    ensures { lines.new.items ≡ lines.old.items }
{
    for w in 0..lines.len() {
        lines[w].tighten(t);
    }
}

/// The first n cycles stay.
pub(crate) fn cut_lines(lines: &mut Vec<Marks>, n: usize)
    ensures len { length lines.new.items ≡ length lines.old.items }
    ensures lines { (w : ℕ) → slice_index_or lines.new.items w [] ≡ take n (slice_index_or lines.old.items w []) }
{
    for w in 0..lines.len() {
        lines[w].truncate(n);
    }
}

#[inline]
pub(crate) fn has_bit(word: u64, k: u32) -> bool
    requires { k < 64 }
    ensures { result ≡ is_one word k }
{
    (word >> k) & 1 == 1
}

pub(crate) fn with_bit(word: u64, k: u32) -> u64
    requires { k < 64 }
    ensures set { is_one result k ≡ true }
    ensures others { (i : ℕ) → (i ≡ k → ⊥) → is_one result i ≡ is_one word i }
{
    word | (1 << k)
}

/// The last cycle before one, from another one on, at which a component is marked.
fn last_of(words: &[u64], from: usize, to: usize, k: u32) -> Option<usize>
    requires cycles { to ≤ length words.now }
    requires component { k < 64 }
    ensures { MatchOption result
        ((u : ℕ) → from ≤ u → u < to → is_set words.now u k ≡ false)
        (λ b. (from ≤ b) × (b < to) × (is_set words.now b k ≡ true) × ((u : ℕ) → b < u → u < to → is_set words.now u k ≡ false)) }
{
    let mut at = to;
    while at > from {
        at -= 1;
        if has_bit(words[at], k) {
            return Some(at);
        }
    }
    None
}

/// The last cycle up to t at which a component is marked. Blocks without the mark are passed over at once.
fn last_in(words: &[u64], blocks: &[u64], t: usize, k: u32) -> Option<usize>
    requires cycle { t < length words.now }
    requires component { k < 64 }
    requires covered { IsCovered words.now blocks.now }
    ensures { MatchOption result
        ((u : ℕ) → u ≤ t → is_set words.now u k ≡ false)
        (λ b. (b ≤ t) × (is_set words.now b k ≡ true) × ((u : ℕ) → b < u → u ≤ t → is_set words.now u k ≡ false)) }
{
    let mut at = t + 1;
    while at > 0 {
        let block = (at - 1) / 64;
        if has_bit(blocks[block], k) {
            let last = last_of(words, block * 64, at, k);
            if last.is_some() {
                return last;
            }
        }
        at = block * 64;
    }
    None
}

/// The first cycle from one on, and before another one, at which a component is marked, or else that.
#[inline(always)]
fn first_of(words: &[u64], from: usize, to: usize, k: u32) -> usize
    requires cycles { to ≤ length words.now }
    requires order { from ≤ to }
    requires component { k < 64 }
    ensures from { from ≤ result }
    ensures to { result ≤ to }
    ensures none { (u : ℕ) → from ≤ u → u < result → is_set words.now u k ≡ false }
    ensures there { result < to → is_set words.now result k ≡ true }
{
    let mut at = from;
    while at < to && !has_bit(words[at], k) {
        at += 1;
    }
    at
}

/// The same. Blocks without the mark are passed over at once.
#[inline(always)]
fn next_in(words: &[u64], blocks: &[u64], t: usize, end: usize, k: u32) -> usize
    requires cycles { end ≤ length words.now }
    requires component { k < 64 }
    requires covered { IsCovered words.now blocks.now }
    ensures from { t ≤ result }
    ensures to { t ≤ end → result ≤ end }
    ensures past { end < t → result ≡ t }
    ensures none { (u : ℕ) → t ≤ u → u < result → is_set words.now u k ≡ false }
{
    let mut at = t;
    while at < end {
        let to = end.min((at / 64 + 1) * 64);
        if has_bit(blocks[at / 64], k) {
            let next = first_of(words, at, to, k);
            if next < to {
                return next;
            }
        }
        at = to;
    }
    at
}

fn has_both(word: u64, other: u64) -> bool
    ensures { result ≡ false → (k : ℕ) → is_one other k ≡ true → is_one word k ≡ false }
{
    word & other != 0
}

/// Whether a component of a set is marked at a cycle.
pub(crate) fn has_any(lines: &Vec<Marks>, t: usize, set: &[u64]) -> bool
    requires { (w : ℕ) → w < length lines.now.items → t < length (slice_index_or lines.now.items w []) }
    ensures { result ≡ false → (c : ℕ) → c < 64 * length lines.now.items → is_in set.now c ≡ true → is_marked lines.now.items t c ≡ false }
{
    for w in 0..lines.len().min(set.len()) {
        if has_both(lines[w].word(t), set[w]) {
            return true;
        }
    }
    false
}

/// Whether a component of a set may be marked at one of the 64 cycles that a cycle is among.
pub(crate) fn block_has_any(lines: &Vec<Marks>, t: usize, set: &[u64]) -> bool
    requires { (w : ℕ) → w < length lines.now.items → t < length (slice_index_or lines.now.items w []) }
    ensures { result ≡ false → (u c : ℕ) → u / 64 ≡ t / 64 → c < 64 * length lines.now.items → is_in set.now c ≡ true → is_marked lines.now.items u c ≡ false }
{
    for w in 0..lines.len().min(set.len()) {
        if has_both(lines[w].block(t), set[w]) {
            return true;
        }
    }
    false
}

/// How many components below c are marked at a cycle: the place of its cell, where a row has one.
#[inline(always)]
pub(crate) fn rank(lines: &Vec<Marks>, t: usize, c: u32) -> usize
    requires tall { (w : ℕ) → w < length lines.now.items → t < length (slice_index_or lines.now.items w []) }
    requires component { c < 64 * length lines.now.items }
{
    let line = c as usize / 64;
    let below = bits_below(lines[line].word(t), c % 64);
    if line == 0 {
        return below;
    }
    below.wrapping_add(lines_below(lines, t, line))
}

/// How many components of the first lines are marked at a cycle.
#[inline(never)]
fn lines_below(lines: &Vec<Marks>, t: usize, line: usize) -> usize
    requires tall { (w : ℕ) → w < length lines.now.items → t < length (slice_index_or lines.now.items w []) }
    requires there { line ≤ length lines.now.items }
{
    let mut below: usize = 0;
    for w in 0..line {
        below = below.wrapping_add(lines[w].word(t).count_ones() as usize);
    }
    below
}

/// How many of the first k bits are set.
#[inline(always)]
fn bits_below(word: u64, k: u32) -> usize
    requires { k < 64 }
{
    (word & !(u64::MAX << k)).count_ones() as usize
}

/// The marks of those of the 64 components of a word of which there are cells, where the cells below the word are known, and how many
/// cells are below the next one.
fn word_from(cells: &Cells, from: usize, w: usize) -> (u64, usize)
    requires { IsSplit cells.now (64 * w) from }
    ensures below { IsSplit cells.now (64 * (w + 1)) result.1 }
    ensures marks { (k : ℕ) → k < 64 → is_one result.0 k ≡ is_some (found cells.now (64 * w + k)) }
{
    let mut word = 0;
    let mut i = from;
    while i < cells.len() && cells.component(i) as usize / 64 == w {
        word = with_bit(word, cells.component(i) % 64);
        i += 1;
    }
    (word, i)
}

/// The components of cells, and no others, are marked at a cycle.
pub(crate) fn mark_row(lines: &mut Vec<Marks>, t: usize, cells: &Cells)
    requires tall { (w : ℕ) → w < length lines.old.items → t < length (slice_index_or lines.old.items w []) }
    requires wide { end_of cells.now ≤ 64 * length lines.old.items }
    ensures len { length lines.new.items ≡ length lines.old.items }
    ensures tall { (w : ℕ) → length (slice_index_or lines.new.items w []) ≡ length (slice_index_or lines.old.items w []) }
    ensures marks { (u c : ℕ) → c < 64 * length lines.old.items → is_marked lines.new.items u c ≡ cond (nat_eq u t) (is_some (found cells.now c)) (is_marked lines.old.items u c) }
{
    let mut from = 0;
    for w in 0..lines.len() {
        let (word, next) = word_from(cells, from, w);
        lines[w].put(t, word);
        from = next;
    }
}
