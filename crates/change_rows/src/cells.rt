//! Some cells of one row.
ghost use Rattle.std.specs.Prelude.{◌≡◌, ℕ, ◌+◌, ◌-◌, ◌^◌, ◌<◌, ◌≤◌, ◌++◌, ◌∷◌, [], List, true, IsTrue, ◌↔◌, MatchResult, MatchOption, IfSome, cond, OnErr, OnOk, IfOk, length, map, is_some, Some, None, slice_index_or, slice_range, unwrap_or, vec_len, vec_capacity};
ghost use Rattle.std.specs.Option.{option_copied};
ghost use Rattle.change_rows.specs.declared.head.Head.{Head};
ghost use Rattle.change_rows.specs.Packed.{head_at, start_at, moved, cell_at, cells_of, IsPacked, IsPlace};
ghost use Rattle.change_rows.specs.Cells.{Held, no_cell, found, end_of, component_at, IsAscending};

use crate::head::{Head, PLACES, head_for};
use crate::sets::word_at;
use crate::source::Source;
use std::alloc::{AllocError, Global};
use std::marker::Model;

/// The most words that cells hold together: a head can name the place behind them.
const MOST_WORDS: usize = PLACES as usize - 1;

/// Cells of one row by ascending component, each with its words. They lie in two buffers, which
/// `clear` keeps.
#[derive(Drop)]
pub struct Cells {
    heads: Vec<Head>,
    words: Vec<u64>,
}

impl Model for Cells {
    ghost use Rattle.std.specs.Prelude.{List};
    ghost use Rattle.change_rows.specs.Packed.{head_at, start_at, cell_at, cells_of, IsPacked, IsPlace};
    ghost use Rattle.change_rows.specs.Cells.{Held};

    ghost Value = { List Held };

    ghost use Rattle.change_rows.specs.Packed.{cells_of, IsPacked};

    ghost view = { λ c. cells_of c.heads.items c.words.items };

    ghost invariant = { λ c. IsPacked c.heads.items c.words.items };
}

impl Cells {
    /// No cell.
    pub fn new(alloc: Global) -> Cells
        ensures { result ≡ [] }
    {
        Cells {
            heads: Vec::new(alloc),
            words: Vec::new(alloc),
        }
    }

    /// How many cells there are.
    pub fn len(&self) -> usize
        ensures count { result ≡ length self.now }
        ensures ascending { IsAscending self.now }
    {
        self.heads.len()
    }

    /// Whether there is no cell.
    pub fn is_empty(&self) -> bool
        ensures { result ≡ true → self.now ≡ [] }
    {
        self.heads.is_empty()
    }

    /// Whether no cell has words, as far as the buffer of them all tells.
    #[inline(always)]
    pub(crate) fn has_no_words(&self) -> bool
        ensures { result ≡ true → (i : ℕ) → (slice_index_or self.now i no_cell).words ≡ [] }
    {
        self.words.is_empty()
    }

    /// Removes all cells. The buffers stay.
    pub fn clear(&mut self)
        ensures { self.new ≡ [] }
    {
        self.heads.clear();
        self.words.clear();
    }

    /// The first component above those of all cells: from there on cells can be pushed.
    pub fn end(&self) -> u64
        ensures { result ≡ end_of self.now }
    {
        end_in(self.heads.as_slice(), self.words.as_slice())
    }

    /// The component of the cell at a place.
    pub fn component(&self, i: usize) -> u32
        requires { i < length self.now }
        ensures { result ≡ component_at self.now i }
    {
        self.heads[i].component()
    }

    /// The words of the cell at a place.
    pub fn words(&self, i: usize) -> &[u64]
        requires { i < length self.now }
        ensures { result.now ≡ (slice_index_or self.now i no_cell).words }
    {
        words_in(self.heads.as_slice(), self.words.as_slice(), i)
    }

    /// The words of a component, where there is a cell of it.
    pub fn find(&self, component: u32) -> Option<&[u64]>
        ensures { option_copied result ≡ found self.now component }
    {
        find_in(self.heads.as_slice(), self.words.as_slice(), component)
    }

    /// The words of a component; none where there is no cell of it.
    pub fn words_of(&self, component: u32) -> &[u64]
        ensures { result.now ≡ unwrap_or (found self.now component) [] }
    {
        match self.find(component) {
            Some(words) => words,
            None => &[],
        }
    }

    /// The same, where a guess of the cell's place is tried first.
    pub(crate) fn words_near(&self, component: u32, guess: usize) -> &[u64]
        ensures { result.now ≡ unwrap_or (found self.now component) [] }
    {
        match self.find_at(component, guess) {
            Some(words) => words,
            None => &[],
        }
    }

    /// The first word of the last cell; 0 where there is none.
    #[inline(always)]
    pub(crate) fn last_head(&self) -> u64
        ensures { (front : List Held) (cell : Held) → self.now ≡ front ++ cell ∷ [] → result ≡ slice_index_or cell.words 0 0 }
    {
        let count = self.len();
        if count == 0 {
            return 0;
        }
        word_at(self.words(count - 1), 0)
    }

    /// The words of a component, where there is a cell of it; a guess of its place is tried first.
    #[inline(always)]
    pub(crate) fn find_at(&self, component: u32, guess: usize) -> Option<&[u64]>
        ensures { option_copied result ≡ found self.now component }
    {
        find_near(
            self.heads.as_slice(),
            self.words.as_slice(),
            component,
            guess,
        )
    }

    /// The words of a component, where the cell at a place is one of it.
    #[inline(always)]
    pub(crate) fn find_there(&self, component: u32, place: usize) -> Option<&[u64]>
        ensures { IfSome result (λ words. found self.now component ≡ Some words.now) }
    {
        find_there(
            self.heads.as_slice(),
            self.words.as_slice(),
            component,
            place,
        )
    }

    /// Whether there is a cell of a component.
    #[inline(never)]
    pub fn has(&self, component: u32) -> bool
        ensures { result ≡ is_some (found self.now component) }
    {
        self.find(component).is_some()
    }

    /// A cell with no words more, behind all others.
    ///
    /// # Errors
    ///
    /// Where a growth was refused, at 2^20 words, and at component 4,096. Nothing is changed.
    pub fn begin(&mut self, component: u32) -> Result<(), AllocError>
        requires { end_of self.old ≤ component }
        ensures { MatchResult result
            (λ _. self.new ≡ self.old ++ record { component = component; words = [] } ∷ [])
            (λ _. self.new ≡ self.old) }
    {
        let head = head_for(component, self.words.len())?;
        self.heads.push(head)?;
        Ok(())
    }

    /// More words for the last cell.
    ///
    /// # Errors
    ///
    /// Where a growth was refused, and at 2^20 words. Nothing is changed.
    pub fn extend(&mut self, words: &[u64]) -> Result<(), AllocError>
        requires { 0 < length self.old }
        ensures { MatchResult result
            (λ _. (front : List Held) (cell : Held) → self.old ≡ front ++ cell ∷ [] → self.new ≡ front ++ record { component = cell.component; words = cell.words ++ words.now } ∷ [])
            (λ _. self.new ≡ self.old) }
    {
        let from = self.words.len();
        if words.len() > MOST_WORDS - from {
            return Err(AllocError);
        }
        self.words.extend_from_slice(words)?;
        Ok(())
    }

    /// A cell more, behind all others.
    ///
    /// # Errors
    ///
    /// Where a growth was refused, at 2^20 words, and at component 4,096. Nothing is changed.
    pub fn push(&mut self, component: u32, words: &[u64]) -> Result<(), AllocError>
        requires { end_of self.old ≤ component }
        ensures { MatchResult result
            (λ _. self.new ≡ self.old ++ record { component = component; words = words.now } ∷ [])
            (λ _. self.new ≡ self.old) }
    {
        let from = self.words.len();
        if words.len() > MOST_WORDS - from {
            return Err(AllocError);
        }
        let head = head_for(component, from)?;
        self.heads.reserve(1)?;
        match self.words.extend_from_slice(words) {
            Ok(()) => {
                self.heads.push_reserved(head);
                Ok(())
            }
            Err(e) => Err(e),
        }
    }

    /// A cell more, behind all others, with the words that a source has: whether these are other words too.
    ///
    /// # Errors
    ///
    /// Where a growth was refused, at 2^20 words, and at component 4,096. Nothing is changed.
    pub(crate) fn push_from<S: Source>(
        &mut self,
        component: u32,
        source: &S,
        held: &[u64],
    ) -> Result<bool, AllocError>
        requires has { S.has source.now component }
        requires ascending { end_of self.old ≤ component }
        ensures cells { MatchResult result
            (λ _. self.new ≡ self.old ++ record { component = component; words = S.words source.now component } ∷ [])
            (λ _. self.new ≡ self.old) }
        ensures same { IfOk result (λ same. IsTrue same ↔ (held.now ≡ S.words source.now component)) }
    {
        let from = self.words.len();
        let head = head_for(component, from)?;
        self.heads.reserve(1)?;
        match write_words(source, component, held, &mut self.words) {
            Ok(same) => {
                self.heads.push_reserved(head);
                Ok(same)
            }
            Err(e) => Err(e),
        }
    }

    /// The same, where they are no such other words; else there is no cell more.
    ///
    /// # Errors
    ///
    /// Where a growth was refused, at 2^20 words, and at component 4,096. Nothing is changed.
    pub(crate) fn push_unless<S: Source>(
        &mut self,
        component: u32,
        source: &S,
        held: &[u64],
    ) -> Result<bool, AllocError>
        requires has { S.has source.now component }
        requires ascending { end_of self.old ≤ component }
        ensures cells { MatchResult result
            (λ same. self.new ≡ cond same self.old (self.old ++ record { component = component; words = S.words source.now component } ∷ []))
            (λ _. self.new ≡ self.old) }
        ensures same { IfOk result (λ same. IsTrue same ↔ (held.now ≡ S.words source.now component)) }
    {
        let from = self.words.len();
        let head = head_for(component, from)?;
        self.heads.reserve(1)?;
        match write_words(source, component, held, &mut self.words) {
            Ok(true) => {
                self.words.truncate(from);
                Ok(true)
            }
            Ok(false) => {
                self.heads.push_reserved(head);
                Ok(false)
            }
            Err(e) => Err(e),
        }
    }

    /// Whether a source has these words: they are written behind all cells, and removed again.
    ///
    /// # Errors
    ///
    /// Where a growth was refused, and at 2^20 words. Nothing is changed.
    pub(crate) fn tells<S: Source>(
        &mut self,
        component: u32,
        source: &S,
        held: &[u64],
    ) -> Result<bool, AllocError>
        requires has { S.has source.now component }
        ensures cells { self.new ≡ self.old }
        ensures same { IfOk result (λ same. IsTrue same ↔ (held.now ≡ S.words source.now component)) }
    {
        let from = self.words.len();
        match write_words(source, component, held, &mut self.words) {
            Ok(same) => {
                self.words.truncate(from);
                Ok(same)
            }
            Err(e) => Err(e),
        }
    }

    /// The cells of others from a place on and before another one, behind all cells.
    ///
    /// # Errors
    ///
    /// Where a growth was refused, and at 2^20 words. Nothing is changed.
    pub(crate) fn append(
        &mut self,
        others: &Cells,
        from: usize,
        to: usize,
    ) -> Result<(), AllocError>
        requires order { from ≤ to }
        requires there { to ≤ length others.now }
        requires above { from < to → end_of self.old ≤ component_at others.now from }
        ensures { MatchResult result
            (λ _. self.new ≡ self.old ++ slice_range others.now from to)
            (λ _. self.new ≡ self.old) }
    {
        if from == to {
            return Ok(());
        }
        let (heads, words) = (others.heads.as_slice(), others.words.as_slice());
        let start = start_in(heads, words.len(), from);
        let more = words_between(heads, words, from, to);
        let base = self.words.len();
        if more.len() > MOST_WORDS - base {
            return Err(AllocError);
        }
        self.heads.reserve(to - from)?;
        match self.words.extend_from_slice(more) {
            Ok(()) => {
                copy_heads(&mut self.heads, heads, from, to, start as u32, base as u32);
                Ok(())
            }
            Err(e) => Err(e),
        }
    }

    /// The cells of others, in the buffers that are here where these have room.
    ///
    /// # Errors
    ///
    /// Where a growth was refused. Nothing is changed.
    pub(crate) fn assign(&mut self, others: &Cells) -> Result<(), AllocError>
        ensures { MatchResult result (λ _. self.new ≡ others.now) (λ _. self.new ≡ self.old) }
    {
        room_for(&mut self.heads, others.heads.len())?;
        room_for(&mut self.words, others.words.len())?;
        self.heads.clear();
        self.words.clear();
        match self.heads.extend_from_slice(&others.heads) {
            Ok(()) => {}
            Err(e) => return Err(e),
        }
        match self.words.extend_from_slice(&others.words) {
            Ok(()) => Ok(()),
            Err(e) => Err(e),
        }
    }

    /// The same cells once more, in buffers of just their size.
    ///
    /// # Errors
    ///
    /// Where a growth was refused.
    pub fn copy(&self, alloc: Global) -> Result<Cells, AllocError>
        ensures { IfOk result (λ cells. cells ≡ self.now) }
    {
        let heads = Vec::from_slice(alloc, &self.heads)?;
        let words = Vec::from_slice(alloc, &self.words)?;
        Ok(Cells { heads, words })
    }
}

/// The words that a source has for a component, behind those of a buffer: whether they are these.
///
/// # Errors
///
/// Where a growth was refused, and at 2^20 words. The buffer has what it had.
fn write_words<S: Source>(
    source: &S,
    c: u32,
    held: &[u64],
    words: &mut Vec<u64>,
) -> Result<bool, AllocError>
    requires has { S.has source.now c }
    ensures words { MatchResult result
        (λ _. words.new.items ≡ words.old.items ++ S.words source.now c)
        (λ _. words.new.items ≡ words.old.items) }
    ensures small { OnOk result (length words.old.items + length (S.words source.now c) < 2 ^ 20) }
    ensures same { IfOk result (λ same. IsTrue same ↔ (held.now ≡ S.words source.now c)) }
{
    let from = words.len();
    match source.write(c, words) {
        Ok(()) => {}
        Err(e) => return Err(e),
    }
    if words.len() > MOST_WORDS {
        words.truncate(from);
        return Err(AllocError);
    }
    Ok(same_words(held, &words[from..]))
}

pub(crate) fn same_words(one: &[u64], other: &[u64]) -> bool
    ensures { IsTrue result ↔ (one.now ≡ other.now) }
{
    one == other
}

/// Room for n values in all.
///
/// # Errors
///
/// Where a growth was refused.
fn room_for<T>(buffer: &mut Vec<T>, n: usize) -> Result<(), AllocError>
    ensures items { buffer.new.items ≡ buffer.old.items }
    ensures ok { OnOk result (n ≤ vec_capacity buffer.new) }
{
    let len = buffer.len();
    if n <= len {
        return Ok(());
    }
    buffer.reserve_exact(n - len)
}

/// The heads from a place on and before another one, behind all heads; their words, which began at `start`, begin at `base`.
fn push_heads(heads: &mut Vec<Head>, others: &[Head], from: usize, to: usize, start: u32, base: u32)
    requires room { vec_len heads.old + (to - from) ≤ vec_capacity heads.old }
    requires order { from ≤ to }
    requires there { to ≤ length others.now }
    requires climbs { (k : ℕ) → from ≤ k → k < to → start ≤ start_at others.now 0 k }
    requires small { (k : ℕ) → from ≤ k → k < to → start_at others.now 0 k - start + base < 2 ^ 20 }
    ensures { heads.new.items ≡ heads.old.items ++ map (moved start base) (slice_range others.now from to) }
{
    let at = heads.len();
    // There is room, so nothing grows and nothing is refused.
    let _ = heads.extend_from_slice(&others[from..to]);
    for i in at..heads.len() {
        heads[i] = heads[i].begun_at(start, base);
    }
}

/// The same; at once where they begin where they began.
fn copy_heads(heads: &mut Vec<Head>, others: &[Head], from: usize, to: usize, start: u32, base: u32)
    requires room { vec_len heads.old + (to - from) ≤ vec_capacity heads.old }
    requires order { from ≤ to }
    requires there { to ≤ length others.now }
    requires climbs { (k : ℕ) → from ≤ k → k < to → start ≤ start_at others.now 0 k }
    requires small { (k : ℕ) → from ≤ k → k < to → start_at others.now 0 k - start + base < 2 ^ 20 }
    ensures { heads.new.items ≡ heads.old.items ++ map (moved start base) (slice_range others.now from to) }
{
    if start == base {
        // There is room, so nothing grows and nothing is refused.
        let _ = heads.extend_from_slice(&others[from..to]);
        return;
    }
    push_heads(heads, others, from, to, start, base);
}

/// The first component above those of all cells.
fn end_in(heads: &[Head], words: &[u64]) -> u64
    requires { IsPacked heads.now words.now }
    ensures { result ≡ end_of (cells_of heads.now words.now) }
{
    let _ = words;
    let count = heads.len();
    if count == 0 {
        return 0;
    }
    u64::from(heads[count - 1].component()) + 1
}

/// Where the words of the cell at a place begin, or n behind the last cell.
#[inline(always)]
fn start_in(heads: &[Head], n: usize, i: usize) -> usize
    ensures { result ≡ start_at heads.now n i }
{
    match heads.get(i) {
        Some(head) => head.from() as usize,
        None => n,
    }
}

/// The words of the cell at a place.
#[inline(always)]
fn words_in<'a>(heads: &'a [Head], words: &'a [u64], i: usize) -> &'a [u64]
    requires packed { IsPacked heads.now words.now }
    requires there { i < length heads.now }
    ensures { result.now ≡ (cell_at heads.now words.now i).words }
{
    let from = start_in(heads, words.len(), i);
    let to = start_in(heads, words.len(), i + 1);
    &words[from..to]
}

/// The words of the cells from a place on and before another one.
fn words_between<'a>(heads: &'a [Head], words: &'a [u64], from: usize, to: usize) -> &'a [u64]
    requires packed { IsPacked heads.now words.now }
    requires order { from ≤ to }
    requires there { to ≤ length heads.now }
    ensures { result.now ≡ slice_range words.now (start_at heads.now (length words.now) from) (start_at heads.now (length words.now) to) }
{
    let start = start_in(heads, words.len(), from);
    let end = start_in(heads, words.len(), to);
    &words[start..end]
}

/// The words of a component, where there is a cell of it.
fn find_in<'a>(heads: &'a [Head], words: &'a [u64], c: u32) -> Option<&'a [u64]>
    requires { IsPacked heads.now words.now }
    ensures { option_copied result ≡ found (cells_of heads.now words.now) c }
{
    let place = place_in(heads, c);
    if is_at(heads, place, c) {
        Some(words_in(heads, words, place))
    } else {
        None
    }
}

/// The words of a component, where the cell at a place is one of it.
#[inline(always)]
fn find_there<'a>(heads: &'a [Head], words: &'a [u64], c: u32, place: usize) -> Option<&'a [u64]>
    requires { IsPacked heads.now words.now }
    ensures { IfSome result (λ held. found (cells_of heads.now words.now) c ≡ Some held.now) }
{
    if is_at(heads, place, c) {
        Some(words_in(heads, words, place))
    } else {
        None
    }
}

/// The words of a component, where there is a cell of it. A guess of its place is tried first.
fn find_near<'a>(heads: &'a [Head], words: &'a [u64], c: u32, guess: usize) -> Option<&'a [u64]>
    requires { IsPacked heads.now words.now }
    ensures { option_copied result ≡ found (cells_of heads.now words.now) c }
{
    if is_at(heads, guess, c) {
        Some(words_in(heads, words, guess))
    } else {
        find_in(heads, words, c)
    }
}

/// Whether the cell at a place is one of c.
#[inline(always)]
fn is_at(heads: &[Head], i: usize, c: u32) -> bool
    ensures { IsTrue result ↔ ((i < length heads.now) × ((head_at heads.now 0 i).component ≡ c)) }
{
    match heads.get(i) {
        Some(head) => head.component() == c,
        None => false,
    }
}

/// How many components are below c.
fn place_in(heads: &[Head], c: u32) -> usize
    requires { (i j : ℕ) → i < j → j < length heads.now → (head_at heads.now 0 i).component < (head_at heads.now 0 j).component }
    ensures { IsPlace heads.now c result }
{
    let mut low = 0;
    let mut high = heads.len();
    while low < high {
        let mid = low + (high - low) / 2;
        if heads[mid].component() < c {
            low = mid + 1;
        } else {
            high = mid;
        }
    }
    low
}
