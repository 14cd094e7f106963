//! The words of a module that aren't 0, by rows.
ghost use Rattle.std.specs.Prelude.{◌≡◌, ◌≢◌, ◌==◌, ◌<◌, ◌≤◌, not, ℕ, [], false, IsTrue, IsOk, IfOk, IfErr, OnOk, OnErr, length};
ghost use Rattle.word_ops.specs.Words.{word_after};
ghost use Rattle.std.specs.Option.{option_to_list};
ghost use Rattle.mem_module.specs.Memory.{word_at, stored, with_word, row_at, IsAscending, IsAt, IsGapFor};

use grid_law::NoMemory;
use std::alloc::Global;
use std::marker::Model;
use word_ops::Op;

/// A row of a module, and its word.
#[derive(Clone, Copy, PartialEq, Eq, Debug)]
pub struct Stored {
    pub row: u16,
    pub word: u32,
}

/// The words of a module: rows ascending, each once, rows with word 0 left out.
#[derive(Debug, Drop)]
pub struct Words {
    stored: Vec<Stored>,
}

impl Model for Words {
    ghost use Rattle.std.specs.Prelude.{List};
    ghost use Rattle.mem_module.specs.declared.words.Stored.{Stored as Row};
    ghost use Rattle.mem_module.specs.Memory.{IsAscending};

    ghost Value = { List Row };

    ghost view = { λ w. w.stored.items };

    ghost invariant = { λ w. IsAscending w.stored.items };
}

impl Words {
    /// No words but 0.
    pub fn new(alloc: Global) -> Words
        ensures { result ≡ [] }
    {
        Words {
            stored: Vec::new(alloc),
        }
    }

    /// The word of a row, 0 where none is kept. It looks at the last row, and then at no more than the binary
    /// logarithm of their number. Left in the row again, it changes nothing.
    pub fn word(&self, row: u16) -> u32
        ensures value { result ≡ word_at self.now row }
        ensures kept { with_word self.now row result ≡ self.now }
    {
        self.word_in(row, self.place_of(row))
    }

    /// Does a fetch-and-op on a row, with one search: the word before, and whether the one after is another. It takes memory only where
    /// the word before is 0 and the one after isn't.
    ///
    /// # Errors
    ///
    /// Where a growth was refused. Then nothing is changed.
    pub fn fetch_and_op(&mut self, row: u16, op: Op) -> Result<(u32, bool), NoMemory>
        ensures fetched { IfOk result (λ done. done.0 ≡ word_at self.old row) }
        ensures other { IfOk result (λ done. done.1 ≡ not (word_after op (word_at self.old row) == word_at self.old row)) }
        ensures left { OnOk result (self.new ≡ with_word self.old row (word_after op (word_at self.old row))) }
        ensures same { word_after op (word_at self.old row) ≡ word_at self.old row → self.new ≡ self.old }
        ensures err { OnErr result (self.new ≡ self.old) }
        ensures kept_row { word_at self.old row ≢ 0 → IsOk result }
    {
        let place = self.place_of(row);
        let old = self.word_in(row, place);
        let new = op.apply(old);
        let other = new != old;
        if other {
            self.put_in(row, place, new)?;
        }
        Ok((old, other))
    }

    /// Leaves a word in a row, above all others without a search. It takes memory only where the row had the word 0 and gets another.
    ///
    /// # Errors
    ///
    /// Where a growth was refused. Then nothing is changed.
    pub fn put(&mut self, row: u16, word: u32) -> Result<(), NoMemory>
        ensures ok { OnOk result (self.new ≡ with_word self.old row word) }
        ensures err { OnErr result (self.new ≡ self.old) }
        ensures kept_row { word_at self.old row ≢ 0 → IsOk result }
        ensures zero { word ≡ 0 → IsOk result }
    {
        let place = self.place_of(row);
        self.put_in(row, place, word)
    }

    /// The word of a row that is at this place, or isn't kept.
    fn word_in(&self, row: u16, place: Result<usize, usize>) -> u32
        requires found { IfOk place (IsAt self.now row) }
        requires absent { IfErr place (IsGapFor self.now row) }
        ensures value { result ≡ word_at self.now row }
        ensures kept { with_word self.now row result ≡ self.now }
    {
        match place {
            Ok(at) => self.stored[at].word,
            Err(_) => 0,
        }
    }

    /// Leaves a word in a row that is at this place, or would go there.
    ///
    /// # Errors
    ///
    /// Where a growth was refused. Then nothing is changed.
    fn put_in(&mut self, row: u16, place: Result<usize, usize>, word: u32) -> Result<(), NoMemory>
        requires found { IfOk place (IsAt self.old row) }
        requires absent { IfErr place (IsGapFor self.old row) }
        ensures ok { OnOk result (self.new ≡ with_word self.old row word) }
        ensures err { OnErr result (self.new ≡ self.old) }
        ensures kept_row { word_at self.old row ≢ 0 → IsOk result }
        ensures zero { word ≡ 0 → IsOk result }
    {
        match (place, kept(row, word)) {
            (Ok(at), Some(stored)) => self.stored[at] = stored,
            (Ok(at), None) => {
                self.stored.remove(at);
            }
            (Err(at), Some(stored)) => self.stored.insert(at, stored)?,
            (Err(_), None) => {}
        }
        Ok(())
    }

    /// The rows and their words, ascending.
    pub fn as_slice(&self) -> &[Stored]
        ensures all { result.now ≡ self.now }
        ensures ascending { IsAscending self.now }
    {
        &self.stored
    }

    /// A copy, with room for one more row.
    ///
    /// # Errors
    ///
    /// Where a growth was refused.
    pub fn copy(&self, alloc: Global) -> Result<Words, NoMemory>
        ensures { IfOk result (λ copy. copy ≡ self.now) }
    {
        let mut stored = Vec::with_capacity(alloc, self.stored.len().saturating_add(1))?;
        stored.extend_from_slice(&self.stored)?;
        Ok(Words { stored })
    }

    /// Where the row is, or where it would go.
    fn place_of(&self, row: u16) -> Result<usize, usize>
        ensures found { IfOk result (IsAt self.now row) }
        ensures absent { IfErr result (IsGapFor self.now row) }
    {
        if self.is_past(row) {
            return Err(self.stored.len());
        }
        place_among(&self.stored, row)
    }

    /// Whether a row is above all that are kept, as it is where none is.
    fn is_past(&self, row: u16) -> bool
        ensures past { IsTrue result → IsGapFor self.now row (length self.now) }
        ensures some { result ≡ false → 0 < length self.now }
    {
        match self.stored.last() {
            Some(last) => last.row < row,
            None => true,
        }
    }
}

/// What is kept of a row with this word: nothing where it is 0.
fn kept(row: u16, word: u32) -> Option<Stored>
    ensures { option_to_list result ≡ stored row word }
{
    if word == 0 {
        None
    } else {
        Some(Stored { row, word })
    }
}

/// Where the row is among ascending ones, or where it would go.
fn place_among(stored: &[Stored], row: u16) -> Result<usize, usize>
    requires some { 0 < length stored.now }
    requires ascending { IsAscending stored.now }
    ensures found { IfOk result (IsAt stored.now row) }
    ensures absent { IfErr result (IsGapFor stored.now row) }
{
    let at = last_up_to(stored, row);
    let here = stored[at].row;
    if here == row {
        Ok(at)
    } else if here < row {
        Err(at + 1)
    } else {
        Err(at)
    }
}

/// The last place up to a row, or the first place where all rows are above it. Its steps have no branch that a row decides: half of
/// these would be guessed wrong.
fn last_up_to(stored: &[Stored], row: u16) -> usize
    requires some { 0 < length stored.now }
    requires ascending { IsAscending stored.now }
    ensures there { result < length stored.now }
    ensures up_to { 0 < result → row_at stored.now result ≤ row }
    ensures above { (j : ℕ) → result < j → j < length stored.now → row < row_at stored.now j }
{
    let mut base = 0;
    let mut size = stored.len();
    while size > 1 {
        let half = size / 2;
        base += half * one_up_to(stored[base + half].row, row);
        size -= half;
    }
    base
}

/// 1 where the first row isn't above the second, and else 0, without a branch.
fn one_up_to(one: u16, other: u16) -> usize
    ensures up_to { one ≤ other → result ≡ 1 }
    ensures above { other < one → result ≡ 0 }
{
    ((65_536 + u32::from(other) - u32::from(one)) / 65_536) as usize
}
