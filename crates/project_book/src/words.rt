//! The words that stand in memory at cycle 0.
ghost use Rattle.std.specs.Prelude.{◌≡◌, ◌<◌, ◌≤◌, ◌+◌, ◌*◌, ◌↔◌, ℕ, IsTrue, IfOk, [], option_map, option_copied, slice_index_or};
ghost use Rattle.std.specs.Arc.{arc_value};
ghost use Rattle.page_map.specs.Limits.{address_count, page_count, page_words};
ghost use Rattle.project_book.specs.FirstWords.{word_at, word_on, with_word, IsListing, IsSplit};

use crate::pages::{PageWords, page_at, same_words, with_word, word_among};
use grid_law::NoMemory;
use page_map::{ADDRESSES, PAGE_WORDS, PAGES};
use std::alloc::Global;
use std::marker::Model;
use std::sync::Arc;

const PAGE_LENGTH: usize = PAGE_WORDS as usize;

/// A first word that isn't 0, and its address, below 16,384.
#[derive(Clone, Copy, PartialEq, Eq, Debug)]
pub struct FirstWord {
    pub address: u32,
    pub word: u32,
}

/// The first words that aren't 0, by address upwards. They lie in pages of 256 words, each with owners of its
/// own; a page that never got a word takes nothing, each other one a KB.
pub struct FirstWords {
    pages: Vec<Option<Arc<PageWords>>>,
}

// Not derived, as for a project.
impl Drop for FirstWords {
    fn drop(self) {
        let FirstWords { pages } = self;
        drop(pages);
    }
}

impl Model for FirstWords {
    ghost use Rattle.std.specs.Prelude.{List, map, option_map};
    ghost use Rattle.std.specs.Arc.{arc_value};
    ghost use Rattle.project_book.specs.declared.words.FirstWord.{FirstWord as AtAddress};
    ghost use Rattle.project_book.specs.FirstWords.{paged};

    ghost Value = { List AtAddress };

    ghost view = { λ w. paged (map (option_map arc_value) w.pages.items) };
}

impl FirstWords {
    /// Every word is 0. Takes no memory.
    pub fn new(alloc: Global) -> FirstWords
        ensures { result ≡ [] }
    {
        FirstWords {
            pages: Vec::new(alloc),
        }
    }

    /// The words of a list that is by addresses upwards, each below 16,384, and has no 0. Takes a KB for each
    /// page that has one.
    ///
    /// # Errors
    ///
    /// Where a growth was refused. The list is dropped.
    pub fn from_listing(alloc: Global, listing: Vec<FirstWord>) -> Result<FirstWords, NoMemory>
        requires { IsListing listing.items }
        ensures { IfOk result (λ words. words ≡ listing.items) }
    {
        let mut pages = Vec::with_capacity(alloc, PAGES as usize)?;
        for page in 0..PAGES {
            pages.push(page_of(alloc, &listing, page)?)?;
        }
        Ok(FirstWords { pages })
    }

    /// The words are by address upwards, each below 16,384, and none is 0. This is so of every value, and no work
    /// is done.
    pub fn is_listing(&self)
        ensures { IsListing self.now }
    {
        let _ = &self.pages;
    }

    /// The words of a page by offset. None only where all of them are 0.
    pub fn page(&self, page: u32) -> Option<&PageWords>
        requires { page < page_count }
        ensures { (o : ℕ) → o < page_words → word_on (option_copied result) o ≡ word_at self.now (page_words * page + o) }
    {
        page_at(&self.pages, page)
    }

    /// Whether two lists are the same.
    pub fn same(&self, other: &FirstWords) -> bool
        ensures { IsTrue result ↔ (self.now ≡ other.now) }
    {
        same_words(&self.pages, &other.pages)
    }

    /// The word of an address, 0 where none is listed.
    pub fn word(&self, address: u32) -> u32
        ensures { result ≡ word_at self.now address }
    {
        if address < ADDRESSES {
            word_among(&self.pages, address)
        } else {
            0
        }
    }

    /// The words where this address has this word. Copies one page, and takes one more owner of each other one.
    ///
    /// # Errors
    ///
    /// Where a growth was refused, or a page has as many owners as can be counted. The words are as before.
    pub fn with_word(&self, alloc: Global, address: u32, word: u32) -> Result<FirstWords, NoMemory>
        requires { address < address_count }
        ensures { IfOk result (λ w. w ≡ with_word self.now address word) }
    {
        let pages = with_word(alloc, &self.pages, address, word)?;
        Ok(FirstWords { pages })
    }
}

/// A page of a list's words, where it has one there.
fn page_of(
    alloc: Global,
    listing: &[FirstWord],
    page: u32,
) -> Result<Option<Arc<PageWords>>, NoMemory>
    requires listing { IsListing listing.now }
    requires there { page < page_count }
    ensures { IfOk result (λ words. (o : ℕ) → o < page_words → word_on (option_map arc_value words) o ≡ word_at listing.now (page_words * page + o)) }
{
    let from = PAGE_WORDS * page;
    if count_below(listing, from) == count_below(listing, from + PAGE_WORDS) {
        return Ok(None);
    }
    Ok(Some(Arc::new(alloc, words_from(listing, from))?))
}

/// The words of 256 addresses, from one on.
fn words_from(listing: &[FirstWord], from: u32) -> PageWords
    requires listing { IsListing listing.now }
    requires there { from < address_count }
    ensures { (o : ℕ) → o < page_words → slice_index_or result o 0 ≡ word_at listing.now (from + o) }
{
    let mut words = [0; PAGE_LENGTH];
    for offset in 0..PAGE_WORDS {
        words[offset as usize] = word_in(listing, from + offset);
    }
    words
}

/// How many words of a list by addresses upwards stand below an address. It is searched by halves.
fn count_below(words: &[FirstWord], address: u32) -> usize
    ensures { IsSplit words.now address result }
{
    let mut low = 0;
    let mut high = words.len();
    while low < high {
        let middle = low + (high - low) / 2;
        if words[middle].address < address {
            low = middle + 1;
        } else {
            high = middle;
        }
    }
    low
}

fn word_in(words: &[FirstWord], address: u32) -> u32
    requires { IsListing words.now }
    ensures { result ≡ word_at words.now address }
{
    let place = count_below(words, address);
    if place < words.len() && words[place].address == address {
        words[place].word
    } else {
        0
    }
}
