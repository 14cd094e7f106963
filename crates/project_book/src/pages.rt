//! Words in pages of 256, by address.
ghost use Rattle.std.specs.Prelude.{◌≡◌, ◌<◌, ◌≤◌, ◌+◌, ◌*◌, ◌==◌, ◌↔◌, ℕ, IsTrue, IfOk, map, length, if◌then◌else◌, None, option_map, option_copied, slice_index_or};
ghost use Rattle.std.specs.Arc.{arc_value};
ghost use Rattle.page_map.specs.Limits.{address_count, page_count, page_words};
ghost use Rattle.project_book.specs.FirstWords.{word_on, word_among};

use grid_law::NoMemory;
use page_map::{PAGE_WORDS, PAGES};
use std::alloc::Global;
use std::sync::Arc;

const PAGE_LENGTH: usize = PAGE_WORDS as usize;

/// The words of a page, by offset.
pub type PageWords = [u32; PAGE_LENGTH];

/// The words of a page that is kept.
pub(crate) fn page_at(pages: &[Option<Arc<PageWords>>], page: u32) -> Option<&PageWords>
    ensures { option_copied result ≡ slice_index_or (map (option_map arc_value) pages.now) page None }
{
    match pages.get(page as usize) {
        Some(Some(words)) => Some(words),
        _ => None,
    }
}

/// The word of an address.
pub(crate) fn word_among(pages: &[Option<Arc<PageWords>>], address: u32) -> u32
    ensures { result ≡ word_among (map (option_map arc_value) pages.now) address }
{
    word_on(page_at(pages, address / PAGE_WORDS), address % PAGE_WORDS)
}

/// The word at an offset of a page, 0 where nothing is kept of it.
pub(crate) fn word_on(page: Option<&PageWords>, offset: u32) -> u32
    requires { offset < page_words }
    ensures { result ≡ word_on (option_copied page.entry) offset }
{
    match page {
        Some(words) => words[offset as usize],
        None => 0,
    }
}

/// Whether all addresses have the same words.
pub(crate) fn same_words(
    pages: &[Option<Arc<PageWords>>],
    others: &[Option<Arc<PageWords>>],
) -> bool
    ensures { IsTrue result ↔ ((a : ℕ) → a < address_count → word_among (map (option_map arc_value) pages.now) a ≡ word_among (map (option_map arc_value) others.now) a) }
{
    for page in 0..PAGES {
        if !same_page(page_at(pages, page), page_at(others, page)) {
            return false;
        }
    }
    true
}

fn same_page(page: Option<&PageWords>, other: Option<&PageWords>) -> bool
    ensures { IsTrue result ↔ ((o : ℕ) → o < page_words → word_on (option_copied page.entry) o ≡ word_on (option_copied other.entry) o) }
{
    if page.is_none() && other.is_none() {
        return true;
    }
    for offset in 0..PAGE_WORDS {
        if word_on(page, offset) != word_on(other, offset) {
            return false;
        }
    }
    true
}

/// The pages where an address has this word. Copies its page, and takes one more owner of each other one.
pub(crate) fn with_word(
    alloc: Global,
    pages: &[Option<Arc<PageWords>>],
    address: u32,
    word: u32,
) -> Result<Vec<Option<Arc<PageWords>>>, NoMemory>
    requires { address < address_count }
    ensures { IfOk result (λ v. (a : ℕ) → a < address_count → word_among (map (option_map arc_value) v.items) a ≡ (if a == address then word else word_among (map (option_map arc_value) pages.now) a)) }
{
    let page = address / PAGE_WORDS;
    let words = edited(page_at(pages, page), address % PAGE_WORDS, word);
    let owner = Arc::new(alloc, words)?;
    let mut edited = share_each(alloc, pages, page as usize + 1)?;
    edited[page as usize] = Some(owner);
    Ok(edited)
}

/// The page where an offset has this word.
fn edited(page: Option<&PageWords>, offset: u32, word: u32) -> PageWords
    requires { offset < page_words }
    ensures { (o : ℕ) → o < page_words → slice_index_or result o 0 ≡ (if o == offset then word else word_on (option_copied page.entry) o) }
{
    let mut words = copied(page);
    words[offset as usize] = word;
    words
}

/// The words of a page, 0 where nothing is kept of it.
fn copied(page: Option<&PageWords>) -> PageWords
    ensures { (o : ℕ) → o < page_words → slice_index_or result o 0 ≡ word_on (option_copied page.entry) o }
{
    match page {
        Some(words) => *words,
        None => [0; PAGE_LENGTH],
    }
}

/// The same pages, so many at least.
fn share_each(
    alloc: Global,
    pages: &[Option<Arc<PageWords>>],
    least: usize,
) -> Result<Vec<Option<Arc<PageWords>>>, NoMemory>
    ensures many { IfOk result (λ v. least ≤ length v.items) }
    ensures same { IfOk result (λ v. (g : ℕ) → slice_index_or (map (option_map arc_value) v.items) g None ≡ slice_index_or (map (option_map arc_value) pages.now) g None) }
{
    let count = pages.len().max(least);
    let mut shared = Vec::with_capacity(alloc, count)?;
    for page in 0..count {
        shared.push(share_page(pages, page)?)?;
    }
    Ok(shared)
}

fn share_page(
    pages: &[Option<Arc<PageWords>>],
    page: usize,
) -> Result<Option<Arc<PageWords>>, NoMemory>
    ensures { IfOk result (λ words. option_map arc_value words ≡ slice_index_or (map (option_map arc_value) pages.now) page None) }
{
    match pages.get(page) {
        Some(Some(words)) => Ok(Some(Arc::try_clone(words)?)),
        _ => Ok(None),
    }
}
