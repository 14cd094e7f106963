//! The key `word`.
ghost use Rattle.std.specs.Prelude.{◌≡◌, codes, ◌≤◌, ◌+◌, [], Ok, Err, length, MatchResult, IfOk};
ghost use Rattle.toml.specs.View.{view, array_view, table_view};
ghost use Rattle.page_map.specs.Limits.{address_count};
ghost use Rattle.project_file.specs.Fields.{Gives, Reads, optional, walk};
ghost use Rattle.project_file.specs.Words.{no_words, words_in, with_word_item, with_word_of, words_from};

use crate::fault::ProjectFault;
use crate::fields::{check, find, number_at, refuse_others};
use crate::items::{Array, table_in, tables_in};
use grid_law::NoMemory;
use page_map::ADDRESSES;
use project_book::{FirstWord, FirstWords};
use std::alloc::Global;
use toml::{Table, Value};

pub(crate) const KEYS: [&str; 2] = ["address", "value"];

/// The first words of a project's root. Takes a memory of 16,384 words beside them.
pub(crate) fn read_words(alloc: Global, root: &Table) -> Result<FirstWords, ProjectFault>
    ensures { Gives (λ w. w) result (optional (codes "word") words_in [] (table_view root.now)) }
{
    match find(root, "word") {
        Some(value) => words_in(alloc, value),
        None => Ok(FirstWords::new(alloc)),
    }
}

fn words_in(alloc: Global, value: &Value) -> Result<FirstWords, ProjectFault>
    ensures { Gives (λ w. w) result (words_in (view value.now)) }
{
    let array = tables_in(value)?;
    let memory = with_items(no_words(alloc, ADDRESSES as usize)?, array)?;
    Ok(first_words(alloc, &memory)?)
}

#[tactic(auto, unfolding(crate::specs::Words::no_words))]
pub(crate) fn no_words(alloc: Global, count: usize) -> Result<Vec<Option<u32>>, NoMemory>
    ensures none { IfOk result (λ v. v.items ≡ no_words count) }
    ensures length { IfOk result (λ v. length v.items ≡ count) }
{
    let mut words = Vec::new(alloc);
    words.resize(count, None)?;
    Ok(words)
}

fn with_items(memory: Vec<Option<u32>>, array: &Array) -> Result<Vec<Option<u32>>, ProjectFault>
    requires { length memory.items ≡ address_count }
    ensures items { Reads (λ v. v.items) result (walk with_word_item memory.items (array_view array.now)) }
    ensures length { IfOk result (λ v. length v.items ≡ address_count) }
{
    let mut memory = memory;
    'items: for item in array {
        add_item(&mut memory, item)?;
    }
    Ok(memory)
}

pub(crate) fn add_item(memory: &mut Vec<Option<u32>>, item: &Value) -> Result<(), ProjectFault>
    requires { length memory.old.items ≡ address_count }
    ensures item { MatchResult result (λ _. with_word_item memory.old.items (view item.now) ≡ Ok memory.new.items) (λ fault. with_word_item memory.old.items (view item.now) ≡ Err fault) }
    ensures length { length memory.new.items ≡ address_count }
{
    let table = table_in(item)?;
    refuse_others(table, &KEYS)?;
    add(memory, table)
}

fn add(memory: &mut Vec<Option<u32>>, table: &Table) -> Result<(), ProjectFault>
    requires { length memory.old.items ≡ address_count }
    ensures item { MatchResult result (λ _. with_word_of memory.old.items (table_view table.now) ≡ Ok memory.new.items) (λ fault. with_word_of memory.old.items (table_view table.now) ≡ Err fault) }
    ensures length { length memory.new.items ≡ address_count }
{
    let address = number_at(table, "address", 0, 16_383)?;
    check(memory[address as usize].is_none(), ProjectFault::Twice)?;
    let word = number_at(table, "value", 0, u32::MAX)?;
    memory[address as usize] = Some(word);
    Ok(())
}

/// The words of a memory that aren't 0, by address upwards.
#[tactic(auto, using(crate::proofs::Listings::words_are_listed))]
fn first_words(alloc: Global, memory: &[Option<u32>]) -> Result<FirstWords, NoMemory>
    requires { length memory.now ≤ address_count }
    ensures { IfOk result (λ w. w ≡ words_from 0 memory.now) }
{
    let listing = listing(alloc, memory)?;
    FirstWords::from_listing(alloc, listing)
}

fn listing(alloc: Global, memory: &[Option<u32>]) -> Result<Vec<FirstWord>, NoMemory>
    requires { length memory.now ≤ address_count }
    ensures { IfOk result (λ v. v.items ≡ words_from 0 memory.now) }
{
    let mut words = Vec::new(alloc);
    let mut address = 0;
    for word in memory {
        let word = word.unwrap_or(0);
        if word != 0 {
            words.push(FirstWord { address, word })?;
        }
        address += 1;
    }
    Ok(words)
}
