//! For which processors an item of `script` is.
ghost use Rattle.std.specs.Prelude.{◌≡◌, ◌<◌, ◌≤◌, ◌+◌, ◌^◌, [], All, IfOk, IfSome, length, position, ◌==◌};
ghost use Rattle.std.specs.Option.{option_map};
ghost use Rattle.toml.specs.View.{view, array_view, table_view};
ghost use Rattle.page_map.specs.Limits.{max_k};
ghost use Rattle.project_file.specs.Fields.{Gives, known, walk};
ghost use Rattle.project_file.specs.Processors.{numbers_from, cut_at_dot, both_numbers, ends_of, processors_between, processors_named, processors_listed, processors_in, processors_of, with_processor, is_for_several, script_keys};

use crate::fault::ProjectFault;
use crate::fields::{check, find, number_at, number_in, refuse_others, require};
use crate::format::FileFormat;
use crate::items::{Array, are_whole, array_in};
use line_words::number;
use std::alloc::{AllocError, Global};
use toml::{Table, Value};

pub(crate) const ONE_KEYS: [&str; 2] = ["processor", "entries"];

pub(crate) const SEVERAL_KEYS: [&str; 2] = ["processors", "entries"];

/// The numbers of processors.
pub(crate) type Processors = Vec<u32>;

/// Whether an item may be for several processors: where its format has short forms, and it has no key `processor`.
pub(crate) fn is_for_several(table: &Table, format: FileFormat) -> bool
    ensures { result ≡ is_for_several format (table_view table.now) }
{
    format.has_short_forms() && find(table, "processor").is_none()
}

/// Refuses an item with a key that isn't known.
pub(crate) fn refuse_other_keys(table: &Table, several: bool) -> Result<(), ProjectFault>
    ensures { result ≡ known (script_keys several) (table_view table.now) }
{
    if several {
        refuse_others(table, &SEVERAL_KEYS)
    } else {
        refuse_others(table, &ONE_KEYS)
    }
}

/// The processors that an item is for, of 2^k.
pub(crate) fn processors_of(
    alloc: Global,
    table: &Table,
    several: bool,
    k: u32,
) -> Result<Processors, ProjectFault>
    requires { k ≤ max_k }
    ensures processors { Gives (λ v. v.items) result (processors_of several k (table_view table.now)) }
    ensures within { IfOk result (λ v. All (λ p. p < 2 ^ k) v.items) }
{
    if several {
        return processors_in(alloc, require(table, "processors")?, k);
    }
    let proc = number_at(table, "processor", 0, (1 << k) - 1)?;
    Ok(numbers_from(alloc, proc, 1)?)
}

fn processors_in(alloc: Global, value: &Value, k: u32) -> Result<Processors, ProjectFault>
    requires { k ≤ max_k }
    ensures processors { Gives (λ v. v.items) result (processors_in k (view value.now)) }
    ensures within { IfOk result (λ v. All (λ p. p < 2 ^ k) v.items) }
{
    match value.as_str() {
        Some(text) => processors_named(alloc, text.as_bytes(), k),
        None => processors_listed(alloc, value, k),
    }
}

/// The processors of an array of their numbers.
fn processors_listed(alloc: Global, value: &Value, k: u32) -> Result<Processors, ProjectFault>
    requires { k ≤ max_k }
    ensures processors { Gives (λ v. v.items) result (processors_listed k (view value.now)) }
    ensures within { IfOk result (λ v. All (λ p. p < 2 ^ k) v.items) }
{
    let array = array_in(value)?;
    check(are_whole(array), ProjectFault::WrongType)?;
    read_numbers(alloc, array, k)
}

fn read_numbers(alloc: Global, array: &Array, k: u32) -> Result<Processors, ProjectFault>
    requires { k ≤ max_k }
    ensures processors { Gives (λ v. v.items) result (walk (with_processor k) [] (array_view array.now)) }
    ensures within { IfOk result (λ v. All (λ p. p < 2 ^ k) v.items) }
{
    let mut procs = Vec::new(alloc);
    'items: for item in array {
        let proc = number_in(item, 0, (1 << k) - 1)?;
        procs.push(proc)?;
    }
    Ok(procs)
}

/// The processors of the text `all` or A..B.
fn processors_named(alloc: Global, text: &[u8], k: u32) -> Result<Processors, ProjectFault>
    requires { k ≤ max_k }
    ensures processors { Gives (λ v. v.items) result (processors_named k text.now) }
    ensures within { IfOk result (λ v. All (λ p. p < 2 ^ k) v.items) }
{
    if text == b"all".as_slice() {
        return Ok(numbers_from(alloc, 0, 1 << k)?);
    }
    match ends_of(text) {
        Some(ends) => processors_between(alloc, ends, k),
        None => Err(ProjectFault::WrongType),
    }
}

fn processors_between(alloc: Global, ends: (u32, u32), k: u32) -> Result<Processors, ProjectFault>
    requires { k ≤ max_k }
    ensures processors { Gives (λ v. v.items) result (processors_between k ends) }
    ensures within { IfOk result (λ v. All (λ p. p < 2 ^ k) v.items) }
{
    let (first, last) = ends;
    check(first <= last && last < 1 << k, ProjectFault::Range)?;
    Ok(numbers_from(alloc, first, last + 1 - first)?)
}

/// So many numbers from the first one on.
fn numbers_from(alloc: Global, first: u32, count: u32) -> Result<Processors, AllocError>
    requires { first + count < 2 ^ 32 }
    ensures numbers { IfOk result (λ v. v.items ≡ numbers_from first count) }
    ensures within { IfOk result (λ v. All (λ p. p < first + count) v.items) }
{
    let mut numbers = Vec::new(alloc);
    for index in 0..count {
        numbers.push(first + index)?;
    }
    Ok(numbers)
}

/// The numbers of a text A..B.
pub(crate) fn ends_of(text: &[u8]) -> Option<(u32, u32)>
    ensures { result ≡ ends_of text.now }
{
    let (first, rest) = cut_at_dot(text)?;
    let (between, last) = cut_at_dot(rest)?;
    if !between.is_empty() {
        return None;
    }
    both_numbers(first, last)
}

fn both_numbers(first: &[u8], last: &[u8]) -> Option<(u32, u32)>
    ensures { result ≡ both_numbers first.now last.now }
{
    let first = number(first)?;
    let last = number(last)?;
    Some((first, last))
}

/// What stands before the first dot, and what behind it.
fn cut_at_dot(text: &[u8]) -> Option<(&[u8], &[u8])>
    ensures { option_map (λ p. (p.0.now, p.1.now)) result ≡ cut_at_dot text.now }
{
    match first_dot(text) {
        Some(dot) => Some((text.split_at(dot).0, text.split_at(dot + 1).1)),
        None => None,
    }
}

fn first_dot(text: &[u8]) -> Option<usize>
    ensures dot { result ≡ position (λ b. b == 46) text.now }
    ensures within { IfSome result (λ dot. dot < length text.now) }
{
    text.iter().position(|b| *b == b'.')
}
