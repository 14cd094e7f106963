//! The entries of a script, and their short forms: a step behind a reference, and repeated entries.
ghost use Rattle.std.specs.Prelude.{◌≡◌, ◌≢◌, ◌<◌, ◌+◌, ◌++◌, ◌∷◌, true, [], nat_le, length, Ok, Err, MatchResult, OnOk};
ghost use Rattle.toml.specs.View.{view, array_view, table_view};
ghost use Rattle.line_words.specs.Words.{words_of};
ghost use Rattle.page_map.specs.Limits.{address_count};
ghost use Rattle.project_book.specs.Scripts.{are_times};
ghost use Rattle.project_book.specs.EntryTexts.{network_named};
ghost use Rattle.project_book.specs.Limits.{max_times, script_entries};
ghost use Rattle.project_file.specs.declared.fault.ProjectFault.TheVariants.{Memory};
ghost use Rattle.project_file.specs.Fields.{Gives, walk};
ghost use Rattle.project_file.specs.Expanding.{step_of, stepped_of, is_stepped, references, with_words, behind, repeated, with_text, texts_in, with_repeated, with_item};

use crate::fault::ProjectFault;
use crate::fields::{check, number_at, refuse_others, require};
use crate::format::FileFormat;
use crate::items::{Array, are_texts, array_in};
use line_words::{number, split_word};
use page_map::ADDRESSES;
use project_book::{SCRIPT_ENTRIES, ScriptEntry, are_times, read_entry, read_network};
use std::alloc::{AllocError, Global};
use toml::{Table, Value};
use word_ops::{Kind, Op};

pub(crate) const REPEAT_KEYS: [&str; 2] = ["repeat", "entries"];

/// So many references, each at the address a step behind the one before.
#[derive(Clone, Copy)]
pub(crate) struct Stepped {
    sync: bool,
    op: Op,
    pub(crate) address: u32,
    pub(crate) times: u32,
    pub(crate) step: u32,
}

impl Stepped {
    /// Whether its numbers are within the limits.
    fn is_within(self) -> bool
        ensures { result ≡ is_stepped self }
    {
        self.address < ADDRESSES && are_times(self.times) && self.step < ADDRESSES
    }

    /// The reference of a turn.
    fn reference(self, turn: u32) -> ScriptEntry
        requires within { is_stepped self ≡ true }
        requires turn { turn < max_times }
        ensures { references self turn ++ result ∷ [] ≡ references self (turn + 1) }
    {
        ScriptEntry::Reference {
            sync: self.sync,
            op: self.op,
            address: (self.address + turn * self.step) % ADDRESSES,
            times: 1,
        }
    }
}

/// Adds the entries of an item, a text or a table that repeats some.
pub(crate) fn add_item(
    alloc: Global,
    entries: &mut Vec<ScriptEntry>,
    item: &Value,
    format: FileFormat,
) -> Result<(), ProjectFault>
    ensures { MatchResult result (λ _. with_item format entries.old.items (view item.now) ≡ Ok entries.new.items) (λ fault. fault ≢ Memory → with_item format entries.old.items (view item.now) ≡ Err fault) }
{
    match item.as_table() {
        Some(table) => add_repeated(alloc, entries, table, format),
        None => add_text_item(entries, item, format),
    }
}

fn add_repeated(
    alloc: Global,
    entries: &mut Vec<ScriptEntry>,
    table: &Table,
    format: FileFormat,
) -> Result<(), ProjectFault>
    ensures { MatchResult result (λ _. with_repeated format entries.old.items (table_view table.now) ≡ Ok entries.new.items) (λ fault. fault ≢ Memory → with_repeated format entries.old.items (table_view table.now) ≡ Err fault) }
{
    refuse_others(table, &REPEAT_KEYS)?;
    let times = number_at(table, "repeat", 1, SCRIPT_ENTRIES)?;
    let more = texts_in(alloc, require(table, "entries")?, format)?;
    push_repeated(entries, &more, times)?;
    Ok(())
}

/// The entries of an array of texts.
fn texts_in(
    alloc: Global,
    value: &Value,
    format: FileFormat,
) -> Result<Vec<ScriptEntry>, ProjectFault>
    ensures { Gives (λ v. v.items) result (texts_in format (view value.now)) }
{
    let array = array_in(value)?;
    check(are_texts(array), ProjectFault::WrongType)?;
    read_texts(alloc, array, format)
}

fn read_texts(
    alloc: Global,
    array: &Array,
    format: FileFormat,
) -> Result<Vec<ScriptEntry>, ProjectFault>
    ensures { Gives (λ v. v.items) result (walk (with_text format) [] (array_view array.now)) }
{
    let mut entries = Vec::new(alloc);
    'items: for item in array {
        add_text_item(&mut entries, item, format)?;
    }
    Ok(entries)
}

fn add_text_item(
    entries: &mut Vec<ScriptEntry>,
    item: &Value,
    format: FileFormat,
) -> Result<(), ProjectFault>
    ensures { MatchResult result (λ _. with_text format entries.old.items (view item.now) ≡ Ok entries.new.items) (λ fault. fault ≢ Memory → with_text format entries.old.items (view item.now) ≡ Err fault) }
{
    match item.as_str() {
        Some(text) => add_text(entries, text.as_bytes(), format),
        None => Err(ProjectFault::WrongType),
    }
}

/// Adds the entries that a text stands for.
fn add_text(
    entries: &mut Vec<ScriptEntry>,
    text: &[u8],
    format: FileFormat,
) -> Result<(), ProjectFault>
    ensures { MatchResult result (λ _. with_words format entries.old.items (words_of text.now) ≡ Ok entries.new.items) (λ fault. fault ≢ Memory → with_words format entries.old.items (words_of text.now) ≡ Err fault) }
{
    match read_entry(text) {
        Some(entry) => {
            check(format.has_entry(entry), ProjectFault::Entry)?;
            push_all(entries, &[entry])?;
            Ok(())
        }
        None => match read_stepped(text) {
            Some(stepped) if format.has_short_forms() => {
                check(stepped.is_within(), ProjectFault::Range)?;
                push_stepped(entries, stepped)?;
                Ok(())
            }
            _ => Err(ProjectFault::Entry),
        },
    }
}

/// The reference with a step that a text is, None where it is none.
pub(crate) fn read_stepped(text: &[u8]) -> Option<Stepped>
    ensures { result ≡ stepped_of (words_of text.now) }
{
    let (network, rest) = split_word(text)?;
    let (kind, rest) = split_word(rest)?;
    let (address, rest) = split_word(rest)?;
    let (operand, rest) = split_word(rest)?;
    let (times, rest) = split_word(rest)?;
    let sync = read_network(network)?;
    let kind = Kind::from_name(kind)?;
    let address = number(address)?;
    let operand = number(operand)?;
    let times = number(times)?;
    let step = read_step(rest)?;
    Some(Stepped {
        sync,
        op: Op { kind, operand },
        address,
        times,
        step,
    })
}

fn read_step(text: &[u8]) -> Option<u32>
    ensures { result ≡ step_of (words_of text.now) }
{
    let (word, rest) = split_word(text)?;
    let (step, rest) = split_word(rest)?;
    if word != b"step".as_slice() || split_word(rest).is_some() {
        return None;
    }
    number(step)
}

/// Whether a script isn't too long yet.
fn has_room(entries: &[ScriptEntry]) -> bool
    ensures { result ≡ nat_le (length entries.now) script_entries }
{
    entries.len() <= SCRIPT_ENTRIES as usize
}

/// Adds the references of a text with a step, where the script isn't too long yet.
fn push_stepped(entries: &mut Vec<ScriptEntry>, stepped: Stepped) -> Result<(), AllocError>
    requires { is_stepped stepped ≡ true }
    ensures { OnOk result (entries.new.items ≡ behind entries.old.items (references stepped stepped.times)) }
{
    if has_room(entries) {
        push_references(entries, stepped)?;
    }
    Ok(())
}

fn push_references(entries: &mut Vec<ScriptEntry>, stepped: Stepped) -> Result<(), AllocError>
    requires { is_stepped stepped ≡ true }
    ensures { OnOk result (entries.new.items ≡ entries.old.items ++ references stepped stepped.times) }
{
    for turn in 0..stepped.times {
        entries.push(stepped.reference(turn))?;
    }
    Ok(())
}

/// Adds entries, where the script isn't too long yet.
fn push_all(entries: &mut Vec<ScriptEntry>, more: &[ScriptEntry]) -> Result<(), AllocError>
    ensures { OnOk result (entries.new.items ≡ behind entries.old.items more.now) }
{
    if has_room(entries) {
        entries.extend_from_slice(more)?;
    }
    Ok(())
}

/// Adds entries so many times, until the script is too long.
#[tactic(auto, using(crate::proofs::Repeats::repeated_none, crate::proofs::Repeats::repeated_full))]
fn push_repeated(
    entries: &mut Vec<ScriptEntry>,
    more: &[ScriptEntry],
    times: u32,
) -> Result<(), AllocError>
    ensures { OnOk result (entries.new.items ≡ repeated times more.now entries.old.items) }
{
    if more.is_empty() {
        return Ok(());
    }
    if !has_room(entries) {
        return Ok(());
    }
    for _ in 0..times {
        push_all(entries, more)?;
    }
    Ok(())
}
