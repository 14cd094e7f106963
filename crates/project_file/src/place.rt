//! Where a refused file is wrong, in words for its author.
ghost use Rattle.std.specs.Prelude.{◌≡◌, ◌≤◌, ◌^◌, IfOk, length};
ghost use Rattle.page_map.specs.Limits.{max_k, address_count};

use crate::depths::KEYS as DEPTH_KEYS;
use crate::entry_fault::{form_fault, limit_fault, step_fault};
use crate::expanding::{REPEAT_KEYS, read_stepped};
use crate::fault::ProjectFault;
use crate::fields::{find, is_among};
use crate::format::{FileFormat, read_format};
use crate::items::{Array, is_item};
use crate::lines::{Section, line_of_key, line_of_text};
use crate::nearest::Hint;
use crate::pages::{GivenPages, KEYS as PAGE_KEYS};
use crate::processors::{ONE_KEYS, SEVERAL_KEYS, ends_of, is_for_several, processors_of};
use crate::reading::{MAX_BYTES, USUAL_BYTES, is_third, keys_of, read_document};
use crate::scripts::{GivenScripts, read_items};
use crate::traffic::{add_item as add_traffic, keys_of as traffic_keys_of, network_in, rate_in};
use crate::words::{KEYS as WORD_KEYS, add_item as add_word, no_words};
use drawn_scripts::MOST_REFERENCES;
use grid_law::NoMemory;
use page_map::{ADDRESSES, MAX_K, PAGES};
use project_book::{
    Depths, MAX_DEPTH, MAX_HORIZON, MAX_WINDOW, MIN_WAIT, SCRIPT_ENTRIES, USUAL_HORIZON, read_entry,
};
use std::alloc::{AllocError, Global};
use std::fmt;
use toml::{Table, Value, table_from_str};
use word_ops::Kind;

/// How many characters of a file's own text are shown.
const SHOWN: usize = 60;

/// The queues of a machine by their keys, in the order in which they are read.
const QUEUES: [(&str, Depths); 5] = [
    ("low_forward", Depths::LowForward),
    ("low_reverse", Depths::LowReverse),
    ("comb_forward", Depths::CombForward),
    ("comb_reverse", Depths::CombReverse),
    ("module", Depths::ModuleQueue),
];

/// The networks by their names.
const NETWORKS: [&str; 2] = ["plain", "sync"];

/// Why a walk over a document ends: with the line about its first fault, or for want of memory.
#[derive(Drop)]
enum Found {
    Line(String),
    NoMemory,
}

impl From<AllocError> for Found {
    fn from(_error: AllocError) -> Found {
        Found::NoMemory
    }
}

impl From<NoMemory> for Found {
    fn from(_error: NoMemory) -> Found {
        Found::NoMemory
    }
}

/// A table of a project file.
#[derive(Clone, Copy)]
enum Place<'a> {
    Root,
    Depths,
    /// An item of the array of that key, by its number from 0, and what it is about, where it tells.
    Item(&'a str, usize, Subject<'a>),
}

/// What an item is about: of which kind, and that one's number, where the item has one.
#[derive(Clone, Copy)]
struct Subject<'a> {
    kind: &'a str,
    number: Option<i64>,
}

impl<'a> Place<'a> {
    /// The item of an array, which tells by that key what it is about.
    fn item(name: &'a str, number: usize, item: &Value, kind: &'a str, key: &str) -> Place<'a> {
        let about = match item.as_table() {
            Some(table) => match find(table, key) {
                Some(value) => value.as_integer(),
                None => None,
            },
            None => None,
        };
        let subject = Subject {
            kind,
            number: about,
        };
        Place::Item(name, number, subject)
    }

    fn section(self) -> Section<'a> {
        match self {
            Place::Root => Section::Root,
            Place::Depths => Section::Table("depths"),
            Place::Item(name, number, _) => Section::Item(name, number),
        }
    }
}

/// It prints as the beginning of the path of its keys: `script of processor 2 (the third), `.
impl fmt::Display for Place<'_> {
    fn fmt<W: fmt::Write>(&self, f: &mut fmt::Formatter<W>) -> fmt::Result {
        match *self {
            Place::Root => Ok(()),
            Place::Depths => f.write_str("depths, "),
            Place::Item(name, item, subject) => {
                let which = Nth(item);
                let Subject { kind, number } = subject;
                match number {
                    Some(number) => write!(f, "{name} of {kind} {number} (the {which}), "),
                    None => write!(f, "the {which} {name}, "),
                }
            }
        }
    }
}

/// Which one of several, from 0. It prints as `first`, `tenth`, `21st`.
#[derive(Clone, Copy)]
struct Nth(usize);

impl fmt::Display for Nth {
    fn fmt<W: fmt::Write>(&self, f: &mut fmt::Formatter<W>) -> fmt::Result {
        if let Some(name) = FEW.get(self.0) {
            return f.write_str(name);
        }
        let number = self.0.saturating_add(1);
        let ending = match (number % 10, number % 100) {
            (1, tens) if tens != 11 => "st",
            (2, tens) if tens != 12 => "nd",
            (3, tens) if tens != 13 => "rd",
            _ => "th",
        };
        write!(f, "{number}{ending}")
    }
}

const FEW: [&str; 10] = [
    "first", "second", "third", "fourth", "fifth", "sixth", "seventh", "eighth", "ninth", "tenth",
];

/// A line of the file by its number, where it is known. It prints as `line 17, `, and as nothing where it isn't.
#[derive(Clone, Copy)]
struct InLine(Option<usize>);

impl fmt::Display for InLine {
    fn fmt<W: fmt::Write>(&self, f: &mut fmt::Formatter<W>) -> fmt::Result {
        match self.0 {
            Some(line) => write!(f, "line {line}, "),
            None => Ok(()),
        }
    }
}

/// An entry of a script by its number from 0, behind that of the table that repeats it, where one does. It prints as
/// `entry 2` or `entry 2, entry 0`.
#[derive(Clone, Copy)]
struct EntryAt {
    table: Option<usize>,
    number: usize,
}

impl fmt::Display for EntryAt {
    fn fmt<W: fmt::Write>(&self, f: &mut fmt::Formatter<W>) -> fmt::Result {
        let number = self.number;
        match self.table {
            Some(table) => write!(f, "entry {table}, entry {number}"),
            None => write!(f, "entry {number}"),
        }
    }
}

/// A table of a file: where its memory comes from, the file's text, and which table it is.
// Its names are no `&'static str`: the borrow checker covers no call that has one and takes a `format_args!`.
#[derive(Clone, Copy)]
struct At<'a> {
    alloc: Global,
    text: &'a str,
    place: Place<'a>,
}

impl<'a> At<'a> {
    fn root(alloc: Global, text: &'a str) -> At<'a> {
        At {
            alloc,
            text,
            place: Place::Root,
        }
    }

    fn of(self, place: Place<'a>) -> At<'a> {
        At { place, ..self }
    }

    /// The walk ends with what is wrong at a key of this table.
    fn fault<T: fmt::Display + Drop>(&self, key: &str, what: T) -> Found {
        let line = line_of_key(self.text, self.place.section(), key);
        self.fault_in(line, key, what)
    }

    /// The walk ends with what is wrong in that line, where it is known.
    fn fault_in<T: fmt::Display + Drop>(&self, line: Option<usize>, path: &str, what: T) -> Found {
        let (line, place, path) = (InLine(line), self.place, Shown(path));
        ended(format!(in self.alloc; "{line}{place}{path}: {what}"))
    }

    /// What is wrong with the text of an entry.
    fn entry_fault<T: fmt::Display + Drop>(&self, entry: EntryAt, text: &str, what: T) -> Found {
        let section = self.place.section();
        let line = line_of_text(self.text, section, "entries", text).or(line_of_key(
            self.text, section, "entries",
        ));
        let shown = Shown(text);
        match format!(in self.alloc; "{entry}, \"{shown}\"") {
            Ok(path) => self.fault_in(line, path.as_str(), what),
            Err(_) => Found::NoMemory,
        }
    }

    /// What is wrong at a key of a table that repeats entries.
    fn repeat_fault<T: fmt::Display + Drop>(&self, number: usize, key: &str, what: T) -> Found {
        let line = line_of_key(self.text, self.place.section(), "entries");
        match format!(in self.alloc; "entry {number}, {key}") {
            Ok(path) => self.fault_in(line, path.as_str(), what),
            Err(_) => Found::NoMemory,
        }
    }

    fn other_type(&self, key: &str, value: &Value, wanted: &str) -> Found {
        let given = value.type_str();
        self.fault(key, format_args!("of type {given} where {wanted} belongs"))
    }
}

/// Where a file that `read_project` refuses is wrong, and what is wrong there: one line without LF. It names the file's
/// line, where that can be told, and the key by its path, items of an array by what they are about, as in
/// `line 17, script of processor 2 (the third), entry 0, "jump 3": no entry begins with "jump"; there is ..`; of a text that is no
/// TOML document it tells line and column. A word that is nearly one that would do is answered by that one. None where the file
/// is too long or isn't refused.
///
/// The line is for people. No clause says what it is.
///
/// # Errors
///
/// Where a growth was refused.
pub fn fault_place(alloc: Global, bytes: &[u8]) -> Result<Option<String>, NoMemory> {
    if bytes.len() > MAX_BYTES || bytes.len() > USUAL_BYTES && !is_large(alloc, bytes)? {
        return Ok(None);
    }
    match file_checked(alloc, bytes) {
        Ok(()) => Ok(None),
        Err(Found::Line(line)) => Ok(Some(line)),
        Err(Found::NoMemory) => Err(NoMemory),
    }
}

/// Whether a file is a document of format 3, and so may be a long one.
fn is_large(alloc: Global, bytes: &[u8]) -> Result<bool, NoMemory> {
    match read_document(alloc, bytes) {
        Ok(root) => Ok(is_third(&root)),
        Err(ProjectFault::Memory) => Err(NoMemory),
        Err(_) => Ok(false),
    }
}

fn file_checked(alloc: Global, bytes: &[u8]) -> Result<(), Found> {
    let text = match std::str::from_utf8(bytes) {
        Ok(text) => text,
        Err(error) => {
            let byte = error.valid_up_to();
            return Err(ended(format!(in alloc; "byte {byte}: no UTF-8")));
        }
    };
    match table_from_str(alloc, text) {
        Ok(root) => root_checked(At::root(alloc, text), &root),
        Err(error) if error.is_memory() => Err(Found::NoMemory),
        Err(error) => {
            let told = format!(in alloc; "{error}");
            Err(joined(alloc, told))
        }
    }
}

/// The lines of a text as one.
fn joined(alloc: Global, lines: Result<String, AllocError>) -> Found {
    let Ok(lines) = lines else {
        return Found::NoMemory;
    };
    let mut parts = lines.as_str().trim_end().split('\n');
    let (first, second) = (parts.next().unwrap_or(""), parts.next().unwrap_or(""));
    ended(format!(in alloc; "{first}: {second}"))
}

fn root_checked(at: At, root: &Table) -> Result<(), Found> {
    number_checked(at, root, "format", 1, 3)?;
    let format = read_format(root).unwrap_or(FileFormat::Third);
    root_keys_checked(at, root, format)?;
    let k = size_checked(at, root, "k", format.most_k(), [MAX_K, MAX_K])?;
    let horizons = [USUAL_HORIZON, MAX_HORIZON];
    size_checked(at, root, "horizon", format.most_horizon(), horizons)?;
    optional_checked(at, root, "window", 1, MAX_WINDOW)?;
    combine_checked(at, root, k)?;
    depths_checked(at, root)?;
    pages_checked(at, root, k)?;
    words_checked(at, root)?;
    let mut so_far = GivenScripts::new(at.alloc, k)?;
    scripts_checked(at, root, format, k, &mut so_far)?;
    traffic_checked(at, root, format, k, &mut so_far)
}

fn root_keys_checked(at: At, root: &Table, format: FileFormat) -> Result<(), Found> {
    if !format.has_short_forms() && find(root, "traffic").is_some() {
        return Err(at.fault("traffic", "no such key; format 3 has it"));
    }
    keys_checked(at, root, keys_of(format))
}

fn keys_checked(at: At, table: &Table, keys: &[&str]) -> Result<(), Found> {
    'members: for (key, _value) in table.iter() {
        if !is_among(keys, key.as_str()) {
            let hint = Hint::of(at.alloc, key.as_str(), keys)?;
            return Err(at.fault(key.as_str(), format_args!("no such key{hint}")));
        }
    }
    Ok(())
}

fn number_checked(at: At, table: &Table, key: &str, least: u32, most: u32) -> Result<u32, Found>
    ensures within { IfOk result (λ n. (least ≤ n) × (n ≤ most)) }
{
    match find(table, key) {
        Some(value) => number_within(at, key, value, least, most),
        None => Err(at.fault(key, "missing")),
    }
}

/// A number from 0 to one that the file's format allows, where format 2 or 3 may allow more.
fn size_checked(at: At, root: &Table, key: &str, most: u32, widest: [u32; 2]) -> Result<u32, Found>
    ensures within { IfOk result (λ n. n ≤ most) }
{
    let given = match find(root, key) {
        Some(value) => value.as_integer().unwrap_or(0),
        None => 0,
    };
    for format in 0..2 {
        let wider = widest[format];
        if given > i64::from(most) && given <= i64::from(wider) {
            let number = format + 2;
            return Err(at.fault(
                key,
                format_args!("{given} is not 0 to {most}; format {number} allows 0 to {wider}"),
            ));
        }
    }
    number_checked(at, root, key, 0, most)
}

fn optional_checked(at: At, table: &Table, key: &str, least: u32, most: u32) -> Result<(), Found> {
    match find(table, key) {
        Some(value) => match number_within(at, key, value, least, most) {
            Ok(_) => Ok(()),
            Err(found) => Err(found),
        },
        None => Ok(()),
    }
}

fn number_within(at: At, key: &str, value: &Value, least: u32, most: u32) -> Result<u32, Found>
    ensures within { IfOk result (λ n. (least ≤ n) × (n ≤ most)) }
{
    match value.as_integer() {
        Some(number) if number < i64::from(least) || number > i64::from(most) => {
            Err(at.fault(key, format_args!("{number} is not {least} to {most}")))
        }
        Some(number) => Ok(number as u32),
        None => Err(at.other_type(key, value, "a whole number")),
    }
}

/// The items of an array.
fn array_checked<'a>(at: At, key: &str, value: &'a Value) -> Result<&'a Array, Found> {
    match value.as_array() {
        Some(array) => Ok(array),
        None => Err(at.other_type(key, value, "an array")),
    }
}

/// The items of an array, each of which is a table.
fn tables_checked<'a>(at: At, key: &str, value: &'a Value) -> Result<&'a Array, Found> {
    let array = array_checked(at, key, value)?;
    for (number, item) in array.iter().enumerate() {
        if !item.is_table() {
            let (which, given) = (Nth(number), item.type_str());
            return Err(at.fault(
                key,
                format_args!("the {which} is of type {given} where a table belongs"),
            ));
        }
    }
    Ok(array)
}

fn combine_checked(at: At, root: &Table, k: u32) -> Result<(), Found> {
    let Some(value) = find(root, "combine") else {
        return Ok(());
    };
    let array = array_checked(at, "combine", value)?;
    for (stage, item) in array.iter().enumerate() {
        if !item.is_bool() {
            let given = item.type_str();
            return Err(at.fault(
                "combine",
                format_args!("stage {stage} is of type {given} where true or false belongs"),
            ));
        }
    }
    let count = array.len();
    if count != k as usize {
        return Err(at.fault("combine", format_args!("{count} stages where k is {k}")));
    }
    Ok(())
}

fn depths_checked(at: At, root: &Table) -> Result<(), Found> {
    let Some(value) = find(root, "depths") else {
        return Ok(());
    };
    let Some(table) = value.as_table() else {
        return Err(at.other_type("depths", value, "a table"));
    };
    let at = at.of(Place::Depths);
    keys_checked(at, table, &DEPTH_KEYS)?;
    for (key, queue) in &QUEUES {
        optional_checked(at, table, key, queue.least(), MAX_DEPTH)?;
    }
    optional_checked(at, table, "wait", MIN_WAIT, MAX_DEPTH)
}

fn pages_checked(at: At, root: &Table, k: u32) -> Result<(), Found>
    requires { k ≤ max_k }
{
    let Some(value) = find(root, "page") else {
        return Ok(());
    };
    let array = tables_checked(at, "page", value)?;
    let mut so_far = GivenPages::new(k);
    for (number, item) in array.iter().enumerate() {
        if so_far.add_item(item).is_err() {
            let place = Place::item("page", number, item, "number", "number");
            return page_found(at.of(place), item, k, &so_far);
        }
    }
    Ok(())
}

/// What is wrong with an item that can't be added.
fn page_found(at: At, item: &Value, k: u32, so_far: &GivenPages) -> Result<(), Found>
    requires { k ≤ max_k }
{
    let Some(table) = item.as_table() else {
        return Ok(());
    };
    keys_checked(at, table, &PAGE_KEYS)?;
    let page = number_checked(at, table, "number", 0, PAGES - 1)?;
    if so_far.given[page as usize] {
        return Err(at.fault("number", format_args!("{page} is given twice")));
    }
    let amount = number_checked(at, table, "amount", 0, u32::MAX)?;
    let base = number_checked(at, table, "base", 0, u32::MAX)?;
    let modules = 1u32 << k;
    Err(at.fault(
        "amount",
        format_args!("{amount} with base {base} is no interleaving of {modules} modules"),
    ))
}

fn words_checked(at: At, root: &Table) -> Result<(), Found> {
    let Some(value) = find(root, "word") else {
        return Ok(());
    };
    let array = tables_checked(at, "word", value)?;
    let mut memory = no_words(at.alloc, ADDRESSES as usize)?;
    'items: for (number, item) in array.iter().enumerate() {
        if add_word(&mut memory, item).is_err() {
            let place = Place::item("word", number, item, "address", "address");
            return word_found(at.of(place), item, &memory);
        }
    }
    Ok(())
}

/// What is wrong with an item that can't be added.
fn word_found(at: At, item: &Value, so_far: &[Option<u32>]) -> Result<(), Found>
    requires { length so_far.now ≡ address_count }
{
    let Some(table) = item.as_table() else {
        return Ok(());
    };
    keys_checked(at, table, &WORD_KEYS)?;
    let address = number_checked(at, table, "address", 0, ADDRESSES - 1)?;
    if so_far[address as usize].is_some() {
        return Err(at.fault("address", format_args!("{address} is given twice")));
    }
    match number_checked(at, table, "value", 0, u32::MAX) {
        Ok(_) => Ok(()),
        Err(found) => Err(found),
    }
}

fn scripts_checked(
    at: At,
    root: &Table,
    format: FileFormat,
    k: u32,
    so_far: &mut GivenScripts,
) -> Result<(), Found>
    requires small { k ≤ max_k }
    requires count { length so_far.old.scripts ≡ 2 ^ k }
    ensures count { length so_far.new.scripts ≡ 2 ^ k }
{
    let Some(value) = find(root, "script") else {
        return Ok(());
    };
    let array = tables_checked(at, "script", value)?;
    'items: for (number, item) in array.iter().enumerate() {
        if so_far.add_item(at.alloc, item, format, k).is_err() {
            let place = Place::item("script", number, item, "processor", "processor");
            return script_found(at.of(place), item, format, k, so_far);
        }
    }
    Ok(())
}

fn traffic_checked(
    at: At,
    root: &Table,
    format: FileFormat,
    k: u32,
    so_far: &mut GivenScripts,
) -> Result<(), Found>
    requires small { k ≤ max_k }
    requires count { length so_far.old.scripts ≡ 2 ^ k }
{
    let Some(value) = find(root, "traffic") else {
        return Ok(());
    };
    let array = tables_checked(at, "traffic", value)?;
    'items: for (number, item) in array.iter().enumerate() {
        if add_traffic(at.alloc, so_far, item, format, k).is_err() {
            let place = Place::item("traffic", number, item, "processor", "processor");
            return traffic_found(at.of(place), item, format, k, so_far);
        }
    }
    Ok(())
}

/// What is wrong with an item that can't be added, or want of memory where nothing is.
fn traffic_found(
    at: At,
    item: &Value,
    format: FileFormat,
    k: u32,
    so_far: &GivenScripts,
) -> Result<(), Found>
    requires { k ≤ max_k }
{
    let Some(table) = item.as_table() else {
        return Ok(());
    };
    let several = is_for_several(table, format);
    beside_checked(at, table, several, format)?;
    keys_checked(at, table, traffic_keys_of(several))?;
    given_checked(at, table, several, k, so_far)?;
    network_checked(at, table)?;
    rate_checked(at, table)?;
    number_checked(at, table, "hot", 0, 100)?;
    number_checked(at, table, "word", 0, ADDRESSES - 1)?;
    number_checked(at, table, "page", 0, PAGES - 1)?;
    number_checked(at, table, "references", 1, MOST_REFERENCES)?;
    number_checked(at, table, "seed", 0, u32::MAX)?;
    Err(Found::NoMemory)
}

fn network_checked(at: At, table: &Table) -> Result<(), Found> {
    let Some(value) = find(table, "network") else {
        return Ok(());
    };
    if network_in(value).is_ok() {
        return Ok(());
    }
    let Some(text) = value.as_str() else {
        return Err(at.other_type("network", value, "a text"));
    };
    let hint = Hint::of(at.alloc, text, &NETWORKS)?;
    let text = Shown(text);
    let told = format_args!("\"{text}\" is no network{hint}");
    Err(at.fault("network", told))
}

fn rate_checked(at: At, table: &Table) -> Result<(), Found> {
    let Some(value) = find(table, "rate") else {
        return Ok(());
    };
    if rate_in(value).is_ok() {
        return Ok(());
    }
    if !value.is_float() && !value.is_integer() {
        return Err(at.other_type("rate", value, "a number"));
    }
    Err(at.fault("rate", "not 0.01 to 1 in steps of 0.01"))
}

/// What is wrong with an item that can't be added.
fn script_found(
    at: At,
    item: &Value,
    format: FileFormat,
    k: u32,
    so_far: &GivenScripts,
) -> Result<(), Found>
    requires { k ≤ max_k }
{
    let Some(table) = item.as_table() else {
        return Ok(());
    };
    let several = is_for_several(table, format);
    beside_checked(at, table, several, format)?;
    keys_checked(at, table, if several { &SEVERAL_KEYS } else { &ONE_KEYS })?;
    given_checked(at, table, several, k, so_far)?;
    match find(table, "entries") {
        Some(value) => entries_found(at, value, format),
        None => Err(at.fault("entries", "missing")),
    }
}

/// The processors that an item is for, none of which was given before.
fn given_checked(
    at: At,
    table: &Table,
    several: bool,
    k: u32,
    so_far: &GivenScripts,
) -> Result<(), Found>
    requires { k ≤ max_k }
{
    if several {
        processors_checked(at, table, k)?;
    } else {
        number_checked(at, table, "processor", 0, (1 << k) - 1)?;
    }
    let Ok(procs) = processors_of(at.alloc, table, several, k) else {
        return Err(Found::NoMemory);
    };
    let key = if several { "processors" } else { "processor" };
    for index in 0..procs.len() {
        let proc = procs[index];
        let is_given = so_far.given.get(proc as usize).copied().unwrap_or(false);
        if is_given || procs[..index].contains(&proc) {
            return Err(at.fault(key, format_args!("{proc} is given twice")));
        }
    }
    Ok(())
}

/// An item that is for one processor has no key `processors` beside.
fn beside_checked(at: At, table: &Table, several: bool, format: FileFormat) -> Result<(), Found> {
    if !several && find(table, "processors").is_some() {
        let told = if format.has_short_forms() {
            "no such key beside processor"
        } else {
            "no such key; format 3 has it, in place of processor"
        };
        return Err(at.fault("processors", told));
    }
    Ok(())
}

/// The key `processors` of an item that has no key `processor`.
fn processors_checked(at: At, table: &Table, k: u32) -> Result<(), Found>
    requires { k ≤ max_k }
{
    let Some(value) = find(table, "processors") else {
        return Err(at.fault("processors", "missing, and so is processor"));
    };
    if let Some(text) = value.as_str() {
        return range_checked(at, text, k);
    }
    let Some(array) = value.as_array() else {
        return Err(at.other_type("processors", value, "an array or a text"));
    };
    for (number, item) in array.iter().enumerate() {
        if !item.is_integer() {
            let (which, given) = (Nth(number), item.type_str());
            let told = format_args!("the {which} is of type {given} where a whole number belongs");
            return Err(at.fault("processors", told));
        }
    }
    for item in array {
        number_within(at, "processors", item, 0, (1 << k) - 1)?;
    }
    Ok(())
}

/// A text of the key `processors`.
fn range_checked(at: At, text: &str, k: u32) -> Result<(), Found>
    requires { k ≤ max_k }
{
    if text == "all" {
        return Ok(());
    }
    let last = (1u32 << k) - 1;
    let fault = match ends_of(text.as_bytes()) {
        Some((a, b)) if a > b => at.fault("processors", format_args!("{a}..{b} goes downwards")),
        Some((a, b)) if b > last => at.fault(
            "processors",
            format_args!("{a}..{b} is not within 0..{last}"),
        ),
        Some(_) => return Ok(()),
        None => {
            let text = Shown(text);
            let told = format_args!(
                "\"{text}\" is neither all nor, as 0..{last}, from one to another"
            );
            at.fault("processors", told)
        }
    };
    Err(fault)
}

/// What is wrong with entries that are no script, or want of memory where nothing is.
fn entries_found(at: At, value: &Value, format: FileFormat) -> Result<(), Found> {
    let array = array_checked(at, "entries", value)?;
    items_checked(at, array, format)?;
    for (number, item) in array.iter().enumerate() {
        match item.as_table() {
            Some(table) => repeat_checked(at, number, table, format)?,
            None => text_checked(
                at,
                EntryAt {
                    table: None,
                    number,
                },
                item,
                format,
            )?,
        }
    }
    count_checked(at, array, format)?;
    limits_checked(at, array)?;
    Err(Found::NoMemory)
}

fn items_checked(at: At, array: &Array, format: FileFormat) -> Result<(), Found> {
    let wanted = if format.has_short_forms() {
        "a text or a table"
    } else {
        "a text"
    };
    for (number, item) in array.iter().enumerate() {
        if !is_item(item, format) {
            let given = item.type_str();
            return Err(at.fault(
                "entries",
                format_args!("entry {number} is of type {given} where {wanted} belongs"),
            ));
        }
    }
    Ok(())
}

/// A table that repeats entries.
fn repeat_checked(at: At, number: usize, table: &Table, format: FileFormat) -> Result<(), Found> {
    for (key, _value) in table.iter() {
        let key = key.as_str();
        if !is_among(&REPEAT_KEYS, key) {
            let hint = Hint::of(at.alloc, key, &REPEAT_KEYS)?;
            return Err(at.repeat_fault(number, key, format_args!("no such key{hint}")));
        }
    }
    times_checked(at, number, table)?;
    repeated_checked(at, number, table, format)
}

/// How often a table repeats its entries.
fn times_checked(at: At, number: usize, table: &Table) -> Result<(), Found> {
    let Some(value) = find(table, "repeat") else {
        return Err(at.repeat_fault(number, "repeat", "missing"));
    };
    let fault = match value.as_integer() {
        Some(times) if (1..=i64::from(SCRIPT_ENTRIES)).contains(&times) => return Ok(()),
        Some(times) => {
            let told = format_args!("{times} is not 1 to {SCRIPT_ENTRIES}");
            at.repeat_fault(number, "repeat", told)
        }
        None => {
            let given = value.type_str();
            let told = format_args!("of type {given} where a whole number belongs");
            at.repeat_fault(number, "repeat", told)
        }
    };
    Err(fault)
}

/// The entries of a table that repeats them.
fn repeated_checked(at: At, number: usize, table: &Table, format: FileFormat) -> Result<(), Found> {
    let Some(value) = find(table, "entries") else {
        return Err(at.repeat_fault(number, "entries", "missing"));
    };
    let Some(array) = value.as_array() else {
        let given = value.type_str();
        let told = format_args!("of type {given} where an array belongs");
        return Err(at.repeat_fault(number, "entries", told));
    };
    for (inner, item) in array.iter().enumerate() {
        if !item.is_str() {
            let given = item.type_str();
            let told = format_args!("entry {inner} is of type {given} where a text belongs");
            return Err(at.repeat_fault(number, "entries", told));
        }
    }
    for (inner, item) in array.iter().enumerate() {
        let entry = EntryAt {
            table: Some(number),
            number: inner,
        };
        text_checked(at, entry, item, format)?;
    }
    Ok(())
}

/// An item that is a text.
fn text_checked(at: At, entry: EntryAt, item: &Value, format: FileFormat) -> Result<(), Found> {
    let text = item.as_str().unwrap_or("");
    let bytes = text.as_bytes();
    if let Some(read) = read_entry(bytes) {
        if format.has_entry(read) {
            return Ok(());
        }
        let told = "format 1 has no such entry; format 2 has";
        return Err(at.entry_fault(entry, text, told));
    }
    match read_stepped(bytes) {
        Some(stepped) if format.has_short_forms() => match step_fault(stepped) {
            Some(fault) => Err(at.entry_fault(entry, text, fault)),
            None => Ok(()),
        },
        Some(_) => Err(at.entry_fault(entry, text, "only format 3 has a step")),
        None => {
            let names = Kind::ALL.map(|kind| kind.name());
            let fault = form_fault(at.alloc, text, format.has_short_forms(), &names)?;
            Err(at.entry_fault(entry, text, fault))
        }
    }
}

/// How many entries there are.
fn count_checked(at: At, array: &Array, format: FileFormat) -> Result<(), Found> {
    let most = format.scale().most_entries();
    let count = match read_items(at.alloc, array, format) {
        Ok(entries) => entries.len(),
        Err(_) => return Err(Found::NoMemory),
    };
    if count <= most as usize {
        return Ok(());
    }
    Err(if most == SCRIPT_ENTRIES {
        at.fault("entries", format_args!("more than {most} of them"))
    } else if count <= SCRIPT_ENTRIES as usize {
        let told = format_args!(
            "{count} of them where {most} are the most; format 3 allows {SCRIPT_ENTRIES}"
        );
        at.fault("entries", told)
    } else {
        let count = array.len();
        let told = format_args!("{count} of them where {most} are the most");
        at.fault("entries", told)
    })
}

fn limits_checked(at: At, array: &Array) -> Result<(), Found> {
    for (number, item) in array.iter().enumerate() {
        match repeated_texts(item) {
            Some(texts) => {
                for (inner, text) in texts.iter().enumerate() {
                    let entry = EntryAt {
                        table: Some(number),
                        number: inner,
                    };
                    limit_checked(at, entry, text)?;
                }
            }
            None => limit_checked(
                at,
                EntryAt {
                    table: None,
                    number,
                },
                item,
            )?,
        }
    }
    Ok(())
}

/// What a table repeats; None where an item is none.
fn repeated_texts(item: &Value) -> Option<&Array> {
    find(item.as_table()?, "entries")?.as_array()
}

fn limit_checked(at: At, entry: EntryAt, item: &Value) -> Result<(), Found> {
    let text = item.as_str().unwrap_or("");
    if let Some(read) = read_entry(text.as_bytes()) {
        if let Some(fault) = limit_fault(read) {
            return Err(at.entry_fault(entry, text, fault));
        }
    }
    Ok(())
}

/// The walk ends with this line.
fn ended(text: Result<String, AllocError>) -> Found {
    match text {
        Ok(text) => Found::Line(text),
        Err(_) => Found::NoMemory,
    }
}

/// A text of the file as a line can show it: at most 60 characters, each of them printable ASCII.
#[derive(Clone, Copy)]
pub(crate) struct Shown<'a>(pub(crate) &'a str);

impl fmt::Display for Shown<'_> {
    fn fmt<W: fmt::Write>(&self, f: &mut fmt::Formatter<W>) -> fmt::Result {
        for letter in self.0.chars().take(SHOWN) {
            let is_plain = letter == ' ' || letter.is_ascii_graphic();
            f.write_char(if is_plain { letter } else { '?' })?;
        }
        Ok(())
    }
}
