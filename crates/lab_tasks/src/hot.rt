//! Which words and modules are hot: how many processors refer to each, and how often.
ghost use Rattle.std.specs.Prelude.{◌≡◌, ◌+◌, true, false, ◌^◌, ◌<◌, ◌≤◌, ◌⊎◌, ◌↔◌, IfNone, IfOk, IfSome, IsTrue, if◌then◌else◌, length, min, ℕ, Bool, slice_index, slice_set, vec_len};
ghost use Rattle.omega_net.specs.Wires.{below};
ghost use Rattle.page_map.specs.Limits.{address_count};
ghost use Rattle.project_book.specs.Limits.{max_times};
ghost use Rattle.project_book.specs.Scripts.{IsEntry};
ghost use Rattle.lab_tasks.specs.Counts.{any, hot_of, is_of, part_count, part_of, references, referrers, script_times, times_in, times_of, hot_at, AreHottest, Hotter, IsHottest, IsHottestWord};

use omega_net::ScriptEntry;
use page_map::ADDRESSES;
use project_book::Project;
use std::alloc::{AllocError, Global};
use std::fmt;

/// By what references are counted.
#[derive(Clone, Copy)]
pub enum Parts {
    Words,
    Modules,
}

/// A word or a module, with how many processors refer to it, and how often they do at most.
#[derive(Clone, Copy)]
pub struct Hot {
    pub number: usize,
    pub processors: u32,
    pub references: u32,
}

impl fmt::Display for Hot {
    ghost use Rattle.lab_tasks.specs.Heats.{hot_text};
    ghost use Rattle.std.specs.Prelude.{Some};

    ghost output = { λ hot. Some (hot_text hot) };

    fn fmt<W: fmt::Write>(&self, f: &mut fmt::Formatter<W>) -> fmt::Result {
        let Hot {
            number,
            processors,
            references,
        } = *self;
        write!(f, "{number} ({processors}, {references})")
    }
}

/// The word that an entry refers to, and how often at most.
fn reference_in(entry: Option<ScriptEntry>) -> Option<(u32, u32)>
    requires { IfSome entry IsEntry }
    ensures there { IfSome result (λ r. (r.0 < address_count) × (r.1 ≤ max_times)) }
    ensures some { IfSome result (λ r. (is : ℕ → Bool) → times_in is entry ≡ (if is r.0 then r.1 else 0)) }
    ensures none { IfNone result ((is : ℕ → Bool) → times_in is entry ≡ 0) }
{
    match entry {
        Some(
            ScriptEntry::Reference { address, times, .. }
            | ScriptEntry::Until { address, times, .. },
        ) => Some((address, times)),
        _ => None,
    }
}

/// How often an entry refers to a word, at most.
fn times_in(entry: Option<ScriptEntry>) -> u32
    requires { IfSome entry IsEntry }
    ensures times { result ≡ times_in any entry }
    ensures few { result ≤ max_times }
{
    match reference_in(entry) {
        Some((_address, times)) => times,
        None => 0,
    }
}

/// How often a processor's script refers to words, at most.
#[tactic(auto, using(crate::proofs::Listing::sum_next))]
fn times_of(project: &Project, proc: u32) -> u32
    ensures times { result ≡ times_of project.now any proc }
    ensures few { result ≤ script_times }
{
    let mut times: u32 = 0;
    for index in 0..project.length(proc) {
        times += times_in(project.entry(proc, index));
    }
    times
}

/// How many references the scripts have at most.
#[tactic(auto, using(crate::proofs::Listing::sum_next))]
pub(crate) fn references(project: &Project) -> u32
    ensures { result ≡ references project.now any }
{
    project.is_project();
    let mut times: u32 = 0;
    for proc in 0..project.processors() {
        times += times_of(project, proc);
    }
    times
}

/// How many words or modules there are.
fn part_count(project: &Project, parts: Parts) -> u32
    ensures { result ≡ part_count project.now parts }
{
    match parts {
        Parts::Words => ADDRESSES,
        Parts::Modules => project.processors(),
    }
}

/// The word that an address is, or the module that it stands in.
fn part_of(project: &Project, parts: Parts, address: u32) -> u32
    requires { address < address_count }
    ensures part { result ≡ part_of project.now parts address }
    ensures within { result < part_count project.now parts }
{
    match parts {
        Parts::Words => address,
        Parts::Modules => match project.place(address) {
            Some(place) => u32::from(place.module),
            None => 0,
        },
    }
}

/// Counts the references of an entry.
fn add_entry(counts: &mut Vec<u32>, project: &Project, parts: Parts, entry: Option<ScriptEntry>)
    requires entry { IfSome entry IsEntry }
    requires long { vec_len counts.old ≡ part_count project.now parts }
    requires few { (n : ℕ) → slice_index counts.old.items n + max_times < 2 ^ 32 }
    ensures long { vec_len counts.new ≡ part_count project.now parts }
    ensures more { (n : ℕ) → slice_index counts.new.items n ≡ slice_index counts.old.items n + times_in (is_of project.now parts n) entry }
    ensures few { (n : ℕ) → slice_index counts.new.items n ≤ slice_index counts.old.items n + max_times }
{
    if let Some((address, times)) = reference_in(entry) {
        let part = part_of(project, parts, address);
        counts[part as usize] += times;
    }
}

/// So many counts, all 0.
fn zeros(alloc: Global, count: u32) -> Result<Vec<u32>, AllocError>
    ensures long { IfOk result (λ v. vec_len v ≡ count) }
    ensures zero { IfOk result (λ v. (n : ℕ) → slice_index v.items n ≡ 0) }
{
    vec![in alloc; 0u32; count as usize]
}

/// How often a processor's script refers to each word or module.
fn script_counts(
    alloc: Global,
    project: &Project,
    parts: Parts,
    proc: u32,
) -> Result<Vec<u32>, AllocError>
    ensures long { IfOk result (λ v. vec_len v ≡ part_count project.now parts) }
    ensures times { IfOk result (λ v. (n : ℕ) → slice_index v.items n ≡ times_of project.now (is_of project.now parts n) proc) }
    ensures few { IfOk result (λ v. (n : ℕ) → slice_index v.items n ≤ script_times) }
{
    let mut counts = zeros(alloc, part_count(project, parts))?;
    for index in 0..project.length(proc) {
        add_entry(&mut counts, project, parts, project.entry(proc, index));
    }
    Ok(counts)
}

/// How many processors refer to each word or module, and how often they do.
#[derive(Drop)]
struct Counts {
    processors: Vec<u32>,
    references: Vec<u32>,
}

/// Adds what one processor refers to.
fn add_counts(counts: &mut Counts, own: &[u32])
    requires processors { vec_len counts.old.processors ≡ length own.now }
    requires references { vec_len counts.old.references ≡ length own.now }
    requires fewer { (n : ℕ) → slice_index counts.old.processors.items n + 1 < 2 ^ 32 }
    requires few { (n : ℕ) → slice_index counts.old.references.items n + slice_index own.now n < 2 ^ 32 }
    ensures processors { vec_len counts.new.processors ≡ length own.now }
    ensures references { vec_len counts.new.references ≡ length own.now }
    ensures one { (n : ℕ) → slice_index counts.new.processors.items n ≡ slice_index counts.old.processors.items n + min (slice_index own.now n) 1 }
    ensures more { (n : ℕ) → slice_index counts.new.references.items n ≡ slice_index counts.old.references.items n + slice_index own.now n }
{
    for index in 0..own.len() {
        let times = own[index];
        counts.processors[index] += times.min(1);
        counts.references[index] += times;
    }
}

/// How many processors refer to each word or module, and how often they do.
#[tactic(auto, using(crate::proofs::Hottest::one_more, crate::proofs::Listing::sum_next))]
fn counts_of(alloc: Global, project: &Project, parts: Parts) -> Result<Counts, AllocError>
    ensures processors { IfOk result (λ c. vec_len c.processors ≡ part_count project.now parts) }
    ensures references { IfOk result (λ c. vec_len c.references ≡ part_count project.now parts) }
    ensures each { IfOk result (λ c. (n : ℕ) → slice_index c.processors.items n ≡ referrers project.now (is_of project.now parts n)) }
    ensures times { IfOk result (λ c. (n : ℕ) → slice_index c.references.items n ≡ references project.now (is_of project.now parts n)) }
{
    project.is_project();
    let count = part_count(project, parts);
    let processors = zeros(alloc, count)?;
    let references = zeros(alloc, count)?;
    let mut counts = Counts {
        processors,
        references,
    };
    for proc in 0..project.processors() {
        let own = script_counts(alloc, project, parts, proc)?;
        add_counts(&mut counts, own.as_slice());
    }
    Ok(counts)
}

/// Whether one is hotter than another one, whatever their numbers are.
fn is_above(one: Hot, other: Hot) -> bool
    ensures above { result ≡ true → (other.processors < one.processors) ⊎ ((one.processors ≡ other.processors) × (other.references < one.references)) }
    ensures below { result ≡ false → (one.processors < other.processors) ⊎ ((one.processors ≡ other.processors) × (one.references ≤ other.references)) }
{
    one.processors > other.processors
        || (one.processors == other.processors && one.references > other.references)
}

impl Counts {
    /// A word or module as it is counted.
    fn hot(&self, number: usize) -> Hot
        requires processors { number < vec_len self.now.processors }
        requires references { number < vec_len self.now.references }
        ensures { result ≡ hot_at self.now.processors.items self.now.references.items number }
    {
        Hot {
            number,
            processors: self.processors[number],
            references: self.references[number],
        }
    }
}

/// The hottest word or module of those that are counted; None where none has a processor.
fn hottest(counts: &Counts) -> Option<Hot>
    requires { vec_len counts.now.references ≡ vec_len counts.now.processors }
    ensures most { IfSome result (IsHottest counts.now.processors.items counts.now.references.items) }
    ensures none { IfNone result ((n : ℕ) → slice_index counts.now.processors.items n ≡ 0) }
{
    let mut most = Hot {
        number: 0,
        processors: 0,
        references: 0,
    };
    for number in 0..counts.processors.len() {
        let hot = counts.hot(number);
        if is_above(hot, most) {
            most = hot;
        }
    }
    if most.processors > 0 {
        Some(most)
    } else {
        None
    }
}

/// The address that a word's number is.
fn address_of(hot: Hot) -> u32
    requires { hot.number < 2 ^ 32 }
    ensures { result ≡ hot.number }
{
    hot.number as u32
}

/// The hottest word of the scripts; None where they refer to none.
pub(crate) fn hottest_word(alloc: Global, project: &Project) -> Result<Option<u32>, AllocError>
    ensures { IfOk result (IsHottestWord project.now) }
{
    let counts = counts_of(alloc, project, Parts::Words)?;
    match hottest(&counts) {
        Some(hot) => Ok(Some(address_of(hot))),
        None => Ok(None),
    }
}

/// Counts a word or module no longer.
fn leave_out(counts: &mut Counts, number: usize)
    requires { number < vec_len counts.old.processors }
    ensures processors { counts.new.processors.items ≡ slice_set counts.old.processors.items number 0 }
    ensures references { counts.new.references.items ≡ counts.old.references.items }
{
    counts.processors[number] = 0;
}

/// How many words, and how many modules, a summary names.
const NAMED: usize = 8;

/// The hottest words or modules, the hottest first.
pub(crate) fn hottest_of(
    alloc: Global,
    project: &Project,
    parts: Parts,
) -> Result<Vec<Hot>, AllocError>
    ensures { IfOk result (λ v. AreHottest (hot_of project.now parts) v.items) }
{
    let mut counts = counts_of(alloc, project, parts)?;
    let mut hots = Vec::new(alloc);
    'naming: while hots.len() < NAMED {
        let Some(hot) = hottest(&counts) else {
            return Ok(hots);
        };
        leave_out(&mut counts, hot.number);
        hots.push(hot)?;
    }
    Ok(hots)
}
