//! The key `script`.
ghost use Rattle.std.specs.Prelude.{◌≡◌, ℕ, codes, ◌≤◌, ◌^◌, [], Ok, Err, length, MatchResult, IfOk, OnOk, All, slice_set, ◌<◌, ◌≢◌};
ghost use Rattle.std.specs.List.{list_all};
ghost use Rattle.toml.specs.View.{view, array_view, table_view};
ghost use Rattle.page_map.specs.Limits.{max_k};
ghost use Rattle.project_book.specs.Scripts.{IsScript, AreFew};
ghost use Rattle.project_file.specs.declared.fault.ProjectFault.TheVariants.{Memory};
ghost use Rattle.project_book.specs.Scales.{most_entries};
ghost use Rattle.project_file.specs.Formats.{scale_of};
ghost use Rattle.project_file.specs.Fields.{Gives, optional, walk};
ghost use Rattle.project_file.specs.Expanding.{with_item};
ghost use Rattle.project_file.specs.Processors.{is_for_several, each_given, each_set};
ghost use Rattle.project_file.specs.Scripts.{no_scripts, is_entry, is_script, entries_in, scripts_in, with_script_item, with_script_of};

use crate::expanding::add_item;
use crate::fault::ProjectFault;
use crate::fields::{check, find, require};
use crate::format::FileFormat;
use crate::items::{Array, are_items, array_in, table_in, tables_in};
use crate::processors::{is_for_several, processors_of, refuse_other_keys};
use grid_law::NoMemory;
use page_map::MAX_K;
use project_book::{ScriptEntry, Scripts, is_addressed, is_timed};
use std::alloc::Global;
use toml::{Table, Value};

/// How many processors the largest machine has.
const PROCESSORS: usize = 1 << MAX_K;

/// Which processors were given.
type GivenFlags = [bool; PROCESSORS];

/// Which processors were given, and the scripts so far.
#[derive(Drop)]
pub(crate) struct GivenScripts {
    pub(crate) given: GivenFlags,
    pub(crate) scripts: Scripts,
}

/// The scripts of a project's root that are written entry by entry, in a file of that format for a machine of 2^k processors.
pub(crate) fn read_scripts(
    alloc: Global,
    root: &Table,
    format: FileFormat,
    k: u32,
) -> Result<GivenScripts, ProjectFault>
    requires { k ≤ max_k }
    ensures scripts { Gives (λ s. s) result (optional (codes "script") (scripts_in format k) (no_scripts k) (table_view root.now)) }
    ensures count { IfOk result (λ s. length s.scripts ≡ 2 ^ k) }
    ensures few { IfOk result (λ s. AreFew (most_entries (scale_of format)) s.scripts) }
{
    match find(root, "script") {
        Some(value) => scripts_in(alloc, value, format, k),
        None => Ok(GivenScripts::new(alloc, k)?),
    }
}

fn scripts_in(
    alloc: Global,
    value: &Value,
    format: FileFormat,
    k: u32,
) -> Result<GivenScripts, ProjectFault>
    requires { k ≤ max_k }
    ensures scripts { Gives (λ s. s) result (scripts_in format k (view value.now)) }
    ensures count { IfOk result (λ s. length s.scripts ≡ 2 ^ k) }
    ensures few { IfOk result (λ s. AreFew (most_entries (scale_of format)) s.scripts) }
{
    let array = tables_in(value)?;
    GivenScripts::new(alloc, k)?.with_items(alloc, array, format, k)
}

impl GivenScripts {
    #[tactic(auto, unfolding(crate::specs::Scripts::no_scripts))]
    pub(crate) fn new(alloc: Global, k: u32) -> Result<GivenScripts, NoMemory>
        requires { k ≤ max_k }
        ensures none { IfOk result (λ s. s ≡ no_scripts k) }
        ensures count { IfOk result (λ s. length s.scripts ≡ 2 ^ k) }
        ensures few { IfOk result (λ s. (most : ℕ) → AreFew most s.scripts) }
    {
        let scripts = Scripts::new(alloc, 1 << k)?;
        Ok(GivenScripts {
            given: [false; PROCESSORS],
            scripts,
        })
    }

    fn with_items(
        self,
        alloc: Global,
        array: &Array,
        format: FileFormat,
        k: u32,
    ) -> Result<GivenScripts, ProjectFault>
        requires small { k ≤ max_k }
        requires count { length self.scripts ≡ 2 ^ k }
        requires few { AreFew (most_entries (scale_of format)) self.scripts }
        ensures items { Gives (λ s. s) result (walk (with_script_item format k) self (array_view array.now)) }
        ensures count { IfOk result (λ s. length s.scripts ≡ 2 ^ k) }
        ensures few { IfOk result (λ s. AreFew (most_entries (scale_of format)) s.scripts) }
    {
        let mut so_far = self;
        'items: for item in array {
            so_far.add_item(alloc, item, format, k)?;
        }
        Ok(so_far)
    }

    pub(crate) fn add_item(
        &mut self,
        alloc: Global,
        item: &Value,
        format: FileFormat,
        k: u32,
    ) -> Result<(), ProjectFault>
        requires small { k ≤ max_k }
        requires count { length self.old.scripts ≡ 2 ^ k }
        ensures item { MatchResult result (λ _. with_script_item format k self.old (view item.now) ≡ Ok self.new) (λ fault. fault ≢ Memory → with_script_item format k self.old (view item.now) ≡ Err fault) }
        ensures count { length self.new.scripts ≡ 2 ^ k }
        ensures few { AreFew (most_entries (scale_of format)) self.old.scripts → AreFew (most_entries (scale_of format)) self.new.scripts }
    {
        let table = table_in(item)?;
        let several = is_for_several(table, format);
        refuse_other_keys(table, several)?;
        self.add(alloc, table, several, format, k)
    }

    fn add(
        &mut self,
        alloc: Global,
        table: &Table,
        several: bool,
        format: FileFormat,
        k: u32,
    ) -> Result<(), ProjectFault>
        requires small { k ≤ max_k }
        requires several { several ≡ is_for_several format (table_view table.now) }
        requires count { length self.old.scripts ≡ 2 ^ k }
        ensures item { MatchResult result (λ _. with_script_of format k self.old (table_view table.now) ≡ Ok self.new) (λ fault. fault ≢ Memory → with_script_of format k self.old (table_view table.now) ≡ Err fault) }
        ensures count { length self.new.scripts ≡ 2 ^ k }
        ensures few { AreFew (most_entries (scale_of format)) self.old.scripts → AreFew (most_entries (scale_of format)) self.new.scripts }
    {
        let procs = processors_of(alloc, table, several, k)?;
        let given = each_given(self.given, &procs)?;
        let entries = entries_in(alloc, require(table, "entries")?, format)?;
        set_each(alloc, &mut self.scripts, &procs, &entries)?;
        self.given = given;
        Ok(())
    }
}

/// Which processors were given, after these, each of which may be given once.
pub(crate) fn each_given(given: GivenFlags, procs: &[u32]) -> Result<GivenFlags, ProjectFault>
    requires { All (λ p. p < 2 ^ max_k) procs.now }
    ensures { result ≡ each_given given procs.now }
{
    let mut so_far = given;
    'procs: for proc in procs {
        if so_far[*proc as usize] {
            return Err(ProjectFault::Twice);
        }
        so_far[*proc as usize] = true;
    }
    Ok(so_far)
}

/// Gives each of these processors the same script.
fn set_each(
    alloc: Global,
    scripts: &mut Scripts,
    procs: &[u32],
    entries: &[ScriptEntry],
) -> Result<(), NoMemory>
    requires there { All (λ p. p < length scripts.old) procs.now }
    requires script { IsScript entries.now }
    ensures ok { OnOk result (scripts.new ≡ each_set scripts.old procs.now entries.now) }
    ensures count { length scripts.new ≡ length scripts.old }
    ensures few { (most : ℕ) → length entries.now ≤ most → AreFew most scripts.old → AreFew most scripts.new }
{
    'procs: for proc in procs {
        set_one(alloc, scripts, *proc, entries)?;
    }
    Ok(())
}

fn set_one(
    alloc: Global,
    scripts: &mut Scripts,
    proc: u32,
    entries: &[ScriptEntry],
) -> Result<(), NoMemory>
    requires there { proc < length scripts.old }
    requires script { IsScript entries.now }
    ensures ok { OnOk result (scripts.new ≡ slice_set scripts.old proc entries.now) }
    ensures count { length scripts.new ≡ length scripts.old }
    ensures few { (most : ℕ) → length entries.now ≤ most → AreFew most scripts.old → AreFew most scripts.new }
{
    let own = Vec::from_slice(alloc, entries)?;
    scripts.set(alloc, proc, own)
}

/// The entries of a script.
fn entries_in(
    alloc: Global,
    value: &Value,
    format: FileFormat,
) -> Result<Vec<ScriptEntry>, ProjectFault>
    ensures entries { Gives (λ v. v.items) result (entries_in format (view value.now)) }
    ensures script { IfOk result (λ v. IsScript v.items) }
    ensures few { IfOk result (λ v. length v.items ≤ most_entries (scale_of format)) }
{
    let array = array_in(value)?;
    check(are_items(array, format), ProjectFault::WrongType)?;
    let entries = read_items(alloc, array, format)?;
    check(is_script(&entries, format), ProjectFault::Range)?;
    Ok(entries)
}

/// What the items stand for, of which a script that is too long has only the first.
pub(crate) fn read_items(
    alloc: Global,
    array: &Array,
    format: FileFormat,
) -> Result<Vec<ScriptEntry>, ProjectFault>
    ensures { Gives (λ v. v.items) result (walk (with_item format) [] (array_view array.now)) }
{
    let mut entries = Vec::new(alloc);
    'items: for item in array {
        add_item(alloc, &mut entries, item, format)?;
    }
    Ok(entries)
}

/// Whether a script of a file of that format is within the limits.
fn is_script(entries: &[ScriptEntry], format: FileFormat) -> bool
    ensures { result ≡ is_script format entries.now }
{
    entries.len() <= format.scale().most_entries() as usize && are_entries(entries)
}

fn are_entries(entries: &[ScriptEntry]) -> bool
    ensures { result ≡ list_all is_entry entries.now }
{
    for entry in entries {
        if !is_entry(*entry) {
            return false;
        }
    }
    true
}

pub(crate) fn is_entry(entry: ScriptEntry) -> bool
    ensures { result ≡ is_entry entry }
{
    is_addressed(entry) && is_timed(entry)
}
