//! The key `traffic`.
ghost use Rattle.std.specs.Prelude.{◌≡◌, ◌≢◌, ◌≤◌, ◌<◌, ◌^◌, Ok, Err, All, IfOk, MatchResult, OnOk, codes, length, map, slice_set};
ghost use Rattle.toml.specs.View.{view, array_view, table_view};
ghost use Rattle.page_map.specs.Limits.{max_k};
ghost use Rattle.project_book.specs.Limits.{script_entries};
ghost use Rattle.project_book.specs.Scales.{most_entries};
ghost use Rattle.project_book.specs.Scripts.{AreFew};
ghost use Rattle.drawn_scripts.specs.Draws.{IsDraw, script_drawn};
ghost use Rattle.project_file.specs.declared.fault.ProjectFault.TheVariants.{Memory};
ghost use Rattle.project_file.specs.Fields.{Gives, walk};
ghost use Rattle.project_file.specs.Formats.{scale_of};
ghost use Rattle.project_file.specs.Processors.{is_for_several};
ghost use Rattle.project_file.specs.Traffic.{draw_in, each_drawn, network_in, rate_in, sought, traffic_keys, with_draw_of, with_traffic, with_traffic_item};

use crate::fault::ProjectFault;
use crate::fields::{find, number_at, number_in, refuse_others};
use crate::format::FileFormat;
use crate::items::{Array, table_in, tables_in};
use crate::processors::{is_for_several, processors_of};
use crate::scripts::{GivenScripts, each_given};
use drawn_scripts::{Draw, MOST_REFERENCES, Mix};
use grid_law::NoMemory;
use page_map::{ADDRESSES, PAGES};
use project_book::{Scripts, read_network};
use std::alloc::Global;
use toml::{Table, Value};

const ONE_KEYS: [&str; 8] = [
    "processor",
    "network",
    "rate",
    "hot",
    "word",
    "page",
    "references",
    "seed",
];

const SEVERAL_KEYS: [&str; 8] = [
    "processors",
    "network",
    "rate",
    "hot",
    "word",
    "page",
    "references",
    "seed",
];

/// The scripts of a project's root, after those that are drawn, where a file of that format has some.
pub(crate) fn with_traffic(
    alloc: Global,
    root: &Table,
    so_far: GivenScripts,
    format: FileFormat,
    k: u32,
) -> Result<GivenScripts, ProjectFault>
    requires small { k ≤ max_k }
    requires count { length so_far.scripts ≡ 2 ^ k }
    requires few { AreFew (most_entries (scale_of format)) so_far.scripts }
    ensures traffic { Gives (λ s. s) result (with_traffic format k so_far (table_view root.now)) }
    ensures count { IfOk result (λ s. length s.scripts ≡ 2 ^ k) }
    ensures few { IfOk result (λ s. AreFew (most_entries (scale_of format)) s.scripts) }
{
    if !format.has_short_forms() {
        return Ok(so_far);
    }
    match find(root, "traffic") {
        Some(value) => with_items(alloc, tables_in(value)?, so_far, format, k),
        None => Ok(so_far),
    }
}

fn with_items(
    alloc: Global,
    array: &Array,
    so_far: GivenScripts,
    format: FileFormat,
    k: u32,
) -> Result<GivenScripts, ProjectFault>
    requires small { k ≤ max_k }
    requires count { length so_far.scripts ≡ 2 ^ k }
    requires few { AreFew script_entries so_far.scripts }
    ensures items { Gives (λ s. s) result (walk (with_traffic_item format k) so_far (array_view array.now)) }
    ensures count { IfOk result (λ s. length s.scripts ≡ 2 ^ k) }
    ensures few { IfOk result (λ s. AreFew script_entries s.scripts) }
{
    let mut so_far = so_far;
    'items: for item in array {
        add_item(alloc, &mut so_far, item, format, k)?;
    }
    Ok(so_far)
}

/// Gives the processors of an item the scripts that are drawn for them.
pub(crate) fn add_item(
    alloc: Global,
    so_far: &mut GivenScripts,
    item: &Value,
    format: FileFormat,
    k: u32,
) -> Result<(), ProjectFault>
    requires small { k ≤ max_k }
    requires count { length so_far.old.scripts ≡ 2 ^ k }
    ensures item { MatchResult result (λ _. with_traffic_item format k so_far.old (view item.now) ≡ Ok so_far.new) (λ fault. fault ≢ Memory → with_traffic_item format k so_far.old (view item.now) ≡ Err fault) }
    ensures count { length so_far.new.scripts ≡ 2 ^ k }
    ensures few { AreFew script_entries so_far.old.scripts → AreFew script_entries so_far.new.scripts }
{
    let table = table_in(item)?;
    let several = is_for_several(table, format);
    refuse_others(table, keys_of(several))?;
    add(alloc, so_far, table, several, format, k)
}

/// The keys of an item.
pub(crate) fn keys_of(several: bool) -> &'static [&'static str]
    ensures { map (λ k. k.now) result.now ≡ traffic_keys several }
{
    if several { &SEVERAL_KEYS } else { &ONE_KEYS }
}

fn add(
    alloc: Global,
    so_far: &mut GivenScripts,
    table: &Table,
    several: bool,
    format: FileFormat,
    k: u32,
) -> Result<(), ProjectFault>
    requires small { k ≤ max_k }
    requires several { several ≡ is_for_several format (table_view table.now) }
    requires count { length so_far.old.scripts ≡ 2 ^ k }
    ensures item { MatchResult result (λ _. with_draw_of format k so_far.old (table_view table.now) ≡ Ok so_far.new) (λ fault. fault ≢ Memory → with_draw_of format k so_far.old (table_view table.now) ≡ Err fault) }
    ensures count { length so_far.new.scripts ≡ 2 ^ k }
    ensures few { AreFew script_entries so_far.old.scripts → AreFew script_entries so_far.new.scripts }
{
    let procs = processors_of(alloc, table, several, k)?;
    let given = each_given(so_far.given, &procs)?;
    let draw = draw_in(table)?;
    draw_each(alloc, &mut so_far.scripts, &procs, draw)?;
    so_far.given = given;
    Ok(())
}

/// Gives each of these processors the script that is drawn for it.
fn draw_each(
    alloc: Global,
    scripts: &mut Scripts,
    procs: &[u32],
    draw: Draw,
) -> Result<(), NoMemory>
    requires there { All (λ p. p < length scripts.old) procs.now }
    requires draw { IsDraw draw }
    ensures ok { OnOk result (scripts.new ≡ each_drawn scripts.old procs.now draw) }
    ensures count { length scripts.new ≡ length scripts.old }
    ensures few { AreFew script_entries scripts.old → AreFew script_entries scripts.new }
{
    'procs: for proc in procs {
        draw_one(alloc, scripts, *proc, draw)?;
    }
    Ok(())
}

fn draw_one(alloc: Global, scripts: &mut Scripts, proc: u32, draw: Draw) -> Result<(), NoMemory>
    requires there { proc < length scripts.old }
    requires draw { IsDraw draw }
    ensures ok { OnOk result (scripts.new ≡ slice_set scripts.old proc (script_drawn draw proc)) }
    ensures count { length scripts.new ≡ length scripts.old }
    ensures few { AreFew script_entries scripts.old → AreFew script_entries scripts.new }
{
    let own = draw.script(alloc, proc)?;
    scripts.set(alloc, proc, own)
}

/// What the processors of an item offer.
fn draw_in(table: &Table) -> Result<Draw, ProjectFault>
    ensures draw { result ≡ draw_in (table_view table.now) }
    ensures fits { IfOk result IsDraw }
{
    let sync = match find(table, "network") {
        Some(value) => network_in(value)?,
        None => true,
    };
    let rate = match find(table, "rate") {
        Some(value) => rate_in(value)?,
        None => 100,
    };
    let hot = number_at(table, "hot", 0, 100)?;
    let word = number_at(table, "word", 0, ADDRESSES - 1)?;
    let page = number_at(table, "page", 0, PAGES - 1)?;
    let references = number_at(table, "references", 1, MOST_REFERENCES)?;
    let seed = number_at(table, "seed", 0, u32::MAX)?;
    Ok(Draw {
        mix: Mix {
            sync,
            hot,
            word,
            page,
        },
        rate,
        references,
        seed: u64::from(seed),
    })
}

/// Whether a network is the combining one, by its name.
pub(crate) fn network_in(value: &Value) -> Result<bool, ProjectFault>
    ensures { result ≡ network_in (view value.now) }
{
    match value.as_str() {
        Some(text) => match read_network(text.as_bytes()) {
            Some(sync) => Ok(sync),
            None => Err(ProjectFault::WrongType),
        },
        None => Err(ProjectFault::WrongType),
    }
}

/// A share of one in hundredths, of which there are 1 to 100.
pub(crate) fn rate_in(value: &Value) -> Result<u32, ProjectFault>
    ensures { result ≡ rate_in (view value.now) }
{
    match value.as_float() {
        Some(share) => match hundredths_of(share) {
            Some(rate) => Ok(rate),
            None => Err(ProjectFault::Range),
        },
        None => {
            number_in(value, 1, 1)?;
            Ok(100)
        }
    }
}

/// How many hundredths a share of one is, where it is 1 to 100 of them.
fn hundredths_of(share: f64) -> Option<u32>
    ensures { result ≡ sought share 1 100 }
{
    'tried: for rate in 1..101u32 {
        if f64::from(rate) / 100.0 == share {
            return Some(rate);
        }
    }
    None
}
