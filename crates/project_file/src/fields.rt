//! The keys of a table, and the numbers that they hold.
ghost use Rattle.std.specs.Prelude.{◌≡◌, ◌≤◌, IfOk, option_map, Ok, map};
ghost use Rattle.std.specs.List.{list_any};
ghost use Rattle.std.specs.Prelude.{bytes_eq};
ghost use Rattle.toml.specs.Data.{get_member};
ghost use Rattle.toml.specs.View.{view, table_view};
ghost use Rattle.project_file.specs.Fields.{Reads, known, within, number_in, number_at, required, optional, check};

use crate::fault::ProjectFault;
use toml::{Table, Value};

/// The value of a key.
pub(crate) fn find<'a>(table: &'a Table, key: &str) -> Option<&'a Value>
    ensures { option_map (λ v. view v.now) result ≡ get_member key.now (table_view table.now) }
{
    table.get(key)
}

/// The value of a key that has to be there.
pub(crate) fn require<'a>(table: &'a Table, key: &str) -> Result<&'a Value, ProjectFault>
    ensures { Reads (λ v. view v.now) result (required key.now (table_view table.now)) }
{
    match find(table, key) {
        Some(value) => Ok(value),
        None => Err(ProjectFault::Missing),
    }
}

/// Whether a key is one of these.
#[tactic(auto, using(crate::proofs::Counts::any_drop))]
pub(crate) fn is_among(keys: &[&str], key: &str) -> bool
    ensures { result ≡ list_any (bytes_eq key.now) (map (λ k. k.now) keys.now) }
{
    'keys: for own in keys {
        if key == *own {
            return true;
        }
    }
    false
}

/// Refuses a table that has another key than these.
pub(crate) fn refuse_others(table: &Table, keys: &[&str]) -> Result<(), ProjectFault>
    ensures { result ≡ known (map (λ k. k.now) keys.now) (table_view table.now) }
{
    'members: for (key, _value) in table.iter() {
        if !is_among(keys, key.as_str()) {
            return Err(ProjectFault::UnknownKey);
        }
    }
    Ok(())
}

/// A whole number from least to most.
pub(crate) fn number_in(value: &Value, least: u32, most: u32) -> Result<u32, ProjectFault>
    ensures number { result ≡ number_in least most (view value.now) }
    ensures within { IfOk result (λ n. (least ≤ n) × (n ≤ most)) }
{
    match value.as_integer() {
        Some(number) => number_within(number, least, most),
        None => Err(ProjectFault::WrongType),
    }
}

fn number_within(number: i64, least: u32, most: u32) -> Result<u32, ProjectFault>
    ensures number { result ≡ within least most number }
    ensures within { IfOk result (λ n. (least ≤ n) × (n ≤ most)) }
{
    if number < i64::from(least) || number > i64::from(most) {
        return Err(ProjectFault::Range);
    }
    Ok(number as u32)
}

/// The whole number of a key that has to be there.
pub(crate) fn number_at(
    table: &Table,
    key: &str,
    least: u32,
    most: u32,
) -> Result<u32, ProjectFault>
    ensures number { result ≡ number_at key.now least most (table_view table.now) }
    ensures within { IfOk result (λ n. (least ≤ n) × (n ≤ most)) }
{
    match find(table, key) {
        Some(value) => number_in(value, least, most),
        None => Err(ProjectFault::Missing),
    }
}

/// The whole number of a key, or the one that stands for an absent key.
pub(crate) fn number_or(
    table: &Table,
    key: &str,
    least: u32,
    most: u32,
    absent: u32,
) -> Result<u32, ProjectFault>
    requires low { least ≤ absent }
    requires high { absent ≤ most }
    ensures number { result ≡ optional key.now (number_in least most) absent (table_view table.now) }
    ensures within { IfOk result (λ n. (least ≤ n) × (n ≤ most)) }
{
    match find(table, key) {
        Some(value) => number_in(value, least, most),
        None => Ok(absent),
    }
}

/// The fault, where a test doesn't pass.
pub(crate) fn check(passes: bool, fault: ProjectFault) -> Result<(), ProjectFault>
    ensures { result ≡ check passes fault }
{
    if passes { Ok(()) } else { Err(fault) }
}
