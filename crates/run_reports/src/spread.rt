//! The earliest and the latest of some cycles.
ghost use Rattle.std.specs.Prelude.{◌≡◌, IfOk};
ghost use Rattle.run_reports.specs.Completions.{cycles_between, cycles_of, earliest, latest, or_less, or_more, spread_of};

use crate::{Completion, Event};
use std::alloc::{AllocError, Global};

/// How far apart some cycles are.
#[derive(Clone, Copy, PartialEq, Eq, Debug)]
pub struct Spread {
    /// How many there are.
    pub number: usize,
    /// None where there are none, as the others.
    pub earliest: Option<u32>,
    pub latest: Option<u32>,
    /// The cycles from the earliest to the latest.
    pub between: Option<u32>,
}

/// The less of a cycle and another one, if there is one.
fn or_less(cycle: u32, other: Option<u32>) -> u32
    ensures { result ≡ or_less cycle other }
{
    match other {
        Some(other) => cycle.min(other),
        None => cycle,
    }
}

/// The greater of a cycle and another one, if there is one.
fn or_more(cycle: u32, other: Option<u32>) -> u32
    ensures { result ≡ or_more cycle other }
{
    match other {
        Some(other) => cycle.max(other),
        None => cycle,
    }
}

/// The earliest of some cycles; None where there are none.
fn earliest(cycles: &[u32]) -> Option<u32>
    ensures { result ≡ earliest cycles.now }
{
    let mut earliest = None;
    for cycle in cycles {
        earliest = Some(or_less(*cycle, earliest));
    }
    earliest
}

/// The latest of some cycles; None where there are none.
fn latest(cycles: &[u32]) -> Option<u32>
    ensures { result ≡ latest cycles.now }
{
    let mut latest = None;
    for cycle in cycles {
        latest = Some(or_more(*cycle, latest));
    }
    latest
}

/// The cycles from one to another; None where one is missing.
fn cycles_between(earliest: Option<u32>, latest: Option<u32>) -> Option<u32>
    ensures { result ≡ cycles_between earliest latest }
{
    match (earliest, latest) {
        (Some(earliest), Some(latest)) => Some(latest.saturating_sub(earliest)),
        (Some(_), None) | (None, Some(_) | None) => None,
    }
}

/// The earliest and the latest of some cycles, and the cycles between them.
pub fn spread_of(cycles: &[u32]) -> Spread
    ensures { result ≡ spread_of cycles.now }
{
    let (earliest, latest) = (earliest(cycles), latest(cycles));
    Spread {
        number: cycles.len(),
        earliest,
        latest,
        between: cycles_between(earliest, latest),
    }
}

/// The cycles of an event, of those processors that have one.
///
/// # Errors
///
/// Where a growth was refused. What was taken is given back.
pub fn cycles_of(
    alloc: Global,
    event: Event,
    completions: &[Completion],
) -> Result<Vec<u32>, AllocError>
    ensures { IfOk result (λ v. v.items ≡ cycles_of event completions.now) }
{
    let mut cycles = Vec::new(alloc);
    for completion in completions {
        if let Some(cycle) = completion.cycle(event) {
            cycles.push(cycle)?;
        }
    }
    Ok(cycles)
}
