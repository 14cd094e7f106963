//! How much longer queues are in one run than in another.
ghost use Rattle.std.specs.Prelude.{◌≡◌, ◌<◌, ◌≤◌, IfOk, map};
ghost use Rattle.lab_tasks.specs.Columns.{farthest_columns, greatest_of};
ghost use Rattle.lab_tasks.specs.ComparedMaps.{difference, differences, most_longer, most_shorter};
ghost use Rattle.lab_tasks.specs.ComparedRows.{all_differences};

use crate::columns::farthest_columns;
use experiments::Window;
use run_reports::Lengths;
use std::alloc::{AllocError, Global};
use svg_plots::Cells;

/// The number of two lengths: the one in the middle where they are equal, more where the first is longer, less where the second is.
fn difference(depth: u8, one: u8, other: u8) -> u8
    requires { depth < 100 }
    ensures { result ≡ difference depth one other }
{
    if other <= one {
        depth + (one - other).min(depth)
    } else {
        depth.saturating_sub(other - one)
    }
}

/// The numbers of two lists of lengths, place by place.
#[tactic(auto, unfolding(crate::specs::ComparedMaps::differences))]
fn differences(alloc: Global, depth: u8, ones: &[u8], others: &[u8]) -> Result<Vec<u8>, AllocError>
    requires { depth < 100 }
    ensures { IfOk result (λ v. v.items ≡ differences depth ones.now others.now) }
{
    let mut numbers = Vec::new(alloc);
    for (one, other) in ones.iter().zip(others) {
        numbers.push(difference(depth, *one, *other))?;
    }
    Ok(numbers)
}

/// Those of each queue of two runs.
#[tactic(auto, unfolding(crate::specs::ComparedRows::all_differences))]
pub(crate) fn all_differences(
    alloc: Global,
    depth: u8,
    ones: &[Lengths],
    others: &[Lengths],
) -> Result<Vec<Cells>, AllocError>
    requires { depth < 100 }
    ensures { IfOk result (λ v. v.items ≡ all_differences depth ones.now others.now) }
{
    let mut all = Vec::new(alloc);
    for (one, other) in ones.iter().zip(others) {
        let numbers = differences(alloc, depth, one.as_slice(), other.as_slice())?;
        all.push(Cells::from_vec(numbers))?;
    }
    Ok(all)
}

/// The cells of these numbers.
pub(crate) fn compared_cells(
    alloc: Global,
    depth: u8,
    window: Window,
    all: &[Cells],
) -> Result<Vec<Cells>, AllocError>
    requires window { window.from ≤ window.to }
    requires short { window.to < 1000000 }
    ensures { IfOk result (λ v. v.items ≡ map (farthest_columns depth window) all.now) }
{
    let mut cells = Vec::new(alloc);
    for row in all {
        let numbers = farthest_columns(alloc, depth, window, row.as_slice())?;
        cells.push(Cells::from_vec(numbers))?;
    }
    Ok(cells)
}

/// By how much a queue is longer at most in the second run.
fn longer(depth: u8, numbers: &[u8]) -> u8
    ensures { result ≡ most_longer depth numbers.now }
{
    let mut most: u8 = 0;
    for number in numbers {
        most = most.max(depth.saturating_sub(*number));
    }
    most
}

/// By how much it is shorter.
fn shorter(depth: u8, numbers: &[u8]) -> u8
    ensures { result ≡ most_shorter depth numbers.now }
{
    let mut most: u8 = 0;
    for number in numbers {
        most = most.max(number.saturating_sub(depth));
    }
    most
}

/// By how much one of all queues is longer at most in the second run.
pub(crate) fn most_longer(depth: u8, all: &[Cells]) -> u8
    ensures { result ≡ greatest_of (map (most_longer depth) all.now) }
{
    let mut most: u8 = 0;
    for row in all {
        most = most.max(longer(depth, row.as_slice()));
    }
    most
}

/// By how much one is shorter.
pub(crate) fn most_shorter(depth: u8, all: &[Cells]) -> u8
    ensures { result ≡ greatest_of (map (most_shorter depth) all.now) }
{
    let mut most: u8 = 0;
    for row in all {
        most = most.max(shorter(depth, row.as_slice()));
    }
    most
}
