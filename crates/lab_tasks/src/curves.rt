//! What the pictures of curves share: which points are of a curve, and ticks by doublings.
ghost use Rattle.std.specs.Prelude.{◌≡◌, ◌≤◌, IfOk, length};
ghost use Rattle.page_map.specs.Limits.{max_k};
ghost use Rattle.lab_tasks.specs.CurvePictures.{doubling_at, doublings, part_of};

use crate::tables::processors_of;
use std::alloc::{AllocError, Global};
use svg_plots::Tick;

/// So many elements, behind so many times as many.
pub(crate) fn part_of<T>(place: usize, each: usize, all: &[T]) -> &[T]
    ensures part { result.now ≡ part_of place each all.now }
    ensures few { length result.now ≤ each }
{
    let begin = all.len().min(place.saturating_mul(each));
    let rest = &all[begin..];
    let end = rest.len().min(each);
    &rest[..end]
}

fn doubling_at(power: u32) -> Tick
    requires { power ≤ max_k }
    ensures { result ≡ doubling_at power }
{
    Tick {
        value: power * 100,
        number: processors_of(power) as u32,
    }
}

/// A tick at each power of two up to 2^k; values are logarithms in hundredths.
pub(crate) fn doublings(alloc: Global, k: u32) -> Result<Vec<Tick>, AllocError>
    requires { k ≤ max_k }
    ensures { IfOk result (λ v. v.items ≡ doublings k) }
{
    let mut ticks = Vec::new(alloc);
    for power in 0..k + 1 {
        ticks.push(doubling_at(power))?;
    }
    Ok(ticks)
}
