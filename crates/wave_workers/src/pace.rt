//! How long the slices are that a worker settles.
ghost use Rattle.std.specs.Prelude.{◌≡◌, ◌≤◌};
ghost use Rattle.wave_workers.specs.Pacing.{least_cells, most_cells, paced};

use std::time::{Clock, Instant};

/// How many cells a slice has at least, and the first one: a millisecond's at most, at 3 to 60 nanoseconds a cell.
const LEAST: u64 = 16_384;

/// How many cells a slice has at most. Where a busy stretch follows a quiet one, who asks waits so long once for a slice that was
/// paced by the quiet one.
const MOST: u64 = 131_072;

/// Behind a slice of fewer nanoseconds comes a longer one: each begins with a look at all components, which is most of what it takes
/// where little happens.
const QUICK: u128 = 500_000;

/// Behind a slice of more nanoseconds comes a shorter one: who asks meanwhile waits for it.
const SLOW: u128 = 1_000_000;

/// How many cells a worker's next slice has.
#[derive(Clone, Copy)]
pub struct Pace {
    pub cells: u32,
}

impl Pace {
    /// The first slice, when something has become due.
    pub fn first() -> Pace
        ensures { result.cells ≡ least_cells }
    {
        Pace {
            cells: LEAST as u32,
        }
    }

    /// The slice behind one that began then, where the clock tells how long that took, its wait for the turn included; else the first
    /// one again.
    pub fn after<R: Clock>(self, rt: &R, since: Option<Instant>) -> Pace
        ensures { (least_cells ≤ result.cells) × (result.cells ≤ most_cells) }
    {
        match since.and_then(|since| since.elapsed(rt).ok()) {
            Some(took) => Pace {
                cells: paced(self.cells, took.as_nanos()),
            },
            None => Pace::first(),
        }
    }
}

/// How many cells the slice has behind one of so many that took so many nanoseconds.
fn paced(cells: u32, nanos: u128) -> u32
    ensures { result ≡ paced cells nanos }
{
    let cells = u64::from(cells);
    let next = if nanos < QUICK {
        cells * 2
    } else if nanos > SLOW {
        cells / 2
    } else {
        cells
    };
    next.min(MOST).max(LEAST) as u32
}
