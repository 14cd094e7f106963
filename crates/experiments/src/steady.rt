//! What comes of a run once its rate is steady.
ghost use Rattle.std.specs.Prelude.{◌≡◌, ◌<◌, ◌≤◌, ◌+◌, ◌*◌, ◌/◌, ◌^◌, IfOk, slice_index};
ghost use Rattle.std.specs.List.{AllZip};
ghost use Rattle.monitor_sums.specs.declared.counter.Counter.TheVariants.{Answered, Served};
ghost use Rattle.experiments.specs.Flows.{sum_between, IsFlow};
ghost use Rattle.experiments.specs.Loads.{loaded};
ghost use Rattle.experiments.specs.Steady.{are_near, first_steady, is_steady, left_out, IsSteady, IsSteadyBy};

use crate::flows::{Flows, flows_by};
use crate::{Fault, Load};
use rayon::prelude::*;
use std::alloc::{AllocError, Global};
use std::thread::Threads;

/// What came of a run from a cycle to its last one, where the cycles before it are the start, which is left out.
#[derive(Clone, Copy, PartialEq, Eq, Debug)]
pub struct Steady {
    /// The first cycle that is counted.
    pub first: u32,
    /// How many references were answered.
    pub answered: u64,
    /// How many requests modules served.
    pub served: u64,
}

/// The number at a place, 0 behind the last one.
fn number_at(flow: &[u16], place: usize) -> u64
    ensures number { result ≡ slice_index flow.now place }
    ensures few { result ≤ 65535 }
{
    match flow.get(place) {
        Some(number) => u64::from(*number),
        None => 0,
    }
}

/// The sum of the numbers at the places from one to another.
#[tactic(auto, using(crate::proofs::Adding::sum_next))]
pub(crate) fn sum_between(flow: &[u16], from: u32, to: u32) -> u64
    ensures sum { result ≡ sum_between flow.now from to }
    ensures few { result ≤ 65535 * (to + 1) }
{
    let first = from as usize;
    let count = (to as usize + 1).saturating_sub(first);
    let mut sum: u64 = 0;
    for place in 0..count {
        sum += number_at(flow, place + first);
    }
    sum
}

/// Whether two numbers differ by a twentieth of their sum at most.
fn are_near(a: u64, b: u64) -> bool
    requires first { a < 2 ^ 40 }
    requires second { b < 2 ^ 40 }
    ensures { result ≡ are_near a b }
{
    (a.max(b) - a.min(b)) * 20 <= a + b
}

/// Whether the two halves of the cycles behind so many have as much.
fn is_steady(flow: &[u16], cycles: u32, left: u32) -> bool
    requires within { left ≤ cycles }
    requires short { cycles < 1000000 }
    ensures { result ≡ is_steady flow.now cycles left }
{
    let half = (cycles - left) / 2;
    let first = sum_between(flow, left + 1, left + half);
    let last = sum_between(flow, cycles + 1 - half, cycles);
    are_near(first, last)
}

/// How many cycles are left out, so that the rate is steady behind them: 16, 32, .., less than half of them; else half.
#[tactic(auto, using(crate::proofs::Steadying::steady_next, crate::proofs::Steadying::steady_here, crate::proofs::Steadying::steady_never))]
pub(crate) fn left_out(flow: &[u16], cycles: u32) -> u32
    requires short { cycles < 1000000 }
    ensures left { result ≡ left_out flow.now cycles }
    ensures within { result ≤ cycles / 2 }
{
    let half = cycles / 2;
    let most = half.saturating_sub(1) / 16;
    for nth in 0..most {
        let left = 16 * (nth + 1);
        if is_steady(flow, cycles, left) {
            return left;
        }
    }
    half
}

/// What came of a run once the rate at which references are answered is steady.
fn steady_in(load: Load, flows: &Flows) -> Steady
    requires answered { IsFlow (loaded load) Answered flows.now.answered.items }
    requires served { IsFlow (loaded load) Served flows.now.served.items }
    requires short { load.cycles < 1000000 }
    ensures { IsSteady load result }
{
    let first = (left_out(flows.answered.as_slice(), load.cycles) + 1).min(load.cycles);
    Steady {
        first,
        answered: sum_between(flows.answered.as_slice(), first, load.cycles),
        served: sum_between(flows.served.as_slice(), first, load.cycles),
    }
}

/// The same of a load's run.
fn steady_by(alloc: Global, load: Load) -> Result<Steady, Fault>
    ensures { IsSteadyBy load result }
{
    let flows = match flows_by(alloc, load) {
        Ok(flows) => flows,
        Err(fault) => return Err(fault),
    };
    let steady = steady_in(load, &flows);
    Ok(steady)
}

/// For each load what came of its run once the rate at which references are answered is steady. The loads are run by as many
/// threads as there are processors; what is answered for each hangs on that load alone.
///
/// # Errors
///
/// Where a growth for the list was refused. In the list: Load where there is no machine of the load's k, or its cycles are
/// past the last horizon; Memory where a growth for the load's own run was refused.
pub fn steady_each<T: Threads + Sync>(
    rt: &T,
    alloc: Global,
    loads: &[Load],
) -> Result<Vec<Result<Steady, Fault>>, AllocError>
    ensures { IfOk result (λ v. AllZip (λ load r. IsSteadyBy load r) loads.now v.items) }
{
    loads
        .par_iter()
        .with_min_len(1)
        .map(
            |load: &Load| -> Result<Steady, Fault>
                ensures { IsSteadyBy load.now result }
            { steady_by(alloc, *load) },
        )
        .collect(rt, alloc)
}
