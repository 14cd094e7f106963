//! Answered references per cycle against the number of processors.
ghost use Rattle.std.specs.Prelude.{◌≡◌, ◌≤◌, IfOk, IsOkUnless, OnOk, string_bytes};
ghost use Rattle.std.specs.List.{AllZip};
ghost use Rattle.page_map.specs.Limits.{max_k};
ghost use Rattle.experiments.specs.Steady.{IsSteadyBy};
ghost use Rattle.lab_tasks.specs.Added.{Adds};
ghost use Rattle.lab_tasks.specs.Points.{rate_loads, IsRate};
ghost use Rattle.lab_tasks.specs.Tables.{rate_row, table_text};

use crate::end::End;
use crate::plan::CurvePlan;
use crate::points::rate_loads;
use crate::progress::Progress;
use crate::tables::{RATE_HEADER, RatePoint};
use experiments::{Fault, Load, Steady, steady_each};
use std::alloc::{AllocError, Global};
use std::fmt::Write;
use std::thread::Threads;

/// How many loads are run before it is told how many are done.
const AT_ONCE: usize = 16;

/// What is measured of each load of a plan.
pub(crate) fn rate_points<'a, T: Threads + Sync, P: Progress>(
    rt: &T,
    alloc: Global,
    plan: &CurvePlan,
    progress: &mut P,
) -> Result<Vec<RatePoint>, End<'a>>
    requires { plan.now.k ≤ max_k }
    ensures points { IfOk result (λ v. AllZip IsRate (rate_loads plan.now) v.items) }
    ensures memory { IsOkUnless result End.Memory }
{
    let loads = rate_loads(alloc, plan)?;
    let mut points = Vec::new(alloc);
    for some in loads.chunks(AT_ONCE) {
        add_points(rt, alloc, some, &mut points)?;
        progress.tell(points.len(), loads.len());
    }
    Ok(points)
}

/// Adds what is measured of each of some loads.
fn add_points<'a, T: Threads + Sync>(
    rt: &T,
    alloc: Global,
    loads: &[Load],
    points: &mut Vec<RatePoint>,
) -> Result<(), End<'a>>
    ensures added { OnOk result (Adds IsRate loads.now points.old.items points.new.items) }
    ensures memory { IsOkUnless result End.Memory }
{
    let all = steady_each(rt, alloc, loads)?;
    for (load, steady) in loads.iter().zip(all.as_slice()) {
        points.push(rate_point(*load, *steady)?)?;
    }
    Ok(())
}

/// The point of a load of which this came.
fn rate_point<'a>(load: Load, steady: Result<Steady, Fault>) -> Result<RatePoint, End<'a>>
    requires { IsSteadyBy load steady }
    ensures point { IfOk result (IsRate load) }
    ensures memory { IsOkUnless result End.Memory }
{
    let steady = match steady {
        Ok(steady) => steady,
        Err(_) => return Err(End::Memory),
    };
    let (Ok(answered), Ok(served)) = (u32::try_from(steady.answered), u32::try_from(steady.served))
    else {
        return Err(End::Memory);
    };
    Ok(RatePoint {
        load,
        first: steady.first,
        answered,
        served,
    })
}

/// The table of the points.
pub(crate) fn rate_table(alloc: Global, points: &[RatePoint]) -> Result<String, AllocError>
    ensures { IfOk result (λ text. string_bytes text ≡ table_text RATE_HEADER.now rate_row points.now) }
{
    let mut text = String::from_str(alloc, RATE_HEADER)?;
    for point in points {
        writeln!(text, "{point}")?;
    }
    Ok(text)
}
