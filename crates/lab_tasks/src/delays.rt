//! Mean delays of the references that aren't hot against the share of hot ones.
ghost use Rattle.std.specs.Prelude.{◌≡◌, IfOk, IsOkUnless, OnOk, string_bytes};
ghost use Rattle.std.specs.List.{AllZip};
ghost use Rattle.experiments.specs.Delays.{IsWaitedBy};
ghost use Rattle.lab_tasks.specs.Added.{Adds};
ghost use Rattle.lab_tasks.specs.Points.{delay_loads, first_measured, IsDelay};
ghost use Rattle.lab_tasks.specs.Tables.{delay_row, table_text};

use crate::end::End;
use crate::plan::CurvePlan;
use crate::points::delay_loads;
use crate::progress::Progress;
use crate::tables::{DELAY_HEADER, DelayPoint};
use experiments::{ColdWaits, Fault, Load, waited_each};
use std::alloc::{AllocError, Global};
use std::fmt::Write;
use std::thread::Threads;

/// The first cycle that is measured: what comes before is the start.
pub(crate) fn first_measured(cycles: u32) -> u32
    ensures { result ≡ first_measured cycles }
{
    let left_out = cycles / 2;
    left_out + 1
}

/// How many loads are run before it is told how many are done.
const AT_ONCE: usize = 8;

/// How long the references of each load of a plan waited that aren't hot.
pub(crate) fn delay_points<'a, T: Threads + Sync, P: Progress>(
    rt: &T,
    alloc: Global,
    plan: &CurvePlan,
    progress: &mut P,
) -> Result<Vec<DelayPoint>, End<'a>>
    ensures points { IfOk result (λ v. AllZip (IsDelay plan.now) (delay_loads plan.now) v.items) }
    ensures memory { IsOkUnless result End.Memory }
{
    let loads = delay_loads(alloc, plan)?;
    let mut points = Vec::new(alloc);
    for some in loads.chunks(AT_ONCE) {
        add_points(rt, alloc, plan, some, &mut points)?;
        progress.tell(points.len(), loads.len());
    }
    Ok(points)
}

/// Adds how long the references of each of some loads waited.
fn add_points<'a, T: Threads + Sync>(
    rt: &T,
    alloc: Global,
    plan: &CurvePlan,
    loads: &[Load],
    points: &mut Vec<DelayPoint>,
) -> Result<(), End<'a>>
    ensures added { OnOk result (Adds (IsDelay plan.now) loads.now points.old.items points.new.items) }
    ensures memory { IsOkUnless result End.Memory }
{
    let all = waited_each(rt, alloc, loads, first_measured(plan.cycles))?;
    for (load, waits) in loads.iter().zip(all.as_slice()) {
        points.push(delay_point(plan, *load, *waits)?)?;
    }
    Ok(())
}

/// The point of a load whose references waited so.
fn delay_point<'a>(
    plan: &CurvePlan,
    load: Load,
    waits: Result<ColdWaits, Fault>,
) -> Result<DelayPoint, End<'a>>
    requires { IsWaitedBy load (first_measured plan.now.cycles) waits }
    ensures point { IfOk result (IsDelay plan.now load) }
    ensures memory { IsOkUnless result End.Memory }
{
    let ColdWaits { count, cycles } = match waits {
        Ok(waits) => waits,
        Err(_) => return Err(End::Memory),
    };
    let (Ok(replies), Ok(waited)) = (u32::try_from(count), u32::try_from(cycles)) else {
        return Err(End::Memory);
    };
    Ok(DelayPoint {
        load,
        replies,
        waited,
    })
}

/// The table of the points.
pub(crate) fn delay_table(alloc: Global, points: &[DelayPoint]) -> Result<String, AllocError>
    ensures { IfOk result (λ text. string_bytes text ≡ table_text DELAY_HEADER.now delay_row points.now) }
{
    let mut text = String::from_str(alloc, DELAY_HEADER)?;
    for point in points {
        writeln!(text, "{point}")?;
    }
    Ok(text)
}
