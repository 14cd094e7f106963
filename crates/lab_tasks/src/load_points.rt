//! What is measured of offered loads.
ghost use Rattle.std.specs.Prelude.{◌≡◌, ◌≤◌, IfOk, IsOkUnless, OnOk};
ghost use Rattle.std.specs.List.{AllZip};
ghost use Rattle.experiments.specs.Traffic.{IsTrafficBy};
ghost use Rattle.lab_tasks.specs.Added.{Adds};
ghost use Rattle.lab_tasks.specs.LoadTables.{IsLoadPoint};

use crate::end::End;
use crate::load_table::LoadPoint;
use crate::progress::Progress;
use experiments::{Fault, Offer, Traffic, traffic_each};
use std::alloc::Global;
use std::thread::Threads;

/// How many loads are run before it is told how many are done.
const AT_ONCE: usize = 16;

/// What is measured of each of some loads.
pub(crate) fn load_points<'a, T: Threads + Sync, P: Progress>(
    rt: &T,
    alloc: Global,
    offers: &[Offer],
    progress: &mut P,
) -> Result<Vec<LoadPoint>, End<'a>>
    ensures points { IfOk result (λ v. AllZip IsLoadPoint offers.now v.items) }
    ensures memory { IsOkUnless result End.Memory }
{
    let mut points = Vec::new(alloc);
    for some in offers.chunks(AT_ONCE) {
        add_points(rt, alloc, some, &mut points)?;
        progress.tell(points.len(), offers.len());
    }
    Ok(points)
}

/// Adds what is measured of each of some loads.
fn add_points<'a, T: Threads + Sync>(
    rt: &T,
    alloc: Global,
    offers: &[Offer],
    points: &mut Vec<LoadPoint>,
) -> Result<(), End<'a>>
    ensures added { OnOk result (Adds IsLoadPoint offers.now points.old.items points.new.items) }
    ensures memory { IsOkUnless result End.Memory }
{
    let all = traffic_each(rt, alloc, offers)?;
    for (offer, traffic) in offers.iter().zip(all.as_slice()) {
        points.push(load_point(*offer, *traffic)?)?;
    }
    Ok(())
}

/// The point of a load of which this came.
fn load_point<'a>(offer: Offer, traffic: Result<Traffic, Fault>) -> Result<LoadPoint, End<'a>>
    requires { IsTrafficBy offer traffic }
    ensures point { IfOk result (IsLoadPoint offer) }
    ensures memory { IsOkUnless result End.Memory }
{
    let traffic = match traffic {
        Ok(traffic) => traffic,
        Err(_) => return Err(End::Memory),
    };
    let Ok(answered) = u32::try_from(traffic.answered) else {
        return Err(End::Memory);
    };
    Ok(LoadPoint {
        offer,
        first: traffic.first,
        answered,
        replies: traffic.replies,
        unanswered: traffic.unanswered,
        mean: traffic.mean,
    })
}
