//! What comes of an offered load once its rate is steady.
ghost use Rattle.std.specs.Prelude.{◌≡◌, ◌<◌, ◌≤◌, ◌+◌, IfOk, min};
ghost use Rattle.std.specs.List.{AllZip};
ghost use Rattle.monitor_sums.specs.declared.counter.Counter.TheVariants.{Answered};
ghost use Rattle.run_reports.specs.Latencies.{AreFew, AreLatencies};
ghost use Rattle.experiments.specs.Flows.{sum_between, IsFlow};
ghost use Rattle.experiments.specs.Offers.{project_offered};
ghost use Rattle.experiments.specs.Steady.{left_out};
ghost use Rattle.experiments.specs.Traffic.{issued_by_middle, IsTraffic, IsTrafficBy};

use crate::flows::{Flows, flows_of};
use crate::steady::{left_out, sum_between};
use crate::{Fault, MOST_CYCLES, Offer, project_offered};
use grid_law::NoMemory;
use page_map::MAX_K;
use project_book::Project;
use rayon::prelude::*;
use run_reports::{Condition, Latencies, Window, latencies_of};
use std::alloc::{AllocError, Global};
use std::thread::Threads;

/// What came of a run from a cycle to its last one, where the cycles before it are the start, which is left out.
#[derive(Clone, Copy, PartialEq, Eq, Debug)]
pub struct Traffic {
    /// The first cycle that is counted.
    pub first: u32,
    /// How many references were answered in these cycles.
    pub answered: u64,
    /// How many of the references that were issued up to the middle of these cycles have a reply.
    pub replies: u64,
    /// How many of them have none.
    pub unanswered: u64,
    /// The mean of the cycles from issue to reply, in hundredths, to the nearest one; None where there is no reply.
    pub mean: Option<u64>,
}

/// The first cycle that is counted.
fn first_counted(flow: &[u16], cycles: u32) -> u32
    requires { cycles < 1000000 }
    ensures first { result ≡ min (left_out flow.now cycles + 1) cycles }
    ensures within { result ≤ cycles }
{
    (left_out(flow, cycles) + 1).min(cycles)
}

/// The references that are issued from a cycle to the middle of what is behind it.
fn issued_by_middle(first: u32, cycles: u32) -> Condition
    requires first { first ≤ cycles }
    requires short { cycles < 1000000 }
    ensures { result ≡ issued_by_middle first cycles }
{
    Condition {
        window: Some(Window {
            from: first,
            to: (first + cycles) / 2,
        }),
        ..Condition::ALL
    }
}

/// What these flows and these latencies are in all.
fn traffic_in(offer: Offer, first: u32, flows: &Flows, latencies: &Latencies) -> Traffic
    requires answered { IsFlow (project_offered offer) Answered flows.now.answered.items }
    requires first { first ≡ min (left_out flows.now.answered.items offer.load.cycles + 1) offer.load.cycles }
    requires latencies { AreLatencies (project_offered offer) (issued_by_middle first offer.load.cycles) latencies.now }
    requires few { AreFew latencies.now }
    requires short { offer.load.cycles < 1000000 }
    ensures { IsTraffic offer result }
{
    Traffic {
        first,
        answered: sum_between(flows.answered.as_slice(), first, offer.load.cycles),
        replies: latencies.number(),
        unanswered: latencies.unanswered,
        mean: latencies.mean(),
    }
}

/// What came of the run of an offered load's project.
fn traffic_of(alloc: Global, offer: Offer, project: &Project) -> Result<Traffic, NoMemory>
    requires project { project.now ≡ project_offered offer }
    requires short { offer.load.cycles < 1000000 }
    ensures { IfOk result (IsTraffic offer) }
{
    let flows = flows_of(alloc, project)?;
    let first = first_counted(flows.answered.as_slice(), offer.load.cycles);
    let condition = issued_by_middle(first, offer.load.cycles);
    let latencies = latencies_of(alloc, project, &condition)?;
    Ok(traffic_in(offer, first, &flows, &latencies))
}

/// The same of an offered load.
fn traffic_by(alloc: Global, offer: Offer) -> Result<Traffic, Fault>
    ensures { IsTrafficBy offer result }
{
    if offer.load.k > MAX_K || offer.load.cycles > MOST_CYCLES {
        return Err(Fault::Load);
    }
    let project = match project_offered(alloc, offer) {
        Ok(project) => project,
        Err(_) => return Err(Fault::Memory),
    };
    match traffic_of(alloc, offer, &project) {
        Ok(traffic) => Ok(traffic),
        Err(_) => Err(Fault::Memory),
    }
}

/// For each offered load what came of its run once the rate at which references are answered is steady. The loads are run by
/// as many threads as there are processors; what is answered for each hangs on that load alone.
///
/// # Errors
///
/// Where a growth for the list was refused. In the list: Load where there is no machine of the load's k, or its cycles are
/// past the last horizon; Memory where a growth for the load's own run was refused.
pub fn traffic_each<T: Threads + Sync>(
    rt: &T,
    alloc: Global,
    offers: &[Offer],
) -> Result<Vec<Result<Traffic, Fault>>, AllocError>
    ensures { IfOk result (λ v. AllZip (λ offer r. IsTrafficBy offer r) offers.now v.items) }
{
    offers
        .par_iter()
        .with_min_len(1)
        .map(
            |offer: &Offer| -> Result<Traffic, Fault>
                ensures { IsTrafficBy offer.now result }
            { traffic_by(alloc, *offer) },
        )
        .collect(rt, alloc)
}
