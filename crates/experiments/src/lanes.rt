//! Where the bars of references stand in a space-time diagram.
ghost use Rattle.std.specs.Prelude.{◌≡◌, ◌<◌, ◌≤◌, ◌^◌, IfOk, length, sum, take};
ghost use Rattle.std.specs.Option.{option_copied};
ghost use Rattle.experiments.specs.Lanes.{greatest, lane_count, lane_counts, lane_of, most_reach, own_lane, reach_to, rows_of, was_open_at};

use crate::order::is_open_from;
use crate::{Issue, OrderRow};
use omega_net::Tag;
use run_queries::Received;
use std::alloc::{AllocError, Global};

/// A processor's lanes at most.
const MOST_LANES: u64 = 512;

/// Whether a reference with this reply was still waiting at an issue.
fn was_open_at(issue: Option<Issue>, reply: Option<Received>) -> bool
    ensures { result ≡ was_open_at issue reply }
{
    match issue {
        Some(issue) => is_open_from(reply, issue.cycle),
        None => false,
    }
}

/// How many references there are from one on to another that was issued while the one waited.
fn reach_to(row: &OrderRow, other: &OrderRow) -> u64
    ensures { result ≡ reach_to row.now other.now }
{
    if was_open_at(other.issue, row.reply) {
        (u64::from(other.tag.issue) + 1).saturating_sub(u64::from(row.tag.issue))
    } else {
        0
    }
}

/// How many there are at most from one of some references on.
fn reach_of(row: &OrderRow, rows: &[OrderRow]) -> u64
    ensures { result ≡ greatest (reach_to row.now) rows.now }
{
    let mut most = 0;
    for other in rows {
        most = reach_to(row, other).max(most);
    }
    most
}

/// How many lanes are enough for some references of one processor.
fn most_reach(rows: &[OrderRow]) -> u64
    ensures { result ≡ most_reach rows.now }
{
    let mut most = 0;
    for row in rows {
        most = reach_of(row, rows).max(most);
    }
    most
}

/// The references of a processor.
fn rows_of(alloc: Global, proc: u32, rows: &[OrderRow]) -> Result<Vec<OrderRow>, AllocError>
    ensures { IfOk result (λ v. v.items ≡ rows_of proc rows.now) }
{
    let mut own = Vec::new(alloc);
    for row in rows {
        if u32::from(row.tag.proc) == proc {
            own.push(*row)?;
        }
    }
    Ok(own)
}

/// How many lanes a processor has.
fn lane_count(alloc: Global, proc: u32, rows: &[OrderRow]) -> Result<u32, AllocError>
    ensures { IfOk result (λ n. n ≡ lane_count rows.now proc) }
{
    let own = rows_of(alloc, proc, rows)?;
    let lanes = most_reach(own.as_slice()).min(MOST_LANES);
    Ok(lanes.max(1) as u32)
}

/// How many lanes each processor needs, so that bars of references that waited at once stand in different ones: 1 at least,
/// and 512 at most.
///
/// # Errors
///
/// Where a growth was refused. What was taken is given back.
pub fn lane_counts(
    alloc: Global,
    processors: u32,
    rows: &[OrderRow],
) -> Result<Vec<u32>, AllocError>
    ensures { IfOk result (λ v. v.items ≡ lane_counts processors rows.now) }
{
    let mut counts = Vec::new(alloc);
    for proc in 0..processors {
        counts.push(lane_count(alloc, proc, rows)?)?;
    }
    Ok(counts)
}

/// How many lanes some processors have together.
fn lanes_of(counts: &[u32]) -> u64
    requires { length counts.now ≤ 255 }
    ensures sum { result ≡ sum counts.now }
    ensures small { result < 2 ^ 40 }
{
    let mut lanes: u64 = 0;
    for count in counts {
        lanes += u64::from(*count);
    }
    lanes
}

/// How many lanes the processors before one have together.
#[tactic(auto, using(crate::proofs::Greatest::take_few))]
fn lanes_before(counts: &[u32], proc: u8) -> u64
    ensures sum { result ≡ sum (take proc counts.now) }
    ensures small { result < 2 ^ 40 }
{
    let few = counts.len().min(usize::from(proc));
    lanes_of(&counts[..few])
}

/// The lane of an issue number among those of its processor.
fn own_lane(issue: u32, count: Option<&u32>) -> u32
    ensures { result ≡ own_lane issue (option_copied count.entry) }
{
    match count {
        Some(count) => issue % (*count).max(1),
        None => 0,
    }
}

/// The lane of a reference among those of all processors, of which each has that many.
pub fn lane_of(counts: &[u32], tag: Tag) -> u64
    ensures { result ≡ lane_of counts.now tag }
{
    let own = own_lane(tag.issue, counts.get(usize::from(tag.proc)));
    lanes_before(counts, tag.proc) + u64::from(own)
}
