//! Requests that arrive in an output queue, and combine with one that waits there.
ghost use Rattle.std.specs.Prelude.{◌≡◌, ◌<◌, ◌≤◌, ◌+◌, if◌then◌else◌, length, Some, None, IfSome, OnOk};
ghost use Rattle.omega_net.specs.Ports.{queue_at};
ghost use Rattle.word_ops.specs.Words.{then_op};
ghost use Rattle.comb_switch.specs.CombSwitch.{youngest_for, combines, last_in, combined_in, meets, arrives};
ghost use Rattle.comb_switch.specs.Kept.{RequestsAreKept};

use crate::waiting::{is_first, join_waiting};
use crate::{CombSettings, CombState, Waiting};
use omega_net::{Queue, Request, bit_of};
use page_map::Place;
use std::alloc::AllocError;
use word_ops::Op;

/// A request arrives in its output queue.
#[inline(always)]
pub(crate) fn arrives(
    settings: &CombSettings,
    request: Option<Request>,
    next: &mut CombState,
) -> Result<(), AllocError>
    requires few { next.old.combined < 2 }
    ensures after { OnOk result (next.new ≡ arrives settings.now request next.old) }
    ensures count { next.new.combined ≤ next.old.combined + 1 }
{
    let Some(request) = request else {
        return Ok(());
    };
    let output = bit_of(request.place.module, settings.bit);
    let index = youngest_for(request.place, &next.fwd[output as usize]);
    meets(settings, request, output, index, next)
}

/// Where each request comes only from an input that may send, every request that comes stands in its output queue, or
/// in the wait buffer behind the one that it was combined into: none is lost, at depths no greater than a queue has places.
pub fn requests_are_kept()
    ensures { RequestsAreKept }
{}

/// The index of the youngest request for a place, which is the last.
fn youngest_for(place: Place, requests: &[Request]) -> Option<usize>
    ensures index { result ≡ youngest_for place requests.now }
    ensures within { IfSome result (λ i. i < length requests.now) }
{
    match requests {
        [] => None,
        [first, later @ ..] => match youngest_for(place, later) {
            Some(i) => Some(i + 1),
            None if first.place == place => Some(0),
            None => None,
        },
    }
}

/// A request meets the youngest one for its place, if there is one: they combine, or it goes last into the queue.
fn meets(
    settings: &CombSettings,
    request: Request,
    output: u8,
    index: Option<usize>,
    next: &mut CombState,
) -> Result<(), AllocError>
    requires output_there { output < 2 }
    requires index_there { IfSome index (λ i. i < length (queue_at next.old.fwd output).items) }
    requires few { next.old.combined < 2 }
    ensures after { OnOk result (next.new ≡ meets settings.now request output index next.old) }
    ensures count { next.new.combined ≤ next.old.combined + 1 }
{
    if let Some(i) = index {
        let queued = next.fwd[output as usize][i];
        if let Some(op) = joint_op(settings, &next.wait, &queued, &request) {
            return combined_in(request, op, output, i, queued, next);
        }
    }
    last_in(request, output, next)
}

/// The operation that does that request and then this one, if this one combines into it.
fn joint_op(
    settings: &CombSettings,
    wait: &Queue<Waiting>,
    queued: &Request,
    request: &Request,
) -> Option<Op>
    ensures { result ≡ (if combines settings.now wait.now queued.now request.now then then_op queued.now.op request.now.op else None) }
{
    let op = queued.op.then(request.op)?;
    let room = (wait.len() as u32) < settings.wait;
    if settings.combine && room && !is_first(wait, queued.tag) {
        Some(op)
    } else {
        None
    }
}

/// Puts a request last into an output queue.
fn last_in(request: Request, output: u8, next: &mut CombState) -> Result<(), AllocError>
    requires { output < 2 }
    ensures after { OnOk result (next.new ≡ last_in request output next.old) }
    ensures count { next.new.combined ≡ next.old.combined }
{
    next.fwd[output as usize].push(request)
}

/// Combines a request into the one at that index of an output queue, by the operation that does both.
fn combined_in(
    request: Request,
    op: Op,
    output: u8,
    index: usize,
    queued: Request,
    next: &mut CombState,
) -> Result<(), AllocError>
    requires output_there { output < 2 }
    requires index_there { index < length (queue_at next.old.fwd output).items }
    requires does_both { Some op ≡ then_op queued.op request.op }
    requires few { next.old.combined < 2 }
    ensures after { OnOk result (next.new ≡ combined_in request output index queued next.old) }
    ensures count { next.new.combined ≤ next.old.combined + 1 }
{
    next.fwd[output as usize].set(index, Request { op, ..queued });
    let waiting = Waiting {
        first: queued.tag,
        op: queued.op,
        second: request.tag,
    };
    join_waiting(&mut next.wait, waiting)?;
    next.combined += 1;
    Ok(())
}
