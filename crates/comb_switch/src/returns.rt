//! Replies that return through a switch: one to a combined request becomes two.
ghost use Rattle.std.specs.Prelude.{◌≡◌, ◌<◌, length, OnOk, Some};
ghost use Rattle.comb_switch.specs.CombSwitch.{sent_back, splits, returns_to};
ghost use Rattle.comb_switch.specs.Kept.{RepliesAreKept};

use crate::waiting::first_waiting;
use crate::{CombSettings, CombState};
use omega_net::{Reply, bit_of};
use std::alloc::AllocError;

/// A reply takes out the first entry that waits for its tag and becomes two, or goes back as it is.
#[inline(always)]
pub(crate) fn returns_to(
    settings: &CombSettings,
    reply: Option<Reply>,
    next: &mut CombState,
) -> Result<(), AllocError>
    ensures { OnOk result (next.new ≡ returns_to settings.now reply next.old) }
{
    let Some(reply) = reply else {
        return Ok(());
    };
    match first_waiting(&next.wait, reply.tag) {
        None => sent_back(settings, reply, next),
        Some(i) => splits(settings, reply, i, next),
    }
}

/// Where each reply comes only from a side that may send, every reply that comes or is made stands in the queue of its
/// processor one cycle later: none is lost, at depths no greater than a queue has places.
pub fn replies_are_kept()
    ensures { RepliesAreKept }
{}

/// The entry at that index goes: its first request is answered the word, its second what the first operation leaves
/// of it.
fn splits(
    settings: &CombSettings,
    reply: Reply,
    index: usize,
    next: &mut CombState,
) -> Result<(), AllocError>
    requires { index < length next.old.wait.items }
    ensures { OnOk result (next.new ≡ splits settings.now reply (Some index) next.old) }
{
    let waiting = next.wait.remove(index);
    let first = Reply {
        tag: waiting.first,
        word: reply.word,
    };
    let second = Reply {
        tag: waiting.second,
        word: waiting.op.apply(reply.word),
    };
    sent_back(settings, first, next)?;
    sent_back(settings, second, next)
}

/// A reply goes into the queue of its processor.
fn sent_back(settings: &CombSettings, reply: Reply, next: &mut CombState) -> Result<(), AllocError>
    ensures { OnOk result (next.new ≡ sent_back settings.now reply next.old) }
{
    let input = bit_of(reply.tag.proc, settings.bit) as usize;
    next.rev[input].push(reply)
}
