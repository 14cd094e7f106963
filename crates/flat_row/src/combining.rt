//! Requests that combine at the switches of a stage, and replies that split there.
ghost use Rattle.std.specs.Prelude.{◌≡◌, ℕ, ◌+◌, ◌<◌, if◌then◌else◌, length, position, IfSome, Some, None};
ghost use Rattle.omega_net.specs.Ports.{queue_at, same_tag};
ghost use Rattle.std.specs.List.{list_any};
ghost use Rattle.word_ops.specs.Words.{then_op};
ghost use Rattle.comb_switch.specs.CombSwitch.{youngest_for, combines, last_in, combined_in, meets, arrives, sent_back, splits, returns_to};
ghost use Rattle.flat_row.specs.Labels.{port};
ghost use Rattle.flat_row.specs.Row.{combined_of, wait_of};
ghost use Rattle.flat_row.specs.Combining.{HasPlaces, IsFirstPort, IsQueuedAt, meeting, splitting, OnlyAt, SameLevel};

use crate::level::Level;
use crate::moving::port_of;
use crate::waits::Waits;
use comb_switch::{CombSettings, Waiting};
use omega_net::{Reply, Request, Tag, bit_of};
use page_map::Place;
use word_ops::Op;

/// A request arrives at the switch of label x.
#[inline(always)]
pub(crate) fn arrives(
    level: &mut Level<Request>,
    waits: &mut Waits,
    settings: &CombSettings,
    x: u32,
    request: Request,
)
    requires port { IsFirstPort settings.now.bit x }
    requires places { HasPlaces settings.now.bit x level.old waits.old }
    requires few { combined_of waits.old x < 2 }
    ensures shape { SameLevel level.old level.new }
    ensures met { meeting settings.now.bit (queue_at level.new.queues) waits.new x ≡ arrives settings.now (Some request) (meeting settings.now.bit (queue_at level.old.queues) waits.old x) }
    ensures only { OnlyAt settings.now.bit x (queue_at level.old.queues) (queue_at level.new.queues) waits.old waits.new }
{
    let output = bit_of(request.place.module, settings.bit);
    let y = port_of(settings.bit, x, output);
    match youngest_for(request.place, level.messages(y)) {
        Some(index) => meets(level, waits, settings, x, output, index, request),
        None => last_in(level, waits, settings, x, output, request),
    }
}

/// A request meets the one at that index of an output queue: they combine, or it goes last into the queue.
#[inline(always)]
fn meets(
    level: &mut Level<Request>,
    waits: &mut Waits,
    settings: &CombSettings,
    x: u32,
    output: u8,
    index: usize,
    request: Request,
)
    requires port { IsFirstPort settings.now.bit x }
    requires places { HasPlaces settings.now.bit x level.old waits.old }
    requires at { IsQueuedAt settings.now.bit output x index level.old }
    requires few { combined_of waits.old x < 2 }
    ensures shape { SameLevel level.old level.new }
    ensures met { meeting settings.now.bit (queue_at level.new.queues) waits.new x ≡ meets settings.now request output (Some index) (meeting settings.now.bit (queue_at level.old.queues) waits.old x) }
    ensures only { OnlyAt settings.now.bit x (queue_at level.old.queues) (queue_at level.new.queues) waits.old waits.new }
{
    let y = port_of(settings.bit, x, output);
    let queued = level.messages(y)[index];
    match joint_op(settings, waits.at(x), &queued, &request) {
        Some(op) => combined_in(
            level, waits, settings, x, output, index, queued, op, request,
        ),
        None => last_in(level, waits, settings, x, output, request),
    }
}

/// A request goes last into an output queue.
#[inline(always)]
fn last_in(
    level: &mut Level<Request>,
    waits: &Waits,
    settings: &CombSettings,
    x: u32,
    output: u8,
    request: Request,
)
    requires port { IsFirstPort settings.now.bit x }
    requires output { output < 2 }
    requires ports { (i : ℕ) → i < 2 → port settings.now.bit i x < length level.old.queues }
    ensures shape { SameLevel level.old level.new }
    ensures met { meeting settings.now.bit (queue_at level.new.queues) waits.now x ≡ last_in request output (meeting settings.now.bit (queue_at level.old.queues) waits.now x) }
    ensures only { OnlyAt settings.now.bit x (queue_at level.old.queues) (queue_at level.new.queues) waits.now waits.now }
{
    let y = port_of(settings.bit, x, output);
    level.give(y, request);
}

/// A request combines into the one at that index of an output queue, by the operation that does both.
#[inline(always)]
fn combined_in(
    level: &mut Level<Request>,
    waits: &mut Waits,
    settings: &CombSettings,
    x: u32,
    output: u8,
    index: usize,
    queued: Request,
    op: Op,
    request: Request,
)
    requires port { IsFirstPort settings.now.bit x }
    requires places { HasPlaces settings.now.bit x level.old waits.old }
    requires at { IsQueuedAt settings.now.bit output x index level.old }
    requires does_both { Some op ≡ then_op queued.op request.op }
    requires few { combined_of waits.old x < 2 }
    ensures shape { SameLevel level.old level.new }
    ensures met { meeting settings.now.bit (queue_at level.new.queues) waits.new x ≡ combined_in request output index queued (meeting settings.now.bit (queue_at level.old.queues) waits.old x) }
    ensures only { OnlyAt settings.now.bit x (queue_at level.old.queues) (queue_at level.new.queues) waits.old waits.new }
{
    let y = port_of(settings.bit, x, output);
    level.set(y, index, Request { op, ..queued });
    waits.join(
        x,
        Waiting {
            first: queued.tag,
            op: queued.op,
            second: request.tag,
        },
    );
    waits.count(x);
}

/// The index of the youngest request for a place, which is the last.
fn youngest_for(place: Place, requests: &[Request]) -> Option<usize>
    ensures index { result ≡ youngest_for place requests.now }
    ensures within { IfSome result (λ i. i < length requests.now) }
{
    match requests {
        [] => None,
        [first, later @ ..] => match youngest_for(place, later) {
            Some(i) => Some(i + 1),
            None if first.place == place => Some(0),
            None => None,
        },
    }
}

/// The operation that does the request that waits and then the other one, if that one combines into it.
#[inline(always)]
fn joint_op(
    settings: &CombSettings,
    wait: &[Waiting],
    queued: &Request,
    request: &Request,
) -> Option<Op>
    ensures { result ≡ (if combines settings.now (record { items = wait.now }) queued.now request.now then then_op queued.now.op request.now.op else None) }
{
    let op = queued.op.then(request.op)?;
    let room = (wait.len() as u64) < u64::from(settings.wait);
    if settings.combine && room && !is_first(wait, queued.tag) {
        Some(op)
    } else {
        None
    }
}

/// Whether an entry waits for that tag.
#[inline(always)]
fn is_first(wait: &[Waiting], tag: Tag) -> bool
    ensures { result ≡ list_any (λ w. same_tag w.first tag) wait.now }
{
    wait.iter().any(|w| w.first == tag)
}

/// A reply comes to the switch of label x: it takes out the first entry that waits for its tag and becomes two, or goes on as it is.
#[inline(always)]
pub(crate) fn returns_to(
    level: &mut Level<Reply>,
    waits: &mut Waits,
    settings: &CombSettings,
    x: u32,
    reply: Reply,
)
    requires port { IsFirstPort settings.now.bit x }
    requires places { HasPlaces settings.now.bit x level.old waits.old }
    ensures shape { SameLevel level.old level.new }
    ensures met { splitting settings.now.bit (queue_at level.new.queues) waits.new x ≡ returns_to settings.now (Some reply) (splitting settings.now.bit (queue_at level.old.queues) waits.old x) }
    ensures only { OnlyAt settings.now.bit x (queue_at level.old.queues) (queue_at level.new.queues) waits.old waits.new }
{
    match first_waiting(waits.at(x), reply.tag) {
        Some(index) => splits(level, waits, settings, x, index, reply),
        None => sent_back(level, waits, settings, x, reply),
    }
}

/// The entry at that index goes: its first request is answered the word, its second what the first operation leaves of it.
#[inline(always)]
fn splits(
    level: &mut Level<Reply>,
    waits: &mut Waits,
    settings: &CombSettings,
    x: u32,
    index: usize,
    reply: Reply,
)
    requires port { IsFirstPort settings.now.bit x }
    requires places { HasPlaces settings.now.bit x level.old waits.old }
    requires index { index < length (wait_of waits.old x).items }
    ensures shape { SameLevel level.old level.new }
    ensures met { splitting settings.now.bit (queue_at level.new.queues) waits.new x ≡ splits settings.now reply (Some index) (splitting settings.now.bit (queue_at level.old.queues) waits.old x) }
    ensures only { OnlyAt settings.now.bit x (queue_at level.old.queues) (queue_at level.new.queues) waits.old waits.new }
{
    let waiting = waits.remove(x, index);
    let first = Reply {
        tag: waiting.first,
        word: reply.word,
    };
    let second = Reply {
        tag: waiting.second,
        word: waiting.op.apply(reply.word),
    };
    sent_back(level, waits, settings, x, first);
    sent_back(level, waits, settings, x, second);
}

/// A reply goes last into the queue of its processor.
#[inline(always)]
fn sent_back(level: &mut Level<Reply>, waits: &Waits, settings: &CombSettings, x: u32, reply: Reply)
    requires port { IsFirstPort settings.now.bit x }
    requires ports { (i : ℕ) → i < 2 → port settings.now.bit i x < length level.old.queues }
    ensures shape { SameLevel level.old level.new }
    ensures met { splitting settings.now.bit (queue_at level.new.queues) waits.now x ≡ sent_back settings.now reply (splitting settings.now.bit (queue_at level.old.queues) waits.now x) }
    ensures only { OnlyAt settings.now.bit x (queue_at level.old.queues) (queue_at level.new.queues) waits.now waits.now }
{
    let input = bit_of(reply.tag.proc, settings.bit);
    let y = port_of(settings.bit, x, input);
    level.give(y, reply);
}

/// The index of the first entry that waits for that tag.
#[inline(always)]
fn first_waiting(wait: &[Waiting], tag: Tag) -> Option<usize>
    ensures index { result ≡ position (λ w. same_tag w.first tag) wait.now }
    ensures within { IfSome result (λ i. i < length wait.now) }
{
    wait.iter().position(|w| w.first == tag)
}
