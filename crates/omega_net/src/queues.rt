//! What components do with their queues and turns in a step.
ghost use Rattle.std.specs.Prelude.{◌≡◌, ◌↔◌, IsTrue, IfOk, OnOk};
ghost use Rattle.std.specs.Option.{option_copied};
ghost use Rattle.omega_net.specs.Queues.{free, has_room, head, joined, queue_after, turn_after, without_head};
ghost use Rattle.omega_net.specs.Kept.{NothingIsLost};
ghost use Rattle.omega_net.specs.Wires.{bit as bit_at};

use crate::{Queue, Reply, Request};
use std::alloc::{AllocError, Global};

/// Bit `bit` of a number, the lowest being bit 0.
pub fn bit_of(number: u8, bit: u32) -> u8
    ensures { result ≡ bit_at bit number }
{
    if bit < 8 { (number >> bit) % 2 } else { 0 }
}

/// The free places of a queue of this depth.
pub fn free<T>(queue: &Queue<T>, depth: u32) -> u32
    ensures { result ≡ free depth queue.now }
{
    depth.saturating_sub(queue.len() as u32)
}

/// Whether the sender of that number may send: there are two free places, or one at its turn.
pub fn has_room<T>(queue: &Queue<T>, depth: u32, turn: u8, sender: u8) -> bool
    ensures { result ≡ has_room depth queue.now turn sender }
{
    let places = free(queue, depth);
    places >= 2 || (places == 1 && turn == sender)
}

/// The head of a queue.
pub fn head<T>(queue: &Queue<T>) -> Option<&T>
    ensures { option_copied result ≡ head queue.now }
{
    queue.as_slice().first()
}

/// What a queue holds one cycle later: its head leaves where it does, and the messages that come go last.
///
/// # Errors
///
/// Where a growth was refused.
pub fn queue_after<T: Copy>(
    alloc: Global,
    queue: &Queue<T>,
    leaves: bool,
    first: Option<T>,
    second: Option<T>,
) -> Result<Queue<T>, AllocError>
    ensures { IfOk result (λ next. next ≡ queue_after leaves first second queue.now) }
{
    let coming = usize::from(first.is_some()) + usize::from(second.is_some());
    let mut next = rest_of(alloc, queue, leaves, coming)?;
    join(&mut next, first)?;
    join(&mut next, second)?;
    Ok(next)
}

/// What a queue holds after its head left, if it leaves, with room for so many more messages.
///
/// # Errors
///
/// Where the growth was refused.
pub fn rest_of<T: Copy>(
    alloc: Global,
    queue: &Queue<T>,
    leaves: bool,
    more: usize,
) -> Result<Queue<T>, AllocError>
    ensures { IfOk result (λ rest. rest ≡ without_head leaves queue.now) }
{
    match queue.as_slice() {
        [_, rest @ ..] if leaves => Queue::holding(alloc, rest, more),
        all => Queue::holding(alloc, all, more),
    }
}

/// Whether the queues of two ports hold the same requests in the same order.
pub fn same_requests(requests: &[Queue<Request>; 2], others: &[Queue<Request>; 2]) -> bool
    ensures { IsTrue result ↔ (requests.now ≡ others.now) }
{
    requests == others
}

/// Whether the queues of two ports hold the same replies in the same order.
pub fn same_replies(replies: &[Queue<Reply>; 2], others: &[Queue<Reply>; 2]) -> bool
    ensures { IsTrue result ↔ (replies.now ≡ others.now) }
{
    replies == others
}

/// Puts a message last, if one comes and there is room.
///
/// # Errors
///
/// Where the growth was refused.
pub fn join<T: Copy>(queue: &mut Queue<T>, message: Option<T>) -> Result<(), AllocError>
    ensures { OnOk result (queue.new ≡ joined queue.old message) }
{
    match message {
        Some(message) => queue.push(message),
        None => Ok(()),
    }
}

/// Where each message comes only from a sender that may send, a queue that is no deeper than it has places loses none: all that stays
/// and all that comes stand in it one cycle later.
pub fn nothing_is_lost()
    ensures { NothingIsLost }
{}

/// The turn after a step: that of the sender which nothing came from, where exactly one message came.
pub fn turn_after(turn: u8, from_0: bool, from_1: bool) -> u8
    ensures { result ≡ turn_after turn from_0 from_1 }
{
    match (from_0, from_1) {
        (true, false) => 1,
        (false, true) => 0,
        _ => turn,
    }
}
