//! Messages read out of words.
ghost use Rattle.std.specs.Prelude.{◌≡◌, ◌≤◌, drop, slice_index, IfOk};
ghost use Rattle.omega_net.specs.Limits.{queue_places};
ghost use Rattle.state_words.specs.Reading.{messages_from, after, queue_from, queues_from, option_from, after_option};

use crate::TwoWords;
use omega_net::Queue;
use std::alloc::{AllocError, Global};

/// The head, the first of these words, 0 where there is none, and what follows it.
pub fn split_first(words: &[u64]) -> (u64, &[u64])
    ensures first { result.0 ≡ slice_index words.now 0 }
    ensures rest { result.1.now ≡ drop 1 words.now }
{
    match words {
        [first, rest @ ..] => (*first, rest),
        [] => (0, &[]),
    }
}

/// The first two words, 0 where there are none, and what follows them.
fn two_words(words: &[u64]) -> (u64, u64, &[u64])
    ensures first { result.0 ≡ slice_index words.now 0 }
    ensures second { result.1 ≡ slice_index words.now 1 }
    ensures rest { result.2.now ≡ drop 2 words.now }
{
    match words {
        [first, second, rest @ ..] => (*first, *second, rest),
        [first] => (*first, 0, &[]),
        [] => (0, 0, &[]),
    }
}

/// A queue of so many messages, and what follows them.
pub(crate) fn read_queue<T: TwoWords>(
    alloc: Global,
    words: &[u64],
    count: usize,
) -> Result<(Queue<T>, &[u64]), AllocError>
    requires { count ≤ queue_places }
    ensures queue { IfOk result (λ read. read.0 ≡ queue_from T.from count words.now) }
    ensures rest { IfOk result (λ read. read.1.now ≡ after count words.now) }
{
    let none: &[T] = &[];
    let mut queue = Queue::holding(alloc, none, count)?;
    let mut rest = words;
    for _i in 0..count {
        let (first, second, others) = two_words(rest);
        queue.push(T::from_words(first, second))?;
        rest = others;
    }
    Ok((queue, rest))
}

/// The queues of two ports, and what follows them.
pub(crate) fn read_ports<T: TwoWords>(
    alloc: Global,
    words: &[u64],
    first: usize,
    second: usize,
) -> Result<([Queue<T>; 2], &[u64]), AllocError>
    requires first { first ≤ queue_places }
    requires second { second ≤ queue_places }
    ensures queues { IfOk result (λ read. read.0 ≡ queues_from T.from first second words.now) }
    ensures rest { IfOk result (λ read. read.1.now ≡ after second (after first words.now)) }
{
    let (one, rest) = read_queue(alloc, words, first)?;
    let (other, rest) = read_queue(alloc, rest, second)?;
    Ok(([one, other], rest))
}

/// A message that is there, or isn't, and what follows it.
pub(crate) fn read_option<T: TwoWords>(words: &[u64], there: bool) -> (Option<T>, &[u64])
    ensures message { result.0 ≡ option_from T.from there words.now }
    ensures rest { result.1.now ≡ after_option there words.now }
{
    if there {
        let (first, second, rest) = two_words(words);
        (Some(T::from_words(first, second)), rest)
    } else {
        (None, words)
    }
}
