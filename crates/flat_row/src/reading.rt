//! Words read: the fields of a head, the messages of a queue, and a processor.
ghost use Rattle.std.specs.Prelude.{◌≡◌, ◌<◌, ◌≤◌, ◌/◌, ◌%◌, ◌^◌, drop, slice_index};
ghost use Rattle.omega_net.specs.Limits.{queue_places};
ghost use Rattle.state_words.specs.Reading.{after, after_option, count_in, mark_in, option_from, proc_from, queue_from};

use crate::queue::Places;
use omega_net::QUEUE_PLACES;
use ref_proc::ProcState;
use state_words::TwoWords;

/// The first word, 0 where there is none, and what follows it.
pub(crate) fn split_first(words: &[u64]) -> (u64, &[u64])
    ensures first { result.0 ≡ slice_index words.now 0 }
    ensures rest { result.1.now ≡ drop 1 words.now }
{
    match words {
        [first, rest @ ..] => (*first, rest),
        [] => (0, &[]),
    }
}

/// The first two words, 0 where there are none, and what follows them.
fn two_words(words: &[u64]) -> (u64, u64, &[u64])
    ensures first { result.0 ≡ slice_index words.now 0 }
    ensures second { result.1 ≡ slice_index words.now 1 }
    ensures rest { result.2.now ≡ drop 2 words.now }
{
    match words {
        [first, second, rest @ ..] => (*first, *second, rest),
        [first] => (*first, 0, &[]),
        [] => (0, 0, &[]),
    }
}

/// The length of a queue, of the lowest five bits.
pub(crate) fn count_in(part: u64) -> usize
    ensures value { result ≡ count_in part }
    ensures fits { result ≤ queue_places }
{
    ((part % 32) as usize).min(QUEUE_PLACES)
}

/// Whether the lowest bit is 1.
pub(crate) fn mark_in(part: u64) -> bool
    ensures { result ≡ mark_in part }
{
    part % 2 == 1
}

/// The lowest 8 bits.
pub(crate) fn byte(word: u64) -> u8
    ensures { result ≡ word % 2 ^ 8 }
{
    (word % 256) as u8
}

/// The lowest 32 bits.
fn low(word: u64) -> u32
    ensures { result ≡ word % 2 ^ 32 }
{
    (word % 4_294_967_296) as u32
}

/// Puts the messages that so many pairs of words are in the place of those that wait, and gives the words after them.
pub(crate) fn fill<'a, T: TwoWords + Copy + Default>(
    queue: &mut Places<T>,
    words: &'a [u64],
    count: usize,
) -> &'a [u64]
    requires { count ≤ queue_places }
    ensures queue { queue.new ≡ queue_from T.from count words.now }
    ensures rest { result.now ≡ after count words.now }
{
    queue.clear();
    let mut rest = words;
    for _i in 0..count {
        let (first, second, others) = two_words(rest);
        queue.join(T::from_words(first, second));
        rest = others;
    }
    rest
}

/// A message that is there, or isn't, and what follows it.
fn read_option<T: TwoWords>(words: &[u64], there: bool) -> (Option<T>, &[u64])
    ensures message { result.0 ≡ option_from T.from there words.now }
    ensures rest { result.1.now ≡ after_option there words.now }
{
    if there {
        let (first, second, rest) = two_words(words);
        (Some(T::from_words(first, second)), rest)
    } else {
        (None, words)
    }
}

/// The processor of a head and what follows it.
pub(crate) fn read_proc(head: u64, words: &[u64]) -> ProcState
    ensures { result ≡ proc_from head words.now }
{
    let (counts, rest) = split_first(words);
    let (out, rest) = read_option(rest, mark_in(head >> 2));
    let (from_low, rest) = read_option(rest, mark_in(head >> 3));
    let (from_comb, _) = read_option(rest, mark_in(head >> 4));
    ProcState {
        index: ((head >> 6) % 65_536) as u16,
        spent: low(counts),
        issued: (counts >> 32) as u32,
        pending: low(head >> 22),
        out,
        got: [from_low, from_comb],
        sent: mark_in(head >> 5),
    }
}
