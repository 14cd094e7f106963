//! The messages of a queue one cycle later, which nobody moves.
ghost use Rattle.std.specs.Prelude.{◌≡◌, ℕ, ◌+◌, ◌*◌, ◌^◌, ◌<◌, ◌≤◌, ◌++◌, [], All, nat_lt, if◌then◌else◌, List, length, vec_len, vec_capacity, is_some, None, OnOk, OnErr, option_to_list};
ghost use Rattle.omega_net.specs.Limits.{queue_places};
ghost use Rattle.omega_net.specs.Queues.{queue_after, without_head};
ghost use Rattle.state_words.specs.Fits.{IfThere};
ghost use Rattle.state_words.specs.Messages.{message_words};
ghost use Rattle.flat_row.specs.Next.{waiting};
ghost use Rattle.flat_row.specs.Parts.{parts_body, parts_words};

use omega_net::{QUEUE_PLACES, Reply, Request};
use state_words::{TwoWords, all_fit, queues_head, write_messages};
use std::alloc::AllocError;

/// A queue one cycle later: the messages that stay, and those that join it.
#[derive(Clone, Copy)]
pub(crate) struct After<'a, T> {
    pub(crate) stay: &'a [T],
    pub(crate) first: Option<T>,
    pub(crate) second: Option<T>,
}

/// The queue of these messages after its head left, if it leaves, and then these two came, if they come.
pub(crate) fn queue_after<'a, T: Copy>(
    messages: &'a [T],
    leaves: bool,
    first: Option<T>,
    second: Option<T>,
) -> After<'a, T>
    requires { length messages.now ≤ queue_places }
    ensures value { waiting result ≡ (queue_after leaves first second (record { items = messages.now })).items }
    ensures fits { length (waiting result) ≤ queue_places }
{
    let stay = without_head(messages, leaves);
    let stays = stay.len();
    let first = if_room(stays, first);
    let second = if_room(stays + count(&first), second);
    After {
        stay,
        first,
        second,
    }
}

/// The messages without the head, if it leaves.
pub(crate) fn without_head<'a, T>(messages: &'a [T], leaves: bool) -> &'a [T]
    requires { length messages.now ≤ queue_places }
    ensures value { result.now ≡ (without_head leaves (record { items = messages.now })).items }
    ensures fits { length result.now ≤ queue_places }
{
    match messages {
        [_, rest @ ..] if leaves => rest,
        _ => messages,
    }
}

/// The message, where so many that wait leave a place.
fn if_room<T: Copy>(waiting: usize, message: Option<T>) -> Option<T>
    ensures { result ≡ (if nat_lt waiting queue_places then message else None) }
{
    if waiting < QUEUE_PLACES {
        message
    } else {
        None
    }
}

/// How many messages that is.
fn count<T>(message: &Option<T>) -> usize
    ensures value { result ≡ length (option_to_list message.now) }
    ensures fits { result ≤ 1 }
{
    match message {
        Some(_) => 1,
        None => 0,
    }
}

impl<T: TwoWords> After<'_, T> {
    /// The numbers of the messages fit their types. Nothing is done when it runs.
    #[tactic(auto, using(crate::proofs::Waiting::waiting_fit))]
    pub(crate) fn fits(&self)
        ensures { All T.fits (waiting self.now) }
    {
        all_fit(self.stay);
        one_fits(&self.first);
        one_fits(&self.second);
    }

    /// How many messages wait.
    fn len(&self) -> usize
        requires { length (waiting self.now) ≤ queue_places }
        ensures { result ≡ length (waiting self.now) }
    {
        let first = count(&self.first);
        let second = count(&self.second);
        self.stay.len() + first + second
    }

    /// Appends the messages in their order, two words each.
    #[tactic(auto, using(crate::proofs::Waiting::words_after))]
    fn write(&self, words: &mut Vec<u64>)
        requires { vec_len words.old + 2 * length (waiting self.now) ≤ vec_capacity words.old }
        ensures items { (rest : List ℕ) → words.new.items ++ rest ≡ words.old.items ++ message_words T.first T.second (waiting self.now) rest }
        ensures len { vec_len words.new ≡ vec_len words.old + 2 * length (waiting self.now) }
        ensures capacity { vec_capacity words.new ≡ vec_capacity words.old }
    {
        write_messages(words, self.stay);
        write_one(words, &self.first);
        write_one(words, &self.second);
    }
}

/// The numbers of a message fit their types, where one is there. Nothing is done when it runs.
fn one_fits<T: TwoWords>(message: &Option<T>)
    ensures { IfThere T.fits message.now }
{
    match message {
        Some(message) => message.fits(),
        None => {}
    }
}

/// Appends a message that is there, or nothing.
fn write_one<T: TwoWords>(words: &mut Vec<u64>, message: &Option<T>)
    requires { vec_len words.old + 2 * length (option_to_list message.now) ≤ vec_capacity words.old }
    ensures items { (rest : List ℕ) → words.new.items ++ rest ≡ words.old.items ++ message_words T.first T.second (option_to_list message.now) rest }
    ensures len { vec_len words.new ≡ vec_len words.old + 2 * length (option_to_list message.now) }
    ensures capacity { vec_capacity words.new ≡ vec_capacity words.old }
{
    match message {
        Some(message) => {
            words.push_reserved(message.first());
            words.push_reserved(message.second());
        }
        None => {}
    }
}

/// Appends the words of a module or a low switch: of its kind, of the requests and the replies that wait at its ports, and of what is
/// small.
#[tactic(auto, using(crate::proofs::Encoding::parts_long))]
pub(crate) fn write_after(
    words: &mut Vec<u64>,
    kind: u64,
    first: &After<Request>,
    second: &After<Request>,
    first_back: &After<Reply>,
    second_back: &After<Reply>,
    small: u64,
) -> Result<(), AllocError>
    requires kind { kind < 4 }
    requires requests { (length (waiting first.now) ≤ queue_places) × (length (waiting second.now) ≤ queue_places) }
    requires replies { (length (waiting first_back.now) ≤ queue_places) × (length (waiting second_back.now) ≤ queue_places) }
    requires small { small < 2 ^ 32 }
    ensures ok { OnOk result (words.new.items ≡ words.old.items ++ parts_words kind (waiting first.now) (waiting second.now) (waiting first_back.now) (waiting second_back.now) [] small) }
    ensures err { OnErr result (words.new.items ≡ words.old.items) }
{
    let (a, b) = (first.len(), second.len());
    let (c, d) = (first_back.len(), second_back.len());
    words.reserve(1 + 2 * (a + b + c + d))?;
    words.push_reserved(queues_head(kind, (a, b), (c, d), 0, small));
    first.write(words);
    second.write(words);
    first_back.write(words);
    second_back.write(words);
    Ok(())
}
