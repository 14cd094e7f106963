//! Messages written as words, where there is room for them.
ghost use Rattle.std.specs.Prelude.{◌≡◌, ℕ, ◌+◌, ◌*◌, ◌≤◌, ◌++◌, ◌∷◌, List, [], length, vec_len, vec_capacity, is_some};
ghost use Rattle.state_words.specs.Words.{one_if, size_at, ports_words, option_words};
ghost use Rattle.state_words.specs.Messages.{message_words};

use crate::TwoWords;
use omega_net::Queue;

/// Appends a word.
pub(crate) fn write_word(words: &mut Vec<u64>, word: u64)
    requires { vec_len words.old + 1 ≤ vec_capacity words.old }
    ensures items { (rest : List ℕ) → words.new.items ++ rest ≡ words.old.items ++ word ∷ rest }
    ensures len { vec_len words.new ≡ vec_len words.old + 1 }
    ensures capacity { vec_capacity words.new ≡ vec_capacity words.old }
{
    words.push_reserved(word);
}

/// Appends a message.
fn write<T: TwoWords>(words: &mut Vec<u64>, message: &T)
    requires { vec_len words.old + 2 ≤ vec_capacity words.old }
    ensures items { (rest : List ℕ) → words.new.items ++ rest ≡ words.old.items ++ T.first message.now ∷ T.second message.now ∷ rest }
    ensures len { vec_len words.new ≡ vec_len words.old + 2 }
    ensures capacity { vec_capacity words.new ≡ vec_capacity words.old }
{
    words.push_reserved(message.first());
    words.push_reserved(message.second());
}

/// Appends messages in their order, two words each.
pub fn write_messages<T: TwoWords>(words: &mut Vec<u64>, messages: &[T])
    requires { vec_len words.old + 2 * length messages.now ≤ vec_capacity words.old }
    ensures items { (rest : List ℕ) → words.new.items ++ rest ≡ words.old.items ++ message_words T.first T.second messages.now rest }
    ensures len { vec_len words.new ≡ vec_len words.old + 2 * length messages.now }
    ensures capacity { vec_capacity words.new ≡ vec_capacity words.old }
{
    for i in 0..messages.len() {
        write(words, &messages[i]);
    }
}

/// Appends the messages of two ports.
pub(crate) fn write_ports<T: TwoWords>(words: &mut Vec<u64>, queues: &[Queue<T>; 2])
    requires { vec_len words.old + 2 * (size_at queues.now 0 + size_at queues.now 1) ≤ vec_capacity words.old }
    ensures items { (rest : List ℕ) → words.new.items ++ rest ≡ words.old.items ++ ports_words T.first T.second queues.now rest }
    ensures len { vec_len words.new ≡ vec_len words.old + 2 * (size_at queues.now 0 + size_at queues.now 1) }
    ensures capacity { vec_capacity words.new ≡ vec_capacity words.old }
{
    write_messages(words, queues[0].as_slice());
    write_messages(words, queues[1].as_slice());
}

/// Appends a message that is there, or nothing.
pub(crate) fn write_option<T: TwoWords>(words: &mut Vec<u64>, message: &Option<T>)
    requires { vec_len words.old + 2 * one_if (is_some message.now) ≤ vec_capacity words.old }
    ensures items { (rest : List ℕ) → words.new.items ++ rest ≡ words.old.items ++ option_words T.first T.second message.now rest }
    ensures len { vec_len words.new ≡ vec_len words.old + 2 * one_if (is_some message.now) }
    ensures capacity { vec_capacity words.new ≡ vec_capacity words.old }
{
    match message {
        Some(message) => write(words, message),
        None => {}
    }
}
