//! A queue whose places lie in the value itself.
ghost use Rattle.std.specs.Prelude.{◌≡◌, ℕ, ◌+◌, ◌<◌, ◌≤◌, ◌++◌, [], length, option_to_list, remove, slice_set, slice_index_or, take, IsSome, Some, true};
ghost use Rattle.omega_net.specs.Limits.{queue_places};
ghost use Rattle.omega_net.specs.Queues.{head, without_head, joined};

use omega_net::QUEUE_PLACES;
use std::marker::Model;

/// Messages that wait in turn, the one that has waited longest first. All places are there from the start, so no change takes
/// memory, and those of several queues lie one behind another.
#[derive(Drop)]
pub struct Places<T> {
    len: u32,
    messages: [T; QUEUE_PLACES],
}

impl<T> Model for Places<T> {
    ghost use Rattle.std.specs.Prelude.{◌≡◌, ◌≤◌, length, take};
    ghost use Rattle.arrayvec.specs.ArrayVec.{ArrayVec as Items};
    ghost use Rattle.omega_net.specs.Limits.{queue_places};

    ghost Value = { Items T };

    ghost view = { λ q. record { items = take q.len q.messages } };

    ghost invariant = { λ q. (q.len ≤ queue_places) × (length q.messages ≡ queue_places) };
}

impl<T: Copy + Default> Places<T> {
    /// A queue in which nothing waits.
    pub fn new() -> Places<T>
        ensures { result.items ≡ [] }
    {
        Places {
            len: 0,
            messages: [T::default(); QUEUE_PLACES],
        }
    }

    /// The messages, the first of which has waited longest.
    pub fn as_slice(&self) -> &[T]
        ensures value { result.now ≡ self.now.items }
        ensures fits { length result.now ≤ queue_places }
    {
        &self.messages[..self.len as usize]
    }

    /// Takes the head out.
    pub fn take_head(&mut self) -> T
        requires { IsSome (head self.old) }
        ensures value { head self.old ≡ Some result }
        ensures after { self.new ≡ without_head true self.old }
    {
        self.remove(0)
    }

    /// Puts a message last, where there is a place.
    pub fn join(&mut self, message: T)
        ensures { self.new ≡ joined self.old (Some message) }
    {
        let len = self.len as usize;
        if len < QUEUE_PLACES {
            self.messages[len] = message;
            self.len += 1;
        }
    }

    /// Takes all messages out.
    pub fn clear(&mut self)
        ensures { self.new.items ≡ [] }
    {
        self.len = 0;
    }

    /// Puts these messages in the place of those that wait.
    pub fn copy(&mut self, messages: &[T])
        requires { length messages.now ≤ queue_places }
        ensures { self.new ≡ record { items = messages.now } }
    {
        self.messages[..messages.len()].copy_from_slice(messages);
        self.len = messages.len() as u32;
    }

    /// Puts one message, or none, in the place of those that wait.
    pub fn hold(&mut self, message: Option<T>)
        ensures { self.new.items ≡ option_to_list message }
    {
        self.clear();
        if let Some(message) = message {
            self.join(message);
        }
    }

    /// Takes out a message.
    #[tactic(auto, using(crate::proofs::Shifting::within_take))]
    pub fn remove(&mut self, index: usize) -> T
        requires { index < length self.old.items }
        ensures value { result ≡ slice_index_or self.old.items index result }
        ensures after { self.new ≡ record { items = remove self.old.items index } }
    {
        let message = self.as_slice()[index];
        let last = self.len as usize - 1;
        move_down(&mut self.messages, index, last);
        self.len -= 1;
        message
    }

    /// Puts another message in the place of one.
    #[tactic(auto, using(crate::proofs::Shifting::within_take, crate::proofs::Shifting::set_in_take))]
    pub fn set(&mut self, index: usize, message: T)
        requires { index < length self.old.items }
        ensures { self.new ≡ record { items = slice_set self.old.items index message } }
    {
        let places: &mut [T] = &mut self.messages;
        places[index] = message;
    }
}

/// Moves what is behind a place down by one, up to the last place.
fn move_down<T: Copy>(messages: &mut [T], from: usize, last: usize)
    requires order { from ≤ last }
    requires there { last < length messages.old }
    ensures len { length messages.new ≡ length messages.old }
    ensures moved { take last messages.new ≡ remove (take (last + 1) messages.old) from }
{
    for i in from..last {
        messages[i] = messages[i + 1];
    }
}
