//! Messages that wait.
ghost use Rattle.std.specs.Prelude.{◌≡◌, ◌<◌, ◌≤◌, [], length, remove, slice_set, slice_index_or, ◌==◌, IfOk, OnErr, OnOk, Some};
ghost use Rattle.std.specs.Cmp.{on_equiv, on_per};
ghost use Rattle.std.specs.Cmp.Lexicographic.{pointwise, lists_per, lists_equiv};
ghost use Rattle.omega_net.specs.Limits.{queue_places};
ghost use Rattle.omega_net.specs.Queues.{joined};

use std::alloc::{AllocError, Global};
use std::marker::Model;
use std::ops::DerefSlice;

/// How many messages a queue can hold, whatever depth its machine gives it.
pub const QUEUE_PLACES: usize = 16;

/// Messages that wait in turn, the one that has waited longest first: at most [`QUEUE_PLACES`]. An empty queue takes no
/// memory.
#[derive(Debug, Drop)]
pub struct Queue<T> {
    messages: Vec<T>,
}

impl<T> Model for Queue<T> {
    ghost use Rattle.std.specs.Prelude.{◌≤◌, length};
    ghost use Rattle.arrayvec.specs.ArrayVec.{ArrayVec as Items};
    ghost use Rattle.omega_net.specs.Limits.{queue_places};

    ghost Value = { Items T };

    ghost view = { λ q. record { items = q.messages.items } };

    ghost invariant = { λ q. length q.messages.items ≤ queue_places };
}

impl<T> Queue<T> {
    /// A queue in which nothing waits.
    pub fn new(alloc: Global) -> Queue<T>
        ensures { result.items ≡ [] }
    {
        Queue {
            messages: Vec::new(alloc),
        }
    }

    /// How many messages wait.
    pub fn len(&self) -> usize
        ensures value { result ≡ length self.now.items }
        ensures fits { result ≤ queue_places }
    {
        self.messages.len()
    }

    /// Whether nothing waits.
    pub fn is_empty(&self) -> bool
        ensures { result ≡ (length self.now.items == 0) }
    {
        self.messages.is_empty()
    }

    /// The messages, the first of which has waited longest.
    pub fn as_slice(&self) -> &[T]
        ensures value { result.now ≡ self.now.items }
        ensures fits { length result.now ≤ queue_places }
    {
        self.messages.as_slice()
    }
}

impl<T> DerefSlice for Queue<T> {
    ghost use Rattle.std.specs.Prelude.{length};
    ghost use Rattle.omega_net.specs.Limits.{queue_places};

    type Elem = T;

    ghost deref_gives = { λ q xs. (xs ≡ q.items) × (length xs ≤ queue_places) };

    fn deref(&self) -> &[T] {
        self.as_slice()
    }
}

impl<T: Copy> Queue<T> {
    /// These messages, as many of them as a queue can hold, with room for so many more.
    ///
    /// # Errors
    ///
    /// Where the growth was refused.
    pub fn holding(alloc: Global, messages: &[T], more: usize) -> Result<Queue<T>, AllocError>
        requires { length messages.now ≤ queue_places }
        ensures { IfOk result (λ queue. queue.items ≡ messages.now) }
    {
        let mut held = Vec::with_capacity(alloc, messages.len().saturating_add(more))?;
        held.extend_from_slice(messages)?;
        Ok(Queue { messages: held })
    }

    /// Puts a message last, where there is room.
    ///
    /// # Errors
    ///
    /// Where the growth was refused. The queue is as before.
    pub fn push(&mut self, message: T) -> Result<(), AllocError>
        ensures ok { OnOk result (self.new ≡ joined self.old (Some message)) }
        ensures err { OnErr result (self.new ≡ self.old) }
    {
        if self.messages.len() < QUEUE_PLACES {
            self.messages.push(message)?;
        }
        Ok(())
    }

    /// Puts another message in the place of one.
    pub fn set(&mut self, index: usize, message: T)
        requires { index < length self.old.items }
        ensures { self.new.items ≡ slice_set self.old.items index message }
    {
        self.messages[index] = message;
    }

    /// Takes out a message.
    pub fn remove(&mut self, index: usize) -> T
        requires { index < length self.old.items }
        ensures value { result ≡ slice_index_or self.old.items index result }
        ensures items { self.new.items ≡ remove self.old.items index }
    {
        self.messages.remove(index)
    }
}

impl<T: PartialEq> PartialEq for Queue<T> {
    ghost eq = { λ v w. pointwise T.eq v.items w.items };

    ghost laws = { on_per (λ v. v.items) (lists_per T.laws) };

    fn eq(&self, other: &Queue<T>) -> bool {
        self.as_slice() == other.as_slice()
    }
}

impl<T: Eq> Eq for Queue<T> {
    ghost laws = { on_equiv (λ v. v.items) (lists_equiv T.Eq.laws) };
}
