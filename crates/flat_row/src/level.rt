//! The queues of a level of a network: one for each label.
ghost use Rattle.std.specs.Prelude.{◌≡◌, ℕ, ◌<◌, ◌≤◌, length, option_to_list, replicate, slice_set, IfOk, IsSome, Some, true, []};
ghost use Rattle.std.specs.Mem.{FitsInMemory};
ghost use Rattle.flat_row.specs.contracts.queue.Places.{the_row};
ghost use Rattle.omega_net.specs.Ports.{queue_at, empty};
ghost use Rattle.omega_net.specs.Limits.{queue_places};
ghost use Rattle.omega_net.specs.Queues.{head, without_head, joined};
ghost use Rattle.flat_row.specs.Masks.{has, IsSetOf};
ghost use Rattle.state_words.specs.Reading.{after, queue_from};
ghost use Rattle.flat_row.specs.Queues.{AreMarked, shown_of, shown_at, asks_one, with_queue};

use crate::bits::has;
use crate::marks::{Marks, Routed, Rule, shown_by, with_shown};
use crate::queue::Places;
use crate::reading::fill;
use state_words::TwoWords;
use std::alloc::{AllocError, Global};
use std::marker::Model;

/// The queues of a level, by label, and the marks of what they show. The functions that change a queue keep the marks.
#[derive(Drop)]
pub struct Level<T: Routed> {
    queues: Vec<Places<T>>,
    rule: Rule,
    marks: Marks,
}

impl<T: Routed> Model for Level<T> {
    ghost use Rattle.flat_row.specs.Queues.{Queues, queues_code, AreMarked};

    ghost Value = { Queues T };

    ghost coded = { queues_code T.code };

    ghost view = { λ l. record { queues = l.queues.items; rule = l.rule } };

    ghost invariant = { λ l. AreMarked T.route l.rule l.queues.items l.marks };
}

impl<T: Routed> Level<T> {
    /// Queues in which nothing waits.
    ///
    /// # Errors
    ///
    /// Where a growth was refused. What was taken is given back.
    pub fn new(alloc: Global, lines: u32, rule: Rule) -> Result<Level<T>, AllocError>
        requires there { lines ≤ 64 }
        requires fits { FitsInMemory (the_row T.row) }
        ensures { IfOk result (λ l. l ≡ record { queues = replicate lines empty; rule = rule }) }
    {
        let queues = empty_queues(alloc, lines)?;
        let marks = empty_marks::<T>(rule);
        Ok(Level {
            queues,
            rule,
            marks,
        })
    }

    /// What all queues show, by label.
    pub fn marks(&self) -> Marks
        ensures { (x : ℕ) → x < 64 → shown_at result x ≡ shown_of T.route self.now.rule (queue_at self.now.queues x).items }
    {
        self.marks
    }

    /// Whether no message waits in any queue.
    pub(crate) fn is_blank(&self) -> bool
        ensures { result ≡ true → (x : ℕ) → queue_at self.now.queues x ≡ empty }
    {
        self.marks.any == 0
    }

    /// The messages of a queue, the first of which has waited longest.
    pub fn messages(&self, x: u32) -> &[T]
        requires there { x < length self.now.queues }
        requires fits { FitsInMemory (the_row T.row) }
        ensures value { result.now ≡ (queue_at self.now.queues x).items }
        ensures fits { length result.now ≤ queue_places }
    {
        if !has(self.marks.any, x) {
            // Its places aren't looked at.
            return &[];
        }
        self.queues[x as usize].as_slice()
    }

    /// Takes the head out of a queue.
    pub fn take(&mut self, x: u32) -> T
        requires there { x < length self.old.queues }
        requires some { IsSome (head (queue_at self.old.queues x)) }
        requires fits { FitsInMemory (the_row T.row) }
        ensures value { head (queue_at self.old.queues x) ≡ Some result }
        ensures after { self.new ≡ with_queue self.old x (without_head true (queue_at self.old.queues x)) }
    {
        let queue = &mut self.queues[x as usize];
        let message = queue.take_head();
        let shown = shown_by(self.rule, queue.as_slice());
        self.marks = with_shown(self.marks, x, shown);
        message
    }

    /// Puts a message last into a queue, where there is a place.
    pub fn give(&mut self, x: u32, message: T)
        requires there { x < length self.old.queues }
        requires fits { FitsInMemory (the_row T.row) }
        ensures { self.new ≡ with_queue self.old x (joined (queue_at self.old.queues x) (Some message)) }
    {
        let queue = &mut self.queues[x as usize];
        queue.join(message);
        let shown = shown_by(self.rule, queue.as_slice());
        self.marks = with_shown(self.marks, x, shown);
    }

    /// Puts one message, or none, in the place of a queue's.
    pub fn hold(&mut self, x: u32, message: Option<T>)
        requires there { x < length self.old.queues }
        requires fits { FitsInMemory (the_row T.row) }
        ensures { self.new ≡ with_queue self.old x (record { items = option_to_list message }) }
    {
        let queue = &mut self.queues[x as usize];
        if message.is_none() && queue.as_slice().is_empty() {
            // What an empty queue shows is marked.
            return;
        }
        queue.hold(message);
        let shown = shown_by(self.rule, queue.as_slice());
        self.marks = with_shown(self.marks, x, shown);
    }

    /// Asks the same queues by another rule.
    pub fn follow(&mut self, rule: Rule)
        requires fits { FitsInMemory (the_row T.row) }
        ensures { self.new ≡ record self.old { rule = rule } }
    {
        if rule != self.rule {
            self.marks = marks_of(rule, &self.queues);
            self.rule = rule;
        }
    }

    /// Puts these messages in the place of a queue's.
    pub fn copy(&mut self, x: u32, messages: &[T])
        requires there { x < length self.old.queues }
        requires few { length messages.now ≤ queue_places }
        requires fits { FitsInMemory (the_row T.row) }
        ensures { self.new ≡ with_queue self.old x (record { items = messages.now }) }
    {
        let queue = &mut self.queues[x as usize];
        if messages.is_empty() && queue.as_slice().is_empty() {
            // What an empty queue shows is marked.
            return;
        }
        queue.copy(messages);
        let shown = shown_by(self.rule, queue.as_slice());
        self.marks = with_shown(self.marks, x, shown);
    }

    /// Puts another message in the place of one.
    pub fn set(&mut self, x: u32, index: usize, message: T)
        requires there { x < length self.old.queues }
        requires index { index < length (queue_at self.old.queues x).items }
        requires fits { FitsInMemory (the_row T.row) }
        ensures { self.new ≡ with_queue self.old x (record { items = slice_set (queue_at self.old.queues x).items index message }) }
    {
        let queue = &mut self.queues[x as usize];
        queue.set(index, message);
        let shown = shown_by(self.rule, queue.as_slice());
        self.marks = with_shown(self.marks, x, shown);
    }
}

impl<T: Routed + TwoWords> Level<T> {
    /// Puts the messages that so many pairs of words are in the place of a queue's, and gives the words after them.
    pub fn put<'a>(&mut self, x: u32, words: &'a [u64], count: usize) -> &'a [u64]
        requires there { x < length self.old.queues }
        requires few { count ≤ queue_places }
        requires fits { FitsInMemory (the_row T.row) }
        ensures after { self.new ≡ with_queue self.old x (queue_from T.from count words.now) }
        ensures rest { result.now ≡ after count words.now }
    {
        let queue = &mut self.queues[x as usize];
        if count == 0 && queue.as_slice().is_empty() {
            // What an empty queue shows is marked.
            return words;
        }
        let rest = fill(queue, words, count);
        let shown = shown_by(self.rule, queue.as_slice());
        self.marks = with_shown(self.marks, x, shown);
        rest
    }
}

/// So many queues in which nothing waits.
pub(crate) fn empty_queues<T>(alloc: Global, lines: u32) -> Result<Vec<Places<T>>, AllocError>
where
    T: Copy + Default,
    ensures { IfOk result (λ queues. queues.items ≡ replicate lines empty) }
{
    let mut queues = Vec::with_capacity(alloc, lines as usize)?;
    for _x in 0..lines {
        match queues.push(Places::new()) {
            Ok(()) => {}
            Err(_) => return Err(AllocError),
        }
    }
    Ok(queues)
}

/// What empty queues show, by label.
fn empty_marks<T: Routed>(rule: Rule) -> Marks
    ensures { (x : ℕ) → x < 64 → shown_at result x ≡ shown_of T.route rule [] }
{
    let none: &[T] = &[];
    let shown = shown_by(rule, none);
    Marks {
        any: all_or_none(shown.any),
        asks: all_or_none(shown.asks),
        two: all_or_none(shown.two),
        one: all_or_none(shown.one),
    }
}

/// What these queues show, by label; a label without one shows what an empty queue does.
fn marks_of<T: Routed>(rule: Rule, queues: &[Places<T>]) -> Marks
    requires { length queues.now ≤ 64 }
    ensures { AreMarked T.route rule queues.now result }
{
    let mut marks = empty_marks::<T>(rule);
    for x in 0..queues.len() {
        let shown = shown_by(rule, queues[x].as_slice());
        marks = with_shown(marks, x as u32, shown);
    }
    marks
}

/// All labels, or none.
fn all_or_none(mark: bool) -> u64
    ensures { IsSetOf (λ x. mark) result }
{
    if mark { u64::MAX } else { 0 }
}
