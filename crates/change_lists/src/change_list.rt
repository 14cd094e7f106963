//! The changes of one component.
ghost use Rattle.std.specs.Prelude.{◌≡◌, ℕ, ◌+◌, ◌<◌, ◌≤◌, ◌^◌, ◌∷◌, ◌++◌, [], None, Some, IfSome, is_some, true, false, OnOk, cond, length, take, drop, slice_index_or, vec_len, vec_capacity, insert};
ghost use Rattle.std.specs.Option.{option_copied};
ghost use Rattle.change_lists.specs.declared.begun.Begun.{Begun as Change};
ghost use Rattle.change_lists.specs.Changes.{standing, standing_before, begins, starts, IsWritten, IsCut};

use crate::begun::{Begun, Sides, has_begin, is_at, next_begin, place, sides_at, value_at};
use std::alloc::{AllocError, Global};
use std::marker::Model;

/// The values of a component that begin, by cycle.
#[derive(Drop)]
pub(crate) struct ChangeList<V> {
    begun: Vec<Begun<V>>,
    /// Where the last one was put or went on: mostly the next cell that is looked for is beside it.
    near: usize,
}

impl<V> Model for ChangeList<V> {
    ghost use Rattle.std.specs.Prelude.{◌-◌, ◌^◌, length, vec_capacity};
    ghost use Rattle.change_lists.specs.Changes.{Changes, Rises};

    ghost Value = { Changes V };

    ghost view = { λ l. record { begun = l.begun.items; room = vec_capacity l.begun - length l.begun.items } };

    ghost invariant = { λ l. Rises 0 l.begun.items (2 ^ 32) };
}

/// One more at a place, where there is room.
fn insert_at<V: Drop>(begun: &mut Vec<Begun<V>>, i: usize, from: u32, value: Option<V>)
    requires place { i ≤ length begun.old.items }
    requires room { length begun.old.items < vec_capacity begun.old }
    ensures items { begun.new.items ≡ insert begun.old.items i (record { from = from; value = value }) }
    ensures capacity { vec_capacity begun.new ≡ vec_capacity begun.old }
{
    match begun.insert(i, Begun { from, value }) {
        Ok(()) => {}
        Err(_) => unreachable!(),
    }
}

/// One more at a place, where there is room, or none.
fn insert_if<V: Drop>(begun: &mut Vec<Begun<V>>, again: bool, i: usize, from: u32, value: Option<V>)
    requires place { i ≤ length begun.old.items }
    requires room { length begun.old.items < vec_capacity begun.old }
    ensures { begun.new.items ≡ take i begun.old.items ++ cond again ((record { from = from; value = value }) ∷ drop i begun.old.items) (drop i begun.old.items) }
{
    if again {
        insert_at(begun, i, from, value);
    }
}

/// The one at a place begins at another cycle.
fn begin_later<V>(begun: &mut Vec<Begun<V>>, i: usize, from: u32)
    requires { i < length begun.old.items }
    ensures { (d : Change V) → begun.new.items ≡ take i begun.old.items ++ (record { from = from; value = (slice_index_or begun.old.items i d).value }) ∷ drop (i + 1) begun.old.items }
{
    begun[i].from = from;
}

/// The one at a place begins at another cycle, or is removed.
fn begin_later_if<V: Drop>(begun: &mut Vec<Begun<V>>, again: bool, i: usize, from: u32)
    requires { i < length begun.old.items }
    ensures { (d : Change V) → begun.new.items ≡ take i begun.old.items ++ cond again ((record { from = from; value = (slice_index_or begun.old.items i d).value }) ∷ drop (i + 1) begun.old.items) (drop (i + 1) begun.old.items) }
{
    if again {
        begin_later(begun, i, from);
    } else {
        let _ = begun.remove(i);
    }
}

/// The one at a place is another one.
fn replace<V: Drop>(begun: &mut Vec<Begun<V>>, i: usize, from: u32, value: Option<V>)
    requires { i < length begun.old.items }
    ensures items { begun.new.items ≡ take i begun.old.items ++ (record { from = from; value = value }) ∷ drop (i + 1) begun.old.items }
    ensures capacity { vec_capacity begun.new ≡ vec_capacity begun.old }
{
    begun[i] = Begun { from, value };
}

/// A value, or nothing, begins at a place: in place of the one that begins there, if one does.
fn begin_at<V: Drop>(begun: &mut Vec<Begun<V>>, i: usize, here: bool, t: u32, value: Option<V>)
    requires place { cond here (i + 1) i ≤ length begun.old.items }
    requires room { length begun.old.items < vec_capacity begun.old }
    ensures items { begun.new.items ≡ take i begun.old.items ++ (record { from = t; value = value }) ∷ drop (cond here (i + 1) i) begun.old.items }
    ensures len { length begun.new.items ≤ length begun.old.items + 1 }
    ensures capacity { vec_capacity begun.new ≡ vec_capacity begun.old }
{
    if here {
        replace(begun, i, t, value);
    } else {
        insert_at(begun, i, t, value);
    }
}

/// A place more where one begins there.
fn behind(i: usize, here: bool) -> usize
    requires { i < 2 ^ 63 }
    ensures { result ≡ cond here (i + 1) i }
{
    if here { i + 1 } else { i }
}

/// Whether what stood goes on at a cycle, where there is one and nothing begins at it.
fn goes_on<V>(begun: &[Begun<V>], i: usize, to: u32, end: u32) -> bool
    ensures yes { result ≡ true → (to < end) × (starts (drop i begun.now) to ≡ false) }
    ensures no { result ≡ false → to < end → starts (drop i begun.now) to ≡ true }
{
    to < end && !is_at(begun, i, to)
}

impl<V: Drop> ChangeList<V> {
    pub fn new(alloc: Global) -> ChangeList<V>
        ensures { result.begun ≡ [] }
    {
        ChangeList {
            begun: Vec::new(alloc),
            near: 0,
        }
    }

    pub fn len(&self) -> usize
        ensures { result ≡ length self.now.begun }
    {
        self.begun.len()
    }

    /// The value that began last.
    pub fn at(&self, t: u32) -> Option<&V>
        ensures { option_copied result ≡ standing self.now.begun t None }
    {
        value_at(self.begun.as_slice(), self.near, t)
    }

    /// Whether one begins at a cycle.
    pub fn begins(&self, t: u32) -> bool
        ensures { result ≡ begins self.now.begun t }
    {
        has_begin(self.begun.as_slice(), self.near, t)
    }

    /// What stands before a cycle, and what begins there; nothing where nothing does.
    pub fn sides(&self, t: u32) -> Option<Sides<'_, V>>
        ensures begins { is_some result ≡ begins self.now.begun t }
        ensures before { IfSome result (λ s. option_copied s.before ≡ standing_before self.now.begun t) }
        ensures at { IfSome result (λ s. option_copied s.at ≡ standing self.now.begun t None) }
    {
        sides_at(self.begun.as_slice(), self.near, t)
    }

    /// The first cycle from t on, and before `to`, at which one begins, or else `to`.
    pub fn next(&self, t: u32, to: u32) -> u32
        ensures from { t ≤ to → t ≤ result }
        ensures to { result ≤ to }
        ensures none { (u : ℕ) → t ≤ u → u < result → begins self.now.begun u ≡ false }
        ensures there { result < to → begins self.now.begun result ≡ true }
    {
        next_begin(self.begun.as_slice(), self.near, t, to)
    }

    /// Gets the memory for two changes more.
    pub fn reserve(&mut self) -> Result<(), AllocError>
        ensures begun { self.new.begun ≡ self.old.begun }
        ensures room { OnOk result (2 ≤ self.new.room) }
    {
        self.begun.reserve(2)?;
        Ok(())
    }

    /// The cell at t holds this value, or nothing, and each other one before cycle `end` what it held.
    pub fn put(&mut self, t: u32, end: u32, value: Option<V>, stood: Option<V>) -> bool
        requires room { 2 ≤ self.old.room }
        requires within { t < end }
        requires stood { stood ≡ standing self.old.begun t None }
        ensures written { IsWritten self.old.begun self.new.begun t (t + 1) end value result }
        ensures begins { begins self.new.begun t ≡ true }
    {
        let i = place(self.begun.as_slice(), self.near, t);
        let here = is_at(self.begun.as_slice(), i, t);
        let next = behind(i, here);
        let again = goes_on(self.begun.as_slice(), next, t + 1, end);
        begin_at(&mut self.begun, i, here, t, value);
        insert_if(&mut self.begun, again, i + 1, t + 1, stood);
        self.near = i;
        again
    }

    /// The same as `go_on`, where nothing begins but at the first of these cells.
    fn go_on_once(&mut self, from: u32, to: u32, end: u32) -> bool
        requires some { from < to }
        requires none { (u : ℕ) → from < u → u < to → begins self.old.begun u ≡ false }
        ensures written { IsWritten self.old.begun self.new.begun from to end (standing_before self.old.begun from) result }
        ensures begins { begins self.new.begun from ≡ false }
        ensures nothing { self.old.begun ≡ [] → self.new.begun ≡ [] }
    {
        let i = place(self.begun.as_slice(), self.near, from);
        if !is_at(self.begun.as_slice(), i, from) {
            return false;
        }
        let again = goes_on(self.begun.as_slice(), i + 1, to, end);
        begin_later_if(&mut self.begun, again, i, to);
        self.near = i;
        again
    }

    /// The cells from one cycle on and before another hold what the cell before them holds.
    #[tactic(auto, using(crate::proofs::Writing::on_further))]
    pub fn go_on(&mut self, from: u32, to: u32, end: u32) -> bool
        requires { from < to }
        ensures written { IsWritten self.old.begun self.new.begun from to end (standing_before self.old.begun from) result }
        ensures begins { begins self.new.begun from ≡ false }
        ensures nothing { self.old.begun ≡ [] → self.new.begun ≡ [] }
    {
        if to == from + 1 {
            return self.go_on_once(from, to, end);
        }
        let mut at = self.next(from + 1, to);
        let mut again = self.go_on_once(from, at, end);
        while at < to {
            let mid = self.next(at + 1, to);
            again = self.go_on_once(at, mid, end);
            at = mid;
        }
        again
    }

    /// Nothing begins from cycle n on.
    pub fn truncate(&mut self, n: u32)
        ensures { IsCut self.old.begun self.new.begun n }
    {
        let many = place(self.begun.as_slice(), self.near, n);
        self.begun.truncate(many);
    }
}
