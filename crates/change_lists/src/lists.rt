//! The changes of all components.
ghost use Rattle.std.specs.Prelude.{◌≡◌, ℕ, ◌+◌, ◌<◌, ◌≤◌, [], None, Some, IfSome, IfNone, is_some, true, false, IfOk, OnOk, ◌==◌, length};
ghost use Rattle.std.specs.Option.{option_copied};
ghost use Rattle.change_lists.specs.Changes.{changes_at, list_at, room_at, held_at, held_before, begins_at, IsWritten, IsCut};

use crate::begun::Sides;
use crate::change_list::ChangeList;
use std::alloc::{AllocError, Global};
use std::marker::Model;

/// For each cell, a component at a cycle, the value that began last, or nothing.
///
/// Cells have no end: a call that changes one is told before which cycle there are cells that have to hold what they held.
#[derive(Drop)]
pub struct Lists<V> {
    lists: Vec<ChangeList<V>>,
    /// Where nothing begins for a component, it may be outside of these: from the first on and before the second.
    low: u32,
    high: u32,
}

impl<V> Model for Lists<V> {
    ghost use Rattle.std.specs.Prelude.{List, ℕ, ◌≡◌, ◌<◌, ◌≤◌, ◌^◌, [], length};
    ghost use Rattle.change_lists.specs.Changes.{Changes, list_at};

    ghost Value = { List (Changes V) };

    ghost view = { λ l. l.lists.items };

    ghost invariant = { λ l. (length l.lists.items < 2 ^ 32) × (l.high ≤ length l.lists.items) × ((c : ℕ) → c < l.low → list_at l.lists.items c ≡ []) × ((c : ℕ) → l.high ≤ c → list_at l.lists.items c ≡ []) };
}

impl<V: Drop> Lists<V> {
    /// Nothing at any cell, for that many components.
    ///
    /// # Errors
    ///
    /// Where a growth was refused. What was taken is given back.
    pub fn new(alloc: Global, width: u32) -> Result<Lists<V>, AllocError>
        ensures width { IfOk result (λ lists. length lists ≡ width) }
        ensures nothing { IfOk result (λ lists. (c : ℕ) → list_at lists c ≡ []) }
    {
        let mut lists = Vec::with_capacity(alloc, width as usize)?;
        for _c in 0..width {
            match lists.push(ChangeList::new(alloc)) {
                Ok(()) => {}
                Err(_) => return Err(AllocError),
            }
        }
        Ok(Lists {
            lists,
            low: width,
            high: 0,
        })
    }

    /// From which component on and before which there are all for which something begins.
    #[inline(always)]
    pub fn range(&self) -> (u32, u32)
        ensures within { result.1 ≤ length self.now }
        ensures below { (c : ℕ) → c < result.0 → list_at self.now c ≡ [] }
        ensures above { (c : ℕ) → result.1 ≤ c → list_at self.now c ≡ [] }
    {
        let _ = &self.lists;
        (self.low, self.high)
    }

    /// How many components there are.
    pub fn width(&self) -> u32
        ensures { result ≡ length self.now }
    {
        self.lists.len() as u32
    }

    /// Whether nothing begins at any cell of a component; so it is where there is no such component.
    #[inline(always)]
    pub fn is_empty(&self, c: u32) -> bool
        ensures { result ≡ (length (list_at self.now c) == 0) }
    {
        match self.lists.get(c as usize) {
            Some(list) => list.len() == 0,
            None => true,
        }
    }

    /// The value that a cell holds.
    pub fn at(&self, c: u32, t: u32) -> Option<&V>
        ensures { option_copied result ≡ held_at self.now c t }
    {
        match self.lists.get(c as usize) {
            Some(list) => list.at(t),
            None => None,
        }
    }

    /// Whether a value, or nothing, begins at a cell. Where none does, the cell holds what the one a cycle before holds; there
    /// may be such cells besides.
    #[tactic(auto, using(crate::proofs::Standing::steady))]
    pub fn begins(&self, c: u32, t: u32) -> bool
        ensures value { result ≡ begins_at self.now c t }
        ensures steady { result ≡ false → held_at self.now c t ≡ held_before self.now c t }
    {
        match self.lists.get(c as usize) {
            Some(list) => list.begins(t),
            None => false,
        }
    }

    /// What the cell before a cell holds, and what the cell does, where something begins at it. Where nothing does, both hold the same.
    #[tactic(auto, using(crate::proofs::Standing::steady))]
    pub fn sides(&self, c: u32, t: u32) -> Option<Sides<'_, V>>
        ensures begins { is_some result ≡ begins_at self.now c t }
        ensures before { IfSome result (λ s. option_copied s.before ≡ held_before self.now c t) }
        ensures at { IfSome result (λ s. option_copied s.at ≡ held_at self.now c t) }
        ensures steady { IfNone result (held_at self.now c t ≡ held_before self.now c t) }
    {
        match self.lists.get(c as usize) {
            Some(list) => list.sides(t),
            None => None,
        }
    }

    /// The first cycle from t on, and before `to`, at which something of a component begins, or else `to`. At each cycle before
    /// that one, from t on, its cell holds what the one a cycle before holds.
    #[tactic(auto, using(crate::proofs::Standing::steady))]
    pub fn next(&self, c: u32, t: u32, to: u32) -> u32
        ensures from { t ≤ to → t ≤ result }
        ensures to { result ≤ to }
        ensures none { (u : ℕ) → t ≤ u → u < result → begins_at self.now c u ≡ false }
        ensures there { result < to → begins_at self.now c result ≡ true }
        ensures steady { (u : ℕ) → t ≤ u → u < result → held_at self.now c u ≡ held_before self.now c u }
    {
        match self.lists.get(c as usize) {
            Some(list) => list.next(t, to),
            None => to,
        }
    }

    /// Gets the memory for a value more of a component.
    ///
    /// # Errors
    ///
    /// Where the growth was refused. All cells hold what they hold, whatever it answers.
    pub fn reserve(&mut self, c: u32) -> Result<(), AllocError>
        requires { c < length self.old }
        ensures same { list_at self.new c ≡ list_at self.old c }
        ensures room { OnOk result (2 ≤ room_at self.new c) }
        ensures width { length self.new ≡ length self.old }
        ensures others { (d : ℕ) → (d ≡ c → ⊥) → changes_at self.new d ≡ changes_at self.old d }
    {
        self.lists[c as usize].reserve()
    }

    /// A cell holds this value, or nothing, and all other cells before cycle `end` hold what they held. What stood at the cell has to be handed
    /// over once more, since it may go on behind it: whether it begins there now. The memory for it was got by `reserve`.
    pub fn put(&mut self, c: u32, t: u32, end: u32, value: Option<V>, stood: Option<V>) -> bool
        requires component { c < length self.old }
        requires room { 2 ≤ room_at self.old c }
        requires within { t < end }
        requires stood { stood ≡ held_at self.old c t }
        ensures written { IsWritten (list_at self.old c) (list_at self.new c) t (t + 1) end value result }
        ensures begins { begins_at self.new c t ≡ true }
        ensures width { length self.new ≡ length self.old }
        ensures others { (d : ℕ) → (d ≡ c → ⊥) → changes_at self.new d ≡ changes_at self.old d }
    {
        self.low = self.low.min(c);
        self.high = self.high.max(c + 1);
        self.lists[c as usize].put(t, end, value, stood)
    }

    /// The cells of a component at the cycles from one on and before another hold what the cell before them holds, or nothing where
    /// there is none; all its other cells before cycle `end`, and all other components, hold what they held. Whether what stood there begins behind them now.
    pub fn go_on(&mut self, c: u32, from: u32, to: u32, end: u32) -> bool
        requires component { c < length self.old }
        requires some { from < to }
        ensures written { IsWritten (list_at self.old c) (list_at self.new c) from to end (held_before self.old c from) result }
        ensures begins { begins_at self.new c from ≡ false }
        ensures width { length self.new ≡ length self.old }
        ensures others { (d : ℕ) → (d ≡ c → ⊥) → changes_at self.new d ≡ changes_at self.old d }
    {
        self.lists[c as usize].go_on(from, to, end)
    }

    /// Nothing begins from cycle n on: the cells there hold what those before them hold.
    pub fn truncate(&mut self, n: u32)
        ensures width { length self.new ≡ length self.old }
        ensures cut { (c : ℕ) → IsCut (list_at self.old c) (list_at self.new c) n }
    {
        for c in 0..self.lists.len() {
            self.lists[c].truncate(n);
        }
    }
}
