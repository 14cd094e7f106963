//! What one component counts, by cycle.
ghost use Rattle.std.specs.Prelude.{◌≡◌, ℕ, ◌<◌, ◌≤◌, [], IfOk, length, vec_capacity, slice_index_or, ◌==◌, ◌&&◌, nat_le, nat_lt, ◌+◌, if◌then◌else◌};
ghost use Rattle.monitor_sums.specs.Counts.{nothing};
ghost use Rattle.monitor_sums.specs.Kept.{blank};

use crate::counted::Counted;
use grid_law::NoMemory;
use std::alloc::Global;
use std::marker::Model;

/// What each cell of a component counts. It has room for every cycle to the last that is counted, and uses
/// as much of it as the last cycle to which something was put; later cells count nothing.
#[derive(Drop)]
pub struct Counts {
    counts: Vec<Counted>,
}

impl Model for Counts {
    ghost use Rattle.std.specs.Prelude.{vec_capacity};
    ghost use Rattle.monitor_sums.specs.Kept.{Row};

    ghost Value = { Row };

    ghost view = { λ c. record { counts = c.counts.items; room = vec_capacity c.counts } };
}

impl Counts {
    /// A component that counts nothing, with room for the cycles 0 to `last`.
    ///
    /// # Errors
    ///
    /// Where a growth was refused. What was taken is given back.
    pub fn new(alloc: Global, last: u32) -> Result<Counts, NoMemory>
        ensures { IfOk result (λ row. row ≡ blank (last + 1)) }
    {
        let counts = Vec::with_capacity(alloc, last as usize + 1)?;
        Ok(Counts { counts })
    }

    /// What the cell of a cycle counts.
    pub fn at(&self, cycle: u32) -> Counted
        ensures { result ≡ slice_index_or self.now.counts cycle nothing }
    {
        at(&self.counts, cycle)
    }

    /// Before which cycle, `end` at most, the cells from one on count what that one does.
    pub fn same_to(&self, cycle: u32, end: u32) -> u32
        requires { cycle < end }
        ensures on { cycle < result }
        ensures within { result ≤ end }
        ensures same { (t : ℕ) → cycle ≤ t → t < result → slice_index_or self.now.counts t nothing ≡ slice_index_or self.now.counts cycle nothing }
    {
        same_to(&self.counts, cycle, end)
    }

    /// The cells of the cycles from one on and before another count this now. It takes no memory.
    pub fn put(&mut self, from: u32, end: u32, new: Counted)
        requires order { from ≤ end }
        requires within { end ≤ self.old.room }
        ensures room { self.new.room ≡ self.old.room }
        ensures each { (t : ℕ) → slice_index_or self.new.counts t nothing ≡ (if nat_le from t && nat_lt t end then new else slice_index_or self.old.counts t nothing) }
    {
        put(&mut self.counts, from, end, new);
    }
}

fn same_to(counts: &Vec<Counted>, cycle: u32, end: u32) -> u32
    requires { cycle < end }
    ensures on { cycle < result }
    ensures within { result ≤ end }
    ensures same { (t : ℕ) → cycle ≤ t → t < result → slice_index_or counts.now.items t nothing ≡ slice_index_or counts.now.items cycle nothing }
{
    if cycle as usize >= counts.len() {
        return end;
    }
    let first = at(counts, cycle);
    let mut next = cycle + 1;
    while next < end && at(counts, next) == first {
        next += 1;
    }
    next
}

fn at(counts: &Vec<Counted>, cycle: u32) -> Counted
    ensures { result ≡ slice_index_or counts.now.items cycle nothing }
{
    match counts.get(cycle as usize) {
        Some(counted) => *counted,
        None => Counted::nothing(),
    }
}

fn put(counts: &mut Vec<Counted>, from: u32, end: u32, new: Counted)
    requires order { from ≤ end }
    requires within { end ≤ vec_capacity counts.old }
    ensures capacity { vec_capacity counts.new ≡ vec_capacity counts.old }
    ensures each { (t : ℕ) → slice_index_or counts.new.items t nothing ≡ (if nat_le from t && nat_lt t end then new else slice_index_or counts.old.items t nothing) }
{
    extend(counts, from as usize, Counted::nothing());
    overwrite(counts, from as usize, end as usize, new);
    extend(counts, end as usize, new);
}

/// The cells of the cycles from one on and before another, as far as there are such, count this now.
fn overwrite(counts: &mut Vec<Counted>, from: usize, end: usize, new: Counted)
    requires order { from ≤ end }
    requires there { from ≤ length counts.old.items }
    ensures capacity { vec_capacity counts.new ≡ vec_capacity counts.old }
    ensures size { length counts.new.items ≡ length counts.old.items }
    ensures each { (t : ℕ) → slice_index_or counts.new.items t nothing ≡ (if (nat_le from t && nat_lt t end) && nat_lt t (length counts.old.items) then new else slice_index_or counts.old.items t nothing) }
{
    for cycle in from..end.min(counts.len()) {
        counts[cycle] = new;
    }
}

/// Adds cells that count this, up to so many.
fn extend(counts: &mut Vec<Counted>, size: usize, new: Counted)
    requires room { size ≤ vec_capacity counts.old }
    ensures capacity { vec_capacity counts.new ≡ vec_capacity counts.old }
    ensures size { size ≤ length counts.new.items }
    ensures each { (t : ℕ) → slice_index_or counts.new.items t nothing ≡ (if nat_le (length counts.old.items) t && nat_lt t size then new else slice_index_or counts.old.items t nothing) }
{
    while counts.len() < size {
        counts.push_reserved(new);
    }
}
