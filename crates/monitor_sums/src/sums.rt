//! The counters of a run, kept up to date.
ghost use Rattle.std.specs.Prelude.{◌≡◌, ℕ, ◌+◌, ◌-◌, ◌*◌, ◌/◌, ◌^◌, ◌<◌, ◌≤◌, IfOk, Some, None, [], length, slice_index, replicate, ◌==◌, ◌&&◌, nat_le, nat_lt, if◌then◌else◌};
ghost use Rattle.std.specs.Option.{ForSome, option_copied};
ghost use Rattle.omega_net.specs.Numbers.{components};
ghost use Rattle.monitor_sums.specs.Sums.{States, sum_of, total_of, profile_of, changed, filled, cleared, NonePast};
ghost use Rattle.monitor_sums.specs.Kept.{StandsFor, blank, kept_at};
ghost use Rattle.monitor_sums.specs.Adding.{sum_below};
ghost use Rattle.monitor_sums.specs.declared.counter.Counter.{Counter as CounterIs};
ghost use Rattle.monitor_sums.specs.Counts.{nothing, part, tallied, IsSmall};
ghost use Rattle.monitor_sums.specs.Whole.{tally_at, block_place, block_end, counted_before, counted_in};
ghost use Rattle.project_book.specs.Limits.{max_horizon};
ghost use Rattle.monitor_sums.specs.Limits.{max_components, profile_lengths, blocks};

use crate::Counter;
use crate::counted::{Counted, Tally};
use crate::counts::Counts;
use crate::profile::{LENGTHS, Profile, move_lengths, place_of as profile_place, profile_at};
use grid_law::NoMemory;
use machine_cells::MachineState;
use omega_net::{Net, Shape};
use project_book::MAX_HORIZON;
use std::alloc::Global;
use std::marker::Model;

/// How many cycles a block has; the last block may have fewer.
const BLOCK_CYCLES: u32 = 32;

/// The counters over the cells of a run, at the cycles from 0 to a last one. It stands for a map from cells
/// to states, where a cell may hold none, and keeps what each cell counts, the totals of each component
/// and of all of them over each block of 32 cycles, and the profile of each stage.
#[derive(Drop)]
pub struct Sums {
    shape: Shape,
    last: u32,
    cells: Vec<Counts>,
    own: Vec<Tally>,
    all: Vec<Tally>,
    profiles: Vec<Profile>,
}

impl Model for Sums {
    ghost use Rattle.monitor_sums.specs.Kept.{Kept};
    ghost use Rattle.monitor_sums.specs.Whole.{AddsUp};

    ghost Value = { Kept };

    ghost view = { λ s. record { k = s.shape; last = s.last; cells = s.cells.items } };

    ghost invariant = { λ s. AddsUp s.shape s.last s.cells.items s.own.items s.all.items s.profiles.items };
}

impl Sums {
    /// The counters of a machine where no cell holds a state yet, over the cycles 0 to `last`. It takes the
    /// memory for each of those cells, a few bytes.
    ///
    /// # Errors
    ///
    /// Where a growth was refused. What was taken is given back.
    #[tactic(auto, using(crate::proofs::Starting::blank_stands))]
    pub fn new(alloc: Global, shape: Shape, last: u32) -> Result<Sums, NoMemory>
        requires { last ≤ max_horizon }
        ensures shape { IfOk result (λ sums. sums.k ≡ shape) }
        ensures last { IfOk result (λ sums. sums.last ≡ last) }
        ensures stands { IfOk result (λ sums. StandsFor sums (λ t c. None)) }
    {
        Sums::blank(alloc, shape, last)
    }

    fn blank(alloc: Global, shape: Shape, last: u32) -> Result<Sums, NoMemory>
        requires { last ≤ max_horizon }
        ensures { IfOk result (λ sums. sums ≡ record { k = shape; last = last; cells = replicate (components shape) (blank (last + 1)) }) }
    {
        let components = shape.components() as usize;
        let blocks = blocks(last);
        Ok(Sums {
            shape,
            last,
            cells: no_counts(alloc, components, last)?,
            own: filled(alloc, Tally::zero(), components * blocks)?,
            all: filled(alloc, Tally::zero(), blocks)?,
            profiles: filled(alloc, [0; LENGTHS], 2 * shape.k() as usize)?,
        })
    }

    /// The size of the machine.
    pub fn shape(&self) -> Shape
        ensures { result ≡ self.now.k }
    {
        self.shape
    }

    /// The last cycle that is counted.
    pub fn last(&self) -> u32
        ensures value { result ≡ self.now.last }
        ensures within { result ≤ max_horizon }
    {
        self.last
    }

    /// A cell holds this state now, or none. It takes no memory, and a fixed time, but where the cell is
    /// its component's last one so far: then the cells before it are filled up.
    pub fn change(&mut self, component: u32, cycle: u32, new: Option<&MachineState>)
        requires component { component < components self.old.k }
        requires cycle { cycle ≤ self.old.last }
        ensures shape { self.new.k ≡ self.old.k }
        ensures last { self.new.last ≡ self.old.last }
        ensures stands { (at : States) → StandsFor self.old at → StandsFor self.new (changed at cycle component (option_copied new.entry)) }
    {
        self.put(component, cycle, Counted::of(new));
    }

    /// The cells of a component at the cycles from `from` on and before `end` hold this state now, or none
    /// of them holds one. It takes no memory. Of cells that counted the same, those of a block of 32
    /// cycles are one change of the totals and of the profiles.
    pub fn fill(&mut self, component: u32, from: u32, end: u32, new: Option<&MachineState>)
        requires component { component < components self.old.k }
        requires order { from ≤ end }
        requires within { end ≤ self.old.last + 1 }
        ensures shape { self.new.k ≡ self.old.k }
        ensures last { self.new.last ≡ self.old.last }
        ensures stands { (at : States) → StandsFor self.old at → StandsFor self.new (filled at component from end (option_copied new.entry)) }
    {
        self.put_cells(component, from, end, Counted::of(new));
    }

    /// The cells of the cycles `from` to `to` hold no state any more. It takes no memory, and a fixed
    /// time for each of those cells.
    pub fn clear(&mut self, from: u32, to: u32)
        requires window { from ≤ to }
        requires within { to ≤ self.old.last }
        ensures shape { self.new.k ≡ self.old.k }
        ensures last { self.new.last ≡ self.old.last }
        ensures stands { (at : States) → StandsFor self.old at → StandsFor self.new (cleared at from to) }
    {
        prove!(self.last <= MAX_HORIZON);
        for cycle in from..to + 1 {
            self.clear_cycle(cycle);
        }
    }

    fn clear_cycle(&mut self, cycle: u32)
        requires { cycle ≤ self.old.last }
        ensures shape { self.new.k ≡ self.old.k }
        ensures last { self.new.last ≡ self.old.last }
        ensures each { (t c : ℕ) → t ≤ self.old.last → c < components self.old.k
            → kept_at self.new.cells t c ≡ (if t == cycle then nothing else kept_at self.old.cells t c) }
    {
        for component in 0..self.shape().components() {
            self.put(component, cycle, Counted::nothing());
        }
    }

    /// What the component asked, or all of them, counted over all cycles. It looks at one number for
    /// each block.
    pub fn total(&self, counter: Counter, who: Option<u32>) -> u64
        requires { ForSome who (λ c. c < components self.now.k) }
        ensures whole { (at : States) → StandsFor self.now at → result ≡ total_of self.now.k counter at who self.now.last }
        ensures up_to { (at : States) (h : ℕ) → StandsFor self.now at → NonePast self.now.k at h self.now.last → h ≤ self.now.last → result ≡ sum_of self.now.k counter at who 0 h }
    {
        let mut total = 0;
        for block in 0..blocks(self.last) {
            total += self.block(counter, who, block);
        }
        total
    }

    /// What the component asked, or all of them, counted over the cycles `from` to `to`. It looks at
    /// one number for each block that lies within the window, and at the cells of the two that don't.
    pub fn sum(&self, counter: Counter, who: Option<u32>, from: u32, to: u32) -> u64
        requires who { ForSome who (λ c. c < components self.now.k) }
        requires window { from ≤ to }
        requires within { to ≤ self.now.last }
        ensures { (at : States) → StandsFor self.now at → result ≡ sum_of self.now.k counter at who from to }
    {
        let mut total = 0;
        let mut cycle = from;
        while cycle <= to {
            let end = part_end(self.last, cycle, to);
            total += self.part(counter, who, cycle, end);
            cycle = end;
        }
        total
    }

    /// What they counted from a cycle on and before another one of its block, or the block's end: one
    /// number, where that is the whole block.
    fn part(&self, counter: Counter, who: Option<u32>, from: u32, end: u32) -> u64
        requires who { ForSome who (λ c. c < components self.now.k) }
        requires window { from < end }
        requires within { end ≤ block_end self.now.last (from / 32) }
        requires there { from ≤ self.now.last }
        ensures value { result ≡ counted_before self.now.k counter self.now.cells who from end }
        ensures small { result < 2 ^ 32 }
    {
        let block = block_of(from);
        if from % BLOCK_CYCLES == 0 && end == block_end(self.last, block) {
            self.block(counter, who, block)
        } else {
            self.cells(counter, who, from, end)
        }
    }

    /// What they counted over a block.
    fn block(&self, counter: Counter, who: Option<u32>, block: usize) -> u64
        requires who { ForSome who (λ c. c < components self.now.k) }
        requires there { block < blocks self.now.last }
        ensures value { result ≡ counted_in self.now.k self.now.last counter self.now.cells who block }
        ensures small { result < 2 ^ 32 }
    {
        match who {
            Some(component) => {
                let place = block_place(self.last, component, block);
                tally_at(&self.own, place).of(counter)
            }
            None => tally_at(&self.all, block).of(counter),
        }
    }

    /// What they counted from a cycle on and before another one, cell by cell.
    fn cells(&self, counter: Counter, who: Option<u32>, from: u32, end: u32) -> u64
        requires who { ForSome who (λ c. c < components self.now.k) }
        requires window { from ≤ end }
        requires within { end ≤ self.now.last + 1 }
        ensures value { result ≡ counted_before self.now.k counter self.now.cells who from end }
        ensures small { result < 2 ^ 32 }
    {
        match who {
            Some(component) => sum_at(&self.cells, counter, component, from, end),
            None => sum_all(&self.cells, self.shape.components(), counter, from, end),
        }
    }

    /// How long the output queues of a stage were: at place n the number of pairs of a queue and a
    /// cycle at which that queue's length is n. Each switch has two of them.
    pub fn profile(&self, net: Net, stage: u32) -> Profile
        requires { stage < self.now.k }
        ensures whole { (at : States) → StandsFor self.now at → result ≡ profile_of self.now.k at net stage self.now.last }
        ensures up_to { (at : States) (h : ℕ) → StandsFor self.now at → NonePast self.now.k at h self.now.last → h ≤ self.now.last → result ≡ profile_of self.now.k at net stage h }
    {
        profile_at(&self.profiles, profile_place(self.shape, net, stage))
    }

    /// What was counted for a cell is replaced, and with it the totals and the profiles that it is in.
    fn put(&mut self, component: u32, cycle: u32, new: Counted)
        requires component { component < components self.old.k }
        requires cycle { cycle ≤ self.old.last }
        requires small { IsSmall new }
        ensures shape { self.new.k ≡ self.old.k }
        ensures last { self.new.last ≡ self.old.last }
        ensures each { (t c : ℕ) → t ≤ self.old.last → c < components self.old.k
            → kept_at self.new.cells t c ≡ (if (t == cycle) && (c == component) then new else kept_at self.old.cells t c) }
    {
        prove!(self.last <= MAX_HORIZON);
        self.put_run(component, cycle, cycle + 1, new);
    }

    /// What was counted for the cells of a component from a cycle on and before another one is replaced.
    fn put_cells(&mut self, component: u32, from: u32, end: u32, new: Counted)
        requires component { component < components self.old.k }
        requires order { from ≤ end }
        requires within { end ≤ self.old.last + 1 }
        requires small { IsSmall new }
        ensures shape { self.new.k ≡ self.old.k }
        ensures last { self.new.last ≡ self.old.last }
        ensures each { (t c : ℕ) → t ≤ self.old.last → c < components self.old.k
            → kept_at self.new.cells t c ≡ (if (nat_le from t && nat_lt t end) && (c == component) then new else kept_at self.old.cells t c) }
    {
        let mut cycle = from;
        while cycle < end {
            let next = self.run_end(component, cycle, end);
            self.put_run(component, cycle, next, new);
            cycle = next;
        }
    }

    /// Before which cycle, `end` at most, the cells of a component from one on are of its block and
    /// counted the same.
    fn run_end(&self, component: u32, cycle: u32, end: u32) -> u32
        requires component { component < components self.now.k }
        requires order { cycle < end }
        requires within { end ≤ self.now.last + 1 }
        ensures on { cycle < result }
        ensures within { result ≤ end }
        ensures block { result ≤ block_end self.now.last (cycle / 32) }
        ensures same { (t : ℕ) → cycle ≤ t → t < result → kept_at self.now.cells t component ≡ kept_at self.now.cells cycle component }
    {
        same_to(
            &self.cells,
            component,
            cycle,
            part_end(self.last, cycle, end - 1),
        )
    }

    /// What was counted for the cells of a component from a cycle on and before another one of its block,
    /// the same for each, is replaced, and with it the totals and the profiles that they are in.
    fn put_run(&mut self, component: u32, from: u32, end: u32, new: Counted)
        requires component { component < components self.old.k }
        requires order { from < end }
        requires block { end ≤ block_end self.old.last (from / 32) }
        requires there { from ≤ self.old.last }
        requires same { (t : ℕ) → from ≤ t → t < end → kept_at self.old.cells t component ≡ kept_at self.old.cells from component }
        requires small { IsSmall new }
        ensures shape { self.new.k ≡ self.old.k }
        ensures last { self.new.last ≡ self.old.last }
        ensures each { (t c : ℕ) → t ≤ self.old.last → c < components self.old.k
            → kept_at self.new.cells t c ≡ (if (nat_le from t && nat_lt t end) && (c == component) then new else kept_at self.old.cells t c) }
    {
        let old = cell_at(&self.cells, component, from);
        if old == new {
            return;
        }
        let count = end - from;
        let block = block_of(from);
        let own = block_place(self.last, component, block);
        move_tally(&mut self.own, own, &old, &new, count);
        move_tally(&mut self.all, block, &old, &new, count);
        move_lengths(
            self.shape,
            &mut self.profiles,
            component,
            old.lengths,
            new.lengths,
            count,
        );
        self.cells[component as usize].put(from, end, new);
    }
}

/// The block that a cycle is in.
fn block_of(cycle: u32) -> usize
    ensures { result ≡ cycle / 32 }
{
    (cycle / BLOCK_CYCLES) as usize
}

/// How many blocks the cycles from 0 to `last` are.
fn blocks(last: u32) -> usize
    ensures { result ≡ blocks last }
{
    (last as usize + BLOCK_CYCLES as usize) / BLOCK_CYCLES as usize
}

/// The cycle before which a block of the cycles to `last` ends.
fn block_end(last: u32, block: usize) -> u32
    requires last { last ≤ max_horizon }
    requires there { block < blocks last }
    ensures { result ≡ block_end last block }
{
    (block as u32 * BLOCK_CYCLES + BLOCK_CYCLES).min(last + 1)
}

/// Where the block of a cycle ends, or a window that ends with the cycle `to` within it.
fn part_end(last: u32, cycle: u32, to: u32) -> u32
    requires last { last ≤ max_horizon }
    requires window { cycle ≤ to }
    requires within { to ≤ last }
    ensures on { cycle < result }
    ensures within { result ≤ to + 1 }
    ensures block { result ≤ block_end last (cycle / 32) }
{
    block_end(last, block_of(cycle)).min(to + 1)
}

/// Where the tally of a component's block stands.
fn block_place(last: u32, component: u32, block: usize) -> usize
    requires last { last ≤ max_horizon }
    requires there { block < blocks last }
    ensures { result ≡ block_place last component block }
{
    component as usize * blocks(last) + block
}

/// So many of the cells that a tally is over, which each counted `old`, count something else.
fn move_tally(tallies: &mut Vec<Tally>, place: usize, old: &Counted, new: &Counted, count: u32)
    requires there { place < length tallies.old.items }
    requires few { count ≤ 32 }
    requires held { (counter : CounterIs) → part counter old.now * count ≤ tallied counter (tally_at tallies.old.items place) }
    requires room { (counter : CounterIs) → tallied counter (tally_at tallies.old.items place) < 2 ^ 32 }
    ensures size { length tallies.new.items ≡ length tallies.old.items }
    ensures moved { (counter : CounterIs) → tallied counter (tally_at tallies.new.items place) + part counter old.now * count ≡ tallied counter (tally_at tallies.old.items place) + part counter new.now * count }
    ensures others { (i : ℕ) → (i ≡ place → ⊥) → tally_at tallies.new.items i ≡ tally_at tallies.old.items i }
{
    if old.counts_as(new) {
        return;
    }
    let moved = tally_at(tallies, place).moved(old, new, count);
    tallies[place] = moved;
}

/// What so many components counted from a cycle on and before another one.
#[tactic(auto, using(crate::proofs::Adding::sum_none, crate::proofs::Adding::sum_more))]
fn sum_all(cells: &Vec<Counts>, components: u32, counter: Counter, from: u32, end: u32) -> u64
    requires room { length cells.now.items ≡ components }
    requires few { components ≤ max_components }
    requires window { from ≤ end }
    requires within { end ≤ max_horizon + 1 }
    ensures value { result ≡ sum_below (λ c. sum_below (λ i. part counter (kept_at cells.now.items (i + from) c)) (end - from)) components }
    ensures small { result < 2 ^ 32 }
{
    let mut total = 0;
    for component in 0..components {
        total += sum_at(cells, counter, component, from, end);
    }
    total
}

/// What a component counted from a cycle on and before another one.
fn sum_at(cells: &Vec<Counts>, counter: Counter, component: u32, from: u32, end: u32) -> u64
    requires there { component < length cells.now.items }
    requires window { from ≤ end }
    requires within { end ≤ max_horizon + 1 }
    ensures value { result ≡ sum_below (λ i. part counter (kept_at cells.now.items (i + from) component)) (end - from) }
    ensures bound { result ≤ 256 * (end - from) }
{
    let mut total = 0;
    for cycle in from..end {
        total += u64::from(cell_at(cells, component, cycle).part(counter));
    }
    total
}

/// Before which cycle, `end` at most, the cells of a component from one on counted the same.
fn same_to(cells: &Vec<Counts>, component: u32, cycle: u32, end: u32) -> u32
    requires component { component < length cells.now.items }
    requires order { cycle < end }
    ensures on { cycle < result }
    ensures within { result ≤ end }
    ensures same { (t : ℕ) → cycle ≤ t → t < result → kept_at cells.now.items t component ≡ kept_at cells.now.items cycle component }
{
    cells[component as usize].same_to(cycle, end)
}

/// What was counted for a cell.
fn cell_at(cells: &Vec<Counts>, component: u32, cycle: u32) -> Counted
    requires { component < length cells.now.items }
    ensures { result ≡ kept_at cells.now.items cycle component }
{
    cells[component as usize].at(cycle)
}

/// The tally at a place.
fn tally_at(tallies: &Vec<Tally>, place: usize) -> Tally
    requires { place < length tallies.now.items }
    ensures { result ≡ tally_at tallies.now.items place }
{
    tallies[place]
}

/// So many components that count nothing, each with room for the cycles 0 to `last`.
fn no_counts(alloc: Global, count: usize, last: u32) -> Result<Vec<Counts>, NoMemory>
    ensures { IfOk result (λ counts. counts.items ≡ replicate count (blank (last + 1))) }
{
    let mut counts = Vec::with_capacity(alloc, count)?;
    for _component in 0..count {
        counts.push(Counts::new(alloc, last)?)?;
    }
    Ok(counts)
}

/// So many copies of a value.
fn filled<T: Copy + Drop>(alloc: Global, value: T, count: usize) -> Result<Vec<T>, NoMemory>
    ensures { IfOk result (λ filled. filled.items ≡ replicate count value) }
{
    let mut filled = Vec::with_capacity(alloc, count)?;
    for _copy in 0..count {
        filled.push(value)?;
    }
    Ok(filled)
}
