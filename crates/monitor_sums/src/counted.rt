//! What cells count: one of them by each counter, and several in sum.
ghost use Rattle.std.specs.Prelude.{◌≡◌, ◌+◌, ◌*◌, ◌<◌, ◌≤◌, ◌^◌, None, Some, slice_index, true};
ghost use Rattle.std.specs.Option.{option_copied};
ghost use Rattle.monitor_sums.specs.declared.counter.Counter.{Counter as CounterIs};
ghost use Rattle.monitor_sums.specs.Counts.{lengths, output_lengths, part, AreShort};
ghost use Rattle.monitor_sums.specs.Limits.{profile_lengths};

use crate::Counter;
use crate::counter::length_of;
use machine_cells::MachineState;
use omega_net::Queue;

/// What a cell counts, by counter, and the lengths of its two output queues, where it is a switch's.
#[derive(Clone, Copy, PartialEq, Eq, Debug)]
pub struct Counted {
    pub issued: u8,
    pub answered: u8,
    pub served: u8,
    pub combined: u8,
    pub waiting: u8,
    pub lengths: Option<[u8; 2]>,
}

impl Counted {
    ghost use Rattle.monitor_sums.specs.Counts.{counted, nothing, IsSmall};

    /// A cell without a state counts nothing.
    pub fn nothing() -> Counted
        ensures value { result ≡ nothing }
        ensures small { IsSmall result }
    {
        Counted {
            issued: 0,
            answered: 0,
            served: 0,
            combined: 0,
            waiting: 0,
            lengths: None,
        }
    }

    /// What a cell with this state counts, or one without.
    pub fn of(state: Option<&MachineState>) -> Counted
        ensures value { result ≡ counted (option_copied state.entry) }
        ensures small { IsSmall result }
    {
        let Some(state) = state else {
            return Counted::nothing();
        };
        Counted {
            issued: Counter::Issued.count_in(state),
            answered: Counter::Answered.count_in(state),
            served: Counter::Served.count_in(state),
            combined: Counter::Combined.count_in(state),
            waiting: Counter::Waiting.count_in(state),
            lengths: output_lengths(state),
        }
    }

    /// What it counts by this counter.
    #[inline(always)]
    pub fn part(&self, counter: Counter) -> u8
        ensures { result ≡ part counter self.now }
    {
        match counter {
            Counter::Issued => self.issued,
            Counter::Answered => self.answered,
            Counter::Served => self.served,
            Counter::Combined => self.combined,
            Counter::Waiting => self.waiting,
        }
    }

    /// Whether another cell counts the same by each counter.
    pub fn counts_as(&self, other: &Counted) -> bool
        ensures { result ≡ true → (counter : CounterIs) → part counter self.now ≡ part counter other.now }
    {
        self.issued == other.issued
            && self.answered == other.answered
            && self.served == other.served
            && self.combined == other.combined
            && self.waiting == other.waiting
    }
}

/// The lengths of the output queues of a switch.
#[inline(always)]
fn output_lengths(state: &MachineState) -> Option<[u8; 2]>
    ensures value { result ≡ output_lengths (Some state.now) }
    ensures short { AreShort result }
{
    match state {
        MachineState::Low(state) => Some(lengths_of(&state.fwd)),
        MachineState::Comb(state) => Some(lengths_of(&state.fwd)),
        MachineState::Proc(_) | MachineState::Module(_) => None,
    }
}

fn lengths_of<T>(queues: &[Queue<T>; 2]) -> [u8; 2]
    ensures value { result ≡ lengths queues.now }
    ensures first { slice_index result 0 < profile_lengths }
    ensures second { slice_index result 1 < profile_lengths }
{
    [length_of(&queues[0]), length_of(&queues[1])]
}

/// A total for each counter.
#[derive(Clone, Copy, PartialEq, Eq, Debug)]
pub struct Tally {
    pub issued: u64,
    pub answered: u64,
    pub served: u64,
    pub combined: u64,
    pub waiting: u64,
}

impl Tally {
    ghost use Rattle.monitor_sums.specs.Counts.{none, tallied};

    /// Nothing counted.
    pub fn zero() -> Tally
        ensures { result ≡ none }
    {
        Tally {
            issued: 0,
            answered: 0,
            served: 0,
            combined: 0,
            waiting: 0,
        }
    }

    /// The total of a counter.
    #[inline(always)]
    pub fn of(&self, counter: Counter) -> u64
        ensures { result ≡ tallied counter self.now }
    {
        let Tally {
            issued,
            answered,
            served,
            combined,
            waiting,
        } = *self;
        match counter {
            Counter::Issued => issued,
            Counter::Answered => answered,
            Counter::Served => served,
            Counter::Combined => combined,
            Counter::Waiting => waiting,
        }
    }

    /// The totals where so many of the cells that they are over, which each counted `old`, count
    /// something else.
    pub fn moved(&self, old: &Counted, new: &Counted, cells: u32) -> Tally
        requires few { cells ≤ 32 }
        requires held { (counter : CounterIs) → part counter old.now * cells ≤ tallied counter self.now }
        requires room { (counter : CounterIs) → tallied counter self.now < 2 ^ 32 }
        ensures { (counter : CounterIs) → tallied counter result + part counter old.now * cells ≡ tallied counter self.now + part counter new.now * cells }
    {
        Tally {
            issued: self.moved_by(Counter::Issued, old, new, cells),
            answered: self.moved_by(Counter::Answered, old, new, cells),
            served: self.moved_by(Counter::Served, old, new, cells),
            combined: self.moved_by(Counter::Combined, old, new, cells),
            waiting: self.moved_by(Counter::Waiting, old, new, cells),
        }
    }

    /// The total of a counter there.
    #[inline(always)]
    fn moved_by(&self, counter: Counter, old: &Counted, new: &Counted, cells: u32) -> u64
        requires few { cells ≤ 32 }
        requires held { (counter : CounterIs) → part counter old.now * cells ≤ tallied counter self.now }
        requires room { (counter : CounterIs) → tallied counter self.now < 2 ^ 32 }
        ensures { result + part counter old.now * cells ≡ tallied counter self.now + part counter new.now * cells }
    {
        moved(
            self.of(counter),
            old.part(counter),
            new.part(counter),
            cells,
        )
    }
}

/// A total where so many of its parts were `old` and are `new`.
fn moved(total: u64, old: u8, new: u8, parts: u32) -> u64
    requires few { parts ≤ 32 }
    requires held { old * parts ≤ total }
    requires room { total < 2 ^ 32 }
    ensures { result + old * parts ≡ total + new * parts }
{
    let was = u64::from(old) * u64::from(parts);
    let is = u64::from(new) * u64::from(parts);
    total - was + is
}
