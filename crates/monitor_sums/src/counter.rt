//! What is counted.
ghost use Rattle.std.specs.Prelude.{◌≡◌, ◌≤◌, Some, IfSome, bytes_eq, length};
ghost use Rattle.monitor_sums.specs.declared.counter.Counter.{Counter};
ghost use Rattle.monitor_sums.specs.Counts.{answered, combined, count_in, counter_name, counter_named, in_queues, issued, served, waiting};

use machine_cells::MachineState;
use omega_net::Queue;
use std::fmt;

/// What a cell counts. It prints as its name.
#[derive(Clone, Copy, PartialEq, Eq, Hash, Debug)]
pub enum Counter {
    /// The references that a processor issued in the step to this cycle: one at most.
    Issued,
    /// The replies that a processor received in that step: one from each network at most.
    Answered,
    /// The requests that a module served in that step: one at most.
    Served,
    /// The requests that a combining switch combined into others in that step.
    Combined,
    /// The requests and replies that wait in a component's queues; those of a wait buffer don't count.
    Waiting,
}

impl Counter {
    /// All counters.
    pub const ALL: [Counter; 5] = [
        Counter::Issued,
        Counter::Answered,
        Counter::Served,
        Counter::Combined,
        Counter::Waiting,
    ];

    /// The counter's name, as `issued`.
    pub fn name(self) -> &'static str
        ensures { result.now ≡ counter_name self }
    {
        match self {
            Counter::Issued => "issued",
            Counter::Answered => "answered",
            Counter::Served => "served",
            Counter::Combined => "combined",
            Counter::Waiting => "waiting",
        }
    }

    fn has_name(self, word: &[u8]) -> bool
        ensures { result ≡ bytes_eq (counter_name self) word.now }
    {
        self.name().as_bytes() == word
    }

    /// The counter that a word names; None where no counter has that name.
    pub fn from_name(word: &[u8]) -> Option<Self>
        ensures counter { result ≡ counter_named word.now }
        ensures named { IfSome result (λ counter. counter_name counter ≡ word.now) }
        ensures read { (counter : Counter) → counter_name counter ≡ word.now → result ≡ Some counter }
    {
        Counter::ALL
            .iter()
            .find(|counter| counter.has_name(word))
            .copied()
    }

    /// What a component in this state counts.
    #[inline(always)]
    pub fn count_in(self, state: &MachineState) -> u8
        ensures { result ≡ count_in self state.now }
    {
        match self {
            Counter::Issued => issued(state),
            Counter::Answered => answered(state),
            Counter::Served => served(state),
            Counter::Combined => combined(state),
            Counter::Waiting => waiting(state),
        }
    }
}

impl fmt::Display for Counter {
    ghost output = { λ counter. Some (counter_name counter) };

    fn fmt<W: fmt::Write>(&self, f: &mut fmt::Formatter<W>) -> fmt::Result {
        f.write_str(self.name())
    }
}

#[inline(always)]
fn issued(state: &MachineState) -> u8
    ensures { result ≡ issued state.now }
{
    match state {
        MachineState::Proc(state) => u8::from(state.sent),
        MachineState::Module(_) | MachineState::Low(_) | MachineState::Comb(_) => 0,
    }
}

#[inline(always)]
fn answered(state: &MachineState) -> u8
    ensures { result ≡ answered state.now }
{
    match state {
        MachineState::Proc(state) => {
            let [low, comb] = state.got;
            u8::from(low.is_some()) + u8::from(comb.is_some())
        }
        MachineState::Module(_) | MachineState::Low(_) | MachineState::Comb(_) => 0,
    }
}

#[inline(always)]
fn served(state: &MachineState) -> u8
    ensures { result ≡ served state.now }
{
    match state {
        MachineState::Module(state) => u8::from(state.served),
        MachineState::Proc(_) | MachineState::Low(_) | MachineState::Comb(_) => 0,
    }
}

#[inline(always)]
fn combined(state: &MachineState) -> u8
    ensures { result ≡ combined state.now }
{
    match state {
        MachineState::Comb(state) => state.combined,
        MachineState::Proc(_) | MachineState::Module(_) | MachineState::Low(_) => 0,
    }
}

#[inline(always)]
fn waiting(state: &MachineState) -> u8
    ensures { result ≡ waiting state.now }
{
    match state {
        MachineState::Proc(state) => u8::from(state.out.is_some()),
        MachineState::Module(state) => in_queues(&state.requests) + in_queues(&state.replies),
        MachineState::Low(state) => in_queues(&state.fwd) + in_queues(&state.rev),
        MachineState::Comb(state) => in_queues(&state.fwd) + in_queues(&state.rev),
    }
}

fn in_queues<T>(queues: &[Queue<T>; 2]) -> u8
    ensures value { result ≡ in_queues queues.now }
    ensures within { result ≤ 32 }
{
    length_of(&queues[0]) + length_of(&queues[1])
}

/// The length of a queue.
pub(crate) fn length_of<T>(queue: &Queue<T>) -> u8
    ensures value { result ≡ length queue.now.items }
    ensures within { result ≤ 16 }
{
    queue.len() as u8
}
