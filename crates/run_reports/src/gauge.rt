//! Gauges: numbers that each cycle of a run shows.
ghost use Rattle.std.specs.Prelude.{◌≡◌, ◌≤◌, ◌+◌, length, nat_lt, slice_get, Some};
ghost use Rattle.std.specs.Option.{option_copied};
ghost use Rattle.monitor_sums.specs.Adding.{sum_below};
ghost use Rattle.monitor_sums.specs.Counts.{count, in_queues, one, output_lengths};
ghost use Rattle.monitor_sums.specs.Sums.{is_in_stage};
ghost use Rattle.omega_net.specs.Numbers.{components};
ghost use Rattle.omega_net.specs.Ports.{queue_at};
ghost use Rattle.run_reports.specs.Gauges.{busy, busy_at, gauge_at, held, held_at, queue_length};

use crate::full_queues::{Part, PartQueue, port_of};
use machine_cells::MachineState;
use monitor_sums::Counter;
use omega_net::{Component, Net, Queue, Shape};

/// A number that each cycle of a run shows.
#[derive(Clone, Copy, PartialEq, Eq, Debug)]
pub enum Gauge {
    /// What all components count.
    Counted(Counter),
    /// What one counts, by its number.
    CountedAt { counter: Counter, place: u32 },
    /// The length of a queue.
    Length(PartQueue),
    /// The messages in the output queues of a stage.
    Held { net: Net, stage: u32 },
    /// How many of these queues hold any.
    Busy { net: Net, stage: u32 },
}

/// The length of a queue.
fn length_of<T>(queue: &Queue<T>) -> u8
    ensures value { result ≡ length queue.now.items }
    ensures within { result ≤ 16 }
{
    queue.len() as u8
}

/// The length of the queue at a port.
fn length_at<T>(queues: &[Queue<T>; 2], port: u8) -> u8
    ensures value { result ≡ length (queue_at queues.now port).items }
    ensures within { result ≤ 16 }
{
    match queues.get(usize::from(port)) {
        Some(queue) => length_of(queue),
        None => 0,
    }
}

/// The messages in two queues.
fn in_queues<T>(queues: &[Queue<T>; 2]) -> u8
    ensures value { result ≡ in_queues queues.now }
    ensures within { result ≤ 32 }
{
    length_at(queues, 0) + length_at(queues, 1)
}

/// How many of two queues hold any message.
fn holding<T>(queues: &[Queue<T>; 2]) -> u8
    ensures { result ≡ one (nat_lt 0 (length (queue_at queues.now 0).items)) + one (nat_lt 0 (length (queue_at queues.now 1).items)) }
{
    u8::from(length_at(queues, 0) > 0) + u8::from(length_at(queues, 1) > 0)
}

/// The length of a queue in a component's state.
fn queue_length(part: Part, state: &MachineState) -> u8
    ensures { result ≡ queue_length part (Some state.now) }
{
    match (part, state) {
        (Part::Forward(output), MachineState::Low(s)) => length_at(&s.fwd, output),
        (Part::Forward(output), MachineState::Comb(s)) => length_at(&s.fwd, output),
        (Part::Reverse(input), MachineState::Low(s)) => length_at(&s.rev, input),
        (Part::Reverse(input), MachineState::Comb(s)) => length_at(&s.rev, input),
        (Part::Requests(net), MachineState::Module(s)) => length_at(&s.requests, port_of(net)),
        (Part::Replies(net), MachineState::Module(s)) => length_at(&s.replies, port_of(net)),
        (Part::Wait, MachineState::Comb(s)) => length_of(&s.wait),
        _ => 0,
    }
}

/// What the component of a number counts.
fn count_at(counter: Counter, states: &[MachineState], place: u32) -> u8
    ensures { result ≡ count counter (slice_get states.now place) }
{
    match states.get(place as usize) {
        Some(state) => counter.count_in(state),
        None => 0,
    }
}

/// The length of a queue of the machine.
pub(crate) fn length_in(queue: PartQueue, states: &[MachineState]) -> u8
    ensures { result ≡ queue_length queue.part (slice_get states.now queue.place) }
{
    match states.get(queue.place as usize) {
        Some(state) => queue_length(queue.part, state),
        None => 0,
    }
}

/// Whether a component is a switch of a stage.
fn is_in_stage(net: Net, stage: u32, component: Option<Component>) -> bool
    ensures { result ≡ is_in_stage net stage component }
{
    match component {
        Some(
            Component::Switch {
                net: own,
                stage: at,
                ..
            },
        ) => port_of(own) == port_of(net) && u32::from(at) == stage,
        Some(Component::Proc(_) | Component::Module(_)) | None => false,
    }
}

/// The messages in the output queues of a component.
fn held(state: Option<&MachineState>) -> u8
    ensures { result ≡ held (output_lengths (option_copied state.entry)) }
{
    match state {
        Some(MachineState::Low(s)) => in_queues(&s.fwd),
        Some(MachineState::Comb(s)) => in_queues(&s.fwd),
        Some(MachineState::Proc(_) | MachineState::Module(_)) | None => 0,
    }
}

/// How many of its output queues hold any.
fn busy(state: Option<&MachineState>) -> u8
    ensures { result ≡ busy (output_lengths (option_copied state.entry)) }
{
    match state {
        Some(MachineState::Low(s)) => holding(&s.fwd),
        Some(MachineState::Comb(s)) => holding(&s.fwd),
        Some(MachineState::Proc(_) | MachineState::Module(_)) | None => 0,
    }
}

/// The messages in the output queues of a stage at the component of a number.
fn held_at(shape: Shape, net: Net, stage: u32, states: &[MachineState], place: u32) -> u8
    ensures { result ≡ held_at shape net stage place (slice_get states.now place) }
{
    if is_in_stage(net, stage, shape.component(place)) {
        held(states.get(place as usize))
    } else {
        0
    }
}

/// How many of the output queues of a stage hold any at the component of a number.
fn busy_at(shape: Shape, net: Net, stage: u32, states: &[MachineState], place: u32) -> u8
    ensures { result ≡ busy_at shape net stage place (slice_get states.now place) }
{
    if is_in_stage(net, stage, shape.component(place)) {
        busy(states.get(place as usize))
    } else {
        0
    }
}

/// What all components count.
fn counted(shape: Shape, counter: Counter, states: &[MachineState]) -> u64
    ensures { result ≡ sum_below (λ c. count counter (slice_get states.now c)) (components shape) }
{
    let mut total = 0;
    for place in 0..shape.components() {
        total += u64::from(count_at(counter, states, place));
    }
    total
}

/// The messages in the output queues of a stage.
fn held_in(shape: Shape, net: Net, stage: u32, states: &[MachineState]) -> u64
    ensures { result ≡ sum_below (λ c. held_at shape net stage c (slice_get states.now c)) (components shape) }
{
    let mut total = 0;
    for place in 0..shape.components() {
        total += u64::from(held_at(shape, net, stage, states, place));
    }
    total
}

/// How many of the output queues of a stage hold any.
fn busy_in(shape: Shape, net: Net, stage: u32, states: &[MachineState]) -> u64
    ensures { result ≡ sum_below (λ c. busy_at shape net stage c (slice_get states.now c)) (components shape) }
{
    let mut total = 0;
    for place in 0..shape.components() {
        total += u64::from(busy_at(shape, net, stage, states, place));
    }
    total
}

/// What a gauge shows of these states of all components, by number.
pub(crate) fn gauge_at(shape: Shape, gauge: Gauge, states: &[MachineState]) -> u64
    ensures { result ≡ gauge_at shape gauge (slice_get states.now) }
{
    match gauge {
        Gauge::Counted(counter) => counted(shape, counter, states),
        Gauge::CountedAt { counter, place } => u64::from(count_at(counter, states, place)),
        Gauge::Length(queue) => u64::from(length_in(queue, states)),
        Gauge::Held { net, stage } => held_in(shape, net, stage, states),
        Gauge::Busy { net, stage } => busy_in(shape, net, stage, states),
    }
}
