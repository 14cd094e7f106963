//! Which queues of a run were full, and at which cycle they first were.
ghost use Rattle.std.specs.Prelude.{◌≡◌, ◌+◌, ◌++◌, IfOk, OnOk, Some, map, slice_get};
ghost use Rattle.omega_net.specs.Ports.{queue_at};
ghost use Rattle.omega_net.specs.Queues.{free};
ghost use Rattle.omega_net.specs.Wires.{net_number};
ghost use Rattle.machine_cells.specs.Run.{run};
ghost use Rattle.machine_cells.specs.Runs.{state_in};
ghost use Rattle.flat_row.specs.Row.{states_of};
ghost use Rattle.run_reports.specs.Filling.{never, with_cycle, AreFirst};
ghost use Rattle.run_reports.specs.FullQueues.{first_fulls, is_full, queues, queues_of};
ghost use Rattle.run_reports.specs.Runners.{IsAt};

use crate::runner::Runner;
use grid_law::NoMemory;
use machine_cells::MachineState;
use omega_net::{Component, Net, Queue, Shape};
use project_book::{Depths, Project};
use std::alloc::{AllocError, Global};

/// A queue of a component, or its wait buffer.
#[derive(Clone, Copy, PartialEq, Eq, Debug)]
pub enum Part {
    /// The requests that wait at an output of a switch.
    Forward(u8),
    /// The replies that wait at an input of a switch.
    Reverse(u8),
    /// The requests of a network that wait in a module.
    Requests(Net),
    /// The replies that wait in a module for a network.
    Replies(Net),
    /// The wait buffer of a combining switch.
    Wait,
}

/// A queue of the machine.
#[derive(Clone, Copy, PartialEq, Eq, Debug)]
pub struct PartQueue {
    /// Its component, by its number.
    pub place: u32,
    pub part: Part,
}

/// When a queue was full.
#[derive(Clone, Copy, PartialEq, Eq, Debug)]
pub struct FirstFull {
    pub queue: PartQueue,
    /// The cycle of the first state that shows it full; None where no state up to the horizon does.
    pub cycle: Option<u32>,
}

/// The queues of modules.
const OF_MODULE: [Part; 4] = [
    Part::Requests(Net::Low),
    Part::Requests(Net::Comb),
    Part::Replies(Net::Low),
    Part::Replies(Net::Comb),
];

/// Those of low switches.
const OF_LOW: [Part; 4] = [
    Part::Forward(0),
    Part::Forward(1),
    Part::Reverse(0),
    Part::Reverse(1),
];

/// Those of combining switches.
const OF_COMB: [Part; 5] = [
    Part::Forward(0),
    Part::Forward(1),
    Part::Reverse(0),
    Part::Reverse(1),
    Part::Wait,
];

/// Adds these queues of a component.
fn add_parts(all: &mut Vec<PartQueue>, place: u32, parts: &[Part]) -> Result<(), AllocError>
    ensures { OnOk result (all.new.items ≡ all.old.items ++ map (λ part. record { place = place; part = part }) parts.now) }
{
    for part in parts {
        all.push(PartQueue { place, part: *part })?;
    }
    Ok(())
}

/// Adds the queues of a component.
fn add_queues(all: &mut Vec<PartQueue>, shape: Shape, place: u32) -> Result<(), AllocError>
    ensures { OnOk result (all.new.items ≡ all.old.items ++ queues_of shape place) }
{
    match shape.component(place) {
        Some(Component::Module(_)) => add_parts(all, place, &OF_MODULE),
        Some(Component::Switch { net: Net::Low, .. }) => add_parts(all, place, &OF_LOW),
        Some(Component::Switch { net: Net::Comb, .. }) => add_parts(all, place, &OF_COMB),
        Some(Component::Proc(_)) | None => Ok(()),
    }
}

/// The queues of all components.
pub(crate) fn queues(alloc: Global, shape: Shape) -> Result<Vec<PartQueue>, AllocError>
    ensures { IfOk result (λ v. v.items ≡ queues shape) }
{
    let mut all = Vec::new(alloc);
    for place in 0..shape.components() {
        add_queues(&mut all, shape, place)?;
    }
    Ok(all)
}

/// The port of a network in a module.
pub(crate) fn port_of(net: Net) -> u8
    ensures { result ≡ net_number net }
{
    match net {
        Net::Low => 0,
        Net::Comb => 1,
    }
}

/// The free places of the queue at a port.
fn free_at<T>(queues: &[Queue<T>; 2], port: u8, depth: u32) -> u32
    ensures { result ≡ free depth (queue_at queues.now port) }
{
    match queues.get(usize::from(port)) {
        Some(queue) => free(queue, depth),
        None => depth,
    }
}

/// The free places of a queue.
fn free<T>(queue: &Queue<T>, depth: u32) -> u32
    ensures { result ≡ free depth queue.now }
{
    depth.saturating_sub(queue.len() as u32)
}

/// Whether a queue is full in a component's state.
fn is_full(project: &Project, part: Part, state: &MachineState) -> bool
    ensures { result ≡ is_full project.now part (Some state.now) }
{
    match (part, state) {
        (Part::Forward(output), MachineState::Low(s)) => {
            let depth = project.depth(Depths::LowForward);
            free_at(&s.fwd, output, depth) < 2
        }
        (Part::Forward(output), MachineState::Comb(s)) => {
            let depth = project.depth(Depths::CombForward);
            free_at(&s.fwd, output, depth) < 2
        }
        (Part::Reverse(input), MachineState::Low(s)) => {
            let depth = project.depth(Depths::LowReverse);
            free_at(&s.rev, input, depth) < 2
        }
        (Part::Reverse(input), MachineState::Comb(s)) => {
            let depth = project.depth(Depths::CombReverse);
            free_at(&s.rev, input, depth) < 2
        }
        (Part::Requests(net), MachineState::Module(s)) => {
            let depth = project.depth(Depths::ModuleQueue);
            free_at(&s.requests, port_of(net), depth) == 0
        }
        (Part::Replies(net), MachineState::Module(s)) => {
            let depth = project.depth(Depths::ModuleQueue);
            free_at(&s.replies, port_of(net), depth) == 0
        }
        (Part::Wait, MachineState::Comb(s)) => free(&s.wait, project.wait()) == 0,
        _ => false,
    }
}

/// The states of all components at the present cycle, by number.
pub(crate) fn states_now(alloc: Global, runner: &Runner) -> Result<Vec<MachineState>, NoMemory>
    ensures { IfOk result (λ v. v.items ≡ states_of runner.now.row) }
{
    let shape = runner.row.shape();
    let mut states = Vec::new(alloc);
    for number in 0..shape.components() {
        let component = shape.component(number).unwrap();
        let state = runner.row.read(alloc, component)?;
        match states.push(state) {
            Ok(()) => {}
            Err(_) => return Err(NoMemory),
        }
    }
    Ok(states)
}

/// The first cycle at which a queue was full, with what these states of a cycle show.
fn with_cycle(
    before: FirstFull,
    project: &Project,
    states: &[MachineState],
    cycle: u32,
) -> FirstFull
    ensures { result ≡ with_cycle project.now (slice_get states.now) cycle before }
{
    if before.cycle.is_some() {
        return before;
    }
    match states.get(before.queue.place as usize) {
        Some(state) if is_full(project, before.queue.part, state) => FirstFull {
            cycle: Some(cycle),
            ..before
        },
        _ => before,
    }
}

/// These first cycles, with what the states of the present cycle show.
fn add_cycle(
    alloc: Global,
    project: &Project,
    runner: &Runner,
    before: &[FirstFull],
) -> Result<Vec<FirstFull>, NoMemory>
    requires at { IsAt project.now runner.now }
    ensures { AreFirst project.now runner.now.cycle before.now → IfOk result (λ v. AreFirst project.now (runner.now.cycle + 1) v.items) }
{
    let states = states_now(alloc, runner)?;
    let mut all = Vec::with_capacity(alloc, before.len())?;
    for first in before {
        all.push(with_cycle(*first, project, states.as_slice(), runner.cycle))?;
    }
    Ok(all)
}

/// These queues, where none was full yet.
fn none_full(alloc: Global, queues: &[PartQueue]) -> Result<Vec<FirstFull>, AllocError>
    ensures { IfOk result (λ v. v.items ≡ map never queues.now) }
{
    let mut all = Vec::with_capacity(alloc, queues.len())?;
    for queue in queues {
        all.push(FirstFull {
            queue: *queue,
            cycle: None,
        })?;
    }
    Ok(all)
}

/// For each queue of switches and modules, and each wait buffer, the first cycle at which it was full in the run of a project up to
/// its horizon; by component. It simulates the project from cycle 0, and keeps no state of it.
///
/// # Errors
///
/// Where a growth was refused. What was taken is given back.
pub fn first_fulls(alloc: Global, project: &Project) -> Result<Vec<FirstFull>, NoMemory>
    ensures { IfOk result (λ v. v.items ≡ first_fulls project.now (state_in (run project.now))) }
{
    project.is_project();
    let mut runner = Runner::start(alloc, project)?;
    let queues = queues(alloc, project.shape())?;
    let mut all = none_full(alloc, queues.as_slice())?;
    for _cycle in 0..project.horizon() {
        all = add_cycle(alloc, project, &runner, all.as_slice())?;
        runner.step(project)?;
    }
    add_cycle(alloc, project, &runner, all.as_slice())
}
