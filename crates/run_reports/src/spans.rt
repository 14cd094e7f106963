//! Where a reference was at each cycle of a run.
ghost use Rattle.std.specs.Prelude.{◌≡◌, ◌<◌, ◌+◌, ◌++◌, IfOk, OnOk, Some};
ghost use Rattle.omega_net.specs.Numbers.{components};
ghost use Rattle.machine_cells.specs.Run.{run};
ghost use Rattle.machine_cells.specs.Runs.{state_in};
ghost use Rattle.run_reports.specs.Traces.{carried_by, carrier, combined_at, combined_in, goes_on, has_reply_to, has_request, holds, is_queued, is_reply, is_request, place_of, spot_of, trace, with_spot};
ghost use Rattle.run_reports.specs.Runners.{IsAt};

use crate::runner::Runner;
use comb_switch::Waiting;
use grid_law::NoMemory;
use machine_cells::MachineState;
use omega_net::{Queue, Reply, Request, Tag};
use project_book::Project;
use ref_proc::Outgoing;
use std::alloc::{AllocError, Global};

/// Where a reference is at a cycle.
#[derive(Clone, Copy, PartialEq, Eq, Debug)]
pub struct Spot {
    /// The component that holds its message, by its number.
    pub place: u32,
    /// The reference whose message that is: itself, or the one that it was combined into.
    pub carrier: Tag,
}

/// Cycles at one spot, both ends included.
#[derive(Clone, Copy, PartialEq, Eq, Debug)]
pub struct Span {
    pub spot: Spot,
    pub from: u32,
    pub to: u32,
}

/// Whether the request that a processor shows has a tag.
fn is_request(out: Option<Outgoing>, tag: Tag) -> bool
    ensures { result ≡ is_request tag out }
{
    match out {
        Some(out) => out.request.tag == tag,
        None => false,
    }
}

/// Whether a reply that a processor received has a tag.
fn is_reply(got: Option<Reply>, tag: Tag) -> bool
    ensures { result ≡ is_reply tag got }
{
    match got {
        Some(got) => got.tag == tag,
        None => false,
    }
}

/// Whether some request of a queue has a tag.
fn has_request(queue: &Queue<Request>, tag: Tag) -> bool
    ensures { result ≡ has_request tag queue.now }
{
    queue.iter().any(|request| request.tag == tag)
}

/// Whether some reply of a queue has a tag.
fn has_reply_to(queue: &Queue<Reply>, tag: Tag) -> bool
    ensures { result ≡ has_reply_to tag queue.now }
{
    queue.iter().any(|reply| reply.tag == tag)
}

/// Whether some message of these queues has a tag.
fn is_queued(requests: &[Queue<Request>; 2], replies: &[Queue<Reply>; 2], tag: Tag) -> bool
    ensures { result ≡ is_queued tag requests.now replies.now }
{
    has_request(&requests[0], tag)
        || has_request(&requests[1], tag)
        || has_reply_to(&replies[0], tag)
        || has_reply_to(&replies[1], tag)
}

/// Whether a component holds a message with a tag.
fn holds(state: &MachineState, tag: Tag) -> bool
    ensures { result ≡ holds tag (Some state.now) }
{
    match state {
        MachineState::Proc(s) => {
            is_request(s.out, tag) || is_reply(s.got[0], tag) || is_reply(s.got[1], tag)
        }
        MachineState::Module(s) => is_queued(&s.requests, &s.replies, tag),
        MachineState::Low(s) => is_queued(&s.fwd, &s.rev, tag),
        MachineState::Comb(s) => is_queued(&s.fwd, &s.rev, tag),
    }
}

/// The reference into which the one with a tag was combined, as a wait buffer says, if it does.
fn combined_in(wait: &Queue<Waiting>, tag: Tag) -> Option<Tag>
    ensures { result ≡ combined_in tag wait.now }
{
    let entry = wait.iter().find(|entry| entry.second == tag)?;
    Some(entry.first)
}

/// The reference into which a switch combined the one with a tag, if it did.
fn combined_at(state: &MachineState, tag: Tag) -> Option<Tag>
    ensures { result ≡ combined_at tag (Some state.now) }
{
    match state {
        MachineState::Comb(s) => combined_in(&s.wait, tag),
        MachineState::Proc(_) | MachineState::Module(_) | MachineState::Low(_) => None,
    }
}

/// The state of a component at the present cycle, by its number.
fn state_at(
    alloc: Global,
    project: &Project,
    runner: &Runner,
    number: u32,
) -> Result<MachineState, NoMemory>
    requires at { IsAt project.now runner.now }
    requires there { number < components project.now.k }
    ensures { IfOk result (λ state. state_in (run project.now) runner.now.cycle number ≡ Some state) }
{
    let component = project.shape().component(number).unwrap();
    runner.row.read(alloc, component)
}

/// The reference into which some switch combined the one with a tag; itself where none did.
fn carried_by(alloc: Global, project: &Project, runner: &Runner, tag: Tag) -> Result<Tag, NoMemory>
    requires { IsAt project.now runner.now }
    ensures { IfOk result (λ by. by ≡ carried_by project.now.k (state_in (run project.now) runner.now.cycle) tag) }
{
    for number in 0..project.shape().components() {
        let state = state_at(alloc, project, runner, number)?;
        if let Some(first) = combined_at(&state, tag) {
            return Ok(first);
        }
    }
    Ok(tag)
}

/// The reference whose messages go for the one with a tag.
fn carrier(alloc: Global, project: &Project, runner: &Runner, tag: Tag) -> Result<Tag, NoMemory>
    requires { IsAt project.now runner.now }
    ensures { IfOk result (λ by. by ≡ carrier project.now.k (state_in (run project.now) runner.now.cycle) tag) }
{
    let mut carrier = tag;
    for _stage in 0..project.k() {
        carrier = carried_by(alloc, project, runner, carrier)?;
    }
    Ok(carrier)
}

/// The component that holds a message with a tag, by its number.
fn place_of(
    alloc: Global,
    project: &Project,
    runner: &Runner,
    tag: Tag,
) -> Result<Option<u32>, NoMemory>
    requires { IsAt project.now runner.now }
    ensures { IfOk result (λ place. place ≡ place_of project.now.k (state_in (run project.now) runner.now.cycle) tag) }
{
    for number in 0..project.shape().components() {
        let state = state_at(alloc, project, runner, number)?;
        if holds(&state, tag) {
            return Ok(Some(number));
        }
    }
    Ok(None)
}

/// Where a reference is at the present cycle.
fn spot_of(
    alloc: Global,
    project: &Project,
    runner: &Runner,
    tag: Tag,
) -> Result<Option<Spot>, NoMemory>
    requires { IsAt project.now runner.now }
    ensures { IfOk result (λ spot. spot ≡ spot_of project.now.k (state_in (run project.now) runner.now.cycle) tag) }
{
    let carrier = carrier(alloc, project, runner, tag)?;
    match place_of(alloc, project, runner, carrier)? {
        Some(place) => Ok(Some(Spot { place, carrier })),
        None => Ok(None),
    }
}

/// Whether a span goes on at a spot in a cycle.
fn goes_on(span: Option<Span>, cycle: u32, spot: Spot) -> bool
    ensures { result ≡ goes_on cycle spot span }
{
    match span {
        Some(last) => {
            last.spot.place == spot.place
                && last.spot.carrier == spot.carrier
                && u64::from(last.to) + 1 == u64::from(cycle)
        }
        None => false,
    }
}

/// Adds where a reference is at a cycle.
fn add_spot(spans: &mut Vec<Span>, cycle: u32, spot: Option<Spot>) -> Result<(), AllocError>
    ensures { OnOk result (spans.new.items ≡ with_spot cycle spot spans.old.items) }
{
    let Some(spot) = spot else { return Ok(()) };
    let last = spans.len().saturating_sub(1);
    if goes_on(spans.get(last).copied(), cycle, spot) {
        spans[last].to = cycle;
        return Ok(());
    }
    spans.push(Span {
        spot,
        from: cycle,
        to: cycle,
    })?;
    Ok(())
}

/// Where a reference was at each cycle of the run of a project up to its horizon, as spans from its issue to its reply: which
/// component held its message, or the message of the reference that it was combined into. Without any where no state shows it
/// issued. It simulates the project from cycle 0, and keeps no state of it.
///
/// # Errors
///
/// Where a growth was refused. What was taken is given back.
pub fn trace(alloc: Global, project: &Project, tag: Tag) -> Result<Vec<Span>, NoMemory>
    ensures { IfOk result (λ v. v.items ≡ trace project.now (state_in (run project.now)) tag) }
{
    project.is_project();
    let mut runner = Runner::start(alloc, project)?;
    let mut spans = Vec::new(alloc);
    for _cycle in 0..project.horizon() {
        let spot = spot_of(alloc, project, &runner, tag)?;
        add_spot(&mut spans, runner.cycle, spot)?;
        runner.step(project)?;
    }
    let spot = spot_of(alloc, project, &runner, tag)?;
    add_spot(&mut spans, runner.cycle, spot)?;
    Ok(spans)
}
