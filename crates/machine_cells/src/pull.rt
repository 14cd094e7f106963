//! What goes over a component's wires, pulled from its near states.
ghost use Rattle.std.specs.Prelude.{◌≡◌, ℕ, ◌≤◌, ◌-◌, map, Some, is_some};
ghost use Rattle.std.specs.Option.{option_copied};
ghost use Rattle.omega_net.specs.Wires.{lower_end, upper_end, input_of, output_of};
ghost use Rattle.omega_net.specs.declared.component.Component.TheVariants.{Switch as SwitchAt};
ghost use Rattle.machine_cells.specs.Moves.{request_on, reply_on, takes_request, takes_reply, request_between, reply_between, at_ends};
ghost use Rattle.machine_cells.specs.Cells.{request_pulled, reply_pulled};

use crate::MachineState;
use crate::near::{NearState, state_at};
use crate::switch::Switch;
use omega_net::{Component, Net, Reply, Request, Shape, Wire};
use project_book::{Depths, Project};

/// The request that a component shows on a wire at its memory side.
fn request_on(wire: Wire, state: &MachineState) -> Option<&Request>
    ensures { option_copied result ≡ request_on wire state.now }
{
    match state {
        MachineState::Proc(s) => s.offer(wire.net),
        MachineState::Module(_) => None,
        MachineState::Low(s) => s.offer_forward(wire.output()),
        MachineState::Comb(s) => s.offer_forward(wire.output()),
    }
}

/// The reply that a component shows on a wire at its processor side.
fn reply_on(shape: Shape, wire: Wire, state: &MachineState) -> Option<&Reply>
    ensures { option_copied result ≡ reply_on shape wire state.now }
{
    match state {
        MachineState::Proc(_) => None,
        MachineState::Module(s) => s.offer(wire.net),
        MachineState::Low(s) => s.offer_reverse(shape.input(wire)),
        MachineState::Comb(s) => s.offer_reverse(shape.input(wire)),
    }
}

/// Whether the component at a wire's memory side takes this request from it.
#[inline(always)]
fn takes_request(
    project: &Project,
    shape: Shape,
    wire: Wire,
    request: &Request,
    state: &MachineState,
) -> bool
    requires shape { shape ≡ project.now.k }
    requires stage { wire.stage ≤ shape }
    ensures { result ≡ takes_request project.now wire request.now state.now }
{
    match (shape.lower_end(wire), state) {
        (Component::Module(_), MachineState::Module(s)) => {
            s.ready(project.depth(Depths::ModuleQueue), wire.net)
        }
        (
            Component::Switch {
                net: Net::Low,
                stage,
                ..
            },
            MachineState::Low(s),
        ) => {
            let depth = project.depth(Depths::LowForward);
            s.ready_forward(depth, shape.deciding_bit(stage), shape.input(wire), request)
        }
        (
            Component::Switch {
                net: Net::Comb,
                stage,
                ..
            },
            MachineState::Comb(s),
        ) => {
            let depth = project.depth(Depths::CombForward);
            s.ready_forward(depth, shape.deciding_bit(stage), shape.input(wire), request)
        }
        _ => false,
    }
}

/// Whether the component at a wire's processor side takes this reply from it.
#[inline(always)]
fn takes_reply(
    project: &Project,
    shape: Shape,
    wire: Wire,
    reply: &Reply,
    state: &MachineState,
) -> bool
    requires { shape ≡ project.now.k }
    ensures { result ≡ takes_reply project.now wire reply.now state.now }
{
    match (wire.upper_end(), state) {
        (Component::Proc(_), MachineState::Proc(_)) => true,
        (
            Component::Switch {
                net: Net::Low,
                stage,
                ..
            },
            MachineState::Low(s),
        ) => {
            let depth = project.depth(Depths::LowReverse);
            s.ready_reverse(depth, shape.deciding_bit(stage), wire.output(), reply)
        }
        (Component::Switch { net: Net::Comb, .. }, MachineState::Comb(s)) => s.ready_reverse(
            project.depth(Depths::CombReverse),
            wire.output(),
        ),
        _ => false,
    }
}

/// The request that goes over a wire between the near states at these two places.
#[inline(always)]
pub(crate) fn request_pulled<'a, S: NearState>(
    project: &Project,
    shape: Shape,
    near: &'a [S],
    wire: Wire,
    upper: usize,
    lower: usize,
) -> Option<&'a Request>
    requires shape { shape ≡ project.now.k }
    requires stage { wire.stage ≤ shape }
    ensures { option_copied result ≡ request_pulled project.now (map S.state near.now) wire upper lower }
{
    let from = state_at(near, upper)?;
    let to = state_at(near, lower)?;
    let request = request_on(wire, from)?;
    if takes_request(project, shape, wire, request, to) {
        Some(request)
    } else {
        None
    }
}

/// The reply that goes over a wire between the near states at these two places.
#[inline(always)]
pub(crate) fn reply_pulled<'a, S: NearState>(
    project: &Project,
    shape: Shape,
    near: &'a [S],
    wire: Wire,
    upper: usize,
    lower: usize,
) -> Option<&'a Reply>
    requires { shape ≡ project.now.k }
    ensures { option_copied result ≡ reply_pulled project.now (map S.state near.now) wire upper lower }
{
    let to = state_at(near, upper)?;
    let from = state_at(near, lower)?;
    let reply = reply_on(shape, wire, from)?;
    if takes_reply(project, shape, wire, reply, to) {
        Some(reply)
    } else {
        None
    }
}

/// The request that comes to a switch by one of its inputs, from the component above it.
#[inline(always)]
pub(crate) fn request_in<'a, W: Switch>(
    project: &Project,
    shape: Shape,
    wire: Wire,
    input: u8,
    upper: Option<&'a MachineState>,
    own: &W,
) -> Option<&'a Request>
    requires shape { shape ≡ project.now.k }
    requires end { (index : ℕ) × (lower_end shape wire ≡ SwitchAt W.net wire.stage index) }
    requires input { input_of shape wire ≡ input }
    ensures { option_copied result ≡ at_ends (request_between project.now wire) (option_copied upper.entry) (Some (W.state own.now)) }
{
    let request = request_on(wire, upper?)?;
    if own.takes_request(project, shape, wire.stage, input, request) {
        Some(request)
    } else {
        None
    }
}

/// Whether the request at the head of an output of a switch goes on to the component below it.
#[inline(always)]
pub(crate) fn request_leaves<W: Switch>(
    project: &Project,
    shape: Shape,
    wire: Wire,
    output: u8,
    own: &W,
    lower: Option<&MachineState>,
) -> bool
    requires shape { shape ≡ project.now.k }
    requires stage { wire.stage ≤ shape }
    requires output { output_of wire ≡ output }
    ensures { result ≡ is_some (at_ends (request_between project.now wire) (Some (W.state own.now)) (option_copied lower.entry)) }
{
    match (own.shown_forward(output), lower) {
        (Some(request), Some(lower)) => takes_request(project, shape, wire, request, lower),
        _ => false,
    }
}

/// The reply that comes to a switch by one of its outputs, from the component below it.
#[inline(always)]
pub(crate) fn reply_in<'a, W: Switch>(
    project: &Project,
    shape: Shape,
    wire: Wire,
    stage: u8,
    output: u8,
    own: &W,
    lower: Option<&'a MachineState>,
) -> Option<&'a Reply>
    requires shape { shape ≡ project.now.k }
    requires end { (index : ℕ) × (upper_end wire ≡ SwitchAt W.net stage index) }
    requires output { output_of wire ≡ output }
    ensures { option_copied result ≡ at_ends (reply_between project.now wire) (Some (W.state own.now)) (option_copied lower.entry) }
{
    let reply = reply_on(shape, wire, lower?)?;
    if own.takes_reply(project, shape, stage, output, reply) {
        Some(reply)
    } else {
        None
    }
}

/// Whether the reply at the head of an input of a switch goes on to the component above it.
#[inline(always)]
pub(crate) fn reply_leaves<W: Switch>(
    project: &Project,
    shape: Shape,
    wire: Wire,
    input: u8,
    upper: Option<&MachineState>,
    own: &W,
) -> bool
    requires shape { shape ≡ project.now.k }
    requires input { input_of shape wire ≡ input }
    ensures { result ≡ is_some (at_ends (reply_between project.now wire) (option_copied upper.entry) (Some (W.state own.now))) }
{
    match (own.shown_back(input), upper) {
        (Some(reply), Some(upper)) => takes_reply(project, shape, wire, reply, upper),
        _ => false,
    }
}
