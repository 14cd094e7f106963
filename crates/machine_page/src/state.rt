//! A component's state as the page has it.
ghost use Rattle.std.specs.Prelude.{◌≡◌, ◌++◌, ◌==◌, nat_lt, OnOk, Some, string_bytes};
ghost use Rattle.omega_net.specs.Queues.{free};
ghost use Rattle.machine_page.specs.States.{comb_text, got_text, gots_text, low_text, mark_text, module_text, out_text, proc_text, replies_text, reply_pair, reply_tags, request_pair, request_tags, requests_text, served_text, state_text, wait_tags, wait_text};

use comb_switch::{CombState, Waiting};
use low_switch::LowState;
use machine_cells::MachineState;
use mem_module::ModuleState;
use omega_net::{Net, Queue, Reply, Request, free};
use project_book::{Depths, Project};
use ref_proc::{Outgoing, ProcState};
use std::alloc::AllocError;
use std::fmt;
use std::fmt::Write;

/// The request that a processor shows, with the letter of its network; nothing where there is none.
#[derive(Clone, Copy)]
struct Out(Option<Outgoing>);

impl fmt::Display for Out {
    ghost output = { λ out. Some (out_text out.0) };

    fn fmt<W: fmt::Write>(&self, f: &mut fmt::Formatter<W>) -> fmt::Result {
        let Some(out) = self.0 else { return Ok(()) };
        let tag = out.request.tag;
        match out.net {
            Net::Low => write!(f, "l{tag}"),
            Net::Comb => write!(f, "c{tag}"),
        }
    }
}

/// The reference whose reply a processor received; nothing where there is none.
#[derive(Clone, Copy)]
struct Got(Option<Reply>);

impl fmt::Display for Got {
    ghost output = { λ got. Some (got_text got.0) };

    fn fmt<W: fmt::Write>(&self, f: &mut fmt::Formatter<W>) -> fmt::Result {
        match self.0 {
            Some(reply) => {
                let tag = reply.tag;
                write!(f, "{tag}")
            }
            None => Ok(()),
        }
    }
}

/// Adds the replies that a processor received, by network.
fn add_got(text: &mut String, got: &[Option<Reply>; 2]) -> Result<(), AllocError>
    ensures { OnOk result (string_bytes text.new ≡ string_bytes text.old ++ gots_text got.now) }
{
    let (low, comb) = (Got(got[0]), Got(got[1]));
    write!(text, "{low},{comb}")
}

/// Adds a processor's state.
fn add_proc(text: &mut String, state: &ProcState) -> Result<(), AllocError>
    ensures { OnOk result (string_bytes text.new ≡ string_bytes text.old ++ proc_text state.now) }
{
    let (issued, pending) = (state.issued, state.pending);
    let out = Out(state.out);
    write!(text, "{issued},{pending},{out},")?;
    add_got(text, &state.got)
}

/// Adds the references of requests.
fn add_request_tags(text: &mut String, requests: &[Request]) -> Result<(), AllocError>
    ensures { OnOk result (string_bytes text.new ≡ string_bytes text.old ++ request_tags requests.now) }
{
    for request in requests {
        let tag = request.tag;
        write!(text, " {tag}")?;
    }
    Ok(())
}

/// Adds the references of replies.
fn add_reply_tags(text: &mut String, replies: &[Reply]) -> Result<(), AllocError>
    ensures { OnOk result (string_bytes text.new ≡ string_bytes text.old ++ reply_tags replies.now) }
{
    for reply in replies {
        let tag = reply.tag;
        write!(text, " {tag}")?;
    }
    Ok(())
}

/// Adds the references of wait entries: the one that waits, and the one that it was combined into.
fn add_wait_tags(text: &mut String, entries: &[Waiting]) -> Result<(), AllocError>
    ensures { OnOk result (string_bytes text.new ≡ string_bytes text.old ++ wait_tags entries.now) }
{
    for entry in entries {
        let (first, second) = (entry.first, entry.second);
        write!(text, " {second}>{first}")?;
    }
    Ok(())
}

/// Adds the mark of a full queue.
fn add_mark(text: &mut String, is_full: bool) -> Result<(), AllocError>
    ensures { OnOk result (string_bytes text.new ≡ string_bytes text.old ++ mark_text is_full) }
{
    if is_full { text.push_str("!") } else { Ok(()) }
}

/// Adds a queue of requests.
fn add_requests(text: &mut String, queue: &Queue<Request>, is_full: bool) -> Result<(), AllocError>
    ensures { OnOk result (string_bytes text.new ≡ string_bytes text.old ++ requests_text is_full queue.now) }
{
    add_request_tags(text, queue.as_slice())?;
    add_mark(text, is_full)
}

/// Adds a queue of replies.
fn add_replies(text: &mut String, queue: &Queue<Reply>, is_full: bool) -> Result<(), AllocError>
    ensures { OnOk result (string_bytes text.new ≡ string_bytes text.old ++ replies_text is_full queue.now) }
{
    add_reply_tags(text, queue.as_slice())?;
    add_mark(text, is_full)
}

/// Adds a wait buffer.
fn add_wait(text: &mut String, queue: &Queue<Waiting>, is_full: bool) -> Result<(), AllocError>
    ensures { OnOk result (string_bytes text.new ≡ string_bytes text.old ++ wait_text is_full queue.now) }
{
    add_wait_tags(text, queue.as_slice())?;
    add_mark(text, is_full)
}

/// Adds two queues of requests, a comma between.
fn add_request_pair(
    text: &mut String,
    queues: &[Queue<Request>; 2],
    first_full: bool,
    second_full: bool,
) -> Result<(), AllocError>
    ensures { OnOk result (string_bytes text.new ≡ string_bytes text.old ++ request_pair first_full second_full queues.now) }
{
    add_requests(text, &queues[0], first_full)?;
    text.push_str(",")?;
    add_requests(text, &queues[1], second_full)
}

/// Adds two queues of replies, a comma between.
fn add_reply_pair(
    text: &mut String,
    queues: &[Queue<Reply>; 2],
    first_full: bool,
    second_full: bool,
) -> Result<(), AllocError>
    ensures { OnOk result (string_bytes text.new ≡ string_bytes text.old ++ reply_pair first_full second_full queues.now) }
{
    add_replies(text, &queues[0], first_full)?;
    text.push_str(",")?;
    add_replies(text, &queues[1], second_full)
}

/// Whether a queue of a switch is full: two messages may come in a step.
fn is_switch_full<T>(queue: &Queue<T>, depth: u32) -> bool
    ensures { result ≡ nat_lt (free depth queue.now) 2 }
{
    free(queue, depth) < 2
}

/// Whether another queue is full.
fn has_no_place<T>(queue: &Queue<T>, depth: u32) -> bool
    ensures { result ≡ (free depth queue.now == 0) }
{
    free(queue, depth) == 0
}

/// Adds the queues of a low switch.
fn add_low(text: &mut String, project: &Project, state: &LowState) -> Result<(), AllocError>
    ensures { OnOk result (string_bytes text.new ≡ string_bytes text.old ++ low_text project.now state.now) }
{
    let forward = project.depth(Depths::LowForward);
    let reverse = project.depth(Depths::LowReverse);
    let f0 = is_switch_full(&state.fwd[0], forward);
    let f1 = is_switch_full(&state.fwd[1], forward);
    let r0 = is_switch_full(&state.rev[0], reverse);
    let r1 = is_switch_full(&state.rev[1], reverse);
    add_request_pair(text, &state.fwd, f0, f1)?;
    text.push_str(",")?;
    add_reply_pair(text, &state.rev, r0, r1)
}

/// Adds the queues of a combining switch, and its wait buffer.
fn add_comb(text: &mut String, project: &Project, state: &CombState) -> Result<(), AllocError>
    ensures { OnOk result (string_bytes text.new ≡ string_bytes text.old ++ comb_text project.now state.now) }
{
    let forward = project.depth(Depths::CombForward);
    let reverse = project.depth(Depths::CombReverse);
    let f0 = is_switch_full(&state.fwd[0], forward);
    let f1 = is_switch_full(&state.fwd[1], forward);
    let r0 = is_switch_full(&state.rev[0], reverse);
    let r1 = is_switch_full(&state.rev[1], reverse);
    let wait = has_no_place(&state.wait, project.wait());
    add_request_pair(text, &state.fwd, f0, f1)?;
    text.push_str(",")?;
    add_reply_pair(text, &state.rev, r0, r1)?;
    text.push_str(",")?;
    add_wait(text, &state.wait, wait)
}

/// Whether a module served a request.
fn served(is_served: bool) -> &'static str
    ensures { result.now ≡ served_text is_served }
{
    if is_served { "1" } else { "0" }
}

/// Adds a module's state.
fn add_module(text: &mut String, project: &Project, state: &ModuleState) -> Result<(), AllocError>
    ensures { OnOk result (string_bytes text.new ≡ string_bytes text.old ++ module_text project.now state.now) }
{
    let depth = project.depth(Depths::ModuleQueue);
    let q0 = has_no_place(&state.requests[0], depth);
    let q1 = has_no_place(&state.requests[1], depth);
    let a0 = has_no_place(&state.replies[0], depth);
    let a1 = has_no_place(&state.replies[1], depth);
    text.push_str(served(state.served))?;
    text.push_str(",")?;
    add_request_pair(text, &state.requests, q0, q1)?;
    text.push_str(",")?;
    add_reply_pair(text, &state.replies, a0, a1)
}

/// Adds the state of a component.
pub(crate) fn add_state(
    text: &mut String,
    project: &Project,
    state: &MachineState,
) -> Result<(), AllocError>
    ensures { OnOk result (string_bytes text.new ≡ string_bytes text.old ++ state_text project.now (Some state.now)) }
{
    match state {
        MachineState::Proc(s) => add_proc(text, s),
        MachineState::Module(s) => add_module(text, project, s),
        MachineState::Low(s) => add_low(text, project, s),
        MachineState::Comb(s) => add_comb(text, project, s),
    }
}
