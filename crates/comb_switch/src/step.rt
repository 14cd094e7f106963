//! A combining switch's step.
ghost use Rattle.std.specs.Prelude.{◌≡◌, ◌<◌, ◌≤◌, is_some, IfOk};
ghost use Rattle.omega_net.specs.Ports.{request_to};
ghost use Rattle.omega_net.specs.Queues.{without_head};
ghost use Rattle.comb_switch.specs.CombSwitch.{comb_after, departed, comb_turn_after};

use crate::combine::arrives;
use crate::returns::returns_to;
use crate::{CombSettings, CombState};
use omega_net::{Queue, Reply, Request, Traffic, bit_of, rest_of, turn_after};
use std::alloc::{AllocError, Global};

impl CombState {
    /// The state one cycle later: heads leave first, then requests arrive, from input 0 before input 1, then replies
    /// return, from side 0 before side 1.
    ///
    /// # Errors
    ///
    /// Where a growth was refused. The state is as before.
    pub fn step(
        &self,
        alloc: Global,
        settings: &CombSettings,
        traffic: &Traffic,
    ) -> Result<CombState, AllocError>
        ensures { IfOk result (λ next. next ≡ comb_after settings.now traffic.now self.now) }
    {
        let mut next = self.departed(alloc, settings, traffic)?;
        arrives(settings, traffic.requests[0], &mut next)?;
        arrives(settings, traffic.requests[1], &mut next)?;
        returns_to(settings, traffic.replies[0], &mut next)?;
        returns_to(settings, traffic.replies[1], &mut next)?;
        Ok(next)
    }

    /// What stays when heads have left and turns have gone on, with room for what comes.
    fn departed(
        &self,
        alloc: Global,
        settings: &CombSettings,
        traffic: &Traffic,
    ) -> Result<CombState, AllocError>
        ensures { IfOk result (λ next. next ≡ departed settings.now traffic.now self.now) }
    {
        let [leaves_0, leaves_1] = traffic.requests_leave;
        let [returns_0, returns_1] = traffic.replies_leave;
        let coming_0 = coming(settings.bit, 0, &traffic.requests);
        let coming_1 = coming(settings.bit, 1, &traffic.requests);
        Ok(CombState {
            fwd: [
                rest_of(alloc, &self.fwd[0], leaves_0, coming_0)?,
                rest_of(alloc, &self.fwd[1], leaves_1, coming_1)?,
            ],
            rev: [
                replies_of(alloc, &self.rev[0], returns_0, &traffic.replies)?,
                replies_of(alloc, &self.rev[1], returns_1, &traffic.replies)?,
            ],
            wait: rest_of(alloc, &self.wait, false, 0)?,
            turn: [
                self.turn_after(settings, traffic, 0),
                self.turn_after(settings, traffic, 1),
            ],
            rturn: turn_after(
                self.rturn,
                traffic.replies[0].is_some(),
                traffic.replies[1].is_some(),
            ),
            combined: 0,
        })
    }

    fn turn_after(&self, settings: &CombSettings, traffic: &Traffic, output: u8) -> u8
        requires { output < 2 }
        ensures { result ≡ comb_turn_after settings.now traffic.now self.now output }
    {
        let first = goes_to(settings.bit, output, traffic.requests[0]);
        let second = goes_to(settings.bit, output, traffic.requests[1]);
        turn_after(self.turn[output as usize], first, second)
    }
}

/// Whether the request goes to that output.
fn goes_to(bit: u32, output: u8, request: Option<Request>) -> bool
    ensures { result ≡ is_some (request_to bit output request) }
{
    match request {
        Some(r) => bit_of(r.place.module, bit) == output,
        None => false,
    }
}

/// How many of the requests that come go to that output.
fn coming(bit: u32, output: u8, requests: &[Option<Request>; 2]) -> usize
    ensures { result ≤ 2 }
{
    usize::from(goes_to(bit, output, requests[0])) + usize::from(goes_to(bit, output, requests[1]))
}

/// What a queue of replies holds after its head left, if it leaves, with room for what may come: two of each reply. An
/// empty one is left without room, since all of them may go to the other queue.
fn replies_of(
    alloc: Global,
    queue: &Queue<Reply>,
    leaves: bool,
    replies: &[Option<Reply>; 2],
) -> Result<Queue<Reply>, AllocError>
    ensures { IfOk result (λ rest. rest ≡ without_head leaves queue.now) }
{
    let coming = usize::from(replies[0].is_some()) + usize::from(replies[1].is_some());
    let room = if queue.is_empty() { 0 } else { 2 * coming };
    rest_of(alloc, queue, leaves, room)
}
