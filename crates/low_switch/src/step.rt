//! A low switch's step.
ghost use Rattle.std.specs.Prelude.{◌≡◌, ◌<◌, IfOk};
ghost use Rattle.omega_net.specs.Ports.{request_to, reply_to};
ghost use Rattle.low_switch.specs.LowSwitch.{low_after, fwd_after, fwd_turn_after, rev_after, rev_turn_after};

use crate::LowState;
use omega_net::{Queue, Reply, Request, Traffic, bit_of, queue_after, turn_after};
use std::alloc::{AllocError, Global};

impl LowState {
    /// The state one cycle later, where its stage decides by that bit: heads leave first, then what comes from 0 joins
    /// before what comes from 1.
    ///
    /// # Errors
    ///
    /// Where a growth was refused. The state is as before.
    pub fn step(&self, alloc: Global, bit: u32, traffic: &Traffic) -> Result<LowState, AllocError>
        ensures { IfOk result (λ next. next ≡ low_after bit traffic.now self.now) }
    {
        Ok(LowState {
            fwd: [
                self.fwd_after(alloc, bit, traffic, 0)?,
                self.fwd_after(alloc, bit, traffic, 1)?,
            ],
            turn: [
                self.turn_after(bit, traffic, 0),
                self.turn_after(bit, traffic, 1),
            ],
            rev: [
                self.rev_after(alloc, bit, traffic, 0)?,
                self.rev_after(alloc, bit, traffic, 1)?,
            ],
            rturn: [
                self.rturn_after(bit, traffic, 0),
                self.rturn_after(bit, traffic, 1),
            ],
        })
    }

    fn fwd_after(
        &self,
        alloc: Global,
        bit: u32,
        traffic: &Traffic,
        output: u8,
    ) -> Result<Queue<Request>, AllocError>
        requires { output < 2 }
        ensures { IfOk result (λ queue. queue ≡ fwd_after bit traffic.now self.now output) }
    {
        let first = request_to(bit, output, traffic.requests[0]);
        let second = request_to(bit, output, traffic.requests[1]);
        let leaves = traffic.requests_leave[output as usize];
        queue_after(alloc, &self.fwd[output as usize], leaves, first, second)
    }

    fn turn_after(&self, bit: u32, traffic: &Traffic, output: u8) -> u8
        requires { output < 2 }
        ensures { result ≡ fwd_turn_after bit traffic.now self.now output }
    {
        let first = request_to(bit, output, traffic.requests[0]);
        let second = request_to(bit, output, traffic.requests[1]);
        let turn = self.turn[output as usize];
        turn_after(turn, first.is_some(), second.is_some())
    }

    fn rev_after(
        &self,
        alloc: Global,
        bit: u32,
        traffic: &Traffic,
        input: u8,
    ) -> Result<Queue<Reply>, AllocError>
        requires { input < 2 }
        ensures { IfOk result (λ queue. queue ≡ rev_after bit traffic.now self.now input) }
    {
        let first = reply_to(bit, input, traffic.replies[0]);
        let second = reply_to(bit, input, traffic.replies[1]);
        let leaves = traffic.replies_leave[input as usize];
        queue_after(alloc, &self.rev[input as usize], leaves, first, second)
    }

    fn rturn_after(&self, bit: u32, traffic: &Traffic, input: u8) -> u8
        requires { input < 2 }
        ensures { result ≡ rev_turn_after bit traffic.now self.now input }
    {
        let first = reply_to(bit, input, traffic.replies[0]);
        let second = reply_to(bit, input, traffic.replies[1]);
        let turn = self.rturn[input as usize];
        turn_after(turn, first.is_some(), second.is_some())
    }
}

/// The request, if it goes to that output.
fn request_to(bit: u32, output: u8, request: Option<Request>) -> Option<Request>
    ensures { result ≡ request_to bit output request }
{
    request.filter(|r| bit_of(r.place.module, bit) == output)
}

/// The reply, if it goes to that input.
fn reply_to(bit: u32, input: u8, reply: Option<Reply>) -> Option<Reply>
    ensures { result ≡ reply_to bit input reply }
{
    reply.filter(|r| bit_of(r.tag.proc, bit) == input)
}
