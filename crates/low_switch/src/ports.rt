//! What a low switch takes in the coming step, and what it shows.
ghost use Rattle.std.specs.Prelude.{◌≡◌};
ghost use Rattle.std.specs.Option.{option_copied};
ghost use Rattle.omega_net.specs.Wires.{bit as bit_at};
ghost use Rattle.low_switch.specs.LowSwitch.{low_takes_request, low_takes_reply, low_request, low_reply};

use crate::LowState;
use omega_net::{Reply, Request, bit_of, has_room, head};

impl LowState {
    /// Whether it takes this request at an input in the coming step, where its stage decides by that bit of the module
    /// and its output queues have this depth. An input from 2 on is taken where there are two free places.
    pub fn ready_forward(&self, depth: u32, bit: u32, input: u8, request: &Request) -> bool
        ensures { result ≡ low_takes_request self.now depth input (bit_at bit request.now.place.«module») }
    {
        let output = bit_of(request.place.module, bit) as usize;
        has_room(&self.fwd[output], depth, self.turn[output], input)
    }

    /// Whether it takes this reply at a side of its outputs in the coming step, where its stage decides by that bit of
    /// the processor and its reverse queues have this depth.
    pub fn ready_reverse(&self, depth: u32, bit: u32, side: u8, reply: &Reply) -> bool
        ensures { result ≡ low_takes_reply self.now depth side (bit_at bit reply.now.tag.proc) }
    {
        let input = bit_of(reply.tag.proc, bit) as usize;
        has_room(&self.rev[input], depth, self.rturn[input], side)
    }

    /// The request at the head of an output; none from output 2 on.
    pub fn offer_forward(&self, output: u8) -> Option<&Request>
        ensures { option_copied result ≡ low_request self.now output }
    {
        head(self.fwd.get(output as usize)?)
    }

    /// The reply at the head of an input; none from input 2 on.
    pub fn offer_reverse(&self, input: u8) -> Option<&Reply>
        ensures { option_copied result ≡ low_reply self.now input }
    {
        head(self.rev.get(input as usize)?)
    }
}
