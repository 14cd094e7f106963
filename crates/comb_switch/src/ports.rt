//! What a combining switch takes in the coming step, and what it shows.
ghost use Rattle.std.specs.Prelude.{◌≡◌};
ghost use Rattle.std.specs.Option.{option_copied};
ghost use Rattle.omega_net.specs.Wires.{bit as bit_at};
ghost use Rattle.comb_switch.specs.CombSwitch.{comb_takes_request, comb_takes_reply, comb_request, comb_reply};

use crate::CombState;
use omega_net::{Reply, Request, bit_of, free, has_room, head};

impl CombState {
    /// Whether it takes this request at an input in the coming step, where its stage decides by that bit of the module
    /// and its output queues have this depth. An input from 2 on is taken where there are two free places.
    pub fn ready_forward(&self, depth: u32, bit: u32, input: u8, request: &Request) -> bool
        ensures { result ≡ comb_takes_request self.now depth input (bit_at bit request.now.place.«module») }
    {
        let output = bit_of(request.place.module, bit) as usize;
        has_room(&self.fwd[output], depth, self.turn[output], input)
    }

    /// Whether it takes a reply at a side of its outputs in the coming step, where its reverse queues have this depth.
    /// A reply may become two, so both sides are taken where each queue has four free places, and the side whose turn
    /// it is where each has two.
    pub fn ready_reverse(&self, depth: u32, side: u8) -> bool
        ensures { result ≡ comb_takes_reply self.now depth side }
    {
        let room = free(&self.rev[0], depth).min(free(&self.rev[1], depth));
        room >= 4 || (room >= 2 && self.rturn == side)
    }

    /// The request at the head of an output; none from output 2 on.
    pub fn offer_forward(&self, output: u8) -> Option<&Request>
        ensures { option_copied result ≡ comb_request self.now output }
    {
        head(self.fwd.get(output as usize)?)
    }

    /// The reply at the head of an input; none from input 2 on.
    pub fn offer_reverse(&self, input: u8) -> Option<&Reply>
        ensures { option_copied result ≡ comb_reply self.now input }
    {
        head(self.rev.get(input as usize)?)
    }
}
