//! Routes through the networks (Lawrie 1975): which way each stage sends what passes.
ghost use Rattle.std.specs.Prelude.{◌≡◌, ◌<◌, ◌-◌};
ghost use Rattle.omega_net.specs.Numbers.{lines};
ghost use Rattle.omega_net.specs.Routes.{stage_bit as bit_at_stage, RoutesArrive};

use crate::{Shape, bit_of};

impl Shape {
    /// The output, 0 or 1, by which a stage sends on the requests for a module.
    pub fn forward_bit(self, stage: u8, number: u8) -> u8
        requires stage { stage < self }
        requires there { number < lines self }
        ensures value { result ≡ bit_at_stage self stage number }
        ensures port { result < 2 }
    {
        bit_of(number, self.deciding_bit(stage))
    }

    /// The input, 0 or 1, by which a stage sends back the replies to a processor.
    pub fn reverse_bit(self, stage: u8, proc: u8) -> u8
        requires stage { stage < self }
        requires there { proc < lines self }
        ensures value { result ≡ bit_at_stage self stage proc }
        ensures port { result < 2 }
    {
        bit_of(proc, self.deciding_bit(stage))
    }

    /// The bit of a module's or a processor's number by which a stage decides, the lowest being bit 0.
    pub fn deciding_bit(self, stage: u8) -> u32
        ensures { result ≡ self - 1 - stage }
    {
        self.k().saturating_sub(1).saturating_sub(u32::from(stage))
    }
}

/// On every machine and in both networks, the wires that the forward bits lead along from a
/// processor for a module are those of the route by lines and bits, which ends at the module, and
/// the reverse bits lead back along them to the processor.
pub fn routes_arrive()
    ensures { RoutesArrive }
{}
