//! How large a machine is.
ghost use Rattle.std.specs.Prelude.{◌≡◌, ◌≤◌, ◌+◌, ◌*◌, ◌/◌, ◌^◌};
ghost use Rattle.std.specs.Option.{SomeIff};
ghost use Rattle.omega_net.specs.Numbers.{lines, half, components};
ghost use Rattle.page_map.specs.Limits.{max_k};

use page_map::MAX_K;
use std::marker::Model;

/// A machine of 2^k processors, as many memory modules, and two omega networks of k stages each,
/// with k from 0 to [`MAX_K`].
///
/// No call takes memory, and each takes a fixed time.
#[derive(Clone, Copy, PartialEq, Eq, Debug)]
pub struct Shape {
    stages: u32,
}

impl Model for Shape {
    ghost use Rattle.std.specs.Prelude.{ℕ, ◌≤◌};
    ghost use Rattle.page_map.specs.Limits.{max_k};

    ghost Value = { ℕ };

    ghost view = { λ s. s.stages };

    ghost invariant = { λ s. s.stages ≤ max_k };

    ghost inverse = { λ k. record { stages = k } };
}

impl Shape {
    /// The machine of 2^k processors, or None where k is above [`MAX_K`].
    pub fn new(k: u32) -> Option<Self>
        ensures { SomeIff result (k ≤ max_k) k }
    {
        if k <= MAX_K {
            Some(Shape { stages: k })
        } else {
            None
        }
    }

    /// The stages of each network.
    pub fn k(self) -> u32
        ensures value { result ≡ self }
        ensures within { result ≤ max_k }
    {
        self.stages
    }

    /// The lines of each network: as many as there are processors, and modules.
    pub fn lines(self) -> u32
        ensures value { result ≡ lines self }
        ensures within { result ≤ 2 ^ max_k }
    {
        1 << self.stages
    }

    /// The switches of each stage; none where there is no stage.
    pub fn half(self) -> u32
        ensures value { result ≡ half self }
        ensures within { result + result ≤ 2 ^ max_k }
    {
        self.lines() / 2
    }

    /// How many components there are.
    pub fn components(self) -> u32
        ensures value { result ≡ components self }
        ensures within { result ≤ (2 + max_k) * 2 ^ max_k }
    {
        2 * self.lines() + 2 * (self.k() * self.half())
    }

    /// A number divided by the switches of a stage; 0 where there is no stage. They are a power of two, so it is shifted.
    #[tactic(auto, using(crate::proofs::Numbering::half_power, crate::proofs::Numbering::by_no_half))]
    pub(crate) fn by_half(self, number: u32) -> u32
        ensures { result ≡ number / half self }
    {
        if self.stages == 0 {
            0
        } else {
            number >> (self.stages - 1)
        }
    }
}
