//! Sets of labels at a stage: each switch has a label of port 0, in which the bit by which the stage decides is 0, and one
//! of port 1, which is the same with that bit.
ghost use Rattle.std.specs.Prelude.{◌≡◌, ◌<◌, ◌^◌, ◌==◌, ◌&&◌};
ghost use Rattle.omega_net.specs.Wires.{bit};
ghost use Rattle.flat_row.specs.Labels.{port};
ghost use Rattle.flat_row.specs.Masks.{has, IsSetOf};

/// The labels in which a bit is 0, by bit.
const FIRST_PORTS: [u64; 6] = [
    0x5555_5555_5555_5555,
    0x3333_3333_3333_3333,
    0x0f0f_0f0f_0f0f_0f0f,
    0x00ff_00ff_00ff_00ff,
    0x0000_ffff_0000_ffff,
    0x0000_0000_ffff_ffff,
];

/// The labels of port 0, at a stage that decides by a bit.
#[tactic(auto, using(crate::proofs::Masking::first_ports))]
fn first_ports(by: u32) -> u64
    requires { by < 6 }
    ensures { IsSetOf (λ x. bit by x == 0) result }
{
    FIRST_PORTS[by as usize]
}

/// How far it is from a switch's label of port 0 to that of port 1.
fn distance(by: u32) -> u32
    requires { by < 6 }
    ensures value { result ≡ 2 ^ by }
    ensures within { result < 64 }
{
    1 << by
}

/// Those of a set at port 0.
#[tactic(auto, using(crate::proofs::Masking::has_and))]
pub(crate) fn at_first(by: u32, set: u64) -> u64
    requires { by < 6 }
    ensures { IsSetOf (λ x. (bit by x == 0) && has set x) result }
{
    first_ports(by) & set
}

/// Those of a set at port 1.
#[tactic(auto, using(crate::proofs::Masking::has_and, crate::proofs::Masking::has_not))]
pub(crate) fn at_second(by: u32, set: u64) -> u64
    requires { by < 6 }
    ensures { IsSetOf (λ x. (bit by x == 1) && has set x) result }
{
    !first_ports(by) & set
}

/// The labels of port 0 whose switches have the label of port 1 in a set.
#[tactic(auto, using(crate::proofs::Masking::has_and))]
pub(crate) fn to_first(by: u32, set: u64) -> u64
    requires { by < 6 }
    ensures { IsSetOf (λ x. (bit by x == 0) && has set (port by 1 x)) result }
{
    first_ports(by) & (set >> distance(by))
}

/// The labels of port 1 whose switches have the label of port 0 in a set.
#[tactic(auto, using(crate::proofs::Masking::has_and))]
pub(crate) fn to_second(by: u32, set: u64) -> u64
    requires { by < 6 }
    ensures { IsSetOf (λ x. (bit by x == 1) && has set (port by 0 x)) result }
{
    !first_ports(by) & (set << distance(by))
}
