//! Labels of a set.
ghost use Rattle.std.specs.Prelude.{◌≡◌, ◌<◌, ◌||◌, not};
ghost use Rattle.omega_net.specs.Wires.{bit};
ghost use Rattle.flat_row.specs.Masks.{has, are_empty, IsSetOf};

/// A label's bit in a set.
pub(crate) fn bit_in(set: u64, x: u32) -> u8
    requires { x < 64 }
    ensures { result ≡ bit x set }
{
    ((set >> x) % 2) as u8
}

/// Whether a label is in a set.
pub(crate) fn has(set: u64, x: u32) -> bool
    requires { x < 64 }
    ensures { result ≡ has set x }
{
    bit_in(set, x) == 1
}

/// The labels that aren't in a set.
#[tactic(auto, using(crate::proofs::Masking::has_not))]
pub(crate) fn not_in(set: u64) -> u64
    ensures { IsSetOf (λ x. not (has set x)) result }
{
    !set
}

/// The labels of either set.
#[tactic(auto, using(crate::proofs::Masking::has_or))]
pub(crate) fn either(first: u64, second: u64) -> u64
    ensures { IsSetOf (λ x. has first x || has second x) result }
{
    first | second
}

/// Whether each of these sets is empty.
pub(crate) fn are_empty(sets: &[u64; 6]) -> bool
    ensures { result ≡ are_empty sets.now }
{
    sets.iter().all(|set| *set == 0)
}
