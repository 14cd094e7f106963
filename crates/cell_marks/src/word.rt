//! The bits of one word.
ghost use Rattle.std.specs.Prelude.{◌≡◌, ◌≢◌, ℕ, ◌+◌, ◌-◌, ◌*◌, ◌/◌, ◌%◌, ◌^◌, ◌<◌, ◌≤◌, ◌↔◌, ◌||◌, IsTrue, MatchOption, max, nat_eq};
ghost use Rattle.std.specs.Int.{bit_at};

/// The word whose bits are all set, or all clear.
pub(crate) fn word_of(is_set: bool) -> u64
    ensures { (i : ℕ) → i < 64 → nat_eq (bit_at result i) 1 ≡ is_set }
{
    if is_set { u64::MAX } else { 0 }
}

/// The word with a bit set.
pub(crate) fn with_bit(word: u64, k: u32) -> u64
    requires { k < 64 }
    ensures set { bit_at result k ≡ 1 }
    ensures others { (i : ℕ) → (i ≡ k → ⊥) → bit_at result i ≡ bit_at word i }
{
    word | (1 << k)
}

/// The word with a bit cleared.
pub(crate) fn without_bit(word: u64, k: u32) -> u64
    requires { k < 64 }
    ensures clear { bit_at result k ≡ 0 }
    ensures others { (i : ℕ) → i < 64 → (i ≡ k → ⊥) → bit_at result i ≡ bit_at word i }
{
    word & !(1 << k)
}

/// The bits below n that another word has set and this one hasn't.
pub(crate) fn missing_bits(word: u64, other: u64, n: u32) -> u64
    requires some { 0 < n }
    requires within { n ≤ 64 }
    ensures below { result < 2 ^ n }
    ensures bits { (i : ℕ) → i < n → bit_at word i + bit_at result i ≡ max (bit_at word i) (bit_at other i) }
{
    other & !word & (u64::MAX >> (64 - n))
}

pub(crate) fn has_bit(word: u64, k: u32) -> bool
    requires { k < 64 }
    ensures { result ≡ nat_eq (bit_at word k) 1 }
{
    (word >> k) & 1 == 1
}

/// The first bit set at or after that place.
pub(crate) fn first_bit(word: u64, from: u32) -> Option<u32>
    requires { from < 64 }
    ensures { MatchOption result
        ((i : ℕ) → from ≤ i → i < 64 → bit_at word i ≡ 0)
        (λ k. (from ≤ k) × (k < 64) × (bit_at word k ≡ 1) × ((i : ℕ) → from ≤ i → i < k → bit_at word i ≡ 0)) }
{
    let rest = word & (u64::MAX << from);
    if rest == 0 {
        None
    } else {
        Some(rest.trailing_zeros())
    }
}

/// Whether the bits below n that are set in one word or the other are just those of the third.
pub(crate) fn is_union(one: u64, other: u64, union: u64, n: u32) -> bool
    requires { n ≤ 64 }
    ensures { IsTrue result ↔ ((i : ℕ) → i < n → (nat_eq (bit_at one i) 1 || nat_eq (bit_at other i) 1) ≡ nat_eq (bit_at union i) 1) }
{
    let unlike = (one | other) ^ union;
    n <= unlike.trailing_zeros()
}
