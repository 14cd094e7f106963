//! Scales: where values are placed, and which of them are marked.
ghost use Rattle.std.specs.Prelude.{◌≡◌, ◌+◌, ◌-◌, ◌*◌, ◌/◌, ◌^◌, ◌<◌, ◌≤◌, if◌then◌else◌, nat_le};
ghost use Rattle.svg_plots.specs.Logarithms.{hundredths_of, log2_of, squared};
ghost use Rattle.svg_plots.specs.Places.{place_of, share_of};
ghost use Rattle.svg_plots.specs.Ticks.{Doubles, step_of};

/// A linear scale: the values from `from` to `to` over the places from `start` to `end`, which may also lie before it.
#[derive(Clone, Copy, PartialEq, Eq, Debug)]
pub struct Scale {
    pub from: u32,
    pub to: u32,
    pub start: u32,
    pub end: u32,
}

/// A part of a length, rounded down.
#[tactic(auto, using(crate::proofs::Shares::share_within))]
fn share(length: u32, done: u32, span: u32) -> u32
    requires some { 0 < span }
    requires part { done ≤ span }
    ensures share { result ≡ share_of length done span }
    ensures within { result ≤ length }
{
    (u64::from(length) * u64::from(done) / u64::from(span)) as u32
}

impl Scale {
    /// The place of a value. One below the scale's values stands at `start`, one above them at `end`; so does every value
    /// at `start` where the scale has no values between its ends.
    pub fn place(self, value: u32) -> u32
        ensures place { result ≡ place_of self.from self.to self.start self.end value }
        ensures within { self.start ≤ self.end → result ≤ self.end }
        ensures down { self.end ≤ self.start → result ≤ self.start }
    {
        if self.to <= self.from {
            return self.start;
        }
        let span = self.to - self.from;
        let done = value.saturating_sub(self.from).min(span);
        if self.start <= self.end {
            self.start + share(self.end - self.start, done, span)
        } else {
            self.start - share(self.start - self.end, done, span)
        }
    }
}

/// 1, 2 and 5 times a power of ten, upwards, as far as 32 bits go.
const STEPS: [u32; 29] = [
    1,
    2,
    5,
    10,
    20,
    50,
    100,
    200,
    500,
    1_000,
    2_000,
    5_000,
    10_000,
    20_000,
    50_000,
    100_000,
    200_000,
    500_000,
    1_000_000,
    2_000_000,
    5_000_000,
    10_000_000,
    20_000_000,
    50_000_000,
    100_000_000,
    200_000_000,
    500_000_000,
    1_000_000_000,
    2_000_000_000,
];

/// Whether no more than so many steps make up a span.
fn is_enough(step: u32, span: u32, most: u32) -> bool
    ensures { result ≡ nat_le span (step * most) }
{
    span <= step.saturating_mul(most)
}

/// The step from tick to tick over so wide a span: the least of 1, 2 and 5 times a power of ten of which no more than
/// `most` make up the span; the whole span where there is none below 2^32.
pub fn tick_step(span: u32, most: u32) -> u32
    requires { 0 < most }
    ensures step { result ≡ step_of span most }
    ensures few { span ≤ result * most }
{
    STEPS
        .iter()
        .find(|step| is_enough(**step, span, most))
        .copied()
        .unwrap_or(span)
}

/// How often a fraction of at least 1 can be halved before it is less than 2.
fn halvings(numerator: u32, denominator: u32) -> u32
    requires some { 0 < denominator }
    requires one { denominator ≤ numerator }
    ensures doubles { Doubles numerator denominator result }
    ensures few { result < 32 }
{
    (numerator / denominator).ilog2()
}

/// One as a number with 30 binary places.
const ONE: u64 = 1 << 30;

/// The square of a number from 1 on and before 2.
#[tactic(auto, using(crate::proofs::Logs::square_small))]
fn squared(number: u64) -> u64
    requires { number < 2 ^ 31 }
    ensures square { result ≡ squared number }
    ensures most { result < 2 ^ 32 }
{
    number * number / ONE
}

/// Whether a number is at least 2, and then its half.
fn halved(number: u64) -> (u64, u32)
    requires { number < 2 ^ 32 }
    ensures left { result.0 ≡ if nat_le (2 ^ 31) number then number / 2 else number }
    ensures place { result.1 ≡ if nat_le (2 ^ 31) number then 1 else 0 }
    ensures small { result.0 < 2 ^ 31 }
    ensures bit { result.1 ≤ 1 }
{
    if number >= 2 * ONE {
        (number / 2, 1)
    } else {
        (number, 0)
    }
}

/// The binary logarithm of a number from 1 on and before 2, in hundredths, rounded down. It is found bit by bit: squaring a
/// number doubles its logarithm.
fn hundredths(number: u64) -> u32
    requires { number < 2 ^ 31 }
    ensures hundredths { result ≡ hundredths_of number }
    ensures most { result < 100 }
{
    let mut rest = number;
    let mut bits: u32 = 0;
    for place in 0..10u32 {
        let (left, bit) = halved(squared(rest));
        rest = left;
        bits = bits * 2 + bit;
    }
    bits * 100 / 1024
}

/// What is left of a fraction that is halved so often.
#[tactic(auto, using(crate::proofs::Logs::left_small))]
fn left_of(numerator: u32, denominator: u32, whole: u32) -> u64
    requires some { 0 < denominator }
    requires doubles { Doubles numerator denominator whole }
    requires few { whole < 32 }
    ensures left { result ≡ numerator * 2 ^ 30 / denominator / 2 ^ whole }
    ensures small { result < 2 ^ 31 }
{
    (u64::from(numerator) * ONE / u64::from(denominator)) >> whole
}

/// The binary logarithm of a fraction, in hundredths, rounded down; 0 of a fraction that is less than one, or that has no
/// denominator.
pub fn log2_hundredths(numerator: u32, denominator: u32) -> u32
    ensures logarithm { result ≡ log2_of numerator denominator }
    ensures few { result < 3200 }
    ensures less { numerator < denominator → result ≡ 0 }
    ensures none { denominator ≡ 0 → result ≡ 0 }
    ensures whole { 0 < denominator → denominator ≤ numerator → Doubles numerator denominator (result / 100) }
{
    if denominator == 0 || numerator < denominator {
        return 0;
    }
    let whole = halvings(numerator, denominator);
    whole * 100 + hundredths(left_of(numerator, denominator, whole))
}
