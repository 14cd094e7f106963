//! The bound on the rate of references.
ghost use Rattle.std.specs.Prelude.{◌≡◌};
ghost use Rattle.saturation.specs.Bound.{bound};

/// The bound 1 / (1 + h (p - 1)) on the rate of references of each of p processors, where the fraction h = a/b of
/// their references goes to one module (Pfister and Norton 1985): its numerator b and its denominator b + a (p - 1),
/// not reduced. None exactly where b or p is 0, or a is above b.
pub fn bound(a: u32, b: u32, p: u32) -> Option<(u64, u64)>
    ensures { result ≡ bound a b p }
{
    if b == 0 || p == 0 || a > b {
        return None;
    }
    let numerator = u64::from(b);
    Some((numerator, numerator + u64::from(a) * u64::from(p - 1)))
}
