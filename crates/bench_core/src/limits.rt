//! The limit of the crate, as its constant and as its contracts have it.
ghost use Rattle.std.specs.Prelude.{◌≡◌};
ghost use Rattle.bench_core.specs.Limits.{kept_answers};

use crate::recent::KEPT;

/// The constant is the number that contracts speak of.
pub fn constants_are_limits()
    ensures kept { KEPT ≡ kept_answers }
{}
