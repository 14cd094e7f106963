//! The limit of a line, as the crate's constant and as its contracts have it.
ghost use Rattle.std.specs.Prelude.{◌≡◌};
ghost use Rattle.grid_law.specs.Limits.{longest_line};

use crate::LONGEST;

/// The constant is the number that contracts speak of.
pub fn constants_are_limits()
    ensures longest { LONGEST ≡ longest_line }
{}
