//! A word's place among the modules.
ghost use Rattle.std.specs.Prelude.{Some, ◌++◌, ◌∷◌};
ghost use Rattle.std.specs.Fmt.{decimal};

use std::fmt;

/// A module, below 64, and a row in it, below 16,384. It prints as `M:R`, both in decimal.
#[derive(Clone, Copy, PartialEq, Eq, Debug, Default)]
pub struct Place {
    pub module: u8,
    pub row: u16,
}

impl fmt::Display for Place {
    ghost output = { λ p. Some (decimal p.module ++ 58 ∷ decimal p.row) };

    fn fmt<W: fmt::Write>(&self, f: &mut fmt::Formatter<W>) -> fmt::Result {
        write!(f, "{}:{}", self.module, self.row)
    }
}
