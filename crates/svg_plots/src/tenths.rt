//! Lengths in a picture.
ghost use Rattle.std.specs.Prelude.{Some};
ghost use Rattle.svg_plots.specs.Texts.{tenths_text};

use std::fmt;

/// A length or a place in tenths of a pixel. It prints in pixels, as `12.5`.
#[derive(Clone, Copy, PartialEq, Eq, Debug)]
pub struct Tenths(pub u32);

impl fmt::Display for Tenths {
    ghost output = { λ length. Some (tenths_text length.0) };

    #[tactic(auto, unfolding(crate::specs::Texts::tenths_text))]
    fn fmt<W: fmt::Write>(&self, f: &mut fmt::Formatter<W>) -> fmt::Result {
        let whole = self.0 / 10;
        let part = self.0 % 10;
        if part == 0 {
            write!(f, "{whole}")
        } else {
            write!(f, "{whole}.{part}")
        }
    }
}
