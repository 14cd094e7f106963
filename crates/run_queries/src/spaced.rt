//! Numbers in a line of text.
ghost use Rattle.std.specs.Prelude.{Some};
ghost use Rattle.run_queries.specs.Texts.{spaced_text, later_text};

use std::fmt::{self, Display};

/// Prints numbers in decimal with single spaces between.
#[derive(Clone, Copy)]
pub(crate) struct Spaced<'a>(pub &'a [u64]);

impl Display for Spaced<'_> {
    ghost output = { λ numbers. Some (spaced_text numbers.0.now) };

    fn fmt<W: fmt::Write>(&self, f: &mut fmt::Formatter<W>) -> fmt::Result {
        match self.0 {
            [] => Ok(()),
            [first, rest @ ..] => {
                let later = Later(rest);
                write!(f, "{first}{later}")
            }
        }
    }
}

/// Prints numbers with a space before each.
#[derive(Clone, Copy)]
struct Later<'a>(&'a [u64]);

impl Display for Later<'_> {
    ghost output = { λ numbers. Some (later_text numbers.0.now) };

    fn fmt<W: fmt::Write>(&self, f: &mut fmt::Formatter<W>) -> fmt::Result {
        for number in self.0 {
            write!(f, " {number}")?;
        }
        Ok(())
    }
}
