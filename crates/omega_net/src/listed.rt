//! Lists in a line of text.
ghost use Rattle.omega_net.specs.Texts.{later_items_text, listed_text};

use std::fmt::{self, Display};

/// Prints a list as its items with commas between, in square brackets, as `[0.0=20,1.0=7]` or `[]`.
#[derive(Clone, Copy)]
pub struct Listed<'a, T>(pub &'a [T]);

impl<T: Display> Display for Listed<'_, T> {
    ghost output = { λ list. listed_text T.output list.0.now };

    fn fmt<W: fmt::Write>(&self, f: &mut fmt::Formatter<W>) -> fmt::Result {
        match self.0 {
            [] => write!(f, "[]"),
            [first, rest @ ..] => {
                let later = Later(rest);
                write!(f, "[{first}{later}]")
            }
        }
    }
}

/// Prints items with a comma before each.
#[derive(Clone, Copy)]
struct Later<'a, T>(&'a [T]);

impl<T: Display> Display for Later<'_, T> {
    ghost output = { λ items. later_items_text T.output items.0.now };

    fn fmt<W: fmt::Write>(&self, f: &mut fmt::Formatter<W>) -> fmt::Result {
        for item in self.0 {
            write!(f, ",{item}")?;
        }
        Ok(())
    }
}
