//! The word that somebody may have meant.
use std::alloc::{AllocError, Global};
use std::fmt;
use strsim::levenshtein;

/// How many bytes of a word are compared at most: longer ones are nobody's slip.
const LONGEST: usize = 24;

/// How many letters may be wrong, missing or too many.
const SLIPS: usize = 2;

/// What is said of a word that isn't among those that would do: the nearest, where there is one, else all of them.
/// It prints as `; is it window?` or as `; there is k, horizon or window`.
#[derive(Clone, Copy)]
pub(crate) struct Hint<'a> {
    nearest: Option<&'a str>,
    all: &'a [&'a str],
}

impl<'a> Hint<'a> {
    /// # Errors
    ///
    /// Where a growth was refused.
    pub(crate) fn of(
        alloc: Global,
        word: &str,
        all: &'a [&'a str],
    ) -> Result<Hint<'a>, AllocError> {
        Ok(Hint {
            nearest: nearest(alloc, word, all)?,
            all,
        })
    }
}

impl fmt::Display for Hint<'_> {
    fn fmt<W: fmt::Write>(&self, f: &mut fmt::Formatter<W>) -> fmt::Result {
        if let Some(name) = self.nearest {
            return write!(f, "; is it {name}?");
        }
        f.write_str("; there is ")?;
        let last = self.all.len().saturating_sub(1);
        for (number, name) in self.all.iter().enumerate() {
            if number > 0 {
                f.write_str(if number == last { " or " } else { ", " })?;
            }
            f.write_str(name)?;
        }
        Ok(())
    }
}

/// The first of the names with the fewest slips, where these are few, and fewer than the word has letters.
fn nearest<'a>(alloc: Global, word: &str, all: &[&'a str]) -> Result<Option<&'a str>, AllocError> {
    if word.len() > LONGEST {
        return Ok(None);
    }
    let mut found = None;
    let mut least = word.len().min(SLIPS + 1);
    for name in all {
        let slips = levenshtein(alloc, word, name)?;
        if slips < least {
            found = Some(*name);
            least = slips;
        }
    }
    Ok(found)
}
