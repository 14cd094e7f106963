//! Words that are put in.
use std::fmt;

/// A word that is put in for a brace.
#[derive(Clone, Copy, PartialEq, Eq, Debug)]
pub enum Put<'a> {
    /// A number of a range.
    Number(u32),
    /// A word of a list.
    Word(&'a str),
}

impl fmt::Display for Put<'_> {
    ghost use Rattle.std.specs.Prelude.{Some};
    ghost use Rattle.edit_templates.specs.Braces.{put_text};

    ghost output = { λ put. Some (put_text put) };

    fn fmt<W: fmt::Write>(&self, f: &mut fmt::Formatter<W>) -> fmt::Result {
        match self {
            Put::Number(number) => write!(f, "{number}"),
            Put::Word(word) => f.write_str(word),
        }
    }
}
