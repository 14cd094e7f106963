//! Answer lines.
ghost use Rattle.std.specs.Prelude.{◌≡◌, ◌≤◌, [], ◌∷◌, ◌++◌, length, true, IfNone, IfSome, decimal};
ghost use Rattle.bench_shell.specs.Text.{line_text};
ghost use Rattle.bench_shell.specs.Output.{has_body};

use arrayvec::ArrayString;
use itoa::Buffer;
use run_queries::Body;
use std::fmt;

/// Room for the line of each answer that has no body.
const SHORT: usize = 24;

/// What a line is answered.
#[derive(Drop)]
pub enum Answer {
    /// An accepted edit, with the new version.
    Accepted(u32),
    /// A refused edit, with the number of its fault.
    Refused(u8),
    /// A query, with the present version.
    Told(u32, Body),
    /// A refused query, with its number.
    Bad(u8),
    /// More than 4,096 bytes.
    BadLine,
    /// The end of the input cuts the line.
    BadCut,
    /// No command.
    BadCommand,
}

impl fmt::Display for Answer {
    ghost use Rattle.bench_shell.specs.Text.{text_of};

    ghost output = { text_of };

    fn fmt<W: fmt::Write>(&self, f: &mut fmt::Formatter<W>) -> fmt::Result {
        match self {
            Answer::Accepted(version) => write!(f, "ok {version}"),
            Answer::Refused(number) => write!(f, "refused {number}"),
            Answer::Told(version, body) => write!(f, "ok {version} {body}"),
            Answer::Bad(number) => write!(f, "bad {number}"),
            Answer::BadLine => write!(f, "bad line"),
            Answer::BadCut => write!(f, "bad cut"),
            Answer::BadCommand => write!(f, "bad command"),
        }
    }
}

/// Words, as a line.
fn worded(words: &str) -> ArrayString<SHORT>
    requires { length words.now ≤ 11 }
    ensures { result.bytes ≡ words.now ++ 10 ∷ [] }
{
    let mut line = ArrayString::new();
    line.push_str(words);
    line.push('\n');
    line
}

/// Words and a number, as a line.
fn numbered(words: &str, number: u32) -> ArrayString<SHORT>
    requires { length words.now ≤ 8 }
    ensures { result.bytes ≡ (words.now ++ decimal number) ++ 10 ∷ [] }
{
    let mut line = ArrayString::new();
    let mut digits = Buffer::new();
    line.push_str(words);
    line.push_str(digits.format(number));
    line.push('\n');
    line
}

impl Answer {
    /// The line of an answer that has no body, with its LF. It takes no memory.
    pub(crate) fn short_line(&self) -> Option<ArrayString<SHORT>>
        ensures line { IfSome result (λ line. line.bytes ≡ line_text self.now) }
        ensures none { IfNone result (has_body self.now ≡ true) }
    {
        match self {
            Answer::Accepted(version) => Some(numbered("ok ", *version)),
            Answer::Refused(number) => Some(numbered("refused ", u32::from(*number))),
            Answer::Bad(number) => Some(numbered("bad ", u32::from(*number))),
            Answer::BadLine => Some(worded("bad line")),
            Answer::BadCut => Some(worded("bad cut")),
            Answer::BadCommand => Some(worded("bad command")),
            Answer::Told(..) => None,
        }
    }
}
