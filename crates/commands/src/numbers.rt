//! Words that are numbers, and no more of them than a command takes.
ghost use Rattle.std.specs.Prelude.{◌≡◌, ◌↔◌, [], IsTrue};
ghost use Rattle.line_words.specs.Words.{words_of};
ghost use Rattle.commands.specs.Numbers.{one_number, two_numbers, three_numbers};

use line_words::{number, split_word};

/// Whether the line has no word.
pub(crate) fn is_blank(line: &[u8]) -> bool
    ensures { IsTrue result ↔ (words_of line.now ≡ []) }
{
    split_word(line).is_none()
}

/// The one number that the line is.
pub(crate) fn one_number(line: &[u8]) -> Option<u32>
    ensures { result ≡ one_number (words_of line.now) }
{
    let (first, rest) = split_word(line)?;
    if !is_blank(rest) {
        return None;
    }
    number(first)
}

/// The two numbers that the line is.
pub(crate) fn two_numbers(line: &[u8]) -> Option<(u32, u32)>
    ensures { result ≡ two_numbers (words_of line.now) }
{
    let (first, rest) = split_word(line)?;
    let (second, rest) = split_word(rest)?;
    if !is_blank(rest) {
        return None;
    }
    Some((number(first)?, number(second)?))
}

/// The three numbers that the line is.
pub(crate) fn three_numbers(line: &[u8]) -> Option<(u32, (u32, u32))>
    ensures { result ≡ three_numbers (words_of line.now) }
{
    let (first, rest) = split_word(line)?;
    let others = two_numbers(rest)?;
    Some((number(first)?, others))
}
