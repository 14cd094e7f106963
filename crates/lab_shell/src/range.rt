//! Lines with a range of processors.
ghost use Rattle.std.specs.Prelude.{◌≡◌, ◌≤◌, ◌<◌, ◌+◌, ◌-◌, ◌==◌, IfOk, IfSome, Some, length, map, option_map, position};
ghost use Rattle.line_words.specs.Words.{words_of};
ghost use Rattle.lab_shell.specs.Ranges.{at_point, lines_for, lines_of_range, range_line, range_of, spaced, takes_range};

use line_words::{number, split_word};
use std::alloc::{AllocError, Global};

/// How many processors a range has at most.
const MOST: u32 = 64;

/// Whether a range may stand behind this word.
fn takes_range(word: &[u8]) -> bool
    ensures { result ≡ takes_range word.now }
{
    word == b"entry".as_slice() || word == b"cut".as_slice()
}

/// Where the first point stands.
fn point_in(text: &[u8]) -> Option<usize>
    ensures place { result ≡ position (λ b. b == 46) text.now }
    ensures within { IfSome result (λ i. i < length text.now) }
{
    text.iter().position(|b| *b == b'.')
}

/// What stands before and behind the first point.
fn at_point(text: &[u8]) -> Option<(&[u8], &[u8])>
    ensures { option_map (λ p. (p.0.now, p.1.now)) result ≡ at_point text.now }
{
    match point_in(text) {
        Some(place) => Some((&text[..place], &text[place + 1..])),
        None => None,
    }
}

/// The two numbers of `A..B`.
fn range_of(word: &[u8]) -> Option<(u32, u32)>
    ensures range { result ≡ range_of word.now }
    ensures upwards { IfSome result (λ ends. ends.0 ≤ ends.1) }
    ensures few { IfSome result (λ ends. ends.1 - ends.0 < 64) }
{
    let (from, rest) = at_point(word)?;
    let (none, to) = at_point(rest)?;
    if !none.is_empty() {
        return None;
    }
    let from = number(from)?;
    let to = number(to)?;
    if to < from || to - from >= MOST {
        return None;
    }
    Some((from, to))
}

/// The words, each behind a space.
fn spaced(alloc: Global, words: &[u8]) -> Result<Vec<u8>, AllocError>
    ensures { IfOk result (λ v. v.items ≡ spaced (words_of words.now)) }
{
    let mut text = Vec::new(alloc);
    let mut rest = words;
    'words: while let Some((word, behind)) = split_word(rest) {
        text.push(b' ')?;
        text.extend_from_slice(word)?;
        rest = behind;
    }
    Ok(text)
}

/// A command for one processor.
fn range_line(alloc: Global, word: &[u8], behind: &[u8], proc: u32) -> Result<Vec<u8>, AllocError>
    ensures { IfOk result (λ v. v.items ≡ range_line word.now behind.now proc) }
{
    let number = format!(in alloc; " {proc}")?;
    let mut line = Vec::from_slice(alloc, word)?;
    line.extend_from_slice(number.as_bytes())?;
    line.extend_from_slice(behind)?;
    Ok(line)
}

/// A command for each processor of a range.
fn lines_for(
    alloc: Global,
    word: &[u8],
    behind: &[u8],
    from: u32,
    to: u32,
) -> Result<Vec<Vec<u8>>, AllocError>
    requires upwards { from ≤ to }
    requires few { to - from < 64 }
    ensures { IfOk result (λ v. map (λ l. l.items) v.items ≡ lines_for word.now behind.now (Some (from, to))) }
{
    let mut lines = Vec::new(alloc);
    for more in 0..to - from + 1 {
        lines.push(range_line(alloc, word, behind, from + more)?)?;
    }
    Ok(lines)
}

/// The lines that a line stands for: one for each processor of its range. None where it has no range.
///
/// # Errors
///
/// Where a growth was refused.
pub fn lines_of_range(alloc: Global, line: &[u8]) -> Result<Vec<Vec<u8>>, AllocError>
    ensures { IfOk result (λ v. map (λ l. l.items) v.items ≡ lines_of_range (words_of line.now)) }
{
    let Some((word, behind)) = split_word(line) else {
        return Ok(Vec::new(alloc));
    };
    let Some((range, rest)) = split_word(behind) else {
        return Ok(Vec::new(alloc));
    };
    if !takes_range(word) {
        return Ok(Vec::new(alloc));
    }
    match range_of(range) {
        Some((from, to)) => {
            let words = spaced(alloc, rest)?;
            lines_for(alloc, word, words.as_slice(), from, to)
        }
        None => Ok(Vec::new(alloc)),
    }
}
