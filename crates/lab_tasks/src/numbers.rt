//! Numbers, lists and ranges among the words.
ghost use Rattle.std.specs.Prelude.{◌≡◌, ◌<◌, ◌==◌, IfOk, IfSome, length, option_map, position};
ghost use Rattle.line_words.specs.Numbers.{number_of};
ghost use Rattle.lab_tasks.specs.Numbers.{list_of, parts_at, range_of};

use line_words::number;
use std::alloc::{AllocError, Global};

/// What stands before and behind the first of a byte.
pub(crate) fn parts_at(text: &[u8], byte: u8) -> Option<(&[u8], &[u8])>
    ensures { option_map (λ p. (p.0.now, p.1.now)) result ≡ parts_at byte text.now }
{
    match place_of(text, byte) {
        Some(place) => Some((&text[..place], &text[place + 1..])),
        None => None,
    }
}

/// Where the first of a byte stands.
fn place_of(text: &[u8], byte: u8) -> Option<usize>
    ensures place { result ≡ position (λ x. x == byte) text.now }
    ensures within { IfSome result (λ i. i < length text.now) }
{
    text.iter().position(|b| *b == byte)
}

/// The two numbers of a text `FROM..TO`.
pub(crate) fn range_in(text: &[u8]) -> Option<(u32, u32)>
    ensures { result ≡ range_of text.now }
{
    let (from, rest) = parts_at(text, b'.')?;
    let (none, to) = parts_at(rest, b'.')?;
    if !none.is_empty() {
        return None;
    }
    let from = number(from)?;
    let to = number(to)?;
    Some((from, to))
}

/// The numbers of a text `N,N,..`, where each part between commas is one.
pub(crate) fn list_in(alloc: Global, text: &[u8]) -> Result<Option<Vec<u32>>, AllocError>
    ensures { IfOk result (λ list. option_map (λ v. v.items) list ≡ list_of text.now) }
{
    let mut numbers = Vec::new(alloc);
    let mut rest = text;
    'parts: while let Some((first, behind)) = parts_at(rest, b',') {
        match number(first) {
            Some(value) => numbers.push(value)?,
            None => return Ok(None),
        }
        rest = behind;
    }
    match number(rest) {
        Some(value) => numbers.push(value)?,
        None => return Ok(None),
    }
    Ok(Some(numbers))
}
