//! The word that somebody may have meant.
ghost use Rattle.std.specs.Prelude.{◌≡◌, ◌+◌, ◌/◌, None, IfOk, min, length, option_map};
ghost use Rattle.line_words.specs.Words.{words_of};
ghost use Rattle.lab_shell.specs.Hints.{names_text, nearest, nearest_from, other, slip_in, slip_of, too_many};

use line_words::split_word;
use std::alloc::{AllocError, Global};
use strsim::generic_levenshtein;
use word_ops::kinds_listed;

/// The words of commands, those of the shell first.
const NAMES: &str = kinds_listed!(
    "quit help show script save undo latency done trace full busy series entry cut word page depth wait combine window horizon reply state memory counter profile tree level bound place order low-forward low-reverse comb-forward comb-reverse module on off sync plain until fence idle",
    " issued answered served combined waiting all low comb --processor --network --address --page --hot --cold --from --to --of --bin queue stage"
);

/// Slips from which on a word is nobody's slip.
fn too_many(word: &[u8]) -> usize
    ensures { result ≡ too_many word.now }
{
    (word.len() / 2 + 1).min(3)
}

/// The first of these names with the fewest slips, where these are few.
fn nearest_in(
    alloc: Global,
    word: &[u8],
    names: &'static [u8],
) -> Result<Option<&'static [u8]>, AllocError>
    ensures { IfOk result (λ o. option_map (λ n. n.now) o ≡ nearest_from None (too_many word.now) word.now (words_of names.now)) }
{
    let mut found = None;
    let mut least = too_many(word);
    let mut rest = names;
    'names: while let Some((name, behind)) = split_word(rest) {
        let slips = generic_levenshtein(alloc, word, name)?;
        if slips < least {
            found = Some(name);
            least = slips;
        }
        rest = behind;
    }
    Ok(found)
}

/// The name that a word may be, where it isn't that name.
fn meant(
    alloc: Global,
    word: &[u8],
    names: &'static [u8],
) -> Result<Option<&'static [u8]>, AllocError>
    ensures { IfOk result (λ o. option_map (λ n. n.now) o ≡ other word.now (nearest (words_of names.now) word.now)) }
{
    match nearest_in(alloc, word, names)? {
        Some(name) => Ok(if name == word { None } else { Some(name) }),
        None => Ok(None),
    }
}

/// The name that the first word of a line may be that is none of the names and is near to one.
fn slip_in(
    alloc: Global,
    line: &[u8],
    names: &'static [u8],
) -> Result<Option<&'static [u8]>, AllocError>
    ensures { IfOk result (λ o. option_map (λ n. n.now) o ≡ slip_in (words_of names.now) (words_of line.now)) }
{
    let mut rest = line;
    'words: while let Some((word, behind)) = split_word(rest) {
        let name = meant(alloc, word, names)?;
        if name.is_some() {
            return Ok(name);
        }
        rest = behind;
    }
    Ok(None)
}

#[tactic(auto, unfolding(crate::specs::Hints::names_text))]
fn names() -> &'static [u8]
    ensures { result.now ≡ names_text }
{
    NAMES.as_bytes()
}

/// The name that the first word of a line may be that is no word of a command, and is near to one.
///
/// # Errors
///
/// Where a growth was refused.
pub(crate) fn slip(alloc: Global, line: &[u8]) -> Result<Option<&'static [u8]>, AllocError>
    ensures { IfOk result (λ o. option_map (λ n. n.now) o ≡ slip_of (words_of line.now)) }
{
    slip_in(alloc, line, names())
}
