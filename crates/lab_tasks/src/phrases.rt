//! Words of a line as texts of several words.
ghost use Rattle.std.specs.Prelude.{◌≡◌, ◌++◌, ◌∷◌, ℕ, List, false, codes, IfNone, IfOk, IfSome, string_bytes};
ghost use Rattle.std.specs.List.{list_all};
ghost use Rattle.std.specs.Str.{is_utf8};
ghost use Rattle.line_words.specs.Words.{words_of};
ghost use Rattle.lab_tasks.specs.Phrases.{gathered, is_dashed, phrases, stands_apart};

use crate::grid::Cell;
use line_words::split_word;
use std::alloc::{AllocError, Global};

/// Whether a word begins with a dash.
fn is_dashed(word: &str) -> bool
    ensures { result ≡ is_dashed word.now }
{
    match word.as_bytes() {
        [first, ..] => *first == b'-',
        [] => false,
    }
}

/// Whether a word doesn't go on a text.
fn stands_apart(text: &str, word: &str) -> bool
    ensures { result ≡ stands_apart text.now word.now }
{
    is_dashed(text) || is_dashed(word)
}

/// A text that goes on with a word.
fn joined(alloc: Global, text: &str, word: &str) -> Result<String, AllocError>
    ensures { IfOk result (λ joined. string_bytes joined ≡ text.now ++ codes " " ++ word.now) }
{
    format!(in alloc; "{text} {word}")
}

/// The text that goes on behind a word; one that is whole is added.
fn gather(alloc: Global, texts: &mut Vec<Cell>, text: Cell, word: &str) -> Result<Cell, AllocError>
    ensures { IfOk result (λ next. (words : List (List ℕ)) → texts.new.items ++ gathered next words ≡ texts.old.items ++ gathered text (word.now ∷ words)) }
{
    if stands_apart(text.as_str(), word) {
        let next = String::from_str(alloc, word)?;
        texts.push(text)?;
        return Ok(Cell::new(next));
    }
    let next = joined(alloc, text.as_str(), word)?;
    Ok(Cell::new(next))
}

/// The texts of a word and of those behind it; None where one of these isn't UTF-8.
#[tactic(auto, using(crate::proofs::WordTexts::invalid))]
fn gathered(alloc: Global, first: &str, words: &[u8]) -> Result<Option<Vec<Cell>>, AllocError>
    ensures texts { IfOk result (λ o. IfSome o (λ v. v.items ≡ gathered first.now (words_of words.now))) }
    ensures none { IfOk result (λ o. IfNone o (list_all is_utf8 (words_of words.now) ≡ false)) }
{
    let mut texts = Vec::new(alloc);
    let mut text = Cell::new(String::from_str(alloc, first)?);
    let mut rest = words;
    'words: while let Some((word, behind)) = split_word(rest) {
        let Ok(word) = str::from_utf8(word) else {
            return Ok(None);
        };
        text = gather(alloc, &mut texts, text, word)?;
        rest = behind;
    }
    texts.push(text)?;
    Ok(Some(texts))
}

/// The texts of words; None where one isn't UTF-8.
#[tactic(auto, using(crate::proofs::WordTexts::invalid_first))]
pub(crate) fn phrases(alloc: Global, words: &[u8]) -> Result<Option<Vec<Cell>>, AllocError>
    ensures texts { IfOk result (λ o. IfSome o (λ v. v.items ≡ phrases (words_of words.now))) }
    ensures none { IfOk result (λ o. IfNone o (list_all is_utf8 (words_of words.now) ≡ false)) }
{
    let Some((first, behind)) = split_word(words) else {
        return Ok(Some(Vec::new(alloc)));
    };
    match str::from_utf8(first) {
        Ok(first) => gathered(alloc, first, behind),
        Err(_) => Ok(None),
    }
}
