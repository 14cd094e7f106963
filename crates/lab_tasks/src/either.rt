//! Words that `delays` takes with a file, or without one.
ghost use Rattle.std.specs.Prelude.{◌≡◌, IfErr, IfOk, None};
ghost use Rattle.lab_tasks.specs.Either.{drawn_told, measured_told, other_told, taken, told_in, told_of, IsOther};
ghost use Rattle.lab_tasks.specs.Words.{text_of};

use crate::end::{End, Reason};
use crate::latency::LatencyWords;
use crate::words::{CurveWords, DelayWords};

/// An option, and its word.
#[derive(Clone, Copy)]
struct Told<'a> {
    option: &'static str,
    word: &'a str,
}

/// The option that has a word, else the one behind.
fn told_in<'a>(
    option: &'static str,
    word: Option<&'a str>,
    behind: Option<Told<'a>>,
) -> Option<Told<'a>>
    ensures { told_of result ≡ told_in option.now (text_of word.entry) (told_of behind.entry) }
{
    match word {
        Some(word) => Some(Told { option, word }),
        None => behind,
    }
}

/// The first word that says what is measured.
fn measured_told<'a>(words: &CurveWords<'a>) -> Option<Told<'a>>
    ensures { told_of result ≡ measured_told words.now }
{
    let told = told_in("--keep", words.keep, None);
    let told = told_in("--csv", words.csv, told);
    let told = told_in("--seed", words.seed, told);
    let told = told_in("--cycles", words.cycles, told);
    let told = told_in("--hot", words.hot, told);
    told_in("--k", words.k, told)
}

/// The first word that says which references of a file are drawn.
fn drawn_told<'a>(words: &LatencyWords<'a>) -> Option<Told<'a>>
    ensures { told_of result ≡ drawn_told words.now }
{
    let told = told_in("--to", words.to, None);
    let told = told_in("--from", words.from, told);
    let told = told_in("--network", words.network, told);
    told_in("--processor", words.processor, told)
}

/// The first word that isn't taken.
fn other_told<'a>(words: &DelayWords<'a>) -> Option<Told<'a>>
    ensures { told_of result ≡ other_told (text_of words.now.file) words.now }
{
    match words.file {
        Some(_) => measured_told(&words.curves),
        None => drawn_told(&words.latency),
    }
}

/// What a word isn't that isn't taken.
fn taken(file: Option<&str>) -> &'static str
    ensures { result.now ≡ taken (text_of file.entry) }
{
    match file {
        Some(_) => "taken with FILE",
        None => "taken without FILE",
    }
}

/// Refuses a word that is told with a file and taken without one alone, or the other way round.
pub(crate) fn refuse_other<'a>(words: &DelayWords<'a>) -> Result<(), End<'a>>
    ensures none { IfOk result (λ done. other_told (text_of words.now.file) words.now ≡ None) }
    ensures refused { IfErr result (IsOther words.now) }
{
    match other_told(words) {
        None => Ok(()),
        Some(Told { option, word }) => Err(End::Word {
            option,
            word,
            reason: Reason::Form(taken(words.file)),
        }),
    }
}
