//! What may be put in for a brace.
ghost use Rattle.std.specs.Prelude.{◌≡◌, ◌+◌, ◌-◌, ◌∷◌, [], IfOk, length, map, option_map};
ghost use Rattle.edit_templates.specs.Braces.{choices_of, kept_choices, limit_of, range_of};

use crate::parts::{cut, parts};
use crate::put::Put;
use crate::span::Span;
use crate::step::Step;
use line_words::number;
use std::alloc::{AllocError, Global};

/// What may be put in: numbers in turn, or words.
#[derive(Drop)]
pub(crate) enum Choices<'a> {
    Range(Span),
    Words(Vec<&'a str>),
}

/// A number, or `k` for the machine's k.
fn limit(k: u32, word: &str) -> Option<u32>
    ensures { result ≡ limit_of k word.now }
{
    if word == "k" {
        Some(k)
    } else {
        number(word.as_bytes())
    }
}

/// The numbers of a text `A..B`, where the second isn't less.
fn range(k: u32, inside: &str) -> Option<Span>
    ensures { option_map (λ span. (span.from, span.to)) result ≡ range_of k inside.now }
{
    let (from, rest) = cut(inside, '.')?;
    let (none, to) = cut(rest, '.')?;
    if !none.is_empty() {
        return None;
    }
    let from = limit(k, from)?;
    let to = limit(k, to)?;
    if to < from {
        return None;
    }
    Some(Span { from, to })
}

impl<'a> Choices<'a> {
    /// What may be put in for a brace, by what is in it.
    pub(crate) fn read(alloc: Global, k: u32, inside: &'a str) -> Result<Choices<'a>, AllocError>
        ensures { IfOk result (λ choices. kept_choices choices ≡ choices_of k inside.entry.now) }
    {
        match range(k, inside) {
            Some(span) => Ok(Choices::Range(span)),
            None => Ok(Choices::Words(parts(alloc, inside, ',')?)),
        }
    }

    /// How many there are.
    pub(crate) fn count(&self) -> u64
        ensures { result ≡ length (kept_choices self.now) }
    {
        match self {
            Choices::Range(span) => numbers(*span),
            Choices::Words(words) => words.len() as u64,
        }
    }

    /// Each as a step without edits.
    pub(crate) fn steps(&self, alloc: Global) -> Result<Vec<Step<'a>>, AllocError>
        ensures { IfOk result (λ steps. steps.items ≡ map (λ word. (word ∷ [], [])) (kept_choices self.now)) }
    {
        match self {
            Choices::Range(span) => number_steps(alloc, *span),
            Choices::Words(words) => word_steps(alloc, words.as_slice()),
        }
    }
}

/// How many numbers there are.
fn numbers(span: Span) -> u64
    ensures count { result ≡ span.to + 1 - span.from }
{
    u64::from(span.to - span.from) + 1
}

/// A step for each number.
fn number_steps<'a>(alloc: Global, span: Span) -> Result<Vec<Step<'a>>, AllocError>
    ensures { IfOk result (λ steps. steps.items ≡ map (λ word. (word ∷ [], [])) (kept_choices (Choices.Range span))) }
{
    let mut steps = Vec::new(alloc);
    for more in 0..numbers(span) {
        let number = span.from + more as u32;
        steps.push(Step::put(alloc, Put::Number(number))?)?;
    }
    Ok(steps)
}

/// A step for each word.
fn word_steps<'a>(alloc: Global, words: &[&'a str]) -> Result<Vec<Step<'a>>, AllocError>
    ensures { IfOk result (λ steps. steps.items ≡ map (λ word. (word ∷ [], [])) (map (λ word. word.now) words.now)) }
{
    let mut steps = Vec::new(alloc);
    for word in words {
        steps.push(Step::put(alloc, Put::Word(*word))?)?;
    }
    Ok(steps)
}
