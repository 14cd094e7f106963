//! What is wrong with the text of a script entry, in words for its author.
use crate::expanding::Stepped;
use crate::nearest::Hint;
use crate::place::Shown;
use line_words::number;
use omega_net::ScriptEntry;
use page_map::ADDRESSES;
use project_book::MAX_TIMES;
use std::alloc::{AllocError, Global};
use std::fmt;
use std::str::SplitAsciiWhitespace;
use word_ops::Kind;

/// The words with which an entry begins.
const FIRST: [&str; 5] = ["sync", "plain", "until", "fence", "idle"];

/// What a word of an entry has to be.
#[derive(Clone, Copy)]
enum Part {
    Network,
    Operation,
    Number(&'static str),
}

/// The words behind an entry's first one.
#[derive(Clone, Copy)]
struct Form {
    /// How the whole entry is written.
    written: &'static str,
    /// The same where a step may follow.
    stepped: &'static str,
    parts: &'static [Part],
    /// Whether a number more may say how often.
    may_repeat: bool,
}

impl Form {
    /// How the whole entry is written, where references may have a step or not.
    fn written(self, may_step: bool) -> &'static str {
        if may_step { self.stepped } else { self.written }
    }
}

const REFERENCE: [Part; 3] = [
    Part::Operation,
    Part::Number("address"),
    Part::Number("operand"),
];

const UNTIL: [Part; 5] = [
    Part::Network,
    Part::Operation,
    Part::Number("address"),
    Part::Number("operand"),
    Part::Number("word"),
];

const IDLE: [Part; 1] = [Part::Number("number of turns")];

/// How an entry with this first word goes on.
fn form_of(first: &str) -> Option<Form> {
    Some(match first {
        "sync" => reference_form(
            "sync OPERATION ADDRESS OPERAND [TIMES]",
            "sync OPERATION ADDRESS OPERAND [TIMES [step STEP]]",
        ),
        "plain" => reference_form(
            "plain OPERATION ADDRESS OPERAND [TIMES]",
            "plain OPERATION ADDRESS OPERAND [TIMES [step STEP]]",
        ),
        "until" => other_form(
            "until sync|plain OPERATION ADDRESS OPERAND WORD [TIMES]",
            &UNTIL,
            true,
        ),
        "fence" => other_form("fence", &[], false),
        "idle" => other_form("idle TURNS", &IDLE, false),
        _ => return None,
    })
}

fn reference_form(written: &'static str, stepped: &'static str) -> Form {
    Form {
        written,
        stepped,
        parts: &REFERENCE,
        may_repeat: true,
    }
}

fn other_form(written: &'static str, parts: &'static [Part], may_repeat: bool) -> Form {
    Form {
        written,
        stepped: written,
        parts,
        may_repeat,
    }
}

/// What is wrong with a text that is no entry. It prints in words for its author.
#[derive(Clone, Copy)]
pub(crate) enum FormFault<'a> {
    NoWords,
    First(Shown<'a>, Hint<'a>),
    Missing(&'static str),
    Network(Shown<'a>),
    Operation(Shown<'a>, Hint<'a>),
    Number(&'static str, Shown<'a>),
    TooMany(Shown<'a>, &'static str),
    NoEntry,
}

impl fmt::Display for FormFault<'_> {
    fn fmt<W: fmt::Write>(&self, f: &mut fmt::Formatter<W>) -> fmt::Result {
        match *self {
            FormFault::NoWords => f.write_str("no words"),
            FormFault::First(word, hint) => write!(f, "no entry begins with \"{word}\"{hint}"),
            FormFault::Missing(form) => write!(f, "a word is missing; it is {form}"),
            FormFault::Network(word) => {
                write!(f, "\"{word}\" is no network; there is sync or plain")
            }
            FormFault::Operation(word, hint) => write!(f, "\"{word}\" is no operation{hint}"),
            FormFault::Number(what, word) => {
                let most = u32::MAX;
                write!(f, "the {what} \"{word}\" is no whole number up to {most}")
            }
            FormFault::TooMany(word, form) => {
                write!(f, "\"{word}\" is a word too many; it is {form}")
            }
            FormFault::NoEntry => f.write_str("no script entry"),
        }
    }
}

/// Which word of a text that is no entry is wrong, and why, where references may have a step or not.
///
/// # Errors
///
/// Where a growth was refused.
pub(crate) fn form_fault<'a>(
    alloc: Global,
    text: &'a str,
    may_step: bool,
    operations: &'a [&'a str],
) -> Result<FormFault<'a>, AllocError> {
    let mut words = text.split_ascii_whitespace();
    let Some(first) = words.next() else {
        return Ok(FormFault::NoWords);
    };
    let Some(form) = form_of(first) else {
        let hint = Hint::of(alloc, first, &FIRST)?;
        return Ok(FormFault::First(Shown(first), hint));
    };
    let mut entry = Entry {
        alloc,
        words,
        written: form.written(may_step),
        operations,
    };
    for part in form.parts {
        if let Some(fault) = entry.next_fault(*part)? {
            return Ok(fault);
        }
    }
    let may_step = may_step && (first == "sync" || first == "plain");
    entry.rest_fault(form.may_repeat, may_step)
}

/// The words of an entry that are still to be looked at.
#[derive(Drop)]
struct Entry<'a> {
    alloc: Global,
    words: SplitAsciiWhitespace<'a>,
    /// How the whole entry is written.
    written: &'static str,
    /// The names of the operations.
    operations: &'a [&'a str],
}

impl<'a> Entry<'a> {
    /// What is wrong with the next word; None where nothing is.
    fn next_fault(&mut self, part: Part) -> Result<Option<FormFault<'a>>, AllocError> {
        match self.words.next() {
            Some(word) => self.word_fault(part, word),
            None => Ok(Some(FormFault::Missing(self.written))),
        }
    }

    /// What is wrong with a word; None where nothing is.
    fn word_fault(&self, part: Part, word: &'a str) -> Result<Option<FormFault<'a>>, AllocError> {
        let shown = Shown(word);
        Ok(match part {
            Part::Network if word == "sync" || word == "plain" => None,
            Part::Network => Some(FormFault::Network(shown)),
            Part::Operation if Kind::from_name(word.as_bytes()).is_some() => None,
            Part::Operation => {
                let hint = Hint::of(self.alloc, word, self.operations)?;
                Some(FormFault::Operation(shown, hint))
            }
            Part::Number(_) if number(word.as_bytes()).is_some() => None,
            Part::Number(what) => Some(FormFault::Number(what, shown)),
        })
    }

    /// What is wrong behind the words that each entry of its form has.
    fn rest_fault(
        &mut self,
        may_repeat: bool,
        may_step: bool,
    ) -> Result<FormFault<'a>, AllocError> {
        let mut further = self.words.next();
        if may_repeat {
            if let Some(word) = further {
                if let Some(fault) = self.word_fault(Part::Number("number of times"), word)? {
                    return Ok(fault);
                }
            }
            further = self.words.next();
        }
        if may_step && further == Some("step") {
            if let Some(fault) = self.next_fault(Part::Number("step"))? {
                return Ok(fault);
            }
            further = self.words.next();
        }
        Ok(match further {
            Some(word) => FormFault::TooMany(Shown(word), self.written),
            None => FormFault::NoEntry,
        })
    }
}

/// A number of an entry that is outside its limits. It prints as `the address 70000 is not 0 to 65535`.
#[derive(Clone, Copy)]
pub(crate) struct Outside {
    what: &'static str,
    number: u32,
    least: u32,
    most: u32,
}

impl fmt::Display for Outside {
    fn fmt<W: fmt::Write>(&self, f: &mut fmt::Formatter<W>) -> fmt::Result {
        let Outside {
            what,
            number,
            least,
            most,
        } = *self;
        write!(f, "the {what} {number} is not {least} to {most}")
    }
}

/// Which number of an entry is outside its limits; None where none is.
pub(crate) fn limit_fault(entry: ScriptEntry) -> Option<Outside> {
    match entry {
        ScriptEntry::Reference { address, times, .. } | ScriptEntry::Until { address, times, .. } =>
            { place_fault("address", address).or(times_fault("number of times", times)) }
        ScriptEntry::Idle(turns) => times_fault("number of turns", turns),
        ScriptEntry::Fence => None,
    }
}

/// Which number of a reference with a step is outside its limits; None where none is.
pub(crate) fn step_fault(stepped: Stepped) -> Option<Outside> {
    let Stepped {
        address,
        times,
        step,
        ..
    } = stepped;
    place_fault("address", address)
        .or(times_fault("number of times", times))
        .or(place_fault("step", step))
}

/// An address or a step that is outside its limits.
fn place_fault(what: &'static str, number: u32) -> Option<Outside> {
    let most = ADDRESSES - 1;
    (number > most).then_some(Outside {
        what,
        number,
        least: 0,
        most,
    })
}

fn times_fault(what: &'static str, times: u32) -> Option<Outside> {
    let is_within = (1..=MAX_TIMES).contains(&times);
    (!is_within).then_some(Outside {
        what,
        number: times,
        least: 1,
        most: MAX_TIMES,
    })
}
