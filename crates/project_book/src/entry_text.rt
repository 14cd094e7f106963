//! The texts of script entries.
ghost use Rattle.std.specs.Prelude.{◌≡◌, Some};
ghost use Rattle.line_words.specs.Words.{words_of};
ghost use Rattle.omega_net.specs.declared.script.ScriptEntry.{ScriptEntry};
ghost use Rattle.project_book.specs.EntryTexts.{entry_text, entry_of, IsNumbered, reference_of, times_of, times_text, until_of, network_named, fence_of, idle_of};

use crate::limits::USUAL_TRIES;
use line_words::{number, split_word};
use omega_net::ScriptEntry;
use std::fmt;
use word_ops::{Kind, Op};

/// An entry as it is written: `sync KIND A V` or `plain KIND A V`, with a last word for its times
/// where these aren't 1; `until sync KIND A V W` or `until plain KIND A V W` for a word W, with a last
/// word for its times where these aren't 1,000; `fence`; or `idle T`. [`read_entry`] reads it again.
#[derive(Clone, Copy, PartialEq, Eq, Debug)]
pub struct EntryText(pub ScriptEntry);

impl fmt::Display for EntryText {
    ghost output = { λ text. Some (entry_text text.0) };

    fn fmt<W: fmt::Write>(&self, f: &mut fmt::Formatter<W>) -> fmt::Result {
        match self.0 {
            ScriptEntry::Reference {
                sync,
                op,
                address,
                times,
            } => {
                let network = if sync { "sync" } else { "plain" };
                let kind = op.kind;
                let operand = op.operand;
                let times = Times { usual: 1, times };
                write!(f, "{network} {kind} {address} {operand}{times}")
            }
            ScriptEntry::Until {
                sync,
                op,
                address,
                value,
                times,
            } => {
                let network = if sync { "sync" } else { "plain" };
                let kind = op.kind;
                let operand = op.operand;
                let times = Times {
                    usual: USUAL_TRIES,
                    times,
                };
                write!(
                    f,
                    "until {network} {kind} {address} {operand} {value}{times}"
                )
            }
            ScriptEntry::Fence => f.write_str("fence"),
            ScriptEntry::Idle(turns) => write!(f, "idle {turns}"),
        }
    }
}

/// Prints how often an entry is issued, after a space, where it isn't as often as usual.
#[derive(Clone, Copy)]
struct Times {
    usual: u32,
    times: u32,
}

impl fmt::Display for Times {
    ghost output = { λ t. Some (times_text t.usual t.times) };

    fn fmt<W: fmt::Write>(&self, f: &mut fmt::Formatter<W>) -> fmt::Result {
        let Times { usual, times } = *self;
        if times == usual {
            Ok(())
        } else {
            write!(f, " {times}")
        }
    }
}

/// The entry that the words of a text are, None where they are none: `sync KIND A V [T]`,
/// `plain KIND A V [T]`, `until sync KIND A V W [T]`, `until plain KIND A V W [T]`, `fence` or `idle T`. Words are separated by spaces, tabs or CRs, which may
/// also stand at both ends. A number is 1 to 10 digits of a value up to 4,294,967,295; whether it is
/// within a project's limits isn't looked at here.
#[tactic(auto, using(crate::proofs::Texts::entry_read))]
pub fn read_entry(text: &[u8]) -> Option<ScriptEntry>
    ensures entry { result ≡ entry_of (words_of text.now) }
    ensures inverse { (entry : ScriptEntry) → IsNumbered entry → text.now ≡ entry_text entry → result ≡ Some entry }
{
    read_words(text)
}

/// `read_entry`, branch by branch; that it undoes the writing follows from the entry as a whole.
fn read_words(text: &[u8]) -> Option<ScriptEntry>
    ensures { result ≡ entry_of (words_of text.now) }
{
    let (word, rest) = split_word(text)?;
    if word == b"sync".as_slice() {
        read_reference(true, rest)
    } else if word == b"plain".as_slice() {
        read_reference(false, rest)
    } else if word == b"until".as_slice() {
        read_until(rest)
    } else if word == b"fence".as_slice() {
        read_fence(rest)
    } else if word == b"idle".as_slice() {
        read_idle(rest)
    } else {
        None
    }
}

fn read_reference(sync: bool, text: &[u8]) -> Option<ScriptEntry>
    ensures { result ≡ reference_of sync (words_of text.now) }
{
    let (kind, rest) = split_word(text)?;
    let (address, rest) = split_word(rest)?;
    let (operand, rest) = split_word(rest)?;
    let kind = Kind::from_name(kind)?;
    let address = number(address)?;
    let operand = number(operand)?;
    let times = read_times(rest, 1)?;
    Some(ScriptEntry::Reference {
        sync,
        op: Op { kind, operand },
        address,
        times,
    })
}

fn read_until(text: &[u8]) -> Option<ScriptEntry>
    ensures { result ≡ until_of (words_of text.now) }
{
    let (network, rest) = split_word(text)?;
    let (kind, rest) = split_word(rest)?;
    let (address, rest) = split_word(rest)?;
    let (operand, rest) = split_word(rest)?;
    let (value, rest) = split_word(rest)?;
    let sync = read_network(network)?;
    let kind = Kind::from_name(kind)?;
    let address = number(address)?;
    let operand = number(operand)?;
    let value = number(value)?;
    let times = read_times(rest, USUAL_TRIES)?;
    Some(ScriptEntry::Until {
        sync,
        op: Op { kind, operand },
        address,
        value,
        times,
    })
}

/// Whether a network's name is that of the combining one: true for `sync`, false for `plain`, None for another word.
pub fn read_network(word: &[u8]) -> Option<bool>
    ensures { result ≡ network_named word.now }
{
    if word == b"sync".as_slice() {
        Some(true)
    } else if word == b"plain".as_slice() {
        Some(false)
    } else {
        None
    }
}

fn read_times(text: &[u8], usual: u32) -> Option<u32>
    ensures { result ≡ times_of usual (words_of text.now) }
{
    let Some((times, rest)) = split_word(text) else {
        return Some(usual);
    };
    if split_word(rest).is_some() {
        return None;
    }
    number(times)
}

fn read_fence(text: &[u8]) -> Option<ScriptEntry>
    ensures { result ≡ fence_of (words_of text.now) }
{
    match split_word(text) {
        None => Some(ScriptEntry::Fence),
        Some(_) => None,
    }
}

fn read_idle(text: &[u8]) -> Option<ScriptEntry>
    ensures { result ≡ idle_of (words_of text.now) }
{
    let (turns, rest) = split_word(text)?;
    if split_word(rest).is_some() {
        return None;
    }
    Some(ScriptEntry::Idle(number(turns)?))
}
