//! The reasons behind refusals.
ghost use Rattle.std.specs.Prelude.{◌≡◌, IfOk, string_bytes};
ghost use Rattle.lab_shell.specs.Reasons.{refused_reason, bad_reason, reason_of, told_line};

use bench_shell::Answer;
use std::alloc::{AllocError, Global};
use std::fmt;

/// Why an edit is refused, by its number.
pub(crate) fn refused_reason(number: u8) -> &'static str
    ensures { result.now ≡ refused_reason number }
{
    match number {
        1 => "the journal holds 65535 edits",
        2 => "there is no such processor",
        3 => "there is no such entry, and it isn't the next one",
        4 => "a script has at most 256 entries, of a project of format 3 4096",
        5 => "an address is below 16384",
        6 => "a page is below 64",
        7 => "a page goes to 2^AMOUNT modules, from a multiple of that on, all of which are there",
        8 => "there is no such stage",
        9 => "a depth is 2 to 16, of comb-reverse 4 to 16, of wait 1 to 16",
        10 => "a window is 1 to 8",
        11 => "times and turns are 1 to 1000",
        12 => "a horizon is at most 2000, of a project of format 3 20000",
        _ => "",
    }
}

/// Why a query has no answer, by its number.
pub(crate) fn bad_reason(number: u8) -> &'static str
    ensures { result.now ≡ bad_reason number }
{
    match number {
        1 => "there is no such processor, module, component or stage",
        2 => "the cycle is past the horizon",
        3 => "an address is below 16384",
        4 => "the processor issues no such reference by the horizon",
        5 => "the last cycle is before the first",
        6 => "the fraction isn't within 0 to 1",
        _ => "",
    }
}

/// Why a line is refused, by its answer; nothing where it isn't.
pub(crate) fn reason_of(answer: &Answer) -> &'static str
    ensures { result.now ≡ reason_of answer.now }
{
    match answer {
        Answer::Accepted(_) | Answer::Told(..) => "",
        Answer::Refused(number) => refused_reason(*number),
        Answer::Bad(number) => bad_reason(*number),
        Answer::BadLine => "a line has at most 4096 bytes",
        Answer::BadCut => "the input ends within the line",
        Answer::BadCommand => "there is no such command; help lists them",
    }
}

/// An answer as people read it: behind a refusal stands why. It prints without LF.
#[derive(Clone, Copy)]
pub struct Reasoned<'a>(pub &'a Answer);

impl fmt::Display for Reasoned<'_> {
    ghost use Rattle.lab_shell.specs.Reasons.{reasoned_text};

    ghost output = { λ told. reasoned_text told.0.now };

    fn fmt<W: fmt::Write>(&self, f: &mut fmt::Formatter<W>) -> fmt::Result {
        let reason = reason_of(self.0);
        if reason.is_empty() {
            write!(f, "{}", self.0)
        } else {
            write!(f, "{}: {reason}", self.0)
        }
    }
}

/// The line of an answer, for people with the reason behind it.
///
/// # Errors
///
/// Where a growth was refused.
pub fn told_line(alloc: Global, people: bool, answer: &Answer) -> Result<String, AllocError>
    ensures { IfOk result (λ text. string_bytes text ≡ told_line people answer.now) }
{
    if people {
        let text = format!(in alloc; "{}\n", Reasoned(answer))?;
        return Ok(text);
    }
    let text = format!(in alloc; "{answer}\n")?;
    Ok(text)
}
