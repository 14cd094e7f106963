//! Completions as text.
ghost use Rattle.std.specs.Prelude.{◌≡◌, ◌++◌, IfOk, OnOk, string_bytes};
ghost use Rattle.std.specs.List.{flat_map};
ghost use Rattle.run_reports.specs.CompletionTexts.{completion_row, completion_text, ends_text, event_line, event_text, field_text, number_text};
ghost use Rattle.run_reports.specs.Texts.{cycles_text};

use crate::{Completion, Event, Spread, cycles_of, spread_of};
use std::alloc::{AllocError, Global};
use std::fmt;
use std::fmt::Write;

impl fmt::Display for Event {
    ghost use Rattle.std.specs.Prelude.{Some};

    ghost output = { λ e. Some (event_text e) };

    fn fmt<W: fmt::Write>(&self, f: &mut fmt::Formatter<W>) -> fmt::Result {
        match self {
            Event::LastReply => write!(f, "last_reply"),
            Event::ScriptEnd => write!(f, "script_end"),
        }
    }
}

/// A cycle in a line of figures, or that there is none.
#[derive(Clone, Copy)]
struct Figure(Option<u32>);

impl fmt::Display for Figure {
    ghost use Rattle.std.specs.Prelude.{Some};

    ghost output = { λ c. Some (cycles_text c.0) };

    fn fmt<W: fmt::Write>(&self, f: &mut fmt::Formatter<W>) -> fmt::Result {
        match self.0 {
            Some(cycle) => write!(f, "{cycle}"),
            None => write!(f, "none"),
        }
    }
}

/// A cycle in a table, or nothing.
#[derive(Clone, Copy)]
struct Field(Option<u32>);

impl fmt::Display for Field {
    ghost use Rattle.std.specs.Prelude.{Some};

    ghost output = { λ c. Some (field_text c.0) };

    fn fmt<W: fmt::Write>(&self, f: &mut fmt::Formatter<W>) -> fmt::Result {
        match self.0 {
            Some(cycle) => write!(f, "{cycle}"),
            None => Ok(()),
        }
    }
}

/// Adds the name of an event, and how many processors have it.
fn add_number(text: &mut String, event: Event, number: usize) -> Result<(), AllocError>
    ensures { OnOk result (string_bytes text.new ≡ string_bytes text.old ++ number_text event number) }
{
    write!(text, "{event} of {number}: ")
}

/// Adds the figures of some cycles.
fn add_ends(text: &mut String, spread: &Spread) -> Result<(), AllocError>
    ensures { OnOk result (string_bytes text.new ≡ string_bytes text.old ++ ends_text spread.now) }
{
    let (earliest, latest) = (Figure(spread.earliest), Figure(spread.latest));
    let between = Figure(spread.between);
    write!(
        text,
        "earliest {earliest} latest {latest} spread {between}\n"
    )
}

/// Adds the line of the figures of an event.
fn add_event(
    alloc: Global,
    text: &mut String,
    event: Event,
    completions: &[Completion],
) -> Result<(), AllocError>
    ensures { OnOk result (string_bytes text.new ≡ string_bytes text.old ++ event_line event completions.now) }
{
    let cycles = cycles_of(alloc, event, completions)?;
    let spread = spread_of(cycles.as_slice());
    add_number(text, event, spread.number)?;
    add_ends(text, &spread)
}

/// Adds the row of a processor.
fn add_row(text: &mut String, completion: &Completion) -> Result<(), AllocError>
    ensures { OnOk result (string_bytes text.new ≡ string_bytes text.old ++ completion_row completion.now) }
{
    let proc = completion.proc;
    let (reply, end) = (Field(completion.last_reply), Field(completion.script_end));
    write!(text, "{proc},{reply},{end}\n")
}

/// Adds the rows of some processors.
fn add_rows(text: &mut String, completions: &[Completion]) -> Result<(), AllocError>
    ensures { OnOk result (string_bytes text.new ≡ string_bytes text.old ++ flat_map completion_row completions.now) }
{
    for completion in completions {
        add_row(text, completion)?;
    }
    Ok(())
}

/// The report of completions: for each event a line with how many processors have it, its earliest and its latest cycle and the
/// cycles between these; and behind an empty line a table with a row for each processor, with nothing for what it hasn't.
///
/// # Errors
///
/// Where a growth was refused. What was taken is given back.
pub fn completion_text(alloc: Global, completions: &[Completion]) -> Result<String, AllocError>
    ensures { IfOk result (λ text. string_bytes text ≡ completion_text completions.now) }
{
    let mut text = String::new(alloc);
    add_event(alloc, &mut text, Event::LastReply, completions)?;
    add_event(alloc, &mut text, Event::ScriptEnd, completions)?;
    write!(text, "\nprocessor,last_reply,script_end\n")?;
    add_rows(&mut text, completions)?;
    Ok(text)
}
