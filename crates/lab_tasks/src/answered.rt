//! The columns of an answer: one, or one for each of its numbers.
ghost use Rattle.std.specs.Prelude.{◌≡◌, ◌++◌, IfOk, OnOk, Some, codes, decimal, map, slice_get, string_bytes};
ghost use Rattle.std.specs.List.{flat_map};
ghost use Rattle.std.specs.Option.{option_copied};
ghost use Rattle.run_queries.specs.Texts.{body_text};
ghost use Rattle.lab_tasks.specs.Answered.{asked_columns, bad_text, cell_at, cells_of, column_name, columns_for, figure_name, figures_of, first_text, in_first, number_at, number_shown, one_of, question_columns, refused_cells, refused_text, shown, width_of};

use crate::asking::Asking;
use crate::grid::Cell;
use crate::report_figures::{
    DoneName, done_figure, done_line, full_figure, full_line, full_name, latency_figure,
    latency_line, latency_name,
};
use run_queries::{Body, NumberName, Query};
use run_reports::{Spread, Summary};
use std::alloc::{AllocError, Global};
use std::fmt;
use std::fmt::Write;

/// Whether each number of an answer has a column of its own; and the k of the machine.
#[derive(Clone, Copy)]
pub(crate) struct Form {
    pub numbers: bool,
    pub k: u32,
}

/// How many numbers a question's answer or a report has.
fn figures_of(k: u32, asking: Asking) -> u32
    ensures { result ≡ figures_of k asking }
{
    match asking {
        Asking::Query(query) => query.numbers(k),
        Asking::Latency(_) | Asking::Done => 8,
        Asking::Full => 4,
    }
}

impl Form {
    /// How many columns a question or a report has.
    fn width(self, asking: Asking) -> u32
        ensures { result ≡ width_of self asking }
    {
        if self.numbers {
            figures_of(self.k, asking)
        } else {
            1
        }
    }
}

/// What is said to a question or a report.
#[derive(Drop)]
pub(crate) enum Says {
    Body(Body),
    /// There is no answer, by the number of the reason.
    Bad(u8),
    Latency(Summary),
    /// Of last replies, and of ends of scripts.
    Done(Spread, Spread),
    /// Of the cycles at which queues first were full, and of how many queues.
    Full(Spread, usize),
}

/// The first of two texts, or the other one.
fn one_of<'a>(first: &'a str, other: &'a str, place: u32) -> &'a str
    ensures { result.now ≡ one_of first.now other.now place }
{
    if place == 0 { first } else { other }
}

/// The first of two numbers, or the other one, as text.
fn number_of(alloc: Global, first: u64, other: u64, place: u32) -> Result<String, AllocError>
    ensures { IfOk result (λ text. string_bytes text ≡ one_of (decimal first) (decimal other) place) }
{
    if place == 0 {
        format!(in alloc; "{first}")
    } else {
        format!(in alloc; "{other}")
    }
}

/// A text that stands in the first of several columns alone.
fn in_first(alloc: Global, text: &str, place: u32) -> Result<String, AllocError>
    ensures { IfOk result (λ cell. string_bytes cell ≡ in_first text.now place) }
{
    String::from_str(alloc, one_of(text, "", place))
}

/// The name of a number of a question's answer or of a report.
#[derive(Clone, Copy)]
struct FigureName {
    asking: Asking,
    place: u32,
}

impl fmt::Display for FigureName {
    ghost output = { λ name. Some (figure_name name.asking name.place) };

    fn fmt<W: fmt::Write>(&self, f: &mut fmt::Formatter<W>) -> fmt::Result {
        let place = self.place;
        match self.asking {
            Asking::Query(query) => {
                let name = NumberName { query, place };
                write!(f, "{name}")
            }
            Asking::Latency(_) => f.write_str(latency_name(place)),
            Asking::Done => {
                let name = DoneName(place);
                write!(f, "{name}")
            }
            Asking::Full => f.write_str(full_name(place)),
        }
    }
}

/// The name of a column.
fn column_name(
    alloc: Global,
    form: Form,
    ask: &str,
    asking: Asking,
    place: u32,
) -> Result<String, AllocError>
    ensures { IfOk result (λ name. string_bytes name ≡ column_name form ask.now asking place) }
{
    if !form.numbers {
        return String::from_str(alloc, ask);
    }
    let name = FigureName { asking, place };
    format!(in alloc; "{ask}{name}")
}

/// Adds the columns of a question or a report.
fn add_columns(
    alloc: Global,
    names: &mut Vec<Cell>,
    form: Form,
    ask: &str,
    asking: Asking,
) -> Result<(), AllocError>
    ensures { OnOk result (names.new.items ≡ names.old.items ++ question_columns form ask.now asking) }
{
    for place in 0..form.width(asking) {
        let name = column_name(alloc, form, ask, asking, place)?;
        names.push(Cell::new(name))?;
    }
    Ok(())
}

/// Adds the columns of a question or a report, where there is one.
fn add_columns_for(
    alloc: Global,
    names: &mut Vec<Cell>,
    form: Form,
    ask: &str,
    asking: Option<Asking>,
) -> Result<(), AllocError>
    ensures { OnOk result (names.new.items ≡ names.old.items ++ columns_for form ask.now asking) }
{
    match asking {
        Some(asking) => add_columns(alloc, names, form, ask, asking),
        None => Ok(()),
    }
}

/// What is asked at a place.
fn asking_at(askings: &[Asking], place: usize) -> Option<Asking>
    ensures { result ≡ slice_get askings.now place }
{
    askings.get(place).copied()
}

/// Adds the columns of all questions and reports.
pub(crate) fn add_asked(
    alloc: Global,
    names: &mut Vec<Cell>,
    form: Form,
    askings: &[Asking],
    asks: &[&str],
) -> Result<(), AllocError>
    ensures { OnOk result (names.new.items ≡ names.old.items ++ asked_columns form askings.now (map (λ ask. ask.now) asks.entry.now)) }
{
    for (place, ask) in asks.iter().enumerate() {
        let asking = asking_at(askings, place);
        add_columns_for(alloc, names, form, ask, asking)?;
    }
    Ok(())
}

/// An answer's text.
fn printed(alloc: Global, body: &Body) -> Result<String, AllocError>
    ensures { IfOk result (λ text. body_text body.now ≡ Some (string_bytes text)) }
{
    format!(in alloc; "{body}")
}

/// What stands in place of an answer that there isn't, by the number of the reason.
fn bad_word(alloc: Global, number: u8) -> Result<String, AllocError>
    ensures { IfOk result (λ text. string_bytes text ≡ bad_text number) }
{
    format!(in alloc; "bad {number}")
}

/// The text of what is said.
fn said(alloc: Global, says: &Says) -> Result<String, AllocError>
    ensures { IfOk result (λ text. shown says.now ≡ Some (string_bytes text)) }
{
    match says {
        Says::Body(body) => printed(alloc, body),
        Says::Bad(number) => bad_word(alloc, *number),
        Says::Latency(summary) => latency_line(alloc, summary),
        Says::Done(replies, ends) => done_line(alloc, replies, ends),
        Says::Full(fulls, queues) => full_line(alloc, fulls, *queues),
    }
}

/// The first cycle of a level, as text.
fn first_word(alloc: Global, first: Option<&Option<u32>>) -> Result<String, AllocError>
    ensures { IfOk result (λ text. string_bytes text ≡ first_text (option_copied first.entry)) }
{
    match first {
        Some(Some(cycle)) => format!(in alloc; "{cycle}"),
        Some(None) | None => Ok(String::new(alloc)),
    }
}

/// The number of an answer at a place.
fn number_in(alloc: Global, body: &Body, place: u32) -> Result<String, AllocError>
    ensures { IfOk result (λ text. number_at body.now place ≡ Some (string_bytes text)) }
{
    match body {
        Body::Reply(None) => in_first(alloc, "none", place),
        Body::Reply(Some(received)) => {
            let (cycle, word) = (u64::from(received.cycle), u64::from(received.word));
            number_of(alloc, cycle, word, place)
        }
        Body::State(_) | Body::Order(_) => printed(alloc, body),
        Body::Word(word) => format!(in alloc; "{word}"),
        Body::Count(count) => format!(in alloc; "{count}"),
        Body::Profile(counts) => {
            let count = counts.get(place as usize).copied().unwrap_or(0);
            format!(in alloc; "{count}")
        }
        Body::Tree(tree) => first_word(alloc, tree.first.as_slice().get(place as usize)),
        Body::Level(level) => format!(in alloc; "{level}"),
        Body::Fraction(numerator, denominator) => {
            number_of(alloc, *numerator, *denominator, place)
        }
        Body::Place(at) => { number_of(alloc, u64::from(at.module), u64::from(at.row), place) }
    }
}

/// What stands in a column where there is no answer.
fn bad_in(alloc: Global, number: u8, place: u32) -> Result<String, AllocError>
    ensures { IfOk result (λ text. string_bytes text ≡ in_first (bad_text number) place) }
{
    let bad = bad_word(alloc, number)?;
    in_first(alloc, bad.as_str(), place)
}

/// What is said, in one of the columns of its numbers.
fn number_said(alloc: Global, says: &Says, place: u32) -> Result<String, AllocError>
    ensures { IfOk result (λ text. number_shown says.now place ≡ Some (string_bytes text)) }
{
    match says {
        Says::Body(body) => number_in(alloc, body, place),
        Says::Bad(number) => bad_in(alloc, *number, place),
        Says::Latency(summary) => latency_figure(alloc, summary, place),
        Says::Done(replies, ends) => done_figure(alloc, replies, ends, place),
        Says::Full(fulls, queues) => full_figure(alloc, fulls, *queues, place),
    }
}

/// What stands in one of the columns of a question or a report.
fn cell_in(alloc: Global, form: Form, says: &Says, place: u32) -> Result<String, AllocError>
    ensures { IfOk result (λ text. cell_at form says.now place ≡ Some (string_bytes text)) }
{
    if form.numbers {
        number_said(alloc, says, place)
    } else {
        said(alloc, says)
    }
}

/// Adds what is said to a question or a report, in its columns.
pub(crate) fn add_said(
    alloc: Global,
    cells: &mut Vec<Cell>,
    form: Form,
    asking: Asking,
    says: &Says,
) -> Result<(), AllocError>
    ensures { OnOk result (map Some cells.new.items ≡ map Some cells.old.items ++ cells_of form asking says.now) }
{
    for place in 0..form.width(asking) {
        let cell = cell_in(alloc, form, says, place)?;
        cells.push(Cell::new(cell))?;
    }
    Ok(())
}

/// What stands in place of an answer where an edit is refused, by the number of the reason.
fn refused_word(alloc: Global, number: u8) -> Result<String, AllocError>
    ensures { IfOk result (λ text. string_bytes text ≡ refused_text number) }
{
    format!(in alloc; "refused {number}")
}

/// What stands in one of the columns where an edit is refused.
fn refused_in(alloc: Global, number: u8, place: u32) -> Result<String, AllocError>
    ensures { IfOk result (λ text. string_bytes text ≡ in_first (refused_text number) place) }
{
    let refused = refused_word(alloc, number)?;
    in_first(alloc, refused.as_str(), place)
}

/// Adds the columns of a question or a report where an edit is refused.
fn add_refused(
    alloc: Global,
    cells: &mut Vec<Cell>,
    form: Form,
    number: u8,
    asking: Asking,
) -> Result<(), AllocError>
    ensures { OnOk result (map Some cells.new.items ≡ map Some cells.old.items ++ refused_cells form number asking) }
{
    for place in 0..form.width(asking) {
        let cell = refused_in(alloc, number, place)?;
        cells.push(Cell::new(cell))?;
    }
    Ok(())
}

/// Adds `refused N` in the place of each answer.
pub(crate) fn add_all_refused(
    alloc: Global,
    cells: &mut Vec<Cell>,
    form: Form,
    number: u8,
    askings: &[Asking],
) -> Result<(), AllocError>
    ensures { OnOk result (map Some cells.new.items ≡ map Some cells.old.items ++ flat_map (refused_cells form number) askings.now) }
{
    for asking in askings {
        add_refused(alloc, cells, form, number, *asking)?;
    }
    Ok(())
}
