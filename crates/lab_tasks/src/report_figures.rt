//! The numbers of a report: their names, and what they are as text.
ghost use Rattle.std.specs.Prelude.{◌≡◌, IfOk, Some, decimal, string_bytes};
ghost use Rattle.run_reports.specs.CompletionTexts.{field_text};
ghost use Rattle.run_reports.specs.Texts.{cycles_text, hundredths_text, mean_text};
ghost use Rattle.lab_tasks.specs.ReportFigures.{cycles_at, done_figure, done_line, done_name, event_name, full_figure, full_line, full_name, latency_figure, latency_line, latency_name, mean_field, place_in_event, spread_figure, spread_line, spread_name};

use run_reports::{Spread, Summary};
use std::alloc::{AllocError, Global};
use std::fmt;
use std::fmt::Write;

/// A number of hundredths, with two places behind its point.
#[derive(Clone, Copy)]
struct Hundredths(u64);

impl fmt::Display for Hundredths {
    ghost output = { λ h. Some (hundredths_text h.0) };

    fn fmt<W: fmt::Write>(&self, f: &mut fmt::Formatter<W>) -> fmt::Result {
        let whole = self.0 / 100;
        let (tenths, last) = (self.0 / 10 % 10, self.0 % 10);
        write!(f, "{whole}.{tenths}{last}")
    }
}

/// A mean, or that there is none.
#[derive(Clone, Copy)]
struct Mean(Option<u64>);

impl fmt::Display for Mean {
    ghost output = { λ m. Some (mean_text m.0) };

    fn fmt<W: fmt::Write>(&self, f: &mut fmt::Formatter<W>) -> fmt::Result {
        match self.0 {
            Some(mean) => {
                let mean = Hundredths(mean);
                write!(f, "{mean}")
            }
            None => write!(f, "none"),
        }
    }
}

/// A number of cycles, or that there is none.
#[derive(Clone, Copy)]
struct Cycles(Option<u64>);

impl fmt::Display for Cycles {
    ghost output = { λ c. Some (cycles_text c.0) };

    fn fmt<W: fmt::Write>(&self, f: &mut fmt::Formatter<W>) -> fmt::Result {
        match self.0 {
            Some(cycles) => write!(f, "{cycles}"),
            None => write!(f, "none"),
        }
    }
}

/// A number of cycles of a latency.
fn wide(cycles: Option<usize>) -> Option<u64>
    ensures { result ≡ cycles }
{
    match cycles {
        Some(cycles) => Some(cycles as u64),
        None => None,
    }
}

/// A cycle.
fn wide_cycle(cycle: Option<u32>) -> Option<u64>
    ensures { result ≡ cycle }
{
    match cycle {
        Some(cycle) => Some(u64::from(cycle)),
        None => None,
    }
}

/// A number as text, and nothing where there is none.
fn field(alloc: Global, number: Option<u64>) -> Result<String, AllocError>
    ensures { IfOk result (λ text. string_bytes text ≡ field_text number) }
{
    match number {
        Some(number) => format!(in alloc; "{number}"),
        None => Ok(String::new(alloc)),
    }
}

/// A mean as text, and nothing where there is none.
fn mean_field(alloc: Global, mean: Option<u64>) -> Result<String, AllocError>
    ensures { IfOk result (λ text. string_bytes text ≡ mean_field mean) }
{
    match mean {
        Some(mean) => {
            let mean = Hundredths(mean);
            format!(in alloc; "{mean}")
        }
        None => Ok(String::new(alloc)),
    }
}

/// A number as text.
fn counted(alloc: Global, number: u64) -> Result<String, AllocError>
    ensures { IfOk result (λ text. string_bytes text ≡ decimal number) }
{
    format!(in alloc; "{number}")
}

/// The name of a number of latencies, as it stands behind the question.
pub(crate) fn latency_name(place: u32) -> &'static str
    ensures { result.now ≡ latency_name place }
{
    match place {
        0 => " answered",
        1 => " unanswered",
        2 => " mean",
        3 => " least",
        4 => " p50",
        5 => " p90",
        6 => " p99",
        _ => " greatest",
    }
}

/// The cycles at a place behind the mean.
fn cycles_at(summary: &Summary, place: u32) -> Option<usize>
    ensures { result ≡ cycles_at summary.now place }
{
    match place {
        3 => summary.least,
        4 => summary.median,
        5 => summary.percentile_90,
        6 => summary.percentile_99,
        _ => summary.greatest,
    }
}

/// A number of latencies.
pub(crate) fn latency_figure(
    alloc: Global,
    summary: &Summary,
    place: u32,
) -> Result<String, AllocError>
    ensures { IfOk result (λ text. string_bytes text ≡ latency_figure summary.now place) }
{
    match place {
        0 => counted(alloc, summary.answered),
        1 => counted(alloc, summary.unanswered),
        2 => mean_field(alloc, summary.mean),
        _ => field(alloc, wide(cycles_at(summary, place))),
    }
}

/// Latencies in a line.
pub(crate) fn latency_line(alloc: Global, summary: &Summary) -> Result<String, AllocError>
    ensures { IfOk result (λ text. string_bytes text ≡ latency_line summary.now) }
{
    let mean = Mean(summary.mean);
    let (median, most) = (
        Cycles(wide(summary.median)),
        Cycles(wide(summary.percentile_90)),
    );
    let (all, left) = (Cycles(wide(summary.percentile_99)), summary.unanswered);
    format!(in alloc; "mean {mean} p50 {median} p90 {most} p99 {all} unanswered {left}")
}

/// The name of a number of cycles.
fn spread_name(place: u32) -> &'static str
    ensures { result.now ≡ spread_name place }
{
    match place {
        0 => " processors",
        1 => " earliest",
        2 => " latest",
        _ => " spread",
    }
}

/// The event of a number of completions.
fn event_name(place: u32) -> &'static str
    ensures { result.now ≡ event_name place }
{
    if place < 4 {
        " last_reply"
    } else {
        " script_end"
    }
}

/// The place among the numbers of an event.
fn place_in_event(place: u32) -> u32
    ensures { result ≡ place_in_event place }
{
    if place < 4 { place } else { place - 4 }
}

/// The name of a number of completions, as it stands behind the question.
#[derive(Clone, Copy)]
pub(crate) struct DoneName(pub u32);

impl fmt::Display for DoneName {
    ghost output = { λ name. Some (done_name name.0) };

    fn fmt<W: fmt::Write>(&self, f: &mut fmt::Formatter<W>) -> fmt::Result {
        let (event, name) = (event_name(self.0), spread_name(place_in_event(self.0)));
        write!(f, "{event}{name}")
    }
}

/// A number of some cycles.
fn spread_figure(alloc: Global, spread: &Spread, place: u32) -> Result<String, AllocError>
    ensures { IfOk result (λ text. string_bytes text ≡ spread_figure spread.now place) }
{
    match place {
        0 => counted(alloc, spread.number as u64),
        1 => field(alloc, wide_cycle(spread.earliest)),
        2 => field(alloc, wide_cycle(spread.latest)),
        _ => field(alloc, wide_cycle(spread.between)),
    }
}

/// A number of completions.
pub(crate) fn done_figure(
    alloc: Global,
    replies: &Spread,
    ends: &Spread,
    place: u32,
) -> Result<String, AllocError>
    ensures { IfOk result (λ text. string_bytes text ≡ done_figure replies.now ends.now place) }
{
    let spread = if place < 4 { replies } else { ends };
    spread_figure(alloc, spread, place_in_event(place))
}

/// Cycles in a line.
#[derive(Clone, Copy)]
struct SpreadLine(Spread);

impl fmt::Display for SpreadLine {
    ghost output = { λ line. Some (spread_line line.0) };

    fn fmt<W: fmt::Write>(&self, f: &mut fmt::Formatter<W>) -> fmt::Result {
        let spread = self.0;
        let number = spread.number;
        let earliest = Cycles(wide_cycle(spread.earliest));
        let latest = Cycles(wide_cycle(spread.latest));
        let between = Cycles(wide_cycle(spread.between));
        write!(
            f,
            " of {number} earliest {earliest} latest {latest} spread {between}"
        )
    }
}

/// Completions in a line.
pub(crate) fn done_line(
    alloc: Global,
    replies: &Spread,
    ends: &Spread,
) -> Result<String, AllocError>
    ensures { IfOk result (λ text. string_bytes text ≡ done_line replies.now ends.now) }
{
    let (replies, ends) = (SpreadLine(*replies), SpreadLine(*ends));
    format!(in alloc; "last_reply{replies} script_end{ends}")
}

/// The name of a number of full queues, as it stands behind the question.
pub(crate) fn full_name(place: u32) -> &'static str
    ensures { result.now ≡ full_name place }
{
    match place {
        0 => " full",
        1 => " queues",
        2 => " first",
        _ => " last",
    }
}

/// A number of full queues.
pub(crate) fn full_figure(
    alloc: Global,
    fulls: &Spread,
    queues: usize,
    place: u32,
) -> Result<String, AllocError>
    ensures { IfOk result (λ text. string_bytes text ≡ full_figure fulls.now queues place) }
{
    match place {
        0 => counted(alloc, fulls.number as u64),
        1 => counted(alloc, queues as u64),
        2 => field(alloc, wide_cycle(fulls.earliest)),
        _ => field(alloc, wide_cycle(fulls.latest)),
    }
}

/// Full queues in a line.
pub(crate) fn full_line(alloc: Global, fulls: &Spread, queues: usize) -> Result<String, AllocError>
    ensures { IfOk result (λ text. string_bytes text ≡ full_line fulls.now queues) }
{
    let number = fulls.number;
    let (first, last) = (
        Cycles(wide_cycle(fulls.earliest)),
        Cycles(wide_cycle(fulls.latest)),
    );
    format!(in alloc; "full {number} of {queues} first {first} last {last}")
}
