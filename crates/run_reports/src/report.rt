//! Latencies as text.
ghost use Rattle.std.specs.Prelude.{◌≡◌, ◌++◌, IfOk, OnOk, codes, string_bytes};
ghost use Rattle.run_reports.specs.Latencies.{AreFew};
ghost use Rattle.run_reports.specs.Texts.{counts_text, cycles_text, figures_text, lower_text, mean_text, report_text, row_text, rows_text, summary_of, upper_text};

use crate::Latencies;
use std::alloc::{AllocError, Global};
use std::fmt;
use std::fmt::Write;

/// The figures of counted latencies, in cycles; those that are none where no reference was answered.
#[derive(Clone, Copy, PartialEq, Eq, Debug)]
pub struct Summary {
    pub answered: u64,
    pub unanswered: u64,
    /// In hundredths of a cycle.
    pub mean: Option<u64>,
    pub least: Option<usize>,
    pub median: Option<usize>,
    pub percentile_90: Option<usize>,
    pub percentile_99: Option<usize>,
    pub greatest: Option<usize>,
}

impl Latencies {
    /// Their figures.
    pub fn summary(&self) -> Summary
        requires { AreFew self.now }
        ensures { result ≡ summary_of self.now }
    {
        Summary {
            answered: self.number(),
            unanswered: self.unanswered,
            mean: self.mean(),
            least: self.least(),
            median: self.percentile(50),
            percentile_90: self.percentile(90),
            percentile_99: self.percentile(99),
            greatest: self.greatest(),
        }
    }
}

/// A mean in hundredths, with two places behind its point.
#[derive(Clone, Copy)]
struct Mean(Option<u64>);

impl fmt::Display for Mean {
    ghost use Rattle.std.specs.Prelude.{Some};

    ghost output = { λ m. Some (mean_text m.0) };

    fn fmt<W: fmt::Write>(&self, f: &mut fmt::Formatter<W>) -> fmt::Result {
        match self.0 {
            Some(mean) => {
                let whole = mean / 100;
                let (tenths, last) = (mean / 10 % 10, mean % 10);
                write!(f, "{whole}.{tenths}{last}")
            }
            None => write!(f, "none"),
        }
    }
}

/// A number of cycles, if there is one.
#[derive(Clone, Copy)]
struct Cycles(Option<usize>);

impl fmt::Display for Cycles {
    ghost use Rattle.std.specs.Prelude.{Some};

    ghost output = { λ c. Some (cycles_text c.0) };

    fn fmt<W: fmt::Write>(&self, f: &mut fmt::Formatter<W>) -> fmt::Result {
        match self.0 {
            Some(cycles) => write!(f, "{cycles}"),
            None => write!(f, "none"),
        }
    }
}

/// The mean and the percentiles in a line, without LF.
impl fmt::Display for Summary {
    ghost use Rattle.std.specs.Prelude.{Some};

    ghost output = { λ s. Some (figures_text s) };

    fn fmt<W: fmt::Write>(&self, f: &mut fmt::Formatter<W>) -> fmt::Result {
        let mean = Mean(self.mean);
        let (median, most) = (Cycles(self.median), Cycles(self.percentile_90));
        let all = Cycles(self.percentile_99);
        write!(f, "mean {mean}, p50 {median}, p90 {most}, p99 {all}")
    }
}

/// Adds the lines on how many there are, and on their mean.
fn add_counts(text: &mut String, summary: &Summary) -> Result<(), AllocError>
    ensures { OnOk result (string_bytes text.new ≡ string_bytes text.old ++ counts_text summary.now) }
{
    let (answered, unanswered) = (summary.answered, summary.unanswered);
    let mean = Mean(summary.mean);
    write!(
        text,
        "answered {answered}\nunanswered {unanswered}\nmean {mean}\n"
    )
}

/// Adds the lines on the least one and on the lower percentiles.
fn add_lower(text: &mut String, summary: &Summary) -> Result<(), AllocError>
    ensures { OnOk result (string_bytes text.new ≡ string_bytes text.old ++ lower_text summary.now) }
{
    let least = Cycles(summary.least);
    let (median, most) = (Cycles(summary.median), Cycles(summary.percentile_90));
    write!(text, "least {least}\np50 {median}\np90 {most}\n")
}

/// Adds the lines on the highest percentile and on the greatest one.
fn add_upper(text: &mut String, summary: &Summary) -> Result<(), AllocError>
    ensures { OnOk result (string_bytes text.new ≡ string_bytes text.old ++ upper_text summary.now) }
{
    let (most, greatest) = (Cycles(summary.percentile_99), Cycles(summary.greatest));
    write!(text, "p99 {most}\ngreatest {greatest}\n")
}

/// Adds the row of a latency, where some reference has it.
fn add_row(text: &mut String, latency: usize, number: u64) -> Result<(), AllocError>
    ensures { OnOk result (string_bytes text.new ≡ string_bytes text.old ++ row_text latency number) }
{
    if number > 0 {
        write!(text, "{latency},{number}\n")?;
    }
    Ok(())
}

/// Adds the rows of all latencies.
fn add_rows(text: &mut String, numbers: &[u64]) -> Result<(), AllocError>
    ensures { OnOk result (string_bytes text.new ≡ string_bytes text.old ++ rows_text numbers.now) }
{
    for latency in 0..numbers.len() {
        add_row(text, latency, numbers[latency])?;
    }
    Ok(())
}

/// The report of latencies: a line for each figure, and behind an empty line a table of the latencies that some reference has,
/// each with how many have it.
///
/// # Errors
///
/// Where a growth was refused. What was taken is given back.
pub fn latency_text(alloc: Global, latencies: &Latencies) -> Result<String, AllocError>
    requires { AreFew latencies.now }
    ensures { IfOk result (λ text. string_bytes text ≡ report_text latencies.now) }
{
    let summary = latencies.summary();
    let mut text = String::new(alloc);
    add_counts(&mut text, &summary)?;
    add_lower(&mut text, &summary)?;
    add_upper(&mut text, &summary)?;
    write!(text, "\nlatency,references\n")?;
    add_rows(&mut text, latencies.histogram.as_slice())?;
    Ok(text)
}
