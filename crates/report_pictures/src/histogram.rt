//! How long the references of a run took, as a histogram.
ghost use Rattle.std.specs.Prelude.{◌≡◌, ◌+◌, ◌*◌, ◌<◌, ◌≤◌, ◌^◌, ◌++◌, [], IfOk, OnOk, codes, length, slice_index, string_bytes};
ghost use Rattle.std.specs.List.{flat_map};
ghost use Rattle.omega_net.specs.Wires.{below};
ghost use Rattle.run_reports.specs.Latencies.{AreFew};
ghost use Rattle.report_pictures.specs.LatencyPictures.{bar_of, bars_of, caption, capped, figures_note, from_of, latency_notes, most_of, to_of, IsDrawnWith, IsLatencyPicture};

use omega_net::Net;
use run_reports::{Condition, Heat, Latencies, Window};
use std::alloc::{AllocError, Global};
use std::fmt;
use svg_plots::{
    Axis, Colour, Histogram, Label, Panel, PanelBar, Tick, draw_histogram, labels_of, ticks_between,
};

/// A number as far as an axis goes.
pub(crate) fn capped(number: u64) -> u32
    ensures capped { result ≡ capped number }
    ensures most { result < 100000000 }
{
    number.min(99_999_999) as u32
}

/// Adds the bar of a latency that so many references took.
fn add_bar(bars: &mut Vec<PanelBar>, latency: u32, number: u64) -> Result<(), AllocError>
    requires { latency < 2 ^ 16 }
    ensures { OnOk result (bars.new.items ≡ bars.old.items ++ bar_of latency number) }
{
    if number == 0 {
        return Ok(());
    }
    bars.push(PanelBar {
        from: (latency * 10).saturating_sub(4),
        to: latency * 10 + 4,
        height: capped(number) * 10,
    })?;
    Ok(())
}

fn bars_of(alloc: Global, numbers: &[u64]) -> Result<Vec<PanelBar>, AllocError>
    requires { length numbers.now < 2 ^ 16 }
    ensures { IfOk result (λ v. v.items ≡ bars_of numbers.now) }
{
    let mut bars = Vec::new(alloc);
    for latency in 0..numbers.len() {
        add_bar(&mut bars, latency as u32, numbers[latency])?;
    }
    Ok(bars)
}

/// A cycle before the least latency.
fn from_of(latencies: &Latencies) -> u32
    ensures from { result ≡ from_of latencies.now }
    ensures few { result ≤ 65535 }
{
    let least = latencies.least().unwrap_or(0).min(65_535) as u32;
    least.saturating_sub(1)
}

/// A cycle behind the greatest latency.
fn to_of(latencies: &Latencies) -> u32
    ensures to { result ≡ to_of latencies.now }
    ensures few { result ≤ 65536 }
{
    let greatest = latencies.greatest().unwrap_or(0).min(65_535) as u32;
    greatest + 1
}

/// The most references that one latency has.
fn most_of(numbers: &[u64]) -> u32
    ensures most { result ≡ most_of numbers.now }
    ensures few { result < 100000000 }
{
    let mut most: u32 = 1;
    for number in numbers {
        most = most.max(capped(*number));
    }
    most
}

/// Which processor's references they are.
#[derive(Clone, Copy)]
struct ProcWords(Option<u32>);

impl fmt::Display for ProcWords {
    ghost use Rattle.std.specs.Prelude.{Some};
    ghost use Rattle.report_pictures.specs.LatencyPictures.{proc_words};

    ghost output = { λ w. Some (proc_words w.0) };

    fn fmt<W: fmt::Write>(&self, f: &mut fmt::Formatter<W>) -> fmt::Result {
        match self.0 {
            Some(proc) => write!(f, " of processor {proc}"),
            None => Ok(()),
        }
    }
}

/// Which network they went over.
#[derive(Clone, Copy)]
struct NetWords(Option<Net>);

impl fmt::Display for NetWords {
    ghost use Rattle.std.specs.Prelude.{Some};
    ghost use Rattle.report_pictures.specs.LatencyPictures.{net_words};

    ghost output = { λ w. Some (net_words w.0) };

    fn fmt<W: fmt::Write>(&self, f: &mut fmt::Formatter<W>) -> fmt::Result {
        match self.0 {
            Some(Net::Low) => write!(f, " over the low network"),
            Some(Net::Comb) => write!(f, " over the combining network"),
            None => Ok(()),
        }
    }
}

/// Which page they were to.
#[derive(Clone, Copy)]
struct PageWords(Option<u32>);

impl fmt::Display for PageWords {
    ghost use Rattle.std.specs.Prelude.{Some};
    ghost use Rattle.report_pictures.specs.LatencyPictures.{page_words};

    ghost output = { λ w. Some (page_words w.0) };

    fn fmt<W: fmt::Write>(&self, f: &mut fmt::Formatter<W>) -> fmt::Result {
        match self.0 {
            Some(page) => write!(f, " to page {page}"),
            None => Ok(()),
        }
    }
}

/// Which word they were to.
#[derive(Clone, Copy)]
struct AddressWords(Option<u32>);

impl fmt::Display for AddressWords {
    ghost use Rattle.std.specs.Prelude.{Some};
    ghost use Rattle.report_pictures.specs.LatencyPictures.{address_words};

    ghost output = { λ w. Some (address_words w.0) };

    fn fmt<W: fmt::Write>(&self, f: &mut fmt::Formatter<W>) -> fmt::Result {
        match self.0 {
            Some(address) => write!(f, " to word {address}"),
            None => Ok(()),
        }
    }
}

/// Whether they were to a hot word, or to others.
#[derive(Clone, Copy)]
struct HotWords(Option<Heat>);

impl fmt::Display for HotWords {
    ghost use Rattle.std.specs.Prelude.{Some};
    ghost use Rattle.report_pictures.specs.LatencyPictures.{hot_words};

    ghost output = { λ w. Some (hot_words w.0) };

    fn fmt<W: fmt::Write>(&self, f: &mut fmt::Formatter<W>) -> fmt::Result {
        match self.0 {
            Some(Heat::Hot(word)) => write!(f, " to the hot word {word}"),
            Some(Heat::Cold(word)) => write!(f, " to other words than {word}"),
            None => Ok(()),
        }
    }
}

/// When they were issued.
#[derive(Clone, Copy)]
struct WindowWords(Option<Window>);

impl fmt::Display for WindowWords {
    ghost use Rattle.std.specs.Prelude.{Some};
    ghost use Rattle.report_pictures.specs.LatencyPictures.{window_words};

    ghost output = { λ w. Some (window_words w.0) };

    fn fmt<W: fmt::Write>(&self, f: &mut fmt::Formatter<W>) -> fmt::Result {
        match self.0 {
            Some(Window { from, to }) => write!(f, " issued in the cycles {from} to {to}"),
            None => Ok(()),
        }
    }
}

/// Which references they are.
fn caption(alloc: Global, name: &str, condition: &Condition) -> Result<String, AllocError>
    ensures { IfOk result (λ text. string_bytes text ≡ caption name.now condition.now) }
{
    let (proc, net) = (ProcWords(condition.proc), NetWords(condition.net));
    let (page, address) = (PageWords(condition.page), AddressWords(condition.address));
    let (hot, window) = (HotWords(condition.hot), WindowWords(condition.window));
    format!(in alloc; "{name}: references{proc}{net}{page}{address}{hot}{window}.")
}

/// Their figures.
fn figures_note(alloc: Global, latencies: &Latencies) -> Result<String, AllocError>
    requires { AreFew latencies.now }
    ensures { IfOk result (λ text. string_bytes text ≡ figures_note latencies.now) }
{
    let summary = latencies.summary();
    let (answered, unanswered) = (summary.answered, summary.unanswered);
    format!(in alloc; "{answered} answered, {unanswered} unanswered. Cycles: {summary}.")
}

const LAST_NOTE: &str =
    "p90: the least latency within which 90 in a hundred of those that were answered are.";

/// The lines below.
fn notes_of(
    alloc: Global,
    name: &str,
    condition: &Condition,
    latencies: &Latencies,
) -> Result<Vec<Label>, AllocError>
    requires { AreFew latencies.now }
    ensures { IfOk result (λ v. v.items ≡ latency_notes name.now condition.now latencies.now) }
{
    let figures = figures_note(alloc, latencies)?;
    let caption = caption(alloc, name, condition)?;
    labels_of(alloc, &[figures.as_str(), caption.as_str(), LAST_NOTE])
}

/// The panel with these axes.
fn panel_of<'a>(
    alloc: Global,
    from: u32,
    to: u32,
    most: u32,
    across: &'a [Tick],
    up: &'a [Tick],
) -> Panel<'a>
    requires from { from ≤ 65535 }
    requires to { to ≤ 65536 }
    requires most { most < 100000000 }
    ensures title { result.title.now ≡ codes "Latencies" }
    ensures across_title { result.across.title.now ≡ codes "cycles from issue to reply" }
    ensures across { (result.across.from ≡ from * 10) × (result.across.to ≡ to * 10) }
    ensures across_ticks { result.across.ticks.now ≡ across.now }
    ensures up_title { result.up.title.now ≡ codes "references" }
    ensures up { (result.up.from ≡ 0) × (result.up.to ≡ (most + 1) * 10) }
    ensures up_ticks { result.up.ticks.now ≡ up.now }
    ensures curves { result.curves.items ≡ [] }
{
    Panel {
        title: "Latencies",
        across: Axis {
            title: "cycles from issue to reply",
            from: from * 10,
            to: to * 10,
            ticks: across,
        },
        up: Axis {
            title: "references",
            from: 0,
            to: (most + 1) * 10,
            ticks: up,
        },
        curves: Vec::new(alloc),
    }
}

fn heading() -> &'static str
    ensures { result.now ≡ codes "How long references took" }
{
    "How long references took"
}

/// A histogram of these parts.
fn drawn(
    alloc: Global,
    panel: &Panel<'_>,
    bars: &[PanelBar],
    notes: &[Label],
) -> Result<String, AllocError>
    ensures { IfOk result (λ text. IsDrawnWith panel.now bars.now notes.now (string_bytes text)) }
{
    let histogram = Histogram {
        title: heading(),
        panel,
        bars,
        colour: Colour::Shade(12),
    };
    draw_histogram(alloc, &histogram, notes)
}

/// The histogram of the latencies of the references of a file that meet a condition, as an SVG document. Below it stand their
/// figures, and which references they are.
///
/// # Errors
///
/// Where a growth was refused. What was taken is given back.
pub fn latency_picture(
    alloc: Global,
    name: &str,
    condition: &Condition,
    latencies: &Latencies,
) -> Result<String, AllocError>
    requires { AreFew latencies.now }
    ensures { IfOk result (λ text. IsLatencyPicture name.now condition.now latencies.now (string_bytes text)) }
{
    let numbers = latencies.histogram.as_slice();
    let from = from_of(latencies);
    let to = to_of(latencies);
    let most = most_of(numbers);
    let across = ticks_between(alloc, from, to)?;
    let up = ticks_between(alloc, 0, most + 1)?;
    let bars = bars_of(alloc, numbers)?;
    let notes = notes_of(alloc, name, condition, latencies)?;
    let panel = panel_of(alloc, from, to, most, across.as_slice(), up.as_slice());
    drawn(alloc, &panel, bars.as_slice(), notes.as_slice())
}
