//! What gauges of a run showed, as curves in steps.
ghost use Rattle.std.specs.Prelude.{◌≡◌, ◌+◌, ◌*◌, ◌==◌, ◌<◌, ◌≤◌, if◌then◌else◌, ◌++◌, ◌∷◌, [], IfOk, OnOk, codes, length, map, string_bytes};
ghost use Rattle.std.specs.List.{flat_map};
ghost use Rattle.svg_plots.specs.Lists.{each};
ghost use Rattle.report_pictures.specs.SeriesPictures.{each_of, end_of, first_in, gauge_curves, gauge_stroke, is_marked, line_of, mark_at, marks_of, middle_at, middle_of, most_in, most_of, series_note, series_title, step_of, sum_at, IsSeriesPicture};

use crate::histogram::capped;
use run_reports::{Bins, Sums};
use std::alloc::{AllocError, Global};
use svg_plots::{
    Axis, Curve, Curves, Label, Panel, Points, Stroke, Tick, Whiskers, draw_curves, labels_of,
    mark_of, stroke_of, ticks_between,
};

/// The cycle behind the last one of a bin that begins at this one.
fn end_of(bins: Bins, first: u32) -> u32
    requires { bins.window.to ≤ 1000000 }
    ensures end { result ≡ end_of bins first }
    ensures few { result ≤ 1000001 }
{
    first.saturating_add(bins.size).min(bins.window.to + 1)
}

/// The first cycle of a bin.
fn first_in(bins: Bins, bin: &(u32, Sums)) -> u32
    requires { bins.window.to ≤ 1000000 }
    ensures first { result ≡ first_in bins bin.now }
    ensures few { result ≤ 1000000 }
{
    bin.0.min(bins.window.to)
}

/// What the gauge at a place comes to in a bin.
fn sum_at(place: usize, bin: &(u32, Sums)) -> u32
    ensures sum { result ≡ sum_at place bin.now }
    ensures few { result < 100000000 }
{
    let sum = bin.1.as_slice().get(place).copied().unwrap_or(0);
    capped(sum)
}

/// Adds the step of a bin.
fn add_step(
    points: &mut Vec<(u32, u32)>,
    bins: Bins,
    place: usize,
    bin: &(u32, Sums),
) -> Result<(), AllocError>
    requires { bins.window.to ≤ 1000000 }
    ensures { OnOk result (points.new.items ≡ points.old.items ++ step_of bins place bin.now) }
{
    let (first, sum) = (first_in(bins, bin), sum_at(place, bin));
    let end = end_of(bins, first);
    points.push((first * 10, sum * 10))?;
    points.push((end * 10, sum * 10))?;
    Ok(())
}

fn steps_of(
    alloc: Global,
    bins: Bins,
    place: usize,
    all: &[(u32, Sums)],
) -> Result<Vec<(u32, u32)>, AllocError>
    requires { bins.window.to ≤ 1000000 }
    ensures { IfOk result (λ v. v.items ≡ flat_map (step_of bins place) all.now) }
{
    let mut points = Vec::new(alloc);
    for bin in all {
        add_step(&mut points, bins, place, bin)?;
    }
    Ok(points)
}

/// The line of the gauge at a place: every second one is dashed.
fn gauge_stroke(place: usize) -> Stroke
    ensures { result ≡ gauge_stroke place }
{
    stroke_of(place, 18, place % 2 == 1)
}

/// The steps of the gauge at a place.
fn line_of(
    alloc: Global,
    bins: Bins,
    place: usize,
    all: &[(u32, Sums)],
) -> Result<Curve, AllocError>
    requires { bins.window.to ≤ 1000000 }
    ensures { IfOk result (λ curve. curve ≡ line_of bins all.now place) }
{
    let points = steps_of(alloc, bins, place, all)?;
    Ok(Curve {
        label: Label::from_string(String::new(alloc)),
        points: Points::from_vec(points),
        whiskers: Whiskers::from_vec(Vec::new(alloc)),
        stroke: gauge_stroke(place),
        mark: None,
    })
}

/// From how many steps one has a mark.
fn each_of(count: usize) -> usize
    ensures each { result ≡ each_of count }
    ensures some { 1 ≤ result }
    ensures few { result ≤ 2305843009213693952 }
{
    count / 8 + 1
}

/// Whether the step of a number has a mark.
fn is_marked(count: usize, place: usize, number: usize) -> bool
    ensures { result ≡ is_marked count place number }
{
    let each = each_of(count);
    number % each == place % 7 * each / 7
}

/// The middle of a step.
fn middle_of(bins: Bins, place: usize, bin: &(u32, Sums)) -> (u32, u32)
    requires { bins.window.to ≤ 1000000 }
    ensures { result ≡ middle_of bins place bin.now }
{
    let first = first_in(bins, bin);
    let end = end_of(bins, first);
    ((first + end) * 5, sum_at(place, bin) * 10)
}

/// Adds the middle of a step that has a mark.
fn add_middle(
    middles: &mut Vec<(u32, u32)>,
    bins: Bins,
    count: usize,
    place: usize,
    number: usize,
    bin: &(u32, Sums),
) -> Result<(), AllocError>
    requires { bins.window.to ≤ 1000000 }
    ensures { OnOk result (middles.new.items ≡ middles.old.items ++ middle_at bins count place number bin.now) }
{
    if is_marked(count, place, number) {
        middles.push(middle_of(bins, place, bin))?;
    }
    Ok(())
}

/// The middles of the steps that have a mark.
fn middles_of(
    alloc: Global,
    bins: Bins,
    place: usize,
    all: &[(u32, Sums)],
) -> Result<Vec<(u32, u32)>, AllocError>
    requires { bins.window.to ≤ 1000000 }
    ensures { IfOk result (λ v. v.items ≡ each (middle_at bins (length all.now) place) all.now) }
{
    let mut middles = Vec::new(alloc);
    for (number, bin) in all.iter().enumerate() {
        add_middle(&mut middles, bins, all.len(), place, number, bin)?;
    }
    Ok(middles)
}

/// The text that names a curve at its first mark alone.
fn label_at(alloc: Global, name: &str, number: usize) -> Result<Label, AllocError>
    ensures { IfOk result (λ label. label ≡ if number == 0 then name.now else []) }
{
    Label::new(alloc, if number == 0 { name } else { "" })
}

/// Adds a mark: a curve of one point.
fn add_mark(
    alloc: Global,
    curves: &mut Vec<Curve>,
    name: &str,
    place: usize,
    number: usize,
    middle: (u32, u32),
) -> Result<(), AllocError>
    ensures { OnOk result (curves.new.items ≡ curves.old.items ++ mark_at name.now place number middle) }
{
    let label = label_at(alloc, name, number)?;
    let mut points = Vec::new(alloc);
    points.push(middle)?;
    curves.push(Curve {
        label,
        points: Points::from_vec(points),
        whiskers: Whiskers::from_vec(Vec::new(alloc)),
        stroke: gauge_stroke(place),
        mark: Some(mark_of(place)),
    })?;
    Ok(())
}

/// Adds some marks.
fn add_marks(
    alloc: Global,
    curves: &mut Vec<Curve>,
    name: &str,
    place: usize,
    middles: &[(u32, u32)],
) -> Result<(), AllocError>
    ensures { OnOk result (curves.new.items ≡ curves.old.items ++ each (mark_at name.now place) middles.now) }
{
    for (number, middle) in middles.iter().enumerate() {
        add_mark(alloc, curves, name, place, number, *middle)?;
    }
    Ok(())
}

/// Adds the steps and the marks of the gauge at a place.
fn add_gauge(
    alloc: Global,
    curves: &mut Vec<Curve>,
    bins: Bins,
    all: &[(u32, Sums)],
    place: usize,
    name: &str,
) -> Result<(), AllocError>
    requires { bins.window.to ≤ 1000000 }
    ensures { OnOk result (curves.new.items ≡ curves.old.items ++ gauge_curves bins all.now place name.now) }
{
    curves.push(line_of(alloc, bins, place, all)?)?;
    let middles = middles_of(alloc, bins, place, all)?;
    add_marks(alloc, curves, name, place, middles.as_slice())
}

fn named_curves(
    alloc: Global,
    names: &[&str],
    bins: Bins,
    all: &[(u32, Sums)],
) -> Result<Vec<Curve>, AllocError>
    requires { bins.window.to ≤ 1000000 }
    ensures { IfOk result (λ v. v.items ≡ each (λ place name. gauge_curves bins all.now place name.now) names.now) }
{
    let mut curves = Vec::new(alloc);
    for (place, name) in names.iter().enumerate() {
        add_gauge(alloc, &mut curves, bins, all, place, name)?;
    }
    Ok(curves)
}

/// The curves of gauges of these names.
fn curves_of(
    alloc: Global,
    names: &[&str],
    bins: Bins,
    all: &[(u32, Sums)],
) -> Result<Vec<Curve>, AllocError>
    requires { bins.window.to ≤ 1000000 }
    ensures { IfOk result (λ v. v.items ≡ each (gauge_curves bins all.now) (map (λ name. name.now) names.now)) }
{
    named_curves(alloc, names, bins, all)
}

/// The greatest of some sums.
fn most_in(sums: &[u64]) -> u32
    ensures most { result ≡ most_in sums.now }
    ensures few { result < 100000000 }
{
    let mut most: u32 = 1;
    for sum in sums {
        most = most.max(capped(*sum));
    }
    most
}

/// The greatest sum of some bins.
fn most_of(all: &[(u32, Sums)]) -> u32
    ensures most { result ≡ most_of all.now }
    ensures few { result < 100000000 }
{
    let mut most: u32 = 1;
    for bin in all {
        most = most.max(most_in(bin.1.as_slice()));
    }
    most
}

fn series_title(alloc: Global, bins: Bins) -> Result<String, AllocError>
    ensures { IfOk result (λ text. string_bytes text ≡ series_title bins) }
{
    if bins.size == 1 {
        return String::from_str(alloc, "At each cycle");
    }
    format!(in alloc; "Sums over {} cycles", bins.size)
}

fn series_note(alloc: Global, name: &str, bins: Bins) -> Result<String, AllocError>
    ensures { IfOk result (λ text. string_bytes text ≡ series_note name.now bins) }
{
    let (from, to) = (bins.window.from, bins.window.to);
    format!(in alloc; "{name}: cycles {from} to {to}.")
}

/// The panel of these curves.
fn panel_of<'a>(
    title: &'a str,
    bins: Bins,
    most: u32,
    across: &'a [Tick],
    up: &'a [Tick],
    curves: Vec<Curve>,
) -> Panel<'a>
    requires from { bins.window.from ≤ 1000000 }
    requires to { bins.window.to ≤ 1000000 }
    requires most { most < 100000000 }
    ensures title { result.title.now ≡ title.now }
    ensures across_title { result.across.title.now ≡ codes "cycle" }
    ensures across { (result.across.from ≡ bins.window.from * 10) × (result.across.to ≡ (bins.window.to + 1) * 10) }
    ensures across_ticks { result.across.ticks.now ≡ across.now }
    ensures up_title { result.up.title.now ≡ codes "number" }
    ensures up { (result.up.from ≡ 0) × (result.up.to ≡ (most + 1) * 10) }
    ensures up_ticks { result.up.ticks.now ≡ up.now }
    ensures curves { result.curves.items ≡ curves.items }
{
    Panel {
        title,
        across: Axis {
            title: "cycle",
            from: bins.window.from * 10,
            to: (bins.window.to + 1) * 10,
            ticks: across,
        },
        up: Axis {
            title: "number",
            from: 0,
            to: (most + 1) * 10,
            ticks: up,
        },
        curves,
    }
}

fn heading() -> &'static str
    ensures { result.now ≡ codes "What a run showed, cycle by cycle" }
{
    "What a run showed, cycle by cycle"
}

/// The curves of what gauges of these names show in bins of a file's run, as an SVG document: for each a level line over each
/// bin, at what the gauge comes to in it.
///
/// # Errors
///
/// Where a growth was refused. What was taken is given back.
pub fn series_picture(
    alloc: Global,
    file: &str,
    names: &[&str],
    bins: Bins,
    all: &[(u32, Sums)],
) -> Result<String, AllocError>
    requires from { bins.window.from ≤ 1000000 }
    requires to { bins.window.to ≤ 1000000 }
    ensures { IfOk result (λ text. IsSeriesPicture file.now (map (λ name. name.now) names.now) bins all.now (string_bytes text)) }
{
    let title = series_title(alloc, bins)?;
    let note = series_note(alloc, file, bins)?;
    let most = most_of(all);
    let across = ticks_between(alloc, bins.window.from, bins.window.to)?;
    let up = ticks_between(alloc, 0, most + 1)?;
    let curves = curves_of(alloc, names, bins, all)?;
    let panel = panel_of(
        title.as_str(),
        bins,
        most,
        across.as_slice(),
        up.as_slice(),
        curves,
    );
    let mut panels = Vec::new(alloc);
    panels.push(panel)?;
    let drawn = Curves {
        title: heading(),
        panels: panels.as_slice(),
        legend_columns: 4,
    };
    let notes = labels_of(alloc, &[note.as_str()])?;
    draw_curves(alloc, &drawn, notes.as_slice())
}
