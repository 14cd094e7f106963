//! The picture of `load`: latency and accepted traffic against offered load.
ghost use Rattle.std.specs.Prelude.{◌≡◌, ◌+◌, ◌*◌, ◌/◌, ◌<◌, ◌≤◌, ◌^◌, ◌++◌, [], ◌∷◌, IfOk, OnOk, length, map, slice_index, string_bytes, sum};
ghost use Rattle.std.specs.List.{flat_map};
ghost use Rattle.omega_net.specs.Wires.{below};
ghost use Rattle.page_map.specs.Limits.{max_k};
ghost use Rattle.svg_plots.specs.AxisTicks.{ticks_between};
ghost use Rattle.lab_tasks.specs.LoadPictures.{all_values, diagonal, drawn_at, first_curves, first_short, greatest_of, is_short, label_of, least_of, load_curve, load_curves, load_panel_title, load_stroke, load_title, mean_of, or_else, runs_at, saturated_text, share_of, short_at, spot_of, spread_of, top_of, up_title, values_of, IsLoadPanel, IsLoadPicture};
ghost use Rattle.lab_tasks.specs.declared.load_picture.Shown.TheVariants.{Accepted, Latency};
ghost use Rattle.lab_tasks.specs.LoadPlans.{rate_at, rate_count};

use crate::curves::part_of;
use crate::delay_picture::network_label;
use crate::load_plan::LoadPlan;
use crate::load_table::LoadPoint;
use crate::tables::processors_of;
use std::alloc::{AllocError, Global};
use svg_plots::{
    Axis, Curve, Curves, Label, Panel, Points, Stroke, Tick, Whisker, Whiskers, draw_curves,
    labels_of, mark_of, stroke_of, ticks_between,
};

/// What of the runs a panel shows.
#[derive(Clone, Copy, PartialEq, Eq)]
pub(crate) enum Shown {
    /// The mean latency, in tenths of a cycle.
    Latency,
    /// The references that a processor was answered in a cycle, in thousandths.
    Accepted,
}

/// Adds what is drawn of a run.
fn add_value(values: &mut Vec<u32>, shown: Shown, point: &LoadPoint) -> Result<(), AllocError>
    ensures values { OnOk result (values.new.items ≡ values.old.items ++ values_of shown point.now) }
    ensures few { OnOk result (length values.new.items ≤ length values.old.items + 1) }
{
    match shown {
        Shown::Latency => {
            if let Some(mean) = point.mean {
                values.push((mean / 10).min(1_000_000) as u32)?;
            }
        }
        Shown::Accepted => values.push(point.accepted().min(1_000_000) as u32)?,
    }
    Ok(())
}

/// What is drawn of some runs.
fn values_of(alloc: Global, shown: Shown, points: &[LoadPoint]) -> Result<Vec<u32>, AllocError>
    ensures values { IfOk result (λ v. v.items ≡ flat_map (values_of shown) points.now) }
    ensures few { IfOk result (λ v. length v.items ≤ length points.now) }
{
    let mut values = Vec::new(alloc);
    for point in points {
        add_value(&mut values, shown, point)?;
    }
    Ok(values)
}

/// The sum of some numbers.
fn sum_of(numbers: &[u32]) -> u64
    requires { length numbers.now < 2 ^ 31 }
    ensures { result ≡ sum numbers.now }
{
    let mut sum: u64 = 0;
    for number in numbers {
        sum += u64::from(*number);
    }
    sum
}

/// The mean of some numbers, 0 where there are none.
fn mean_of(numbers: &[u32]) -> u64
    requires { length numbers.now < 2 ^ 31 }
    ensures { result ≡ mean_of numbers.now }
{
    sum_of(numbers) / numbers.len().max(1) as u64
}

fn least_of(numbers: &[u32]) -> u32
    ensures { result ≡ least_of numbers.now }
{
    let mut least: u32 = 1_000_000;
    for number in numbers {
        least = least.min(*number);
    }
    least
}

fn greatest_of(numbers: &[u32]) -> u32
    ensures { result ≡ greatest_of numbers.now }
{
    let mut most: u32 = 0;
    for number in numbers {
        most = most.max(*number);
    }
    most
}

/// What is drawn of the runs of a curve at a rate.
fn drawn_at(
    alloc: Global,
    plan: &LoadPlan,
    points: &[LoadPoint],
    shown: Shown,
    curve: usize,
    place: u32,
) -> Result<Vec<u32>, AllocError>
    requires curve { curve < 21 }
    requires place { place ≤ 101 }
    requires span { plan.now.to ≤ 100 }
    requires step { 1 ≤ plan.now.step }
    requires seeds { plan.now.seeds ≤ 20 }
    ensures values { IfOk result (λ v. v.items ≡ drawn_at plan.now points.now shown curve place) }
    ensures few { IfOk result (λ v. length v.items ≤ 20) }
{
    let before = curve * plan.rate_count() as usize + place as usize;
    values_of(alloc, shown, part_of(before, plan.seeds as usize, points))
}

/// Adds the place of a mean, where there is one.
fn add_spot(spots: &mut Vec<(u32, u32)>, rate: u32, numbers: &[u32]) -> Result<(), AllocError>
    requires rate { rate ≤ 10200 }
    requires few { length numbers.now ≤ 20 }
    ensures { OnOk result (spots.new.items ≡ spots.old.items ++ spot_of rate numbers.now) }
{
    if numbers.is_empty() {
        return Ok(());
    }
    let mean = mean_of(numbers).min(1_000_000) as u32;
    spots.push((rate * 10, mean))?;
    Ok(())
}

/// Adds the spread of some numbers, where there is one.
fn add_spread(whiskers: &mut Vec<Whisker>, rate: u32, numbers: &[u32]) -> Result<(), AllocError>
    requires { rate ≤ 10200 }
    ensures { OnOk result (whiskers.new.items ≡ whiskers.old.items ++ spread_of rate numbers.now) }
{
    let (from, to) = (least_of(numbers), greatest_of(numbers));
    if from < to {
        let across = rate * 10;
        whiskers.push(Whisker { across, from, to })?;
    }
    Ok(())
}

/// The means of a curve.
#[tactic(auto, using(crate::proofs::Listing::flat_next))]
fn spots_of(
    alloc: Global,
    plan: &LoadPlan,
    points: &[LoadPoint],
    shown: Shown,
    curve: usize,
) -> Result<Vec<(u32, u32)>, AllocError>
    requires curve { curve < 21 }
    requires span { (plan.now.from ≤ plan.now.to) × (plan.now.to ≤ 100) }
    requires step { (1 ≤ plan.now.step) × (plan.now.step ≤ 100) }
    requires seeds { plan.now.seeds ≤ 20 }
    ensures { IfOk result (λ v. v.items ≡ flat_map (λ i. spot_of (rate_at plan.now i) (drawn_at plan.now points.now shown curve i)) (below (rate_count plan.now))) }
{
    let mut spots = Vec::new(alloc);
    for place in 0..plan.rate_count() {
        let numbers = drawn_at(alloc, plan, points, shown, curve, place)?;
        add_spot(&mut spots, plan.rate_at(place), numbers.as_slice())?;
    }
    Ok(spots)
}

/// The spreads of a curve.
#[tactic(auto, using(crate::proofs::Listing::flat_next))]
fn spreads_of(
    alloc: Global,
    plan: &LoadPlan,
    points: &[LoadPoint],
    shown: Shown,
    curve: usize,
) -> Result<Vec<Whisker>, AllocError>
    requires curve { curve < 21 }
    requires span { (plan.now.from ≤ plan.now.to) × (plan.now.to ≤ 100) }
    requires step { (1 ≤ plan.now.step) × (plan.now.step ≤ 100) }
    requires seeds { plan.now.seeds ≤ 20 }
    ensures { IfOk result (λ v. v.items ≡ flat_map (λ i. spread_of (rate_at plan.now i) (drawn_at plan.now points.now shown curve i)) (below (rate_count plan.now))) }
{
    let mut whiskers = Vec::new(alloc);
    for place in 0..plan.rate_count() {
        let numbers = drawn_at(alloc, plan, points, shown, curve, place)?;
        add_spread(&mut whiskers, plan.rate_at(place), numbers.as_slice())?;
    }
    Ok(whiskers)
}

/// The rate at a place, where less than nine tenths of it are accepted.
fn short_at(
    alloc: Global,
    plan: &LoadPlan,
    points: &[LoadPoint],
    curve: usize,
    place: u32,
) -> Result<Option<u32>, AllocError>
    requires curve { curve < 21 }
    requires place { place ≤ 101 }
    requires span { (plan.now.from ≤ plan.now.to) × (plan.now.to ≤ 100) }
    requires step { (1 ≤ plan.now.step) × (plan.now.step ≤ 100) }
    requires seeds { plan.now.seeds ≤ 20 }
    ensures { IfOk result (λ o. o ≡ short_at plan.now points.now curve place) }
{
    let numbers = drawn_at(alloc, plan, points, Shown::Accepted, curve, place)?;
    let rate = plan.rate_at(place);
    if mean_of(numbers.as_slice()) < u64::from(rate) * 9 {
        return Ok(Some(rate));
    }
    Ok(None)
}

/// The first of two rates that is there.
fn or_else(first: Option<u32>, other: Option<u32>) -> Option<u32>
    ensures { result ≡ or_else first other }
{
    match first {
        Some(rate) => Some(rate),
        None => other,
    }
}

/// The least rate of which less than nine tenths are accepted.
fn first_short(
    alloc: Global,
    plan: &LoadPlan,
    points: &[LoadPoint],
    curve: usize,
) -> Result<Option<u32>, AllocError>
    requires curve { curve < 21 }
    requires span { (plan.now.from ≤ plan.now.to) × (plan.now.to ≤ 100) }
    requires step { (1 ≤ plan.now.step) × (plan.now.step ≤ 100) }
    requires seeds { plan.now.seeds ≤ 20 }
    ensures { IfOk result (λ o. o ≡ first_short plan.now points.now curve (rate_count plan.now)) }
{
    let mut first = None;
    for place in 0..plan.rate_count() {
        first = or_else(first, short_at(alloc, plan, points, curve, place)?);
    }
    Ok(first)
}

/// The share of a curve.
fn share_of(plan: &LoadPlan, curve: usize) -> u32
    ensures { result ≡ share_of plan.now curve }
{
    match plan.hot.get(curve / 3) {
        Some(share) => *share,
        None => 0,
    }
}

/// What the legend says of a curve.
fn label_of(
    alloc: Global,
    plan: &LoadPlan,
    points: &[LoadPoint],
    curve: usize,
) -> Result<Label, AllocError>
    requires curve { curve < 21 }
    requires span { (plan.now.from ≤ plan.now.to) × (plan.now.to ≤ 100) }
    requires step { (1 ≤ plan.now.step) × (plan.now.step ≤ 100) }
    requires seeds { plan.now.seeds ≤ 20 }
    ensures { IfOk result (λ label. label ≡ label_of plan.now points.now curve) }
{
    let (network, hot) = (network_label(curve % 3), share_of(plan, curve));
    let saturated = saturated_text(alloc, first_short(alloc, plan, points, curve)?)?;
    let label = format!(in alloc; "{network}, {hot} % hot: {saturated}")?;
    Ok(Label::from_string(label))
}

fn saturated_text(alloc: Global, first: Option<u32>) -> Result<String, AllocError>
    ensures { IfOk result (λ text. string_bytes text ≡ saturated_text first) }
{
    match first {
        Some(rate) => format!(in alloc; "saturated from {rate}"),
        None => String::from_str(alloc, "not saturated"),
    }
}

/// The low network is wide, so that what is equal to it and lies on it hides no more than its middle.
fn load_stroke(curve: usize) -> Stroke
    requires { curve < 21 }
    ensures { result ≡ load_stroke curve }
{
    match curve % 3 {
        0 => stroke_of(curve, 60, false),
        1 => stroke_of(curve + 1, 20, true),
        _ => stroke_of(curve + 2, 18, false),
    }
}

/// The curve of a share and a network.
fn load_curve(
    alloc: Global,
    plan: &LoadPlan,
    points: &[LoadPoint],
    shown: Shown,
    curve: usize,
) -> Result<Curve, AllocError>
    requires curve { curve < 21 }
    requires span { (plan.now.from ≤ plan.now.to) × (plan.now.to ≤ 100) }
    requires step { (1 ≤ plan.now.step) × (plan.now.step ≤ 100) }
    requires seeds { plan.now.seeds ≤ 20 }
    ensures { IfOk result (λ drawn. drawn ≡ load_curve plan.now points.now shown curve) }
{
    let label = label_of(alloc, plan, points, curve)?;
    let spots = spots_of(alloc, plan, points, shown, curve)?;
    let whiskers = spreads_of(alloc, plan, points, shown, curve)?;
    Ok(Curve {
        label,
        points: Points::from_vec(spots),
        whiskers: Whiskers::from_vec(whiskers),
        stroke: load_stroke(curve),
        mark: Some(mark_of(curve + curve / 3)),
    })
}

/// The diagonal, on which all that is offered is accepted.
fn diagonal(alloc: Global) -> Result<Curve, AllocError>
    ensures { IfOk result (λ curve. curve ≡ diagonal) }
{
    let mut spots = Vec::new(alloc);
    spots.push((0, 0))?;
    spots.push((1000, 1000))?;
    Ok(Curve {
        label: Label::from_string(String::new(alloc)),
        points: Points::from_vec(spots),
        whiskers: Whiskers::from_vec(Vec::new(alloc)),
        stroke: stroke_of(0, 10, true),
        mark: None,
    })
}

/// The curves below those of the networks.
fn first_curves(alloc: Global, shown: Shown) -> Result<Vec<Curve>, AllocError>
    ensures { IfOk result (λ v. v.items ≡ first_curves shown) }
{
    let mut curves = Vec::new(alloc);
    match shown {
        Shown::Latency => {}
        Shown::Accepted => curves.push(diagonal(alloc)?)?,
    }
    Ok(curves)
}

/// The curves of a panel.
fn load_curves(
    alloc: Global,
    plan: &LoadPlan,
    points: &[LoadPoint],
    shown: Shown,
) -> Result<Vec<Curve>, AllocError>
    requires few { length plan.now.hot.items ≤ 7 }
    requires span { (plan.now.from ≤ plan.now.to) × (plan.now.to ≤ 100) }
    requires step { (1 ≤ plan.now.step) × (plan.now.step ≤ 100) }
    requires seeds { plan.now.seeds ≤ 20 }
    ensures { IfOk result (λ v. v.items ≡ load_curves plan.now points.now shown) }
{
    let mut curves = first_curves(alloc, shown)?;
    for curve in 0..3 * plan.hot.len() {
        curves.push(load_curve(alloc, plan, points, shown, curve)?)?;
    }
    Ok(curves)
}

/// The greatest number of a panel.
fn top_of(alloc: Global, shown: Shown, points: &[LoadPoint]) -> Result<u32, AllocError>
    ensures top { IfOk result (λ top. top ≡ top_of shown points.now) }
    ensures few { IfOk result (λ top. top ≤ 100000) }
{
    match shown {
        Shown::Latency => {
            let values = values_of(alloc, shown, points)?;
            let most = u64::from(greatest_of(values.as_slice()));
            Ok(((most + 9) / 10).min(100_000).max(1) as u32)
        }
        Shown::Accepted => Ok(100),
    }
}

fn load_panel_title(shown: Shown) -> &'static str
    ensures { result.now ≡ load_panel_title shown }
{
    match shown {
        Shown::Latency => "Mean latency",
        Shown::Accepted => "Accepted traffic",
    }
}

fn up_title(shown: Shown) -> &'static str
    ensures { result.now ≡ up_title shown }
{
    match shown {
        Shown::Latency => "cycles",
        Shown::Accepted => "references answered in a hundred cycles",
    }
}

/// One panel, up to this number.
fn load_panel<'a>(
    alloc: Global,
    plan: &LoadPlan,
    points: &[LoadPoint],
    shown: Shown,
    top: u32,
    across: &'a [Tick],
    up: &'a [Tick],
) -> Result<Panel<'a>, AllocError>
    requires few { length plan.now.hot.items ≤ 7 }
    requires span { (plan.now.from ≤ plan.now.to) × (plan.now.to ≤ 100) }
    requires step { (1 ≤ plan.now.step) × (plan.now.step ≤ 100) }
    requires seeds { plan.now.seeds ≤ 20 }
    requires top { top ≡ top_of shown points.now }
    requires small { top ≤ 100000 }
    requires across { across.now ≡ ticks_between 0 100 }
    requires up { up.now ≡ ticks_between 0 top }
    ensures { IfOk result (IsLoadPanel plan.now points.now shown) }
{
    let curves = load_curves(alloc, plan, points, shown)?;
    Ok(Panel {
        title: load_panel_title(shown),
        across: Axis {
            title: "references offered in a hundred cycles",
            from: 0,
            to: 1000,
            ticks: across,
        },
        up: Axis {
            title: up_title(shown),
            from: 0,
            to: top * 10,
            ticks: up,
        },
        curves,
    })
}

/// The fewest and the most cycles that are counted of a run.
fn spans(points: &[LoadPoint]) -> (u64, u64) {
    let mut least = u64::MAX;
    let mut most: u64 = 0;
    for point in points {
        least = least.min(point.cycles());
        most = most.max(point.cycles());
    }
    (least.min(most), most)
}

/// The lines below.
fn notes_of(
    alloc: Global,
    plan: &LoadPlan,
    points: &[LoadPoint],
) -> Result<Vec<Label>, AllocError> {
    let (seeds, seed, cycles) = (plan.seeds, plan.seed, plan.cycles);
    let (least, most) = spans(points);
    let note = format!(in alloc;
        "A point is the mean of {seeds} runs, from seed {seed} on. Counted once the rate is steady: {least} to {most} of {cycles} cycles."
    )?;
    labels_of(
        alloc,
        &[
            note.as_str(),
            "A whisker is from the least to the greatest of these runs; there is none where they are equal.",
            "Latency: from issue to reply, of references issued in the first half of these cycles and answered by the last.",
            "Dashed: all that is offered is accepted. Saturated: less than nine tenths of it are, in the mean.",
            "Queues of 4; a processor has at most 8 references unanswered, and one that can't issue one offers no other.",
        ],
    )
}

fn load_title(alloc: Global, plan: &LoadPlan) -> Result<String, AllocError>
    ensures { IfOk result (λ text. string_bytes text ≡ load_title plan.now) }
{
    let processors = processors_of(plan.k);
    format!(in alloc; "Latency and accepted traffic against offered load, {processors} processors")
}

/// The two panels with these ticks, and the lines below.
fn panels_drawn(
    alloc: Global,
    plan: &LoadPlan,
    points: &[LoadPoint],
    title: &str,
    top: u32,
    across: &[Tick],
    up: &[Tick],
    notes: &[Label],
) -> Result<String, AllocError>
    requires few { length plan.now.hot.items ≤ 7 }
    requires span { (plan.now.from ≤ plan.now.to) × (plan.now.to ≤ 100) }
    requires step { (1 ≤ plan.now.step) × (plan.now.step ≤ 100) }
    requires seeds { plan.now.seeds ≤ 20 }
    requires title { title.now ≡ load_title plan.now }
    requires top { top ≡ top_of Latency points.now }
    requires small { top ≤ 100000 }
    requires across { across.now ≡ ticks_between 0 100 }
    requires up { up.now ≡ ticks_between 0 top }
    ensures { IfOk result (λ text. IsLoadPicture plan.now points.now (string_bytes text)) }
{
    let mut panels = Vec::new(alloc);
    let left = load_panel(alloc, plan, points, Shown::Latency, top, across, up)?;
    panels.push(left)?;
    let right = load_panel(alloc, plan, points, Shown::Accepted, 100, across, across)?;
    panels.push(right)?;
    let drawn = Curves {
        title,
        panels: panels.as_slice(),
        legend_columns: 1,
    };
    draw_curves(alloc, &drawn, notes)
}

/// The picture of the points.
pub(crate) fn load_picture(
    alloc: Global,
    plan: &LoadPlan,
    points: &[LoadPoint],
) -> Result<String, AllocError>
    requires few { length plan.now.hot.items ≤ 7 }
    requires span { (plan.now.from ≤ plan.now.to) × (plan.now.to ≤ 100) }
    requires step { (1 ≤ plan.now.step) × (plan.now.step ≤ 100) }
    requires seeds { plan.now.seeds ≤ 20 }
    ensures { IfOk result (λ text. IsLoadPicture plan.now points.now (string_bytes text)) }
{
    let title = load_title(alloc, plan)?;
    let top = top_of(alloc, Shown::Latency, points)?;
    let across = ticks_between(alloc, 0, 100)?;
    let up = ticks_between(alloc, 0, top)?;
    let notes = notes_of(alloc, plan, points)?;
    panels_drawn(
        alloc,
        plan,
        points,
        title.as_str(),
        top,
        across.as_slice(),
        up.as_slice(),
        notes.as_slice(),
    )
}
