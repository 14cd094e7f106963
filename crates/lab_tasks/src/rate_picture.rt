//! The picture of `rates`: references per cycle against the number of processors.
ghost use Rattle.std.specs.Prelude.{◌≡◌, ◌+◌, ◌*◌, ◌<◌, ◌≤◌, ◌^◌, ◌++◌, if◌then◌else◌, IfOk, OnOk, length, map, string_bytes, sum_by};
ghost use Rattle.std.specs.List.{flat_map};
ghost use Rattle.omega_net.specs.Wires.{below};
ghost use Rattle.page_map.specs.Limits.{max_k};
ghost use Rattle.svg_plots.specs.Lists.{each};
ghost use Rattle.lab_tasks.specs.CurvePictures.{doublings};
ghost use Rattle.lab_tasks.specs.RatePictures.{bound_curve, bound_spot, drawn_of, greatest_drawn, least_drawn, mean_drawn, measured_curve, panel_title, rate_spot, rate_title, runs_at, share_curves, spread_at, what_of, IsRatePanel, IsRatePicture};

use crate::curves::{doublings, part_of};
use crate::plan::{CurvePlan, Measure};
use crate::tables::{RatePoint, bound_thousandths, processors_of};
use std::alloc::{AllocError, Global};
use svg_plots::{
    Axis, Curve, Curves, Label, Panel, Points, Tick, Whisker, Whiskers, draw_curves, labels_of,
    log2_hundredths, mark_of, stroke_of,
};

/// What is drawn of a point, in thousandths.
fn drawn_of(point: &RatePoint, of: Measure) -> u32
    ensures drawn { result ≡ drawn_of of point.now }
    ensures most { result ≤ 1000000 }
{
    let rate = match of {
        Measure::Answered => point.answered_rate(),
        Measure::Served => point.served_rate(),
    };
    rate.min(1_000_000) as u32
}

/// What is drawn of some points in all.
fn sum_of(points: &[RatePoint], of: Measure) -> u64
    requires { length points.now < 2 ^ 32 }
    ensures { result ≡ sum_by (drawn_of of) points.now }
{
    let mut sum: u64 = 0;
    for point in points {
        sum += u64::from(drawn_of(point, of));
    }
    sum
}

/// The mean of the runs of one load with several seeds, in thousandths.
fn mean_of(points: &[RatePoint], of: Measure) -> u32
    requires { length points.now < 2 ^ 32 }
    ensures { result ≡ mean_drawn of points.now }
{
    (sum_of(points, of) / points.len().max(1) as u64).min(1_000_000) as u32
}

fn least_of(points: &[RatePoint], of: Measure) -> u32
    ensures { result ≡ least_drawn of points.now }
{
    let mut least: u32 = 1_000_000;
    for point in points {
        least = least.min(drawn_of(point, of));
    }
    least
}

fn greatest_of(points: &[RatePoint], of: Measure) -> u32
    ensures { result ≡ greatest_drawn of points.now }
{
    let mut most: u32 = 0;
    for point in points {
        most = most.max(drawn_of(point, of));
    }
    most
}

/// How many shares stand before those of 2^k processors, without combining or with it, in runs of so many shares.
#[tactic(auto, using(crate::proofs::Halves::few_before))]
fn shares_before(k: u32, combine: bool, shares: usize) -> usize
    requires small { k ≤ max_k }
    requires few { shares ≤ 7 }
    ensures before { result ≡ (k * 2 + (if combine then 1 else 0)) * shares }
    ensures most { result ≤ 91 }
{
    let half = if combine {
        k as usize * 2 + 1
    } else {
        k as usize * 2
    };
    half * shares
}

/// The runs of 2^k processors with the share at a place.
fn runs_at<'a>(
    plan: &CurvePlan,
    points: &'a [RatePoint],
    place: usize,
    combine: bool,
    k: u32,
) -> &'a [RatePoint]
    requires few { length plan.now.hot.items ≤ 7 }
    requires place { place < 7 }
    requires small { k ≤ max_k }
    ensures runs { result.now ≡ runs_at plan.now points.now place combine k }
    ensures few { length result.now < 2 ^ 32 }
{
    let before = shares_before(k, combine, plan.hot.len());
    part_of(before + place, plan.seeds as usize, points)
}

/// Adds the spread of some runs, where there is one.
fn add_spread(
    whiskers: &mut Vec<Whisker>,
    of: Measure,
    k: u32,
    runs: &[RatePoint],
) -> Result<(), AllocError>
    requires { k ≤ max_k }
    ensures { OnOk result (whiskers.new.items ≡ whiskers.old.items ++ spread_at of k runs.now) }
{
    let (least, most) = (least_of(runs, of), greatest_of(runs, of));
    if most == least {
        return Ok(());
    }
    whiskers.push(Whisker {
        across: k * 100,
        from: log2_hundredths(least, 1000),
        to: log2_hundredths(most, 1000),
    })?;
    Ok(())
}

/// The spreads of one curve.
#[tactic(auto, using(crate::proofs::Listing::flat_next))]
fn spreads_of(
    alloc: Global,
    plan: &CurvePlan,
    points: &[RatePoint],
    place: usize,
    combine: bool,
) -> Result<Vec<Whisker>, AllocError>
    requires few { length plan.now.hot.items ≤ 7 }
    requires place { place < 7 }
    requires small { plan.now.k ≤ max_k }
    ensures { IfOk result (λ v. v.items ≡ flat_map (λ k. spread_at plan.now.of k (runs_at plan.now points.now place combine k)) (below (plan.now.k + 1))) }
{
    let mut whiskers = Vec::new(alloc);
    for k in 0..plan.k + 1 {
        add_spread(
            &mut whiskers,
            plan.of,
            k,
            runs_at(plan, points, place, combine, k),
        )?;
    }
    Ok(whiskers)
}

/// Where a mean stands.
fn rate_spot(
    plan: &CurvePlan,
    points: &[RatePoint],
    place: usize,
    combine: bool,
    k: u32,
) -> (u32, u32)
    requires few { length plan.now.hot.items ≤ 7 }
    requires place { place < 7 }
    requires small { k ≤ max_k }
    ensures { result ≡ rate_spot plan.now points.now place combine k }
{
    let mean = mean_of(runs_at(plan, points, place, combine, k), plan.of);
    (k * 100, log2_hundredths(mean, 1000))
}

/// The means of one curve.
fn means_of(
    alloc: Global,
    plan: &CurvePlan,
    points: &[RatePoint],
    place: usize,
    combine: bool,
) -> Result<Vec<(u32, u32)>, AllocError>
    requires few { length plan.now.hot.items ≤ 7 }
    requires place { place < 7 }
    requires small { plan.now.k ≤ max_k }
    ensures { IfOk result (λ v. v.items ≡ map (rate_spot plan.now points.now place combine) (below (plan.now.k + 1))) }
{
    let mut spots = Vec::new(alloc);
    for k in 0..plan.k + 1 {
        spots.push(rate_spot(plan, points, place, combine, k))?;
    }
    Ok(spots)
}

/// What was measured with the share at a place.
fn measured_curve(
    alloc: Global,
    plan: &CurvePlan,
    points: &[RatePoint],
    combine: bool,
    place: usize,
    hot: u32,
) -> Result<Curve, AllocError>
    requires few { length plan.now.hot.items ≤ 7 }
    requires place { place < 7 }
    requires small { plan.now.k ≤ max_k }
    ensures { IfOk result (λ curve. curve ≡ measured_curve plan.now points.now combine place hot) }
{
    let label = format!(in alloc; "{hot} % hot")?;
    let spots = means_of(alloc, plan, points, place, combine)?;
    let whiskers = spreads_of(alloc, plan, points, place, combine)?;
    Ok(Curve {
        label: Label::from_string(label),
        points: Points::from_vec(spots),
        whiskers: Whiskers::from_vec(whiskers),
        stroke: stroke_of(place, 18, false),
        mark: Some(mark_of(place)),
    })
}

/// Where the bound stands.
fn bound_spot(hot: u32, k: u32) -> (u32, u32)
    requires { k ≤ max_k }
    ensures { result ≡ bound_spot hot k }
{
    let bound = bound_thousandths(processors_of(k), hot).min(1_000_000) as u32;
    (k * 100, log2_hundredths(bound, 1000))
}

/// The bound at each number of processors.
fn bounds_of(alloc: Global, k: u32, hot: u32) -> Result<Vec<(u32, u32)>, AllocError>
    requires { k ≤ max_k }
    ensures { IfOk result (λ v. v.items ≡ map (bound_spot hot) (below (k + 1))) }
{
    let mut spots = Vec::new(alloc);
    for power in 0..k + 1 {
        spots.push(bound_spot(hot, power))?;
    }
    Ok(spots)
}

/// The bound of the share at a place.
fn bound_curve(alloc: Global, plan: &CurvePlan, place: usize, hot: u32) -> Result<Curve, AllocError>
    requires { plan.now.k ≤ max_k }
    ensures { IfOk result (λ curve. curve ≡ bound_curve plan.now place hot) }
{
    let spots = bounds_of(alloc, plan.k, hot)?;
    Ok(Curve {
        label: Label::from_string(String::new(alloc)),
        points: Points::from_vec(spots),
        whiskers: Whiskers::from_vec(Vec::new(alloc)),
        stroke: stroke_of(place, 10, true),
        mark: None,
    })
}

/// Adds the bound of a share, then what was measured.
fn add_share(
    alloc: Global,
    curves: &mut Vec<Curve>,
    plan: &CurvePlan,
    points: &[RatePoint],
    combine: bool,
    place: usize,
    hot: u32,
) -> Result<(), AllocError>
    requires few { length plan.now.hot.items ≤ 7 }
    requires place { place < 7 }
    requires small { plan.now.k ≤ max_k }
    ensures { OnOk result (curves.new.items ≡ curves.old.items ++ share_curves plan.now points.now combine place hot) }
{
    curves.push(bound_curve(alloc, plan, place, hot)?)?;
    curves.push(measured_curve(alloc, plan, points, combine, place, hot)?)?;
    Ok(())
}

/// The curves of a panel.
fn rate_curves(
    alloc: Global,
    plan: &CurvePlan,
    points: &[RatePoint],
    combine: bool,
) -> Result<Vec<Curve>, AllocError>
    requires few { length plan.now.hot.items ≤ 7 }
    requires small { plan.now.k ≤ max_k }
    ensures { IfOk result (λ v. v.items ≡ each (share_curves plan.now points.now combine) plan.now.hot.items) }
{
    let mut curves = Vec::new(alloc);
    for (place, hot) in plan.hot.iter().enumerate() {
        add_share(alloc, &mut curves, plan, points, combine, place, *hot)?;
    }
    Ok(curves)
}

/// What is drawn, beside the axis.
fn what_of(of: Measure) -> &'static str
    ensures { result.now ≡ what_of of }
{
    match of {
        Measure::Answered => "answered per cycle",
        Measure::Served => "served per cycle",
    }
}

fn panel_title(combine: bool) -> &'static str
    ensures { result.now ≡ panel_title combine }
{
    if combine {
        "With combining"
    } else {
        "Without combining"
    }
}

/// One panel.
fn rate_panel<'a>(
    alloc: Global,
    plan: &CurvePlan,
    points: &[RatePoint],
    combine: bool,
    ticks: &'a [Tick],
) -> Result<Panel<'a>, AllocError>
    requires few { length plan.now.hot.items ≤ 7 }
    requires small { plan.now.k ≤ max_k }
    requires ticks { ticks.now ≡ doublings plan.now.k }
    ensures { IfOk result (IsRatePanel plan.now points.now combine) }
{
    let to = plan.k * 100;
    let curves = rate_curves(alloc, plan, points, combine)?;
    Ok(Panel {
        title: panel_title(combine),
        across: Axis {
            title: "processors",
            from: 0,
            to,
            ticks,
        },
        up: Axis {
            title: what_of(plan.of),
            from: 0,
            to,
            ticks,
        },
        curves,
    })
}

/// The fewest and the most cycles that are counted of a run.
fn spans(points: &[RatePoint]) -> (u64, u64) {
    let mut least = u64::MAX;
    let mut most: u64 = 0;
    for point in points {
        least = least.min(point.cycles());
        most = most.max(point.cycles());
    }
    (least.min(most), most)
}

/// How the points were measured.
fn rate_note(alloc: Global, plan: &CurvePlan, points: &[RatePoint]) -> Result<String, AllocError> {
    let what = match plan.of {
        Measure::Answered => "References answered",
        Measure::Served => "Requests served by modules",
    };
    let (seeds, seed, cycles) = (plan.seeds, plan.seed, plan.cycles);
    let (least, most) = spans(points);
    format!(in alloc;
        "{what} per cycle, the mean of {seeds} runs, from seed {seed} on. Counted once the rate is steady: {least} to {most} of {cycles} cycles."
    )
}

/// The lines below.
fn notes_of(
    alloc: Global,
    plan: &CurvePlan,
    points: &[RatePoint],
) -> Result<Vec<Label>, AllocError> {
    let note = rate_note(alloc, plan, points)?;
    labels_of(
        alloc,
        &[
            note.as_str(),
            "A whisker is from the least to the greatest of these runs; there is none where they are equal.",
            "Combining network, queues of 4, at most 8 references unanswered. Requests that combine are served as one.",
            "Dashed: the bound p / (1 + h (p - 1)) of Pfister and Norton (1985), where nothing combines.",
        ],
    )
}

fn title_of(of: Measure) -> &'static str
    ensures { result.now ≡ rate_title of }
{
    match of {
        Measure::Answered => "What a hot word does to a machine: references answered per cycle",
        Measure::Served => "What a hot word does to a machine: requests served per cycle",
    }
}

/// The two panels with these ticks, and the lines below.
fn panels_drawn(
    alloc: Global,
    plan: &CurvePlan,
    points: &[RatePoint],
    ticks: &[Tick],
    notes: &[Label],
) -> Result<String, AllocError>
    requires few { length plan.now.hot.items ≤ 7 }
    requires small { plan.now.k ≤ max_k }
    requires ticks { ticks.now ≡ doublings plan.now.k }
    ensures { IfOk result (λ text. IsRatePicture plan.now points.now (string_bytes text)) }
{
    let mut panels = Vec::new(alloc);
    let off = rate_panel(alloc, plan, points, false, ticks)?;
    panels.push(off)?;
    let on = rate_panel(alloc, plan, points, true, ticks)?;
    panels.push(on)?;
    let drawn = Curves {
        title: title_of(plan.of),
        panels: panels.as_slice(),
        legend_columns: 4,
    };
    draw_curves(alloc, &drawn, notes)
}

/// The picture of the points.
pub(crate) fn rate_picture(
    alloc: Global,
    plan: &CurvePlan,
    points: &[RatePoint],
) -> Result<String, AllocError>
    requires few { length plan.now.hot.items ≤ 7 }
    requires small { plan.now.k ≤ max_k }
    ensures { IfOk result (λ text. IsRatePicture plan.now points.now (string_bytes text)) }
{
    let ticks = doublings(alloc, plan.k)?;
    let notes = notes_of(alloc, plan, points)?;
    panels_drawn(alloc, plan, points, ticks.as_slice(), notes.as_slice())
}
