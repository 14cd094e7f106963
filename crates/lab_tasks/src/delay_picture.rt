//! The picture of `delays`: mean delays of the references that aren't hot against the share of hot ones.
ghost use Rattle.std.specs.Prelude.{◌≡◌, ◌*◌, ◌<◌, ◌≤◌, ◌++◌, IfOk, OnOk, codes, map, string_bytes};
ghost use Rattle.std.specs.List.{flat_map};
ghost use Rattle.omega_net.specs.Wires.{below};
ghost use Rattle.lab_tasks.specs.DelayPictures.{delay_curve, delay_note, delay_spot, delay_title, greatest_share, longest_of, most_tenths, network_label, network_stroke, share_at, share_place, share_ticks, tenths_of, IsDelayPanel, IsDelayPicture};

use crate::curves::part_of;
use crate::delays::first_measured;
use crate::plan::CurvePlan;
use crate::tables::{DelayPoint, processors_of};
use std::alloc::{AllocError, Global};
use svg_plots::{
    Axis, Curve, Curves, Label, Panel, Points, Stroke, Tick, Whiskers, draw_curves, labels_of,
    log2_hundredths, mark_of, stroke_of, ticks_between,
};

/// Where a share stands: 0 at 0 and h at 1 + log2 h, in hundredths.
fn share_place(share: u32) -> u32
    ensures place { result ≡ share_place share }
    ensures few { result < 3300 }
{
    if share == 0 {
        0
    } else {
        log2_hundredths(share, 1) + 100
    }
}

/// The share that stands at a whole place.
fn share_at(place: u32) -> u32
    ensures { result ≡ share_at place }
{
    if place == 0 {
        0
    } else {
        processors_of(place - 1) as u32
    }
}

/// Ticks at 0, 1, 2, 4, 8 .. up to a share.
fn share_ticks(alloc: Global, most: u32) -> Result<Vec<Tick>, AllocError>
    ensures { IfOk result (λ v. v.items ≡ share_ticks most) }
{
    let mut ticks = Vec::new(alloc);
    for place in 0..share_place(most) / 100 + 1 {
        ticks.push(Tick {
            value: place * 100,
            number: share_at(place),
        })?;
    }
    Ok(ticks)
}

/// The greatest share, at least 1.
fn greatest_share(shares: &[u32]) -> u32
    ensures { result ≡ greatest_share shares.now }
{
    let mut most: u32 = 1;
    for share in shares {
        most = most.max(*share);
    }
    most
}

/// The mean of a point in tenths of a cycle.
fn tenths_of(point: &DelayPoint) -> u32
    ensures tenths { result ≡ tenths_of point.now }
    ensures most { result ≤ 1000000 }
{
    (point.mean() / 100).min(1_000_000) as u32
}

/// Adds the place of a point, none where no reply came.
fn add_spot(spots: &mut Vec<(u32, u32)>, point: &DelayPoint) -> Result<(), AllocError>
    ensures { OnOk result (spots.new.items ≡ spots.old.items ++ delay_spot point.now) }
{
    if point.replies == 0 {
        return Ok(());
    }
    spots.push((share_place(point.load.hot), tenths_of(point)))?;
    Ok(())
}

fn spots_of(alloc: Global, points: &[DelayPoint]) -> Result<Vec<(u32, u32)>, AllocError>
    ensures { IfOk result (λ v. v.items ≡ flat_map delay_spot points.now) }
{
    let mut spots = Vec::new(alloc);
    for point in points {
        add_spot(&mut spots, point)?;
    }
    Ok(spots)
}

/// The greatest mean in tenths of a cycle.
fn most_tenths(points: &[DelayPoint]) -> u32
    ensures most { result ≡ most_tenths points.now }
    ensures few { result ≤ 1000000 }
{
    let mut most: u32 = 0;
    for point in points {
        most = most.max(tenths_of(point));
    }
    most
}

/// The longest mean in whole cycles, rounded up.
fn longest_of(points: &[DelayPoint]) -> u32
    ensures longest { result ≡ longest_of points.now }
    ensures few { result ≤ 1000000 }
{
    ((most_tenths(points) + 9) / 10).max(1)
}

pub(crate) fn network_label(network: usize) -> &'static str
    ensures { result.now ≡ network_label network }
{
    match network {
        0 => "low network",
        1 => "combining network, combining off",
        _ => "combining network, combining on",
    }
}

/// The first one is wide, so that one that is equal to it and lies on it hides no more than its middle.
fn network_stroke(network: usize) -> Stroke
    ensures { result ≡ network_stroke network }
{
    match network {
        0 => stroke_of(0, 60, false),
        1 => stroke_of(2, 20, true),
        _ => stroke_of(4, 18, false),
    }
}

/// The curve of a network.
fn delay_curve(
    alloc: Global,
    plan: &CurvePlan,
    points: &[DelayPoint],
    network: usize,
) -> Result<Curve, AllocError>
    requires place { network < 3 }
    ensures { IfOk result (λ curve. curve ≡ delay_curve plan.now points.now network) }
{
    let label = Label::new(alloc, network_label(network))?;
    let spots = spots_of(alloc, part_of(network, plan.hot.len(), points))?;
    Ok(Curve {
        label,
        points: Points::from_vec(spots),
        whiskers: Whiskers::from_vec(Vec::new(alloc)),
        stroke: network_stroke(network),
        mark: Some(mark_of(network)),
    })
}

fn delay_curves(
    alloc: Global,
    plan: &CurvePlan,
    points: &[DelayPoint],
) -> Result<Vec<Curve>, AllocError>
    ensures { IfOk result (λ v. v.items ≡ map (delay_curve plan.now points.now) (below 3)) }
{
    let mut curves = Vec::new(alloc);
    for network in 0..3usize {
        curves.push(delay_curve(alloc, plan, points, network)?)?;
    }
    Ok(curves)
}

/// How the points were measured.
fn delay_note(alloc: Global, plan: &CurvePlan) -> Result<String, AllocError>
    ensures { IfOk result (λ text. string_bytes text ≡ delay_note plan.now) }
{
    let (first, last) = (first_measured(plan.cycles), plan.cycles);
    let seed = plan.seed;
    format!(in alloc;
        "Cycles from the issue of a reference to its reply, for replies in the cycles {first} to {last}; seed {seed}."
    )
}

fn delay_title(alloc: Global, plan: &CurvePlan) -> Result<String, AllocError>
    ensures { IfOk result (λ text. string_bytes text ≡ delay_title plan.now) }
{
    let processors = processors_of(plan.k);
    format!(in alloc;
        "What a hot word does to bystanders: mean delay of the other references, {processors} processors"
    )
}

/// The panel of these curves.
fn delay_panel<'a>(
    right: u32,
    top: u32,
    across: &'a [Tick],
    up: &'a [Tick],
    curves: Vec<Curve>,
) -> Panel<'a>
    requires { top ≤ 1000000 }
    ensures title { result.title.now ≡ codes "Mean delay of references that are not hot" }
    ensures across_title { result.across.title.now ≡ codes "hot references in a hundred" }
    ensures across { (result.across.from ≡ 0) × (result.across.to ≡ share_place right) }
    ensures across_ticks { result.across.ticks.now ≡ across.now }
    ensures up_title { result.up.title.now ≡ codes "cycles" }
    ensures up { (result.up.from ≡ 0) × (result.up.to ≡ top * 10) }
    ensures up_ticks { result.up.ticks.now ≡ up.now }
    ensures curves { result.curves.items ≡ curves.items }
{
    Panel {
        title: "Mean delay of references that are not hot",
        across: Axis {
            title: "hot references in a hundred",
            from: 0,
            to: share_place(right),
            ticks: across,
        },
        up: Axis {
            title: "cycles",
            from: 0,
            to: top * 10,
            ticks: up,
        },
        curves,
    }
}

/// The picture of the points.
pub(crate) fn delay_picture(
    alloc: Global,
    plan: &CurvePlan,
    points: &[DelayPoint],
) -> Result<String, AllocError>
    ensures { IfOk result (λ text. IsDelayPicture plan.now points.now (string_bytes text)) }
{
    let title = delay_title(alloc, plan)?;
    let note = delay_note(alloc, plan)?;
    let (right, top) = (greatest_share(plan.hot.as_slice()), longest_of(points));
    let across = share_ticks(alloc, right)?;
    let up = ticks_between(alloc, 0, top)?;
    let curves = delay_curves(alloc, plan, points)?;
    let panel = delay_panel(right, top, across.as_slice(), up.as_slice(), curves);
    let mut panels = Vec::new(alloc);
    panels.push(panel)?;
    let drawn = Curves {
        title: title.as_str(),
        panels: panels.as_slice(),
        legend_columns: 3,
    };
    let notes = labels_of(
        alloc,
        &[
            note.as_str(),
            "Queues of 4; a processor has at most 8 references unanswered.",
        ],
    )?;
    draw_curves(alloc, &drawn, notes.as_slice())
}
