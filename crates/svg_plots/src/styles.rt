//! What pictures share that curves are drawn in: strokes and marks by place, ticks, and lines of text.
ghost use Rattle.std.specs.Prelude.{◌≡◌, ◌≤◌, ◌+◌, ◌*◌, ◌/◌, ◌++◌, IfOk, OnOk, map};
ghost use Rattle.std.specs.List.{flat_map};
ghost use Rattle.svg_plots.specs.AxisTicks.{step_between, tick_within, ticks_between};
ghost use Rattle.svg_plots.specs.Styles.{colour_by, mark_by, mark_of, stroke_of};

use crate::scale::tick_step;
use crate::timeline::TICKS;
use crate::{Colour, Label, Mark, Stroke, Tick};
use std::alloc::{AllocError, Global};

/// Colours that colour blindness leaves apart; each goes with a mark of its own (Okabe and Ito 2008).
fn colour_by(place: usize) -> Colour
    ensures { result ≡ colour_by place }
{
    match place {
        0 => Colour::Black,
        1 => Colour::Orange,
        2 => Colour::SkyBlue,
        3 => Colour::Green,
        4 => Colour::Blue,
        5 => Colour::Vermilion,
        _ => Colour::Purple,
    }
}

fn mark_by(place: usize) -> Mark
    ensures { result ≡ mark_by place }
{
    match place {
        0 => Mark::Circle,
        1 => Mark::Square,
        2 => Mark::Up,
        3 => Mark::Diamond,
        4 => Mark::Down,
        5 => Mark::Cross,
        _ => Mark::Plus,
    }
}

/// The line of a curve by its place.
pub fn stroke_of(place: usize, width: u32, dashed: bool) -> Stroke
    ensures { result ≡ stroke_of place width dashed }
{
    Stroke {
        colour: colour_by(place % 7),
        width,
        dashed,
    }
}

/// The mark of a curve by its place.
pub fn mark_of(place: usize) -> Mark
    ensures { result ≡ mark_of place }
{
    mark_by(place % 7)
}

/// Lines of text below a picture.
///
/// # Errors
///
/// Where a growth was refused.
pub fn labels_of(alloc: Global, texts: &[&str]) -> Result<Vec<Label>, AllocError>
    ensures { IfOk result (λ v. v.items ≡ map (λ text. text.now) texts.now) }
{
    let mut labels = Vec::new(alloc);
    for text in texts {
        labels.push(Label::new(alloc, text)?)?;
    }
    Ok(labels)
}

/// Adds the tick of a number that is within two others.
fn add_tick(ticks: &mut Vec<Tick>, from: u32, to: u32, number: u64) -> Result<(), AllocError>
    requires { to ≤ 100000000 }
    ensures { OnOk result (ticks.new.items ≡ ticks.old.items ++ tick_within from to number) }
{
    if u64::from(from) <= number && number <= u64::from(to) {
        let number = number as u32;
        ticks.push(Tick {
            value: number * 10,
            number,
        })?;
    }
    Ok(())
}

/// The step between two ticks.
fn step_between(from: u32, to: u32) -> u32
    ensures step { result ≡ step_between from to }
    ensures some { 1 ≤ result }
{
    tick_step(to.saturating_sub(from), 8).max(1)
}

/// A multiple of a step: the last one up to a number, or so many behind that.
fn multiple_of(step: u32, number: u32, place: u8) -> u64
    requires { 1 ≤ step }
    ensures { result ≡ (number / step + place) * step }
{
    (u64::from(number / step) + u64::from(place)) * u64::from(step)
}

/// Adds the tick of a multiple of a step.
fn add_multiple(
    ticks: &mut Vec<Tick>,
    from: u32,
    to: u32,
    step: u32,
    place: u8,
) -> Result<(), AllocError>
    requires few { to ≤ 100000000 }
    requires some { 1 ≤ step }
    ensures { OnOk result (ticks.new.items ≡ ticks.old.items ++ tick_within from to ((from / step + place) * step)) }
{
    add_tick(ticks, from, to, multiple_of(step, from, place))
}

/// Adds the ticks of some multiples of a step.
fn add_multiples(
    ticks: &mut Vec<Tick>,
    from: u32,
    to: u32,
    step: u32,
    places: &[u8],
) -> Result<(), AllocError>
    requires few { to ≤ 100000000 }
    requires some { 1 ≤ step }
    ensures { OnOk result (ticks.new.items ≡ ticks.old.items ++ flat_map (λ place. tick_within from to ((from / step + place) * step)) places.now) }
{
    for place in places {
        add_multiple(ticks, from, to, step, *place)?;
    }
    Ok(())
}

/// Ticks at the multiples of a step from one number to another; a value is ten for each one.
///
/// # Errors
///
/// Where a growth was refused.
pub fn ticks_between(alloc: Global, from: u32, to: u32) -> Result<Vec<Tick>, AllocError>
    requires { to ≤ 100000000 }
    ensures { IfOk result (λ v. v.items ≡ ticks_between from to) }
{
    let mut ticks = Vec::new(alloc);
    add_multiples(&mut ticks, from, to, step_between(from, to), &TICKS)?;
    Ok(ticks)
}
