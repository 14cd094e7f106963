//! Bars over one pair of axes.
ghost use Rattle.std.specs.Prelude.{◌≡◌, ◌≤◌, ◌++◌, IfOk, OnOk, string_bytes};
ghost use Rattle.std.specs.List.{flat_map};
ghost use Rattle.svg_plots.specs.CurvePanels.{IsInside};
ghost use Rattle.svg_plots.specs.Histograms.{bar_drawn, histogram_elements, histogram_text, top_of};

use crate::curves::{Area, area_of, draw_panel};
use crate::writings::{TITLE, WIDTH, draw_notes, few};
use crate::{Colour, Label, Panel, Picture, Spot};
use std::alloc::{AllocError, Global};

/// A bar over the values from one to another, as high as a value up.
#[derive(Clone, Copy, PartialEq, Eq, Debug)]
pub struct PanelBar {
    pub from: u32,
    pub to: u32,
    pub height: u32,
}

/// Bars over the axes of a panel, under a title. Curves of the panel lie below them.
#[derive(Clone, Copy)]
pub struct Histogram<'a> {
    pub title: &'a str,
    pub panel: &'a Panel<'a>,
    pub bars: &'a [PanelBar],
    pub colour: Colour,
}

/// The height of a bar's top.
fn top_of(area: Area, bar: PanelBar) -> u32
    requires { IsInside area }
    ensures top { result ≡ top_of area bar }
    ensures within { result ≤ 3850 }
{
    area.y(bar.height).min(3_850)
}

#[tactic(auto, unfolding(crate::specs::Histograms::bar_drawn))]
fn draw_bar(
    picture: &mut Picture,
    area: Area,
    colour: Colour,
    bar: PanelBar,
) -> Result<(), AllocError>
    requires { IsInside area }
    ensures { OnOk result (picture.new ≡ picture.old ++ bar_drawn area colour bar) }
{
    let (left, right) = (area.x(bar.from), area.x(bar.to));
    let top = top_of(area, bar);
    picture.cell(
        Spot { x: left, y: top },
        right.saturating_sub(left).max(10),
        3_860 - top,
        colour,
    )
}

fn draw_bars(
    picture: &mut Picture,
    area: Area,
    colour: Colour,
    bars: &[PanelBar],
) -> Result<(), AllocError>
    requires { IsInside area }
    ensures { OnOk result (picture.new ≡ picture.old ++ flat_map (bar_drawn area colour) bars.now) }
{
    for bar in bars {
        draw_bar(picture, area, colour, *bar)?;
    }
    Ok(())
}

/// All parts, in the order in which they lie over one another.
fn draw_parts(
    alloc: Global,
    picture: &mut Picture,
    histogram: &Histogram<'_>,
    notes: &[Label],
) -> Result<(), AllocError>
    ensures { OnOk result (picture.new ≡ picture.old ++ histogram_elements histogram.now notes.now) }
{
    let area = area_of(histogram.panel, 0, 1);
    picture.words(Spot { x: 200, y: 250 }, TITLE, histogram.title)?;
    draw_panel(alloc, picture, area, histogram.panel)?;
    draw_bars(picture, area, histogram.colour, histogram.bars)?;
    draw_notes(picture, notes, 4_560)
}

/// The picture, with lines of text under it, as an SVG document.
///
/// # Errors
///
/// Where a growth was refused. What was taken is given back.
#[tactic(auto, unfolding(crate::specs::Histograms::histogram_text))]
pub fn draw_histogram(
    alloc: Global,
    histogram: &Histogram<'_>,
    notes: &[Label],
) -> Result<String, AllocError>
    ensures { IfOk result (λ text. string_bytes text ≡ histogram_text histogram.now notes.now) }
{
    let height = 450 + 17 * few(notes.len());
    let mut picture = Picture::new(alloc);
    draw_parts(alloc, &mut picture, histogram, notes)?;
    picture.draw(WIDTH, height as u16, histogram.title)
}
