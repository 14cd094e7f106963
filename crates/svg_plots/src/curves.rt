//! Panels of curves, side by side.
ghost use Rattle.std.specs.Prelude.{◌≡◌, ◌<◌, ◌≤◌, ◌+◌, ◌-◌, ◌*◌, ◌/◌, ◌%◌, ◌++◌, IfOk, OnOk, length, map, min, string_bytes};
ghost use Rattle.std.specs.List.{flat_map};
ghost use Rattle.svg_plots.specs.Lists.{each, few_of};
ghost use Rattle.svg_plots.specs.Writings.{note_drawn};
ghost use Rattle.svg_plots.specs.declared.element.Element.TheVariants.{Marked};
ghost use Rattle.svg_plots.specs.CurvePanels.{across_drawn, across_tick, area_of, columns_of, curve_drawn, curves_elements, curves_height, curves_text, label_drawn, left_of, legend_from, legend_of, legend_rows, is_named, mark_drawn, marks_drawn, named_drawn, named_in, place_after, panel_drawn, panels_drawn, placed, spot_in, up_drawn, up_tick, whisker_drawn, whisker_stroke, width_of, IsInside};

use crate::writings::{FINE, FRAME, TITLE, WIDTH, draw_notes, few, plain};
use crate::{Anchor, Colour, Label, Mark, Picture, Scale, Spot, Stroke, Tick, Writing};
use std::alloc::{AllocError, Global};
use std::marker::Model;

/// An axis with the values from `from` to `to`.
#[derive(Clone, Copy)]
pub struct Axis<'a> {
    pub title: &'a str,
    pub from: u32,
    pub to: u32,
    pub ticks: &'a [Tick],
}

/// A whisker: at a value across, from a value up to another one.
#[derive(Clone, Copy, PartialEq, Eq, Debug)]
pub struct Whisker {
    pub across: u32,
    pub from: u32,
    pub to: u32,
}

/// Points, as values across and up, in their order. Contracts see the list.
#[derive(Drop)]
pub struct Points {
    points: Vec<(u32, u32)>,
}

impl Model for Points {
    ghost use Rattle.std.specs.Prelude.{ℕ, List};

    ghost Value = { List (ℕ × ℕ) };

    ghost view = { λ p. p.points.items };
}

impl Points {
    /// The points of this list. It takes no memory.
    pub fn from_vec(points: Vec<(u32, u32)>) -> Points
        ensures { result ≡ points.items }
    {
        Points { points }
    }

    pub fn as_slice(&self) -> &[(u32, u32)]
        ensures { result.now ≡ self.now }
    {
        &self.points
    }
}

/// Whiskers in their order. Contracts see the list.
#[derive(Drop)]
pub struct Whiskers {
    whiskers: Vec<Whisker>,
}

impl Model for Whiskers {
    ghost use Rattle.std.specs.Prelude.{List};
    ghost use Rattle.svg_plots.specs.declared.curves.Whisker.{Whisker};

    ghost Value = { List Whisker };

    ghost view = { λ w. w.whiskers.items };
}

impl Whiskers {
    /// The whiskers of this list. It takes no memory.
    pub fn from_vec(whiskers: Vec<Whisker>) -> Whiskers
        ensures { result ≡ whiskers.items }
    {
        Whiskers { whiskers }
    }

    pub fn as_slice(&self) -> &[Whisker]
        ensures { result.now ≡ self.now }
    {
        &self.whiskers
    }
}

/// Points that belong together, and whiskers.
#[derive(Drop)]
pub struct Curve {
    /// What the legend says of it; nothing where the text is empty.
    pub label: Label,
    pub points: Points,
    pub whiskers: Whiskers,
    pub stroke: Stroke,
    pub mark: Option<Mark>,
}

/// Curves over one pair of axes.
#[derive(Drop)]
pub struct Panel<'a> {
    pub title: &'a str,
    pub across: Axis<'a>,
    pub up: Axis<'a>,
    pub curves: Vec<Curve>,
}

/// A whole picture, 800 pixels wide: the panels side by side under a title, and the legend of the first panel's curves in
/// columns.
#[derive(Clone, Copy)]
pub struct Curves<'a> {
    pub title: &'a str,
    pub panels: &'a [Panel<'a>],
    /// At least 1.
    pub legend_columns: u16,
}

/// The places of a panel's frame and of its values.
#[derive(Clone, Copy)]
pub(crate) struct Area {
    left: u32,
    right: u32,
    across: Scale,
    up: Scale,
}

const PANEL_TITLE: Writing = Writing {
    anchor: Anchor::Start,
    size: 13,
    bold: true,
};

impl Area {
    pub(crate) fn x(self, value: u32) -> u32
        requires { IsInside self }
        ensures place { result ≡ placed self.across value }
        ensures within { result ≤ 100000 }
    {
        self.across.place(value)
    }

    pub(crate) fn y(self, value: u32) -> u32
        requires { IsInside self }
        ensures place { result ≡ placed self.up value }
        ensures within { result ≤ 3860 }
    {
        self.up.place(value)
    }

    fn spot(self, point: (u32, u32)) -> Spot
        ensures { result ≡ spot_in self point }
    {
        Spot {
            x: self.across.place(point.0),
            y: self.up.place(point.1),
        }
    }
}

/// The width of each of so many panels, with what lies between two.
fn width_of(count: usize) -> u32
    ensures width { result ≡ width_of count }
    ensures most { result ≤ 7860 }
{
    7_860 / (count.min(8) as u32).max(1)
}

/// The area of one of so many panels.
pub(crate) fn area_of(panel: &Panel<'_>, place: usize, count: usize) -> Area
    ensures area { result ≡ area_of panel.now place count }
    ensures inside { IsInside result }
{
    let width = width_of(count);
    let left = 460 + place.min(8) as u32 * width;
    let right = left + width.saturating_sub(520);
    Area {
        left,
        right,
        across: Scale {
            from: panel.across.from,
            to: panel.across.to,
            start: left,
            end: right,
        },
        up: Scale {
            from: panel.up.from,
            to: panel.up.to,
            start: 3_860,
            end: 860,
        },
    }
}

/// A number across, with a fine line up from it.
#[tactic(auto, unfolding(crate::specs::CurvePanels::across_tick))]
fn draw_across_tick(picture: &mut Picture, area: Area, tick: Tick) -> Result<(), AllocError>
    requires { IsInside area }
    ensures { OnOk result (picture.new ≡ picture.old ++ across_tick area tick) }
{
    let x = area.x(tick.value);
    picture.line(Spot { x, y: 860 }, Spot { x, y: 3_860 }, FINE)?;
    let number = u64::from(tick.number);
    picture.number(Spot { x, y: 4_030 }, plain(Anchor::Middle), number)
}

fn draw_across_ticks(picture: &mut Picture, area: Area, ticks: &[Tick]) -> Result<(), AllocError>
    requires { IsInside area }
    ensures { OnOk result (picture.new ≡ picture.old ++ flat_map (across_tick area) ticks.now) }
{
    for tick in ticks {
        draw_across_tick(picture, area, *tick)?;
    }
    Ok(())
}

/// The numbers across, and what they are.
#[tactic(auto, unfolding(crate::specs::CurvePanels::across_drawn))]
fn draw_across(picture: &mut Picture, area: Area, axis: &Axis<'_>) -> Result<(), AllocError>
    requires { IsInside area }
    ensures { OnOk result (picture.new ≡ picture.old ++ across_drawn area axis.now) }
{
    draw_across_ticks(picture, area, axis.ticks)?;
    let x = (area.left + area.right) / 2;
    picture.words(Spot { x, y: 4_200 }, plain(Anchor::Middle), axis.title)
}

/// A number up, with a fine line across from it.
#[tactic(auto, unfolding(crate::specs::CurvePanels::up_tick))]
fn draw_up_tick(picture: &mut Picture, area: Area, tick: Tick) -> Result<(), AllocError>
    requires { IsInside area }
    ensures { OnOk result (picture.new ≡ picture.old ++ up_tick area tick) }
{
    let y = area.y(tick.value);
    picture.line(Spot { x: area.left, y }, Spot { x: area.right, y }, FINE)?;
    let at = Spot {
        x: area.left.saturating_sub(60),
        y: y + 40,
    };
    picture.number(at, plain(Anchor::End), u64::from(tick.number))
}

fn draw_up_ticks(picture: &mut Picture, area: Area, ticks: &[Tick]) -> Result<(), AllocError>
    requires { IsInside area }
    ensures { OnOk result (picture.new ≡ picture.old ++ flat_map (up_tick area) ticks.now) }
{
    for tick in ticks {
        draw_up_tick(picture, area, *tick)?;
    }
    Ok(())
}

/// The numbers up, and what they are.
#[tactic(auto, unfolding(crate::specs::CurvePanels::up_drawn))]
fn draw_up(picture: &mut Picture, area: Area, axis: &Axis<'_>) -> Result<(), AllocError>
    requires { IsInside area }
    ensures { OnOk result (picture.new ≡ picture.old ++ up_drawn area axis.now) }
{
    draw_up_ticks(picture, area, axis.ticks)?;
    let x = area.left.saturating_sub(260);
    picture.words(Spot { x, y: 740 }, plain(Anchor::Start), axis.title)
}

/// The places of a curve's points.
fn spots_of(alloc: Global, area: Area, points: &[(u32, u32)]) -> Result<Vec<Spot>, AllocError>
    ensures { IfOk result (λ v. v.items ≡ map (spot_in area) points.now) }
{
    let mut spots = Vec::new(alloc);
    for point in points {
        spots.push(area.spot(*point))?;
    }
    Ok(spots)
}

fn draw_each_mark(
    picture: &mut Picture,
    area: Area,
    colour: Colour,
    points: &[(u32, u32)],
    mark: Mark,
) -> Result<(), AllocError>
    ensures { OnOk result (picture.new ≡ picture.old ++ map (λ point. Marked (spot_in area point) mark colour) points.now) }
{
    for point in points {
        picture.mark(area.spot(*point), mark, colour)?;
    }
    Ok(())
}

fn whisker_stroke(colour: Colour) -> Stroke
    ensures { result ≡ whisker_stroke colour }
{
    Stroke {
        colour,
        width: 10,
        dashed: false,
    }
}

/// A line over the values of a whisker, with a short line across at each of its ends.
#[tactic(auto, unfolding(crate::specs::CurvePanels::whisker_drawn))]
fn draw_whisker(
    picture: &mut Picture,
    area: Area,
    colour: Colour,
    whisker: Whisker,
) -> Result<(), AllocError>
    requires { IsInside area }
    ensures { OnOk result (picture.new ≡ picture.old ++ whisker_drawn area colour whisker) }
{
    let stroke = whisker_stroke(colour);
    let x = area.x(whisker.across);
    let (left, right) = (x.saturating_sub(55), x + 55);
    let (from, to) = (area.y(whisker.from), area.y(whisker.to));
    picture.line(Spot { x, y: from }, Spot { x, y: to }, stroke)?;
    picture.line(
        Spot { x: left, y: from },
        Spot { x: right, y: from },
        stroke,
    )?;
    picture.line(Spot { x: left, y: to }, Spot { x: right, y: to }, stroke)
}

fn draw_whiskers(
    picture: &mut Picture,
    area: Area,
    colour: Colour,
    whiskers: &[Whisker],
) -> Result<(), AllocError>
    requires { IsInside area }
    ensures { OnOk result (picture.new ≡ picture.old ++ flat_map (whisker_drawn area colour) whiskers.now) }
{
    for whisker in whiskers {
        draw_whisker(picture, area, colour, *whisker)?;
    }
    Ok(())
}

/// A line through a curve's points, its whiskers, and its mark at each of the points.
#[tactic(auto, unfolding(crate::specs::CurvePanels::curve_drawn))]
fn draw_curve(
    alloc: Global,
    picture: &mut Picture,
    area: Area,
    curve: &Curve,
) -> Result<(), AllocError>
    requires { IsInside area }
    ensures { OnOk result (picture.new ≡ picture.old ++ curve_drawn area curve.now) }
{
    let points = curve.points.as_slice();
    let spots = spots_of(alloc, area, points)?;
    picture.path(spots, curve.stroke)?;
    draw_whiskers(
        picture,
        area,
        curve.stroke.colour,
        curve.whiskers.as_slice(),
    )?;
    let Some(mark) = curve.mark else {
        return Ok(());
    };
    draw_each_mark(picture, area, curve.stroke.colour, points, mark)
}

fn draw_each_curve(
    alloc: Global,
    picture: &mut Picture,
    area: Area,
    curves: &[Curve],
) -> Result<(), AllocError>
    requires { IsInside area }
    ensures { OnOk result (picture.new ≡ picture.old ++ flat_map (curve_drawn area) curves.now) }
{
    for curve in curves {
        draw_curve(alloc, picture, area, curve)?;
    }
    Ok(())
}

/// A panel: its title, its axes, its frame, its curves.
#[tactic(auto, unfolding(crate::specs::CurvePanels::panel_drawn))]
pub(crate) fn draw_panel(
    alloc: Global,
    picture: &mut Picture,
    area: Area,
    panel: &Panel<'_>,
) -> Result<(), AllocError>
    requires { IsInside area }
    ensures { OnOk result (picture.new ≡ picture.old ++ panel_drawn area panel.now) }
{
    let x = area.left.saturating_sub(260);
    let from = Spot {
        x: area.left,
        y: 860,
    };
    let to = Spot {
        x: area.right,
        y: 3_860,
    };
    picture.words(Spot { x, y: 540 }, PANEL_TITLE, panel.title)?;
    draw_across(picture, area, &panel.across)?;
    draw_up(picture, area, &panel.up)?;
    picture.frame(from, to, FRAME)?;
    draw_each_curve(alloc, picture, area, panel.curves.as_slice())
}

#[tactic(auto, unfolding(crate::specs::CurvePanels::panels_drawn))]
fn draw_panels(alloc: Global, picture: &mut Picture, panels: &[Panel<'_>]) -> Result<(), AllocError>
    ensures { OnOk result (picture.new ≡ picture.old ++ panels_drawn panels.now) }
{
    for (place, panel) in panels.iter().enumerate() {
        let area = area_of(panel, place, panels.len());
        draw_panel(alloc, picture, area, panel)?;
    }
    Ok(())
}

/// The mark of a curve that has one.
fn draw_mark(
    picture: &mut Picture,
    at: Spot,
    colour: Colour,
    mark: Option<Mark>,
) -> Result<(), AllocError>
    ensures { OnOk result (picture.new ≡ picture.old ++ mark_drawn at colour mark) }
{
    match mark {
        None => Ok(()),
        Some(mark) => picture.mark(at, mark, colour),
    }
}

/// The legend of a curve at a place: a piece of its line, its mark, its label.
#[tactic(auto, unfolding(crate::specs::CurvePanels::label_drawn))]
fn draw_label(picture: &mut Picture, x: u32, y: u32, curve: &Curve) -> Result<(), AllocError>
    requires across { x ≤ 1000000 }
    requires down { y ≤ 1000000 }
    ensures { OnOk result (picture.new ≡ picture.old ++ label_drawn x y curve.now) }
{
    let line = y.saturating_sub(40);
    let (from, to) = (
        Spot { x, y: line },
        Spot {
            x: x + 240,
            y: line,
        },
    );
    picture.line(from, to, curve.stroke)?;
    let middle = Spot {
        x: x + 120,
        y: line,
    };
    draw_mark(picture, middle, curve.stroke.colour, curve.mark)?;
    picture.words(
        Spot { x: x + 300, y },
        plain(Anchor::Start),
        curve.label.as_str(),
    )
}

/// Whether the legend names a curve.
fn is_named(curve: &Curve) -> bool
    ensures { result ≡ is_named curve.now }
{
    curve.label.as_str().len() > 0
}

/// The place behind a curve's in the legend.
fn place_after(place: u32, curve: &Curve) -> u32
    requires { place ≤ 999 }
    ensures place { result ≡ place_after place curve.now }
    ensures few { result ≤ 999 }
{
    if is_named(curve) {
        few(place as usize + 1)
    } else {
        place
    }
}

/// How far a column of so many is from the first one.
fn across_share(column: u32, columns: u32) -> u32
    requires { column < columns }
    ensures share { result ≡ column * (7340 / columns) }
    ensures most { result ≤ 7340 }
{
    column * (7_340 / columns)
}

/// The legend of a curve that is named, at its place.
#[tactic(auto, unfolding(crate::specs::CurvePanels::named_drawn))]
fn draw_named(
    picture: &mut Picture,
    columns: u32,
    place: u32,
    curve: &Curve,
) -> Result<(), AllocError>
    requires some { 0 < columns }
    requires few { place ≤ 999 }
    ensures { OnOk result (picture.new ≡ picture.old ++ named_drawn columns place curve.now) }
{
    if !is_named(curve) {
        return Ok(());
    }
    let x = 460 + across_share(place % columns, columns);
    let y = 4_500 + place / columns * 200;
    draw_label(picture, x, y, curve)
}

/// The legend in so many columns.
fn draw_legend(picture: &mut Picture, columns: u32, curves: &[Curve]) -> Result<(), AllocError>
    requires { 0 < columns }
    ensures { OnOk result (picture.new ≡ picture.old ++ legend_from columns 0 curves.now) }
{
    let mut place: u32 = 0;
    for curve in curves {
        draw_named(picture, columns, place, curve)?;
        place = place_after(place, curve);
    }
    Ok(())
}

/// How many curves the legend names.
fn named_in(curves: &[Curve]) -> u32
    ensures named { result ≡ named_in curves.now }
    ensures few { result ≤ 999 }
{
    let mut place: u32 = 0;
    for curve in curves {
        place = place_after(place, curve);
    }
    place
}

/// The curves that the legend names.
#[tactic(auto, unfolding(crate::specs::CurvePanels::legend_of))]
fn legend_of<'a>(panels: &'a [Panel<'a>]) -> &'a [Curve]
    ensures { result.now ≡ legend_of panels.now }
{
    match panels.first() {
        Some(panel) => panel.curves.as_slice(),
        None => &[],
    }
}

/// How many columns the legend has.
fn columns_of(curves: &Curves<'_>) -> u32
    ensures columns { result ≡ columns_of curves.now }
    ensures some { 0 < result }
    ensures few { result ≤ 65535 }
{
    u32::from(curves.legend_columns).max(1)
}

/// How many rows the legend has.
fn legend_rows(named: u32, columns: u32) -> u32
    requires some { 0 < columns }
    requires few { columns ≤ 65535 }
    requires most { named ≤ 999 }
    ensures { result ≡ (named + columns - 1) / columns }
{
    (named + columns - 1) / columns
}

/// Lines of text, from a height on.
fn draw_texts(picture: &mut Picture, notes: &[Label], rows: u32) -> Result<(), AllocError>
    ensures { OnOk result (picture.new ≡ picture.old ++ each (note_drawn (4560 + 200 * few_of rows)) notes.now) }
{
    draw_notes(picture, notes, 4_560 + 200 * few(rows as usize))
}

/// All parts, in the order in which they lie over one another.
fn draw_parts(
    alloc: Global,
    picture: &mut Picture,
    curves: &Curves<'_>,
    notes: &[Label],
) -> Result<(), AllocError>
    ensures { OnOk result (picture.new ≡ picture.old ++ curves_elements curves.now notes.now) }
{
    let columns = columns_of(curves);
    let labelled = legend_of(curves.panels);
    let rows = legend_rows(named_in(labelled), columns);
    picture.words(Spot { x: 200, y: 250 }, TITLE, curves.title)?;
    draw_panels(alloc, picture, curves.panels)?;
    draw_legend(picture, columns, labelled)?;
    draw_texts(picture, notes, rows)
}

/// The picture, with lines of text under it, as an SVG document.
///
/// # Errors
///
/// Where a growth was refused. What was taken is given back.
#[tactic(auto, unfolding(crate::specs::CurvePanels::curves_text))]
pub fn draw_curves(
    alloc: Global,
    curves: &Curves<'_>,
    notes: &[Label],
) -> Result<String, AllocError>
    ensures { IfOk result (λ text. string_bytes text ≡ curves_text curves.now notes.now) }
{
    let columns = columns_of(curves);
    let rows = legend_rows(named_in(legend_of(curves.panels)), columns);
    let height = 450 + 20 * few(rows as usize) + 17 * few(notes.len());
    let mut picture = Picture::new(alloc);
    draw_parts(alloc, &mut picture, curves, notes)?;
    picture.draw(WIDTH, height as u16, curves.title)
}
