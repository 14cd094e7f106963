//! Space-time diagrams: bars in lanes over columns of time, each with a numbered dot, and lines between dots.
ghost use Rattle.std.specs.Prelude.{◌≡◌, ◌≤◌, ◌++◌, ◌∷◌, [], IfOk, OnOk, string_bytes};
ghost use Rattle.std.specs.List.{flat_map};
ghost use Rattle.svg_plots.specs.Timelines.{band_elements, bar_cell, bar_elements, column_x, dot_elements, ground_elements, is_in, join_elements, key_elements, lane_y, middle_y, note_elements, scale_elements, spot, stroke, tick_at, tick_elements, timeline_elements, timeline_height, timeline_text, writing};

use crate::scale::tick_step;
use crate::{Anchor, Colour, Mark, Picture, Scale, Spot, Stroke, Writing};
use std::alloc::{AllocError, Global};

/// The first and the last column.
#[derive(Clone, Copy)]
pub struct Columns {
    pub from: u32,
    pub to: u32,
}

/// A bar in a lane, from one column to another, with a numbered dot. What is outside of the columns isn't drawn.
#[derive(Clone, Copy)]
pub struct Bar {
    pub lane: u16,
    pub from: u32,
    pub to: u32,
    /// The dot's column.
    pub dot: u32,
    pub number: u64,
    pub colour: Colour,
}

/// A line in a column from one lane to another.
#[derive(Clone, Copy)]
pub struct Join {
    pub column: u32,
    pub first: u16,
    pub second: u16,
}

/// Lanes that belong together, from the first of them on. Its label is a name and this number.
#[derive(Clone, Copy)]
pub struct Band {
    pub lane: u16,
    pub number: u32,
}

/// What a colour stands for, by its place in a line. Its label is a name and this number.
#[derive(Clone, Copy)]
pub struct Key {
    pub place: u8,
    pub colour: Colour,
    pub number: u32,
}

/// A diagram, 800 pixels wide. From top to bottom: a title, the keys, the lanes, the numbers of the columns, and two lines of
/// text.
#[derive(Clone, Copy)]
pub struct Timeline<'a> {
    pub title: &'a str,
    /// What the columns are.
    pub across: &'a str,
    pub columns: Columns,
    /// How many lanes there are.
    pub lanes: u16,
    /// What bands and keys are named by.
    pub band_name: &'a str,
    pub key_name: &'a str,
    pub bands: &'a [Band],
    pub keys: &'a [Key],
    pub joins: &'a [Join],
    pub bars: &'a [Bar],
    pub note: &'a str,
    pub last_note: &'a str,
}

fn spot(x: u32, y: u32) -> Spot
    ensures { result ≡ spot x y }
{
    Spot { x, y }
}

fn stroke(colour: Colour, width: u32) -> Stroke
    ensures { result ≡ stroke colour width }
{
    Stroke {
        colour,
        width,
        dashed: false,
    }
}

fn writing(anchor: Anchor, size: u8, bold: bool) -> Writing
    ensures { result ≡ writing anchor size bold }
{
    Writing { anchor, size, bold }
}

/// The place of a column.
#[tactic(auto, using(crate::proofs::Across::column_within))]
fn column_x(columns: Columns, column: u32) -> u32
    ensures place { result ≡ column_x columns column }
    ensures within { result ≤ 7700 }
{
    let scale = Scale {
        from: columns.from,
        to: columns.to,
        start: 900,
        end: 7_700,
    };
    scale.place(column)
}

/// The top of a lane.
fn lane_y(lane: u16) -> u32
    ensures place { result ≡ lane_y lane }
    ensures within { result ≤ 10000000 }
{
    700 + 140 * u32::from(lane)
}

/// The middle of a lane's bars.
fn middle_y(lane: u16) -> u32
    ensures { result ≡ middle_y lane }
{
    lane_y(lane) + 105
}

fn is_in(columns: Columns, column: u32) -> bool
    ensures { result ≡ is_in columns column }
{
    columns.from <= column && column <= columns.to
}

fn draw_cell(picture: &mut Picture, columns: Columns, bar: Bar) -> Result<(), AllocError>
    ensures { OnOk result (picture.new ≡ picture.old ++ bar_cell columns bar ∷ []) }
{
    let left = column_x(columns, bar.from);
    let right = column_x(columns, bar.to);
    let at = spot(left, lane_y(bar.lane) + 85);
    picture.cell(at, right.saturating_sub(left).max(10), 40, bar.colour)
}

/// The dot of a bar and its number, where its column is drawn.
fn draw_dot(picture: &mut Picture, columns: Columns, bar: Bar) -> Result<(), AllocError>
    ensures { OnOk result (picture.new ≡ picture.old ++ dot_elements columns bar) }
{
    if !is_in(columns, bar.dot) {
        return Ok(());
    }
    let x = column_x(columns, bar.dot);
    picture.mark(spot(x, middle_y(bar.lane)), Mark::Circle, Colour::Ink)?;
    let at = spot(x + 45, lane_y(bar.lane) + 75);
    picture.number(at, writing(Anchor::Start, 9, false), bar.number)
}

fn draw_bar(picture: &mut Picture, columns: Columns, bar: Bar) -> Result<(), AllocError>
    ensures { OnOk result (picture.new ≡ picture.old ++ bar_elements columns bar) }
{
    draw_cell(picture, columns, bar)?;
    draw_dot(picture, columns, bar)
}

fn draw_bars(picture: &mut Picture, columns: Columns, bars: &[Bar]) -> Result<(), AllocError>
    ensures { OnOk result (picture.new ≡ picture.old ++ flat_map (bar_elements columns) bars.now) }
{
    for bar in bars {
        draw_bar(picture, columns, *bar)?;
    }
    Ok(())
}

/// The line between two dots of one column, where that is drawn.
fn draw_join(picture: &mut Picture, columns: Columns, join: Join) -> Result<(), AllocError>
    ensures { OnOk result (picture.new ≡ picture.old ++ join_elements columns join) }
{
    if !is_in(columns, join.column) {
        return Ok(());
    }
    let x = column_x(columns, join.column);
    let first = spot(x, middle_y(join.first));
    let second = spot(x, middle_y(join.second));
    picture.line(first, second, stroke(Colour::Ink, 15))
}

fn draw_joins(picture: &mut Picture, columns: Columns, joins: &[Join]) -> Result<(), AllocError>
    ensures { OnOk result (picture.new ≡ picture.old ++ flat_map (join_elements columns) joins.now) }
{
    for join in joins {
        draw_join(picture, columns, *join)?;
    }
    Ok(())
}

fn draw_band(picture: &mut Picture, name: &str, band: Band) -> Result<(), AllocError>
    ensures { OnOk result (picture.new ≡ picture.old ++ band_elements name.now band) }
{
    let y = lane_y(band.lane);
    picture.line(spot(200, y), spot(7_700, y), stroke(Colour::Pale, 8))?;
    let how = writing(Anchor::End, 11, false);
    picture.named(spot(820, y + 125), how, name, band.number)
}

fn draw_bands(picture: &mut Picture, name: &str, bands: &[Band]) -> Result<(), AllocError>
    ensures { OnOk result (picture.new ≡ picture.old ++ flat_map (band_elements name.now) bands.now) }
{
    for band in bands {
        draw_band(picture, name, *band)?;
    }
    Ok(())
}

/// The column of a tick, where it is drawn.
fn tick_at(columns: Columns, tick: u8) -> Option<u32>
    ensures { result ≡ tick_at columns tick }
{
    let step = tick_step(columns.to.saturating_sub(columns.from), 8);
    let column = u64::from(columns.from) + u64::from(step) * u64::from(tick);
    if column <= u64::from(columns.to) {
        Some(column as u32)
    } else {
        None
    }
}

/// The line of a tick through all lanes, and its number.
fn draw_tick(
    picture: &mut Picture,
    columns: Columns,
    lanes: u16,
    tick: u8,
) -> Result<(), AllocError>
    ensures { OnOk result (picture.new ≡ picture.old ++ tick_elements columns lanes tick) }
{
    let Some(column) = tick_at(columns, tick) else {
        return Ok(());
    };
    let x = column_x(columns, column);
    let bottom = lane_y(lanes);
    picture.line(spot(x, 700), spot(x, bottom + 50), stroke(Colour::Pale, 8))?;
    let how = writing(Anchor::Middle, 11, false);
    picture.number(spot(x, bottom + 180), how, u64::from(column))
}

pub(crate) const TICKS: [u8; 10] = [0, 1, 2, 3, 4, 5, 6, 7, 8, 9];

fn draw_ticks(
    picture: &mut Picture,
    columns: Columns,
    lanes: u16,
    ticks: &[u8],
) -> Result<(), AllocError>
    ensures { OnOk result (picture.new ≡ picture.old ++ flat_map (tick_elements columns lanes) ticks.now) }
{
    for tick in ticks {
        draw_tick(picture, columns, lanes, *tick)?;
    }
    Ok(())
}

/// The line below all lanes, and what the columns are.
fn draw_ground(picture: &mut Picture, lanes: u16, across: &str) -> Result<(), AllocError>
    ensures { OnOk result (picture.new ≡ picture.old ++ ground_elements lanes across.now) }
{
    let y = lane_y(lanes);
    picture.line(spot(200, y), spot(7_700, y), stroke(Colour::Ink, 10))?;
    picture.words(spot(740, y + 180), writing(Anchor::End, 11, false), across)
}

fn draw_key(picture: &mut Picture, name: &str, key: Key) -> Result<(), AllocError>
    ensures { OnOk result (picture.new ≡ picture.old ++ key_elements name.now key) }
{
    let x = 900 + 1_360 * u32::from(key.place);
    picture.cell(spot(x, 470), 240, 60, key.colour)?;
    let how = writing(Anchor::Start, 11, false);
    picture.named(spot(x + 300, 540), how, name, key.number)
}

fn draw_keys(picture: &mut Picture, name: &str, keys: &[Key]) -> Result<(), AllocError>
    ensures { OnOk result (picture.new ≡ picture.old ++ flat_map (key_elements name.now) keys.now) }
{
    for key in keys {
        draw_key(picture, name, *key)?;
    }
    Ok(())
}

/// The two lines of text below.
fn draw_notes(
    picture: &mut Picture,
    lanes: u16,
    note: &str,
    last_note: &str,
) -> Result<(), AllocError>
    ensures { OnOk result (picture.new ≡ picture.old ++ note_elements lanes note.now last_note.now) }
{
    let y = lane_y(lanes);
    let how = writing(Anchor::Start, 11, false);
    picture.words(spot(200, y + 400), how, note)?;
    picture.words(spot(200, y + 560), how, last_note)
}

/// What lies below the bars: title, ticks, bands and keys.
fn draw_scale(picture: &mut Picture, timeline: &Timeline<'_>) -> Result<(), AllocError>
    ensures { OnOk result (picture.new ≡ picture.old ++ scale_elements timeline.now) }
{
    let lanes = timeline.lanes;
    picture.words(
        spot(200, 250),
        writing(Anchor::Start, 15, true),
        timeline.title,
    )?;
    draw_ticks(picture, timeline.columns, lanes, &TICKS)?;
    draw_bands(picture, timeline.band_name, timeline.bands)?;
    draw_ground(picture, lanes, timeline.across)?;
    draw_keys(picture, timeline.key_name, timeline.keys)
}

/// How many pixels high a diagram of so many lanes is.
fn timeline_height(lanes: u16) -> u16
    ensures { result ≡ timeline_height lanes }
{
    (lane_y(lanes) / 10 + 64).min(65_535) as u16
}

/// The elements of a diagram.
fn timeline_picture(alloc: Global, timeline: &Timeline<'_>) -> Result<Picture, AllocError>
    ensures { IfOk result (λ picture. picture ≡ timeline_elements timeline.now) }
{
    let mut picture = Picture::new(alloc);
    draw_scale(&mut picture, timeline)?;
    draw_joins(&mut picture, timeline.columns, timeline.joins)?;
    draw_bars(&mut picture, timeline.columns, timeline.bars)?;
    draw_notes(
        &mut picture,
        timeline.lanes,
        timeline.note,
        timeline.last_note,
    )?;
    Ok(picture)
}

/// The diagram as an SVG document.
///
/// # Errors
///
/// Where a growth was refused. What was taken is given back.
pub fn draw_timeline(alloc: Global, timeline: &Timeline<'_>) -> Result<String, AllocError>
    ensures { IfOk result (λ text. string_bytes text ≡ timeline_text timeline.now) }
{
    let picture = timeline_picture(alloc, timeline)?;
    picture.draw(800, timeline_height(timeline.lanes), timeline.title)
}
