//! Rows of cells over a line of time.
ghost use Rattle.std.specs.Prelude.{◌≡◌, ◌<◌, ◌≤◌, ◌+◌, ◌-◌, ◌*◌, ◌/◌, ◌^◌, ◌++◌, IfOk, OnOk, max, min, decimal, sum_by, string_bytes};
ghost use Rattle.std.specs.List.{flat_map};
ghost use Rattle.svg_plots.specs.Places.{place_of};
ghost use Rattle.svg_plots.specs.Lists.{each, each_from, few_of};
ghost use Rattle.svg_plots.specs.CellMaps.{rows_in, row_height, layout_of, x_at, row_at, runs, shade_of, mark_drawn, run_drawn, row_drawn, group_drawn, groups_drawn, level_at, level_words, step_drawn, levels_drawn, crossing_drawn, stroke_drawn, tick_drawn, key_drawn, levels_height, cells_drawn, strokes_drawn, columns_drawn, notes_at, map_elements, map_height, map_text, IsFit};

use crate::writings::{FRAME, GROUP, TITLE, WIDTH, draw_notes, few, plain, small, tiny};
use crate::{Anchor, Colour, Label, Picture, Scale, Spot, Stroke, Tick};
use std::alloc::{AllocError, Global};
use std::marker::Model;

/// Numbers of cells, from left to right. Contracts see the list.
#[derive(Drop)]
pub struct Cells {
    numbers: Vec<u8>,
}

impl Model for Cells {
    ghost use Rattle.std.specs.Prelude.{ℕ, List};

    ghost Value = { List ℕ };

    ghost view = { λ c. c.numbers.items };
}

impl Cells {
    /// The numbers of this list. It takes no memory.
    pub fn from_vec(numbers: Vec<u8>) -> Cells
        ensures { result ≡ numbers.items }
    {
        Cells { numbers }
    }

    pub fn as_slice(&self) -> &[u8]
        ensures { result.now ≡ self.now }
    {
        &self.numbers
    }
}

/// A row of cells with its label.
#[derive(Drop)]
pub struct CellRow {
    pub label: Label,
    pub cells: Cells,
}

/// Rows of cells, from top to bottom. Contracts see the list.
#[derive(Drop)]
pub struct CellRows {
    rows: Vec<CellRow>,
}

impl Model for CellRows {
    ghost use Rattle.std.specs.Prelude.{List};
    ghost use Rattle.svg_plots.specs.declared.map.CellRow.{CellRow};

    ghost Value = { List CellRow };

    ghost view = { λ r. r.rows.items };
}

impl CellRows {
    /// The rows of this list. It takes no memory.
    pub fn from_vec(rows: Vec<CellRow>) -> CellRows
        ensures { result ≡ rows.items }
    {
        CellRows { rows }
    }

    pub fn as_slice(&self) -> &[CellRow]
        ensures { result.now ≡ self.now }
    {
        &self.rows
    }
}

/// Rows that belong together, with one label.
#[derive(Drop)]
pub struct CellGroup {
    pub label: Label,
    pub rows: CellRows,
}

/// A line through the whole map at a column, with its label; the label alone where it has no column.
#[derive(Drop)]
pub struct Crossing {
    pub column: Option<u32>,
    pub label: Label,
}

/// A number whose shade is shown beside the map, with its label.
#[derive(Drop)]
pub struct ShadeKey {
    pub number: u8,
    pub label: Label,
}

/// A map, 800 pixels wide. From top to bottom: a title, the labels of the crossings, a stepped line of levels, the groups
/// of cells, strokes at some columns, the numbers of the columns, and lines of text.
#[derive(Drop)]
pub struct CellMap {
    pub title: Label,
    /// What the columns are, and which of them have a number.
    pub across: &'static str,
    pub ticks: Vec<Tick>,
    pub groups: Vec<CellGroup>,
    /// The number of cells that are left white: 0, but where cells are of differences. Those of lower ones are orange, and have a
    /// dark line.
    pub middle: u8,
    /// The greatest number that a cell can have, and the least at which it is marked.
    pub most: u8,
    pub marked: u8,
    pub key: Vec<ShadeKey>,
    pub crossings: Vec<Crossing>,
    /// The level at each column, what it is, and the greatest one; no line, and no room for one, where that is 0.
    pub levels: Vec<u8>,
    pub level_title: &'static str,
    pub highest: u8,
    /// Whether there is a stroke at each column, and what it is.
    pub strokes: Vec<bool>,
    pub stroke_title: &'static str,
    pub notes: Vec<Label>,
}

/// What marks a cell of a number below the middle: dark on light.
const LOWER: Stroke = Stroke {
    colour: Colour::Ink,
    width: 10,
    dashed: false,
};

/// What marks a full cell: light on dark.
const MARKED: Stroke = Stroke {
    colour: Colour::Light,
    width: 10,
    dashed: false,
};

const LEVEL: Stroke = Stroke {
    colour: Colour::Ink,
    width: 15,
    dashed: false,
};

const CROSSING: Stroke = Stroke {
    colour: Colour::Vermilion,
    width: 10,
    dashed: true,
};

/// How many columns there are, and the heights of a map's parts in tenths of a pixel: the top of the stepped line, the top of
/// the cells, the height of a row, and where the cells end.
#[derive(Clone, Copy)]
struct Layout {
    columns: u32,
    levels: u32,
    cells: u32,
    row: u32,
    below: u32,
}

/// Cells of one number side by side: from a column on, and before another one.
#[derive(Clone, Copy)]
struct Run {
    from: usize,
    to: usize,
    number: u8,
}

/// How many rows the groups have, at most 999.
fn rows_in(groups: &[CellGroup]) -> u32
    ensures rows { result ≡ few_of (rows_in groups.now) }
    ensures most { result ≤ 999 }
{
    let mut rows: u32 = 0;
    for group in groups {
        rows = few(rows as usize + group.rows.as_slice().len());
    }
    rows
}

/// The height of each of so many rows.
fn row_height(rows: u32) -> u32
    ensures height { result ≡ row_height rows }
    ensures most { result ≤ 200 }
{
    (2_600 / rows.max(1)).min(200).max(90)
}

/// The height of so many levels, with room for the numbers of the lowest and the highest one, and between them and the cells.
fn levels_height(highest: u8) -> u32
    ensures height { result ≡ levels_height highest }
    ensures most { result ≤ 23110 }
{
    if highest == 0 {
        return 0;
    }
    90 * u32::from(highest).max(2) + 160
}

fn layout_of(map: &CellMap) -> Layout
    ensures places { result ≡ layout_of map.now }
    ensures fit { IsFit result }
{
    let rows = rows_in(map.groups.as_slice());
    let row = row_height(rows);
    let levels = 480 + 140 * few(map.crossings.as_slice().len());
    let cells = levels + levels_height(map.highest);
    Layout {
        columns: map.levels.as_slice().len().min(100_000) as u32,
        levels,
        cells,
        row,
        below: cells + row * rows,
    }
}

impl Layout {
    /// The left edge of a column.
    fn x(self, column: usize) -> u32
        ensures place { result ≡ x_at self column }
        ensures most { result ≤ 6700 }
    {
        let across = Scale {
            from: 0,
            to: self.columns,
            start: 1_000,
            end: 6_700,
        };
        across.place(column.min(100_000) as u32)
    }

    /// The top of a row.
    fn y(self, row: usize) -> u32
        requires { IsFit self }
        ensures place { result ≡ row_at self row }
        ensures most { result ≤ 400000 }
    {
        self.cells + self.row * few(row)
    }
}

/// The place of a number among 16 shades behind white, of which the last one is that of the greatest number.
fn shade_place(most: u8, number: u8) -> u8
    ensures { result ≡ place_of 0 most 0 16 number }
{
    let shades = Scale {
        from: 0,
        to: u32::from(most),
        start: 0,
        end: 16,
    };
    shades.place(u32::from(number)) as u8
}

/// The shade of a number.
fn shade(map: &CellMap, number: u8) -> Colour
    ensures { result ≡ shade_of map.now number }
{
    let middle = map.middle;
    if number < middle {
        Colour::Warm(shade_place(middle, middle - number))
    } else {
        Colour::Shade(shade_place(map.most.saturating_sub(middle), number - middle))
    }
}

/// The runs of equal numbers in a row.
fn runs_of(alloc: Global, row: &[u8]) -> Result<Vec<Run>, AllocError>
    ensures { IfOk result (λ v. v.items ≡ runs row.now) }
{
    let mut runs = Vec::new(alloc);
    if row.is_empty() {
        return Ok(runs);
    }
    let mut from: usize = 0;
    let mut number = row[0];
    for (at, next) in row.iter().enumerate() {
        if *next != number {
            runs.push(Run {
                from,
                to: at,
                number,
            })?;
            from = at;
            number = *next;
        }
    }
    runs.push(Run {
        from,
        to: row.len(),
        number,
    })?;
    Ok(runs)
}

/// The mark of a number that is to be marked.
#[tactic(auto, unfolding(crate::specs::CellMaps::mark_drawn))]
fn draw_mark(
    picture: &mut Picture,
    map: &CellMap,
    number: u8,
    left: u32,
    right: u32,
    y: u32,
) -> Result<(), AllocError>
    ensures { OnOk result (picture.new ≡ picture.old ++ mark_drawn map.now number left right y) }
{
    let (from, to) = (Spot { x: left, y }, Spot { x: right, y });
    if number < map.middle {
        return picture.line(from, to, LOWER);
    }
    if number < map.marked {
        return Ok(());
    }
    picture.line(from, to, MARKED)
}

/// The cells of a run; those of the number in the middle aren't drawn.
#[tactic(auto, unfolding(crate::specs::CellMaps::run_drawn))]
fn draw_run(
    picture: &mut Picture,
    map: &CellMap,
    layout: Layout,
    top: u32,
    run: Run,
) -> Result<(), AllocError>
    requires fit { IsFit layout }
    requires top { top ≤ 400000 }
    ensures { OnOk result (picture.new ≡ picture.old ++ run_drawn map.now layout top run) }
{
    if run.number == map.middle {
        return Ok(());
    }
    let (left, right) = (layout.x(run.from), layout.x(run.to));
    let inner = layout.row.saturating_sub(4);
    picture.cell(
        Spot { x: left, y: top },
        right.saturating_sub(left),
        inner,
        shade(map, run.number),
    )?;
    draw_mark(picture, map, run.number, left, right, top + inner / 2)
}

/// A row of cells with its label.
#[tactic(auto, unfolding(crate::specs::CellMaps::row_drawn))]
fn draw_row(
    alloc: Global,
    picture: &mut Picture,
    map: &CellMap,
    layout: Layout,
    at: usize,
    row: &CellRow,
) -> Result<(), AllocError>
    requires { IsFit layout }
    ensures { OnOk result (picture.new ≡ picture.old ++ row_drawn map.now layout at row.now) }
{
    let top = layout.y(at);
    let y = top + layout.row / 2 + 25;
    picture.words(Spot { x: 950, y }, tiny(Anchor::End), row.label.as_str())?;
    let runs = runs_of(alloc, row.cells.as_slice())?;
    draw_runs(picture, map, layout, top, runs.as_slice())
}

fn draw_runs(
    picture: &mut Picture,
    map: &CellMap,
    layout: Layout,
    top: u32,
    runs: &[Run],
) -> Result<(), AllocError>
    requires fit { IsFit layout }
    requires top { top ≤ 400000 }
    ensures { OnOk result (picture.new ≡ picture.old ++ flat_map (run_drawn map.now layout top) runs.now) }
{
    for run in runs {
        draw_run(picture, map, layout, top, *run)?;
    }
    Ok(())
}

/// Rows, the first of which is at this place among all.
fn draw_rows(
    alloc: Global,
    picture: &mut Picture,
    map: &CellMap,
    layout: Layout,
    first: usize,
    rows: &[CellRow],
) -> Result<(), AllocError>
    requires fit { IsFit layout }
    requires few { first ≤ 999 }
    ensures { OnOk result (picture.new ≡ picture.old ++ each_from (row_drawn map.now layout) first rows.now) }
{
    for (at, row) in rows.iter().enumerate() {
        draw_row(alloc, picture, map, layout, first + at, row)?;
    }
    Ok(())
}

/// A group of rows, with a line below it and its label beside it.
#[tactic(auto, unfolding(crate::specs::CellMaps::group_drawn))]
fn draw_group(
    alloc: Global,
    picture: &mut Picture,
    map: &CellMap,
    layout: Layout,
    first: usize,
    group: &CellGroup,
) -> Result<(), AllocError>
    requires fit { IsFit layout }
    requires few { first ≤ 999 }
    ensures { OnOk result (picture.new ≡ picture.old ++ group_drawn map.now layout first group.now) }
{
    draw_rows(alloc, picture, map, layout, first, group.rows.as_slice())?;
    let top = layout.y(first);
    let end = layout.y(first + group.rows.as_slice().len());
    let y = (top + end) / 2 + 40;
    picture.line(Spot { x: 1_000, y: end }, Spot { x: 6_700, y: end }, GROUP)?;
    picture.words(Spot { x: 620, y }, plain(Anchor::End), group.label.as_str())
}

fn draw_groups(
    alloc: Global,
    picture: &mut Picture,
    map: &CellMap,
    layout: Layout,
    groups: &[CellGroup],
) -> Result<(), AllocError>
    requires { IsFit layout }
    ensures { OnOk result (picture.new ≡ picture.old ++ groups_drawn map.now layout 0 groups.now) }
{
    let mut first: usize = 0;
    for group in groups {
        draw_group(alloc, picture, map, layout, first, group)?;
        first = few(first + group.rows.as_slice().len()) as usize;
    }
    Ok(())
}

/// The cells, in their frame.
#[tactic(auto, unfolding(crate::specs::CellMaps::cells_drawn))]
fn draw_cells(
    alloc: Global,
    picture: &mut Picture,
    map: &CellMap,
    layout: Layout,
) -> Result<(), AllocError>
    requires { IsFit layout }
    ensures { OnOk result (picture.new ≡ picture.old ++ cells_drawn map.now layout) }
{
    draw_groups(alloc, picture, map, layout, map.groups.as_slice())?;
    let from = Spot {
        x: 1_000,
        y: layout.cells,
    };
    let to = Spot {
        x: 6_700,
        y: layout.below,
    };
    picture.frame(from, to, FRAME)
}

/// The scale of the levels: the highest one on top.
fn level_y(map: &CellMap, layout: Layout, level: u8) -> u32
    requires { IsFit layout }
    ensures { result ≡ level_at map.now layout level }
{
    let up = Scale {
        from: 0,
        to: u32::from(map.highest).max(1),
        start: layout.cells.saturating_sub(160),
        end: layout.levels,
    };
    up.place(u32::from(level))
}

/// The places of the stepped line.
fn level_spots(
    alloc: Global,
    map: &CellMap,
    layout: Layout,
    levels: &[u8],
) -> Result<Vec<Spot>, AllocError>
    requires { IsFit layout }
    ensures { IfOk result (λ v. v.items ≡ each (step_drawn map.now layout) levels.now) }
{
    let mut spots = Vec::new(alloc);
    for (column, level) in levels.iter().enumerate() {
        add_step(&mut spots, map, layout, column, *level)?;
    }
    Ok(spots)
}

/// Adds the two ends of a level at its column.
#[tactic(auto, unfolding(crate::specs::CellMaps::step_drawn))]
fn add_step(
    spots: &mut Vec<Spot>,
    map: &CellMap,
    layout: Layout,
    column: usize,
    level: u8,
) -> Result<(), AllocError>
    requires fit { IsFit layout }
    requires short { column < 2 ^ 63 }
    ensures { OnOk result (spots.new.items ≡ spots.old.items ++ step_drawn map.now layout column level) }
{
    let y = level_y(map, layout, level);
    spots.push(Spot {
        x: layout.x(column),
        y,
    })?;
    spots.push(Spot {
        x: layout.x(column + 1),
        y,
    })?;
    Ok(())
}

/// The stepped line, its title, and its lowest and highest level.
#[tactic(auto, unfolding(crate::specs::CellMaps::levels_drawn))]
fn draw_levels(
    alloc: Global,
    picture: &mut Picture,
    map: &CellMap,
    layout: Layout,
) -> Result<(), AllocError>
    requires { IsFit layout }
    ensures { OnOk result (picture.new ≡ picture.old ++ levels_drawn map.now layout) }
{
    if map.highest == 0 {
        return Ok(());
    }
    let y = layout.cells.saturating_sub(160);
    picture.line(Spot { x: 1_000, y }, Spot { x: 6_700, y }, GROUP)?;
    let spots = level_spots(alloc, map, layout, map.levels.as_slice())?;
    picture.path(spots, LEVEL)?;
    draw_level_words(picture, map, layout)
}

/// What stands beside the stepped line.
fn draw_level_words(picture: &mut Picture, map: &CellMap, layout: Layout) -> Result<(), AllocError>
    requires { IsFit layout }
    ensures { OnOk result (picture.new ≡ picture.old ++ level_words map.now layout (decimal map.now.highest)) }
{
    let lowest = layout.cells.saturating_sub(160);
    let middle = (layout.levels + lowest) / 2 + 40;
    picture.number(
        Spot {
            x: 920,
            y: layout.levels + 40,
        },
        plain(Anchor::End),
        u64::from(map.highest),
    )?;
    picture.words(
        Spot {
            x: 920,
            y: lowest + 40,
        },
        plain(Anchor::End),
        "0",
    )?;
    picture.words(
        Spot { x: 200, y: middle },
        plain(Anchor::Start),
        map.level_title,
    )
}

/// A crossing: a later one has its label under the one before, so no line goes through a label.
#[tactic(auto, unfolding(crate::specs::CellMaps::crossing_drawn))]
fn draw_crossing(
    picture: &mut Picture,
    layout: Layout,
    at: usize,
    crossing: &Crossing,
) -> Result<(), AllocError>
    requires { IsFit layout }
    ensures { OnOk result (picture.new ≡ picture.old ++ crossing_drawn layout at crossing.now) }
{
    let y = 520 + 140 * few(at);
    let Some(column) = crossing.column else {
        return picture.words(
            Spot { x: 1_040, y },
            small(Anchor::Start),
            crossing.label.as_str(),
        );
    };
    let x = layout.x(column as usize);
    let end = layout.below + 280;
    picture.line(Spot { x, y: y - 100 }, Spot { x, y: end }, CROSSING)?;
    picture.words(
        Spot { x: x + 40, y },
        small(Anchor::Start),
        crossing.label.as_str(),
    )
}

fn draw_crossings(
    picture: &mut Picture,
    layout: Layout,
    crossings: &[Crossing],
) -> Result<(), AllocError>
    requires { IsFit layout }
    ensures { OnOk result (picture.new ≡ picture.old ++ each (crossing_drawn layout) crossings.now) }
{
    for (at, crossing) in crossings.iter().enumerate() {
        draw_crossing(picture, layout, at, crossing)?;
    }
    Ok(())
}

#[tactic(auto, unfolding(crate::specs::CellMaps::stroke_drawn))]
fn draw_stroke(
    picture: &mut Picture,
    layout: Layout,
    column: usize,
    stroke: bool,
) -> Result<(), AllocError>
    requires fit { IsFit layout }
    requires short { column < 2 ^ 63 }
    ensures { OnOk result (picture.new ≡ picture.old ++ stroke_drawn layout column stroke) }
{
    if !stroke {
        return Ok(());
    }
    let (left, right) = (layout.x(column), layout.x(column + 1));
    let at = Spot {
        x: left,
        y: layout.below + 120,
    };
    let width = (right.saturating_sub(left) / 2).max(6);
    picture.cell(at, width, 120, Colour::Ink)
}

fn draw_each_stroke(
    picture: &mut Picture,
    layout: Layout,
    strokes: &[bool],
) -> Result<(), AllocError>
    requires { IsFit layout }
    ensures { OnOk result (picture.new ≡ picture.old ++ each (stroke_drawn layout) strokes.now) }
{
    for (column, stroke) in strokes.iter().enumerate() {
        draw_stroke(picture, layout, column, *stroke)?;
    }
    Ok(())
}

/// The strokes, with what they are.
#[tactic(auto, unfolding(crate::specs::CellMaps::strokes_drawn))]
fn draw_strokes(picture: &mut Picture, map: &CellMap, layout: Layout) -> Result<(), AllocError>
    requires { IsFit layout }
    ensures { OnOk result (picture.new ≡ picture.old ++ strokes_drawn map.now layout) }
{
    draw_each_stroke(picture, layout, map.strokes.as_slice())?;
    let at = Spot {
        x: 920,
        y: layout.below + 220,
    };
    picture.words(at, plain(Anchor::End), map.stroke_title)
}

#[tactic(auto, unfolding(crate::specs::CellMaps::tick_drawn))]
fn draw_tick(picture: &mut Picture, layout: Layout, tick: Tick) -> Result<(), AllocError>
    requires { IsFit layout }
    ensures { OnOk result (picture.new ≡ picture.old ++ tick_drawn layout tick) }
{
    let x = layout.x(tick.value as usize);
    let y = layout.below + 280;
    picture.line(Spot { x, y }, Spot { x, y: y + 50 }, FRAME)?;
    let number = u64::from(tick.number);
    picture.number(Spot { x, y: y + 180 }, plain(Anchor::Middle), number)
}

fn draw_ticks(picture: &mut Picture, layout: Layout, ticks: &[Tick]) -> Result<(), AllocError>
    requires { IsFit layout }
    ensures { OnOk result (picture.new ≡ picture.old ++ flat_map (tick_drawn layout) ticks.now) }
{
    for tick in ticks {
        draw_tick(picture, layout, *tick)?;
    }
    Ok(())
}

/// The numbers of the columns, under a line, and before them what they are.
#[tactic(auto, unfolding(crate::specs::CellMaps::columns_drawn))]
fn draw_columns(picture: &mut Picture, map: &CellMap, layout: Layout) -> Result<(), AllocError>
    requires { IsFit layout }
    ensures { OnOk result (picture.new ≡ picture.old ++ columns_drawn map.now layout) }
{
    let y = layout.below + 280;
    picture.line(Spot { x: 1_000, y }, Spot { x: 6_700, y }, FRAME)?;
    draw_ticks(picture, layout, map.ticks.as_slice())?;
    picture.words(Spot { x: 820, y: y + 180 }, plain(Anchor::End), map.across)
}

/// A framed square of a number's shade, with its label.
#[tactic(auto, unfolding(crate::specs::CellMaps::key_drawn))]
fn draw_key(
    picture: &mut Picture,
    map: &CellMap,
    layout: Layout,
    at: usize,
    key: &ShadeKey,
) -> Result<(), AllocError>
    requires { IsFit layout }
    ensures { OnOk result (picture.new ≡ picture.old ++ key_drawn map.now layout at key.now) }
{
    let y = layout.cells + 140 * few(at);
    let from = Spot { x: 6_850, y };
    let to = Spot {
        x: 7_090,
        y: y + 110,
    };
    picture.cell(from, 240, 110, shade(map, key.number))?;
    picture.frame(from, to, GROUP)?;
    draw_mark(picture, map, key.number, 6_850, 7_090, y + 55)?;
    picture.words(
        Spot {
            x: 7_150,
            y: y + 95,
        },
        plain(Anchor::Start),
        key.label.as_str(),
    )
}

fn draw_keys(
    picture: &mut Picture,
    map: &CellMap,
    layout: Layout,
    keys: &[ShadeKey],
) -> Result<(), AllocError>
    requires { IsFit layout }
    ensures { OnOk result (picture.new ≡ picture.old ++ each (key_drawn map.now layout) keys.now) }
{
    for (at, key) in keys.iter().enumerate() {
        draw_key(picture, map, layout, at, key)?;
    }
    Ok(())
}

/// Where the lines of text begin.
fn notes_at(map: &CellMap, layout: Layout) -> u32
    requires { IsFit layout }
    ensures place { result ≡ notes_at map.now layout }
    ensures most { result ≤ 401000 }
{
    let below = layout.below + 760;
    let keys = layout.cells + 140 * few(map.key.as_slice().len()) + 140;
    below.max(keys)
}

/// All parts, in the order in which they lie over one another.
fn draw_parts(
    alloc: Global,
    picture: &mut Picture,
    map: &CellMap,
    layout: Layout,
) -> Result<(), AllocError>
    requires { IsFit layout }
    ensures { OnOk result (picture.new ≡ picture.old ++ map_elements map.now layout) }
{
    picture.words(Spot { x: 200, y: 250 }, TITLE, map.title.as_str())?;
    draw_cells(alloc, picture, map, layout)?;
    draw_crossings(picture, layout, map.crossings.as_slice())?;
    draw_levels(alloc, picture, map, layout)?;
    draw_strokes(picture, map, layout)?;
    draw_columns(picture, map, layout)?;
    draw_keys(picture, map, layout, map.key.as_slice())?;
    draw_notes(picture, map.notes.as_slice(), notes_at(map, layout))
}

/// The picture as an SVG document.
///
/// # Errors
///
/// Where a growth was refused. What was taken is given back.
#[tactic(auto, unfolding(crate::specs::CellMaps::map_text))]
pub fn draw_map(alloc: Global, map: &CellMap) -> Result<String, AllocError>
    ensures { IfOk result (λ text. string_bytes text ≡ map_text map.now) }
{
    let layout = layout_of(map);
    let mut picture = Picture::new(alloc);
    draw_parts(alloc, &mut picture, map, layout)?;
    let height = notes_at(map, layout) / 10 + 17 * few(map.notes.as_slice().len());
    picture.draw(WIDTH, height as u16, map.title.as_str())
}
