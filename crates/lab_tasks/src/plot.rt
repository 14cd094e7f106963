//! The picture of a sweep: columns of its table against another one.
ghost use Rattle.std.specs.Prelude.{◌≡◌, ◌+◌, ◌*◌, ◌/◌, ◌%◌, ◌<◌, ◌≤◌, ◌++◌, ◌∷◌, [], IfErr, IfOk, OnOk, codes, decimal, fold, length, map, position, slice_index_or, string_bytes};
ghost use Rattle.std.specs.List.{flat_map, AllZip};
ghost use Rattle.line_words.specs.Numbers.{number_of};
ghost use Rattle.lab_tasks.specs.Grids.{names_of, rows_of};
ghost use Rattle.lab_tasks.specs.PlotPictures.{across_column, across_most, across_top, axis_fine, cell_number, column_fine, column_of, hundredths_in, in_hundredths, is_fine, part_of, plot_curve, plot_curves, plot_note, plot_tick, plot_ticks, plot_title, row_spot, scaled, unit_of, up_most, up_title, up_top, AreNoColumns, IsColumn, IsNoColumn, IsNoPlot, IsPanelDrawn, IsPlot, IsPlotPanel, IsPlotPicture, IsScaledPicture};
ghost use Rattle.lab_tasks.specs.SweepTables.{OrMemory};
ghost use Rattle.lab_tasks.specs.Words.{text_of};

use crate::end::{End, Reason};
use crate::grid::{Grid, Row};
use crate::numbers::parts_at;
use line_words::number;
use std::alloc::{AllocError, Global};
use svg_plots::{
    Axis, Curve, Curves, Label, Panel, Points, Tick, Whiskers, draw_curves, labels_of, mark_of,
    stroke_of, tick_step,
};

/// The column that a word names.
fn column_named(names: &Row, word: &str) -> Option<usize>
    ensures { result ≡ column_of names.now word.now }
{
    names
        .as_slice()
        .iter()
        .position(|name| name.as_str() == word)
}

/// The column that a word at an option has to name.
fn column_in<'a>(option: &'static str, names: &Row, word: &'a str) -> Result<usize, End<'a>>
    ensures column { IfOk result (IsColumn names.now word.entry.now) }
    ensures refused { IfErr result (IsNoColumn option.now names.now word.entry.now) }
{
    match column_named(names, word) {
        Some(column) => Ok(column),
        None => Err(End::Word {
            option,
            word,
            reason: Reason::Form("a column of the table"),
        }),
    }
}

/// The columns that the words at `--y` have to name, in turn.
fn columns_in<'a>(alloc: Global, names: &Row, words: &[&'a str]) -> Result<Vec<usize>, End<'a>>
    ensures columns { IfOk result (λ all. AllZip (IsColumn names.now) (map (λ word. word.now) words.entry.now) all.items) }
    ensures refused { IfErr result (OrMemory (AreNoColumns names.now (map (λ word. word.now) words.entry.now))) }
{
    let mut all = Vec::new(alloc);
    for word in words {
        match column_in("--y", names, word) {
            Ok(column) => all.push(column)?,
            Err(end) => return Err(end),
        }
    }
    Ok(all)
}

/// What stands in a column of a row.
fn cell_at(row: &Row, column: usize) -> &str
    ensures { result.now ≡ slice_index_or row.now column [] }
{
    match row.as_slice().get(column) {
        Some(cell) => cell.as_str(),
        None => "",
    }
}

/// A column that is drawn, in whole numbers or in hundredths.
#[derive(Clone, Copy)]
struct Column {
    place: usize,
    fine: bool,
}

/// The hundredths of a number with this part behind its point.
fn in_hundredths(whole: Option<u32>, part: Option<u32>) -> Option<u32>
    ensures { result ≡ in_hundredths whole part }
{
    let (whole, part) = (whole?, part?);
    let hundredths = u64::from(whole) * 100 + u64::from(part);
    if hundredths <= u64::from(u32::MAX) {
        Some(hundredths as u32)
    } else {
        None
    }
}

/// The two digits behind a point.
fn part_of(digits: &[u8]) -> Option<u32>
    ensures { result ≡ part_of digits.now }
{
    if digits.len() == 2 {
        number(digits)
    } else {
        None
    }
}

/// The hundredths of a number that a text is.
fn hundredths_in(text: &[u8]) -> Option<u32>
    ensures { result ≡ hundredths_in text.now }
{
    match parts_at(text, b'.') {
        Some((whole, part)) => in_hundredths(number(whole), part_of(part)),
        None => in_hundredths(number(text), Some(0)),
    }
}

/// Whether a text is a number, but no whole one.
fn is_fine(text: &[u8]) -> bool
    ensures { result ≡ is_fine text.now }
{
    number(text).is_none() && hundredths_in(text).is_some()
}

/// Whether a column has such a number.
fn column_fine(rows: &[Row], column: usize) -> bool
    ensures { result ≡ column_fine rows.now column }
{
    rows.iter()
        .any(|row| is_fine(cell_at(row, column).as_bytes()))
}

/// Whether one of some columns has.
fn axis_fine(rows: &[Row], columns: &[usize]) -> bool
    ensures { result ≡ axis_fine rows.now columns.now }
{
    columns.iter().any(|column| column_fine(rows, *column))
}

/// The number that a text is, in hundredths or whole.
fn scaled(fine: bool, text: &[u8]) -> Option<u32>
    ensures { result ≡ scaled fine text.now }
{
    if fine {
        hundredths_in(text)
    } else {
        number(text)
    }
}

/// How many of what is drawn are 1.
fn unit_of(fine: bool) -> u32
    ensures unit { result ≡ unit_of fine }
    ensures some { 1 ≤ result }
    ensures few { result ≤ 100 }
{
    if fine { 100 } else { 1 }
}

/// The number in a column of a row.
fn number_at(row: &Row, column: Column) -> Option<u32>
    ensures { result ≡ cell_number column row.now }
{
    scaled(column.fine, cell_at(row, column.place).as_bytes())
}

/// Adds the point of a row, where it has both numbers.
fn add_spot(spots: &mut Vec<(u32, u32)>, row: &Row, x: Column, y: Column) -> Result<(), AllocError>
    ensures { OnOk result (spots.new.items ≡ spots.old.items ++ row_spot x y row.now) }
{
    let Some(across) = number_at(row, x) else {
        return Ok(());
    };
    let Some(up) = number_at(row, y) else {
        return Ok(());
    };
    spots.push((across, up))?;
    Ok(())
}

/// The points of all rows.
fn spots_of(
    alloc: Global,
    rows: &[Row],
    x: Column,
    y: Column,
) -> Result<Vec<(u32, u32)>, AllocError>
    ensures { IfOk result (λ v. v.items ≡ flat_map (row_spot x y) rows.now) }
{
    let mut spots = Vec::new(alloc);
    for row in rows {
        add_spot(&mut spots, row, x, y)?;
    }
    Ok(spots)
}

/// The curve of a column, by its place among them.
fn plot_curve(
    alloc: Global,
    names: &Row,
    rows: &[Row],
    x: Column,
    place: usize,
    y: Column,
) -> Result<Curve, AllocError>
    ensures { IfOk result (λ curve. curve ≡ plot_curve names.now rows.now x place y) }
{
    let label = Label::new(alloc, cell_at(names, y.place))?;
    let spots = spots_of(alloc, rows, x, y)?;
    Ok(Curve {
        label,
        points: Points::from_vec(spots),
        whiskers: Whiskers::from_vec(Vec::new(alloc)),
        stroke: stroke_of(place, 18, false),
        mark: Some(mark_of(place % 7 + place / 7)),
    })
}

/// The curves of some columns.
fn plot_curves(
    alloc: Global,
    names: &Row,
    rows: &[Row],
    x: Column,
    fine: bool,
    ys: &[usize],
) -> Result<Vec<Curve>, AllocError>
    ensures { IfOk result (λ v. v.items ≡ plot_curves names.now rows.now x fine ys.now) }
{
    let mut curves = Vec::new(alloc);
    for (place, y) in ys.iter().enumerate() {
        let y = Column { place: *y, fine };
        let curve = plot_curve(alloc, names, rows, x, place, y)?;
        curves.push(curve)?;
    }
    Ok(curves)
}

/// The greatest number across of a curve and of those before it.
fn across_most(most: u32, curve: &Curve) -> u32
    ensures { result ≡ across_most most curve.now }
{
    let points = curve.points.as_slice();
    let mut most = most;
    for point in points {
        most = most.max(point.0);
    }
    most
}

/// The greatest number up.
fn up_most(most: u32, curve: &Curve) -> u32
    ensures { result ≡ up_most most curve.now }
{
    let points = curve.points.as_slice();
    let mut most = most;
    for point in points {
        most = most.max(point.1);
    }
    most
}

fn across_top(curves: &[Curve]) -> u32
    ensures { result ≡ across_top curves.now }
{
    let mut most: u32 = 1;
    for curve in curves {
        most = across_most(most, curve);
    }
    most
}

fn up_top(curves: &[Curve]) -> u32
    ensures { result ≡ up_top curves.now }
{
    let mut most: u32 = 1;
    for curve in curves {
        most = up_most(most, curve);
    }
    most
}

/// Adds a tick that is within the top.
fn add_tick(
    ticks: &mut Vec<Tick>,
    unit: u32,
    top: u32,
    step: u32,
    place: u32,
) -> Result<(), AllocError>
    requires place { place < 9 }
    requires some { 1 ≤ unit }
    requires few { unit ≤ 100 }
    ensures { OnOk result (ticks.new.items ≡ ticks.old.items ++ plot_tick unit top step place) }
{
    let number = u64::from(place) * u64::from(step);
    let value = number * u64::from(unit);
    if value > u64::from(top) {
        return Ok(());
    }
    ticks.push(Tick {
        value: value as u32,
        number: number as u32,
    })?;
    Ok(())
}

/// Ticks from 0 up to the top.
#[tactic(auto, using(crate::proofs::Listing::flat_next))]
fn plot_ticks(alloc: Global, fine: bool, top: u32) -> Result<Vec<Tick>, AllocError>
    ensures { IfOk result (λ v. v.items ≡ plot_ticks fine top) }
{
    let unit = unit_of(fine);
    let step = tick_step(top / unit, 8);
    let mut ticks = Vec::new(alloc);
    for place in 0..9u32 {
        add_tick(&mut ticks, unit, top, step, place)?;
    }
    Ok(ticks)
}

/// The name beside the axis: that of the only curve.
fn up_title<'a>(names: &'a Row, ys: &[usize]) -> &'a str
    ensures { result.now ≡ up_title names.now ys.now }
{
    match ys {
        [y] => cell_at(names, *y),
        _ => "",
    }
}

/// The panel, up to these numbers.
fn plot_panel<'a>(
    names: &'a Row,
    x: Column,
    fine: bool,
    ys: &[usize],
    curves: Vec<Curve>,
    across: &'a [Tick],
    up: &'a [Tick],
) -> Panel<'a>
    requires across { across.now ≡ plot_ticks x.fine (across_top curves.items) }
    requires up { up.now ≡ plot_ticks fine (up_top curves.items) }
    ensures { IsPlotPanel names.now x fine ys.now curves.items result }
{
    let (far, high) = (across_top(curves.as_slice()), up_top(curves.as_slice()));
    Panel {
        title: "",
        across: Axis {
            title: cell_at(names, x.place),
            from: 0,
            to: far,
            ticks: across,
        },
        up: Axis {
            title: up_title(names, ys),
            from: 0,
            to: high,
            ticks: up,
        },
        curves,
    }
}

fn title_of(alloc: Global, file: &str) -> Result<String, AllocError>
    ensures { IfOk result (λ text. string_bytes text ≡ plot_title file.now) }
{
    format!(in alloc; "Sweep of {file}")
}

/// The line below.
fn note_of(alloc: Global, rows: &[Row]) -> Result<String, AllocError>
    ensures { IfOk result (λ text. string_bytes text ≡ plot_note rows.now) }
{
    let count = rows.len();
    format!(in alloc; "{count} rows; a point is one that has both numbers.")
}

/// The document of a panel.
fn panel_drawn(
    alloc: Global,
    title: &str,
    panel: Panel<'_>,
    note: &str,
) -> Result<String, AllocError>
    ensures { IfOk result (λ text. IsPanelDrawn title.now panel.entry note.now (string_bytes text)) }
{
    let notes = labels_of(alloc, &[note])?;
    let mut panels = Vec::new(alloc);
    panels.push(panel)?;
    let drawn = Curves {
        title,
        panels: panels.as_slice(),
        legend_columns: 1,
    };
    draw_curves(alloc, &drawn, notes.as_slice())
}

/// The picture of some columns, each axis in whole numbers or in hundredths.
fn scaled_picture(
    alloc: Global,
    file: &str,
    table: &Grid,
    x: Column,
    fine: bool,
    ys: &[usize],
) -> Result<String, AllocError>
    ensures { IfOk result (λ text. IsScaledPicture file.now table.now x fine ys.now (string_bytes text)) }
{
    let (names, rows) = (table.names(), table.rows());
    let curves = plot_curves(alloc, names, rows, x, fine, ys)?;
    let across = plot_ticks(alloc, x.fine, across_top(curves.as_slice()))?;
    let up = plot_ticks(alloc, fine, up_top(curves.as_slice()))?;
    let title = title_of(alloc, file)?;
    let note = note_of(alloc, rows)?;
    let panel = plot_panel(names, x, fine, ys, curves, across.as_slice(), up.as_slice());
    panel_drawn(alloc, title.as_str(), panel, note.as_str())
}

/// The column across.
fn across_column(rows: &[Row], x: usize) -> Column
    ensures { result ≡ across_column rows.now x }
{
    Column {
        place: x,
        fine: axis_fine(rows, [x].as_slice()),
    }
}

/// The picture of some columns.
fn plot_picture(
    alloc: Global,
    file: &str,
    table: &Grid,
    x: usize,
    ys: &[usize],
) -> Result<String, AllocError>
    ensures { IfOk result (λ text. IsPlotPicture file.now table.now x ys.now (string_bytes text)) }
{
    let rows = table.rows();
    let x = across_column(rows, x);
    scaled_picture(alloc, file, table, x, axis_fine(rows, ys), ys)
}

/// The picture of the columns that the words at `--x` and `--y` name, for the file at `--plot`.
#[tactic(auto, using(crate::proofs::Stops::or_memory_by))]
pub(crate) fn plotted<'a>(
    alloc: Global,
    file: &str,
    plot: &'a str,
    x: Option<&'a str>,
    ys: &[&'a str],
    table: &Grid,
) -> Result<String, End<'a>>
    ensures done { IfOk result (λ text. IsPlot file.now table.now (text_of x.entry) (map (λ word. word.now) ys.entry.now) (string_bytes text)) }
    ensures refused { IfErr result (OrMemory (IsNoPlot (names_of table.now) plot.entry.now (text_of x.entry) (map (λ word. word.now) ys.entry.now))) }
{
    let bare = End::Word {
        option: "--plot",
        word: plot,
        reason: Reason::Form("given with --x and --y"),
    };
    let Some(x) = x else {
        return Err(bare);
    };
    if ys.is_empty() {
        return Err(bare);
    }
    let across = match column_in("--x", table.names(), x) {
        Ok(column) => column,
        Err(end) => return Err(end),
    };
    let columns = match columns_in(alloc, table.names(), ys) {
        Ok(columns) => columns,
        Err(end) => return Err(end),
    };
    Ok(plot_picture(alloc, file, table, across, columns.as_slice())?)
}
