//! Tree saturation as a picture.
ghost use Rattle.std.specs.Prelude.{◌≡◌, ◌<◌, ◌≤◌, ◌+◌, ◌-◌, ◌*◌, ◌++◌, IfOk, IsOkUnless, OnOk, map, string_bytes};
ghost use Rattle.omega_net.specs.Numbers.{lines};
ghost use Rattle.svg_plots.specs.Lists.{each_from};
ghost use Rattle.lab_tasks.specs.DrawnMaps.{IsMapDrawn, IsMapOf};
ghost use Rattle.lab_tasks.specs.MapPictures.{caption, cell_words, column_note, column_notes, combining_notes, crossing_of, first_column, group_of, key_of, keys_of, level_note, map_title, net_letter, net_words, notes_of, place_words, places_note, row_of, switch_label, tick_at, ticks_of, IsShown};

use crate::check::{CombPlaces, LowPlaces, OtherPlaces, add_switches};
use crate::columns::{any_columns, cycles_a_column, greatest_columns};
use crate::end::End;
use crate::map_rows::{Over, Way};
use crate::plan::MapPlan;
use crate::row_map::row_map;
use experiments::{QueueLengths, StageLengths, Window, saturation_map};
use omega_net::Net;
use project_book::{Depths, Project};
use std::alloc::{AllocError, Global};
use svg_plots::{
    CellGroup, CellMap, CellRow, CellRows, Cells, Crossing, Label, ShadeKey, Tick, draw_map,
    tick_step,
};

/// The letter of a network in the names of its switches.
fn net_letter(net: Net) -> &'static str
    ensures { result.now ≡ net_letter net }
{
    match net {
        Net::Low => "l",
        Net::Comb => "c",
    }
}

/// A switch as the workbench names it, by a line of its outputs.
fn switch_label(alloc: Global, net: Net, stage: u32, line: u32) -> Result<Label, AllocError>
    ensures { IfOk result (λ label. label ≡ switch_label net stage line) }
{
    let letter = net_letter(net);
    let switch = line / 2;
    let text = format!(in alloc; "{letter}{stage}.{switch}")?;
    Ok(Label::from_string(text))
}

/// The row of a queue.
fn row_of(
    alloc: Global,
    plan: MapPlan,
    stage: u32,
    queue: &QueueLengths,
) -> Result<CellRow, AllocError>
    requires window { plan.window.from ≤ plan.window.to }
    requires short { plan.window.to < 1000000 }
    ensures { IfOk result (λ row. row ≡ row_of plan stage queue.now) }
{
    let label = switch_label(alloc, plan.net, stage, queue.line)?;
    let cells = greatest_columns(alloc, plan.window, queue.lengths.as_slice())?;
    Ok(CellRow {
        label,
        cells: Cells::from_vec(cells),
    })
}

/// The rows of a stage's queues.
fn rows_of(
    alloc: Global,
    plan: MapPlan,
    stage: u32,
    queues: &[QueueLengths],
) -> Result<Vec<CellRow>, AllocError>
    requires window { plan.window.from ≤ plan.window.to }
    requires short { plan.window.to < 1000000 }
    ensures { IfOk result (λ v. v.items ≡ map (row_of plan stage) queues.now) }
{
    let mut rows = Vec::new(alloc);
    for queue in queues {
        rows.push(row_of(alloc, plan, stage, queue)?)?;
    }
    Ok(rows)
}

/// The rows of a stage, with their label.
fn group_of(alloc: Global, plan: MapPlan, stage: &StageLengths) -> Result<CellGroup, AllocError>
    requires window { plan.window.from ≤ plan.window.to }
    requires short { plan.window.to < 1000000 }
    ensures { IfOk result (λ group. group ≡ group_of plan stage.now) }
{
    let number = stage.stage;
    let text = format!(in alloc; "stage {number}")?;
    let rows = rows_of(alloc, plan, number, stage.queues.as_slice())?;
    Ok(CellGroup {
        label: Label::from_string(text),
        rows: CellRows::from_vec(rows),
    })
}

fn groups_of(
    alloc: Global,
    plan: MapPlan,
    stages: &[StageLengths],
) -> Result<Vec<CellGroup>, AllocError>
    requires window { plan.window.from ≤ plan.window.to }
    requires short { plan.window.to < 1000000 }
    ensures { IfOk result (λ v. v.items ≡ map (group_of plan) stages.now) }
{
    let mut groups = Vec::new(alloc);
    for stage in stages {
        groups.push(group_of(alloc, plan, stage)?)?;
    }
    Ok(groups)
}

/// Where a cycle is that isn't in a window.
fn place_words(window: Window, cycle: u32) -> &'static str
    ensures { result.now ≡ place_words window cycle }
{
    if cycle < window.from {
        ", before this picture"
    } else if window.to < cycle {
        ", after this picture"
    } else {
        ""
    }
}

/// The column of a cycle that is in a window.
fn first_column(window: Window, cycle: u32) -> Option<u32>
    requires window { window.from ≤ window.to }
    requires short { window.to < 1000000 }
    ensures { result ≡ first_column window cycle }
{
    if cycle < window.from || window.to < cycle {
        return None;
    }
    Some((cycle - window.from) / cycles_a_column(window))
}

/// Adds the crossing of a level that is reached.
fn add_crossing(
    alloc: Global,
    crossings: &mut Vec<Crossing>,
    window: Window,
    level: usize,
    first: Option<u32>,
) -> Result<(), AllocError>
    requires window { window.from ≤ window.to }
    requires short { window.to < 1000000 }
    ensures { OnOk result (crossings.new.items ≡ crossings.old.items ++ crossing_of window level first) }
{
    let Some(cycle) = first else {
        return Ok(());
    };
    let place = place_words(window, cycle);
    let text = format!(in alloc; "level {level}: cycle {cycle}{place}")?;
    crossings.push(Crossing {
        column: first_column(window, cycle),
        label: Label::from_string(text),
    })?;
    Ok(())
}

/// The crossings of the levels that are reached, by their first cycles in the run.
fn crossings_of(
    alloc: Global,
    window: Window,
    firsts: &[Option<u32>],
) -> Result<Vec<Crossing>, AllocError>
    requires window { window.from ≤ window.to }
    requires short { window.to < 1000000 }
    ensures { IfOk result (λ v. v.items ≡ each_from (crossing_of window) 1 firsts.now) }
{
    let mut crossings = Vec::new(alloc);
    for (at, first) in firsts.iter().enumerate() {
        add_crossing(alloc, &mut crossings, window, 1 + at, *first)?;
    }
    Ok(crossings)
}

/// Adds the number of a cycle that is in the window.
fn add_tick(ticks: &mut Vec<Tick>, window: Window, step: u32, place: u32) -> Result<(), AllocError>
    requires window { window.from ≤ window.to }
    requires short { window.to < 1000000 }
    requires few { place < 9 }
    ensures { OnOk result (ticks.new.items ≡ ticks.old.items ++ tick_at window step place) }
{
    let behind = u64::from(place) * u64::from(step);
    if behind > u64::from(window.to - window.from) {
        return Ok(());
    }
    let behind = behind as u32;
    ticks.push(Tick {
        value: behind / cycles_a_column(window),
        number: window.from + behind,
    })?;
    Ok(())
}

/// The numbers of cycles.
#[tactic(auto, using(crate::proofs::Listing::flat_next))]
pub(crate) fn ticks_of(alloc: Global, window: Window) -> Result<Vec<Tick>, AllocError>
    requires window { window.from ≤ window.to }
    requires short { window.to < 1000000 }
    ensures { IfOk result (λ v. v.items ≡ ticks_of window) }
{
    let step = tick_step(window.to - window.from, 8);
    let mut ticks = Vec::new(alloc);
    for place in 0..9u32 {
        add_tick(&mut ticks, window, step, place)?;
    }
    Ok(ticks)
}

pub(crate) fn key_of(alloc: Global, marked: u8, number: u8) -> Result<ShadeKey, AllocError>
    ensures { IfOk result (λ key. key ≡ key_of marked number) }
{
    let text = if number >= marked {
        format!(in alloc; "{number} full")?
    } else {
        format!(in alloc; "{number}")?
    };
    Ok(ShadeKey {
        number,
        label: Label::from_string(text),
    })
}

/// The lengths that a queue can have, where there is one.
pub(crate) fn keys_of(alloc: Global, k: u32, most: u8) -> Result<Vec<ShadeKey>, AllocError>
    requires { most < 255 }
    ensures { IfOk result (λ v. v.items ≡ keys_of k most) }
{
    let mut keys = Vec::new(alloc);
    if k == 0 {
        return Ok(keys);
    }
    for number in 0..most + 1 {
        keys.push(key_of(alloc, most.saturating_sub(1), number)?)?;
    }
    Ok(keys)
}

pub(crate) fn net_words(net: Net) -> &'static str
    ensures { result.now ≡ net_words net }
{
    match net {
        Net::Low => "low",
        Net::Comb => "combining",
    }
}

fn title_of(alloc: Global, plan: MapPlan) -> Result<Label, AllocError>
    ensures { IfOk result (λ label. label ≡ map_title plan) }
{
    let module = plan.module;
    let net = net_words(plan.net);
    let text = format!(in alloc;
        "Tree saturation: the queues towards module {module}, {net} network"
    )?;
    Ok(Label::from_string(text))
}

/// The last part of a path.
fn base_name(path: &str) -> &str {
    path.rsplit('/').next().unwrap_or(path)
}

/// How many characters of a file's name there is room for.
const NAME_LENGTH: usize = 40;

/// The name of a file, cut where it is long.
pub(crate) fn short_name(alloc: Global, path: &str) -> Result<String, AllocError> {
    let name = base_name(path);
    let mut short = String::new(alloc);
    for (place, character) in name.chars().enumerate() {
        if place == NAME_LENGTH {
            short.push_str("..")?;
            return Ok(short);
        }
        short.push(character)?;
    }
    Ok(short)
}

/// What the cells are, where there are any.
fn cell_words(k: u32) -> &'static str
    ensures { result.now ≡ cell_words k }
{
    if k == 0 {
        ""
    } else {
        " A row is a switch's queue, a cell how many requests it holds."
    }
}

fn caption(alloc: Global, name: &str, k: u32, window: Window) -> Result<Label, AllocError>
    ensures { IfOk result (λ label. label ≡ caption name.now k window) }
{
    let (from, to) = (window.from, window.to);
    let cells = cell_words(k);
    let text = format!(in alloc; "{name}, cycles {from} to {to}.{cells}")?;
    Ok(Label::from_string(text))
}

pub(crate) fn places_note(alloc: Global, project: &Project, net: Net) -> Result<Label, AllocError>
    ensures { IfOk result (λ label. label ≡ places_note project.now net) }
{
    let window = project.window();
    let others = OtherPlaces(project);
    let text = match net {
        Net::Low => {
            let places = LowPlaces(project);
            format!(in alloc;
                "Places: {places}, {others}; at most {window} references unanswered."
            )?
        }
        Net::Comb => {
            let places = CombPlaces(project);
            format!(in alloc;
                "Places: {places}, {others}; at most {window} references unanswered."
            )?
        }
    };
    Ok(Label::from_string(text))
}

/// Adds which stages combine, where the network is the combining one.
pub(crate) fn add_combining_note(
    alloc: Global,
    notes: &mut Vec<Label>,
    project: &Project,
    net: Net,
) -> Result<(), AllocError>
    ensures { OnOk result (notes.new.items ≡ notes.old.items ++ combining_notes project.now net) }
{
    match net {
        Net::Low => Ok(()),
        Net::Comb => {
            let mut text = String::from_str(alloc, "Combining, from the first stage on:")?;
            add_switches(&mut text, project)?;
            notes.push(Label::from_string(text))?;
            Ok(())
        }
    }
}

fn level_note(k: u32) -> &'static str
    ensures { result.now ≡ level_note k }
{
    if k == 0 {
        "With one processor there are no switches: no queue to draw, and no level."
    } else {
        "Level: how many stages, from the last one back, have only full queues: fewer than two places free."
    }
}

fn column_note(alloc: Global, each: u32) -> Result<Label, AllocError>
    ensures { IfOk result (λ label. label ≡ column_note each) }
{
    let text = format!(in alloc;
        "A column is {each} cycles: the longest that a queue was in them, the highest level, and whether a request was served."
    )?;
    Ok(Label::from_string(text))
}

/// Adds what a column is of, where that is more than one cycle.
fn add_column_note(alloc: Global, notes: &mut Vec<Label>, each: u32) -> Result<(), AllocError>
    ensures { OnOk result (notes.new.items ≡ notes.old.items ++ column_notes each) }
{
    if each > 1 {
        notes.push(column_note(alloc, each)?)?;
    }
    Ok(())
}

/// The lines below the map of a file of this name.
fn notes_of(
    alloc: Global,
    name: &str,
    project: &Project,
    plan: MapPlan,
) -> Result<Vec<Label>, AllocError>
    requires window { plan.window.from ≤ plan.window.to }
    requires short { plan.window.to < 1000000 }
    ensures { IfOk result (λ v. v.items ≡ notes_of project.now plan name.now) }
{
    let mut notes = Vec::new(alloc);
    notes.push(caption(alloc, name, project.k(), plan.window)?)?;
    notes.push(places_note(alloc, project, plan.net)?)?;
    add_combining_note(alloc, &mut notes, project, plan.net)?;
    notes.push(Label::new(alloc, level_note(project.k()))?)?;
    add_column_note(alloc, &mut notes, cycles_a_column(plan.window))?;
    Ok(notes)
}

/// What the picture of tree saturation shows of a project's run, whose file has this name.
fn cell_map<'a>(
    alloc: Global,
    file: &str,
    project: &Project,
    plan: MapPlan,
) -> Result<CellMap, End<'a>>
    requires there { plan.«module» < lines project.now.k }
    requires window { plan.window.from ≤ plan.window.to }
    requires within { plan.window.to ≤ project.now.horizon }
    ensures shown { IfOk result (IsShown project.now plan) }
    ensures memory { IsOkUnless result End.Memory }
{
    project.is_project();
    let map = saturation_map(alloc, project, plan.net, plan.module, plan.window)?;
    let most = project.depth(Depths::forward(plan.net)) as u8;
    let name = short_name(alloc, file)?;
    Ok(CellMap {
        title: title_of(alloc, plan)?,
        across: "cycle",
        ticks: ticks_of(alloc, plan.window)?,
        groups: groups_of(alloc, plan, map.stages.as_slice())?,
        middle: 0,
        most,
        marked: most.saturating_sub(1),
        key: keys_of(alloc, project.k(), most)?,
        crossings: crossings_of(alloc, plan.window, map.firsts.as_slice())?,
        levels: greatest_columns(alloc, plan.window, map.levels.as_slice())?,
        level_title: "level",
        highest: project.k() as u8,
        strokes: any_columns(alloc, plan.window, map.served.as_slice())?,
        stroke_title: "served",
        notes: notes_of(alloc, name.as_str(), project, plan)?,
    })
}

/// What the picture of a project's run shows, whose file has this name.
fn map_of<'a>(
    alloc: Global,
    file: &str,
    project: &Project,
    plan: MapPlan,
) -> Result<CellMap, End<'a>>
    requires there { plan.«module» < lines project.now.k }
    requires window { plan.window.from ≤ plan.window.to }
    requires within { plan.window.to ≤ project.now.horizon }
    ensures shown { IfOk result (IsMapOf plan.way plan.over project.now plan) }
    ensures memory { IsOkUnless result End.Memory }
{
    match (plan.way, plan.over) {
        (Way::Forward, Over::Tree) => cell_map(alloc, file, project, plan),
        (Way::Reverse, Over::Tree) | (_, Over::Modules) => row_map(alloc, file, project, plan),
    }
}

/// The picture of a project's run, whose file has this name.
pub(crate) fn map_picture<'a>(
    alloc: Global,
    file: &str,
    project: &Project,
    plan: MapPlan,
) -> Result<String, End<'a>>
    requires there { plan.«module» < lines project.now.k }
    requires window { plan.window.from ≤ plan.window.to }
    requires within { plan.window.to ≤ project.now.horizon }
    ensures drawn { IfOk result (λ text. IsMapDrawn project.now plan (string_bytes text)) }
    ensures memory { IsOkUnless result End.Memory }
{
    let map = map_of(alloc, file, project, plan)?;
    Ok(draw_map(alloc, &map)?)
}
