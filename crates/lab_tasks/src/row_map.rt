//! Replies on their way, and the queues of modules, as a picture.
ghost use Rattle.std.specs.Prelude.{◌≡◌, ◌<◌, ◌≤◌, ◌-◌, ◌++◌, IfOk, IsOkUnless, OnOk, map, string_bytes};
ghost use Rattle.omega_net.specs.Numbers.{lines};
ghost use Rattle.lab_tasks.specs.declared.map_rows.Over.TheVariants.{Modules};
ghost use Rattle.lab_tasks.specs.MapRows.{cell_group, row_groups};
ghost use Rattle.lab_tasks.specs.RowMaps.{depths_of, full_at, queue_words, row_caption, row_cells, row_column_note, row_column_notes, row_keys, row_notes, row_strokes, row_title, row_words, rows_note, stroke_words, IsRowMap};

use crate::columns::{any_columns, cycles_a_column};
use crate::end::End;
use crate::map::{
    add_combining_note, key_of, keys_of, net_words, places_note, short_name, ticks_of,
};
use crate::map_rows::{Over, Way, queues_in, row_groups};
use crate::plan::MapPlan;
use crate::row_cells::{cells_of, groups_with, no_levels};
use experiments::saturation_map;
use grid_law::NoMemory;
use omega_net::Net;
use project_book::{Depths, Project};
use run_reports::{Window, lengths_over};
use std::alloc::{AllocError, Global};
use svg_plots::{CellGroup, CellMap, Label, ShadeKey};

/// Which depth the queues have.
pub(crate) fn depths_of(net: Net, way: Way, over: Over) -> Depths
    ensures { result ≡ depths_of net way over }
{
    match (way, over, net) {
        (_, Over::Modules, _) => Depths::ModuleQueue,
        (Way::Forward, Over::Tree, net) => Depths::forward(net),
        (Way::Reverse, Over::Tree, Net::Low) => Depths::LowReverse,
        (Way::Reverse, Over::Tree, Net::Comb) => Depths::CombReverse,
    }
}

/// The least length at which they are full.
fn full_at(over: Over, depth: u8) -> u8
    ensures { result ≡ full_at over depth }
{
    match over {
        Over::Tree => depth.saturating_sub(1),
        Over::Modules => depth,
    }
}

/// The lengths that the queues of modules can have.
fn module_keys(alloc: Global, depth: u8) -> Result<Vec<ShadeKey>, AllocError>
    requires { depth < 255 }
    ensures { IfOk result (λ v. v.items ≡ row_keys 0 Modules depth) }
{
    let mut keys = Vec::new(alloc);
    for number in 0..depth + 1 {
        keys.push(key_of(alloc, depth, number)?)?;
    }
    Ok(keys)
}

fn row_keys(alloc: Global, k: u32, over: Over, depth: u8) -> Result<Vec<ShadeKey>, AllocError>
    requires { depth < 255 }
    ensures { IfOk result (λ v. v.items ≡ row_keys k over depth) }
{
    match over {
        Over::Tree => keys_of(alloc, k, depth),
        Over::Modules => module_keys(alloc, depth),
    }
}

/// What the queues are, in a title.
pub(crate) fn queue_words(
    alloc: Global,
    module: u32,
    way: Way,
    over: Over,
) -> Result<String, AllocError>
    ensures { IfOk result (λ text. string_bytes text ≡ queue_words «module» way over) }
{
    match (way, over) {
        (Way::Forward, Over::Tree) => format!(in alloc; "The queues towards module {module}"),
        (Way::Reverse, Over::Tree) => {
            format!(in alloc; "The way back: the queues for replies from module {module}")
        }
        (Way::Forward, Over::Modules) => {
            String::from_str(alloc, "The queues in which requests wait at modules")
        }
        (Way::Reverse, Over::Modules) => {
            String::from_str(alloc, "The queues in which replies wait at modules")
        }
    }
}

pub(crate) fn title_of(alloc: Global, plan: MapPlan) -> Result<Label, AllocError>
    ensures { IfOk result (λ label. label ≡ row_title plan) }
{
    let queues = queue_words(alloc, plan.module, plan.way, plan.over)?;
    let net = net_words(plan.net);
    Ok(Label::from_string(format!(in alloc; "{queues}, {net} network")?))
}

/// What the cells are, where there are any.
fn row_words(k: u32, way: Way, over: Over) -> &'static str
    ensures { result.now ≡ row_words k way over }
{
    match (way, over) {
        (Way::Forward, Over::Modules) => {
            " A row is a module's queue, a cell how many requests it holds."
        }
        (Way::Reverse, Over::Modules) => {
            " A row is a module's queue, a cell how many replies it holds."
        }
        (_, Over::Tree) if k == 0 => "",
        (Way::Forward, Over::Tree) => {
            " A row is a switch's queue, a cell how many requests it holds."
        }
        (Way::Reverse, Over::Tree) => {
            " A row is a switch's queue, a cell how many replies it holds."
        }
    }
}

fn caption(alloc: Global, name: &str, k: u32, plan: MapPlan) -> Result<Label, AllocError>
    ensures { IfOk result (λ label. label ≡ row_caption name.now k plan) }
{
    let (from, to) = (plan.window.from, plan.window.to);
    let cells = row_words(k, plan.way, plan.over);
    let text = format!(in alloc; "{name}, cycles {from} to {to}.{cells}")?;
    Ok(Label::from_string(text))
}

/// Which rows there are, and what is full.
fn rows_note(k: u32, way: Way, over: Over) -> &'static str
    ensures { result.now ≡ rows_note k way over }
{
    match (way, over) {
        (_, Over::Modules) => "Full: no place free.",
        (_, Over::Tree) if k == 0 => "With one processor there are no switches: no queue to draw.",
        (Way::Forward, Over::Tree) => "Full: fewer than two places free.",
        (Way::Reverse, Over::Tree) => {
            "From the module to the processors; r0, r1: by the input that replies go back over. Full: fewer than two places free."
        }
    }
}

fn column_note(alloc: Global, over: Over, each: u32) -> Result<Label, AllocError>
    ensures { IfOk result (λ label. label ≡ row_column_note over each) }
{
    let text = match over {
        Over::Tree => format!(in alloc;
            "A column is {each} cycles: the longest that a queue was in them, and whether a request was served."
        )?,
        Over::Modules => format!(in alloc;
            "A column is {each} cycles: the longest that a queue was in them."
        )?,
    };
    Ok(Label::from_string(text))
}

/// Adds what a column is of, where that is more than one cycle.
fn add_column_note(
    alloc: Global,
    notes: &mut Vec<Label>,
    over: Over,
    each: u32,
) -> Result<(), AllocError>
    ensures { OnOk result (notes.new.items ≡ notes.old.items ++ row_column_notes over each) }
{
    if each > 1 {
        notes.push(column_note(alloc, over, each)?)?;
    }
    Ok(())
}

/// The lines below the map of a file of this name.
fn notes_of(
    alloc: Global,
    name: &str,
    project: &Project,
    plan: MapPlan,
) -> Result<Vec<Label>, AllocError>
    requires window { plan.window.from ≤ plan.window.to }
    requires short { plan.window.to < 1000000 }
    ensures { IfOk result (λ v. v.items ≡ row_notes project.now plan name.now) }
{
    let k = project.k();
    let mut notes = Vec::new(alloc);
    notes.push(caption(alloc, name, k, plan)?)?;
    notes.push(places_note(alloc, project, plan.net)?)?;
    add_combining_note(alloc, &mut notes, project, plan.net)?;
    notes.push(Label::new(alloc, rows_note(k, plan.way, plan.over))?)?;
    add_column_note(alloc, &mut notes, plan.over, cycles_a_column(plan.window))?;
    Ok(notes)
}

/// The rows of the run, with their cells.
fn drawn_groups(alloc: Global, project: &Project, plan: MapPlan) -> Result<Vec<CellGroup>, NoMemory>
    requires there { plan.«module» < lines project.now.k }
    requires window { plan.window.from ≤ plan.window.to }
    requires within { plan.window.to ≤ project.now.horizon }
    ensures { IfOk result (λ v. v.items ≡ map (cell_group (row_cells project.now plan.window)) (row_groups project.now.k plan.net plan.«module» plan.way plan.over)) }
{
    project.is_project();
    let window = Window {
        from: plan.window.from,
        to: plan.window.to,
    };
    let shape = project.shape();
    let groups = row_groups(alloc, shape, plan.net, plan.module, plan.way, plan.over)?;
    let queues = queues_in(alloc, groups.as_slice())?;
    let lengths = lengths_over(alloc, project, queues.as_slice(), window)?;
    let cells = cells_of(alloc, plan.window, lengths.as_slice())?;
    let drawn = groups_with(alloc, groups.as_slice(), cells.as_slice())?;
    Ok(drawn)
}

/// A stroke where the module of a tree served a request.
fn strokes_of(alloc: Global, project: &Project, plan: MapPlan) -> Result<Vec<bool>, NoMemory>
    requires there { plan.«module» < lines project.now.k }
    requires window { plan.window.from ≤ plan.window.to }
    requires within { plan.window.to ≤ project.now.horizon }
    ensures { IfOk result (λ v. v.items ≡ row_strokes project.now plan plan.over) }
{
    project.is_project();
    match plan.over {
        Over::Modules => Ok(Vec::new(alloc)),
        Over::Tree => {
            let map = saturation_map(alloc, project, plan.net, plan.module, plan.window)?;
            Ok(any_columns(alloc, plan.window, map.served.as_slice())?)
        }
    }
}

fn stroke_words(over: Over) -> &'static str
    ensures { result.now ≡ stroke_words over }
{
    match over {
        Over::Tree => "served",
        Over::Modules => "",
    }
}

/// What the picture of a project's run shows, whose file has this name.
pub(crate) fn row_map<'a>(
    alloc: Global,
    file: &str,
    project: &Project,
    plan: MapPlan,
) -> Result<CellMap, End<'a>>
    requires there { plan.«module» < lines project.now.k }
    requires window { plan.window.from ≤ plan.window.to }
    requires within { plan.window.to ≤ project.now.horizon }
    ensures shown { IfOk result (IsRowMap project.now plan) }
    ensures memory { IsOkUnless result End.Memory }
{
    project.is_project();
    let most = project.depth(depths_of(plan.net, plan.way, plan.over)) as u8;
    let name = short_name(alloc, file)?;
    Ok(CellMap {
        title: title_of(alloc, plan)?,
        across: "cycle",
        ticks: ticks_of(alloc, plan.window)?,
        groups: drawn_groups(alloc, project, plan)?,
        middle: 0,
        most,
        marked: full_at(plan.over, most),
        key: row_keys(alloc, project.k(), plan.over, most)?,
        crossings: Vec::new(alloc),
        levels: no_levels(alloc, plan.window)?,
        level_title: "",
        highest: 0,
        strokes: strokes_of(alloc, project, plan)?,
        stroke_title: stroke_words(plan.over),
        notes: notes_of(alloc, name.as_str(), project, plan)?,
    })
}
