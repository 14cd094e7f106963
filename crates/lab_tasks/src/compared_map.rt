//! Two runs compared, as a picture.
ghost use Rattle.std.specs.Prelude.{◌≡◌, ◌<◌, ◌≤◌, ◌+◌, ◌*◌, ◌++◌, codes, IfOk, IsOkUnless, OnOk, Some, map, string_bytes};
ghost use Rattle.omega_net.specs.Numbers.{lines};
ghost use Rattle.lab_tasks.specs.ComparedMaps.{all_compared, compared_cells, compared_column_note, compared_column_notes, compared_keys, compared_key, compared_notes, compared_title, depth_drawn, greatest_note, greatest_words, key_text, names_note, own_notes, shade_note, IsComparedDrawn, IsComparedMap};
ghost use Rattle.lab_tasks.specs.MapRows.{cell_group, row_groups};

use crate::columns::cycles_a_column;
use crate::compared_rows::{all_differences, compared_cells, most_longer, most_shorter};
use crate::end::End;
use crate::map::{add_combining_note, places_note, short_name, ticks_of};
use crate::map_rows::{Over, RowGroup, queues_in, row_groups};
use crate::plan::MapPlan;
use crate::row_cells::{groups_with, no_levels};
use crate::row_map::{depths_of, title_of};
use experiments::Window as Cycles;
use grid_law::NoMemory;
use omega_net::Net;
use project_book::Project;
use run_reports::{Window, lengths_over};
use std::alloc::{AllocError, Global};
use std::fmt;
use svg_plots::{CellGroup, CellMap, Cells, Label, ShadeKey, draw_map};

/// How many places the queues have, where they have more.
fn depth_drawn(project: &Project, other: &Project, plan: MapPlan) -> u8
    ensures depth { result ≡ depth_drawn project.now other.now plan }
    ensures small { result < 100 }
{
    let queues = depths_of(plan.net, plan.way, plan.over);
    project.depth(queues).max(other.depth(queues)) as u8
}

/// A number, as how much longer the second is.
#[derive(Clone, Copy)]
struct KeyName {
    depth: u8,
    number: u8,
}

impl fmt::Display for KeyName {
    ghost output = { λ name. Some (key_text name.depth name.number) };

    fn fmt<W: fmt::Write>(&self, f: &mut fmt::Formatter<W>) -> fmt::Result {
        let KeyName { depth, number } = *self;
        if number < depth {
            write!(f, "+{}", depth - number)
        } else if depth < number {
            write!(f, "-{}", number - depth)
        } else {
            write!(f, "0")
        }
    }
}

fn key_of(alloc: Global, depth: u8, number: u8) -> Result<ShadeKey, AllocError>
    ensures { IfOk result (λ key. key ≡ compared_key depth number) }
{
    let name = KeyName { depth, number };
    let text = format!(in alloc; "{name}")?;
    Ok(ShadeKey {
        number,
        label: Label::from_string(text),
    })
}

/// All numbers, where there is a queue.
fn keys_of(alloc: Global, k: u32, over: Over, depth: u8) -> Result<Vec<ShadeKey>, AllocError>
    requires { depth < 100 }
    ensures { IfOk result (λ v. v.items ≡ compared_keys k over depth) }
{
    let mut keys = Vec::new(alloc);
    match over {
        Over::Tree if k == 0 => return Ok(keys),
        Over::Tree | Over::Modules => {}
    }
    for number in 0..2 * depth + 1 {
        keys.push(key_of(alloc, depth, number)?)?;
    }
    Ok(keys)
}

fn compared_title(alloc: Global, plan: MapPlan) -> Result<Label, AllocError>
    ensures { IfOk result (λ label. label ≡ compared_title plan) }
{
    let title = title_of(alloc, plan)?;
    let queues = title.as_str();
    Ok(Label::from_string(format!(in alloc; "B against A. {queues}")?))
}

fn names_note(alloc: Global, one: &str, other: &str, window: Cycles) -> Result<Label, AllocError>
    ensures { IfOk result (λ label. label ≡ names_note one.now other.now window) }
{
    let (from, to) = (window.from, window.to);
    let text = format!(in alloc; "A is {one}, B is {other}; cycles {from} to {to}.")?;
    Ok(Label::from_string(text))
}

const SHADE_NOTE: &str =
    "Orange with a dark line: the queue is longer in B. Blue: shorter in B. White: as long in both. The key says B less A.";

fn greatest_words(alloc: Global, longer: u8, shorter: u8) -> Result<Label, AllocError>
    ensures { IfOk result (λ label. label ≡ greatest_words longer shorter) }
{
    let text = format!(in alloc;
        "At most {longer} longer in B, and {shorter} shorter, of all rows and cycles."
    )?;
    Ok(Label::from_string(text))
}

fn greatest_note(alloc: Global, depth: u8, all: &[Cells]) -> Result<Label, AllocError>
    ensures { IfOk result (λ label. label ≡ greatest_note depth all.now) }
{
    greatest_words(alloc, most_longer(depth, all), most_shorter(depth, all))
}

/// The greatest differences of what is drawn.
fn greatest_drawn(
    alloc: Global,
    project: &Project,
    other: &Project,
    plan: MapPlan,
    numbers: &[Cells],
) -> Result<Label, AllocError>
    requires { numbers.now ≡ all_compared project.now other.now plan }
    ensures { IfOk result (λ label. label ≡ greatest_note (depth_drawn project.now other.now plan) (all_compared project.now other.now plan)) }
{
    greatest_note(alloc, depth_drawn(project, other, plan), numbers)
}

/// A line behind a letter.
fn lettered(alloc: Global, letter: &str, note: &Label) -> Result<Label, AllocError>
    ensures { IfOk result (λ label. label ≡ letter.now ++ note.now) }
{
    let words = note.as_str();
    Ok(Label::from_string(format!(in alloc; "{letter}{words}")?))
}

/// Adds these lines behind a letter.
fn add_lettered(
    alloc: Global,
    notes: &mut Vec<Label>,
    letter: &str,
    own: &[Label],
) -> Result<(), AllocError>
    ensures { OnOk result (notes.new.items ≡ notes.old.items ++ map (λ note. letter.now ++ note) own.now) }
{
    for note in own {
        notes.push(lettered(alloc, letter, note)?)?;
    }
    Ok(())
}

/// Adds the lines on one project, behind its letter.
fn add_own_notes(
    alloc: Global,
    notes: &mut Vec<Label>,
    letter: &str,
    project: &Project,
    net: Net,
) -> Result<(), AllocError>
    ensures { OnOk result (notes.new.items ≡ notes.old.items ++ own_notes letter.now project.now net) }
{
    let mut own = Vec::new(alloc);
    own.push(places_note(alloc, project, net)?)?;
    add_combining_note(alloc, &mut own, project, net)?;
    add_lettered(alloc, notes, letter, own.as_slice())
}

fn column_note(alloc: Global, each: u32) -> Result<Label, AllocError>
    ensures { IfOk result (λ label. label ≡ compared_column_note each) }
{
    let text = format!(in alloc;
        "A column is {each} cycles: the greatest difference in them, either way."
    )?;
    Ok(Label::from_string(text))
}

/// Adds what a column is of, where that is more than one cycle.
fn add_column_note(alloc: Global, notes: &mut Vec<Label>, each: u32) -> Result<(), AllocError>
    ensures { OnOk result (notes.new.items ≡ notes.old.items ++ compared_column_notes each) }
{
    if each > 1 {
        notes.push(column_note(alloc, each)?)?;
    }
    Ok(())
}

/// What two runs show of some queues.
#[derive(Drop)]
struct Compared {
    groups: Vec<RowGroup>,
    /// Of each queue a number for each cycle.
    numbers: Vec<Cells>,
}

/// The numbers of all queues that are drawn.
fn compare(
    alloc: Global,
    project: &Project,
    other: &Project,
    plan: MapPlan,
) -> Result<Compared, NoMemory>
    requires same { other.now.k ≡ project.now.k }
    requires there { plan.«module» < lines project.now.k }
    requires window { plan.window.from ≤ plan.window.to }
    requires within { plan.window.to ≤ project.now.horizon }
    requires other { plan.window.to ≤ other.now.horizon }
    ensures groups { IfOk result (λ c. c.groups.items ≡ row_groups project.now.k plan.net plan.«module» plan.way plan.over) }
    ensures numbers { IfOk result (λ c. c.numbers.items ≡ all_compared project.now other.now plan) }
{
    let window = Window {
        from: plan.window.from,
        to: plan.window.to,
    };
    let shape = project.shape();
    let groups = row_groups(alloc, shape, plan.net, plan.module, plan.way, plan.over)?;
    let queues = queues_in(alloc, groups.as_slice())?;
    let ones = lengths_over(alloc, project, queues.as_slice(), window)?;
    let others = lengths_over(alloc, other, queues.as_slice(), window)?;
    let depth = depth_drawn(project, other, plan);
    let numbers = all_differences(alloc, depth, ones.as_slice(), others.as_slice())?;
    Ok(Compared { groups, numbers })
}

/// The rows, with their cells.
fn drawn_groups(
    alloc: Global,
    project: &Project,
    other: &Project,
    plan: MapPlan,
    compared: &Compared,
) -> Result<Vec<CellGroup>, AllocError>
    requires groups { compared.now.groups.items ≡ row_groups project.now.k plan.net plan.«module» plan.way plan.over }
    requires numbers { compared.now.numbers.items ≡ all_compared project.now other.now plan }
    requires window { plan.window.from ≤ plan.window.to }
    requires short { plan.window.to < 1000000 }
    ensures { IfOk result (λ v. v.items ≡ map (cell_group (compared_cells project.now other.now plan)) (row_groups project.now.k plan.net plan.«module» plan.way plan.over)) }
{
    let depth = depth_drawn(project, other, plan);
    let cells = compared_cells(alloc, depth, plan.window, compared.numbers.as_slice())?;
    let drawn = groups_with(alloc, compared.groups.as_slice(), cells.as_slice())?;
    Ok(drawn)
}

/// The lines below the map of files of these names.
fn notes_of(
    alloc: Global,
    one: &str,
    second: &str,
    project: &Project,
    other: &Project,
    plan: MapPlan,
    numbers: &[Cells],
) -> Result<Vec<Label>, AllocError>
    requires numbers { numbers.now ≡ all_compared project.now other.now plan }
    requires window { plan.window.from ≤ plan.window.to }
    requires short { plan.window.to < 1000000 }
    ensures { IfOk result (λ v. v.items ≡ compared_notes project.now other.now plan one.now second.now) }
{
    let mut notes = Vec::new(alloc);
    notes.push(names_note(alloc, one, second, plan.window)?)?;
    notes.push(Label::new(alloc, SHADE_NOTE)?)?;
    notes.push(greatest_drawn(alloc, project, other, plan, numbers)?)?;
    add_own_notes(alloc, &mut notes, "A: ", project, plan.net)?;
    add_own_notes(alloc, &mut notes, "B: ", other, plan.net)?;
    add_column_note(alloc, &mut notes, cycles_a_column(plan.window))?;
    Ok(notes)
}

/// What the picture of two projects' runs shows, whose files have these names.
fn compared_map<'a>(
    alloc: Global,
    files: (&str, &str),
    project: &Project,
    other: &Project,
    plan: MapPlan,
) -> Result<CellMap, End<'a>>
    requires same { other.now.k ≡ project.now.k }
    requires there { plan.«module» < lines project.now.k }
    requires window { plan.window.from ≤ plan.window.to }
    requires within { plan.window.to ≤ project.now.horizon }
    requires other { plan.window.to ≤ other.now.horizon }
    ensures shown { IfOk result (IsComparedMap project.now other.now plan) }
    ensures memory { IsOkUnless result End.Memory }
{
    project.is_project();
    let depth = depth_drawn(project, other, plan);
    let (one, second) = (short_name(alloc, files.0)?, short_name(alloc, files.1)?);
    let (one, second) = (one.as_str(), second.as_str());
    let compared = compare(alloc, project, other, plan)?;
    Ok(CellMap {
        title: compared_title(alloc, plan)?,
        across: "cycle",
        ticks: ticks_of(alloc, plan.window)?,
        groups: drawn_groups(alloc, project, other, plan, &compared)?,
        middle: depth,
        most: 2 * depth,
        marked: 2 * depth + 1,
        key: keys_of(alloc, project.k(), plan.over, depth)?,
        crossings: Vec::new(alloc),
        levels: no_levels(alloc, plan.window)?,
        level_title: "",
        highest: 0,
        strokes: Vec::new(alloc),
        stroke_title: "",
        notes: notes_of(
            alloc,
            one,
            second,
            project,
            other,
            plan,
            compared.numbers.as_slice(),
        )?,
    })
}

/// The picture of two projects' runs, whose files have these names.
pub(crate) fn compared_picture<'a>(
    alloc: Global,
    files: (&str, &str),
    project: &Project,
    other: &Project,
    plan: MapPlan,
) -> Result<String, End<'a>>
    requires same { other.now.k ≡ project.now.k }
    requires there { plan.«module» < lines project.now.k }
    requires window { plan.window.from ≤ plan.window.to }
    requires within { plan.window.to ≤ project.now.horizon }
    requires other { plan.window.to ≤ other.now.horizon }
    ensures drawn { IfOk result (λ text. IsComparedDrawn project.now other.now plan (string_bytes text)) }
    ensures memory { IsOkUnless result End.Memory }
{
    let map = compared_map(alloc, files, project, other, plan)?;
    Ok(draw_map(alloc, &map)?)
}
