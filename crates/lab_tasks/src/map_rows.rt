//! The rows of a map: which queues it shows, in which order and under which names.
ghost use Rattle.std.specs.Prelude.{◌≡◌, ◌<◌, ◌/◌, ◌-◌, ◌++◌, IfErr, IfOk, OnOk, Some, map};
ghost use Rattle.std.specs.List.{flat_map};
ghost use Rattle.omega_net.specs.Numbers.{half, lines};
ghost use Rattle.omega_net.specs.Wires.{below};
ghost use Rattle.saturation.specs.Towards.{line_towards, queues_at};
ghost use Rattle.lab_tasks.specs.declared.map_rows.Over.TheVariants.{Modules};
ghost use Rattle.lab_tasks.specs.MapRows.{group_label, input_rows, module_row, output_row, over_of, part_of, queues_in, queues_of, row_groups, row_label, stage_group, stage_rows, switch_row, way_of, IsNoOver, IsNotTaken, IsNoWay, IsTaken};
ghost use Rattle.lab_tasks.specs.Words.{text_of};

use crate::end::{End, Reason};
use omega_net::{Component, Net, Shape};
use run_reports::{Part, PartQueue};
use saturation::{line_towards, queues_at};
use std::alloc::{AllocError, Global};
use std::fmt;
use std::marker::Model;
use svg_plots::Label;

/// Which way the messages go whose queues are drawn.
#[derive(Clone, Copy, PartialEq, Eq)]
pub(crate) enum Way {
    /// Requests.
    Forward,
    /// Replies.
    Reverse,
}

/// Which of their queues are drawn.
#[derive(Clone, Copy, PartialEq, Eq)]
pub(crate) enum Over {
    /// Those of switches between the processors and one module.
    Tree,
    /// Those of all modules.
    Modules,
}

/// The way at `--dir`.
pub(crate) fn way_at<'a>(word: Option<&'a str>) -> Result<Way, End<'a>>
    ensures way { IfOk result (λ way. way_of (text_of word.entry) ≡ Some way) }
    ensures none { IfErr result (IsNoWay (text_of word.entry)) }
{
    match word {
        None | Some("forward") => Ok(Way::Forward),
        Some("reverse") => Ok(Way::Reverse),
        Some(word) => Err(End::Word {
            option: "--dir",
            word,
            reason: Reason::Form("forward or reverse"),
        }),
    }
}

/// The queues at `--queues`.
pub(crate) fn over_at<'a>(word: Option<&'a str>) -> Result<Over, End<'a>>
    ensures over { IfOk result (λ over. over_of (text_of word.entry) ≡ Some over) }
    ensures none { IfErr result (IsNoOver (text_of word.entry)) }
{
    match word {
        None | Some("tree") => Ok(Over::Tree),
        Some("module") => Ok(Over::Modules),
        Some(word) => Err(End::Word {
            option: "--queues",
            word,
            reason: Reason::Form("tree or module"),
        }),
    }
}

/// Refuses a module where the queues of all modules are drawn.
pub(crate) fn refuse_module<'a>(over: Over, word: Option<&'a str>) -> Result<(), End<'a>>
    ensures taken { IfOk result (λ done. IsTaken over (text_of word.entry)) }
    ensures refused { IfErr result (IsNotTaken over (text_of word.entry)) }
{
    match (over, word) {
        (Over::Tree, _) | (Over::Modules, None) => Ok(()),
        (Over::Modules, Some(word)) => Err(End::Word {
            option: "--module",
            word,
            reason: Reason::Form("taken with --queues module"),
        }),
    }
}

/// A queue, with the component that it is in.
#[derive(Clone, Copy)]
pub(crate) struct MapRow {
    pub component: Component,
    pub queue: PartQueue,
}

/// Rows, from top to bottom. Contracts see the list.
#[derive(Drop)]
pub(crate) struct Rows {
    rows: Vec<MapRow>,
}

impl Model for Rows {
    ghost use Rattle.std.specs.Prelude.{List};
    ghost use Rattle.lab_tasks.specs.declared.map_rows.MapRow.{MapRow};

    ghost Value = { List MapRow };

    ghost view = { λ r. r.rows.items };
}

impl Rows {
    pub(crate) fn as_slice(&self) -> &[MapRow]
        ensures { result.now ≡ self.now }
    {
        &self.rows
    }
}

/// Rows that stand together: those of a stage, or of all modules.
#[derive(Drop)]
pub(crate) struct RowGroup {
    pub stage: Option<u32>,
    pub rows: Rows,
}

/// A queue of a switch.
fn switch_row(shape: Shape, net: Net, stage: u32, index: u32, part: Part) -> MapRow
    requires stage { stage < shape }
    requires index { index < half shape }
    ensures { result ≡ switch_row shape net stage index part }
{
    let component = Component::Switch {
        net,
        stage: stage as u8,
        index: index as u8,
    };
    let place = shape.number(component).unwrap();
    MapRow {
        component,
        queue: PartQueue { place, part },
    }
}

/// The queue at the output that is a line of a stage.
#[tactic(auto, using(crate::proofs::RowPlaces::half_of))]
fn output_row(shape: Shape, net: Net, stage: u32, line: u32) -> MapRow
    requires stage { stage < shape }
    requires line { line < lines shape }
    ensures { result ≡ output_row shape net stage line }
{
    let part = Part::Forward((line % 2) as u8);
    switch_row(shape, net, stage, line / 2, part)
}

/// Adds both queues for replies of a switch.
fn add_inputs(
    rows: &mut Vec<MapRow>,
    shape: Shape,
    net: Net,
    stage: u32,
    index: u32,
) -> Result<(), AllocError>
    requires stage { stage < shape }
    requires index { index < half shape }
    ensures { OnOk result (rows.new.items ≡ rows.old.items ++ input_rows shape net stage index) }
{
    rows.push(switch_row(shape, net, stage, index, Part::Reverse(0)))?;
    rows.push(switch_row(shape, net, stage, index, Part::Reverse(1)))?;
    Ok(())
}

/// The queues of a stage that requests to a module pass.
fn request_rows(
    alloc: Global,
    shape: Shape,
    net: Net,
    module: u32,
    stage: u32,
) -> Result<Vec<MapRow>, AllocError>
    requires there { «module» < lines shape }
    requires stage { stage < shape }
    ensures { IfOk result (λ v. v.items ≡ map (λ place. output_row shape net stage (line_towards shape «module» stage place)) (below (queues_at shape stage))) }
{
    let k = shape.k();
    let mut rows = Vec::new(alloc);
    for place in 0..queues_at(k, stage) {
        let line = line_towards(k, module, stage, place);
        rows.push(output_row(shape, net, stage, line))?;
    }
    Ok(rows)
}

/// The queues of a stage that replies from a module pass.
#[tactic(auto, using(crate::proofs::Listing::flat_next, crate::proofs::RowPlaces::half_of))]
fn reply_rows(
    alloc: Global,
    shape: Shape,
    net: Net,
    module: u32,
    stage: u32,
) -> Result<Vec<MapRow>, AllocError>
    requires there { «module» < lines shape }
    requires stage { stage < shape }
    ensures { IfOk result (λ v. v.items ≡ flat_map (λ place. input_rows shape net stage (line_towards shape «module» stage place / 2)) (below (queues_at shape stage))) }
{
    let k = shape.k();
    let mut rows = Vec::new(alloc);
    for place in 0..queues_at(k, stage) {
        let line = line_towards(k, module, stage, place);
        add_inputs(&mut rows, shape, net, stage, line / 2)?;
    }
    Ok(rows)
}

/// The queues of a stage, with its number.
fn stage_group(
    alloc: Global,
    shape: Shape,
    net: Net,
    module: u32,
    way: Way,
    stage: u32,
) -> Result<RowGroup, AllocError>
    requires there { «module» < lines shape }
    requires stage { stage < shape }
    ensures { IfOk result (λ group. group ≡ stage_group shape net «module» way stage) }
{
    let rows = match way {
        Way::Forward => request_rows(alloc, shape, net, module, stage)?,
        Way::Reverse => reply_rows(alloc, shape, net, module, stage)?,
    };
    Ok(RowGroup {
        stage: Some(stage),
        rows: Rows { rows },
    })
}

/// Those of each stage, the last one first.
fn stage_groups(
    alloc: Global,
    shape: Shape,
    net: Net,
    module: u32,
    way: Way,
) -> Result<Vec<RowGroup>, AllocError>
    requires there { «module» < lines shape }
    ensures { IfOk result (λ v. v.items ≡ map (λ back. stage_group shape net «module» way (shape - 1 - back)) (below shape)) }
{
    let k = shape.k();
    let mut groups = Vec::new(alloc);
    for back in 0..k {
        groups.push(stage_group(alloc, shape, net, module, way, k - 1 - back)?)?;
    }
    Ok(groups)
}

/// A module's queue of the requests of a network, or of its replies.
fn part_of(net: Net, way: Way) -> Part
    ensures { result ≡ part_of net way }
{
    match way {
        Way::Forward => Part::Requests(net),
        Way::Reverse => Part::Replies(net),
    }
}

/// The queue of a module.
fn module_row(shape: Shape, net: Net, way: Way, module: u32) -> MapRow
    requires there { «module» < lines shape }
    ensures { result ≡ module_row shape net way «module» }
{
    let component = Component::Module(module as u8);
    let place = shape.number(component).unwrap();
    let part = part_of(net, way);
    MapRow {
        component,
        queue: PartQueue { place, part },
    }
}

/// The queues of all modules.
fn module_rows(alloc: Global, shape: Shape, net: Net, way: Way) -> Result<Vec<MapRow>, AllocError>
    ensures { IfOk result (λ v. v.items ≡ map (module_row shape net way) (below (lines shape))) }
{
    let mut rows = Vec::new(alloc);
    for module in 0..shape.lines() {
        rows.push(module_row(shape, net, way, module))?;
    }
    Ok(rows)
}

/// Those of all modules, as one group.
fn module_groups(
    alloc: Global,
    shape: Shape,
    net: Net,
    way: Way,
) -> Result<Vec<RowGroup>, AllocError>
    ensures { IfOk result (λ v. v.items ≡ row_groups shape net 0 way Modules) }
{
    let mut groups = Vec::new(alloc);
    let rows = module_rows(alloc, shape, net, way)?;
    groups.push(RowGroup {
        stage: None,
        rows: Rows { rows },
    })?;
    Ok(groups)
}

/// The rows of a map.
pub(crate) fn row_groups(
    alloc: Global,
    shape: Shape,
    net: Net,
    module: u32,
    way: Way,
    over: Over,
) -> Result<Vec<RowGroup>, AllocError>
    requires there { «module» < lines shape }
    ensures { IfOk result (λ v. v.items ≡ row_groups shape net «module» way over) }
{
    match over {
        Over::Tree => stage_groups(alloc, shape, net, module, way),
        Over::Modules => module_groups(alloc, shape, net, way),
    }
}

/// Adds the queues of some rows.
fn add_queues(queues: &mut Vec<PartQueue>, rows: &[MapRow]) -> Result<(), AllocError>
    ensures { OnOk result (queues.new.items ≡ queues.old.items ++ map (λ r. r.queue) rows.now) }
{
    for row in rows {
        queues.push(row.queue)?;
    }
    Ok(())
}

/// The queues of all rows.
pub(crate) fn queues_in(alloc: Global, groups: &[RowGroup]) -> Result<Vec<PartQueue>, AllocError>
    ensures { IfOk result (λ v. v.items ≡ queues_in groups.now) }
{
    let mut queues = Vec::new(alloc);
    for group in groups {
        add_queues(&mut queues, group.rows.as_slice())?;
    }
    Ok(queues)
}

/// A row under its name.
#[derive(Clone, Copy)]
struct RowName(MapRow);

impl fmt::Display for RowName {
    ghost output = { λ name. Some (row_label name.0) };

    fn fmt<W: fmt::Write>(&self, f: &mut fmt::Formatter<W>) -> fmt::Result {
        let component = self.0.component;
        match self.0.queue.part {
            Part::Reverse(input) => write!(f, "{component} r{input}"),
            Part::Forward(_) | Part::Requests(_) | Part::Replies(_) | Part::Wait => {
                write!(f, "{component}")
            }
        }
    }
}

/// The name of a row.
pub(crate) fn row_label(alloc: Global, row: MapRow) -> Result<Label, AllocError>
    ensures { IfOk result (λ label. label ≡ row_label row) }
{
    let name = RowName(row);
    Ok(Label::from_string(format!(in alloc; "{name}")?))
}

/// The name of a group.
pub(crate) fn group_label(alloc: Global, stage: Option<u32>) -> Result<Label, AllocError>
    ensures { IfOk result (λ label. label ≡ group_label stage) }
{
    let text = match stage {
        Some(stage) => format!(in alloc; "stage {stage}")?,
        None => String::from_str(alloc, "modules")?,
    };
    Ok(Label::from_string(text))
}
