//! The table of a sweep of edits.
ghost use Rattle.std.specs.Prelude.{◌≡◌, ◌-◌, ◌^◌, ◌≤◌, ◌++◌, ◌&&◌, not, IfErr, IfOk, OnOk, Some, false, map, min, nat_le, string_bytes, true};
ghost use Rattle.std.specs.List.{AllZip};
ghost use Rattle.edit_templates.specs.Braces.{put_text};
ghost use Rattle.edit_templates.specs.Edited.{after_edits};
ghost use Rattle.lab_tasks.specs.EditSweeps.{are_even, axes_names, edit_count, edit_header, edit_steps, row_count, settings_step, sweep_steps, IsAfter, IsAxis, IsEditRow, IsEditTable, IsNoEditTable, AreNotEdits, RefusesEdit};
ghost use Rattle.lab_tasks.specs.Ends.{IsStop};
ghost use Rattle.lab_tasks.specs.Askings.{IsAsked};
ghost use Rattle.lab_tasks.specs.Sweeps.{rows_of, IsSwept};
ghost use Rattle.lab_tasks.specs.SweepTables.{max_rows, HasRows, OrMemory, OrStop};

use crate::answered::{Form, add_all_refused, add_asked};
use crate::asking::{Asking, all_askings};
use crate::end::{End, Reason};
use crate::grid::{Cell, Grid, Row};
use crate::sweep::{MOST_ROWS, add_queues, all_rows, all_swept, count_rows, form_of, opened};
use crate::swept::{Setting, Swept};
use crate::telling::add_told;
use edit_templates::{Axis, Put, Step, Template, after_edits, behind, each, in_turn};
use experiments::Fault;
use project_book::{Edit, EditFault, Project};
use rayon::prelude::*;
use std::alloc::{AllocError, Global};
use std::thread::Threads;

/// The edit with braces that a word is for a project: its names and steps.
fn axis_in<'a>(alloc: Global, project: &Project, word: &'a str) -> Result<Axis<'a>, End<'a>>
    ensures axis { IfOk result (IsAxis project.now.k word.entry.now) }
    ensures refused { IfErr result (OrMemory (RefusesEdit project.now.k word.entry.now)) }
{
    let refused = |reason: Reason| End::Word {
        option: "--edit",
        word,
        reason,
    };
    let Some(template) = Template::read(alloc, project.k(), word)? else {
        return Err(refused(Reason::Form("an edit in each row, as 'combine {0..2} on'")));
    };
    if template.ways() > u64::from(MOST_ROWS) {
        return Err(refused(Reason::Within(1, MOST_ROWS)));
    }
    match template.axis(alloc, project.shape())? {
        Some(axis) => Ok(axis),
        None => Err(refused(Reason::Form("an edit in each row, as 'combine {0..2} on'"))),
    }
}

/// The edits with braces that the words are, in turn.
fn all_axes<'a>(
    alloc: Global,
    project: &Project,
    words: &[&'a str],
) -> Result<Vec<Axis<'a>>, End<'a>>
    ensures axes { IfOk result (λ all. AllZip (IsAxis project.now.k) (map (λ word. word.now) words.entry.now) all.items) }
    ensures refused { IfErr result (OrMemory (AreNotEdits project.now.k (map (λ word. word.now) words.entry.now))) }
{
    let mut all = Vec::new(alloc);
    for word in words {
        match axis_in(alloc, project, word) {
            Ok(axis) => all.push(axis)?,
            Err(end) => return Err(end),
        }
    }
    Ok(all)
}

/// The depths of a row as a step.
fn settings_step<'a>(alloc: Global, row: &[Setting]) -> Result<Step<'a>, AllocError>
    ensures { IfOk result (λ step. step ≡ settings_step row.now) }
{
    let mut puts = Vec::new(alloc);
    let mut edits = Vec::new(alloc);
    for setting in row {
        puts.push(Put::Number(setting.depth))?;
        edits.push(Edit::Depth {
            queue: setting.queue,
            depth: setting.depth,
        })?;
    }
    Ok(Step::new(puts, edits))
}

/// The depths of rows as steps.
fn settings_steps<'a>(alloc: Global, rows: &[Vec<Setting>]) -> Result<Vec<Step<'a>>, AllocError>
    ensures { IfOk result (λ steps. steps.items ≡ map settings_step (map (λ row. row.items) rows.now)) }
{
    let mut steps = Vec::new(alloc);
    for row in rows {
        let step = settings_step(alloc, row.as_slice())?;
        steps.push(step)?;
    }
    Ok(steps)
}

/// The depths of all rows as steps.
fn depth_steps<'a>(alloc: Global, all: &[Swept]) -> Result<Vec<Step<'a>>, AllocError>
    ensures { IfOk result (λ steps. steps.items ≡ map settings_step (rows_of all.now)) }
{
    let rows = all_rows(alloc, all)?;
    let steps = settings_steps(alloc, rows.as_slice())?;
    Ok(steps)
}

/// The steps of the edits: each with each, or all first ones, all second ones and so on.
fn edit_steps<'a>(alloc: Global, zip: bool, axes: &[Axis<'a>]) -> Result<Vec<Step<'a>>, AllocError>
    ensures { IfOk result (λ steps. steps.items ≡ edit_steps zip axes.now) }
{
    if zip {
        in_turn(alloc, axes)
    } else {
        each(alloc, axes)
    }
}

/// The rows: those of the depths, each with each step of the edits.
fn sweep_steps<'a>(
    alloc: Global,
    zip: bool,
    all: &[Swept],
    axes: &[Axis<'a>],
) -> Result<Vec<Step<'a>>, AllocError>
    ensures { IfOk result (λ steps. steps.items ≡ sweep_steps zip all.now axes.now) }
{
    let depths = depth_steps(alloc, all)?;
    let edits = edit_steps(alloc, zip, axes)?;
    behind(alloc, depths.as_slice(), edits.as_slice())
}

/// How many steps the edits have. From 2^64 on it is the number before.
fn edit_count(zip: bool, axes: &[Axis<'_>]) -> u64
    ensures { result ≡ min (edit_count zip axes.now) (2 ^ 64 - 1) }
{
    if zip {
        first_length(axes) as u64
    } else {
        product(axes)
    }
}

/// How many steps the first axis has.
fn first_length(axes: &[Axis<'_>]) -> usize
    ensures { result ≡ edit_count true axes.now }
{
    match axes.first() {
        Some(axis) => axis.steps.len(),
        None => 0,
    }
}

/// How many there are of each with each. From 2^64 on it is the number before.
fn product(axes: &[Axis<'_>]) -> u64
    ensures { result ≡ min (edit_count false axes.now) (2 ^ 64 - 1) }
{
    let mut count: u64 = 1;
    for axis in axes {
        count = count.saturating_mul(axis.steps.as_slice().len() as u64);
    }
    count
}

/// Whether there are no more rows than there may be.
fn are_few(zip: bool, all: &[Swept], axes: &[Axis<'_>]) -> bool
    ensures { result ≡ nat_le (row_count zip all.now axes.now) max_rows }
{
    let rows = u64::from(count_rows(all)).saturating_mul(edit_count(zip, axes));
    rows <= u64::from(MOST_ROWS)
}

/// Whether all axes have as many steps as the first one.
fn are_even(axes: &[Axis<'_>]) -> bool
    ensures { result ≡ are_even axes.now }
{
    let first = first_length(axes);
    axes.iter().all(|axis| axis.steps.len() == first)
}

/// What is swept and asked.
#[derive(Drop)]
struct Plan<'a> {
    swept: Vec<Swept>,
    axes: Vec<Axis<'a>>,
    askings: Vec<Asking>,
}

/// What the words sweep and ask.
#[tactic(auto, using(crate::proofs::Stops::or_memory_by))]
fn edit_plan<'a>(
    alloc: Global,
    project: &Project,
    zip: bool,
    depths: &[&'a str],
    edits: &[&'a str],
    asks: &[&'a str],
) -> Result<Plan<'a>, End<'a>>
    ensures swept { IfOk result (λ plan. AllZip IsSwept (map (λ word. word.now) depths.entry.now) plan.swept.items) }
    ensures edits { IfOk result (λ plan. AllZip (IsAxis project.now.k) (map (λ word. word.now) edits.entry.now) plan.axes.items) }
    ensures asked { IfOk result (λ plan. AllZip (IsAsked project.now) (map (λ word. word.now) asks.entry.now) plan.askings.items) }
    ensures even { IfOk result (λ plan. (zip && not (are_even plan.axes.items)) ≡ false) }
    ensures few { IfOk result (λ plan. row_count zip plan.swept.items plan.axes.items ≤ max_rows) }
    ensures refused { IfErr result (OrMemory (IsNoEditTable project.now zip (map (λ word. word.now) depths.entry.now) (map (λ word. word.now) edits.entry.now) (map (λ word. word.now) asks.entry.now))) }
{
    let swept = match all_swept(alloc, depths) {
        Ok(swept) => swept,
        Err(end) => return Err(end),
    };
    let axes = match all_axes(alloc, project, edits) {
        Ok(axes) => axes,
        Err(end) => return Err(end),
    };
    let askings = match all_askings(alloc, project, asks) {
        Ok(askings) => askings,
        Err(end) => return Err(end),
    };
    if zip && !are_even(axes.as_slice()) {
        return Err(End::Word {
            option: "--zip",
            word: "each edit",
            reason: Reason::Form("of as many rows as the first"),
        });
    }
    if !are_few(zip, swept.as_slice(), axes.as_slice()) {
        return Err(End::Word {
            option: "--edit",
            word: "each with each",
            reason: Reason::Within(1, MOST_ROWS),
        });
    }
    Ok(Plan {
        swept,
        axes,
        askings,
    })
}

/// Adds what the project after some edits says to each question, or the reason why one of the edits is refused.
///
/// A bench of its own is begun for each row: none goes on from the row before.
fn add_after<T: Threads + Sync>(
    rt: &T,
    alloc: Global,
    form: Form,
    project: &Project,
    edits: &[Edit],
    askings: &[Asking],
    cells: &mut Vec<Cell>,
) -> Result<(), Fault>
    ensures { OnOk result (IsAfter form askings.now (after_edits project.now edits.now) cells.old.items cells.new.items) }
{
    let after = match after_edits(project, edits) {
        Ok(after) => after,
        Err(EditFault::Memory) => return Err(Fault::Memory),
        Err(fault) => {
            add_all_refused(alloc, cells, form, fault.number(), askings)?;
            return Ok(());
        }
    };
    let mut bench = opened(alloc, after)?;
    add_told(rt, alloc, form, &mut bench, askings, cells)
}

/// A word that is put in, as text.
fn put_word(alloc: Global, put: Put<'_>) -> Result<String, AllocError>
    ensures { IfOk result (λ text. string_bytes text ≡ put_text put.entry) }
{
    format!(in alloc; "{put}")
}

/// Adds the words that are put in.
fn add_puts(alloc: Global, cells: &mut Vec<Cell>, puts: &[Put<'_>]) -> Result<(), AllocError>
    ensures { OnOk result (cells.new.items ≡ cells.old.items ++ map put_text puts.now) }
{
    for put in puts {
        let word = put_word(alloc, *put)?;
        cells.push(Cell::new(word))?;
    }
    Ok(())
}

/// A row: its words, then its answers.
fn edit_row<T: Threads + Sync>(
    rt: &T,
    alloc: Global,
    form: Form,
    project: &Project,
    step: &Step<'_>,
    askings: &[Asking],
) -> Result<Row, Fault>
    ensures { IfOk result (IsEditRow form project.now askings.now step.now) }
{
    let mut cells = Vec::new(alloc);
    add_puts(alloc, &mut cells, step.puts())?;
    add_after(rt, alloc, form, project, step.edits(), askings, &mut cells)?;
    Ok(Row::new(cells))
}

/// All rows, told by as many threads as there are processors; each hangs on the project and its own step alone.
fn each_row<T: Threads + Sync>(
    rt: &T,
    alloc: Global,
    form: Form,
    project: &Project,
    steps: &[Step<'_>],
    askings: &[Asking],
) -> Result<Result<Vec<Row>, Fault>, AllocError>
    ensures { IfOk result (λ told. IfOk told (λ v. AllZip (IsEditRow form project.now askings.now) steps.now v.items)) }
{
    steps
        .par_iter()
        .with_min_len(1)
        .map(
            |step: &Step<'_>| -> Result<Row, Fault>
                ensures { IfOk result (IsEditRow form project.entry.now askings.entry.now step.now) }
            { edit_row(rt, alloc, form, project, step, askings) },
        )
        .collect(rt, alloc)
}

/// All rows.
#[tactic(auto, using(crate::proofs::Stops::is_stop, crate::proofs::Stops::is_stop_memory))]
fn edit_rows<'a, T: Threads + Sync>(
    rt: &T,
    alloc: Global,
    form: Form,
    project: &Project,
    steps: &[Step<'_>],
    askings: &[Asking],
) -> Result<Vec<Row>, End<'a>>
    ensures rows { IfOk result (λ v. AllZip (IsEditRow form project.now askings.now) steps.now v.items) }
    ensures refused { IfErr result IsStop }
{
    match each_row(rt, alloc, form, project, steps, askings)? {
        Ok(rows) => Ok(rows),
        Err(fault) => Err(End::from(fault)),
    }
}

/// Adds the names of an axis.
fn add_names(alloc: Global, cells: &mut Vec<Cell>, names: &[String]) -> Result<(), AllocError>
    ensures { OnOk result (cells.new.items ≡ cells.old.items ++ map string_bytes names.now) }
{
    for name in names {
        let name = String::from_str(alloc, name.as_str())?;
        cells.push(Cell::new(name))?;
    }
    Ok(())
}

/// Adds the names of all axes.
fn add_axes(alloc: Global, cells: &mut Vec<Cell>, axes: &[Axis<'_>]) -> Result<(), AllocError>
    ensures { OnOk result (cells.new.items ≡ cells.old.items ++ axes_names axes.now) }
{
    for axis in axes {
        add_names(alloc, cells, axis.names.as_slice())?;
    }
    Ok(())
}

/// The first row: the names of the queues and of the braces, then the columns of the questions.
fn edit_header(
    alloc: Global,
    form: Form,
    all: &[Swept],
    axes: &[Axis<'_>],
    askings: &[Asking],
    asks: &[&str],
) -> Result<Row, AllocError>
    ensures { IfOk result (λ row. row ≡ edit_header form all.now axes.now askings.now (map (λ ask. ask.now) asks.entry.now)) }
{
    let mut names = Vec::new(alloc);
    add_queues(alloc, &mut names, all)?;
    add_axes(alloc, &mut names, axes)?;
    add_asked(alloc, &mut names, form, askings, asks)?;
    Ok(Row::new(names))
}

/// The table of what is swept and asked.
#[tactic(auto, using(crate::proofs::Stops::is_stop_memory))]
fn edit_table_of<'a, T: Threads + Sync>(
    rt: &T,
    alloc: Global,
    form: Form,
    project: &Project,
    zip: bool,
    plan: &Plan<'_>,
    asks: &[&'a str],
) -> Result<Grid, End<'a>>
    ensures rows { IfOk result (HasRows (IsEditRow form project.now plan.now.askings.items) (edit_header form plan.now.swept.items plan.now.axes.items plan.now.askings.items (map (λ ask. ask.now) asks.entry.now)) (sweep_steps zip plan.now.swept.items plan.now.axes.items)) }
    ensures refused { IfErr result IsStop }
{
    let (all, axes) = (plan.swept.as_slice(), plan.axes.as_slice());
    let askings = plan.askings.as_slice();
    let names = edit_header(alloc, form, all, axes, askings, asks)?;
    let steps = sweep_steps(alloc, zip, all, axes)?;
    match edit_rows(rt, alloc, form, project, steps.as_slice(), askings) {
        Ok(rows) => Ok(Grid::new(names, rows)),
        Err(end) => Err(end),
    }
}

/// The table of a sweep of edits over a project.
#[tactic(auto, using(crate::proofs::Stops::or_stop, crate::proofs::Stops::or_stop_memory))]
pub(crate) fn edit_table<'a, T: Threads + Sync>(
    rt: &T,
    alloc: Global,
    project: &Project,
    numbers: bool,
    zip: bool,
    depths: &[&'a str],
    edits: &[&'a str],
    asks: &[&'a str],
) -> Result<Grid, End<'a>>
    ensures table { IfOk result (IsEditTable project.now numbers zip (map (λ word. word.now) depths.entry.now) (map (λ word. word.now) edits.entry.now) (map (λ word. word.now) asks.entry.now)) }
    ensures refused { IfErr result (OrStop (IsNoEditTable project.now zip (map (λ word. word.now) depths.entry.now) (map (λ word. word.now) edits.entry.now) (map (λ word. word.now) asks.entry.now))) }
{
    let plan = match edit_plan(alloc, project, zip, depths, edits, asks) {
        Ok(plan) => plan,
        Err(end) => return Err(end),
    };
    edit_table_of(
        rt,
        alloc,
        form_of(project, numbers),
        project,
        zip,
        &plan,
        asks,
    )
}
