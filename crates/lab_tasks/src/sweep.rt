//! One depth after another on one bench.
ghost use Rattle.std.specs.Prelude.{◌≡◌, ◌+◌, ◌-◌, ◌^◌, ◌<◌, ◌≤◌, ◌∷◌, ◌++◌, IfErr, IfOk, OnOk, Some, decimal, length, map, min, string_bytes};
ghost use Rattle.std.specs.List.{flat_map, AllZip};
ghost use Rattle.bench_core.specs.Shown.{project_of};
ghost use Rattle.commands.specs.Queues.{queue_named};
ghost use Rattle.lab_tasks.specs.Ends.{IsStop};
ghost use Rattle.lab_tasks.specs.Askings.{IsAsked};
ghost use Rattle.lab_tasks.specs.Sweeps.{queue_text, depths_in, IsSwept, RefusesDepths, rows_of, settings_of, with_settings};
ghost use Rattle.lab_tasks.specs.Answered.{form_of};
ghost use Rattle.lab_tasks.specs.SweepTables.{depth_words, header_cells, max_rows, queue_names, HasRows, IsRow, IsTable, AreNotSwept, IsNoTable, OrMemory, OrStop};

use crate::answered::{Form, add_asked};
use crate::asking::{Asking, all_askings};
use crate::end::{End, Reason};
use crate::grid::{Cell, Grid, Row};
use crate::numbers::{parts_at, range_in};
use crate::swept::{Setting, Swept};
use crate::telling::add_told;
use bench_core::Bench;
use experiments::{Fault, sweep_row};
use grid_law::NoMemory;
use project_book::{Depths, Edit, MAX_DEPTH, Project};
use std::alloc::{AllocError, Global};
use std::thread::Threads;

/// The word of some queues in the command language.
fn queue_name(queue: Depths) -> &'static str
    ensures { result.now ≡ queue_text queue }
{
    match queue {
        Depths::LowForward => "low-forward",
        Depths::LowReverse => "low-reverse",
        Depths::CombForward => "comb-forward",
        Depths::CombReverse => "comb-reverse",
        Depths::ModuleQueue => "module",
    }
}

/// The queues of a word.
fn queue_in(word: &[u8]) -> Option<Depths>
    ensures { result ≡ queue_named word.now }
{
    if word == b"low-forward".as_slice() {
        Some(Depths::LowForward)
    } else if word == b"low-reverse".as_slice() {
        Some(Depths::LowReverse)
    } else if word == b"comb-forward".as_slice() {
        Some(Depths::CombForward)
    } else if word == b"comb-reverse".as_slice() {
        Some(Depths::CombReverse)
    } else if word == b"module".as_slice() {
        Some(Depths::ModuleQueue)
    } else {
        None
    }
}

/// The queues and the two depths of a word.
fn parts_in(word: &str) -> Option<(Depths, (u32, u32))>
    ensures { result ≡ depths_in word.now }
{
    let (name, range) = parts_at(word.as_bytes(), b'=')?;
    let queue = queue_in(name)?;
    let depths = range_in(range)?;
    Some((queue, depths))
}

const WANTED: &str = "QUEUES=FROM..TO, as low-forward=2..16";

/// The queues and the depths of a word.
fn swept_in<'a>(word: &'a str) -> Result<Swept, End<'a>>
    ensures swept { IfOk result (IsSwept word.entry.now) }
    ensures refused { IfErr result (RefusesDepths word.entry.now (depths_in word.entry.now)) }
{
    let refused = |reason: Reason| End::Word {
        option: "--depth",
        word,
        reason,
    };
    let Some((queue, (from, to))) = parts_in(word) else {
        return Err(refused(Reason::Form(WANTED)));
    };
    if !queue.allows(from) || !queue.allows(to) {
        return Err(refused(Reason::Within(queue.least(), MAX_DEPTH)));
    }
    if to < from {
        return Err(refused(Reason::Backwards));
    }
    Ok(Swept { queue, from, to })
}

/// What the words sweep, in turn.
pub(crate) fn all_swept<'a>(alloc: Global, words: &[&'a str]) -> Result<Vec<Swept>, End<'a>>
    ensures swept { IfOk result (λ all. AllZip IsSwept (map (λ word. word.now) words.entry.now) all.items) }
    ensures refused { IfErr result (OrMemory (AreNotSwept (map (λ word. word.now) words.entry.now))) }
{
    let mut all = Vec::new(alloc);
    for word in words {
        match swept_in(word) {
            Ok(swept) => all.push(swept)?,
            Err(end) => return Err(end),
        }
    }
    Ok(all)
}

/// How many rows a table may have.
pub(crate) const MOST_ROWS: u32 = 10_000;

/// How many depths some queues go through.
fn count_of(swept: Swept) -> u32
    ensures count { result ≡ swept.to + 1 - swept.from }
    ensures few { result ≤ 17 }
{
    swept.to - swept.from + 1
}

/// How many rows there are: each depth with each. From 2^32 on it is the number before.
pub(crate) fn count_rows(all: &[Swept]) -> u32
    ensures { result ≡ min (length (rows_of all.now)) (2 ^ 32 - 1) }
{
    let mut rows: u32 = 1;
    for swept in all {
        rows = rows.saturating_mul(count_of(*swept));
    }
    rows
}

/// Adds each of some rows with a setting before it.
fn add_behind(
    alloc: Global,
    rows: &mut Vec<Vec<Setting>>,
    setting: Setting,
    others: &[Vec<Setting>],
) -> Result<(), AllocError>
    ensures { OnOk result (map (λ row. row.items) rows.new.items ≡ map (λ row. row.items) rows.old.items ++ map (λ row. setting ∷ row.items) others.now) }
{
    for other in others {
        let mut row = Vec::new(alloc);
        row.push(setting)?;
        row.extend_from_slice(other.as_slice())?;
        rows.push(row)?;
    }
    Ok(())
}

/// The rows of some queues, by those of the queues behind them.
fn rows_before(
    alloc: Global,
    swept: Swept,
    others: &[Vec<Setting>],
) -> Result<Vec<Vec<Setting>>, AllocError>
    ensures { IfOk result (λ rows. map (λ row. row.items) rows.items ≡ flat_map (λ setting. map (λ row. setting ∷ row.items) others.now) (settings_of swept)) }
{
    let mut rows = Vec::new(alloc);
    for more in 0..count_of(swept) {
        let setting = Setting {
            queue: swept.queue,
            depth: swept.from + more,
        };
        add_behind(alloc, &mut rows, setting, others)?;
    }
    Ok(rows)
}

/// The rows of a table.
pub(crate) fn all_rows(alloc: Global, all: &[Swept]) -> Result<Vec<Vec<Setting>>, AllocError>
    ensures { IfOk result (λ rows. map (λ row. row.items) rows.items ≡ rows_of all.now) }
{
    let Some((first, others)) = all.split_first() else {
        let mut rows = Vec::new(alloc);
        rows.push(Vec::new(alloc))?;
        return Ok(rows);
    };
    let below = all_rows(alloc, others)?;
    let rows = rows_before(alloc, *first, below.as_slice())?;
    Ok(rows)
}

/// Adds the names of the queues.
pub(crate) fn add_queues(
    alloc: Global,
    names: &mut Vec<Cell>,
    all: &[Swept],
) -> Result<(), AllocError>
    ensures { OnOk result (names.new.items ≡ names.old.items ++ queue_names all.now) }
{
    for swept in all {
        let name = String::from_str(alloc, queue_name(swept.queue))?;
        names.push(Cell::new(name))?;
    }
    Ok(())
}

/// The first row: the names of the queues, then the columns of the questions.
fn header(
    alloc: Global,
    form: Form,
    all: &[Swept],
    askings: &[Asking],
    asks: &[&str],
) -> Result<Row, AllocError>
    ensures { IfOk result (λ row. row ≡ header_cells form all.now askings.now (map (λ ask. ask.now) asks.entry.now)) }
{
    let mut names = Vec::new(alloc);
    add_queues(alloc, &mut names, all)?;
    add_asked(alloc, &mut names, form, askings, asks)?;
    Ok(Row::new(names))
}

/// The columns of answers about a project.
pub(crate) fn form_of(project: &Project, numbers: bool) -> Form
    ensures { result ≡ form_of project.now numbers }
{
    Form {
        numbers,
        k: project.k(),
    }
}

/// A depth as text.
fn depth_word(alloc: Global, setting: Setting) -> Result<String, AllocError>
    ensures { IfOk result (λ text. string_bytes text ≡ decimal setting.depth) }
{
    let depth = setting.depth;
    format!(in alloc; "{depth}")
}

/// Adds the depths of a row.
fn add_depths(alloc: Global, cells: &mut Vec<Cell>, row: &[Setting]) -> Result<(), AllocError>
    ensures { OnOk result (cells.new.items ≡ cells.old.items ++ depth_words row.now) }
{
    for setting in row {
        let depth = depth_word(alloc, *setting)?;
        cells.push(Cell::new(depth))?;
    }
    Ok(())
}

/// Gives the queues of a row their depths.
fn set_row<T: Threads + Sync>(
    rt: &T,
    alloc: Global,
    bench: &mut Bench,
    row: &[Setting],
) -> Result<(), Fault>
    ensures { OnOk result (project_of bench.new ≡ with_settings (project_of bench.old) row.now) }
{
    for setting in row {
        let edit = Edit::Depth {
            queue: setting.queue,
            depth: setting.depth,
        };
        sweep_row(rt, alloc, bench, edit, &[])?;
    }
    Ok(())
}

/// A row: its depths, then what the project with these depths says to each question.
fn row_told<T: Threads + Sync>(
    rt: &T,
    alloc: Global,
    form: Form,
    bench: &mut Bench,
    row: &[Setting],
    askings: &[Asking],
) -> Result<Row, Fault>
    ensures row { IfOk result (IsRow form (project_of bench.old) askings.now row.now) }
    ensures project { OnOk result (project_of bench.new ≡ with_settings (project_of bench.old) row.now) }
{
    let mut cells = Vec::new(alloc);
    set_row(rt, alloc, bench, row)?;
    add_depths(alloc, &mut cells, row)?;
    add_told(rt, alloc, form, bench, askings, &mut cells)?;
    Ok(Row::new(cells))
}

/// All rows: what the bench's project is told with the depths of each.
#[tactic(auto, using(crate::proofs::Stops::is_stop, crate::proofs::Stops::is_stop_memory))]
fn rows_told<'a, T: Threads + Sync>(
    rt: &T,
    alloc: Global,
    form: Form,
    bench: &mut Bench,
    all: &[Swept],
    askings: &[Asking],
) -> Result<Vec<Row>, End<'a>>
    ensures rows { IfOk result (λ v. AllZip (IsRow form (project_of bench.old) askings.now) (rows_of all.now) v.items) }
    ensures refused { IfErr result IsStop }
{
    let rows = all_rows(alloc, all)?;
    let mut told = Vec::new(alloc);
    for settings in rows.as_slice() {
        let row = row_told(rt, alloc, form, bench, settings.as_slice(), askings)?;
        told.push(row)?;
    }
    Ok(told)
}

/// A fresh bench of a project, in a box at once: a proof of a function that holds a bench itself takes minutes.
pub(crate) fn opened(alloc: Global, project: Project) -> Result<Box<Bench>, NoMemory>
    ensures { IfOk result (λ bench. project_of bench.value ≡ project) }
{
    let bench = Bench::new(alloc, project, 0).ok().ok_or(NoMemory)?;
    Box::new(alloc, bench).ok().ok_or(NoMemory)
}

/// All rows: what the project is told with the depths of each, on a bench of its own.
#[tactic(auto, using(crate::proofs::Stops::is_stop_memory))]
fn rows_on_bench<'a, T: Threads + Sync>(
    rt: &T,
    alloc: Global,
    project: Project,
    form: Form,
    all: &[Swept],
    askings: &[Asking],
) -> Result<Vec<Row>, End<'a>>
    ensures rows { IfOk result (λ v. AllZip (IsRow form project askings.now) (rows_of all.now) v.items) }
    ensures refused { IfErr result IsStop }
{
    let mut bench = opened(alloc, project)?;
    rows_told(rt, alloc, form, &mut bench, all, askings)
}

/// The table of what is swept and asked.
#[tactic(auto, using(crate::proofs::Stops::is_stop_memory))]
fn table_of<'a, T: Threads + Sync>(
    rt: &T,
    alloc: Global,
    project: Project,
    form: Form,
    all: &[Swept],
    askings: &[Asking],
    asks: &[&'a str],
) -> Result<Grid, End<'a>>
    ensures rows { IfOk result (HasRows (IsRow form project askings.now) (header_cells form all.now askings.now (map (λ ask. ask.now) asks.entry.now)) (rows_of all.now)) }
    ensures refused { IfErr result IsStop }
{
    let rows = match rows_on_bench(rt, alloc, project, form, all, askings) {
        Ok(rows) => rows,
        Err(end) => return Err(end),
    };
    let names = header(alloc, form, all, askings, asks)?;
    Ok(Grid::new(names, rows))
}

/// What is swept and asked.
#[derive(Drop)]
struct Plan {
    swept: Vec<Swept>,
    askings: Vec<Asking>,
}

/// What the words sweep and ask.
#[tactic(auto, using(crate::proofs::Stops::or_memory_by))]
fn depth_plan<'a>(
    alloc: Global,
    project: &Project,
    depths: &[&'a str],
    asks: &[&'a str],
) -> Result<Plan, End<'a>>
    ensures swept { IfOk result (λ plan. AllZip IsSwept (map (λ word. word.now) depths.entry.now) plan.swept.items) }
    ensures asked { IfOk result (λ plan. AllZip (IsAsked project.now) (map (λ word. word.now) asks.entry.now) plan.askings.items) }
    ensures few { IfOk result (λ plan. length (rows_of plan.swept.items) ≤ max_rows) }
    ensures refused { IfErr result (OrMemory (IsNoTable project.now (map (λ word. word.now) depths.entry.now) (map (λ word. word.now) asks.entry.now))) }
{
    let all = match all_swept(alloc, depths) {
        Ok(all) => all,
        Err(end) => return Err(end),
    };
    let askings = match all_askings(alloc, project, asks) {
        Ok(askings) => askings,
        Err(end) => return Err(end),
    };
    if count_rows(all.as_slice()) > MOST_ROWS {
        return Err(End::Word {
            option: "--depth",
            word: "each with each",
            reason: Reason::Within(1, MOST_ROWS),
        });
    }
    Ok(Plan {
        swept: all,
        askings,
    })
}

/// The table of a sweep over a project.
#[tactic(auto, using(crate::proofs::Stops::or_stop, crate::proofs::Stops::or_stop_memory))]
pub(crate) fn sweep_table<'a, T: Threads + Sync>(
    rt: &T,
    alloc: Global,
    project: Project,
    numbers: bool,
    depths: &[&'a str],
    asks: &[&'a str],
) -> Result<Grid, End<'a>>
    ensures table { IfOk result (IsTable project numbers (map (λ word. word.now) depths.entry.now) (map (λ word. word.now) asks.entry.now)) }
    ensures refused { IfErr result (OrStop (IsNoTable project (map (λ word. word.now) depths.entry.now) (map (λ word. word.now) asks.entry.now))) }
{
    let plan = match depth_plan(alloc, &project, depths, asks) {
        Ok(plan) => plan,
        Err(end) => return Err(end),
    };
    let form = form_of(&project, numbers);
    table_of(
        rt,
        alloc,
        project,
        form,
        plan.swept.as_slice(),
        plan.askings.as_slice(),
        asks,
    )
}
