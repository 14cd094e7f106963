//! What a project says to a question or a report.
ghost use Rattle.std.specs.Prelude.{◌≡◌, IfOk, OnOk};
ghost use Rattle.machine_cells.specs.Run.{run};
ghost use Rattle.machine_cells.specs.Runs.{state_in};
ghost use Rattle.bench_core.specs.Shown.{project_of};
ghost use Rattle.run_queries.specs.Answers.{answer};
ghost use Rattle.run_reports.specs.Completions.{cycles_of, spread_of};
ghost use Rattle.lab_tasks.specs.Tellings.{event_spread, full_cycles, fulls_said, reaches, says_of, window_in, AreTold, IsLatencySaid, IsSaid, IsSummary};

use crate::answered::{Form, Says, add_said};
use crate::asking::{Asking, LatencyAsk};
use crate::grid::Cell;
use crate::latency::heat;
use bench_core::Bench;
use experiments::{Fault, told_or_bad};
use grid_law::NoMemory;
use project_book::Project;
use run_queries::Query;
use run_reports::{
    Completion, Condition, Event, FirstFull, Spread, Window, completions, cycles_of, first_fulls,
    latencies_of, spread_of,
};
use std::alloc::{AllocError, Global};
use std::thread::Threads;

/// The cycles of issue that are asked for.
fn window_in(project: &Project, ends: bool, window: Option<Window>) -> Window
    ensures { result ≡ window_in project.now ends window }
{
    match (ends, window) {
        (_, None) => Window {
            from: 0,
            to: project.horizon(),
        },
        (false, Some(window)) => Window {
            from: window.from,
            to: project.horizon(),
        },
        (true, Some(window)) => window,
    }
}

/// Whether a project has these cycles.
fn reaches(project: &Project, window: Window) -> bool
    ensures { result ≡ reaches project.now window }
{
    window.from <= project.horizon() && window.to <= project.horizon()
}

/// The figures of the references that are asked for and were issued in these cycles.
fn summary(
    alloc: Global,
    project: &Project,
    ask: LatencyAsk,
    window: Window,
) -> Result<Says, NoMemory>
    ensures { IfOk result (IsSummary project.now ask window) }
{
    let hot = match heat(alloc, ask.hot, ask.cold, project) {
        Ok(hot) => hot,
        Err(_) => return Err(NoMemory),
    };
    let condition = Condition {
        hot,
        window: Some(window),
        ..ask.condition
    };
    let latencies = latencies_of(alloc, project, &condition)?;
    Ok(Says::Latency(latencies.summary()))
}

/// What a project says of how long references took.
fn latency_said(alloc: Global, project: &Project, ask: LatencyAsk) -> Result<Says, NoMemory>
    ensures { IfOk result (IsLatencySaid project.now ask (window_in project.now ask.ends ask.condition.window)) }
{
    let window = window_in(project, ask.ends, ask.condition.window);
    if reaches(project, window) {
        summary(alloc, project, ask, window)
    } else {
        Ok(Says::Bad(2))
    }
}

/// How far apart processors had an event.
fn event_spread(
    alloc: Global,
    event: Event,
    completions: &[Completion],
) -> Result<Spread, AllocError>
    ensures { IfOk result (λ spread. spread ≡ spread_of (cycles_of event completions.now)) }
{
    let cycles = cycles_of(alloc, event, completions)?;
    Ok(spread_of(cycles.as_slice()))
}

/// What a project says of when its processors were done.
fn done_said(alloc: Global, project: &Project) -> Result<Says, NoMemory>
    ensures { IfOk result (IsSaid project.now Asking.Done) }
{
    let all = completions(alloc, project)?;
    let replies = event_spread(alloc, Event::LastReply, all.as_slice())?;
    let ends = event_spread(alloc, Event::ScriptEnd, all.as_slice())?;
    Ok(Says::Done(replies, ends))
}

/// The cycles at which queues first were full, of those that were.
fn full_cycles(alloc: Global, fulls: &[FirstFull]) -> Result<Vec<u32>, AllocError>
    ensures { IfOk result (λ v. v.items ≡ full_cycles fulls.now) }
{
    let mut cycles = Vec::new(alloc);
    for full in fulls {
        if let Some(cycle) = full.cycle {
            cycles.push(cycle)?;
        }
    }
    Ok(cycles)
}

/// What is said of which queues were full.
fn fulls_said(alloc: Global, fulls: &[FirstFull]) -> Result<Says, AllocError>
    ensures { IfOk result (λ said. said ≡ fulls_said fulls.now) }
{
    let cycles = full_cycles(alloc, fulls)?;
    Ok(Says::Full(spread_of(cycles.as_slice()), fulls.len()))
}

/// What a project says of which queues were full.
fn full_said(alloc: Global, project: &Project) -> Result<Says, NoMemory>
    ensures { IfOk result (IsSaid project.now Asking.Full) }
{
    project.is_project();
    let fulls = first_fulls(alloc, project)?;
    Ok(fulls_said(alloc, fulls.as_slice())?)
}

/// What the bench's project answers.
fn query_said<T: Threads + Sync>(rt: &T, bench: &mut Bench, query: Query) -> Result<Says, Fault>
    ensures said { IfOk result (λ said. said ≡ says_of (answer (project_of bench.old) query)) }
    ensures project { project_of bench.new ≡ project_of bench.old }
{
    match told_or_bad(rt, bench, query) {
        Ok(Ok(body)) => Ok(Says::Body(body)),
        Ok(Err(number)) => Ok(Says::Bad(number)),
        Err(fault) => Err(fault),
    }
}

/// What the bench's project says.
fn said<T: Threads + Sync>(
    rt: &T,
    alloc: Global,
    bench: &mut Bench,
    asking: Asking,
) -> Result<Says, Fault>
    ensures said { IfOk result (IsSaid (project_of bench.old) asking) }
    ensures project { project_of bench.new ≡ project_of bench.old }
{
    match asking {
        Asking::Query(query) => query_said(rt, bench, query),
        Asking::Latency(ask) => Ok(latency_said(alloc, bench.project(), ask)?),
        Asking::Done => Ok(done_said(alloc, bench.project())?),
        Asking::Full => Ok(full_said(alloc, bench.project())?),
    }
}

/// Adds what the bench's project says to each question and report.
pub(crate) fn add_told<T: Threads + Sync>(
    rt: &T,
    alloc: Global,
    form: Form,
    bench: &mut Bench,
    askings: &[Asking],
    cells: &mut Vec<Cell>,
) -> Result<(), Fault>
    ensures told { OnOk result (AreTold form (project_of bench.old) askings.now cells.old.items cells.new.items) }
    ensures project { project_of bench.new ≡ project_of bench.old }
{
    for asking in askings {
        let said = match said(rt, alloc, bench, *asking) {
            Ok(said) => said,
            Err(fault) => return Err(fault),
        };
        add_said(alloc, cells, form, *asking, &said)?;
    }
    Ok(())
}
