//! What is asked for is done.
ghost use Rattle.std.specs.Prelude.{◌≡◌, ◌≤◌, ◌⊎◌, [], ◌∷◌, ◌++◌, false, IfErr, IfOk, IsOkUnless, None, Ok, OnOk, Some, length, string_bytes};
ghost use Rattle.page_map.specs.Limits.{max_k};
ghost use Rattle.project_file.specs.Filed.{filed};
ghost use Rattle.lab_tasks.specs.Added.{Adds};
ghost use Rattle.lab_tasks.specs.Busy.{IsBusyText, IsNotBusy};
ghost use Rattle.lab_tasks.specs.Completions.{IsCompletionText};
ghost use Rattle.lab_tasks.specs.DelayPictures.{IsDelayPicture};
ghost use Rattle.lab_tasks.specs.Done.{delay_header, has_numbers, rate_header, is_over, AreDelays, AreDelaysMade, AreDelaysNotMade, AreRates, IsConverted, IsDone, IsMadeOf, IsMapMade, IsNoPlotted, IsNoSweep, IsNoSweepTable, IsNotDone, IsNotMade, IsOver, IsPlotted, IsSeriesMade, IsSweepMade, IsSweepOf, IsSweepTable, IsTableGiven};
ghost use Rattle.lab_tasks.specs.Fullness.{IsFullText};
ghost use Rattle.lab_tasks.specs.Gauged.{IsNoSeries};
ghost use Rattle.lab_tasks.specs.Kept.{kept_of, load_name, name_text, net_text, IsKept, IsWithKept};
ghost use Rattle.lab_tasks.specs.Latencies.{IsLatencyDrawn, IsLatencyText, IsNoCondition};
ghost use Rattle.lab_tasks.specs.MachinePages.{IsNoPage, IsPageText};
ghost use Rattle.lab_tasks.specs.Orders.{IsNoOrder, IsOrderText};
ghost use Rattle.lab_tasks.specs.Outcomes.{files_of, folder_of, AreGiven, IsGiven};
ghost use Rattle.lab_tasks.specs.Plans.{IsNoCurve, IsNoMap};
ghost use Rattle.lab_tasks.specs.RatePictures.{IsRatePicture};
ghost use Rattle.lab_tasks.specs.Summaries.{IsSummary};
ghost use Rattle.lab_tasks.specs.SweepTables.{OrMemory};
ghost use Rattle.lab_tasks.specs.Tables.{delay_row, rate_row, table_text};
ghost use Rattle.lab_tasks.specs.Traces.{IsNoTag, IsTraceText};
ghost use Rattle.lab_tasks.specs.Words.{text_of};

use crate::busy::{BusyWords, busy_report};
use crate::check::summary;
use crate::completion::completion_report;
use crate::convert::{ConvertWords, convert_file, refuse_source};
use crate::cycles::cycles_at;
use crate::delay_picture::delay_picture;
use crate::delays::{delay_points, delay_table};
use crate::edit_sweep::edit_table;
use crate::either::refuse_other;
use crate::end::End;
use crate::full::full_report;
use crate::grid::Grid;
use crate::latency::{LatencyWords, condition, drawn, report};
use crate::load::load;
use crate::map::map_picture;
use crate::order::{OrderWords, order_text, order_window};
use crate::other_net::elsewhere;
use crate::outcome::{OutFile, Outcome};
use crate::page::{page_of, page_window};
use crate::plan::{CurvePlan, curve_plan, map_plan};
use crate::plot::plotted;
use crate::points::{delay_loads, rate_loads};
use crate::progress::Progress;
use crate::rate_picture::rate_picture;
use crate::rates::{rate_points, rate_table};
use crate::series::{SeriesTexts, SeriesWords, series_texts};
use crate::setup::set_up;
use crate::sweep::sweep_table;
use crate::tables::{DelayPoint, RatePoint};
use crate::trace::{TraceWords, trace_made, traced};
use crate::words::{Asked, CurveWords, DelayWords, MapWords, SweepWords};
use experiments::{Load, MOST_CYCLES, project_of};
use page_map::MAX_K;
use project_book::{Edit, Project};
use project_file::{ProjectFault, read_project, write_project};
use run_reports::Window;
use std::alloc::{AllocError, Global};
use std::fmt;
use std::thread::Threads;

/// Nothing printed, and no file.
fn nothing(alloc: Global) -> Outcome
    ensures printed { result.printed.items ≡ [] }
    ensures files { result.files.items ≡ [] }
    ensures folder { result.folder ≡ None }
    ensures elsewhere { result.elsewhere ≡ None }
{
    Outcome {
        printed: Vec::new(alloc),
        files: Vec::new(alloc),
        folder: None,
        elsewhere: None,
    }
}

/// Adds a file.
fn add_file(
    alloc: Global,
    outcome: &mut Outcome,
    name: &str,
    bytes: Vec<u8>,
) -> Result<(), AllocError>
    ensures printed { OnOk result (outcome.new.printed.items ≡ outcome.old.printed.items) }
    ensures files { OnOk result (files_of outcome.new ≡ files_of outcome.old ++ (name.now, bytes.items) ∷ []) }
    ensures folder { OnOk result (folder_of outcome.new ≡ folder_of outcome.old) }
{
    let name = String::from_str(alloc, name)?;
    outcome.files.push(OutFile { name, bytes })?;
    Ok(())
}

/// The bytes as the file of that name, or without a name on standard output.
pub(crate) fn to_file_or_output(
    alloc: Global,
    name: Option<&str>,
    bytes: Vec<u8>,
) -> Result<Outcome, AllocError>
    ensures { IfOk result (IsGiven (text_of name.entry) bytes.items) }
{
    let mut outcome = nothing(alloc);
    match name {
        Some(name) => add_file(alloc, &mut outcome, name, bytes)?,
        None => outcome.printed = bytes,
    }
    Ok(outcome)
}

/// The project that a file's bytes are.
pub(crate) fn project_in<'a>(alloc: Global, bytes: &[u8]) -> Result<Project, End<'a>>
    ensures filed { IfOk result (λ project. filed bytes.now ≡ Ok project) }
    ensures refused { IfErr result (IsNotMade bytes.now (λ P. ⊥)) }
{
    match read_project(alloc, bytes) {
        Ok(project) => Ok(project),
        Err(ProjectFault::Memory) => Err(End::Memory),
        Err(fault) => Err(End::Project(fault)),
    }
}

#[tactic(auto, using(crate::proofs::Stops::not_made))]
fn map<'a>(alloc: Global, words: &MapWords<'a>, bytes: &[u8]) -> Result<Outcome, End<'a>>
    ensures done { IfOk result (IsMapMade words.now bytes.now) }
    ensures refused { IfErr result (λ end. IsNotMade bytes.now (λ P. IsNoMap P.k P.horizon words.now end) end) }
{
    let project = project_in(alloc, bytes)?;
    let plan = map_plan(words, project.shape(), project.horizon())?;
    let text = map_picture(alloc, words.file, &project, plan)?;
    let mut outcome = to_file_or_output(alloc, words.out, text.into_bytes())?;
    outcome.elsewhere = elsewhere(&project, plan.net);
    Ok(outcome)
}

fn order<'a>(alloc: Global, words: &OrderWords<'a>, bytes: &[u8]) -> Result<Outcome, End<'a>>
    ensures done { IfOk result (IsMadeOf bytes.now (text_of words.now.out) (IsOrderText words.now)) }
    ensures refused { IfErr result (λ end. IsNotMade bytes.now (λ P. IsNoOrder P words.now end) end) }
{
    let project = project_in(alloc, bytes)?;
    let window = order_window(words, &project)?;
    let text = order_text(alloc, words, &project, window)?;
    Ok(to_file_or_output(alloc, words.out, text.into_bytes())?)
}

fn latency<'a>(alloc: Global, words: &LatencyWords<'a>, bytes: &[u8]) -> Result<Outcome, End<'a>>
    ensures done { IfOk result (IsMadeOf bytes.now None (IsLatencyText words.now)) }
    ensures refused { IfErr result (λ end. IsNotMade bytes.now (λ P. IsNoCondition P words.now end) end) }
{
    let project = project_in(alloc, bytes)?;
    let condition = condition(words, &project)?;
    let text = report(alloc, words, &project, &condition)?;
    Ok(to_file_or_output(alloc, None, text.into_bytes())?)
}

fn done<'a>(alloc: Global, bytes: &[u8]) -> Result<Outcome, End<'a>>
    ensures done { IfOk result (IsMadeOf bytes.now None IsCompletionText) }
    ensures refused { IfErr result (IsNotMade bytes.now (λ P. ⊥)) }
{
    let project = project_in(alloc, bytes)?;
    let text = completion_report(alloc, &project)?;
    Ok(to_file_or_output(alloc, None, text.into_bytes())?)
}

fn trace<'a>(alloc: Global, words: &TraceWords<'a>, bytes: &[u8]) -> Result<Outcome, End<'a>>
    ensures done { IfOk result (IsMadeOf bytes.now (text_of words.now.out) (IsTraceText words.now)) }
    ensures refused { IfErr result (λ end. IsNotMade bytes.now (λ P. IsNoTag P words.now end) end) }
{
    let project = project_in(alloc, bytes)?;
    let tag = traced(words, &project)?;
    let text = trace_made(alloc, words, &project, tag)?;
    Ok(to_file_or_output(alloc, words.out, text.into_bytes())?)
}

fn full<'a>(alloc: Global, bytes: &[u8]) -> Result<Outcome, End<'a>>
    ensures done { IfOk result (IsMadeOf bytes.now None IsFullText) }
    ensures refused { IfErr result (IsNotMade bytes.now (λ P. ⊥)) }
{
    let project = project_in(alloc, bytes)?;
    let text = full_report(alloc, &project)?;
    Ok(to_file_or_output(alloc, None, text.into_bytes())?)
}

#[tactic(auto, using(crate::proofs::Stops::not_made))]
fn series<'a>(alloc: Global, words: &SeriesWords<'a>, bytes: &[u8]) -> Result<Outcome, End<'a>>
    ensures done { IfOk result (IsSeriesMade words.now bytes.now) }
    ensures refused { IfErr result (λ end. IsNotMade bytes.now (IsNoSeries words.now end) end) }
{
    let project = project_in(alloc, bytes)?;
    let SeriesTexts { table, picture } = match series_texts(alloc, words, &project) {
        Ok(texts) => texts,
        Err(end) => return Err(end),
    };
    Ok(both_given(alloc, words.csv, words.out, table, picture)?)
}

fn busy<'a>(alloc: Global, words: &BusyWords<'a>, bytes: &[u8]) -> Result<Outcome, End<'a>>
    ensures done { IfOk result (IsMadeOf bytes.now None (IsBusyText words.now)) }
    ensures refused { IfErr result (λ end. IsNotMade bytes.now (λ P. IsNotBusy P words.now end) end) }
{
    let project = project_in(alloc, bytes)?;
    let cycles = cycles_at(words.from, words.to, &project)?;
    let window = Window {
        from: cycles.0,
        to: cycles.1,
    };
    let text = busy_report(alloc, &project, window)?;
    Ok(to_file_or_output(alloc, None, text.into_bytes())?)
}

/// The network of a load, in the name of its project file.
pub(crate) fn net_name(load: Load) -> &'static str
    ensures { result.now ≡ net_text load.sync load.combine }
{
    match (load.sync, load.combine) {
        (false, _) => "low",
        (true, false) => "off",
        (true, true) => "on",
    }
}

/// A load as the name of its project file.
#[derive(Clone, Copy)]
struct FileName(Load);

impl fmt::Display for FileName {
    ghost output = { λ n. Some (load_name n.0) };

    fn fmt<W: fmt::Write>(&self, f: &mut fmt::Formatter<W>) -> fmt::Result {
        let (k, hot) = (self.0.k, self.0.hot);
        let net = net_name(self.0);
        let seed = self.0.seed;
        write!(f, "k{k}-hot{hot}-{net}-seed{seed}.toml")
    }
}

/// The name of a load's project file.
fn name_of(alloc: Global, folder: &str, load: Load) -> Result<String, AllocError>
    ensures { IfOk result (λ name. string_bytes name ≡ name_text folder.now load) }
{
    let name = FileName(load);
    format!(in alloc; "{folder}/{name}")
}

/// The project of a load with combining at the stages that it has: a file names no others.
fn kept_project<'a>(alloc: Global, load: Load) -> Result<Project, End<'a>>
    ensures kept { IfOk result (λ project. project ≡ kept_of load) }
    ensures memory { IsOkUnless result End.Memory }
{
    if load.k > MAX_K || load.cycles > MOST_CYCLES {
        return Err(End::Memory);
    }
    let plain = Load {
        combine: false,
        ..load
    };
    let mut project = project_of(alloc, plain)?;
    if !load.combine {
        return Ok(project);
    }
    for stage in 0..load.k {
        project = match project.apply(Edit::Combine { stage, on: true }) {
            Ok((edited, _changed)) => edited,
            Err(_) => return Err(End::Memory),
        };
    }
    Ok(project)
}

/// Adds the project file of each load.
fn keep<'a>(
    alloc: Global,
    outcome: &mut Outcome,
    folder: &str,
    loads: &[Load],
) -> Result<(), End<'a>>
    ensures printed { OnOk result (outcome.new.printed.items ≡ outcome.old.printed.items) }
    ensures files { OnOk result (Adds (IsKept folder.now) loads.now (files_of outcome.old) (files_of outcome.new)) }
    ensures folder { OnOk result (folder_of outcome.new ≡ Some folder.now) }
    ensures memory { IsOkUnless result End.Memory }
{
    outcome.folder = Some(String::from_str(alloc, folder)?);
    for load in loads {
        let project = kept_project(alloc, *load)?;
        let name = name_of(alloc, folder, *load)?;
        let bytes = write_project(alloc, &project)?;
        outcome.files.push(OutFile { name, bytes })?;
    }
    Ok(())
}

/// The table and the picture where they are wanted; the table on standard output where neither is.
fn both_given(
    alloc: Global,
    csv: Option<&str>,
    out: Option<&str>,
    table: String,
    picture: String,
) -> Result<Outcome, AllocError>
    ensures { IfOk result (AreGiven (text_of csv.entry) (text_of out.entry) (string_bytes table) (string_bytes picture)) }
{
    let mut outcome = nothing(alloc);
    if let Some(name) = out {
        add_file(alloc, &mut outcome, name, picture.into_bytes())?;
    }
    match csv {
        Some(name) => add_file(alloc, &mut outcome, name, table.into_bytes())?,
        None if out.is_none() => outcome.printed = table.into_bytes(),
        None => {}
    }
    Ok(outcome)
}

/// The same for what the words of a task of curves want.
pub(crate) fn curves<'a>(
    alloc: Global,
    words: &CurveWords<'a>,
    table: String,
    picture: String,
) -> Result<Outcome, AllocError>
    ensures { IfOk result (AreGiven (text_of words.now.csv) (text_of words.now.out) (string_bytes table) (string_bytes picture)) }
{
    both_given(alloc, words.csv, words.out, table, picture)
}

/// Adds the project files of some loads, where they are wanted.
fn with_kept<'a>(
    alloc: Global,
    words: &CurveWords<'a>,
    loads: &[Load],
    outcome: Outcome,
) -> Result<Outcome, End<'a>>
    ensures kept { IfOk result (IsWithKept (text_of words.now.keep) loads.now outcome) }
    ensures memory { IsOkUnless result End.Memory }
{
    let mut outcome = outcome;
    if let Some(folder) = words.keep {
        keep(alloc, &mut outcome, folder, loads)?;
    }
    Ok(outcome)
}

fn rates_drawn<'a>(
    alloc: Global,
    words: &CurveWords<'a>,
    plan: &CurvePlan,
    points: &[RatePoint],
) -> Result<Outcome, AllocError>
    requires few { length plan.now.hot.items ≤ 7 }
    requires small { plan.now.k ≤ max_k }
    ensures { IfOk result (IsTableGiven words.now (IsRatePicture plan.now points.now) (table_text rate_header rate_row points.now)) }
{
    let table = rate_table(alloc, points)?;
    let picture = rate_picture(alloc, plan, points)?;
    curves(alloc, words, table, picture)
}

fn rates<'a, T: Threads + Sync, P: Progress>(
    rt: &T,
    alloc: Global,
    words: &CurveWords<'a>,
    progress: &mut P,
) -> Result<Outcome, End<'a>>
    ensures done { IfOk result (AreRates words.now) }
    ensures refused { IfErr result (λ end. (end ≡ End.Memory) ⊎ IsNoCurve words.now end) }
{
    let plan = curve_plan(alloc, words)?;
    let points = rate_points(rt, alloc, &plan, progress)?;
    let outcome = rates_drawn(alloc, words, &plan, points.as_slice())?;
    let loads = rate_loads(alloc, &plan)?;
    with_kept(alloc, words, loads.as_slice(), outcome)
}

fn delays_drawn<'a>(
    alloc: Global,
    words: &CurveWords<'a>,
    plan: &CurvePlan,
    points: &[DelayPoint],
) -> Result<Outcome, AllocError>
    ensures { IfOk result (IsTableGiven words.now (IsDelayPicture plan.now points.now) (table_text delay_header delay_row points.now)) }
{
    let table = delay_table(alloc, points)?;
    let picture = delay_picture(alloc, plan, points)?;
    curves(alloc, words, table, picture)
}

fn delays<'a, T: Threads + Sync, P: Progress>(
    rt: &T,
    alloc: Global,
    words: &CurveWords<'a>,
    progress: &mut P,
) -> Result<Outcome, End<'a>>
    ensures done { IfOk result (AreDelays words.now) }
    ensures refused { IfErr result (λ end. (end ≡ End.Memory) ⊎ IsNoCurve words.now end) }
{
    let plan = curve_plan(alloc, words)?;
    let points = delay_points(rt, alloc, &plan, progress)?;
    let outcome = delays_drawn(alloc, words, &plan, points.as_slice())?;
    let loads = delay_loads(alloc, &plan)?;
    with_kept(alloc, words, loads.as_slice(), outcome)
}

/// Whether each number of an answer has a column of its own.
fn has_numbers(words: &SweepWords<'_>) -> bool
    ensures { result ≡ has_numbers words.now }
{
    words.numbers || words.plot.is_some()
}

fn latencies_drawn<'a>(
    alloc: Global,
    words: &DelayWords<'a>,
    bytes: &[u8],
) -> Result<Outcome, End<'a>>
    ensures done { IfOk result (IsMadeOf bytes.now (text_of words.now.curves.out) (IsLatencyDrawn words.now.latency)) }
    ensures refused { IfErr result (λ end. IsNotMade bytes.now (λ P. IsNoCondition P words.now.latency end) end) }
{
    let project = project_in(alloc, bytes)?;
    let condition = condition(&words.latency, &project)?;
    let text = drawn(alloc, &words.latency, &project, &condition)?;
    Ok(to_file_or_output(alloc, words.curves.out, text.into_bytes())?)
}

/// What is measured, or the latencies of a file.
fn delays_asked<'a, T: Threads + Sync, P: Progress>(
    rt: &T,
    alloc: Global,
    words: &DelayWords<'a>,
    bytes: &[u8],
    progress: &mut P,
) -> Result<Outcome, End<'a>>
    ensures done { IfOk result (AreDelaysMade words.now bytes.now) }
    ensures refused { IfErr result (AreDelaysNotMade words.now bytes.now) }
{
    refuse_other(words)?;
    match words.file {
        Some(_) => latencies_drawn(alloc, words, bytes),
        None => delays(rt, alloc, &words.curves, progress),
    }
}

/// The table that the words of a sweep ask for.
#[tactic(auto, using(crate::proofs::Stops::or_stop_memory, crate::proofs::Stops::or_stop_by))]
fn swept<'a, T: Threads + Sync>(
    rt: &T,
    alloc: Global,
    words: &SweepWords<'a>,
    project: Project,
) -> Result<Grid, End<'a>>
    ensures done { IfOk result (IsSweepTable words.now project) }
    ensures refused { IfErr result (λ end. IsNoSweepTable words.now end project) }
{
    let (depths, asks) = (words.depths.as_slice(), words.asks.as_slice());
    let project = match set_up(project, words.setups.as_slice()) {
        Ok(project) => project,
        Err(end) => return Err(end),
    };
    let edits = words.edits.as_slice();
    let numbers = has_numbers(words);
    if edits.is_empty() {
        return sweep_table(rt, alloc, project, numbers, depths, asks);
    }
    edit_table(rt, alloc, &project, numbers, words.zip, depths, edits, asks)
}

/// The picture of the table, where one is asked for.
fn picture_of<'a>(alloc: Global, words: &SweepWords<'a>, table: &Grid) -> Result<String, End<'a>>
    ensures done { IfOk result (λ text. IsPlotted words.now (text_of words.now.plot) table.now (string_bytes text)) }
    ensures refused { IfErr result (OrMemory (IsNoPlotted words.now (text_of words.now.plot) table.now)) }
{
    match words.plot {
        None => Ok(String::new(alloc)),
        Some(plot) => plotted(alloc, words.file, plot, words.x, words.ys.as_slice(), table),
    }
}

/// The table and the picture of a project's sweep, where they are wanted.
#[tactic(auto, using(crate::proofs::SweptTexts::not_swept, crate::proofs::SweptTexts::not_plotted))]
fn sweep_of<'a, T: Threads + Sync>(
    rt: &T,
    alloc: Global,
    words: &SweepWords<'a>,
    project: Project,
) -> Result<Outcome, End<'a>>
    ensures done { IfOk result (IsSweepOf words.now project) }
    ensures refused { IfErr result (λ end. IsNoSweep words.now end project) }
{
    let table = match swept(rt, alloc, words, project) {
        Ok(table) => table,
        Err(end) => return Err(end),
    };
    let picture = match picture_of(alloc, words, &table) {
        Ok(picture) => picture,
        Err(end) => return Err(end),
    };
    let text = table.text(alloc)?;
    Ok(both_given(alloc, words.csv, words.plot, text, picture)?)
}

#[tactic(auto, using(crate::proofs::Stops::not_made))]
fn sweep<'a, T: Threads + Sync>(
    rt: &T,
    alloc: Global,
    words: &SweepWords<'a>,
    bytes: &[u8],
) -> Result<Outcome, End<'a>>
    ensures done { IfOk result (IsSweepMade words.now bytes.now) }
    ensures refused { IfErr result (λ end. IsNotMade bytes.now (IsNoSweep words.now end) end) }
{
    let project = project_in(alloc, bytes)?;
    match sweep_of(rt, alloc, words, project) {
        Ok(outcome) => Ok(outcome),
        Err(end) => Err(end),
    }
}

fn check<'a>(alloc: Global, bytes: &[u8]) -> Result<Outcome, End<'a>>
    ensures done { IfOk result (IsMadeOf bytes.now None IsSummary) }
    ensures refused { IfErr result (IsNotMade bytes.now (λ P. ⊥)) }
{
    let project = project_in(alloc, bytes)?;
    let text = summary(alloc, &project)?;
    Ok(to_file_or_output(alloc, None, text.into_bytes())?)
}

fn convert<'a>(alloc: Global, words: &ConvertWords<'a>, bytes: &[u8]) -> Result<Outcome, End<'a>>
    ensures done { IfOk result (λ o. (is_over words.now ≡ false) × IsMadeOf bytes.now (text_of words.now.out) IsConverted o) }
    ensures refused { IfErr result (λ end. IsOver words.now end ⊎ ((is_over words.now ≡ false) × IsNotMade bytes.now (λ P. ⊥) end)) }
{
    refuse_source(words)?;
    let project = project_in(alloc, bytes)?;
    let text = convert_file(alloc, &project)?;
    Ok(to_file_or_output(alloc, words.out, text)?)
}

fn page<'a>(alloc: Global, words: &OrderWords<'a>, bytes: &[u8]) -> Result<Outcome, End<'a>>
    ensures done { IfOk result (IsMadeOf bytes.now (text_of words.now.out) (IsPageText words.now)) }
    ensures refused { IfErr result (λ end. IsNotMade bytes.now (λ P. IsNoPage P words.now end) end) }
{
    let project = project_in(alloc, bytes)?;
    let window = page_window(words, &project)?;
    let text = page_of(alloc, &project, window)?;
    Ok(to_file_or_output(alloc, words.out, text.into_bytes())?)
}

/// Does what is asked for, over the bytes of its FILE where it has one.
///
/// # Errors
///
/// The project that is refused, a word that is, or a growth. A session of the shell is no task, and two files are compared by
/// `compare`: `Words`.
pub fn perform<'a, T: Threads + Sync, P: Progress>(
    rt: &T,
    alloc: Global,
    asked: &Asked<'a>,
    bytes: &[u8],
    progress: &mut P,
) -> Result<Outcome, End<'a>>
    ensures done { IfOk result (IsDone asked.now bytes.now) }
    ensures refused { IfErr result (IsNotDone asked.now bytes.now) }
{
    match asked {
        Asked::Map(words) => map(alloc, words, bytes),
        Asked::Order(words) => order(alloc, words, bytes),
        Asked::Latency(words) => latency(alloc, words, bytes),
        Asked::Done { .. } => {
            let outcome = done(alloc, bytes)?;
            Ok(outcome)
        }
        Asked::Trace(words) => trace(alloc, words, bytes),
        Asked::Full { .. } => {
            let outcome = full(alloc, bytes)?;
            Ok(outcome)
        }
        Asked::Series(words) => series(alloc, words, bytes),
        Asked::Busy(words) => busy(alloc, words, bytes),
        Asked::Rates(words) => rates(rt, alloc, words, progress),
        Asked::Delays(words) => delays_asked(rt, alloc, words, bytes, progress),
        Asked::Load(words) => load(rt, alloc, words, progress),
        Asked::Sweep(words) => sweep(rt, alloc, words, bytes),
        Asked::Check { .. } => {
            let outcome = check(alloc, bytes)?;
            Ok(outcome)
        }
        Asked::Convert(words) => convert(alloc, words, bytes),
        Asked::Page(words) => page(alloc, words, bytes),
        // A session isn't made at once, and two files are compared by `compare`.
        Asked::Compare(_) | Asked::Shell(_) => Err(End::Words),
    }
}
