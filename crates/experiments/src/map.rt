//! Tree saturation, queue by queue and cycle by cycle.
ghost use Rattle.std.specs.Prelude.{◌≡◌, ◌<◌, ◌≤◌, ◌+◌, ◌-◌, ◌++◌, IfOk, OnOk, find, map, length, nat_le, nat_lt, slice_index};
ghost use Rattle.page_map.specs.Limits.{max_k};
ghost use Rattle.omega_net.specs.Numbers.{lines};
ghost use Rattle.omega_net.specs.Wires.{below};
ghost use Rattle.project_book.specs.Project.{forward};
ghost use Rattle.machine_cells.specs.Run.{run};
ghost use Rattle.machine_cells.specs.Runs.{state_in};
ghost use Rattle.saturation.specs.Levels.{level, first_cycles};
ghost use Rattle.saturation.specs.Towards.{is_full_on, is_full_stage, queues_at};
ghost use Rattle.experiments.specs.Lengths.{length_there, lengths_now, stage_now, AreLengths, IsKept};
ghost use Rattle.experiments.specs.Maps.{length_on, lengths_towards, stage_lengths, stages_lengths, levels_over, served_over};
ghost use Rattle.run_reports.specs.Runners.{IsAt};

use crate::queues::has_served;
use crate::series::{QueueLengths, Queues, Series};
use grid_law::NoMemory;
use omega_net::Net;
use project_book::{Depths, Project};
use run_reports::Runner;
use saturation::{line_towards, queues_at};
use std::alloc::{AllocError, Global};

/// The cycles from one to another, both included.
#[derive(Clone, Copy, PartialEq, Eq, Debug)]
pub struct Window {
    pub from: u32,
    pub to: u32,
}

/// The queues of a stage that lead to a module, by their lines.
#[derive(Drop)]
pub struct StageLengths {
    pub stage: u32,
    pub queues: Queues,
}

/// How the tree of full queues towards a module grows.
#[derive(Drop)]
pub struct SaturationMap {
    /// From the last stage to the first.
    pub stages: Vec<StageLengths>,
    /// The level of each cycle: how many stages, from the last one back, have only full queues.
    pub levels: Series,
    /// For each level from 1 on the first cycle of the whole run that has it or a higher one.
    pub firsts: Vec<Option<u32>>,
    /// Whether the module served a request of the network in the step to each cycle.
    pub served: Vec<bool>,
}

/// What of a run a map shows: the queues of a network that lead to a module, in the cycles of a window.
#[derive(Clone, Copy)]
struct Scope {
    net: Net,
    module: u32,
    window: Window,
}

/// What a run shows of it, cycle by cycle from 0 on.
#[derive(Drop)]
struct Kept {
    scope: Scope,
    /// For each cycle of the window the length of each queue: those of the last stage first, and of a stage by their places.
    lengths: Vec<u8>,
    /// For each cycle of the window whether the module served a request of the network in the step to it.
    served: Vec<bool>,
    /// The level of each cycle.
    levels: Vec<u8>,
}

/// The length of the queue on a line of a stage at the present cycle.
fn length_on(project: &Project, runner: &Runner, net: Net, stage: u32, line: u32) -> u8
    requires at { IsAt project.now runner.now }
    requires stage { stage < project.now.k }
    requires line { line < lines project.now.k }
    ensures { result ≡ length_on project.now.k net (state_in (run project.now) runner.now.cycle) stage line }
{
    let _project = project;
    runner.row.length_forward(net, stage, line / 2, line % 2)
}

/// Whether a queue of that length has fewer than two free places.
fn is_full(project: &Project, net: Net, length: u8) -> bool
    ensures { result ≡ nat_lt (forward project.now net - length) 2 }
{
    project
        .depth(Depths::forward(net))
        .saturating_sub(u32::from(length))
        < 2
}

/// Whether the queue on a line of a stage is full at the present cycle.
fn is_full_on(project: &Project, runner: &Runner, net: Net, stage: u32, line: u32) -> bool
    requires at { IsAt project.now runner.now }
    requires stage { stage < project.now.k }
    requires line { line < lines project.now.k }
    ensures { result ≡ is_full_on project.now net (state_in (run project.now) runner.now.cycle) stage line }
{
    is_full(project, net, length_on(project, runner, net, stage, line))
}

/// Whether all queues of a stage that lead to the module are full at the present cycle.
fn is_full_stage(project: &Project, runner: &Runner, scope: Scope, stage: u32) -> bool
    requires at { IsAt project.now runner.now }
    requires there { scope.«module» < lines project.now.k }
    requires stage { stage < project.now.k }
    ensures { result ≡ is_full_stage project.now scope.net scope.«module» (state_in (run project.now) runner.now.cycle) stage }
{
    let k = project.k();
    for place in 0..queues_at(k, stage) {
        let line = line_towards(k, scope.module, stage, place);
        if !is_full_on(project, runner, scope.net, stage, line) {
            return false;
        }
    }
    true
}

/// Whether those of the stage before the last `level` ones are.
fn is_next_full(project: &Project, runner: &Runner, scope: Scope, level: u32) -> bool
    requires at { IsAt project.now runner.now }
    requires there { scope.«module» < lines project.now.k }
    requires level { level < project.now.k }
    ensures { result ≡ is_full_stage project.now scope.net scope.«module» (state_in (run project.now) runner.now.cycle) (project.now.k - 1 - level) }
{
    let stage = project.k() - 1 - level;
    is_full_stage(project, runner, scope, stage)
}

/// The level of the present cycle.
fn level_now(project: &Project, runner: &Runner, scope: Scope) -> u8
    requires at { IsAt project.now runner.now }
    requires there { scope.«module» < lines project.now.k }
    ensures { result ≡ level project.now scope.net scope.«module» (state_in (run project.now) runner.now.cycle) }
{
    let k = project.k();
    for level in 0..k {
        if !is_next_full(project, runner, scope, level) {
            return level as u8;
        }
    }
    k as u8
}

/// Adds the lengths of a stage's queues at the present cycle.
fn add_stage(
    lengths: &mut Vec<u8>,
    project: &Project,
    runner: &Runner,
    scope: Scope,
    stage: u32,
) -> Result<(), AllocError>
    requires at { IsAt project.now runner.now }
    requires there { scope.«module» < lines project.now.k }
    requires stage { stage < project.now.k }
    ensures { OnOk result (lengths.new.items ≡ lengths.old.items ++ stage_now project.now.k scope.net scope.«module» (state_in (run project.now) runner.now.cycle) stage) }
{
    let k = project.k();
    for place in 0..queues_at(k, stage) {
        let line = line_towards(k, scope.module, stage, place);
        lengths.push(length_on(project, runner, scope.net, stage, line))?;
    }
    Ok(())
}

/// Adds the lengths of all queues at the present cycle.
fn add_lengths(
    lengths: &mut Vec<u8>,
    project: &Project,
    runner: &Runner,
    scope: Scope,
) -> Result<(), AllocError>
    requires at { IsAt project.now runner.now }
    requires there { scope.«module» < lines project.now.k }
    ensures { OnOk result (lengths.new.items ≡ lengths.old.items ++ lengths_now project.now.k scope.net scope.«module» (state_in (run project.now) runner.now.cycle) project.now.k) }
{
    let k = project.k();
    for back in 0..k {
        add_stage(lengths, project, runner, scope, k - 1 - back)?;
    }
    Ok(())
}

impl Kept {
    /// Adds what the present cycle shows.
    fn add(&mut self, project: &Project, runner: &Runner) -> Result<(), AllocError>
        requires at { IsAt project.now runner.now }
        requires there { self.old.scope.«module» < lines project.now.k }
        ensures scope { self.new.scope ≡ self.old.scope }
        ensures kept { IsKept project.now runner.now.cycle self.old → OnOk result (IsKept project.now (runner.now.cycle + 1) self.new) }
    {
        let scope = self.scope;
        self.levels.push(level_now(project, runner, scope))?;
        if runner.cycle < scope.window.from || runner.cycle > scope.window.to {
            return Ok(());
        }
        add_lengths(&mut self.lengths, project, runner, scope)?;
        self.served
            .push(has_served(&runner.row, scope.net, scope.module))?;
        Ok(())
    }

    /// What the run of a project shows.
    fn of_run(alloc: Global, project: &Project, scope: Scope) -> Result<Kept, NoMemory>
        requires there { scope.«module» < lines project.now.k }
        requires within { scope.window.to ≤ project.now.horizon }
        ensures scope { IfOk result (λ kept. kept.scope ≡ scope) }
        ensures lengths { IfOk result (AreLengths project.now) }
        ensures served { IfOk result (λ kept. kept.served.items ≡ served_over scope.net (state_in (run project.now)) (lines project.now.k + scope.«module») scope.window.from scope.window.to) }
        ensures levels { IfOk result (λ kept. kept.levels.items ≡ map (λ t. level project.now scope.net scope.«module» (state_in (run project.now) t)) (below (project.now.horizon + 1))) }
    {
        project.is_project();
        let mut runner = Runner::start(alloc, project)?;
        let mut kept = Kept {
            scope,
            lengths: Vec::new(alloc),
            served: Vec::new(alloc),
            levels: Vec::new(alloc),
        };
        kept.add(project, &runner)?;
        let last = project.horizon();
        for _cycle in 0..last {
            runner.step(project)?;
            kept.add(project, &runner)?;
        }
        Ok(kept)
    }

    /// The length of the queue at a place of a stage at a cycle of the window, by its place among them.
    fn length(&self, project: &Project, index: u32, stage: u32, place: u32) -> u8
        requires kept { AreLengths project.now self.now }
        requires within { self.now.scope.window.to ≤ project.now.horizon }
        requires index { index < self.now.scope.window.to + 1 - self.now.scope.window.from }
        requires stage { stage < project.now.k }
        requires place { place < queues_at project.now.k stage }
        ensures { result ≡ length_there project.now.k self.now.scope.net self.now.scope.«module» (state_in (run project.now) (index + self.now.scope.window.from)) stage place }
    {
        project.is_project();
        let all = project.shape().lines() - 1;
        let behind = queues_at(project.k(), stage) - 1;
        self.lengths[(index * all + behind + place) as usize]
    }
}

/// The lengths of one queue, cycle by cycle.
fn queue_lengths(
    alloc: Global,
    project: &Project,
    kept: &Kept,
    stage: u32,
    place: u32,
) -> Result<Vec<u8>, AllocError>
    requires kept { AreLengths project.now kept.now }
    requires window { kept.now.scope.window.from ≤ kept.now.scope.window.to }
    requires within { kept.now.scope.window.to ≤ project.now.horizon }
    requires stage { stage < project.now.k }
    requires place { place < queues_at project.now.k stage }
    ensures { IfOk result (λ v. v.items ≡ map (λ i. length_there project.now.k kept.now.scope.net kept.now.scope.«module» (state_in (run project.now) (i + kept.now.scope.window.from)) stage place) (below (kept.now.scope.window.to + 1 - kept.now.scope.window.from))) }
{
    project.is_project();
    let window = kept.scope.window;
    let mut lengths = Vec::new(alloc);
    for index in 0..window.to + 1 - window.from {
        lengths.push(kept.length(project, index, stage, place))?;
    }
    Ok(lengths)
}

/// The queue at a place among those of a stage that lead to the module.
fn lengths_towards(
    alloc: Global,
    project: &Project,
    kept: &Kept,
    stage: u32,
    place: u32,
) -> Result<QueueLengths, AllocError>
    requires there { kept.now.scope.«module» < lines project.now.k }
    requires kept { AreLengths project.now kept.now }
    requires window { kept.now.scope.window.from ≤ kept.now.scope.window.to }
    requires within { kept.now.scope.window.to ≤ project.now.horizon }
    requires stage { stage < project.now.k }
    requires place { place < queues_at project.now.k stage }
    ensures { IfOk result (λ q. q ≡ lengths_towards project.now.k kept.now.scope.net kept.now.scope.«module» (state_in (run project.now)) kept.now.scope.window.from kept.now.scope.window.to stage place) }
{
    let line = line_towards(project.k(), kept.scope.module, stage, place);
    let lengths = queue_lengths(alloc, project, kept, stage, place)?;
    Ok(QueueLengths {
        line,
        lengths: Series::from_vec(lengths),
    })
}

/// The lengths of a stage's queues towards the module.
fn stage_lengths(
    alloc: Global,
    project: &Project,
    kept: &Kept,
    stage: u32,
) -> Result<Vec<QueueLengths>, AllocError>
    requires there { kept.now.scope.«module» < lines project.now.k }
    requires kept { AreLengths project.now kept.now }
    requires window { kept.now.scope.window.from ≤ kept.now.scope.window.to }
    requires within { kept.now.scope.window.to ≤ project.now.horizon }
    requires stage { stage < project.now.k }
    ensures { IfOk result (λ v. v.items ≡ stage_lengths project.now.k kept.now.scope.net kept.now.scope.«module» (state_in (run project.now)) kept.now.scope.window.from kept.now.scope.window.to stage) }
{
    let k = project.k();
    let mut queues = Vec::new(alloc);
    for place in 0..queues_at(k, stage) {
        queues.push(lengths_towards(alloc, project, kept, stage, place)?)?;
    }
    Ok(queues)
}

/// The lengths of all queues towards the module, from the last stage to the first.
fn stages_lengths(
    alloc: Global,
    project: &Project,
    kept: &Kept,
) -> Result<Vec<StageLengths>, AllocError>
    requires there { kept.now.scope.«module» < lines project.now.k }
    requires kept { AreLengths project.now kept.now }
    requires window { kept.now.scope.window.from ≤ kept.now.scope.window.to }
    requires within { kept.now.scope.window.to ≤ project.now.horizon }
    ensures { IfOk result (λ v. v.items ≡ stages_lengths project.now.k kept.now.scope.net kept.now.scope.«module» (state_in (run project.now)) kept.now.scope.window.from kept.now.scope.window.to) }
{
    let k = project.k();
    let mut stages = Vec::new(alloc);
    for back in 0..k {
        let stage = k - 1 - back;
        let queues = stage_lengths(alloc, project, kept, stage)?;
        stages.push(StageLengths {
            stage,
            queues: Queues::from_vec(queues),
        })?;
    }
    Ok(stages)
}

/// Whether a cycle has this level or a higher one.
fn reaches(levels: &[u8], cycle: u32, least: u8) -> bool
    requires { cycle < length levels.now }
    ensures { result ≡ nat_le least (slice_index levels.now cycle) }
{
    levels[cycle as usize] >= least
}

/// The first of these cycles with this level or a higher one.
fn first_cycle(levels: &[u8], cycles: u32, least: u8) -> Option<u32>
    requires { cycles ≤ length levels.now }
    ensures { result ≡ find (λ t. nat_le least (slice_index levels.now t)) (below cycles) }
{
    for cycle in 0..cycles {
        if reaches(levels, cycle, least) {
            return Some(cycle);
        }
    }
    None
}

/// For each level from 1 to k, the first of these cycles that has it or a higher one.
fn first_cycles(
    alloc: Global,
    levels: &[u8],
    cycles: u32,
    k: u32,
) -> Result<Vec<Option<u32>>, AllocError>
    requires few { k ≤ max_k }
    requires there { cycles ≤ length levels.now }
    ensures { IfOk result (λ v. v.items ≡ map (λ j. find (λ t. nat_le (j + 1) (slice_index levels.now t)) (below cycles)) (below k)) }
{
    let mut firsts = Vec::new(alloc);
    for level in 0..k {
        firsts.push(first_cycle(levels, cycles, level as u8 + 1))?;
    }
    Ok(firsts)
}

/// The lengths of the queues of a network that lead to a module, the level, and the requests of the network that the module
/// served, at each cycle of a window, in the run of the project; and the first cycle of each level in the whole run. It simulates
/// the project from cycle 0 to its horizon, and keeps no state of it. The conditions are that the module exists, and that the
/// window isn't empty and is within the horizon.
///
/// # Errors
///
/// Where a growth was refused. What was taken is given back.
pub fn saturation_map(
    alloc: Global,
    project: &Project,
    net: Net,
    module: u32,
    window: Window,
) -> Result<SaturationMap, NoMemory>
    requires there { «module» < lines project.now.k }
    requires window { window.from ≤ window.to }
    requires within { window.to ≤ project.now.horizon }
    ensures lengths { IfOk result (λ m. m.stages.items ≡ stages_lengths project.now.k net «module» (state_in (run project.now)) window.from window.to) }
    ensures levels { IfOk result (λ m. m.levels ≡ levels_over project.now net «module» (state_in (run project.now)) window.from window.to) }
    ensures firsts { IfOk result (λ m. m.firsts.items ≡ first_cycles project.now net «module» (state_in (run project.now))) }
    ensures served { IfOk result (λ m. m.served.items ≡ served_over net (state_in (run project.now)) (lines project.now.k + «module») window.from window.to) }
{
    project.is_project();
    let scope = Scope {
        net,
        module,
        window,
    };
    let kept = Kept::of_run(alloc, project, scope)?;
    let stages = stages_lengths(alloc, project, &kept)?;
    let cycles = project.horizon() + 1;
    let firsts = first_cycles(alloc, kept.levels.as_slice(), cycles, project.k())?;
    let shown = &kept.levels.as_slice()[window.from as usize..window.to as usize + 1];
    let levels = Vec::from_slice(alloc, shown)?;
    Ok(SaturationMap {
        stages,
        levels: Series::from_vec(levels),
        firsts,
        served: kept.served,
    })
}
