//! The references of a run, each with the cycles that show its issue and its reply.
ghost use Rattle.std.specs.Prelude.{◌≡◌, ◌<◌, ◌^◌, ◌+◌, ◌++◌, ℕ, [], IfOk, OnOk, length, option_to_list, suc};
ghost use Rattle.omega_net.specs.Numbers.{lines};
ghost use Rattle.machine_cells.specs.Run.{run};
ghost use Rattle.machine_cells.specs.Runs.{state_in};
ghost use Rattle.flat_row.specs.Row.{proc_of};
ghost use Rattle.run_reports.specs.Logs.{answered_at, issued_now, marked, AreLogs, IsLog};
ghost use Rattle.run_reports.specs.References.{references};
ghost use Rattle.run_reports.specs.Runners.{IsAt};

use crate::runner::Runner;
use grid_law::NoMemory;
use omega_net::{Reply, ScriptEntry};
use project_book::Project;
use std::alloc::{AllocError, Global};

/// A reference of a run.
#[derive(Clone, Copy, PartialEq, Eq, Debug)]
pub struct Reference {
    /// The processor that issued it.
    pub proc: u32,
    /// The cycle of the first state that shows it issued.
    pub issued: u32,
    /// The entry of its processor's script that it was issued for.
    pub entry: Option<ScriptEntry>,
    /// The cycle of the first state that shows its reply; None where no state up to the horizon does.
    pub answered: Option<u32>,
}

/// The reference, answered at a cycle, if it was issued before and not answered yet.
fn answered_at(reference: Reference, cycle: u32) -> Reference
    ensures { result ≡ answered_at cycle reference }
{
    if reference.answered.is_some() || cycle <= reference.issued {
        return reference;
    }
    Reference {
        answered: Some(cycle),
        ..reference
    }
}

/// What a processor issued in the cycles so far.
#[derive(Drop)]
struct Log {
    /// The entry that it had come to at the last of these cycles.
    index: u16,
    /// Its references by issue number.
    references: Vec<Reference>,
}

impl Log {
    /// Before the first cycle.
    fn new(alloc: Global, runner: &Runner, proc: u32) -> Log
        requires { proc < lines runner.now.row.k }
        ensures index { result.index ≡ (proc_of runner.now.row proc).index }
        ensures references { result.references.items ≡ [] }
    {
        Log {
            index: runner.row.index(proc),
            references: Vec::new(alloc),
        }
    }

    /// Adds a reply of a cycle, if there is one.
    fn add_reply(&mut self, cycle: u32, reply: Option<Reply>)
        ensures references { self.new.references.items ≡ marked cycle reply 0 self.old.references.items }
        ensures index { self.new.index ≡ self.old.index }
    {
        if let Some(reply) = reply {
            let place = reply.tag.issue as usize;
            if place < self.references.len() {
                let reference = self.references[place];
                self.references[place] = answered_at(reference, cycle);
            }
        }
    }

    /// Adds the reference that the processor issued in the step to the present cycle, if it did.
    fn add_issue(&mut self, project: &Project, runner: &Runner, proc: u32) -> Result<(), AllocError>
        requires { proc < lines runner.now.row.k }
        ensures index { OnOk result (self.new.index ≡ (proc_of runner.now.row proc).index) }
        ensures references { OnOk result (self.new.references.items ≡ self.old.references.items ++ option_to_list (issued_now project.now proc self.old.index runner.now.cycle (proc_of runner.now.row proc))) }
    {
        let before = self.index;
        self.index = runner.row.index(proc);
        if runner.row.sent(proc) {
            let entry = project.entry(proc, u32::from(before));
            self.references.push(Reference {
                proc,
                issued: runner.cycle,
                entry,
                answered: None,
            })?;
        }
        Ok(())
    }

    /// Adds what the processor received and issued in the step to the present cycle.
    fn add_cycle(&mut self, project: &Project, runner: &Runner, proc: u32) -> Result<(), AllocError>
        requires at { IsAt project.now runner.now }
        requires there { proc < lines project.now.k }
        ensures { IsLog project.now runner.now.cycle proc self.old → OnOk result (IsLog project.now (runner.now.cycle + 1) proc self.new) }
    {
        let [low, comb] = runner.row.got(proc);
        self.add_reply(runner.cycle, low);
        self.add_reply(runner.cycle, comb);
        self.add_issue(project, runner, proc)?;
        Ok(())
    }
}

/// The logs of all processors before the first cycle.
fn first_logs(alloc: Global, project: &Project, runner: &Runner) -> Result<Vec<Log>, AllocError>
    requires at { IsAt project.now runner.now }
    requires first { runner.now.cycle ≡ 0 }
    ensures { IfOk result (λ logs. AreLogs project.now 0 logs.items) }
{
    let mut logs = Vec::new(alloc);
    for proc in 0..project.processors() {
        match logs.push(Log::new(alloc, runner, proc)) {
            Ok(()) => {}
            Err(_) => return Err(AllocError),
        }
    }
    Ok(logs)
}

/// Adds what the processors received and issued in the step to the present cycle.
fn add_cycle(project: &Project, runner: &Runner, logs: &mut Vec<Log>) -> Result<(), AllocError>
    requires at { IsAt project.now runner.now }
    requires many { length logs.old.items ≡ 2 ^ project.now.k }
    ensures { AreLogs project.now runner.now.cycle logs.old.items → OnOk result (AreLogs project.now (runner.now.cycle + 1) logs.new.items) }
{
    for proc in 0..project.processors() {
        logs[proc as usize].add_cycle(project, runner, proc)?;
    }
    Ok(())
}

/// The logs of a run up to its horizon.
fn logs_of(alloc: Global, project: &Project) -> Result<Vec<Log>, NoMemory>
    ensures { IfOk result (λ logs. AreLogs project.now (suc project.now.horizon) logs.items) }
{
    project.is_project();
    let mut runner = Runner::start(alloc, project)?;
    let mut logs = first_logs(alloc, project, &runner)?;
    for _cycle in 0..project.horizon() {
        add_cycle(project, &runner, &mut logs)?;
        runner.step(project)?;
    }
    add_cycle(project, &runner, &mut logs)?;
    Ok(logs)
}

/// The references of the run of a project up to its horizon: by processor, and by issue. It simulates the project from cycle 0,
/// and keeps no state of it.
///
/// # Errors
///
/// Where a growth was refused. What was taken is given back.
pub fn references(alloc: Global, project: &Project) -> Result<Vec<Reference>, NoMemory>
    ensures { IfOk result (λ v. v.items ≡ references project.now (state_in (run project.now))) }
{
    let logs = logs_of(alloc, project)?;
    let mut all = Vec::new(alloc);
    for proc in 0..project.processors() {
        all.extend_from_slice(logs[proc as usize].references.as_slice())?;
    }
    Ok(all)
}
