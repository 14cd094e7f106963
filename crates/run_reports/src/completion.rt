//! When each processor of a run had its last reply, and when its script was at its end.
ghost use Rattle.std.specs.Prelude.{◌≡◌, ◌<◌, ◌+◌, ◌^◌, IfOk, Some, if◌then◌else◌, length};
ghost use Rattle.omega_net.specs.Numbers.{lines};
ghost use Rattle.machine_cells.specs.declared.state.MachineState.TheVariants.{Proc};
ghost use Rattle.machine_cells.specs.Run.{run};
ghost use Rattle.machine_cells.specs.Runs.{state_in};
ghost use Rattle.flat_row.specs.Row.{proc_of};
ghost use Rattle.project_book.specs.Project.{length_at};
ghost use Rattle.run_queries.specs.Answers.{first_of};
ghost use Rattle.run_reports.specs.Completions.{completion_of, completions, cycle_of, has_ended, has_reply};
ghost use Rattle.run_reports.specs.Marking.{AreCompletions};
ghost use Rattle.run_reports.specs.Runners.{IsAt};

use crate::runner::Runner;
use grid_law::NoMemory;
use project_book::Project;
use std::alloc::{AllocError, Global};

/// How far a processor came in a run.
#[derive(Clone, Copy, PartialEq, Eq, Debug)]
pub struct Completion {
    pub proc: u32,
    /// The cycle of the last state that shows a reply to it; None where no state up to the horizon does.
    pub last_reply: Option<u32>,
    /// The cycle of the first state that shows its script at its end; None where no state up to the horizon does.
    pub script_end: Option<u32>,
}

/// What a processor comes to in a run.
#[derive(Clone, Copy, PartialEq, Eq, Debug)]
pub enum Event {
    LastReply,
    ScriptEnd,
}

impl Completion {
    /// The cycle of an event; None where it isn't there.
    pub fn cycle(&self, event: Event) -> Option<u32>
        ensures { result ≡ cycle_of event self.now }
    {
        match event {
            Event::LastReply => self.last_reply,
            Event::ScriptEnd => self.script_end,
        }
    }
}

/// The cycle of the last reply, the present one included, after the last one before.
fn last_reply(before: Option<u32>, runner: &Runner, proc: u32) -> Option<u32>
    requires { proc < lines runner.now.row.k }
    ensures { result ≡ (if has_reply (Some (Proc (proc_of runner.now.row proc))) then Some runner.now.cycle else before) }
{
    let [low, comb] = runner.row.got(proc);
    if low.is_some() || comb.is_some() {
        return Some(runner.cycle);
    }
    before
}

/// The first cycle that shows a script of so many entries at its end, the present one included, after the first one before.
fn script_end(before: Option<u32>, entries: u32, runner: &Runner, proc: u32) -> Option<u32>
    requires { proc < lines runner.now.row.k }
    ensures { result ≡ first_of before (if has_ended entries (Some (Proc (proc_of runner.now.row proc))) then Some runner.now.cycle else None) }
{
    if before.is_none() && entries <= u32::from(runner.row.index(proc)) {
        return Some(runner.cycle);
    }
    before
}

/// A completion, with what the state of the present cycle shows.
fn with_cycle(before: Completion, project: &Project, runner: &Runner) -> Completion
    requires at { IsAt project.now runner.now }
    requires there { before.proc < lines project.now.k }
    ensures { before ≡ completion_of project.now (state_in (run project.now)) runner.now.cycle before.proc → result ≡ completion_of project.now (state_in (run project.now)) (runner.now.cycle + 1) before.proc }
{
    let proc = before.proc;
    Completion {
        proc,
        last_reply: last_reply(before.last_reply, runner, proc),
        script_end: script_end(before.script_end, project.length(proc), runner, proc),
    }
}

/// The completions of all processors before the first cycle.
fn first_completions(alloc: Global, project: &Project) -> Result<Vec<Completion>, AllocError>
    ensures { IfOk result (λ v. AreCompletions project.now 0 v.items) }
{
    let mut all = Vec::new(alloc);
    for proc in 0..project.processors() {
        all.push(Completion {
            proc,
            last_reply: None,
            script_end: None,
        })?;
    }
    Ok(all)
}

/// Adds what the states of the present cycle show.
fn add_cycle(project: &Project, runner: &Runner, all: &mut Vec<Completion>)
    requires at { IsAt project.now runner.now }
    requires are { AreCompletions project.now runner.now.cycle all.old.items }
    ensures { AreCompletions project.now (runner.now.cycle + 1) all.new.items }
{
    for proc in 0..project.processors() as usize {
        let before = all[proc];
        all[proc] = with_cycle(before, project, runner);
    }
}

/// When each processor had its last reply and when its script was at its end, in the run of a project up to its horizon; by
/// processor. It simulates the project from cycle 0, and keeps no state of it.
///
/// # Errors
///
/// Where a growth was refused. What was taken is given back.
pub fn completions(alloc: Global, project: &Project) -> Result<Vec<Completion>, NoMemory>
    ensures { IfOk result (λ v. v.items ≡ completions project.now (state_in (run project.now))) }
{
    project.is_project();
    let mut runner = Runner::start(alloc, project)?;
    let mut all = first_completions(alloc, project)?;
    for _cycle in 0..project.horizon() {
        add_cycle(project, &runner, &mut all);
        runner.step(project)?;
    }
    add_cycle(project, &runner, &mut all);
    Ok(all)
}
