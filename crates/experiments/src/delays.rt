//! How long references wait for their replies.
ghost use Rattle.std.specs.Prelude.{◌≡◌, ◌<◌, ◌≤◌, ◌^◌, ◌+◌, ◌++◌, ℕ, [], IfOk, IfSome, OnOk, Some, length, option_to_list, slice_get, sum};
ghost use Rattle.std.specs.List.{AllZip, flat_map};
ghost use Rattle.std.specs.Option.{option_copied};
ghost use Rattle.omega_net.specs.Numbers.{lines};
ghost use Rattle.machine_cells.specs.declared.state.MachineState.TheVariants.{Proc};
ghost use Rattle.machine_cells.specs.Run.{run};
ghost use Rattle.machine_cells.specs.Runs.{state_in};
ghost use Rattle.flat_row.specs.Row.{proc_of};
ghost use Rattle.experiments.specs.Delays.{is_cold, since, waits, IsWaitedBy};
ghost use Rattle.experiments.specs.Logs.{came_at, came_in, issued_now, wait_of, AreLogs};
ghost use Rattle.run_reports.specs.Runners.{IsAt};

use crate::{Fault, Load, MOST_CYCLES, Window, project_of};
use grid_law::NoMemory;
use omega_net::{Reply, ScriptEntry};
use page_map::MAX_K;
use project_book::Project;
use rayon::prelude::*;
use run_reports::{HOT_ADDRESS, Runner};
use std::alloc::{AllocError, Global};
use std::thread::Threads;

/// How many replies came to references that aren't hot, and how many cycles they took in all.
#[derive(Clone, Copy, PartialEq, Eq, Debug)]
pub struct ColdWaits {
    pub count: u64,
    pub cycles: u64,
}

/// A reference that was issued.
#[derive(Clone, Copy)]
struct Issue {
    /// The cycle whose state shows it.
    cycle: u32,
    /// Whether it refers to another word than the hot one.
    cold: bool,
}

/// Whether an entry refers to another word than the hot one.
fn is_cold(entry: Option<ScriptEntry>) -> bool
    ensures { result ≡ is_cold entry }
{
    match entry {
        Some(ScriptEntry::Reference { address, .. } | ScriptEntry::Until { address, .. }) => {
            address != HOT_ADDRESS
        }
        _ => false,
    }
}

/// A reply that a processor received.
#[derive(Clone, Copy)]
struct Came {
    /// The cycle whose state shows it.
    cycle: u32,
    /// The number of the reference's issue.
    issue: u32,
}

/// What a processor issued and received in the cycles so far.
#[derive(Drop)]
struct Log {
    /// The entry that it had come to at the last of these cycles.
    index: u16,
    /// The references that it issued.
    issues: Vec<Issue>,
    /// The replies that it received from the first cycle of a window on.
    replies: Vec<Came>,
}

impl Log {
    /// Before the first cycle.
    fn new(alloc: Global, runner: &Runner, proc: u32) -> Log
        requires { proc < lines runner.now.row.k }
        ensures index { result.index ≡ (proc_of runner.now.row proc).index }
        ensures issues { result.issues.items ≡ [] }
        ensures replies { result.replies.items ≡ [] }
    {
        Log {
            index: runner.row.index(proc),
            issues: Vec::new(alloc),
            replies: Vec::new(alloc),
        }
    }

    /// Adds the reference that the processor issued in the step to the present cycle, if it did.
    fn add_issue(&mut self, project: &Project, runner: &Runner, proc: u32) -> Result<(), AllocError>
        requires { proc < lines runner.now.row.k }
        ensures index { OnOk result (self.new.index ≡ (proc_of runner.now.row proc).index) }
        ensures issues { OnOk result (self.new.issues.items ≡ self.old.issues.items ++ option_to_list (issued_now project.now proc self.old.index runner.now.cycle (proc_of runner.now.row proc))) }
        ensures replies { self.new.replies ≡ self.old.replies }
    {
        let before = self.index;
        self.index = runner.row.index(proc);
        if runner.row.sent(proc) {
            let entry = project.entry(proc, u32::from(before));
            self.issues.push(Issue {
                cycle: runner.cycle,
                cold: is_cold(entry),
            })?;
        }
        Ok(())
    }

    /// Adds a reply, if there is one.
    fn add_reply(&mut self, cycle: u32, reply: Option<Reply>) -> Result<(), AllocError>
        ensures replies { OnOk result (self.new.replies.items ≡ self.old.replies.items ++ option_to_list (came_at cycle reply)) }
        ensures index { self.new.index ≡ self.old.index }
        ensures issues { self.new.issues ≡ self.old.issues }
    {
        if let Some(reply) = reply {
            self.replies.push(Came {
                cycle,
                issue: reply.tag.issue,
            })?;
        }
        Ok(())
    }

    /// Adds the replies that the processor received in the step to the present cycle.
    fn add_replies(&mut self, runner: &Runner, proc: u32) -> Result<(), AllocError>
        requires { proc < lines runner.now.row.k }
        ensures replies { OnOk result (self.new.replies.items ≡ self.old.replies.items ++ came_in runner.now.cycle (Some (Proc (proc_of runner.now.row proc)))) }
        ensures index { self.new.index ≡ self.old.index }
        ensures issues { self.new.issues ≡ self.old.issues }
    {
        let [low, comb] = runner.row.got(proc);
        self.add_reply(runner.cycle, low)?;
        self.add_reply(runner.cycle, comb)?;
        Ok(())
    }

    /// How many cycles each of the replies took that came to references that aren't hot.
    fn waits(&self, alloc: Global) -> Result<Vec<u32>, AllocError>
        ensures { IfOk result (λ v. v.items ≡ flat_map (wait_of self.now.issues.items) self.now.replies.items) }
    {
        let mut numbers = Vec::new(alloc);
        for came in self.replies.as_slice() {
            add(&mut numbers, wait_of(self.issues.as_slice(), *came))?;
        }
        Ok(numbers)
    }
}

/// The cycles from the issue of a reference that isn't hot.
fn since(cycle: u32, issue: Option<&Issue>) -> Option<u32>
    ensures { result ≡ since cycle (option_copied issue.entry) }
{
    match issue {
        Some(issue) if issue.cold => Some(cycle.saturating_sub(issue.cycle)),
        _ => None,
    }
}

/// The cycles that a reply took, where it is to a reference that isn't hot.
fn wait_of(issued: &[Issue], came: Came) -> Option<u32>
    ensures { result ≡ since came.cycle (slice_get issued.now came.issue) }
{
    since(came.cycle, issued.get(came.issue as usize))
}

/// Adds a number, if there is one.
fn add(numbers: &mut Vec<u32>, number: Option<u32>) -> Result<(), AllocError>
    ensures { OnOk result (numbers.new.items ≡ numbers.old.items ++ option_to_list number) }
{
    if let Some(number) = number {
        numbers.push(number)?;
    }
    Ok(())
}

/// The logs of all processors before the first cycle.
fn first_logs(alloc: Global, project: &Project, runner: &Runner) -> Result<Vec<Log>, AllocError>
    requires at { IsAt project.now runner.now }
    requires first { runner.now.cycle ≡ 0 }
    ensures { IfOk result (λ logs. (from : ℕ) → AreLogs project.now from 0 0 logs.items) }
{
    let mut logs = Vec::new(alloc);
    for proc in 0..project.processors() {
        match logs.push(Log::new(alloc, runner, proc)) {
            Ok(()) => {}
            Err(_) => return Err(AllocError),
        }
    }
    Ok(logs)
}

/// Adds what the processors issued in the step to the present cycle.
fn add_issues(project: &Project, runner: &Runner, logs: &mut Vec<Log>) -> Result<(), AllocError>
    requires at { IsAt project.now runner.now }
    requires many { length logs.old.items ≡ 2 ^ project.now.k }
    ensures { (from : ℕ) → AreLogs project.now from runner.now.cycle runner.now.cycle logs.old.items → OnOk result (AreLogs project.now from (runner.now.cycle + 1) runner.now.cycle logs.new.items) }
{
    for proc in 0..project.processors() {
        logs[proc as usize].add_issue(project, runner, proc)?;
    }
    Ok(())
}

/// Adds what they received in it, from a cycle on.
fn add_replies(
    project: &Project,
    runner: &Runner,
    from: u32,
    logs: &mut Vec<Log>,
) -> Result<(), AllocError>
    requires at { IsAt project.now runner.now }
    requires many { length logs.old.items ≡ 2 ^ project.now.k }
    ensures { (n : ℕ) → AreLogs project.now from n runner.now.cycle logs.old.items → OnOk result (AreLogs project.now from n (runner.now.cycle + 1) logs.new.items) }
{
    if runner.cycle < from {
        return Ok(());
    }
    for proc in 0..project.processors() {
        logs[proc as usize].add_replies(runner, proc)?;
    }
    Ok(())
}

/// The logs of a run up to the end of a window, with the replies that came in the window.
fn logs_of(alloc: Global, project: &Project, window: Window) -> Result<Vec<Log>, NoMemory>
    requires { window.to ≤ project.now.horizon }
    ensures { IfOk result (λ logs. AreLogs project.now window.from window.to (window.to + 1) logs.items) }
{
    project.is_project();
    let mut runner = Runner::start(alloc, project)?;
    let mut logs = first_logs(alloc, project, &runner)?;
    for _cycle in 0..window.to {
        add_issues(project, &runner, &mut logs)?;
        add_replies(project, &runner, window.from, &mut logs)?;
        runner.step(project)?;
    }
    add_replies(project, &runner, window.from, &mut logs)?;
    Ok(logs)
}

/// How many cycles each reply took that came in a window to a reference that isn't hot, in the run of the project: by
/// processor, then by cycle. The time is that from the state in which the reference was issued to the state in which its
/// reply was received. It simulates the project from cycle 0 to the end of the window, and keeps no state of it. The window isn't
/// empty, and is within the horizon.
///
/// # Errors
///
/// Where a growth was refused. What was taken is given back.
pub fn cold_waits(alloc: Global, project: &Project, window: Window) -> Result<Vec<u32>, NoMemory>
    requires window { window.from ≤ window.to }
    requires within { window.to ≤ project.now.horizon }
    ensures { IfOk result (λ v. v.items ≡ waits project.now (state_in (run project.now)) window.from window.to) }
{
    let logs = logs_of(alloc, project, window)?;
    let mut numbers = Vec::new(alloc);
    for proc in 0..project.processors() {
        let more = logs[proc as usize].waits(alloc)?;
        numbers.extend_from_slice(more.as_slice())?;
    }
    Ok(numbers)
}

/// The sum of numbers, where it has 64 bits.
fn total(numbers: &[u32]) -> Option<u64>
    ensures { IfSome result (λ n. n ≡ sum numbers.now) }
{
    let mut total: u64 = 0;
    for number in numbers {
        total = total.checked_add(u64::from(*number))?;
    }
    Some(total)
}

/// The waits in the run of a load's project from a cycle to the last one.
fn waited_by(alloc: Global, load: Load, from: u32) -> Result<ColdWaits, Fault>
    ensures { IsWaitedBy load from result }
{
    if load.k > MAX_K || load.cycles > MOST_CYCLES || from > load.cycles {
        return Err(Fault::Load);
    }
    let project = match project_of(alloc, load) {
        Ok(project) => project,
        Err(_) => return Err(Fault::Memory),
    };
    let window = Window {
        from,
        to: load.cycles,
    };
    let numbers = match cold_waits(alloc, &project, window) {
        Ok(numbers) => numbers,
        Err(_) => return Err(Fault::Memory),
    };
    match total(numbers.as_slice()) {
        Some(cycles) => Ok(ColdWaits {
            count: numbers.len() as u64,
            cycles,
        }),
        None => Err(Fault::Memory),
    }
}

/// For each load the waits from a cycle to its last one. The loads are run by as many threads as there are processors; what
/// is answered for each hangs on that load alone.
///
/// # Errors
///
/// Where a growth for the list was refused. In the list: Load where there is no machine of the load's k, its cycles are past
/// the last horizon, or the first cycle is past them; Memory where a growth for the load's own run was refused.
pub fn waited_each<T: Threads + Sync>(
    rt: &T,
    alloc: Global,
    loads: &[Load],
    from: u32,
) -> Result<Vec<Result<ColdWaits, Fault>>, AllocError>
    ensures { IfOk result (λ v. AllZip (λ load r. IsWaitedBy load from r) loads.now v.items) }
{
    loads
        .par_iter()
        .with_min_len(1)
        .map(
            |load: &Load| -> Result<ColdWaits, Fault>
                ensures { IsWaitedBy load.now from result }
            { waited_by(alloc, *load, from) },
        )
        .collect(rt, alloc)
}
