//! What came of each cycle of a run.
ghost use Rattle.std.specs.Prelude.{◌≡◌, ◌≤◌, ◌+◌, ◌++◌, [], ◌∷◌, IfOk, OnOk, is_some};
ghost use Rattle.omega_net.specs.Numbers.{components};
ghost use Rattle.omega_net.specs.Ports.{message_at};
ghost use Rattle.machine_cells.specs.Run.{run};
ghost use Rattle.machine_cells.specs.Runs.{state_in};
ghost use Rattle.monitor_sums.specs.Counts.{one};
ghost use Rattle.monitor_sums.specs.declared.counter.Counter.TheVariants.{Answered, Served};
ghost use Rattle.experiments.specs.Flows.{counted_at, AreFlows, IsFlow};
ghost use Rattle.run_reports.specs.Runners.{IsAt};

use crate::{Fault, Load, MOST_CYCLES, project_of};
use grid_law::NoMemory;
use omega_net::Reply;
use page_map::MAX_K;
use project_book::Project;
use run_reports::Runner;
use std::alloc::{AllocError, Global};

/// For each cycle of a run, from 0 on, how many references were answered, and how many requests served, in the step to it.
#[derive(Drop)]
pub struct Flows {
    pub answered: Vec<u16>,
    pub served: Vec<u16>,
}

/// 1 for what is so.
fn one(so: bool) -> u16
    ensures one { result ≡ one so }
    ensures few { result ≤ 1 }
{
    u16::from(so)
}

/// How many replies a processor received.
fn replies_in(got: [Option<Reply>; 2]) -> u16
    ensures count { result ≡ one (is_some (message_at got 0)) + one (is_some (message_at got 1)) }
    ensures few { result ≤ 2 }
{
    let [low, comb] = got;
    one(low.is_some()) + one(comb.is_some())
}

/// How many references were answered in the step to the present cycle.
fn answered_now(project: &Project, runner: &Runner) -> u16
    requires { IsAt project.now runner.now }
    ensures { result ≡ counted_at Answered (state_in (run project.now)) (components project.now.k) runner.now.cycle }
{
    let mut sum: u16 = 0;
    for p in 0..project.shape().lines() {
        sum += replies_in(runner.row.got(p));
    }
    sum
}

/// How many requests modules served in the step to the present cycle.
fn served_now(project: &Project, runner: &Runner) -> u16
    requires { IsAt project.now runner.now }
    ensures { result ≡ counted_at Served (state_in (run project.now)) (components project.now.k) runner.now.cycle }
{
    let mut sum: u16 = 0;
    for m in 0..project.shape().lines() {
        sum += one(runner.row.served(m));
    }
    sum
}

impl Flows {
    /// Adds what came of the step to the present cycle.
    fn add(&mut self, project: &Project, runner: &Runner) -> Result<(), AllocError>
        requires { IsAt project.now runner.now }
        ensures answered { OnOk result (self.new.answered.items ≡ self.old.answered.items ++ counted_at Answered (state_in (run project.now)) (components project.now.k) runner.now.cycle ∷ []) }
        ensures served { OnOk result (self.new.served.items ≡ self.old.served.items ++ counted_at Served (state_in (run project.now)) (components project.now.k) runner.now.cycle ∷ []) }
    {
        self.answered.push(answered_now(project, runner))?;
        self.served.push(served_now(project, runner))?;
        Ok(())
    }
}

/// What came of each cycle of the run of the project. It simulates the project from cycle 0.
///
/// # Errors
///
/// Where a growth was refused. What was taken is given back.
pub fn flows_of(alloc: Global, project: &Project) -> Result<Flows, NoMemory>
    ensures answered { IfOk result (λ f. IsFlow project.now Answered f.answered.items) }
    ensures served { IfOk result (λ f. IsFlow project.now Served f.served.items) }
{
    project.is_project();
    let mut runner = Runner::start(alloc, project)?;
    let mut flows = Flows {
        answered: Vec::new(alloc),
        served: Vec::new(alloc),
    };
    flows.add(project, &runner)?;
    for _cycle in 0..project.horizon() {
        runner.step(project)?;
        flows.add(project, &runner)?;
    }
    Ok(flows)
}

/// What came of each cycle of the run of a load's project.
pub(crate) fn flows_by(alloc: Global, load: Load) -> Result<Flows, Fault>
    ensures { AreFlows load result }
{
    if load.k > MAX_K || load.cycles > MOST_CYCLES {
        return Err(Fault::Load);
    }
    let project = match project_of(alloc, load) {
        Ok(project) => project,
        Err(_) => return Err(Fault::Memory),
    };
    match flows_of(alloc, &project) {
        Ok(flows) => Ok(flows),
        Err(_) => Err(Fault::Memory),
    }
}
