//! Workers in threads of their own.
ghost use Rattle.std.specs.Prelude.{◌≡◌, ◌≤◌, IfOk, IfErr, vec_len};
ghost use Rattle.wave_workers.specs.Working.{IsKept, IsWorked};

use crate::gate::Gate;
use crate::tally::Tally;
use crate::worked::{WorkFault, Worked};
use crate::worker::{Attended, Brings, Plan, run_worker};
use shared_bench::Pass;
use std::snapshot::Snapshot;
use std::sync::Wait;
use std::thread;
use std::thread::{PromisedHandle, Threads};
use std::time::Clock;

/// What came of it: nothing so far.
fn none(pass: Pass, fault: Option<WorkFault>) -> Worked
    ensures pass { result.pass ≡ pass }
    ensures fault { result.fault ≡ fault }
    ensures counts { (result.given ≡ 0) × (result.stored ≡ 0) × (result.started ≡ 0) }
{
    Worked {
        pass,
        given: 0,
        stored: 0,
        started: 0,
        fault,
    }
}

/// A worker in a thread of its own. It isn't `Drop`, so it can't be let go: who starts one joins it.
struct Working {
    thread: PromisedHandle<Attended, Brings>,
}

impl Working {
    /// Waits for the worker's end.
    fn join<R: Threads>(self, rt: &R) -> Attended
        ensures { IsKept self.thread.promise.pass.value result.pass }
    {
        let Working { thread } = self;
        thread.join(rt)
    }
}

/// Starts a worker on a pass of its own.
fn start<R: Threads + Wait + Clock + Sync + Send + Copy + 'static, G: Gate + Send + Drop + 'static>(
    rt: &R,
    own: Pass,
    gate: G,
    component: u32,
    plan: Plan,
) -> Result<Working, WorkFault>
    ensures ok { IfOk result (λ worker. worker.thread.promise.pass.value ≡ own) }
    ensures err { IfErr result (λ fault. fault ≡ WorkFault.NoThread) }
{
    let brings = Brings {
        pass: Snapshot::of(&own),
    };
    let host = *rt;
    let started = thread::spawn_with(
        rt,
        brings,
        move || -> Attended
            ensures { IsKept own result.pass }
        { run_worker(&host, own, gate, component, plan) },
    );
    match started {
        Ok(thread) => Ok(Working { thread }),
        Err(_) => Err(WorkFault::NoThread),
    }
}

/// Starts a worker for the last gate, then those for the others, and then joins it.
fn all<R: Threads + Wait + Clock + Sync + Send + Copy + 'static, G: Gate + Send + Drop + 'static>(
    rt: &R,
    mut pass: Pass,
    mut gates: Vec<G>,
    plan: Plan,
) -> Worked
    ensures worked { IsWorked pass result.pass (vec_len gates) result.started result.fault }
    ensures counts { result.stored ≤ result.given }
{
    pass.base();
    let Some(gate) = gates.pop() else {
        return none(pass, None);
    };
    let own = match pass.split() {
        Ok(own) => own,
        Err(fault) => return none(pass, Some(WorkFault::of(fault))),
    };
    let component = u32::try_from(gates.len()).unwrap_or(u32::MAX);
    let worker = match start(rt, own, gate, component, plan) {
        Ok(worker) => worker,
        Err(fault) => return none(pass, Some(fault)),
    };
    let others = all(rt, pass, gates, plan);
    let Attended { pass, tally } = worker.join(rt);
    let Worked {
        pass: rest,
        given,
        stored,
        started,
        fault,
    } = others;
    let tally = tally.and(Tally { given, stored });
    Worked {
        pass: rest.join(pass),
        given: tally.given,
        stored: tally.stored,
        started: started + 1,
        fault,
    }
}

/// Computes due cells by one worker for each gate, each in a thread of its own with a pass of its own. A worker claims a lot of
/// cells of one cycle, as `Pass::claim_many`, computes them one after another, and gives the results back, as
/// `Pass::give_many`. Each cell is a turn of the worker: it asks its gate whether to go on, for the first of a lot before the
/// claim, and tells it when it begins to compute the cell and when it has. It ends after so many turns, or where its gate stops
/// it; what it has computed of a lot is then given back, and the other claims are let go. Where nothing is due, or a growth is
/// refused, the turn ends, and the worker goes on.
///
/// A lot has 64 cells, the part of a cycle that falls to each worker, or as many as turns are left, whatever is least; that of a
/// worker alone has one. The worker of gate i of n first claims from i lots behind the begin of cycle 0 on, and later from n
/// lots behind the begin of its last one, or, where its cycle ends before, from i lots behind the begin of the next cycle.
///
/// All threads have ended when it answers, and their passes are joined into the one that comes back. On a fault no further
/// worker was started, and the results of those that were stand. `started` is their number.
pub fn work<
    R: Threads + Wait + Clock + Sync + Send + Copy + 'static,
    G: Gate + Send + Drop + 'static,
>(rt: &R, pass: Pass, gates: Vec<G>, turns: u64) -> Worked
    ensures threads_work { IsWorked pass result.pass (vec_len gates) result.started result.fault }
    ensures counts { result.stored ≤ result.given }
{
    let plan = Plan::of_turns(gates.len(), turns);
    all(rt, pass, gates, plan)
}

/// Settles the bench by one worker for each gate, each in a thread of its own with a pass of its own, for as long as the gates
/// go on. In a turn a worker asks its gate whether to go on, and settles the next slice of the bench, as
/// `Pass::settle_some`; then it gives way to whoever waits for the turn. All workers but the first nap 20 milliseconds before each
/// slice. A slice has 16,384 cells at first, twice as many as the one before where that took less than half a millisecond, up to
/// 131,072, and half as many where it took more than a whole one. A worker claims nothing and gives nothing back, so its gate hears of
/// no cell, and no result is counted. Behind a turn in which no cell was due, or which met a fault, its turns are looks at the
/// journal's length, each behind a sleep of 2 milliseconds, until an edit has come; where none comes for a second it sleeps until one
/// is made. `Pass::wake_all`, called on a pass of the opening, ends each sleep: then the worker asks its gate again. Threads, passes
/// and faults are as `work` has them.
pub fn attend<
    R: Threads + Wait + Clock + Sync + Send + Copy + 'static,
    G: Gate + Send + Drop + 'static,
>(rt: &R, pass: Pass, gates: Vec<G>) -> Worked
    ensures threads_work { IsWorked pass result.pass (vec_len gates) result.started result.fault }
    ensures counts { result.stored ≤ result.given }
{
    let plan = Plan::attending(gates.len());
    all(rt, pass, gates, plan)
}
