//! A session on a project, with workers beside it.
ghost use Rattle.std.specs.Prelude.{◌≡◌, ◌≤◌, true, [], vec_len, IfOk, IfSome, OnErr};
ghost use Rattle.std.specs.Io.KnownBytes.{Keeps};
ghost use Rattle.bench_core.specs.Shown.{project_of};
ghost use Rattle.shared_bench.specs.Legal.{StartsWith};
ghost use Rattle.wave_workers.specs.Working.{IsWorked};
ghost use Rattle.bench_shell.specs.Store.{first_store};
ghost use Rattle.bench_shell.specs.Cause.{CantRead};
ghost use Rattle.worker_sessions.specs.Seated.{own_journal, seated_store};
ghost use Rattle.worker_sessions.specs.Serving.{Runs, ServesAs, HasEnded};

use crate::attendance::{Session, with_session};
use crate::seated::Seated;
use bench_core::Bench;
use bench_shell::{RunFault, Sink, Source, run_watched};
use project_book::Project;
use shared_bench::{Pass, open};
use std::alloc::Global;
use std::snapshot::Snapshot;
use std::sync::{Arc, Wait};
use std::thread;
use std::thread::{Promise, PromisedHandle, Threads};
use std::time::Clock;
use wave_workers::{Gate, Worked, attend};

/// What lets a session run with workers: a handle that each thread takes with it.
pub trait Hall: Threads + Wait + Clock + Sync + Send + Copy + Drop + 'static {}

impl<H: Threads + Wait + Clock + Sync + Send + Copy + Drop + 'static> Hall for H {}

/// There was no memory or no thread at the start of a session. Nothing was read.
#[derive(Clone, Copy, PartialEq, Eq, Debug, Drop)]
pub struct NoStart;

/// What a session leaves behind.
#[derive(Drop)]
pub enum Left {
    /// Without workers: the bench of its run.
    Bench(Bench),
    /// Beside workers: the pass of its run, and what came of the workers.
    Passes(Pass, Worked),
}

/// What became of a session.
#[derive(Drop)]
pub struct Served {
    /// How its run ended.
    pub ended: Result<(), RunFault>,
    /// What it leaves behind.
    pub left: Left,
}

/// What became of a run beside workers.
#[derive(Drop)]
pub struct Beside {
    /// How the run ended.
    pub ended: Result<(), RunFault>,
    /// The pass of the run.
    pub pass: Pass,
    /// What came of the workers.
    pub worked: Worked,
}

/// That the workers bring back this pass, as one of theirs.
#[derive(Drop)]
struct Attends {
    pass: Snapshot<Pass>,
    gates: usize,
}

impl Promise<Worked> for Attends {
    ghost kept_by = { λ a w. IsWorked a.pass.value w.pass a.gates w.started w.fault };
}

/// The thread that attends to the workers. It isn't `Drop`, so it can't be let go: who starts it joins it.
struct Workers {
    thread: PromisedHandle<Worked, Attends>,
}

impl Workers {
    /// Waits for the end of all workers.
    fn join<R: Threads>(self, rt: &R) -> Worked
        ensures { IsWorked self.thread.promise.pass.value result.pass self.thread.promise.gates result.started result.fault }
    {
        let Workers { thread } = self;
        thread.join(rt)
    }
}

/// Runs a session on a pass that hasn't edited, with a worker for each gate in a thread of its own, until the input ends or
/// the run meets a fault. All threads have ended when it answers: the pass that comes back of the workers has the numbers of
/// them all.
///
/// # Errors
///
/// The pass, where there is no memory, no seat or no thread for the workers at all. Then nothing was read.
pub fn run_beside<H: Hall, R: Source, W: Sink, G: Gate + Send + Drop + 'static>(
    rt: &H,
    alloc: Global,
    reader: &mut R,
    writer: &mut W,
    mut pass: Pass,
    gates: Vec<G>,
) -> Result<Beside, Pass>
    requires edits { pass.receipts ≡ [] }
    requires seen { StartsWith pass.seen pass.opened }
    requires flushed { W.is_flushed writer.old ≡ true }
    ensures runs { IfOk result (λ b. Runs (seated_store pass) (seated_store b.pass)
        (record { unread = R.remaining reader.old; rest = R.remaining reader.new; before = W.contents writer.old; after = W.contents writer.new })
        (CantRead (R.has_failed reader.new) (R.left reader.new)) (W.has_failed writer.new ≡ true)
        (b.pass.seen ≡ own_journal b.pass) (b.pass.spent ≡ true) b.ended) }
    ensures all_ended { IfOk result (λ b. HasEnded pass (vec_len gates) b.worked) }
    ensures reader { OnErr result (Keeps (R.remaining reader.old) (R.remaining reader.new)) }
    ensures writer { OnErr result (Keeps (W.contents writer.old) (W.contents writer.new)) }
    ensures same_reader { R.lender reader.new ≡ R.lender reader.old }
    ensures same_writer { W.lender writer.new ≡ W.lender writer.old }
{
    let count = gates.len();
    let Ok(session) = Arc::new(alloc, Session::new()) else {
        return Err(pass);
    };
    let Ok(theirs) = Arc::try_clone(&session) else {
        return Err(pass);
    };
    let Ok(gates) = with_session(alloc, gates, &session) else {
        return Err(pass);
    };
    let Ok(own) = pass.split() else {
        return Err(pass);
    };
    let attends = Attends {
        pass: Snapshot::of(&own),
        gates: count,
    };
    let host = *rt;
    let started = thread::spawn_with(
        rt,
        attends,
        move || -> Worked
            ensures { IsWorked own result.pass (vec_len gates) result.started result.fault }
        {
            let worked = attend(&host, own, gates);
            theirs.leave();
            worked
        },
    );
    let workers = match started {
        Ok(thread) => Workers { thread },
        Err(_) => return Err(pass),
    };
    let mut desk = Seated::new(*rt, alloc, pass);
    let ended = run_watched(rt, alloc, reader, writer, &mut desk);
    let pass = desk.into_pass();
    session.end(rt, &pass);
    let worked = workers.join(rt);
    Ok(Beside {
        ended,
        pass,
        worked,
    })
}

/// A bench at the opening of a project, with its clock at 0.
fn fresh(alloc: Global, project: Project) -> Option<Bench>
    ensures project { IfSome result (λ b. project_of b ≡ project) }
    ensures journal { IfSome result (λ b. b.journal ≡ []) }
    ensures clock { IfSome result (λ b. b.table.clock ≡ 0) }
{
    Bench::new(alloc, project, 0).ok()
}

/// Serves a session on a project: with no gate, a run on a bench of its own; else a run on a pass to a bench, beside which a
/// worker for each gate computes due cells in a thread of its own. The workers' gates may stop them, and so does the end of
/// the session; where nothing is due they sleep. All threads have ended when it answers.
///
/// # Errors
///
/// Where there was no memory or no thread at the start, and then nothing was read. A fault of the run stands in `ended`.
pub fn serve<H: Hall, R: Source, W: Sink, G: Gate + Send + Drop + 'static>(
    rt: &H,
    alloc: Global,
    reader: &mut R,
    writer: &mut W,
    project: Project,
    gates: Vec<G>,
) -> Result<Served, NoStart>
    requires few { vec_len gates ≤ 16 }
    requires flushed { W.is_flushed writer.old ≡ true }
    ensures serves { ServesAs (vec_len gates) (first_store project)
        (CantRead (R.has_failed reader.new) (R.left reader.new)) (W.has_failed writer.new ≡ true)
        (record { unread = R.remaining reader.old; rest = R.remaining reader.new; before = W.contents writer.old; after = W.contents writer.new })
        result }
    ensures same_reader { R.lender reader.new ≡ R.lender reader.old }
    ensures same_writer { W.lender writer.new ≡ W.lender writer.old }
{
    let mut bench = match fresh(alloc, project) {
        Some(bench) => bench,
        None => return Err(NoStart),
    };
    let workers = gates.len();
    if workers == 0 {
        let ended = run_watched(rt, alloc, reader, writer, &mut bench);
        return Ok(Served {
            ended,
            left: Left::Bench(bench),
        });
    }
    let pass = match open(alloc, bench, workers as u32 + 2) {
        Ok(pass) => pass,
        Err(_) => return Err(NoStart),
    };
    match run_beside(rt, alloc, reader, writer, pass, gates) {
        Ok(beside) => {
            let Beside {
                ended,
                pass,
                worked,
            } = beside;
            Ok(Served {
                ended,
                left: Left::Passes(pass, worked),
            })
        }
        Err(_) => Err(NoStart),
    }
}
