//! What the answers to edits take beside workers.
use crate::benches::second;
use crate::clock::{Micros, Ratio, Times, taken};
use crate::crew::{Board, Hall, answered, attended, end, fresh_pass, gates, new_board};
use crate::edits::{CHANGES, Change};
use crate::load::Load;
use anyhow::Result;
use project_book::Project;
use run_queries::Query;
use shared_bench::Pass;
use std::thread;
use std::time::{Duration, Instant};

/// How long nobody edits before each edit, in microseconds: workers are asleep then.
const REST: u64 = 10_000;

/// How long nobody asks after an edit where workers may settle a little meanwhile, and all, in milliseconds.
const PAUSES: (u64, u64) = (10, 100);

/// Which edits are made beside workers, and asked after.
#[derive(Clone, Copy)]
pub struct Plan {
    pub load: Load,
    pub k: u32,
    pub workers: u32,
    /// How often each edit is made or taken back.
    pub times: u32,
    pub query: Query,
}

/// How long the answers to edits of a kind took: at once without workers, with them, and after the pauses.
#[derive(Clone, Copy)]
struct Answers {
    without: Times,
    at_once: Times,
    soon: Times,
    late: Times,
}

impl Answers {
    fn none() -> Answers {
        Answers {
            without: Times::none(),
            at_once: Times::none(),
            soon: Times::none(),
            late: Times::none(),
        }
    }

    fn ratio(self) -> Ratio {
        Ratio::of(self.at_once.best(), self.without.best())
    }

    fn row(self, rt: &HostRuntime, plan: Plan, change: Change) -> Result<()> {
        let Plan { load, workers, .. } = plan;
        let (without, at_once) = (Micros(self.without.best()), Micros(self.at_once.best()));
        let (soon, soon_most) = (Micros(self.soon.best()), Micros(self.soon.worst()));
        let (late, late_most) = (Micros(self.late.best()), Micros(self.late.worst()));
        let (what, ratio, (pause, long)) = (change.name(), self.ratio(), PAUSES);
        eprintln!(rt;
            "{load}, workers {workers}, {what}: at once {at_once}, without workers {without}: {ratio}; after {pause} ms {soon}, at most {soon_most}; after {long} ms {late}, at most {late_most}"
        )?;
        Ok(())
    }
}

/// The dearest answers of all kinds of edits: at once, against those without workers, and after the longer pause.
#[derive(Clone, Copy)]
struct Dearest {
    at_once: Ratio,
    late: u64,
}

impl Dearest {
    fn none() -> Dearest {
        Dearest {
            at_once: Ratio::of(0, 1),
            late: 0,
        }
    }

    fn and(self, answers: Answers) -> Dearest {
        Dearest {
            at_once: self.at_once.max(answers.ratio()),
            late: self.late.max(answers.late.worst()),
        }
    }

    fn row(self, rt: &HostRuntime, plan: Plan) -> Result<()> {
        let Plan { load, workers, .. } = plan;
        let (at_once, late, (_, long)) = (self.at_once, Micros(self.late), PAUSES);
        eprintln!(rt;
            "{load}, workers {workers}, of all edits: at once, against without workers, at most {at_once}; after {long} ms at most {late}"
        )?;
        Ok(())
    }
}

/// An edit, and its answer so many milliseconds later: how long the answer took, and without a pause the edit too.
fn edited<H: Hall>(
    rt: &HostRuntime,
    host: &H,
    pass: &mut Pass,
    plan: Plan,
    change: Change,
    time: u32,
    pause: u64,
) -> Result<u64> {
    thread::sleep(rt, Duration::from_micros(REST));
    let mut since = Instant::now(rt)?;
    pass.edit(host, change.edit(plan.load, plan.k, time))?;
    if pause > 0 {
        thread::sleep(rt, Duration::from_millis(pause));
        since = Instant::now(rt)?;
    }
    answered(pass, host, plan.query)?;
    taken(rt, since)
}

/// Edits of one kind on two benches, of which the second has workers, each with an answer.
fn asked_after<H: Hall>(
    rt: &HostRuntime,
    host: &H,
    alone: &mut Pass,
    beside: &mut Pass,
    plan: Plan,
    change: Change,
) -> Result<Answers> {
    let Answers {
        mut without,
        mut at_once,
        mut soon,
        mut late,
    } = Answers::none();
    for time in 0..plan.times {
        without = without.and(edited(rt, host, alone, plan, change, time, 0)?);
        at_once = at_once.and(edited(rt, host, beside, plan, change, time, 0)?);
    }
    for time in 0..plan.times {
        soon = soon.and(edited(rt, host, beside, plan, change, time, PAUSES.0)?);
    }
    for time in 0..plan.times {
        late = late.and(edited(rt, host, beside, plan, change, time, PAUSES.1)?);
    }
    Ok(Answers {
        without,
        at_once,
        soon,
        late,
    })
}

/// Edits of all kinds on two benches, of which the second has workers: how many were answered there.
fn all_answers<H: Hall>(
    rt: &HostRuntime,
    host: &H,
    alone: &mut Pass,
    beside: &mut Pass,
    plan: Plan,
) -> Result<u64> {
    answered(alone, host, plan.query)?;
    answered(beside, host, plan.query)?;
    let mut dearest = Dearest::none();
    let mut count = 0u64;
    for change in CHANGES {
        let answers = asked_after(rt, host, alone, beside, plan, change)?;
        answers.row(rt, plan, change)?;
        dearest = dearest.and(answers);
        count = count.saturating_add(u64::from(plan.times).saturating_mul(3));
    }
    dearest.row(rt, plan)?;
    Ok(count)
}

/// The same, and then the workers end.
fn answers_and_end<H: Hall>(
    rt: &HostRuntime,
    host: &H,
    alone: Pass,
    beside: Pass,
    plan: Plan,
    board: &Board,
) -> Result<u64> {
    let (mut alone, mut beside) = (alone, beside);
    let count = all_answers(rt, host, &mut alone, &mut beside, plan);
    end(board, &beside);
    count
}

/// Edits with answers beside workers, that sleep while no cell is due: how many were answered.
pub fn with_workers<H: Hall>(
    rt: &HostRuntime,
    host: &H,
    project: &Project,
    plan: Plan,
) -> Result<u64> {
    let alone = fresh_pass(rt.alloc(), project)?;
    let mut beside = fresh_pass(rt.alloc(), project)?;
    let own = second(&mut beside)?;
    let board = new_board(rt.alloc(), u64::MAX)?;
    let gates = gates(rt.alloc(), &board, plan.workers)?;
    let (count, ()) = thread::join(
        host,
        || -> Result<u64> { answers_and_end(rt, host, alone, beside, plan, &board) },
        || attended(host, own, gates, &board),
    );
    count
}
