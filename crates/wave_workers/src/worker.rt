//! One worker.
ghost use Rattle.std.specs.Prelude.{◌≡◌, ℕ, ◌-◌, ◌^◌, IfSome, MatchOption, min, true, false, length};
ghost use Rattle.cell_table.specs.Claims.{NoneDue};
ghost use Rattle.machine_cells.specs.GridRules.{rp3_rules};
ghost use Rattle.bench_core.specs.Shown.{Shown as AnyBench};
ghost use Rattle.wave_workers.specs.Working.{does_nothing, IsKept, HasLeft, HasLooked};

use crate::gate::Gate;
use crate::lot::{Share, work_lot};
use crate::pace::Pace;
use crate::tally::{Came, Tally};
use shared_bench::Pass;
use std::snapshot::Snapshot;
use std::sync::Wait;
use std::thread::Promise;
use std::time::{Clock, Duration, Instant};

/// How each worker works.
#[derive(Clone, Copy)]
pub struct Plan {
    /// How many workers there are: each claims so small a part of a cycle in a turn.
    pub workers: u32,
    /// How many turns it makes at most.
    pub turns: u64,
    /// Whether it settles slices in place of claiming cells, and sleeps while nothing is due.
    pub sleeps: bool,
}

/// For how many microseconds a worker that finds nothing to do sleeps between two looks at the journal's length. Who edits
/// wakes no worker meanwhile, so that a question which comes at once costs what it costs without workers.
const LOOK: u64 = 2_000;

/// How often it looks so, until it sleeps until an edit wakes it: a second, after which nobody minds a waking.
const LOOKS: u32 = 500;

/// For how many microseconds nobody edits before a worker that has seen an edit begins: longer than a program takes to read an
/// answer and ask, so that a question which comes at once finds no worker before it.
const NAP: u64 = 1_000;

/// For how many microseconds a worker that isn't the first naps before each slice. Turns come one after another, so several workers
/// settle no faster than one, and half as fast where the bench goes from processor to processor with each turn. The others step in
/// where the first has ended.
const ASIDE: u64 = 20_000;

impl Plan {
    /// So many turns for each of so many gates, and no sleep.
    pub fn of_turns(gates: usize, turns: u64) -> Plan
        ensures { result ≡ record { workers = min gates (2 ^ 32 - 1); turns = turns; sleeps = false } }
    {
        Plan {
            workers: gates.min(u32::MAX as usize) as u32,
            turns,
            sleeps: false,
        }
    }

    /// Turns for as long as each of so many gates goes on, in which slices are settled, and rest while nothing is due.
    pub fn attending(gates: usize) -> Plan
        ensures { result ≡ record { workers = min gates (2 ^ 32 - 1); turns = 2 ^ 64 - 1; sleeps = true } }
    {
        Plan {
            workers: gates.min(u32::MAX as usize) as u32,
            turns: u64::MAX,
            sleeps: true,
        }
    }
}

/// What a worker brings back.
#[derive(Drop)]
pub struct Attended {
    pub pass: Pass,
    pub tally: Tally,
}

/// That a worker brings back this pass, as one that has gone on.
#[derive(Drop)]
pub struct Brings {
    pub pass: Snapshot<Pass>,
}

impl Promise<Attended> for Brings {
    ghost kept_by = { λ brings attended. IsKept brings.pass.value attended.pass };
}

/// What a turn came to, and the length that the journal had before it.
#[derive(Clone, Copy)]
struct Watched {
    came: Came,
    length: u32,
}

/// Settles the next slice, of so many cells, in one turn. It goes on by the row of the one before, and has a whole cycle at least.
fn slice<R: Wait>(rt: &R, pass: &mut Pass, cells: u32) -> Came
    ensures kept { IsKept pass.old pass.new }
    ensures left { (d : AnyBench) × HasLeft pass.new d × (result ≡ Came.Idle → NoneDue rp3_rules d.table) }
{
    Came::of_slice(pass.settle_some(rt, cells))
}

/// A slice, and the journal's length before it.
fn watched_slice<R: Wait>(rt: &R, pass: &mut Pass, cells: u32) -> Watched
    ensures kept { IsKept pass.old pass.new }
    ensures looked { HasLooked pass.new result.came result.length }
{
    let length = pass.length();
    let came = slice(rt, pass, cells);
    Watched { came, length }
}

/// Lets whoever has just edited ask first: naps for as long as edits come.
fn hold_back<R: Wait>(rt: &R, pass: &mut Pass)
    ensures { IsKept pass.old pass.new }
{
    let mut length = pass.length();
    for _ in rt.forever() {
        pass.nap(rt, Duration::from_micros(NAP));
        let now = pass.length();
        if now == length {
            return;
        }
        length = now;
    }
}

/// That a worker rests until the journal has another length than the one before its last turn, which could do nothing.
#[derive(Clone, Copy)]
struct Rest {
    length: u32,
    /// How often it has looked since.
    looks: u32,
}

/// The rest that follows a turn which could do nothing, at the length that the journal had before it.
fn rest_after(watched: Watched) -> Option<Rest>
    ensures { MatchOption result (does_nothing watched.came ≡ false) (λ rest. (does_nothing watched.came ≡ true) × (rest.length ≡ watched.length)) }
{
    if watched.came.is_for_nothing() {
        Some(Rest {
            length: watched.length,
            looks: 0,
        })
    } else {
        None
    }
}

/// A slice, and the rest that follows one which could do nothing. The next slice is as long as this one was quick; behind a rest it is
/// a first one.
fn slice_or_rest<R: Wait + Clock>(
    rt: &R,
    pass: &mut Pass,
    number: u32,
    pace: &mut Pace,
) -> Option<Rest>
    ensures kept { IsKept pass.old pass.new }
    ensures looked { IfSome result (λ rest. (came : Came) × HasLooked pass.new came rest.length × (does_nothing came ≡ true)) }
{
    if number > 0 {
        pass.nap(rt, Duration::from_micros(ASIDE));
    }
    let since = Instant::now(rt).ok();
    let watched = watched_slice(rt, pass, pace.cells);
    let rest = rest_after(watched);
    *pace = match rest {
        Some(_) => Pace::first(),
        None => pace.after(rt, since),
    };
    rest
}

/// Sleeps for a look, or behind the last one until an edit or `Pass::wake_all` wakes it.
fn sleep<R: Wait>(rt: &R, pass: &Pass, rest: Rest) {
    if rest.looks < LOOKS {
        pass.nap(rt, Duration::from_micros(LOOK));
    } else {
        pass.park(rt, rest.length);
    }
}

/// Sleeps, and looks: the rest that is left, none where an edit has come since.
fn rested<R: Wait>(rt: &R, pass: &mut Pass, rest: Rest) -> Option<Rest>
    ensures { IsKept pass.old pass.new }
{
    sleep(rt, pass, rest);
    if pass.length() == rest.length {
        return Some(Rest {
            length: rest.length,
            looks: rest.looks.saturating_add(1),
        });
    }
    hold_back(rt, pass);
    None
}

/// The worker of this number settles slices until its gate stops it, or its turns are used up; number 0 is the first. After a turn
/// that could do nothing the turns are looks at the journal's length, until an edit has come, and none any more for a millisecond.
fn settle_slices<R: Wait + Clock, G: Gate>(
    rt: &R,
    pass: &mut Pass,
    gate: &mut G,
    number: u32,
    plan: Plan,
)
    ensures { IsKept pass.old pass.new }
{
    pass.base();
    let mut rest = None;
    let mut pace = Pace::first();
    'turns: for turn in 0..plan.turns {
        if !gate.go_on(turn) {
            break;
        }
        rest = match rest {
            Some(rest) => rested(rt, pass, rest),
            None => slice_or_rest(rt, pass, number, &mut pace),
        };
    }
}

/// Computes lots until the gate stops it, or its turns are used up: how many results were given and stored. A worker that stops
/// within a lot gives back what it has computed, and lets the other claims go.
fn compute_lots<R: Wait, G: Gate>(
    rt: &R,
    pass: &mut Pass,
    gate: &mut G,
    share: Share,
    turns: u64,
) -> Tally
    ensures { IsKept pass.old pass.new }
{
    pass.base();
    let mut from = share.start();
    let mut tally = Tally::new();
    let mut turn = 0u64;
    'lots: for _ in 0..turns {
        if turn >= turns || !gate.go_on(turn) {
            break;
        }
        let lot = work_lot(rt, pass, gate, share, from, turn, turns - turn);
        from = lot.next;
        turn = turn.saturating_add(lot.turns);
        tally = tally.and(lot.tally);
        if lot.is_last {
            break;
        }
    }
    tally
}

/// The worker of this number: it works until its gate stops it, or its turns are used up.
pub fn run_worker<R: Wait + Clock, G: Gate + Drop>(
    rt: &R,
    mut pass: Pass,
    mut gate: G,
    number: u32,
    plan: Plan,
) -> Attended
    ensures { IsKept pass result.pass }
{
    if plan.sleeps {
        settle_slices(rt, &mut pass, &mut gate, number, plan);
        let tally = Tally::new();
        return Attended { pass, tally };
    }
    let share = Share::of(pass.k(), number, plan);
    let tally = compute_lots(rt, &mut pass, &mut gate, share, plan.turns);
    Attended { pass, tally }
}
