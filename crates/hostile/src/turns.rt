//! Stories played by two passes in two threads, each of which waits for the other's steps.
use crate::benches::{tells_simulated, word};
use crate::claims::{Came, STORED};
use crate::sessions::{base, other, pass_to};
use crate::stories::{Host, Step, comes, result};
use cell_table::{Cell, Done};
use machine_cells::Rp3;
use omega_net::ScriptEntry;
use project_book::{Edit, EditFault};
use shared_bench::Pass;
use std::alloc::Global;
use std::sync::atomic::{AtomicU64, Ordering};
use std::thread;

/// How often a thread looks for the other's step at most.
const MOST_LOOKS: u64 = 100_000_000;

/// How many steps were done.
#[derive(Drop)]
pub(crate) struct Board {
    done: AtomicU64,
}

impl Board {
    pub(crate) fn new() -> Board {
        Board {
            done: AtomicU64::new(0),
        }
    }

    /// So many steps were done.
    pub(crate) fn tell(&self, steps: u64) {
        self.done.store(steps, Ordering::SeqCst);
    }

    /// Whether so many steps are done, looked for often.
    pub(crate) fn sees(&self, steps: u64) -> bool {
        for _ in 0..MOST_LOOKS {
            if self.done.load(Ordering::SeqCst) >= steps {
                return true;
            }
            thread::yield_now();
        }
        false
    }
}

/// Whose step it is.
#[derive(Clone, Copy, PartialEq, Eq)]
enum Who {
    One,
    Other,
}

/// Steps, each with the pass that does it.
type Story<'a> = &'a [(Who, Step)];

/// Does a pass's steps of a story, each once those before it are done: whether each came to what it was to.
fn plays<R: Host>(
    rt: &R,
    alloc: Global,
    pass: &mut Pass,
    own: Who,
    story: Story,
    board: &Board,
) -> bool {
    let mut held = Vec::new(alloc);
    let mut all = true;
    let mut before = 0u64;
    for (who, step) in story {
        let after = before.saturating_add(1);
        if *who == own {
            if !board.sees(before) {
                return false;
            }
            all = comes(rt, pass, &mut held, *step) && all;
            board.tell(after);
        }
        before = after;
    }
    all
}

/// Two passes to a bench of the base project.
fn passes(alloc: Global, clock: u64) -> Option<(Pass, Pass)> {
    let project = base(alloc)?;
    let mut one = pass_to(alloc, project, clock, 2)?;
    match one.split() {
        Ok(other) => Some((one, other)),
        Err(_) => None,
    }
}

/// Whether a story comes true, played by two passes to a bench of the base project in two threads. Then each answer is that
/// of the plain simulation, where the clock isn't spent.
fn comes_true<R: Host>(rt: &R, alloc: Global, clock: u64, story: Story) -> Option<bool> {
    let (mut one, mut other) = passes(alloc, clock)?;
    let board = Board::new();
    let (first, second) = thread::join(
        rt,
        || plays(rt, alloc, &mut one, Who::One, story, &board),
        || plays(rt, alloc, &mut other, Who::Other, story, &board),
    );
    let is_simulated = clock == u64::MAX || tells_simulated(rt, alloc, &mut other);
    Some(first && second && is_simulated)
}

fn edit(who: Who, edit: Edit, version: u32) -> (Who, Step) {
    (who, Step::Edit(edit, Ok(version)))
}

fn hold(who: Who, component: u32, cycle: u32) -> (Who, Step) {
    (who, Step::Hold { component, cycle })
}

fn give(who: Who, came: Came) -> (Who, Step) {
    (who, Step::Give(came))
}

/// Asks for the word of address 300 at cycle 9, so that no cell up to it is due.
fn asks(who: Who, version: u32, word: u32) -> (Who, Step) {
    let step = Step::Ask {
        address: 300,
        cycle: 9,
        told: (version, word),
    };
    (who, step)
}

/// 12: while one pass holds its result, the other sets the word away and back.
fn away_and_back() -> [(Who, Step); 7] {
    [
        asks(Who::One, 0, 0),
        edit(Who::One, word(300, 5), 1),
        hold(Who::One, 3, 0),
        edit(Who::Other, word(300, 6), 2),
        edit(Who::Other, word(300, 5), 3),
        give(Who::One, Came::Overtaken),
        asks(Who::Other, 3, 5),
    ]
}

/// 13: while one pass holds two results of the last cycle, the other cuts it off, and later makes it anew.
fn cut_and_back() -> [(Who, Step); 10] {
    [
        edit(Who::One, Edit::Horizon(9), 1),
        asks(Who::One, 1, 0),
        edit(Who::Other, Edit::Horizon(10), 2),
        hold(Who::One, 0, 10),
        hold(Who::One, 0, 10),
        edit(Who::Other, Edit::Horizon(9), 3),
        give(Who::One, Came::Gone),
        edit(Who::Other, Edit::Horizon(10), 4),
        give(Who::One, Came::Overtaken),
        asks(Who::Other, 4, 0),
    ]
}

/// 14: both passes hold a result of one cell.
fn one_cell() -> [(Who, Step); 5] {
    [
        hold(Who::One, 0, 0),
        hold(Who::Other, 0, 0),
        give(Who::Other, STORED),
        give(Who::One, Came::NotDue),
        asks(Who::One, 0, 0),
    ]
}

/// 11: the other pass changes a script that the cell doesn't read.
fn another_script() -> [(Who, Step); 4] {
    [
        hold(Who::One, 0, 0),
        edit(
            Who::Other,
            Edit::Entry {
                proc: 1,
                index: 0,
                entry: ScriptEntry::Fence,
            },
            1,
        ),
        give(Who::One, STORED),
        asks(Who::Other, 1, 0),
    ]
}

/// 20: with the clock at its last value a result comes back, and neither pass edits or is answered.
fn spent() -> [(Who, Step); 6] {
    [
        hold(Who::One, 0, 0),
        (Who::Other, Step::IsSpent),
        give(Who::One, Came::Spent),
        (
            Who::Other,
            Step::Edit(word(0, 10), Err(EditFault::ClockSpent)),
        ),
        (
            Who::One,
            Step::Edit(word(0, 10), Err(EditFault::ClockSpent)),
        ),
        (
            Who::One,
            Step::Edit(word(16_384, 0), Err(EditFault::BadAddress)),
        ),
    ]
}

/// How often each story is played.
const TIMES: u32 = 50;

/// Each story so often, and example 21.
pub(crate) fn played<R: Host>(rt: &R, alloc: Global) -> Option<u32> {
    let mut held = 0u32;
    for _ in 0..TIMES {
        let all = comes_true(rt, alloc, 0, &away_and_back())?
            && comes_true(rt, alloc, 0, &cut_and_back())?
            && comes_true(rt, alloc, 0, &one_cell())?
            && comes_true(rt, alloc, 0, &another_script())?
            && comes_true(rt, alloc, u64::MAX, &spent())?
            && given_elsewhere(rt, alloc)?;
        if !all {
            return None;
        }
        held = held.saturating_add(6);
    }
    Some(held)
}

/// The result of a component at cycle 0, computed by a pass to a bench of its own, whose word 0 is 10.
fn made_elsewhere<R: Host>(rt: &R, alloc: Global, component: u32) -> Option<Done<Rp3>> {
    let project = base(alloc)?;
    let mut pass = pass_to(alloc, project, 0, 1)?;
    let cell = Cell {
        cycle: 0,
        component,
    };
    result(rt, &mut pass, cell)
}

/// 21: two results are computed in two threads beside a bench of which both come, and are given to another whose word 0 is
/// 11: the module's is foreign, the processor's is stored.
fn given_elsewhere<R: Host>(rt: &R, alloc: Global) -> Option<bool> {
    let (module, processor) = thread::join(
        rt,
        || made_elsewhere(rt, alloc, 2),
        || made_elsewhere(rt, alloc, 0),
    );
    let project = other(alloc)?;
    let mut pass = pass_to(alloc, project, 0, 1)?;
    let came = (
        given(rt, &mut pass, module),
        given(rt, &mut pass, processor),
    );
    Some(came == (Some(Came::Foreign), Some(STORED)) && tells_simulated(rt, alloc, &mut pass))
}

/// What comes of a result that is given, where there is one.
fn given<R: Host>(rt: &R, pass: &mut Pass, done: Option<Done<Rp3>>) -> Option<Came> {
    let done = done?;
    Some(Came::of(pass.give(rt, done)))
}
