//! Passes in several threads: the worked examples, and many answers compared with the plain simulation.
ghost use Rattle.std.specs.Prelude.{◌≡◌, ◌<◌, ◌≤◌, IfOk, IfSome};

mod benches;
mod doing;
mod lots;
mod many;
mod waking;

use crate::base::{base, bench_back, bench_of, fresh, word};
use bench_core::{Asked, Bench};
use benches::{add, begun};
use cell_table::{Cell, Claim};
use doing::{Came, Host, Task, does, together};
use expect::equal;
use machine_cells::Rp3;
use many::{four, right, simulated_versions};
use project_book::EditFault;
use run_queries::Query;
use shared_bench::{Pass, SplitFault, open};
use std::alloc::Global;
use std::io::Eprint;
use std::process::Abort;
use std::sync::Wait;
use std::test::*;
use std::thread;
use waking::Board;

const FIRST_WORD: Query = Query::Memory {
    address: 0,
    cycle: 0,
};

const FIRST_STATE: Query = Query::State {
    component: 0,
    cycle: 0,
};

fn opened(alloc: Global, bench: Box<Bench>, seats: u32) -> Result<Pass, Fail>
    requires { (0 < seats) × (seats ≤ 64) }
{
    Ok(
        open(alloc, Box::into_inner(bench), seats)
            .ok()
            .ok_or("no memory")?,
    )
}

fn split(pass: &mut Pass) -> Result<Pass, Fail>
    ensures same { pass.new ≡ pass.old }
    ensures opening { IfOk result (λ p. p.opening ≡ pass.old.opening) }
{
    match pass.split() {
        Ok(new) => Ok(new),
        Err(_) => Err(Fail::from("no seat")),
    }
}

/// A claim of processor 0 at this cycle, or of the first cell after it.
fn claimed<R: Wait>(rt: &R, pass: &mut Pass, cycle: u32) -> Result<Claim<Rp3>, Fail>
    ensures { pass.new.opening ≡ pass.old.opening }
{
    let from = Cell {
        cycle,
        component: 0,
    };
    match pass.claim(rt, from) {
        Ok(Some(claim)) => Ok(claim),
        _ => Err(Fail::from("no claim")),
    }
}

/// The first pass gives the result of its claim beside an edit of the other, which doesn't overtake it.
fn not_overtaken<R: Host + Abort + Eprint>(rt: &R, alloc: Global, a: Pass, claim: Task, b: Pass)
    requires { a.opening ≡ b.opening }
{
    let ((a, given), (b, edited)) = together(rt, a, claim, b, Task::Edit(add(1)));
    assert!(rt; equal(rt, given, Came::Stored { changed: true }));
    assert!(rt; equal(rt, edited, Came::Version(1)));
    bench_back(rt, alloc, a.join(b));
}

/// 11: processor 0 at cycle 1 reads nothing of processor 1's script, so another pass's edit doesn't overtake it.
#[test]
fn example_11(rt: HostRuntime) -> Result<(), Fail> {
    let mut a = opened(rt.alloc(), begun(rt.alloc())?, 2)?;
    let b = split(&mut a)?;
    let claim = claimed(&rt, &mut a, 1)?;
    not_overtaken(&rt, rt.alloc(), a, Task::Give(claim), b);
    Ok(())
}

/// Slices of a run of 66 cells, of which a cycle has six: each begins at the cycle of the first due cell and is of whole cycles,
/// of one at least; the last ends at the horizon, and then there is none. An edit of a word makes its module due from cycle 0 on.
#[test]
fn slices_go_on_to_the_horizon(rt: HostRuntime) -> Result<(), Fail> {
    let mut pass = opened(rt.alloc(), fresh(rt.alloc())?, 1)?;
    for (cells, last) in [
        (12, Some(1)),
        (0, Some(2)),
        (17, Some(4)),
        (1_000, Some(10)),
        (1, None),
    ] {
        assert!(rt; equal(&rt, pass.settle_some(&rt, cells), Ok(last)));
    }
    assert!(rt; equal(&rt, pass.edit(&rt, word(0, 20)), Ok(1)));
    assert!(rt; equal(&rt, pass.settle_some(&rt, 12), Ok(Some(1))));
    assert!(rt; equal(&rt, pass.settle_some(&rt, 600), Ok(Some(10))));
    assert!(rt; equal(&rt, pass.settle_some(&rt, 600), Ok(None)));
    Ok(())
}

/// 14: two claims of one cell, computed and given in two threads. One result is stored, and then the cell isn't due.
#[test]
fn example_14(rt: HostRuntime) -> Result<(), Fail> {
    let mut a = opened(rt.alloc(), fresh(rt.alloc())?, 2)?;
    assert!(rt; matches!(a.look(&rt, FIRST_STATE), Asked::Pending(1)));
    let mut b = split(&mut a)?;
    let one = Task::Give(claimed(&rt, &mut a, 0)?);
    let other = Task::Give(claimed(&rt, &mut b, 0)?);
    let ((_, first), (_, second)) = together(&rt, a, one, b, other);
    let stored = Came::Stored { changed: true };
    assert!(rt;
        (first, second) == (stored, Came::NotDue) || (first, second) == (Came::NotDue, stored)
    );
    Ok(())
}

const EARLIER: Came = Came::Word {
    version: 0,
    word: 10,
};

const NOW: Came = Came::Word {
    version: 1,
    word: 20,
};

/// The first pass edits the word beside a question to the other, which answers by either version.
fn raced<R: Host + Abort + Eprint>(rt: &R, a: Pass, early: Pass) -> (Pass, Pass)
    ensures a { result.0.opening ≡ a.opening }
    ensures early { result.1.opening ≡ early.opening }
{
    let edits = Task::Edit(word(0, 20));
    let ((a, edited), (early, told)) = together(rt, a, edits, early, Task::Ask(FIRST_WORD));
    assert!(rt; equal(rt, edited, Came::Version(1)));
    assert!(rt; told == EARLIER || told == NOW);
    (a, early)
}

/// A pass that was split after the edit, and answers by it.
fn late<R: Host + Abort + Eprint>(rt: &R, a: &mut Pass) -> Result<Pass, Fail>
    ensures same { a.new.opening ≡ a.old.opening }
    ensures opening { IfOk result (λ p. p.opening ≡ a.old.opening) }
{
    let mut b = split(a)?;
    assert!(rt; equal(rt, b.length(), 1));
    assert!(rt; equal(rt, does(rt, &mut b, Task::Ask(FIRST_WORD)), NOW));
    assert!(rt; equal(rt, does(rt, &mut b, Task::Project), NOW));
    Ok(b)
}

/// A pass that can't be closed, since others are there, comes back.
fn refused<R: Abort>(rt: &R, pass: Pass) -> Pass
    ensures { result ≡ pass }
{
    pass.close().err().expect(rt, "two other passes are there")
}

/// A pass can't be closed while others are there; the bench comes back from the last.
fn closed<R: Abort + Eprint>(rt: &R, alloc: Global, a: Pass, early: Pass, b: Pass)
    requires early { a.opening ≡ early.opening }
    requires late { a.opening ≡ b.opening }
{
    let a = refused(rt, a);
    let bench = bench_back(rt, alloc, a.join(early).join(b));
    assert!(rt; equal(rt, bench.journal().len(), 1));
}

/// 16: a pass that was split after an edit answers by it; one that was split before answers by the version that it finds.
#[test]
fn example_16(rt: HostRuntime) -> Result<(), Fail> {
    let mut a = opened(rt.alloc(), fresh(rt.alloc())?, 3)?;
    assert!(rt; equal(&rt, (a.base(), a.k()), (0, 1)));
    let early = split(&mut a)?;
    let (mut a, early) = raced(&rt, a, early);
    let b = late(&rt, &mut a)?;
    assert!(rt; matches!(a.split(), Err(SplitFault::NoSeat)));
    closed(&rt, rt.alloc(), a, early, b);
    Ok(())
}

/// 20: with the clock at its last value a pass is told so, and its edits are refused.
#[test]
fn example_20(rt: HostRuntime) -> Result<(), Fail> {
    let spent = bench_of(rt.alloc(), base(rt.alloc())?, u64::MAX)?;
    let mut pass = opened(rt.alloc(), spent, 1)?;
    let told = does(&rt, &mut pass, Task::Ask(FIRST_STATE));
    assert!(rt; equal(&rt, told, Came::ClockSpent));
    let edited = does(&rt, &mut pass, Task::Edit(word(0, 10)));
    assert!(rt; equal(&rt, edited, Came::Refused(EditFault::ClockSpent)));
    bench_back(&rt, rt.alloc(), pass);
    Ok(())
}

/// Each of 800 answers between 800 edits is that of the simulation of the journal that the pass had seen then.
#[test]
fn four_at_once(rt: HostRuntime) -> Result<(), Fail> {
    let alloc = rt.alloc();
    let pass = opened(alloc, fresh(alloc)?, 4)?;
    let board = Board::new();
    let (_, (pass, heard)) = thread::join(
        &rt,
        || assert!(rt; board.sees(&rt, 1)),
        || {
            let came = four(&rt, alloc, pass);
            board.comes();
            came
        },
    );
    let bench = bench_back(&rt, alloc, pass);
    assert!(rt; equal(&rt, bench.version(), 800));
    let words = simulated_versions(alloc, bench.journal())?;
    assert!(rt; equal(&rt, right(&heard, &words), 800));
    Ok(())
}
