//! Claims that are held over edits, given twice, given elsewhere or dropped.
use crate::edits::{entry, sync_add, word};
use crate::projects::{base, edited};
use crate::stories::{self, Came, Stage, Step, Story, claim_of, given};
use bench_core::Bench;
use cell_table::Cell;
use expect::equal;
use project_book::Edit;
use std::alloc::Global;
use std::test::Fail;

/// Where something else comes of a story of the base project, fresh with clock 0.
fn surprise(alloc: Global, story: Story) -> Result<Option<(usize, Came)>, Fail> {
    stories::surprise(alloc, base(alloc)?, 0, story)
}

fn claim(component: u32, cycle: u32) -> (Step, Came) {
    (Step::Claim { component, cycle }, Came::Claimed)
}

fn edit(edit: Edit, version: u32) -> (Step, Came) {
    (Step::Edit(edit), Came::Version(version))
}

const SETTLE: (Step, Came) = (Step::Settle, Came::Settled(66));

const STORE: (Step, Came) = (Step::Give, Came::Stored { changed: true });

/// 11: processor 0 at cycle 1 reads nothing of processor 1's script, so the edit doesn't overtake it.
#[test]
fn example_11(rt: HostRuntime) -> Result<(), Fail> {
    let story = [
        claim(0, 0),
        STORE,
        claim(1, 0),
        STORE,
        claim(2, 0),
        STORE,
        claim(3, 0),
        STORE,
        claim(4, 0),
        STORE,
        claim(5, 0),
        STORE,
        claim(0, 1),
        edit(entry(1, 0, sync_add(1)), 1),
        STORE,
    ];
    assert!(rt; equal(&rt, surprise(rt.alloc(), &story)?, None));
    Ok(())
}

/// 12: the word that was claimed stands again, but it was another one in between.
#[test]
fn example_12(rt: HostRuntime) -> Result<(), Fail> {
    let story = [
        SETTLE,
        edit(word(300, 5), 1),
        claim(3, 0),
        edit(word(300, 6), 2),
        edit(word(300, 5), 3),
        (Step::Give, Came::Overtaken),
    ];
    assert!(rt; equal(&rt, surprise(rt.alloc(), &story)?, None));
    Ok(())
}

/// 13: with horizon 9 there are 60 cells. The cell at cycle 10 goes; once it is back it is a new one.
#[test]
fn example_13(rt: HostRuntime) -> Result<(), Fail> {
    let story = [
        edit(Edit::Horizon(9), 1),
        (Step::Settle, Came::Settled(60)),
        edit(Edit::Horizon(10), 2),
        claim(0, 10),
        edit(Edit::Horizon(9), 3),
        (Step::Give, Came::Gone),
        edit(Edit::Horizon(10), 4),
        claim(0, 10),
        edit(Edit::Horizon(9), 5),
        edit(Edit::Horizon(10), 6),
        (Step::Give, Came::Overtaken),
    ];
    assert!(rt; equal(&rt, surprise(rt.alloc(), &story)?, None));
    Ok(())
}

/// 14: of two results for one cell the first is stored, and then the cell isn't due.
#[test]
fn example_14(rt: HostRuntime) -> Result<(), Fail> {
    let story = [claim(0, 0), claim(0, 0), STORE, (Step::Give, Came::NotDue)];
    assert!(rt; equal(&rt, surprise(rt.alloc(), &story)?, None));
    Ok(())
}

/// What comes of one bench's result for a component at cycle 0 that is given to another.
fn given_to(own: &Bench, other: &mut Bench, component: u32) -> Result<Came, Fail> {
    let cell = Cell {
        cycle: 0,
        component,
    };
    match claim_of(own, cell)? {
        Some(claim) => Ok(given(other, claim)),
        None => Ok(Came::NotClaimed),
    }
}

/// A fresh bench of the base project with another word 0.
fn with_word(alloc: Global, first: u32) -> Result<Box<Stage>, Fail> {
    Stage::opened(alloc, edited(base(alloc)?, &[word(0, first)])?, 0)
}

/// What comes of a result of the base project that is given to a bench whose word 0 is 11, both fresh
/// with clock 0.
fn given_elsewhere(alloc: Global, component: u32) -> Result<Came, Fail> {
    let own = with_word(alloc, 10)?;
    let mut other = with_word(alloc, 11)?;
    given_to(&own.bench, &mut other.bench, component)
}

/// 21: a module at cycle 0 reads every first word, and word 0 is another one there; a processor at
/// cycle 0 reads nothing, so its result is as good in the other bench.
#[test]
fn example_21(rt: HostRuntime) -> Result<(), Fail> {
    for (component, want) in [(2, Came::Foreign), (0, Came::Stored { changed: true })] {
        assert!(rt; equal(&rt, given_elsewhere(rt.alloc(), component)?, want));
    }
    Ok(())
}

/// How many of 1,000 claims from component 0 at cycle 0 on are for that cell. Each is dropped.
fn dropped(bench: &Bench) -> Result<u32, Fail> {
    let mut claimed = 0u32;
    for _ in 0..1_000 {
        let from = Cell {
            cycle: 0,
            component: 0,
        };
        if claim_of(bench, from)?.is_some() {
            claimed = claimed.saturating_add(1);
        }
    }
    Ok(claimed)
}

fn settled_after_drops(stage: &mut Stage) -> Result<(u32, Came), Fail> {
    Ok((dropped(&stage.bench)?, stage.play(Step::Settle)?))
}

/// 14.1: a claim takes nothing from the table, so claims that are dropped leave no trace.
#[test]
fn example_14_1(rt: HostRuntime) -> Result<(), Fail> {
    let mut stage = Stage::opened(rt.alloc(), base(rt.alloc())?, 0)?;
    assert!(rt;
        equal(
            &rt,
            settled_after_drops(&mut stage)?,
            (1_000, Came::Settled(66))
        )
    );
    Ok(())
}
