//! A hot spot in the low network.
use crate::benches::{Host, same_cells};
use crate::edits::depth;
use crate::lines::text_on;
use crate::plain::{answers, questions};
use crate::projects::hot_spot;
use crate::stories::{Came, Stage, Step};
use expect::equal;
use machine_cells::from_scratch;
use project_book::Depths;
use std::alloc::Global;
use std::test::Fail;

/// Claims, computes and gives each cell of a cycle that is due: how many results were stored.
fn store_cycle(stage: &mut Stage, cycle: u32) -> Result<u32, Fail> {
    let mut stored = 0u32;
    for component in 0..16 {
        if stage.play(Step::Claim { component, cycle })? == Came::Claimed {
            if let Came::Stored { .. } = stage.play(Step::Give)? {
                stored = stored.saturating_add(1);
            }
        }
    }
    Ok(stored)
}

/// Stores results from the latest cycle downwards: how many.
fn store_backwards(stage: &mut Stage) -> Result<u32, Fail> {
    let mut stored = 0u32;
    for before_last in 0..21 {
        let cycle = 20u32.saturating_sub(before_last);
        stored = stored.saturating_add(store_cycle(stage, cycle)?);
    }
    Ok(stored)
}

/// Stores the last results first, computed from states that don't stand, and settles.
fn settle_backwards(stage: &mut Stage) -> Result<(), Fail> {
    stage.play(Step::Edit(depth(Depths::LowForward, 2)))?;
    if store_backwards(stage)? == 0 {
        return Err(Fail::from("nothing was stored"));
    }
    stage.play(Step::Settle)?;
    Ok(())
}

/// A bench that was settled with forward queues of 16, and then backwards with queues of 2.
fn settled_backwards(alloc: Global) -> Result<Box<Stage>, Fail> {
    let mut stage = Stage::settled(alloc, hot_spot(alloc, 16, 20)?)?;
    settle_backwards(&mut stage)?;
    Ok(stage)
}

/// Whether the replies, counters and profiles are those of the plain simulation.
fn is_answered_plainly(rt: &impl Host, stage: &mut Stage) -> Result<bool, Fail> {
    let questions = questions(rt.alloc())?;
    let told = text_on(rt, &mut stage.bench, questions.as_str().as_bytes())?;
    let rows = from_scratch(rt.alloc(), stage.bench.project())?;
    Ok(told == answers(rt.alloc(), &rows)?)
}

/// How many cells are those of the simulation, and what the tree towards module 0 is.
fn cells_and_tree(rt: &impl Host, stage: &mut Stage) -> Result<(usize, String), Fail> {
    let same = same_cells(rt, &mut stage.bench)?;
    Ok((same, text_on(rt, &mut stage.bench, b"tree low 0\n")?))
}

/// 15, last sentence: the settling computes again what was computed from states that didn't stand, and
/// every answer is that of the simulation: each cell, 16 components at the cycles 0 to 20, and the replies,
/// counters and profiles. The tree is that of queues of 2.
#[test]
fn example_15_backwards(rt: HostRuntime) -> Result<(), Fail> {
    let mut stage = settled_backwards(rt.alloc())?;
    let (same, tree) = cells_and_tree(&rt, &mut stage)?;
    assert!(rt; equal(&rt, (same, tree.as_str()), (336, "ok 1 first 3 4\n")));
    assert!(rt; is_answered_plainly(&rt, &mut stage)?);
    Ok(())
}
