//! Refused edits.
use crate::edits::{combine, depth, entry, page, sync_adds, word};
use crate::projects::{base, empty};
use crate::stories::{Came, Stage, Step, Story};
use expect::equal;
use omega_net::ScriptEntry;
use project_book::{Depths, Edit};
use std::test::Fail;

fn refused(edit: Edit, number: u8) -> (Step, Came) {
    (Step::Edit(edit), Came::Refused(number))
}

/// 19: edits that the base project refuses, each with the number of its fault.
pub(crate) fn refusals() -> [(Step, Came); 16] {
    [
        refused(entry(2, 0, ScriptEntry::Fence), 2),
        refused(entry(0, 1, ScriptEntry::Fence), 3),
        refused(Edit::Cut { proc: 0, length: 1 }, 3),
        refused(word(16_384, 0), 5),
        refused(entry(0, 0, sync_adds(16_384, 1)), 5),
        refused(page(64, 0, 0), 6),
        refused(page(0, 2, 0), 7),
        refused(page(0, 0, 2), 7),
        refused(combine(1), 8),
        refused(depth(Depths::ModuleQueue, 1), 9),
        refused(depth(Depths::CombReverse, 3), 9),
        refused(Edit::WaitDepth(0), 9),
        refused(Edit::Window(9), 10),
        refused(entry(0, 0, ScriptEntry::Idle(0)), 11),
        refused(entry(0, 0, sync_adds(0, 1_001)), 11),
        refused(Edit::Horizon(2_001), 12),
    ]
}

/// Where something else comes of the refusals, version and clock after them, and what then comes of
/// settling.
fn settled_after_refusals(
    stage: &mut Stage,
) -> Result<(Option<(usize, Came)>, (u32, u64), Came), Fail> {
    let surprise = stage.surprise(&refusals())?;
    let after = (stage.bench.version(), stage.bench.clock());
    Ok((surprise, after, stage.play(Step::Settle)?))
}

/// 19: each refusal by its number. Nothing is changed by any: no cell is due afterwards, no edit was
/// noted and the clock stands.
#[test]
fn example_19(rt: HostRuntime) -> Result<(), Fail> {
    let mut stage = Stage::settled(rt.alloc(), base(rt.alloc())?)?;
    let before = (stage.bench.version(), stage.bench.clock());
    let (surprise, after, settled) = settled_after_refusals(&mut stage)?;
    assert!(rt; equal(&rt, (surprise, after), (None, before)));
    assert!(rt; equal(&rt, settled, Came::Settled(0)));
    Ok(())
}

/// Makes the same edit so often: the last answer.
fn repeated(stage: &mut Stage, edit: Edit, times: u32) -> Result<Came, Fail> {
    let mut last = Came::Nothing;
    for _ in 0..times {
        last = stage.play(Step::Edit(edit))?;
    }
    Ok(last)
}

/// Makes the script of processor 0 one of 256 fences.
fn fill_script(stage: &mut Stage) -> Result<(), Fail> {
    for index in 0..256 {
        stage.play(Step::Edit(entry(0, index, ScriptEntry::Fence)))?;
    }
    Ok(())
}

/// Where something else comes of a story at a full script.
fn surprise_when_full(stage: &mut Stage, story: Story) -> Result<Option<(usize, Came)>, Fail> {
    fill_script(stage)?;
    stage.surprise(story)
}

/// 19, a full script: an index past its end comes before that.
#[test]
fn example_19_full_script(rt: HostRuntime) -> Result<(), Fail> {
    let story = [
        refused(entry(0, 256, ScriptEntry::Fence), 4),
        refused(entry(0, 257, ScriptEntry::Fence), 3),
        (Step::Edit(Edit::Window(1)), Came::Version(257)),
    ];
    let mut stage = Stage::opened(rt.alloc(), base(rt.alloc())?, 0)?;
    assert!(rt; equal(&rt, surprise_when_full(&mut stage, &story)?, None));
    Ok(())
}

/// What comes of the last edit of a full journal, and where something else comes of the refusals then.
fn refused_at_last(stage: &mut Stage) -> Result<(Came, Option<(usize, Came)>), Fail> {
    let last = repeated(stage, Edit::Window(1), 65_535)?;
    let story = [
        refused(word(0, 10), 1),
        refused(entry(2, 0, ScriptEntry::Fence), 1),
    ];
    Ok((last, stage.surprise(&story)?))
}

/// 19, a full journal, by the cheapest edit, which sets the window that stands: it is found before the
/// processor that isn't there.
#[test]
fn example_19_full_journal(rt: HostRuntime) -> Result<(), Fail> {
    let mut stage = Stage::opened(rt.alloc(), empty(rt.alloc(), 0, 0)?, 0)?;
    assert!(rt;
        equal(
            &rt,
            refused_at_last(&mut stage)?,
            (Came::Version(65_535), None)
        )
    );
    Ok(())
}
