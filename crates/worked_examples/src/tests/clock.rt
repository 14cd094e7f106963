//! A clock at its last value.
use crate::benches::Host;
use crate::edits::word;
use crate::lines::{Written, run_on};
use crate::projects::base;
use crate::stories::{Came, Stage, Step, Story, surprise};
use crate::tests::refusals::refusals;
use bench_shell::RunFault;
use expect::equal;
use std::alloc::Global;
use std::test::Fail;

/// Where something else comes of a story of the base project, fresh with its clock so far from its last
/// value.
fn surprise_before_last(
    alloc: Global,
    ticks: u64,
    story: Story,
) -> Result<Option<(usize, Came)>, Fail> {
    surprise(alloc, base(alloc)?, u64::MAX.saturating_sub(ticks), story)
}

/// Where something else comes of the refusals, and what then comes of an edit that would be accepted.
fn refusals_and_edit(stage: &mut Stage) -> Result<(Option<(usize, Came)>, Came), Fail> {
    let surprise = stage.surprise(&refusals())?;
    Ok((surprise, stage.play(Step::Edit(word(0, 10)))?))
}

/// 20: an edit that is refused for itself keeps its number; only one that would be accepted meets the
/// clock.
#[test]
fn example_20_edits(rt: HostRuntime) -> Result<(), Fail> {
    let mut stage = Stage::opened(rt.alloc(), base(rt.alloc())?, u64::MAX)?;
    assert!(rt;
        equal(
            &rt,
            refusals_and_edit(&mut stage)?,
            (None, Came::Refused(13))
        )
    );
    Ok(())
}

/// 20: the first result of a fresh cell would change it. It comes back, and the cell stays due.
#[test]
fn example_20_results(rt: HostRuntime) -> Result<(), Fail> {
    let story = [
        (
            Step::Claim {
                component: 0,
                cycle: 0,
            },
            Came::Claimed,
        ),
        (
            Step::Give,
            Came::ClockSpent {
                component: 0,
                cycle: 0,
            },
        ),
        (Step::Settle, Came::Stopped(0)),
    ];
    assert!(rt; equal(&rt, surprise_before_last(rt.alloc(), 0, &story)?, None));
    Ok(())
}

/// A run of the shell at a fresh bench of the base project with its clock at the last value.
fn on_spent_clock(rt: &impl Host, input: &[u8]) -> Result<Written, Fail> {
    let mut stage = Stage::opened(rt.alloc(), base(rt.alloc())?, u64::MAX)?;
    run_on(rt, &mut stage.bench, input)
}

/// 20: an edit at the clock's last value ends a run, and nothing is written.
#[test]
fn example_20_line(rt: HostRuntime) -> Result<(), Fail> {
    let written = on_spent_clock(&rt, b"word 0 10\n")?;
    assert!(rt;
        equal(
            &rt,
            (written.ended, written.text.as_str()),
            (Err(RunFault::Clock), "")
        )
    );
    Ok(())
}

/// 14.2: 66 stores and an edit leave the clock one tick. Module 0 at cycle 0 comes out equal and costs
/// none; module 1 takes the last; what it makes due would change. The low switch at cycle 1 is due,
/// since module 1 is beside it, and comes out equal: that is stored even so.
#[test]
fn example_14_2(rt: HostRuntime) -> Result<(), Fail> {
    let story = [
        (Step::Settle, Came::Settled(66)),
        (Step::Edit(word(300, 5)), Came::Version(1)),
        (Step::Settle, Came::Stopped(2)),
        (Step::Settle, Came::Stopped(0)),
        (
            Step::Claim {
                component: 4,
                cycle: 1,
            },
            Came::Claimed,
        ),
        (Step::Give, Came::Stored { changed: false }),
        (Step::Edit(word(0, 10)), Came::Refused(13)),
    ];
    assert!(rt; equal(&rt, surprise_before_last(rt.alloc(), 68, &story)?, None));
    Ok(())
}
