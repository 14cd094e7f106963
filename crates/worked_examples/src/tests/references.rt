//! References that meet no others, or only at their module.
use crate::lines::{Session, misanswered};
use crate::projects::{base, empty};
use expect::equal;
use std::test::Fail;

/// 1: nothing was issued, so the reference 0 isn't there.
const NOTHING: Session = &[("reply 0 0", "bad 4")];

#[test]
fn example_1(rt: HostRuntime) -> Result<(), Fail> {
    let project = empty(rt.alloc(), 0, 0)?;
    assert!(rt; equal(&rt, misanswered(&rt, project, NOTHING)?, None));
    Ok(())
}

/// 2: one reference at k 1 is served at cycle 4 and answered at cycle 6; with horizon 5 its reply is
/// still on its way.
const ONE_REFERENCE: Session = &[
    ("entry 0 0 sync add 0 1", "ok 1"),
    ("horizon 6", "ok 2"),
    ("reply 0 0", "ok 2 at 6 word 10"),
    ("memory 0 3", "ok 2 10"),
    ("memory 0 4", "ok 2 11"),
    ("memory 0 5", "ok 2 11"),
    ("memory 0 6", "ok 2 11"),
    ("horizon 5", "ok 3"),
    ("reply 0 0", "ok 3 none"),
    ("memory 0 5", "ok 3 11"),
];

/// 5: the reply has the old word, and the sum wraps.
const WRAPPING_ADD: Session = &[
    ("word 0 4294967295", "ok 1"),
    ("entry 0 0 sync add 0 1", "ok 2"),
    ("reply 0 0", "ok 2 at 6 word 4294967295"),
    ("memory 0 10", "ok 2 0"),
];

/// 23: at window 1 a second reference waits for the first reply; a fence costs one cycle more, and an
/// idle as many as it says. Fences and idles have no issue number.
const WAITS: Session = &[
    ("horizon 12", "ok 1"),
    ("entry 0 0 plain store 0 7", "ok 2"),
    ("entry 0 1 sync load 0 0", "ok 3"),
    ("reply 0 0", "ok 3 at 6 word 10"),
    ("reply 0 1", "ok 3 at 11 word 7"),
    ("entry 0 1 fence", "ok 4"),
    ("entry 0 2 sync load 0 0", "ok 5"),
    ("reply 0 0", "ok 5 at 6 word 10"),
    ("reply 0 1", "ok 5 at 12 word 7"),
    ("cut 0 0", "ok 6"),
    ("entry 0 0 idle 3", "ok 7"),
    ("entry 0 1 sync add 0 1", "ok 8"),
    ("reply 0 0", "ok 8 at 9 word 10"),
];

/// 15.1: processor 0 loads a word again and again, each time after the reply to the load before, until that is 12,
/// or for as many times as it may.
const UNTIL_IT_IS_12: Session = &[
    ("horizon 20", "ok 1"),
    ("entry 0 0 until sync load 0 0 12", "ok 2"),
    ("entry 1 0 idle 6", "ok 3"),
    ("entry 1 1 sync store 0 12", "ok 4"),
    ("reply 0 0", "ok 4 at 6 word 10"),
    ("reply 0 1", "ok 4 at 11 word 10"),
    ("reply 0 2", "ok 4 at 16 word 12"),
    ("reply 0 3", "bad 4"),
    ("reply 1 0", "ok 4 at 12 word 10"),
    ("entry 0 0 until sync load 0 0 12 2", "ok 5"),
    ("reply 0 2", "bad 4"),
];

/// 24: of two requests that come over both networks at once, a module serves the low one first.
const BOTH_NETWORKS: Session = &[
    ("entry 0 0 plain add 0 1", "ok 1"),
    ("entry 1 0 sync add 0 2", "ok 2"),
    ("reply 0 0", "ok 2 at 6 word 10"),
    ("reply 1 0", "ok 2 at 7 word 11"),
];

#[test]
fn example_15_1(rt: HostRuntime) -> Result<(), Fail> {
    assert!(rt;
        equal(
            &rt,
            misanswered(&rt, base(rt.alloc())?, UNTIL_IT_IS_12)?,
            None
        )
    );
    Ok(())
}

/// 15.2: on the largest machine a reference is answered at cycle 4 + 2k.
const SIXTY_FOUR_PROCESSORS: Session = &[
    ("entry 63 0 sync add 0 1", "ok 1"),
    ("reply 63 0", "ok 1 at 16 word 0"),
    ("reply 64 0", "bad 1"),
];

#[test]
fn example_15_2(rt: HostRuntime) -> Result<(), Fail> {
    let project = empty(rt.alloc(), 6, 16)?;
    assert!(rt; equal(&rt, misanswered(&rt, project, SIXTY_FOUR_PROCESSORS)?, None));
    Ok(())
}

#[test]
fn examples_2_5_23_24(rt: HostRuntime) -> Result<(), Fail> {
    for session in [ONE_REFERENCE, WRAPPING_ADD, WAITS, BOTH_NETWORKS] {
        assert!(rt; equal(&rt, misanswered(&rt, base(rt.alloc())?, session)?, None));
    }
    Ok(())
}
