//! References to one word over the combining network.
use crate::lines::{Session, misanswered, same_after};
use crate::projects::{base, empty};
use expect::equal;
use std::test::Fail;

/// 3: two references to one word, without combining, are served one after the other. With reverse
/// queues of 4 places in the combining switch the second reply waits for its turn.
const ONE_AFTER_THE_OTHER: Session = &[
    ("entry 0 0 sync add 0 1", "ok 1"),
    ("entry 1 0 sync add 0 2", "ok 2"),
    ("reply 0 0", "ok 2 at 6 word 10"),
    ("reply 1 0", "ok 2 at 7 word 11"),
    ("memory 0 10", "ok 2 13"),
    ("depth comb-reverse 4", "ok 3"),
    ("reply 0 0", "ok 3 at 6 word 10"),
    ("reply 1 0", "ok 3 at 8 word 11"),
];

/// 4: with combining on, both replies come at once. In the switch the second request has become one
/// with the first, and the wait buffer holds what the second is to be told.
const COMBINED: Session = &[
    ("entry 0 0 sync add 0 1", "ok 1"),
    ("entry 1 0 sync add 0 2", "ok 2"),
    ("combine 0 on", "ok 3"),
    ("reply 0 0", "ok 3 at 6 word 10"),
    ("reply 1 0", "ok 3 at 6 word 11"),
    ("memory 0 10", "ok 3 13"),
    (
        "state c0.0 2",
        "ok 3 comb f0 [0.0>0:0=add:3] f1 [] turn 0 0 r0 [] r1 [] rturn 0 wait [0.0=add:1<1.0] combined 1",
    ),
];

/// 6: two stores-if-zero combine: on a word of 0 the one that isn't 0 stays, and another word stays as
/// it is.
const STORES_IF_ZERO: Session = &[
    ("combine 0 on", "ok 1"),
    ("entry 0 0 sync store-if-zero 0 0", "ok 2"),
    ("entry 1 0 sync store-if-zero 0 7", "ok 3"),
    ("word 0 0", "ok 4"),
    ("reply 0 0", "ok 4 at 6 word 0"),
    ("reply 1 0", "ok 4 at 6 word 0"),
    ("memory 0 10", "ok 4 7"),
    ("word 0 5", "ok 5"),
    ("reply 0 0", "ok 5 at 6 word 5"),
    ("reply 1 0", "ok 5 at 6 word 5"),
    ("memory 0 10", "ok 5 5"),
];

#[test]
fn examples_3_4_6(rt: HostRuntime) -> Result<(), Fail> {
    for session in [ONE_AFTER_THE_OTHER, COMBINED, STORES_IF_ZERO] {
        assert!(rt; equal(&rt, misanswered(&rt, base(rt.alloc())?, session)?, None));
    }
    Ok(())
}

/// 5.1, at four processors with horizon 10: four references to one word, combined at both stages, are
/// one request at the module. Line 1 meets line 3 at a switch of stage 0 and is second there, and so
/// are lines 0 and 2; stage 1 puts the pair of 0 and 2 first: the words are those before 1, then 4,
/// then 2, then 8.
const FOUR_COMBINED: Session = &[
    ("page 0 0 0", "ok 1"),
    ("combine 0 on", "ok 2"),
    ("combine 1 on", "ok 3"),
    ("entry 0 0 sync add 0 1", "ok 4"),
    ("entry 1 0 sync add 0 2", "ok 5"),
    ("entry 2 0 sync add 0 4", "ok 6"),
    ("entry 3 0 sync add 0 8", "ok 7"),
    ("reply 0 0", "ok 7 at 8 word 0"),
    ("reply 1 0", "ok 7 at 8 word 5"),
    ("reply 2 0", "ok 7 at 8 word 1"),
    ("reply 3 0", "ok 7 at 8 word 7"),
    ("memory 0 10", "ok 7 15"),
];

#[test]
fn example_5_1(rt: HostRuntime) -> Result<(), Fail> {
    let project = empty(rt.alloc(), 2, 10)?;
    assert!(rt; equal(&rt, misanswered(&rt, project, FOUR_COMBINED)?, None));
    Ok(())
}

/// 4: the state of each of the 6 components at the cycles 0 to 10 is that of the simulation.
#[test]
fn example_4_cells(rt: HostRuntime) -> Result<(), Fail> {
    assert!(rt; equal(&rt, same_after(&rt, base(rt.alloc())?, COMBINED)?, 66));
    Ok(())
}

/// 5.1: four processors, four modules and four switches in each network are 16 components.
#[test]
fn example_5_1_cells(rt: HostRuntime) -> Result<(), Fail> {
    assert!(rt;
        equal(
            &rt,
            same_after(&rt, empty(rt.alloc(), 2, 10)?, FOUR_COMBINED)?,
            176
        )
    );
    Ok(())
}
