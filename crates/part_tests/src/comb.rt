//! Worked examples.
use comb_switch::{CombSettings, CombState, Waiting};
use expect::equal;
use omega_net::{Reply, Request, Tag, Traffic};
use page_map::Place;
use std::alloc::Global;
use std::test::Fail;
use word_ops::{Kind, Op};

const SETTINGS: CombSettings = CombSettings {
    bit: 0,
    combine: true,
    wait: 4,
};

const QUIET: Traffic = Traffic {
    requests: [None, None],
    replies: [None, None],
    requests_leave: [false, false],
    replies_leave: [false, false],
};

/// The first request of a processor, for row 0 of module 0.
fn request(proc: u8, kind: Kind, operand: u32) -> Request {
    Request {
        tag: Tag { proc, issue: 0 },
        place: Place { module: 0, row: 0 },
        op: Op { kind, operand },
    }
}

// The youngest request for the word is an `or`, so an `add` does not combine, although an older `add` waits.
#[test]
fn only_the_youngest_combines(rt: HostRuntime) -> Result<(), Fail> {
    let older = request(0, Kind::Add, 1);
    let youngest = request(1, Kind::Or, 2);
    let last = request(2, Kind::Add, 4);
    let alloc = rt.alloc();
    let mut state = CombState::start(alloc);
    for request in [older, youngest, last] {
        state = state.step(alloc, &SETTINGS, &arriving(request))?;
    }
    assert!(rt;
        equal(
            &rt,
            state.fwd[0].as_slice(),
            [older, youngest, last].as_slice()
        )
    );
    assert!(rt; equal(&rt, state.wait.len(), 0));
    assert!(rt; equal(&rt, state.combined, 0));
    Ok(())
}

fn arriving(request: Request) -> Traffic {
    Traffic {
        requests: [Some(request), None],
        ..QUIET
    }
}

/// Fetch-and-adds of 1 and 2 that arrive together.
fn pair(alloc: Global) -> Result<Box<CombState>, Fail> {
    let together = Traffic {
        requests: [
            Some(request(0, Kind::Add, 1)),
            Some(request(1, Kind::Add, 2)),
        ],
        ..QUIET
    };
    let combined = CombState::start(alloc).step(alloc, &SETTINGS, &together)?;
    Ok(Box::new(alloc, combined)?)
}

// The two become one request, which adds 3.
#[test]
fn a_pair_becomes_one(rt: HostRuntime) -> Result<(), Fail> {
    let combined = pair(rt.alloc())?;
    let waiting = Waiting {
        first: Tag { proc: 0, issue: 0 },
        op: request(0, Kind::Add, 1).op,
        second: Tag { proc: 1, issue: 0 },
    };
    assert!(rt; equal(&rt, combined.wait.as_slice(), [waiting].as_slice()));
    let text = format!(in rt.alloc(); "{combined}")?;
    assert!(rt;
        equal(
            &rt,
            text.as_str(),
            "comb f0 [0.0>0:0=add:3] f1 [] turn 0 0 r0 [] r1 [] rturn 0 wait [0.0=add:1<1.0] combined 1"
        )
    );
    Ok(())
}

// The word held 10: the reply 10 becomes 10 for the first of the two, and 11 for the second.
#[test]
fn a_pair_is_answered_in_turn(rt: HostRuntime) -> Result<(), Fail> {
    let answer = Traffic {
        replies: [answered(0, 10), None],
        requests_leave: [true, false],
        ..QUIET
    };
    let combined = pair(rt.alloc())?;
    let split = combined.step(rt.alloc(), &SETTINGS, &answer)?;
    let text = format!(in rt.alloc(); "{split}")?;
    assert!(rt;
        equal(
            &rt,
            text.as_str(),
            "comb f0 [] f1 [] turn 0 0 r0 [0.0=10] r1 [1.0=11] rturn 1 wait [] combined 0"
        )
    );
    assert!(rt; equal(&rt, split.offer_reverse(0).copied(), answered(0, 10)));
    assert!(rt; equal(&rt, split.offer_reverse(1).copied(), answered(1, 11)));
    assert!(rt; split.same(&split) && !split.same(&combined));
    Ok(())
}

/// The reply to the first request of a processor.
fn answered(proc: u8, word: u32) -> Option<Reply> {
    let tag = Tag { proc, issue: 0 };
    Some(Reply { tag, word })
}
