//! A worked example.
use expect::equal;
use low_switch::LowState;
use omega_net::{Reply, Request, Tag, Traffic};
use page_map::Place;
use std::alloc::Global;
use std::test::Fail;
use word_ops::{Kind, Op};

const QUIET: Traffic = Traffic {
    requests: [None, None],
    replies: [None, None],
    requests_leave: [false, false],
    replies_leave: [false, false],
};

/// The first request of a processor, for row 0 of module 0.
fn add(proc: u8, operand: u32) -> Request {
    let kind = Kind::Add;
    Request {
        tag: Tag { proc, issue: 0 },
        place: Place { module: 0, row: 0 },
        op: Op { kind, operand },
    }
}

/// Two requests that come together, and stand in the order of their inputs.
fn waiting(alloc: Global) -> Result<Box<LowState>, Fail> {
    let together = Traffic {
        requests: [Some(add(0, 1)), Some(add(1, 2))],
        ..QUIET
    };
    let waiting = LowState::start(alloc).step(alloc, 0, &together)?;
    Ok(Box::new(alloc, waiting)?)
}

/// The head leaves, while one more comes from input 1 and the first reply comes from side 0, for processor 0.
fn left(alloc: Global) -> Result<Box<LowState>, Fail> {
    let reply = Reply {
        tag: Tag { proc: 0, issue: 0 },
        word: 10,
    };
    let traffic = Traffic {
        requests: [None, Some(add(1, 3))],
        replies: [Some(reply), None],
        requests_leave: [true, false],
        ..QUIET
    };
    let next = waiting(alloc)?.step(alloc, 0, &traffic)?;
    Ok(Box::new(alloc, next)?)
}

#[test]
fn two_wait_and_one_leaves(rt: HostRuntime) -> Result<(), Fail> {
    let alloc = rt.alloc();
    let before = waiting(alloc)?;
    assert!(rt;
        equal(
            &rt,
            format!(in alloc; "{before}")?.as_str(),
            "low f0 [0.0>0:0=add:1,1.0>0:0=add:2] f1 [] turn 0 0 r0 [] r1 [] rturn 0 0"
        )
    );
    let next = left(alloc)?;
    assert!(rt;
        equal(
            &rt,
            format!(in alloc; "{next}")?.as_str(),
            "low f0 [1.0>0:0=add:2,1.0>0:0=add:3] f1 [] turn 0 0 r0 [0.0=10] r1 [] rturn 1 0"
        )
    );
    Ok(())
}

// At depth 3 one place is left, for input 0.
#[test]
fn one_place_is_left(rt: HostRuntime) -> Result<(), Fail> {
    let next = left(rt.alloc())?;
    let free_at = [
        next.ready_forward(4, 0, 1, &add(1, 4)),
        next.ready_forward(3, 0, 0, &add(0, 4)),
        next.ready_forward(3, 0, 1, &add(1, 4)),
        next.ready_forward(2, 0, 0, &add(0, 4)),
    ];
    assert!(rt; equal(&rt, free_at, [true, true, false, false]));
    let before = waiting(rt.alloc())?;
    assert!(rt; next.same(&next) && !next.same(&before));
    Ok(())
}
