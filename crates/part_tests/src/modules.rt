//! Worked examples, printed texts, and calls that take memory.

use expect::equal;
use mem_module::{ModuleState, ModuleTraffic, SharedWords, Words};
use omega_net::{Net, Reply, Request, Tag};
use page_map::Place;
use std::alloc::Global;
use std::test::Fail;
use word_ops::{Kind, Op};

const FIRST: Tag = Tag { proc: 0, issue: 0 };

const ADD_ONE: Op = Op {
    kind: Kind::Add,
    operand: 1,
};

fn words(alloc: Global, listed: &[(u16, u32)]) -> Result<Words, Fail> {
    let mut words = Words::new(alloc);
    for (row, word) in listed {
        words.put(*row, *word)?;
    }
    Ok(words)
}

/// The module of a machine of one processor, whose row 0 holds 20, and the request `sync add 0 1`: at the module at
/// cycle 2, served at 3, its reply leaves at 4.
#[test]
fn serves_one_request(rt: HostRuntime) -> Result<(), Fail> {
    let alloc = rt.alloc();
    let request = Request {
        tag: FIRST,
        place: Place { module: 0, row: 0 },
        op: ADD_ONE,
    };
    let cycles = [
        (
            None,
            false,
            "mod q0 [] q1 [] a0 [] a1 [] turn 0 served 0 mem [0=20]",
        ),
        (
            Some(request),
            false,
            "mod q0 [] q1 [0.0>0:0=add:1] a0 [] a1 [] turn 0 served 0 mem [0=20]",
        ),
        (
            None,
            false,
            "mod q0 [] q1 [] a0 [] a1 [0.0=20] turn 0 served 1 mem [0=21]",
        ),
        (
            None,
            true,
            "mod q0 [] q1 [] a0 [] a1 [] turn 0 served 0 mem [0=21]",
        ),
    ];
    let mut state = ModuleState::start(alloc, words(alloc, &[(0, 20)])?)?;
    for (arrives, leaves, text) in cycles {
        let traffic = ModuleTraffic {
            requests: [None, arrives],
            replies_leave: [false, leaves],
        };
        state = state.step(alloc, 4, &traffic)?;
        assert!(rt; equal(&rt, format!(in alloc; "{state}")?.as_str(), text));
    }
    Ok(())
}

/// Words come in any order of rows, a later one replaces an earlier one, and a word of 0 isn't listed.
#[test]
fn lists_words_by_rows(rt: HostRuntime) -> Result<(), Fail> {
    let alloc = rt.alloc();
    let puts = [(300, 7), (5, 1), (16_383, 4_294_967_295), (5, 0), (0, 2)];
    let mut state = ModuleState::start(alloc, words(alloc, &puts)?)?;
    state.turn = Net::Comb;
    assert!(rt;
        equal(
            &rt,
            format!(in alloc; "{state}")?.as_str(),
            "mod q0 [] q1 [] a0 [] a1 [] turn 1 served 0 mem [0=2,300=7,16383=4294967295]"
        )
    );
    Ok(())
}

/// An add wraps to 0, which empties the row, and leaves the words that were shared as they were. A load gives the
/// same words again.
#[test]
fn fetches_and_leaves_shared_words(rt: HostRuntime) -> Result<(), Fail> {
    let alloc = rt.alloc();
    let load = Op {
        kind: Kind::Load,
        operand: 0,
    };
    let shared = SharedWords::new(alloc, words(alloc, &[(1, 4_294_967_295), (2, 8)])?)?;
    let (old, next) = shared.fetch_and_op(alloc, 1, ADD_ONE)?;
    let (loaded, again) = next.fetch_and_op(alloc, 2, load)?;
    assert!(rt;
        equal(
            &rt,
            (old, next.word(1), shared.word(1)),
            (4_294_967_295, 0, 4_294_967_295)
        )
    );
    assert!(rt; equal(&rt, (loaded, again.as_slice().len()), (8, 1)));
    assert!(rt; again.share()?.same(&next) && !next.same(&shared));
    Ok(())
}
