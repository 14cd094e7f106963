//! The worked examples, by their numbers in the list of worked examples.
//!
//! Without contention a processor's first reference is out at cycle 1, at its module at 2+k, served at
//! 3+k and answered at 4+2k.
use crate::runs::Run;
use crate::setups::{BASE, BUILT_IN, Setup};
use comb_switch::{CombSettings, CombState};
use expect::equal;
use omega_net::{Request, Tag, Traffic};
use page_map::Place;
use serial_order::{Ordered, order};
use std::alloc::Global;
use std::test::Fail;
use word_ops::{Kind, Op};

/// Machines, each with what its run shows.
pub(crate) type Examples<'a> = &'a [(Setup<'a>, &'a str)];

/// The place in the list of the first machine whose run shows something else, with what it shows.
pub(crate) fn surprise(alloc: Global, examples: Examples) -> Result<Option<(usize, String)>, Fail> {
    for (place, (setup, want)) in examples.iter().enumerate() {
        let run = Run::of(alloc, setup)?;
        let shown = format!(in alloc; "{run}")?;
        if shown.as_str() != *want {
            return Ok(Some((place, shown)));
        }
    }
    Ok(None)
}

/// 1: with no script nothing happens.
const NOTHING: Examples = &[(
    Setup {
        horizon: 0,
        ..BUILT_IN
    },
    "p0, issued 0, served 0, combined 0, word 0",
)];

const ONE_ADD: Setup = Setup {
    scripts: &[&["sync add 0 1"]],
    ..BASE
};

/// 2: one reference at k 1 is served at cycle 4 and answered at cycle 6.
const ONE_REFERENCE: Examples = &[
    (
        Setup {
            horizon: 6,
            ..ONE_ADD
        },
        "p0 6:10, p1, issued 1, served 1, combined 0, word 11",
    ),
    (
        Setup {
            horizon: 5,
            ..ONE_ADD
        },
        "p0, p1, issued 1, served 1, combined 0, word 11",
    ),
    (
        Setup {
            horizon: 4,
            ..ONE_ADD
        },
        "p0, p1, issued 1, served 1, combined 0, word 11",
    ),
    (
        Setup {
            horizon: 3,
            ..ONE_ADD
        },
        "p0, p1, issued 1, served 0, combined 0, word 10",
    ),
];

/// 2.1: at window 1 the load is issued once the store is answered, at cycle 4, and is answered 3 cycles
/// later; behind a fence it is issued a cycle later.
const STORE_AND_LOAD: Examples = &[
    (
        Setup {
            word: 10,
            scripts: &[&["plain store 0 7", "sync load 0 0"]],
            ..BUILT_IN
        },
        "p0 4:10 7:7, issued 2, served 2, combined 0, word 7",
    ),
    (
        Setup {
            word: 10,
            scripts: &[&["plain store 0 7", "fence", "sync load 0 0"]],
            ..BUILT_IN
        },
        "p0 4:10 8:7, issued 2, served 2, combined 0, word 7",
    ),
];

/// 2.2: at window 1 the third add is out at cycle 7, and would be served at cycle 9; at window 3 the adds
/// follow each other by one cycle.
const THREE_ADDS: Examples = &[
    (
        Setup {
            scripts: &[&["sync add 0 1 3"]],
            ..BUILT_IN
        },
        "p0 4:0 7:1, issued 3, served 2, combined 0, word 2",
    ),
    (
        Setup {
            window: 3,
            scripts: &[&["sync add 0 1 3"]],
            ..BUILT_IN
        },
        "p0 4:0 5:1 6:2, issued 3, served 3, combined 0, word 3",
    ),
];

/// 5: the reply has the old word, and the sum wraps.
const WRAPPING_ADD: Examples = &[(
    Setup {
        word: 4_294_967_295,
        ..ONE_ADD
    },
    "p0 6:4294967295, p1, issued 1, served 1, combined 0, word 0",
)];

const WORD_10: Setup = Setup {
    word: 10,
    scripts: &[&["sync add 0 1"]],
    ..BUILT_IN
};

const WORD_20: Setup = Setup {
    word: 20,
    ..WORD_10
};

/// 17: the reply follows the edited word.
const EDITED_WORD: Examples = &[
    (WORD_10, "p0 4:10, issued 1, served 1, combined 0, word 11"),
    (WORD_20, "p0 4:20, issued 1, served 1, combined 0, word 21"),
];

/// 23: at window 1 a second reference waits for the first reply; a fence costs one cycle more, and an
/// idle as many as it says.
const WAITS: Examples = &[
    (
        Setup {
            horizon: 12,
            scripts: &[&["plain store 0 7", "sync load 0 0"]],
            ..BASE
        },
        "p0 6:10 11:7, p1, issued 2, served 2, combined 0, word 7",
    ),
    (
        Setup {
            horizon: 12,
            scripts: &[&["plain store 0 7", "fence", "sync load 0 0"]],
            ..BASE
        },
        "p0 6:10 12:7, p1, issued 2, served 2, combined 0, word 7",
    ),
    (
        Setup {
            horizon: 12,
            scripts: &[&["idle 3", "sync add 0 1"]],
            ..BASE
        },
        "p0 9:10, p1, issued 1, served 1, combined 0, word 11",
    ),
];

const UNTIL_12: Setup = Setup {
    horizon: 20,
    scripts: &[&["until sync load 0 0 12"], &["idle 6", "sync store 0 12"]],
    ..BASE
};

/// 15.1: a word is loaded again and again, each time in the step that brings the reply to the load before, until it
/// is 12, or for as many times as it may. The store is served at cycle 10, between the loads of cycles 9 and 14.
const WAITING_FOR_A_WORD: Examples = &[
    (
        UNTIL_12,
        "p0 6:10 11:10 16:12, p1 12:10, issued 4, served 4, combined 0, word 12",
    ),
    (
        Setup {
            scripts: &[
                &["until sync load 0 0 12 2"],
                &["idle 6", "sync store 0 12"],
            ],
            ..UNTIL_12
        },
        "p0 6:10 11:10, p1 12:10, issued 3, served 3, combined 0, word 12",
    ),
];

/// 15.1, and the order of the references to the word.
#[test]
fn example_15_1(rt: HostRuntime) -> Result<(), Fail> {
    let alloc = rt.alloc();
    assert!(rt; equal(&rt, surprise(alloc, WAITING_FOR_A_WORD)?, None));
    assert!(rt;
        equal(
            &rt,
            ordered(alloc, &UNTIL_12, 0)?.as_str(),
            "order 0.0 0.1 1.0 0.2"
        )
    );
    Ok(())
}

/// 24: of two requests that come over both networks at once, a module serves the low one first.
const BOTH_NETWORKS: Examples = &[(
    Setup {
        scripts: &[&["plain add 0 1"], &["sync add 0 2"]],
        ..BASE
    },
    "p0 6:10, p1 7:11, issued 2, served 2, combined 0, word 13",
)];

#[test]
fn examples_1_2_5_17_23_24(rt: HostRuntime) -> Result<(), Fail> {
    for examples in [
        NOTHING,
        ONE_REFERENCE,
        STORE_AND_LOAD,
        THREE_ADDS,
        WRAPPING_ADD,
        EDITED_WORD,
        WAITS,
        BOTH_NETWORKS,
    ] {
        assert!(rt; equal(&rt, surprise(rt.alloc(), examples)?, None));
    }
    Ok(())
}

const TWO_ADDS: Setup = Setup {
    scripts: &[&["sync add 0 1"], &["sync add 0 2"]],
    ..BASE
};

/// 3: two references to one word, without combining, are served one after the other. With reverse
/// queues of 4 places in the combining switch the second reply waits for its turn.
const ONE_AFTER_THE_OTHER: Examples = &[
    (
        TWO_ADDS,
        "p0 6:10, p1 7:11, issued 2, served 2, combined 0, word 13",
    ),
    (
        Setup {
            comb_reverse: 4,
            ..TWO_ADDS
        },
        "p0 6:10, p1 8:11, issued 2, served 2, combined 0, word 13",
    ),
];

const TWO_COMBINED: Setup = Setup {
    combine: true,
    ..TWO_ADDS
};

/// 4: with combining on, both replies come at once.
const COMBINED: Examples = &[(
    TWO_COMBINED,
    "p0 6:10, p1 6:11, issued 2, served 1, combined 1, word 13",
)];

const FOUR_ADDS: Setup = Setup {
    k: 2,
    combine: true,
    modules: &[0],
    word: 0,
    scripts: &[
        &["sync add 0 1"],
        &["sync add 0 2"],
        &["sync add 0 4"],
        &["sync add 0 8"],
    ],
    ..BASE
};

/// 5.1: four references to one word, combined at both stages, are one request at the module. Line 1
/// meets line 3 at a switch of stage 0 and is second there, and so are lines 0 and 2; stage 1 puts the
/// pair of 0 and 2 first: the words are those before 1, then 4, then 2, then 8.
const FOUR_COMBINED: Examples = &[(
    FOUR_ADDS,
    "p0 8:0, p1 8:5, p2 8:1, p3 8:7, issued 4, served 1, combined 3, word 15",
)];

/// 6: two stores-if-zero combine: on a word of 0 the one that isn't 0 stays, and another word stays as
/// it is.
const STORES_IF_ZERO: Examples = &[
    (
        Setup {
            combine: true,
            word: 0,
            scripts: &[&["sync store-if-zero 0 0"], &["sync store-if-zero 0 7"]],
            ..BASE
        },
        "p0 6:0, p1 6:0, issued 2, served 1, combined 1, word 7",
    ),
    (
        Setup {
            combine: true,
            word: 5,
            scripts: &[&["sync store-if-zero 0 0"], &["sync store-if-zero 0 7"]],
            ..BASE
        },
        "p0 6:5, p1 6:5, issued 2, served 1, combined 1, word 5",
    ),
];

#[test]
fn examples_3_4_5_1_6(rt: HostRuntime) -> Result<(), Fail> {
    for examples in [ONE_AFTER_THE_OTHER, COMBINED, FOUR_COMBINED, STORES_IF_ZERO] {
        assert!(rt; equal(&rt, surprise(rt.alloc(), examples)?, None));
    }
    Ok(())
}

/// The text of a component's state at a cycle; empty where it isn't there.
fn state_text(
    alloc: Global,
    setup: &Setup,
    component: usize,
    cycle: usize,
) -> Result<String, Fail> {
    let run = Run::of(alloc, setup)?;
    match run.state(component, cycle) {
        Some(state) => Ok(format!(in alloc; "{state}")?),
        None => Ok(String::new(alloc)),
    }
}

/// 4: in the switch the second request has become one with the first, and the wait buffer holds what the
/// second is to be told. 17: the processor has its reply, and the module the sum.
#[test]
fn examples_4_17_states(rt: HostRuntime) -> Result<(), Fail> {
    for (setup, component, cycle, want) in [
        (
            &TWO_COMBINED,
            5,
            2,
            "comb f0 [0.0>0:0=add:3] f1 [] turn 0 0 r0 [] r1 [] rturn 0 wait [0.0=add:1<1.0] combined 1",
        ),
        (
            &WORD_20,
            0,
            4,
            "proc index 1 spent 0 issued 1 pending 0 out - got - 0=20 sent 0",
        ),
        (
            &WORD_20,
            1,
            4,
            "mod q0 [] q1 [] a0 [] a1 [] turn 0 served 0 mem [0=21]",
        ),
    ] {
        assert!(rt;
            equal(
                &rt,
                state_text(rt.alloc(), setup, component, cycle)?.as_str(),
                want
            )
        );
    }
    Ok(())
}

/// 8: the youngest request for the word is an `or`, so an `add` does not combine, although an older `add`
/// waits.
#[test]
fn example_8(rt: HostRuntime) -> Result<(), Fail> {
    let settings = CombSettings {
        bit: 0,
        combine: true,
        wait: 4,
    };
    let requests = [
        request(0, Kind::Add, 1),
        request(1, Kind::Or, 2),
        request(2, Kind::Add, 4),
    ];
    let alloc = rt.alloc();
    let mut state = CombState::start(alloc);
    for request in requests {
        let arriving = Traffic {
            requests: [Some(request), None],
            replies: [None, None],
            requests_leave: [false, false],
            replies_leave: [false, false],
        };
        state = state.step(alloc, &settings, &arriving)?;
    }
    assert!(rt; equal(&rt, state.fwd[0].as_slice(), requests.as_slice()));
    assert!(rt; equal(&rt, (state.wait.len(), state.combined), (0, 0)));
    Ok(())
}

/// The first request of a processor, for row 0 of module 0.
fn request(proc: u8, kind: Kind, operand: u32) -> Request {
    Request {
        tag: Tag { proc, issue: 0 },
        place: Place { module: 0, row: 0 },
        op: Op { kind, operand },
    }
}

/// 15: four processors load one module over the low network, two of them from cycle 1 on and two after
/// an idle of 4.
const HOT_SPOT: Setup = Setup {
    k: 2,
    horizon: 6,
    window: 8,
    modules: &[0],
    word: 0,
    scripts: &[
        &["plain add 0 1 50"],
        &["plain add 0 1 50"],
        &["idle 4", "plain add 0 1 50"],
        &["idle 4", "plain add 0 1 50"],
    ],
    ..BASE
};

/// The lengths of the output queues of the low switches 8 and 9, of stage 0, and 10 and 11, of stage 1.
fn queues(alloc: Global, run: &Run) -> Result<String, Fail> {
    let (a, b, c, d) = (run.queues(8), run.queues(9), run.queues(10), run.queues(11));
    Ok(format!(in alloc; "{a}{b}{c}{d}")?)
}

/// 15: only output 0 of the switches 8, 9 and 10 leads to module 0.
const QUEUES: &str = "8.0: 0 0 1 1 1 1 3\n\
    8.1: 0 0 0 0 0 0 0\n\
    9.0: 0 0 1 1 1 2 3\n\
    9.1: 0 0 0 0 0 0 0\n\
    10.0: 0 0 0 2 3 3 3\n\
    10.1: 0 0 0 0 0 0 0\n\
    11.0: 0 0 0 0 0 0 0\n\
    11.1: 0 0 0 0 0 0 0\n";

/// 15: the module serves its first two requests by cycle 6.
#[test]
fn example_15(rt: HostRuntime) -> Result<(), Fail> {
    let run = Run::of(rt.alloc(), &HOT_SPOT)?;
    assert!(rt;
        equal(
            &rt,
            (queues(rt.alloc(), &run)?.as_str(), run.counts().served),
            (QUEUES, 2)
        )
    );
    Ok(())
}

/// 15, with forward queues of 2.
const NARROW_QUEUES: &str = "8.0: 0 0 1 0 1 0\n\
    8.1: 0 0 0 0 0 0\n\
    9.0: 0 0 1 0 1 1\n\
    9.1: 0 0 0 0 0 0\n\
    10.0: 0 0 0 2 1 1\n\
    10.1: 0 0 0 0 0 0\n\
    11.0: 0 0 0 0 0 0\n\
    11.1: 0 0 0 0 0 0\n";

#[test]
fn example_15_narrow(rt: HostRuntime) -> Result<(), Fail> {
    let narrow = Setup {
        horizon: 5,
        low_forward: 2,
        ..HOT_SPOT
    };
    let run = Run::of(rt.alloc(), &narrow)?;
    assert!(rt; equal(&rt, queues(rt.alloc(), &run)?.as_str(), NARROW_QUEUES));
    Ok(())
}

/// Eight processors ask one module through the deepest queues: each of their 160 references is served
/// and answered.
const EIGHT_AT_ONCE: Setup = Setup {
    k: 3,
    horizon: 400,
    window: 8,
    low_forward: 16,
    comb_reverse: 16,
    modules: &[0],
    word: 0,
    scripts: &[
        &["plain add 0 1 20"],
        &["plain add 0 1 20"],
        &["plain add 0 1 20"],
        &["plain add 0 1 20"],
        &["plain add 0 1 20"],
        &["plain add 0 1 20"],
        &["plain add 0 1 20"],
        &["plain add 0 1 20"],
    ],
    ..BASE
};

#[test]
fn deepest_queues(rt: HostRuntime) -> Result<(), Fail> {
    let alloc = rt.alloc();
    let run = Run::of(alloc, &EIGHT_AT_ONCE)?;
    let counts = run.counts();
    assert!(rt;
        equal(
            &rt,
            format!(in alloc; "{counts}")?.as_str(),
            "issued 160, served 160, combined 0"
        )
    );
    assert!(rt; equal(&rt, (run.answers(), run.last_word()), (160, Some(160))));
    Ok(())
}

/// What `order` answers for an address of a machine.
fn ordered(alloc: Global, setup: &Setup, address: u32) -> Result<String, Fail> {
    match order(alloc, &setup.project(alloc)?, address) {
        Ordered::Order(tags) => Ok(format!(in alloc; "{tags}")?),
        Ordered::NoOrder => Ok(format!(in alloc; "none")?),
        Ordered::BadAddress => Ok(format!(in alloc; "bad address")?),
        Ordered::Memory => Err(Fail::from("no memory")),
    }
}

fn cut_at(horizon: u32) -> Setup<'static> {
    Setup {
        horizon,
        ..TWO_ADDS
    }
}

/// 16.1: four references that become one request have one order that explains them. 16.2: a run that is cut off orders
/// what was served by then. 28: combined or not, a word that nothing names, an address that isn't there.
#[test]
fn examples_16_1_16_2_28(rt: HostRuntime) -> Result<(), Fail> {
    let alloc = rt.alloc();
    assert!(rt;
        equal(
            &rt,
            ordered(alloc, &FOUR_ADDS, 0)?.as_str(),
            "order 0.0 2.0 1.0 3.0"
        )
    );
    assert!(rt; equal(&rt, ordered(alloc, &cut_at(3), 0)?.as_str(), "order"));
    assert!(rt;
        equal(
            &rt,
            ordered(alloc, &cut_at(5), 0)?.as_str(),
            "order 0.0 1.0"
        )
    );
    for combine in [false, true] {
        let setup = Setup {
            combine,
            ..TWO_ADDS
        };
        assert!(rt; equal(&rt, ordered(alloc, &setup, 0)?.as_str(), "order 0.0 1.0"));
        assert!(rt; equal(&rt, ordered(alloc, &setup, 300)?.as_str(), "order"));
        assert!(rt; equal(&rt, ordered(alloc, &setup, 16_384)?.as_str(), "bad address"));
    }
    Ok(())
}
