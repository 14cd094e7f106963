//! Counters, profiles, tree saturation and bounds.
use crate::benches::{Heard, Host, answered, levels};
use crate::lines::{Session, misanswered};
use crate::projects::{base, edited, hot_spot};
use crate::stories::Stage;
use bench_core::Bench;
use expect::equal;
use monitor_sums::Counter;
use page_map::Place;
use project_book::Edit;
use run_queries::Query;
use std::test::Fail;

/// 3 and 4: without combining the module serves both requests; with combining one request for both.
const SERVED_AND_COMBINED: Session = &[
    ("entry 0 0 sync add 0 1", "ok 1"),
    ("entry 1 0 sync add 0 2", "ok 2"),
    ("counter served all 0 10", "ok 2 2"),
    ("combine 0 on", "ok 3"),
    ("counter served all 0 10", "ok 3 1"),
    ("counter combined all 0 10", "ok 3 1"),
];

/// 26: a tenth of the references of 32 processors to one module bound each to 10/(10 + 31), and with no
/// hot fraction nothing is bound.
const BOUNDS: Session = &[("bound 1 10 32", "ok 0 10/41"), ("bound 0 1 1", "ok 0 1/1")];

#[test]
fn examples_3_4_26_reported(rt: HostRuntime) -> Result<(), Fail> {
    for session in [SERVED_AND_COMBINED, BOUNDS] {
        assert!(rt; equal(&rt, misanswered(&rt, base(rt.alloc())?, session)?, None));
    }
    Ok(())
}

/// 15: at depth 4 a queue is full from 3 messages on. The queue of stage 1 towards module 0 is full from
/// cycle 4 on, those of stage 0 at cycle 6. A stage has 4 output queues, at 7 cycles: its profile adds
/// up to 28. At depth 2 a queue is full from its first message on, so the tree grows earlier.
const HOT_SPOT: Session = &[
    ("tree low 0", "ok 0 first 4 6"),
    ("level low 0 0", "ok 0 0"),
    ("level low 0 3", "ok 0 0"),
    ("level low 0 4", "ok 0 1"),
    ("level low 0 5", "ok 0 1"),
    ("level low 0 6", "ok 0 2"),
    ("profile low 1", "ok 0 24 0 1 3 0 0 0 0 0 0 0 0 0 0 0 0 0"),
    ("profile low 0", "ok 0 18 7 1 2 0 0 0 0 0 0 0 0 0 0 0 0 0"),
    ("counter issued p0 0 6", "ok 0 6"),
    ("counter served all 0 6", "ok 0 2"),
    ("depth low-forward 2", "ok 1"),
    ("tree low 0", "ok 1 first 3 4"),
];

#[test]
fn example_15_reported(rt: HostRuntime) -> Result<(), Fail> {
    let project = hot_spot(rt.alloc(), 4, 6)?;
    assert!(rt; equal(&rt, misanswered(&rt, project, HOT_SPOT)?, None));
    Ok(())
}

/// The levels of the low network towards module 0 in example 15.
fn hot_levels(rt: &impl Host) -> Result<Vec<u8>, Fail> {
    let mut stage = Stage::settled(rt.alloc(), hot_spot(rt.alloc(), 4, 6)?)?;
    levels(rt, &mut stage.bench)
}

/// 15: the level of each cycle from 0 to 6.
#[test]
fn example_15_levels(rt: HostRuntime) -> Result<(), Fail> {
    assert!(rt;
        equal(
            &rt,
            hot_levels(&rt)?.as_slice(),
            [0, 0, 0, 0, 1, 1, 2].as_slice()
        )
    );
    Ok(())
}

/// 18: combining brings the second reply a cycle earlier, with the same word, and halves what the
/// module serves.
const COMBINING: Session = &[
    ("entry 0 0 sync add 0 1", "ok 1"),
    ("entry 1 0 sync add 0 2", "ok 2"),
    ("reply 1 0", "ok 2 at 7 word 11"),
    ("combine 0 on", "ok 3"),
    ("reply 1 0", "ok 3 at 6 word 11"),
    ("memory 0 8", "ok 3 13"),
    ("counter served all 0 8", "ok 3 1"),
    ("place 300", "ok 3 1:300"),
    ("order 0", "ok 3 order 0.0 1.0"),
    ("order 300", "ok 3 order"),
    ("order 16384", "bad 3"),
];

/// 16.3 goes on where 18 ends, with serial orders.
#[test]
fn examples_16_3_and_18(rt: HostRuntime) -> Result<(), Fail> {
    let project = edited(base(rt.alloc())?, &[Edit::Horizon(8)])?;
    assert!(rt; equal(&rt, misanswered(&rt, project, COMBINING)?, None));
    Ok(())
}

fn served(from: u32, to: u32) -> Query {
    Query::Counter {
        counter: Counter::Served,
        who: None,
        from,
        to,
    }
}

fn state(component: u32, cycle: u32) -> Query {
    Query::State { component, cycle }
}

/// The first of these queries that is answered otherwise, with what it is answered.
fn misheard(
    rt: &impl Host,
    bench: &mut Bench,
    queries: &[(Query, Heard)],
) -> Option<(Query, Heard)> {
    for (query, want) in queries {
        let heard = answered(rt, bench, *query);
        if heard != *want {
            return Some((*query, heard));
        }
    }
    None
}

/// 22, settled: component 6 and processor 2 aren't there, the last cycle is 10, the last address 16,383, for an order too;
/// a window from 3 to 2 is empty, one to 11 too long, 2/1 is no fraction of references, and processor 0 issued none.
#[test]
fn example_22_settled(rt: HostRuntime) -> Result<(), Fail> {
    let far = Query::Memory {
        address: 16_384,
        cycle: 0,
    };
    let queries = [
        (state(6, 0), Heard::Bad(1)),
        (state(0, 11), Heard::Bad(2)),
        (far, Heard::Bad(3)),
        (Query::Order { address: 16_384 }, Heard::Bad(3)),
        (served(3, 2), Heard::Bad(5)),
        (served(3, 11), Heard::Bad(2)),
        (Query::Bound { a: 2, b: 1, p: 4 }, Heard::Bad(6)),
        (Query::Reply { proc: 2, issue: 0 }, Heard::Bad(1)),
        (Query::Reply { proc: 0, issue: 0 }, Heard::Bad(4)),
    ];
    let mut stage = Stage::settled(rt.alloc(), base(rt.alloc())?)?;
    assert!(rt; equal(&rt, misheard(&rt, &mut stage.bench, &queries), None));
    Ok(())
}

/// 22, fresh: a processor is near itself and the two switches beside it, so its cone at cycle 1 has four
/// cells; a counter waits for all cells up to its last cycle, a reply and an order for all; a place for none.
#[test]
fn example_22_fresh(rt: HostRuntime) -> Result<(), Fail> {
    let place = Place {
        module: 1,
        row: 300,
    };
    let queries = [
        (state(0, 0), Heard::Pending(1)),
        (state(0, 1), Heard::Pending(4)),
        (served(0, 1), Heard::Pending(12)),
        (served(0, 10), Heard::Pending(66)),
        (Query::Place { address: 300 }, Heard::Place(place)),
        (Query::Reply { proc: 0, issue: 0 }, Heard::Pending(66)),
        (Query::Order { address: 0 }, Heard::Pending(66)),
    ];
    let mut stage = Stage::opened(rt.alloc(), base(rt.alloc())?, 0)?;
    assert!(rt; equal(&rt, misheard(&rt, &mut stage.bench, &queries), None));
    Ok(())
}
