//! What a bench notes, and what it answers where it has answered before, or where cells are due.

use crate::base::{adds, entry, fresh, word};
use bench_core::{Asked, Bench, Noted, Told};
use cell_table::Settled;
use expect::equal;
use monitor_sums::Counter;
use omega_net::Net;
use project_book::Edit;
use run_queries::Query;
use std::alloc::Global;
use std::io::Eprint;
use std::test::Fail;
use std::thread::Threads;

fn settle(bench: &mut Bench) -> Result<(), Fail> {
    match bench.settle() {
        Ok(_) => Ok(()),
        Err(_) => Err(Fail::from("not settled")),
    }
}

fn settled(alloc: Global) -> Result<Box<Bench>, Fail> {
    let mut bench = fresh(alloc)?;
    settle(&mut bench)?;
    Ok(bench)
}

/// The processor's first entry: an addition over the combining network.
fn add(proc: u32, operand: u32) -> Edit {
    entry(proc, 0, adds(true, operand, 1))
}

/// What is answered, behind its version.
fn text<R: Threads + Sync>(
    rt: &R,
    alloc: Global,
    bench: &mut Bench,
    query: Query,
) -> Result<String, Fail> {
    match bench.ask(rt, query) {
        Asked::Answer { version, body } => Ok(format!(in alloc; "{version} {body}")?),
        Asked::Pending(due) => Ok(format!(in alloc; "{due} due")?),
        _ => Err(Fail::from("no answer")),
    }
}

/// Whether this is answered.
fn answers<R: Threads + Sync + Eprint>(
    rt: &R,
    alloc: Global,
    bench: &mut Bench,
    query: Query,
    wanted: &str,
) -> Result<bool, Fail> {
    let found = text(rt, alloc, bench, query)?;
    Ok(equal(rt, found.as_str(), wanted))
}

#[test]
fn two_authors_are_noted(rt: HostRuntime) -> Result<(), Fail> {
    let mut bench = settled(rt.alloc())?;
    let (first, second) = (add(0, 1), add(1, 2));
    assert!(rt;
        equal(
            &rt,
            (bench.edit(7, first), bench.edit(8, second)),
            (Ok(1), Ok(2))
        )
    );
    let noted = [
        Noted {
            author: 7,
            edit: first,
        },
        Noted {
            author: 8,
            edit: second,
        },
    ];
    assert!(rt; equal(&rt, bench.journal(), noted.as_slice()));
    assert!(rt; equal(&rt, (bench.version(), bench.project().length(1)), (2, 1)));
    Ok(())
}

/// How many requests were served in all.
const SERVED: Query = Query::Counter {
    counter: Counter::Served,
    who: None,
    from: 0,
    to: 10,
};

/// Asks 65 questions, as many as push another one out of those that are kept.
fn asks_many<R: Threads + Sync>(rt: &R, bench: &mut Bench) {
    for address in 0..65 {
        bench.ask(rt, Query::Place { address });
    }
}

/// How many of these questions are answered the same when they are asked again.
fn same_again<R: Threads + Sync>(
    rt: &R,
    alloc: Global,
    bench: &mut Bench,
    queries: &[Query],
) -> Result<u32, Fail> {
    let mut same = 0u32;
    for query in queries {
        let once = text(rt, alloc, bench, *query)?;
        if text(rt, alloc, bench, *query)? == once {
            same = same.saturating_add(1);
        }
    }
    Ok(same)
}

/// Questions whose answers are kept.
const KEPT: [Query; 5] = [
    SERVED,
    Query::State {
        component: 2,
        cycle: 4,
    },
    Query::Profile {
        net: Net::Comb,
        stage: 0,
    },
    Query::Tree {
        net: Net::Comb,
        module: 0,
    },
    Query::Reply { proc: 0, issue: 0 },
];

/// A word of module 1 is another one, so both modules are due at cycle 0, and what was told before says nothing any more.
#[test]
fn questions_asked_again(rt: HostRuntime) -> Result<(), Fail> {
    let alloc = rt.alloc();
    let mut bench = settled(alloc)?;
    bench.edit(0, add(0, 1))?;
    settle(&mut bench)?;
    assert!(rt; answers(&rt, alloc, &mut bench, SERVED, "1 1")?);
    asks_many(&rt, &mut bench);
    assert!(rt; answers(&rt, alloc, &mut bench, SERVED, "1 1")?);
    assert!(rt; equal(&rt, same_again(&rt, alloc, &mut bench, &KEPT)?, 5));
    bench.edit(0, word(300, 5))?;
    assert!(rt; answers(&rt, alloc, &mut bench, SERVED, "2 due")?);
    settle(&mut bench)?;
    assert!(rt; answers(&rt, alloc, &mut bench, SERVED, "2 1")?);
    Ok(())
}

/// How many requests were served up to a cycle.
fn served_to(to: u32) -> Query {
    Query::Counter {
        counter: Counter::Served,
        who: None,
        from: 0,
        to,
    }
}

/// Six cells a cycle: of the cycles 0 to 3, of 4 to 7, and of the last three. A question waits for those up to its last cycle
/// alone.
#[test]
fn settled_as_far_as_asked(rt: HostRuntime) -> Result<(), Fail> {
    let alloc = rt.alloc();
    let mut bench = fresh(alloc)?;
    assert!(rt; equal(&rt, bench.last_cycle(served_to(3)), Some(3)));
    assert!(rt; equal(&rt, bench.settle_to(3), Ok(Settled { computed: 24 })));
    assert!(rt; answers(&rt, alloc, &mut bench, served_to(3), "0 0")?);
    assert!(rt; answers(&rt, alloc, &mut bench, served_to(4), "6 due")?);
    assert!(rt; equal(&rt, bench.settle_to(7), Ok(Settled { computed: 24 })));
    assert!(rt; equal(&rt, bench.settle(), Ok(Settled { computed: 18 })));
    Ok(())
}

/// What is told, behind its version, or the reason against the question.
fn told<R: Threads + Sync>(
    rt: &R,
    alloc: Global,
    bench: &mut Bench,
    query: Query,
) -> Result<String, Fail> {
    match bench.answer(rt, query) {
        Told::Answer { version, body } => Ok(format!(in alloc; "{version} {body}")?),
        Told::BadQuery(number) => Ok(format!(in alloc; "bad {number}")?),
        _ => Err(Fail::from("nothing told")),
    }
}

/// Whether this is told.
fn tells<R: Threads + Sync + Eprint>(
    rt: &R,
    alloc: Global,
    bench: &mut Bench,
    query: Query,
    wanted: &str,
) -> Result<bool, Fail> {
    let found = told(rt, alloc, bench, query)?;
    Ok(equal(rt, found.as_str(), wanted))
}

/// The word of address 300, which stands in module 1, before cycle 1.
const EARLY_WORD: Query = Query::Memory {
    address: 300,
    cycle: 0,
};

/// An edit of a word of module 1 makes a cell due at cycle 0. Its new state, once asked for, makes three due at cycle 1, the
/// module's own and those of the two switches beside it, and these stay due until a question looks at them.
#[test]
fn answered_as_far_as_it_looks(rt: HostRuntime) -> Result<(), Fail> {
    let alloc = rt.alloc();
    let mut bench = settled(alloc)?;
    bench.edit(0, word(300, 5))?;
    assert!(rt; tells(&rt, alloc, &mut bench, EARLY_WORD, "1 5")?);
    assert!(rt; answers(&rt, alloc, &mut bench, SERVED, "3 due")?);
    assert!(rt; tells(&rt, alloc, &mut bench, SERVED, "1 0")?);
    assert!(rt; answers(&rt, alloc, &mut bench, SERVED, "1 0")?);
    Ok(())
}

/// Neither a question that looks at no cell nor one that its numbers refuse computes any of the 66.
#[test]
fn answered_without_a_cell(rt: HostRuntime) -> Result<(), Fail> {
    let alloc = rt.alloc();
    let mut bench = fresh(alloc)?;
    let place = Query::Place { address: 300 };
    let bound = Query::Bound { a: 2, b: 1, p: 4 };
    let beyond = Query::State {
        component: 0,
        cycle: 11,
    };
    assert!(rt; tells(&rt, alloc, &mut bench, place, "0 1:300")?);
    assert!(rt; tells(&rt, alloc, &mut bench, bound, "bad 6")?);
    assert!(rt; tells(&rt, alloc, &mut bench, beyond, "bad 2")?);
    assert!(rt; answers(&rt, alloc, &mut bench, SERVED, "66 due")?);
    Ok(())
}

/// A reply that comes early computes no cell behind cycle 15 of 100: the addition goes out at cycle 1
/// and is answered at cycle 6, and the next cycle's six cells stay due. One that was never issued computes all.
#[test]
fn a_reply_is_sought_no_further(rt: HostRuntime) -> Result<(), Fail> {
    let alloc = rt.alloc();
    let mut bench = fresh(alloc)?;
    bench.edit(0, Edit::Horizon(100))?;
    bench.edit(0, add(0, 5))?;
    let reply = Query::Reply { proc: 0, issue: 0 };
    assert!(rt; tells(&rt, alloc, &mut bench, reply, "2 at 6 word 10")?);
    assert!(rt; answers(&rt, alloc, &mut bench, served_to(15), "2 1")?);
    assert!(rt; answers(&rt, alloc, &mut bench, served_to(16), "6 due")?);
    let beyond = Query::Reply { proc: 0, issue: 1 };
    assert!(rt; tells(&rt, alloc, &mut bench, beyond, "bad 4")?);
    assert!(rt; answers(&rt, alloc, &mut bench, served_to(100), "2 1")?);
    Ok(())
}

/// The last cycle of what each question waits for.
#[test]
fn questions_have_a_last_cycle(rt: HostRuntime) -> Result<(), Fail> {
    let bench = fresh(rt.alloc())?;
    let reply = Query::Reply { proc: 0, issue: 0 };
    let state = Query::State {
        component: 2,
        cycle: 4,
    };
    let place = Query::Place { address: 0 };
    assert!(rt; equal(&rt, bench.last_cycle(reply), Some(10)));
    assert!(rt; equal(&rt, bench.last_cycle(state), Some(4)));
    assert!(rt; equal(&rt, bench.last_cycle(place), None));
    Ok(())
}

/// How many cells are due.
fn due(bench: &Bench) -> u64 {
    bench.cells().due_to(bench.project().horizon())
}

/// The order is told whether or not cells are due. Where many are, they stay due; where few are, they are settled.
#[test]
fn an_order_due_or_settled(rt: HostRuntime) -> Result<(), Fail> {
    let alloc = rt.alloc();
    let order = Query::Order { address: 0 };
    let mut bench = fresh(alloc)?;
    for edit in [add(0, 1), add(1, 2), Edit::Horizon(5)] {
        bench.edit(0, edit)?;
    }
    let before = due(&bench);
    assert!(rt; tells(&rt, alloc, &mut bench, order, "3 order 0.0 1.0")?);
    assert!(rt; due(&bench) == before && before > 0);
    settle(&mut bench)?;
    assert!(rt; tells(&rt, alloc, &mut bench, order, "3 order 0.0 1.0")?);
    bench.edit(0, Edit::Horizon(6))?;
    assert!(rt; tells(&rt, alloc, &mut bench, order, "4 order 0.0 1.0")?);
    assert!(rt; equal(&rt, due(&bench), 0));
    bench.edit(0, Edit::Horizon(3))?;
    assert!(rt; tells(&rt, alloc, &mut bench, order, "5 order")?);
    Ok(())
}
