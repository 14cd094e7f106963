//! All that the bench of a hot spot answers.
use bench_core::{Asked, Bench};
use monitor_sums::Counter;
use omega_net::Net;
use run_queries::Query;
use std::test::Fail;
use std::thread::Threads;

/// Adds a line with what a query is answered.
fn add_answer<R: AllocGlobal + Threads + Sync>(
    rt: &R,
    bench: &mut Bench,
    query: Query,
    lines: &mut String,
) -> Result<(), Fail> {
    let line = match bench.ask(rt, query) {
        Asked::Answer { version, body } => format!(in rt.alloc(); "{version} {body}\n")?,
        Asked::BadQuery(number) => format!(in rt.alloc(); "bad {number}\n")?,
        _ => return Err(Fail::from("no answer")),
    };
    lines.push_str(line.as_str())?;
    Ok(())
}

/// The states of the 16 components at the cycles 0 to 6.
fn add_states<R: AllocGlobal + Threads + Sync>(
    rt: &R,
    bench: &mut Bench,
    lines: &mut String,
) -> Result<(), Fail> {
    for cycle in 0..7 {
        for component in 0..16 {
            add_answer(rt, bench, Query::State { component, cycle }, lines)?;
        }
    }
    Ok(())
}

/// The replies to the first eight references of each of the four processors.
fn add_replies<R: AllocGlobal + Threads + Sync>(
    rt: &R,
    bench: &mut Bench,
    lines: &mut String,
) -> Result<(), Fail> {
    for proc in 0..4 {
        for issue in 0..8 {
            add_answer(rt, bench, Query::Reply { proc, issue }, lines)?;
        }
    }
    Ok(())
}

/// A counter over the cycles 0 to 6.
fn counter(counter: Counter, who: Option<u32>) -> Query {
    Query::Counter {
        counter,
        who,
        from: 0,
        to: 6,
    }
}

/// The profile of a stage of the low network.
fn profile(stage: u32) -> Query {
    Query::Profile {
        net: Net::Low,
        stage,
    }
}

/// The tree of the low network towards module 0.
const TREE: Query = Query::Tree {
    net: Net::Low,
    module: 0,
};

/// The tree, the profiles of both stages, counters, each reply and each state, a line each.
fn all_answers<R: AllocGlobal + Threads + Sync>(rt: &R, bench: &mut Bench) -> Result<String, Fail> {
    let mut lines = String::new(rt.alloc());
    for query in [
        TREE,
        profile(1),
        profile(0),
        counter(Counter::Issued, Some(0)),
        counter(Counter::Served, None),
        counter(Counter::Issued, None),
        counter(Counter::Answered, None),
        counter(Counter::Combined, None),
    ] {
        add_answer(rt, bench, query, &mut lines)?;
    }
    add_replies(rt, bench, &mut lines)?;
    add_states(rt, bench, &mut lines)?;
    Ok(lines)
}

/// Whether two benches answer all of it the same, and these lines first.
pub(super) fn answer_the_same<R: AllocGlobal + Threads + Sync>(
    rt: &R,
    bench: &mut Bench,
    other: &mut Bench,
    first: &str,
) -> Result<bool, Fail> {
    let told = all_answers(rt, bench)?;
    let same = told == all_answers(rt, other)?;
    Ok(same && told.as_str().starts_with(first))
}
