//! Figures of small machines, worked out by hand.
use bench_core::Bench;
use expect::equal;
use experiments::{
    Fault, Load, Steady, Window, cold_waits, flows_of, project_of, saturation_map, steady_each,
    sweep_row, told, waited_each,
};
use monitor_sums::Counter;
use omega_net::{Net, ScriptEntry};
use project_book::{Depths, Edit};
use run_queries::{Body, Query};
use std::alloc::Global;
use std::test::Fail;
use word_ops::{Kind, Op};

/// One processor, which has one module; its references go by the low network.
const ONE: Load = Load {
    k: 0,
    hot: 0,
    seed: 7,
    cycles: 16,
    sync: false,
    combine: false,
};

const WHOLE: Window = Window { from: 0, to: 16 };

// One reference is issued in each step, the first shown at cycle 1. Each is served two cycles after that and answered one
// cycle later, so 14 are served by cycle 16, and 13 answered after 3 cycles each.
#[test]
fn one_processor_is_served_each_cycle(rt: HostRuntime) -> Result<(), Fail> {
    let project = project_of(rt.alloc(), ONE)?;
    let map = saturation_map(rt.alloc(), &project, Net::Low, 0, WHOLE)?;
    assert!(rt; equal(&rt, map.stages.len(), 0));
    assert!(rt; equal(&rt, map.levels.as_slice(), [0; 17].as_slice()));
    for (cycle, is_served) in map.served.iter().enumerate() {
        assert!(rt; equal(&rt, *is_served, cycle >= 3));
    }
    let waits = cold_waits(rt.alloc(), &project, WHOLE)?;
    assert!(rt; equal(&rt, waits.as_slice(), [3; 13].as_slice()));
    let flows = flows_of(rt.alloc(), &project)?;
    let answered = [0, 0, 0, 0, 1, 1, 1, 1, 1, 1, 1, 1, 1, 1, 1, 1, 1];
    assert!(rt; equal(&rt, flows.answered.as_slice(), answered.as_slice()));
    let served = [0, 0, 0, 1, 1, 1, 1, 1, 1, 1, 1, 1, 1, 1, 1, 1, 1];
    assert!(rt; equal(&rt, flows.served.as_slice(), served.as_slice()));
    Ok(())
}

// The first entry refers three times to the hot word, so that of the 13 references that are answered three are hot.
#[test]
fn references_are_those_of_their_entries(rt: HostRuntime) -> Result<(), Fail> {
    let hot = Edit::Entry {
        proc: 0,
        index: 0,
        entry: ScriptEntry::Reference {
            sync: false,
            op: Op {
                kind: Kind::Add,
                operand: 1,
            },
            address: 0,
            times: 3,
        },
    };
    let Ok((project, _)) = project_of(rt.alloc(), ONE)?.apply(hot) else {
        return Err(Fail::from("a project"));
    };
    let waits = cold_waits(rt.alloc(), &project, WHOLE)?;
    assert!(rt; equal(&rt, waits.as_slice(), [3; 10].as_slice()));
    Ok(())
}

// Where every reference is hot, none is left to wait.
#[test]
fn hot_references_are_left_out(rt: HostRuntime) -> Result<(), Fail> {
    let project = project_of(rt.alloc(), Load { hot: 100, ..ONE })?;
    assert!(rt; equal(&rt, cold_waits(rt.alloc(), &project, WHOLE)?.len(), 0));
    Ok(())
}

// By PCG's reference algorithm the stream 1 of seed 7 draws 50, 12 and 37 modulo 100 for its first three references, of
// which those below 37 are hot, and 222, 95 and 243 modulo 256 for their words.
#[test]
fn scripts_are_drawn(rt: HostRuntime) -> Result<(), Fail> {
    let project = project_of(
        rt.alloc(),
        Load {
            k: 1,
            hot: 37,
            ..ONE
        },
    )?;
    assert!(rt; equal(&rt, project.length(1), 256));
    let mut addresses = Vec::new(rt.alloc());
    for index in 0..3 {
        if let Some(ScriptEntry::Reference { address, .. }) = project.entry(1, index) {
            addresses.push(address)?;
        }
    }
    assert!(rt; equal(&rt, addresses.as_slice(), [478, 0, 499].as_slice()));
    Ok(())
}

// Each load has the answer that it has alone, over the second half of its few cycles; a machine that there isn't has none.
#[test]
fn loads_are_run_side_by_side(rt: HostRuntime) -> Result<(), Fail> {
    let loads = [ONE, Load { k: 9, ..ONE }, Load { cycles: 20, ..ONE }];
    let counts = steady_each(&rt, rt.alloc(), &loads)?;
    let steady = |first: u32, count: u64| Steady {
        first,
        answered: count,
        served: count,
    };
    let told = [Ok(steady(9, 8)), Err(Fault::Load), Ok(steady(11, 10))];
    assert!(rt; counts.as_slice() == told.as_slice());
    let waits = waited_each(&rt, rt.alloc(), &[ONE], 17)?;
    assert!(rt; matches!(waits.as_slice(), [Err(Fault::Load)]));
    Ok(())
}

/// A bench of the one processor, with its clock at this value. It stands in a box, since each way out of a function costs
/// its proof something for every field that it lets go.
fn bench(alloc: Global, clock: u64) -> Result<Box<Bench>, Fail> {
    let project = project_of(alloc, ONE)?;
    let bench = Bench::new(alloc, project, clock).ok().ok_or("a bench")?;
    Ok(Box::new(alloc, bench)?)
}

// A bench whose clock is at its last value can compute nothing.
#[test]
fn a_spent_clock_is_told(rt: HostRuntime) -> Result<(), Fail> {
    let mut bench = bench(rt.alloc(), u64::MAX)?;
    let query = Query::Reply { proc: 0, issue: 0 };
    assert!(rt; matches!(told(&rt, &mut bench, query), Err(Fault::Clock)));
    Ok(())
}

// With a queue of two places the module's requests are never more.
#[test]
fn edits_are_swept(rt: HostRuntime) -> Result<(), Fail> {
    let mut bench = bench(rt.alloc(), 0)?;
    let query = Query::Counter {
        counter: Counter::Served,
        who: None,
        from: 0,
        to: 16,
    };
    let edit = Edit::Depth {
        queue: Depths::ModuleQueue,
        depth: 2,
    };
    // Of the reference 255 there is no reply, since it isn't issued.
    let late = Query::Reply {
        proc: 0,
        issue: 255,
    };
    let row = sweep_row(&rt, rt.alloc(), &mut bench, edit, &[late, query]);
    let row = row.ok().ok_or("a row")?;
    assert!(rt; matches!(row.as_slice(), [Err(4), Ok(Body::Count(14))]));
    let none = Edit::Depth {
        queue: Depths::ModuleQueue,
        depth: 17,
    };
    assert!(rt; sweep_row(&rt, rt.alloc(), &mut bench, none, &[query]).is_err());
    Ok(())
}
