//! The counts of worked examples, and each call that takes memory.

use expect::{equal, equal_at};
use machine_cells::{MachineState, from_scratch};
use monitor_sums::{Counter, Sums};
use omega_net::{Net, ScriptEntry, Shape};
use project_book::{Edit, Project};
use std::alloc::Global;
use std::test::Fail;
use word_ops::{Kind, Op};

/// The size or the horizon is past its limit.
#[derive(Clone, Copy, Debug)]
struct NoSuchProject;

/// The reference `add 0 operand`, issued so often.
fn add(sync: bool, operand: u32, times: u32) -> ScriptEntry {
    ScriptEntry::Reference {
        sync,
        op: Op {
            kind: Kind::Add,
            operand,
        },
        address: 0,
        times,
    }
}

/// A project of 2^k processors with these edits, whose page 0 stands whole in module 0.
fn edited(alloc: Global, k: u32, horizon: u32, edits: &[Edit]) -> Result<Project, Fail> {
    let mut project = Project::new(alloc, k, horizon)?.ok_or(NoSuchProject)?;
    let page = Edit::Page {
        page: 0,
        amount: 0,
        base: 0,
    };
    project = project.apply(page)?.0;
    for edit in edits {
        project = project.apply(*edit)?.0;
    }
    Ok(project)
}

/// The counters of a project's run to its horizon, each of whose cells is changed once.
fn counters(alloc: Global, project: &Project) -> Result<Sums, Fail> {
    let shape = Shape::new(project.k()).ok_or(NoSuchProject)?;
    let mut sums = Sums::new(alloc, shape, project.horizon())?;
    let rows = from_scratch(alloc, project)?;
    for (cycle, row) in rows.iter().enumerate() {
        for (component, state) in row.iter().enumerate() {
            change(&mut sums, component, cycle, state)?;
        }
    }
    Ok(sums)
}

fn change(
    sums: &mut Sums,
    component: usize,
    cycle: usize,
    state: &MachineState,
) -> Result<(), Fail> {
    let component = u32::try_from(component)?;
    let cycle = u32::try_from(cycle)?;
    if component < sums.shape().components() && cycle <= sums.last() {
        sums.change(component, cycle, Some(state));
    }
    Ok(())
}

/// The profile of a stage, if the machine has it.
fn profile(sums: &Sums, net: Net, stage: u32) -> Option<[u64; 17]> {
    if stage < sums.shape().k() {
        Some(sums.profile(net, stage))
    } else {
        None
    }
}

/// Two processors that add 1 and 2 to word 0, which is 10.
fn two_adds(alloc: Global, combine: bool) -> Result<Project, Fail> {
    let edits = [
        Edit::Word {
            address: 0,
            word: 10,
        },
        Edit::Entry {
            proc: 0,
            index: 0,
            entry: add(true, 1, 1),
        },
        Edit::Entry {
            proc: 1,
            index: 0,
            entry: add(true, 2, 1),
        },
        Edit::Combine {
            stage: 0,
            on: combine,
        },
    ];
    edited(alloc, 1, 10, &edits)
}

// Without combining each of the two requests is served.
#[test]
fn two_requests_are_served(rt: HostRuntime) -> Result<(), Fail> {
    let sums = counters(rt.alloc(), &two_adds(rt.alloc(), false)?)?;
    assert!(rt; sums.last() == 10);
    assert!(rt; equal(&rt, sums.total(Counter::Issued, None), 2));
    assert!(rt; equal(&rt, sums.total(Counter::Served, None), 2));
    assert!(rt; equal(&rt, sums.total(Counter::Combined, None), 0));
    assert!(rt; equal(&rt, sums.total(Counter::Answered, None), 2));
    // the replies come at cycles 6 and 7
    assert!(rt; equal(&rt, sums.sum(Counter::Answered, None, 0, 6), 1));
    Ok(())
}

// With combining the switch makes one request of the two, which is served once and answered twice.
#[test]
fn a_combined_request_is_served_once(rt: HostRuntime) -> Result<(), Fail> {
    let sums = counters(rt.alloc(), &two_adds(rt.alloc(), true)?)?;
    assert!(rt; sums.last() == 10);
    assert!(rt; equal(&rt, sums.total(Counter::Served, None), 1));
    assert!(rt; equal(&rt, sums.total(Counter::Combined, None), 1));
    // both replies come at cycle 6
    assert!(rt; equal(&rt, sums.sum(Counter::Answered, None, 6, 6), 2));
    Ok(())
}

// The same over more than two blocks of cycles: the first block and a part of the second, and whole blocks alone.
#[test]
fn windows_of_blocks(rt: HostRuntime) -> Result<(), Fail> {
    let alloc = rt.alloc();
    let idle = Edit::Entry {
        proc: 0,
        index: 0,
        entry: ScriptEntry::Idle(40),
    };
    let later = Edit::Entry {
        proc: 0,
        index: 1,
        entry: add(true, 1, 1),
    };
    let sums = counters(alloc, &edited(alloc, 1, 100, &[idle, later])?)?;
    assert!(rt; sums.last() == 100);
    for (from, to, issued) in [
        (0, 31, 0),
        (0, 40, 0),
        (0, 41, 1),
        (32, 63, 1),
        (41, 100, 1),
        (42, 100, 0),
    ] {
        let all = sums.sum(Counter::Issued, None, from, to);
        let first = sums.sum(Counter::Issued, Some(0), from, to);
        assert!(rt; equal_at(&rt, (from, to), (all, first), (issued, issued)));
    }
    assert!(rt; equal(&rt, sums.total(Counter::Issued, Some(0)), 1));
    Ok(())
}

/// Four processors that all reach for word 0, two of them four cycles later.
fn hot_spot(alloc: Global) -> Result<Project, Fail> {
    let entry = |proc, index, entry| Edit::Entry { proc, index, entry };
    let edits = [
        Edit::Window(8),
        entry(0, 0, add(false, 1, 50)),
        entry(1, 0, add(false, 1, 50)),
        entry(2, 0, ScriptEntry::Idle(4)),
        entry(2, 1, add(false, 1, 50)),
        entry(3, 0, ScriptEntry::Idle(4)),
        entry(3, 1, add(false, 1, 50)),
    ];
    edited(alloc, 2, 6, &edits)
}

// There are 28 pairs of an output queue of a stage and a cycle. Those of the hot module fill.
#[test]
fn queues_fill_towards_a_hot_spot(rt: HostRuntime) -> Result<(), Fail> {
    let sums = counters(rt.alloc(), &hot_spot(rt.alloc())?)?;
    assert!(rt; equal(&rt, sums.total(Counter::Issued, Some(0)), 6));
    assert!(rt; equal(&rt, sums.total(Counter::Served, None), 2));
    let mut last = [0; 17];
    last[0] = 24;
    last[2] = 1;
    last[3] = 3;
    assert!(rt; equal(&rt, profile(&sums, Net::Low, 1), Some(last)));
    let mut first = [0; 17];
    first[0] = 18;
    first[1] = 7;
    first[2] = 1;
    first[3] = 2;
    assert!(rt; equal(&rt, profile(&sums, Net::Low, 0), Some(first)));
    Ok(())
}

// A cell that holds no state any more counts nothing.
#[test]
fn a_cell_without_a_state_counts_nothing(rt: HostRuntime) -> Result<(), Fail> {
    let mut sums = counters(rt.alloc(), &two_adds(rt.alloc(), false)?)?;
    assert!(rt; equal(&rt, sums.total(Counter::Issued, Some(0)), 1));
    for cycle in 0..11 {
        assert!(rt; cycle <= sums.last());
        sums.change(0, cycle, None);
    }
    assert!(rt; equal(&rt, sums.total(Counter::Issued, Some(0)), 0));
    assert!(rt; equal(&rt, sums.total(Counter::Issued, None), 1));
    Ok(())
}

#[test]
fn names_are_read_back(rt: HostRuntime) -> Result<(), Fail> {
    for counter in Counter::ALL {
        assert!(rt;
            equal(
                &rt,
                Counter::from_name(counter.name().as_bytes()),
                Some(counter)
            )
        );
        assert!(rt;
            equal(
                &rt,
                format!(in rt.alloc(); "{counter}")?.as_str(),
                counter.name()
            )
        );
    }
    assert!(rt; equal(&rt, Counter::from_name(b"idle".as_slice()), None));
    Ok(())
}
