//! Worked examples.

use expect::equal;
use machine_cells::{MachineState, from_scratch};
use omega_net::{Net, ScriptEntry};
use project_book::{Depths, Edit, Project};
use saturation::{Tree, bound, tree};
use std::alloc::Global;
use std::sync::Arc;
use std::test::Fail;
use std::thread::Threads;
use word_ops::{Kind, Op};

/// Four processors up to cycle 6, with page 0 on module 0, of which two begin at once and two wait for 4 steps, and then
/// each adds 1 to word 0 fifty times over the low network.
fn hot_spot(alloc: Global) -> Result<Project, Fail> {
    let add = ScriptEntry::Reference {
        sync: false,
        op: Op {
            kind: Kind::Add,
            operand: 1,
        },
        address: 0,
        times: 50,
    };
    let mut project = Project::new(alloc, 2, 6)?.ok_or("within the limits")?;
    for edit in [
        Edit::Window(8),
        Edit::Page {
            page: 0,
            amount: 0,
            base: 0,
        },
        entry(0, 0, add),
        entry(1, 0, add),
        entry(2, 0, ScriptEntry::Idle(4)),
        entry(2, 1, add),
        entry(3, 0, ScriptEntry::Idle(4)),
        entry(3, 1, add),
    ] {
        project = project.apply(edit)?.0;
    }
    Ok(project)
}

fn entry(proc: u32, index: u32, entry: ScriptEntry) -> Edit {
    Edit::Entry { proc, index, entry }
}

/// The states of each cycle, by reference.
fn borrowed(
    alloc: Global,
    rows: &[Vec<Arc<MachineState>>],
) -> Result<Vec<Vec<&MachineState>>, Fail> {
    let mut all = Vec::new(alloc);
    for row in rows {
        let mut states = Vec::new(alloc);
        for state in row {
            states.push(&**state)?;
        }
        all.push(states)?;
    }
    Ok(all)
}

fn low_tree(rt: &(impl Threads + Sync), alloc: Global, project: &Project) -> Result<Tree, Fail> {
    let states = from_scratch(alloc, project)?;
    let rows = borrowed(alloc, &states)?;
    if rows.len() != project.horizon() as usize + 1 || project.k() != 2 {
        return Err(Fail::from("another machine"));
    }
    Ok(tree(rt, alloc, project, &rows, Net::Low, 0)?)
}

// The first two processors fill the queue before module 0 by cycle 4 and the rest behind it by cycle 6.
#[test]
fn a_tree(rt: HostRuntime) -> Result<(), Fail> {
    let alloc = rt.alloc();
    let report = low_tree(&rt, alloc, &hot_spot(alloc)?)?;
    let levels = [0, 0, 0, 0, 1, 1, 2];
    assert!(rt; equal(&rt, report.levels.as_slice(), levels.as_slice()));
    assert!(rt; equal(&rt, report.first.as_slice(), [Some(4), Some(6)].as_slice()));
    assert!(rt; equal(&rt, format!(in alloc; "{report}")?.as_str(), "first 4 6"));
    Ok(())
}

// With two places a queue is full as soon as it holds one request, which is at cycles 3 and 4.
#[test]
fn a_tree_of_shallow_queues(rt: HostRuntime) -> Result<(), Fail> {
    let alloc = rt.alloc();
    let shallow = Edit::Depth {
        queue: Depths::LowForward,
        depth: 2,
    };
    let project = hot_spot(alloc)?.apply(shallow)?.0;
    let report = low_tree(&rt, alloc, &project)?;
    assert!(rt; equal(&rt, report.first.as_slice(), [Some(3), Some(4)].as_slice()));
    Ok(())
}

#[test]
fn fractions(rt: HostRuntime) -> Result<(), Fail> {
    assert!(rt; equal(&rt, bound(1, 10, 32), Some((10, 41))));
    assert!(rt; equal(&rt, bound(0, 1, 1), Some((1, 1))));
    assert!(rt; equal(&rt, bound(2, 1, 4), None));
    Ok(())
}
