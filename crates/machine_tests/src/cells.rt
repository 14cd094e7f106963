//! A worked example, and each call that takes memory.

use expect::{equal, equal_at};
use grid_law::{Grid, Reader};
use machine_cells::{MachineState, Rp3, from_scratch};
use omega_net::ScriptEntry;
use project_book::{Depths, Edit, Project, Slot};
use std::alloc::Global;
use std::sync::Arc;
use std::test::Fail;
use word_ops::{Kind, Op};

/// The machine of one processor, with 20 in word 0 and the one reference `sync add 0 1`. Its request is
/// out at cycle 1, at the module at 2 and served at 3; the reply is received at 4.
fn one_reference(alloc: Global) -> Result<Project, Fail> {
    let entry = ScriptEntry::Reference {
        sync: true,
        op: Op {
            kind: Kind::Add,
            operand: 1,
        },
        address: 0,
        times: 1,
    };
    let edits = [
        Edit::Word {
            address: 0,
            word: 20,
        },
        Edit::Entry {
            proc: 0,
            index: 0,
            entry,
        },
    ];
    let mut project = Project::built_in(alloc)?;
    for edit in edits {
        project = project.apply(edit)?.0;
    }
    Ok(project)
}

/// The states near a component, shared.
fn near_states(
    alloc: Global,
    project: &Project,
    row: &[Arc<MachineState>],
    c: u32,
) -> Result<Vec<Arc<MachineState>>, Fail> {
    let mut near = Vec::new(alloc);
    if c < Rp3::components(project) {
        for number in &Rp3::near(project, c) {
            if let Some(state) = row.get(*number as usize) {
                near.push(Arc::try_clone(state)?)?;
            }
        }
    }
    Ok(near)
}

/// Whether `next` gives a state from the same near states, lent.
fn lent_gives(
    alloc: Global,
    project: &Project,
    near: &[Arc<MachineState>],
    c: u32,
    state: &MachineState,
) -> Result<bool, Fail> {
    let mut lent = Vec::new(alloc);
    for shared in near {
        lent.push(&**shared)?;
    }
    if c >= Rp3::components(project) {
        return Ok(false);
    }
    Ok(match (Rp3::next(alloc, project, &lent, c)?, lent.first()) {
        (Some(next), _) => Rp3::same(&next, state),
        (None, Some(own)) => Rp3::same(*own, state),
        (None, None) => false,
    })
}

/// The text of a component's state at a cycle; empty where it isn't there.
fn printed(
    alloc: Global,
    rows: &[Vec<Arc<MachineState>>],
    cycle: usize,
    component: usize,
) -> Result<String, Fail> {
    match rows.get(cycle).and_then(|row| row.get(component)) {
        Some(state) => Ok(format!(in alloc; "{state}")?),
        None => Ok(String::new(alloc)),
    }
}

#[test]
fn one_reference_is_answered_at_cycle_4(rt: HostRuntime) -> Result<(), Fail> {
    let alloc = rt.alloc();
    let rows = from_scratch(alloc, &one_reference(alloc)?)?;
    assert!(rt; equal(&rt, rows.len(), 9));
    for (cycle, component, text) in [
        (
            3,
            1,
            "mod q0 [] q1 [] a0 [] a1 [0.0=20] turn 0 served 1 mem [0=21]",
        ),
        (
            4,
            0,
            "proc index 1 spent 0 issued 1 pending 0 out - got - 0=20 sent 0",
        ),
        (
            4,
            1,
            "mod q0 [] q1 [] a0 [] a1 [] turn 0 served 0 mem [0=21]",
        ),
    ] {
        assert!(rt; equal(&rt, printed(alloc, &rows, cycle, component)?.as_str(), text));
    }
    Ok(())
}

/// The states of all components at cycle 0.
fn started(alloc: Global, project: &Project) -> Result<Vec<Arc<MachineState>>, Fail> {
    let mut row = Vec::new(alloc);
    for c in 0..Rp3::components(project) {
        row.push(Rp3::start(alloc, project, c)?)?;
    }
    Ok(row)
}

/// The states one cycle after a row of states.
fn stepped(
    alloc: Global,
    project: &Project,
    row: &[Arc<MachineState>],
) -> Result<Vec<Arc<MachineState>>, Fail> {
    let mut next = Vec::new(alloc);
    for c in 0..Rp3::components(project) {
        let near = near_states(alloc, project, row, c)?;
        let state = Rp3::step(alloc, project, &near, c)?;
        if !lent_gives(alloc, project, &near, c, &state)? {
            return Err(Fail::from("another state where the near states are lent"));
        }
        next.push(state)?;
    }
    Ok(next)
}

/// Whether two rows have the same states.
fn alike(one: &[Arc<MachineState>], other: &[Arc<MachineState>]) -> bool {
    let mut both = one.iter().zip(other);
    one.len() == other.len() && both.all(|(plain, cell)| Rp3::same(plain, cell))
}

#[test]
fn cells_give_the_run(rt: HostRuntime) -> Result<(), Fail> {
    let alloc = rt.alloc();
    let project = Rp3::share(alloc, &one_reference(alloc)?)?;
    let mut row = started(alloc, &project)?;
    for states in &from_scratch(alloc, &project)? {
        assert!(rt; alike(states, &row));
        row = stepped(alloc, &project, &row)?;
    }
    Ok(())
}

/// Readers by their numbers: at cycle 0, or later.
fn at_first(component: u32) -> Reader {
    Reader {
        component,
        first: true,
    }
}

fn at_later(component: u32) -> Reader {
    Reader {
        component,
        first: false,
    }
}

// One stage: processors 0 and 1, modules 2 and 3, the low switch 4 and the combining switch 5. Words are
// read at the start alone, scripts by their processor alone.
#[test]
fn readers_of_slots(rt: HostRuntime) -> Result<(), Fail> {
    let alloc = rt.alloc();
    let project = Project::new(alloc, 1, 10)?.ok_or("k 1 is there")?;
    let pages = [at_later(0), at_later(1), at_first(2), at_first(3)];
    let queues = [at_later(2), at_later(3), at_later(4), at_later(5)];
    for (slot, readers) in [
        (Slot::Word(300), [at_first(2), at_first(3)].as_slice()),
        (Slot::Entry(0, 0), [at_later(0)].as_slice()),
        (Slot::Entry(2, 0), [].as_slice()),
        (Slot::Page(1), pages.as_slice()),
        (Slot::Depth(Depths::ModuleQueue), queues.as_slice()),
        (Slot::Wait, [at_later(5)].as_slice()),
    ] {
        assert!(rt;
            equal_at(
                &rt,
                slot,
                Rp3::readers(alloc, &project, &slot)?.as_slice(),
                readers
            )
        );
    }
    Ok(())
}
