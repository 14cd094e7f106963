//! The machine as a grid: each component's start, steps and readers; and the report of a tree.
use crate::again::again;
use crate::projects::project;
use grid_law::{Grid, NoMemory};
use machine_cells::{MachineState, Rp3, from_scratch};
use omega_net::Net;
use project_book::{Depths, Project, Slot};
use saturation::{Tree, tree};
use std::alloc::Global;
use std::sync::Arc;
use std::thread::Threads;

/// The states near a component, each with one more owner.
fn near_states(
    alloc: Global,
    project: &Project,
    row: &[Arc<MachineState>],
    c: u32,
) -> Result<Vec<Arc<MachineState>>, NoMemory> {
    let mut near = Vec::new(alloc);
    if c < Rp3::components(project) {
        for number in &Rp3::near(project, c) {
            if let Some(state) = row.get(*number as usize) {
                near.push(Arc::try_clone(state)?)?;
            }
        }
    }
    Ok(near)
}

/// The same, lent.
fn lent(near: &[Arc<MachineState>], alloc: Global) -> Result<Vec<&MachineState>, NoMemory> {
    let mut lent = Vec::new(alloc);
    for state in near {
        lent.push(&**state)?;
    }
    Ok(lent)
}

/// Whether a component starts so.
fn starts(alloc: Global, project: &Project, c: u32, want: &MachineState) -> bool {
    if c >= Rp3::components(project) {
        return false;
    }
    match again!(Rp3::start(alloc, project, c)) {
        Some(state) => Rp3::same(&state, want),
        None => false,
    }
}

/// Whether a component steps so, from near states that are shared and from the same ones that are lent.
fn steps(
    alloc: Global,
    project: &Project,
    row: &[Arc<MachineState>],
    c: u32,
    want: &MachineState,
) -> bool {
    if c >= Rp3::components(project) {
        return false;
    }
    let Some(near) = again!(near_states(alloc, project, row, c)) else {
        return false;
    };
    let is_same = match again!(Rp3::step(alloc, project, &near, c)) {
        Some(state) => Rp3::same(&state, want),
        None => false,
    };
    is_same && again!(goes_on_lent(alloc, project, &near, c, want)) == Some(true)
}

/// Whether a component's next state from near ones that are shared, and lent from there, is this.
fn goes_on_lent(
    alloc: Global,
    project: &Project,
    near: &[Arc<MachineState>],
    c: u32,
    want: &MachineState,
) -> Result<bool, NoMemory> {
    let lent = lent(near, alloc)?;
    Ok(goes_on(alloc, project, &lent, c, want))
}

/// Whether a component's next state from near ones that are lent is this.
fn goes_on(
    alloc: Global,
    project: &Project,
    lent: &[&MachineState],
    c: u32,
    want: &MachineState,
) -> bool {
    if c >= Rp3::components(project) {
        return false;
    }
    match again!(Rp3::next(alloc, project, lent, c)) {
        Some(Some(next)) => Rp3::same(&next, want),
        Some(None) => match lent.first() {
            Some(own) => Rp3::same(*own, want),
            None => false,
        },
        None => false,
    }
}

/// Each start, and the steps of the first cycles, are those of the plain simulation.
pub(crate) fn stepped(alloc: Global) -> bool {
    let Some(project) = shared(alloc) else {
        return false;
    };
    match again!(from_scratch(alloc, &project)) {
        Some(rows) => {
            let first = rows.first();
            matches!(first, Some(first) if all_start(alloc, &project, first))
                && all_step(alloc, &project, &rows)
        }
        None => false,
    }
}

/// The project with an owner more.
fn shared(alloc: Global) -> Option<Project> {
    let project = project(alloc)?;
    again!(Rp3::share(alloc, &project))
}

/// Whether the components start so.
fn all_start(alloc: Global, project: &Project, first: &[Arc<MachineState>]) -> bool {
    let mut c = 0u32;
    for want in first {
        if !starts(alloc, project, c, want) {
            return false;
        }
        c = c.saturating_add(1);
    }
    true
}

/// Whether each row's components step to the next row.
fn all_step(alloc: Global, project: &Project, rows: &[Vec<Arc<MachineState>>]) -> bool {
    for pair in rows.windows(2) {
        if let [row, next] = pair {
            if !steps_to(alloc, project, row, next) {
                return false;
            }
        }
    }
    true
}

/// Whether each component steps from one row to the next.
fn steps_to(
    alloc: Global,
    project: &Project,
    row: &[Arc<MachineState>],
    next: &[Arc<MachineState>],
) -> bool {
    let mut c = 0u32;
    for want in next {
        if !steps(alloc, project, row, c, want) {
            return false;
        }
        c = c.saturating_add(1);
    }
    true
}

/// The readers of slots: the modules of a word, its processor of an entry, all but the processors of a module's depth.
pub(crate) fn listed(alloc: Global) -> bool {
    let Some(project) = project(alloc) else {
        return false;
    };
    has_readers(alloc, &project, Slot::Word(300), 2)
        && has_readers(alloc, &project, Slot::Entry(0, 0), 1)
        && has_readers(alloc, &project, Slot::Page(1), 4)
        && has_readers(alloc, &project, Slot::Depth(Depths::ModuleQueue), 4)
}

fn has_readers(alloc: Global, project: &Project, slot: Slot, count: usize) -> bool {
    match again!(Rp3::readers(alloc, project, &slot)) {
        Some(readers) => readers.len() == count,
        None => false,
    }
}

/// The states of each cycle, lent.
fn lent_rows(
    alloc: Global,
    rows: &[Vec<Arc<MachineState>>],
) -> Result<Vec<Vec<&MachineState>>, NoMemory> {
    let mut all = Vec::new(alloc);
    for row in rows {
        let mut states = Vec::new(alloc);
        for state in row {
            states.push(&**state)?;
        }
        all.push(states)?;
    }
    Ok(all)
}

/// The tree of the combining network towards module 0.
fn tree_of<R: Threads + Sync>(
    rt: &R,
    alloc: Global,
    project: &Project,
    rows: &[Vec<&MachineState>],
) -> Result<Tree, NoMemory> {
    if project.k() != 1 || rows.len() != project.horizon() as usize + 1 {
        return Err(NoMemory);
    }
    tree(rt, alloc, project, rows, Net::Comb, 0)
}

/// Seven levels, none of which is full.
pub(crate) fn reported<R: Threads + Sync>(rt: &R, alloc: Global) -> bool {
    let Some(project) = project(alloc) else {
        return false;
    };
    let Some(rows) = again!(from_scratch(alloc, &project)) else {
        return false;
    };
    again!(is_reported_lent(rt, alloc, &project, &rows)) == Some(true)
}

/// The same, of states that are lent.
fn is_reported_lent<R: Threads + Sync>(
    rt: &R,
    alloc: Global,
    project: &Project,
    rows: &[Vec<Arc<MachineState>>],
) -> Result<bool, NoMemory> {
    let rows = lent_rows(alloc, rows)?;
    Ok(is_reported(rt, alloc, project, &rows))
}

/// Whether the tree has seven levels, none of which is full.
fn is_reported<R: Threads + Sync>(
    rt: &R,
    alloc: Global,
    project: &Project,
    rows: &[Vec<&MachineState>],
) -> bool {
    match again!(tree_of(rt, alloc, project, rows)) {
        Some(tree) => {
            tree.levels.as_slice() == [0; 7].as_slice()
                && tree.first.as_slice() == [None].as_slice()
        }
        None => false,
    }
}
