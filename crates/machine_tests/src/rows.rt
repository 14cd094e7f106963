//! The flat row beside the plain simulation, and each call of it that takes memory.
ghost use Rattle.flat_row.specs.Row.{IsRowOf};

use flat_row::{Changed, Row};
use machine_cells::{MachineState, from_scratch};
use omega_net::{Component, ScriptEntry};
use project_book::{Edit, Project};
use std::alloc::Global;
use std::sync::Arc;
use std::test::Fail;
use word_ops::{Kind, Op};

/// Where one of four processors begins, what it asks of word 0, and how often.
const ENTRIES: [(u32, bool, Kind, u32); 4] = [
    (0, true, Kind::Add, 3),
    (1, true, Kind::Add, 3),
    (2, false, Kind::Or, 2),
    (3, true, Kind::Store, 2),
];

/// Four processors that ask for word 0, three of them through the network that combines.
pub(crate) fn four(alloc: Global) -> Result<Project, Fail> {
    let mut project = Project::new(alloc, 2, 40)?.ok_or("no such project")?;
    for (proc, sync, kind, times) in ENTRIES {
        let entry = ScriptEntry::Reference {
            sync,
            op: Op {
                kind,
                operand: proc + 1,
            },
            address: 0,
            times,
        };
        let edit = Edit::Entry {
            proc,
            index: 0,
            entry,
        };
        project = project.apply(edit)?.0;
    }
    Ok(project)
}

/// Whether a row has these states.
pub(crate) fn has(
    alloc: Global,
    project: &Project,
    row: &Row,
    states: &[Arc<MachineState>],
) -> Result<bool, Fail>
    requires { IsRowOf project.now row.now }
{
    let shape = project.shape();
    for c in 0..shape.components() {
        let component = shape.component(c).ok_or("no such component")?;
        let state = states.get(c as usize).ok_or("no such state")?;
        if !row.read(alloc, component)?.same(state) {
            return Ok(false);
        }
    }
    Ok(true)
}

/// Whether a row that steps has these states, cycle for cycle.
fn is_along(
    alloc: Global,
    project: &Project,
    row: &mut Row,
    cycles: &[Vec<Arc<MachineState>>],
) -> Result<bool, Fail>
    requires { IsRowOf project.now row.old }
{
    for states in cycles {
        if !has(alloc, project, row, states)? {
            return Ok(false);
        }
        row.step(project)?;
    }
    Ok(true)
}

/// Whether a row that steps has the states of the run, cycle for cycle.
pub(crate) fn is_run(alloc: Global, project: &Project) -> Result<bool, Fail> {
    let cycles = from_scratch(alloc, project)?;
    let mut row = Row::start(alloc, project)?;
    is_along(alloc, project, &mut row, &cycles)
}

/// Whether a module is said to have written exactly where its words are other ones.
fn tells_words(
    changed: &Changed,
    component: Component,
    was: &MachineState,
    is: &MachineState,
) -> bool {
    match (component, was, is) {
        (Component::Module(m), MachineState::Module(was), MachineState::Module(is)) if m < 64 => {
            changed.has_written(u32::from(m)) == (was.words.as_slice() != is.words.as_slice())
        }
        _ => true,
    }
}

/// Whether these are the components whose states differ between two rows, and the modules whose words do.
fn tells(
    alloc: Global,
    project: &Project,
    before: &Row,
    after: &Row,
    changed: &Changed,
) -> Result<bool, Fail>
    requires before { IsRowOf project.now before.now }
    requires after { IsRowOf project.now after.now }
{
    let shape = project.shape();
    for c in 0..shape.components() {
        let component = shape.component(c).ok_or("no such component")?;
        let was = before.read(alloc, component)?;
        let is = after.read(alloc, component)?;
        if changed.has(shape, component) == is.same(&was)
            || !tells_words(changed, component, &was, &is)
        {
            return Ok(false);
        }
    }
    Ok(true)
}

/// The cycle from which nothing changes, where each step of the second row up to it tells exactly the components that changed. The
/// first one stands where the second does, and follows.
fn stands_along(
    alloc: Global,
    project: &Project,
    before: &mut Row,
    row: &mut Row,
) -> Result<Option<u32>, Fail>
    requires before { IsRowOf project.now before.old }
    requires row { IsRowOf project.now row.old }
{
    for cycle in 0..project.horizon() {
        let changed = row.step(project)?;
        if changed.is_empty() {
            return Ok(Some(cycle));
        }
        if !tells(alloc, project, before, row, &changed)? {
            return Ok(None);
        }
        before.step(project)?;
    }
    Ok(None)
}

/// The same from cycle 0 on. The rows are let go here, where there are few ways out.
fn stands_from(alloc: Global, project: &Project) -> Result<Option<u32>, Fail> {
    let mut before = Row::start(alloc, project)?;
    let mut row = Row::start(alloc, project)?;
    stands_along(alloc, project, &mut before, &mut row)
}

#[test]
fn steps_tell_what_changed(rt: HostRuntime) -> Result<(), Fail> {
    let alloc = rt.alloc();
    let mut project = four(alloc)?;
    project = project.apply(Edit::Horizon(200))?.0;
    for stage in 0..2 {
        project = project.apply(Edit::Combine { stage, on: true })?.0;
    }
    assert!(rt; stands_from(alloc, &project)?.is_some());
    Ok(())
}

#[test]
fn rows_are_the_run(rt: HostRuntime) -> Result<(), Fail> {
    let alloc = rt.alloc();
    let project = four(alloc)?;
    assert!(rt; is_run(alloc, &project)?);
    Ok(())
}
