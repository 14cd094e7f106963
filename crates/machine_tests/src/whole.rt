//! The machine's row as the whole row of a table, beside the plain simulation, and each call of it that takes memory.
ghost use Rattle.std.specs.Prelude.{◌<◌};
ghost use Rattle.flat_row.specs.Row.{IsRowOf};
ghost use Rattle.omega_net.specs.Numbers.{components};

use crate::rows::four;
use cell_marks::Row;
use cell_states::WholeRow;
use flat_row::Changed;
use grid_law::Grid;
use machine_cells::{MachineState, Rp3, from_scratch};
use project_book::Project;
use std::alloc::Global;
use std::sync::Arc;
use std::test::Fail;
use whole_rows::MachineRow;

/// Puts a state, by its words and its memory.
fn put_one(
    alloc: Global,
    project: &Project,
    row: &mut MachineRow,
    c: u32,
    state: &MachineState,
) -> Result<bool, Fail>
    requires row { IsRowOf project.now row.old }
    requires there { c < components project.now.k }
    ensures { IsRowOf project.now row.new }
{
    let mut words = Vec::new(alloc);
    Rp3::encode(state, &mut words)?;
    let memory = Rp3::memory(state)?;
    if !row.load(project, c, words.as_slice()) {
        return Ok(false);
    }
    match memory {
        Some(memory) => Ok(row.load_memory(alloc, project, c, &memory)),
        None => Ok(true),
    }
}

/// Puts these states.
fn put(
    alloc: Global,
    project: &Project,
    row: &mut MachineRow,
    states: &[Arc<MachineState>],
) -> Result<bool, Fail>
    requires { IsRowOf project.now row.old }
    ensures { IsRowOf project.now row.new }
{
    for c in 0..project.shape().components() {
        let state = states.get(c as usize).ok_or("no such state")?;
        if !put_one(alloc, project, row, c, state)? {
            return Ok(false);
        }
    }
    Ok(true)
}

/// Whether a row holds these states: it has their words, the first one too, and their memories.
fn holds(
    alloc: Global,
    project: &Project,
    row: &MachineRow,
    states: &[Arc<MachineState>],
) -> Result<bool, Fail>
    requires { IsRowOf project.now row.now }
{
    let mut words = Vec::new(alloc);
    for c in 0..project.shape().components() {
        let state = states.get(c as usize).ok_or("no such state")?;
        words.clear();
        row.words(project, c, &mut words)?;
        let memory = row.memory(alloc, project, c)?;
        if !Rp3::is_code(state, words.as_slice(), memory.as_ref())
            || !row.has_memory(project, c, memory.as_ref())
            || words.first().copied() != Some(row.first_word(project, c))
        {
            return Ok(false);
        }
    }
    Ok(true)
}

/// How many are still in a step from these states to those. None where one of them isn't the same.
fn still(
    alloc: Global,
    project: &Project,
    step: &Changed,
    before: &[Arc<MachineState>],
    states: &[Arc<MachineState>],
) -> Result<Option<u32>, Fail> {
    let mut many = 0_u32;
    let mut moved = Row::new(alloc, project.shape().components(), false)?;
    MachineRow::moved(step, project, &mut moved);
    for c in 0..project.shape().components() {
        if !moved.has(c) {
            let own = before.get(c as usize).ok_or("no such state")?;
            let state = states.get(c as usize).ok_or("no such state")?;
            if !own.same(state) {
                return Ok(None);
            }
            many = many.saturating_add(1);
        }
    }
    Ok(Some(many))
}

/// A row into which the states of each cycle are put, the last one first, steps to those of the next one. How many cells were still in
/// all steps, and none where something was wrong.
fn steps_along(
    alloc: Global,
    project: &Project,
    row: &mut MachineRow,
    rows: &[Vec<Arc<MachineState>>],
) -> Result<Option<u32>, Fail>
    requires { IsRowOf project.now row.old }
{
    let mut many = 0_u32;
    for t in (1..rows.len()).rev() {
        let before = rows[t - 1].as_slice();
        let states = rows[t].as_slice();
        if !put(alloc, project, row, before)? || !holds(alloc, project, row, before)? {
            return Ok(None);
        }
        let step = row.step(project).ok_or("no memory")?;
        if !holds(alloc, project, row, states)? {
            return Ok(None);
        }
        match still(alloc, project, &step, before, states)? {
            Some(more) => many = many.saturating_add(more),
            None => return Ok(None),
        }
    }
    Ok(Some(many))
}

/// The same of a new row. It is let go here, where there are few ways out.
fn along_the_run(alloc: Global, project: &Project) -> Result<Option<u32>, Fail> {
    let rows = from_scratch(alloc, project)?;
    let mut row = MachineRow::new(alloc, project).ok_or("no memory")?;
    steps_along(alloc, project, &mut row, &rows)
}

#[test]
fn whole_rows_are_the_run(rt: HostRuntime) -> Result<(), Fail> {
    let alloc = rt.alloc();
    let project = four(alloc)?;
    let many = along_the_run(alloc, &project)?.ok_or("not the run")?;
    // There are 24 components and 40 steps.
    assert!(rt; many > 0 && many < 24 * 40);
    Ok(())
}
