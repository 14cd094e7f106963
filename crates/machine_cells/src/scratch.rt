//! The plain simulation of a project, from cycle 0 on.
ghost use Rattle.std.specs.Prelude.{◌≡◌, ◌<◌, ◌≤◌, ◌+◌, [], ◌∷◌, IfOk, map, take, Some, length, slice_get};
ghost use Rattle.std.specs.Arc.{arc_value};
ghost use Rattle.omega_net.specs.Numbers.{components};
ghost use Rattle.machine_cells.specs.Cells.{near_or};
ghost use Rattle.machine_cells.specs.Cycle.{cycle};
ghost use Rattle.machine_cells.specs.Run.{first_states, run_from, run};

use crate::MachineState;
use crate::grid::{component_at, first_state};
use crate::near::state_at;
use crate::step::pulled;
use grid_law::NoMemory;
use project_book::Project;
use std::alloc::Global;
use std::sync::Arc;

/// Every state of a project's run: by cycle from 0 to the horizon, and by component number.
///
/// Each cycle is computed whole from the one before. A module or a switch in which nothing moves shares
/// its state with the cycle before, so a cell takes some 100 bytes, and one in which something moves
/// as much again, and its messages. It is what ways that keep what an edit leaves alone are compared with.
///
/// # Errors
///
/// Where a growth was refused. What was taken is given back.
pub fn from_scratch(
    alloc: Global,
    project: &Project,
) -> Result<Vec<Vec<Arc<MachineState>>>, NoMemory>
    ensures { IfOk result (λ rows. map (λ row. map arc_value row.items) rows.items ≡ run project.now) }
{
    let mut rows = Vec::new(alloc);
    rows.push(first_row(alloc, project)?)?;
    for cycle in 0..project.horizon() {
        push_next(alloc, project, cycle, &mut rows)?;
    }
    Ok(rows)
}

/// Adds the cycle after the last one.
fn push_next(
    alloc: Global,
    project: &Project,
    cycle: u32,
    rows: &mut Vec<Vec<Arc<MachineState>>>,
) -> Result<(), NoMemory>
    requires { map (λ row. map arc_value row.items) rows.old.items ≡ run_from project.now (first_states project.now) cycle }
    ensures { IfOk result (λ _. map (λ row. map arc_value row.items) rows.new.items ≡ run_from project.now (first_states project.now) (cycle + 1)) }
{
    let row = next_row(alloc, project, &rows[cycle as usize])?;
    rows.push(row)?;
    Ok(())
}

/// The states of cycle 0, by component.
///
/// # Errors
///
/// Where a growth was refused. What was taken is given back.
pub fn first_row(alloc: Global, project: &Project) -> Result<Vec<Arc<MachineState>>, NoMemory>
    ensures { IfOk result (λ row. map arc_value row.items ≡ first_states project.now) }
{
    let shape = project.shape();
    let mut row = Vec::new(alloc);
    for c in 0..shape.components() {
        row.push(first_state(alloc, project, component_at(shape, c))?)?;
    }
    Ok(row)
}

/// The states one cycle after these, which are those of all components. What doesn't change is shared with them.
///
/// # Errors
///
/// Where a growth was refused. The row is as before.
pub fn next_row(
    alloc: Global,
    project: &Project,
    row: &[Arc<MachineState>],
) -> Result<Vec<Arc<MachineState>>, NoMemory>
    requires { length row.now ≡ components project.now.k }
    ensures { IfOk result (λ next. map arc_value next.items ≡ cycle project.now (map arc_value row.now)) }
{
    let mut next = Vec::with_capacity(alloc, row.len())?;
    for c in 0..project.shape().components() {
        next.push(next_of(alloc, project, row, c)?)?;
    }
    Ok(next)
}

/// A component's state one cycle after these.
fn next_of(
    alloc: Global,
    project: &Project,
    row: &[Arc<MachineState>],
    c: u32,
) -> Result<Arc<MachineState>, NoMemory>
    requires size { length row.now ≡ components project.now.k }
    requires there { c < components project.now.k }
    ensures { IfOk result (λ state. slice_get (cycle project.now (map arc_value row.now)) c ≡ Some (arc_value state)) }
{
    let shape = project.shape();
    let component = component_at(shape, c);
    let near = shape.near(component);
    let own = &row[c as usize];
    let states = near_states(row, &near, own);
    pulled(
        alloc,
        project,
        shape,
        first(&states, near.len()),
        component,
        own,
    )
}

/// The states of the components of a list, at its places from 0 to 4; its own past the list's end.
fn near_states<'a>(
    row: &'a [Arc<MachineState>],
    near: &[u32],
    own: &'a MachineState,
) -> [&'a MachineState; 5]
    ensures { map (λ r. r.now) result ≡ near_or (map arc_value row.now) near.now 0 own.now ∷ near_or (map arc_value row.now) near.now 1 own.now ∷ near_or (map arc_value row.now) near.now 2 own.now ∷ near_or (map arc_value row.now) near.now 3 own.now ∷ near_or (map arc_value row.now) near.now 4 own.now ∷ [] }
{
    [
        near_or(row, near, 0, own),
        near_or(row, near, 1, own),
        near_or(row, near, 2, own),
        near_or(row, near, 3, own),
        near_or(row, near, 4, own),
    ]
}

/// So many of the states, from the first on.
fn first<'a, 'b>(states: &'b [&'a MachineState; 5], count: usize) -> &'b [&'a MachineState]
    requires { count ≤ 5 }
    ensures { map (λ r. r.now) result.now ≡ take count (map (λ r. r.now) states.now) }
{
    &states[..count]
}

/// The state of the component at a place of the list, or its own past the list's end.
fn near_or<'a>(
    row: &'a [Arc<MachineState>],
    near: &[u32],
    place: usize,
    own: &'a MachineState,
) -> &'a MachineState
    ensures { result.now ≡ near_or (map arc_value row.now) near.now place own.now }
{
    match near.get(place) {
        Some(number) => match state_at(row, *number as usize) {
            Some(state) => state,
            None => own,
        },
        None => own,
    }
}
