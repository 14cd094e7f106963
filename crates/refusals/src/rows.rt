//! The flat row of the machine, and states as words.
ghost use Rattle.flat_row.specs.Row.{IsRowOf};

use crate::again::again;
use crate::projects::project;
use flat_row::Row;
use grid_law::{Grid, NoMemory};
use machine_cells::{MachineState, Rp3, decode, encode, from_scratch};
use project_book::Project;
use std::alloc::{AllocError, Global};
use std::sync::Arc;

/// The words of a row's states, one after another.
fn row_words(alloc: Global, project: &Project, row: &Row) -> Result<Vec<u64>, NoMemory>
    requires { IsRowOf project.now row.now }
{
    let mut words = Vec::new(alloc);
    let shape = project.shape();
    for c in 0..shape.components() {
        if let Some(component) = shape.component(c) {
            encode(&row.read(alloc, component)?, &mut words)?;
        }
    }
    Ok(words)
}

/// The words of the states after a run of flat rows. Where a step was refused its row is let go.
fn run_words(alloc: Global, project: &Project) -> Result<Vec<u64>, NoMemory> {
    let mut row = Row::start(alloc, project)?;
    for _ in 0..project.horizon() {
        row.step(project)?;
    }
    row_words(alloc, project, &row)
}

/// The words of these states.
fn words_of(alloc: Global, states: &[Arc<MachineState>]) -> Result<Vec<u64>, AllocError> {
    let mut words = Vec::new(alloc);
    for state in states {
        encode(state, &mut words)?;
    }
    Ok(words)
}

/// Whether a run of flat rows ends with the states of the plain simulation.
pub(crate) fn stepped(alloc: Global) -> bool {
    let Some(project) = project(alloc) else {
        return false;
    };
    let Some(states) = again!(from_scratch(alloc, &project)) else {
        return false;
    };
    let (Some(own), Some(last)) = (again!(run_words(alloc, &project)), states.last()) else {
        return false;
    };
    match again!(words_of(alloc, last.as_slice())) {
        Some(words) => own.as_slice() == words.as_slice(),
        None => false,
    }
}

/// The state that has the words of another one, with the same memory.
fn copied(alloc: Global, state: &MachineState) -> Result<MachineState, NoMemory> {
    let mut words = Vec::new(alloc);
    encode(state, &mut words)?;
    let memory = Rp3::memory(state)?;
    decode(alloc, &words, memory.as_ref())
}

/// Whether each state of a run is told by its words.
pub(crate) fn told(alloc: Global) -> bool {
    let Some(project) = project(alloc) else {
        return false;
    };
    let Some(rows) = again!(from_scratch(alloc, &project)) else {
        return false;
    };
    for row in &rows {
        for state in row {
            match again!(copied(alloc, state)) {
                Some(copy) if copy.same(state) => {}
                _ => return false,
            }
        }
    }
    true
}
