//! The words of the modules.
ghost use Rattle.std.specs.Prelude.{◌≡◌, List, IfOk, Some, map, slice_get};
ghost use Rattle.std.specs.Arc.{arc_value};
ghost use Rattle.omega_net.specs.Numbers.{lines};
ghost use Rattle.mem_module.specs.declared.words.Stored.{Stored as Row};
ghost use Rattle.mem_module.specs.Memory.{IsAscending};
ghost use Rattle.mem_module.specs.MemModule.{module_start};
ghost use Rattle.flat_row.specs.Row.{first_words};

use grid_law::NoMemory;
use machine_cells::{MachineState, first_row};
use mem_module::{Stored, Words};
use project_book::Project;
use std::alloc::Global;
use std::sync::Arc;

/// The words of the modules at cycle 0.
pub(crate) fn first_words(alloc: Global, project: &Project) -> Result<Vec<Words>, NoMemory>
    ensures { IfOk result (λ words. words.items ≡ first_words project.now (lines project.now.k)) }
{
    let lines = project.shape().lines();
    let row = first_row(alloc, project)?;
    let mut words = Vec::with_capacity(alloc, lines as usize)?;
    for m in 0..lines {
        let stored = module_words(alloc, &row, (lines + m) as usize)?;
        words.push(stored)?;
    }
    Ok(words)
}

/// The words of the module at a place of a row.
fn module_words(alloc: Global, row: &[Arc<MachineState>], place: usize) -> Result<Words, NoMemory>
    ensures { (ws : List Row) → IsAscending ws → slice_get (map arc_value row.now) place ≡ Some (MachineState.Module (module_start ws)) → IfOk result (λ words. words ≡ ws) }
{
    match row.get(place) {
        Some(state) => words_of(alloc, state),
        None => Ok(Words::new(alloc)),
    }
}

/// The words of a module's state; of another state none.
fn words_of(alloc: Global, state: &MachineState) -> Result<Words, NoMemory>
    ensures { (ws : List Row) → IsAscending ws → state.now ≡ MachineState.Module (module_start ws) → IfOk result (λ words. words ≡ ws) }
{
    match state {
        MachineState::Module(module) => copied(alloc, module.words.as_slice()),
        _ => Ok(Words::new(alloc)),
    }
}

/// A copy of these words, which are in the order of their rows.
pub(crate) fn copied(alloc: Global, stored: &[Stored]) -> Result<Words, NoMemory>
    ensures { IsAscending stored.now → IfOk result (λ words. words ≡ stored.now) }
{
    let mut words = Words::new(alloc);
    for i in 0..stored.len() {
        let next = stored[i];
        words.put(next.row, next.word)?;
    }
    Ok(words)
}
