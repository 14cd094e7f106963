//! A component's state at cycle 0.
ghost use Rattle.std.specs.Prelude.{◌≡◌, IfOk, IfSome, Some, ◌<◌, ◌≤◌, ◌+◌, ◌*◌, ◌^◌};
ghost use Rattle.machine_cells.specs.Cycle.{blank_of};
ghost use Rattle.machine_cells.specs.Run.{start_of, words_in};
ghost use Rattle.mem_module.specs.MemModule.{module_start};
ghost use Rattle.page_map.specs.Limits.{max_k, page_count, page_words};
ghost use Rattle.project_book.specs.Project.{page_of};
ghost use Rattle.machine_cells.specs.Putting.{IsPut, lane};

use crate::MachineState;
use comb_switch::CombState;
use grid_law::NoMemory;
use low_switch::LowState;
use mem_module::{ModuleState, Words};
use omega_net::{Component, Net};
use page_map::{PAGE_WORDS, PAGES};
use project_book::Project;
use ref_proc::ProcState;
use std::alloc::Global;

/// The state of a component at cycle 0. A module takes memory for the first words that stand in it.
pub(crate) fn start_of(
    alloc: Global,
    project: &Project,
    component: Component,
) -> Result<MachineState, NoMemory>
    ensures { IfOk result (λ s. s ≡ start_of project.now (Some component)) }
{
    match component {
        Component::Module(number) => {
            let words = words_in(alloc, project, number)?;
            module_with(alloc, words)
        }
        other => blank_of(alloc, other),
    }
}

/// A component in which nothing is or was.
pub(crate) fn blank_of(alloc: Global, component: Component) -> Result<MachineState, NoMemory>
    ensures { IfOk result (λ s. s ≡ blank_of (Some component)) }
{
    match component {
        Component::Proc(_) => Ok(MachineState::Proc(ProcState::start())),
        Component::Module(_) => module_with(alloc, Words::new(alloc)),
        Component::Switch { net: Net::Low, .. } => Ok(MachineState::Low(LowState::start(alloc))),
        Component::Switch { net: Net::Comb, .. } => Ok(MachineState::Comb(CombState::start(alloc))),
    }
}

/// A module with these words, in which nothing waits.
fn module_with(alloc: Global, words: Words) -> Result<MachineState, NoMemory>
    ensures { IfOk result (λ s. s ≡ MachineState.Module (module_start words)) }
{
    Ok(MachineState::Module(ModuleState::start(alloc, words)?))
}

/// The first words that stand in a module, by row. Each page's that do are looked up alone.
fn words_in(alloc: Global, project: &Project, number: u8) -> Result<Words, NoMemory>
    ensures { IfOk result (λ ws. ws ≡ words_in project.now number project.now.words) }
{
    let mut words = Words::new(alloc);
    for page in 0..PAGES {
        put_page(project, number, page, &mut words)?;
    }
    Ok(words)
}

/// Leaves a page's first words in their rows, where they stand in that module.
fn put_page(project: &Project, number: u8, page: u32, words: &mut Words) -> Result<(), NoMemory>
    requires there { page < page_count }
    requires before { IsPut project.now number (page_words * page) words.old }
    ensures { IfOk result (λ _. IsPut project.now number (page_words * (page + 1)) words.new) }
{
    let Some(first_words) = project.words().page(page) else {
        return Ok(());
    };
    let Some((first, step)) = lane(project, page, number) else {
        return Ok(());
    };
    let mut row = PAGE_WORDS * page;
    let mut offset = first;
    while offset < PAGE_WORDS {
        words.put(row as u16, first_words[offset as usize])?;
        row += 1;
        offset += step;
    }
    Ok(())
}

/// The offset of the first word of a page that stands in a module, and how far it is to the next one; None where none
/// does.
fn lane(project: &Project, page: u32, number: u8) -> Option<(u32, u32)>
    requires { page < page_count }
    ensures lane { result ≡ lane (page_of project.now page) number }
    ensures within { IfSome result (λ l. (0 < l.1) × (l.1 ≤ 2 ^ max_k)) }
{
    project.is_project();
    let (amount, base) = project.pages().page(page).unwrap_or((0, 0));
    let number = u32::from(number);
    let step = 1 << amount;
    if base <= number && number < base + step {
        Some((number - base, step))
    } else {
        None
    }
}
