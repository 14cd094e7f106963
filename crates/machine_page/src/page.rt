//! The whole page.
ghost use Rattle.std.specs.Prelude.{◌≡◌, ◌≤◌, ◌-◌, ◌+◌, ◌++◌, IfOk, OnOk, string_bytes};
ghost use Rattle.machine_page.specs.Pages.{data_text, page_text};

use crate::cycles::add_cycles;
use crate::head::HEAD;
use crate::machine::add_machine;
use crate::script::TAIL;
use grid_law::NoMemory;
use project_book::Project;
use std::alloc::Global;

/// Adds the data of the page.
fn add_data(
    alloc: Global,
    text: &mut String,
    project: &Project,
    from: u32,
    to: u32,
) -> Result<(), NoMemory>
    requires forward { from ≤ to }
    requires within { to ≤ project.now.horizon }
    ensures { OnOk result (string_bytes text.new ≡ string_bytes text.old ++ data_text project.now from to) }
{
    project.is_project();
    add_machine(text, project, from, to)?;
    add_cycles(alloc, text, project, from, to - from + 1)
}

/// The page of a project's run in the cycles from one to another, both included: HTML with its style, its data and its script.
/// It simulates the project from cycle 0, and keeps no state of it.
///
/// # Errors
///
/// Where a growth was refused. What was taken is given back.
pub fn page_text(alloc: Global, project: &Project, from: u32, to: u32) -> Result<String, NoMemory>
    requires forward { from ≤ to }
    requires within { to ≤ project.now.horizon }
    ensures { IfOk result (λ text. string_bytes text ≡ page_text project.now from to) }
{
    let mut text = String::from_str(alloc, HEAD)?;
    add_data(alloc, &mut text, project, from, to)?;
    text.push_str(TAIL)?;
    Ok(text)
}
