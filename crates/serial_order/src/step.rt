//! The references that are served in one step.
ghost use Rattle.std.specs.Prelude.{◌≡◌, IfOk};
ghost use Rattle.serial_order.specs.OneOrder.{all_now};

use crate::States;
use crate::served::push_all;
use grid_law::NoMemory;
use omega_net::Tag;
use project_book::Project;
use std::alloc::Global;

/// The tags of the references that all modules serve in the step from a cycle, by module number, from the states of that
/// cycle: the part of [`crate::one_order`] that is of this step.
///
/// # Errors
///
/// Where a growth was refused. What was taken is given back.
pub fn served_in_step<S: States>(
    alloc: Global,
    project: &Project,
    states: &S,
    cycle: u32,
) -> Result<Vec<Tag>, NoMemory>
    ensures { IfOk result (λ tags. tags.items ≡ all_now project.now (S.at states.now cycle)) }
{
    let mut tags = Vec::new(alloc);
    push_all(project, states, cycle, &mut tags)?;
    Ok(tags)
}
