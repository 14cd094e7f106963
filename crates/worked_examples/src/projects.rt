//! The projects of the examples.
use crate::edits::{depth, entry, page, plain_add, word};
use omega_net::ScriptEntry;
use project_book::{Depths, Edit, Project};
use std::alloc::Global;
use std::test::Fail;

/// A project with these edits, each of which is accepted.
pub(crate) fn edited(project: Project, edits: &[Edit]) -> Result<Project, Fail> {
    let mut project = project;
    for edit in edits {
        project = project.apply(*edit)?.0;
    }
    Ok(project)
}

/// A project of 2^k processors that says nothing but its horizon.
pub(crate) fn empty(alloc: Global, k: u32, horizon: u32) -> Result<Project, Fail> {
    Ok(Project::new(alloc, k, horizon)?.ok_or("within the limits")?)
}

/// The base project: k 1, horizon 10, window 1, all depths 4 but combining reverse 8, combining off,
/// page 0 whole in module 0, page 1 whole in module 1, word 0 at 10, and no scripts. Its components are
/// the processors 0 and 1, the modules 2 and 3, the low switch 4 and the combining switch 5.
pub(crate) fn base(alloc: Global) -> Result<Project, Fail> {
    let edits = [page(0, 0, 0), page(1, 0, 1), word(0, 10)];
    edited(empty(alloc, 1, 10)?, &edits)
}

/// Example 15: four processors load one module over the low network, two of them from cycle 1 on and
/// two after an idle of 4; with forward queues of this depth and to this horizon.
pub(crate) fn hot_spot(alloc: Global, depth_of_queues: u32, horizon: u32) -> Result<Project, Fail> {
    let edits = [
        page(0, 0, 0),
        Edit::Window(8),
        depth(Depths::LowForward, depth_of_queues),
        entry(0, 0, plain_add(50)),
        entry(1, 0, plain_add(50)),
        entry(2, 0, ScriptEntry::Idle(4)),
        entry(2, 1, plain_add(50)),
        entry(3, 0, ScriptEntry::Idle(4)),
        entry(3, 1, plain_add(50)),
    ];
    edited(empty(alloc, 2, horizon)?, &edits)
}
