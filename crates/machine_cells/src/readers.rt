//! The components that may read a slot of a project.
ghost use Rattle.std.specs.Prelude.{◌≡◌, ◌<◌, ◌≤◌, ◌-◌, ◌++◌, IfOk};
ghost use Rattle.std.specs.List.{flat_map, range_with_len};
ghost use Rattle.omega_net.specs.Numbers.{components};
ghost use Rattle.machine_cells.specs.Reads.{may_read, reader_if, reader_of, readers};

use crate::grid::component_at;
use crate::reads::{later_may_read, start_reads};
use grid_law::{NoMemory, Reader};
use project_book::{Project, Slot};
use std::alloc::Global;
use std::ops::Range;

#[tactic(auto, using(crate::proofs::Listing::listed_more))]
/// The components that may read a slot, in their order.
pub(crate) fn readers(alloc: Global, project: &Project, slot: Slot) -> Result<Vec<Reader>, NoMemory>
    ensures { IfOk result (λ listed. listed.items ≡ readers project.now slot) }
{
    let Range { start, end } = candidates(project, slot);
    let mut readers = Vec::new(alloc);
    for c in start..end {
        push_reader(project, slot, c, &mut readers)?;
    }
    Ok(readers)
}

#[tactic(auto, using(crate::proofs::Listing::entry_alone))]
/// A range of components outside of which none may read the slot. A script is its processor's alone.
fn candidates(project: &Project, slot: Slot) -> Range<u32>
    ensures ordered { result.start ≤ result.end }
    ensures there { result.end ≤ components project.now.k }
    ensures all { readers project.now slot ≡ flat_map (reader_of project.now slot) (range_with_len result.start (result.end - result.start)) }
{
    let count = project.shape().components();
    match slot {
        Slot::Entry(proc, _) if proc < count => proc..proc + 1,
        _ => 0..count,
    }
}

/// Adds a component where it may read the slot: for cycle 0, then for the later ones.
fn push_reader(
    project: &Project,
    slot: Slot,
    c: u32,
    readers: &mut Vec<Reader>,
) -> Result<(), NoMemory>
    requires { c < components project.now.k }
    ensures { IfOk result (λ _. readers.new.items ≡ readers.old.items ++ reader_of project.now slot c) }
{
    push_if(may_read(project, c, true, slot), c, true, readers)?;
    push_if(may_read(project, c, false, slot), c, false, readers)
}

fn push_if(
    may: bool,
    component: u32,
    first: bool,
    readers: &mut Vec<Reader>,
) -> Result<(), NoMemory>
    ensures { IfOk result (λ _. readers.new.items ≡ readers.old.items ++ reader_if may component first) }
{
    if may {
        readers.push(Reader { component, first })?;
    }
    Ok(())
}

/// Whether a component may read a slot: at cycle 0 where `first`, else at a later one.
fn may_read(project: &Project, c: u32, first: bool, slot: Slot) -> bool
    requires { c < components project.now.k }
    ensures { result ≡ may_read project.now c first slot }
{
    let component = component_at(project.shape(), c);
    match slot {
        Slot::Shape => true,
        _ if first => start_reads(component, slot),
        _ => later_may_read(project.k(), component, slot),
    }
}
