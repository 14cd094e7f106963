//! The saturation of a whole run.
ghost use Rattle.std.specs.Prelude.{◌≡◌, ◌<◌, ◌≤◌, ◌+◌, IfOk, length, slice_get, map, find, slice_index, nat_le};
ghost use Rattle.page_map.specs.Limits.{max_k};
ghost use Rattle.omega_net.specs.Numbers.{lines};
ghost use Rattle.omega_net.specs.Wires.{below};
ghost use Rattle.machine_cells.specs.Runs.{state_in};
ghost use Rattle.saturation.specs.Levels.{level};
ghost use Rattle.saturation.specs.Trees.{tree};

use crate::level;
use crate::report::{Levels, Tree};
use arrayvec::ArrayVec;
use grid_law::NoMemory;
use machine_cells::MachineState;
use omega_net::Net;
use project_book::{Project, STAGES};
use rayon::prelude::*;
use std::alloc::{AllocError, Global};
use std::thread::Threads;

/// The saturation of a network towards a module: the level of each cycle ([`level`]), and the first cycle of each level
/// from 1 to k. The rows are the states of the cycles from 0 to the horizon, each by component number.
///
/// It takes memory for a byte a cycle, and looks at fewer than 2^k queues a cycle. The rows are mapped by `rayon`, which
/// starts no thread for fewer than 2,048 of them: only large projects have runs of more. The conditions are that the module
/// exists, and that there is a row for each cycle.
///
/// # Errors
///
/// Where a growth was refused. Nothing is changed.
pub fn tree(
    rt: &(impl Threads + Sync),
    alloc: Global,
    project: &Project,
    rows: &[Vec<&MachineState>],
    net: Net,
    module: u32,
) -> Result<Tree, NoMemory>
    requires there { «module» < lines project.now.k }
    requires cycles { length rows.now ≡ project.now.horizon + 1 }
    ensures { IfOk result (λ t. t ≡ tree project.now net «module» (state_in (map (λ row. map (λ r. r.now) row.items) rows.now))) }
{
    let levels = levels_of(rt, alloc, project, rows, net, module)?;
    let first = first_cycles(&levels, project.horizon() + 1, project.k());
    Ok(Tree {
        levels: Levels::from_vec(levels),
        first,
    })
}

/// The level of each row.
fn levels_of(
    rt: &(impl Threads + Sync),
    alloc: Global,
    project: &Project,
    rows: &[Vec<&MachineState>],
    net: Net,
    module: u32,
) -> Result<Vec<u8>, AllocError>
    requires { «module» < lines project.now.k }
    ensures { IfOk result (λ v. v.items ≡ map (λ row. level project.now net «module» (slice_get (map (λ r. r.now) row.items))) rows.now) }
{
    rows.par_iter()
        .map(
            |row: &Vec<&MachineState>| -> u8
                requires { «module» < lines project.now.k }
                ensures { result ≡ level project.entry.now net «module» (slice_get (map (λ r. r.now) row.now.items)) }
            { level(project, row, net, module) },
        )
        .collect(rt, alloc)
}

/// For each level from 1 to k, the first of these cycles that has it or a higher one.
fn first_cycles(levels: &[u8], cycles: u32, k: u32) -> ArrayVec<Option<u32>, STAGES>
    requires few { k ≤ max_k }
    requires there { cycles ≤ length levels.now }
    ensures { result.items ≡ map (λ j. find (λ t. nat_le (j + 1) (slice_index levels.now t)) (below cycles)) (below k) }
{
    let mut first = ArrayVec::new();
    for level in 0..k {
        first.push(first_cycle(levels, cycles, level as u8 + 1));
    }
    first
}

/// The first of these cycles with this level or a higher one.
fn first_cycle(levels: &[u8], cycles: u32, least: u8) -> Option<u32>
    requires { cycles ≤ length levels.now }
    ensures { result ≡ find (λ t. nat_le least (slice_index levels.now t)) (below cycles) }
{
    for cycle in 0..cycles {
        if reaches(levels, cycle, least) {
            return Some(cycle);
        }
    }
    None
}

/// Whether a cycle has this level or a higher one.
fn reaches(levels: &[u8], cycle: u32, least: u8) -> bool
    requires { cycle < length levels.now }
    ensures { result ≡ nat_le least (slice_index levels.now cycle) }
{
    levels[cycle as usize] >= least
}
