//! How long queues are in the cycles of a window.
ghost use Rattle.std.specs.Prelude.{◌≡◌, ◌≤◌, ◌+◌, ◌-◌, IfOk, map, slice_get};
ghost use Rattle.omega_net.specs.Wires.{below};
ghost use Rattle.machine_cells.specs.Run.{run};
ghost use Rattle.machine_cells.specs.Runs.{state_in};
ghost use Rattle.flat_row.specs.Row.{states_of};
ghost use Rattle.run_reports.specs.Lengths.{column_at, lengths_at, lengths_of, number_at};

use crate::Window;
use crate::full_queues::{PartQueue, states_now};
use crate::gauge::length_in;
use crate::runner::Runner;
use crate::series::advance;
use grid_law::NoMemory;
use project_book::Project;
use std::alloc::{AllocError, Global};
use std::marker::Model;

/// Lengths of queues: of one queue in turn at the cycles of a window. Contracts see the list.
#[derive(Drop)]
pub struct Lengths {
    numbers: Vec<u8>,
}

impl Model for Lengths {
    ghost use Rattle.std.specs.Prelude.{ℕ, List};

    ghost Value = { List ℕ };

    ghost view = { λ l. l.numbers.items };
}

impl Lengths {
    pub fn as_slice(&self) -> &[u8]
        ensures { result.now ≡ self.now }
    {
        &self.numbers
    }

    /// The number at a place, 0 where there is none.
    fn number_at(&self, place: usize) -> u8
        ensures { result ≡ number_at place self.now }
    {
        match self.numbers.get(place) {
            Some(number) => *number,
            None => 0,
        }
    }
}

/// The lengths of these queues at the present cycle.
fn lengths_now(alloc: Global, runner: &Runner, queues: &[PartQueue]) -> Result<Lengths, NoMemory>
    ensures { IfOk result (λ lengths. lengths ≡ lengths_at queues.now (slice_get (states_of runner.now.row))) }
{
    let states = states_now(alloc, runner)?;
    let mut numbers = Vec::with_capacity(alloc, queues.len())?;
    for queue in queues {
        numbers.push(length_in(*queue, states.as_slice()))?;
    }
    Ok(Lengths { numbers })
}

/// The lengths of these queues at each cycle of a window.
fn lengths_each(
    alloc: Global,
    project: &Project,
    queues: &[PartQueue],
    window: Window,
) -> Result<Vec<Lengths>, NoMemory>
    requires forward { window.from ≤ window.to }
    requires within { window.to ≤ project.now.horizon }
    ensures { IfOk result (λ v. v.items ≡ map (λ i. lengths_at queues.now (state_in (run project.now) (window.from + i))) (below (window.to + 1 - window.from))) }
{
    project.is_project();
    let mut runner = Runner::start(alloc, project)?;
    let mut cycles = Vec::new(alloc);
    for passed in 0..window.to + 1 - window.from {
        advance(&mut runner, project, window.from + passed)?;
        cycles.push(lengths_now(alloc, &runner, queues)?)?;
    }
    Ok(cycles)
}

/// What stands at a place of each row.
fn column_at(alloc: Global, rows: &[Lengths], place: usize) -> Result<Lengths, AllocError>
    ensures { IfOk result (λ column. column ≡ column_at rows.now place) }
{
    let mut numbers = Vec::with_capacity(alloc, rows.len())?;
    for row in rows {
        numbers.push(row.number_at(place))?;
    }
    Ok(Lengths { numbers })
}

/// What stands at each of the first places of each row.
fn columns(alloc: Global, rows: &[Lengths], places: usize) -> Result<Vec<Lengths>, AllocError>
    ensures { IfOk result (λ v. v.items ≡ map (column_at rows.now) (below places)) }
{
    let mut all = Vec::with_capacity(alloc, places)?;
    for place in 0..places {
        all.push(column_at(alloc, rows, place)?)?;
    }
    Ok(all)
}

/// The length of each of these queues at each cycle of a window, in the run of a project. It simulates the project from cycle 0, and
/// keeps no state of it.
///
/// # Errors
///
/// Where a growth was refused. What was taken is given back.
#[tactic(auto, using(crate::proofs::Columns::columns_over))]
pub fn lengths_over(
    alloc: Global,
    project: &Project,
    queues: &[PartQueue],
    window: Window,
) -> Result<Vec<Lengths>, NoMemory>
    requires forward { window.from ≤ window.to }
    requires within { window.to ≤ project.now.horizon }
    ensures { IfOk result (λ v. v.items ≡ map (lengths_of (state_in (run project.now)) window) queues.now) }
{
    let cycles = lengths_each(alloc, project, queues, window)?;
    Ok(columns(alloc, cycles.as_slice(), queues.len())?)
}
