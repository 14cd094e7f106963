//! The states of the cycles of a page.
ghost use Rattle.std.specs.Prelude.{◌≡◌, ◌<◌, ◌≤◌, ◌+◌, ◌++◌, IfOk, OnOk, Some, codes, string_bytes};
ghost use Rattle.omega_net.specs.Numbers.{components};
ghost use Rattle.machine_cells.specs.Run.{run};
ghost use Rattle.machine_cells.specs.Runs.{state_in};
ghost use Rattle.run_reports.specs.Runners.{IsAt};
ghost use Rattle.machine_page.specs.Pages.{cycle_line, cycle_lines, states_text};
ghost use Rattle.machine_page.specs.States.{state_text};

use crate::state::add_state;
use grid_law::NoMemory;
use machine_cells::MachineState;
use project_book::Project;
use run_reports::Runner;
use std::alloc::{AllocError, Global};
use std::fmt::Write;

/// The state of a component at the present cycle, by its number.
fn state_at(
    alloc: Global,
    project: &Project,
    runner: &Runner,
    number: u32,
) -> Result<MachineState, NoMemory>
    requires at { IsAt project.now runner.now }
    requires there { number < components project.now.k }
    ensures { IfOk result (λ state. state_in (run project.now) runner.now.cycle number ≡ Some state) }
{
    let component = project.shape().component(number).unwrap();
    runner.row.read(alloc, component)
}

/// Adds a state behind a semicolon.
fn add_next(text: &mut String, project: &Project, state: &MachineState) -> Result<(), AllocError>
    ensures { OnOk result (string_bytes text.new ≡ string_bytes text.old ++ (codes ";" ++ state_text project.now (Some state.now))) }
{
    text.push_str(";")?;
    add_state(text, project, state)
}

/// Adds the states of all components at the present cycle.
fn add_states(
    alloc: Global,
    text: &mut String,
    project: &Project,
    runner: &Runner,
) -> Result<(), NoMemory>
    requires { IsAt project.now runner.now }
    ensures { OnOk result (string_bytes text.new ≡ string_bytes text.old ++ states_text project.now (state_in (run project.now) runner.now.cycle)) }
{
    for number in 0..project.shape().components() {
        let state = state_at(alloc, project, runner, number)?;
        add_next(text, project, &state)?;
    }
    Ok(())
}

/// Adds the line of the present cycle.
fn add_cycle(
    alloc: Global,
    text: &mut String,
    project: &Project,
    runner: &Runner,
) -> Result<(), NoMemory>
    requires { IsAt project.now runner.now }
    ensures { OnOk result (string_bytes text.new ≡ string_bytes text.old ++ cycle_line project.now (state_in (run project.now)) runner.now.cycle) }
{
    let cycle = runner.cycle;
    write!(text, "{cycle}")?;
    add_states(alloc, text, project, runner)?;
    text.push_str("\n")?;
    Ok(())
}

/// Goes on to a cycle, which is within the horizon.
fn advance(runner: &mut Runner, project: &Project, cycle: u32) -> Result<(), NoMemory>
    requires at { IsAt project.now runner.old }
    requires behind { runner.old.cycle ≤ cycle }
    requires within { cycle ≤ project.now.horizon }
    ensures at { OnOk result (IsAt project.now runner.new) }
    ensures there { OnOk result (runner.new.cycle ≡ cycle) }
{
    for _cycle in runner.cycle..cycle {
        runner.step(project)?;
    }
    Ok(())
}

/// Adds the lines of so many cycles from one on.
pub(crate) fn add_cycles(
    alloc: Global,
    text: &mut String,
    project: &Project,
    from: u32,
    cycles: u32,
) -> Result<(), NoMemory>
    requires { from + cycles ≤ project.now.horizon + 1 }
    ensures { OnOk result (string_bytes text.new ≡ string_bytes text.old ++ cycle_lines project.now (state_in (run project.now)) from cycles) }
{
    project.is_project();
    let mut runner = Runner::start(alloc, project)?;
    for passed in 0..cycles {
        advance(&mut runner, project, from + passed)?;
        add_cycle(alloc, text, project, &runner)?;
    }
    Ok(())
}
