//! The queues towards a module, and what they hold.
ghost use Rattle.std.specs.Prelude.{◌≡◌, ◌<◌, Some, map};
ghost use Rattle.std.specs.Arc.{arc_value};
ghost use Rattle.std.specs.Option.{option_copied};
ghost use Rattle.omega_net.specs.Numbers.{lines};
ghost use Rattle.machine_cells.specs.declared.state.MachineState.TheVariants.{Module};
ghost use Rattle.machine_cells.specs.Runs.{state_in};
ghost use Rattle.mem_module.specs.MemModule.{is_net, other_net};
ghost use Rattle.flat_row.specs.Row.{module_of};
ghost use Rattle.experiments.specs.Maps.{has_served};

use flat_row::Row;
use machine_cells::MachineState;
use omega_net::Net;
use std::sync::Arc;

/// Whether the turn is that after a request of a network was served.
fn gave_turn(net: Net, turn: Net) -> bool
    ensures { result ≡ is_net net (Some (other_net turn)) }
{
    match (net, turn) {
        (Net::Low, Net::Comb) | (Net::Comb, Net::Low) => true,
        (Net::Low, Net::Low) | (Net::Comb, Net::Comb) => false,
    }
}

/// Whether a module served a request of a network in the last step.
pub(crate) fn has_served(row: &Row, net: Net, module: u32) -> bool
    requires { «module» < lines row.now.k }
    ensures { result ≡ has_served net (Some (Module (module_of row.now «module»))) }
{
    row.served(module) && gave_turn(net, row.turn(module))
}

/// The state of a component at a cycle, where there is one.
pub(crate) fn state_at(
    rows: &[Vec<Arc<MachineState>>],
    cycle: u32,
    component: u32,
) -> Option<&MachineState>
    ensures { option_copied result ≡ state_in (map (λ row. map arc_value row.items) rows.now) cycle component }
{
    match rows.get(cycle as usize) {
        Some(row) => match row.get(component as usize) {
            Some(state) => Some(state),
            None => None,
        },
        None => None,
    }
}
