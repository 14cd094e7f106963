//! The text of a component's state.
ghost use Rattle.machine_cells.specs.Texts.{state_text};

use crate::MachineState;
use std::fmt;

/// The text of the processor, module or switch: it begins with `proc`, `mod`, `low` or `comb`.
impl fmt::Display for MachineState {
    ghost output = { state_text };

    fn fmt<W: fmt::Write>(&self, f: &mut fmt::Formatter<W>) -> fmt::Result {
        match self {
            MachineState::Proc(state) => write!(f, "{state}"),
            MachineState::Module(state) => write!(f, "{state}"),
            MachineState::Low(state) => write!(f, "{state}"),
            MachineState::Comb(state) => write!(f, "{state}"),
        }
    }
}
