//! What a component is between two cycles.
ghost use Rattle.std.specs.Prelude.{◌≡◌, ◌↔◌, IsTrue};

use comb_switch::CombState;
use low_switch::LowState;
use mem_module::ModuleState;
use ref_proc::ProcState;

/// The state of one component: a processor, a memory module, or a switch of either network.
#[derive(Drop)]
pub enum MachineState {
    Proc(ProcState),
    Module(ModuleState),
    Low(LowState),
    Comb(CombState),
}

impl MachineState {
    /// Whether two states are the same. The cheap parts are compared first, a module's words last.
    pub fn same(&self, other: &MachineState) -> bool
        ensures { IsTrue result ↔ (self.now ≡ other.now) }
    {
        match (self, other) {
            (MachineState::Proc(a), MachineState::Proc(b)) => a.same(b),
            (MachineState::Module(a), MachineState::Module(b)) => a.same(b),
            (MachineState::Low(a), MachineState::Low(b)) => a.same(b),
            (MachineState::Comb(a), MachineState::Comb(b)) => a.same(b),
            _ => false,
        }
    }
}
