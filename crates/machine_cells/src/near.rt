//! The states near a component, behind whatever holds them.
ghost use Rattle.std.specs.Prelude.{◌≡◌, map, slice_get};
ghost use Rattle.std.specs.Option.{option_copied};

use crate::MachineState;
use std::sync::Arc;

/// A holder of one state: a table shares its states, a plain simulation lends them.
pub(crate) trait NearState {
    ghost use Rattle.machine_cells.specs.declared.state.MachineState.{MachineState};

    ghost state: { Self → MachineState };

    fn state(&self) -> &MachineState
        ensures { result.now ≡ state self.now };
}

impl NearState for Arc<MachineState> {
    ghost use Rattle.std.specs.Arc.{arc_value};

    ghost state = { arc_value };

    fn state(&self) -> &MachineState {
        &**self
    }
}

impl<'a> NearState for &'a MachineState {
    ghost state = { λ r. r.now };

    fn state(&self) -> &MachineState {
        *self
    }
}

/// The near state at a place.
pub(crate) fn state_at<S: NearState>(near: &[S], i: usize) -> Option<&MachineState>
    ensures { option_copied result ≡ slice_get (map S.state near.now) i }
{
    match near.get(i) {
        Some(holder) => Some(holder.state()),
        None => None,
    }
}
