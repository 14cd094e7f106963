//! Where a cell's words begin.
ghost use Rattle.std.specs.Prelude.{◌≡◌, ◌+◌, ◌-◌, ◌^◌, ◌<◌, ◌≤◌, ◌↔◌, IfOk, IsOk};
ghost use Rattle.change_rows.specs.Packed.{moved};

use std::alloc::AllocError;
use std::marker::Model;

/// The places that a head can name, 2^20: its lowest 20 bits.
pub(crate) const PLACES: u32 = 1_048_576;

/// The components that a head can name: its highest 12 bits.
const COMPONENTS: u32 = 4_096;

/// A cell's component, and where its words begin. Both lie in 32 bits: a row has a head for each cell that begins there, so heads are
/// a large part of what a table takes.
#[derive(Clone, Copy)]
pub(crate) struct Head {
    packed: u32,
}

impl Model for Head {
    ghost use Rattle.std.specs.Prelude.{◌+◌, ◌*◌, ◌/◌, ◌%◌, ◌^◌};
    ghost use Rattle.change_rows.specs.Heads.{Named, packed_back};

    ghost Value = { Named };

    ghost view = { λ h. record { component = h.packed / 2 ^ 20; from = h.packed % 2 ^ 20 } };

    ghost inverse = { λ n. record { packed = n.component * 2 ^ 20 + n.from } };

    ghost inverse_ok = { λ h i. packed_back (λ n. record { packed = n }) h.packed };
}

impl Head {
    /// The component.
    pub(crate) fn component(self) -> u32
        ensures { result ≡ self.component }
    {
        self.packed / PLACES
    }

    /// Where its words begin.
    pub(crate) fn from(self) -> u32
        ensures { result ≡ self.from }
    {
        self.packed % PLACES
    }

    /// The same among other words: those that began at `start` begin at `base`.
    pub(crate) fn begun_at(self, start: u32, base: u32) -> Head
        requires climbs { start ≤ self.from }
        requires small { self.from - start + base < 2 ^ 20 }
        ensures { result ≡ moved start base self }
    {
        Head {
            packed: self.packed - start + base,
        }
    }
}

/// The head of a component whose words begin at a place.
///
/// # Errors
///
/// At component 4,096 and above.
pub(crate) fn head_for(component: u32, from: usize) -> Result<Head, AllocError>
    requires { from < 2 ^ 20 }
    ensures head { IfOk result (λ head. head ≡ record { component = component; from = from }) }
    ensures refused { IsOk result ↔ (component < 4096) }
{
    if component >= COMPONENTS {
        return Err(AllocError);
    }
    Ok(Head {
        packed: component * PLACES + from as u32,
    })
}
