//! A claim of a cell, and its result. Neither needs the table, so results are computed anywhere.
ghost use Rattle.std.specs.Prelude.{◌≡◌, IfOk, IfErr, map, ◌<◌, ◌↔◌, IsTrue};
ghost use Rattle.std.specs.Arc.{arc_value};
ghost use Rattle.grid_law.specs.Rules.{Agrees};
ghost use Rattle.cell_table.specs.Claims.{result_for};

use cell_states::Cell;
use grid_law::{Grid, NoMemory};
use std::alloc::Global;
use std::marker::Model;
use std::sync::Arc;

/// A cell with what it is computed from: the slots, and the states of its near cells one cycle
/// earlier, as they were when it was claimed.
#[derive(Drop)]
pub struct Claim<G: Grid> {
    cell: Cell,
    version: u64,
    slots: G::Slots,
    near: Vec<Arc<G::State>>,
}

impl<G: Grid> Model for Claim<G> {
    ghost use Rattle.std.specs.Prelude.{map, ◌<◌};
    ghost use Rattle.std.specs.Arc.{arc_value};
    ghost use Rattle.cell_table.specs.Claims.{Claimed};

    ghost Value = { Claimed G.State G.Slots };

    ghost view = { λ c. record {
      cell = c.cell;
      version = c.version;
      slots = c.slots;
      near = map arc_value c.near.items;
    } };

    ghost invariant = { λ c. c.cell.component < G.rules.components c.slots };
}

/// A claim with the state that was computed from it, which is the start (cycle 0) or the step of the
/// claim's own slots and states.
#[derive(Drop)]
pub struct Done<G: Grid> {
    claim: Claim<G>,
    state: Arc<G::State>,
}

impl<G: Grid> Model for Done<G> {
    ghost use Rattle.std.specs.Prelude.{◌≡◌};
    ghost use Rattle.std.specs.Arc.{arc_value};
    ghost use Rattle.cell_table.specs.Claims.{Computed, result_for};

    ghost Value = { Computed G.State G.Slots };

    ghost view = { λ d. record { claim = d.claim; state = arc_value d.state } };

    ghost invariant = { λ d. arc_value d.state ≡ result_for G.rules d.claim };
}

impl<G: Grid> Claim<G> {
    pub(crate) fn new(
        cell: Cell,
        version: u64,
        slots: G::Slots,
        near: Vec<Arc<G::State>>,
    ) -> Claim<G>
        requires { cell.component < G.rules.components slots }
        ensures { result ≡ record { cell = cell; version = version; slots = slots; near = map arc_value near.items } }
    {
        Claim {
            cell,
            version,
            slots,
            near,
        }
    }

    /// The cell that was claimed.
    pub fn cell(&self) -> Cell
        ensures { result ≡ self.now.cell }
    {
        self.cell
    }

    pub(crate) fn version(&self) -> u64
        ensures { result ≡ self.now.version }
    {
        self.version
    }

    pub(crate) fn near(&self) -> &[Arc<G::State>]
        ensures { map arc_value result.now ≡ self.now.near }
    {
        self.near.as_slice()
    }

    /// Whether the slots that it reads are the same there.
    pub(crate) fn agrees_with(&self, slots: &G::Slots) -> bool
        ensures { IsTrue result ↔ Agrees G.rules self.now.slots slots.now self.now.near self.now.cell.component }
    {
        G::agree(
            &self.slots,
            slots,
            self.near.as_slice(),
            self.cell.component,
        )
    }

    /// Computes the cell's state: the start at cycle 0, a step later. Where memory is wanting, the
    /// claim comes back.
    ///
    /// # Errors
    ///
    /// Where a growth was refused: the claim, which can be computed again.
    pub fn compute(self) -> Result<Done<G>, Claim<G>>
        ensures claim { IfOk result (λ done. done.claim ≡ self) }
        ensures model_compute { IfOk result (λ done. done.state ≡ result_for G.rules self) }
        ensures err { IfErr result (λ claim. claim ≡ self) }
    {
        match self.computed() {
            Ok(state) => Ok(Done { claim: self, state }),
            Err(NoMemory) => Err(self),
        }
    }

    fn computed(&self) -> Result<Arc<G::State>, NoMemory>
        ensures { IfOk result (λ state. arc_value state ≡ result_for G.rules self.now) }
    {
        let alloc = *self.near.allocator();
        if self.near.is_empty() {
            G::start(alloc, &self.slots, self.cell.component)
        } else {
            G::step(alloc, &self.slots, &self.near, self.cell.component)
        }
    }
}

impl<G: Grid> Done<G> {
    /// The cell that was claimed.
    pub fn cell(&self) -> Cell
        ensures { result ≡ self.now.claim.cell }
    {
        self.claim.cell
    }

    pub(crate) fn claim(&self) -> &Claim<G>
        ensures { result.now ≡ self.now.claim }
    {
        &self.claim
    }

    pub(crate) fn state(&self) -> &G::State
        ensures value { result.now ≡ self.now.state }
        ensures computed { result.now ≡ result_for G.rules self.now.claim }
    {
        &self.state
    }

    /// The claim, and the state that was computed from it.
    pub(crate) fn into_parts(self) -> (Claim<G>, Arc<G::State>)
        ensures claim { result.0 ≡ self.claim }
        ensures state { arc_value result.1 ≡ self.state }
        ensures computed { arc_value result.1 ≡ result_for G.rules self.claim }
    {
        let Done { claim, state } = self;
        (claim, state)
    }

    /// A claim with the state that was computed from it.
    pub(crate) fn of(claim: Claim<G>, state: Arc<G::State>) -> Done<G>
        requires { arc_value state ≡ result_for G.rules claim }
        ensures { result ≡ record { claim = claim; state = arc_value state } }
    {
        Done { claim, state }
    }
}
