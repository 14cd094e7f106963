//! What is asked of the states that cells hold; none of them is lent.
ghost use Rattle.std.specs.Prelude.{◌≡◌, ℕ, ◌-◌, ◌<◌, ◌≤◌, ◌↔◌, ◌∷◌, [], IsTrue, is_some, false, Some, length};
ghost use Rattle.grid_law.specs.declared.turn.Turn.TheVariants.{Ahead, Passed};
ghost use Rattle.grid_law.specs.Run.{run};
ghost use Rattle.due_cells.specs.Seen.{held_at};
ghost use Rattle.cell_states.specs.ReadsBy.{reads_by};

use super::Cells;
use cell_states::Cell;
use grid_law::{Grid, Turn};

impl<G: Grid> Cells<G> {
    /// Whether a cell holds a state.
    #[inline(always)]
    pub fn has_state(&self, cell: Cell) -> bool
        ensures { result ≡ is_some (held_at self.now cell.cycle cell.component).state }
    {
        self.states.has(cell)
    }

    /// Whether a cell holds this state, the whole of it.
    #[inline(always)]
    pub fn holds(&self, cell: Cell, state: &G::State) -> bool
        ensures { IsTrue result ↔ ((held_at self.now cell.cycle cell.component).state ≡ Some state.now) }
    {
        self.states.holds(cell, state)
    }

    /// Whether a cell holds what the cell one cycle earlier holds: the same state, or none as that one.
    pub fn is_as_before(&self, cell: Cell) -> bool
        requires later { 0 < cell.cycle }
        ensures { IsTrue result ↔ ((held_at self.now (cell.cycle - 1) cell.component).state ≡ (held_at self.now cell.cycle cell.component).state) }
    {
        self.states.is_as_before(cell)
    }

    /// Whether a component reads the slot after cycle 0, where its own state one cycle earlier is the cell's and the other near states
    /// are there, and to before which cycle, `end` at most, each of its cells tells the same; more may. One that has no state reads none.
    #[inline(always)]
    pub fn reads_to(&self, slots: &G::Slots, cell: Cell, slot: &G::Slot, end: u32) -> (bool, u32)
        requires component { cell.component < G.rules.components slots.now }
        requires before { cell.cycle < end }
        requires within { end ≤ length self.now }
        ensures after { cell.cycle < result.1 }
        ensures before { result.1 ≤ end }
        ensures reads { (t : ℕ) → cell.cycle ≤ t → t < result.1 → result.0 ≡ reads_by G.rules slots.now cell.component slot.now (held_at self.now t cell.component).state }
    {
        self.states.reads_to(slots, cell, slot, end)
    }

    /// Where along a run a component reads the slot, of which the cell's state is one.
    pub fn turn(&self, slots: &G::Slots, cell: Cell, slot: &G::Slot) -> Turn
        requires { cell.component < G.rules.components slots.now }
        ensures ahead { result ≡ Ahead → (t u : ℕ) → (held_at self.now cell.cycle cell.component).state ≡ Some (run G.rules slots.now t cell.component) → u ≤ t → G.rules.reads slots.now (run G.rules slots.now u cell.component ∷ []) cell.component slot.now ≡ false }
        ensures passed { result ≡ Passed → (t u : ℕ) → (held_at self.now cell.cycle cell.component).state ≡ Some (run G.rules slots.now t cell.component) → t ≤ u → G.rules.reads slots.now (run G.rules slots.now u cell.component ∷ []) cell.component slot.now ≡ false }
    {
        self.states.turn(slots, cell, slot)
    }
}
