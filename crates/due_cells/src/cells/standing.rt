//! How long cells hold their states.
ghost use Rattle.std.specs.Prelude.{◌≡◌, ℕ, ◌<◌, ◌≤◌, length};
ghost use Rattle.due_cells.specs.Seen.{held_at, row_at};

use super::Cells;
use cell_states::Cell;
use grid_law::Grid;

impl<G: Grid> Cells<G> {
    /// To before which cycle the cells of a component hold the state of one of them; it may hold it longer.
    pub fn stands_to(&self, cell: Cell) -> u32
        requires cycle { cell.cycle < length self.now }
        requires component { cell.component < length (row_at self.now cell.cycle) }
        ensures after { cell.cycle < result }
        ensures within { result ≤ length self.now }
        ensures same { (t : ℕ) → cell.cycle ≤ t → t < result → (held_at self.now t cell.component).state ≡ (held_at self.now cell.cycle cell.component).state }
    {
        self.stands_before(cell, self.cycles())
    }

    /// The same, but it looks no further than to before a cycle.
    pub fn stands_before(&self, cell: Cell, to: u32) -> u32
        requires cycle { cell.cycle < length self.now }
        requires before { cell.cycle < to }
        ensures after { cell.cycle < result }
        ensures before { result ≤ to }
        ensures same { (t : ℕ) → cell.cycle ≤ t → t < result → (held_at self.now t cell.component).state ≡ (held_at self.now cell.cycle cell.component).state }
    {
        let end = to.min(self.cycles());
        self.states.stands_to(cell, end)
    }
}
