//! The due cells that a cell's state rests on.
ghost use Rattle.std.specs.Prelude.{◌≡◌, IfOk, List, Some};
ghost use Rattle.due_cells.specs.Seen.{held_at, due_at};
ghost use Rattle.cell_table.specs.Cells.{IsThere};
ghost use Rattle.due_cells.specs.Cones.{count_cone};
ghost use Rattle.cell_table.specs.Due.{due};
ghost use Rattle.cell_table.specs.Events.{Event, Start, slots_of, horizon_of};
ghost use Rattle.cell_table.specs.Stands.{Stands};
ghost use Rattle.grid_law.specs.Run.{run};

use super::Table;
use cell_states::Cell;
use due_cells::due_down;
use grid_law::{Grid, NoMemory};

impl<G: Grid> Table<G> {
    /// How many cells are due in the cone of a cell: the cell itself, the cells near it one cycle
    /// earlier, and so on down to cycle 0, each counted once. A cell that isn't there has an empty
    /// cone. Where none is due, the cell holds the state of the run, whatever is due elsewhere.
    ///
    /// The components near those of the cone are looked up until they grow no more; each of them is
    /// looked at once a cycle, and none at a cycle with nothing due.
    ///
    /// # Errors
    ///
    /// Where a growth was refused. Nothing is changed.
    pub fn due_cone(&self, cell: Cell) -> Result<u64, NoMemory>
        ensures count { IfOk result (λ n. n ≡ count_cone G.rules self.now.slots self.now.horizon (due_at self.now.rows) cell.cycle cell.component) }
        ensures headline_due { IfOk result (λ n. (o : Start G.Slots) (h : List (Event G.State G.Slots G.Slot)) → Stands G.rules o self.now h
            → n ≡ count_cone G.rules (slots_of o h) (horizon_of o h) (due G.rules o h) cell.cycle cell.component) }
        ensures run { IfOk result (λ n. n ≡ 0 → IsThere G.rules self.now cell.cycle cell.component
            → (held_at self.now.rows cell.cycle cell.component).state ≡ Some (run G.rules self.now.slots cell.cycle cell.component)) }
    {
        if !self.has(cell) {
            return Ok(0);
        }
        let alloc = self.cells.allocator();
        due_down::<G>(alloc, &self.slots, &self.cells, cell)
    }
}
