//! Who is told of the states that are stored.
ghost use Rattle.std.specs.Prelude.{◌≡◌, true};

use crate::Table;
use cell_states::{Cell, CellRange};
use grid_law::Grid;

/// Who is told of each state that is stored, right afterwards, and whether it is another one than the
/// cell held: `Table::settle_rows` and `settle_rows_to` tell it, and so may whoever calls `Table::give`. Of cycles that are
/// settled together it is told at once, where it isn't idle.
pub trait Watcher<G: Grid> {
    ghost use Rattle.due_cells.specs.Seen.{Seen};
    ghost use Rattle.cell_table.specs.Gives.{IsStored, HoldsSame};
    ghost use Rattle.cell_table.specs.Passing.{HoldsBut};

    /// What a watcher keeps of the table that it watches.
    ghost keeps: { Self → Seen G.State G.Slots → Type 0 };

    /// Whether it needn't be told, since whatever states the table holds it keeps what it keeps of it.
    fn is_idle(&self) -> bool
        ensures { result ≡ true → (before after : Seen G.State G.Slots) → keeps self.now before → after.slots ≡ before.slots → after.horizon ≡ before.horizon → keeps self.now after };

    /// A state was stored for the cell, which may be the one that it held.
    fn stored(&mut self, table: &Table<G>, cell: Cell)
        requires { (before : Seen G.State G.Slots) × keeps self.old before × IsStored G.rules before table.now cell.cycle cell.component }
        ensures { keeps self.new table.now };

    /// The state that the cell held was stored for it: no state of the table has changed.
    fn kept(&mut self, table: &Table<G>, cell: Cell)
        requires { (before : Seen G.State G.Slots) × keeps self.old before × HoldsSame G.rules before table.now }
        ensures { keeps self.new table.now };

    /// States were stored for cells of these ranges, and for no others.
    fn refilled(&mut self, table: &Table<G>, ranges: &[CellRange])
        requires { (before : Seen G.State G.Slots) × keeps self.old before × HoldsBut G.rules before table.now ranges.now }
        ensures { keeps self.new table.now };
}

/// Nobody.
#[derive(Drop)]
pub(crate) struct Nobody;

impl<G: Grid> Watcher<G> for Nobody {
    ghost keeps = { λ watcher table. Unit {0} };

    fn is_idle(&self) -> bool {
        true
    }

    fn stored(&mut self, table: &Table<G>, cell: Cell) {
        let _ = table;
        let _ = cell;
    }

    fn kept(&mut self, table: &Table<G>, cell: Cell) {
        let _ = table;
        let _ = cell;
    }

    fn refilled(&mut self, table: &Table<G>, ranges: &[CellRange]) {
        let _ = table;
        let _ = ranges;
    }
}
