//! Due cells that are computed beside the table.
ghost use Rattle.std.specs.Prelude.{◌≡◌, None};
ghost use Rattle.std.specs.Arc.{arc_value};
ghost use Rattle.cell_table.specs.Waves.{known_of, IsReady, IsWork};

use crate::Table;
use cell_states::Cell;
use grid_law::{Grid, NoMemory};
use std::marker::Model;
use std::sync::Arc;

/// A due cell, and what was computed for it so far.
#[derive(Drop)]
pub struct Work<G: Grid> {
    cell: Cell,
    found: Option<Result<Option<Arc<G::State>>, NoMemory>>,
}

impl<G: Grid> Model for Work<G> {
    ghost use Rattle.std.specs.Arc.{arc_value};
    ghost use Rattle.cell_table.specs.Waves.{Worked, known_of};

    ghost Value = { Worked G.State };

    ghost view = { λ w. record { cell = w.cell; known = known_of arc_value w.found } };
}

impl<G: Grid> Work<G> {
    pub(crate) fn new(cell: Cell) -> Work<G>
        ensures { result ≡ record { cell = cell; known = None } }
    {
        Work { cell, found: None }
    }

    /// The cell.
    pub fn cell(&self) -> Cell
        ensures { result ≡ self.now.cell }
    {
        self.cell
    }

    /// Computes the cell from the states that the table holds, where no cell of an earlier cycle is
    /// due. Nothing is known of it where a growth was refused; then its row isn't stored any further.
    pub fn compute(&mut self, table: &Table<G>)
        requires { IsReady G.rules table.now self.old.cell.cycle self.old.cell.component }
        ensures cell { self.new.cell ≡ self.old.cell }
        ensures found { IsWork G.rules table.now.slots self.new }
    {
        self.found = Some(table.find(self.cell));
    }

    /// What was computed, if anything was.
    pub(crate) fn into_found(self) -> Option<Result<Option<Arc<G::State>>, NoMemory>>
        ensures { known_of arc_value result ≡ self.known }
    {
        self.found
    }
}
