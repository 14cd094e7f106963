//! A row into which the words near a cell are put.
ghost use Rattle.std.specs.Prelude.{◌≡◌, ℕ, IfSome, OnOk, replicate, true};
ghost use Rattle.cell_states.specs.NextWords.{HoldsWords};

use crate::WholeRow;
use grid_law::{Grid, NoMemory};
use std::alloc::Global;

/// A row into which the words near a cell are put, and for each component the cycle, plus 1, whose words it holds; 0 where nothing is
/// known of it.
#[derive(Drop)]
pub struct Near<M> {
    pub row: M,
    pub at: Vec<u32>,
}

/// Nothing is known of any of so many components.
fn know_nothing(at: &mut Vec<u32>, count: u32) -> Result<(), NoMemory>
    ensures { OnOk result (at.new.items ≡ replicate count 0) }
{
    at.clear();
    at.resize(count as usize, 0)?;
    Ok(())
}

impl<M> Near<M> {
    /// A row of which nothing is known: this one, or a new one. None where the grid has no such row, or a growth was refused.
    pub fn new<G: Grid>(alloc: Global, slots: &G::Slots, idle: Option<M>) -> Option<Near<M>>
    where
        M: WholeRow<G>,
        requires { IfSome idle (λ row. M.stands row slots.now) }
        ensures { IfSome result (HoldsWords G.rules G.codec M.stands M.state slots.now) }
    {
        let mut at = Vec::new(alloc);
        match know_nothing(&mut at, G::components(slots)) {
            Ok(()) => {}
            Err(_) => return None,
        }
        match idle {
            Some(row) => Some(Near { row, at }),
            None => match M::new(alloc, slots) {
                Some(row) => Some(Near { row, at }),
                None => None,
            },
        }
    }

    /// Lets the row stand for these slots, of which nothing is known then: whether it does.
    pub fn resume<G: Grid>(&mut self, slots: &G::Slots) -> bool
    where
        M: WholeRow<G>,
        ensures { result ≡ true → HoldsWords G.rules G.codec M.stands M.state slots.now self.new }
    {
        match know_nothing(&mut self.at, G::components(slots)) {
            Ok(()) => self.row.resume(slots),
            Err(_) => false,
        }
    }
}
