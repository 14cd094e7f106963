//! What a worker asks and tells.
use cell_table::Cell;

/// Who looks on at a worker. Its calls are made in the worker's thread, outside of every turn. A worker that settles slices
/// claims no cell, and so tells of none.
pub trait Gate {
    /// Whether the worker begins this turn. Its turns are counted from 0.
    fn go_on(&mut self, turn: u64) -> bool;

    /// The worker has claimed this cell, with others of its lot, and begins to compute it.
    fn claimed(&mut self, cell: Cell);

    /// The worker has computed this cell, and hasn't given the result back yet: it does so with those of its lot.
    fn computed(&mut self, cell: Cell);
}

/// A gate that holds nothing.
#[derive(Clone, Copy)]
pub struct Ungated;

impl Gate for Ungated {
    fn go_on(&mut self, _turn: u64) -> bool {
        true
    }

    fn claimed(&mut self, _cell: Cell) {}

    fn computed(&mut self, _cell: Cell) {}
}
