//! The name of a cell.

/// One component at one cycle. Cells are ordered by cycle, then by component.
#[derive(Clone, Copy, Debug, PartialEq, Eq, PartialOrd, Ord, Hash)]
pub struct Cell {
    /// From 0 to the horizon.
    pub cycle: u32,
    /// Below the grid's number of components.
    pub component: u32,
}

/// The cells of a component from one cycle on, to before another.
#[derive(Clone, Copy)]
pub struct CellRange {
    pub component: u32,
    pub from: u32,
    pub to: u32,
}
