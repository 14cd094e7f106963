//! Machines that are simulated cell by cell: the trait `Grid`, and `Line`, its smallest example.
//!
//! A grid has components, and each component has a state at every cycle. A component's first state
//! follows from the grid's slots, which are its settings; a later one follows from the slots and
//! from the states, one cycle earlier, of the few components near it. A table of such states need
//! compute again only what an edit of a slot can have changed, so a grid also says which slots a
//! component reads.
//!
//! What a grid's calls mean is one record of functions, its `rules` (`specs/Rules.antt`), and each
//! grid proves the laws of that file for it:
//!
//! - agreement: `agree(a, b, near, c)` is true exactly where `a` and `b` have one shape and the
//!   same value in each slot that `c` reads there; then `c` reads the same slots under both, and
//!   gets the same state;
//! - own state: after cycle 0 what a component reads hangs on its own state one cycle earlier and on
//!   no other near state; `reads_later` is `reads` by that one;
//! - what `always_reads` says that a component reads after cycle 0 it reads at every state;
//! - readers: a component that reads a slot at some state is one of its `readers`, which are found
//!   without a look at any state;
//! - `next` is `step` over states that are lent, and nothing where the state stays as it is;
//! - locality: `reads` and `step` see the states of `near(c)`, in that order, and no others;
//! - `same` is equality of states, and `share` gives an equal value;
//! - the cells near a component begin with the component itself, are at most five, and exist.
//!
//! The run of a grid, from cycle 0 on, is defined once for all grids (`specs/Run.antt`).
//!
//! The crate stands on `arrayvec` alone.
#![tactic(auto)]

mod changed;
mod grid;
mod limits;
mod line;
mod no_memory;
mod numbers;
mod reader;
mod turn;

pub use changed::Changed;
pub use grid::Grid;
pub use limits::constants_are_limits;
pub use line::Line;
pub use no_memory::NoMemory;
pub use numbers::{LONGEST, LineSlot, Number, Numbers, SlotFault};
pub use reader::Reader;
pub use turn::Turn;
