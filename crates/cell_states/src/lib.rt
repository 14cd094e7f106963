//! The states of a grid's cells, by cycle and component.
//!
//! A cell is one component of a grid at one cycle. `States` has a state for each, or none, and shows them as a list of rows, one for
//! each cycle. A cell's state is put, repeated from the cycle before, lent as words and a memory, or put together for an owner. Many
//! cells of a cycle are put at once: `put_whole` takes them from a row that has stepped all components (`WholeRow`), `put_each` steps
//! each out of a row into which the words near it are put (`Near`). `NoRow` stands in where there is no such row.
//!
//! Apart from the states stand `Versions`: those of the cells of one cycle, for whoever keeps a table of due cells.
//!
//! # What is promised
//!
//! Each call changes the states that it names and no others, or, where a growth was refused, none. Of cells that are put at once
//! just those are marked that had another state, and apart from them those that had other words.
//!
//! # How they are kept
//!
//! A state is the words of its code and what isn't in them, a memory, as `Grid` codes it. The words that begin at a cycle are a row of
//! `change_rows`, the memories a list of changes for each component (`change_lists`). No state is kept itself. Two states are compared
//! by their words and memories, and none where nothing begins.
#![tactic(auto)]

mod cell;
mod near;
mod neighbours;
mod no_row;
mod states;
mod versions;
mod whole_row;

pub use cell::{Cell, CellRange};
pub use near::Near;
pub use neighbours::Neighbours;
pub use no_row::NoRow;
pub use states::States;
pub use versions::{
    Room, Versions, begin_in, give_in, grow_rows, make_room_in, note_in, rows_of, take_room_in,
    version_in,
};
pub use whole_row::WholeRow;
