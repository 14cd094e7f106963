//! The cells of a table: what state each holds, whether it is due, and since when.
//!
//! `Cells` keeps them by cycle and component, and knows nothing of events: whoever keeps a table says which cells an edit or a store
//! makes due. `Readers` has for each component those that read it, `mark_changed` and `store_in` make due what reads a cell that
//! changed, and `retouch` what an edit concerns. `due_down` counts the due cells on which one rests.
//!
//! Many due cells of a cycle are settled at once (`put_row`): by a row of all components that goes along from cycle to cycle
//! (`Along`), or few by a step of each out of the words near it. Both rows are kept from call to call (`Beside`), and `Spare` has what a
//! cycle takes besides.
//!
//! # What is promised
//!
//! Each call says for every cell what it holds afterwards, and leaves all of them as they were where a growth was refused. Nothing here
//! says that a cell's state is right: that follows from which cells are made due, and is `cell_table`'s to keep.
#![tactic(auto)]

mod along;
mod beside;
mod cells;
mod components;
mod cone;
mod few;
mod marks;
mod ranges;
mod readers;
mod rows;
mod spare;

pub use along::Along;
pub use beside::{Beside, renew};
pub use cells::{Cells, are_held, no_versions, repeat_cells};
pub use cone::due_down;
pub use few::put_row;
pub use marks::{add_where, retouch};
pub use ranges::{make_room, ranges_in, ranges_of};
pub use readers::Readers;
pub use rows::{clock_after, clock_filled, has_room, mark_changed, reach_in, repeat_in, store_in};
pub use spare::{Spare, find_left, find_reached};
