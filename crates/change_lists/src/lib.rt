//! Values of components over time, kept as lists of changes.
//!
//! `Lists` has for each component, by cycle, the values that begin: a value stands from the cycle at which it begins to before the
//! next one, so a cell, one component at one cycle, holds the value that began last. What one cell is given changes no other cell: what
//! had stood there begins again behind it.
//!
//! For values that few cells change. A look at a cell is a search by halves; a change moves the changes behind it.
//!
//! A value may be large and shared, so it is never copied: whoever gives a cell another value hands over one more owner of the one that
//! it held. What takes memory is apart from what changes a cell: `reserve` gets the memory for a change, and then `put`, `go_on` and
//! `truncate` can't fail. So whoever changes more than these lists gets all memory first.
//!
//! The crate knows of no machine, and stands on `std` alone.
#![tactic(auto)]

mod begun;
mod change_list;
mod lists;

pub use begun::Sides;
pub use lists::Lists;
