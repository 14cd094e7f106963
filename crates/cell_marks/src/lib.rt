//! A mark for each cell of a run, as bits, and how many are set.
//!
//! `Marks` has a row for each cycle, and a row has a mark for each component. A mark is a bit; each
//! row knows how many of its marks are set, and all the marks are counted by one number, so that
//! "is any cell marked?" looks at no cell. The first marked component of a row is found a word of
//! 64 marks at a time.
//!
//! `RowBlocks` has the same marks of many rows side by side, for who looks at many rows at once.
//!
//! Callers see the list of rows, each a list of booleans; nothing of words. Memory is taken by
//! `grow` and `RowBlocks::new` alone, and by `Row::new` past 255 components: up to that many lie
//! in the row itself.
//!
//! The crate stands on `smallvec`, for rows that hold few words in themselves.
#![tactic(auto)]

mod marks;
mod row;
mod row_blocks;
mod word;
mod words;

pub use marks::Marks;
pub use row::Row;
pub use row_blocks::RowBlocks;
