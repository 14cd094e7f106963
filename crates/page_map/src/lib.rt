//! Where an address stands: each page of 256 words is spread over a power of two of modules.
//!
//! Interleaving chosen by software, page by page, follows the RP3 (Pfister and others 1985); pages
//! of 256 words and the rule of [`Place`] are this project's profile. The crate stands on nothing
//! but `std`, and takes no memory.
//!
//! It promises model-places: [`PageMap::place`] is the place that the page's amount and base give,
//! two addresses in one place are one address, and [`PageMap::set`] changes one page, or answers
//! the first fault and changes nothing.
#![tactic(auto)]

mod fault;
mod limits;
mod map;
mod page;
mod place;

pub use fault::PageFault;
pub use limits::constants_are_limits;
pub use map::{ADDRESSES, MAX_K, PAGES, PageMap};
pub use page::PAGE_WORDS;
pub use place::Place;
