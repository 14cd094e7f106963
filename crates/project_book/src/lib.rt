//! Projects: a machine's settings, its scripts and its first words, and their edits.
//!
//! A [`Project`] is within its limits whenever it is seen: it is made blank by [`Project::new`] or
//! [`Project::built_in`], and every edit that [`Project::apply`] accepts keeps it so. An edit gives
//! an edited copy, which shares with its origin what the edit leaves alone, and the list of the
//! [`Slot`]s that got another value: a table of simulated states computes again only what reads one
//! of these. The size of the machine and the [`Scale`] of the project are never edited, and the horizon is no slot.
//!
//! It promises model-projects: `apply` answers by the checks of `specs/Edits.antt` in their order,
//! gives the edited project of that file, and lists exactly the slots whose values differ
//! (`specs/Slots.antt`), each once; the given project is as before. Want of memory is answered only
//! where no check refuses.
//!
//! The crate stands on `omega_net` for script entries, on `page_map` for places, on `grid_law` for
//! [`grid_law::Changed`], and on `word_ops` and `line_words` for the texts of entries.
#![tactic(auto)]

mod apply;
mod depths;
mod edit;
mod entry_text;
mod fault;
mod limits;
mod pages;
mod parts;
mod project;
mod scale;
mod scripts;
mod slot;
mod words;

pub use depths::{QueueDepths, USUAL_WAIT};
pub use edit::{Depths, Edit, are_times, is_addressed, is_timed};
pub use entry_text::{EntryText, read_entry, read_network};
pub use fault::EditFault;
pub use limits::{
    MAX_DEPTH, MAX_EDITS, MAX_HORIZON, MAX_TIMES, MAX_WINDOW, MIN_COMB_REVERSE, MIN_DEPTH,
    MIN_WAIT, SCRIPT_ENTRIES, STAGES, USUAL_ENTRIES, USUAL_HORIZON, constants_are_limits,
};
pub use omega_net::ScriptEntry;
pub use pages::PageWords;
pub use parts::Parts;
pub use project::Project;
pub use scale::Scale;
pub use scripts::Scripts;
pub use slot::Slot;
pub use words::{FirstWord, FirstWords};
