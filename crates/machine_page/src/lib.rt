//! A run as a page that a browser opens without a network: the machine as a drawing, cycle by cycle.
//!
//! - [`page_text`]: the page of the cycles from one to another; [`is_short`]: whether these are few enough for one.
//! - [`HEAD`], [`TAIL`]: what stands before the page's data and behind it. The tail has the page's script.
//!
//! The crate stands on `run_reports` for a run that is stepped cycle by cycle, and on `machine_cells` and `project_book` for
//! what a run is. It promises which text the page is (`specs/Pages.antt`): a fixed head, the data, which are a text of the run of
//! the project in these cycles, and a fixed tail. What stands of a component's state in the data is in `specs/States.antt`, of
//! the machine in `specs/Machines.antt`. That the script shows what the data says, and computes nothing of the machine, is no
//! promise of a proof: it is to be read, and looked at.
#![tactic(auto)]

mod cycles;
mod head;
mod limits;
mod machine;
mod page;
mod script;
mod state;

pub use head::HEAD;
pub use limits::{MOST_STATES, constants_are_limits, is_short};
pub use page::page_text;
pub use script::TAIL;
