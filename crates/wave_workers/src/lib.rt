//! Workers beside a shared bench: threads that claim due cells, lot by lot, compute them outside of every turn, and give the
//! results back, or settle the bench slice by slice in their turns.
//!
//! `work` splits a pass for each [`Gate`] and starts a thread with it; a gate hears of each claim and each result, and
//! says whether its worker goes on. `attend` does the same for as long as the gates go on, but its workers settle slices, of
//! which no gate hears, and sleep while no cell is due. Both join all threads and all passes before they answer.
//!
//! Promise: the pass comes back as one of its opening, which has seen no less, with the same receipts, and with one number
//! more for each worker that was started, without a fault one for each gate; no more results were stored than given
//! (`specs/Working.antt`). What the bench does with a result is the bench's promise. That workers run side by side, and
//! are woken, is shown by tests, and nothing is promised of their progress.
//!
//! It stands on `shared_bench` for the passes.
#![tactic(auto)]

mod gate;
mod lot;
mod pace;
mod tally;
mod threads;
mod wave;
mod worked;
mod worker;

pub use gate::{Gate, Ungated};
pub use threads::{attend, work};
pub use wave::{settle_wave, settle_where_it_pays, waves_pay};
pub use worked::{WorkFault, Worked};
