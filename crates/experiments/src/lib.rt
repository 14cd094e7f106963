//! Experiments on a machine: what a run of a project shows, as figures to be drawn or tabled.
//!
//! - [`saturation_map`]: the lengths of the queues towards a module, cycle by cycle, with the level of saturation, the first
//!   cycle of each level, and the module's served requests.
//! - [`Load`], [`project_of`]: scripts drawn from a seeded generator, in which a share of the references is hot (Pfister and
//!   Norton 1985).
//! - [`flows_of`], [`steady_each`]: how many references are answered, and how many requests served, in each cycle, and in all
//!   once the rate is steady, for many loads at once.
//! - [`Offer`], [`project_offered`], [`traffic_each`]: loads of which a processor offers a reference in a share of the cycles,
//!   how many are answered once the rate is steady, and how long they take (Dally and Towles 2004).
//! - [`cold_waits`], [`waited_each`]: how long the references that aren't hot wait for their replies.
//! - [`order_rows`], [`rows_shown`]: the references of a run in their one order, with the cycles that each took;
//!   [`lane_counts`], [`lane_of`]: where their bars stand in a space-time diagram.
//! - [`told`], [`told_or_bad`], [`told_each`], [`sweep_row`]: what a bench is told after one edit more.
//!
//! The crate stands on `machine_cells` for runs, on `run_reports` for one that is counted cycle by cycle and not kept, on
//! `serial_order` and `memory_order` for the one order, on `bench_core` and
//! `run_queries` for questions and their answers, on `saturation` for levels, on `project_book` for projects, on `drawn_scripts` and
//! `rand_pcg` for drawing, and on `rayon` for threads. It promises that each figure is that of the run of the project from cycle 0
//! (`specs/Maps.antt`, `specs/Delays.antt`, `specs/Flows.antt`, `specs/Steady.antt`, `specs/Traffic.antt`, `specs/Orders.antt`, and `answer` of
//! `run_queries`), so that anyone who asks the workbench the same is told the same; and that each fault comes only for its
//! cause (`specs/Told.antt`).
#![tactic(auto)]

mod delays;
mod fault;
mod flows;
mod lanes;
mod load;
mod map;
mod offer;
mod order;
mod queues;
mod series;
mod steady;
mod sweep;
mod traffic;

pub use delays::{ColdWaits, cold_waits, waited_each};
pub use fault::Fault;
pub use flows::{Flows, flows_of};
pub use lanes::{lane_counts, lane_of};
pub use load::{Load, MOST_CYCLES, USUAL_CYCLES, project_of};
pub use map::{SaturationMap, StageLengths, Window, saturation_map};
pub use offer::{Offer, offered, project_offered};
pub use order::{Issue, OrderRow, order_rows, rows_shown};
pub use series::{QueueLengths, Queues, Series};
pub use steady::{Steady, steady_each};
pub use sweep::{sweep_row, told, told_each, told_or_bad};
pub use traffic::{Traffic, traffic_each};
