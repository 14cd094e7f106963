//! Tree saturation towards a memory module, and the bound on the rate of references under a hot spot.
//!
//! Where many processors ask one module, the queues towards it fill up: first those of the last stage, then those of
//! the stage before, until the full queues are a tree from the module to the processors (Pfister and Norton 1985,
//! "Hot Spot" Contention and Combining in Multistage Interconnection Networks). [`level`] says how many stages, from
//! the last one, are full at a cycle, [`tree`] does so for each cycle of a run, and [`bound`] gives the bound on the
//! rate of references that such a hot spot leaves to each processor.
//!
//! The crate stands on `machine_cells` for the states of a run, on `project_book` for the depths of queues, on
//! `omega_net` for the lines that lead to a module, and on `rayon`, which maps a run's rows to levels. It promises that
//! each report is its definition, over whatever states it is handed (`specs/Levels.antt`, `specs/Trees.antt`,
//! `specs/Bound.antt`).
#![tactic(auto)]

mod levels;
mod queues;
mod rate;
mod report;
mod trees;

pub use levels::level;
pub use queues::{line_towards, queues_at};
pub use rate::bound;
pub use report::{Levels, Tree};
pub use trees::tree;
