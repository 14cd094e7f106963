//! The reports of `run_reports` as pictures.
//!
//! - [`latency_picture`]: counted latencies as a histogram, with their figures below.
//! - [`series_picture`]: what gauges showed in bins of cycles, as curves in steps.
//! - [`trace_picture`]: where a reference was at each cycle, as bars in rows of components.
//!
//! The crate stands on `run_reports` for what a report is and on `svg_plots` for what a drawing is. It promises of each picture
//! what in it stands for what of the report, number by number (`specs/LatencyPictures.antt`, `specs/SeriesPictures.antt`,
//! `specs/TracePictures.antt`).
#![tactic(auto)]

mod curves;
mod histogram;
mod trace;

pub use curves::series_picture;
pub use histogram::latency_picture;
pub use trace::trace_picture;
