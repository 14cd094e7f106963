//! Reports over a run of a project: what an architect asks of it as a whole.
//!
//! - [`references`]: the references of a run by processor and issue, each with the entry that it was issued for and the cycles
//!   of the first states that show its issue and its reply.
//! - [`Condition`]: which references are asked for, by processor, network, page, address, a hot word and a window of cycles.
//! - [`latencies_of`]: how many of those that meet a condition took each number of cycles, and how many have no reply
//!   ([`Latencies`]), with the figures of that histogram: their number, mean, least, greatest and percentiles.
//! - [`latency_text`]: these figures as lines, and the histogram as a table.
//! - [`completions`]: when each processor had its last reply, and when its script was at its end ([`Completion`]); with
//!   [`cycles_of`] and [`spread_of`] the earliest and the latest of these cycles.
//! - [`completion_text`]: these figures as lines, and the completions as a table.
//! - [`Runner`]: the run that they are counted from, one cycle at a time; nothing of it is kept.
//! - [`trace`]: where a reference, or the one that it was combined into, was at each cycle, as spans ([`Span`]);
//!   [`trace_text`]: these as a line.
//! - [`first_fulls`]: which queues and wait buffers were full, and at which cycle they first were ([`FirstFull`]); [`full_text`]:
//!   these as a table, by that cycle.
//! - [`Gauge`]: a number that each cycle shows, as how many references were answered or how long a queue is, and
//!   [`gauge_named`] by its text; [`series_sums`]: such numbers cycle by cycle or by bins of
//!   cycles ([`Bins`], [`Sums`]); [`series_table`] and [`series_text`]: these as a table.
//! - [`lengths_over`]: how long some queues are at each cycle of a window ([`Lengths`]).
//! - [`busy_text`]: how busy the stages of the networks and the modules were in a window of cycles, as a table.
//!
//! The crate stands on `flat_row` for a run that is stepped cycle by cycle and not kept, and on `machine_cells` and `project_book`
//! for what a run is. It promises that each report is that of the run of the project from cycle 0 (`specs/References.antt`,
//! `specs/Latencies.antt`, `specs/Completions.antt`, `specs/Traces.antt`, `specs/FullQueues.antt`, `specs/Series.antt`, `specs/Utilisation.antt`), and that each figure is the one of its histogram (`specs/Figures.antt`) or of its
//! cycles.
#![tactic(auto)]

mod completion;
mod completion_report;
mod condition;
mod figures;
mod full_queues;
mod full_report;
mod gauge;
mod gauge_text;
mod latency;
mod lengths;
mod reference;
mod report;
mod runner;
mod series;
mod spans;
mod spread;
mod trace_report;
mod utilisation;

pub use completion::{Completion, Event, completions};
pub use completion_report::completion_text;
pub use condition::{Condition, HOT_ADDRESS, Heat, Window, meets};
pub use full_queues::{FirstFull, Part, PartQueue, first_fulls};
pub use full_report::full_text;
pub use gauge::Gauge;
pub use gauge_text::gauge_named;
pub use latency::{Latencies, latencies_of};
pub use lengths::{Lengths, lengths_over};
pub use reference::{Reference, references};
pub use report::{Summary, latency_text};
pub use runner::Runner;
pub use series::{Bins, Sums, series_sums, series_table, series_text};
pub use spans::{Span, Spot, trace};
pub use spread::{Spread, cycles_of, spread_of};
pub use trace_report::trace_text;
pub use utilisation::busy_text;
