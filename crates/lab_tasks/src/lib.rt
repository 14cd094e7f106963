//! The program `lab` but for its `main`: pictures and tables of the runs of a machine.
//!
//! [`read_words`] reads the program's words with the crate `clap`; [`perform`] does what they ask for over the bytes of their
//! FILE, and answers an [`Outcome`]: what is printed, and the files that are to be written. [`program`] does both over the
//! host's arguments and files, writes each file beside its name and renames it, and ends by a [`status`]. An [`End`] is why
//! there is no outcome, with its status and its line.
//!
//! The crate stands on `experiments` for figures, on `svg_plots` for pictures, on `commands` for the words of questions,
//! and on `project_file` for files. What [`read_words`] answers is what `clap` defines for the command of
//! `specs/CommandLine.antt`, and an error exactly where that finds a fault in the words (`specs/Words.antt`). What
//! [`perform`] does for each command, and why it doesn't, is in `specs/Done.antt`: how
//! numbers, lists and ranges are read (`specs/Numbers.antt`), which word is refused first (`specs/Plans.antt`), which points
//! are measured and that each is that of its load's run (`specs/Points.antt`), rates, means, the bound and fields of tables
//! (`specs/Tables.antt`), the table of a sweep (`specs/SweepTables.antt`, `specs/EditSweeps.antt`), what is asked in it and what a
//! project says to that (`specs/Askings.antt`, `specs/Tellings.antt`), how a project is set up for it
//! (`specs/SetUps.antt`), what a summary counts and says
//! (`specs/Counts.antt`, `specs/Summaries.antt`), the text of a converted file (`specs/ProjectTexts.antt`), which project
//! files are kept (`specs/Kept.antt`), the statuses and lines (`specs/Ends.antt`), the pictures of `rates`, `delays` and
//! `load` (`specs/RatePictures.antt`, `specs/DelayPictures.antt`, `specs/LoadPictures.antt`), which offered loads those are and
//! what is measured of them (`specs/LoadPlans.antt`, `specs/LoadTables.antt`), which page a run is (`specs/MachinePages.antt`), and when it is told that a map draws the network where no reference
//! is (`specs/Elsewhere.antt`). What the pictures look like is shown by examples. A session of the shell is `talk` of `lab_shell`
//! over a bench; what a [`ShellClerk`] says in it of its project is in `specs/Shells.antt` and `specs/ShellReports.antt`.
#![tactic(auto)]

mod answered;
mod asking;
mod busy;
mod check;
mod columns;
mod compared_map;
mod compared_rows;
mod comparison;
mod completion;
mod convert;
mod curves;
mod cycles;
mod delay_picture;
mod delays;
mod edit_sweep;
mod either;
mod end;
mod full;
mod grid;
mod host;
mod hot;
mod latency;
mod load;
mod load_picture;
mod load_plan;
mod load_points;
mod load_table;
mod map;
mod map_rows;
mod numbers;
mod order;
mod order_picture;
mod other_net;
mod outcome;
mod page;
mod phrases;
mod plan;
mod plot;
mod points;
mod progress;
mod rate_picture;
mod rates;
mod report_figures;
mod row_cells;
mod row_map;
mod series;
mod setup;
mod shell;
mod shell_report;
mod sweep;
mod swept;
mod tables;
mod task;
mod telling;
mod trace;
mod words;

pub use busy::BusyWords;
pub use comparison::compare;
pub use convert::ConvertWords;
pub use end::{End, Reason, refusal, status};
pub use host::{Terminals, program};
pub use latency::LatencyWords;
pub use order::OrderWords;
pub use outcome::{OutFile, Outcome};
pub use progress::{Progress, Silent};
pub use series::SeriesWords;
pub use shell::{Shelf, ShellClerk, ShellWords, hold, session_status, session_voice};
pub use task::perform;
pub use trace::TraceWords;
pub use words::{
    Asked, CompareWords, CurveWords, DelayWords, LoadWords, MapWords, SweepWords, read_words,
};
