//! Sessions of the workbench: a run of the shell on a project, alone or with workers beside it.
//!
//! [`serve`] runs a session on a project. With no worker that is a run of `bench_shell` on a bench of its own. With workers
//! the bench is opened to passes: one is the shell's desk ([`Seated`]), and one goes to a thread that attends to the
//! workers, each in a thread of its own. [`run_beside`] does so beside a pass that somebody holds. [`Waves`] is a bench as a
//! desk that several threads settle, on machines that are large enough for that to pay.
//!
//! Promise: without workers, what a session that ends well has written is the `output` of all that it read, and after a
//! fault a beginning of it. Beside workers all its lines through the last `ok ..` are those of the output, and none behind
//! it begins with `ok`. Whatever ends a session, its own edits are those of lines that were read, a fault comes only for its
//! cause, want of memory or of a thread aside, and all workers that were started have ended (`specs/Serving.antt`). One that
//! can't start has read and written nothing. A pass stands, as a desk, for the project of its opening with its own edits
//! (`specs/Seated.antt`).
//!
//! It stands on `bench_shell` for runs and desks, on `shared_bench` for passes, and on `wave_workers` for workers and
//! waves.
#![tactic(auto)]

mod attendance;
mod seated;
mod serving;
mod waves;

pub use seated::Seated;
pub use serving::{Beside, Hall, Left, NoStart, Served, run_beside, serve};
pub use waves::Waves;
