//! Workers for as long as a session lasts.
ghost use Rattle.std.specs.Prelude.{◌≡◌, IfOk, vec_len};

use cell_table::Cell;
use shared_bench::Pass;
use std::alloc::{AllocError, Global};
use std::sync::atomic::{AtomicU64, Ordering};
use std::sync::{Arc, Wait};
use std::thread;
use wave_workers::Gate;

/// Whether the session has ended, and whether its workers have.
#[derive(Drop)]
pub struct Session {
    ended: AtomicU64,
    left: AtomicU64,
}

impl Session {
    pub fn new() -> Session {
        Session {
            ended: AtomicU64::new(0),
            left: AtomicU64::new(0),
        }
    }

    /// The workers have ended.
    pub fn leave(&self) {
        self.left.store(1, Ordering::SeqCst);
    }

    /// Ends the session, and wakes its workers until they have ended. One that was about to sleep as the session ended is
    /// woken by a later call.
    pub fn end<R: Wait>(&self, rt: &R, pass: &Pass) {
        self.ended.store(1, Ordering::SeqCst);
        for _ in rt.forever() {
            if self.left.load(Ordering::SeqCst) != 0 {
                return;
            }
            pass.wake_all();
            thread::yield_now();
        }
    }

    fn has_ended(&self) -> bool {
        self.ended.load(Ordering::SeqCst) != 0
    }
}

/// A gate whose worker stops at the session's end too.
#[derive(Drop)]
pub struct Attending<G> {
    gate: G,
    session: Arc<Session, Global>,
}

impl<G: Gate> Gate for Attending<G> {
    fn go_on(&mut self, turn: u64) -> bool {
        !self.session.has_ended() && self.gate.go_on(turn)
    }

    fn claimed(&mut self, cell: Cell) {
        self.gate.claimed(cell);
    }

    fn computed(&mut self, cell: Cell) {
        self.gate.computed(cell);
    }
}

/// The gates, each so that its worker stops at the session's end too.
///
/// # Errors
///
/// Where a growth was refused. The gates are dropped.
pub fn with_session<G: Gate + Drop>(
    alloc: Global,
    gates: Vec<G>,
    session: &Arc<Session, Global>,
) -> Result<Vec<Attending<G>>, AllocError>
    ensures { IfOk result (λ all. vec_len all ≡ vec_len gates) }
{
    let mut all = Vec::with_capacity(alloc, gates.len())?;
    'gates: for gate in gates {
        all.push(Attending {
            gate,
            session: Arc::try_clone(session)?,
        })?;
    }
    Ok(all)
}
