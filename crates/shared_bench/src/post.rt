//! Where threads sleep until the journal has another entry.
ghost use Rattle.shared_bench.specs.Turn.{Fresh};

use crate::plays::{LENGTH, SharedTurns};
use std::sync::atomic::{AtomicU64, Ordering};
use std::sync::{Mutex, Wait};

/// The door before the journal's length. One thread sleeps on the length, and those that come later sleep at the door: so an
/// edit wakes one thread, however many sleep, and that one lets the others go on.
#[derive(Drop)]
pub struct Post {
    door: Mutex<()>,
    /// How often a thread came back from its sleep on the length.
    woken: AtomicU64,
}

impl Post {
    /// Nobody sleeps.
    pub fn new() -> Post {
        Post {
            door: Mutex::new(()),
            woken: AtomicU64::new(0),
        }
    }

    /// Sleeps while the journal has this length, until somebody wakes who sleeps on it. Who comes to the length only after
    /// another one was woken there doesn't sleep: it may be that one's waking which was meant for it.
    pub fn park<R: Wait>(&self, rt: &R, turns: &SharedTurns, length: u32)
        requires { Fresh turns.now.table_id }
    {
        let woken = self.woken.load(Ordering::SeqCst);
        let _door = self.door.lock(rt);
        if self.woken.load(Ordering::SeqCst) == woken {
            turns.park(rt, LENGTH, length);
            self.woken.fetch_add(1, Ordering::SeqCst);
        }
    }
}
