//! What a combining switch keeps.
ghost use Rattle.std.specs.Prelude.{◌≡◌, ◌↔◌, IsTrue};
ghost use Rattle.comb_switch.specs.CombSwitch.{comb_start};

use crate::Waiting;
use crate::waiting::same_waiting;
use omega_net::{Queue, Reply, Request, same_replies, same_requests};
use std::alloc::Global;

/// A combining switch: the requests that wait, by output; the replies that wait, by input; the wait buffer; the input
/// whose turn it is, by output; the side whose turn it is; and how many requests the last step combined.
#[derive(PartialEq, Eq, Debug)]
pub struct CombState {
    pub fwd: [Queue<Request>; 2],
    pub rev: [Queue<Reply>; 2],
    pub wait: Queue<Waiting>,
    pub turn: [u8; 2],
    pub rturn: u8,
    pub combined: u8,
}

// Not derived: whoever drops a switch calls this, and proves nothing of its parts anew.
impl Drop for CombState {
    fn drop(self) {
        let CombState {
            fwd,
            rev,
            wait,
            turn: _,
            rturn: _,
            combined: _,
        } = self;
        drop(fwd);
        drop(rev);
        drop(wait);
    }
}

impl CombState {
    /// A switch in which nothing waits, with all turns at 0.
    pub fn start(alloc: Global) -> CombState
        ensures { result ≡ comb_start }
    {
        CombState {
            fwd: [Queue::new(alloc), Queue::new(alloc)],
            rev: [Queue::new(alloc), Queue::new(alloc)],
            wait: Queue::new(alloc),
            turn: [0, 0],
            rturn: 0,
            combined: 0,
        }
    }

    /// Whether two switches hold the same.
    pub fn same(&self, other: &CombState) -> bool
        ensures { IsTrue result ↔ (self.now ≡ other.now) }
    {
        self.turn == other.turn
            && self.rturn == other.rturn
            && self.combined == other.combined
            && same_requests(&self.fwd, &other.fwd)
            && same_replies(&self.rev, &other.rev)
            && same_waiting(&self.wait, &other.wait)
    }
}
