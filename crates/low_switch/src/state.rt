//! What a low switch keeps.
ghost use Rattle.std.specs.Prelude.{◌≡◌, ◌↔◌, IsTrue};
ghost use Rattle.low_switch.specs.LowSwitch.{low_start};

use omega_net::{Queue, Reply, Request, same_replies, same_requests};
use std::alloc::Global;

/// A low switch: by output, the requests that wait and the input whose turn it is; by input, the replies that wait and
/// the side whose turn it is.
#[derive(PartialEq, Eq, Debug)]
pub struct LowState {
    pub fwd: [Queue<Request>; 2],
    pub turn: [u8; 2],
    pub rev: [Queue<Reply>; 2],
    pub rturn: [u8; 2],
}

// Not derived: whoever drops a switch calls this, and proves nothing of its parts anew.
impl Drop for LowState {
    fn drop(self) {
        let LowState {
            fwd,
            turn: _,
            rev,
            rturn: _,
        } = self;
        drop(fwd);
        drop(rev);
    }
}

impl LowState {
    /// A switch in which nothing waits, with all turns at 0.
    pub fn start(alloc: Global) -> LowState
        ensures { result ≡ low_start }
    {
        LowState {
            fwd: [Queue::new(alloc), Queue::new(alloc)],
            turn: [0, 0],
            rev: [Queue::new(alloc), Queue::new(alloc)],
            rturn: [0, 0],
        }
    }

    /// Whether two switches hold the same.
    pub fn same(&self, other: &LowState) -> bool
        ensures { IsTrue result ↔ (self.now ≡ other.now) }
    {
        self.turn == other.turn
            && self.rturn == other.rturn
            && same_requests(&self.fwd, &other.fwd)
            && same_replies(&self.rev, &other.rev)
    }
}
