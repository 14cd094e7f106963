//! What a module holds between two cycles, and what it shows and takes.
ghost use Rattle.std.specs.Prelude.{◌≡◌, ◌<◌, ◌↔◌, IsTrue, IfOk};
ghost use Rattle.std.specs.Option.{option_copied};
ghost use Rattle.omega_net.specs.Wires.{net_number};
ghost use Rattle.mem_module.specs.Memory.{word_at};
ghost use Rattle.mem_module.specs.MemModule.{module_start, module_takes_request, module_reply};

use crate::{SharedWords, Words};
use grid_law::NoMemory;
use omega_net::{Net, Queue, Reply, Request, free, head, same_replies, same_requests};
use std::alloc::Global;

/// A memory module between two cycles: its words, and what waits at its ports, by network, the low one first.
#[derive(Debug)]
pub struct ModuleState {
    pub words: SharedWords,
    /// The requests that wait to be served.
    pub requests: [Queue<Request>; 2],
    /// The replies that wait to leave.
    pub replies: [Queue<Reply>; 2],
    /// The network that is served where both can be.
    pub turn: Net,
    /// Whether a request was served in the last step.
    pub served: bool,
}

// Not derived: whoever drops a module calls this, and proves nothing of its parts anew.
impl Drop for ModuleState {
    fn drop(self) {
        let ModuleState {
            words,
            requests,
            replies,
            turn: _,
            served: _,
        } = self;
        drop(words);
        drop(requests);
        drop(replies);
    }
}

impl ModuleState {
    /// A module with these words, in which nothing waits.
    ///
    /// # Errors
    ///
    /// Where the growth was refused. The words are dropped.
    pub fn start(alloc: Global, words: Words) -> Result<ModuleState, NoMemory>
        ensures { IfOk result (λ first. first ≡ module_start words) }
    {
        Ok(ModuleState {
            words: SharedWords::new(alloc, words)?,
            requests: [Queue::new(alloc), Queue::new(alloc)],
            replies: [Queue::new(alloc), Queue::new(alloc)],
            turn: Net::Low,
            served: false,
        })
    }

    /// The word of a row.
    pub fn word(&self, row: u16) -> u32
        ensures { result ≡ word_at self.now.words row }
    {
        self.words.word(row)
    }

    /// Whether it takes a request on a network in the coming step, where its queues have this depth.
    pub fn ready(&self, depth: u32, net: Net) -> bool
        ensures { result ≡ module_takes_request self.now depth net }
    {
        free(&self.requests[port_of(net)], depth) >= 1
    }

    /// The reply that it shows on a network.
    pub fn offer(&self, net: Net) -> Option<&Reply>
        ensures { option_copied result ≡ module_reply self.now net }
    {
        head(&self.replies[port_of(net)])
    }

    /// Whether two states are the same. It takes time in proportion to the words only where all else is the same.
    pub fn same(&self, other: &ModuleState) -> bool
        ensures { IsTrue result ↔ (self.now ≡ other.now) }
    {
        self.served == other.served
            && self.turn == other.turn
            && same_requests(&self.requests, &other.requests)
            && same_replies(&self.replies, &other.replies)
            && self.words.same(&other.words)
    }
}

/// The place of a network in a pair: the low one first.
pub(crate) fn port_of(net: Net) -> usize
    ensures place { result ≡ net_number net }
    ensures within { result < 2 }
{
    match net {
        Net::Low => 0,
        Net::Comb => 1,
    }
}
