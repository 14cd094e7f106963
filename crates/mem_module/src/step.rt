//! One cycle of a module.
ghost use Rattle.std.specs.Prelude.{◌≡◌, IfOk};
ghost use Rattle.mem_module.specs.MemModule.{can_serve, served_net, is_net, served_on, answer_to, answer_if, words_after, turn_from, requests_after, replies_from, module_after};

use crate::state::port_of;
use crate::{ModuleState, SharedWords};
use grid_law::NoMemory;
use omega_net::{Net, Queue, Reply, Request, free, head, queue_after};
use std::alloc::{AllocError, Global};

/// What a module is handed in one step, by network, the low one first: the requests that arrive, and whether the
/// head of its replies leaves.
#[derive(Clone, Copy, PartialEq, Eq, Debug)]
pub struct ModuleTraffic {
    pub requests: [Option<Request>; 2],
    pub replies_leave: [bool; 2],
}

impl ModuleState {
    /// The state one cycle later, at this depth of its four queues: heads leave, at most one request is served, and
    /// requests arrive. It copies the words where the request that is served leaves another word.
    ///
    /// # Errors
    ///
    /// Where a growth was refused. The state is as before.
    pub fn step(
        &self,
        alloc: Global,
        depth: u32,
        traffic: &ModuleTraffic,
    ) -> Result<ModuleState, NoMemory>
        ensures { IfOk result (λ next. next ≡ module_after depth traffic.now self.now) }
    {
        let served = self.served_net(depth);
        let (words, answer) = self.serving(alloc, self.served_on(served))?;
        Ok(ModuleState {
            words,
            requests: [
                self.requests_after(alloc, traffic, served, Net::Low)?,
                self.requests_after(alloc, traffic, served, Net::Comb)?,
            ],
            replies: [
                self.replies_after(alloc, traffic, served, answer, Net::Low)?,
                self.replies_after(alloc, traffic, served, answer, Net::Comb)?,
            ],
            turn: turn_from(self.turn, served),
            served: served.is_some(),
        })
    }

    /// Whether it can serve a network.
    fn can_serve(&self, depth: u32, net: Net) -> bool
        ensures { result ≡ can_serve self.now depth net }
    {
        let waits = head(&self.requests[port_of(net)]).is_some();
        let room = free(&self.replies[port_of(net)], depth) >= 1;
        waits && room
    }

    /// The network that it serves in the next step, at this depth of its queues: one whose request waits and whose
    /// reply has a place, the one of its turn where both are so. None where neither is.
    pub fn served_net(&self, depth: u32) -> Option<Net>
        ensures { result ≡ served_net self.now depth }
    {
        match (
            self.can_serve(depth, Net::Low),
            self.can_serve(depth, Net::Comb),
        ) {
            (true, true) => Some(self.turn),
            (true, false) => Some(Net::Low),
            (false, true) => Some(Net::Comb),
            (false, false) => None,
        }
    }

    /// The request at the head of that network's queue.
    pub fn served_on(&self, served: Option<Net>) -> Option<Request>
        ensures { result ≡ served_on self.now served }
    {
        head(&self.requests[port_of(served?)]).copied()
    }

    /// The words with the new one, and the reply with the old one.
    fn serving(
        &self,
        alloc: Global,
        request: Option<Request>,
    ) -> Result<(SharedWords, Option<Reply>), NoMemory>
        ensures words { IfOk result (λ made. made.0 ≡ words_after self.now.words request) }
        ensures answer { IfOk result (λ made. made.1 ≡ answer_to self.now.words request) }
    {
        let Some(Request { tag, place, op }) = request else {
            return Ok((self.words.share()?, None));
        };
        let (word, words) = self.words.fetch_and_op(alloc, place.row, op)?;
        Ok((words, Some(Reply { tag, word })))
    }

    fn requests_after(
        &self,
        alloc: Global,
        traffic: &ModuleTraffic,
        served: Option<Net>,
        net: Net,
    ) -> Result<Queue<Request>, AllocError>
        ensures { IfOk result (λ queue. queue ≡ requests_after traffic.now self.now served net) }
    {
        let port = port_of(net);
        let leaves = is_net(net, served);
        queue_after(
            alloc,
            &self.requests[port],
            leaves,
            traffic.requests[port],
            None,
        )
    }

    fn replies_after(
        &self,
        alloc: Global,
        traffic: &ModuleTraffic,
        served: Option<Net>,
        answer: Option<Reply>,
        net: Net,
    ) -> Result<Queue<Reply>, AllocError>
        ensures { IfOk result (λ queue. queue ≡ replies_from traffic.now self.now served answer net) }
    {
        let port = port_of(net);
        let reply = answer_if(is_net(net, served), answer);
        queue_after(
            alloc,
            &self.replies[port],
            traffic.replies_leave[port],
            reply,
            None,
        )
    }
}

fn is_net(net: Net, served: Option<Net>) -> bool
    ensures { result ≡ is_net net served }
{
    match served {
        None => false,
        Some(n) => port_of(n) == port_of(net),
    }
}

fn answer_if(served: bool, reply: Option<Reply>) -> Option<Reply>
    ensures { result ≡ answer_if served reply }
{
    if served { reply } else { None }
}

/// The turn goes to the network that wasn't served.
fn turn_from(turn: Net, served: Option<Net>) -> Net
    ensures { result ≡ turn_from turn served }
{
    match served {
        None => turn,
        Some(Net::Low) => Net::Comb,
        Some(Net::Comb) => Net::Low,
    }
}
