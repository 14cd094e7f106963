//! One network of the row: its levels of queues, and its turns.
ghost use Rattle.std.specs.Prelude.{◌≡◌, ◌+◌, ◌<◌, ◌≤◌, IfOk};
ghost use Rattle.project_book.specs.Queues.{reverse_queue};
ghost use Rattle.flat_row.specs.Row.{first_network, first_requests, first_replies, request_rule, reply_rule, places_for};

use crate::level::Level;
use crate::marks::Rule;
use grid_law::NoMemory;
use omega_net::{Net, Reply, Request};
use project_book::{Depths, Project};
use std::alloc::Global;
use std::marker::Model;

/// A network. Requests stand before stage 0 (level 0, what processors show), behind stage s (level s + 1), and at the modules
/// (level k + 1); replies before stage s (level s), and at the modules (level k). Turns are sets of labels, by stage.
#[derive(Drop)]
pub(crate) struct Side {
    pub(crate) requests: Vec<Level<Request>>,
    pub(crate) replies: Vec<Level<Reply>>,
    pub(crate) turns: [u64; 6],
    pub(crate) back_turns: [u64; 6],
}

impl Model for Side {
    ghost use Rattle.flat_row.specs.Row.{Network};

    ghost Value = { Network };

    ghost view = { λ s. record { requests = s.requests.items; replies = s.replies.items; turns = s.turns; back_turns = s.back_turns } };
}

/// Asked of queues whose head goes where it must: it is no bit of a route.
const NO_BIT: u32 = 63;

impl Side {
    /// A network in which nothing waits.
    pub(crate) fn new(alloc: Global, project: &Project, net: Net) -> Result<Side, NoMemory>
        ensures { IfOk result (λ side. side ≡ first_network project.now net) }
    {
        Ok(Side {
            requests: request_levels(alloc, project, net)?,
            replies: reply_levels(alloc, project, net)?,
            turns: [0; 6],
            back_turns: [0; 6],
        })
    }
}

/// The levels of requests of a network.
fn request_levels(
    alloc: Global,
    project: &Project,
    net: Net,
) -> Result<Vec<Level<Request>>, NoMemory>
    ensures { IfOk result (λ levels. levels.items ≡ first_requests project.now net (project.now.k + 2)) }
{
    let lines = project.shape().lines();
    let count = project.k() + 2;
    let mut levels = Vec::with_capacity(alloc, count as usize)?;
    for level in 0..count {
        let rule = request_rule(project, net, level);
        let queues = Level::new(alloc, lines, rule)?;
        levels.push(queues)?;
    }
    Ok(levels)
}

/// The levels of replies of a network.
fn reply_levels(alloc: Global, project: &Project, net: Net) -> Result<Vec<Level<Reply>>, NoMemory>
    ensures { IfOk result (λ levels. levels.items ≡ first_replies project.now net (project.now.k + 1)) }
{
    let lines = project.shape().lines();
    let count = project.k() + 1;
    let mut levels = Vec::with_capacity(alloc, count as usize)?;
    for level in 0..count {
        let rule = reply_rule(project, net, level);
        let queues = Level::new(alloc, lines, rule)?;
        levels.push(queues)?;
    }
    Ok(levels)
}

/// What the queues of a level of requests are asked.
pub(crate) fn request_rule(project: &Project, net: Net, level: u32) -> Rule
    ensures { result ≡ request_rule project.now net level }
{
    let k = project.k();
    Rule {
        depth: if level == k + 1 {
            project.depth(Depths::ModuleQueue)
        } else {
            project.depth(Depths::forward(net))
        },
        two: 2,
        one: 1,
        by: if level < k { k - 1 - level } else { NO_BIT },
    }
}

/// What the queues of a level of replies are asked.
pub(crate) fn reply_rule(project: &Project, net: Net, level: u32) -> Rule
    requires { level ≤ project.now.k }
    ensures { result ≡ reply_rule project.now net level }
{
    let k = project.k();
    let by = if level == 0 { NO_BIT } else { k - level };
    if level == k {
        Rule {
            depth: project.depth(Depths::ModuleQueue),
            two: 2,
            one: 1,
            by,
        }
    } else {
        Rule {
            depth: project.depth(reverse(net)),
            two: places_for(net, 2),
            one: places_for(net, 1),
            by,
        }
    }
}

/// The depth of a network's queues towards the processors.
fn reverse(net: Net) -> Depths
    ensures { result ≡ reverse_queue net }
{
    match net {
        Net::Low => Depths::LowReverse,
        Net::Comb => Depths::CombReverse,
    }
}

/// The places that so many replies need at most: one may become two on the combining network.
fn places_for(net: Net, replies: u32) -> u32
    requires { replies ≤ 2 }
    ensures { result ≡ places_for net replies }
{
    match net {
        Net::Low => replies,
        Net::Comb => 2 * replies,
    }
}
