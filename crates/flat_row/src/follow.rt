//! The row under another project.
ghost use Rattle.std.specs.Prelude.{◌≡◌, ℕ, ◌+◌, length, Some};
ghost use Rattle.omega_net.specs.declared.component.Component.{Component as At};
ghost use Rattle.flat_row.specs.Follow.{Follows, NetworkFollows};
ghost use Rattle.flat_row.specs.Row.{IsRowOf, reply_rule, request_rule, state_of, states_of};

use crate::level::Level;
use crate::row::Row;
use crate::side::{Side, reply_rule, request_rule};
use omega_net::{Net, Reply, Request};
use project_book::Project;

impl Row {
    /// The same states as a row of another project of as many processors: its levels ask what that project's machine asks, and no
    /// processor is known to rest. It takes no memory.
    pub fn follow(&mut self, project: &Project)
        requires { self.old.k ≡ project.now.k }
        ensures of { IsRowOf project.now self.new }
        ensures each { (c : At) → state_of self.new (Some c) ≡ state_of self.old (Some c) }
        ensures states { states_of self.new ≡ states_of self.old }
    {
        self.low.follow(project, Net::Low);
        self.comb.follow(project, Net::Comb);
        self.rests = 0;
    }
}

impl Side {
    /// The same queues and turns, where levels ask what those of a project ask.
    fn follow(&mut self, project: &Project, net: Net)
        requires requests { length self.old.requests ≡ project.now.k + 2 }
        requires replies { length self.old.replies ≡ project.now.k + 1 }
        ensures { NetworkFollows project.now net self.old self.new }
    {
        follow_requests(&mut self.requests, project, net);
        follow_replies(&mut self.replies, project, net);
    }
}

/// The same queues of requests, where levels ask what those of a project ask.
fn follow_requests(levels: &mut Vec<Level<Request>>, project: &Project, net: Net)
    requires { length levels.old.items ≡ project.now.k + 2 }
    ensures { Follows (request_rule project.now net) levels.old.items levels.new.items }
{
    for l in 0..project.k() + 2 {
        let level = &mut levels[l as usize];
        level.follow(request_rule(project, net, l));
    }
}

/// And those of replies.
fn follow_replies(levels: &mut Vec<Level<Reply>>, project: &Project, net: Net)
    requires { length levels.old.items ≡ project.now.k + 1 }
    ensures { Follows (reply_rule project.now net) levels.old.items levels.new.items }
{
    for l in 0..project.k() + 1 {
        let level = &mut levels[l as usize];
        level.follow(reply_rule(project, net, l));
    }
}
