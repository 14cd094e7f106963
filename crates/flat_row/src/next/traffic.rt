//! What a component is handed in a cycle, read off the sets of labels that leave.
ghost use Rattle.std.specs.Prelude.{◌≡◌, ◌<◌, ◌≤◌, ◌||◌, length, is_some};
ghost use Rattle.std.specs.Mem.{FitsInMemory};
ghost use Rattle.flat_row.specs.contracts.queue.Places.{the_row};
ghost use Rattle.omega_net.specs.Numbers.{lines, half};
ghost use Rattle.machine_cells.specs.Moves.{moves};
ghost use Rattle.machine_cells.specs.Cycle.{proc_traffic, module_traffic, switch_traffic};
ghost use Rattle.flat_row.specs.Masks.{has};
ghost use Rattle.flat_row.specs.Row.{IsRowOf, level_at, queue_of, states_of};
ghost use Rattle.flat_row.specs.Rows.{if_leaves};
ghost use Rattle.flat_row.specs.Leaving.{AreForth, AreBack};

use crate::bits::has;
use crate::level::Level;
use crate::marks::Routed;
use crate::read::{messages_at, ports};
use crate::row::Row;
use mem_module::ModuleTraffic;
use omega_net::{Net, Traffic};
use project_book::Project;
use ref_proc::ProcTraffic;

impl Row {
    /// What a processor is handed.
    pub(crate) fn proc_traffic(&self, project: &Project, p: u32) -> ProcTraffic
        requires of { IsRowOf project.now self.now }
        requires there { p < lines project.now.k }
        ensures { result ≡ proc_traffic (moves project.now (states_of self.now)) p }
    {
        self.is_row();
        let low = self.side(Net::Low);
        let comb = self.side(Net::Comb);
        let low_comes = self.receiving(project, Net::Low);
        let comb_comes = self.receiving(project, Net::Comb);
        let low_goes = self.requests_go(project, Net::Low, 0);
        let comb_goes = self.requests_go(project, Net::Comb, 0);
        let on_low = leaves(&low.requests, 0, p, low_goes);
        let on_comb = leaves(&comb.requests, 0, p, comb_goes);
        ProcTraffic {
            replies: [
                leaving(&low.replies, 0, p, low_comes),
                leaving(&comb.replies, 0, p, comb_comes),
            ],
            request_leaves: either_of(on_low, on_comb),
        }
    }

    /// What a module is handed.
    pub(crate) fn module_traffic(&self, project: &Project, m: u32) -> ModuleTraffic
        requires of { IsRowOf project.now self.now }
        requires there { m < lines project.now.k }
        ensures { result ≡ module_traffic (moves project.now (states_of self.now)) project.now.k m }
    {
        let k = project.k();
        let last = k as usize;
        self.is_row();
        let low = self.side(Net::Low);
        let comb = self.side(Net::Comb);
        let low_comes = self.entering(project, Net::Low);
        let comb_comes = self.entering(project, Net::Comb);
        let low_goes = self.replies_go(project, Net::Low, k);
        let comb_goes = self.replies_go(project, Net::Comb, k);
        ModuleTraffic {
            requests: [
                leaving(&low.requests, last, m, low_comes),
                leaving(&comb.requests, last, m, comb_comes),
            ],
            replies_leave: [
                leaves(&low.replies, last, m, low_goes),
                leaves(&comb.replies, last, m, comb_goes),
            ],
        }
    }

    /// What a switch is handed.
    pub(crate) fn switch_traffic(
        &self,
        project: &Project,
        net: Net,
        stage: u32,
        index: u32,
    ) -> Traffic
        requires of { IsRowOf project.now self.now }
        requires stage { stage < project.now.k }
        requires index { index < half project.now.k }
        ensures { result ≡ switch_traffic (moves project.now (states_of self.now)) project.now.k net stage index }
    {
        let (x, y) = ports(self.shape, stage, index);
        let (before, behind) = (stage as usize, stage as usize + 1);
        let side = self.side(net);
        let come = self.requests_go(project, net, stage);
        let go = self.requests_go(project, net, stage + 1);
        let return_here = self.replies_go(project, net, stage + 1);
        let go_back = self.replies_go(project, net, stage);
        Traffic {
            requests: [
                leaving(&side.requests, before, x, come),
                leaving(&side.requests, before, y, come),
            ],
            replies: [
                leaving(&side.replies, behind, x, return_here),
                leaving(&side.replies, behind, y, return_here),
            ],
            requests_leave: [
                leaves(&side.requests, behind, x, go),
                leaves(&side.requests, behind, y, go),
            ],
            replies_leave: [
                leaves(&side.replies, before, x, go_back),
                leaves(&side.replies, before, y, go_back),
            ],
        }
    }

    /// The labels of a level of requests whose heads leave it.
    fn requests_go(&self, project: &Project, net: Net, level: u32) -> u64
        requires of { IsRowOf project.now self.now }
        requires level { level ≤ project.now.k }
        ensures { AreForth project.now self.now net level result }
    {
        if level == project.k() {
            self.entering(project, net)
        } else {
            self.requests_at(project, net, level).leave
        }
    }

    /// The labels of a level of replies whose heads leave it.
    fn replies_go(&self, project: &Project, net: Net, level: u32) -> u64
        requires of { IsRowOf project.now self.now }
        requires level { level ≤ project.now.k }
        ensures { AreBack project.now self.now net level result }
    {
        if level == 0 {
            self.receiving(project, net)
        } else {
            self.replies_at(project, net, level - 1).leave
        }
    }
}

/// The head of a queue, where its label is in a set.
fn leaving<T: Routed>(levels: &[Level<T>], level: usize, x: u32, set: u64) -> Option<T>
    requires there { level < length levels.now }
    requires label { x < length (level_at levels.now level).queues }
    requires small { x < 64 }
    requires fits { FitsInMemory (the_row T.row) }
    ensures { result ≡ if_leaves (has set x) (queue_of levels.now level x) }
{
    let messages = messages_at(levels, level, x);
    if has(set, x) {
        messages.first().copied()
    } else {
        None
    }
}

/// Whether the head of a queue leaves, where its label is in a set.
fn leaves<T: Routed>(levels: &[Level<T>], level: usize, x: u32, set: u64) -> bool
    requires there { level < length levels.now }
    requires label { x < length (level_at levels.now level).queues }
    requires small { x < 64 }
    requires fits { FitsInMemory (the_row T.row) }
    ensures { result ≡ is_some (if_leaves (has set x) (queue_of levels.now level x)) }
{
    leaving(levels, level, x, set).is_some()
}

/// Whether one of both is so.
pub(crate) fn either_of(first: bool, second: bool) -> bool
    ensures { result ≡ (first || second) }
{
    first || second
}
