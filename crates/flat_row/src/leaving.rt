//! What leaves in a cycle, decided for a stage at once.
ghost use Rattle.std.specs.Prelude.{◌≡◌, ℕ, ◌<◌, ◌≤◌, length};
ghost use Rattle.flat_row.specs.Row.{IsRowOf};
ghost use Rattle.flat_row.specs.Rows.{network};
ghost use Rattle.flat_row.specs.Shows.{heads_of, room_of};
ghost use Rattle.flat_row.specs.Masks.{has};
ghost use Rattle.flat_row.specs.Moving.{leaves_forth, leaves_back};
ghost use Rattle.flat_row.specs.Leaving.{StageForth, StageBack, AllForth, AllBack, Enters, Receives};
ghost use Rattle.flat_row.specs.Step.{Serves, IsPlan};

use crate::decide::{
    Decided, Heads, Room, Served, decided_apart, decided_together, served_by_turns,
};
use crate::marks::Marks;
use crate::row::Row;
use crate::side::Side;
use omega_net::{Net, Shape};
use project_book::Project;

/// What leaves on the stages of a network, and the turns one cycle later, by stage.
#[derive(Clone, Copy, Debug)]
pub(crate) struct Stages {
    pub(crate) leave: [u64; 6],
    pub(crate) turns: [u64; 6],
}

/// What moves on a network in a cycle: what leaves its stages, what enters modules, and what processors receive.
#[derive(Clone, Copy, Debug)]
pub(crate) struct Plan {
    pub(crate) forth: Stages,
    pub(crate) back: Stages,
    pub(crate) enter: u64,
    pub(crate) receive: u64,
}

impl Plan {
    /// The labels of a level of requests whose heads leave it.
    pub(crate) fn requests_leave(&self, shape: Shape, level: u32) -> u64
        requires { level ≤ shape }
        ensures { (x : ℕ) → has result x ≡ leaves_forth shape self.now.forth.leave self.now.enter level x }
    {
        if level == shape.k() {
            self.enter
        } else {
            self.forth.leave[level as usize]
        }
    }

    /// The labels of a level of replies whose heads leave it.
    pub(crate) fn replies_leave(&self, level: u32) -> u64
        requires { level ≤ 6 }
        ensures { (x : ℕ) → has result x ≡ leaves_back self.now.receive self.now.back.leave level x }
    {
        if level == 0 {
            self.receive
        } else {
            self.back.leave[level as usize - 1]
        }
    }
}

impl Row {
    /// What moves on a network.
    pub(crate) fn plan(&self, project: &Project, net: Net) -> Plan
        requires { IsRowOf project.now self.now }
        ensures { IsPlan project.now self.now net result }
    {
        Plan {
            forth: self.forth(project, net),
            back: self.back(project, net),
            enter: self.entering(project, net),
            receive: self.receiving(project, net),
        }
    }

    /// Which modules serve which network, and their turns one cycle later.
    pub(crate) fn serving(&self, project: &Project) -> Served
        requires { IsRowOf project.now self.now }
        ensures { Serves project.now self.now result.low result.comb result.turn }
    {
        project.is_project();
        self.is_row();
        let low = self.side(Net::Low);
        let comb = self.side(Net::Comb);
        let k = self.shape.k() as usize;
        let low_requests = low.requests[k + 1].marks();
        let comb_requests = comb.requests[k + 1].marks();
        let low_replies = low.replies[k].marks();
        let comb_replies = comb.replies[k].marks();
        let low_can = low_requests.any & low_replies.one;
        let comb_can = comb_requests.any & comb_replies.one;
        served_by_turns(low_can, comb_can, self.module_turns)
    }

    /// A network's levels and turns.
    pub(crate) fn side(&self, net: Net) -> &Side
        ensures { result.now ≡ network self.now net }
    {
        match net {
            Net::Low => &self.low,
            Net::Comb => &self.comb,
        }
    }

    /// The requests that leave before each stage.
    pub(crate) fn forth(&self, project: &Project, net: Net) -> Stages
        requires { IsRowOf project.now self.now }
        ensures stages { AllForth project.now self.now net project.now.k result.leave result.turns }
        ensures long { length result.turns ≡ 6 }
    {
        let mut leave = [0; 6];
        let mut turns = [0; 6];
        for stage in 0..project.k() {
            let decided = self.requests_at(project, net, stage);
            leave[stage as usize] = decided.leave;
            turns[stage as usize] = decided.turn;
        }
        Stages { leave, turns }
    }

    /// The replies that leave behind each stage.
    pub(crate) fn back(&self, project: &Project, net: Net) -> Stages
        requires { IsRowOf project.now self.now }
        ensures stages { AllBack project.now self.now net project.now.k result.leave result.turns }
        ensures long { length result.turns ≡ 6 }
    {
        let mut leave = [0; 6];
        let mut turns = [0; 6];
        for stage in 0..project.k() {
            let decided = self.replies_at(project, net, stage);
            leave[stage as usize] = decided.leave;
            turns[stage as usize] = decided.turn;
        }
        Stages { leave, turns }
    }

    /// The requests that enter modules.
    pub(crate) fn entering(&self, project: &Project, net: Net) -> u64
        requires { IsRowOf project.now self.now }
        ensures { Enters project.now self.now net result }
    {
        project.is_project();
        self.is_row();
        let side = self.side(net);
        let k = self.shape.k() as usize;
        let before = side.requests[k].marks();
        let behind = side.requests[k + 1].marks();
        before.any & behind.one
    }

    /// The replies that processors receive.
    pub(crate) fn receiving(&self, project: &Project, net: Net) -> u64
        requires { IsRowOf project.now self.now }
        ensures { Receives project.now self.now net result }
    {
        project.is_project();
        self.is_row();
        let side = self.side(net);
        let behind = side.replies[0].marks();
        behind.any
    }

    /// The requests that leave before a stage.
    pub(crate) fn requests_at(&self, project: &Project, net: Net, stage: u32) -> Decided
        requires of { IsRowOf project.now self.now }
        requires stage { stage < project.now.k }
        ensures { StageForth project.now self.now net stage result.leave result.turn }
    {
        project.is_project();
        self.is_row();
        let side = self.side(net);
        let s = stage as usize;
        let before = side.requests[s].marks();
        let behind = side.requests[s + 1].marks();
        let by = self.shape.deciding_bit(stage as u8);
        decided_apart(by, heads_of(before), room_of(behind), side.turns[s])
    }

    /// The replies that leave behind a stage: apart on the low network, where each queue takes them by itself, and together on the
    /// combining one.
    #[inline(always)]
    pub(crate) fn replies_at(&self, project: &Project, net: Net, stage: u32) -> Decided
        requires of { IsRowOf project.now self.now }
        requires stage { stage < project.now.k }
        ensures { StageBack project.now self.now net stage result.leave result.turn }
    {
        match net {
            Net::Low => self.low_replies_at(project, stage),
            Net::Comb => self.comb_replies_at(project, stage),
        }
    }

    fn low_replies_at(&self, project: &Project, stage: u32) -> Decided
        requires of { IsRowOf project.now self.now }
        requires stage { stage < project.now.k }
        ensures { StageBack project.now self.now Net.Low stage result.leave result.turn }
    {
        project.is_project();
        self.is_row();
        let side = self.side(Net::Low);
        let s = stage as usize;
        let behind = side.replies[s + 1].marks();
        let before = side.replies[s].marks();
        let by = self.shape.deciding_bit(stage as u8);
        decided_apart(by, heads_of(behind), room_of(before), side.back_turns[s])
    }

    fn comb_replies_at(&self, project: &Project, stage: u32) -> Decided
        requires of { IsRowOf project.now self.now }
        requires stage { stage < project.now.k }
        ensures { StageBack project.now self.now Net.Comb stage result.leave result.turn }
    {
        project.is_project();
        self.is_row();
        let side = self.side(Net::Comb);
        let s = stage as usize;
        let behind = side.replies[s + 1].marks();
        let before = side.replies[s].marks();
        let by = self.shape.deciding_bit(stage as u8);
        decided_together(by, behind.any, room_of(before), side.back_turns[s])
    }
}

/// What a level's marks are to the stage that its heads leave for, and to the one that they come from.
fn heads_of(marks: Marks) -> Heads
    ensures { result ≡ heads_of marks }
{
    Heads {
        any: marks.any,
        ones: marks.asks,
    }
}

fn room_of(marks: Marks) -> Room
    ensures { result ≡ room_of marks }
{
    Room {
        two: marks.two,
        one: marks.one,
    }
}
