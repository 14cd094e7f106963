//! One network in a step.
ghost use Rattle.std.specs.Prelude.{◌≡◌, ℕ, suc, ◌+◌, ◌<◌, length, IsSome, true, false, IfOk, OnOk};
ghost use Rattle.omega_net.specs.Numbers.{lines};
ghost use Rattle.omega_net.specs.Queues.{head};
ghost use Rattle.flat_row.specs.Masks.{has};
ghost use Rattle.flat_row.specs.Row.{HasLevels, level_at, queue_of};
ghost use Rattle.flat_row.specs.Moving.{AllWait, AllWaitBack, forth_after, back_after};
ghost use Rattle.flat_row.specs.Stages.{HasBuffers, CombForth, CombBack};
ghost use Rattle.flat_row.specs.Ends.{AllServed, Wrote, ShowsOne, Stays, shown_with};
ghost use Rattle.flat_row.specs.Step.{CanServe, OnlyModules, NetReceived, NetAnswered, OnlyRequests, OnlyReplies, BothActed, BothServed, Departed, Returned, CombsReturned};

use crate::acting::{Replies, act_all, receive};
use crate::bits::{are_empty, either};
use crate::decide::Served;
use crate::leaving::Plan;
use crate::moving::{move_back, move_forth};
use crate::serving::{answer, serve};
use crate::side::Side;
use crate::stages::{combs_back, combs_forth};
use crate::waits::Waits;
use grid_law::NoMemory;
use mem_module::Words;
use omega_net::{Reply, Shape};
use project_book::Project;
use ref_proc::ProcState;

impl Side {
    /// Modules serve the heads of their requests: those that left another word.
    ///
    /// # Errors
    ///
    /// Where a growth was refused. Then some modules have served, and others haven't.
    pub(crate) fn serve(
        &mut self,
        shape: Shape,
        words: &mut Vec<Words>,
        modules: u64,
        answers: &mut [Reply; 64],
    ) -> Result<u64, NoMemory>
        requires { CanServe shape modules self.old.requests words.old.items }
        ensures only { OnlyModules shape self.old self.new }
        ensures many { length words.new.items ≡ length words.old.items }
        ensures served { OnOk result (AllServed modules (level_at self.old.requests (suc shape)) (level_at self.new.requests (suc shape)) words.old.items words.new.items answers.new) }
        ensures wrote { IfOk result (λ wrote. Wrote wrote words.old.items words.new.items) }
        ensures within { IfOk result (λ wrote. (m : ℕ) → m < 64 → has wrote m ≡ true → has modules m ≡ true) }
    {
        let last = shape.k() as usize + 1;
        let level = &mut self.requests[last];
        serve(level, words, modules, answers)
    }

    /// Processors receive the heads of the replies before them.
    pub(crate) fn receive(&mut self, set: u64, got: &mut Replies)
        requires there { 0 < length self.old.replies }
        requires some { (p : ℕ) → p < 64 → has set p ≡ true → IsSome (head (queue_of self.old.replies 0 p)) }
        ensures received { NetReceived set self.old self.new got.new }
        ensures set { got.new.set ≡ set }
    {
        got.set = set;
        let level = &mut self.replies[0];
        receive(level, set, &mut got.at);
    }

    /// The answers of modules go last into their replies.
    pub(crate) fn answer(&mut self, shape: Shape, modules: u64, answers: &[Reply; 64])
        requires there { shape < length self.old.replies }
        requires wide { (m : ℕ) → m < 64 → has modules m ≡ true → m < length (level_at self.old.replies shape).queues }
        ensures { NetAnswered shape modules answers.now self.old self.new }
    {
        let last = shape.k() as usize;
        let level = &mut self.replies[last];
        answer(level, modules, answers);
    }

    /// Requests move on the low network.
    pub(crate) fn forth(&mut self, shape: Shape, leave: &[u64; 6], enter: u64)
        requires levels { HasLevels (shape + 2) (lines shape) self.old.requests }
        requires some { AllWait shape leave.now enter self.old.requests }
        ensures only { OnlyRequests self.old self.new }
        ensures queues { (l z : ℕ) → l < shape + 2 → z < 64 → queue_of self.new.requests l z ≡ forth_after (λ r. r.place.«module») shape leave.now enter self.old.requests l z }
    {
        if enter == 0 && are_empty(leave) {
            return;
        }
        move_forth(&mut self.requests, shape, leave, enter);
    }

    /// Replies move on the low network.
    pub(crate) fn back(&mut self, shape: Shape, leave: &[u64; 6])
        requires levels { HasLevels (shape + 1) (lines shape) self.old.replies }
        requires some { AllWaitBack shape leave.now self.old.replies }
        ensures only { OnlyReplies self.old self.new }
        ensures queues { (l z : ℕ) → l < shape + 1 → z < 64 → queue_of self.new.replies l z ≡ back_after (λ y. y.tag.proc) shape leave.now self.old.replies l z }
    {
        if are_empty(leave) {
            return;
        }
        move_back(&mut self.replies, shape, leave);
    }

    /// Requests move on the combining network.
    pub(crate) fn combs_forth(
        &mut self,
        waits: &mut Vec<Waits>,
        project: &Project,
        leave: &[u64; 6],
        enter: u64,
    )
        requires levels { HasLevels (project.now.k + 2) (lines project.now.k) self.old.requests }
        requires buffers { HasBuffers project.now.k (lines project.now.k) waits.old.items }
        requires some { AllWait project.now.k leave.now enter self.old.requests }
        ensures only { OnlyRequests self.old self.new }
        ensures crossed { CombForth project.now leave.now enter self.old.requests self.new.requests waits.old.items waits.new.items }
    {
        combs_forth(&mut self.requests, waits, project, leave, enter);
    }

    /// Replies move on the combining network.
    pub(crate) fn combs_back(&mut self, waits: &mut Vec<Waits>, project: &Project, leave: &[u64; 6])
        requires levels { HasLevels (project.now.k + 1) (lines project.now.k) self.old.replies }
        requires buffers { HasBuffers project.now.k (lines project.now.k) waits.old.items }
        requires some { AllWaitBack project.now.k leave.now self.old.replies }
        ensures only { OnlyReplies self.old self.new }
        ensures crossed { CombBack project.now leave.now self.old.replies self.new.replies waits.old.items waits.new.items }
    {
        if are_empty(leave) {
            return;
        }
        combs_back(&mut self.replies, waits, project, leave);
    }

    /// The turns one cycle later.
    pub(crate) fn turn(&mut self, turns: [u64; 6], back_turns: [u64; 6])
        ensures requests { self.new.requests ≡ self.old.requests }
        ensures replies { self.new.replies ≡ self.old.replies }
        ensures turns { self.new.turns ≡ turns }
        ensures back_turns { self.new.back_turns ≡ back_turns }
    {
        self.turns = turns;
        self.back_turns = back_turns;
    }
}

impl Side {
    /// Requests move on the low network, and processors receive what comes to them.
    pub(crate) fn depart(&mut self, shape: Shape, plan: &Plan, got: &mut Replies)
        requires requests { HasLevels (shape + 2) (lines shape) self.old.requests }
        requires replies { HasLevels (shape + 1) (lines shape) self.old.replies }
        requires some { AllWait shape plan.now.forth.leave plan.now.enter self.old.requests }
        requires comes { (p : ℕ) → p < 64 → has plan.now.receive p ≡ true → IsSome (head (queue_of self.old.replies 0 p)) }
        ensures departed { Departed plan.now.receive self.old self.new got.new }
        ensures set { got.new.set ≡ plan.now.receive }
        ensures queues { (l z : ℕ) → l < shape + 2 → z < 64 → queue_of self.new.requests l z ≡ forth_after (λ r. r.place.«module») shape plan.now.forth.leave plan.now.enter self.old.requests l z }
    {
        self.forth(shape, &plan.forth.leave, plan.enter);
        self.receive(plan.receive, got);
    }

    /// The same on the combining network.
    pub(crate) fn combs_depart(
        &mut self,
        waits: &mut Vec<Waits>,
        project: &Project,
        plan: &Plan,
        got: &mut Replies,
    )
        requires requests { HasLevels (project.now.k + 2) (lines project.now.k) self.old.requests }
        requires replies { HasLevels (project.now.k + 1) (lines project.now.k) self.old.replies }
        requires buffers { HasBuffers project.now.k (lines project.now.k) waits.old.items }
        requires some { AllWait project.now.k plan.now.forth.leave plan.now.enter self.old.requests }
        requires comes { (p : ℕ) → p < 64 → has plan.now.receive p ≡ true → IsSome (head (queue_of self.old.replies 0 p)) }
        ensures departed { Departed plan.now.receive self.old self.new got.new }
        ensures set { got.new.set ≡ plan.now.receive }
        ensures crossed { CombForth project.now plan.now.forth.leave plan.now.enter self.old.requests self.new.requests waits.old.items waits.new.items }
    {
        self.combs_forth(waits, project, &plan.forth.leave, plan.enter);
        self.receive(plan.receive, got);
    }

    /// Replies move on the low network, modules answer, and the turns go on.
    pub(crate) fn come_back(
        &mut self,
        shape: Shape,
        plan: &Plan,
        modules: u64,
        answers: &[Reply; 64],
    )
        requires replies { HasLevels (shape + 1) (lines shape) self.old.replies }
        requires some { AllWaitBack shape plan.now.back.leave self.old.replies }
        requires wide { (m : ℕ) → m < 64 → has modules m ≡ true → m < lines shape }
        ensures returned { Returned shape plan.now.back.leave modules answers.now plan.now.forth.turns plan.now.back.turns self.old self.new }
        ensures queues { (l z : ℕ) → l < shape → z < 64 → queue_of self.new.replies l z ≡ back_after (λ y. y.tag.proc) shape plan.now.back.leave self.old.replies l z }
    {
        self.back(shape, &plan.back.leave);
        self.answer(shape, modules, answers);
        self.turn(plan.forth.turns, plan.back.turns);
    }

    /// The same on the combining network.
    pub(crate) fn combs_come_back(
        &mut self,
        waits: &mut Vec<Waits>,
        project: &Project,
        plan: &Plan,
        modules: u64,
        answers: &[Reply; 64],
    )
        requires replies { HasLevels (project.now.k + 1) (lines project.now.k) self.old.replies }
        requires buffers { HasBuffers project.now.k (lines project.now.k) waits.old.items }
        requires some { AllWaitBack project.now.k plan.now.back.leave self.old.replies }
        requires wide { (m : ℕ) → m < 64 → has modules m ≡ true → m < lines project.now.k }
        ensures returned { Returned project.now.k plan.now.back.leave modules answers.now plan.now.forth.turns plan.now.back.turns self.old self.new }
        ensures crossed { CombsReturned project.now plan.now.back.leave self.old self.new waits.old.items waits.new.items }
    {
        project.is_project();
        let shape = project.shape();
        self.combs_back(waits, project, &plan.back.leave);
        self.answer(shape, modules, answers);
        self.turn(plan.forth.turns, plan.back.turns);
    }
}

/// Modules serve both networks, the low one first: those that left another word.
///
/// # Errors
///
/// Where a growth was refused. Then some modules have served, and others haven't.
pub(crate) fn serve_both(
    shape: Shape,
    low: &mut Side,
    comb: &mut Side,
    words: &mut Vec<Words>,
    served: &Served,
    low_answers: &mut [Reply; 64],
    comb_answers: &mut [Reply; 64],
) -> Result<u64, NoMemory>
    requires low { CanServe shape served.now.low low.old.requests words.old.items }
    requires comb { CanServe shape served.now.comb comb.old.requests words.old.items }
    requires apart { (m : ℕ) → m < 64 → has served.now.low m ≡ true → has served.now.comb m ≡ true → ⊥ }
    ensures low { OnlyModules shape low.old low.new }
    ensures comb { OnlyModules shape comb.old comb.new }
    ensures many { length words.new.items ≡ length words.old.items }
    ensures both { OnOk result (BothServed shape served.now.low served.now.comb low.old low.new comb.old comb.new words.old.items words.new.items low_answers.new comb_answers.new) }
    ensures wrote { IfOk result (λ wrote. Wrote wrote words.old.items words.new.items) }
{
    let low_wrote = low.serve(shape, words, served.low, low_answers)?;
    let comb_wrote = comb.serve(shape, words, served.comb, comb_answers)?;
    Ok(either(low_wrote, comb_wrote))
}

/// The processors that may act do, and show on both networks: which processors have stayed as they were, and rest.
pub(crate) fn act_on(
    project: &Project,
    procs: &mut Vec<ProcState>,
    low: &mut Side,
    comb: &mut Side,
    low_got: &Replies,
    comb_got: &Replies,
    active: u64,
) -> u64
    requires procs { length procs.old.items ≡ lines project.now.k }
    requires low { HasLevels (project.now.k + 2) (lines project.now.k) low.old.requests }
    requires comb { HasLevels (project.now.k + 2) (lines project.now.k) comb.old.requests }
    requires one { (p : ℕ) → ShowsOne (level_at low.old.requests 0) (level_at comb.old.requests 0) p }
    requires others { (p : ℕ) → p < lines project.now.k → has active p ≡ false → Stays project.now low_got.now comb_got.now (shown_with procs.old.items (level_at low.old.requests 0) (level_at comb.old.requests 0) p) p }
    ensures { BothActed project.now low_got.now comb_got.now result low.old low.new comb.old comb.new procs.old.items procs.new.items }
{
    let low_level = &mut low.requests[0];
    let comb_level = &mut comb.requests[0];
    act_all(
        project, procs, low_level, comb_level, low_got, comb_got, active,
    )
}
