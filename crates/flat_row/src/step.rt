//! The row one cycle later.
ghost use Rattle.std.specs.Prelude.{◌≡◌, ℕ, ◌<◌, true, false, IfOk, OnOk};
ghost use Rattle.machine_cells.specs.Cycle.{cycle};
ghost use Rattle.flat_row.specs.Changed.{SameOutside, TellsMemory, none_changed};
ghost use Rattle.flat_row.specs.Masks.{has};
ghost use Rattle.flat_row.specs.Moving.{leaves_forth};

use crate::bits::{either, not_in};
use crate::changed::Changed;
use crate::leaving::Plan;
use crate::row::Row;
use crate::sides::{act_on, serve_both};
use grid_law::NoMemory;
use omega_net::{Net, Shape};
use project_book::Project;

impl Row {
    ghost use Rattle.flat_row.specs.Row.{IsRowOf, states_of};

    /// The row one cycle later: all that moves is decided on the row as it is; then modules serve, requests move, processors
    /// receive and act, replies move, and modules answer. The answer tells which components may be other ones than before, and which
    /// modules have other words of memory; where it is empty the machine stands still, in this cycle and in every later one. A row in
    /// which nothing waits and all processors rest is looked at, and no more.
    ///
    /// # Errors
    ///
    /// Where a module had to keep a word more and the growth was refused. Then the row is one of the project still, but no state of
    /// its machine: it is to be let go.
    pub fn step(&mut self, project: &Project) -> Result<Changed, NoMemory>
        requires { IsRowOf project.now self.old }
        ensures states { OnOk result (states_of self.new ≡ cycle project.now (states_of self.old)) }
        ensures of { IsRowOf project.now self.new }
        ensures outside { IfOk result (λ changed. SameOutside project.now.k changed self.old self.new) }
        ensures wrote { IfOk result (λ changed. TellsMemory project.now.k changed self.old self.new) }
        ensures still { IfOk result (λ changed. none_changed changed ≡ true → states_of self.new ≡ states_of self.old) }
    {
        if self.is_idle() {
            self.stands_still(project);
            return Ok(Changed::none());
        }
        self.move_on(project)
    }

    /// The row one cycle later, where something may happen.
    fn move_on(&mut self, project: &Project) -> Result<Changed, NoMemory>
        requires { IsRowOf project.now self.old }
        ensures states { OnOk result (states_of self.new ≡ cycle project.now (states_of self.old)) }
        ensures of { IsRowOf project.now self.new }
        ensures outside { IfOk result (λ changed. SameOutside project.now.k changed self.old self.new) }
        ensures wrote { IfOk result (λ changed. TellsMemory project.now.k changed self.old self.new) }
        ensures still { IfOk result (λ changed. none_changed changed ≡ true → states_of self.new ≡ states_of self.old) }
    {
        project.is_project();
        let served = self.serving(project);
        let low = self.plan(project, Net::Low);
        let comb = self.plan(project, Net::Comb);
        let touched = self.touched(&served, &low, &comb);
        let shape = self.shape;
        let wrote = serve_both(
            shape,
            &mut self.low,
            &mut self.comb,
            &mut self.words,
            &served,
            &mut self.low_answers,
            &mut self.comb_answers,
        )?;
        self.low.depart(shape, &low, &mut self.low_got);
        self.comb
            .combs_depart(&mut self.waits, project, &comb, &mut self.comb_got);
        let active = active(shape, self.rests, &low, &comb);
        let rests = act_on(
            project,
            &mut self.procs,
            &mut self.low,
            &mut self.comb,
            &self.low_got,
            &self.comb_got,
            active,
        );
        self.low
            .come_back(shape, &low, served.low, &self.low_answers);
        self.comb.combs_come_back(
            &mut self.waits,
            project,
            &comb,
            served.comb,
            &self.comb_answers,
        );
        self.module_turns = served.turn;
        self.served = served.low | served.comb;
        self.rests = rests;
        Ok(Changed {
            procs: either(not_in(rests), touched.procs),
            wrote,
            ..touched
        })
    }
}

/// The processors that may act: those that don't rest, and those to which a reply comes, or whose request leaves.
fn active(shape: Shape, rests: u64, low: &Plan, comb: &Plan) -> u64
    ensures rests { (p : ℕ) → p < 64 → has result p ≡ false → has rests p ≡ true }
    ensures low { (p : ℕ) → p < 64 → has result p ≡ false → has low.now.receive p ≡ false }
    ensures comb { (p : ℕ) → p < 64 → has result p ≡ false → has comb.now.receive p ≡ false }
    ensures low_leave { (p : ℕ) → p < 64 → has result p ≡ false → leaves_forth shape low.now.forth.leave low.now.enter 0 p ≡ false }
    ensures comb_leave { (p : ℕ) → p < 64 → has result p ≡ false → leaves_forth shape comb.now.forth.leave comb.now.enter 0 p ≡ false }
{
    let low_leave = low.requests_leave(shape, 0);
    let comb_leave = comb.requests_leave(shape, 0);
    let leave = either(low_leave, comb_leave);
    let asked = either(low.receive, comb.receive);
    let woken = either(asked, leave);
    let awake = not_in(rests);
    either(awake, woken)
}
