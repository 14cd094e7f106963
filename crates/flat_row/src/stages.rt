//! Messages that cross all stages of the combining network.
ghost use Rattle.std.specs.Prelude.{◌≡◌, ◌≢◌, ℕ, ◌+◌, ◌-◌, ◌<◌, IsSome, true};
ghost use Rattle.omega_net.specs.Numbers.{lines};
ghost use Rattle.omega_net.specs.Queues.{head};
ghost use Rattle.comb_switch.specs.CombSwitch.{arrives, returns_to};
ghost use Rattle.machine_cells.specs.Cycle.{comb_settings};
ghost use Rattle.flat_row.specs.Masks.{has};
ghost use Rattle.flat_row.specs.Row.{HasLevels, queue_of};
ghost use Rattle.flat_row.specs.Moving.{AllWait, AllWaitBack};
ghost use Rattle.flat_row.specs.Combining.{AllMet, meeting, splitting, cleared};
ghost use Rattle.flat_row.specs.Stages.{buffers_in, SameBuffers, HasBuffers, CombForth, CombBack};

use crate::crossing::{Crossing, cross_back, cross_forth};
use crate::level::Level;
use crate::moving::move_straight;
use crate::waits::Waits;
use comb_switch::CombSettings;
use omega_net::{Reply, Request};
use project_book::Project;

/// Requests enter modules, and cross the stages, the last one first.
pub(crate) fn combs_forth(
    levels: &mut Vec<Level<Request>>,
    waits: &mut Vec<Waits>,
    project: &Project,
    leave: &[u64; 6],
    enter: u64,
)
    requires levels { HasLevels (project.now.k + 2) (lines project.now.k) levels.old.items }
    requires buffers { HasBuffers project.now.k (lines project.now.k) waits.old.items }
    requires some { AllWait project.now.k leave.now enter levels.old.items }
    ensures { CombForth project.now leave.now enter levels.old.items levels.new.items waits.old.items waits.new.items }
{
    let k = project.k();
    let last = k as usize;
    move_straight(levels, last, last + 1, enter);
    for done in 0..k {
        let stage = k - 1 - done;
        stage_forth(levels, waits, project, stage, leave[stage as usize]);
    }
}

/// Requests cross a stage.
fn stage_forth(
    levels: &mut Vec<Level<Request>>,
    waits: &mut Vec<Waits>,
    project: &Project,
    stage: u32,
    leave: u64,
)
    requires stage { stage < project.now.k }
    requires levels { HasLevels (project.now.k + 2) (lines project.now.k) levels.old.items }
    requires buffers { HasBuffers project.now.k (lines project.now.k) waits.old.items }
    requires some { (y : ℕ) → y < 64 → has leave y ≡ true → IsSome (head (queue_of levels.old.items stage y)) }
    ensures met { AllMet (meeting (project.now.k - 1 - stage)) (arrives (comb_settings project.now stage)) (project.now.k - 1 - stage) stage (stage + 1) leave levels.old.items levels.new.items (cleared (buffers_in waits.old.items stage)) (buffers_in waits.new.items stage) }
    ensures buffers { SameBuffers waits.old.items waits.new.items }
    ensures others { (s : ℕ) → s ≢ stage → buffers_in waits.new.items s ≡ buffers_in waits.old.items s }
{
    project.is_project();
    let settings = comb_settings(project, stage);
    let s = stage as usize;
    let beside = &mut waits[s];
    beside.clear();
    let crossing = Crossing {
        settings,
        from: s,
        to: s + 1,
        leave,
    };
    cross_forth(levels, beside, &crossing);
}

/// Replies cross the stages, the first one first.
pub(crate) fn combs_back(
    levels: &mut Vec<Level<Reply>>,
    waits: &mut Vec<Waits>,
    project: &Project,
    leave: &[u64; 6],
)
    requires levels { HasLevels (project.now.k + 1) (lines project.now.k) levels.old.items }
    requires buffers { HasBuffers project.now.k (lines project.now.k) waits.old.items }
    requires some { AllWaitBack project.now.k leave.now levels.old.items }
    ensures { CombBack project.now leave.now levels.old.items levels.new.items waits.old.items waits.new.items }
{
    for stage in 0..project.k() {
        stage_back(levels, waits, project, stage, leave[stage as usize]);
    }
}

/// Replies cross a stage.
fn stage_back(
    levels: &mut Vec<Level<Reply>>,
    waits: &mut Vec<Waits>,
    project: &Project,
    stage: u32,
    leave: u64,
)
    requires stage { stage < project.now.k }
    requires levels { HasLevels (project.now.k + 1) (lines project.now.k) levels.old.items }
    requires buffers { HasBuffers project.now.k (lines project.now.k) waits.old.items }
    requires some { (y : ℕ) → y < 64 → has leave y ≡ true → IsSome (head (queue_of levels.old.items (stage + 1) y)) }
    ensures met { AllMet (splitting (project.now.k - 1 - stage)) (returns_to (comb_settings project.now stage)) (project.now.k - 1 - stage) (stage + 1) stage leave levels.old.items levels.new.items (buffers_in waits.old.items stage) (buffers_in waits.new.items stage) }
    ensures buffers { SameBuffers waits.old.items waits.new.items }
    ensures others { (s : ℕ) → s ≢ stage → buffers_in waits.new.items s ≡ buffers_in waits.old.items s }
{
    project.is_project();
    let settings = comb_settings(project, stage);
    let s = stage as usize;
    let beside = &mut waits[s];
    let crossing = Crossing {
        settings,
        from: s + 1,
        to: s,
        leave,
    };
    cross_back(levels, beside, &crossing);
}

/// What the combining switches of a stage read of a project.
pub(crate) fn comb_settings(project: &Project, stage: u32) -> CombSettings
    requires { stage < project.now.k }
    ensures { result ≡ comb_settings project.now stage }
{
    CombSettings {
        bit: project.k() - 1 - stage,
        combine: project.combine(stage),
        wait: project.wait(),
    }
}
