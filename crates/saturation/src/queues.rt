//! The queues towards a module.
ghost use Rattle.std.specs.Prelude.{◌≡◌, ◌<◌, ◌≤◌, ◌+◌, ◌-◌, ◌*◌, ◌/◌, ◌^◌, slice_get, map};
ghost use Rattle.std.specs.Option.{option_copied};
ghost use Rattle.omega_net.specs.declared.component.Component.TheVariants.{Switch};
ghost use Rattle.omega_net.specs.Numbers.{lines, half, number_of};
ghost use Rattle.page_map.specs.Limits.{max_k};
ghost use Rattle.saturation.specs.Towards.{is_full, is_full_on, is_full_stage, line_towards, queues_at};

use machine_cells::MachineState;
use omega_net::{Component, Net, free};
use project_book::{Depths, Project};

/// Whether all queues of a stage that lead to a module are full. It looks at those queues alone.
pub(crate) fn is_full_stage(
    project: &Project,
    row: &[&MachineState],
    net: Net,
    module: u32,
    stage: u32,
) -> bool
    requires there { «module» < lines project.now.k }
    requires stage { stage < project.now.k }
    ensures { result ≡ is_full_stage project.now net «module» (slice_get (map (λ r. r.now) row.now)) stage }
{
    let k = project.k();
    for place in 0..queues_at(k, stage) {
        let line = line_towards(k, module, stage, place);
        if !is_full_on(project, row, net, stage, line) {
            return false;
        }
    }
    true
}

/// How many queues of a stage lead to a module.
pub fn queues_at(k: u32, stage: u32) -> u32
    requires k { k ≤ max_k }
    requires stage { stage < k }
    ensures { result ≡ queues_at k stage }
{
    1 << (k - 1 - stage)
}

/// The line of one of these queues, by its place among them: the module's first bits come last.
pub fn line_towards(k: u32, module: u32, stage: u32, place: u32) -> u32
    requires k { k ≤ max_k }
    requires stage { stage < k }
    requires there { «module» < lines k }
    requires place { place < queues_at k stage }
    ensures line { result ≡ line_towards k «module» stage place }
    ensures within { result < lines k }
{
    (place << (stage + 1)) + (module >> (k - 1 - stage))
}

/// Whether the queue on a line of a stage is full.
#[tactic(auto, using(crate::proofs::Lines::switch_there))]
fn is_full_on(project: &Project, row: &[&MachineState], net: Net, stage: u32, line: u32) -> bool
    requires line { line < lines project.now.k }
    requires stage { stage < project.now.k }
    ensures { result ≡ is_full_on project.now net (slice_get (map (λ r. r.now) row.now)) stage line }
{
    let state = state_at(row, switch_number(project, net, stage, line / 2));
    is_full(
        project.depth(Depths::forward(net)),
        (line % 2) as usize,
        state,
    )
}

/// Whether the queue at an output of a switch is full; false where the state is no switch's.
fn is_full(depth: u32, output: usize, state: Option<&MachineState>) -> bool
    requires { output < 2 }
    ensures { result ≡ is_full depth output (option_copied state.entry) }
{
    match state {
        Some(MachineState::Low(switch)) => free(&switch.fwd[output], depth) < 2,
        Some(MachineState::Comb(switch)) => free(&switch.fwd[output], depth) < 2,
        _ => false,
    }
}

/// The component number of a switch.
fn switch_number(project: &Project, net: Net, stage: u32, index: u32) -> u32
    requires stage { stage < project.now.k }
    requires index { index < half project.now.k }
    ensures { result ≡ number_of project.now.k (Switch net stage index) }
{
    let shape = project.shape();
    let switch = Component::Switch {
        net,
        stage: stage as u8,
        index: index as u8,
    };
    shape.number(switch).unwrap()
}

fn state_at<'a>(row: &[&'a MachineState], number: u32) -> Option<&'a MachineState>
    ensures { option_copied result ≡ slice_get (map (λ r. r.now) row.now) number }
{
    row.get(number as usize).copied()
}
