//! The level of a cycle.
ghost use Rattle.std.specs.Prelude.{◌≡◌, ◌<◌, ◌-◌, slice_get, map};
ghost use Rattle.omega_net.specs.Numbers.{lines};
ghost use Rattle.saturation.specs.Levels.{level};
ghost use Rattle.saturation.specs.Towards.{is_full_stage};

use crate::queues::is_full_stage;
use machine_cells::MachineState;
use omega_net::Net;
use project_book::Project;

/// How many stages of a network, from the last one back, have only full queues towards a module, at the cycle of these
/// states, given by component number. A queue is full where it has fewer than two free places. From 0 to k, and 0 where
/// there is no stage.
///
/// It looks at fewer than 2^k queues, and takes no memory. The condition is that the module exists.
pub fn level(project: &Project, row: &[&MachineState], net: Net, module: u32) -> u8
    requires there { «module» < lines project.now.k }
    ensures { result ≡ level project.now net «module» (slice_get (map (λ r. r.now) row.now)) }
{
    let k = project.k();
    for level in 0..k {
        if !is_next_full(project, row, net, module, level) {
            return level as u8;
        }
    }
    k as u8
}

/// Whether the stage before the last `level` ones has only full queues towards a module.
fn is_next_full(project: &Project, row: &[&MachineState], net: Net, module: u32, level: u32) -> bool
    requires there { «module» < lines project.now.k }
    requires level { level < project.now.k }
    ensures { result ≡ is_full_stage project.now net «module» (slice_get (map (λ r. r.now) row.now)) (project.now.k - 1 - level) }
{
    let stage = project.k() - 1 - level;
    is_full_stage(project, row, net, module, stage)
}
