//! The key `depths`.
ghost use Rattle.std.specs.Prelude.{◌≡◌, codes, ◌≤◌, true, IfOk};
ghost use Rattle.toml.specs.View.{view, table_view};
ghost use Rattle.project_book.specs.declared.edit.Depths.{Depths};
ghost use Rattle.project_book.specs.Queues.{is_depth, is_wait, depth_in, least_depth, usual_depths, usual_wait};
ghost use Rattle.project_book.specs.Limits.{max_depth};
ghost use Rattle.project_file.specs.Fields.{optional};
ghost use Rattle.project_file.specs.Depths.{depth_at, depths_of, depths_in};

use crate::fault::ProjectFault;
use crate::fields::{find, number_or, refuse_others};
use crate::items::table_in;
use project_book::{Depths, MAX_DEPTH, MIN_WAIT, QueueDepths, USUAL_WAIT};
use toml::{Table, Value};

pub(crate) const KEYS: [&str; 6] = [
    "low_forward",
    "low_reverse",
    "comb_forward",
    "comb_reverse",
    "module",
    "wait",
];

/// How many places queues have, and wait buffers.
pub(crate) type AllDepths = (QueueDepths, u32);

/// The depths of a project's root.
pub(crate) fn read_depths(root: &Table) -> Result<AllDepths, ProjectFault>
    ensures depths { result ≡ optional (codes "depths") depths_in (usual_depths, usual_wait) (table_view root.now) }
    ensures queues { IfOk result (λ d. (q : Depths) → is_depth q (depth_in d.0 q) ≡ true) }
    ensures wait { IfOk result (λ d. is_wait d.1 ≡ true) }
{
    match find(root, "depths") {
        Some(value) => depths_in(value),
        None => Ok((QueueDepths::USUAL, USUAL_WAIT)),
    }
}

fn depths_in(value: &Value) -> Result<AllDepths, ProjectFault>
    ensures depths { result ≡ depths_in (view value.now) }
    ensures queues { IfOk result (λ d. (q : Depths) → is_depth q (depth_in d.0 q) ≡ true) }
    ensures wait { IfOk result (λ d. is_wait d.1 ≡ true) }
{
    let table = table_in(value)?;
    refuse_others(table, &KEYS)?;
    depths_of(table)
}

fn depths_of(table: &Table) -> Result<AllDepths, ProjectFault>
    ensures depths { result ≡ depths_of (table_view table.now) }
    ensures queues { IfOk result (λ d. (q : Depths) → is_depth q (depth_in d.0 q) ≡ true) }
    ensures wait { IfOk result (λ d. is_wait d.1 ≡ true) }
{
    let usual = QueueDepths::USUAL;
    let low_forward = depth_at(table, "low_forward", Depths::LowForward, usual.low_forward)?;
    let low_reverse = depth_at(table, "low_reverse", Depths::LowReverse, usual.low_reverse)?;
    let comb_forward = depth_at(
        table,
        "comb_forward",
        Depths::CombForward,
        usual.comb_forward,
    )?;
    let comb_reverse = depth_at(
        table,
        "comb_reverse",
        Depths::CombReverse,
        usual.comb_reverse,
    )?;
    let module_queue = depth_at(table, "module", Depths::ModuleQueue, usual.module_queue)?;
    let wait = number_or(table, "wait", MIN_WAIT, MAX_DEPTH, USUAL_WAIT)?;
    let queues = QueueDepths {
        low_forward,
        low_reverse,
        comb_forward,
        comb_reverse,
        module_queue,
    };
    Ok((queues, wait))
}

fn depth_at(table: &Table, key: &str, queue: Depths, absent: u32) -> Result<u32, ProjectFault>
    requires low { least_depth queue ≤ absent }
    requires high { absent ≤ max_depth }
    ensures depth { result ≡ depth_at key.now queue absent (table_view table.now) }
    ensures within { IfOk result (λ d. is_depth queue d ≡ true) }
{
    number_or(table, key, queue.least(), MAX_DEPTH, absent)
}
