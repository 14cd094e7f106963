//! The key `combine`.
ghost use Rattle.std.specs.Prelude.{◌≡◌, codes, false, replicate};
ghost use Rattle.toml.specs.View.{view, table_view};
ghost use Rattle.page_map.specs.Limits.{max_k};
ghost use Rattle.project_file.specs.Fields.{optional};
ghost use Rattle.project_file.specs.Stages.{combine_in, flag_at};

use crate::fault::ProjectFault;
use crate::fields::{check, find};
use crate::items::{are_flags, array_in};
use project_book::STAGES;
use toml::{Table, Value};

/// Which stages combine; none from stage k on.
pub(crate) fn read_combine(root: &Table, k: u32) -> Result<[bool; STAGES], ProjectFault>
    ensures { result ≡ optional (codes "combine") (combine_in k) (replicate max_k false) (table_view root.now) }
{
    match find(root, "combine") {
        Some(value) => combine_in(value, k),
        None => Ok([false; STAGES]),
    }
}

#[tactic(auto, using(crate::proofs::Counts::count_view))]
fn combine_in(value: &Value, k: u32) -> Result<[bool; STAGES], ProjectFault>
    ensures { result ≡ combine_in k (view value.now) }
{
    let array = array_in(value)?;
    check(are_flags(array), ProjectFault::WrongType)?;
    check(array.len() == k as usize, ProjectFault::Range)?;
    Ok([
        flag_at(value, 0),
        flag_at(value, 1),
        flag_at(value, 2),
        flag_at(value, 3),
        flag_at(value, 4),
        flag_at(value, 5),
    ])
}

fn flag_at(value: &Value, stage: usize) -> bool
    ensures { result ≡ flag_at (view value.now) stage }
{
    match value.get(stage) {
        Some(flag) => flag.as_bool().unwrap_or(false),
        None => false,
    }
}
