//! Which queues of a run were full, and at which cycle they first were.
ghost use Rattle.std.specs.Prelude.{IfOk, IsOkUnless, string_bytes};
ghost use Rattle.lab_tasks.specs.Fullness.{IsFullText};

use crate::end::End;
use project_book::Project;
use run_reports::{first_fulls, full_text};
use std::alloc::Global;

/// The report of the queues that were full.
pub(crate) fn full_report<'a>(alloc: Global, project: &Project) -> Result<String, End<'a>>
    ensures text { IfOk result (λ text. IsFullText project.now (string_bytes text)) }
    ensures memory { IsOkUnless result End.Memory }
{
    project.is_project();
    let firsts = first_fulls(alloc, project)?;
    let (shape, last) = (project.shape(), project.horizon());
    Ok(full_text(alloc, shape, last, firsts.as_slice())?)
}
