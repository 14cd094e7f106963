//! When each processor of a run had its last reply and came to the end of its script.
ghost use Rattle.std.specs.Prelude.{IfOk, IsOkUnless, string_bytes};
ghost use Rattle.lab_tasks.specs.Completions.{IsCompletionText};

use crate::end::End;
use project_book::Project;
use run_reports::{completion_text, completions};
use std::alloc::Global;

/// The report of the completions of all processors.
pub(crate) fn completion_report<'a>(alloc: Global, project: &Project) -> Result<String, End<'a>>
    ensures text { IfOk result (λ text. IsCompletionText project.now (string_bytes text)) }
    ensures memory { IsOkUnless result End.Memory }
{
    let completions = completions(alloc, project)?;
    Ok(completion_text(alloc, completions.as_slice())?)
}
