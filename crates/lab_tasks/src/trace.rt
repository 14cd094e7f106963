//! Where a reference of a run was at each cycle.
ghost use Rattle.std.specs.Prelude.{IfErr, IfOk, IsOkUnless, string_bytes};
ghost use Rattle.machine_cells.specs.Run.{run};
ghost use Rattle.machine_cells.specs.Runs.{state_in};
ghost use Rattle.run_reports.specs.Traces.{trace};
ghost use Rattle.lab_tasks.specs.Traces.{IsLineOrPicture, IsNoTag, IsTag};
ghost use Rattle.lab_tasks.specs.Words.{text_of};

use crate::end::End;
use crate::plan::number_at;
use omega_net::Tag;
use project_book::Project;
use report_pictures::trace_picture;
use run_reports::{trace, trace_text};
use std::alloc::Global;

/// What `trace` is told.
#[derive(Clone, Copy)]
pub struct TraceWords<'a> {
    pub file: &'a str,
    pub processor: Option<&'a str>,
    pub number: Option<&'a str>,
    pub out: Option<&'a str>,
}

/// The reference that the words name: a processor, and one of the references that it can issue up to the horizon.
pub(crate) fn traced<'a>(words: &TraceWords<'a>, project: &Project) -> Result<Tag, End<'a>>
    ensures told { IfOk result (IsTag project.now words.now) }
    ensures refused { IfErr result (IsNoTag project.now words.now) }
{
    let last = project.shape().lines().saturating_sub(1);
    let proc = number_at("P", words.processor, 0, 0, last)?;
    let issue = number_at("I", words.number, 0, 0, project.horizon())?;
    Ok(Tag {
        proc: proc as u8,
        issue,
    })
}

/// The trace of a reference: a picture where a file is named for it, else a line.
pub(crate) fn trace_made<'a>(
    alloc: Global,
    words: &TraceWords<'a>,
    project: &Project,
    tag: Tag,
) -> Result<String, End<'a>>
    ensures text { IfOk result (λ text. IsLineOrPicture (text_of words.now.out) project.now.k words.now.file.now tag (trace project.now (state_in (run project.now)) tag) (string_bytes text)) }
    ensures memory { IsOkUnless result End.Memory }
{
    let spans = trace(alloc, project, tag)?;
    let shape = project.shape();
    match words.out {
        Some(_) => Ok(trace_picture(alloc, shape, words.file, tag, spans.as_slice())?),
        None => Ok(trace_text(alloc, shape, tag, spans.as_slice())?),
    }
}
