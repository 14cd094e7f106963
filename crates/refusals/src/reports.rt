//! Reports over a run.
use crate::again::again;
use crate::projects::project;
use run_reports::{Condition, latencies_of, latency_text, references};
use std::alloc::Global;

/// Whether both references of the run are reported, each answered or not.
pub(crate) fn reported(alloc: Global) -> bool {
    let Some(project) = project(alloc) else {
        return false;
    };
    let Some(references) = again!(references(alloc, &project)) else {
        return false;
    };
    let Some(latencies) = again!(latencies_of(alloc, &project, &Condition::ALL)) else {
        return false;
    };
    let open = references.iter().filter(|it| it.answered.is_none()).count();
    match again!(latency_text(alloc, &latencies)) {
        Some(text) => references.len() == 2
            && latencies.unanswered == open as u64
            && text.starts_with("answered"),
        None => false,
    }
}
