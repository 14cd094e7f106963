//! How busy the stages of the networks and the modules of a run were.
ghost use Rattle.std.specs.Prelude.{◌≡◌, ◌≤◌, IfOk, IsOkUnless, string_bytes};
ghost use Rattle.machine_cells.specs.Run.{run};
ghost use Rattle.machine_cells.specs.Runs.{state_in};
ghost use Rattle.run_reports.specs.Utilisation.{busy_text};

use crate::end::End;
use project_book::Project;
use run_reports::{Window, busy_text};
use std::alloc::Global;

/// What `busy` is told.
#[derive(Clone, Copy)]
pub struct BusyWords<'a> {
    pub file: &'a str,
    pub from: Option<&'a str>,
    pub to: Option<&'a str>,
}

/// The report of how busy they were in the cycles of a window.
pub(crate) fn busy_report<'a>(
    alloc: Global,
    project: &Project,
    window: Window,
) -> Result<String, End<'a>>
    requires forward { window.from ≤ window.to }
    requires within { window.to ≤ project.now.horizon }
    ensures text { IfOk result (λ text. string_bytes text ≡ busy_text project.now.k (state_in (run project.now)) window) }
    ensures memory { IsOkUnless result End.Memory }
{
    Ok(busy_text(alloc, project, window)?)
}
