//! A run as a page for a browser.
ghost use Rattle.std.specs.Prelude.{◌≡◌, ◌≤◌, IfErr, IfOk, IsOkUnless, string_bytes};
ghost use Rattle.machine_page.specs.Pages.{page_text};
ghost use Rattle.lab_tasks.specs.MachinePages.{IsNoPage, IsPageWindow};

use crate::end::{End, Reason};
use crate::order::{OrderWords, order_window};
use experiments::Window;
use machine_page::{is_short, page_text};
use project_book::Project;
use std::alloc::Global;

/// What a file isn't where its cycles are too many.
const SHORT: &str =
    "within the 200000 states of components that a page shows; --from and --to take fewer cycles";

/// The window of cycles that the words name, which is short enough for a page.
pub(crate) fn page_window<'a>(words: &OrderWords<'a>, project: &Project) -> Result<Window, End<'a>>
    ensures told { IfOk result (IsPageWindow project.now words.now) }
    ensures refused { IfErr result (IsNoPage project.now words.now) }
    ensures forward { IfOk result (λ window. window.from ≤ window.to) }
    ensures within { IfOk result (λ window. window.to ≤ project.now.horizon) }
{
    project.is_project();
    let window = match order_window(words, project) {
        Ok(window) => window,
        Err(end) => return Err(end),
    };
    if is_short(project.shape(), window.from, window.to) {
        return Ok(window);
    }
    Err(End::Word {
        option: "FILE",
        word: words.file,
        reason: Reason::Form(SHORT),
    })
}

/// The page of a window of cycles.
pub(crate) fn page_of<'a>(
    alloc: Global,
    project: &Project,
    window: Window,
) -> Result<String, End<'a>>
    requires forward { window.from ≤ window.to }
    requires within { window.to ≤ project.now.horizon }
    ensures text { IfOk result (λ text. string_bytes text ≡ page_text project.now window.from window.to) }
    ensures memory { IsOkUnless result End.Memory }
{
    Ok(page_text(alloc, project, window.from, window.to)?)
}
