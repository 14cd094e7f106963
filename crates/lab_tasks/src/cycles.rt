//! The first and the last cycle that words give.
ghost use Rattle.std.specs.Prelude.{◌≤◌, IfErr, IfOk};
ghost use Rattle.lab_tasks.specs.Cycles.{AreCycles, AreNoCycles};
ghost use Rattle.lab_tasks.specs.Words.{text_of};

use crate::end::{End, Reason};
use crate::plan::number_at;
use project_book::Project;

/// The cycles from the one at `--from` to the one at `--to`, which are within the horizon; without words all of them.
pub(crate) fn cycles_at<'a>(
    from: Option<&'a str>,
    to: Option<&'a str>,
    project: &Project,
) -> Result<(u32, u32), End<'a>>
    ensures told { IfOk result (λ w. AreCycles project.now (text_of from.entry) (text_of to.entry) w.0 w.1) }
    ensures refused { IfErr result (AreNoCycles project.now (text_of from.entry) (text_of to.entry)) }
    ensures forward { IfOk result (λ w. w.0 ≤ w.1) }
    ensures within { IfOk result (λ w. w.1 ≤ project.now.horizon) }
{
    let horizon = project.horizon();
    let first = number_at("--from", from, 0, 0, horizon)?;
    let last = number_at("--to", to, horizon, 0, horizon)?;
    if last < first {
        return Err(End::Word {
            option: "--to",
            word: to.unwrap_or(""),
            reason: Reason::Backwards,
        });
    }
    Ok((first, last))
}
