//! A project is set up by edits before a sweep.
ghost use Rattle.std.specs.Prelude.{◌≡◌, IfErr, IfOk, Some, Ok, map};
ghost use Rattle.lab_tasks.specs.SetUps.{after_line, IsNoSetUp, IsSetUp, RefusesSetUp};
ghost use Rattle.lab_tasks.specs.SweepTables.{OrMemory};

use crate::end::{End, Reason};
use commands::Command;
use edit_templates::after_edits;
use project_book::{EditFault, Project};

/// The project after the edit of a word.
fn set_up_by<'a>(project: &Project, word: &'a str) -> Result<Project, End<'a>>
    ensures done { IfOk result (λ next. after_line project.now word.entry.now ≡ Some (Ok next)) }
    ensures refused { IfErr result (OrMemory (RefusesSetUp word.entry.now (after_line project.now word.entry.now))) }
{
    let refused = |reason: Reason| End::Word {
        option: "--setup",
        word,
        reason,
    };
    let Some(Command::Edit(edit)) = Command::parse(project.shape(), word.as_bytes()) else {
        return Err(refused(Reason::Form("an edit, as 'horizon 500'")));
    };
    match after_edits(project, [edit].as_slice()) {
        Ok(next) => Ok(next),
        Err(EditFault::Memory) => Err(End::Memory),
        Err(fault) => Err(refused(Reason::RefusedEdit(fault.number()))),
    }
}

/// The project after the edits of some words, in turn.
pub(crate) fn set_up<'a>(project: Project, words: &[&'a str]) -> Result<Project, End<'a>>
    ensures done { IfOk result (IsSetUp project (map (λ word. word.now) words.entry.now)) }
    ensures refused { IfErr result (OrMemory (IsNoSetUp project (map (λ word. word.now) words.entry.now))) }
{
    let Some((word, others)) = words.split_first() else {
        return Ok(project);
    };
    let next = match set_up_by(&project, word) {
        Ok(next) => next,
        Err(end) => return Err(end),
    };
    set_up(next, others)
}
