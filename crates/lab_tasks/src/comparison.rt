//! Two files compared.
ghost use Rattle.std.specs.Prelude.{◌≡◌, ◌<◌, ◌≤◌, ◌⊎◌, IfErr, IfOk, min, Ok, OnOk, string_bytes};
ghost use Rattle.omega_net.specs.Numbers.{lines};
ghost use Rattle.project_file.specs.Filed.{filed};
ghost use Rattle.lab_tasks.specs.Comparisons.{IsComparedText, IsComparison, IsNoComparedText, IsNoComparison, IsNoOther, IsNoPair, IsOtherSize};
ghost use Rattle.lab_tasks.specs.Plans.{IsMap};

use crate::compared_map::compared_picture;
use crate::end::{End, Reason};
use crate::outcome::Outcome;
use crate::plan::{MapPlan, map_plan};
use crate::task::{project_in, to_file_or_output};
use crate::words::CompareWords;
use project_book::Project;
use project_file::{ProjectFault, read_project};
use std::alloc::Global;

/// The project that the bytes of the file at `--compare` are.
fn other_in<'a>(alloc: Global, file: &'a str, bytes: &[u8]) -> Result<Project, End<'a>>
    ensures filed { IfOk result (λ other. filed bytes.now ≡ Ok other) }
    ensures refused { IfErr result (λ e. (e ≡ End.Memory) ⊎ IsNoOther file.entry.now bytes.now e) }
{
    match read_project(alloc, bytes) {
        Ok(project) => Ok(project),
        Err(ProjectFault::Memory) => Err(End::Memory),
        Err(fault) => Err(End::Word {
            option: "--compare",
            word: file,
            reason: Reason::NoProject(fault),
        }),
    }
}

/// Refuses a machine of another size than 2^k processors.
fn refuse_size<'a>(file: &'a str, k: u32, other: u32) -> Result<(), End<'a>>
    ensures same { OnOk result (other ≡ k) }
    ensures refused { IfErr result (IsOtherSize file.entry.now k other) }
{
    if other == k {
        return Ok(());
    }
    Err(End::Word {
        option: "--compare",
        word: file,
        reason: Reason::OtherSize(k),
    })
}

/// What is to be drawn of two projects.
fn compared_plan<'a>(
    words: &CompareWords<'a>,
    project: &Project,
    other: &Project,
) -> Result<MapPlan, End<'a>>
    ensures same { IfOk result (λ plan. other.now.k ≡ project.now.k) }
    ensures told { IfOk result (IsMap project.now.k (min project.now.horizon other.now.horizon) words.now.map) }
    ensures refused { IfErr result (IsNoPair words.now project.now other.now) }
    ensures there { IfOk result (λ plan. plan.«module» < lines project.now.k) }
    ensures window { IfOk result (λ plan. plan.window.from ≤ plan.window.to) }
    ensures within { IfOk result (λ plan. plan.window.to ≤ min project.now.horizon other.now.horizon) }
{
    refuse_size(words.other, project.k(), other.k())?;
    let horizon = project.horizon().min(other.horizon());
    let plan = map_plan(&words.map, project.shape(), horizon)?;
    Ok(plan)
}

/// The picture of a project and of the one that is compared with it.
fn compared_text<'a>(
    alloc: Global,
    words: &CompareWords<'a>,
    project: &Project,
    bytes: &[u8],
) -> Result<String, End<'a>>
    ensures drawn { IfOk result (λ text. IsComparedText words.now bytes.now project.now (string_bytes text)) }
    ensures refused { IfErr result (IsNoComparedText words.now bytes.now project.now) }
{
    let other = other_in(alloc, words.other, bytes)?;
    let plan = compared_plan(words, project, &other)?;
    let files = (words.map.file, words.other);
    let text = compared_picture(alloc, files, project, &other, plan)?;
    Ok(text)
}

/// Compares the runs of two files, whose bytes these are.
///
/// # Errors
///
/// The first project that is refused, a second one that is, at `--compare`, or is of a machine of another size; a word that is
/// refused, or a growth.
#[tactic(auto, using(crate::proofs::Stops::not_made))]
pub fn compare<'a>(
    alloc: Global,
    words: &CompareWords<'a>,
    bytes: &[u8],
    other: &[u8],
) -> Result<Outcome, End<'a>>
    ensures done { IfOk result (IsComparison words.now bytes.now other.now) }
    ensures refused { IfErr result (IsNoComparison words.now bytes.now other.now) }
{
    let project = project_in(alloc, bytes)?;
    let text = compared_text(alloc, words, &project, other)?;
    let outcome = to_file_or_output(alloc, words.map.out, text.into_bytes())?;
    Ok(outcome)
}
