//! A project after several edits.
ghost use Rattle.std.specs.Prelude.{◌≡◌, ◌⊎◌, IfErr, IfOk, Err, Ok};
ghost use Rattle.edit_templates.specs.Edited.{after_edits};

use project_book::{Edit, EditFault, Project};

/// The project after some edits in turn.
///
/// # Errors
///
/// The fault of the first edit that is refused; Memory also where a growth was.
pub fn after_edits(project: &Project, edits: &[Edit]) -> Result<Project, EditFault>
    ensures done { IfOk result (λ P. after_edits project.now edits.now ≡ Ok P) }
    ensures refused { IfErr result (λ fault. (fault ≡ EditFault.Memory) ⊎ (after_edits project.now edits.now ≡ Err fault)) }
{
    let mut after = project.share()?;
    for edit in edits {
        after = match after.apply(*edit) {
            Ok((edited, _changed)) => edited,
            Err(fault) => return Err(fault),
        };
    }
    Ok(after)
}
