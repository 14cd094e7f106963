//! The edits that take an edit back.
ghost use Rattle.std.specs.Prelude.{◌≡◌, ℕ, ◌+◌, ◌≤◌, ◌∷◌, [], OnOk, IfOk, IfSome, Ok, drop, length, slice_get};
ghost use Rattle.project_book.specs.Limits.{max_edits, script_entries};
ghost use Rattle.project_book.specs.Scripts.{script_of, IsEntry};
ghost use Rattle.project_book.specs.Project.{entry_at, length_at, page_of};
ghost use Rattle.project_book.specs.Edits.{accepts, edited};
ghost use Rattle.edit_undo.specs.Undoing.{cut_back, entry_back, entries_back, undoing, LeadsTo};

use project_book::{Edit, Project};
use std::alloc::{AllocError, Global};

/// What makes an entry of a script what it is.
fn entry_back(project: &Project, proc: u32, index: u32) -> Edit
    ensures edit { result ≡ entry_back proc index (entry_at project.now proc index) }
    ensures within { IfSome (entry_at project.now proc index) IsEntry }
    ensures few { length_at project.now proc ≤ script_entries }
{
    let _length = project.length(proc);
    match project.entry(proc, index) {
        Some(entry) => Edit::Entry { proc, index, entry },
        None => Edit::Cut {
            proc,
            length: index,
        },
    }
}

/// What puts the entries of a script from an index on behind it.
fn entries_back(
    alloc: Global,
    project: &Project,
    proc: u32,
    from: u32,
) -> Result<Vec<Edit>, AllocError>
    ensures edits { IfOk result (λ v. v.items ≡ entries_back proc from (drop from (script_of project.now.scripts proc))) }
    ensures within { OnOk result ((i : ℕ) → from ≤ i → IfSome (entry_at project.now proc i) IsEntry) }
    ensures few { OnOk result (length_at project.now proc ≤ script_entries) }
{
    project.is_project();
    let mut edits = Vec::new(alloc);
    for index in from..project.length(proc) {
        let Some(entry) = project.entry(proc, index) else {
            unreachable!()
        };
        edits.push(Edit::Entry { proc, index, entry })?;
    }
    Ok(edits)
}

/// What puts back the entries that a cut removes.
fn cut_back(
    alloc: Global,
    project: &Project,
    proc: u32,
    length: u32,
) -> Result<Vec<Edit>, AllocError>
    ensures edits { IfOk result (λ v. v.items ≡ cut_back proc length (drop length (script_of project.now.scripts proc))) }
    ensures within { OnOk result ((i : ℕ) → length ≤ i → IfSome (entry_at project.now proc i) IsEntry) }
    ensures few { OnOk result (length_at project.now proc ≤ script_entries) }
{
    if length >= project.length(proc) {
        one(alloc, Edit::Cut { proc, length })
    } else {
        entries_back(alloc, project, proc, length)
    }
}

/// One edit.
fn one(alloc: Global, edit: Edit) -> Result<Vec<Edit>, AllocError>
    ensures { IfOk result (λ v. v.items ≡ edit ∷ []) }
{
    let mut edits = Vec::new(alloc);
    edits.push(edit)?;
    Ok(edits)
}

/// How a page is spread.
fn page_back(project: &Project, page: u32) -> Edit
    ensures { result ≡ Edit.Page page (page_of project.now page).amount (page_of project.now page).base }
{
    let (amount, base) = project.pages().page(page).unwrap_or((0, 0));
    Edit::Page { page, amount, base }
}

/// The edits that take an edit back, by the project before it: one, or for a cut one for each entry that it removes.
///
/// # Errors
///
/// Where a growth was refused.
pub fn undoing(alloc: Global, project: &Project, edit: Edit) -> Result<Vec<Edit>, AllocError>
    ensures edits { IfOk result (λ v. v.items ≡ undoing project.now edit) }
    ensures back { accepts project.now 0 edit ≡ Ok tt → OnOk result ((v : ℕ) → v + length (undoing project.now edit) ≤ max_edits
        → LeadsTo (edited project.now edit) v (undoing project.now edit) project.now) }
{
    project.is_project();
    match edit {
        Edit::Entry { proc, index, .. } => one(alloc, entry_back(project, proc, index)),
        Edit::Cut { proc, length } => cut_back(alloc, project, proc, length),
        Edit::Word { address, .. } => {
            let word = project.word(address);
            let _words = project.words();
            one(alloc, Edit::Word { address, word })
        }
        Edit::Page { page, .. } => one(alloc, page_back(project, page)),
        Edit::Depth { queue, .. } => {
            let depth = project.depth(queue);
            one(alloc, Edit::Depth { queue, depth })
        }
        Edit::WaitDepth(_) => one(alloc, Edit::WaitDepth(project.wait())),
        Edit::Combine { stage, .. } => {
            let on = project.combine(stage);
            one(alloc, Edit::Combine { stage, on })
        }
        Edit::Window(_) => one(alloc, Edit::Window(project.window())),
        Edit::Horizon(_) => one(alloc, Edit::Horizon(project.horizon())),
    }
}
