//! A whole project file.
ghost use Rattle.std.specs.Prelude.{◌≡◌, codes, ◌≤◌, map};
ghost use Rattle.toml.specs.View.{table_view};
ghost use Rattle.page_map.specs.Limits.{max_k};
ghost use Rattle.project_file.specs.Fields.{Gives};
ghost use Rattle.project_file.specs.Filed.{filed, document_of, document_project, long_project, root_keys, sized_project};
ghost use Rattle.project_file.specs.Formats.{format_in, is_third, most_horizon};

use crate::depths::read_depths;
use crate::fault::ProjectFault;
use crate::fields::{check, number_at, number_or, refuse_others};
use crate::format::{FileFormat, read_format};
use crate::pages::read_pages;
use crate::scripts::read_scripts;
use crate::stages::read_combine;
use crate::traffic::with_traffic;
use crate::words::read_words;
use project_book::{MAX_WINDOW, Parts, Project};
use std::alloc::Global;
use toml::{Table, table_from_str};

/// How many bytes a project file may have.
pub const MAX_BYTES: usize = 67_108_864;

/// How many bytes a project file may have that isn't of format 3.
pub(crate) const USUAL_BYTES: usize = 4_194_304;

/// The keys of a project's root.
const KEYS: [&str; 10] = [
    "format", "k", "horizon", "window", "combine", "depths", "page", "word", "script", "traffic",
];

/// Those of a format without short forms.
const USUAL_KEYS: [&str; 9] = [
    "format", "k", "horizon", "window", "combine", "depths", "page", "word", "script",
];

/// The project that the bytes of a file are.
///
/// Takes the memory of the document, of the project, and of 16,384 words. Each byte is looked at a
/// fixed number of times, and each key is looked up in its own table.
///
/// # Errors
///
/// The first fault in the order of [`ProjectFault`]; Memory at the growth that was refused.
pub fn read_project(alloc: Global, bytes: &[u8]) -> Result<Project, ProjectFault>
    ensures { Gives (λ p. p) result (filed bytes.now) }
{
    if bytes.len() > MAX_BYTES {
        return Err(ProjectFault::TooLong);
    }
    if bytes.len() > USUAL_BYTES {
        return long_project(alloc, bytes);
    }
    let root = read_document(alloc, bytes)?;
    document_project(alloc, &root)
}

/// That of a long file, which is of format 3.
fn long_project(alloc: Global, bytes: &[u8]) -> Result<Project, ProjectFault>
    ensures { Gives (λ p. p) result (long_project (document_of bytes.now)) }
{
    match read_document(alloc, bytes) {
        Ok(root) => {
            check(is_third(&root), ProjectFault::TooLong)?;
            document_project(alloc, &root)
        }
        Err(ProjectFault::Memory) => Err(ProjectFault::Memory),
        Err(_) => Err(ProjectFault::TooLong),
    }
}

/// Whether a document is of format 3.
pub(crate) fn is_third(root: &Table) -> bool
    ensures { result ≡ is_third (format_in (table_view root.now)) }
{
    matches!(read_format(root), Ok(FileFormat::Third))
}

#[tactic(auto, using(crate::proofs::Documents::document_read, crate::proofs::Documents::document_refused, crate::proofs::Documents::text_refused))]
pub(crate) fn read_document(alloc: Global, bytes: &[u8]) -> Result<Table, ProjectFault>
    ensures { Gives (λ t. table_view t) result (document_of bytes.now) }
{
    match std::str::from_utf8(bytes) {
        Ok(text) => match table_from_str(alloc, text) {
            Ok(root) => Ok(root),
            Err(error) if error.is_memory() => Err(ProjectFault::Memory),
            Err(_) => Err(ProjectFault::Text),
        },
        Err(_) => Err(ProjectFault::Text),
    }
}

/// The keys that a project's root may have in a format.
pub(crate) fn keys_of(format: FileFormat) -> &'static [&'static str]
    ensures { map (λ k. k.now) result.now ≡ root_keys format }
{
    if format.has_short_forms() {
        &KEYS
    } else {
        &USUAL_KEYS
    }
}

fn document_project(alloc: Global, root: &Table) -> Result<Project, ProjectFault>
    ensures { Gives (λ p. p) result (document_project (table_view root.now)) }
{
    let format = read_format(root)?;
    refuse_others(root, keys_of(format))?;
    let k = number_at(root, "k", 0, format.most_k())?;
    let horizon = number_at(root, "horizon", 0, format.most_horizon())?;
    sized_project(alloc, root, format, k, horizon)
}

fn sized_project(
    alloc: Global,
    root: &Table,
    format: FileFormat,
    k: u32,
    horizon: u32,
) -> Result<Project, ProjectFault>
    requires small { k ≤ max_k }
    requires short { horizon ≤ most_horizon format }
    ensures { Gives (λ p. p) result (sized_project format k horizon (table_view root.now)) }
{
    let window = number_or(root, "window", 1, MAX_WINDOW, 1)?;
    let combine = read_combine(root, k)?;
    let (depths, wait) = read_depths(root)?;
    let pages = read_pages(root, k)?;
    let words = read_words(alloc, root)?;
    let given = read_scripts(alloc, root, format, k)?;
    let given = with_traffic(alloc, root, given, format, k)?;
    let parts = Parts {
        scale: format.scale(),
        k,
        horizon,
        window,
        depths,
        wait,
        combine,
        pages,
        words,
        scripts: given.scripts,
    };
    Ok(Project::from_parts(alloc, parts)?)
}
