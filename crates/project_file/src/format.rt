//! The key `format`.
ghost use Rattle.std.specs.Prelude.{◌≡◌, ◌≤◌};
ghost use Rattle.toml.specs.View.{table_view};
ghost use Rattle.page_map.specs.Limits.{max_k};
ghost use Rattle.project_book.specs.Limits.{max_horizon};
ghost use Rattle.project_file.specs.Formats.{format_in, most_k, most_horizon, scale_of, format_of, has_entry, has_short_forms};

use crate::fault::ProjectFault;
use crate::fields::number_at;
use page_map::MAX_K;
use project_book::{MAX_HORIZON, Scale, ScriptEntry, USUAL_HORIZON};
use toml::Table;

/// The greatest k of a file of format 1.
pub(crate) const FIRST_MAX_K: u32 = 5;

/// The greatest horizon of a file of format 1.
pub(crate) const FIRST_MAX_HORIZON: u32 = 1_000;

/// The formats of project files, by the number that stands at their key `format`.
#[derive(Clone, Copy, PartialEq, Eq, Debug)]
pub enum FileFormat {
    /// 1: k up to 5, horizons up to 1,000, and no entry that waits for a word.
    First,
    /// 2: whatever a project of the usual scale may be.
    Second,
    /// 3: a large project, whose scripts may be written in short forms.
    Third,
}

impl FileFormat {
    /// The greatest k that a file may name.
    pub(crate) fn most_k(self) -> u32
        ensures value { result ≡ most_k self }
        ensures within { result ≤ max_k }
    {
        match self {
            FileFormat::First => FIRST_MAX_K,
            FileFormat::Second | FileFormat::Third => MAX_K,
        }
    }

    /// The greatest horizon that a file may name.
    pub(crate) fn most_horizon(self) -> u32
        ensures value { result ≡ most_horizon self }
        ensures within { result ≤ max_horizon }
    {
        match self {
            FileFormat::First => FIRST_MAX_HORIZON,
            FileFormat::Second => USUAL_HORIZON,
            FileFormat::Third => MAX_HORIZON,
        }
    }

    /// The scale of its projects.
    pub(crate) fn scale(self) -> Scale
        ensures { result ≡ scale_of self }
    {
        match self {
            FileFormat::First | FileFormat::Second => Scale::Usual,
            FileFormat::Third => Scale::Large,
        }
    }

    /// Whether a file may have this entry.
    pub(crate) fn has_entry(self, entry: ScriptEntry) -> bool
        ensures { result ≡ has_entry self entry }
    {
        match (self, entry) {
            (FileFormat::First, ScriptEntry::Until { .. }) => false,
            _ => true,
        }
    }

    /// Whether scripts may be written in short forms.
    pub(crate) fn has_short_forms(self) -> bool
        ensures { result ≡ has_short_forms self }
    {
        match self {
            FileFormat::First | FileFormat::Second => false,
            FileFormat::Third => true,
        }
    }
}

/// The number of the format in which a project of a scale is written: 2, or 3 for large ones.
pub fn format_of(scale: Scale) -> u32
    ensures { result ≡ format_of scale }
{
    match scale {
        Scale::Usual => 2,
        Scale::Large => 3,
    }
}

/// The format of a project's root.
pub(crate) fn read_format(root: &Table) -> Result<FileFormat, ProjectFault>
    ensures { result ≡ format_in (table_view root.now) }
{
    match number_at(root, "format", 1, 3) {
        Ok(1) => Ok(FileFormat::First),
        Ok(2) => Ok(FileFormat::Second),
        Ok(_) => Ok(FileFormat::Third),
        Err(_) => Err(ProjectFault::Format),
    }
}
