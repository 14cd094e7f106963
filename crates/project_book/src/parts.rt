//! A project made of its parts at once, as a reader of files has them.
ghost use Rattle.std.specs.Prelude.{◌≡◌, IfOk};
ghost use Rattle.project_book.specs.Project.{IsProject};
ghost use Rattle.project_book.specs.Parts.{project_of};

use crate::depths::QueueDepths;
use crate::limits::STAGES;
use crate::project::Project;
use crate::scale::Scale;
use crate::scripts::Scripts;
use crate::words::FirstWords;
use grid_law::NoMemory;
use page_map::PageMap;
use std::alloc::Global;
use std::sync::Arc;

/// What a project says, part by part.
#[derive(Drop)]
pub struct Parts {
    pub scale: Scale,
    pub k: u32,
    pub horizon: u32,
    pub window: u32,
    pub depths: QueueDepths,
    pub wait: u32,
    /// Whether the switches of a stage combine; what stands from stage k on is never read.
    pub combine: [bool; STAGES],
    pub pages: PageMap,
    pub words: FirstWords,
    pub scripts: Scripts,
}

impl Project {
    /// The project of these parts: in place of one edit for each word and entry, which would each
    /// copy what stands already. Takes two owners, and no other memory.
    ///
    /// # Errors
    ///
    /// Where an owner was refused. The parts are dropped.
    pub fn from_parts(alloc: Global, parts: Parts) -> Result<Project, NoMemory>
        requires { IsProject (project_of parts) }
        ensures { IfOk result (λ p. p ≡ project_of parts) }
    {
        let combine = parts.combine;
        let words = Arc::new(alloc, parts.words)?;
        let scripts = Arc::new(alloc, parts.scripts)?;
        Ok(Project {
            scale: parts.scale,
            k: parts.k,
            horizon: parts.horizon,
            window: parts.window,
            depths: parts.depths,
            wait: parts.wait,
            combine,
            pages: parts.pages,
            words,
            scripts,
            alloc,
        })
    }
}
