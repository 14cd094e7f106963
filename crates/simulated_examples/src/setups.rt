//! The machines of the examples.
use project_book::{Depths, Edit, Project, read_entry};
use std::alloc::Global;
use std::test::Fail;

/// What an example says of its machine; the other settings are those of a blank project.
#[derive(Clone, Copy)]
pub(crate) struct Setup<'a> {
    pub k: u32,
    pub horizon: u32,
    pub window: u32,
    pub low_forward: u32,
    pub low_reverse: u32,
    pub comb_reverse: u32,
    pub module_queue: u32,
    pub wait: u32,
    /// Whether the switches of every stage combine.
    pub combine: bool,
    /// The pages from 0 on that stand whole in one module, each by its module.
    pub modules: &'a [u32],
    /// Word 0 at cycle 0.
    pub word: u32,
    /// The scripts from processor 0 on, each by the texts of its entries.
    pub scripts: &'a [&'a [&'a str]],
}

/// The base project. Its components are the processors 0 and 1, the modules 2 and 3, the low switch 4
/// and the combining switch 5.
pub(crate) const BASE: Setup = Setup {
    k: 1,
    horizon: 10,
    window: 1,
    low_forward: 4,
    low_reverse: 4,
    comb_reverse: 8,
    module_queue: 4,
    wait: 4,
    combine: false,
    modules: &[0, 1],
    word: 10,
    scripts: &[],
};

/// The built-in machine, whose components are the processor 0 and the module 1.
pub(crate) const BUILT_IN: Setup = Setup {
    k: 0,
    horizon: 8,
    modules: &[],
    word: 0,
    ..BASE
};

impl Setup<'_> {
    /// The project, made by edits of a blank one.
    pub(crate) fn project(&self, alloc: Global) -> Result<Project, Fail> {
        let blank = Project::new(alloc, self.k, self.horizon)?.ok_or("within the limits")?;
        self.scripted(self.combining(self.placed(self.set(blank)?)?)?)
    }

    fn set(&self, project: Project) -> Result<Project, Fail> {
        let settings = [
            Edit::Window(self.window),
            depth(Depths::LowForward, self.low_forward),
            depth(Depths::LowReverse, self.low_reverse),
            depth(Depths::CombReverse, self.comb_reverse),
            depth(Depths::ModuleQueue, self.module_queue),
            Edit::WaitDepth(self.wait),
            Edit::Word {
                address: 0,
                word: self.word,
            },
        ];
        let mut project = project;
        for edit in settings {
            project = project.apply(edit)?.0;
        }
        Ok(project)
    }

    fn placed(&self, project: Project) -> Result<Project, Fail> {
        let mut project = project;
        for (page, module) in (0..64).zip(self.modules) {
            let edit = Edit::Page {
                page,
                amount: 0,
                base: *module,
            };
            project = project.apply(edit)?.0;
        }
        Ok(project)
    }

    fn combining(&self, project: Project) -> Result<Project, Fail> {
        let mut project = project;
        for stage in 0..self.k {
            let edit = Edit::Combine {
                stage,
                on: self.combine,
            };
            project = project.apply(edit)?.0;
        }
        Ok(project)
    }

    fn scripted(&self, project: Project) -> Result<Project, Fail> {
        let mut project = project;
        for (proc, script) in (0..64).zip(self.scripts) {
            project = with_script(project, proc, script)?;
        }
        Ok(project)
    }
}

fn depth(queue: Depths, depth: u32) -> Edit {
    Edit::Depth { queue, depth }
}

fn with_script(project: Project, proc: u32, script: &[&str]) -> Result<Project, Fail> {
    let mut project = project;
    for (index, text) in (0..256).zip(script) {
        let entry = read_entry(text.as_bytes()).ok_or("an entry")?;
        let edit = Edit::Entry { proc, index, entry };
        project = project.apply(edit)?.0;
    }
    Ok(project)
}
