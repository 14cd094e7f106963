//! The run of a project, a cycle at a time.
ghost use Rattle.std.specs.Prelude.{◌≡◌, ◌<◌, ◌+◌, IfOk, OnOk};
ghost use Rattle.run_reports.specs.Runners.{IsAt};

use flat_row::Row;
use grid_law::NoMemory;
use project_book::Project;
use std::alloc::Global;

/// A run that has come to a cycle. It holds the states of that cycle and of no other.
#[derive(Drop)]
pub struct Runner {
    pub row: Row,
    pub cycle: u32,
}

impl Runner {
    /// The run of a project at cycle 0.
    ///
    /// # Errors
    ///
    /// Where a growth was refused. What was taken is given back.
    pub fn start(alloc: Global, project: &Project) -> Result<Runner, NoMemory>
        ensures at { IfOk result (IsAt project.now) }
        ensures first { IfOk result (λ r. r.cycle ≡ 0) }
    {
        let row = Row::start(alloc, project)?;
        Ok(Runner { row, cycle: 0 })
    }

    /// Goes on to the next cycle, which is within the horizon.
    ///
    /// # Errors
    ///
    /// Where a growth was refused. Then it is to be let go.
    pub fn step(&mut self, project: &Project) -> Result<(), NoMemory>
        requires at { IsAt project.now self.old }
        requires within { self.old.cycle < project.now.horizon }
        ensures at { OnOk result (IsAt project.now self.new) }
        ensures next { OnOk result (self.new.cycle ≡ self.old.cycle + 1) }
    {
        project.is_project();
        match self.row.step(project) {
            Ok(_) => {}
            Err(refused) => return Err(refused),
        }
        self.cycle += 1;
        Ok(())
    }
}
