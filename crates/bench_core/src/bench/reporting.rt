//! Counters and reports.
ghost use Rattle.std.specs.Prelude.{◌≡◌, ◌<◌, ◌≤◌, IfOk, map, Some, slice_get};
ghost use Rattle.std.specs.Arc.{arc_value};
ghost use Rattle.std.specs.Option.{ForSome};
ghost use Rattle.omega_net.specs.Numbers.{lines, components};
ghost use Rattle.machine_cells.specs.Run.{run};
ghost use Rattle.machine_cells.specs.Runs.{state_in};
ghost use Rattle.monitor_sums.specs.Sums.{sum_of, profile_of};
ghost use Rattle.run_queries.specs.declared.query.Query.TheVariants.{Tree as TreeOf, Level as LevelOf};
ghost use Rattle.bench_core.specs.Shown.{project_of};
ghost use Rattle.bench_core.specs.Asks.{TellsRun, HoldsRunTo};

use super::Bench;
use crate::Asked;
use crate::lent::{lend, lend_all};
use cell_table::Cell;
use grid_law::{Grid, NoMemory};
use machine_cells::{MachineState, Rp3};
use monitor_sums::Counter;
use omega_net::Net;
use run_queries::Body;
use saturation::{level, tree};
use std::sync::Arc;
use std::thread::Threads;

impl Bench {
    /// The total of a counter over a window of cycles: looked up where the window is the whole run, else added up. The
    /// first that is asked counts all cells.
    pub(super) fn counted(
        &mut self,
        counter: Counter,
        who: Option<u32>,
        from: u32,
        to: u32,
    ) -> Result<u64, NoMemory>
        requires who { ForSome who (λ c. c < components (project_of self.old).k) }
        requires window { from ≤ to }
        requires within { to ≤ (project_of self.old).horizon }
        requires there { HoldsRunTo self.old to }
        ensures total { IfOk result (λ n. n ≡ sum_of (project_of self.old).k counter (state_in (run (project_of self.old))) who from to) }
        ensures unchanged { self.new ≡ self.old }
    {
        let horizon = self.project().horizon();
        let alloc = *self.journal.allocator();
        self.counters.count(alloc, &self.table)?;
        let sums = self.counters.sums();
        if from == 0 && to == horizon {
            return Ok(sums.total(counter, who));
        }
        Ok(sums.sum(counter, who, from, to))
    }

    /// The profile of a stage, looked up. The first that is asked counts all cells.
    pub(super) fn profile(&mut self, net: Net, stage: u32) -> Result<[u64; 17], NoMemory>
        requires stage { stage < (project_of self.old).k }
        requires there { HoldsRunTo self.old (project_of self.old).horizon }
        ensures profile { IfOk result (λ ns. ns ≡ profile_of (project_of self.old).k (state_in (run (project_of self.old))) net stage (project_of self.old).horizon) }
        ensures unchanged { self.new ≡ self.old }
    {
        let alloc = *self.journal.allocator();
        self.counters.count(alloc, &self.table)?;
        Ok(self.counters.sums().profile(net, stage))
    }

    /// Shares of the states of a cycle, by component.
    fn row(&self, cycle: u32) -> Result<Vec<Arc<MachineState>>, NoMemory>
        requires within { cycle ≤ (project_of self.now).horizon }
        requires there { HoldsRunTo self.now cycle }
        ensures { IfOk result (λ row. slice_get (run (project_of self.now)) cycle ≡ Some (map arc_value row.items)) }
    {
        let mut row = Vec::new(*self.journal.allocator());
        for component in 0..Rp3::components(self.project()) {
            match self.table.shared(Cell { cycle, component })? {
                Some(state) => row.push(state)?,
                None => unreachable!(),
            }
        }
        Ok(row)
    }

    /// Shares of the states of each cycle, by component.
    fn rows(&self) -> Result<Vec<Vec<Arc<MachineState>>>, NoMemory>
        requires { HoldsRunTo self.now (project_of self.now).horizon }
        ensures { IfOk result (λ rows. map (λ row. map arc_value row.items) rows.items ≡ run (project_of self.now)) }
    {
        let mut rows = Vec::new(*self.journal.allocator());
        for cycle in 0..self.project().horizon() + 1 {
            rows.push(self.row(cycle)?)?;
        }
        Ok(rows)
    }

    pub(super) fn level(&self, net: Net, module: u32, cycle: u32) -> Asked
        requires there_is { «module» < lines (project_of self.now).k }
        requires within { cycle ≤ (project_of self.now).horizon }
        requires there { HoldsRunTo self.now cycle }
        ensures { TellsRun self.now (LevelOf net «module» cycle) result }
    {
        let row = match self.row(cycle) {
            Ok(row) => row,
            Err(NoMemory) => return Asked::Memory,
        };
        match lend(*self.journal.allocator(), row.as_slice()) {
            Ok(lent) => {
                let level = level(self.project(), lent.as_slice(), net, module);
                self.answered(Body::Level(level))
            }
            Err(NoMemory) => Asked::Memory,
        }
    }

    pub(super) fn tree<R: Threads + Sync>(&self, rt: &R, net: Net, module: u32) -> Asked
        requires there_is { «module» < lines (project_of self.now).k }
        requires there { HoldsRunTo self.now (project_of self.now).horizon }
        ensures { TellsRun self.now (TreeOf net «module») result }
    {
        let rows = match self.rows() {
            Ok(rows) => rows,
            Err(NoMemory) => return Asked::Memory,
        };
        let alloc = *self.journal.allocator();
        let lent = match lend_all(alloc, rows.as_slice()) {
            Ok(lent) => lent,
            Err(NoMemory) => return Asked::Memory,
        };
        match tree(rt, alloc, self.project(), lent.as_slice(), net, module) {
            Ok(tree) => self.answered(Body::Tree(tree)),
            Err(NoMemory) => Asked::Memory,
        }
    }
}
