//! The bench.
ghost use Rattle.std.specs.Prelude.{◌≡◌, ℕ, IfOk, IfErr, []};
ghost use Rattle.due_cells.specs.Seen.{held_at, fresh};
ghost use Rattle.cell_table.specs.Cells.{IsThere};
ghost use Rattle.machine_cells.specs.GridRules.{rp3_rules};
ghost use Rattle.bench_core.specs.Shown.{project_of, version_of, IsBench};
ghost use Rattle.bench_core.specs.Stands.{Stands, HasHistory};

mod answering;
mod asking;
mod editing;
mod looking;
mod one_order;
mod ordering;
mod reporting;
mod seeking;
mod settling;
mod wave;

use crate::Noted;
use crate::counters::Counters;
use crate::recent::Recent;
use cell_table::{Beside, Table};
use machine_cells::Rp3;
use project_book::Project;
use std::alloc::Global;
use std::marker::Model;
use whole_rows::MachineRow;

/// A project, its run as far as it was computed, the edits that were accepted, the answers that were told last, once
/// a counter or a profile was asked, the counters, and the rows by which cells are settled.
pub struct Bench {
    table: Table<Rp3>,
    counters: Counters,
    journal: Vec<Noted>,
    recent: Recent,
    rows: Beside<MachineRow>,
}

// Not derived: whoever drops a bench calls this, and proves nothing of its parts anew.
impl Drop for Bench {
    fn drop(self) {
        let Bench {
            table,
            counters,
            journal,
            recent,
            rows,
        } = self;
        drop(table);
        drop(counters);
        drop(journal);
        drop(recent);
        drop(rows);
    }
}

impl Model for Bench {
    ghost use Rattle.bench_core.specs.Shown.{Shown, IsBench, AreCounted};
    ghost use Rattle.bench_core.specs.Stands.{HasHistory};
    ghost use Rattle.bench_core.specs.Recent.{AreTold};
    ghost use Rattle.whole_rows.specs.Rows.{AreRowsOf};
    ghost use Rattle.std.specs.Prelude.{length};

    ghost Value = { Shown };

    ghost view = { λ b. record { table = b.table; journal = b.journal.items } };

    ghost invariant = { λ b. IsBench b.table b.journal.items × AreCounted b.counters b.table × HasHistory (record { table = b.table; journal = b.journal.items }) × AreTold b.table.slots (length b.journal.items) b.recent × AreRowsOf b.table.slots b.rows };
}

impl Bench {
    /// A bench at version 0, with an empty journal: all cells up to the horizon are due. The clock counts the edits and
    /// the stores that changed a state, from `clock` on. Where memory is wanting, the project comes back.
    ///
    /// # Errors
    ///
    /// Where a growth was refused: the project, as it was handed over.
    #[tactic(auto, using(crate::proofs::Standing::stands_new))]
    pub fn new(alloc: Global, project: Project, clock: u64) -> Result<Bench, Project>
        ensures project { IfOk result (λ b. project_of b ≡ project) }
        ensures clock { IfOk result (λ b. b.table.clock ≡ clock) }
        ensures journal { IfOk result (λ b. b.journal ≡ []) }
        ensures due { IfOk result (λ b. (t c : ℕ) → IsThere rp3_rules b.table t c → held_at b.table.rows t c ≡ fresh clock) }
        ensures headline_stands { IfOk result (λ b. Stands (record { project = project; clock = clock }) b []) }
        ensures err { IfErr result (λ p. p ≡ project) }
    {
        let horizon = project.horizon();
        let Ok(recent) = Recent::new(alloc) else {
            return Err(project);
        };
        match Table::new(alloc, project, horizon, clock) {
            Ok(table) => Ok(Bench {
                table,
                counters: Counters::none(),
                journal: Vec::new(alloc),
                recent,
                rows: Beside::none(),
            }),
            Err(project) => Err(project),
        }
    }

    /// The accepted edits, the oldest first, at most 65,535.
    pub fn journal(&self) -> &[Noted]
        ensures { result.now ≡ self.now.journal }
    {
        &self.journal
    }

    /// How many edits were accepted.
    pub fn version(&self) -> u32
        ensures { result ≡ version_of self.now }
    {
        let _ = &self.table;
        self.journal.len() as u32
    }

    /// The project after these edits.
    pub fn project(&self) -> &Project
        ensures { result.now ≡ project_of self.now }
    {
        self.table.slots()
    }

    /// The first clock, one more for each edit and for each store that changed a state.
    pub fn clock(&self) -> u64
        ensures { result ≡ self.now.table.clock }
    {
        self.table.clock()
    }

    /// The table ends at the project's horizon, the journal isn't overfull, and some list of events is behind the bench.
    /// This is so of every bench, and no work is done.
    pub fn is_bench(&self)
        ensures bench { IsBench self.now.table self.now.journal }
        ensures history { HasHistory self.now }
    {
        let _ = &self.table;
    }
}
