//! Editing the project.
ghost use Rattle.std.specs.Prelude.{◌≡◌, ◌↔◌, ℕ, ◌+◌, ◌-◌, ◌^◌, ◌<◌, IfOk, OnOk, OnErr, IsOkUnless, List, ◌∷◌, ◌++◌, [], Ok, Err};
ghost use Rattle.cell_table.specs.Cells.{IsThere};
ghost use Rattle.cell_table.specs.Cost.{CostsAnEdit};
ghost use Rattle.cell_table.specs.Settling.{IsSettled};
ghost use Rattle.machine_cells.specs.GridRules.{rp3_rules};
ghost use Rattle.project_book.specs.Limits.{max_edits};
ghost use Rattle.project_book.specs.declared.slot.Slot.{Slot as TouchedSlot};
ghost use Rattle.project_book.specs.Edits.{edited, new_horizon};
ghost use Rattle.project_book.specs.Slots.{Touches};
ghost use Rattle.bench_core.specs.Shown.{project_of, version_of};
ghost use Rattle.bench_core.specs.Edits.{admits, IsAfterEdit};
ghost use Rattle.bench_core.specs.Events.{Event, Edited, Opening};
ghost use Rattle.bench_core.specs.Stands.{Stands};
ghost use Rattle.bench_core.specs.Answers.{Costs};

use super::Bench;
use crate::Noted;
use grid_law::Changed;
use project_book::{Edit, EditFault, MAX_EDITS, Project, Slot};

impl Bench {
    /// Why no edit is accepted while the clock is at its last value.
    #[tactic(auto, using(crate::proofs::Admitting::admits_fault, crate::proofs::Admitting::admits_last))]
    fn refusal(&self, edit: Edit) -> EditFault
        requires room { version_of self.now < max_edits }
        requires last { self.now.table.clock ≡ 2 ^ 64 - 1 }
        ensures { admits self.now edit ≡ Err result }
    {
        match self.project().check(edit) {
            Ok(()) => EditFault::ClockSpent,
            Err(fault) => fault,
        }
    }

    /// What an edit makes of the project. It is judged once.
    #[tactic(auto, using(crate::proofs::Admitting::admits_full, crate::proofs::Admitting::admits_earlier))]
    fn edited(&self, edit: Edit) -> Result<(Project, Changed<Slot>), EditFault>
        ensures refused { (fault : EditFault) → admits self.now edit ≡ Err fault → result ≡ Err fault }
        ensures accepted { admits self.now edit ≡ Ok tt → IsOkUnless result EditFault.Memory }
        ensures admitted { OnOk result (admits self.now edit ≡ Ok tt) }
        ensures edited { IfOk result (λ made. made.0 ≡ edited (project_of self.now) edit) }
        ensures slots { IfOk result (λ made. Touches (project_of self.now) made.0 made.1.slots.items) }
        ensures horizon { IfOk result (λ made. made.1.horizon ≡ new_horizon (project_of self.now) made.0) }
    {
        if self.version() >= MAX_EDITS {
            return Err(EditFault::JournalFull);
        }
        if self.clock() == u64::MAX {
            return Err(self.refusal(edit));
        }
        self.project().apply(edit)
    }

    /// Makes an edit, in the author's name: the new version, which is the number of accepted edits. The cells that read
    /// a slot that got another value, and those that are new, become due. The clock rises by one. Where no cell was due,
    /// the cells that are computed to settle the bench again are those past the earlier horizon, those that read in the
    /// run a slot that got another value, and those with a near cell one cycle earlier that differs between the two runs.
    ///
    /// Costs what `Project::apply` does, and asks the cells that stay of each component that may read a slot that got
    /// another value.
    ///
    /// # Errors
    ///
    /// The first that applies: JournalFull where 65,535 edits are held, then those of the project in their order, then
    /// ClockSpent exactly where the clock is at its last value; Memory only where none of them does. Then nothing is
    /// changed.
    #[tactic(auto, using(crate::proofs::Touching::differ, crate::proofs::Admitting::admitted_room, crate::proofs::Admitting::admitted_clock))]
    pub fn edit(&mut self, author: u32, edit: Edit) -> Result<u32, EditFault>
        ensures refused { (fault : EditFault) → admits self.old edit ≡ Err fault → result ≡ Err fault }
        ensures accepted { admits self.old edit ≡ Ok tt → IsOkUnless result EditFault.Memory }
        ensures admitted { OnOk result (admits self.old edit ≡ Ok tt) }
        ensures version { IfOk result (λ v. v ≡ version_of self.old + 1) }
        ensures journal { OnOk result (self.new.journal ≡ self.old.journal ++ record { author = author; edit = edit } ∷ []) }
        ensures project { OnOk result (project_of self.new ≡ edited (project_of self.old) edit) }
        ensures clock { OnOk result (self.new.table.clock ≡ self.old.table.clock + 1) }
        ensures ok { OnOk result (IsAfterEdit self.old self.new author edit) }
        ensures headline_stands { OnOk result ((listed : List TouchedSlot) × ((o : Opening) (h : List Event) → Stands o self.old h
            → Stands o self.new (Edited author edit listed ∷ h))) }
        ensures cost { OnOk result ((o : Opening) (h : List Event) (listed : List TouchedSlot) → Stands o self.old h → Touches (project_of self.old) (edited (project_of self.old) edit) listed
            → IsSettled rp3_rules self.old.table → (t c : ℕ) → IsThere rp3_rules self.new.table t c
            → Costs o (Edited author edit listed ∷ h) t c ↔ CostsAnEdit rp3_rules (project_of self.old) (edited (project_of self.old) edit) listed (project_of self.old).horizon t c) }
        ensures err { OnErr result (self.new ≡ self.old) }
    {
        let (next, changed) = match self.edited(edit) {
            Ok(made) => made,
            Err(fault) => return Err(fault),
        };
        match self.journal.reserve(1) {
            Ok(()) => {}
            Err(_) => return Err(EditFault::Memory),
        }
        let before = self.table.horizon();
        let to = next.horizon();
        match self.table.touch(next, changed) {
            Ok(()) => self.counters.forget(to, before),
            Err(_) => return Err(EditFault::Memory),
        }
        self.rows.forget();
        self.journal.push_reserved(Noted { author, edit });
        Ok(self.journal.len() as u32)
    }
}
