//! Edited copies of a project.
ghost use Rattle.std.specs.Prelude.{◌≡◌, ◌<◌, ◌≤◌, IfOk, IsOkUnless, OnOk, Ok, Err, Some, None, if◌then◌else◌, length};
ghost use Rattle.std.specs.Arc.{arc_value};
ghost use Rattle.project_book.specs.Slots.{Touches, DifferAtMost, AreEntries};
ghost use Rattle.project_book.specs.Edits.{accepts, verdict, edited, new_horizon};

use crate::edit::{Edit, is_addressed, is_timed, is_wait, is_window};
use crate::fault::EditFault;
use crate::project::Project;
use crate::scripts::Scripts;
use crate::slot::Slot;
use crate::words::FirstWords;
use grid_law::{Changed, NoMemory};
use omega_net::ScriptEntry;
use page_map::{ADDRESSES, PageFault, PageMap};
use std::alloc::Global;
use std::sync::Arc;

impl Project {
    /// An edited copy, the slots that got another value, each once, and the new horizon where it is
    /// another one. The copy shares with this project what the edit leaves alone.
    ///
    /// Takes another owner of the words and of the scripts. Besides, an entry or a cut copies one
    /// script, and takes another owner of each other one; a word copies the page
    /// of its address, 256 words, and takes another owner of each other one; a cut lists each entry
    /// that it removes.
    ///
    /// # Errors
    ///
    /// The first fault that applies, of those from BadProcessor to BadHorizon in their order; Memory
    /// only where none does.
    pub fn apply(&self, edit: Edit) -> Result<(Project, Changed<Slot>), EditFault>
        ensures refused { (fault : EditFault) → accepts self.now 0 edit ≡ Err fault → result ≡ Err fault }
        ensures accepted { accepts self.now 0 edit ≡ Ok tt → IsOkUnless result EditFault.Memory }
        ensures edited { IfOk result (λ made. made.0 ≡ edited self.now edit) }
        ensures slots { IfOk result (λ made. Touches self.now made.0 made.1.slots.items) }
        ensures horizon { IfOk result (λ made. made.1.horizon ≡ new_horizon self.now made.0) }
    {
        self.check(edit)?;
        let next = self.edited(edit)?;
        let slots = self.touched(&next, edit)?;
        let horizon = self.new_horizon(&next);
        Ok((next, Changed { slots, horizon }))
    }

    fn new_horizon(&self, next: &Project) -> Option<u32>
        ensures { result ≡ new_horizon self.now next.now }
    {
        if self.horizon() == next.horizon() {
            None
        } else {
            Some(next.horizon())
        }
    }

    /// Whether `apply` accepts an edit, want of memory aside. Takes no memory.
    ///
    /// # Errors
    ///
    /// The first fault that applies, of those from BadProcessor to BadHorizon in their order.
    pub fn check(&self, edit: Edit) -> Result<(), EditFault>
        ensures { result ≡ accepts self.now 0 edit }
    {
        match edit {
            Edit::Entry { proc, index, entry } => self.check_entry(proc, index, entry),
            Edit::Cut { proc, length } => self.check_cut(proc, length),
            Edit::Word { address, .. } => refuse(address >= ADDRESSES, EditFault::BadAddress),
            Edit::Page { page, amount, base } => {
                self.spread(page, amount, base)?;
                Ok(())
            }
            Edit::Depth { queue, depth } => refuse(!queue.allows(depth), EditFault::BadDepth),
            Edit::WaitDepth(depth) => refuse(!is_wait(depth), EditFault::BadDepth),
            Edit::Combine { stage, .. } => refuse(stage >= self.k(), EditFault::BadStage),
            Edit::Window(window) => refuse(!is_window(window), EditFault::BadWindow),
            Edit::Horizon(horizon) => refuse(
                horizon > self.scale.most_horizon(),
                EditFault::BadHorizon,
            ),
        }
    }

    fn check_entry(&self, proc: u32, index: u32, entry: ScriptEntry) -> Result<(), EditFault>
        ensures { result ≡ accepts self.now 0 (Edit.Entry proc index entry) }
    {
        refuse(proc >= self.processors(), EditFault::BadProcessor)?;
        let length = self.length(proc);
        refuse(index > length, EditFault::BadEntry)?;
        refuse(
            index == length && index >= self.scale.most_entries(),
            EditFault::ScriptFull,
        )?;
        refuse(!is_addressed(entry), EditFault::BadAddress)?;
        refuse(!is_timed(entry), EditFault::BadTimes)
    }

    fn check_cut(&self, proc: u32, length: u32) -> Result<(), EditFault>
        ensures { result ≡ accepts self.now 0 (Edit.Cut proc length) }
    {
        refuse(proc >= self.processors(), EditFault::BadProcessor)?;
        refuse(length > self.length(proc), EditFault::BadEntry)
    }

    /// The pages where this one is spread so.
    fn spread(&self, page: u32, amount: u32, base: u32) -> Result<PageMap, EditFault>
        ensures ok { IfOk result (λ pages. pages ≡ (edited self.now (Edit.Page page amount base)).pages) }
        ensures checked { OnOk result (accepts self.now 0 (Edit.Page page amount base) ≡ Ok tt) }
        ensures refused { (fault : EditFault) → result ≡ Err fault → accepts self.now 0 (Edit.Page page amount base) ≡ Err fault }
    {
        let mut pages = self.pages;
        match pages.set(page, amount, base) {
            Ok(()) => Ok(pages),
            Err(PageFault::BadPage) => Err(EditFault::BadPage),
            Err(PageFault::BadInterleave) => Err(EditFault::BadInterleave),
        }
    }

    /// The scripts where one has this entry.
    fn with_entry(
        &self,
        proc: u32,
        index: u32,
        entry: ScriptEntry,
    ) -> Result<Arc<Scripts>, NoMemory>
        requires { accepts self.now 0 (Edit.Entry proc index entry) ≡ Ok tt }
        ensures { IfOk result (λ scripts. arc_value scripts ≡ (edited self.now (Edit.Entry proc index entry)).scripts) }
    {
        let script = self
            .scripts
            .script(proc)
            .with_entry(self.alloc, index, entry)?;
        let scripts = self.scripts.with_script(self.alloc, proc, script)?;
        Ok(Arc::new(self.alloc, scripts)?)
    }

    /// The scripts where one has its first entries alone.
    fn with_cut(&self, proc: u32, length: u32) -> Result<Arc<Scripts>, NoMemory>
        requires { accepts self.now 0 (Edit.Cut proc length) ≡ Ok tt }
        ensures { IfOk result (λ scripts. arc_value scripts ≡ (edited self.now (Edit.Cut proc length)).scripts) }
    {
        let script = self.scripts.script(proc).cut(self.alloc, length)?;
        let scripts = self.scripts.with_script(self.alloc, proc, script)?;
        Ok(Arc::new(self.alloc, scripts)?)
    }

    /// The first words where an address has this one.
    fn with_word(&self, address: u32, word: u32) -> Result<Arc<FirstWords>, NoMemory>
        requires { accepts self.now 0 (Edit.Word address word) ≡ Ok tt }
        ensures { IfOk result (λ words. arc_value words ≡ (edited self.now (Edit.Word address word)).words) }
    {
        let words = self.words.with_word(self.alloc, address, word)?;
        Ok(Arc::new(self.alloc, words)?)
    }

    fn edited(&self, edit: Edit) -> Result<Project, EditFault>
        requires { accepts self.now 0 edit ≡ Ok tt }
        ensures edited { IfOk result (λ next. next ≡ edited self.now edit) }
        ensures memory { IsOkUnless result EditFault.Memory }
    {
        let mut next = self.share()?;
        match edit {
            Edit::Entry { proc, index, entry } => next.scripts = self.with_entry(
                proc, index, entry,
            )?,
            Edit::Cut { proc, length } => next.scripts = self.with_cut(proc, length)?,
            Edit::Word { address, word } => next.words = self.with_word(address, word)?,
            Edit::Page { page, amount, base } => next.pages = self.spread(page, amount, base)?,
            Edit::Depth { queue, depth } => next.depths = self.depths.with_depth(queue, depth),
            Edit::WaitDepth(wait) => next.wait = wait,
            Edit::Combine { stage, on } => next.combine[stage as usize] = on,
            Edit::Window(window) => next.window = window,
            Edit::Horizon(horizon) => next.horizon = horizon,
        }
        Ok(next)
    }

    /// The slots whose values differ after an edit.
    fn touched(&self, next: &Project, edit: Edit) -> Result<Vec<Slot>, NoMemory>
        requires accepted { accepts self.now 0 edit ≡ Ok tt }
        requires edited { next.now ≡ edited self.now edit }
        ensures { IfOk result (λ slots. Touches self.now next.now slots.items) }
    {
        let _ = &self.scripts;
        if let Some(slot) = edit.slot() {
            return self.differing(next, slot);
        }
        match edit {
            Edit::Cut { proc, length } => entries(self.alloc, proc, length, self.length(proc)),
            _ => Ok(Vec::new(self.alloc)),
        }
    }

    /// The slot, where its values differ.
    fn differing(&self, next: &Project, slot: Slot) -> Result<Vec<Slot>, NoMemory>
        requires { DifferAtMost self.now next.now slot }
        ensures { IfOk result (λ slots. Touches self.now next.now slots.items) }
    {
        let mut slots = Vec::new(self.alloc);
        if !self.same_at(next, slot) {
            slots.push(slot)?;
        }
        Ok(slots)
    }
}

/// The entries of a processor's script from one index to another.
fn entries(alloc: Global, proc: u32, from: u32, to: u32) -> Result<Vec<Slot>, NoMemory>
    requires { from ≤ to }
    ensures { IfOk result (λ slots. AreEntries proc from to slots.items) }
{
    let mut slots = Vec::new(alloc);
    for index in from..to {
        slots.push(Slot::Entry(proc, index))?;
    }
    Ok(slots)
}

/// The fault, where it applies.
fn refuse(applies: bool, fault: EditFault) -> Result<(), EditFault>
    ensures { result ≡ verdict (if applies then Some fault else None) }
{
    if applies { Err(fault) } else { Ok(()) }
}
