//! The settings that a machine's cells read.
ghost use Rattle.std.specs.Prelude.{◌↔◌, IsTrue};
ghost use Rattle.project_book.specs.Slots.{SameAt};

use crate::edit::Depths;
use crate::project::Project;

/// A setting that a machine's cells read. The horizon is none. A slot exists where its numbers are
/// within the project's limits; one that doesn't has the same value in all projects of that size.
#[derive(Clone, Copy, PartialEq, Eq, Debug)]
pub enum Slot {
    /// How many processors and modules there are. No edit changes it.
    Shape,
    /// The entry of a processor's script at an index below 256, or that there is none.
    Entry(u32, u32),
    /// The first word of an address.
    Word(u32),
    /// How a page is spread.
    Page(u32),
    /// The depth of queues.
    Depth(Depths),
    /// The depth of the wait buffers.
    Wait,
    /// Whether the combining switches of a stage combine.
    Combine(u32),
    /// How many references of a processor may be unanswered.
    Window,
}

impl Project {
    /// Whether a slot has the same value in both projects. Costs a few reads; for a word both lists
    /// of words are looked through.
    pub fn same_at(&self, other: &Project, slot: Slot) -> bool
        ensures { IsTrue result ↔ SameAt self.now other.now slot }
    {
        match slot {
            Slot::Shape => self.k() == other.k(),
            Slot::Entry(proc, index) => self.entry(proc, index) == other.entry(proc, index),
            Slot::Word(address) => self.word(address) == other.word(address),
            Slot::Page(page) => self.same_page(other, page),
            Slot::Depth(queue) => self.depth(queue) == other.depth(queue),
            Slot::Wait => self.wait() == other.wait(),
            Slot::Combine(stage) => self.combine(stage) == other.combine(stage),
            Slot::Window => self.window() == other.window(),
        }
    }

    fn same_page(&self, other: &Project, page: u32) -> bool
        ensures { IsTrue result ↔ SameAt self.now other.now (Slot.Page page) }
    {
        self.pages.page(page) == other.pages.page(page)
    }
}
