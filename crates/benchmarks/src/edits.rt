//! The edits that are measured: each is made and then taken back, again and again.
use crate::load::Load;
use omega_net::ScriptEntry;
use project_book::{Depths, Edit, USUAL_ENTRIES};
use word_ops::{Kind, Op};

/// What an edit changes.
#[derive(Clone, Copy)]
pub enum Change {
    /// The first word of an address to which few refer.
    Word,
    /// The entry behind processor 0's script, or its last one where the script is full.
    LastEntry,
    /// Processor 1's first entry.
    FirstEntry,
    /// The depth of the combining network's forward queues.
    Depth,
    /// The depth of the modules' queues.
    ModuleDepth,
    /// Combining at the last stage.
    Combining,
    /// Over how many modules page 0 is spread.
    Page,
    /// The window.
    Window,
}

/// All of them, those first that concern few cells.
pub const CHANGES: [Change; 8] = [
    Change::Word,
    Change::LastEntry,
    Change::FirstEntry,
    Change::Depth,
    Change::ModuleDepth,
    Change::Combining,
    Change::Page,
    Change::Window,
];

impl Change {
    pub fn name(self) -> &'static str {
        match self {
            Change::Word => "a word",
            Change::LastEntry => "a last entry",
            Change::FirstEntry => "a first entry",
            Change::Depth => "a depth",
            Change::ModuleDepth => "the modules' depth",
            Change::Combining => "combining",
            Change::Page => "a page",
            Change::Window => "the window",
        }
    }

    /// The edit that is made at an even time and taken back at an odd one, on a load for 2^k processors, k at least 1.
    pub fn edit(self, load: Load, k: u32, time: u32) -> Edit {
        let is_made = time % 2 == 0;
        match self {
            Change::Word => Edit::Word {
                address: 300,
                word: if is_made { 5 } else { 0 },
            },
            Change::LastEntry => last_entry(load, is_made),
            Change::FirstEntry => first_entry(load, is_made),
            Change::Depth => depth(Depths::CombForward, is_made),
            Change::ModuleDepth => depth(Depths::ModuleQueue, is_made),
            Change::Combining => Edit::Combine {
                stage: k.saturating_sub(1),
                on: !is_made,
            },
            Change::Page => Edit::Page {
                page: 0,
                amount: if is_made { 0 } else { k },
                base: 0,
            },
            Change::Window => Edit::Window(if is_made { 2 } else { load.window() }),
        }
    }
}

fn last_entry(load: Load, is_made: bool) -> Edit {
    let (proc, length) = (0, load.entries());
    if length < USUAL_ENTRIES && !is_made {
        return Edit::Cut { proc, length };
    }
    let index = length.min(USUAL_ENTRIES.saturating_sub(1));
    let entry = if is_made {
        ScriptEntry::Fence
    } else {
        load.entry(proc, index)
    };
    Edit::Entry { proc, index, entry }
}

fn first_entry(load: Load, is_made: bool) -> Edit {
    let (proc, index) = (1, 0);
    let op = Op {
        kind: Kind::Add,
        operand: 1,
    };
    let entry = if is_made {
        ScriptEntry::Reference {
            sync: false,
            op,
            address: 77,
            times: 1,
        }
    } else {
        load.entry(proc, index)
    };
    Edit::Entry { proc, index, entry }
}

/// Another depth than that of a new project, and that one.
fn depth(queue: Depths, is_made: bool) -> Edit {
    Edit::Depth {
        queue,
        depth: if is_made { 5 } else { 4 },
    }
}
