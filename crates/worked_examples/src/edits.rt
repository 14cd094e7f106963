//! The entries and the edits of the examples.
use omega_net::ScriptEntry;
use project_book::{Depths, Edit};
use word_ops::{Kind, Op};

/// `sync add A 1 T`.
pub(crate) fn sync_adds(address: u32, times: u32) -> ScriptEntry {
    add(true, address, 1, times)
}

/// `sync add 0 V`.
pub(crate) fn sync_add(operand: u32) -> ScriptEntry {
    add(true, 0, operand, 1)
}

/// `plain add 0 1 T`.
pub(crate) fn plain_add(times: u32) -> ScriptEntry {
    add(false, 0, 1, times)
}

fn add(sync: bool, address: u32, operand: u32, times: u32) -> ScriptEntry {
    let op = Op {
        kind: Kind::Add,
        operand,
    };
    ScriptEntry::Reference {
        sync,
        op,
        address,
        times,
    }
}

/// `entry P I ENTRY`.
pub(crate) fn entry(proc: u32, index: u32, entry: ScriptEntry) -> Edit {
    Edit::Entry { proc, index, entry }
}

/// `word A V`.
pub(crate) fn word(address: u32, word: u32) -> Edit {
    Edit::Word { address, word }
}

/// `page G AMOUNT BASE`.
pub(crate) fn page(page: u32, amount: u32, base: u32) -> Edit {
    Edit::Page { page, amount, base }
}

/// `depth Q D`.
pub(crate) fn depth(queue: Depths, depth: u32) -> Edit {
    Edit::Depth { queue, depth }
}

/// `combine S on`.
pub(crate) fn combine(stage: u32) -> Edit {
    Edit::Combine { stage, on: true }
}
