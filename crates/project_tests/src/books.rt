//! Worked examples, printed texts, and growths that are refused.

use crate::words::has_words;
use expect::{equal, equal_at};
use omega_net::Net;
use page_map::Place;
use project_book::{
    Depths, Edit, EditFault, EntryText, FirstWord, MAX_EDITS, Project, Scale, ScriptEntry, Slot,
    read_entry,
};
use std::alloc::Global;
use std::test::Fail;
use word_ops::{Kind, Op};

fn after(project: &Project, edit: Edit) -> Result<Project, Fail> {
    Ok(project.apply(edit)?.0)
}

/// Two processors and the horizon 10; page 0 on module 0, page 1 on module 1; word 0 is 10.
fn base(alloc: Global) -> Result<Project, Fail> {
    let mut project = Project::new(alloc, 1, 10)?.ok_or("within the limits")?;
    for edit in [
        Edit::Page {
            page: 0,
            amount: 0,
            base: 0,
        },
        Edit::Page {
            page: 1,
            amount: 0,
            base: 1,
        },
        Edit::Word {
            address: 0,
            word: 10,
        },
    ] {
        project = after(&project, edit)?;
    }
    Ok(project)
}

fn reference(sync: bool, kind: Kind, address: u32, operand: u32, times: u32) -> ScriptEntry {
    ScriptEntry::Reference {
        sync,
        op: Op { kind, operand },
        address,
        times,
    }
}

/// `until sync load A 0 12 T`.
fn until(address: u32, times: u32) -> ScriptEntry {
    ScriptEntry::Until {
        sync: true,
        op: Op {
            kind: Kind::Load,
            operand: 0,
        },
        address,
        value: 12,
        times,
    }
}

fn add(address: u32, times: u32) -> ScriptEntry {
    reference(true, Kind::Add, address, 1, times)
}

/// What a project says that nobody has edited.
#[test]
fn blank_projects(rt: HostRuntime) -> Result<(), Fail> {
    let alloc = rt.alloc();
    let project = Project::new(alloc, 6, 2_000)?.ok_or("within the limits")?;
    assert!(rt; equal(&rt, (project.k(), project.processors()), (6, 64)));
    assert!(rt;
        equal(
            &rt,
            (project.horizon(), project.window(), project.wait()),
            (2_000, 1, 4)
        )
    );
    for (queue, depth) in [
        (Depths::forward(Net::Low), 4),
        (Depths::forward(Net::Comb), 4),
        (Depths::LowReverse, 4),
        (Depths::CombReverse, 8),
        (Depths::ModuleQueue, 4),
    ] {
        assert!(rt; equal_at(&rt, queue, project.depth(queue), depth));
    }
    assert!(rt; (0..7).all(|stage| !project.combine(stage)));
    let built_in = Project::built_in(alloc)?;
    assert!(rt; equal(&rt, (built_in.k(), built_in.horizon()), (0, 8)));
    Ok(())
}

/// Its pages go round all modules, and hold no words.
#[test]
fn blank_pages(rt: HostRuntime) -> Result<(), Fail> {
    let alloc = rt.alloc();
    let project = Project::new(alloc, 6, 2_000)?.ok_or("within the limits")?;
    // the 256 words of a page go round the 64 modules, 4 to each
    let last = Place { module: 63, row: 3 };
    assert!(rt; equal(&rt, project.place(255), Some(last)));
    assert!(rt; equal(&rt, project.place(16_384), None));
    assert!(rt; equal(&rt, project.pages().page(63), Some((6, 0))));
    assert!(rt; has_words(&project, &[]));
    assert!(rt; equal(&rt, (project.word(0), project.length(63)), (0, 0)));
    assert!(rt; equal(&rt, project.entry(0, 0), None));
    assert!(rt; Project::new(alloc, 7, 0)?.is_none());
    assert!(rt; Project::new(alloc, 0, 2_001)?.is_none());
    Ok(())
}

/// Each refusal of the base project, by its number.
#[test]
fn refusals(rt: HostRuntime) -> Result<(), Fail> {
    let alloc = rt.alloc();
    let project = base(alloc)?;
    for (edit, number) in [
        (entry(2, 0, ScriptEntry::Fence), 2),
        (entry(0, 1, ScriptEntry::Fence), 3),
        (Edit::Cut { proc: 0, length: 1 }, 3),
        (word(16_384, 0), 5),
        (entry(0, 0, add(16_384, 1)), 5),
        (page(64, 0, 0), 6),
        (page(0, 2, 0), 7),
        (page(0, 0, 2), 7),
        (Edit::Combine { stage: 1, on: true }, 8),
        (depth(Depths::ModuleQueue, 1), 9),
        (depth(Depths::CombReverse, 3), 9),
        (Edit::WaitDepth(0), 9),
        (Edit::Window(9), 10),
        (entry(0, 0, ScriptEntry::Idle(0)), 11),
        (entry(0, 0, add(0, 1_001)), 11),
        (Edit::Horizon(2_001), 12),
    ] {
        assert!(rt; equal_at(&rt, edit, refused(&project, edit), Some(number)));
    }
    Ok(())
}

/// The last values of each limit, and the first past it.
#[test]
fn limits(rt: HostRuntime) -> Result<(), Fail> {
    let alloc = rt.alloc();
    let project = base(alloc)?;
    for (edit, number) in [
        (word(16_383, 1), None),
        (page(63, 1, 0), None),
        (depth(Depths::ModuleQueue, 2), None),
        (depth(Depths::LowForward, 16), None),
        (depth(Depths::LowForward, 17), Some(9)),
        (depth(Depths::LowReverse, 17), Some(9)),
        (depth(Depths::CombForward, 1), Some(9)),
        (depth(Depths::CombForward, 17), Some(9)),
        (depth(Depths::CombReverse, 4), None),
        (depth(Depths::CombReverse, 16), None),
        (depth(Depths::CombReverse, 17), Some(9)),
        (depth(Depths::ModuleQueue, 17), Some(9)),
        (Edit::WaitDepth(1), None),
        (Edit::WaitDepth(16), None),
        (Edit::WaitDepth(17), Some(9)),
        (Edit::Window(0), Some(10)),
        (Edit::Window(1), None),
        (Edit::Window(8), None),
        (entry(0, 0, add(16_383, 1)), None),
        (entry(0, 0, add(0, 0)), Some(11)),
        (entry(0, 0, add(0, 1_000)), None),
        (entry(0, 0, until(16_384, 1)), Some(5)),
        (entry(0, 0, until(16_383, 1_000)), None),
        (entry(0, 0, until(0, 0)), Some(11)),
        (entry(0, 0, until(0, 1_001)), Some(11)),
        (entry(0, 0, ScriptEntry::Idle(1)), None),
        (entry(0, 0, ScriptEntry::Idle(1_000)), None),
        (entry(0, 0, ScriptEntry::Idle(1_001)), Some(11)),
        (Edit::Horizon(0), None),
        (Edit::Horizon(2_000), None),
    ] {
        assert!(rt; equal_at(&rt, edit, refused(&project, edit), number));
    }
    assert!(rt; equal(&rt, MAX_EDITS, 65_535));
    Ok(())
}

/// A script of 256 entries takes no more, and an index past its end comes before that.
#[test]
fn full_script(rt: HostRuntime) -> Result<(), Fail> {
    let alloc = rt.alloc();
    let mut project = base(alloc)?;
    for index in 0..256 {
        project = after(&project, entry(0, index, ScriptEntry::Fence))?;
    }
    assert!(rt; equal(&rt, project.length(0), 256));
    let fence = ScriptEntry::Fence;
    assert!(rt; equal(&rt, refused(&project, entry(0, 256, fence)), Some(4)));
    assert!(rt; equal(&rt, refused(&project, entry(0, 257, fence)), Some(3)));
    assert!(rt;
        equal(
            &rt,
            refused(&project, entry(0, 256, add(16_384, 1))),
            Some(4)
        )
    );
    let project = after(&project, entry(0, 255, ScriptEntry::Idle(7)))?;
    assert!(rt; equal(&rt, project.entry(0, 255), Some(ScriptEntry::Idle(7))));
    let (project, changed) = project.apply(Edit::Cut {
        proc: 0,
        length: 254,
    })?;
    assert!(rt; equal(&rt, project.length(0), 254));
    let cut = [Slot::Entry(0, 254), Slot::Entry(0, 255)];
    assert!(rt; equal(&rt, changed.slots.as_slice(), cut.as_slice()));
    Ok(())
}

/// A large project has later horizons and longer scripts. An edit changes its scale as little as its size.
#[test]
fn large_projects(rt: HostRuntime) -> Result<(), Fail> {
    let alloc = rt.alloc();
    assert!(rt; Project::new(alloc, 0, 2_001)?.is_none());
    assert!(rt; Project::of_scale(alloc, Scale::Large, 0, 20_001)?.is_none());
    let mut project = Project::of_scale(alloc, Scale::Large, 0, 8)?.ok_or("within the limits")?;
    assert!(rt; equal(&rt, refused(&project, Edit::Horizon(20_001)), Some(12)));
    project = after(&project, Edit::Horizon(20_000))?;
    for index in 0..257 {
        project = after(&project, entry(0, index, ScriptEntry::Fence))?;
    }
    assert!(rt; equal(&rt, (project.length(0), project.horizon()), (257, 20_000)));
    assert!(rt; equal(&rt, project.scale(), Scale::Large));
    assert!(rt; equal(&rt, project.entry(0, 256), Some(ScriptEntry::Fence)));
    Ok(())
}

/// A slot is listed where its value changes, and only there; the given project stays.
#[test]
fn a_word_changes(rt: HostRuntime) -> Result<(), Fail> {
    let project = base(rt.alloc())?;
    let (next, changed) = project.apply(word(300, 5))?;
    assert!(rt; equal(&rt, changed.slots.as_slice(), [Slot::Word(300)].as_slice()));
    assert!(rt; equal(&rt, changed.horizon, None));
    assert!(rt; equal(&rt, (next.word(300), project.word(300)), (5, 0)));
    assert!(rt; next.apply(word(300, 5))?.1.slots.is_empty());
    Ok(())
}

const FIRST: FirstWord = FirstWord {
    address: 0,
    word: 10,
};

const NEXT: FirstWord = FirstWord {
    address: 300,
    word: 5,
};

const LAST: FirstWord = FirstWord {
    address: 16_383,
    word: 9,
};

/// The first words of the last page, and then of an earlier one again: no other page changes, nor does the given project.
#[test]
fn first_words_change(rt: HostRuntime) -> Result<(), Fail> {
    let project = base(rt.alloc())?;
    let next = after(&project, word(300, 5))?;
    let far = after(&next, word(16_383, 9))?;
    let back = after(&far, word(300, 0))?;
    assert!(rt; has_words(&next, &[FIRST, NEXT]));
    assert!(rt; has_words(&far, &[FIRST, NEXT, LAST]));
    assert!(rt; has_words(&back, &[FIRST, LAST]));
    assert!(rt; after(&back, word(16_383, 0))?.same(&project));
    assert!(rt; !back.same(&project));
    Ok(())
}

/// An edited page takes its first words with it.
#[test]
fn a_page_changes(rt: HostRuntime) -> Result<(), Fail> {
    let next = after(&base(rt.alloc())?, word(300, 5))?;
    let (moved, changed) = next.apply(page(1, 1, 0))?;
    assert!(rt; equal(&rt, changed.slots.as_slice(), [Slot::Page(1)].as_slice()));
    // 300 is offset 44 of page 1: module 44 mod 2, row 256 + 44 div 2
    let place = Place {
        module: 0,
        row: 278,
    };
    assert!(rt; equal(&rt, moved.place(300), Some(place)));
    assert!(rt; equal(&rt, moved.word(300), 5));
    assert!(rt; moved.share()?.same_at(&moved, Slot::Page(1)));
    assert!(rt; !moved.same_at(&next, Slot::Page(1)));
    Ok(())
}

/// The horizon is no slot.
#[test]
fn the_horizon_changes(rt: HostRuntime) -> Result<(), Fail> {
    let (longer, changed) = base(rt.alloc())?.apply(Edit::Horizon(12))?;
    assert!(rt; changed.slots.is_empty());
    assert!(rt; equal(&rt, changed.horizon, Some(12)));
    assert!(rt; equal(&rt, longer.apply(Edit::Horizon(12))?.1.horizon, None));
    Ok(())
}

/// An edit whose growth is refused changes nothing, and can be made again. `rt try --test
/// --fail-alloc N` refuses the growth number N.
#[test]
fn refused_growths(rt: HostRuntime) -> Result<(), Fail> {
    let alloc = rt.alloc();
    let mut project = match Project::new(alloc, 1, 10) {
        Ok(project) => project.ok_or("within the limits")?,
        Err(_) => Project::new(alloc, 1, 10)?.ok_or("within the limits")?,
    };
    for edit in [
        entry(1, 0, add(300, 2)),
        entry(1, 1, ScriptEntry::Fence),
        Edit::Cut { proc: 1, length: 1 },
        word(300, 5),
        page(1, 0, 1),
        Edit::Combine { stage: 0, on: true },
        depth(Depths::LowForward, 2),
    ] {
        let (next, changed) = match project.apply(edit) {
            Ok(made) => made,
            Err(fault) => {
                assert!(rt; equal(&rt, fault, EditFault::Memory));
                project.apply(edit)?
            }
        };
        for slot in &changed.slots {
            assert!(rt; !project.same_at(&next, *slot));
        }
        project = next;
    }
    assert!(rt; equal(&rt, (project.length(1), project.word(300)), (1, 5)));
    assert!(rt; equal(&rt, project.entry(1, 0), Some(add(300, 2))));
    assert!(rt; project.combine(0));
    Ok(())
}

/// Entries and their texts, written and read.
#[test]
fn entry_texts(rt: HostRuntime) -> Result<(), Fail> {
    for (text, entry) in [
        ("sync add 0 1", reference(true, Kind::Add, 0, 1, 1)),
        ("plain add 0 1 50", reference(false, Kind::Add, 0, 1, 50)),
        ("sync load 0 0 2", reference(true, Kind::Load, 0, 0, 2)),
        (
            "sync store-if-zero 0 7",
            reference(true, Kind::StoreIfZero, 0, 7, 1),
        ),
        // past a project's limits, which aren't the reader's business
        (
            "plain max 16384 4294967295 0",
            reference(false, Kind::Max, 16_384, u32::MAX, 0),
        ),
        ("until sync load 7 0 12", until(7, 1_000)),
        ("until sync load 7 0 12 2", until(7, 2)),
        ("fence", ScriptEntry::Fence),
        ("idle 4294967295", ScriptEntry::Idle(u32::MAX)),
    ] {
        let written = format!(in rt.alloc(); "{}", EntryText(entry))?;
        assert!(rt; equal(&rt, written.as_str(), text));
        assert!(rt; equal_at(&rt, text, read_entry(text.as_bytes()), Some(entry)));
    }
    Ok(())
}

/// Texts of an entry that is written otherwise.
const SPACED: [&str; 2] = ["\t sync  add\r0 1 \r", "sync add 0 1 1"];

const NO_ENTRIES: [&str; 16] = [
    "",
    "jump 3",
    "sync add 0",
    "sync add 0 1 2 3",
    "sync sub 0 1",
    "Sync add 0 1",
    "sync add 0 -1",
    "fence 1",
    "idle",
    "idle 1 2",
    "idle 4294967296",
    "idle 00000000004",
    "until load 0 0 12",
    "until sync load 0 0",
    "until sync load 0 0 12 2 1",
    "until fence 0 0 12",
];

#[test]
fn texts_and_no_texts(rt: HostRuntime) {
    for text in SPACED {
        assert!(rt; equal_at(&rt, text, read_entry(text.as_bytes()), Some(add(0, 1))));
    }
    for text in NO_ENTRIES {
        assert!(rt; equal_at(&rt, text, read_entry(text.as_bytes()), None));
    }
}

#[test]
fn faults(rt: HostRuntime) -> Result<(), Fail> {
    let alloc = rt.alloc();
    assert!(rt;
        equal(
            &rt,
            (EditFault::JournalFull.number(), EditFault::Memory.number()),
            (1, 14)
        )
    );
    let fault = EditFault::ScriptFull;
    assert!(rt;
        equal(
            &rt,
            format!(in alloc; "{fault}")?.as_str(),
            "the script is full"
        )
    );
    Ok(())
}

fn entry(proc: u32, index: u32, entry: ScriptEntry) -> Edit {
    Edit::Entry { proc, index, entry }
}

fn word(address: u32, word: u32) -> Edit {
    Edit::Word { address, word }
}

fn page(page: u32, amount: u32, base: u32) -> Edit {
    Edit::Page { page, amount, base }
}

fn depth(queue: Depths, depth: u32) -> Edit {
    Edit::Depth { queue, depth }
}

fn refused(project: &Project, edit: Edit) -> Option<u8> {
    match project.apply(edit) {
        Ok(_) => None,
        Err(fault) => Some(fault.number()),
    }
}
