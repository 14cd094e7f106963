//! How many cells an edit makes the settling compute.
use crate::edits::{entry, sync_add, word};
use crate::projects::{base, empty};
use crate::stories::{Came, Step, surprise};
use expect::equal;
use omega_net::ScriptEntry;
use project_book::Edit;
use std::test::Fail;

fn settle(computed: u64) -> (Step, Came) {
    (Step::Settle, Came::Settled(computed))
}

fn edit(edit: Edit, version: u32) -> (Step, Came) {
    (Step::Edit(edit), Came::Version(version))
}

/// 1: a processor and a module at one cycle.
#[test]
fn example_1_cost(rt: HostRuntime) -> Result<(), Fail> {
    let project = empty(rt.alloc(), 0, 0)?;
    assert!(rt; equal(&rt, surprise(rt.alloc(), project, 0, &[settle(2)])?, None));
    Ok(())
}

/// 15.2: 512 components at 17 cycles.
#[test]
fn example_15_2_cost(rt: HostRuntime) -> Result<(), Fail> {
    let project = empty(rt.alloc(), 6, 16)?;
    let story = [edit(entry(63, 0, sync_add(1)), 1), settle(8_704)];
    assert!(rt; equal(&rt, surprise(rt.alloc(), project, 0, &story)?, None));
    Ok(())
}

/// 3.1: one processor and one module at the cycles 0 to 8 are 18 cells. A first word makes the module
/// another one at each cycle, so it is computed 9 times, and the processor beside it at the cycles 1
/// to 8, where it comes out equal. An equal word costs nothing; a longer horizon its new cells, two a
/// cycle, and no others.
#[test]
fn example_3_1(rt: HostRuntime) -> Result<(), Fail> {
    let story = [
        settle(18),
        edit(word(5, 3), 1),
        settle(17),
        edit(word(5, 3), 2),
        settle(0),
        edit(Edit::Horizon(10), 3),
        settle(4),
        edit(Edit::Horizon(5), 4),
        settle(0),
        edit(Edit::Horizon(8), 5),
        settle(6),
    ];
    let project = empty(rt.alloc(), 0, 8)?;
    assert!(rt; equal(&rt, surprise(rt.alloc(), project, 0, &story)?, None));
    Ok(())
}

/// 9, a fence: the processor reads its first entry at the cycles 1 to 10 and comes out with another
/// index at each; the two switches beside it are computed at the cycles 2 to 10: 10 + 9 * 2.
#[test]
fn example_9_fence(rt: HostRuntime) -> Result<(), Fail> {
    let story = [
        settle(66),
        edit(entry(0, 0, ScriptEntry::Fence), 1),
        settle(28),
    ];
    assert!(rt;
        equal(
            &rt,
            surprise(rt.alloc(), base(rt.alloc())?, 0, &story)?,
            None
        )
    );
    Ok(())
}

/// 9, a horizon: two new cycles of 6 components; cells that go cost nothing.
#[test]
fn example_9_horizon(rt: HostRuntime) -> Result<(), Fail> {
    let story = [
        settle(66),
        edit(Edit::Horizon(12), 1),
        settle(12),
        edit(Edit::Horizon(5), 2),
        settle(0),
    ];
    assert!(rt;
        equal(
            &rt,
            surprise(rt.alloc(), base(rt.alloc())?, 0, &story)?,
            None
        )
    );
    Ok(())
}

/// 9, a word: both modules read every first word at cycle 0, which makes 2 cells. Address 300 stands in
/// module 1, which is another one at each cycle: at the cycles 1 to 10 it is computed, and the two
/// switches beside it, which come out equal: 2 + 10 * 3. 10: an equal edit is accepted, as a version of
/// its own, and reaches no cell.
#[test]
fn examples_9_word_and_10(rt: HostRuntime) -> Result<(), Fail> {
    let story = [
        settle(66),
        edit(word(300, 5), 1),
        settle(32),
        edit(word(300, 5), 2),
        settle(0),
    ];
    assert!(rt;
        equal(
            &rt,
            surprise(rt.alloc(), base(rt.alloc())?, 0, &story)?,
            None
        )
    );
    Ok(())
}
