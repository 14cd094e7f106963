//! The states that a step gives the components of a set, one after another, each out of the words near it.
ghost use Rattle.std.specs.Prelude.{◌≡◌, ℕ, ◌+◌, ◌-◌, ◌^◌, ◌<◌, ◌≤◌, ◌||◌, ◌⊎◌, All, OnOk, OnErr, length, true, false, None, Some, is_some, slice_index_or, unwrap_or};
ghost use Rattle.std.specs.Option.{option_or};
ghost use Rattle.grid_law.specs.Run.{run};
ghost use Rattle.change_rows.specs.Rows.{words_at};
ghost use Rattle.change_rows.specs.Cells.{end_of, found};
ghost use Rattle.change_lists.specs.Changes.{list_at, held_at as memory_at};
ghost use Rattle.cell_states.specs.Filling.{is_awake};
ghost use Rattle.cell_states.specs.Found.{FindsOne, IsFoundTo, IsFound, AreFound};
ghost use Rattle.cell_states.specs.Kept.{AreSameCells};
ghost use Rattle.cell_states.specs.Near.{IsNearOne};
ghost use Rattle.cell_states.specs.NextWords.{HasRunWords, HoldsRunBefore, HoldsWords, HoldsNear, IsDrafted, IsOfWords};
ghost use Rattle.cell_states.specs.Put.{IsSetAt};
ghost use Rattle.cell_states.specs.PutCodes.{AreCodesPut};
ghost use Rattle.cell_states.specs.Readied.{AreEach, AreAllEach, IsReadied, KeepsOthers};

use super::changed::put_memories;
use super::memory::{Change, is_same, ready_memory};
use crate::{Cell, Near, Neighbours, WholeRow};
use cell_marks::Row;
use change_lists::Lists;
use change_rows::{Cells as Draft, Rows};
use grid_law::{Grid, NoMemory};
use std::alloc::Global;

/// Whether each of these components holds at a cycle what it holds a cycle before, known without a look at either.
#[inline(always)]
fn all_stay<M: Drop>(rows: &Rows, memories: &Lists<M>, cycle: u32, near: &[u32]) -> bool
    ensures { result ≡ true → All (λ c. (words_at rows.now.rows (cycle - 1) c ≡ words_at rows.now.rows cycle c) × (memory_at memories.now c (cycle - 1) ≡ memory_at memories.now c cycle)) near.now }
{
    for component in near {
        let c = *component;
        if rows.begins(cycle, c) || memories.begins(c, cycle) {
            return false;
        }
    }
    true
}

/// Whether a row that holds a component's words of the cycle before `at`, if that isn't 0, holds those of a cycle.
#[inline(always)]
fn has_words(rows: &Rows, at: u32, cell: Cell) -> bool
    ensures { result ≡ true → (at ≡ cell.cycle + 1) ⊎ ((0 < cell.cycle) × (at ≡ cell.cycle) × (words_at rows.now.rows cell.cycle cell.component ≡ words_at rows.now.rows (cell.cycle - 1) cell.component)) }
{
    if at > cell.cycle {
        return at == cell.cycle + 1;
    }
    at > 0 && at == cell.cycle && !rows.begins(cell.cycle, cell.component)
}

/// Puts the words that a component holds at a cycle into a row: whether it has them then.
fn load_words<G: Grid, M: WholeRow<G>>(
    rows: &Rows,
    slots: &G::Slots,
    held: &mut Near<M>,
    cell: Cell,
) -> bool
    requires held { HoldsWords G.rules G.codec M.stands M.state slots.now held.old }
    requires there { cell.component < G.rules.components slots.now }
    requires fits { cell.cycle + 1 < 2 ^ 32 }
    requires run { HasRunWords G.rules G.codec slots.now rows.now.rows cell.cycle cell.component }
    ensures held { HoldsWords G.rules G.codec M.stands M.state slots.now held.new }
    ensures loaded { result ≡ true → slice_index_or held.new.at.items cell.component 0 ≡ cell.cycle + 1 }
    ensures others { (d : ℕ) → (d ≡ cell.component → ⊥) → slice_index_or held.new.at.items d 0 ≡ slice_index_or held.old.at.items d 0 }
{
    let d = cell.component;
    held.at[d as usize] = 0;
    if !held.row.load(slots, d, rows.words(cell.cycle, d)) {
        return false;
    }
    held.row.is_told(slots, d);
    held.at[d as usize] = cell.cycle + 1;
    true
}

/// The same, where the row hasn't them already.
#[inline(always)]
fn hold_words<G: Grid, M: WholeRow<G>>(
    rows: &Rows,
    slots: &G::Slots,
    held: &mut Near<M>,
    cell: Cell,
) -> bool
    requires held { HoldsWords G.rules G.codec M.stands M.state slots.now held.old }
    requires there { cell.component < G.rules.components slots.now }
    requires fits { cell.cycle + 1 < 2 ^ 32 }
    requires run { HasRunWords G.rules G.codec slots.now rows.now.rows cell.cycle cell.component }
    requires earlier { 0 < cell.cycle → words_at rows.now.rows (cell.cycle - 1) cell.component ≡ G.codec.words (run G.rules slots.now (cell.cycle - 1) cell.component) }
    ensures held { HoldsWords G.rules G.codec M.stands M.state slots.now held.new }
    ensures loaded { result ≡ true → slice_index_or held.new.at.items cell.component 0 ≡ cell.cycle + 1 }
    ensures others { (d : ℕ) → (d ≡ cell.component → ⊥) → slice_index_or held.new.at.items d 0 ≡ slice_index_or held.old.at.items d 0 }
{
    let d = cell.component as usize;
    if has_words(rows, held.at[d], cell) {
        held.at[d] = cell.cycle + 1;
        return true;
    }
    load_words::<G, M>(rows, slots, held, cell)
}

/// Puts the words that these components hold at a cycle into a row, those that it hasn't: whether it has them all then.
fn load_near<G: Grid, M: WholeRow<G>>(
    rows: &Rows,
    slots: &G::Slots,
    held: &mut Near<M>,
    near: &[u32],
    cycle: u32,
) -> bool
    requires held { HoldsWords G.rules G.codec M.stands M.state slots.now held.old }
    requires within { All (λ d. d < G.rules.components slots.now) near.now }
    requires fits { cycle + 1 < 2 ^ 32 }
    requires run { (d : ℕ) → d < G.rules.components slots.now → HasRunWords G.rules G.codec slots.now rows.now.rows cycle d }
    requires earlier { 0 < cycle → (d : ℕ) → d < G.rules.components slots.now → words_at rows.now.rows (cycle - 1) d ≡ G.codec.words (run G.rules slots.now (cycle - 1) d) }
    ensures held { HoldsWords G.rules G.codec M.stands M.state slots.now held.new }
    ensures loaded { result ≡ true → All (IsOfWords G.codec (M.state held.new.row) (run G.rules slots.now cycle)) near.now }
{
    for component in near {
        let component = *component;
        if !hold_words::<G, M>(rows, slots, held, Cell { cycle, component }) {
            return false;
        }
    }
    true
}

/// Puts words into a draft for a cell that has other ones.
fn draft_words(rows: &Rows, draft: &mut Draft, cell: Cell, words: &[u64]) -> Result<(), NoMemory>
    requires after { end_of draft.old ≤ cell.component }
    ensures after { end_of draft.new ≤ cell.component + 1 }
    ensures here { OnOk result (IsDrafted rows.now.rows draft.new cell.cycle cell.component words.now) }
    ensures others { (c : ℕ) → (c ≡ cell.component → ⊥) → found draft.new c ≡ found draft.old c }
{
    if words == rows.words(cell.cycle, cell.component) {
        return Ok(());
    }
    match draft.push(cell.component, words) {
        Ok(()) => Ok(()),
        Err(_) => Err(NoMemory),
    }
}

/// The same of the words of the cell before.
fn draft_same(rows: &Rows, draft: &mut Draft, cell: Cell) -> Result<(), NoMemory>
    requires later { 0 < cell.cycle }
    requires after { end_of draft.old ≤ cell.component }
    ensures after { end_of draft.new ≤ cell.component + 1 }
    ensures here { OnOk result (IsDrafted rows.now.rows draft.new cell.cycle cell.component (words_at rows.now.rows (cell.cycle - 1) cell.component)) }
    ensures others { (c : ℕ) → (c ≡ cell.component → ⊥) → found draft.new c ≡ found draft.old c }
{
    let (t, c) = (cell.cycle, cell.component);
    if !rows.begins(t, c) {
        return Ok(());
    }
    draft_words(rows, draft, cell, rows.words(t - 1, c))
}

/// Gets all that a cell needs to have this memory, or that of the cell before where there is none; its component is marked where it has
/// another one. No memory changes.
fn ready_left<G: Grid>(
    memories: &mut Lists<G::Memory>,
    ready: &mut Vec<Option<Change<G::Memory>>>,
    changes: &mut Row,
    cell: Cell,
    left: Option<G::Memory>,
) -> Result<(), NoMemory>
    requires later { 0 < cell.cycle }
    requires component { cell.component < length memories.old }
    requires each { AreEach (length memories.old) memories.old ready.old.items changes.old }
    requires unmarked { is_awake changes.old cell.component ≡ false }
    ensures each { AreEach (length memories.old) memories.new ready.new.items changes.new }
    ensures others { KeepsOthers cell.component memories.old memories.new ready.old.items ready.new.items changes.old changes.new }
    ensures ready { OnOk result (IsReadied memories.new ready.new.items changes.new cell.cycle cell.component (option_or left (memory_at memories.old cell.component (cell.cycle - 1)))) }
{
    let (t, c) = (cell.cycle, cell.component);
    match left {
        Some(memory) => {
            if is_same::<G>(Some(&memory), memories.at(c, t)) {
                return Ok(());
            }
            changes.set(c);
            let change = ready_memory::<G>(memories, cell, Some(memory))?;
            ready[c as usize] = change;
        }
        None => {
            if !memories.begins(c, t) || is_same::<G>(memories.at(c, t - 1), memories.at(c, t)) {
                return Ok(());
            }
            changes.set(c);
            ready[c as usize] = None;
        }
    }
    Ok(())
}

/// Finds what a cell gets by a step, out of the words near it.
fn find_step<G: Grid, M: WholeRow<G>>(
    rows: &Rows,
    memories: &mut Lists<G::Memory>,
    draft: &mut Draft,
    buffer: &mut Vec<u64>,
    ready: &mut Vec<Option<Change<G::Memory>>>,
    slots: &G::Slots,
    held: &mut Near<M>,
    near: &[u32],
    changes: &mut Row,
    cell: Cell,
) -> Result<(), NoMemory>
    requires run { HoldsRunBefore G.rules G.codec slots.now rows.now.rows memories.old cell.cycle }
    requires near { IsNearOne G.rules slots.now cell.component near.now }
    requires so_far { IsFoundTo (G.rules.components slots.now) draft.old memories.old ready.old.items changes.old cell.component }
    requires held { HoldsWords G.rules G.codec M.stands M.state slots.now held.old }
    ensures so_far { IsFoundTo (G.rules.components slots.now) draft.new memories.new ready.new.items changes.new (cell.component + 1) }
    ensures held { HoldsWords G.rules G.codec M.stands M.state slots.now held.new }
    ensures one { FindsOne cell.component draft.old draft.new memories.old memories.new ready.old.items ready.new.items changes.old changes.new }
    ensures found { OnOk result (IsFound G.codec rows.now.rows draft.new memories.new ready.new.items changes.new cell.cycle cell.component (run G.rules slots.now cell.cycle cell.component)) }
{
    let (t, c) = (cell.cycle, cell.component);
    if !load_near::<G, M>(rows, slots, held, near, t - 1) {
        return Err(NoMemory);
    }
    let alloc = *ready.allocator();
    buffer.clear();
    let row = &mut held.row;
    let left = row.next_words(alloc, slots, c, memories.at(c, t - 1), buffer)?;
    draft_words(rows, draft, cell, buffer.as_slice())?;
    ready_left::<G>(memories, ready, changes, cell, left)
}

/// Finds what a cell gets: that of the cell before, where nothing near it changed, or else by a step.
fn find_one<G: Grid, M: WholeRow<G>>(
    rows: &Rows,
    memories: &mut Lists<G::Memory>,
    draft: &mut Draft,
    buffer: &mut Vec<u64>,
    ready: &mut Vec<Option<Change<G::Memory>>>,
    slots: &G::Slots,
    held: &mut Near<M>,
    near: &[u32],
    changes: &mut Row,
    cell: Cell,
) -> Result<(), NoMemory>
    requires run { HoldsRunBefore G.rules G.codec slots.now rows.now.rows memories.old cell.cycle }
    requires near { IsNearOne G.rules slots.now cell.component near.now }
    requires so_far { IsFoundTo (G.rules.components slots.now) draft.old memories.old ready.old.items changes.old cell.component }
    requires held { HoldsWords G.rules G.codec M.stands M.state slots.now held.old }
    ensures so_far { IsFoundTo (G.rules.components slots.now) draft.new memories.new ready.new.items changes.new (cell.component + 1) }
    ensures held { HoldsWords G.rules G.codec M.stands M.state slots.now held.new }
    ensures one { FindsOne cell.component draft.old draft.new memories.old memories.new ready.old.items ready.new.items changes.old changes.new }
    ensures found { OnOk result (IsFound G.codec rows.now.rows draft.new memories.new ready.new.items changes.new cell.cycle cell.component (run G.rules slots.now cell.cycle cell.component)) }
{
    if cell.cycle > 1 && all_stay(rows, memories, cell.cycle - 1, near) {
        draft_same(rows, draft, cell)?;
        return ready_left::<G>(memories, ready, changes, cell, None);
    }
    find_step::<G, M>(
        rows, memories, draft, buffer, ready, slots, held, near, changes, cell,
    )
}

/// The same of all components of a set.
fn find_all<G: Grid, M: WholeRow<G>>(
    rows: &Rows,
    memories: &mut Lists<G::Memory>,
    draft: &mut Draft,
    buffer: &mut Vec<u64>,
    ready: &mut Vec<Option<Change<G::Memory>>>,
    slots: &G::Slots,
    held: &mut Near<M>,
    near: &Neighbours,
    set: &Row,
    changes: &mut Row,
    cycle: u32,
) -> Result<(), NoMemory>
    requires run { HoldsRunBefore G.rules G.codec slots.now rows.now.rows memories.old cycle }
    requires components { length set.now ≡ G.rules.components slots.now }
    requires each { AreEach (G.rules.components slots.now) memories.old ready.old.items changes.old }
    requires near { HoldsNear G.rules G.codec M.stands M.state slots.now held.old near.now }
    ensures each { AreEach (G.rules.components slots.now) memories.new ready.new.items changes.new }
    ensures held { HoldsWords G.rules G.codec M.stands M.state slots.now held.new }
    ensures same { (c : ℕ) → list_at memories.new c ≡ list_at memories.old c }
    ensures found { OnOk result (AreFound G.codec rows.now.rows draft.new memories.new ready.new.items changes.new cycle set.now (run G.rules slots.now cycle)) }
{
    changes.clear_all();
    draft.clear();
    // The number of a component is below this one, so that of the next fits.
    let _count = set.len();
    let mut next = 0;
    while let Some(component) = set.first_from(next) {
        let cell = Cell { cycle, component };
        let near = near.of(component);
        find_one::<G, M>(
            rows, memories, draft, buffer, ready, slots, held, near, changes, cell,
        )?;
        next = component + 1;
    }
    Ok(())
}

/// Marks the components of a draft, too.
fn mark_draft(draft: &Draft, changes: &mut Row)
    requires { end_of draft.now ≤ length changes.old }
    ensures len { length changes.new ≡ length changes.old }
    ensures marked { (c : ℕ) → is_awake changes.new c ≡ (is_awake changes.old c || is_some (found draft.now c)) }
{
    for i in 0..draft.len() {
        changes.set(draft.component(i));
    }
}

/// The cells of a draft have its words at a cycle. Where memory is wanting, no cell has others.
fn put_draft(alloc: Global, rows: &mut Rows, draft: &Draft, cycle: u32) -> Result<(), NoMemory>
    requires within { cycle < length rows.old.rows }
    requires components { end_of draft.now ≤ rows.old.width }
    ensures cells { OnOk result (AreSameCells rows.old rows.new) }
    ensures here { OnOk result ((c : ℕ) → words_at rows.new.rows cycle c ≡ unwrap_or (found draft.now c) (words_at rows.old.rows cycle c)) }
    ensures others { OnOk result ((t c : ℕ) → (t ≡ cycle → ⊥) → words_at rows.new.rows t c ≡ words_at rows.old.rows t c) }
    ensures err { OnErr result (rows.new ≡ rows.old) }
{
    if draft.is_empty() {
        return Ok(());
    }
    // Each row has a cell for each component.
    let _count = rows.len();
    match rows.put_row(alloc, cycle, draft) {
        Ok(()) => Ok(()),
        Err(_) => Err(NoMemory),
    }
}

/// The components of a set have at a cycle what a step gives them; those are marked that had something else, and in `worded` those of them
/// that had other words. Where memory is wanting, no cell has another.
pub(super) fn put_each<G: Grid, M: WholeRow<G>>(
    rows: &mut Rows,
    memories: &mut Lists<G::Memory>,
    draft: &mut Draft,
    buffer: &mut Vec<u64>,
    ready: &mut Vec<Option<Change<G::Memory>>>,
    slots: &G::Slots,
    held: &mut Near<M>,
    near: &Neighbours,
    set: &Row,
    changes: &mut Row,
    worded: &mut Row,
    cycle: u32,
) -> Result<(), NoMemory>
    requires at { IsSetAt (G.rules.components slots.now) rows.old.width (length rows.old.rows) cycle set.now }
    requires each { AreAllEach (G.rules.components slots.now) memories.old ready.old.items changes.old worded.old }
    requires near { HoldsNear G.rules G.codec M.stands M.state slots.now held.old near.now }
    requires run { HoldsRunBefore G.rules G.codec slots.now rows.old.rows memories.old cycle }
    ensures each { AreAllEach (G.rules.components slots.now) memories.new ready.new.items changes.new worded.new }
    ensures held { HoldsWords G.rules G.codec M.stands M.state slots.now held.new }
    ensures put { OnOk result (AreCodesPut G.codec rows.old rows.new memories.old memories.new cycle set.now changes.new worded.new (run G.rules slots.now cycle)) }
    ensures err { OnErr result ((rows.new ≡ rows.old) × ((c t : ℕ) → memory_at memories.new c t ≡ memory_at memories.old c t)) }
{
    let alloc = *buffer.allocator();
    let end = rows.len();
    find_all::<G, M>(
        rows, memories, draft, buffer, ready, slots, held, near, set, changes, cycle,
    )?;
    put_draft(alloc, rows, draft, cycle)?;
    put_memories(memories, ready, changes, cycle, end);
    worded.clear_all();
    mark_draft(draft, worded);
    changes.add(worded);
    Ok(())
}
