//! The states that a row of all components holds, for those of a set.
ghost use Rattle.std.specs.Prelude.{◌≡◌, ℕ, ◌+◌, ◌-◌, ◌*◌, ◌<◌, ◌≤◌, ◌↔◌, OnOk, OnErr, length, true, false, None, [], not};
ghost use Rattle.grid_law.specs.Codec.{IsTold};
ghost use Rattle.change_rows.specs.Rows.{words_at};
ghost use Rattle.change_lists.specs.Changes.{list_at, changes_at, held_at as memory_at};
ghost use Rattle.cell_states.specs.Filling.{is_awake};
ghost use Rattle.cell_states.specs.Kept.{IsLaterCycle, IsOtherMemory, AreAsMany};
ghost use Rattle.cell_states.specs.Put.{IsSetAt};
ghost use Rattle.cell_states.specs.PutCodes.{AreWordsPut, AreReworded, AreCodesPut};
ghost use Rattle.cell_states.specs.Readied.{AreEach, IsReadied, KeepsOthers};
ghost use Rattle.cell_states.specs.Sets.{AreAllWide};

use super::changed::put_memories;
use super::memory::{Change, is_same, ready_memory};
use super::sets::{Sets, find_sets};
use crate::{Cell, WholeRow};
use cell_marks::Row;
use change_lists::Lists;
use change_rows::{Rows, Source};
use grid_law::{Grid, NoMemory};
use std::alloc::{AllocError, Global};

/// A row after a step, as the source of the words of its cycle.
#[derive(Drop)]
struct Stepped<'a, G: Grid, M: WholeRow<G>> {
    row: &'a M,
    slots: &'a G::Slots,
    moved: &'a Row,
}

impl<'a, G: Grid, M: WholeRow<G>> Source for Stepped<'a, G, M> {
    ghost has = { λ source c. M.stands source.row.now source.slots.now × (c < G.rules.components source.slots.now) };

    ghost words = { λ source c. G.codec.words (M.state source.row.now c) };

    ghost still = { λ source c. not (is_awake source.moved.now c) };

    fn moved(&self, w: usize) -> u64 {
        match self.moved.words().get(w) {
            Some(word) => *word,
            None => 0,
        }
    }

    fn first(&self, c: u32) -> u64 {
        self.row.first_word(self.slots, c)
    }

    fn write(&self, c: u32, buffer: &mut Vec<u64>) -> Result<(), AllocError> {
        self.row.words(self.slots, c, buffer)
    }
}

/// Where a cell has another memory than the row has after its step, marks its component, and keeps what is ready for it. No memory
/// changes.
fn ready_cell<G: Grid, M: WholeRow<G>>(
    memories: &mut Lists<G::Memory>,
    ready: &mut Vec<Option<Change<G::Memory>>>,
    slots: &G::Slots,
    row: &M,
    changes: &mut Row,
    cell: Cell,
) -> Result<(), NoMemory>
    requires there { cell.component < G.rules.components slots.now }
    requires each { AreEach (G.rules.components slots.now) memories.old ready.old.items changes.old }
    requires stands { M.stands row.now slots.now }
    requires unmarked { is_awake changes.old cell.component ≡ false }
    ensures each { AreEach (G.rules.components slots.now) memories.new ready.new.items changes.new }
    ensures others { KeepsOthers cell.component memories.old memories.new ready.old.items ready.new.items changes.old changes.new }
    ensures ready { OnOk result (IsReadied memories.new ready.new.items changes.new cell.cycle cell.component (G.codec.memory (M.state row.now cell.component))) }
{
    if row.has_memory(
        slots,
        cell.component,
        memories.at(cell.component, cell.cycle),
    ) {
        return Ok(());
    }
    changes.set(cell.component);
    let value = row.memory(*ready.allocator(), slots, cell.component)?;
    let change = ready_memory::<G>(memories, cell, value)?;
    ready[cell.component as usize] = change;
    Ok(())
}

/// The same of all components of a set; no other one is marked.
fn ready_all<G: Grid, M: WholeRow<G>>(
    memories: &mut Lists<G::Memory>,
    ready: &mut Vec<Option<Change<G::Memory>>>,
    slots: &G::Slots,
    row: &M,
    set: &Row,
    changes: &mut Row,
    cycle: u32,
) -> Result<(), NoMemory>
    requires components { length set.now ≡ G.rules.components slots.now }
    requires each { AreEach (G.rules.components slots.now) memories.old ready.old.items changes.old }
    requires stands { M.stands row.now slots.now }
    ensures each { AreEach (G.rules.components slots.now) memories.new ready.new.items changes.new }
    ensures same { (c : ℕ) → list_at memories.new c ≡ list_at memories.old c }
    ensures ready { OnOk result ((c : ℕ) → is_awake set.now c ≡ true → IsReadied memories.new ready.new.items changes.new cycle c (G.codec.memory (M.state row.now c))) }
    ensures unmarked { OnOk result ((c : ℕ) → is_awake set.now c ≡ false → is_awake changes.new c ≡ false) }
{
    changes.clear_all();
    // The number of a component is below this one, so that of the next fits.
    let _count = set.len();
    let mut next = 0;
    while let Some(component) = set.first_from(next) {
        let cell = Cell { cycle, component };
        ready_cell::<G, M>(memories, ready, slots, row, changes, cell)?;
        next = component + 1;
    }
    Ok(())
}

/// A cell has the memory of the one before it: whether it had another one.
fn carry<G: Grid>(memories: &mut Lists<G::Memory>, cell: Cell, end: u32) -> bool
    requires cycle { IsLaterCycle cell.cycle end }
    requires component { cell.component < length memories.old }
    ensures here { memory_at memories.new cell.component cell.cycle ≡ memory_at memories.old cell.component (cell.cycle - 1) }
    ensures other { IsOtherMemory memories.old memories.new cell.cycle cell.component end }
    ensures told { (result ≡ false) ↔ (memory_at memories.old cell.component cell.cycle ≡ memory_at memories.old cell.component (cell.cycle - 1)) }
{
    let (t, c) = (cell.cycle, cell.component);
    let other = match memories.sides(c, t) {
        Some(sides) => !is_same::<G>(sides.before, sides.at),
        None => false,
    };
    if other {
        let _ = memories.go_on(c, t, t + 1, end);
    }
    other
}

/// The same of a cell whose component is in a set: where it had another memory, its component is marked.
fn carry_cell<G: Grid>(
    memories: &mut Lists<G::Memory>,
    set: &Row,
    changes: &mut Row,
    cell: Cell,
    end: u32,
)
    requires cycle { IsLaterCycle cell.cycle end }
    requires component { cell.component < length memories.old }
    requires changes { length changes.old ≡ length memories.old }
    ensures many { AreAsMany memories.old memories.new changes.old changes.new }
    ensures here { is_awake set.now cell.component ≡ true → memory_at memories.new cell.component cell.cycle ≡ memory_at memories.old cell.component (cell.cycle - 1) }
    ensures marked { is_awake set.now cell.component ≡ true → is_awake changes.old cell.component ≡ false → (is_awake changes.new cell.component ≡ false) ↔ (memory_at memories.old cell.component cell.cycle ≡ memory_at memories.old cell.component (cell.cycle - 1)) }
    ensures cycles { (t : ℕ) → t < end → (t ≡ cell.cycle → ⊥) → memory_at memories.new cell.component t ≡ memory_at memories.old cell.component t }
    ensures others { (c : ℕ) → (c ≡ cell.component → is_awake set.now c ≡ false) → (changes_at memories.new c ≡ changes_at memories.old c) × (is_awake changes.new c ≡ is_awake changes.old c) }
{
    if set.has(cell.component) && carry::<G>(memories, cell, end) {
        changes.set(cell.component);
    }
}

/// The same of all components of a set.
fn carry_all<G: Grid>(
    memories: &mut Lists<G::Memory>,
    set: &Row,
    changes: &mut Row,
    cycle: u32,
    end: u32,
)
    requires cycle { IsLaterCycle cycle end }
    requires changes { length changes.old ≡ length memories.old }
    requires unmarked { (c : ℕ) → is_awake set.now c ≡ true → is_awake changes.old c ≡ false }
    ensures many { AreAsMany memories.old memories.new changes.old changes.new }
    ensures here { (c : ℕ) → is_awake set.now c ≡ true → memory_at memories.new c cycle ≡ memory_at memories.old c (cycle - 1) }
    ensures marked { (c : ℕ) → is_awake set.now c ≡ true → (is_awake changes.new c ≡ false) ↔ (memory_at memories.old c cycle ≡ memory_at memories.old c (cycle - 1)) }
    ensures cycles { (c t : ℕ) → t < end → (t ≡ cycle → ⊥) → memory_at memories.new c t ≡ memory_at memories.old c t }
    ensures others { (c : ℕ) → is_awake set.now c ≡ false → (changes_at memories.new c ≡ changes_at memories.old c) × (is_awake changes.new c ≡ is_awake changes.old c) }
{
    // Outside of the range nothing ever begins.
    let (low, high) = memories.range();
    for component in low..high {
        carry_cell::<G>(memories, set, changes, Cell { cycle, component }, end);
    }
}

/// The states of all components are told. Nothing is done when it runs.
fn are_told<G: Grid, M: WholeRow<G>>(slots: &G::Slots, row: &M, count: u32)
    requires stands { M.stands row.now slots.now }
    requires components { count ≤ G.rules.components slots.now }
    ensures { (c : ℕ) → c < count → IsTold G.codec (M.state row.now c) }
{
    for c in 0..count {
        row.is_told(slots, c);
    }
}

/// The same words once more, and nothing else.
fn copy_words(buffer: &mut Vec<u64>, words: &[u64]) -> Result<(), NoMemory>
    ensures { OnOk result (buffer.new.items ≡ words.now) }
{
    buffer.clear();
    buffer.extend_from_slice(words)?;
    Ok(())
}

/// The words that the row has after its step for the components of a set. Of the buffer those components are then the members that had
/// others; a bit behind the last one means nothing. Where memory is wanting, no words change.
fn put_words<G: Grid, M: WholeRow<G>>(
    rows: &mut Rows,
    buffer: &mut Vec<u64>,
    slots: &G::Slots,
    row: &M,
    set: &Row,
    moved: &Row,
    cycle: u32,
) -> Result<(), NoMemory>
    requires at { IsSetAt (G.rules.components slots.now) rows.old.width (length rows.old.rows) cycle set.now }
    requires stands { M.stands row.now slots.now }
    requires still { (c : ℕ) → is_awake set.now c ≡ true → is_awake moved.now c ≡ false → G.codec.words (M.state row.now c) ≡ words_at rows.old.rows (cycle - 1) c }
    ensures put { OnOk result (AreWordsPut rows.old rows.new cycle set.now (λ c. G.codec.words (M.state row.now c))) }
    ensures reworded { OnOk result (AreReworded rows.old cycle set.now (λ c. G.codec.words (M.state row.now c)) buffer.new.items) }
    ensures err { OnErr result (rows.new ≡ rows.old) }
{
    // Each row has a cell for each component.
    let _end = rows.len();
    let source: Stepped<'_, G, M> = Stepped { row, slots, moved };
    let words = set.words();
    copy_words(buffer, words)?;
    if set.count() == set.len() && rows.is_blank(cycle) {
        // All cells had no words, and each gets some.
        match rows.fill(cycle, &source) {
            Ok(()) => return Ok(()),
            Err(_) => return Err(NoMemory),
        }
    }
    match rows.put_from(cycle, words, &source, buffer.as_mut_slice()) {
        Ok(()) => Ok(()),
        Err(_) => Err(NoMemory),
    }
}

/// Before which cycle the cells of a set have to keep the memory that they have, once those of one cycle get another: where no cell has
/// words from that cycle on, no memory behind it means anything.
fn last_held(rows: &Rows, set: &Row, cycle: u32) -> u32
    requires within { cycle < length rows.now.rows }
    requires width { length set.now ≡ rows.now.width }
    ensures after { cycle < result }
    ensures before { result ≤ length rows.now.rows }
    ensures none { (t c : ℕ) → result ≤ t → is_awake set.now c ≡ true → words_at rows.now.rows t c ≡ [] }
{
    let end = rows.len();
    if rows.is_blank(cycle) && rows.next_change(cycle + 1, end, set.words()) == end {
        cycle + 1
    } else {
        end
    }
}

/// The components of a set have at a cycle what a row holds for them after its step; those are marked that had something else, and in
/// `worded` those that had other words. At other cycles all have what they had, but for a memory beside no words, which means nothing. Where
/// memory is wanting, no cell has another.
pub(super) fn put_whole<G: Grid, M: WholeRow<G>>(
    rows: &mut Rows,
    memories: &mut Lists<G::Memory>,
    buffer: &mut Vec<u64>,
    ready: &mut Vec<Option<Change<G::Memory>>>,
    sets: &mut Sets,
    slots: &G::Slots,
    row: &M,
    step: &M::Step,
    set: &Row,
    changes: &mut Row,
    worded: &mut Row,
    cycle: u32,
) -> Result<(), NoMemory>
    requires at { IsSetAt (G.rules.components slots.now) rows.old.width (length rows.old.rows) cycle set.now }
    requires wide { AreAllWide (G.rules.components slots.now) set.now memories.old ready.old.items changes.old worded.old sets.old }
    requires stands { M.stands row.now slots.now }
    requires still { (c : ℕ) → is_awake set.now c ≡ true → M.is_still step.now slots.now c ≡ true → G.codec.words (M.state row.now c) ≡ words_at rows.old.rows (cycle - 1) c }
    requires kept { (c : ℕ) → is_awake set.now c ≡ true → M.has_written step.now slots.now c ≡ false → memory_at memories.old c (cycle - 1) ≡ G.codec.memory (M.state row.now c) }
    ensures wide { AreAllWide (G.rules.components slots.now) set.now memories.new ready.new.items changes.new worded.new sets.new }
    ensures put { OnOk result (AreCodesPut G.codec rows.old rows.new memories.old memories.new cycle set.now changes.new worded.new (M.state row.now)) }
    ensures err { OnErr result ((rows.new ≡ rows.old) × ((c t : ℕ) → memory_at memories.new c t ≡ memory_at memories.old c t)) }
{
    let end = last_held(rows, set, cycle);
    find_sets::<G, M>(slots, step, set, sets);
    are_told::<G, M>(slots, row, set.len());
    match ready_all::<G, M>(memories, ready, slots, row, &sets.written, changes, cycle) {
        Ok(()) => {}
        Err(_) => return Err(NoMemory),
    }
    match put_words::<G, M>(rows, buffer, slots, row, set, &sets.moved, cycle) {
        Ok(()) => {}
        Err(_) => return Err(NoMemory),
    }
    // Marked so far are the components that wrote another memory than their cell has. One that it has already isn't put again: its list
    // would have a change that is none, and there cycles that are settled at once as alike would end.
    put_memories(memories, ready, changes, cycle, end);
    carry_all::<G>(memories, &sets.unwritten, changes, cycle, end);
    worded.clear_all();
    worded.add_words(buffer.as_slice());
    changes.add(worded);
    Ok(())
}
