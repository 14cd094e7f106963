//! Sets of components on the way to a row.
ghost use Rattle.std.specs.Prelude.{◌≡◌, ℕ, ◌+◌, ◌-◌, ◌^◌, ◌<◌, ◌≤◌, ◌||◌, ◌&&◌, IfOk, length, true, false, not};
ghost use Rattle.change_rows.specs.Rows.{words_at};
ghost use Rattle.change_rows.specs.Marks.{is_in};
ghost use Rattle.change_lists.specs.Changes.{held_at as memory_at, held_before};
ghost use Rattle.cell_states.specs.Filling.{is_awake};
ghost use Rattle.cell_states.specs.Sets.{IsWide};

use crate::WholeRow;
use cell_marks::Row;
use change_lists::Lists;
use change_rows::Rows;
use grid_law::{Grid, NoMemory};
use std::alloc::Global;

/// The components that a step may have moved, and of those that are due at a cycle the ones whose memory it may have written, and the
/// others. Between two calls they mean nothing.
#[derive(Drop)]
pub(super) struct Sets {
    pub moved: Row,
    pub written: Row,
    pub unwritten: Row,
}

impl Sets {
    pub fn new(alloc: Global, count: u32) -> Result<Sets, NoMemory>
        ensures { IfOk result (IsWide count) }
    {
        Ok(Sets {
            moved: Row::new(alloc, count, false)?,
            written: Row::new(alloc, count, false)?,
            unwritten: Row::new(alloc, count, false)?,
        })
    }
}

/// Marks just the components of a set.
fn only(marks: &mut Row, set: &Row)
    requires { length marks.old ≡ length set.now }
    ensures len { length marks.new ≡ length marks.old }
    ensures marks { (c : ℕ) → c < length marks.old → is_awake marks.new c ≡ is_awake set.now c }
{
    marks.clear_all();
    marks.add(set);
}

/// Marks the components whose words may begin at a cycle, too.
fn add_begun(rows: &Rows, cycle: u32, marks: &mut Row)
    requires width { length marks.old ≡ rows.now.width }
    ensures len { length marks.new ≡ length marks.old }
    ensures more { (c : ℕ) → is_awake marks.old c ≡ true → is_awake marks.new c ≡ true }
    ensures same { (c : ℕ) → c < length marks.old → is_awake marks.new c ≡ false → words_at rows.now.rows cycle c ≡ words_at rows.now.rows (cycle - 1) c }
{
    for w in 0..marks.len().div_ceil(64) {
        let w = w as usize;
        marks.add_word(w, rows.begin_word(cycle, w));
    }
}

/// Finds the components that a step may have moved, and those of a set whose memory it may have written, and the others of the set.
pub(super) fn find_sets<G: Grid, M: WholeRow<G>>(
    slots: &G::Slots,
    step: &M::Step,
    set: &Row,
    sets: &mut Sets,
)
    requires components { length set.now ≡ G.rules.components slots.now }
    requires wide { IsWide (length set.now) sets.old }
    ensures wide { IsWide (length set.now) sets.new }
    ensures moved { (c : ℕ) → c < length set.now → is_awake sets.new.moved c ≡ not (M.is_still step.now slots.now c) }
    ensures written { (c : ℕ) → c < length set.now → is_awake sets.new.written c ≡ (M.has_written step.now slots.now c && is_awake set.now c) }
    ensures unwritten { (c : ℕ) → c < length set.now → is_awake sets.new.unwritten c ≡ (is_awake set.now c && not (M.has_written step.now slots.now c)) }
{
    M::moved(step, slots, &mut sets.moved);
    M::written(step, slots, &mut sets.written);
    sets.written.keep(set);
    only(&mut sets.unwritten, set);
    sets.unwritten.remove(&sets.written);
}

/// Marks a component where its memory may begin at a cycle behind one and up to another, too.
fn add_begun_in<M: Drop>(memories: &Lists<M>, c: u32, from: u32, to: u32, marks: &mut Row)
    requires order { from ≤ to }
    requires fits { to + 1 < 2 ^ 32 }
    requires component { c < length marks.old }
    ensures len { length marks.new ≡ length marks.old }
    ensures others { (d : ℕ) → (d ≡ c → ⊥) → is_awake marks.new d ≡ is_awake marks.old d }
    ensures more { is_awake marks.old c ≡ true → is_awake marks.new c ≡ true }
    ensures here { is_awake marks.new c ≡ false → memory_at memories.now c to ≡ memory_at memories.now c from }
{
    if memories.next(c, from + 1, to + 1) <= to {
        marks.set(c);
    }
}

/// Marks just components, those at least that have at a cycle other words or another memory than at an earlier one.
pub(super) fn find_changed<M: Drop>(
    rows: &Rows,
    memories: &Lists<M>,
    from: u32,
    to: u32,
    marks: &mut Row,
)
    requires order { from ≤ to }
    requires within { to < length rows.now.rows }
    requires width { length marks.old ≡ rows.now.width }
    requires lists { length memories.now ≡ length marks.old }
    ensures len { length marks.new ≡ length marks.old }
    ensures words { (c : ℕ) → c < length marks.old → is_awake marks.new c ≡ false → words_at rows.now.rows to c ≡ words_at rows.now.rows from c }
    ensures memory { (c : ℕ) → c < length marks.old → is_awake marks.new c ≡ false → memory_at memories.now c to ≡ memory_at memories.now c from }
{
    // Each row has a cell for each component, and there are fewer than 2^32.
    let _len = rows.len();
    marks.clear_all();
    for cycle in from + 1..to + 1 {
        add_begun(rows, cycle, marks);
    }
    let (low, high) = memories.range();
    for c in low..high {
        add_begun_in(memories, c, from, to, marks);
    }
}
