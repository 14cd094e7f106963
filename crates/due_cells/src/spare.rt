//! What settling a cycle at once takes beside the cells.
ghost use Rattle.std.specs.Prelude.{◌≡◌, ℕ, ◌+◌, ◌≤◌, ◌<◌, true, false, IfOk, length};
ghost use Rattle.cell_states.specs.Filling.{is_awake};
ghost use Rattle.cell_states.specs.Put.{AreMarks};
ghost use Rattle.cell_states.specs.Versions.{any_changes};
ghost use Rattle.due_cells.specs.Readers.{IsIndex, IsIndexed};
ghost use Rattle.due_cells.specs.Spares.{AreWorded, IsLeftOut, IsWide};

use crate::cells::Cells;
use crate::readers::Readers;
use crate::rows::reach_in;
use cell_marks::Row;
use cell_states::{CellRange, Room};
use grid_law::{Grid, NoMemory};
use std::alloc::Global;

/// What settling at once takes beside the table: which components change, which read one of those, and the cells that may
/// hold other states afterwards.
#[derive(Drop)]
pub struct Spare {
    pub changes: Row,
    pub reached: Row,
    pub ranges: Vec<CellRange>,
    /// For the versions of a cycle.
    pub room: Room,
    /// The components that got other words, those whose cells are settled by what is near them, and the cells of a cycle that are due and
    /// hold the run already.
    pub worded: Row,
    pub left: Row,
    pub known: Row,
    pub known_at: u32,
    /// How many cycles in a row were tried in vain, and how many are to be let by before the next try.
    pub failed: u32,
    pub wait: u32,
}

impl Spare {
    /// For so many components.
    pub fn new(alloc: Global, count: u32) -> Result<Spare, NoMemory>
        ensures wide { IfOk result (IsWide count) }
        ensures none { IfOk result (λ s. s.known_at ≡ 0) }
    {
        Ok(Spare {
            changes: Row::new(alloc, count, false)?,
            reached: Row::new(alloc, count, false)?,
            ranges: Vec::new(alloc),
            room: Room::new(alloc),
            worded: Row::new(alloc, count, false)?,
            left: Row::new(alloc, count, false)?,
            known: Row::new(alloc, count, false)?,
            known_at: 0,
            failed: 0,
            wait: 0,
        })
    }
}

/// Marks of the cells that are due at a cycle just those that aren't known to hold the run.
pub fn find_left(left: &mut Row, due: &Row, known: &Row, known_at: u32, cycle: u32)
    requires width { length left.old ≡ length due.now }
    requires known { length known.now ≡ length due.now }
    ensures width { length left.new ≡ length left.old }
    ensures due { (c : ℕ) → is_awake left.new c ≡ true → is_awake due.now c ≡ true }
    ensures rest { (c : ℕ) → is_awake due.now c ≡ true → is_awake left.new c ≡ false → (known_at ≡ cycle) × (is_awake known.now c ≡ true) }
{
    left.clear_all();
    left.add(due);
    if known_at == cycle {
        left.remove(known);
    }
}

/// Marks just the components that read one that changes, and those of them that read none with other words.
fn reach_by_words<G: Grid>(
    slots: &G::Slots,
    readers: &Readers,
    changes: &Row,
    worded: &Row,
    left: &mut Row,
    reached: &mut Row,
    known: &mut Row,
)
    requires index { IsIndex G.rules slots.now readers.now }
    requires worded { AreWorded (G.rules.components slots.now) changes.now worded.now }
    requires left { length left.old ≡ G.rules.components slots.now }
    requires readers { AreMarks (G.rules.components slots.now) reached.old known.old }
    ensures left { length left.new ≡ length left.old }
    ensures readers { AreMarks (G.rules.components slots.now) reached.new known.new }
    ensures reached { (c : ℕ) → c < G.rules.components slots.now
        → is_awake reached.new c ≡ any_changes changes.now (G.rules.near slots.now c) (G.rules.components slots.now) }
    ensures known { (c : ℕ) → c < G.rules.components slots.now → is_awake known.new c ≡ true
        → any_changes worded.now (G.rules.near slots.now c) (G.rules.components slots.now) ≡ false }
{
    reach_in::<G>(slots, readers, worded, reached);
    left.clear_all();
    left.add(changes);
    left.remove(worded);
    reach_in::<G>(slots, readers, left, known);
    known.remove(reached);
    reached.add(known);
}

/// Marks just the components that read one that changes. Those are known that aren't due one cycle later, don't change, and read only
/// components that have another memory, which they don't see: what they hold there is what the run has.
pub fn find_reached<G: Grid>(
    cells: &Cells<G>,
    slots: &G::Slots,
    readers: &Readers,
    cycle: u32,
    spare: &mut Spare,
)
    requires there { IsIndexed G.rules slots.now cells.now cycle readers.now }
    requires wide { IsWide (G.rules.components slots.now) spare.old }
    requires among { (c : ℕ) → is_awake spare.old.worded c ≡ true → is_awake spare.old.changes c ≡ true }
    ensures wide { IsWide (G.rules.components slots.now) spare.new }
    ensures kept { (spare.new.changes ≡ spare.old.changes) × (spare.new.ranges ≡ spare.old.ranges) × (spare.new.room ≡ spare.old.room) }
    ensures reached { (c : ℕ) → c < G.rules.components slots.now
        → is_awake spare.new.reached c ≡ any_changes spare.old.changes (G.rules.near slots.now c) (G.rules.components slots.now) }
    ensures at { 0 < spare.new.known_at → (spare.new.known_at ≡ cycle + 1) × (cycle + 1 < length cells.now) }
    ensures known { 0 < spare.new.known_at → (c : ℕ) → is_awake spare.new.known c ≡ true
        → IsLeftOut G.rules slots.now cells.now (cycle + 1) spare.old.changes spare.old.worded c }
{
    // There are fewer cycles than 2^32, so the next one's number fits.
    let cycles = cells.cycles();
    spare.known_at = 0;
    if spare.changes.count() == spare.worded.count() {
        reach_in::<G>(slots, readers, &spare.changes, &mut spare.reached);
        return;
    }
    reach_by_words::<G>(
        slots,
        readers,
        &spare.changes,
        &spare.worded,
        &mut spare.left,
        &mut spare.reached,
        &mut spare.known,
    );
    if cycle + 1 < cycles {
        spare.known.remove(&spare.changes);
        spare.known.remove(cells.due_row(cycle + 1));
        spare.known_at = cycle + 1;
    }
}
