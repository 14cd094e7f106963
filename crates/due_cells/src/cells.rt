//! What is held for the cells.
ghost use Rattle.std.specs.Prelude.{◌≡◌, ℕ, ◌+◌, ◌-◌, ◌<◌, ◌≤◌, ◌++◌, ◌^◌, ◌↔◌, ◌||◌, IsTrue, All, IfOk, OnOk, OnErr, IfErr, MatchResult, length, replicate, map, take, option_map, is_some, true, false, ◌==◌, ◌&&◌, MatchOption, Some, None, if◌then◌else◌, nat_lt, slice_index_or, []};
ghost use Rattle.std.specs.Arc.{arc_value};
ghost use Rattle.due_cells.specs.Seen.{fresh, stored, marked, held_at, row_at, due_in_row, due_up_to};
ghost use Rattle.due_cells.specs.Inputs.{states_of};
ghost use Rattle.cell_states.specs.Near.{has, near_at};
ghost use Rattle.due_cells.specs.NextDue.{IsNextDueInRow};
ghost use Rattle.due_cells.specs.Layout.{cleared, IsOtherCell, IsOtherCycle, AreCellsRepeated};
ghost use Rattle.cell_states.specs.Versions.{version_at, room_at, lists, IsOtherRow, any_changes};
ghost use Rattle.due_cells.specs.Noted.{noted};
ghost use Rattle.due_cells.specs.Ranges.{is_marked, AreBetween, AreLater};
ghost use Rattle.cell_marks.specs.Marked.{has as has_mark};
ghost use Rattle.cell_states.specs.Filling.{is_awake};

mod looks;
mod marking;
mod standing;
mod whole;

use cell_marks::{Marks, Row};
use cell_states::{
    Cell, CellRange, Neighbours, Room, States, Versions, begin_in, grow_rows, note_in, rows_of,
    take_room_in, version_in,
};
use grid_law::{Grid, NoMemory};
use marking::{make_rooms, mark_later, mark_list, mark_others};
use std::alloc::Global;
use std::marker::Model;
use std::sync::Arc;
pub use whole::no_versions;
pub(crate) use whole::{put_due, put_each};

/// The cells of the first cycles: the states, and by cycle which cells are due, and their versions.
pub struct Cells<G: Grid> {
    states: States<G>,
    due: Marks,
    versions: Vec<Versions>,
}

// Not derived: whoever drops cells calls this, and proves nothing of its parts anew.
impl<G: Grid> Drop for Cells<G> {
    fn drop(self) {
        let Cells {
            states,
            due,
            versions,
        } = self;
        drop(states);
        drop(due);
        drop(versions);
    }
}

impl<G: Grid> Model for Cells<G> {
    ghost use Rattle.std.specs.Prelude.{List};
    ghost use Rattle.due_cells.specs.Seen.{Held};
    ghost use Rattle.due_cells.specs.Layout.{rows_of, IsLayout, IsStated};
    ghost use Rattle.cell_states.specs.Stated.{state_at};
    ghost use Rattle.cell_states.specs.Versions.{lists};

    ghost Value = { List (List (Held G.State)) };

    ghost view = { λ k. rows_of (state_at k.states) k.due (lists k.versions.items) };

    ghost invariant = { λ k. IsStated k.states k.due × IsLayout k.due (lists k.versions.items) };
}

impl<G: Grid> Cells<G> {
    /// New cells of `cycles` cycles, all due.
    pub fn new(alloc: Global, count: u32, cycles: u32, version: u64) -> Result<Cells<G>, NoMemory>
        ensures { IfOk result (λ k. k ≡ replicate cycles (replicate count (fresh version))) }
    {
        let states = States::new(alloc, count, cycles)?;
        let versions = rows_of(alloc, cycles, count, version)?;
        let mut due = Marks::new(alloc, count);
        due.grow(alloc, cycles, true)?;
        Ok(Cells {
            states,
            due,
            versions,
        })
    }

    /// Where its memory comes from.
    pub fn allocator(&self) -> Global {
        self.states.allocator()
    }

    /// How many cycles there are.
    pub fn cycles(&self) -> u32
        ensures { result ≡ length self.now }
    {
        self.due.len()
    }

    /// One more owner of the state that a cell holds.
    pub fn shared(&self, cell: Cell) -> Result<Option<Arc<G::State>>, NoMemory>
        ensures { IfOk result (λ o. option_map arc_value o ≡ (held_at self.now cell.cycle cell.component).state) }
    {
        self.states.shared(cell)
    }

    /// Whether a cell holds the state of the cell one cycle earlier, known without a look at
    /// either; there may be such cells besides.
    #[inline(always)]
    pub fn stays(&self, cell: Cell) -> bool
        ensures { result ≡ true → (0 < cell.cycle) × ((held_at self.now (cell.cycle - 1) cell.component).state ≡ (held_at self.now cell.cycle cell.component).state) }
    {
        self.states.stays(cell)
    }

    /// Whether a cell is due; one that isn't there isn't.
    pub fn is_due(&self, cell: Cell) -> bool
        ensures { result ≡ (held_at self.now cell.cycle cell.component).is_due }
    {
        self.due.has(cell.cycle, cell.component)
    }

    /// The version of a due cell, 0 of any other.
    pub fn version(&self, cell: Cell) -> u64
        ensures { result ≡ (held_at self.now cell.cycle cell.component).version }
    {
        if self.is_due(cell) {
            version_in(&self.versions, cell.cycle, cell.component)
        } else {
            0
        }
    }

    /// How many cells of a cycle are due; no cell is looked at.
    pub fn due_count(&self, cycle: u32) -> u32
        ensures { result ≡ due_in_row (row_at self.now cycle) }
    {
        self.due.row_count(cycle)
    }

    /// How many cells are due; one number tells it.
    pub fn due_total(&self) -> u64
        ensures { result ≡ due_up_to self.now (length self.now) }
    {
        self.due.total()
    }

    /// Whether no cell of another cycle is due; two numbers tell it.
    pub fn is_due_alone(&self, cycle: u32) -> bool
        ensures { result ≡ true → (t c : ℕ) → (t ≡ cycle → ⊥) → (held_at self.now t c).is_due ≡ false }
    {
        self.due_total() == u64::from(self.due_count(cycle))
    }

    /// How many cells are due at the cycles up to t.
    pub fn due_to(&self, t: u32) -> u64
        ensures { result ≡ due_up_to self.now (t + 1) }
    {
        self.due.count_to(t)
    }

    /// The first due cell of a cycle, at or after that component.
    pub fn next_due(&self, cycle: u32, from: u32) -> Option<u32>
        ensures { MatchOption result
            ((k : ℕ) → from ≤ k → (held_at self.now cycle k).is_due ≡ false)
            (λ c. IsNextDueInRow (row_at self.now cycle) from c × (c < length (row_at self.now cycle))) }
    {
        self.due.first_from(cycle, from)
    }

    /// Whether the components that are due at a cycle, or among those, are just those due at another one; 64 in one step.
    pub fn is_due_alike(&self, cycle: u32, among: &Row, other: u32) -> bool
        requires cycle { cycle < length self.now }
        requires other { other < length self.now }
        requires width { length among.now ≡ length (row_at self.now cycle) }
        ensures { result ≡ true → (c : ℕ) → c < length among.now → ((held_at self.now cycle c).is_due || is_awake among.now c) ≡ (held_at self.now other c).is_due }
    {
        self.due.is_alike(cycle, among, other)
    }

    /// Puts another state for a cell, which isn't due then. Where memory is wanting, nothing is
    /// changed, and the state comes back.
    pub fn put(&mut self, cell: Cell, state: Arc<G::State>) -> Result<(), Arc<G::State>>
        requires cycle { cell.cycle < length self.old }
        requires component { cell.component < length (row_at self.old cell.cycle) }
        ensures ok { OnOk result (IsOtherCell self.old self.new cell.cycle cell.component (stored (arc_value state))) }
        ensures err { OnErr result (self.new ≡ self.old) }
        ensures back { IfErr result (λ back. arc_value back ≡ arc_value state) }
    {
        match self.states.put(cell, &state) {
            Ok(()) => {
                self.due.clear(cell.cycle, cell.component);
                Ok(())
            }
            Err(_) => Err(state),
        }
    }

    /// Gives a cell the state of the cell one cycle earlier, and then it isn't due. Where memory is
    /// wanting, nothing is changed.
    pub fn repeat(&mut self, cell: Cell) -> Result<(), NoMemory>
        requires cycle { cell.cycle < length self.old }
        requires component { cell.component < length (row_at self.old cell.cycle) }
        requires later { 0 < cell.cycle }
        ensures ok { OnOk result (IsOtherCell self.old self.new cell.cycle cell.component
            (cleared (held_at self.old (cell.cycle - 1) cell.component).state)) }
        ensures err { OnErr result (self.new ≡ self.old) }
    {
        match self.states.repeat(cell) {
            Ok(()) => {
                self.due.clear(cell.cycle, cell.component);
                Ok(())
            }
            Err(_) => Err(NoMemory),
        }
    }

    /// Lets a cell keep its state, and then it isn't due.
    pub fn keep(&mut self, cell: Cell)
        requires cycle { cell.cycle < length self.old }
        requires component { cell.component < length (row_at self.old cell.cycle) }
        ensures { IsOtherCell self.old self.new cell.cycle cell.component
            (cleared (held_at self.old cell.cycle cell.component).state) }
    {
        self.due.clear(cell.cycle, cell.component);
    }

    /// Makes the cells of these components at a cycle due, with that version. Takes no memory but that room.
    pub fn mark(&mut self, cycle: u32, components: &[u32], version: u64, room: &mut Room)
        requires cycle { cycle < length self.old }
        requires there { All (λ c. c < length (row_at self.old cycle)) components.now }
        requires room { length (row_at self.old cycle) ≤ room.old }
        ensures len { length self.new ≡ length self.old }
        ensures lens { (t : ℕ) → length (row_at self.new t) ≡ length (row_at self.old t) }
        ensures at { (t c : ℕ) → held_at self.new t c
            ≡ (if (t == cycle) && has components.now c then marked (held_at self.old t c) version else held_at self.old t c) }
    {
        take_room_in(&mut self.versions, cycle, room);
        mark_list(
            &mut self.due,
            &mut self.versions,
            cycle,
            components,
            version,
        );
    }

    /// Makes the cells of these ranges due, with that version, none of which is before a cycle. The components of those ranges that have
    /// all cycles from 1 on to before one are marked, and listed too: they are marked together, a cycle at a time. Where memory is
    /// wanting, nothing is changed.
    pub fn mark_ranges(
        &mut self,
        ranges: &[CellRange],
        from: u32,
        to: u32,
        row: &Row,
        list: &[u32],
        version: u64,
    ) -> Result<(), NoMemory>
        requires some { 0 < to }
        requires to { to ≤ length self.old }
        requires between { AreBetween from to (length row.now) ranges.now }
        requires whole { (t : ℕ) → t < length self.old → length (row_at self.old t) ≡ length row.now }
        requires later { AreLater ranges.now to row.now list.now }
        ensures marked { OnOk result ((t c : ℕ) → held_at self.new t c
            ≡ (if is_marked ranges.now t c then marked (held_at self.old t c) version else held_at self.old t c)) }
        ensures lens { OnOk result ((length self.new ≡ length self.old) × ((t : ℕ) → length (row_at self.new t) ≡ length (row_at self.old t))) }
        ensures err { OnErr result (self.new ≡ self.old) }
    {
        make_rooms(&self.due, &mut self.versions, from, to)?;
        mark_later(&mut self.due, &mut self.versions, row, list, to, version);
        mark_others(&mut self.due, &mut self.versions, ranges, to, version);
        Ok(())
    }

    /// Makes cells of a cycle due, as the stores of the components that changed one cycle earlier do one after another, the clock being
    /// `clock` before them. That they changed is noted, and no version is written, but where changes are noted already of which cells
    /// are due. Takes no memory but that room.
    pub fn note(
        &mut self,
        cycle: u32,
        near: &Arc<Neighbours>,
        changes: &Row,
        reached: &Row,
        clock: u64,
        room: &mut Room,
    )
        requires cycle { cycle < length self.old }
        requires width { length changes.now ≡ length (row_at self.old cycle) }
        requires reached_width { length reached.now ≡ length (row_at self.old cycle) }
        requires reached { (c : ℕ) → c < length changes.now → is_awake reached.now c ≡ any_changes changes.now (near_at (arc_value near.now) c) (length changes.now) }
        requires fits { clock + length changes.now < 2 ^ 64 }
        requires room { length changes.now ≤ room.old }
        ensures other { IsOtherCycle self.old self.new cycle }
        ensures noted { (c : ℕ) → c < length changes.now
            → held_at self.new cycle c ≡ noted (held_at self.old cycle c) changes.now (near_at (arc_value near.now) c) clock (length changes.now) }
    {
        begin_idle(&mut self.versions, &self.due, cycle, clock);
        note_in(&mut self.versions, cycle, near, changes, clock, room);
        self.due.set_all(cycle, reached);
    }

    /// Removes the cycles from n on.
    pub fn truncate(&mut self, n: u32)
        ensures { self.new ≡ take n self.old }
    {
        self.states.truncate(n);
        self.due.truncate(n);
        self.versions.truncate(n as usize);
    }

    /// Adds m cycles of new cells, which are due; where memory is wanting, nothing is changed.
    pub fn grow(&mut self, m: u32, version: u64) -> Result<(), NoMemory>
        requires some { 0 < length self.old }
        requires fits { length self.old + m < 2 ^ 32 }
        ensures ok { OnOk result (self.new ≡ self.old ++ replicate m (replicate (length (row_at self.old 0)) (fresh version))) }
        ensures err { OnErr result (self.new ≡ self.old) }
    {
        let alloc = self.states.allocator();
        let count = self.states.width();
        let n = self.due.len();
        match self.states.grow(m) {
            Ok(()) => {}
            Err(_) => return Err(NoMemory),
        }
        match grow_due(&mut self.due, &mut self.versions, alloc, m, count, version) {
            Ok(()) => {}
            Err(_) => {
                self.states.truncate(n);
                return Err(NoMemory);
            }
        }
        Ok(())
    }

    /// Whether all these components have a state at a cycle.
    pub fn has_states(&self, cycle: u32, near: &[u32]) -> bool
        ensures { result ≡ is_some (states_of (row_at self.now cycle) near.now) }
    {
        for component in near {
            let component = *component;
            if !self.has_state(Cell { cycle, component }) {
                return false;
            }
        }
        true
    }

    /// Puts the states of these components at a cycle into `states`, where all of them have one.
    pub fn share_states(
        &self,
        cycle: u32,
        near: &[u32],
        states: &mut Vec<Arc<G::State>>,
    ) -> Result<bool, NoMemory>
        ensures { IfOk result (λ all. (if all then Some (map arc_value states.new.items) else None) ≡ states_of (row_at self.now cycle) near.now) }
    {
        states.clear();
        states.reserve(near.len())?;
        for component in near {
            let component = *component;
            match self.shared(Cell { cycle, component })? {
                Some(state) => states.push(state)?,
                None => return Ok(false),
            }
        }
        Ok(true)
    }

    /// Whether each of these components holds at a cycle the state of the cycle before, known
    /// without a look at any state.
    #[inline(always)]
    pub fn all_stay(&self, cycle: u32, near: &[u32]) -> bool
        ensures { result ≡ true → All (λ c. (held_at self.now (cycle - 1) c).state ≡ (held_at self.now cycle c).state) near.now }
    {
        for component in near {
            let component = *component;
            if !self.stays(Cell { cycle, component }) {
                return false;
            }
        }
        true
    }
}

/// Whether these components hold these states at a cycle.
pub fn are_held<G: Grid>(
    cells: &Cells<G>,
    cycle: u32,
    near: &[u32],
    states: &[Arc<G::State>],
) -> bool
    ensures { IsTrue result ↔ (states_of (row_at cells.now cycle) near.now ≡ Some (map arc_value states.now)) }
{
    if near.len() != states.len() {
        return false;
    }
    for i in 0..near.len() {
        let component = near[i];
        if !cells.holds(Cell { cycle, component }, &states[i]) {
            return false;
        }
    }
    true
}

/// Adds marks and versions of m cycles of new cells; where memory is wanting, nothing is changed.
fn grow_due(
    due: &mut Marks,
    versions: &mut Vec<Versions>,
    alloc: Global,
    m: u32,
    count: u32,
    version: u64,
) -> Result<(), NoMemory>
    requires fits { length due.old.rows + m < 2 ^ 32 }
    ensures due { MatchResult result
        (λ _. due.new ≡ record { width = due.old.width; rows = due.old.rows ++ replicate m (replicate due.old.width true) })
        (λ _. due.new ≡ due.old) }
    ensures ok { OnOk result (lists versions.new.items ≡ lists versions.old.items ++ replicate m (replicate count version)) }
    ensures err { OnErr result (versions.new.items ≡ versions.old.items) }
{
    let n = due.len();
    match due.grow(alloc, m, true) {
        Ok(()) => {}
        Err(_) => return Err(NoMemory),
    }
    match grow_rows(versions, alloc, m, count, version) {
        Ok(()) => {}
        Err(_) => {
            due.truncate(n);
            return Err(NoMemory);
        }
    }
    Ok(())
}

/// Gives all cells of a cycle one version, where none of them is due: no version counts there, and the cells that become due have that
/// one, without a version for each.
#[inline(always)]
fn begin_idle(versions: &mut Vec<Versions>, due: &Marks, t: u32, version: u64)
    ensures row { IsOtherRow versions.old.items versions.new.items t }
    ensures room { room_at versions.new.items t ≡ room_at versions.old.items t }
    ensures due { (u c : ℕ) → has_mark due.now.rows u c ≡ true → version_at (lists versions.new.items) u c ≡ version_at (lists versions.old.items) u c }
{
    if due.row_count(t) > 0 {
        return;
    }
    begin_in(versions, t, version);
}

/// Takes the marks of these rows away. Where none is left anywhere, no further row is looked at.
fn clear_rows(due: &mut Marks, from: u32, to: u32)
    requires after { from ≤ to }
    requires whole { (t : ℕ) → t < length due.old.rows → length (slice_index_or due.old.rows t []) ≡ due.old.width }
    requires end { to ≤ length due.old.rows }
    ensures width { due.new.width ≡ due.old.width }
    ensures len { length due.new.rows ≡ length due.old.rows }
    ensures cleared { (t : ℕ) → from ≤ t → t < to → slice_index_or due.new.rows t [] ≡ replicate due.old.width false }
    ensures earlier { (t : ℕ) → t < from → slice_index_or due.new.rows t [] ≡ slice_index_or due.old.rows t [] }
    ensures later { (t : ℕ) → to ≤ t → slice_index_or due.new.rows t [] ≡ slice_index_or due.old.rows t [] }
{
    for t in from..to {
        if due.total() == 0 {
            return;
        }
        due.clear_row(t);
    }
}

/// Lets the components that change keep the state of the cycle before `from` to before `to`, and no cell of these cycles
/// is due then. Where memory is wanting, nothing is changed.
pub fn repeat_cells<G: Grid>(
    cells: &mut Cells<G>,
    changes: &Row,
    from: u32,
    to: u32,
) -> Result<(), NoMemory>
    requires later { 0 < from }
    requires after { from ≤ to }
    requires within { to ≤ length cells.old }
    requires width { (t : ℕ) → t < length cells.old → length (row_at cells.old t) ≡ length changes.now }
    ensures len { length cells.new ≡ length cells.old }
    ensures lens { (t : ℕ) → t < length cells.old → length (row_at cells.new t) ≡ length changes.now }
    ensures repeated { OnOk result (AreCellsRepeated cells.old cells.new changes.now from to) }
    ensures err { OnErr result (cells.new ≡ cells.old) }
{
    match cells.states.repeat_changed(changes, from, to) {
        Ok(()) => {}
        Err(_) => return Err(NoMemory),
    }
    clear_rows(&mut cells.due, from, to);
    Ok(())
}
