//! Settling at once the cycles in which the same happens as in the one before them.
ghost use Rattle.std.specs.Prelude.{◌≡◌, ℕ, ◌+◌, ◌-◌, ◌*◌, ◌^◌, ◌<◌, ◌≤◌, ◌||◌, IfNone, IfSome, IfOk, true, false, length, MatchOption};
ghost use Rattle.due_cells.specs.Seen.{Seen, held_at};
ghost use Rattle.cell_table.specs.Cells.{IsThere, AtOrAfter};
ghost use Rattle.cell_states.specs.Near.{has};
ghost use Rattle.cell_states.specs.Filling.{is_awake};
ghost use Rattle.cell_table.specs.Settling.{NoneDueBefore, IsAt};
ghost use Rattle.cell_table.specs.Tended.{IsMarked};
ghost use Rattle.cell_table.specs.Advances.{Advances, PassesCycles};
ghost use Rattle.cell_states.specs.Versions.{any_changes};
ghost use Rattle.cell_table.specs.Repeating.{BeginsAlike, StaysBefore, StaysAlike, IsAlike, StaysAlikeTo};
ghost use Rattle.due_cells.specs.Spares.{IsSpare, IsWide};

use super::Table;
use crate::watcher::Watcher;
use cell_marks::Row;
use cell_states::{Cell, CellRange};
use due_cells::{
    Spare, clock_filled, has_room, mark_changed, no_versions, ranges_of, reach_in, repeat_cells,
};
use grid_law::{Grid, NoMemory};
use std::alloc::Global;

/// How many cycles are let by at most before the next try.
const LONGEST_WAIT: u32 = 16;

/// Where a pass over the due cells has come to, and how many of them were computed on the way.
#[derive(Clone, Copy)]
pub(super) struct Passed {
    pub to: Cell,
    pub computed: u64,
}

impl<G: Grid> Table<G> {
    /// Whether a due cell gets the state of the cell before, known without a step. Where it holds another one its component
    /// is marked as one that changes.
    fn is_alike(&self, cell: Cell, changes: &mut Row) -> bool
        requires there { IsThere G.rules self.now cell.cycle cell.component }
        requires later { 2 ≤ cell.cycle }
        requires none { NoneDueBefore G.rules self.now cell.cycle 0 }
        requires width { cell.component < length changes.old }
        requires unmarked { is_awake changes.old cell.component ≡ false }
        ensures len { length changes.new ≡ length changes.old }
        ensures others { (c : ℕ) → (c ≡ cell.component → ⊥) → is_awake changes.new c ≡ is_awake changes.old c }
        ensures alike { result ≡ true → IsAlike G.rules self.now cell.cycle cell.component (is_awake changes.new cell.component) }
    {
        let near = self.near(cell.component);
        if !self.cells.all_stay(cell.cycle - 1, near) {
            return false;
        }
        let stays = self.cells.stays(cell);
        if !self.holds_as_before(cell, stays) {
            changes.set(cell.component);
        }
        true
    }

    /// Whether near each due cell of a cycle all stayed a cycle before. No state is looked at.
    fn all_wait(&self, cycle: u32, count: u32) -> bool
        requires there { cycle ≤ self.now.horizon }
        requires later { 0 < cycle }
        requires width { count ≡ G.rules.components self.now.slots }
    {
        // The number of a component is below this one, so that of the next fits.
        let _count = count;
        let mut from = 0;
        while let Some(component) = self.cells.next_due(cycle, from) {
            if !self.cells.all_stay(cycle - 1, self.near(component)) {
                return false;
            }
            from = component + 1;
        }
        true
    }

    /// Whether each due cell of a cycle gets the state of the cell before, known without a step. The components of those that
    /// hold another one are marked.
    fn begins_alike(&self, cycle: u32, changes: &mut Row) -> bool
        requires there { cycle ≤ self.now.horizon }
        requires none { NoneDueBefore G.rules self.now cycle 0 }
        requires width { length changes.old ≡ G.rules.components self.now.slots }
        requires unmarked { (c : ℕ) → is_awake changes.old c ≡ false }
        ensures len { length changes.new ≡ length changes.old }
        ensures alike { result ≡ true → BeginsAlike G.rules self.now cycle changes.new }
    {
        if cycle < 2 || !self.all_wait(cycle, changes.len()) {
            return false;
        }
        // The number of a component is below this one, so that of the next fits.
        let _count = changes.len();
        let mut from = 0;
        while let Some(component) = self.cells.next_due(cycle, from) {
            if !self.is_alike(Cell { cycle, component }, changes) {
                return false;
            }
            from = component + 1;
        }
        true
    }

    /// To before which cycle, `end` at most, a cell that reads a component gets what it got before, where that component doesn't
    /// change.
    fn alike_near(&self, component: u32, cycle: u32, changes: &Row, end: u32) -> u32
        requires there { cycle ≤ self.now.horizon }
        requires component { component < G.rules.components self.now.slots }
        requires later { 2 ≤ cycle }
        ensures before { result ≤ end }
        ensures stays { StaysBefore G.rules self.now cycle changes.now result component }
    {
        if changes.has(component) {
            return end;
        }
        if end <= cycle {
            return end;
        }
        let cycle = cycle - 1;
        self.cells.stands_before(Cell { cycle, component }, end - 1) + 1
    }

    /// To before which cycle, `end` at most, a due cell's component holds the state that it holds here, and those near it
    /// that don't change what they held a cycle earlier. No further cycle is looked at once fewer than two are left, since nothing is
    /// gained then.
    #[tactic(auto, using(crate::proofs::Alike::stays_few))]
    fn alike_to(&self, cell: Cell, changes: &Row, end: u32) -> u32
        requires there { IsThere G.rules self.now cell.cycle cell.component }
        requires later { 2 ≤ cell.cycle }
        requires end { end ≤ self.now.horizon + 1 }
        ensures before { result ≤ end }
        ensures stays { StaysAlikeTo G.rules self.now cell.cycle changes.now cell.component result }
    {
        if end.saturating_sub(cell.cycle) < 2 {
            return end;
        }
        let mut to = self.cells.stands_before(cell, end);
        for component in self.near(cell.component) {
            if to.saturating_sub(cell.cycle) < 2 {
                return to;
            }
            to = self.alike_near(*component, cell.cycle, changes, to);
        }
        to
    }

    /// The same of all due cells of a cycle.
    #[tactic(auto, using(crate::proofs::Alike::stays_few))]
    fn alike_end(&self, cycle: u32, changes: &Row, end: u32) -> u32
        requires there { cycle ≤ self.now.horizon }
        requires later { 2 ≤ cycle }
        requires width { length changes.now ≡ G.rules.components self.now.slots }
        requires within { end ≤ self.now.horizon + 1 }
        ensures before { result ≤ end }
        ensures stays { StaysAlike G.rules self.now cycle changes.now result }
    {
        let _count = changes.len();
        let mut to = end;
        let mut from = 0;
        while let Some(component) = self.cells.next_due(cycle, from) {
            to = self.alike_to(Cell { cycle, component }, changes, to);
            if to.saturating_sub(cycle) < 2 {
                return to;
            }
            from = component + 1;
        }
        to
    }

    /// To before which cycle, `end` at most, the components due, or among those, are those due at a cycle. Where no other cell is due,
    /// one of the cycles behind tells it of all.
    fn due_alike_to(&self, cycle: u32, end: u32, reached: &Row) -> u32
        requires before { cycle < end }
        requires within { end ≤ self.now.horizon + 1 }
        requires width { length reached.now ≡ G.rules.components self.now.slots }
        ensures after { cycle < result }
        ensures before { result ≤ end }
        ensures alike { (c u : ℕ) → c < G.rules.components self.now.slots → cycle < u → u < result
            → ((held_at self.now.rows u c).is_due || is_awake reached.now c) ≡ (held_at self.now.rows cycle c).is_due }
    {
        if cycle + 1 < end
            && self.cells.is_due_alone(cycle)
            && self.cells.is_due_alike(cycle + 1, reached, cycle)
        {
            return end;
        }
        for to in cycle + 1..end {
            if !self.cells.is_due_alike(to, reached, cycle) {
                return to;
            }
        }
        end
    }

    /// Settles at once the cycles from one on, before `end`, in which the same happens as in the one before, where there are
    /// two of them at least: where to go on, and how many of their cells were computed. Only cells of the ranges may hold other
    /// states then.
    fn settle_alike(&mut self, cycle: u32, end: u32, spare: &mut Spare) -> Option<Passed>
        requires there { cycle < end }
        requires within { end ≤ self.old.horizon + 1 }
        requires none { NoneDueBefore G.rules self.old cycle 0 }
        requires spare { IsSpare G.rules self.old spare.old }
        ensures spare { IsSpare G.rules self.new spare.new }
        ensures none { IfNone result (self.new ≡ self.old) }
        ensures slots { self.new.slots ≡ self.old.slots }
        ensures passes { IfSome result (λ p. PassesCycles G.rules end self.old self.new cycle p.to.cycle p.to.component p.computed spare.new.ranges.items) }
    {
        let count = G::components(&self.slots);
        spare.changes.clear_all();
        if !self.begins_alike(cycle, &mut spare.changes) {
            return None;
        }
        let end = self.alike_end(cycle, &spare.changes, end);
        if end.saturating_sub(cycle) < 2 {
            return None;
        }
        reach_in::<G>(
            &self.slots,
            &self.readers,
            &spare.changes,
            &mut spare.reached,
        );
        let end = self.due_alike_to(cycle, end, &spare.reached);
        let cycles = end - cycle;
        if cycles < 2 || !has_room(self.clock, cycles, count) {
            return None;
        }
        match ranges_of(&spare.changes, cycle, end, &mut spare.ranges) {
            Ok(()) => {}
            Err(_) => return None,
        }
        match spare.room.make(count) {
            Ok(()) => {}
            Err(_) => return None,
        }
        let changed = spare.changes.count();
        let due = self.cells.due_count(cycle);
        no_versions(&self.cells);
        match repeat_cells(&mut self.cells, &spare.changes, cycle, end) {
            Ok(()) => {}
            Err(_) => return None,
        }
        let before = clock_filled(self.clock, cycles - 1, changed);
        mark_changed::<G>(
            &mut self.cells,
            &self.slots,
            &self.readers,
            &spare.changes,
            &spare.reached,
            end - 1,
            before,
            &mut spare.room,
        );
        let clock = clock_filled(self.clock, cycles, changed);
        self.clock = clock;
        spare.known_at = 0;
        Some(Passed {
            to: Cell {
                cycle: end,
                component: 0,
            },
            computed: u64::from(cycles) * u64::from(due),
        })
    }

    /// The cycle of the first due cell at or after `from`, of those before a cycle, where no cell of that cycle stands before `from`.
    pub(super) fn row_ahead(&self, from: Cell, end: u32) -> Option<u32>
        requires within { end ≤ self.now.horizon + 1 }
        requires none { NoneDueBefore G.rules self.now from.cycle from.component }
        ensures none { IfSome result (λ t. NoneDueBefore G.rules self.now t 0) }
        ensures at { IfSome result (λ t. (first : Seen G.State G.Slots) (n : ℕ) → IsAt G.rules first self.now from.cycle from.component n → IsAt G.rules first self.now t 0 n) }
        ensures ahead { IfSome result (λ t. (from.cycle ≤ t) × (t < end)) }
    {
        let _ = &self.slots;
        match self.next_due_before(from, end) {
            Some(cell) => {
                if cell.cycle > from.cycle || from.component == 0 {
                    Some(cell.cycle)
                } else {
                    None
                }
            }
            None => None,
        }
    }

    /// Where nothing is due any more at a cycle, or it begins there, settles at once the cycles behind as `settle_alike` does, and tells a watcher:
    /// where to go on, and how many cells were computed.
    pub(super) fn settle_on<W: Watcher<G>>(
        &mut self,
        from: Cell,
        end: u32,
        spare: &mut Spare,
        watcher: &mut W,
    ) -> Option<Passed>
        requires within { end ≤ self.old.horizon + 1 }
        requires none { NoneDueBefore G.rules self.old from.cycle from.component }
        requires marked { IsMarked G.rules (W.keeps watcher.old) self.old spare.old }
        ensures marked { IsMarked G.rules (W.keeps watcher.new) self.new spare.new }
        ensures slots { self.new.slots ≡ self.old.slots }
        ensures none { IfNone result (self.new ≡ self.old) }
        ensures on { IfSome result (λ p. Advances G.rules end self.old self.new from.cycle from.component p.to.cycle p.to.component p.computed) }
    {
        let _ = &self.slots;
        if spare.wait > 0 {
            spare.wait -= 1;
            return None;
        }
        let cycle = match self.row_ahead(from, end) {
            Some(cycle) => cycle,
            None => return None,
        };
        let passed = match self.settle_alike(cycle, end, spare) {
            Some(passed) => passed,
            None => {
                // Where something happens at each cycle, few of them are tried.
                spare.failed = spare.failed.saturating_add(1);
                spare.wait = (spare.failed / 2).min(LONGEST_WAIT);
                return None;
            }
        };
        spare.failed = 0;
        watcher.refilled(self, spare.ranges.as_slice());
        Some(passed)
    }
}
