//! Settling a cycle at once, by a row of all components.
ghost use Rattle.std.specs.Prelude.{◌≡◌, ℕ, ◌+◌, ◌≤◌, ◌<◌, ◌&&◌, nat_le, nat_lt, true, false, All, IfNone, IfSome, length, vec_capacity};
ghost use Rattle.cell_states.specs.Filling.{is_awake};
ghost use Rattle.cell_states.specs.Versions.{any_changes};
ghost use Rattle.due_cells.specs.Readers.{IsIndex};
ghost use Rattle.due_cells.specs.Ranges.{is_marked, IsWithin};
ghost use Rattle.due_cells.specs.Seen.{Seen, row_at};
ghost use Rattle.cell_table.specs.Cells.{AtOrAfter};
ghost use Rattle.cell_table.specs.Settling.{NoneDueBefore, IsAt};
ghost use Rattle.cell_table.specs.Tended.{IsWorked};
ghost use Rattle.cell_table.specs.Advances.{Advances};
ghost use Rattle.cell_table.specs.Passing.{HoldsBut};
ghost use Rattle.due_cells.specs.Spares.{IsLeftOut, IsSpare, IsWide, IsWorkspace};

use super::Table;
use super::alike::Passed;
use crate::watcher::Watcher;
use cell_marks::Row;
use cell_states::{Cell, CellRange, WholeRow};
use due_cells::{
    Along, Beside, Spare, find_left, find_reached, has_room, make_room, mark_changed, no_versions,
    put_row, ranges_in,
};
use grid_law::Grid;

/// The cells of the components that change, where somebody is to be told of them, in the place of what was in the list.
fn list_told(is_told: bool, changes: &Row, from: u32, to: u32, ranges: &mut Vec<CellRange>)
    requires order { from ≤ to }
    requires room { length changes.now ≤ vec_capacity ranges.old }
    ensures within { is_told ≡ true → All (IsWithin to (length changes.now)) ranges.new.items }
    ensures marked { is_told ≡ true → (t c : ℕ) → is_marked ranges.new.items t c ≡ (is_awake changes.now c && (nat_le from t && nat_lt t to)) }
{
    if is_told {
        ranges_in(changes, from, to, ranges);
    }
}

impl<G: Grid> Table<G> {
    /// Settles the cells of a cycle before which no cell is due, at once: how many were computed. Where it is to be told, only cells of
    /// the ranges may hold other states then.
    fn settle_row<M: WholeRow<G>>(
        &mut self,
        cycle: u32,
        is_told: bool,
        spare: &mut Spare,
        along: &mut Option<Along<M>>,
        beside: &mut Beside<M>,
    ) -> Option<u32>
        requires there { cycle ≤ self.old.horizon }
        requires none { NoneDueBefore G.rules self.old cycle 0 }
        requires workspace { IsWorkspace G.rules G.codec M.stands M.state self.old spare.old along.old beside.old }
        ensures workspace { IsWorkspace G.rules G.codec M.stands M.state self.new spare.new along.new beside.new }
        ensures none { IfNone result (self.new ≡ self.old) }
        ensures on { IfSome result (λ n. (first : Seen G.State G.Slots) (k : ℕ) → IsAt G.rules first self.old cycle 0 k → IsAt G.rules first self.new (cycle + 1) 0 (k + n)) }
        ensures same { IfSome result (λ n. (self.new.slots ≡ self.old.slots) × (self.new.horizon ≡ self.old.horizon)) }
        ensures but { IfSome result (λ n. is_told ≡ true → HoldsBut G.rules self.old self.new spare.new.ranges.items) }
    {
        // There are fewer cycles than 2^32, so the next one's number fits.
        let _cycles = self.cells.cycles();
        let count = G::components(&self.slots);
        let due = self.cells.due_count(cycle);
        if cycle == 0 || !has_room(self.clock, 1, count) {
            return None;
        }
        match make_room(&mut spare.ranges, count) {
            Ok(()) => {}
            Err(_) => return None,
        }
        match spare.room.make(count) {
            Ok(()) => {}
            Err(_) => return None,
        }
        let (known, known_at) = (&spare.known, spare.known_at);
        let due_row = self.cells.due_row(cycle);
        find_left(&mut spare.left, due_row, known, known_at, cycle);
        no_versions(&self.cells);
        if !put_row::<G, M>(
            &mut self.cells,
            &self.slots,
            &self.neighbours,
            along,
            beside,
            cycle,
            &spare.left,
            &mut spare.changes,
            &mut spare.worded,
        ) {
            return None;
        }
        list_told(is_told, &spare.changes, cycle, cycle + 1, &mut spare.ranges);
        G::by_words(&self.slots);
        find_reached::<G>(&self.cells, &self.slots, &self.readers, cycle, spare);
        let changed = spare.changes.count();
        mark_changed::<G>(
            &mut self.cells,
            &self.slots,
            &self.readers,
            &spare.changes,
            &spare.reached,
            cycle,
            self.clock,
            &mut spare.room,
        );
        let clock = self.clock + u64::from(changed);
        self.clock = clock;
        Some(due)
    }

    /// Settles at once the cycles that come next, where the cycle of `from` begins there or has no due cell any more: those in which the
    /// same happens as in the one before, or one. Tells a watcher: where to go on, and how many cells were
    /// computed.
    pub(super) fn settle_at_once<M: WholeRow<G>, W: Watcher<G>>(
        &mut self,
        from: Cell,
        end: u32,
        spare: &mut Spare,
        along: &mut Option<Along<M>>,
        beside: &mut Beside<M>,
        watcher: &mut W,
    ) -> Option<Passed>
        requires within { end ≤ self.old.horizon + 1 }
        requires none { NoneDueBefore G.rules self.old from.cycle from.component }
        requires worked { IsWorked G.rules G.codec M.stands M.state (W.keeps watcher.old) self.old spare.old along.old beside.old }
        ensures worked { IsWorked G.rules G.codec M.stands M.state (W.keeps watcher.new) self.new spare.new along.new beside.new }
        ensures none { IfNone result (self.new ≡ self.old) }
        ensures on { IfSome result (λ p. Advances G.rules end self.old self.new from.cycle from.component p.to.cycle p.to.component p.computed) }
    {
        if from.cycle >= end || (from.component > 0 && self.is_row_due(from.cycle)) {
            return None;
        }
        match self.settle_on(from, end, spare, watcher) {
            Some(passed) => Some(passed),
            None => self.settle_wide(from, end, spare, along, beside, watcher),
        }
    }

    /// Where nothing is due any more at a cycle, or it begins there, settles the next due one at once as
    /// `settle_row` does, and tells a watcher: where to go on, and how many cells were computed.
    fn settle_wide<M: WholeRow<G>, W: Watcher<G>>(
        &mut self,
        from: Cell,
        end: u32,
        spare: &mut Spare,
        along: &mut Option<Along<M>>,
        beside: &mut Beside<M>,
        watcher: &mut W,
    ) -> Option<Passed>
        requires within { end ≤ self.old.horizon + 1 }
        requires none { NoneDueBefore G.rules self.old from.cycle from.component }
        requires worked { IsWorked G.rules G.codec M.stands M.state (W.keeps watcher.old) self.old spare.old along.old beside.old }
        ensures worked { IsWorked G.rules G.codec M.stands M.state (W.keeps watcher.new) self.new spare.new along.new beside.new }
        ensures none { IfNone result (self.new ≡ self.old) }
        ensures on { IfSome result (λ p. Advances G.rules end self.old self.new from.cycle from.component p.to.cycle p.to.component p.computed) }
    {
        let cycle = match self.row_ahead(from, end) {
            Some(cycle) => cycle,
            None => return None,
        };
        let is_told = !watcher.is_idle();
        let computed = match self.settle_row(cycle, is_told, spare, along, beside) {
            Some(computed) => computed,
            None => return None,
        };
        if is_told {
            watcher.refilled(self, spare.ranges.as_slice());
        }
        Some(Passed {
            to: Cell {
                cycle: cycle + 1,
                component: 0,
            },
            computed: u64::from(computed),
        })
    }
}
