//! Following an edit.
ghost use Rattle.std.specs.Prelude.{◌≡◌, ℕ, is_some, ◌+◌, ◌<◌, ◌≤◌, ◌-◌, ◌^◌, ◌↔◌, IfOk, OnOk, OnErr, unwrap_or, Some, true, false, ◌||◌, ◌&&◌, ◌==◌, nat_le, nat_lt, All, List, ◌∷◌};
ghost use Rattle.grid_law.specs.Rules.{Differ, reader_at};
ghost use Rattle.cell_table.specs.Cells.{IsThere};
ghost use Rattle.due_cells.specs.Inputs.{inputs_of};
ghost use Rattle.cell_table.specs.Reads.{is_reader};
ghost use Rattle.due_cells.specs.Seen.{held_at};
ghost use Rattle.due_cells.specs.Ranges.{covers, is_marked, IsWithin};
ghost use Rattle.cell_table.specs.Touches.{AreReady, cell_reads, cell_reads_one, IsAfterTouch};
ghost use Rattle.cell_table.specs.Events.{Event, Start, Edits};
ghost use Rattle.cell_table.specs.Stands.{Stands};
ghost use Rattle.cell_table.specs.Settling.{IsSettled};
ghost use Rattle.grid_law.specs.Run.{run};
ghost use Rattle.cell_table.specs.Cost.{Costs, CostsAnEdit};

use super::Table;
use crate::TouchFault;
use cell_states::{Cell, CellRange};
use due_cells::{add_where, retouch};
use grid_law::{Changed, Grid, NoMemory, Reader, Turn};
use std::alloc::Global;
use std::sync::Arc;

impl<G: Grid> Table<G> {
    /// Whether a component reads the slot at cycle 0.
    fn reads_first(&self, component: u32, slot: &G::Slot) -> bool
        requires { component < G.rules.components self.now.slots }
        ensures { result ≡ cell_reads_one G.rules self.now.slots self.now.rows slot.now 0 component }
    {
        let near: Vec<Arc<G::State>> = Vec::new(self.cells.allocator());
        G::reads(&self.slots, near.as_slice(), component, slot)
    }

    /// Before which cycle each cell's near states are known to be there, as far as `end`; no cell is looked at.
    fn ready_to(&self, end: u32) -> u32
        requires { end ≤ self.now.horizon + 1 }
        ensures { AreReady G.rules self.now result }
    {
        if self.due_to(self.horizon) == 0 {
            return end;
        }
        if self.held < end { self.held + 1 } else { end }
    }

    /// Adds those cells of a range whose near states are there, where the range reads a slot.
    fn add_ready(
        &self,
        range: CellRange,
        reads: bool,
        ready: u32,
        ranges: &mut Vec<CellRange>,
    ) -> Result<(), NoMemory>
        requires range { IsWithin (self.now.horizon + 1) (G.rules.components self.now.slots) range }
        requires ready { AreReady G.rules self.now ready }
        ensures at { OnOk result ((t c : ℕ) → is_marked ranges.new.items t c
            ≡ (is_marked ranges.old.items t c || (covers range t c && (is_some (inputs_of G.rules self.now.slots self.now.rows t range.component) && reads)))) }
        ensures within { (n count : ℕ) → All (IsWithin n count) ranges.old.items → IsWithin n count range → OnOk result (All (IsWithin n count) ranges.new.items) }
    {
        if !reads || range.to <= ready {
            return add_where(ranges, range, reads);
        }
        let component = range.component;
        for cycle in range.from..range.to {
            let ready = self.has_inputs(Cell { cycle, component });
            let one = CellRange {
                component,
                from: cycle,
                to: cycle + 1,
            };
            add_where(ranges, one, ready)?;
        }
        Ok(())
    }

    /// Adds the cells of later cycles, up to the last, at which a component is sure to read the slot whatever its states
    /// are, and whose near states are known to be there: to before which cycle.
    fn add_always(
        &self,
        component: u32,
        slot: &G::Slot,
        last: u32,
        ready: u32,
        ranges: &mut Vec<CellRange>,
    ) -> Result<u32, NoMemory>
        requires there { last ≤ self.now.horizon }
        requires component { component < G.rules.components self.now.slots }
        requires ready { AreReady G.rules self.now ready }
        requires within { All (IsWithin (last + 1) (G.rules.components self.now.slots)) ranges.old.items }
        ensures within { OnOk result (All (IsWithin (last + 1) (G.rules.components self.now.slots)) ranges.new.items) }
        ensures some { IfOk result (λ to. 1 ≤ to) }
        ensures to { IfOk result (λ to. to ≤ last + 1) }
        ensures at { IfOk result (λ to. (t c : ℕ) → t ≤ last → is_marked ranges.new.items t c
            ≡ (is_marked ranges.old.items t c || ((c == component) && ((nat_le 1 t && nat_lt t to) && cell_reads_one G.rules self.now.slots self.now.rows slot.now t component)))) }
    {
        // The cycles are at most this many, so the next cycle's number fits.
        let _cycles = self.cells.cycles();
        let to = ready.min(last + 1);
        if to == 0 || !G::always_reads(&self.slots, component, slot) {
            return Ok(1);
        }
        let range = CellRange {
            component,
            from: 1,
            to,
        };
        add_where(ranges, range, true)?;
        Ok(to)
    }

    /// Whether it can be told where along the run a component reads the slot: where all cells hold the run.
    fn has_turns(&self, slot: &G::Slot) -> bool
        ensures { result ≡ true → (t c : ℕ) → IsThere G.rules self.now t c → (held_at self.now.rows t c).state ≡ Some (run G.rules self.now.slots t c) }
    {
        self.due_to(self.horizon) == 0 && G::has_turns(slot)
    }

    /// From which cycle on a component may read the slot, where no earlier one from `from` on does, up to the last.
    fn turn_from(&self, component: u32, slot: &G::Slot, from: u32, last: u32) -> u32
        requires there { component < G.rules.components self.now.slots }
        requires held { (t c : ℕ) → IsThere G.rules self.now t c → (held_at self.now.rows t c).state ≡ Some (run G.rules self.now.slots t c) }
        requires later { 0 < from }
        requires order { from ≤ last + 1 }
        requires last { last ≤ self.now.horizon }
        ensures from { from ≤ result }
        ensures to { result ≤ last + 1 }
        ensures none { (t : ℕ) → from ≤ t → t < result → cell_reads_one G.rules self.now.slots self.now.rows slot.now t component ≡ false }
    {
        // The cycles are at most this many, so the next cycle's number fits.
        let _cycles = self.cells.cycles();
        let mut low = from;
        let mut high = last + 1;
        while low < high {
            let cycle = low + (high - low) / 2;
            let own = Cell {
                cycle: cycle - 1,
                component,
            };
            match self.cells.turn(&self.slots, own, slot) {
                Turn::Ahead => low = cycle + 1,
                Turn::Here | Turn::Passed => high = cycle,
            }
        }
        low
    }

    /// From which cycle on a component is asked whether it reads the slot: where all cells hold the run, from the first one at which it may.
    fn asked_from(&self, turns: bool, component: u32, slot: &G::Slot, from: u32, last: u32) -> u32
        requires there { component < G.rules.components self.now.slots }
        requires held { turns ≡ true → (t c : ℕ) → IsThere G.rules self.now t c → (held_at self.now.rows t c).state ≡ Some (run G.rules self.now.slots t c) }
        requires later { 0 < from }
        requires order { from ≤ last + 1 }
        requires last { last ≤ self.now.horizon }
        ensures from { from ≤ result }
        ensures to { result ≤ last + 1 }
        ensures none { (t : ℕ) → from ≤ t → t < result → cell_reads_one G.rules self.now.slots self.now.rows slot.now t component ≡ false }
    {
        if turns {
            return self.turn_from(component, slot, from, last);
        }
        from
    }

    /// Whether it is known that a component reads the slot at no cycle any more behind that of a cell of its own, where all cells hold the run.
    fn has_passed(&self, turns: bool, own: Cell, slot: &G::Slot) -> bool
        requires there { own.component < G.rules.components self.now.slots }
        requires held { turns ≡ true → (t c : ℕ) → IsThere G.rules self.now t c → (held_at self.now.rows t c).state ≡ Some (run G.rules self.now.slots t c) }
        ensures { result ≡ true → (t : ℕ) → own.cycle < t → t ≤ self.now.horizon → cell_reads_one G.rules self.now.slots self.now.rows slot.now t own.component ≡ false }
    {
        if !turns {
            return false;
        }
        match self.cells.turn(&self.slots, own, slot) {
            Turn::Passed => true,
            Turn::Ahead | Turn::Here => false,
        }
    }

    /// Adds the cells of later cycles, up to the last, at which a component reads the slot. One that is sure to read it isn't
    /// asked; another one is, once for each stretch in which its own state has the same words.
    #[inline(never)]
    fn add_later(
        &self,
        component: u32,
        slot: &G::Slot,
        last: u32,
        ready: u32,
        ranges: &mut Vec<CellRange>,
    ) -> Result<(), NoMemory>
        requires there { last ≤ self.now.horizon }
        requires component { component < G.rules.components self.now.slots }
        requires ready { AreReady G.rules self.now ready }
        requires within { All (IsWithin (last + 1) (G.rules.components self.now.slots)) ranges.old.items }
        ensures within { OnOk result (All (IsWithin (last + 1) (G.rules.components self.now.slots)) ranges.new.items) }
        ensures at { OnOk result ((t c : ℕ) → t ≤ last → is_marked ranges.new.items t c
            ≡ (is_marked ranges.old.items t c || (is_reader (reader_at component false) t c && cell_reads_one G.rules self.now.slots self.now.rows slot.now t component))) }
    {
        // The cycles are at most this many, so the next cycle's number fits.
        let _cycles = self.cells.cycles();
        let begun = self.add_always(component, slot, last, ready, ranges)?;
        let turns = self.has_turns(slot);
        let mut from = self.asked_from(turns, component, slot, begun, last);
        while from <= last {
            let cycle = from - 1;
            let own = Cell { cycle, component };
            if self.has_passed(turns, own, slot) {
                return Ok(());
            }
            let (reads, end) = self.cells.reads_to(&self.slots, own, slot, last);
            let to = end + 1;
            let range = CellRange {
                component,
                from,
                to,
            };
            self.add_ready(range, reads, ready, ranges)?;
            from = to;
        }
        Ok(())
    }

    /// Adds the cells up to the last cycle at which a reader reads the slot.
    fn add_reader(
        &self,
        reader: Reader,
        slot: &G::Slot,
        last: u32,
        ready: u32,
        ranges: &mut Vec<CellRange>,
    ) -> Result<(), NoMemory>
        requires there { last ≤ self.now.horizon }
        requires component { reader.component < G.rules.components self.now.slots }
        requires ready { AreReady G.rules self.now ready }
        requires within { All (IsWithin (last + 1) (G.rules.components self.now.slots)) ranges.old.items }
        ensures within { OnOk result (All (IsWithin (last + 1) (G.rules.components self.now.slots)) ranges.new.items) }
        ensures at { OnOk result ((t c : ℕ) → t ≤ last → is_marked ranges.new.items t c
            ≡ (is_marked ranges.old.items t c || (is_reader reader t c && cell_reads_one G.rules self.now.slots self.now.rows slot.now t reader.component))) }
    {
        if !reader.first {
            return self.add_later(reader.component, slot, last, ready, ranges);
        }
        let reads = self.reads_first(reader.component, slot);
        let range = CellRange {
            component: reader.component,
            from: 0,
            to: 1,
        };
        add_where(ranges, range, reads)
    }

    /// Adds the cells up to the last cycle that read the slot. Its readers are asked, and no other
    /// component.
    fn add_slot(
        &self,
        alloc: Global,
        slot: &G::Slot,
        last: u32,
        ranges: &mut Vec<CellRange>,
    ) -> Result<(), NoMemory>
        requires there { last ≤ self.now.horizon }
        requires within { All (IsWithin (last + 1) (G.rules.components self.now.slots)) ranges.old.items }
        ensures within { OnOk result (All (IsWithin (last + 1) (G.rules.components self.now.slots)) ranges.new.items) }
        ensures at { OnOk result ((t c : ℕ) → t ≤ last → c < G.rules.components self.now.slots → is_marked ranges.new.items t c
            ≡ (is_marked ranges.old.items t c || cell_reads_one G.rules self.now.slots self.now.rows slot.now t c)) }
    {
        // The cycles are at most this many, so the next cycle's number fits.
        let _cycles = self.cells.cycles();
        let readers = G::readers(alloc, &self.slots, slot)?;
        let ready = self.ready_to(last + 1);
        for reader in readers.as_slice() {
            self.add_reader(*reader, slot, last, ready, ranges)?;
        }
        Ok(())
    }

    /// Which cells up to that cycle read one of these slots.
    fn marks(
        &self,
        alloc: Global,
        listed: &[G::Slot],
        last: u32,
    ) -> Result<Vec<CellRange>, NoMemory>
        requires { last ≤ self.now.horizon }
        ensures within { IfOk result (λ m. All (IsWithin (last + 1) (G.rules.components self.now.slots)) m.items) }
        ensures at { IfOk result (λ m. (t c : ℕ) → t ≤ last → c < G.rules.components self.now.slots → is_marked m.items t c
            ≡ cell_reads G.rules self.now.slots self.now.rows listed.now t c) }
    {
        let mut ranges = Vec::new(alloc);
        for slot in listed {
            self.add_slot(alloc, slot, last, &mut ranges)?;
        }
        Ok(ranges)
    }

    /// Takes the new slots and the new horizon, with these marks.
    fn follow(
        &mut self,
        next: G::Slots,
        listed: &[G::Slot],
        marks: &[CellRange],
        last: u32,
        horizon: u32,
    ) -> Result<(), NoMemory>
        requires differ { Differ G.rules self.old.slots next listed.now }
        requires room { self.old.clock < 2 ^ 64 - 1 }
        requires last { last ≤ self.old.horizon }
        requires last_kept { last ≤ horizon }
        requires within { All (IsWithin (last + 1) (G.rules.components self.old.slots)) marks.now }
        requires at { (t c : ℕ) → t ≤ horizon → IsThere G.rules self.old t c → is_marked marks.now t c
            ≡ cell_reads G.rules self.old.slots self.old.rows listed.now t c }
        ensures ok { OnOk result (IsAfterTouch G.rules self.old self.new next listed.now horizon) }
        ensures err { OnErr result (self.new ≡ self.old) }
    {
        let version = self.clock + 1;
        let count = G::components(&self.slots);
        match retouch(&mut self.cells, marks, last, horizon, count, version) {
            Ok(()) => {
                self.slots = next;
                self.horizon = horizon;
                self.clock = version;
                self.held = self.held.min(horizon);
                Ok(())
            }
            Err(_) => Err(NoMemory),
        }
    }

    fn touch_plain(&mut self, next: G::Slots, changed: Changed<G::Slot>) -> Result<(), TouchFault>
        requires { Differ G.rules self.old.slots next changed.slots.items }
        ensures ok { OnOk result
            (IsAfterTouch G.rules self.old self.new next changed.slots.items (unwrap_or changed.horizon self.old.horizon)) }
        ensures err { OnErr result (self.new ≡ self.old) }
        ensures spent { (result ≡ Err TouchFault.ClockSpent) ↔ (self.old.clock ≡ 2 ^ 64 - 1) }
    {
        if self.clock == u64::MAX {
            return Err(TouchFault::ClockSpent);
        }
        let alloc = self.cells.allocator();
        let horizon = changed.horizon.unwrap_or(self.horizon);
        let last = self.horizon.min(horizon);
        match self.marks(alloc, changed.slots.as_slice(), last) {
            Ok(marks) => {
                let listed = changed.slots.as_slice();
                match self.follow(next, listed, marks.as_slice(), last, horizon) {
                    Ok(()) => Ok(()),
                    Err(_) => Err(TouchFault::Memory),
                }
            }
            Err(_) => Err(TouchFault::Memory),
        }
    }

    /// Follows an edit to the slots `next`, which have the same shape and differ from the present
    /// ones exactly in the slots listed, and to the new horizon, if one is named. The clock rises
    /// by one. The cells of the new horizon that read a slot listed, or that are new, become due
    /// at that clock; where the table was settled, what settling it again costs are these cells and
    /// those with a near cell one cycle earlier that differs between the two runs. After a fault
    /// nothing is changed. Of each slot listed its readers are asked, and no other component: at
    /// cycle 0; or later once for all cycles, where it is sure to read the slot, and else for each stretch of cycles in
    /// which its own state is the same. Up to where each cell is known to hold a state nothing else is looked at; behind that
    /// the near states of the cells that read the slot.
    ///
    /// # Errors
    ///
    /// ClockSpent where the clock is 2^64 - 1, Memory where a growth was refused. The table is as
    /// before.
    pub fn touch(&mut self, next: G::Slots, changed: Changed<G::Slot>) -> Result<(), TouchFault>
        requires { Differ G.rules self.old.slots next changed.slots.items }
        ensures ok { OnOk result
            (IsAfterTouch G.rules self.old self.new next changed.slots.items (unwrap_or changed.horizon self.old.horizon)) }
        ensures err { OnErr result (self.new ≡ self.old) }
        ensures spent { (result ≡ Err TouchFault.ClockSpent) ↔ (self.old.clock ≡ 2 ^ 64 - 1) }
        ensures headline_stands { OnOk result ((o : Start G.Slots) (h : List (Event G.State G.Slots G.Slot)) → Stands G.rules o self.old h
            → Stands G.rules o self.new (Edits next changed.slots.items (unwrap_or changed.horizon self.old.horizon) ∷ h)) }
        ensures cost { OnOk result ((o : Start G.Slots) (h : List (Event G.State G.Slots G.Slot)) → Stands G.rules o self.old h → IsSettled G.rules self.old → (t c : ℕ) → IsThere G.rules self.new t c
            → Costs G.rules o (Edits next changed.slots.items (unwrap_or changed.horizon self.old.horizon) ∷ h) t c ↔ CostsAnEdit G.rules self.old.slots next changed.slots.items self.old.horizon t c) }
    {
        self.touch_plain(next, changed)
    }
}
