//! The states of all cells, as words by cycle and what isn't in them by component.
ghost use Rattle.std.specs.Prelude.{◌≡◌, ℕ, ◌+◌, ◌-◌, ◌<◌, ◌≤◌, ◌++◌, ◌^◌, ◌↔◌, IsTrue, IfOk, OnOk, OnErr, length, replicate, take, option_map, is_some, true, false, None, Some, if◌then◌else◌, ◌∷◌, []};
ghost use Rattle.grid_law.specs.declared.turn.Turn.TheVariants.{Ahead, Passed};
ghost use Rattle.std.specs.Option.{option_copied};
ghost use Rattle.grid_law.specs.Codec.{IsTold};
ghost use Rattle.std.specs.Arc.{arc_value};
ghost use Rattle.cell_states.specs.Stated.{state_at, IsAsMany, IsSameStates, IsOtherState, AreStatesRepeated};
ghost use Rattle.cell_states.specs.ReadsBy.{reads_by};
ghost use Rattle.cell_states.specs.Filling.{is_awake};
ghost use Rattle.cell_states.specs.NextWords.{HoldsWords, HoldsNear};
ghost use Rattle.cell_states.specs.Put.{IsSetAt, AreMarks, IsStepped, ArePut};
ghost use Rattle.grid_law.specs.Run.{run};

mod changed;
mod each;
mod memory;
mod put;
mod sets;
mod whole;

use crate::{Cell, Near, Neighbours, WholeRow};
use cell_marks::Row;
use change_lists::Lists;
use change_rows::{Cells as Draft, Rows};
use changed::repeat_changed;
use each::put_each;
use grid_law::{Grid, NoMemory, Turn};
use memory::{Change, is_same, no_changes};
use put::{put_state, repeat_state};
use sets::{Sets, find_changed};
use std::alloc::Global;
use std::marker::Model;
use std::sync::Arc;
use whole::put_whole;

/// A state, or none, for each cell by cycle, then component.
///
/// Kept is the words that begin at each cycle, and for each component the memories that begin. A cell without words has no state,
/// whatever stands beside it.
pub struct States<G: Grid> {
    words: Rows,
    memories: Lists<G::Memory>,
    /// What is put together on the way to a row, and for each component what isn't in its words.
    draft: Draft,
    buffer: Vec<u64>,
    ready: Vec<Option<Change<G::Memory>>>,
    sets: Sets,
}

// Not derived: whoever drops states calls this, and proves nothing of its parts anew.
impl<G: Grid> Drop for States<G> {
    fn drop(self) {
        let States {
            words,
            memories,
            draft,
            buffer,
            ready,
            sets,
        } = self;
        drop(words);
        drop(memories);
        drop(draft);
        drop(buffer);
        drop(ready);
        drop(sets);
    }
}

impl<G: Grid> Model for States<G> {
    ghost use Rattle.std.specs.Prelude.{◌≡◌, length};
    ghost use Rattle.cell_states.specs.Stated.{Stated};
    ghost use Rattle.cell_states.specs.Coded.{states_in, IsCoded};
    ghost use Rattle.cell_states.specs.Sets.{IsWide};

    ghost Value = { Stated G.State };

    ghost view = { λ s. states_in G.codec s.words s.memories };

    ghost invariant = { λ s. IsCoded G.codec s.words s.memories × (length s.ready.items ≡ s.words.width) × IsWide s.words.width s.sets };
}

impl<G: Grid> States<G> {
    /// No state at any cell, for that many components and cycles.
    pub fn new(alloc: Global, count: u32, cycles: u32) -> Result<States<G>, NoMemory>
        ensures { IfOk result (λ states. states ≡ record { width = count; rows = replicate cycles (replicate count None) }) }
    {
        let mut words = Rows::new(alloc, count)?;
        words.grow(alloc, cycles)?;
        let memories = Lists::new(alloc, count)?;
        let ready = no_changes(alloc, count)?;
        let sets = Sets::new(alloc, count)?;
        Ok(States {
            words,
            memories,
            draft: Draft::new(alloc),
            buffer: Vec::new(alloc),
            ready,
            sets,
        })
    }

    /// Where its memory comes from.
    pub fn allocator(&self) -> Global {
        *self.buffer.allocator()
    }

    /// How many components there are.
    pub fn width(&self) -> u32
        ensures { result ≡ self.now.width }
    {
        self.words.width()
    }

    /// One more owner of the state of a cell.
    pub fn shared(&self, cell: Cell) -> Result<Option<Arc<G::State>>, NoMemory>
        ensures { IfOk result (λ o. option_map arc_value o ≡ state_at self.now cell.cycle cell.component) }
    {
        let words = self.words.words(cell.cycle, cell.component);
        if words.is_empty() {
            return Ok(None);
        }
        let memory = self.memories.at(cell.component, cell.cycle);
        let state = G::decode(*self.buffer.allocator(), words, memory)?;
        Ok(Some(state))
    }

    /// Whether a cell has a state.
    #[inline(always)]
    pub fn has(&self, cell: Cell) -> bool
        ensures { result ≡ is_some (state_at self.now cell.cycle cell.component) }
    {
        !self.words.words(cell.cycle, cell.component).is_empty()
    }

    /// Whether a cell has this state, the whole of it.
    pub fn holds(&self, cell: Cell, state: &G::State) -> bool
        ensures { IsTrue result ↔ (state_at self.now cell.cycle cell.component ≡ Some state.now) }
    {
        let words = self.words.words(cell.cycle, cell.component);
        let memory = self.memories.at(cell.component, cell.cycle);
        G::is_code(state, words, memory)
    }

    /// Whether a cell has what the cell one cycle earlier has: the same state, or none as that one. Words and memories are compared.
    pub fn is_as_before(&self, cell: Cell) -> bool
        requires later { 0 < cell.cycle }
        ensures { IsTrue result ↔ (state_at self.now (cell.cycle - 1) cell.component ≡ state_at self.now cell.cycle cell.component) }
    {
        let before = self.words.words(cell.cycle - 1, cell.component);
        let words = self.words.words(cell.cycle, cell.component);
        let same = before == words;
        if !same {
            return false;
        }
        if words.is_empty() {
            return true;
        }
        is_same::<G>(
            self.memories.at(cell.component, cell.cycle - 1),
            self.memories.at(cell.component, cell.cycle),
        )
    }

    /// Whether a cell has what the cell one cycle earlier has, known without a look at either; there may be such cells besides.
    #[inline(always)]
    pub fn stays(&self, cell: Cell) -> bool
        ensures { result ≡ true → (0 < cell.cycle) × (state_at self.now (cell.cycle - 1) cell.component ≡ state_at self.now cell.cycle cell.component) }
    {
        !self.words.begins(cell.cycle, cell.component)
            && !self.memories.begins(cell.component, cell.cycle)
    }

    /// Whether a component reads the slot after cycle 0, where its own state one cycle earlier is the cell's and the other near states
    /// are there, and to before which cycle, `end` at most, each of its cells tells the same; more may. One that has no state reads none.
    /// Words alone are looked at.
    #[inline(always)]
    pub fn reads_to(&self, slots: &G::Slots, cell: Cell, slot: &G::Slot, end: u32) -> (bool, u32)
        requires component { cell.component < G.rules.components slots.now }
        requires before { cell.cycle < end }
        requires within { end ≤ length self.now.rows }
        ensures after { cell.cycle < result.1 }
        ensures before { result.1 ≤ end }
        ensures reads { (t : ℕ) → cell.cycle ≤ t → t < result.1 → result.0 ≡ reads_by G.rules slots.now cell.component slot.now (state_at self.now t cell.component) }
    {
        let (words, to) = self.words.words_to(cell.cycle, end, cell.component);
        if words.is_empty() {
            return (false, to);
        }
        (G::words_read(slots, words, cell.component, slot), to)
    }

    /// Where along a run a component reads the slot, of which the cell's state is one.
    pub fn turn(&self, slots: &G::Slots, cell: Cell, slot: &G::Slot) -> Turn
        requires { cell.component < G.rules.components slots.now }
        ensures ahead { result ≡ Ahead → (t u : ℕ) → state_at self.now cell.cycle cell.component ≡ Some (run G.rules slots.now t cell.component) → u ≤ t → G.rules.reads slots.now (run G.rules slots.now u cell.component ∷ []) cell.component slot.now ≡ false }
        ensures passed { result ≡ Passed → (t u : ℕ) → state_at self.now cell.cycle cell.component ≡ Some (run G.rules slots.now t cell.component) → t ≤ u → G.rules.reads slots.now (run G.rules slots.now u cell.component ∷ []) cell.component slot.now ≡ false }
    {
        let words = self.words.words(cell.cycle, cell.component);
        G::turn(words, slots, cell.component, slot)
    }

    /// To before which cycle, `end` at most, the cells of a component have the state of one of them; they may have it longer.
    pub fn stands_to(&self, cell: Cell, end: u32) -> u32
        requires before { cell.cycle < end }
        requires within { end ≤ length self.now.rows }
        ensures after { cell.cycle < result }
        ensures before { result ≤ end }
        ensures same { (t : ℕ) → cell.cycle ≤ t → t < result → state_at self.now t cell.component ≡ state_at self.now cell.cycle cell.component }
    {
        let next = cell.cycle + 1;
        let to = self.words.next_of(next, end, cell.component);
        self.memories.next(cell.component, next, to)
    }

    /// Puts another state for a cell. Where memory is wanting, no state changes.
    pub fn put(&mut self, cell: Cell, state: &G::State) -> Result<(), NoMemory>
        requires cycle { cell.cycle < length self.old.rows }
        requires component { cell.component < self.old.width }
        ensures ok { OnOk result (IsOtherState self.old self.new cell.cycle cell.component (Some state.now)) }
        ensures err { OnErr result (IsSameStates self.old self.new) }
    {
        match put_state::<G>(
            &mut self.words,
            &mut self.memories,
            &mut self.draft,
            &mut self.buffer,
            cell,
            state,
        ) {
            Ok(()) => {}
            Err(_) => return Err(NoMemory),
        }
        Ok(())
    }

    /// Gives a cell the state that its component has a cycle before. Where memory is wanting, no state changes.
    pub fn repeat(&mut self, cell: Cell) -> Result<(), NoMemory>
        requires cycle { cell.cycle < length self.old.rows }
        requires component { cell.component < self.old.width }
        requires later { 0 < cell.cycle }
        ensures ok { OnOk result (IsOtherState self.old self.new cell.cycle cell.component (state_at self.old (cell.cycle - 1) cell.component)) }
        ensures err { OnErr result (IsSameStates self.old self.new) }
    {
        let alloc = *self.buffer.allocator();
        match repeat_state(
            alloc,
            &mut self.words,
            &mut self.memories,
            &mut self.draft,
            cell,
        ) {
            Ok(()) => {}
            Err(_) => return Err(NoMemory),
        }
        Ok(())
    }

    /// Lets the components that change have the state of the cycle before `from` to before `to`. Where memory is wanting, no state
    /// changes.
    pub fn repeat_changed(&mut self, changes: &Row, from: u32, to: u32) -> Result<(), NoMemory>
        requires later { 0 < from }
        requires after { from ≤ to }
        requires within { to ≤ length self.old.rows }
        requires width { length changes.now ≡ self.old.width }
        ensures many { IsAsMany self.old self.new }
        ensures repeated { OnOk result (AreStatesRepeated self.old self.new changes.now from to) }
        ensures err { OnErr result (IsSameStates self.old self.new) }
    {
        let alloc = *self.buffer.allocator();
        if from >= to {
            return Ok(());
        }
        match repeat_changed(
            alloc,
            &mut self.words,
            &mut self.memories,
            changes,
            from,
            to,
        ) {
            Ok(()) => {}
            Err(_) => return Err(NoMemory),
        }
        Ok(())
    }

    /// The words of a cell's state; none where it has no state.
    pub fn words(&self, cell: Cell) -> &[u64]
        ensures none { result.now ≡ [] ↔ (state_at self.now cell.cycle cell.component ≡ None) }
        ensures told { (x : G.State) → state_at self.now cell.cycle cell.component ≡ Some x → IsTold G.codec x × (G.codec.words x ≡ result.now) }
    {
        self.words.words(cell.cycle, cell.component)
    }

    /// What of it isn't in them.
    pub fn memory(&self, cell: Cell) -> Option<&G::Memory>
        ensures { (x : G.State) → state_at self.now cell.cycle cell.component ≡ Some x → G.codec.memory x ≡ option_copied result }
    {
        let _words = &self.words;
        self.memories.at(cell.component, cell.cycle)
    }

    /// Marks just components, those at least that have at a cycle another state than at an earlier one.
    pub fn find_changed(&self, from: u32, to: u32, marks: &mut Row)
        requires order { from ≤ to }
        requires within { to < length self.now.rows }
        requires width { length marks.old ≡ self.now.width }
        ensures len { length marks.new ≡ length marks.old }
        ensures same { (c : ℕ) → c < self.now.width → is_awake marks.new c ≡ false → state_at self.now to c ≡ state_at self.now from c }
    {
        find_changed(&self.words, &self.memories, from, to, marks);
    }

    /// Gives the components of a set at a cycle the states that a row holds for them after its step; those are marked that had another,
    /// or none, and in `worded` those of them that had other words, or none. Where memory is wanting, no state changes.
    pub fn put_whole<M: WholeRow<G>>(
        &mut self,
        slots: &G::Slots,
        row: &M,
        step: &M::Step,
        set: &Row,
        changes: &mut Row,
        worded: &mut Row,
        cycle: u32,
    ) -> Result<(), NoMemory>
        requires at { IsSetAt (G.rules.components slots.now) self.old.width (length self.old.rows) cycle set.now }
        requires marks { AreMarks (length set.now) changes.old worded.old }
        requires stands { M.stands row.now slots.now }
        requires stepped { IsStepped G.codec self.old cycle set.now (M.is_still step.now slots.now) (M.has_written step.now slots.now) (M.state row.now) }
        ensures marks { AreMarks (length set.now) changes.new worded.new }
        ensures put { OnOk result (ArePut G.codec self.old self.new cycle set.now changes.new worded.new (M.state row.now)) }
        ensures err { OnErr result (IsSameStates self.old self.new) }
    {
        match put_whole::<G, M>(
            &mut self.words,
            &mut self.memories,
            &mut self.buffer,
            &mut self.ready,
            &mut self.sets,
            slots,
            row,
            step,
            set,
            changes,
            worded,
            cycle,
        ) {
            Ok(()) => {}
            Err(_) => return Err(NoMemory),
        }
        Ok(())
    }

    /// Gives the components of a set at a cycle the states that a step of each one gives them, out of a row into which what is near them is
    /// put; those are marked that had another, or none, and in `worded` those of them that had other words, or none. Where memory is
    /// wanting, no state changes.
    pub fn put_each<M: WholeRow<G>>(
        &mut self,
        slots: &G::Slots,
        held: &mut Near<M>,
        near: &Neighbours,
        set: &Row,
        changes: &mut Row,
        worded: &mut Row,
        cycle: u32,
    ) -> Result<(), NoMemory>
        requires at { IsSetAt (G.rules.components slots.now) self.old.width (length self.old.rows) cycle set.now }
        requires marks { AreMarks (length set.now) changes.old worded.old }
        requires near { HoldsNear G.rules G.codec M.stands M.state slots.now held.old near.now }
        requires before { (t c : ℕ) → t < cycle → c < length set.now → state_at self.old t c ≡ Some (run G.rules slots.now t c) }
        ensures marks { AreMarks (length set.now) changes.new worded.new }
        ensures held { HoldsWords G.rules G.codec M.stands M.state slots.now held.new }
        ensures put { OnOk result (ArePut G.codec self.old self.new cycle set.now changes.new worded.new (run G.rules slots.now cycle)) }
        ensures err { OnErr result (IsSameStates self.old self.new) }
    {
        match put_each::<G, M>(
            &mut self.words,
            &mut self.memories,
            &mut self.draft,
            &mut self.buffer,
            &mut self.ready,
            slots,
            held,
            near,
            set,
            changes,
            worded,
            cycle,
        ) {
            Ok(()) => {}
            Err(_) => return Err(NoMemory),
        }
        Ok(())
    }

    /// Removes the cycles from n on.
    pub fn truncate(&mut self, n: u32)
        ensures { self.new ≡ record { width = self.old.width; rows = take n self.old.rows } }
    {
        self.words.truncate(n);
        self.memories.truncate(n);
    }

    /// Adds m cycles of cells without a state; where memory is wanting, nothing is changed.
    pub fn grow(&mut self, m: u32) -> Result<(), NoMemory>
        requires fits { length self.old.rows + m < 2 ^ 32 }
        ensures ok { OnOk result (self.new ≡ record { width = self.old.width; rows = self.old.rows ++ replicate m (replicate self.old.width None) }) }
        ensures err { OnErr result (self.new ≡ self.old) }
    {
        let alloc = *self.buffer.allocator();
        match self.words.grow(alloc, m) {
            Ok(()) => {}
            Err(_) => return Err(NoMemory),
        }
        Ok(())
    }
}
