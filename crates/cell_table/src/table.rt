//! The table.
ghost use Rattle.std.specs.Prelude.{◌≡◌, ℕ, ◌+◌, ◌<◌, ◌≤◌, IfOk, IfErr, List, replicate, None, Some, ◌↔◌, IsTrue, [], option_map};
ghost use Rattle.std.specs.Arc.{arc_value};
ghost use Rattle.std.specs.Option.{option_copied};
ghost use Rattle.due_cells.specs.Seen.{held_at, due_at, fresh};
ghost use Rattle.cell_table.specs.Cells.{IsThere};
ghost use Rattle.cell_table.specs.Consistent.{IsWhole, IsConsistent};
ghost use Rattle.cell_table.specs.Claims.{NoneDue};
ghost use Rattle.due_cells.specs.Cones.{count_to};
ghost use Rattle.cell_table.specs.Due.{due};
ghost use Rattle.cell_table.specs.Events.{Event, Start, slots_of, horizon_of};
ghost use Rattle.cell_table.specs.Stands.{Stands};
ghost use Rattle.grid_law.specs.Codec.{IsTold};
ghost use Rattle.grid_law.specs.Run.{run};

mod alike;
mod claiming;
mod cone;
mod giving;
mod settling;
mod touching;
mod wave;
mod wide;

use cell_states::{Cell, Neighbours, Room};
use due_cells::{Cells, Readers};
use grid_law::{Grid, NoMemory};
use std::alloc::Global;
use std::marker::Model;
use std::sync::Arc;

/// The cells of the cycles from 0 to the horizon: for each a state, if it has one, and whether it
/// is due. Each cell that isn't due holds its first state, or the step of the states near it.
pub struct Table<G: Grid> {
    slots: G::Slots,
    horizon: u32,
    clock: u64,
    cells: Cells<G>,
    readers: Readers,
    neighbours: Neighbours,
    /// Before which cycle each cell is known to hold a state; there may be more of them.
    held: u32,
    /// For the versions of a cycle in which a store makes cells due.
    room: Room,
}

// Not derived: whoever drops a table calls this, and proves nothing of its parts anew.
impl<G: Grid> Drop for Table<G> {
    fn drop(self) {
        let Table {
            slots,
            horizon: _,
            clock: _,
            cells,
            readers,
            neighbours,
            held: _,
            room,
        } = self;
        drop(slots);
        drop(cells);
        drop(readers);
        drop(neighbours);
        drop(room);
    }
}

impl<G: Grid> Model for Table<G> {
    ghost use Rattle.due_cells.specs.Seen.{Seen};
    ghost use Rattle.cell_table.specs.Kept.{IsKept};

    ghost Value = { Seen G.State G.Slots };

    ghost view = { λ t. record { slots = t.slots; horizon = t.horizon; clock = t.clock; rows = t.cells } };

    ghost invariant = { λ t. IsKept G.rules t.slots t.horizon t.cells t.readers t.neighbours t.held };
}

impl<G: Grid> Table<G> {
    #[tactic(auto, using(crate::proofs::Tables::is_table_new))]
    fn new_plain(
        alloc: Global,
        slots: G::Slots,
        horizon: u32,
        clock: u64,
    ) -> Result<Table<G>, G::Slots>
        ensures ok { IfOk result (λ t. t ≡ record {
          slots = slots;
          horizon = horizon;
          clock = clock;
          rows = replicate (horizon + 1) (replicate (G.rules.components slots) (fresh clock));
        }) }
        ensures err { IfErr result (λ s. s ≡ slots) }
    {
        let count = G::components(&slots);
        if horizon == u32::MAX {
            return Err(slots);
        }
        let cells = match Cells::new(alloc, count, horizon + 1, clock) {
            Ok(cells) => cells,
            Err(_) => return Err(slots),
        };
        let readers = match Readers::new::<G>(alloc, &slots) {
            Ok(readers) => readers,
            Err(_) => return Err(slots),
        };
        let neighbours = match Neighbours::new::<G>(alloc, &slots) {
            Ok(neighbours) => neighbours,
            Err(_) => return Err(slots),
        };
        Ok(Table {
            slots,
            horizon,
            clock,
            cells,
            readers,
            neighbours,
            held: 0,
            room: Room::new(alloc),
        })
    }

    /// A table whose cells are all new and due, with `clock` as their version. Where memory is
    /// wanting, the slots come back; so they do at the horizon 2^32 - 1, whose cycles are more than
    /// are counted.
    ///
    /// # Errors
    ///
    /// Where a growth was refused, or the horizon is 2^32 - 1: the slots, as they were handed over.
    pub fn new(
        alloc: Global,
        slots: G::Slots,
        horizon: u32,
        clock: u64,
    ) -> Result<Table<G>, G::Slots>
        ensures slots { IfOk result (λ t. t.slots ≡ slots) }
        ensures horizon { IfOk result (λ t. t.horizon ≡ horizon) }
        ensures clock { IfOk result (λ t. t.clock ≡ clock) }
        ensures cells { IfOk result (λ t. (t1 c : ℕ) → IsThere G.rules t t1 c → held_at t.rows t1 c ≡ fresh clock) }
        ensures headline_stands { IfOk result (λ t. Stands G.rules (record { slots = slots; horizon = horizon; clock = clock }) t []) }
        ensures err { IfErr result (λ s. s ≡ slots) }
    {
        Table::new_plain(alloc, slots, horizon, clock)
    }

    /// The first clock, one more for each edit and for each store that changed a state.
    pub fn clock(&self) -> u64
        ensures { result ≡ self.now.clock }
    {
        self.clock
    }

    /// The last cycle.
    pub fn horizon(&self) -> u32
        ensures { result ≡ self.now.horizon }
    {
        self.horizon
    }

    /// The slots after the last edit.
    pub fn slots(&self) -> &G::Slots
        ensures { result.now ≡ self.now.slots }
    {
        &self.slots
    }

    /// The state that the cell holds, up to date or not, put together for this owner; none for a cell
    /// that isn't there. It lives on once the table has another one.
    ///
    /// # Errors
    ///
    /// Where a growth was refused, or what isn't in the state's words has as many owners as can be
    /// counted. Nothing is changed.
    pub fn shared(&self, cell: Cell) -> Result<Option<Arc<G::State>>, NoMemory>
        ensures { IfOk result (λ o. option_map arc_value o ≡ (held_at self.now.rows cell.cycle cell.component).state) }
    {
        self.cells.shared(cell)
    }

    /// The words of the state that the cell holds, up to date or not; none where it holds no state, as
    /// for a cell that isn't there. They are lent, so no memory is taken.
    pub fn words(&self, cell: Cell) -> &[u64]
        ensures none { result.now ≡ [] ↔ ((held_at self.now.rows cell.cycle cell.component).state ≡ None) }
        ensures told { (x : G.State) → (held_at self.now.rows cell.cycle cell.component).state ≡ Some x → IsTold G.codec x × (G.codec.words x ≡ result.now) }
    {
        self.cells.words(cell)
    }

    /// What of that state isn't in its words, where there is anything; lent, too. Where the cell holds no
    /// state, it means nothing.
    pub fn memory(&self, cell: Cell) -> Option<&G::Memory>
        ensures { (x : G.State) → (held_at self.now.rows cell.cycle cell.component).state ≡ Some x → G.codec.memory x ≡ option_copied result }
    {
        self.cells.memory(cell)
    }

    /// To before which cycle the cells of its component hold what the cell holds, up to date or not; they may hold it longer. So a walk
    /// over a component's states looks at each of its stretches once.
    pub fn stands_to(&self, cell: Cell) -> u32
        requires { IsThere G.rules self.now cell.cycle cell.component }
        ensures after { cell.cycle < result }
        ensures within { result ≤ self.now.horizon + 1 }
        ensures same { (t : ℕ) → cell.cycle ≤ t → t < result → (held_at self.now.rows t cell.component).state ≡ (held_at self.now.rows cell.cycle cell.component).state }
    {
        self.cells.stands_to(cell)
    }

    /// Whether the cell is due; one that isn't there isn't.
    #[inline(always)]
    pub fn due(&self, cell: Cell) -> bool
        ensures { result ≡ (held_at self.now.rows cell.cycle cell.component).is_due }
    {
        self.cells.is_due(cell)
    }

    /// How many cells are due at the cycles up to t. Where none is, these cells hold the run,
    /// whatever is due later. Each of these cycles is looked at once, and no cell; one number tells
    /// it of all cycles.
    pub fn due_to(&self, t: u32) -> u64
        ensures count { result ≡ count_to G.rules self.now.slots self.now.horizon (due_at self.now.rows) t }
        ensures headline_due { (o : Start G.Slots) (h : List (Event G.State G.Slots G.Slot)) → Stands G.rules o self.now h
            → result ≡ count_to G.rules (slots_of o h) (horizon_of o h) (due G.rules o h) t }
        ensures run { result ≡ 0 → (t1 c : ℕ) → t1 ≤ t → IsThere G.rules self.now t1 c → (held_at self.now.rows t1 c).state ≡ Some (run G.rules self.now.slots t1 c) }
    {
        self.cells.due_to(t)
    }

    /// The components near one.
    fn near(&self, component: u32) -> &[u32]
        requires { component < G.rules.components self.now.slots }
        ensures { result.now ≡ G.rules.near self.now.slots component }
    {
        self.neighbours.of(component)
    }

    fn has(&self, cell: Cell) -> bool
        ensures { IsTrue result ↔ IsThere G.rules self.now cell.cycle cell.component }
    {
        cell.cycle <= self.horizon && cell.component < G::components(&self.slots)
    }

    fn version(&self, cell: Cell) -> u64
        ensures { result ≡ (held_at self.now.rows cell.cycle cell.component).version }
    {
        self.cells.version(cell)
    }

    /// Each cell that isn't due holds its first state, or the step of the present slots and the
    /// present near states. This is so of every table, and no work is done.
    pub fn consistent(&self)
        ensures whole { IsWhole G.rules self.now.slots self.now.horizon self.now.rows }
        ensures consistent { IsConsistent G.rules self.now.slots self.now.horizon self.now.rows }
    {
        let _ = &self.slots;
    }

    /// Where no cell is due, the cells hold the run of the present slots. No work is done.
    #[tactic(auto, using(crate::proofs::Runs::holds_run))]
    pub fn settled(&self)
        ensures { NoneDue G.rules self.now → (t c : ℕ) → IsThere G.rules self.now t c
            → (held_at self.now.rows t c).state ≡ Some (run G.rules self.now.slots t c) }
    {
        let _ = &self.slots;
    }
}
