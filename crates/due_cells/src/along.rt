//! A row of all components that goes along from cycle to cycle.
ghost use Rattle.std.specs.Prelude.{◌≡◌, ℕ, ◌-◌, ◌<◌, IfSome, MatchOption, Some, None, true, false, length, ◌≤◌};
ghost use Rattle.cell_states.specs.Filling.{is_awake};
ghost use Rattle.grid_law.specs.Run.{run};
ghost use Rattle.due_cells.specs.Seen.{held_at, row_at};
ghost use Rattle.due_cells.specs.Beside.{AreBeside};
ghost use Rattle.due_cells.specs.Spares.{GoesAlong, AreRowsOf};
ghost use Rattle.due_cells.specs.WholeRows.{HoldsRow, IsKnown};

use crate::beside::Beside;
use crate::cells::Cells;
use cell_marks::Row;
use cell_states::{Cell, WholeRow};
use grid_law::Grid;

/// A row, and the cycle whose states it holds.
#[derive(Drop)]
pub struct Along<M> {
    pub row: M,
    pub cycle: u32,
    /// Between two calls it means nothing.
    changed: Row,
}

/// Whether a row goes along that holds a later cycle.
fn is_past<M>(along: &Option<Along<M>>, cycle: u32) -> bool {
    match along {
        Some(a) => a.cycle > cycle,
        None => false,
    }
}

/// Puts the state of a cell into a row, by its words and its memory: whether the row holds it then.
fn load_one<G: Grid, M: WholeRow<G>>(
    cells: &Cells<G>,
    slots: &G::Slots,
    row: &mut M,
    cell: Cell,
) -> bool
    requires component { cell.component < G.rules.components slots.now }
    requires held { (held_at cells.now cell.cycle cell.component).state ≡ Some (run G.rules slots.now cell.cycle cell.component) }
    requires stands { M.stands row.old slots.now }
    ensures stands { M.stands row.new slots.now }
    ensures loaded { result ≡ true → M.state row.new cell.component ≡ run G.rules slots.now cell.cycle cell.component }
    ensures others { (d : ℕ) → d < G.rules.components slots.now → (d ≡ cell.component → ⊥) → M.state row.new d ≡ M.state row.old d }
{
    let component = cell.component;
    if !row.load(slots, component, cells.words(cell)) {
        return false;
    }
    match cells.memory(cell) {
        Some(memory) => {
            let alloc = cells.allocator();
            if !row.load_memory(alloc, slots, component, memory) {
                return false;
            }
            row.is_told(slots, component);
            true
        }
        None => {
            row.is_told(slots, component);
            true
        }
    }
}

/// The row, with the states of a cycle; none where it can't hold one of them, or a growth was refused.
fn loaded<G: Grid, M: WholeRow<G>>(
    cells: &Cells<G>,
    slots: &G::Slots,
    row: M,
    cycle: u32,
) -> Option<M>
    requires held { (c : ℕ) → c < G.rules.components slots.now → (held_at cells.now cycle c).state ≡ Some (run G.rules slots.now cycle c) }
    requires stands { M.stands row slots.now }
    ensures { IfSome result (λ row. HoldsRow G.rules M.stands M.state slots.now row cycle) }
{
    let count = G::components(slots);
    let mut row = row;
    for component in 0..count {
        if !load_one::<G, M>(cells, slots, &mut row, Cell { cycle, component }) {
            return None;
        }
    }
    Some(row)
}

/// Lets an idle row go along, where there is one, or a new one, from a cycle to which it is brought: whether it does.
#[inline(never)]
fn start_along<G: Grid, M: WholeRow<G>>(
    cells: &Cells<G>,
    slots: &G::Slots,
    along: &mut Option<Along<M>>,
    beside: &mut Beside<M>,
    cycle: u32,
) -> bool
    requires held { (c : ℕ) → c < G.rules.components slots.now → (held_at cells.now cycle c).state ≡ Some (run G.rules slots.now cycle c) }
    requires beside { AreBeside G.rules G.codec M.stands M.state slots.now beside.old }
    ensures rows { AreRowsOf G.rules G.codec M.stands M.state slots.now along.new beside.new }
    ensures there { result ≡ true → MatchOption along.new ⊥ (λ a. a.cycle ≡ cycle) }
{
    let alloc = cells.allocator();
    let Ok(changed) = Row::new(alloc, G::components(slots), false) else {
        *along = None;
        return false;
    };
    let row = match beside.idle.take() {
        Some(row) => Some(row),
        None => M::new(alloc, slots),
    };
    match row {
        Some(row) => match loaded::<G, M>(cells, slots, row, cycle) {
            Some(row) => {
                *along = Some(Along {
                    row,
                    cycle,
                    changed,
                });
                true
            }
            None => {
                *along = None;
                false
            }
        },
        None => {
            *along = None;
            false
        }
    }
}

/// The row that went along is kept. What it holds means nothing any more.
#[inline(never)]
fn keep_idle<G: Grid, M: WholeRow<G>>(
    slots: &G::Slots,
    along: Option<Along<M>>,
    beside: &mut Beside<M>,
)
    requires { AreRowsOf G.rules G.codec M.stands M.state slots.now along beside.old }
    ensures { AreBeside G.rules G.codec M.stands M.state slots.now beside.new }
{
    let _ = slots;
    match along {
        Some(a) => beside.idle = Some(a.row),
        None => {}
    }
}

/// Puts the states of a cycle of those components into a row that may be other ones than at the cycle that it holds: whether the row holds
/// the cycle then.
fn load_changed<G: Grid, M: WholeRow<G>>(
    cells: &Cells<G>,
    slots: &G::Slots,
    row: &mut M,
    changed: &Row,
    cycle: u32,
) -> bool
    requires width { length changed.now ≡ G.rules.components slots.now }
    requires held { (c : ℕ) → c < G.rules.components slots.now → (held_at cells.now cycle c).state ≡ Some (run G.rules slots.now cycle c) }
    requires stands { M.stands row.old slots.now }
    requires same { (c : ℕ) → c < G.rules.components slots.now → is_awake changed.now c ≡ false → M.state row.old c ≡ run G.rules slots.now cycle c }
    ensures { result ≡ true → HoldsRow G.rules M.stands M.state slots.now row.new cycle }
{
    // The number of a component is below this one, so that of the next fits.
    let _count = changed.len();
    let mut next = 0;
    while let Some(component) = changed.first_from(next) {
        if !load_one::<G, M>(cells, slots, row, Cell { cycle, component }) {
            return false;
        }
        next = component + 1;
    }
    true
}

/// Brings a row that goes along to a later cycle: whether it is there then.
#[inline(never)]
fn bring<G: Grid, M: WholeRow<G>>(
    cells: &Cells<G>,
    slots: &G::Slots,
    along: &mut Along<M>,
    cycle: u32,
) -> bool
    requires later { along.old.cycle ≤ cycle }
    requires within { cycle < length cells.now }
    requires whole { length (row_at cells.now 0) ≡ G.rules.components slots.now }
    requires held { (t c : ℕ) → t ≤ cycle → c < G.rules.components slots.now → (held_at cells.now t c).state ≡ Some (run G.rules slots.now t c) }
    requires along { GoesAlong G.rules M.stands M.state slots.now along.old }
    ensures along { result ≡ true → GoesAlong G.rules M.stands M.state slots.now along.new }
    ensures there { result ≡ true → along.new.cycle ≡ cycle }
{
    cells.find_changed(along.cycle, cycle, &mut along.changed);
    if !load_changed::<G, M>(cells, slots, &mut along.row, &along.changed, cycle) {
        return false;
    }
    along.cycle = cycle;
    true
}

/// Whether a row that goes along holds a cycle, to which it is brought where it holds an earlier one.
#[inline(always)]
fn is_brought<G: Grid, M: WholeRow<G>>(
    cells: &Cells<G>,
    slots: &G::Slots,
    along: &mut Along<M>,
    cycle: u32,
) -> bool
    requires within { cycle < length cells.now }
    requires whole { length (row_at cells.now 0) ≡ G.rules.components slots.now }
    requires held { (t c : ℕ) → t ≤ cycle → c < G.rules.components slots.now → (held_at cells.now t c).state ≡ Some (run G.rules slots.now t c) }
    requires along { GoesAlong G.rules M.stands M.state slots.now along.old }
    ensures along { result ≡ true → GoesAlong G.rules M.stands M.state slots.now along.new }
    ensures there { result ≡ true → along.new.cycle ≡ cycle }
{
    if along.cycle == cycle {
        return true;
    }
    along.cycle < cycle && bring::<G, M>(cells, slots, along, cycle)
}

/// The row goes on to a cycle from the one before, to which it is brought, or loaded anew where it is past that; none where it can't, and
/// then it is let go.
pub(crate) fn go_along<G: Grid, M: WholeRow<G>>(
    cells: &Cells<G>,
    slots: &G::Slots,
    along: &mut Option<Along<M>>,
    beside: &mut Beside<M>,
    cycle: u32,
) -> Option<M::Step>
    requires later { 0 < cycle }
    requires within { cycle ≤ length cells.now }
    requires whole { length (row_at cells.now 0) ≡ G.rules.components slots.now }
    requires before { (t c : ℕ) → t < cycle → c < G.rules.components slots.now → (held_at cells.now t c).state ≡ Some (run G.rules slots.now t c) }
    requires rows { AreRowsOf G.rules G.codec M.stands M.state slots.now along.old beside.old }
    ensures rows { AreRowsOf G.rules G.codec M.stands M.state slots.now along.new beside.new }
    ensures there { IfSome result (λ step. MatchOption along.new ⊥ (λ a. a.cycle ≡ cycle)) }
    ensures known { IfSome result (λ step. IsKnown G.rules G.codec (M.is_still step slots.now) (M.has_written step slots.now) slots.now cycle) }
{
    if is_past(along, cycle - 1) {
        keep_idle::<G, M>(slots, along.take(), beside);
    }
    if along.is_none() && !start_along::<G, M>(cells, slots, along, beside, cycle - 1) {
        return None;
    }
    let step = match along {
        Some(a) => {
            if is_brought::<G, M>(cells, slots, a, cycle - 1) {
                step_on::<G, M>(slots, &mut a.row, &mut a.cycle, cycle)
            } else {
                None
            }
        }
        None => None,
    };
    if step.is_none() {
        let_go(along);
    }
    step
}

/// No row goes along any more.
#[inline(never)]
fn let_go<M: Drop>(along: &mut Option<Along<M>>)
    ensures { along.new ≡ None }
{
    *along = None;
}

/// The row goes on to a cycle from the one before.
fn step_on<G: Grid, M: WholeRow<G>>(
    slots: &G::Slots,
    row: &mut M,
    at: &mut u32,
    cycle: u32,
) -> Option<M::Step>
    requires later { 0 < cycle }
    requires row { HoldsRow G.rules M.stands M.state slots.now row.old (cycle - 1) }
    ensures row { IfSome result (λ step. HoldsRow G.rules M.stands M.state slots.now row.new at.new) }
    ensures at { at.new ≡ cycle }
    ensures known { IfSome result (λ step. IsKnown G.rules G.codec (M.is_still step slots.now) (M.has_written step slots.now) slots.now cycle) }
{
    *at = cycle;
    row.step(slots)
}
