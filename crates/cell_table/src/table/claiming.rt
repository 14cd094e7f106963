//! Claiming a due cell.
ghost use Rattle.std.specs.Prelude.{◌≡◌, ℕ, ◌+◌, ◌<◌, ◌≤◌, IfOk, is_some, MatchOption, false, IfNone, IfSome, map, Some, None, if◌then◌else◌, List, ◌∷◌, length};
ghost use Rattle.std.specs.Arc.{arc_value};
ghost use Rattle.due_cells.specs.Seen.{held_at};
ghost use Rattle.due_cells.specs.Inputs.{inputs_of};
ghost use Rattle.cell_table.specs.Cells.{IsThere};
ghost use Rattle.cell_table.specs.Claims.{is_claimable, IsNextInRow, IsNext, IsNextRound, NoneFrom, NoneDue, IsClaim};
ghost use Rattle.cell_table.specs.Events.{Event, Start, Claims};
ghost use Rattle.cell_table.specs.Stands.{Stands};
ghost use Rattle.cell_table.specs.Made.{Made};

use super::Table;
use crate::Claim;
use cell_states::Cell;
use grid_law::{Grid, NoMemory};
use std::sync::Arc;

impl<G: Grid> Table<G> {
    /// Whether the states that a cell is computed from are all there.
    pub(super) fn has_inputs(&self, cell: Cell) -> bool
        requires { IsThere G.rules self.now cell.cycle cell.component }
        ensures { result
            ≡ is_some (inputs_of G.rules self.now.slots self.now.rows cell.cycle cell.component) }
    {
        if cell.cycle == 0 {
            return true;
        }
        let near = self.near(cell.component);
        self.cells.has_states(cell.cycle - 1, near)
    }

    fn is_claimable(&self, cell: Cell) -> bool
        requires { IsThere G.rules self.now cell.cycle cell.component }
        ensures { result ≡ is_claimable G.rules self.now cell.cycle cell.component }
    {
        self.due(cell) && self.has_inputs(cell)
    }

    /// Whether some cell of the cycle is due; no cell is looked at.
    #[tactic(auto, using(due_cells::proofs::Counts::none_due_in))]
    pub(super) fn is_row_due(&self, cycle: u32) -> bool
        requires { cycle ≤ self.now.horizon }
        ensures { result ≡ false → (c : ℕ) → (held_at self.now.rows cycle c).is_due ≡ false }
    {
        self.cells.due_count(cycle) > 0
    }

    /// The first cell of a cycle that can be claimed, from a component on.
    fn next_in_row(&self, cycle: u32, component: u32) -> Option<u32>
        requires { cycle ≤ self.now.horizon }
        ensures { MatchOption result
            ((c : ℕ) → c < G.rules.components self.now.slots → component ≤ c → is_claimable G.rules self.now cycle c ≡ false)
            (IsNextInRow G.rules self.now cycle component) }
    {
        if !self.is_row_due(cycle) {
            return None;
        }
        for c in component..G::components(&self.slots) {
            if self.is_claimable(Cell {
                cycle,
                component: c,
            }) {
                return Some(c);
            }
        }
        None
    }

    /// The first cell at or after that one that can be claimed.
    fn next_from(&self, from: Cell) -> Option<Cell>
        ensures { MatchOption result
            (NoneFrom G.rules self.now from.cycle from.component)
            (IsNext G.rules self.now from.cycle from.component) }
    {
        for cycle in u64::from(from.cycle)..u64::from(self.horizon) + 1 {
            let cycle = cycle as u32;
            let start = if cycle == from.cycle {
                from.component
            } else {
                0
            };
            if let Some(component) = self.next_in_row(cycle, start) {
                return Some(Cell { cycle, component });
            }
        }
        None
    }

    /// The first cell at or after that one that can be claimed, wrapping round once.
    #[tactic(auto, using(crate::proofs::Tables::none_due))]
    fn next_round(&self, from: Cell) -> Option<Cell>
        ensures { MatchOption result
            (NoneDue G.rules self.now)
            (IsNextRound G.rules self.now from.cycle from.component) }
    {
        let _ = &self.slots;
        match self.next_from(from) {
            Some(cell) => Some(cell),
            None => self.next_from(Cell {
                cycle: 0,
                component: 0,
            }),
        }
    }

    /// Puts what the cell is computed from into `near`, if the states are all there.
    pub(super) fn inputs(&self, cell: Cell, near: &mut Vec<Arc<G::State>>) -> Result<bool, NoMemory>
        requires { IsThere G.rules self.now cell.cycle cell.component }
        ensures { IfOk result (λ all. (if all then Some (map arc_value near.new.items) else None)
            ≡ inputs_of G.rules self.now.slots self.now.rows cell.cycle cell.component) }
    {
        if cell.cycle == 0 {
            near.clear();
            return Ok(true);
        }
        let components = self.near(cell.component);
        self.cells.share_states(cell.cycle - 1, components, near)
    }

    fn claim_plain(&self, from: Cell) -> Result<Option<Claim<G>>, NoMemory>
        ensures none { IfOk result (λ o. IfNone o (NoneDue G.rules self.now)) }
        ensures next { IfOk result (λ o. IfSome o (λ claim. IsNextRound G.rules self.now from.cycle from.component claim.cell)) }
        ensures holds { IfOk result (λ o. IfSome o (IsClaim G.rules self.now)) }
    {
        match self.next_round(from) {
            None => Ok(None),
            Some(cell) => {
                let alloc = self.cells.allocator();
                let slots = G::share(alloc, &self.slots)?;
                let mut near = Vec::new(alloc);
                if self.inputs(cell, &mut near)? {
                    Ok(Some(Claim::new(cell, self.version(cell), slots, near)))
                } else {
                    unreachable!()
                }
            }
        }
    }

    /// A claim of the first cell at or after `from` that is due and whose near cells one cycle
    /// earlier all hold a state, wrapping round once; none exactly where no cell is due. Nothing
    /// is changed. A cycle with nothing due is passed in one step, and each cell is looked at once
    /// at most.
    ///
    /// # Errors
    ///
    /// Where a growth was refused, or a state has as many owners as can be counted. The table is as
    /// before.
    pub fn claim(&self, from: Cell) -> Result<Option<Claim<G>>, NoMemory>
        ensures none { IfOk result (λ r. IfNone r (NoneDue G.rules self.now)) }
        ensures next { IfOk result (λ r. IfSome r (λ claim. IsNextRound G.rules self.now from.cycle from.component claim.cell)) }
        ensures holds { IfOk result (λ r. IfSome r (IsClaim G.rules self.now)) }
        ensures headline_claims { IfOk result (λ r. IfSome r (λ claim. (o : Start G.Slots) (h : List (Event G.State G.Slots G.Slot)) → Stands G.rules o self.now h
            → Stands G.rules o self.now (Claims claim.cell.cycle claim.cell.component ∷ h)
            × Made G.rules o claim (Claims claim.cell.cycle claim.cell.component ∷ h) (length h))) }
    {
        self.claim_plain(from)
    }
}
