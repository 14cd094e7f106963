//! The components of a cone, and their due cells, from cycle to cycle.
ghost use Rattle.std.specs.Prelude.{◌≡◌, ℕ, ◌+◌, ◌<◌, ◌==◌, ◌||◌, ◌&&◌, ◌^◌, ◌↔◌, IsTrue, IfOk, true, false, length, vec_len, slice_index_or, count_by};
ghost use Rattle.std.specs.List.{range_with_len};
ghost use Rattle.due_cells.specs.Seen.{due_at};
ghost use Rattle.cell_states.specs.Near.{has};
ghost use Rattle.due_cells.specs.Cones.{is_in, earlier, count_in};

use crate::cells::Cells;
use cell_states::Cell;
use grid_law::{Grid, NoMemory};
use std::alloc::Global;
use std::marker::Model;

/// How many cells are due in the cone of a cell that is there. The components are widened until
/// they grow no more; a cycle with nothing due is passed in one step.
#[tactic(auto, using(crate::proofs::Cones::count_in_same))]
pub fn due_down<G: Grid>(
    alloc: Global,
    slots: &G::Slots,
    cells: &Cells<G>,
    cell: Cell,
) -> Result<u64, NoMemory>
    requires cycle { cell.cycle < length cells.now }
    requires component { cell.component < G.rules.components slots.now }
    ensures { IfOk result (λ due. due ≡ count_in G.rules slots.now (due_at cells.now) (λ m. m == cell.component) cell.cycle) }
{
    let mut members = Members::only(alloc, G::components(slots), cell.component)?;
    let mut due = 0u64;
    for cycle in (0..cell.cycle).rev() {
        due += members.due_among(cells, cycle + 1);
        members = members.earlier::<G>(alloc, slots)?;
    }
    Ok(due + members.due_among(cells, 0))
}

/// The components of a cone at one cycle.
#[derive(Drop)]
struct Members {
    /// A mark for each component of the grid.
    marks: Vec<bool>,
    /// Whether there may be others one cycle earlier.
    grows: bool,
}

impl Model for Members {
    ghost use Rattle.std.specs.Prelude.{length, ◌<◌, ◌^◌};
    ghost use Rattle.due_cells.specs.Cones.{Marked};

    ghost Value = { Marked };

    ghost view = { λ m. record { marks = m.marks.items; grows = m.grows } };

    ghost invariant = { λ m. length m.marks.items < 2 ^ 32 };
}

impl Members {
    /// One component alone.
    fn only(alloc: Global, count: u32, c: u32) -> Result<Members, NoMemory>
        requires { c < count }
        ensures len { IfOk result (λ only. length only.marks ≡ count) }
        ensures at { IfOk result (λ only. (m : ℕ) → m < count → is_in only m ≡ (m == c)) }
        ensures grows { IfOk result (λ only. only.grows ≡ true) }
    {
        let mut marks = vec![in alloc; false; count as usize]?;
        marks[c as usize] = true;
        Ok(Members { marks, grows: true })
    }

    /// The components near these, which are those of the cone one cycle earlier.
    #[tactic(auto, using(crate::proofs::Cones::stays))]
    fn earlier<G: Grid>(self, alloc: Global, slots: &G::Slots) -> Result<Members, NoMemory>
        requires len { length self.marks ≡ G.rules.components slots.now }
        requires stay { self.grows ≡ false → (m : ℕ) → m < G.rules.components slots.now → earlier G.rules slots.now (is_in self) m ≡ is_in self m }
        ensures len { IfOk result (λ next. length next.marks ≡ G.rules.components slots.now) }
        ensures at { IfOk result (λ next. (m : ℕ) → m < G.rules.components slots.now → is_in next m ≡ earlier G.rules slots.now (is_in self) m) }
        ensures stay { IfOk result (λ next. next.grows ≡ false → (m : ℕ) → m < G.rules.components slots.now → earlier G.rules slots.now (is_in next) m ≡ is_in next m) }
    {
        if !self.grows {
            return Ok(self);
        }
        let marks = near_marks::<G>(alloc, slots, &self.marks)?;
        let grows = !is_same(&marks, &self.marks);
        Ok(Members { marks, grows })
    }

    /// How many of them are due at a cycle.
    #[tactic(auto, using(crate::proofs::Cones::count_more))]
    fn due_among<G: Grid>(&self, cells: &Cells<G>, cycle: u32) -> u64
        ensures value { result
            ≡ count_by (λ c. is_in self.now c && due_at cells.now cycle c) (range_with_len 0 (length self.now.marks)) }
        ensures few { result < 2 ^ 32 }
    {
        if cells.due_count(cycle) == 0 {
            return 0;
        }
        let mut count = 0;
        for (c, is_marked) in self.marks.iter().enumerate() {
            let component = c as u32;
            if *is_marked && cells.is_due(Cell { cycle, component }) {
                count += 1;
            }
        }
        count
    }
}

fn is_same(a: &[bool], b: &[bool]) -> bool
    ensures { IsTrue result ↔ (a.now ≡ b.now) }
{
    a == b
}

/// Marks for the components near a marked one.
#[tactic(auto, using(crate::proofs::Cones::any_more))]
fn near_marks<G: Grid>(
    alloc: Global,
    slots: &G::Slots,
    marks: &[bool],
) -> Result<Vec<bool>, NoMemory>
    requires { length marks.now ≡ G.rules.components slots.now }
    ensures len { IfOk result (λ next. vec_len next ≡ G.rules.components slots.now) }
    ensures at { IfOk result (λ next. (m : ℕ) → m < G.rules.components slots.now
        → slice_index_or next.items m false ≡ earlier G.rules slots.now (λ x. slice_index_or marks.now x false) m) }
{
    let mut next = vec![in alloc; false; marks.len()]?;
    for c in 0..G::components(slots) {
        if marks[c as usize] {
            mark_all(&mut next, G::near(slots, c).as_slice());
        }
    }
    Ok(next)
}

/// Marks these components.
fn mark_all(marks: &mut Vec<bool>, components: &[u32])
    ensures len { vec_len marks.new ≡ vec_len marks.old }
    ensures at { (m : ℕ) → m < vec_len marks.old
        → slice_index_or marks.new.items m false ≡ (slice_index_or marks.old.items m false || has components.now m) }
{
    for c in components {
        if let Some(mark) = marks.get_mut(*c as usize) {
            *mark = true;
        }
    }
}
