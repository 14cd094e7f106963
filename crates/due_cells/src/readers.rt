//! Which components read which.
ghost use Rattle.std.specs.Prelude.{◌≡◌, ℕ, ◌<◌, ◌||◌, ◌&&◌, IfOk, OnOk, length, List, [], true, false, replicate, All};
ghost use Rattle.std.specs.Arc.{arc_value};
ghost use Rattle.std.specs.List.{list_any};
ghost use Rattle.cell_states.specs.Near.{has, near_at, AreNear};
ghost use Rattle.due_cells.specs.Readers.{readers_at, IsIndex, AreMasks, AreTurned};
ghost use Rattle.cell_states.specs.Filling.{is_awake};
ghost use Rattle.cell_states.specs.Versions.{any_changes};

use crate::components::Components;
use cell_marks::{Row, RowBlocks};
use cell_states::Neighbours;
use grid_law::{Grid, NoMemory};
use std::alloc::Global;
use std::marker::Model;
use std::sync::Arc;

/// For each component, those that read it: as a list, and as marks. Beside them stands the same turned round, which components are near
/// each, for whoever keeps it.
#[derive(Drop)]
pub struct Readers {
    lists: Vec<Components>,
    masks: RowBlocks,
    near: Arc<Neighbours>,
}

impl Model for Readers {
    ghost use Rattle.std.specs.Prelude.{List, ℕ};
    ghost use Rattle.std.specs.Arc.{arc_value};
    ghost use Rattle.due_cells.specs.Readers.{AreMasks, AreTurned};

    ghost Value = { List (List ℕ) };

    ghost view = { λ r. r.lists.items };

    ghost invariant = { λ r. AreMasks r.lists.items r.masks × AreTurned r.lists.items (arc_value r.near) };
}

fn empty_lists(alloc: Global, count: u32) -> Result<Vec<Components>, NoMemory>
    ensures { IfOk result (λ lists. lists.items ≡ replicate count []) }
{
    let mut lists = Vec::new(alloc);
    for _c in 0..count {
        lists.push(Components::new(alloc))?;
    }
    Ok(lists)
}

/// Adds `k` to the lists of its near components.
fn add_reader(lists: &mut Vec<Components>, near: &[u32], k: u32) -> Result<(), NoMemory>
    requires { All (λ m. m < length lists.old.items) near.now }
    ensures len { OnOk result (length lists.new.items ≡ length lists.old.items) }
    ensures others { OnOk result ((c j : ℕ) → (j ≡ k → ⊥) → has (readers_at lists.new.items c) j ≡ has (readers_at lists.old.items c) j) }
    ensures own { OnOk result ((c : ℕ) → has (readers_at lists.old.items c) k ≡ false → has (readers_at lists.new.items c) k ≡ has near.now c) }
    ensures within { (n : ℕ) → k < n → OnOk result ((c : ℕ) → All (λ j. j < n) (readers_at lists.old.items c) → All (λ j. j < n) (readers_at lists.new.items c)) }
{
    for c in near {
        lists[*c as usize].push(k)?;
    }
    Ok(())
}

/// Finds for each component those that have it among their near ones.
fn lists_of<G: Grid>(alloc: Global, slots: &G::Slots) -> Result<Vec<Components>, NoMemory>
    ensures { IfOk result (λ lists. IsIndex G.rules slots.now lists.items) }
{
    let count = G::components(slots);
    let mut lists = empty_lists(alloc, count)?;
    for k in 0..count {
        let near = G::near(slots, k);
        add_reader(&mut lists, near.as_slice(), k)?;
    }
    Ok(lists)
}

/// Marks these components.
fn wake(marks: &mut Row, components: &[u32])
    requires { All (λ k. k < length marks.old) components.now }
    ensures len { length marks.new ≡ length marks.old }
    ensures at { (c : ℕ) → is_awake marks.new c ≡ (is_awake marks.old c || has components.now c) }
{
    for component in components {
        marks.set(*component);
    }
}

/// For each list a row of its marks.
fn rows_of(alloc: Global, lists: &Vec<Components>, count: u32) -> Result<Vec<Row>, NoMemory>
    requires count { length lists.now.items ≡ count }
    requires within { (c : ℕ) → c < count → All (λ k. k < count) (readers_at lists.now.items c) }
    ensures { IfOk result (λ rows. AreMasks lists.now.items rows.items) }
{
    let mut rows = Vec::with_capacity(alloc, count as usize)?;
    for c in 0..count {
        let mut row = Row::new(alloc, count, false)?;
        wake(&mut row, lists[c as usize].as_slice());
        match rows.push(row) {
            Ok(()) => {}
            Err(_) => return Err(NoMemory),
        }
    }
    Ok(rows)
}

/// The same, by blocks of components.
fn masks_of(alloc: Global, lists: &Vec<Components>, count: u32) -> Result<RowBlocks, NoMemory>
    requires count { length lists.now.items ≡ count }
    requires within { (c : ℕ) → c < count → All (λ k. k < count) (readers_at lists.now.items c) }
    ensures { IfOk result (λ masks. AreMasks lists.now.items masks) }
{
    let rows = rows_of(alloc, lists, count)?;
    Ok(RowBlocks::new(alloc, rows.as_slice(), count)?)
}

/// What is near each component, to be owned by several.
fn near_of<G: Grid>(alloc: Global, slots: &G::Slots) -> Result<Arc<Neighbours>, NoMemory>
    ensures { IfOk result (λ near. AreNear G.rules slots.now (arc_value near)) }
{
    let near = Neighbours::new::<G>(alloc, slots)?;
    match Arc::new(alloc, near) {
        Ok(near) => Ok(near),
        Err(_) => Err(NoMemory),
    }
}

/// Whether one of these components is marked.
fn has_any(changes: &Row, components: &[u32]) -> bool
    ensures { result ≡ list_any (is_awake changes.now) components.now }
{
    for component in components {
        if changes.has(*component) {
            return true;
        }
    }
    false
}

/// Takes away the marks of those near which none is marked in `changes`.
fn keep_woken(near: &Neighbours, changes: &Row, rest: &mut Row)
    ensures len { length rest.new ≡ length rest.old }
    ensures at { (k : ℕ) → is_awake rest.new k ≡ (is_awake rest.old k && list_any (is_awake changes.now) (near_at near.now k)) }
{
    // The number of a component is below this one, so that of the next fits.
    let _count = rest.len();
    let mut next = 0;
    while let Some(component) = rest.first_from(next) {
        if !has_any(changes, near.of(component)) {
            rest.clear(component);
        }
        next = component + 1;
    }
}

/// Marks just the components that are marked in `changes`, and those near which one is. Only the others are asked.
fn gather_others(near: &Neighbours, changes: &Row, reached: &mut Row)
    requires { length changes.now ≡ length reached.old }
    ensures len { length reached.new ≡ length reached.old }
    ensures at { (k : ℕ) → k < length reached.old → is_awake reached.new k ≡ (is_awake changes.now k || list_any (is_awake changes.now) (near_at near.now k)) }
{
    reached.mark_all();
    reached.remove(changes);
    keep_woken(near, changes, reached);
    reached.add(changes);
}

impl Readers {
    /// One look at each component's near ones.
    ///
    /// # Errors
    ///
    /// Where a growth was refused. What was taken is given back.
    pub fn new<G: Grid>(alloc: Global, slots: &G::Slots) -> Result<Readers, NoMemory>
        ensures { IfOk result (λ lists. IsIndex G.rules slots.now lists) }
    {
        let lists = lists_of::<G>(alloc, slots)?;
        let masks = masks_of(alloc, &lists, G::components(slots))?;
        let near = near_of::<G>(alloc, slots)?;
        Ok(Readers { lists, masks, near })
    }

    /// What is near each component.
    pub fn near(&self) -> &Arc<Neighbours>
        ensures { AreTurned self.now (arc_value result.now) }
    {
        &self.near
    }

    /// Marks just the components that read one of those marked; 64 of them in one step.
    pub fn gather(&self, changes: &Row, reached: &mut Row)
        requires width { length changes.now ≡ length self.now }
        requires reached { length reached.old ≡ length self.now }
        ensures len { length reached.new ≡ length reached.old }
        ensures reached { (k : ℕ) → k < length self.now → (near : List ℕ)
            → ((c : ℕ) → c < length self.now → has (readers_at self.now c) k ≡ has near c) → has near k ≡ true
            → is_awake reached.new k ≡ any_changes changes.now near (length self.now) }
    {
        if changes.count() == changes.len() {
            // Each component reads itself.
            reached.mark_all();
            return;
        }
        if changes.count() > changes.len() / 4 * 3 {
            // The marked ones read themselves, too, so only the others are asked.
            gather_others(&self.near, changes, reached);
            return;
        }
        reached.gather(&self.masks, changes);
    }

    /// The components that read `c`.
    pub fn of(&self, c: u32) -> &[u32]
        ensures { result.now ≡ readers_at self.now c }
    {
        match self.lists.get(c as usize) {
            Some(list) => list.as_slice(),
            None => &[],
        }
    }
}
