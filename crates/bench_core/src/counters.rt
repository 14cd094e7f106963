//! The counters of a bench.
ghost use Rattle.std.specs.Prelude.{◌≡◌, ◌+◌, ◌<◌, ◌≤◌, All, IfOk, OnOk, OnErr, None, Some, is_some};
ghost use Rattle.std.specs.Option.{IsSome, IfSome};
ghost use Rattle.omega_net.specs.Numbers.{components};
ghost use Rattle.due_cells.specs.Ranges.{IsWithin};
ghost use Rattle.bench_core.specs.Shown.{held, last_counted, IsCounted, AreCounted};
ghost use Rattle.bench_core.specs.Filling.{filled_in, filled_to, filled_over};
ghost use Rattle.monitor_sums.specs.Kept.{StandsFor};
ghost use Rattle.monitor_sums.specs.Sums.{States, changed, cleared};
ghost use Rattle.project_book.specs.Limits.{max_horizon};

use crate::lent::lent;
use cell_table::{Cell, CellRange, Table, Watcher};
use grid_law::NoMemory;
use machine_cells::Rp3;
use monitor_sums::Sums;
use omega_net::Shape;
use project_book::Project;
use std::alloc::Global;
use std::marker::Model;

/// Sums over the states that a bench's table holds, made when they are first asked for.
#[derive(Drop)]
pub(crate) struct Counters {
    sums: Option<Sums>,
}

impl Model for Counters {
    ghost use Rattle.std.specs.Prelude.{Option};
    ghost use Rattle.monitor_sums.specs.Kept.{Kept};

    ghost Value = { Option Kept };

    ghost view = { λ c. c.sums };
}

impl Counters {
    /// No sums yet.
    pub(crate) fn none() -> Counters
        ensures { result ≡ None }
    {
        Counters { sums: None }
    }

    /// Where there are no sums yet, all that the table holds is counted.
    ///
    /// # Errors
    ///
    /// Where a growth was refused. Nothing is changed.
    pub(crate) fn count(&mut self, alloc: Global, table: &Table<Rp3>) -> Result<(), NoMemory>
        requires short { table.now.horizon ≤ last_counted table.now.slots }
        requires counted { AreCounted self.old table.now }
        ensures counted { AreCounted self.new table.now }
        ensures there { OnOk result (IsSome self.new) }
        ensures err { OnErr result (self.new ≡ self.old) }
    {
        if self.sums.is_none() {
            self.sums = Some(count_table(alloc, table)?);
        }
        Ok(())
    }

    /// The sums, where there are any.
    pub(crate) fn sums(&self) -> &Sums
        requires { IsSome self.now }
        ensures { self.now ≡ Some result.now }
    {
        self.sums.as_ref().unwrap()
    }

    /// Counts no more what the cells past a horizon held, where those up to another were counted.
    #[tactic(auto, using(crate::proofs::Counting::none_cleared))]
    pub(crate) fn forget(&mut self, to: u32, before: u32)
        requires { IfSome self.old (λ old. before ≤ old.last) }
        ensures there { is_some self.new ≡ is_some self.old }
        ensures shape { IfSome self.old (λ old. IfSome self.new (λ new. new.k ≡ old.k)) }
        ensures last { IfSome self.old (λ old. IfSome self.new (λ new. new.last ≡ old.last)) }
        ensures stands { IfSome self.old (λ old. IfSome self.new (λ new. (at : States) → StandsFor old at → StandsFor new (cleared at (to + 1) before))) }
    {
        if let Some(sums) = &mut self.sums {
            if to < before {
                sums.clear(to + 1, before);
            }
        }
    }
}

/// The last cycle that the counters of a project's bench count.
fn last_counted(project: &Project) -> u32
    ensures value { result ≡ last_counted project.now }
    ensures within { result ≤ max_horizon }
{
    project.scale().most_horizon()
}

/// The sums over what a table holds.
fn count_table(alloc: Global, table: &Table<Rp3>) -> Result<Sums, NoMemory>
    requires { table.now.horizon ≤ last_counted table.now.slots }
    ensures { IfOk result (λ sums. IsCounted sums table.now) }
{
    let shape = Shape::new(table.slots().k()).unwrap();
    let mut sums = Sums::new(alloc, shape, last_counted(table.slots()))?;
    count_all_filled(&mut sums, table, 0, table.horizon() + 1)?;
    Ok(sums)
}

/// Counts what a cell holds in place of what it held.
///
/// # Errors
///
/// Where the state couldn't be shared. Nothing is counted.
fn count_cell(sums: &mut Sums, table: &Table<Rp3>, cell: Cell) -> Result<(), NoMemory>
    requires component { cell.component < components sums.old.k }
    requires cycle { cell.cycle ≤ sums.old.last }
    ensures shape { sums.new.k ≡ sums.old.k }
    ensures last { sums.new.last ≡ sums.old.last }
    ensures stands { OnOk result ((at : States) → StandsFor sums.old at → StandsFor sums.new (changed at cell.cycle cell.component (held table.now cell.cycle cell.component))) }
{
    let state = table.shared(cell)?;
    sums.change(cell.component, cell.cycle, lent(&state));
    Ok(())
}

/// Counts what a component holds at the cycles from one on to before another: each stretch of equal states
/// at once.
///
/// # Errors
///
/// Where a state couldn't be shared. Some of the cells may be counted.
fn count_filled(
    sums: &mut Sums,
    table: &Table<Rp3>,
    component: u32,
    from: u32,
    to: u32,
) -> Result<(), NoMemory>
    requires component { component < components sums.old.k }
    requires same { sums.old.k ≡ table.now.slots.k }
    requires later { from ≤ to }
    requires within { to ≤ sums.old.last + 1 }
    requires there { to ≤ table.now.horizon + 1 }
    ensures shape { sums.new.k ≡ sums.old.k }
    ensures last { sums.new.last ≡ sums.old.last }
    ensures stands { OnOk result ((at : States) → StandsFor sums.old at → StandsFor sums.new (filled_in at (held table.now) component from to)) }
{
    let mut cycle = from;
    while cycle < to {
        let cell = Cell { cycle, component };
        let last = table.stands_to(cell);
        let end = last.min(to);
        let state = table.shared(cell)?;
        sums.fill(component, cycle, end, lent(&state));
        cycle = end;
    }
    Ok(())
}

/// Counts what all components hold at the cycles from one on to before another.
///
/// # Errors
///
/// As `count_filled`.
fn count_all_filled(sums: &mut Sums, table: &Table<Rp3>, from: u32, to: u32) -> Result<(), NoMemory>
    requires same { sums.old.k ≡ table.now.slots.k }
    requires later { from ≤ to }
    requires within { to ≤ sums.old.last + 1 }
    requires there { to ≤ table.now.horizon + 1 }
    ensures shape { sums.new.k ≡ sums.old.k }
    ensures last { sums.new.last ≡ sums.old.last }
    ensures stands { OnOk result ((at : States) → StandsFor sums.old at → StandsFor sums.new (filled_to at (held table.now) (components sums.old.k) from to)) }
{
    for component in 0..sums.shape().components() {
        count_filled(sums, table, component, from, to)?;
    }
    Ok(())
}

/// Counts what the cells of these ranges hold.
///
/// # Errors
///
/// As `count_filled`.
fn count_ranges(sums: &mut Sums, table: &Table<Rp3>, ranges: &[CellRange]) -> Result<(), NoMemory>
    requires same { sums.old.k ≡ table.now.slots.k }
    requires short { table.now.horizon ≤ sums.old.last }
    requires within { All (IsWithin (table.now.horizon + 1) (components sums.old.k)) ranges.now }
    ensures shape { sums.new.k ≡ sums.old.k }
    ensures last { sums.new.last ≡ sums.old.last }
    ensures stands { OnOk result ((at : States) → StandsFor sums.old at → StandsFor sums.new (filled_over at (held table.now) ranges.now)) }
{
    for range in ranges {
        count_filled(sums, table, range.component, range.from, range.to)?;
    }
    Ok(())
}

impl Watcher<Rp3> for Counters {
    ghost use Rattle.bench_core.specs.Shown.{last_counted, AreCounted};

    ghost keeps = { λ counters table. (table.horizon ≤ last_counted table.slots) × AreCounted counters table };

    fn is_idle(&self) -> bool {
        self.sums.is_none()
    }

    fn stored(&mut self, table: &Table<Rp3>, cell: Cell) {
        // Where a state couldn't be shared there are no sums then, and they are counted again when they are next asked for.
        if let Some(mut sums) = self.sums.take() {
            if count_cell(&mut sums, table, cell).is_ok() {
                self.sums = Some(sums);
            }
        }
    }

    fn kept(&mut self, table: &Table<Rp3>, cell: Cell) {
        let _ = table;
        let _ = cell;
    }

    fn refilled(&mut self, table: &Table<Rp3>, ranges: &[CellRange]) {
        if let Some(mut sums) = self.sums.take() {
            if count_ranges(&mut sums, table, ranges).is_ok() {
                self.sums = Some(sums);
            }
        }
    }
}
