//! Tables of cells on a line of three numbers.
use crate::again::again;
use cell_table::{Cell, Done, Given, SettleFault, Table, TouchFault};
use grid_law::{Changed, Grid, Line, LineSlot, Number, Numbers};
use std::alloc::Global;

/// Seeds 1, 2, 4, of which the first place adds 2. Its cycles 0 to 2 are 1 2 4, 3 7 6 and 5 7 13.
fn numbers(alloc: Global) -> Option<Numbers> {
    let places = again!(vec![in alloc;
        Number { seed: 1, add: 2 },
        Number { seed: 2, add: 0 },
        Number { seed: 4, add: 0 },
    ])?;
    Numbers::new(places)
}

/// A table of it up to cycle 2. Where memory is wanting, the numbers come back.
fn fresh(alloc: Global) -> Option<Table<Line>> {
    let numbers = numbers(alloc)?;
    match Table::new(alloc, numbers, 2, 0) {
        Ok(table) => Some(table),
        Err(numbers) if is_first(&numbers) => Table::new(alloc, numbers, 2, 0).ok(),
        Err(_) => None,
    }
}

fn is_first(numbers: &Numbers) -> bool {
    numbers.count() == 3
        && numbers.value(LineSlot::Seed(0)) == Some(1)
        && numbers.value(LineSlot::Add(0)) == Some(2)
        && numbers.value(LineSlot::Seed(2)) == Some(4)
}

/// How a table looks: clock, horizon, how many cells are due up to each cycle, and the states of cycles 0 to 3.
#[derive(Clone, Copy, PartialEq, Eq)]
struct Looks {
    clock: u64,
    horizon: u32,
    due: [u64; 4],
    rows: [[Option<u32>; 3]; 4],
}

fn row(table: &Table<Line>, cycle: u32) -> [Option<u32>; 3] {
    [
        state(table, cycle, 0),
        state(table, cycle, 1),
        state(table, cycle, 2),
    ]
}

/// What a cell holds, shared over again where that is refused.
fn state(table: &Table<Line>, cycle: u32, component: u32) -> Option<u32> {
    match again!(table.shared(Cell { cycle, component })) {
        Some(Some(state)) => Some(*state),
        _ => None,
    }
}

fn look_at(table: &Table<Line>) -> Looks {
    Looks {
        clock: table.clock(),
        horizon: table.horizon(),
        due: [
            table.due_to(0),
            table.due_to(1),
            table.due_to(2),
            table.due_to(3),
        ],
        rows: [row(table, 0), row(table, 1), row(table, 2), row(table, 3)],
    }
}

/// Settles, over again where memory is wanting: how many cells both calls computed.
fn settled(table: &mut Table<Line>) -> Option<u64> {
    match table.settle() {
        Ok(settled) => Some(settled.computed),
        Err(SettleFault::Memory { computed }) => match table.settle() {
            Ok(settled) => Some(computed.saturating_add(settled.computed)),
            Err(_) => None,
        },
        Err(SettleFault::ClockSpent { .. }) => None,
    }
}

/// Sets a slot, and maybe the horizon.
fn set(
    alloc: Global,
    table: &mut Table<Line>,
    (slot, value): (LineSlot, u32),
    horizon: Option<u32>,
) -> Result<(), TouchFault> {
    let Ok((next, Changed { slots, .. })) = table.slots().with(alloc, slot, value) else {
        return Err(TouchFault::Memory);
    };
    table.touch(next, Changed { slots, horizon })
}

/// The same; where memory is wanting nothing is changed, and it is then taken.
fn touches(
    alloc: Global,
    table: &mut Table<Line>,
    value: (LineSlot, u32),
    horizon: Option<u32>,
) -> bool {
    let before = look_at(table);
    match set(alloc, table, value, horizon) {
        Ok(()) => true,
        Err(TouchFault::ClockSpent) => false,
        Err(TouchFault::Memory) => {
            look_at(table) == before && set(alloc, table, value, horizon).is_ok()
        }
    }
}

/// A table, touched while its cells are due and when it is settled: each state is that of a line that always had these numbers.
pub(crate) fn touched(alloc: Global) -> bool {
    let Some(mut table) = fresh(alloc) else {
        return false;
    };
    touches(alloc, &mut table, (LineSlot::Seed(2), 5), None)
        && settled(&mut table) == Some(9)
        && touches(alloc, &mut table, (LineSlot::Seed(2), 6), None)
        && settled(&mut table) == Some(6)
        && row(&table, 2) == [Some(5), Some(9), Some(17)]
        && touches(alloc, &mut table, (LineSlot::Add(1), 1), None)
        && settled(&mut table) == Some(1)
        && row(&table, 2) == [Some(5), Some(10), Some(17)]
        && touches(alloc, &mut table, (LineSlot::Seed(0), 1), Some(3))
        && cone(&table) == Some(1)
        && settled(&mut table) == Some(3)
        && touches(alloc, &mut table, (LineSlot::Seed(0), 1), Some(1))
        && row(&table, 2) == [None, None, None]
}

/// How many cells are due in the cone of place 1 at cycle 3.
fn cone(table: &Table<Line>) -> Option<u64> {
    let cell = Cell {
        cycle: 3,
        component: 1,
    };
    again!(table.due_cone(cell))
}

/// Every cell is claimed, computed and given, by hand.
pub(crate) fn given(alloc: Global) -> bool {
    let Some(mut table) = fresh(alloc) else {
        return false;
    };
    let mut all = true;
    for _ in 0..9 {
        all &= is_done(&mut table);
    }
    all && row(&table, 2) == [Some(5), Some(7), Some(13)] && is_shared(&table)
}

/// Whether the result of the first claimable cell is stored.
fn is_done(table: &mut Table<Line>) -> bool {
    match result(table) {
        Some(done) => is_stored(table, done),
        None => false,
    }
}

/// Whether the last state is given with an owner more.
fn is_shared(table: &Table<Line>) -> bool {
    let cell = Cell {
        cycle: 2,
        component: 2,
    };
    matches!(again!(table.shared(cell)), Some(Some(state)) if *state == 13)
}

/// The result of the first claimable cell. A claim that isn't computed comes back.
fn result(table: &Table<Line>) -> Option<Done<Line>> {
    let from = Cell {
        cycle: 0,
        component: 0,
    };
    match again!(table.claim(from)) {
        Some(Some(claim)) => match claim.compute() {
            Ok(done) => Some(done),
            Err(claim) => claim.compute().ok(),
        },
        _ => None,
    }
}

/// Whether a result is stored; where memory is wanting it comes back, the table is as before, and it is given again.
fn is_stored(table: &mut Table<Line>, done: Done<Line>) -> bool {
    let before = look_at(table);
    match table.give(done) {
        Given::Stored { changed: true } => true,
        Given::Memory(done) => {
            look_at(table) == before && matches!(table.give(done), Given::Stored { changed: true })
        }
        _ => false,
    }
}

/// The calls of the line as a grid.
pub(crate) fn shared(alloc: Global) -> bool {
    let Some(numbers) = numbers(alloc) else {
        return false;
    };
    let is_shared = match again!(Line::share(alloc, &numbers)) {
        Some(numbers) => is_first(&numbers),
        None => false,
    };
    is_shared && is_read(alloc, &numbers)
}

/// Whether what place 1 adds is read by that place alone.
fn is_read(alloc: Global, numbers: &Numbers) -> bool {
    match again!(Line::readers(alloc, numbers, &LineSlot::Add(1))) {
        Some(readers) => matches!(readers.as_slice(), [reader] if reader.component == 1),
        None => false,
    }
}
