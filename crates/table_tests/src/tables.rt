use cell_table::{Cell, Claim, Done, Given, SettleFault, Settled, Table, TouchFault};
use expect::equal;
use grid_law::{Changed, Line, LineSlot, Number, Numbers};
use std::alloc::Global;
use std::test::Fail;

// The line of these tests: seeds 1, 2, 4, and the first place adds 2. Its cycles 0 to 2 are
//     1 2 4     3 7 6     5 7 13
// since 1 is odd (1 + 2), 2 is even (1 + 2 + 4), 4 is even (2 + 4), 3 is odd (3 + 2), 7 is odd
// (7 + 0) and 6 is even (7 + 6).
fn three(alloc: Global, first: u32) -> Result<Numbers, Fail> {
    let places = vec![in alloc;
        Number {
            seed: first,
            add: 2
        },
        Number { seed: 2, add: 0 },
        Number { seed: 4, add: 0 },
    ]?;
    Ok(Numbers::new(places).ok_or("three places")?)
}

/// What is done to a table. A cell is named by its component, then its cycle.
#[derive(Clone, Copy)]
enum Step {
    /// An edit of a slot.
    Set(LineSlot, u32),
    /// An edit of the horizon.
    Horizon(u32),
    Settle,
    /// Settles up to a cycle.
    SettleTo(u32),
    /// Claims, computes and gives until nothing is due.
    StoreAll,
    /// Claims from this cell on, and lets the claim go.
    Claim(u32, u32),
    /// Claims from this cell on, computes, and holds the result.
    Compute(u32, u32),
    /// Gives back the result that was held last.
    Give,
    /// The states of a cycle.
    Row(u32),
    /// One more owner of a cell's state.
    Shared(u32, u32),
    /// How many cells are due up to a cycle.
    DueTo(u32),
    /// How many cells are due in a cone.
    DueCone(u32, u32),
    Clock,
}

/// What comes of it.
#[derive(Clone, Copy, PartialEq, Eq, Debug)]
enum Came {
    Done,
    Refused(TouchFault),
    /// How many cells, or which clock.
    Number(u64),
    Fault(SettleFault),
    /// The cell of a claim, its component first.
    Of(u32, u32),
    Gone,
    NotDue,
    Overtaken,
    Foreign,
    Spent,
    Stored,
    StoredTheSame,
    States([Option<u32>; 3]),
    State(u32),
    /// Nothing is due, no result is held, or no state.
    Nothing,
}

/// Steps, each with what comes of it.
type Story<'a> = &'a [(Step, Came)];

/// A table, and the results that are held.
#[derive(Drop)]
struct Stage {
    table: Table<Line>,
    held: Vec<Done<Line>>,
}

/// The place in a story of the first step of which something else came, with what came, at a new
/// table of `three` with a horizon of 2.
fn surprise(alloc: Global, story: Story) -> Result<Option<(usize, Came)>, Fail> {
    let mut stage = Stage::opened(alloc, three(alloc, 1)?, 2, 0)?;
    stage.surprise(alloc, story)
}

impl Stage {
    // It stands in a box, since each way out of a function costs its proof something for every
    // field that it lets go.
    fn opened(
        alloc: Global,
        numbers: Numbers,
        horizon: u32,
        clock: u64,
    ) -> Result<Box<Stage>, Fail> {
        let table = Table::new(alloc, numbers, horizon, clock)
            .ok()
            .ok_or("no memory")?;
        let held = Vec::new(alloc);
        Ok(Box::new(alloc, Stage { table, held })?)
    }

    fn surprise(&mut self, alloc: Global, story: Story) -> Result<Option<(usize, Came)>, Fail> {
        for (place, (step, want)) in story.iter().enumerate() {
            let came = self.play(alloc, *step)?;
            if came != *want {
                return Ok(Some((place, came)));
            }
        }
        Ok(None)
    }

    fn play(&mut self, alloc: Global, step: Step) -> Result<Came, Fail> {
        match step {
            Step::Set(slot, value) => set(alloc, &mut self.table, slot, value),
            Step::Horizon(horizon) => set_horizon(alloc, &mut self.table, horizon),
            Step::Settle => Ok(came_of_settling(self.table.settle())),
            Step::SettleTo(last) => Ok(came_of_settling(self.table.settle_to(last))),
            Step::StoreAll => Ok(Came::Number(store_all(&mut self.table)?)),
            Step::Claim(component, cycle) => claimed(&self.table, Cell { cycle, component }),
            Step::Compute(component, cycle) => self.compute(Cell { cycle, component }),
            Step::Give => self.give(),
            Step::Row(cycle) => Ok(Came::States(row(&self.table, cycle)?)),
            Step::Shared(component, cycle) => shared(&self.table, Cell { cycle, component }),
            Step::DueTo(cycle) => Ok(Came::Number(self.table.due_to(cycle))),
            Step::DueCone(component, cycle) => {
                Ok(Came::Number(self.table.due_cone(Cell { cycle, component })?))
            }
            Step::Clock => Ok(Came::Number(self.table.clock())),
        }
    }

    fn compute(&mut self, from: Cell) -> Result<Came, Fail> {
        let Some(done) = computed(&self.table, from)? else {
            return Ok(Came::Nothing);
        };
        let cell = done.cell();
        self.held.push(done)?;
        Ok(Came::Of(cell.component, cell.cycle))
    }

    // A result that comes back is held again.
    fn give(&mut self) -> Result<Came, Fail> {
        let Some(done) = self.held.pop() else {
            return Ok(Came::Nothing);
        };
        match self.table.give(done) {
            Given::Gone => Ok(Came::Gone),
            Given::NotDue => Ok(Came::NotDue),
            Given::Overtaken => Ok(Came::Overtaken),
            Given::Foreign => Ok(Came::Foreign),
            Given::ClockSpent(done) => {
                self.held.push(done)?;
                Ok(Came::Spent)
            }
            // Comes only where a growth is refused, and then the result can be given again.
            Given::Memory(done) => match self.table.give(done) {
                Given::Stored { changed: true } => Ok(Came::Stored),
                _ => Err(Fail::from("a result that came back isn't stored")),
            },
            Given::Stored { changed: true } => Ok(Came::Stored),
            Given::Stored { changed: false } => Ok(Came::StoredTheSame),
        }
    }
}

fn came_of_edit(touched: Result<(), TouchFault>) -> Came {
    match touched {
        Ok(()) => Came::Done,
        Err(fault) => Came::Refused(fault),
    }
}

fn set(alloc: Global, table: &mut Table<Line>, slot: LineSlot, value: u32) -> Result<Came, Fail> {
    let (next, changed) = table.slots().with(alloc, slot, value)?;
    Ok(came_of_edit(table.touch(next, changed)))
}

fn set_horizon(alloc: Global, table: &mut Table<Line>, horizon: u32) -> Result<Came, Fail> {
    let slot = LineSlot::Seed(0);
    let value = table.slots().value(slot).ok_or("no such slot")?;
    let (next, Changed { slots, horizon: _ }) = table.slots().with(alloc, slot, value)?;
    let changed = Changed {
        slots,
        horizon: Some(horizon),
    };
    Ok(came_of_edit(table.touch(next, changed)))
}

fn came_of_settling(settled: Result<Settled, SettleFault>) -> Came {
    match settled {
        Ok(Settled { computed }) => Came::Number(computed),
        Err(fault) => Came::Fault(fault),
    }
}

fn computed(table: &Table<Line>, from: Cell) -> Result<Option<Done<Line>>, Fail> {
    match table.claim(from)? {
        Some(claim) => match claim.compute() {
            Ok(done) => Ok(Some(done)),
            Err(_) => Err(Fail::from("no memory")),
        },
        None => Ok(None),
    }
}

/// How many results were stored.
fn store_all(table: &mut Table<Line>) -> Result<u64, Fail> {
    let mut stored = 0u64;
    for _ in 0..100 {
        let Some(done) = computed(
            table,
            Cell {
                cycle: 0,
                component: 0,
            },
        )?
        else {
            return Ok(stored);
        };
        if let Given::Stored { changed: _ } = table.give(done) {
            stored = stored.saturating_add(1);
        }
    }
    Err(Fail::from("a hundred results left some cell due"))
}

fn claimed(table: &Table<Line>, from: Cell) -> Result<Came, Fail> {
    match table.claim(from)? {
        Some(claim) => Ok(Came::Of(claim.cell().component, claim.cell().cycle)),
        None => Ok(Came::Nothing),
    }
}

fn shared(table: &Table<Line>, cell: Cell) -> Result<Came, Fail> {
    match table.shared(cell)? {
        Some(state) => Ok(Came::State(*state)),
        None => Ok(Came::Nothing),
    }
}

fn row(table: &Table<Line>, cycle: u32) -> Result<[Option<u32>; 3], Fail> {
    Ok([
        state(table, cycle, 0)?,
        state(table, cycle, 1)?,
        state(table, cycle, 2)?,
    ])
}

fn state(table: &Table<Line>, cycle: u32, component: u32) -> Result<Option<u32>, Fail> {
    match table.shared(Cell { cycle, component })? {
        Some(state) => Ok(Some(*state)),
        None => Ok(None),
    }
}

// All 9 cells at first. Then Seed(2) is 6: place 2 starts with 6; its readers at cycle 1 are places
// 1 and 2, which become 1 + 2 + 6 and 2 + 6; both changed, so all three of cycle 2 are stored, of
// which 3 + 2 is the same, 9 is odd and 8 is even: 6 in all. No place is odd where Add(2) would be
// read. Add(1) is read at cycle 2 alone, where place 1 was 9. The same value again changes nothing
// but the clock. To settle costs as much as to claim, compute and give.
#[test]
fn stores_what_an_edit_can_change(rt: HostRuntime) -> Result<(), Fail> {
    for by in [Step::StoreAll, Step::Settle] {
        let came = surprise(
            rt.alloc(),
            &[
                (by, Came::Number(9)),
                (Step::Row(1), Came::States([Some(3), Some(7), Some(6)])),
                (Step::Row(2), Came::States([Some(5), Some(7), Some(13)])),
                (Step::Clock, Came::Number(9)),
                (Step::Set(LineSlot::Seed(2), 6), Came::Done),
                (Step::Clock, Came::Number(10)),
                (by, Came::Number(6)),
                (Step::Row(2), Came::States([Some(5), Some(9), Some(17)])),
                (Step::Set(LineSlot::Add(2), 5), Came::Done),
                (by, Came::Number(0)),
                (Step::Set(LineSlot::Add(1), 1), Came::Done),
                (by, Came::Number(1)),
                (Step::Row(2), Came::States([Some(5), Some(10), Some(17)])),
                (Step::Set(LineSlot::Add(1), 1), Came::Done),
                (by, Came::Number(0)),
                (Step::Row(2), Came::States([Some(5), Some(10), Some(17)])),
            ],
        )?;
        assert!(rt; equal(&rt, came, None));
    }
    Ok(())
}

// All 9 cells, of which place 2 at cycle 2 is 13; then the new cycle 3, which is 5 + 2, 7 + 0 and
// 13 + 0, all odd.
#[test]
fn settles_new_cycles_alone(rt: HostRuntime) -> Result<(), Fail> {
    let came = surprise(
        rt.alloc(),
        &[
            (Step::Settle, Came::Number(9)),
            (Step::Shared(2, 2), Came::State(13)),
            (Step::Horizon(3), Came::Done),
            (Step::Settle, Came::Number(3)),
            (Step::Row(3), Came::States([Some(7), Some(7), Some(13)])),
            (Step::Horizon(1), Came::Done),
            (Step::Settle, Came::Number(0)),
            (Step::Row(2), Came::States([None, None, None])),
        ],
    )?;
    assert!(rt; equal(&rt, came, None));
    Ok(())
}

// Nothing is added, so a place that is odd stays as it is: 1 1 1 1, 2 7 7 7 and 4 6 13 13 from cycle 0 on. With 3 in the place
// of the first 1 they are 3 3 3 3, 2 9 9 9 and 4 6 15 15: the first cell of place 0, the next one of it and of its neighbour, and
// all later ones, of which those of cycles 4 to 9 repeat those of cycle 3.
#[test]
fn settles_cycles_that_repeat(rt: HostRuntime) -> Result<(), Fail> {
    let came = surprise(
        rt.alloc(),
        &[
            (Step::Set(LineSlot::Add(0), 0), Came::Done),
            (Step::Horizon(9), Came::Done),
            (Step::Settle, Came::Number(30)),
            (Step::Row(9), Came::States([Some(1), Some(7), Some(13)])),
            (Step::Set(LineSlot::Seed(0), 3), Came::Done),
            (Step::Settle, Came::Number(27)),
            (Step::DueTo(9), Came::Number(0)),
            (Step::Row(2), Came::States([Some(3), Some(9), Some(15)])),
            (Step::Row(9), Came::States([Some(3), Some(9), Some(15)])),
        ],
    )?;
    assert!(rt; equal(&rt, came, None));
    Ok(())
}

// Three cells a cycle, and nothing behind the last one. Then place 2 starts with 6, as above: the cell of it that is due is of
// cycle 0, its readers at cycle 1 are places 1 and 2, and cycle 2 is still new. Behind the horizon there is nothing.
#[test]
fn settles_up_to_a_cycle(rt: HostRuntime) -> Result<(), Fail> {
    let came = surprise(
        rt.alloc(),
        &[
            (Step::SettleTo(0), Came::Number(3)),
            (Step::Row(1), Came::States([None, None, None])),
            (Step::DueTo(2), Came::Number(6)),
            (Step::SettleTo(1), Came::Number(3)),
            (Step::Row(1), Came::States([Some(3), Some(7), Some(6)])),
            (Step::Row(2), Came::States([None, None, None])),
            (Step::Set(LineSlot::Seed(2), 6), Came::Done),
            (Step::SettleTo(0), Came::Number(1)),
            (Step::DueTo(1), Came::Number(2)),
            (Step::SettleTo(0), Came::Number(0)),
            (Step::SettleTo(1), Came::Number(2)),
            (Step::Row(1), Came::States([Some(3), Some(9), Some(8)])),
            (Step::Clock, Came::Number(10)),
            (Step::Settle, Came::Number(3)),
            (Step::Row(2), Came::States([Some(5), Some(9), Some(17)])),
            (Step::SettleTo(9), Came::Number(0)),
        ],
    )?;
    assert!(rt; equal(&rt, came, None));
    Ok(())
}

// The cells of `settles_cycles_that_repeat`, cut off at cycle 6: one of cycle 0, two of cycle 1 and 15 of the others. The three
// of cycle 7 are due then, and still hold what they held.
#[test]
fn settles_some_cycles_that_repeat(rt: HostRuntime) -> Result<(), Fail> {
    let came = surprise(
        rt.alloc(),
        &[
            (Step::Set(LineSlot::Add(0), 0), Came::Done),
            (Step::Horizon(9), Came::Done),
            (Step::SettleTo(6), Came::Number(21)),
            (Step::Settle, Came::Number(9)),
            (Step::Set(LineSlot::Seed(0), 3), Came::Done),
            (Step::SettleTo(6), Came::Number(18)),
            (Step::Row(6), Came::States([Some(3), Some(9), Some(15)])),
            (Step::Row(7), Came::States([Some(1), Some(7), Some(13)])),
            (Step::DueTo(6), Came::Number(0)),
            (Step::DueTo(9), Came::Number(3)),
            (Step::Settle, Came::Number(9)),
            (Step::Row(9), Came::States([Some(3), Some(9), Some(15)])),
        ],
    )?;
    assert!(rt; equal(&rt, came, None));
    Ok(())
}

// Place 0 reads Seed(0) at cycle 0 and Add(0) later, so an edit of Add(2) is none of its business,
// and what was computed before it is stored. Of the clock of the claim and of its cell's version no
// more is asked than that the cell stayed due.
#[test]
fn stores_across_another_edit(rt: HostRuntime) -> Result<(), Fail> {
    let came = surprise(
        rt.alloc(),
        &[
            (Step::Compute(0, 0), Came::Of(0, 0)),
            (Step::Give, Came::Stored),
            (Step::Compute(0, 0), Came::Of(1, 0)),
            (Step::Give, Came::Stored),
            (Step::Compute(0, 0), Came::Of(2, 0)),
            (Step::Give, Came::Stored),
            (Step::Compute(0, 1), Came::Of(0, 1)),
            (Step::Set(LineSlot::Add(2), 5), Came::Done),
            (Step::Give, Came::Stored),
            (Step::Row(1), Came::States([Some(3), None, None])),
        ],
    )?;
    assert!(rt; equal(&rt, came, None));
    Ok(())
}

// Place 2 reads Seed(2) at cycle 0. That it is 6 again doesn't undo that it has changed since. Then
// two results for place 0 at the new cycle 3: one comes while that cycle is cut off, the other once
// it is there again, new and due with the version of the last edit.
#[test]
fn what_came_back_overtakes(rt: HostRuntime) -> Result<(), Fail> {
    let came = surprise(
        rt.alloc(),
        &[
            (Step::Settle, Came::Number(9)),
            (Step::Set(LineSlot::Seed(2), 6), Came::Done),
            (Step::Compute(0, 0), Came::Of(2, 0)),
            (Step::Set(LineSlot::Seed(2), 7), Came::Done),
            (Step::Set(LineSlot::Seed(2), 6), Came::Done),
            (Step::Give, Came::Overtaken),
        ],
    )?;
    assert!(rt; equal(&rt, came, None));
    let came = surprise(
        rt.alloc(),
        &[
            (Step::Settle, Came::Number(9)),
            (Step::Horizon(3), Came::Done),
            (Step::Compute(0, 3), Came::Of(0, 3)),
            (Step::Compute(0, 3), Came::Of(0, 3)),
            (Step::Horizon(2), Came::Done),
            (Step::Give, Came::Gone),
            (Step::Horizon(3), Came::Done),
            (Step::Give, Came::Overtaken),
        ],
    )?;
    assert!(rt; equal(&rt, came, None));
    Ok(())
}

// A cell stays due until a result is stored, so it is handed out twice. Only the cells of cycle 0
// have their inputs, so a claim from cycle 2 wraps round; it may be dropped.
#[test]
fn one_cell_claimed_twice_is_stored_once(rt: HostRuntime) -> Result<(), Fail> {
    let came = surprise(
        rt.alloc(),
        &[
            (Step::Claim(0, 2), Came::Of(0, 0)),
            (Step::Claim(0, 2), Came::Of(0, 0)),
            (Step::DueTo(2), Came::Number(9)),
            (Step::Compute(0, 0), Came::Of(0, 0)),
            (Step::Compute(0, 0), Came::Of(0, 0)),
            (Step::Give, Came::Stored),
            (Step::Give, Came::NotDue),
            (Step::StoreAll, Came::Number(8)),
            (Step::Compute(0, 0), Came::Nothing),
        ],
    )?;
    assert!(rt; equal(&rt, came, None));
    Ok(())
}

// The other table's first seed is 11. Place 0 reads it at cycle 0, and place 1 doesn't.
#[test]
fn another_tables_result_is_foreign_where_it_read_otherwise(rt: HostRuntime) -> Result<(), Fail> {
    assert!(rt; equal(&rt, foreign(rt.alloc())?, None));
    Ok(())
}

fn foreign(alloc: Global) -> Result<Option<(usize, Came)>, Fail> {
    let mut other = Stage::opened(alloc, three(alloc, 11)?, 2, 0)?;
    other.held = results(alloc)?;
    other.surprise(
        alloc,
        &[
            (Step::Give, Came::Stored),
            (Step::Give, Came::Foreign),
            (Step::Row(0), Came::States([None, Some(2), None])),
        ],
    )
}

/// Results for places 0 and 1 at cycle 0.
fn results(alloc: Global) -> Result<Vec<Done<Line>>, Fail> {
    let mut stage = Stage::opened(alloc, three(alloc, 1)?, 2, 0)?;
    stage.play(alloc, Step::Compute(0, 0))?;
    stage.play(alloc, Step::Compute(1, 0))?;
    Ok(std::mem::replace(&mut stage.held, Vec::new(alloc)))
}

// One place, whose two cycles are 7 and 7 + 1. Two stores and two edits take the clock to its last
// value, where the seed is 7 again and cycle 0 is due and holds 7. A clock one before its last value
// lasts for one store.
#[test]
fn the_clock_ends(rt: HostRuntime) -> Result<(), Fail> {
    assert!(rt; equal(&rt, last_edits(rt.alloc())?, None));
    assert!(rt; equal(&rt, last_store(rt.alloc())?, None));
    Ok(())
}

fn last_edits(alloc: Global) -> Result<Option<(usize, Came)>, Fail> {
    let one = Numbers::new(vec![in alloc; Number { seed: 7, add: 1 }]?).ok_or("one place")?;
    let mut stage = Stage::opened(alloc, one, 1, 18446744073709551611)?;
    stage.surprise(
        alloc,
        &[
            (Step::StoreAll, Came::Number(2)),
            (Step::Set(LineSlot::Seed(0), 8), Came::Done),
            (Step::Set(LineSlot::Seed(0), 7), Came::Done),
            (Step::Clock, Came::Number(18446744073709551615)),
            (
                Step::Set(LineSlot::Add(0), 2),
                Came::Refused(TouchFault::ClockSpent),
            ),
            (Step::Compute(0, 0), Came::Of(0, 0)),
            (Step::Give, Came::StoredTheSame),
        ],
    )
}

fn last_store(alloc: Global) -> Result<Option<(usize, Came)>, Fail> {
    let mut stage = Stage::opened(alloc, three(alloc, 1)?, 2, 18446744073709551614)?;
    stage.surprise(
        alloc,
        &[
            (
                Step::Settle,
                Came::Fault(SettleFault::ClockSpent { computed: 1 }),
            ),
            (
                Step::Settle,
                Came::Fault(SettleFault::ClockSpent { computed: 0 }),
            ),
            (Step::Compute(0, 0), Came::Of(1, 0)),
            (Step::Give, Came::Spent),
            (Step::Give, Came::Spent),
            (Step::Row(0), Came::States([Some(1), None, None])),
        ],
    )
}

// The cone of place 0 at cycle 2: itself, places 0 and 1, then all three. Once all is settled and
// Seed(2) is set, the one due cell is place 2 at cycle 0, which place 0 sees two cycles later.
#[test]
fn counts_the_due_cells_of_a_cone(rt: HostRuntime) -> Result<(), Fail> {
    let came = surprise(
        rt.alloc(),
        &[
            (Step::DueCone(2, 0), Came::Number(1)),
            (Step::DueCone(0, 1), Came::Number(3)),
            (Step::DueCone(0, 2), Came::Number(6)),
            (Step::DueCone(1, 2), Came::Number(7)),
            (Step::DueCone(3, 2), Came::Number(0)),
            (Step::DueCone(0, 3), Came::Number(0)),
            (Step::Settle, Came::Number(9)),
            (Step::Set(LineSlot::Seed(2), 6), Came::Done),
            (Step::DueCone(2, 0), Came::Number(1)),
            (Step::DueCone(0, 1), Came::Number(0)),
            (Step::DueCone(0, 2), Came::Number(1)),
        ],
    )?;
    assert!(rt; equal(&rt, came, None));
    Ok(())
}
