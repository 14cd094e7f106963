//! Lots: cells of a cycle that are claimed in one turn, and results that are given back in one.
use super::opened;
use crate::base::{base, bench_of, fresh, page, word};
use bench_core::Bench;
use cell_table::{Cell, Claim, Done, Given};
use expect::equal;
use machine_cells::Rp3;
use project_book::Project;
use shared_bench::Pass;
use std::alloc::Global;
use std::io::Eprint;
use std::sync::Wait;
use std::test::*;

/// What became of a result.
#[derive(Clone, Copy, PartialEq, Eq, Debug)]
enum Became {
    Stored,
    NotDue,
    Overtaken,
    ClockSpent,
    Other,
}

fn answer_of(given: &Given<Done<Rp3>>) -> Became {
    match given {
        Given::Stored { changed: true } => Became::Stored,
        Given::NotDue => Became::NotDue,
        Given::Overtaken => Became::Overtaken,
        Given::ClockSpent(_) => Became::ClockSpent,
        _ => Became::Other,
    }
}

fn at(cycle: u32, component: u32) -> Cell {
    Cell { cycle, component }
}

/// The only pass to a bench, in a box, which is handed over as one word.
fn alone(alloc: Global, bench: Box<Bench>) -> Result<Box<Pass>, Fail> {
    let pass = opened(alloc, bench, 1)?;
    Ok(Box::new(alloc, pass)?)
}

/// The claims of a lot.
fn lot<R: Wait>(rt: &R, pass: &mut Pass, from: Cell, most: u32) -> Result<Vec<Claim<Rp3>>, Fail> {
    Ok(pass.claim_many(rt, from, most)?)
}

/// Their cells.
fn cells(alloc: Global, claims: &[Claim<Rp3>]) -> Result<Vec<(u32, u32)>, Fail> {
    let mut cells = Vec::new(alloc);
    for claim in claims {
        cells.push((claim.cell().cycle, claim.cell().component))?;
    }
    Ok(cells)
}

/// The cells of a lot that is claimed.
fn cells_of<R: Wait>(
    rt: &R,
    alloc: Global,
    pass: &mut Pass,
    from: Cell,
    most: u32,
) -> Result<Vec<(u32, u32)>, Fail> {
    let claims = lot(rt, pass, from, most)?;
    cells(alloc, &claims)
}

/// Their results.
fn computed(alloc: Global, claims: Vec<Claim<Rp3>>) -> Result<Vec<Done<Rp3>>, Fail> {
    let mut results = Vec::new(alloc);
    for claim in claims {
        results.push(claim.compute().ok().ok_or("no memory")?)?;
    }
    Ok(results)
}

/// Whether this becomes of the results of these claims, which are given back in one turn.
fn become_so<R: Wait + Eprint>(
    rt: &R,
    alloc: Global,
    pass: &mut Pass,
    claims: Vec<Claim<Rp3>>,
    wanted: &[Became],
) -> Result<bool, Fail> {
    let results = computed(alloc, claims)?;
    let mut answers = Vec::with_capacity(alloc, results.len())?;
    pass.give_many(rt, results, &mut answers);
    let mut all = Vec::new(alloc);
    for answer in &answers {
        all.push(answer_of(answer))?;
    }
    Ok(equal(rt, all.as_slice(), wanted))
}

/// The claims of a cycle, one by one, each behind the cell of the one before.
fn one_by_one<R: Wait>(rt: &R, alloc: Global, pass: &mut Pass) -> Result<Vec<(u32, u32)>, Fail> {
    let mut claims = Vec::new(alloc);
    for component in 0..6 {
        let claim = pass.claim(rt, at(0, component))?.ok_or("due")?;
        claims.push(claim)?;
    }
    cells(alloc, &claims)
}

/// A lot of a cycle is its claims one by one. One that begins later, or is of fewer cells, has as many; it never goes on in
/// another cycle; and none is claimed where none is asked for.
#[test]
fn a_lot_is_the_claims_one_by_one(rt: HostRuntime) -> Result<(), Fail> {
    let alloc = rt.alloc();
    let mut pass = alone(alloc, fresh(alloc)?)?;
    let all = one_by_one(&rt, alloc, &mut pass)?;
    assert!(rt; cells_of(&rt, alloc, &mut pass, at(0, 0), 6)? == all);
    assert!(rt; cells_of(&rt, alloc, &mut pass, at(0, 0), u32::MAX)? == all);
    for (component, most, count) in [(0, 0, 0), (0, 1, 1), (2, 3, 3), (2, 64, 4), (5, 64, 1)] {
        let some = cells_of(&rt, alloc, &mut pass, at(0, component), most)?;
        assert!(rt; equal(&rt, some.len(), count));
        let mut next: u32 = component;
        for cell in &some {
            assert!(rt; *cell == (0, next));
            next = next.saturating_add(1);
        }
    }
    Ok(())
}

/// With the cells 1 and 4 of cycle 0 stored, a lot passes over them; with all of it stored, it is of the next cycle.
#[test]
fn a_lot_passes_over_what_is_stored(rt: HostRuntime) -> Result<(), Fail> {
    let alloc = rt.alloc();
    let mut pass = alone(alloc, fresh(alloc)?)?;
    for component in [1, 4] {
        let claims = lot(&rt, &mut pass, at(0, component), 1)?;
        assert!(rt; become_so(&rt, alloc, &mut pass, claims, &[Became::Stored])?);
    }
    let claims = lot(&rt, &mut pass, at(0, 0), 64)?;
    assert!(rt; cells(alloc, &claims)?.as_slice() == [(0, 0), (0, 2), (0, 3), (0, 5)].as_slice());
    assert!(rt; become_so(&rt, alloc, &mut pass, claims, &[Became::Stored; 4])?);
    let next = cells_of(&rt, alloc, &mut pass, at(0, 0), 64)?;
    assert!(rt; next.as_slice() == [(1, 0), (1, 1), (1, 2), (1, 3), (1, 4), (1, 5)].as_slice());
    Ok(())
}

/// Of two lots of one cycle the first is stored, and the second comes too late; of a third one cell was stored meanwhile.
#[test]
fn a_lot_comes_too_late(rt: HostRuntime) -> Result<(), Fail> {
    let alloc = rt.alloc();
    let mut pass = alone(alloc, fresh(alloc)?)?;
    let first = lot(&rt, &mut pass, at(0, 0), 64)?;
    let second = lot(&rt, &mut pass, at(0, 0), 64)?;
    assert!(rt; become_so(&rt, alloc, &mut pass, first, &[Became::Stored; 6])?);
    assert!(rt; become_so(&rt, alloc, &mut pass, second, &[Became::NotDue; 6])?);
    let third = lot(&rt, &mut pass, at(1, 0), 3)?;
    let one = lot(&rt, &mut pass, at(1, 1), 1)?;
    assert!(rt; become_so(&rt, alloc, &mut pass, one, &[Became::Stored])?);
    let stored = Became::Stored;
    assert!(rt;
        become_so(
            &rt,
            alloc,
            &mut pass,
            third,
            &[stored, Became::NotDue, stored]
        )?
    );
    Ok(())
}

/// An edit of a word between a lot and its results overtakes those of the modules alone, and the answers keep the order of the
/// cells.
#[test]
fn an_edit_overtakes_some_of_a_lot(rt: HostRuntime) -> Result<(), Fail> {
    let alloc = rt.alloc();
    let mut pass = alone(alloc, fresh(alloc)?)?;
    let claims = lot(&rt, &mut pass, at(0, 1), 64)?;
    assert!(rt; pass.edit(&rt, word(300, 5)).is_ok());
    let (stored, overtaken) = (Became::Stored, Became::Overtaken);
    let wanted = [stored, overtaken, overtaken, stored, stored];
    assert!(rt; become_so(&rt, alloc, &mut pass, claims, &wanted)?);
    Ok(())
}

/// With the clock at its last value each result of a lot comes back.
#[test]
fn a_lot_comes_back_at_a_spent_clock(rt: HostRuntime) -> Result<(), Fail> {
    let alloc = rt.alloc();
    let mut pass = alone(alloc, bench_of(alloc, base(alloc)?, u64::MAX)?)?;
    let claims = lot(&rt, &mut pass, at(0, 0), 2)?;
    assert!(rt; become_so(&rt, alloc, &mut pass, claims, &[Became::ClockSpent; 2])?);
    Ok(())
}

/// A bench of 16 processors, whose cycles have 96 cells.
fn wide(alloc: Global) -> Result<Box<Bench>, Fail> {
    let project = Project::new(alloc, 4, 0)?.ok_or("within the limits")?;
    bench_of(alloc, project.apply(page(0))?.0, 0)
}

/// At most 64 cells are claimed in one turn.
#[test]
fn a_lot_has_64_cells_at_most(rt: HostRuntime) -> Result<(), Fail> {
    let alloc = rt.alloc();
    let mut pass = alone(alloc, wide(alloc)?)?;
    for (most, count) in [(63, 63), (64, 64), (65, 64), (u32::MAX, 64)] {
        assert!(rt; equal(&rt, lot(&rt, &mut pass, at(0, 0), most)?.len(), count));
    }
    assert!(rt; equal(&rt, lot(&rt, &mut pass, at(0, 64), 64)?.len(), 32));
    Ok(())
}
