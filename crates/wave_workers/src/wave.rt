//! Waves: the due cells of one cycle, computed at once by several threads.
ghost use Rattle.std.specs.Prelude.{◌≡◌, ◌-◌, ◌^◌, ◌<◌, ◌≤◌, ◌+◌, IfOk, IfNone, IfSome, OnErr, Err, All, vec_len};
ghost use Rattle.std.specs.Thread.{IsSync, IsSend};
ghost use Rattle.cell_table.specs.Settling.{NoneDueBefore, SettlesNext, IsSettled, IsSpent, computed_of, IsClockSpent};
ghost use Rattle.cell_table.specs.Waves.{IsReady, IsWork};
ghost use Rattle.machine_cells.specs.GridRules.{rp3_rules};
ghost use Rattle.bench_core.specs.Shown.{project_of};
ghost use Rattle.wave_workers.specs.Working.{unstored};
ghost use Rattle.wave_workers.specs.Settling.{IsSettledAs};

use crate::gate::{Gate, Ungated};
use bench_core::Bench;
use cell_table::{Cell, SettleFault, Settled, StoreFault, Table, Work};
use grid_law::NoMemory;
use machine_cells::Rp3;
use omega_net::Shape;
use std::alloc::Global;
use std::thread::{Threads, join_mut};

/// Tells a gate of a cell that was computed.
fn tell_computed<G: Gate>(table: &Table<Rp3>, work: &Work<Rp3>, gate: &mut G)
    requires { IsWork rp3_rules table.now.slots work.now }
{
    let _ = table;
    gate.computed(work.cell());
}

/// Computes a cell, and tells the first gate, if there is one.
fn compute<G: Gate>(table: &Table<Rp3>, work: &mut Work<Rp3>, gates: &mut [G])
    requires { IsReady rp3_rules table.now work.old.cell.cycle work.old.cell.component }
    ensures { IsWork rp3_rules table.now.slots work.new }
{
    if gates.is_empty() {
        work.compute(table);
        return;
    }
    let gate = &mut gates[0];
    gate.claimed(work.cell());
    work.compute(table);
    tell_computed(table, work, gate);
}

/// Computes cells in turn.
fn piece<G: Gate>(table: &Table<Rp3>, works: &mut [Work<Rp3>], gates: &mut [G])
    requires { All (λ w. IsReady rp3_rules table.now w.cell.cycle w.cell.component) works.old }
    ensures { All (IsWork rp3_rules table.now.slots) works.new }
{
    for work in works {
        compute(table, work, gates);
    }
}

/// Cuts the cells into one piece for each gate, the longer ones first, and computes each piece in a thread of its own; the
/// last one is computed in this thread.
fn pieces<R: Threads + Sync, G: Gate + Send>(
    rt: &R,
    table: &Table<Rp3>,
    works: &mut [Work<Rp3>],
    gates: &mut [G],
)
    requires ready { All (λ w. IsReady rp3_rules table.now w.cell.cycle w.cell.component) works.old }
    ensures { All (IsWork rp3_rules table.now.slots) works.new }
{
    if gates.len() < 2 || works.len() < 2 {
        piece(table, works, gates);
        return;
    }
    let first = works.len().div_ceil(gates.len());
    let (own, others) = gates.split_at_mut(1);
    let (front, back) = works.split_at_mut(first);
    join_mut(
        rt,
        &mut ||
            requires { All (λ w. IsReady rp3_rules table.now w.cell.cycle w.cell.component) front.now }
            ensures { All (IsWork rp3_rules table.entry.now.slots) front.exit.now }
        { piece(table, front, own) },
        &mut ||
            requires { IsSync R.row × IsSend G.row × All (λ w. IsReady rp3_rules table.now w.cell.cycle w.cell.component) back.now }
            ensures { All (IsWork rp3_rules table.entry.now.slots) back.exit.now }
        { pieces(rt, table, back, others) },
    );
}

/// The due cells of the next cycle that has any, computed in threads; the cell that comes first stands last. Without a gate
/// there are none.
fn wave<R: Threads + Sync, G: Gate + Send>(
    rt: &R,
    bench: &Bench,
    from: Cell,
    gates: &mut [G],
) -> Result<Vec<Work<Rp3>>, NoMemory>
    requires { NoneDueBefore rp3_rules bench.now.table from.cycle from.component }
    ensures { IfOk result (λ works. All (IsWork rp3_rules (project_of bench.now)) works.items) }
{
    let mut works = bench.next_works(from)?;
    pieces(rt, bench.cells(), &mut works, gates);
    works.reverse();
    Ok(works)
}

/// Stores the next due cell; where the wave is used up, computes the next one before.
fn settle_next<R: Threads + Sync, G: Gate + Send>(
    rt: &R,
    bench: &mut Bench,
    from: Cell,
    gates: &mut [G],
    works: &mut Vec<Work<Rp3>>,
) -> Result<Option<Cell>, StoreFault>
    requires before { NoneDueBefore rp3_rules bench.old.table from.cycle from.component }
    requires works { All (IsWork rp3_rules (project_of bench.old)) works.old.items }
    ensures none { IfOk result (λ o. IfNone o (IsSettled rp3_rules bench.old.table × (bench.new ≡ bench.old))) }
    ensures some { IfOk result (λ o. IfSome o (SettlesNext rp3_rules bench.old.table bench.new.table from.cycle from.component)) }
    ensures fits { IfOk result (λ o. IfSome o (λ cell. (cell.cycle < 2 ^ 32) × (cell.component + 1 < 2 ^ 32))) }
    ensures works { All (IsWork rp3_rules (project_of bench.old)) works.new.items }
    ensures err { OnErr result (bench.new ≡ bench.old) }
    ensures spent { result ≡ Err StoreFault.ClockSpent → IsSpent rp3_rules bench.old.table from.cycle from.component }
    ensures journal { bench.new.journal ≡ bench.old.journal }
{
    if works.is_empty() {
        match wave(rt, bench, from, gates) {
            Ok(next) => *works = next,
            Err(_) => return Err(StoreFault::Memory),
        }
    }
    bench.settle_work(from, works.pop())
}

/// Why a bench was settled in part, where a cell wasn't stored.
fn stopped(fault: StoreFault, computed: u64) -> SettleFault
    ensures fault { result ≡ unstored fault computed }
    ensures computed { computed_of result ≡ computed }
    ensures spent { IsClockSpent result → fault ≡ StoreFault.ClockSpent }
{
    match fault {
        StoreFault::ClockSpent => SettleFault::ClockSpent { computed },
        StoreFault::Memory => SettleFault::Memory { computed },
    }
}

/// Settles a bench by waves.
fn settle_by_waves<R: Threads + Sync, G: Gate + Send>(
    rt: &R,
    alloc: Global,
    bench: &mut Bench,
    gates: &mut [G],
) -> Result<Settled, SettleFault>
    ensures { IsSettledAs bench.old bench.new result }
{
    let mut computed: u64 = 0;
    let mut from = Cell {
        cycle: 0,
        component: 0,
    };
    let mut works = Vec::new(alloc);
    loop {
        match settle_next(rt, bench, from, gates, &mut works) {
            Ok(Some(cell)) => {
                computed += 1;
                from = Cell {
                    cycle: cell.cycle,
                    component: cell.component + 1,
                };
            }
            Ok(None) => {
                bench.is_bench();
                return Ok(Settled { computed });
            }
            Err(fault) => return Err(stopped(fault, computed)),
        }
    }
}

/// How many cells a cycle has to have for a wave to pay. By measurement no machine has so many, so all are settled by
/// `settle`. The largest has cycles of 512 cells: there, on four processors, where an edit left 430 cells of each cycle to
/// compute, a cycle took `settle` 0.80 ms and waves of four 0.77 ms under one load, 0.62 and 0.75 ms under another; where it
/// left 200, 0.18 and 0.40 ms. On half as large a machine waves took from as long to four times as long.
///
/// A wave starts its threads anew, and shares the steps alone: one thread stores the results, and drops what the others
/// allocated. New cells are worse still: `settle` fills whole cycles of them at once, under some loads in half the time,
/// and a wave stores each by itself. So a limit within reach would have to leave benches with new cycles to `settle`.
const LEAST_DUE: u32 = 1024;

/// Settles a bench as `Bench::settle` does, with the same contract. The due cells of one cycle are cut by component into one
/// consecutive piece for each gate (lengths differ by at most one, longer first). Each piece is computed in a thread of its
/// own, the last one in the caller's, which tells its gate of each cell; `go_on` isn't called. The threads read the bench's
/// states in place, and have ended before the results are stored, in the order of components. At the first that is refused
/// those before it are stored, and those after it are dropped. A piece whose thread can't be started is computed by the
/// thread that wanted to start it, behind its own.
///
/// # Errors
///
/// As `Bench::settle`: the cells computed until then stay stored, and `computed` is their number.
pub fn settle_wave<R: Threads + Sync, G: Gate + Send + Drop>(
    rt: &R,
    bench: &mut Bench,
    gates: Vec<G>,
) -> Result<Settled, SettleFault>
    requires { (0 < vec_len gates) × (vec_len gates ≤ 16) }
    ensures { IsSettledAs bench.old bench.new result }
{
    let mut gates = gates;
    let alloc = *gates.allocator();
    settle_by_waves(rt, alloc, bench, &mut gates)
}

/// How many cells a cycle has.
fn components(bench: &Bench) -> u32 {
    match Shape::new(bench.project().k()) {
        Some(shape) => shape.components(),
        None => 0,
    }
}

/// Whether the machine's cycles have as many cells as make a wave pay, which none has today.
pub fn waves_pay(bench: &Bench) -> bool {
    components(bench) >= LEAST_DUE
}

/// Settles a bench as `Bench::settle` does, with the same contract: by waves of four gates where
/// they pay, by [`waves_pay`], and else by `Bench::settle` itself.
///
/// # Errors
///
/// As `Bench::settle`: the cells computed until then stay stored, and `computed` is their number.
pub fn settle_where_it_pays<R: Threads + Sync>(
    rt: &R,
    alloc: Global,
    bench: &mut Bench,
) -> Result<Settled, SettleFault>
    ensures { IsSettledAs bench.old bench.new result }
{
    if !waves_pay(bench) {
        return bench.settle();
    }
    let mut gates = [Ungated, Ungated, Ungated, Ungated];
    settle_by_waves(rt, alloc, bench, &mut gates)
}
