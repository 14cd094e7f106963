//! Lots: cells of one cycle that a worker claims in one turn of the bench, computes one after another outside of every turn,
//! and gives back in one more.
ghost use Rattle.std.specs.Prelude.{◌≡◌, ◌+◌, ◌-◌, ◌*◌, ◌^◌, ◌≤◌, nat_le, min, max, if◌then◌else◌, length, vec_len, vec_capacity};
ghost use Rattle.page_map.specs.Limits.{max_k};
ghost use Rattle.omega_net.specs.Numbers.{components};
ghost use Rattle.wave_workers.specs.Lots.{lot_of};
ghost use Rattle.wave_workers.specs.Working.{IsKept, counted, stored_in};

use crate::gate::Gate;
use crate::tally::{Came, Tally};
use crate::worker::Plan;
use cell_table::{Cell, Claim, Done, Given};
use machine_cells::Rp3;
use omega_net::Shape;
use shared_bench::Pass;
use std::sync::Wait;

/// How many cells a worker claims in one turn of the bench at most.
const LOT: u32 = 64;

/// Which cells of a cycle a worker claims, where they are due: lot by lot, in the order of components, each worker's lot behind
/// that of the one before.
#[derive(Clone, Copy)]
pub struct Share {
    /// How many components the machine has.
    components: u32,
    /// The component from which the worker claims first in a cycle.
    first: u32,
    /// How many cells a lot has.
    lot: u32,
    /// How many components behind its begin the worker's next lot begins.
    stride: u32,
}

impl Share {
    /// The share of the worker of this number on a machine of 2^k processors. A lot has 64 cells, the part of a cycle that falls
    /// to each worker, or as many as the worker has turns, whatever is least. That of a worker alone has one cell: nobody else
    /// wants the turns that a longer one would save.
    pub fn of(k: u32, number: u32, plan: Plan) -> Share
        ensures components { result.components ≡ (if nat_le k max_k then components k else 0) }
        ensures lot { result.lot ≡ lot_of result.components (max plan.workers 1) plan.turns }
        ensures first { result.first ≡ min (result.lot * number) (2 ^ 32 - 1) }
        ensures stride { result.stride ≡ min (result.lot * max plan.workers 1) (2 ^ 32 - 1) }
    {
        let components = match Shape::new(k) {
            Some(shape) => shape.components(),
            None => 0,
        };
        let workers = plan.workers.max(1);
        let part = if workers == 1 {
            1
        } else {
            components.div_ceil(workers)
        };
        let lot = u64::from(LOT.min(part).max(1)).min(plan.turns) as u32;
        Share {
            components,
            first: lot.saturating_mul(number),
            lot,
            stride: lot.saturating_mul(workers),
        }
    }

    /// Where its first lot begins.
    pub fn start(self) -> Cell
        ensures { result ≡ record { cycle = 0; component = self.first } }
    {
        Cell {
            cycle: 0,
            component: self.first,
        }
    }

    /// Where the lot begins that comes behind the one that began at this cell: behind the lots of all workers, or in the next
    /// cycle.
    fn after(self, begin: Cell) -> Cell {
        let component = begin.component.saturating_add(self.stride);
        if component < self.components {
            return Cell {
                cycle: begin.cycle,
                component,
            };
        }
        Cell {
            cycle: begin.cycle.saturating_add(1),
            component: self.first,
        }
    }
}

/// What came of a lot.
#[derive(Clone, Copy)]
pub struct Lotted {
    /// Where the next one begins.
    pub next: Cell,
    /// How many turns it took: one for each cell, and one where there was none.
    pub turns: u64,
    pub tally: Tally,
    /// Whether the gate has stopped the worker.
    pub is_last: bool,
}

impl Lotted {
    /// One turn came to this.
    fn one(next: Cell, tally: Tally) -> Lotted {
        Lotted {
            next,
            turns: 1,
            tally,
            is_last: false,
        }
    }

    /// No cell was due, or a growth was refused: a turn has passed.
    fn nothing(next: Cell) -> Lotted {
        Lotted::one(next, Tally::new())
    }
}

/// How far a worker has come in its lot.
#[derive(Clone, Copy)]
struct Computed {
    turns: u64,
    is_stopped: bool,
}

/// Computes the cells of a lot one after another, as long as the gate goes on, which was asked for the first of them. One for
/// which a growth is refused is passed over.
fn compute<G: Gate>(
    gate: &mut G,
    claims: Vec<Claim<Rp3>>,
    turn: u64,
    lot: &mut Vec<Done<Rp3>>,
) -> Computed
    requires { vec_len lot.old + vec_len claims ≤ vec_capacity lot.old }
    ensures { vec_len lot.new ≤ vec_len lot.old + vec_len claims }
{
    let mut turns = 0u64;
    for claim in claims {
        if turns > 0 && !gate.go_on(turn.saturating_add(turns)) {
            return Computed {
                turns,
                is_stopped: true,
            };
        }
        let cell = claim.cell();
        gate.claimed(cell);
        if let Ok(done) = claim.compute() {
            gate.computed(cell);
            lot.push_reserved(done);
        }
        turns = turns.saturating_add(1);
    }
    Computed {
        turns,
        is_stopped: false,
    }
}

/// How many results these answers are, and how many of them were stored.
fn tally_of(answers: Vec<Given<Done<Rp3>>>) -> Tally
    ensures given { result.given ≡ counted 0 (length answers.items) }
    ensures stored { result.stored ≡ counted 0 (stored_in answers.items) }
{
    let mut tally = Tally::new();
    for given in answers {
        tally = tally.after(Came::of(given));
    }
    tally
}

/// Claims the first cell from there on, computes it, and gives it back: a lot of one cell, without lists.
fn work_one<R: Wait, G: Gate>(
    rt: &R,
    pass: &mut Pass,
    gate: &mut G,
    share: Share,
    from: Cell,
) -> Lotted
    ensures { IsKept pass.old pass.new }
{
    let Ok(Some(claim)) = pass.claim(rt, from) else {
        return Lotted::nothing(from);
    };
    let cell = claim.cell();
    let next = share.after(cell);
    gate.claimed(cell);
    let Ok(done) = claim.compute() else {
        return Lotted::nothing(next);
    };
    gate.computed(cell);
    let came = Came::of(pass.give(rt, done));
    Lotted::one(next, Tally::new().after(came))
}

/// Claims a lot of at most so many cells from there on, computes it, and gives it back.
pub fn work_lot<R: Wait, G: Gate>(
    rt: &R,
    pass: &mut Pass,
    gate: &mut G,
    share: Share,
    from: Cell,
    turn: u64,
    most: u64,
) -> Lotted
    ensures { IsKept pass.old pass.new }
{
    if share.lot == 1 {
        return work_one(rt, pass, gate, share, from);
    }
    let most = u64::from(share.lot).min(most) as u32;
    let Ok(claims) = pass.claim_many(rt, from, most) else {
        return Lotted::nothing(from);
    };
    let Some(first) = claims.first() else {
        return Lotted::nothing(from);
    };
    let next = share.after(first.cell());
    let alloc = *claims.allocator();
    let (Ok(mut lot), Ok(mut answers)) = (
        Vec::with_capacity(alloc, claims.len()),
        Vec::with_capacity(alloc, claims.len()),
    ) else {
        return Lotted::nothing(from);
    };
    let computed = compute(gate, claims, turn, &mut lot);
    pass.give_many(rt, lot, &mut answers);
    Lotted {
        next,
        turns: computed.turns,
        tally: tally_of(answers),
        is_last: computed.is_stopped,
    }
}
