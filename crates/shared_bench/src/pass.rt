//! A pass to a shared bench.
ghost use Rattle.std.specs.Prelude.{◌≡◌, ◌-◌, ◌^◌, ◌<◌, ◌≤◌, true, [], ◌∷◌, length, IfOk, IfErr};
ghost use Rattle.page_map.specs.Limits.{max_k};
ghost use Rattle.bench_core.specs.Shown.{project_of};
ghost use Rattle.shared_bench.specs.Known.{SomeIsLegal, IsLater, IsSplit, IsJoined, IsLegalFor, HasAllNumbers, IsAllItsOwn};
ghost use Rattle.shared_bench.specs.Answers.{project_at};

mod turns;

use crate::carried::Carried;
use crate::plays::{Joins, LENGTH, NUMBERS, Splits, TurnSeat, TurnTable};
use crate::post::Post;
use crate::steps::{draw_first, enter, fill, look, take_ticket};
use crate::view::Opening;
use bench_core::Bench;
use std::alloc::Global;
use std::marker::Model;
use std::snapshot::Snapshot;
use std::sync::{Arc, Wait};
use std::time::Duration;

/// Why a pass wasn't split.
#[derive(Clone, Copy, PartialEq, Eq, Debug, Drop)]
pub enum SplitFault {
    /// The opening has made as many passes as it has seats.
    NoSeat,
    /// A growth was refused.
    Memory,
}

/// A pass to a shared bench: who holds it may edit the bench and ask it, in its turn.
///
/// Contracts see what it knows: its opening, its number, the journal that it has seen, the edits that it was answered for
/// (its receipts), the turns that it took, each with the bench that it met and the bench that it left, and whether the
/// clock is spent. After every call it is a pass of the same opening, and has seen no
/// less.
#[derive(Drop)]
pub struct Pass {
    table: Arc<TurnTable, Global>,
    post: Arc<Post, Global>,
    seat: TurnSeat,
    number: u32,
    seats: u32,
    base: u32,
    k: u32,
    ticket: Option<u64>,
}

impl Model for Pass {
    ghost use Rattle.std.specs.Arc.{arc_value};
    ghost use Rattle.shared_bench.specs.Known.{Known};
    ghost use Rattle.shared_bench.specs.Inside.{known_of, IsPass};

    ghost Value = { Known };

    ghost view = { λ p. known_of p.seat.table_id p.seat.me p.number };

    ghost invariant = { λ p. IsPass (arc_value p.table).shared.table_id p.seat.table_id p.seat.me p.number p.seats p.base p.k p.ticket };
}

/// Opens a bench to as many passes as there are seats, 1 to 64: the first pass, with number 0. Where memory is wanting,
/// the bench comes back.
///
/// # Errors
///
/// Where a growth was refused: the bench, as it was handed over.
pub fn open(alloc: Global, bench: Bench, seats: u32) -> Result<Pass, Bench>
    requires { (0 < seats) × (seats ≤ 64) }
    ensures ok { IfOk result (λ p. (p.project ≡ project_of bench) × (p.opened ≡ bench.journal) × (p.seen ≡ bench.journal) × (p.seats ≡ seats) × (p.number ≡ 0) × (p.numbers ≡ 0 ∷ []) × (p.receipts ≡ []) × (p.turns ≡ record { met = bench; left = bench } ∷ []) × SomeIsLegal p) }
    ensures err { IfErr result (λ b. b ≡ bench) }
{
    let opening = Opening {
        seats,
        bench: Snapshot::of(&bench),
    };
    bench.is_bench();
    let base = bench.version();
    let k = bench.project().k();
    let bench = match Box::new(alloc, bench) {
        Ok(bench) => bench,
        Err(failed) => return Err(failed.value),
    };
    let Ok((table, mut seat)) = TurnTable::vacant(alloc, &[u64::from(base), 1, 0, 1], 1, &opening)
    else {
        return Err(Box::into_inner(bench));
    };
    let Ok(table) = Arc::new(alloc, table) else {
        return Err(Box::into_inner(bench));
    };
    let Ok(post) = Arc::new(alloc, Post::new()) else {
        return Err(Box::into_inner(bench));
    };
    fill(&table.shared, &mut seat, Carried { bench });
    Ok(Pass {
        table,
        post,
        seat,
        number: 0,
        seats,
        base,
        k,
        ticket: None,
    })
}

impl Pass {
    /// The journal's length at the opening.
    pub fn base(&self) -> u32
        ensures base { result ≡ length self.now.opened }
        ensures legal { SomeIsLegal self.now }
    {
        self.base
    }

    /// The k of the project, of which there are 2^k processors. No edit changes it.
    pub fn k(&self) -> u32
        ensures k { result ≡ self.now.project.k }
        ensures small { result ≤ max_k }
        ensures legal { SomeIsLegal self.now }
    {
        self.k
    }

    /// Sleeps while the journal has this many entries, until an edit is made or `wake_all` is called. It may also return for
    /// no reason.
    pub fn park<R: Wait>(&self, rt: &R, length: u32) {
        self.post.park(rt, &self.table.shared, length);
    }

    /// Sleeps for so long, or until `wake_all` is called, whatever is edited meanwhile, and no edit is made to wake it. It may
    /// also return for no reason.
    pub fn nap<R: Wait>(&self, rt: &R, duration: Duration) {
        let numbers = self.table.shared.peek(NUMBERS);
        self.table
            .shared
            .park_timeout(rt, NUMBERS, (numbers % (1 << 32)) as u32, duration);
    }

    /// Wakes those who are parked on a pass of this opening, or nap.
    pub fn wake_all(&self) {
        self.table.shared.wake_all(LENGTH);
        self.table.shared.wake_all(NUMBERS);
    }

    /// The journal's length now, at least what this pass had seen. It doesn't wait.
    pub fn length(&mut self) -> u32
        ensures later { IsLater self.old self.new }
        ensures own { (self.new.numbers ≡ self.old.numbers) × (self.new.receipts ≡ self.old.receipts) × (self.new.turns ≡ self.old.turns) }
        ensures answer { result ≡ length self.new.seen }
    {
        look(&self.table.shared, &mut self.seat) as u32
    }

    /// A new pass, which has seen what this one has, with the first number that is left below the seats, and no receipt.
    /// It doesn't wait.
    ///
    /// # Errors
    ///
    /// Memory, looked at first; NoSeat exactly where the opening has made as many passes as it has seats. A joined pass
    /// gives no seat back. Then this pass is unchanged.
    pub fn split(&mut self) -> Result<Pass, SplitFault>
        ensures same { self.new ≡ self.old }
        ensures ok { IfOk result (λ p. IsSplit self.old p) }
    {
        let (Ok(table), Ok(post)) = (Arc::try_clone(&self.table), Arc::try_clone(&self.post)) else {
            return Err(SplitFault::Memory);
        };
        let mut seat = table.shared.split_seat::<Splits>(&mut self.seat);
        let Some(number) = draw_first(&table.shared, &mut seat, self.seats) else {
            return Err(SplitFault::NoSeat);
        };
        Ok(Pass {
            table,
            post,
            seat,
            number,
            seats: self.seats,
            base: self.base,
            k: self.k,
            ticket: None,
        })
    }

    /// One pass of two of one opening: it has seen what both had, and has the receipts of both. It edits under this one's
    /// number, and doesn't wait.
    pub fn join(self, other: Pass) -> Pass
        requires { self.opening ≡ other.opening }
        ensures { IsJoined self other result }
    {
        let Pass {
            table,
            post,
            mut seat,
            number,
            seats,
            base,
            k,
            ticket,
        } = self;
        let Pass {
            table: _,
            post: _,
            seat: other_seat,
            number: _,
            seats: _,
            base: _,
            k: _,
            ticket: other_ticket,
        } = other;
        table.shared.join_seat::<Joins>(&mut seat, other_seat);
        look(&table.shared, &mut seat);
        let ticket = match ticket {
            Some(ticket) => Some(ticket),
            None => other_ticket,
        };
        Pass {
            table,
            post,
            seat,
            number,
            seats,
            base,
            k,
            ticket,
        }
    }

    /// The bench, once no other pass of the opening is left. It doesn't wait. The bench's journal is legal for this pass;
    /// so where all seats were made and joined into it, the entries after the opening are its receipts, and no others.
    ///
    /// # Errors
    ///
    /// The pass comes back unchanged where another pass of the opening is there, or its ticket isn't served.
    pub fn close(self) -> Result<Bench, Pass>
        ensures legal { IfOk result (λ b. IsLegalFor self b.journal) }
        ensures project { IfOk result (λ b. project_of b ≡ project_at self.project self.opened b.journal) }
        ensures all { IfOk result (λ b. HasAllNumbers self → IsAllItsOwn self b.journal) }
        ensures spent { IfOk result (λ b. self.spent ≡ true → b.table.clock ≡ 2 ^ 64 - 1) }
        ensures err { IfErr result (λ p. p ≡ self) }
    {
        if Arc::strong_count(&self.table) != 1 {
            return Err(self);
        }
        let Pass {
            table,
            post,
            mut seat,
            number,
            seats,
            base,
            k,
            ticket,
        } = self;
        let ticket = match ticket {
            Some(ticket) => ticket,
            None => take_ticket(&table.shared, &mut seat),
        };
        match enter(&table.shared, &mut seat, ticket) {
            Some(held) => Ok(held.open()),
            None => Err(Pass {
                table,
                post,
                seat,
                number,
                seats,
                base,
                k,
                ticket: Some(ticket),
            }),
        }
    }
}
