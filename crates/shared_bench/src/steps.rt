//! The steps of a turn, each one step on a word, or one on the slot.
ghost use Rattle.std.specs.Prelude.{◌≡◌, ℕ, ◌+◌, ◌%◌, ◌^◌, ◌<◌, ◌≤◌, true, false, [], ◌∷◌, ◌++◌, length, Some, None, IfSome, IfNone, MatchBool};
ghost use Rattle.shared_bench.specs.declared.view.Stage.TheVariants.{Idle, Waiting, Serving, Filling};
ghost use Rattle.shared_bench.specs.Rule.{IsServer};
ghost use Rattle.shared_bench.specs.Turn.{staged, entered, left_with, Fresh, TicketFits, HasBench, HasLegal, LooksAt, MayCount, MayLeave, counted_in, numbered, IsProjectIn};
ghost use Rattle.project_book.specs.declared.edit.Edit.{Edit as AnyEdit};
ghost use Rattle.bench_core.specs.Stands.{HasHistory};
ghost use Rattle.shared_bench.specs.Legal.{noted, has};

use crate::carried::Carried;
use crate::plays::{
    Comes, Counts, Draws, Fills, LENGTH, Leaves, Looks, NUMBERS, SERVING, SharedTurns, TICKETS,
    Takes, TurnSeat,
};
use std::hint::spin_loop;
use std::sync::Wait;

/// How often a waiting thread looks whether its ticket is served before it sleeps: about as long as falling asleep and being
/// woken take, and longer than most turns. With fewer looks threads that sleep between turns wait for each other's waking.
const LOOKS: u32 = 1_000;

/// A ticket, modulo 2^64.
pub fn take_ticket(turns: &SharedTurns, seat: &mut TurnSeat) -> u64
    requires own { (seat.old.table_id ≡ turns.now.table_id) × Fresh turns.now.table_id }
    requires idle { (seat.old.me.0.stage ≡ Idle) × (0 < length seat.old.me.0.numbers) }
    ensures own { (seat.new.table_id ≡ seat.old.table_id) × (seat.new.id ≡ seat.old.id) }
    ensures ticket { (t : ℕ) × (result ≡ t % 2 ^ 64) × (seat.new.me ≡ (staged (Waiting t) seat.old.me.0, seat.old.me.1)) }
{
    turns.fetch_add::<Takes>(seat, TICKETS, 1)
}

/// One look at what is served: the bench, where it is this ticket.
pub fn enter(turns: &SharedTurns, seat: &mut TurnSeat, ticket: u64) -> Option<Carried>
    requires own { (seat.old.table_id ≡ turns.now.table_id) × Fresh turns.now.table_id }
    requires waits { (seat.old.me.1 ≡ []) × (seat.old.me.0.gone ≡ false) × TicketFits (Some ticket) seat.old.me.0.stage }
    ensures own { (seat.new.table_id ≡ seat.old.table_id) × (seat.new.id ≡ seat.old.id) }
    ensures none { IfNone result (seat.new.me ≡ seat.old.me) }
    ensures some { IfSome result (λ d. HasBench seat.old.me.0 seat.new.me d) }
{
    if turns.load::<Comes>(seat, SERVING) == ticket {
        turns.exchange(seat, 0, None)
    } else {
        None
    }
}

/// Looks so many times whether a ticket is served, until it is.
fn watch(turns: &SharedTurns, ticket: u64) -> bool
    requires { Fresh turns.now.table_id }
{
    for _ in 0..LOOKS {
        if turns.peek(SERVING) == ticket {
            return true;
        }
        spin_loop();
    }
    false
}

/// Sleeps while another ticket is served. Where the turn was passed since, the word is another one, and it doesn't sleep.
fn sleep<R: Wait>(rt: &R, turns: &SharedTurns, ticket: u64)
    requires { Fresh turns.now.table_id }
{
    if watch(turns, ticket) {
        return;
    }
    let serving = turns.peek(SERVING);
    if serving != ticket {
        turns.park(rt, SERVING, (serving % (1 << 32)) as u32);
    }
}

/// Wakes those who wait, once the seat's ticket was served. Where no further ticket was handed out, nobody waits: who takes
/// one later finds the turn passed.
fn wake(turns: &SharedTurns, seat: &TurnSeat, served: u64)
    requires here { Fresh turns.now.table_id }
    requires passed { seat.now.me.0.stage ≡ Idle }
{
    if turns.peek(TICKETS) != served.wrapping_add(1) {
        turns.wake_all(SERVING);
    }
}

/// Waits for the turn, with the ticket that was kept or a new one: the bench.
pub fn wait_turn<R: Wait>(
    rt: &R,
    turns: &SharedTurns,
    seat: &mut TurnSeat,
    kept: Option<u64>,
) -> Carried
    requires own { (seat.old.table_id ≡ turns.now.table_id) × Fresh turns.now.table_id }
    requires idle { (seat.old.me.1 ≡ []) × (seat.old.me.0.gone ≡ false) × (0 < length seat.old.me.0.numbers) × TicketFits kept seat.old.me.0.stage }
    ensures own { (seat.new.table_id ≡ seat.old.table_id) × (seat.new.id ≡ seat.old.id) }
    ensures bench { HasBench seat.old.me.0 seat.new.me result }
    ensures history { HasHistory result }
{
    let ticket = match kept {
        Some(ticket) => ticket,
        None => take_ticket(turns, seat),
    };
    for _ in rt.forever() {
        if let Some(bench) = enter(turns, seat, ticket) {
            bench.history();
            return bench;
        }
        sleep(rt, turns, ticket);
    }
    unreachable!()
}

/// Puts the bench back, and passes the turn.
pub fn leave(turns: &SharedTurns, seat: &mut TurnSeat, bench: Carried)
    requires own { (seat.old.table_id ≡ turns.now.table_id) × Fresh turns.now.table_id }
    requires may { MayLeave seat.old.me bench }
    ensures own { (seat.new.table_id ≡ seat.old.table_id) × (seat.new.id ≡ seat.old.id) }
    ensures left { seat.new.me ≡ (left_with bench seat.old.me.0, []) }
    ensures legal { HasLegal seat.new.me.0 }
{
    turns.exchange(seat, 0, Some(bench));
    let served = turns.fetch_add::<Leaves>(seat, SERVING, 1);
    wake(turns, seat, served);
}

/// The first turn: puts the bench into the empty slot, and passes the turn.
pub fn fill(turns: &SharedTurns, seat: &mut TurnSeat, bench: Carried)
    requires own { (seat.old.table_id ≡ turns.now.table_id) × Fresh turns.now.table_id }
    requires fills { ((t : ℕ) × (seat.old.me.0.stage ≡ Filling t bench)) × (seat.old.me.1 ≡ []) × (bench.journal ≡ seat.old.me.0.seen) × (seat.old.me.0.gone ≡ false) × IsProjectIn seat.old.me.0 bench }
    ensures own { (seat.new.table_id ≡ seat.old.table_id) × (seat.new.id ≡ seat.old.id) }
    ensures left { seat.new.me ≡ (left_with bench seat.old.me.0, []) }
    ensures legal { HasLegal seat.new.me.0 }
{
    turns.load::<Fills>(seat, SERVING);
    leave(turns, seat, bench);
}

/// Puts back the bench, which has one entry more, counts the entry, passes the turn, and wakes those who wait for an edit.
pub fn leave_edited(turns: &SharedTurns, seat: &mut TurnSeat, bench: Carried)
    requires own { (seat.old.table_id ≡ turns.now.table_id) × Fresh turns.now.table_id }
    requires may { MayCount seat.old.me bench }
    ensures own { (seat.new.table_id ≡ seat.old.table_id) × (seat.new.id ≡ seat.old.id) }
    ensures left { (a : ℕ) (n : AnyEdit) → bench.journal ≡ seat.old.me.0.seen ++ noted a n ∷ [] → seat.new.me ≡ (left_with bench (counted_in a n seat.old.me.0), []) }
    ensures legal { HasLegal seat.new.me.0 }
{
    turns.exchange(seat, 0, Some(bench));
    turns.fetch_add::<Counts>(seat, LENGTH, 1);
    let served = turns.fetch_add::<Leaves>(seat, SERVING, 1);
    wake(turns, seat, served);
    turns.wake_all(LENGTH);
}

/// The journal's length, with no turn.
pub fn look(turns: &SharedTurns, seat: &mut TurnSeat) -> u64
    requires own { (seat.old.table_id ≡ turns.now.table_id) × Fresh turns.now.table_id }
    requires idle { (IsServer seat.old.me.0.stage → ⊥) × (seat.old.me.0.gone ≡ false) }
    ensures own { (seat.new.table_id ≡ seat.old.table_id) × (seat.new.id ≡ seat.old.id) }
    ensures seen { LooksAt seat.old.me result seat.new.me }
{
    turns.load::<Looks>(seat, LENGTH)
}

/// Tries to draw this number.
pub fn draw(turns: &SharedTurns, seat: &mut TurnSeat, number: u32) -> bool
    requires own { (seat.old.table_id ≡ turns.now.table_id) × Fresh turns.now.table_id }
    requires bare { (seat.old.me.0.stage ≡ Idle) × (seat.old.me.0.numbers ≡ []) × (seat.old.me.0.gone ≡ false) × (number < seat.old.me.0.seats) × (number < 64) }
    ensures own { (seat.new.table_id ≡ seat.old.table_id) × (seat.new.id ≡ seat.old.id) }
    ensures drawn { MatchBool result ((seat.new.me ≡ (numbered number seat.old.me.0, seat.old.me.1)) × HasLegal seat.new.me.0 × (has number seat.old.me.0.others ≡ false)) (seat.new.me ≡ seat.old.me) }
{
    let found = turns.fetch_or::<Draws>(seat, NUMBERS, 1u64 << number);
    (found >> number) & 1 == 0
}

/// Draws the first number that is left, from 0 on.
pub fn draw_first(turns: &SharedTurns, seat: &mut TurnSeat, seats: u32) -> Option<u32>
    requires own { (seat.old.table_id ≡ turns.now.table_id) × Fresh turns.now.table_id }
    requires bare { (seat.old.me.0.stage ≡ Idle) × (seat.old.me.0.numbers ≡ []) × (seat.old.me.0.gone ≡ false) × (seat.old.me.0.seats ≡ seats) × (seats ≤ 64) }
    ensures own { (seat.new.table_id ≡ seat.old.table_id) × (seat.new.id ≡ seat.old.id) }
    ensures drawn { IfSome result (λ n. (n < seats) × (seat.new.me ≡ (numbered n seat.old.me.0, seat.old.me.1)) × HasLegal seat.new.me.0 × (has n seat.old.me.0.others ≡ false)) }
{
    for number in 0..seats {
        if draw(turns, seat, number) {
            return Some(number);
        }
    }
    None
}
