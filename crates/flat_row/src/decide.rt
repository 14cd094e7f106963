//! What a stage decides in a cycle: which heads leave the queues on one side of it for those on the other.
ghost use Rattle.std.specs.Prelude.{◌≡◌, ◌<◌, ◌==◌, ◌&&◌, ◌||◌, cond};
ghost use Rattle.omega_net.specs.Wires.{bit};
ghost use Rattle.flat_row.specs.Labels.{port};
ghost use Rattle.flat_row.specs.Masks.{has, IsSetOf};
ghost use Rattle.mem_module.specs.MemModule.{is_net};
ghost use Rattle.omega_net.specs.declared.component.Net.TheVariants.{Low, Comb};
ghost use Rattle.flat_row.specs.Decisions.{comes, leaves, TurnsAfter, takes_both, comes_both, leaves_both, served_at, NetsAfter};

use crate::pairs::{at_first, at_second, to_first, to_second};

/// What the queues before a stage show, by label: where a message waits, and where the first one asks for port 1.
#[derive(Clone, Copy, PartialEq, Eq, Debug)]
pub struct Heads {
    pub any: u64,
    pub ones: u64,
}

/// What the queues behind a stage have room for, by label: two messages or more, and one or more.
#[derive(Clone, Copy, PartialEq, Eq, Debug)]
pub struct Room {
    pub two: u64,
    pub one: u64,
}

/// What a stage decides: the labels whose heads leave, and the turns one cycle later.
#[derive(Clone, Copy, PartialEq, Eq, Debug)]
pub struct Decided {
    pub leave: u64,
    pub turn: u64,
}

/// What a stage decides where each queue takes messages by itself: with room for two from both ports, with room for one
/// from the port whose turn it is.
pub fn decided_apart(by: u32, heads: Heads, room: Room, turn: u64) -> Decided
    requires { by < 6 }
    ensures leave { IsSetOf (leaves by heads room turn) result.leave }
    ensures turn { TurnsAfter turn (comes by heads room turn 0) (comes by heads room turn 1) result.turn }
{
    if heads.any == 0 {
        return none_apart(by, heads, room, turn);
    }
    let from_first = from_first(by, heads, room, turn);
    let from_second = from_second(by, heads, room, turn);
    Decided {
        leave: senders(by, from_first, from_second),
        turn: turns(turn, from_first, from_second),
    }
}

/// What a stage decides where what comes to a switch may go to both of its queues: with room for two in each from both sides, with
/// room for one in each from the side whose turn it is. The turns stand at the labels of port 0.
pub fn decided_together(by: u32, any: u64, room: Room, turn: u64) -> Decided
    requires { by < 6 }
    ensures leave { IsSetOf (leaves_both by any room turn) result.leave }
    ensures turn { TurnsAfter turn (comes_both by any room turn 0) (comes_both by any room turn 1) result.turn }
{
    if any == 0 {
        return none_together(by, any, room, turn);
    }
    let two = both(by, room.two);
    let one = both(by, room.one);
    let from_first = at_first(by, any) & (two | (one & !turn));
    let from_second = to_first(by, any) & (two | (one & turn));
    Decided {
        leave: from_first | to_second(by, from_second),
        turn: turns(turn, from_first, from_second),
    }
}

/// What is decided where nothing waits: nothing leaves, and the turns stay.
fn none_apart(by: u32, heads: Heads, room: Room, turn: u64) -> Decided
    requires { heads.any ≡ 0 }
    ensures leave { IsSetOf (leaves by heads room turn) result.leave }
    ensures turn { TurnsAfter turn (comes by heads room turn 0) (comes by heads room turn 1) result.turn }
{
    let _ = (by, heads, room);
    Decided { leave: 0, turn }
}

/// The same where what comes may go to both queues.
fn none_together(by: u32, any: u64, room: Room, turn: u64) -> Decided
    requires { any ≡ 0 }
    ensures leave { IsSetOf (leaves_both by any room turn) result.leave }
    ensures turn { TurnsAfter turn (comes_both by any room turn 0) (comes_both by any room turn 1) result.turn }
{
    let _ = (by, any, room);
    Decided { leave: 0, turn }
}

/// The labels of port 0 of the switches that have both labels in a set.
fn both(by: u32, set: u64) -> u64
    requires { by < 6 }
    ensures { IsSetOf (λ x. (bit by x == 0) && (has set (port by 0 x) && has set (port by 1 x))) result }
{
    at_first(by, set) & to_first(by, set)
}

/// The queues to which the head of port 0 comes.
fn from_first(by: u32, heads: Heads, room: Room, turn: u64) -> u64
    requires { by < 6 }
    ensures { IsSetOf (comes by heads room turn 0) result }
{
    let zeros = heads.any & !heads.ones;
    let ones = heads.any & heads.ones;
    (at_first(by, zeros) | to_second(by, ones)) & (room.two | (room.one & !turn))
}

/// The queues to which the head of port 1 comes.
fn from_second(by: u32, heads: Heads, room: Room, turn: u64) -> u64
    requires { by < 6 }
    ensures { IsSetOf (comes by heads room turn 1) result }
{
    let zeros = heads.any & !heads.ones;
    let ones = heads.any & heads.ones;
    (to_first(by, zeros) | at_second(by, ones)) & (room.two | (room.one & turn))
}

/// The labels whose heads come to a queue of their switch.
fn senders(by: u32, from_first: u64, from_second: u64) -> u64
    requires { by < 6 }
    ensures { IsSetOf (λ x. cond (bit by x == 0) (has from_first (port by 0 x) || has from_first (port by 1 x)) (has from_second (port by 0 x) || has from_second (port by 1 x))) result }
{
    at_first(by, from_first)
        | to_first(by, from_first)
        | to_second(by, from_second)
        | at_second(by, from_second)
}

/// The turns one cycle later: that of the port which nothing came from, where exactly one message came.
fn turns(turn: u64, from_first: u64, from_second: u64) -> u64
    ensures { TurnsAfter turn (has from_first) (has from_second) result }
{
    (turn | (from_first & !from_second)) & !(from_second & !from_first)
}

/// Which modules serve which network in a cycle, and the turns one cycle later: the labels whose turn is that of the
/// combining one.
#[derive(Clone, Copy, PartialEq, Eq, Debug)]
pub struct Served {
    pub low: u64,
    pub comb: u64,
    pub turn: u64,
}

/// What modules serve where they can serve these: the network whose turn it is where they can serve both.
pub fn served_by_turns(low: u64, comb: u64, turn: u64) -> Served
    ensures low { IsSetOf (λ x. is_net Low (served_at low comb turn x)) result.low }
    ensures comb { IsSetOf (λ x. is_net Comb (served_at low comb turn x)) result.comb }
    ensures turn { NetsAfter low comb turn result.turn }
{
    let serve_low = low & !(comb & turn);
    let serve_comb = comb & !(low & !turn);
    Served {
        low: serve_low,
        comb: serve_comb,
        turn: (turn | serve_low) & !serve_comb,
    }
}
