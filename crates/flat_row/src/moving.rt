//! Messages that move from one level to another.
ghost use Rattle.std.specs.Prelude.{◌≡◌, ℕ, ◌+◌, ◌<◌, ◌≤◌, length, IsSome, true, false, unwrap_or, IfSome, suc};
ghost use Rattle.std.specs.Mem.{FitsInMemory};
ghost use Rattle.flat_row.specs.contracts.queue.Places.{the_row};
ghost use Rattle.omega_net.specs.Numbers.{lines};
ghost use Rattle.omega_net.specs.Queues.{head};
ghost use Rattle.omega_net.specs.Wires.{bit};
ghost use Rattle.flat_row.specs.Masks.{has};
ghost use Rattle.flat_row.specs.Labels.{port};
ghost use Rattle.flat_row.specs.Row.{HasLevels, level_at, queue_of};
ghost use Rattle.flat_row.specs.Moving.{CanMove, HasMessage, SameShape, AllWait, AllWaitBack, passed, passed_straight, moved, moved_straight, forth_after, back_after};

use crate::level::Level;
use crate::marks::Routed;
use omega_net::{Shape, bit_of};

/// The least label of a set, from one on.
pub(crate) fn first_from(set: u64, from: u32) -> Option<u32>
    ensures there { IfSome result (λ x. (from ≤ x) × (x < 64) × (has set x ≡ true)) }
    ensures passed { (y : ℕ) → from ≤ y → y < unwrap_or result 64 → has set y ≡ false }
{
    if from >= 64 {
        return None;
    }
    let rest = set & (u64::MAX << from);
    if rest == 0 {
        None
    } else {
        Some(rest.trailing_zeros())
    }
}

/// The label with that bit in the place of its own.
pub(crate) fn port_of(by: u32, x: u32, bit: u8) -> u32
    requires by { by < 6 }
    requires there { x < 64 }
    requires bit { bit < 2 }
    ensures { result ≡ port by bit x }
{
    let distance = 1 << by;
    let first = x - (x / distance % 2) * distance;
    first + u32::from(bit) * distance
}

/// Moves the head of one queue of a level to the queue of another level that it asks for.
fn pass<T: Routed>(levels: &mut Vec<Level<T>>, from: usize, to: usize, by: u32, x: u32)
    requires can { CanMove from to levels.old.items }
    requires by { by < 6 }
    requires there { x < 64 }
    requires message { HasMessage from x levels.old.items }
    requires ports { (i : ℕ) → i < 2 → port by i x < length (level_at levels.old.items to).queues }
    requires fits { FitsInMemory (the_row T.row) }
    ensures shape { SameShape levels.old.items levels.new.items }
    ensures queues { (l z : ℕ) → queue_of levels.new.items l z ≡ passed T.route by from to x levels.old.items l z }
{
    let before = &mut levels[from];
    let message = before.take(x);
    let y = port_of(by, x, bit_of(message.route(), by));
    let behind = &mut levels[to];
    behind.give(y, message);
}

/// Moves the heads of a level that leave to another level, each to the queue that it asks for.
pub(crate) fn move_heads<T: Routed>(
    levels: &mut Vec<Level<T>>,
    from: usize,
    to: usize,
    by: u32,
    leave: u64,
)
    requires can { CanMove from to levels.old.items }
    requires by { by < 6 }
    requires some { (x : ℕ) → x < 64 → has leave x ≡ true → IsSome (head (queue_of levels.old.items from x)) }
    requires ports { (x i : ℕ) → x < length (level_at levels.old.items from).queues → i < 2 → port by i x < length (level_at levels.old.items to).queues }
    requires fits { FitsInMemory (the_row T.row) }
    ensures shape { SameShape levels.old.items levels.new.items }
    ensures queues { (l z : ℕ) → z < 64 → queue_of levels.new.items l z ≡ moved T.route by (has leave) from to levels.old.items l z }
{
    let mut next = 0;
    while let Some(x) = first_from(leave, next) {
        pass(levels, from, to, by, x);
        next = x + 1;
    }
}

/// Moves the head of one queue of a level to the queue of the same label in another level.
fn pass_straight<T: Routed>(levels: &mut Vec<Level<T>>, from: usize, to: usize, x: u32)
    requires can { CanMove from to levels.old.items }
    requires message { HasMessage from x levels.old.items }
    requires there { x < length (level_at levels.old.items to).queues }
    requires fits { FitsInMemory (the_row T.row) }
    ensures shape { SameShape levels.old.items levels.new.items }
    ensures queues { (l z : ℕ) → queue_of levels.new.items l z ≡ passed_straight from to x levels.old.items l z }
{
    let before = &mut levels[from];
    let message = before.take(x);
    let behind = &mut levels[to];
    behind.give(x, message);
}

/// Moves the heads of a level that leave to the queues of the same labels in another level.
pub(crate) fn move_straight<T: Routed>(
    levels: &mut Vec<Level<T>>,
    from: usize,
    to: usize,
    leave: u64,
)
    requires can { CanMove from to levels.old.items }
    requires some { (x : ℕ) → x < 64 → has leave x ≡ true → IsSome (head (queue_of levels.old.items from x)) }
    requires there { length (level_at levels.old.items from).queues ≤ length (level_at levels.old.items to).queues }
    requires fits { FitsInMemory (the_row T.row) }
    ensures shape { SameShape levels.old.items levels.new.items }
    ensures queues { (l z : ℕ) → z < 64 → queue_of levels.new.items l z ≡ moved_straight (has leave) from to levels.old.items l z }
{
    let mut next = 0;
    while let Some(x) = first_from(leave, next) {
        pass_straight(levels, from, to, x);
        next = x + 1;
    }
}

/// Moves all that leaves on the way to the modules: first what enters them, then what leaves before each stage, the last one
/// first.
pub(crate) fn move_forth<T: Routed>(
    levels: &mut Vec<Level<T>>,
    shape: Shape,
    leave: &[u64; 6],
    enter: u64,
)
    requires levels { HasLevels (shape + 2) (lines shape) levels.old.items }
    requires some { AllWait shape leave.now enter levels.old.items }
    requires fits { FitsInMemory (the_row T.row) }
    ensures shape { SameShape levels.old.items levels.new.items }
    ensures queues { (l z : ℕ) → l < shape + 2 → z < 64 → queue_of levels.new.items l z ≡ forth_after T.route shape leave.now enter levels.old.items l z }
{
    let k = shape.k();
    let last = k as usize;
    move_straight(levels, last, last + 1, enter);
    for done in 0..k {
        let stage = (k - 1 - done) as usize;
        let by = shape.deciding_bit(stage as u8);
        move_heads(levels, stage, stage + 1, by, leave[stage]);
    }
}

/// Moves all that leaves behind the stages on the way back, behind the first one first. What leaves the first level has left it.
pub(crate) fn move_back<T: Routed>(levels: &mut Vec<Level<T>>, shape: Shape, leave: &[u64; 6])
    requires levels { HasLevels (shape + 1) (lines shape) levels.old.items }
    requires some { AllWaitBack shape leave.now levels.old.items }
    requires fits { FitsInMemory (the_row T.row) }
    ensures shape { SameShape levels.old.items levels.new.items }
    ensures queues { (l z : ℕ) → l < shape + 1 → z < 64 → queue_of levels.new.items l z ≡ back_after T.route shape leave.now levels.old.items l z }
{
    for stage in 0..shape.k() {
        let s = stage as usize;
        let by = shape.deciding_bit(stage as u8);
        move_heads(levels, s + 1, s, by, leave[s]);
    }
}
