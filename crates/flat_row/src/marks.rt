//! Marks of queues: a bit for each label, in words of 64.
ghost use Rattle.std.specs.Prelude.{◌≡◌, ℕ, ◌<◌, ◌≤◌, ◌==◌, length, if◌then◌else◌};
ghost use Rattle.flat_row.specs.Masks.{has, IsSetOf};
ghost use Rattle.flat_row.specs.Queues.{shown_of, shown_at};

use omega_net::{Reply, Request, bit_of};

/// What travels along a route: requests by the bits of their module, replies by those of their processor.
pub trait Routed: Copy + Default {
    ghost use Rattle.std.specs.Prelude.{ℕ};

    ghost route: { Self → ℕ };

    /// The number by whose bits the stages decide.
    fn route(&self) -> u8
        ensures { result ≡ route self.now };
}

impl Routed for Request {
    ghost route = { λ r. r.place.«module» };

    fn route(&self) -> u8 {
        self.place.module
    }
}

impl Routed for Reply {
    ghost route = { λ r. r.tag.proc };

    fn route(&self) -> u8 {
        self.tag.proc
    }
}

/// What the queues of a level are asked: how many messages each may hold, how many free places are room for two and how
/// many are room for one, and the bit of a route by which the next stage decides.
#[derive(Clone, Copy, PartialEq, Eq, Debug)]
pub struct Rule {
    pub depth: u32,
    pub two: u32,
    pub one: u32,
    pub by: u32,
}

/// What a queue shows: whether a message waits, whether the first one asks for port 1, and whether there is room for two, and for one.
#[derive(Clone, Copy, PartialEq, Eq, Debug)]
pub struct Shown {
    pub any: bool,
    pub asks: bool,
    pub two: bool,
    pub one: bool,
}

/// What all queues of a level show, by label.
#[derive(Clone, Copy, PartialEq, Eq, Debug)]
pub struct Marks {
    pub any: u64,
    pub asks: u64,
    pub two: u64,
    pub one: u64,
}

/// What a queue of these messages shows.
pub fn shown_by<T: Routed>(rule: Rule, messages: &[T]) -> Shown
    requires { length messages.now ≤ 16 }
    ensures { result ≡ shown_of T.route rule messages.now }
{
    let free = rule.depth.saturating_sub(messages.len() as u32);
    let two = free >= rule.two;
    let one = free >= rule.one;
    match messages {
        [] => Shown {
            any: false,
            asks: false,
            two,
            one,
        },
        [first, ..] => Shown {
            any: true,
            asks: bit_of(first.route(), rule.by) == 1,
            two,
            one,
        },
    }
}

/// The marks where a label's queue shows this.
pub fn with_shown(marks: Marks, x: u32, shown: Shown) -> Marks
    requires { x < 64 }
    ensures { (y : ℕ) → y < 64 → shown_at result y ≡ (if y == x then shown else shown_at marks y) }
{
    Marks {
        any: with_mark(marks.any, x, shown.any),
        asks: with_mark(marks.asks, x, shown.asks),
        two: with_mark(marks.two, x, shown.two),
        one: with_mark(marks.one, x, shown.one),
    }
}

/// A set in which a label is, or isn't.
pub(crate) fn with_mark(set: u64, x: u32, mark: bool) -> u64
    requires { x < 64 }
    ensures { IsSetOf (λ y. if y == x then mark else has set y) result }
{
    if mark {
        set | (1 << x)
    } else {
        set & !(1 << x)
    }
}
