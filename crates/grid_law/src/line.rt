//! A line of numbers, the smallest grid.
ghost use Rattle.std.specs.Prelude.{◌≡◌, ◌↔◌, IsTrue, ◌∷◌, [], map, slice_get, sum, ◌%◌, ◌^◌};
ghost use Rattle.std.specs.Arc.{arc_value};
ghost use Rattle.grid_law.specs.Line.{same_read, reader_of, number_from};

use crate::{Grid, LineSlot, NoMemory, Number, Numbers, Reader, Turn};
use arrayvec::ArrayVec;
use std::alloc::Global;
use std::sync::Arc;

/// A line of places, each of which holds a 32-bit number and sees its two neighbours.
///
/// Place `c` starts with `Seed(c)`. From then on an odd number steps to itself plus `Add(c)`, and an
/// even one to left neighbour plus itself plus right neighbour, where a missing neighbour counts 0
/// and each sum wraps at 2^32. So a place reads `Seed(c)` at cycle 0 and nothing else; later it
/// reads `Add(c)` exactly where its own number is odd, and otherwise no slot at all.
///
/// A number is one word, which tells all of it: no place has a memory.
pub struct Line;

impl Grid for Line {
    ghost use Rattle.grid_law.specs.Line.{line_rules, line_codec};
    ghost use Rattle.grid_law.specs.LineLaws.{line_laws, line_codec_laws};

    type State = u32;

    type Slots = Numbers;

    type Slot = LineSlot;

    type Memory = ();

    ghost rules = { line_rules };

    ghost laws = { line_laws };

    ghost codec = { line_codec };

    ghost codec_laws = { line_codec_laws };

    fn components(s: &Numbers) -> u32 {
        s.count()
    }

    fn near(s: &Numbers, c: u32) -> ArrayVec<u32, 5> {
        let count = s.count();
        let mut near = ArrayVec::new();
        near.push(c);
        if c != 0 {
            near.push(c - 1);
        }
        if c + 1 < count {
            near.push(c + 1);
        }
        near
    }

    fn reads(_s: &Numbers, near: &[Arc<u32>], c: u32, slot: &LineSlot) -> bool {
        match (own_state(near), slot) {
            (None, LineSlot::Seed(place)) => *place == c,
            (Some(own), LineSlot::Add(place)) => *place == c && own % 2 == 1,
            _ => false,
        }
    }

    fn reads_later(_s: &Numbers, own: &u32, c: u32, slot: &LineSlot) -> bool {
        match slot {
            LineSlot::Seed(_) => false,
            LineSlot::Add(place) => *place == c && *own % 2 == 1,
        }
    }

    fn always_reads(_s: &Numbers, _c: u32, _slot: &LineSlot) -> bool {
        false
    }

    fn readers(alloc: Global, s: &Numbers, slot: &LineSlot) -> Result<Vec<Reader>, NoMemory> {
        let mut readers = Vec::new(alloc);
        if slot.place() < s.count() {
            readers.push(reader_of(*slot))?;
        }
        Ok(readers)
    }

    fn start(alloc: Global, s: &Numbers, c: u32) -> Result<Arc<u32>, NoMemory> {
        Ok(Arc::new(alloc, s.at(c).seed)?)
    }

    fn step(alloc: Global, s: &Numbers, near: &[Arc<u32>], c: u32) -> Result<Arc<u32>, NoMemory> {
        let next = match own_state(near) {
            Some(own) if own % 2 == 1 => own.wrapping_add(s.at(c).add),
            _ => wrapping_sum(near),
        };
        Ok(Arc::new(alloc, next)?)
    }

    fn next(
        alloc: Global,
        s: &Numbers,
        near: &[&u32],
        c: u32,
    ) -> Result<Option<Arc<u32>>, NoMemory> {
        let next = match near.first() {
            Some(own) if **own % 2 == 1 => own.wrapping_add(s.at(c).add),
            _ => lent_sum(near),
        };
        match near.first() {
            Some(own) if **own == next => Ok(None),
            _ => Ok(Some(Arc::new(alloc, next)?)),
        }
    }

    fn same(a: &u32, b: &u32) -> bool {
        *a == *b
    }

    fn encode(x: &u32, words: &mut Vec<u64>) -> Result<(), NoMemory> {
        words.push(u64::from(*x))?;
        Ok(())
    }

    fn memory(_x: &u32) -> Result<Option<()>, NoMemory> {
        Ok(None)
    }

    fn decode(alloc: Global, words: &[u64], _memory: Option<&()>) -> Result<Arc<u32>, NoMemory> {
        Ok(Arc::new(alloc, number_from(words))?)
    }

    fn words_read(_s: &Numbers, words: &[u64], c: u32, slot: &LineSlot) -> bool {
        match slot {
            LineSlot::Seed(_) => false,
            LineSlot::Add(place) => *place == c && number_from(words) % 2 == 1,
        }
    }

    fn by_words(_s: &Numbers) {}

    fn has_turns(_slot: &LineSlot) -> bool {
        false
    }

    fn turn(_words: &[u64], _s: &Numbers, _c: u32, _slot: &LineSlot) -> Turn {
        Turn::Here
    }

    fn share_memory(_memory: &()) -> Result<(), NoMemory> {
        Ok(())
    }

    fn same_memory(_a: &(), _b: &()) -> bool {
        true
    }

    fn is_code(x: &u32, words: &[u64], memory: Option<&()>) -> bool {
        is_word(words, *x) && memory.is_none()
    }

    #[tactic(auto, using(crate::specs::LineLaws::agrees_from_test, crate::specs::LineLaws::test_from_agrees))]
    fn agree(a: &Numbers, b: &Numbers, near: &[Arc<u32>], c: u32) -> bool {
        a.count() == b.count() && agree_at(a.at(c), b.at(c), own_state(near))
    }

    fn share(alloc: Global, s: &Numbers) -> Result<Numbers, NoMemory> {
        Ok(s.copied(alloc)?)
    }
}

/// The state of the place itself, one cycle earlier.
fn own_state(near: &[Arc<u32>]) -> Option<u32>
    ensures { result ≡ slice_get (map arc_value near.now) 0 }
{
    match near.first() {
        Some(own) => Some(**own),
        None => None,
    }
}

/// The number that words are: the first one's lowest 32 bits, 0 where there is none.
fn number_from(words: &[u64]) -> u32
    ensures { result ≡ number_from words.now }
{
    match words.first() {
        Some(word) => (*word % 4_294_967_296) as u32,
        None => 0,
    }
}

/// Whether words are this number alone.
fn is_word(words: &[u64], number: u32) -> bool
    ensures { IsTrue result ↔ (number ∷ [] ≡ words.now) }
{
    match words {
        [word] => *word == u64::from(number),
        _ => false,
    }
}

/// The states nearby, added up without their carry.
fn wrapping_sum(near: &[Arc<u32>]) -> u32
    ensures { result ≡ sum (map arc_value near.now) % 2 ^ 32 }
{
    let mut total = 0u32;
    for state in near {
        total = total.wrapping_add(**state);
    }
    total
}

/// The same of states that are lent.
fn lent_sum(near: &[&u32]) -> u32
    ensures { result ≡ sum (map (λ state. state.now) near.now) % 2 ^ 32 }
{
    let mut sum = 0u32;
    for number in near {
        sum = sum.wrapping_add(**number);
    }
    sum
}

/// The place that may read a slot: its seed at cycle 0, its addend later.
fn reader_of(slot: LineSlot) -> Reader
    ensures { result ≡ reader_of slot }
{
    match slot {
        LineSlot::Seed(component) => Reader {
            component,
            first: true,
        },
        LineSlot::Add(component) => Reader {
            component,
            first: false,
        },
    }
}

/// Whether what a place reads is the same in both.
fn agree_at(mine: Number, other: Number, own: Option<u32>) -> bool
    ensures { result ≡ same_read mine other own }
{
    match own {
        None => mine.seed == other.seed,
        Some(own) => own % 2 != 1 || mine.add == other.add,
    }
}
