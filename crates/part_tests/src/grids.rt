ghost use Rattle.std.specs.Prelude.{◌≡◌, IfOk};
ghost use Rattle.std.specs.Arc.{arc_value};

use arrayvec::ArrayVec;
use expect::{equal, equal_at};
use grid_law::{Grid, Line, LineSlot, NoMemory, Number, Numbers, Reader, SlotFault};
use std::alloc::Global;
use std::sync::Arc;
use std::test::Fail;

/// Seeds 1, 2 and 4; the first place adds 2, the others nothing.
fn three(alloc: Global) -> Result<Numbers, Fail> {
    let places = vec![in alloc;
        Number { seed: 1, add: 2 },
        Number { seed: 2, add: 0 },
        Number { seed: 4, add: 0 },
    ]?;
    Ok(Numbers::new(places).ok_or("three places")?)
}

/// The state of a place one cycle after a row of states.
fn next(alloc: Global, line: &Numbers, row: &[u32], c: u32) -> Result<u32, Fail> {
    if c >= Line::components(line) {
        return Err(Fail::from("no such place"));
    }
    let mut near = Vec::new(alloc);
    for n in Line::near(line, c) {
        let state = row.get(n as usize).ok_or("no such state")?;
        near.push(Arc::new(alloc, *state)?)?;
    }
    Ok(*Line::step(alloc, line, &near, c)?)
}

// Cycle 1: 1 is odd, so 1 + 2; 2 is even, so 1 + 2 + 4; 4 is even, so 2 + 4.
// Cycle 2: 3 is odd, so 3 + 2; 7 is odd, so 7 + 0; 6 is even, so 7 + 6.
// A sum that passes 2^32 - 1 wraps: 1 + (2^32 - 2) + 4 is 2^32 + 3.
#[test]
fn rows_of_three(rt: HostRuntime) -> Result<(), Fail> {
    let alloc = rt.alloc();
    let line = Line::share(alloc, &three(alloc)?)?;
    for (row, want) in [
        ([1, 2, 4], [3, 7, 6]),
        ([3, 7, 6], [5, 7, 13]),
        ([1, 4294967294, 4], [3, 3, 2]),
        ([4294967295, 0, 0], [1, 4294967295, 0]),
    ] {
        for (c, state) in want.iter().enumerate() {
            assert!(rt; equal_at(&rt, (row, c), next(alloc, &line, &row, c as u32)?, *state));
        }
    }
    assert!(rt; equal(&rt, Line::components(&line), 3));
    assert!(rt; equal(&rt, *Line::start(alloc, &line, 2)?, 4));
    Ok(())
}

#[test]
fn one_to_sixty_four(rt: HostRuntime) -> Result<(), Fail> {
    let alloc = rt.alloc();
    for (places, fits) in [(0, false), (1, true), (64, true), (65, false)] {
        let numbers = Numbers::new(vec![in alloc; Number { seed: 7, add: 0 }; places]?);
        assert!(rt; equal_at(&rt, places, numbers.is_some(), fits));
    }
    Ok(())
}

#[test]
fn sets_one_slot(rt: HostRuntime) -> Result<(), Fail> {
    let alloc = rt.alloc();
    let line = three(alloc)?;
    let (six, changed) = line.with(alloc, LineSlot::Seed(2), 6)?;
    assert!(rt; equal(&rt, six.value(LineSlot::Seed(2)), Some(6)));
    assert!(rt;
        equal(
            &rt,
            changed.slots.as_slice(),
            [LineSlot::Seed(2)].as_slice()
        )
    );
    let (_, changed) = six.with(alloc, LineSlot::Seed(2), 6)?;
    assert!(rt; changed.slots.is_empty());
    assert!(rt;
        equal(
            &rt,
            line.with(alloc, LineSlot::Add(3), 1).err(),
            Some(SlotFault::NoSuchSlot)
        )
    );
    Ok(())
}

#[test]
fn texts(rt: HostRuntime) -> Result<(), Fail> {
    let alloc = rt.alloc();
    let missing = SlotFault::NoSuchSlot;
    let memory = SlotFault::Memory;
    assert!(rt;
        equal(
            &rt,
            format!(in alloc; "{NoMemory}, {memory}, {missing}")?.as_str(),
            "no memory, no memory, no such slot"
        )
    );
    Ok(())
}

// A place may read its own seed at cycle 0, and its own addend later; past the line there is no place.
#[test]
fn readers_of_slots(rt: HostRuntime) -> Result<(), Fail> {
    let alloc = rt.alloc();
    let line = three(alloc)?;
    for (slot, first) in [(LineSlot::Seed(1), true), (LineSlot::Add(1), false)] {
        let readers = Line::readers(alloc, &line, &slot)?;
        let component = 1;
        assert!(rt;
            equal(
                &rt,
                readers.as_slice(),
                [Reader { component, first }].as_slice()
            )
        );
    }
    assert!(rt; Line::readers(alloc, &line, &LineSlot::Add(3))?.is_empty());
    Ok(())
}

// An odd number without an addend stays; 2 between 3 and 5 becomes 10.
#[test]
fn next_states(rt: HostRuntime) -> Result<(), Fail> {
    let alloc = rt.alloc();
    let line = three(alloc)?;
    if Line::components(&line) < 2 {
        return Err(Fail::from("no such place"));
    }
    assert!(rt; Line::next(alloc, &line, &[&7, &3, &5], 1)?.is_none());
    let next = Line::next(alloc, &line, &[&2, &3, &5], 1)?.ok_or("another state")?;
    assert!(rt; equal(&rt, *next, 10));
    Ok(())
}

/// A state as a table keeps it, its words and its memory, put together again.
fn kept<G: Grid>(alloc: Global, state: &G::State) -> Result<Arc<G::State>, NoMemory>
    ensures { IfOk result (λ again. arc_value again ≡ state.now) }
{
    let mut words = Vec::new(alloc);
    G::encode(state, &mut words)?;
    let memory = G::memory(state)?;
    G::decode(alloc, &words, memory.as_ref())
}

// A number is one word behind those that stand there, an odd one reads its own addend, and there is no memory.
#[test]
fn states_as_words(rt: HostRuntime) -> Result<(), Fail> {
    let alloc = rt.alloc();
    let line = three(alloc)?;
    if Line::components(&line) < 2 {
        return Err(Fail::from("no such place"));
    }
    let mut words = vec![in alloc; 9]?;
    Line::encode(&4294967295, &mut words)?;
    assert!(rt; equal(&rt, words.as_slice(), [9, 4294967295].as_slice()));
    assert!(rt; equal(&rt, *kept::<Line>(alloc, &4294967295)?, 4294967295));
    assert!(rt; Line::memory(&7)?.is_none());
    for (word, place, reads) in [(7, 1, true), (8, 1, false), (7, 0, false)] {
        let read = Line::words_read(&line, &[word], place, &LineSlot::Add(1));
        assert!(rt; equal_at(&rt, (word, place), read, reads));
    }
    assert!(rt; !Line::words_read(&line, &[7], 1, &LineSlot::Seed(1)));
    Line::share_memory(&())?;
    assert!(rt; Line::same_memory(&(), &()));
    Ok(())
}

// A number is its own word alone, beside no memory.
#[test]
fn states_beside_words(rt: HostRuntime) {
    assert!(rt; Line::is_code(&7, &[7], None));
    assert!(rt; !Line::is_code(&7, &[8], None));
    assert!(rt; !Line::is_code(&7, &[7, 7], None));
    assert!(rt; !Line::is_code(&7, &[], None));
    assert!(rt; !Line::is_code(&7, &[7], Some(&())));
}
