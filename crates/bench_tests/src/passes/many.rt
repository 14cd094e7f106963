//! Four passes that edit and ask at once.
ghost use Rattle.std.specs.Prelude.{◌≡◌};

use super::benches::simulated;
use super::doing::{Came, Host, told};
use crate::base::{base, word};
use bench_core::Noted;
use run_queries::Query;
use shared_bench::Pass;
use std::alloc::Global;
use std::test::Fail;
use std::thread;

/// The word of address 0 at the horizon.
const LAST_WORD: Query = Query::Memory {
    address: 0,
    cycle: 10,
};

/// How often a pass edits, and how often it asks.
const ROUNDS: u32 = 200;

/// The version of each answer, and its word.
type Heard = Vec<(u32, u32)>;

/// Edits the word and asks for it, once: the answer, where it isn't earlier than the edit.
fn edits_and_asks<R: Host>(rt: &R, pass: &mut Pass, next: u32) -> Option<(u32, u32)>
    ensures { pass.new.opening ≡ pass.old.opening }
{
    let made = pass.edit(rt, word(0, next));
    let asked = told(pass.ask(rt, LAST_WORD));
    match (made, asked) {
        (Ok(made), Came::Word { version, word }) if version >= made => Some((version, word)),
        _ => None,
    }
}

/// Does so often: the pass, and what it was answered.
fn rounds<R: Host>(rt: &R, alloc: Global, mut pass: Pass, first: u32) -> (Pass, Heard)
    ensures { result.0.opening ≡ pass.opening }
{
    let mut heard = Vec::new(alloc);
    for round in 0..ROUNDS {
        if let Some(answer) = edits_and_asks(rt, &mut pass, first.wrapping_add(round)) {
            let _ = heard.push(answer);
        }
    }
    (pass, heard)
}

/// A pass and one that is split from it at once, joined again. Where no seat is free nothing is heard.
fn two<R: Host>(rt: &R, alloc: Global, mut one: Pass, first: u32) -> (Pass, Heard)
    ensures { result.0.opening ≡ one.opening }
{
    let Ok(other) = one.split() else {
        return (one, Vec::new(alloc));
    };
    let ((one, heard), (other, more)) = thread::join(
        rt,
        move || -> (Pass, Heard)
            ensures { result.0.opening ≡ one.opening }
        { rounds(rt, alloc, one, first) },
        move || -> (Pass, Heard)
            ensures { result.0.opening ≡ other.opening }
        { rounds(rt, alloc, other, first.wrapping_add(1_000)) },
    );
    (one.join(other), both(heard, more))
}

fn both(mut heard: Heard, mut more: Heard) -> Heard {
    let _ = heard.append(&mut more);
    heard
}

/// Four passes at once, in two pairs, joined again. Where no seat is free nothing is heard.
pub(super) fn four<R: Host>(rt: &R, alloc: Global, mut one: Pass) -> (Pass, Heard) {
    let Ok(other) = one.split() else {
        return (one, Vec::new(alloc));
    };
    let ((one, heard), (other, more)) = thread::join(
        rt,
        move || -> (Pass, Heard)
            ensures { result.0.opening ≡ one.opening }
        { two(rt, alloc, one, 10_000) },
        move || -> (Pass, Heard)
            ensures { result.0.opening ≡ other.opening }
        { two(rt, alloc, other, 20_000) },
    );
    (one.join(other), both(heard, more))
}

/// The word at the horizon of each version of a journal that begins at the base project, by the plain simulation.
pub(super) fn simulated_versions(alloc: Global, journal: &[Noted]) -> Result<Vec<u32>, Fail> {
    let mut project = base(alloc)?;
    let mut words = Vec::with_capacity(alloc, journal.len())?;
    for noted in journal {
        project = project.apply(noted.edit)?.0;
        words.push(simulated(alloc, &project)?)?;
    }
    Ok(words)
}

/// How many answers are those of the simulation of their version.
pub(super) fn right(heard: &[(u32, u32)], words: &[u32]) -> u32 {
    let mut count = 0u32;
    for (version, word) in heard {
        let place = (*version as usize).wrapping_sub(1);
        if words.get(place) == Some(word) {
            count = count.saturating_add(1);
        }
    }
    count
}
