//! What modules do in a cycle.
ghost use Rattle.std.specs.Prelude.{◌≡◌, ◌≢◌, ℕ, ◌<◌, ◌≤◌, length, IsSome, Some, true, false, OnOk, IfOk};
ghost use Rattle.omega_net.specs.Ports.{queue_at};
ghost use Rattle.omega_net.specs.Queues.{head};
ghost use Rattle.mem_module.specs.MemModule.{answer_to, words_after};
ghost use Rattle.flat_row.specs.Masks.{has};
ghost use Rattle.flat_row.specs.Combining.{SameLevel};
ghost use Rattle.flat_row.specs.Ends.{AllServed, AreAnswered, Wrote};

use crate::level::Level;
use crate::marks::with_mark;
use crate::moving::first_from;
use grid_law::NoMemory;
use mem_module::Words;
use omega_net::{Reply, Request};

/// Modules serve the heads of their requests on a network: those that left another word. Their answers wait nowhere yet.
///
/// # Errors
///
/// Where a growth was refused. Then some modules have served, and others haven't.
pub(crate) fn serve(
    level: &mut Level<Request>,
    words: &mut Vec<Words>,
    modules: u64,
    answers: &mut [Reply; 64],
) -> Result<u64, NoMemory>
    requires some { (m : ℕ) → m < 64 → has modules m ≡ true → IsSome (head (queue_at level.old.queues m)) }
    requires there { length level.old.queues ≤ length words.old.items }
    ensures shape { SameLevel level.old level.new }
    ensures many { length words.new.items ≡ length words.old.items }
    ensures served { OnOk result (AllServed modules level.old level.new words.old.items words.new.items answers.new) }
    ensures wrote { IfOk result (λ wrote. Wrote wrote words.old.items words.new.items) }
    ensures within { IfOk result (λ wrote. (m : ℕ) → m < 64 → has wrote m ≡ true → has modules m ≡ true) }
{
    let mut next = 0;
    let mut wrote = 0;
    while let Some(m) = first_from(modules, next) {
        let request = level.take(m);
        let stored = &mut words[m as usize];
        let (reply, writes) = serve_request(stored, request)?;
        answers[m as usize] = reply;
        wrote = with_mark(wrote, m, writes);
        next = m + 1;
    }
    Ok(wrote)
}

/// A module does a request: the word that it leaves; the reply, which is the word before; and whether the two are different.
fn serve_request(words: &mut Words, request: Request) -> Result<(Reply, bool), NoMemory>
    ensures words { OnOk result (words.new ≡ words_after words.old (Some request)) }
    ensures answer { IfOk result (λ done. Some done.0 ≡ answer_to words.old (Some request)) }
    ensures same { IfOk result (λ done. done.1 ≡ false → words.new ≡ words.old) }
    ensures other { IfOk result (λ done. done.1 ≡ true → words.new ≢ words.old) }
{
    let (word, other) = words.fetch_and_op(request.place.row, request.op)?;
    let tag = request.tag;
    Ok((Reply { tag, word }, other))
}

/// The answers of modules go last into their replies on a network.
pub(crate) fn answer(level: &mut Level<Reply>, modules: u64, answers: &[Reply; 64])
    requires { (m : ℕ) → m < 64 → has modules m ≡ true → m < length level.old.queues }
    ensures shape { SameLevel level.old level.new }
    ensures answered { AreAnswered modules answers.now level.old level.new }
{
    let mut next = 0;
    while let Some(m) = first_from(modules, next) {
        level.give(m, answers[m as usize]);
        next = m + 1;
    }
}
