//! The words of memory of a module, before a row takes them, and after a step of the one module.
ghost use Rattle.std.specs.Prelude.{◌≡◌, ◌↔◌, IsTrue, IfOk};
ghost use Rattle.std.specs.Option.{option_copied};
ghost use Rattle.mem_module.specs.Memory.{IsAscending};
ghost use Rattle.whole_rows.specs.Rows.{memory_after};

use grid_law::NoMemory;
use mem_module::{SharedWords, Stored};
use std::alloc::Global;
use word_ops::{Kind, Op};

/// Whether rows rise and no word is 0, as in the memory of every module.
pub(crate) fn is_ascending(words: &[Stored]) -> bool
    ensures { IsTrue result ↔ IsAscending words.now }
{
    let mut low = 0;
    for i in 0..words.len() {
        let stored = words[i];
        if u32::from(stored.row) < low || stored.word == 0 {
            return false;
        }
        low = u32::from(stored.row) + 1;
    }
    true
}

/// The memory in which a module left a word, or none where it left none.
pub(crate) fn left_in(
    alloc: Global,
    memory: Option<&SharedWords>,
    left: Option<Stored>,
) -> Result<Option<SharedWords>, NoMemory>
    ensures { IfOk result (λ after. after ≡ memory_after (option_copied memory.entry) left) }
{
    match (memory, left) {
        (Some(memory), Some(stored)) => {
            let op = Op {
                kind: Kind::Store,
                operand: stored.word,
            };
            let (_, words) = memory.fetch_and_op(alloc, stored.row, op)?;
            Ok(Some(words))
        }
        _ => Ok(None),
    }
}
