//! Processors, read out of the words of their states.
ghost use Rattle.std.specs.Prelude.{◌≡◌, Option};
ghost use Rattle.machine_cells.specs.declared.state.MachineState.{MachineState as State};
ghost use Rattle.run_queries.specs.Answers.{has_sent, word_got};
ghost use Rattle.bench_core.specs.Worded.{AreWordsOf};

use machine_cells::MachineState;
use run_queries::word_got;
use state_words::{read_proc, split_first};

/// Whether the state with these words is that of a processor that issued a reference in the last step. The head alone
/// tells it.
pub(crate) fn has_sent_by(words: &[u64]) -> bool
    ensures { (held : Option State) → AreWordsOf words.now held → result ≡ has_sent held }
{
    let (head, _) = split_first(words);
    head % 4 == 0 && (head >> 5) % 2 == 1
}

/// The word that the processor with these words received for its reference of that issue number in the last step, if it
/// did. Where its head says that no reply came, no more is read.
pub(crate) fn word_got_by(words: &[u64], issue: u32) -> Option<u32>
    ensures { (held : Option State) → AreWordsOf words.now held → result ≡ word_got issue held }
{
    let (head, body) = split_first(words);
    if head % 4 != 0 || (head >> 3) % 4 == 0 {
        return None;
    }
    let state = MachineState::Proc(read_proc(head, body));
    word_got(Some(&state), issue)
}
