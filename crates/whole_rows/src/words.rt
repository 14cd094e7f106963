//! The words of a state, before a row takes them.
ghost use Rattle.std.specs.Prelude.{◌≡◌, ◌<◌, ◌%◌, ◌^◌, All, slice_index, true};
ghost use Rattle.grid_law.specs.Codec.{IsTold};
ghost use Rattle.machine_cells.specs.declared.state.MachineState.{MachineState as State};
ghost use Rattle.machine_cells.specs.Codec.{rp3_codec};
ghost use Rattle.machine_cells.specs.Words.{IsState, words_of};
ghost use Rattle.flat_row.specs.Loading.{CanHold};
ghost use Rattle.whole_rows.specs.Rows.{HasTurns};

use omega_net::{Component, Net};

/// Whether a row can hold the state that has these words for a component: it is of the component's kind, turns of a switch are 0 or 1, and
/// it combined at most two requests, as in every state of a run. The first word tells it.
pub(crate) fn can_hold(component: Component, words: &[u64]) -> bool
    ensures { result ≡ true → (x : State) → IsTold rp3_codec x → words_of x ≡ words.now → CanHold component x }
{
    let head = head_in(words);
    match component {
        Component::Proc(_) => head % 4 == 0,
        Component::Module(_) => head % 4 == 1,
        Component::Switch { net: Net::Low, .. } => head % 4 == 2 && are_low_turns(head),
        Component::Switch { net: Net::Comb, .. } => head % 4 == 3 && are_comb_turns(head),
    }
}

/// The first word, 0 where there is none.
fn head_in(words: &[u64]) -> u64
    ensures { result ≡ slice_index words.now 0 }
{
    match words {
        [head, ..] => *head,
        [] => 0,
    }
}

/// Whether all turns of a low switch with this head are 0 or 1.
fn are_low_turns(head: u64) -> bool
    ensures { result ≡ true → HasTurns head 2 }
{
    byte(head >> 27) < 2 && byte(head >> 35) < 2 && byte(head >> 43) < 2 && byte(head >> 51) < 2
}

/// The same of a combining switch, which combined two requests at most.
fn are_comb_turns(head: u64) -> bool
    ensures { result ≡ true → HasTurns head 3 }
{
    byte(head >> 27) < 2 && byte(head >> 35) < 2 && byte(head >> 43) < 2 && byte(head >> 51) < 3
}

/// The lowest 8 bits.
fn byte(word: u64) -> u64
    ensures { result ≡ word % 2 ^ 8 }
{
    word % 256
}

/// Words of 64 bits that tell a state tell one of the machine's types. Nothing is done when it runs.
pub(crate) fn are_of_a_state(words: &[u64])
    ensures { (x : State) → IsTold rp3_codec x → words_of x ≡ words.now → IsState x }
{
    are_words(words);
}

/// They are words of 64 bits.
fn are_words(words: &[u64])
    ensures { All (λ w. w < 2 ^ 64) words.now }
{
    for i in 0..words.len() {
        is_word(words[i]);
    }
}

fn is_word(word: u64)
    ensures { word < 2 ^ 64 }
{
    let _word = word;
}
