//! States as words, and words as states.
ghost use Rattle.std.specs.Prelude.{◌≡◌, ◌↔◌, ◌≤◌, ◌+◌, ◌++◌, IsTrue, OnOk, OnErr, IfOk, IsOk, length, vec_len, vec_capacity, option_map};
ghost use Rattle.machine_cells.specs.declared.state.MachineState.{MachineState as State};
ghost use Rattle.machine_cells.specs.Words.{head_of, body_of, words_of, with_memory, state_from, IsState};
ghost use Rattle.machine_cells.specs.Codec.{memory_in, or_none};

use crate::MachineState;
use grid_law::NoMemory;
use mem_module::{SharedWords, Words};
use state_words::{
    comb_has_words, is_comb, is_low, is_module, is_proc, low_has_words, module_has_words,
    proc_has_words, read_comb, read_low, read_module, read_proc, split_first, write_comb,
    write_low, write_module, write_proc,
};
use std::alloc::{AllocError, Global};

/// Appends a state's words. It takes memory only where there is no room for them.
///
/// # Errors
///
/// Where the growth was refused. Then nothing was appended.
#[inline(always)]
pub fn encode(state: &MachineState, words: &mut Vec<u64>) -> Result<(), AllocError>
    ensures ok { OnOk result (words.new.items ≡ words.old.items ++ words_of state.now) }
    ensures err { OnErr result (words.new.items ≡ words.old.items) }
    ensures room { vec_len words.old + length (words_of state.now) ≤ vec_capacity words.old → IsOk result }
{
    match state {
        MachineState::Proc(s) => write_proc(words, s),
        MachineState::Module(s) => write_module(words, s),
        MachineState::Low(s) => write_low(words, s),
        MachineState::Comb(s) => write_comb(words, s),
    }
}

/// Whether a state's words are these. They are compared where they stand, and no memory is taken.
pub fn has_words(state: &MachineState, words: &[u64]) -> bool
    ensures { IsTrue result ↔ (words_of state.now ≡ words.now) }
{
    match words {
        [head, body @ ..] => has_head_and_body(state, *head, body),
        [] => false,
    }
}

fn has_head_and_body(state: &MachineState, head: u64, body: &[u64]) -> bool
    ensures { IsTrue result ↔ ((head_of state.now ≡ head) × (body_of state.now ≡ body.now)) }
{
    match state {
        MachineState::Proc(s) => proc_has_words(s, head, body),
        MachineState::Module(s) => module_has_words(s, head, body),
        MachineState::Low(s) => low_has_words(s, head, body),
        MachineState::Comb(s) => comb_has_words(s, head, body),
    }
}

/// Whether a state's memory is this; a module has one, others have none.
pub(crate) fn has_memory(state: &MachineState, memory: Option<&SharedWords>) -> bool
    ensures { IsTrue result ↔ (memory_in state.now ≡ option_map (λ held. held.now) memory.entry) }
{
    match state {
        MachineState::Module(s) => match memory {
            Some(memory) => s.words.same(memory),
            None => false,
        },
        _ => memory.is_none(),
    }
}

/// The state that has these words; where it is a module, with this memory, or an empty one. Where no state has them, some state. A processor
/// takes no memory, and a module or a switch takes it for each queue in which messages wait.
///
/// # Errors
///
/// Where a growth was refused, or the memory has as many owners as can be counted.
pub fn decode(
    alloc: Global,
    words: &[u64],
    memory: Option<&SharedWords>,
) -> Result<MachineState, NoMemory>
    ensures { (s : State) → IsState s → words.now ≡ words_of s → IfOk result (λ state. state ≡ with_memory (or_none (option_map (λ held. held.now) memory.entry)) s) }
{
    read_state(alloc, words, memory)
}

/// What `state_from` says.
pub(crate) fn read_state(
    alloc: Global,
    words: &[u64],
    memory: Option<&SharedWords>,
) -> Result<MachineState, NoMemory>
    ensures { IfOk result (λ state. state ≡ state_from words.now (or_none (option_map (λ held. held.now) memory.entry))) }
{
    let (head, body) = split_first(words);
    let kind = head % 4;
    if kind == 0 {
        Ok(MachineState::Proc(read_proc(head, body)))
    } else if kind == 1 {
        let memory = shared_or_none(alloc, memory)?;
        Ok(MachineState::Module(read_module(alloc, head, body, memory)?))
    } else if kind == 2 {
        Ok(MachineState::Low(read_low(alloc, head, body)?))
    } else {
        Ok(MachineState::Comb(read_comb(alloc, head, body)?))
    }
}

/// One more owner of a memory, or an empty one.
fn shared_or_none(alloc: Global, memory: Option<&SharedWords>) -> Result<SharedWords, NoMemory>
    ensures { IfOk result (λ shared. shared ≡ or_none (option_map (λ held. held.now) memory.entry)) }
{
    match memory {
        Some(memory) => memory.share(),
        None => SharedWords::new(alloc, Words::new(alloc)),
    }
}

/// Every state is one that its words tell. Nothing is done when it runs.
pub fn is_state(state: &MachineState)
    ensures { IsState state.now }
{
    match state {
        MachineState::Proc(s) => is_proc(s),
        MachineState::Module(s) => is_module(s),
        MachineState::Low(s) => is_low(s),
        MachineState::Comb(s) => is_comb(s),
    }
}
