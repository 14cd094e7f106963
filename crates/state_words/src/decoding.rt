//! Components read out of words.
ghost use Rattle.std.specs.Prelude.{◌≡◌, ◌/◌, ◌%◌, ◌^◌, ℕ, List, is_some, IfOk};
ghost use Rattle.state_words.specs.Reading.{proc_from, module_from, low_from, comb_from};

use crate::fields::{byte, high, low, net_from, short};
use crate::heads::{count_in, mark_in};
use crate::reading::{read_option, read_ports, read_queue, split_first};
use comb_switch::CombState;
use low_switch::LowState;
use mem_module::{ModuleState, SharedWords};
use ref_proc::ProcState;
use std::alloc::{AllocError, Global};

/// The processor of a head and what follows it. Of those that a processor has, it is that one ([`crate::components_are_told`]), and so
/// with the others below; where no component has them, some component.
#[inline(always)]
pub fn read_proc(head: u64, words: &[u64]) -> ProcState
    ensures { result ≡ proc_from head words.now }
{
    let (counts, rest) = split_first(words);
    let (out, rest) = read_option(rest, mark_in(head >> 2));
    let (from_low, rest) = read_option(rest, mark_in(head >> 3));
    let (from_comb, _) = read_option(rest, mark_in(head >> 4));
    ProcState {
        index: short(head >> 6),
        spent: low(counts),
        issued: high(counts),
        pending: low(head >> 22),
        out,
        got: [from_low, from_comb],
        sent: mark_in(head >> 5),
    }
}

/// The index of the processor of a head.
pub fn index_in(head: u64) -> u16
    ensures { (words : List ℕ) → result ≡ (proc_from head words).index }
{
    short(head >> 6)
}

/// Whether the processor of a head shows a request.
pub fn shows_in(head: u64) -> bool
    ensures { (words : List ℕ) → result ≡ is_some (proc_from head words).out }
{
    mark_in(head >> 2)
}

/// The module of a head and what follows it, with this memory.
///
/// # Errors
///
/// Where a growth was refused: one for each queue in which messages wait. The memory is dropped.
pub fn read_module(
    alloc: Global,
    head: u64,
    words: &[u64],
    memory: SharedWords,
) -> Result<ModuleState, AllocError>
    ensures { IfOk result (λ s. s ≡ module_from head words.now memory) }
{
    let (requests, rest) = read_ports(alloc, words, count_in(head >> 2), count_in(head >> 7))?;
    let (replies, _) = read_ports(alloc, rest, count_in(head >> 12), count_in(head >> 17))?;
    Ok(ModuleState {
        words: memory,
        requests,
        replies,
        turn: net_from((head >> 27) % 2),
        served: mark_in(head >> 28),
    })
}

/// The low switch of a head and what follows it.
///
/// # Errors
///
/// Where a growth was refused: one for each queue in which messages wait.
pub fn read_low(alloc: Global, head: u64, words: &[u64]) -> Result<LowState, AllocError>
    ensures { IfOk result (λ s. s ≡ low_from head words.now) }
{
    let (fwd, rest) = read_ports(alloc, words, count_in(head >> 2), count_in(head >> 7))?;
    let (rev, _) = read_ports(alloc, rest, count_in(head >> 12), count_in(head >> 17))?;
    Ok(LowState {
        fwd,
        turn: [byte(head >> 27), byte(head >> 35)],
        rev,
        rturn: [byte(head >> 43), byte(head >> 51)],
    })
}

/// The combining switch of a head and what follows it.
///
/// # Errors
///
/// Where a growth was refused: one for each queue in which messages wait.
pub fn read_comb(alloc: Global, head: u64, words: &[u64]) -> Result<CombState, AllocError>
    ensures { IfOk result (λ s. s ≡ comb_from head words.now) }
{
    let (fwd, rest) = read_ports(alloc, words, count_in(head >> 2), count_in(head >> 7))?;
    let (rev, rest) = read_ports(alloc, rest, count_in(head >> 12), count_in(head >> 17))?;
    let (wait, _) = read_queue(alloc, rest, count_in(head >> 22))?;
    Ok(CombState {
        fwd,
        rev,
        wait,
        turn: [byte(head >> 27), byte(head >> 35)],
        rturn: byte(head >> 43),
        combined: byte(head >> 51),
    })
}
