//! The trait of machines that are simulated cell by cell.
ghost use Rattle.std.specs.Prelude.{◌≡◌, ℕ, false, ◌<◌, ◌≤◌, ◌+◌, ◌↔◌, IsTrue, IfOk, IsOk, OnOk, OnErr, Option, length, map, option_map, ◌∷◌, ◌++◌, [], vec_len, vec_capacity};
ghost use Rattle.std.specs.Arc.{arc_value};
ghost use Rattle.grid_law.specs.Codec.{Codec, CodecLaws, IsTold};
ghost use Rattle.grid_law.specs.Rules.{Rules, Laws, Agrees, IsNext};
ghost use Rattle.grid_law.specs.Run.{run};
ghost use Rattle.grid_law.specs.ByWords.{IsByWords};
ghost use Rattle.grid_law.specs.declared.turn.Turn.TheVariants.{Ahead, Passed};

use crate::{NoMemory, Reader, Turn};
use arrayvec::ArrayVec;
use std::alloc::Global;
use std::sync::Arc;

/// A machine as cells, one for each component and cycle.
///
/// A component is a number below `components`. Wherever a call takes `near`, it is the list of the
/// states of the components `near(s, c)`, in that order, one cycle before the cell that is meant;
/// an empty list stands for cycle 0, before which there is nothing. No call looks at any other
/// state, so a cell can be computed again from its near states alone, also long after they were
/// read and while the table that they came from goes on.
///
/// A state can also be kept as words of 64 bits and a memory: `encode` and `memory` take it apart, `decode` puts it together, and
/// two states are equal exactly where their words and their memories are; `is_code` compares them without taking it apart.
///
/// The calls are total: they answer for every value of the types, also for states that no run of
/// these slots would reach, and for words that no state has. Only `readers`, `start`, `step`, `next`, `share`, `encode` and `decode`
/// take memory.
pub trait Grid {
    /// What a component is at one cycle.
    type State: Drop;

    /// The settings of the whole machine.
    type Slots: Drop;

    /// The name of one setting.
    type Slot: Drop;

    /// What of a state isn't in its words: something large that few steps change, so that many states have the same.
    type Memory: Drop;

    /// What the calls below mean.
    ghost rules: { Rules Self.State Self.Slots Self.Slot };

    /// What every grid keeps.
    ghost laws: { Laws rules };

    /// The words of a state and its memory, and the state that has them.
    ghost codec: { Codec Self.State Self.Memory };

    /// What they keep in every grid.
    ghost codec_laws: { CodecLaws codec };

    /// How many components there are. No edit of a slot changes it.
    fn components(s: &Self::Slots) -> u32
        ensures { result ≡ rules.components s.now };

    /// The components whose states `c` reads, one cycle earlier: itself first, at most five in all.
    fn near(s: &Self::Slots, c: u32) -> ArrayVec<u32, 5>
        requires { c < rules.components s.now }
        ensures { result.items ≡ rules.near s.now c };

    /// Whether `c` reads `slot` when it starts, or when it steps from these near states.
    fn reads(s: &Self::Slots, near: &[Arc<Self::State>], c: u32, slot: &Self::Slot) -> bool
        requires { c < rules.components s.now }
        ensures { result ≡ rules.reads s.now (map arc_value near.now) c slot.now };

    /// The same where it steps and its own state was this one: what the other near states are makes no
    /// difference.
    fn reads_later(s: &Self::Slots, own: &Self::State, c: u32, slot: &Self::Slot) -> bool
        requires { c < rules.components s.now }
        ensures { result ≡ rules.reads s.now (own.now ∷ []) c slot.now };

    /// Whether `c` is sure to read `slot` after cycle 0, whatever its state is. Where this says no, it may read it at some
    /// state all the same. No state is looked at, so a table asks it once for all cycles.
    fn always_reads(s: &Self::Slots, c: u32, slot: &Self::Slot) -> bool
        requires { c < rules.components s.now }
        ensures { result ≡ rules.always_reads s.now c slot.now };

    /// The components that may read `slot`, at cycle 0 or at a later one: every one for which `reads`
    /// says yes at some near states is listed with such a cycle. By component from the lowest on, cycle
    /// 0 before the later ones, each once.
    ///
    /// # Errors
    ///
    /// Where a growth was refused. What was taken is given back.
    fn readers(alloc: Global, s: &Self::Slots, slot: &Self::Slot) -> Result<Vec<Reader>, NoMemory>
        ensures { IfOk result (λ readers. readers.items ≡ rules.readers s.now slot.now) };

    /// The state of `c` at cycle 0.
    ///
    /// # Errors
    ///
    /// Where a growth was refused. What was taken is given back.
    fn start(alloc: Global, s: &Self::Slots, c: u32) -> Result<Arc<Self::State>, NoMemory>
        requires { c < rules.components s.now }
        ensures { IfOk result (λ x. arc_value x ≡ rules.start s.now c) };

    /// The state of `c` one cycle after these near states. Where that is the component's own one, it may be the same, with one
    /// more owner.
    ///
    /// # Errors
    ///
    /// Where a growth was refused, or the state has as many owners as can be counted. The near states are as before.
    fn step(
        alloc: Global,
        s: &Self::Slots,
        near: &[Arc<Self::State>],
        c: u32,
    ) -> Result<Arc<Self::State>, NoMemory>
        requires { c < rules.components s.now }
        ensures { IfOk result (λ x. arc_value x ≡ rules.step s.now (map arc_value near.now) c) };

    /// As `step`, from near states that are lent; nothing where the next state is the component's own
    /// one, the first of them.
    ///
    /// # Errors
    ///
    /// Where a growth was refused. The near states are as before.
    fn next(
        alloc: Global,
        s: &Self::Slots,
        near: &[&Self::State],
        c: u32,
    ) -> Result<Option<Arc<Self::State>>, NoMemory>
        requires { c < rules.components s.now }
        ensures { IfOk result (λ next. IsNext rules s.now (map (λ state. state.now) near.now) c (option_map arc_value next)) };

    /// Whether two states are equal.
    fn same(a: &Self::State, b: &Self::State) -> bool
        ensures { IsTrue result ↔ (a.now ≡ b.now) };

    /// Appends the words of a state, of which there is at least one. With its memory they tell it. It takes memory only where there
    /// is no room for them.
    ///
    /// # Errors
    ///
    /// Where the growth was refused. Then nothing was appended.
    fn encode(x: &Self::State, words: &mut Vec<u64>) -> Result<(), NoMemory>
        ensures ok { OnOk result (words.new.items ≡ words.old.items ++ codec.words x.now) }
        ensures err { OnErr result (words.new.items ≡ words.old.items) }
        ensures room { vec_len words.old + length (codec.words x.now) ≤ vec_capacity words.old → IsOk result }
        ensures told { IsTold codec x.now };

    /// What of a state isn't in its words, where there is anything, with one more owner.
    ///
    /// # Errors
    ///
    /// Where it has as many owners as can be counted. Nothing is changed.
    fn memory(x: &Self::State) -> Result<Option<Self::Memory>, NoMemory>
        ensures { IfOk result (λ memory. memory ≡ codec.memory x.now) };

    /// The state that has these words and this memory. Where no state has them, some state.
    ///
    /// # Errors
    ///
    /// Where a growth was refused, or the memory has as many owners as can be counted.
    fn decode(
        alloc: Global,
        words: &[u64],
        memory: Option<&Self::Memory>,
    ) -> Result<Arc<Self::State>, NoMemory>
        ensures { IfOk result (λ x. arc_value x ≡ codec.state words.now (option_map (λ held. held.now) memory.entry)) };

    /// As `reads_later`, where its own state has these words, whatever its memory is.
    fn words_read(s: &Self::Slots, words: &[u64], c: u32, slot: &Self::Slot) -> bool
        requires { c < rules.components s.now }
        ensures { (memory : Option Self.Memory) → result ≡ rules.reads s.now (codec.state words.now memory ∷ []) c slot.now };

    /// A component's next state hangs on the words of the states near it and, of their memories, on that of its own state alone. Nothing is
    /// done when it runs.
    fn by_words(s: &Self::Slots)
        ensures { IsByWords rules codec s.now };

    /// Whether it may be told where along a run the slot is read.
    fn has_turns(slot: &Self::Slot) -> bool;

    /// Where along a run a component reads the slot, whose state at some cycle has these words.
    fn turn(words: &[u64], s: &Self::Slots, c: u32, slot: &Self::Slot) -> Turn
        requires { c < rules.components s.now }
        ensures ahead { result ≡ Ahead → (t u : ℕ) → codec.words (run rules s.now t c) ≡ words.now → u ≤ t → rules.reads s.now (run rules s.now u c ∷ []) c slot.now ≡ false }
        ensures passed { result ≡ Passed → (t u : ℕ) → codec.words (run rules s.now t c) ≡ words.now → t ≤ u → rules.reads s.now (run rules s.now u c ∷ []) c slot.now ≡ false };

    /// The same memory, with one more owner.
    ///
    /// # Errors
    ///
    /// Where it has as many owners as can be counted. Nothing is changed.
    fn share_memory(memory: &Self::Memory) -> Result<Self::Memory, NoMemory>
        ensures { IfOk result (λ shared. shared ≡ memory.now) };

    /// Whether two memories are equal.
    fn same_memory(a: &Self::Memory, b: &Self::Memory) -> bool
        ensures { IsTrue result ↔ (a.now ≡ b.now) };

    /// Whether a state has just these words, and this memory or none.
    fn is_code(x: &Self::State, words: &[u64], memory: Option<&Self::Memory>) -> bool
        ensures told { IsTold codec x.now }
        ensures same { IsTrue result ↔ ((codec.words x.now ≡ words.now) × (codec.memory x.now ≡ option_map (λ held. held.now) memory.entry)) };

    /// Whether `a` and `b` have the same shape, and the same value in each slot that `c` reads
    /// under `a` at these near states. Then `c` gets the same state under both.
    fn agree(a: &Self::Slots, b: &Self::Slots, near: &[Arc<Self::State>], c: u32) -> bool
        requires { c < rules.components a.now }
        ensures { IsTrue result ↔ Agrees rules a.now b.now (map arc_value near.now) c };

    /// An equal value, to be taken along.
    ///
    /// # Errors
    ///
    /// Where a growth was refused, or the value has as many owners as can be counted. It is as before.
    fn share(alloc: Global, s: &Self::Slots) -> Result<Self::Slots, NoMemory>
        ensures { IfOk result (λ t. t ≡ s.now) };
}
