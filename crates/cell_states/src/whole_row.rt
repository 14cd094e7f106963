//! All components of a grid at one cycle, stepped together.
ghost use Rattle.std.specs.Prelude.{◌≡◌, length, ℕ, suc, ◌<◌, ◌++◌, ◌↔◌, IsTrue, IfSome, IfOk, OnOk, OnErr, map, option_map, slice_index_or, true, false, Some, not};
ghost use Rattle.grid_law.specs.Codec.{IsTold};
ghost use Rattle.grid_law.specs.Run.{run};
ghost use Rattle.std.specs.Option.{option_copied, option_or};
ghost use Rattle.cell_states.specs.Codes.{IsCodeOf};
ghost use Rattle.cell_states.specs.NextWords.{IsNear};
ghost use Rattle.cell_states.specs.Filling.{is_awake};

use cell_marks::Row;
use grid_law::{Grid, NoMemory};
use std::alloc::{AllocError, Global};

/// The states of all components of a grid at one cycle, as whoever steps them together keeps them. They come in and go out as words and
/// memories. Where many cells of a cycle are due, a table loads such a row once, and then it goes along from cycle to cycle; where a call
/// gives none, the table steps component by component.
pub trait WholeRow<G: Grid>: Drop {
    ghost use Rattle.std.specs.Prelude.{ℕ, Bool};

    /// What is known of a step beside the states after it.
    type Step: Drop;

    /// It is a row of these slots.
    ghost stands: { Self → G.Slots → Type 0 };

    /// The state that it holds for a component.
    ghost state: { Self → ℕ → G.State };

    /// Whether a component is known to be after a step as it was before.
    ghost is_still: { Self.Step → G.Slots → ℕ → Bool };

    /// Whether a component may have another memory after a step.
    ghost has_written: { Self.Step → G.Slots → ℕ → Bool };

    /// The row of cycle 0 of these slots; none where a growth was refused, or the grid has no such row.
    fn new(alloc: Global, s: &G::Slots) -> Option<Self>
        ensures stands { IfSome result (λ row. stands row s.now) }
        ensures states { IfSome result (λ row. (c : ℕ) → c < G.rules.components s.now → state row c ≡ G.rules.start s.now c) };

    /// The row stands for these slots, whatever it stood for before, where it can: whether it does. It then holds any states. It takes no
    /// memory.
    fn resume(&mut self, s: &G::Slots) -> bool
        ensures { result ≡ true → stands self.new s.now };

    /// The row stands for other slots of the same shape, and holds what it held. It takes no memory.
    fn follow(&mut self, s: &G::Slots)
        requires { (was : G.Slots) × stands self.old was × G.rules.SameShape was s.now }
        ensures stands { stands self.new s.now }
        ensures states { (c : ℕ) → state self.new c ≡ state self.old c };

    /// Puts the state that has these words in the place of a component's; its memory stays. It answers false where the row can't hold
    /// such a state; it then holds any state for that component.
    fn load(&mut self, s: &G::Slots, c: u32, words: &[u64]) -> bool
        requires stands { stands self.old s.now }
        requires component { c < G.rules.components s.now }
        ensures stands { stands self.new s.now }
        ensures loaded { result ≡ true → (x : G.State) → IsTold G.codec x → G.codec.words x ≡ words.now
            → IsCodeOf G.codec words.now (G.codec.memory (state self.old c)) (state self.new c) }
        ensures others { (d : ℕ) → d < G.rules.components s.now → (d ≡ c → ⊥) → state self.new d ≡ state self.old d };

    /// Puts a memory in the place of a component's; its words stay. It answers false where the component has none, the row can't hold
    /// that one, or a growth was refused; it then holds any state for that component.
    fn load_memory(&mut self, alloc: Global, s: &G::Slots, c: u32, memory: &G::Memory) -> bool
        requires stands { stands self.old s.now }
        requires component { c < G.rules.components s.now }
        ensures stands { stands self.new s.now }
        ensures loaded { result ≡ true → IsCodeOf G.codec (G.codec.words (state self.old c)) (Some memory.now) (state self.new c) }
        ensures others { (d : ℕ) → d < G.rules.components s.now → (d ≡ c → ⊥) → state self.new d ≡ state self.old d };

    /// One cycle of all components. Where it answers none, a growth was refused, and the row is to be let go.
    fn step(&mut self, s: &G::Slots) -> Option<Self::Step>
        requires { stands self.old s.now }
        ensures stands { IfSome result (λ step. stands self.new s.now) }
        ensures states { IfSome result (λ step. (c : ℕ) → c < G.rules.components s.now
            → state self.new c ≡ G.rules.step s.now (map (state self.old) (G.rules.near s.now c)) c) }
        ensures still { IfSome result (λ step. (c : ℕ) → c < G.rules.components s.now → is_still step s.now c ≡ true → state self.new c ≡ state self.old c) }
        ensures kept { IfSome result (λ step. (c : ℕ) → c < G.rules.components s.now → has_written step s.now c ≡ false
            → G.codec.memory (state self.new c) ≡ G.codec.memory (state self.old c)) };

    /// Appends the words of a component one cycle later than the states near it, of which the row holds the words; the memory of its own
    /// one, or none, is handed over, and no other is asked. Told is the memory that it has one cycle later, or none where that is the
    /// same, of states of a run. The row stays as it is.
    ///
    /// # Errors
    ///
    /// Where a growth was refused. Then something may have been appended.
    fn next_words(
        &mut self,
        alloc: Global,
        s: &G::Slots,
        c: u32,
        memory: Option<&G::Memory>,
        words: &mut Vec<u64>,
    ) -> Result<Option<G::Memory>, NoMemory>
        requires stands { stands self.old s.now }
        requires component { c < G.rules.components s.now }
        ensures stands { stands self.new s.now }
        ensures states { (d : ℕ) → state self.new d ≡ state self.old d }
        ensures words { OnOk result ((xs : ℕ → G.State) → IsNear G.rules G.codec (state self.old) xs s.now c
            → G.codec.memory (xs c) ≡ option_copied memory.entry
            → words.new.items ≡ words.old.items ++ G.codec.words (G.rules.step s.now (map xs (G.rules.near s.now c)) c)) }
        ensures told { OnOk result ((xs : ℕ → G.State) → IsNear G.rules G.codec (state self.old) xs s.now c
            → G.codec.memory (xs c) ≡ option_copied memory.entry
            → IsTold G.codec (G.rules.step s.now (map xs (G.rules.near s.now c)) c)) }
        ensures memory { IfOk result (λ left. (t : ℕ) → IsNear G.rules G.codec (state self.old) (run G.rules s.now t) s.now c
            → G.codec.memory (run G.rules s.now t c) ≡ option_copied memory.entry
            → G.codec.memory (run G.rules s.now (suc t) c) ≡ option_or left (G.codec.memory (run G.rules s.now t c))) };

    /// Marks just the components that aren't known to be as they were before the step.
    fn moved(step: &Self::Step, s: &G::Slots, moved: &mut Row)
        requires { length moved.old ≡ G.rules.components s.now }
        ensures len { length moved.new ≡ length moved.old }
        ensures marks { (c : ℕ) → c < G.rules.components s.now → is_awake moved.new c ≡ not (is_still step.now s.now c) };

    /// Marks just the components that may have another memory than before the step.
    fn written(step: &Self::Step, s: &G::Slots, written: &mut Row)
        requires { length written.old ≡ G.rules.components s.now }
        ensures len { length written.new ≡ length written.old }
        ensures marks { (c : ℕ) → c < G.rules.components s.now → is_awake written.new c ≡ has_written step.now s.now c };

    /// A component's words and its memory tell its state. Nothing is done when it runs.
    fn is_told(&self, s: &G::Slots, c: u32)
        requires stands { stands self.now s.now }
        requires component { c < G.rules.components s.now }
        ensures { IsTold G.codec (state self.now c) };

    /// Appends the words of the state that it holds for a component.
    ///
    /// # Errors
    ///
    /// Where a growth was refused. Nothing was appended.
    fn words(&self, s: &G::Slots, c: u32, words: &mut Vec<u64>) -> Result<(), AllocError>
        requires stands { stands self.now s.now }
        requires component { c < G.rules.components s.now }
        ensures ok { OnOk result (words.new.items ≡ words.old.items ++ G.codec.words (state self.now c)) }
        ensures err { OnErr result (words.new.items ≡ words.old.items) };

    /// The first of these words.
    fn first_word(&self, s: &G::Slots, c: u32) -> u64
        requires stands { stands self.now s.now }
        requires component { c < G.rules.components s.now }
        ensures { result ≡ slice_index_or (G.codec.words (state self.now c)) 0 0 };

    /// Whether it has this memory for a component, or none as this.
    fn has_memory(&self, s: &G::Slots, c: u32, memory: Option<&G::Memory>) -> bool
        requires stands { stands self.now s.now }
        requires component { c < G.rules.components s.now }
        ensures { IsTrue result ↔ (G.codec.memory (state self.now c) ≡ option_map (λ held. held.now) memory.entry) };

    /// The memory that it has for a component, where that has any.
    ///
    /// # Errors
    ///
    /// Where a growth was refused.
    fn memory(&self, alloc: Global, s: &G::Slots, c: u32) -> Result<Option<G::Memory>, NoMemory>
        requires stands { stands self.now s.now }
        requires component { c < G.rules.components s.now }
        ensures { IfOk result (λ memory. memory ≡ G.codec.memory (state self.now c)) };
}
