//! Where the words of a row's cells come from.
ghost use Rattle.std.specs.Prelude.{◌≡◌, ℕ, ◌/◌, ◌%◌, ◌++◌, true, false, slice_index_or, MatchResult};
ghost use Rattle.change_rows.specs.Marks.{is_one};

use std::alloc::AllocError;

/// Who has the words of cells of one row. It may have them in a form of its own, and writes them where they are wanted.
pub trait Source {
    ghost use Rattle.std.specs.Prelude.{ℕ, Bool, List};

    /// For which components it may be asked.
    ghost has: { Self → ℕ → Type 0 };

    /// The words of a component.
    ghost words: { Self → ℕ → List ℕ };

    /// Whether a component is known to hold what it holds a cycle before.
    ghost still: { Self → ℕ → Bool };

    /// Of the 64 components of a word those that aren't known to be still. Each of which the bit is 0 is still.
    fn moved(&self, w: usize) -> u64
        ensures { (c : ℕ) → c / 64 ≡ w → is_one result (c % 64) ≡ false → still self.now c ≡ true };

    /// The first of a component's words; 0 where there are none.
    fn first(&self, c: u32) -> u64
        requires { has self.now c }
        ensures { result ≡ slice_index_or (words self.now c) 0 0 };

    /// Appends a component's words.
    ///
    /// # Errors
    ///
    /// Where a growth was refused. The buffer is as before.
    fn write(&self, c: u32, buffer: &mut Vec<u64>) -> Result<(), AllocError>
        requires { has self.now c }
        ensures { MatchResult result
            (λ _. buffer.new.items ≡ buffer.old.items ++ words self.now c)
            (λ _. buffer.new.items ≡ buffer.old.items) };
}
