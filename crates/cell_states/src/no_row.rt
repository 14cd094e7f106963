//! No row at all.
ghost use Rattle.std.specs.Prelude.{true};
ghost use Rattle.grid_law.specs.Codec.{IsTold};

use crate::WholeRow;
use cell_marks::Row;
use grid_law::{Grid, NoMemory};
use std::alloc::{AllocError, Global};

/// No row: each component is stepped by itself.
#[derive(Drop)]
pub struct NoRow;

impl<G: Grid> WholeRow<G> for NoRow {
    ghost use Rattle.std.specs.Prelude.{[], None, false};
    ghost use Rattle.cell_states.specs.Codes.{TellsNothing};

    type Step = ();

    ghost stands = { λ row s. TellsNothing G.codec };

    ghost state = { λ row c. G.codec.state [] None };

    ghost is_still = { λ step s c. false };

    ghost has_written = { λ step s c. true };

    fn new(alloc: Global, s: &G::Slots) -> Option<NoRow> {
        let _ = alloc;
        let _ = s;
        None
    }

    fn resume(&mut self, s: &G::Slots) -> bool {
        let _ = s;
        false
    }

    fn follow(&mut self, s: &G::Slots) {
        let _ = s;
    }

    fn load(&mut self, s: &G::Slots, c: u32, words: &[u64]) -> bool {
        let _ = s;
        let _ = c;
        let _ = words;
        false
    }

    fn load_memory(&mut self, alloc: Global, s: &G::Slots, c: u32, memory: &G::Memory) -> bool {
        let _ = alloc;
        let _ = s;
        let _ = c;
        let _ = memory;
        false
    }

    fn step(&mut self, s: &G::Slots) -> Option<()> {
        let _ = s;
        None
    }

    fn next_words(
        &mut self,
        alloc: Global,
        s: &G::Slots,
        c: u32,
        memory: Option<&G::Memory>,
        words: &mut Vec<u64>,
    ) -> Result<Option<G::Memory>, NoMemory> {
        let _ = alloc;
        let _ = s;
        let _ = c;
        let _ = memory;
        let _ = words;
        Err(NoMemory)
    }

    fn moved(step: &(), s: &G::Slots, moved: &mut Row) {
        let _ = step;
        let _ = s;
        for c in 0..moved.len() {
            moved.set(c);
        }
    }

    fn written(step: &(), s: &G::Slots, written: &mut Row) {
        let _ = step;
        let _ = s;
        for c in 0..written.len() {
            written.set(c);
        }
    }

    fn is_told(&self, s: &G::Slots, c: u32) {
        let _ = s;
        let _ = c;
    }

    fn words(&self, s: &G::Slots, c: u32, words: &mut Vec<u64>) -> Result<(), AllocError> {
        let _ = s;
        let _ = c;
        let _ = words;
        Err(AllocError)
    }

    fn first_word(&self, s: &G::Slots, c: u32) -> u64 {
        let _ = s;
        let _ = c;
        0
    }

    fn has_memory(&self, s: &G::Slots, c: u32, memory: Option<&G::Memory>) -> bool {
        let _ = s;
        let _ = c;
        memory.is_none()
    }

    fn memory(&self, alloc: Global, s: &G::Slots, c: u32) -> Result<Option<G::Memory>, NoMemory> {
        let _ = alloc;
        let _ = s;
        let _ = c;
        Err(NoMemory)
    }
}
