//! The words of a module, shared by the states that hold the same ones.
ghost use Rattle.std.specs.Prelude.{◌≡◌, ◌↔◌, IsTrue, IfOk};
ghost use Rattle.word_ops.specs.Words.{word_after};
ghost use Rattle.mem_module.specs.Memory.{word_at, with_word};

use crate::{Stored, Words};
use grid_law::NoMemory;
use std::alloc::Global;
use std::marker::Model;
use std::sync::Arc;
use word_ops::Op;

/// Words that several states may hold at once. They are never changed: another word makes other ones.
#[derive(Debug)]
pub struct SharedWords {
    words: Arc<Words>,
}

// Not derived: whoever drops words calls this, and proves nothing of their parts anew.
impl Drop for SharedWords {
    fn drop(self) {
        let SharedWords { words } = self;
        drop(words);
    }
}

impl Model for SharedWords {
    ghost use Rattle.std.specs.Prelude.{List};
    ghost use Rattle.std.specs.Arc.{arc_value};
    ghost use Rattle.mem_module.specs.declared.words.Stored.{Stored as Row};

    ghost Value = { List Row };

    ghost view = { λ w. arc_value w.words };
}

impl SharedWords {
    /// These words, to be shared.
    ///
    /// # Errors
    ///
    /// Where the growth was refused. The words are dropped.
    pub fn new(alloc: Global, words: Words) -> Result<SharedWords, NoMemory>
        ensures { IfOk result (λ shared. shared ≡ words) }
    {
        Ok(SharedWords {
            words: Arc::new(alloc, words)?,
        })
    }

    /// The word of a row, 0 where none is kept.
    pub fn word(&self, row: u16) -> u32
        ensures { result ≡ word_at self.now row }
    {
        self.words.word(row)
    }

    /// The rows and their words, ascending.
    pub fn as_slice(&self) -> &[Stored]
        ensures { result.now ≡ self.now }
    {
        self.words.as_slice()
    }

    /// One more owner of the same words. NoMemory comes only at 2^63 - 1 owners.
    ///
    /// # Errors
    ///
    /// At 2^63 - 1 owners. Nothing is changed.
    pub fn share(&self) -> Result<SharedWords, NoMemory>
        ensures { IfOk result (λ shared. shared ≡ self.now) }
    {
        Ok(SharedWords {
            words: Arc::try_clone(&self.words)?,
        })
    }

    /// Does a fetch-and-op on a row, indivisibly: the old word, and the words with the new one. It copies them where
    /// the new word is another.
    ///
    /// # Errors
    ///
    /// Where a growth was refused. The words are as before.
    pub fn fetch_and_op(
        &self,
        alloc: Global,
        row: u16,
        op: Op,
    ) -> Result<(u32, SharedWords), NoMemory>
        ensures fetched { IfOk result (λ done. done.0 ≡ word_at self.now row) }
        ensures left { IfOk result (λ done. done.1 ≡ with_word self.now row (word_after op (word_at self.now row))) }
    {
        let old = self.words.word(row);
        let new = op.apply(old);
        if new == old {
            return Ok((old, self.share()?));
        }
        let mut words = self.words.copy(alloc)?;
        words.put(row, new)?;
        Ok((old, SharedWords::new(alloc, words)?))
    }

    /// Whether both are the same words.
    pub fn same(&self, other: &SharedWords) -> bool
        ensures { IsTrue result ↔ (self.now ≡ other.now) }
    {
        self.as_slice() == other.as_slice()
    }
}
