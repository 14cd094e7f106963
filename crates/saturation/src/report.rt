//! What is reported of the saturation towards a module.
ghost use Rattle.std.specs.Prelude.{◌≡◌, Some, IfOk};
ghost use Rattle.saturation.specs.Texts.{first_text, tree_text};

use arrayvec::ArrayVec;
use grid_law::NoMemory;
use project_book::STAGES;
use std::fmt;
use std::marker::Model;

/// The level of each cycle, from cycle 0 on. Contracts see the list.
#[derive(Drop)]
pub struct Levels {
    levels: Vec<u8>,
}

impl Model for Levels {
    ghost use Rattle.std.specs.Prelude.{ℕ, List};

    ghost Value = { List ℕ };

    ghost view = { λ l. l.levels.items };
}

impl Levels {
    /// The levels of this list. It takes no memory.
    pub fn from_vec(levels: Vec<u8>) -> Levels
        ensures { result ≡ levels.items }
    {
        Levels { levels }
    }

    /// The list of the levels. It takes no memory.
    pub fn into_vec(self) -> Vec<u8>
        ensures { result.items ≡ self }
    {
        let Levels { levels } = self;
        levels
    }

    pub fn as_slice(&self) -> &[u8]
        ensures { result.now ≡ self.now }
    {
        &self.levels
    }

    /// The same levels once more.
    ///
    /// # Errors
    ///
    /// Where a growth was refused. Nothing is changed.
    pub fn copied(&self) -> Result<Levels, NoMemory>
        ensures { IfOk result (λ levels. levels ≡ self.now) }
    {
        let levels = Vec::from_slice(*self.levels.allocator(), &self.levels)?;
        Ok(Levels { levels })
    }
}

/// The saturation towards a module in a run: the level of each cycle; and by level, from 1 to k, the first cycle that
/// has it or a higher one.
#[derive(Drop)]
pub struct Tree {
    pub levels: Levels,
    pub first: ArrayVec<Option<u32>, STAGES>,
}

impl Tree {
    /// The same report once more, with levels of its own.
    ///
    /// # Errors
    ///
    /// Where a growth was refused. Nothing is changed.
    pub fn copied(&self) -> Result<Tree, NoMemory>
        ensures { IfOk result (λ tree. tree ≡ self.now) }
    {
        let levels = self.levels.copied()?;
        let mut first = ArrayVec::new();
        match first.try_extend_from_slice(self.first.as_slice()) {
            Ok(()) => Ok(Tree { levels, first }),
            Err(_) => unreachable!(),
        }
    }
}

/// `first`, then each level's first cycle, or `-` where no cycle has it, after a space.
impl fmt::Display for Tree {
    ghost output = { λ tree. Some (tree_text tree) };

    fn fmt<W: fmt::Write>(&self, f: &mut fmt::Formatter<W>) -> fmt::Result {
        write!(f, "first")?;
        for first in self.first.as_slice() {
            let first = First(*first);
            write!(f, " {first}")?;
        }
        Ok(())
    }
}

/// A first cycle, if there is one.
#[derive(Clone, Copy)]
struct First(Option<u32>);

impl fmt::Display for First {
    ghost output = { λ first. Some (first_text first.0) };

    fn fmt<W: fmt::Write>(&self, f: &mut fmt::Formatter<W>) -> fmt::Result {
        match self.0 {
            Some(cycle) => write!(f, "{cycle}"),
            None => write!(f, "-"),
        }
    }
}
