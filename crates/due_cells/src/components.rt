//! Lists of components.
ghost use Rattle.std.specs.Prelude.{◌≡◌, OnOk, [], ◌∷◌, ◌++◌};

use grid_law::NoMemory;
use std::alloc::Global;
use std::marker::Model;

/// The numbers of some components.
#[derive(Drop)]
pub(crate) struct Components {
    numbers: Vec<u32>,
}

impl Model for Components {
    ghost use Rattle.std.specs.Prelude.{List, ℕ};

    ghost Value = { List ℕ };

    ghost view = { λ l. l.numbers.items };
}

impl Components {
    pub fn new(alloc: Global) -> Components
        ensures { result ≡ [] }
    {
        Components {
            numbers: Vec::new(alloc),
        }
    }

    pub fn push(&mut self, c: u32) -> Result<(), NoMemory>
        ensures { OnOk result (self.new ≡ self.old ++ c ∷ []) }
    {
        self.numbers.push(c)?;
        Ok(())
    }

    pub fn as_slice(&self) -> &[u32]
        ensures { result.now ≡ self.now }
    {
        self.numbers.as_slice()
    }
}
