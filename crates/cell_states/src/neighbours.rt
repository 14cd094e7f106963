//! Which components are near which.
ghost use Rattle.std.specs.Prelude.{◌≡◌, ◌<◌, IfOk};
ghost use Rattle.cell_states.specs.Near.{near_at, AreNear};

use arrayvec::ArrayVec;
use grid_law::{Grid, NoMemory};
use std::alloc::Global;
use std::marker::Model;

/// The components near one, itself first.
#[derive(Drop)]
struct Near {
    components: ArrayVec<u32, 5>,
}

impl Model for Near {
    ghost use Rattle.std.specs.Prelude.{List, ℕ};

    ghost Value = { List ℕ };

    ghost view = { λ n. n.components.items };
}

impl Near {
    fn as_slice(&self) -> &[u32]
        ensures { result.now ≡ self.now }
    {
        self.components.as_slice()
    }
}

/// For each component, those near it, worked out once: no edit of a slot changes them.
#[derive(Drop)]
pub struct Neighbours {
    lists: Vec<Near>,
}

impl Model for Neighbours {
    ghost use Rattle.std.specs.Prelude.{List, ℕ};

    ghost Value = { List (List ℕ) };

    ghost view = { λ n. n.lists.items };
}

/// Finds for each component those near it.
fn lists_of<G: Grid>(alloc: Global, slots: &G::Slots) -> Result<Vec<Near>, NoMemory>
    ensures { IfOk result (λ lists. AreNear G.rules slots.now lists.items) }
{
    let count = G::components(slots);
    let mut lists = Vec::with_capacity(alloc, count as usize)?;
    for c in 0..count {
        let components = G::near(slots, c);
        lists.push(Near { components })?;
    }
    Ok(lists)
}

impl Neighbours {
    /// One look at each component.
    pub fn new<G: Grid>(alloc: Global, slots: &G::Slots) -> Result<Neighbours, NoMemory>
        ensures { IfOk result (λ lists. AreNear G.rules slots.now lists) }
    {
        let lists = lists_of::<G>(alloc, slots)?;
        Ok(Neighbours { lists })
    }

    /// The components near `c`.
    pub fn of(&self, c: u32) -> &[u32]
        ensures { result.now ≡ near_at self.now c }
    {
        match self.lists.get(c as usize) {
            Some(near) => near.as_slice(),
            None => &[],
        }
    }
}
