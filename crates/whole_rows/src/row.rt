//! The machine's row beside the cells of a table.
ghost use Rattle.std.specs.Prelude.{◌≡◌, ◌<◌, ◌↔◌, ℕ, IsTrue, IfOk, IfSome, Some, option_map, slice_get, true};
ghost use Rattle.omega_net.specs.declared.component.Component.TheVariants.{Module as ModuleAt};
ghost use Rattle.omega_net.specs.Numbers.{components, component_of, number_of, lines, Exists};
ghost use Rattle.machine_cells.specs.Codec.{memory_in};
ghost use Rattle.flat_row.specs.Row.{state_of};
ghost use Rattle.flat_row.specs.Loading.{OnlyState};
ghost use Rattle.machine_cells.specs.Words.{with_memory};

use crate::memory::{is_ascending, left_in};
use crate::moved::{mark_moved, mark_written};
use crate::words::{are_of_a_state, can_hold};
use cell_marks::Row as Marks;
use cell_states::WholeRow;
use flat_row::{Beside, Changed, Row};
use grid_law::NoMemory;
use machine_cells::Rp3;
use mem_module::{SharedWords, Stored};
use omega_net::{Component, Shape};
use project_book::Project;
use std::alloc::{AllocError, Global};
use std::marker::Model;

/// The states of all cells of a machine at a cycle, by levels of queues and sets of labels.
#[derive(Drop)]
pub struct MachineRow {
    row: Row,
    shape: Shape,
    /// All components.
    by_number: Vec<Component>,
    /// What a step of one component takes beside the row. Between two calls it means nothing.
    beside: Beside,
}

impl Model for MachineRow {
    ghost use Rattle.std.specs.Prelude.{ℕ, ◌≡◌, ◌<◌, slice_get};
    ghost use Rattle.omega_net.specs.Numbers.{components, component_of};
    ghost use Rattle.flat_row.specs.Row.{Arrays};

    ghost Value = { Arrays };

    ghost view = { λ r. r.row };

    ghost invariant = { λ r. (r.row.k ≡ r.shape) × ((c : ℕ) → c < components r.shape → slice_get r.by_number.items c ≡ component_of r.shape c) };
}

impl MachineRow {
    /// The component of a number that is below their number.
    #[inline(always)]
    fn component(&self, c: u32) -> Component
        requires { c < components self.now.k }
        ensures is { component_of self.now.k c ≡ Some result }
        ensures there { Exists self.now.k result }
        ensures number { number_of self.now.k result ≡ c }
    {
        self.by_number[c as usize]
    }
}

/// All components, by number.
fn all_components(alloc: Global, shape: Shape) -> Option<Vec<Component>>
    ensures { IfSome result (λ all. (c : ℕ) → c < components shape → slice_get all.items c ≡ component_of shape c) }
{
    let mut all = Vec::new(alloc);
    for c in 0..shape.components() {
        match all.push(component_at(shape, c)) {
            Ok(()) => {}
            Err(_) => return None,
        }
    }
    Some(all)
}

impl WholeRow<Rp3> for MachineRow {
    ghost use Rattle.flat_row.specs.Row.{IsRowOf};
    ghost use Rattle.whole_rows.specs.Rows.{state_in, is_still, has_written};

    type Step = Changed;

    ghost stands = { λ row P. IsRowOf P row };

    ghost state = { state_in };

    ghost is_still = { is_still };

    ghost has_written = { has_written };

    fn new(alloc: Global, s: &Project) -> Option<MachineRow> {
        let Ok(beside) = Beside::new(alloc) else {
            return None;
        };
        let Some(by_number) = all_components(alloc, s.shape()) else {
            return None;
        };
        match Row::start(alloc, s) {
            Ok(row) => Some(MachineRow {
                row,
                shape: s.shape(),
                by_number,
                beside,
            }),
            Err(_) => None,
        }
    }

    fn resume(&mut self, s: &Project) -> bool {
        if self.shape.k() != s.shape().k() {
            return false;
        }
        self.row.follow(s);
        true
    }

    fn follow(&mut self, s: &Project) {
        self.row.follow(s);
    }

    fn load(&mut self, s: &Project, c: u32, words: &[u64]) -> bool {
        let _ = s;
        let component = self.component(c);
        if !can_hold(component, words) {
            return false;
        }
        are_of_a_state(words);
        self.row.load(component, words);
        true
    }

    fn load_memory(&mut self, alloc: Global, s: &Project, c: u32, memory: &SharedWords) -> bool {
        let _ = s;
        match self.component(c) {
            Component::Module(m) => {
                put_memory(&mut self.row, alloc, u32::from(m), memory.as_slice())
            }
            Component::Proc(_) | Component::Switch { .. } => false,
        }
    }

    fn step(&mut self, s: &Project) -> Option<Changed> {
        let Ok(changed) = self.row.step(s) else {
            return None;
        };
        Some(changed)
    }

    fn next_words(
        &mut self,
        alloc: Global,
        s: &Project,
        c: u32,
        memory: Option<&SharedWords>,
        words: &mut Vec<u64>,
    ) -> Result<Option<SharedWords>, NoMemory> {
        let component = self.component(c);
        let beside = &mut self.beside;
        let Ok(left) = self.row.next_words(s, component, memory, beside, words) else {
            return Err(NoMemory);
        };
        left_in(alloc, memory, left)
    }

    fn moved(step: &Changed, s: &Project, moved: &mut Marks) {
        mark_moved(step, s.shape(), moved);
    }

    fn written(step: &Changed, s: &Project, written: &mut Marks) {
        mark_written(step, s.shape(), written);
    }

    fn is_told(&self, s: &Project, c: u32) {
        let _ = s;
        self.row.is_told(self.component(c));
    }

    fn words(&self, s: &Project, c: u32, words: &mut Vec<u64>) -> Result<(), AllocError> {
        let _ = s;
        self.row.words(self.component(c), words)
    }

    fn first_word(&self, s: &Project, c: u32) -> u64 {
        let _ = s;
        self.row.first_word(self.component(c))
    }

    fn has_memory(&self, s: &Project, c: u32, memory: Option<&SharedWords>) -> bool {
        let _ = s;
        is_memory(&self.row, self.component(c), memory)
    }

    fn memory(&self, alloc: Global, s: &Project, c: u32) -> Result<Option<SharedWords>, NoMemory> {
        let _ = s;
        memory_at(&self.row, alloc, self.component(c))
    }
}

/// The component of a number that is below their number.
fn component_at(shape: Shape, c: u32) -> Component
    requires { c < components shape }
    ensures is { component_of shape c ≡ Some result }
    ensures there { Exists shape result }
    ensures number { number_of shape result ≡ c }
{
    shape.component(c).unwrap()
}

/// Whether this is a component's memory; where it is no module, it has none.
fn is_memory(row: &Row, component: Component, memory: Option<&SharedWords>) -> bool
    requires { Exists row.now.k component }
    ensures { IsTrue result ↔ (memory_in (state_of row.now (Some component)) ≡ option_map (λ held. held.now) memory.entry) }
{
    match (component, memory) {
        (Component::Module(m), Some(memory)) => row.has_memory(u32::from(m), memory.as_slice()),
        (Component::Module(_), None) => false,
        (Component::Proc(_) | Component::Switch { .. }, memory) => memory.is_none(),
    }
}

/// A component's memory, where it is a module.
fn memory_at(
    row: &Row,
    alloc: Global,
    component: Component,
) -> Result<Option<SharedWords>, NoMemory>
    requires { Exists row.now.k component }
    ensures { IfOk result (λ memory. memory ≡ memory_in (state_of row.now (Some component))) }
{
    match component {
        Component::Module(m) => Ok(Some(row.memory_words(alloc, u32::from(m))?)),
        Component::Proc(_) | Component::Switch { .. } => Ok(None),
    }
}

/// Puts words of memory in the place of a module's, if they are others. It answers false where they aren't in the order of their rows, or
/// a growth was refused.
fn put_memory(row: &mut Row, alloc: Global, m: u32, words: &[Stored]) -> bool
    requires { m < lines row.old.k }
    ensures loaded { result ≡ true → state_of row.new (Some (ModuleAt m)) ≡ with_memory words.now (state_of row.old (Some (ModuleAt m))) }
    ensures only { OnlyState (ModuleAt m) row.old row.new }
{
    if row.has_memory(m, words) {
        return true;
    }
    is_ascending(words) && row.load_memory(alloc, m, words).is_ok()
}
