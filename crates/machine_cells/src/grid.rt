//! The machine as a grid of cells.
ghost use Rattle.std.specs.Prelude.{◌≡◌, ◌<◌, ◌↔◌, IsTrue, IfOk, Some, map, option_map, length, slice_get};
ghost use Rattle.std.specs.Arc.{arc_value};
ghost use Rattle.omega_net.specs.Numbers.{components, component_of, number_of, Exists};
ghost use Rattle.grid_law.specs.Rules.{IsNext};
ghost use Rattle.machine_cells.specs.GridRules.{rp3_rules};
ghost use Rattle.machine_cells.specs.Run.{start_of};
ghost use Rattle.machine_cells.specs.Reads.{reads, SameStart};

use crate::MachineState;
use crate::agree::{agree_later, same_memory};
use crate::near::state_at;
use crate::readers::readers;
use crate::reads::{entry_turn, fixed_reads, later_reads, start_reads, words_read};
use crate::start::start_of;
use crate::step::{moved, pulled};
use crate::words::{encode, has_memory, has_words, is_state, read_state};
use arrayvec::ArrayVec;
use grid_law::{Grid, NoMemory, Reader, Turn};
use mem_module::SharedWords;
use omega_net::{Component, Shape};
use project_book::{Project, Slot};
use std::alloc::Global;
use std::sync::Arc;

/// The RP3-like machine: 2^k processors and as many memory modules, joined by a low-latency network
/// and a combining one, each an omega network of k stages of two-by-two switches, for k from 0 to 6.
///
/// Its cells are its components by number: processors, modules, then the switches of the low and of
/// the combining network. A cell reads the settings that the crate's documentation lists.
pub struct Rp3;

/// The component of a number that is below their number.
pub(crate) fn component_at(shape: Shape, c: u32) -> Component
    requires { c < components shape }
    ensures is { component_of shape c ≡ Some result }
    ensures there { Exists shape result }
    ensures number { number_of shape result ≡ c }
{
    shape.component(c).unwrap()
}

/// A component's first state.
#[inline(never)]
pub(crate) fn first_state(
    alloc: Global,
    project: &Project,
    component: Component,
) -> Result<Arc<MachineState>, NoMemory>
    ensures { IfOk result (λ state. arc_value state ≡ start_of project.now (Some component)) }
{
    let start = start_of(alloc, project, component)?;
    Ok(Arc::new(alloc, start)?)
}

impl Grid for Rp3 {
    ghost use Rattle.machine_cells.specs.GridRules.{rp3_rules};
    ghost use Rattle.machine_cells.specs.GridLaws.{rp3_laws};
    ghost use Rattle.machine_cells.specs.Codec.{rp3_codec};
    ghost use Rattle.machine_cells.specs.CodecLaws.{rp3_codec_laws};

    type State = MachineState;

    type Slots = Project;

    type Slot = Slot;

    type Memory = SharedWords;

    ghost rules = { rp3_rules };

    ghost laws = { rp3_laws };

    ghost codec = { rp3_codec };

    ghost codec_laws = { rp3_codec_laws };

    fn components(s: &Project) -> u32 {
        s.shape().components()
    }

    #[tactic(auto, using(crate::specs::laws::Grid::near_is))]
    fn near(s: &Project, c: u32) -> ArrayVec<u32, 5> {
        let shape = s.shape();
        shape.near(component_at(shape, c))
    }

    fn reads(s: &Project, near: &[Arc<MachineState>], c: u32, slot: &Slot) -> bool {
        let component = component_at(s.shape(), c);
        match (slot, near.first()) {
            (Slot::Shape, _) => true,
            (_, Some(own)) => later_reads(s, component, own, *slot),
            (_, None) => start_reads(component, *slot),
        }
    }

    fn reads_later(s: &Project, own: &MachineState, c: u32, slot: &Slot) -> bool {
        let component = component_at(s.shape(), c);
        match slot {
            Slot::Shape => true,
            _ => later_reads(s, component, own, *slot),
        }
    }

    fn always_reads(s: &Project, c: u32, slot: &Slot) -> bool {
        let component = component_at(s.shape(), c);
        match slot {
            Slot::Shape => true,
            _ => fixed_reads(s.k(), component, *slot),
        }
    }

    fn readers(alloc: Global, s: &Project, slot: &Slot) -> Result<Vec<Reader>, NoMemory> {
        readers(alloc, s, *slot)
    }

    fn start(alloc: Global, s: &Project, c: u32) -> Result<Arc<MachineState>, NoMemory> {
        first_state(alloc, s, component_at(s.shape(), c))
    }

    fn step(
        alloc: Global,
        s: &Project,
        near: &[Arc<MachineState>],
        c: u32,
    ) -> Result<Arc<MachineState>, NoMemory> {
        let shape = s.shape();
        let component = component_at(shape, c);
        match near.first() {
            Some(own) => pulled(alloc, s, shape, near, component, own),
            None => first_state(alloc, s, component),
        }
    }

    fn next(
        alloc: Global,
        s: &Project,
        near: &[&MachineState],
        c: u32,
    ) -> Result<Option<Arc<MachineState>>, NoMemory> {
        let shape = s.shape();
        let component = component_at(shape, c);
        match near.first() {
            Some(own) => moved(alloc, s, shape, near, component, own),
            None => first_state(alloc, s, component).map(|state| Some(state)),
        }
    }

    fn same(a: &MachineState, b: &MachineState) -> bool {
        a.same(b)
    }

    #[tactic(auto, using(crate::proofs::Telling::told_state))]
    fn encode(x: &MachineState, words: &mut Vec<u64>) -> Result<(), NoMemory> {
        is_state(x);
        encode(x, words)?;
        Ok(())
    }

    fn memory(x: &MachineState) -> Result<Option<SharedWords>, NoMemory> {
        match x {
            MachineState::Module(s) => Ok(Some(s.words.share()?)),
            _ => Ok(None),
        }
    }

    fn decode(
        alloc: Global,
        words: &[u64],
        memory: Option<&SharedWords>,
    ) -> Result<Arc<MachineState>, NoMemory> {
        let state = read_state(alloc, words, memory)?;
        Ok(Arc::new(alloc, state)?)
    }

    fn words_read(s: &Project, words: &[u64], c: u32, slot: &Slot) -> bool {
        let component = component_at(s.shape(), c);
        match slot {
            Slot::Shape => true,
            _ => words_read(s, component, words, *slot),
        }
    }

    fn by_words(s: &Project) {
        let _ = s;
    }

    fn has_turns(slot: &Slot) -> bool {
        matches!(slot, Slot::Entry(..))
    }

    fn turn(words: &[u64], s: &Project, c: u32, slot: &Slot) -> Turn {
        match component_at(s.shape(), c) {
            Component::Proc(proc) => entry_turn(proc, words, *slot),
            Component::Module(_) | Component::Switch { .. } => Turn::Here,
        }
    }

    fn share_memory(memory: &SharedWords) -> Result<SharedWords, NoMemory> {
        memory.share()
    }

    fn same_memory(a: &SharedWords, b: &SharedWords) -> bool {
        a.same(b)
    }

    #[tactic(auto, using(crate::proofs::Telling::told_state))]
    fn is_code(x: &MachineState, words: &[u64], memory: Option<&SharedWords>) -> bool {
        is_state(x);
        has_words(x, words) && has_memory(x, memory)
    }

    fn agree(a: &Project, b: &Project, near: &[Arc<MachineState>], c: u32) -> bool {
        if a.k() != b.k() {
            return false;
        }
        let component = component_at(a.shape(), c);
        match state_at(near, 0) {
            Some(own) => agree_later(a, b, component, own),
            None => agree_start(a, b, component),
        }
    }

    fn share(_alloc: Global, s: &Project) -> Result<Project, NoMemory> {
        s.share()
    }
}

/// Whether two projects agree in what a component reads at cycle 0, beside the shape.
fn agree_start(a: &Project, b: &Project, component: Component) -> bool
    ensures { IsTrue result ↔ SameStart a.now b.now (Some component) }
{
    match component {
        Component::Module(_) => same_memory(a, b),
        _ => true,
    }
}
