//! What a cell reads of its project.
ghost use Rattle.std.specs.Prelude.{◌≡◌, ◌<◌, ◌∷◌, Some, List};
ghost use Rattle.mem_module.specs.declared.words.Stored.{Stored};
ghost use Rattle.project_book.specs.declared.slot.Slot.TheVariants.{Depth, Wait, Combine};
ghost use Rattle.project_book.specs.declared.edit.Depths.TheVariants.{LowForward, LowReverse, CombForward, CombReverse, ModuleQueue};
ghost use Rattle.state_words.specs.Reading.{proc_from};
ghost use Rattle.machine_cells.specs.Words.{state_from};
ghost use Rattle.grid_law.specs.declared.turn.Turn.TheVariants.{Ahead, Passed};
ghost use Rattle.machine_cells.specs.Turns.{IsAhead, IsPassed};
ghost use Rattle.machine_cells.specs.Reads.{is_listed, index_reads, entry_reads, out_reads, last_reads, back_reads, fixed_reads, later_reads, start_reads, later_may_read, proc_may_read};

use crate::MachineState;
use grid_law::Turn;
use omega_net::{Component, Net, ScriptEntry};
use page_map::{ADDRESSES, PAGE_WORDS, PAGES};
use project_book::{Depths, Project, SCRIPT_ENTRIES, Slot};
use ref_proc::{Outgoing, ProcState};
use state_words::{index_in, read_proc, shows_in, split_first};

/// Whether a component reads a slot at cycle 0, beside the shape: a module all first words and pages.
pub(crate) fn start_reads(component: Component, slot: Slot) -> bool
    ensures { result ≡ start_reads (Some component) slot }
{
    match (component, slot) {
        (Component::Module(_), Slot::Word(address)) => address < ADDRESSES,
        (Component::Module(_), Slot::Page(page)) => page < PAGES,
        _ => false,
    }
}

/// Whether a component reads a slot after cycle 0, beside the shape, where its own state one cycle
/// earlier was this.
pub(crate) fn later_reads(
    project: &Project,
    component: Component,
    own: &MachineState,
    slot: Slot,
) -> bool
    ensures { result ≡ is_listed (later_reads project.now (Some component) own.now) slot }
{
    match (component, own) {
        (Component::Proc(proc), MachineState::Proc(s)) => proc_reads(project, proc, s, slot),
        _ => fixed_reads(project.k(), component, slot),
    }
}

/// The same, where its own state has these words. Only a processor's are looked at: what others read doesn't hang on their states.
pub(crate) fn words_read(project: &Project, component: Component, words: &[u64], slot: Slot) -> bool
    ensures { (memory : List Stored) → result ≡ is_listed (later_reads project.now (Some component) (state_from words.now memory)) slot }
{
    match component {
        Component::Proc(proc) => proc_words_read(project, proc, words, slot),
        _ => fixed_reads(project.k(), component, slot),
    }
}

/// Whether a processor whose state has these words does.
fn proc_words_read(project: &Project, proc: u8, words: &[u64], slot: Slot) -> bool
    ensures { (memory : List Stored) → result ≡ is_listed (later_reads project.now (Some (Component.Proc proc)) (state_from words.now memory)) slot }
{
    let (head, body) = split_first(words);
    if head % 4 != 0 {
        return false;
    }
    let index = index_in(head);
    match slot {
        // By the index alone, so the rest of the state isn't read out of the words.
        Slot::Entry(..) => index_reads(proc, index, slot),
        Slot::Page(_) | Slot::Window => {
            entry_reads(project.entry(u32::from(proc), u32::from(index)), slot)
        }
        // Where nothing waits to leave, it reads the depth of no queue.
        Slot::Depth(_) if !shows_in(head) => false,
        _ => read_reads(project, proc, head, body, slot),
    }
}

/// Whether a processor does that is read out of its words.
#[inline(never)]
fn read_reads(project: &Project, proc: u8, head: u64, body: &[u64], slot: Slot) -> bool
    ensures { result ≡ is_listed (later_reads project.now (Some (Component.Proc proc)) (MachineState.Proc (proc_from head body.now))) slot }
{
    proc_reads(project, proc, &read_proc(head, body), slot)
}

/// Where along a run the entry of a slot stands for a processor whose state has these words: its index never falls.
pub(crate) fn entry_turn(proc: u8, words: &[u64], slot: Slot) -> Turn
    ensures ahead { result ≡ Ahead → IsAhead proc words.now slot }
    ensures passed { result ≡ Passed → IsPassed proc words.now slot }
{
    let (head, _) = split_first(words);
    match slot {
        Slot::Entry(p, i) if p == u32::from(proc) && head % 4 == 0 => {
            let index = u32::from(index_in(head));
            if index < i {
                Turn::Ahead
            } else if index > i {
                Turn::Passed
            } else {
                Turn::Here
            }
        }
        _ => Turn::Here,
    }
}

/// Whether a component reads a slot after cycle 0, beside the shape, whatever its state is: no processor is sure to.
pub(crate) fn fixed_reads(k: u32, component: Component, slot: Slot) -> bool
    ensures { result ≡ is_listed (fixed_reads k (Some component)) slot }
{
    match component {
        Component::Proc(_) => false,
        Component::Module(_) => module_reads(k, slot),
        Component::Switch {
            net: Net::Low,
            stage,
            ..
        } => low_reads(k, stage, slot),
        Component::Switch {
            net: Net::Comb,
            stage,
            ..
        } => comb_reads(k, stage, slot),
    }
}

/// Whether a component may read a slot after cycle 0, beside the shape, whatever its state is.
pub(crate) fn later_may_read(k: u32, component: Component, slot: Slot) -> bool
    ensures { result ≡ later_may_read k (Some component) slot }
{
    match component {
        Component::Proc(proc) => proc_may_read(k, proc, slot),
        _ => fixed_reads(k, component, slot),
    }
}

/// Whether a processor may: its script, every page, the window, the depths of the queues that its
/// requests enter.
fn proc_may_read(k: u32, proc: u8, slot: Slot) -> bool
    ensures { result ≡ proc_may_read k proc slot }
{
    match slot {
        Slot::Entry(p, _) => p == u32::from(proc),
        Slot::Page(_) | Slot::Window => true,
        Slot::Depth(Depths::ModuleQueue) => k == 0,
        Slot::Depth(Depths::LowForward | Depths::CombForward) => k > 0,
        _ => false,
    }
}

#[tactic(auto, using(crate::proofs::Entries::by_index))]
fn proc_reads(project: &Project, proc: u8, own: &ProcState, slot: Slot) -> bool
    ensures { result ≡ is_listed (later_reads project.now (Some (Component.Proc proc)) (MachineState.Proc own.now)) slot }
{
    if index_reads(proc, own.index, slot) {
        return true;
    }
    match slot {
        // By the index alone, so what stands there isn't looked up.
        Slot::Entry(..) => false,
        _ => {
            entry_reads(project.entry(u32::from(proc), u32::from(own.index)), slot)
                || out_reads(project.k(), &own.out, slot)
        }
    }
}

/// The entry at the processor's index, where there can be one.
fn index_reads(proc: u8, index: u16, slot: Slot) -> bool
    ensures { result ≡ is_listed (index_reads proc index) slot }
{
    match slot {
        Slot::Entry(p, i) => {
            u32::from(index) < SCRIPT_ENTRIES && p == u32::from(proc) && i == u32::from(index)
        }
        _ => false,
    }
}

/// Where that is a reference or an `until`, the window and the page of its address.
fn entry_reads(entry: Option<ScriptEntry>, slot: Slot) -> bool
    ensures { result ≡ is_listed (entry_reads entry) slot }
{
    match (entry, slot) {
        (Some(ScriptEntry::Reference { .. }), Slot::Window) => true,
        (Some(ScriptEntry::Until { .. }), Slot::Window) => true,
        (Some(ScriptEntry::Reference { address, .. }), Slot::Page(page)) => {
            page == address / PAGE_WORDS
        }
        (Some(ScriptEntry::Until { address, .. }), Slot::Page(page)) => {
            page == address / PAGE_WORDS
        }
        _ => false,
    }
}

/// Where a request waits to leave, the depth of the queue that it would enter.
fn out_reads(k: u32, out: &Option<Outgoing>, slot: Slot) -> bool
    ensures { result ≡ is_listed (out_reads k out.now) slot }
{
    match (out, slot) {
        (Some(_), Slot::Depth(queue)) if k == 0 => queue == Depths::ModuleQueue,
        (Some(held), Slot::Depth(queue)) => queue == Depths::forward(held.net),
        _ => false,
    }
}

/// The depth of the modules' queues; where there are switches, those of their reverse queues.
fn module_reads(k: u32, slot: Slot) -> bool
    ensures { result ≡ is_listed (Depth ModuleQueue ∷ back_reads k) slot }
{
    match slot {
        Slot::Depth(Depths::ModuleQueue) => true,
        Slot::Depth(Depths::LowReverse | Depths::CombReverse) => k > 0,
        _ => false,
    }
}

/// The depths of the low network; at the last stage, that of the modules' queues.
fn low_reads(k: u32, stage: u8, slot: Slot) -> bool
    ensures { result ≡ is_listed (Depth LowForward ∷ Depth LowReverse ∷ last_reads k stage) slot }
{
    match slot {
        Slot::Depth(Depths::LowForward | Depths::LowReverse) => true,
        Slot::Depth(Depths::ModuleQueue) => u32::from(stage) + 1 == k,
        _ => false,
    }
}

/// The depths of the combining network, that of the wait buffers, and whether the stage combines; at
/// the last stage, the depth of the modules' queues.
fn comb_reads(k: u32, stage: u8, slot: Slot) -> bool
    ensures { result ≡ is_listed (Depth CombForward ∷ Depth CombReverse ∷ Wait ∷ Combine stage ∷ last_reads k stage) slot }
{
    match slot {
        Slot::Depth(Depths::CombForward | Depths::CombReverse) | Slot::Wait => true,
        Slot::Combine(s) => s == u32::from(stage),
        Slot::Depth(Depths::ModuleQueue) => u32::from(stage) + 1 == k,
        _ => false,
    }
}
