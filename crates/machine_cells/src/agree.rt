//! Whether two projects agree in what a cell reads.
ghost use Rattle.std.specs.Prelude.{◌≡◌, ◌↔◌, ◌<◌, ℕ, IsTrue, ◌∷◌, Some};
ghost use Rattle.project_book.specs.declared.slot.Slot.TheVariants.{Depth, Wait, Combine};
ghost use Rattle.project_book.specs.declared.edit.Depths.TheVariants.{LowForward, LowReverse, CombForward, CombReverse, ModuleQueue};
ghost use Rattle.page_map.specs.Limits.{address_count, page_count};
ghost use Rattle.project_book.specs.Project.{page_of, word_of};
ghost use Rattle.machine_cells.specs.Reads.{SameAtAll, SameMemory, index_reads, entry_reads, out_reads, last_reads, back_reads, fixed_reads, later_reads};

use crate::MachineState;
use omega_net::{Component, Net, ScriptEntry};
use page_map::{PAGE_WORDS, PAGES};
use project_book::{Depths, Project, SCRIPT_ENTRIES, Slot};
use ref_proc::{Outgoing, ProcState};

/// Whether two projects have the same pages and first words.
pub(crate) fn same_memory(a: &Project, b: &Project) -> bool
    ensures { IsTrue result ↔ SameMemory a.now b.now }
{
    same_pages(a, b) && same_words(a, b)
}

fn same_pages(a: &Project, b: &Project) -> bool
    ensures { IsTrue result ↔ ((g : ℕ) → g < page_count → page_of a.now g ≡ page_of b.now g) }
{
    for page in 0..PAGES {
        if !a.same_at(b, Slot::Page(page)) {
            return false;
        }
    }
    true
}

fn same_words(a: &Project, b: &Project) -> bool
    ensures { IsTrue result ↔ ((w : ℕ) → w < address_count → word_of a.now w ≡ word_of b.now w) }
{
    a.words().same(b.words())
}

/// Whether two projects agree in what a component reads after cycle 0, beside the shape, where its own
/// state one cycle earlier was this.
pub(crate) fn agree_later(
    a: &Project,
    b: &Project,
    component: Component,
    own: &MachineState,
) -> bool
    ensures { IsTrue result ↔ SameAtAll a.now b.now (later_reads a.now (Some component) own.now) }
{
    match (component, own) {
        (Component::Proc(proc), MachineState::Proc(s)) => agree_proc(a, b, proc, s),
        _ => agree_fixed(a, b, component),
    }
}

/// Whether they agree in what a component reads whatever its state is.
fn agree_fixed(a: &Project, b: &Project, component: Component) -> bool
    ensures { IsTrue result ↔ SameAtAll a.now b.now (fixed_reads a.now.k (Some component)) }
{
    match component {
        Component::Proc(_) => true,
        Component::Module(_) => agree_module(a, b),
        Component::Switch {
            net: Net::Low,
            stage,
            ..
        } => agree_low(a, b, stage),
        Component::Switch {
            net: Net::Comb,
            stage,
            ..
        } => agree_comb(a, b, stage),
    }
}

fn agree_proc(a: &Project, b: &Project, proc: u8, own: &ProcState) -> bool
    ensures { IsTrue result ↔ SameAtAll a.now b.now (later_reads a.now (Some (Component.Proc proc)) (MachineState.Proc own.now)) }
{
    let entry = a.entry(u32::from(proc), u32::from(own.index));
    agree_index(a, b, proc, own.index) && agree_entry(a, b, entry) && agree_out(a, b, &own.out)
}

fn agree_index(a: &Project, b: &Project, proc: u8, index: u16) -> bool
    ensures { IsTrue result ↔ SameAtAll a.now b.now (index_reads proc index) }
{
    u32::from(index) >= SCRIPT_ENTRIES
        || a.same_at(b, Slot::Entry(u32::from(proc), u32::from(index)))
}

fn agree_entry(a: &Project, b: &Project, entry: Option<ScriptEntry>) -> bool
    ensures { IsTrue result ↔ SameAtAll a.now b.now (entry_reads entry) }
{
    match entry {
        Some(ScriptEntry::Reference { address, .. } | ScriptEntry::Until { address, .. }) => {
            a.same_at(b, Slot::Window) && a.same_at(b, Slot::Page(address / PAGE_WORDS))
        }
        _ => true,
    }
}

fn agree_out(a: &Project, b: &Project, out: &Option<Outgoing>) -> bool
    ensures { IsTrue result ↔ SameAtAll a.now b.now (out_reads a.now.k out.now) }
{
    match out {
        None => true,
        Some(_) if a.k() == 0 => a.same_at(b, Slot::Depth(Depths::ModuleQueue)),
        Some(held) => a.same_at(b, Slot::Depth(Depths::forward(held.net))),
    }
}

fn agree_module(a: &Project, b: &Project) -> bool
    ensures { IsTrue result ↔ SameAtAll a.now b.now (Depth ModuleQueue ∷ back_reads a.now.k) }
{
    a.same_at(b, Slot::Depth(Depths::ModuleQueue)) && agree_back(a, b)
}

fn agree_back(a: &Project, b: &Project) -> bool
    ensures { IsTrue result ↔ SameAtAll a.now b.now (back_reads a.now.k) }
{
    a.k() == 0
        || (a.same_at(b, Slot::Depth(Depths::LowReverse))
            && a.same_at(b, Slot::Depth(Depths::CombReverse)))
}

fn agree_low(a: &Project, b: &Project, stage: u8) -> bool
    ensures { IsTrue result ↔ SameAtAll a.now b.now (Depth LowForward ∷ Depth LowReverse ∷ last_reads a.now.k stage) }
{
    a.same_at(b, Slot::Depth(Depths::LowForward))
        && a.same_at(b, Slot::Depth(Depths::LowReverse))
        && agree_last(a, b, stage)
}

fn agree_comb(a: &Project, b: &Project, stage: u8) -> bool
    ensures { IsTrue result ↔ SameAtAll a.now b.now (Depth CombForward ∷ Depth CombReverse ∷ Wait ∷ Combine stage ∷ last_reads a.now.k stage) }
{
    a.same_at(b, Slot::Depth(Depths::CombForward))
        && a.same_at(b, Slot::Depth(Depths::CombReverse))
        && a.same_at(b, Slot::Wait)
        && a.same_at(b, Slot::Combine(u32::from(stage)))
        && agree_last(a, b, stage)
}

fn agree_last(a: &Project, b: &Project, stage: u8) -> bool
    ensures { IsTrue result ↔ SameAtAll a.now b.now (last_reads a.now.k stage) }
{
    u32::from(stage) + 1 != a.k() || a.same_at(b, Slot::Depth(Depths::ModuleQueue))
}
