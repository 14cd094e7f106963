//! Offered loads: scripts in which a share of the cycles offers a reference.
ghost use Rattle.std.specs.Prelude.{◌≡◌, ◌≤◌, ◌^◌, All, IfOk, length, map};
ghost use Rattle.omega_net.specs.Wires.{below};
ghost use Rattle.page_map.specs.Limits.{max_k};
ghost use Rattle.project_book.specs.Limits.{script_entries};
ghost use Rattle.project_book.specs.Scales.{most_entries};
ghost use Rattle.experiments.specs.Loads.{scale_of};
ghost use Rattle.project_book.specs.Scripts.{AreFew, IsEntry, IsScript};
ghost use Rattle.experiments.specs.Offers.{next_offered, offered, project_offered, script_offered};

use crate::Load;
use crate::load::{project_with, script};
use grid_law::NoMemory;
use omega_net::ScriptEntry;
use project_book::{Project, Scripts};
use rand_pcg::Pcg32;
use rand_pcg::rand_core::utils::NextWord;
use std::alloc::{AllocError, Global};

/// A load that is offered at a rate.
#[derive(Clone, Copy, PartialEq, Eq, Debug)]
pub struct Offer {
    /// What is referred to, and on what machine.
    pub load: Load,
    /// In how many of a hundred cycles a processor offers a reference.
    pub rate: u32,
}

/// The stream of the first processor's offers; those of references are below it.
const OFFERS: u64 = 64;

/// What a drawn number makes of a reference: of a hundred values of it `rate` offer the reference, the others nothing, which is
/// an idle of one turn.
pub fn offered(rate: u32, number: u32, reference: ScriptEntry) -> ScriptEntry
    requires { IsEntry reference }
    ensures offered { result ≡ offered rate number reference }
    ensures entry { IsEntry result }
{
    if number % 100 < rate {
        reference
    } else {
        ScriptEntry::Idle(1)
    }
}

/// What some references are by the next numbers of a generator.
fn offered_by(
    alloc: Global,
    rate: u32,
    generator: Pcg32,
    references: &[ScriptEntry],
) -> Result<Vec<ScriptEntry>, AllocError>
    requires { All IsEntry references.now }
    ensures entries { IfOk result (λ es. All IsEntry es.items) }
    ensures count { IfOk result (λ es. length es.items ≡ length references.now) }
    ensures offered { IfOk result (λ es. es.items ≡ next_offered rate generator references.now) }
{
    let mut generator = generator;
    let mut entries = Vec::new(alloc);
    'offered: for reference in references {
        let number = generator.next_word();
        entries.push(offered(rate, number, *reference))?;
    }
    Ok(entries)
}

/// A processor's script: that of the load, but nothing in the place of each reference that isn't offered. It has as many entries,
/// of which each takes a cycle or more.
fn offered_script(alloc: Global, offer: Offer, proc: u32) -> Result<Vec<ScriptEntry>, AllocError>
    requires { offer.load.cycles ≤ script_entries }
    ensures script { IfOk result (λ es. IsScript es.items) }
    ensures few { IfOk result (λ es. length es.items ≤ most_entries (scale_of offer.load)) }
    ensures offered { IfOk result (λ es. es.items ≡ script_offered offer proc) }
{
    let generator = Pcg32::new(offer.load.seed, OFFERS + u64::from(proc));
    let references = script(alloc, offer.load, proc)?;
    offered_by(alloc, offer.rate, generator, references.as_slice())
}

/// The scripts of all processors.
fn offered_scripts(alloc: Global, offer: Offer) -> Result<Scripts, NoMemory>
    requires k { offer.load.k ≤ max_k }
    requires cycles { offer.load.cycles ≤ script_entries }
    ensures count { IfOk result (λ all. length all ≡ 2 ^ offer.load.k) }
    ensures few { IfOk result (AreFew (most_entries (scale_of offer.load))) }
    ensures offered { IfOk result (λ all. all ≡ map (script_offered offer) (below (2 ^ offer.load.k))) }
{
    let count = 1 << offer.load.k;
    let mut all = Scripts::new(alloc, count)?;
    for proc in 0..count {
        all.set(alloc, proc, offered_script(alloc, offer, proc)?)?;
    }
    Ok(all)
}

/// The project of an offered load: that of the load, but with these scripts.
/// The conditions are that there is such a machine, and that the cycles are at most [`MOST_CYCLES`](crate::MOST_CYCLES).
///
/// # Errors
///
/// Where a growth was refused. What was taken is given back.
pub fn project_offered(alloc: Global, offer: Offer) -> Result<Project, NoMemory>
    requires k { offer.load.k ≤ max_k }
    requires cycles { offer.load.cycles ≤ script_entries }
    ensures { IfOk result (λ project. project ≡ project_offered offer) }
{
    let scripts = offered_scripts(alloc, offer)?;
    project_with(alloc, offer.load, scripts)
}
