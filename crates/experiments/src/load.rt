//! Loads: scripts in which a share of the references is hot.
ghost use Rattle.std.specs.Prelude.{◌≡◌, ◌<◌, ◌≤◌, ◌^◌, IfOk, length, map};
ghost use Rattle.omega_net.specs.Wires.{below};
ghost use Rattle.page_map.specs.Limits.{max_k};
ghost use Rattle.project_book.specs.Limits.{script_entries};
ghost use Rattle.project_book.specs.Scales.{most_entries};
ghost use Rattle.project_book.specs.Scripts.{AreFew, IsScript};
ghost use Rattle.experiments.specs.Loads.{entries_of, loaded, mix_of, scale_of, script_drawn};
ghost use Rattle.drawn_scripts.specs.Draws.{IsMix};

use drawn_scripts::{Mix, references};
use grid_law::NoMemory;
use omega_net::ScriptEntry;
use page_map::PageMap;
use project_book::{
    FirstWords, MAX_WINDOW, Parts, Project, QueueDepths, SCRIPT_ENTRIES, STAGES, Scale, Scripts,
    USUAL_ENTRIES, USUAL_WAIT,
};
use rand_pcg::Pcg32;
use run_reports::HOT_ADDRESS;
use std::alloc::{AllocError, Global};

/// The page that the other references are spread over; every page is spread over all modules.
const SPREAD_PAGE: u32 = 1;

/// How many cycles a load is run where nobody says otherwise.
pub const USUAL_CYCLES: u32 = USUAL_ENTRIES;

/// How many cycles a load may be run: a processor issues one reference a cycle at most, so that its script never ends before.
pub const MOST_CYCLES: u32 = SCRIPT_ENTRIES;

/// What each processor refers to, and on what machine.
#[derive(Clone, Copy, PartialEq, Eq, Debug)]
pub struct Load {
    /// There are 2^k processors.
    pub k: u32,
    /// How many of a hundred references are hot.
    pub hot: u32,
    pub seed: u64,
    /// The horizon.
    pub cycles: u32,
    /// Whether the references go by the combining network.
    pub sync: bool,
    /// Whether its switches combine.
    pub combine: bool,
}

/// What the references of a load are: fetch-and-adds of 1 to the hot word, and loads of a word of the spread page.
fn mix_of(load: Load) -> Mix
    ensures mix { result ≡ mix_of load }
    ensures there { IsMix result }
{
    Mix {
        sync: load.sync,
        hot: load.hot,
        word: HOT_ADDRESS,
        page: SPREAD_PAGE,
    }
}

/// How many references a processor has: one for each cycle, and 256 at least.
fn entries_of(load: Load) -> u32
    ensures { result ≡ entries_of load }
{
    load.cycles.max(USUAL_ENTRIES)
}

/// The scale of a project with so many.
fn scale_of(load: Load) -> Scale
    ensures { result ≡ scale_of load }
{
    if load.cycles <= USUAL_ENTRIES {
        Scale::Usual
    } else {
        Scale::Large
    }
}

/// A processor's script: its references, drawn from the load's seed by the stream of the processor's number. Each processor
/// draws the same numbers whatever the share of the hot ones, and the same first ones however many cycles are run.
#[tactic(auto, using(crate::proofs::Draws::entries_fit))]
pub(crate) fn script(alloc: Global, load: Load, proc: u32) -> Result<Vec<ScriptEntry>, AllocError>
    requires { load.cycles ≤ script_entries }
    ensures script { IfOk result (λ es. IsScript es.items) }
    ensures few { IfOk result (λ es. length es.items ≤ most_entries (scale_of load)) }
    ensures drawn { IfOk result (λ es. es.items ≡ script_drawn load proc) }
{
    let generator = Pcg32::new(load.seed, u64::from(proc));
    references(alloc, mix_of(load), generator, entries_of(load))
}

/// The scripts of all processors.
fn scripts(alloc: Global, load: Load) -> Result<Scripts, NoMemory>
    requires k { load.k ≤ max_k }
    requires cycles { load.cycles ≤ script_entries }
    ensures count { IfOk result (λ all. length all ≡ 2 ^ load.k) }
    ensures few { IfOk result (AreFew (most_entries (scale_of load))) }
    ensures drawn { IfOk result (λ all. all ≡ map (script_drawn load) (below (2 ^ load.k))) }
{
    let count = 1 << load.k;
    let mut all = Scripts::new(alloc, count)?;
    for proc in 0..count {
        all.set(alloc, proc, script(alloc, load, proc)?)?;
    }
    Ok(all)
}

/// The project of a load: its scripts, a window of 8 references, the usual depths, every page spread over all modules, and
/// combining at each stage or none.
/// The conditions are that there is such a machine, and that the cycles are at most [`MOST_CYCLES`].
///
/// # Errors
///
/// Where a growth was refused. What was taken is given back.
pub fn project_of(alloc: Global, load: Load) -> Result<Project, NoMemory>
    requires k { load.k ≤ max_k }
    requires cycles { load.cycles ≤ script_entries }
    ensures { IfOk result (λ project. project ≡ loaded load) }
{
    let scripts = scripts(alloc, load)?;
    project_with(alloc, load, scripts)
}

/// The project of a load, but for its scripts, which are these.
pub(crate) fn project_with(alloc: Global, load: Load, scripts: Scripts) -> Result<Project, NoMemory>
    requires k { load.k ≤ max_k }
    requires cycles { load.cycles ≤ script_entries }
    requires count { length scripts ≡ 2 ^ load.k }
    requires few { AreFew (most_entries (scale_of load)) scripts }
    ensures { IfOk result (λ project. project ≡ record (loaded load) { scripts = scripts }) }
{
    let pages = PageMap::new(load.k);
    pages.is_page_map();
    let parts = Parts {
        scale: scale_of(load),
        k: load.k,
        horizon: load.cycles,
        window: MAX_WINDOW,
        depths: QueueDepths::USUAL,
        wait: USUAL_WAIT,
        combine: [load.combine; STAGES],
        pages,
        words: FirstWords::new(alloc),
        scripts,
    };
    Project::from_parts(alloc, parts)
}
