//! A project: a machine's settings, its scripts and its first words.
ghost use Rattle.std.specs.Prelude.{◌≡◌, ◌<◌, ◌≤◌, ◌^◌, ◌&&◌, ◌↔◌, IsTrue, nat_le, nat_lt, true, false, IfOk, IfSome, if◌then◌else◌, Some, None};
ghost use Rattle.page_map.specs.Limits.{address_count, max_k};
ghost use Rattle.project_book.specs.Queues.{is_depth, is_wait};
ghost use Rattle.project_book.specs.Scripts.{IsEntry};
ghost use Rattle.project_book.specs.FirstWords.{IsListing};
ghost use Rattle.project_book.specs.Limits.{max_horizon, script_entries};
ghost use Rattle.project_book.specs.Scales.{most_horizon, most_entries};
ghost use Rattle.project_book.specs.declared.scale.Scale.TheVariants.{Usual};

use crate::depths::{QueueDepths, USUAL_WAIT};
use crate::edit::Depths;
use crate::limits::{SCRIPT_ENTRIES, STAGES};
use crate::scale::Scale;
use crate::scripts::Scripts;
use crate::words::FirstWords;
use grid_law::NoMemory;
use omega_net::{ScriptEntry, Shape};
use page_map::{ADDRESSES, MAX_K, PageMap, Place};
use std::alloc::Global;
use std::marker::Model;
use std::sync::Arc;

/// A machine's settings, its scripts and its first words, each within its limits. An edited copy
/// shares with its origin what the edit leaves alone.
pub struct Project {
    pub(crate) scale: Scale,
    pub(crate) k: u32,
    pub(crate) horizon: u32,
    pub(crate) window: u32,
    pub(crate) depths: QueueDepths,
    pub(crate) wait: u32,
    pub(crate) combine: [bool; STAGES],
    pub(crate) pages: PageMap,
    pub(crate) words: Arc<FirstWords>,
    pub(crate) scripts: Arc<Scripts>,
    pub(crate) alloc: Global,
}

// Not derived: whoever drops a project calls this, and proves nothing of its parts anew.
impl Drop for Project {
    fn drop(self) {
        let Project {
            scale: _,
            k: _,
            horizon: _,
            window: _,
            depths: _,
            wait: _,
            combine: _,
            pages: _,
            words,
            scripts,
            alloc: _,
        } = self;
        drop(words);
        drop(scripts);
    }
}

impl Model for Project {
    ghost use Rattle.std.specs.Arc.{arc_value};
    ghost use Rattle.project_book.specs.Project.{Project as Settings, IsProject};

    ghost Value = { Settings };

    ghost view = { λ p. record { scale = p.scale; k = p.k; horizon = p.horizon; window = p.window; depths = p.depths; wait = p.wait; combine = p.combine; pages = p.pages; words = arc_value p.words; scripts = arc_value p.scripts } };

    ghost invariant = { λ p. IsProject (record { scale = p.scale; k = p.k; horizon = p.horizon; window = p.window; depths = p.depths; wait = p.wait; combine = p.combine; pages = p.pages; words = arc_value p.words; scripts = arc_value p.scripts }) };
}

impl Project {
    ghost use Rattle.page_map.specs.Pages.{IsPageMap};
    ghost use Rattle.project_book.specs.Project.{IsProject, blank, blank_of, entry_at, length_at, word_of, place_in, depth_of, combines_at, is_window};

    /// The project of this size that says nothing else: window 1, no combining, every depth 4 but 8
    /// in the reverse queues of combining switches, every page spread over all modules, first words
    /// of 0, and no script entries. It is of the usual scale. None exactly where k is above 6 or the horizon above 2,000.
    ///
    /// # Errors
    ///
    /// Where a growth was refused. What was taken is given back.
    pub fn new(alloc: Global, k: u32, horizon: u32) -> Result<Option<Project>, NoMemory>
        ensures refused { (nat_le k max_k && nat_le horizon (most_horizon Usual)) ≡ false → result ≡ Ok None }
        ensures made { IfOk result (λ o. o ≡ (if nat_le k max_k && nat_le horizon (most_horizon Usual) then Some (blank k horizon) else None)) }
    {
        Project::of_scale(alloc, Scale::Usual, k, horizon)
    }

    /// That of a scale: None exactly where k is above 6 or the horizon above the most that the scale allows.
    ///
    /// # Errors
    ///
    /// Where a growth was refused. What was taken is given back.
    pub fn of_scale(
        alloc: Global,
        scale: Scale,
        k: u32,
        horizon: u32,
    ) -> Result<Option<Project>, NoMemory>
        ensures refused { (nat_le k max_k && nat_le horizon (most_horizon scale)) ≡ false → result ≡ Ok None }
        ensures made { IfOk result (λ o. o ≡ (if nat_le k max_k && nat_le horizon (most_horizon scale) then Some (blank_of scale k horizon) else None)) }
    {
        if k > MAX_K || horizon > scale.most_horizon() {
            return Ok(None);
        }
        Ok(Some(Project::blank(alloc, scale, k, horizon)?))
    }

    /// The project with one processor, one module and the horizon 8 that says nothing else.
    ///
    /// # Errors
    ///
    /// Where a growth was refused. What was taken is given back.
    pub fn built_in(alloc: Global) -> Result<Project, NoMemory>
        ensures { IfOk result (λ p. p ≡ blank 0 8) }
    {
        Project::blank(alloc, Scale::Usual, 0, 8)
    }

    fn blank(alloc: Global, scale: Scale, k: u32, horizon: u32) -> Result<Project, NoMemory>
        requires small { k ≤ max_k }
        requires short { horizon ≤ most_horizon scale }
        ensures { IfOk result (λ p. p ≡ blank_of scale k horizon) }
    {
        let words = Arc::new(alloc, FirstWords::new(alloc))?;
        let scripts = Arc::new(alloc, Scripts::new(alloc, 1 << k)?)?;
        Ok(Project {
            scale,
            k,
            horizon,
            window: 1,
            depths: QueueDepths::USUAL,
            wait: USUAL_WAIT,
            combine: [false; STAGES],
            pages: PageMap::new(k),
            words,
            scripts,
            alloc,
        })
    }

    /// An equal project. Takes two more owners of what both share, and no other memory.
    ///
    /// # Errors
    ///
    /// At 2^63 - 1 owners. Nothing is changed.
    pub fn share(&self) -> Result<Project, NoMemory>
        ensures { IfOk result (λ p. p ≡ self.now) }
    {
        let words = Arc::try_clone(&self.words)?;
        let scripts = Arc::try_clone(&self.scripts)?;
        Ok(Project {
            scale: self.scale,
            k: self.k,
            horizon: self.horizon,
            window: self.window,
            depths: self.depths,
            wait: self.wait,
            combine: self.combine,
            pages: self.pages,
            words,
            scripts,
            alloc: self.alloc,
        })
    }

    /// Whether two projects are the same.
    pub fn same(&self, other: &Project) -> bool
        ensures { IsTrue result ↔ (self.now ≡ other.now) }
    {
        self.scale == other.scale
            && self.k == other.k
            && self.horizon == other.horizon
            && self.window == other.window
            && same_depths(&self.depths, &other.depths)
            && self.wait == other.wait
            && same_flags(&self.combine, &other.combine)
            && same_pages(&self.pages, &other.pages)
            && self.words.same(&other.words)
            && self.scripts.same(&other.scripts)
    }

    /// How large it may be.
    pub fn scale(&self) -> Scale
        ensures { result ≡ self.now.scale }
    {
        self.scale
    }

    /// There are 2^k processors and as many modules; k is at most 6.
    pub fn k(&self) -> u32
        ensures k { result ≡ self.now.k }
        ensures small { result ≤ max_k }
    {
        self.k
    }

    /// The machine's shape.
    pub fn shape(&self) -> Shape
        ensures { result ≡ self.now.k }
    {
        Shape::new(self.k).unwrap()
    }

    /// How many processors there are, 1 to 64.
    pub fn processors(&self) -> u32
        ensures { result ≡ 2 ^ self.now.k }
    {
        1 << self.k
    }

    /// The last cycle, at most the last that its scale allows.
    pub fn horizon(&self) -> u32
        ensures horizon { result ≡ self.now.horizon }
        ensures short { result ≤ max_horizon }
        ensures within { result ≤ most_horizon self.now.scale }
    {
        self.horizon
    }

    /// How many references of a processor may be unanswered at once, 1 to 8.
    pub fn window(&self) -> u32
        ensures window { result ≡ self.now.window }
        ensures within { is_window result ≡ true }
    {
        self.window
    }

    /// How many places some queues have, 2 to 16; 4 to 16 in reverse queues of combining switches.
    pub fn depth(&self, queue: Depths) -> u32
        ensures depth { result ≡ depth_of self.now queue }
        ensures within { is_depth queue result ≡ true }
    {
        self.depths.depth(queue)
    }

    /// How many places a wait buffer has, 1 to 16.
    pub fn wait(&self) -> u32
        ensures wait { result ≡ self.now.wait }
        ensures within { is_wait result ≡ true }
    {
        self.wait
    }

    /// Whether the combining switches of a stage combine; false where there is no such stage.
    pub fn combine(&self, stage: u32) -> bool
        ensures { result ≡ combines_at self.now stage }
    {
        stage < self.k && self.combine[stage as usize]
    }

    /// The numbers are within their limits, and each page is spread within the modules. This is so of every project, and
    /// no work is done.
    pub fn is_project(&self)
        ensures project { IsProject self.now }
        ensures pages { IsPageMap self.now.pages }
    {
        self.pages.is_page_map();
    }

    /// How the pages are spread over the modules.
    pub fn pages(&self) -> &PageMap
        ensures pages { result.now ≡ self.now.pages }
        ensures mapped { result.now.k ≡ self.now.k }
    {
        &self.pages
    }

    /// Where an address stands; None exactly from 16,384 on.
    pub fn place(&self, address: u32) -> Option<Place>
        ensures place { result ≡ (if nat_lt address address_count then Some (place_in self.now address) else None) }
        ensures within { IfSome result (λ p. (p.module < 2 ^ self.now.k) × (p.row < address_count)) }
    {
        self.pages.place(address)
    }

    /// The first words that aren't 0, by address upwards.
    pub fn words(&self) -> &FirstWords
        ensures words { result.now ≡ self.now.words }
        ensures listing { IsListing self.now.words }
    {
        self.words.is_listing();
        &self.words
    }

    /// The first word of an address, 0 from 16,384 on.
    pub fn word(&self, address: u32) -> u32
        ensures { result ≡ word_of self.now address }
    {
        if address < ADDRESSES {
            self.words.word(address)
        } else {
            0
        }
    }

    /// How many entries a processor's script has, at most as many as its scale allows; 0 where there is no such processor.
    pub fn length(&self, proc: u32) -> u32
        ensures length { result ≡ length_at self.now proc }
        ensures few { result ≤ script_entries }
        ensures within { result ≤ most_entries self.now.scale }
    {
        if proc < self.processors() {
            self.scripts.script(proc).length()
        } else {
            0
        }
    }

    /// The entry of a processor's script; None exactly where there is no such processor or entry.
    pub fn entry(&self, proc: u32, index: u32) -> Option<ScriptEntry>
        ensures entry { result ≡ entry_at self.now proc index }
        ensures within { IfSome result IsEntry }
    {
        if proc < self.processors() && index < SCRIPT_ENTRIES {
            self.scripts.script(proc).entry(index)
        } else {
            None
        }
    }
}

fn same_depths(depths: &QueueDepths, others: &QueueDepths) -> bool
    ensures { IsTrue result ↔ (depths.now ≡ others.now) }
{
    depths == others
}

fn same_flags(flags: &[bool; STAGES], others: &[bool; STAGES]) -> bool
    ensures { IsTrue result ↔ (flags.now ≡ others.now) }
{
    flags == others
}

fn same_pages(pages: &PageMap, others: &PageMap) -> bool
    ensures { IsTrue result ↔ (pages.now ≡ others.now) }
{
    pages == others
}
