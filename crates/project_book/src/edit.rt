//! Edits of a project, and the settings that they change.
ghost use Rattle.std.specs.Prelude.{◌≡◌};
ghost use Rattle.project_book.specs.Queues.{forward_queue, least_depth, is_depth, is_wait};
ghost use Rattle.project_book.specs.Project.{is_window};
ghost use Rattle.project_book.specs.Scripts.{is_addressed, is_timed, are_times};
ghost use Rattle.project_book.specs.Edits.{slot_of};

use crate::limits::{MAX_DEPTH, MAX_TIMES, MAX_WINDOW, MIN_COMB_REVERSE, MIN_DEPTH, MIN_WAIT};
use crate::slot::Slot;
use omega_net::{Net, ScriptEntry};
use page_map::ADDRESSES;

/// Which queues share one depth: those of all switches of a network in one direction, or the four
/// queues of every module.
#[derive(Clone, Copy, PartialEq, Eq, Debug)]
pub enum Depths {
    LowForward,
    LowReverse,
    CombForward,
    CombReverse,
    ModuleQueue,
}

impl Depths {
    /// The forward queues of a network's switches.
    pub fn forward(net: Net) -> Depths
        ensures { result ≡ forward_queue net }
    {
        match net {
            Net::Low => Depths::LowForward,
            Net::Comb => Depths::CombForward,
        }
    }

    /// How many places these queues have at least.
    pub fn least(self) -> u32
        ensures { result ≡ least_depth self }
    {
        match self {
            Depths::CombReverse => MIN_COMB_REVERSE,
            _ => MIN_DEPTH,
        }
    }

    /// Whether these queues may be of a depth.
    pub fn allows(self, depth: u32) -> bool
        ensures { result ≡ is_depth self depth }
    {
        (self.least()..=MAX_DEPTH).contains(&depth)
    }
}

/// A change of one setting. The numbers may be any: what is out of a project's limits is refused.
#[derive(Clone, Copy, PartialEq, Eq, Debug)]
pub enum Edit {
    /// Replaces the entry at `index` of a processor's script, or appends where `index` is its length.
    Entry {
        proc: u32,
        index: u32,
        entry: ScriptEntry,
    },
    /// Keeps the first `length` entries of a processor's script.
    Cut {
        proc: u32,
        length: u32,
    },
    /// Sets the word that an address holds at cycle 0.
    Word {
        address: u32,
        word: u32,
    },
    /// Spreads a page over 2^amount modules from the base on. Its first words move with it.
    Page {
        page: u32,
        amount: u32,
        base: u32,
    },
    /// Sets the depth of queues.
    Depth {
        queue: Depths,
        depth: u32,
    },
    /// Sets the depth of the wait buffers.
    WaitDepth(u32),
    /// Switches combining on or off in the combining switches of a stage.
    Combine {
        stage: u32,
        on: bool,
    },
    /// Sets how many references of a processor may be unanswered.
    Window(u32),
    /// Sets the last cycle.
    Horizon(u32),
}

impl Edit {
    /// The slot that an edit names. None for a cut, which may change many, and for the horizon.
    pub fn slot(self) -> Option<Slot>
        ensures { result ≡ slot_of self }
    {
        match self {
            Edit::Entry { proc, index, .. } => Some(Slot::Entry(proc, index)),
            Edit::Word { address, .. } => Some(Slot::Word(address)),
            Edit::Page { page, .. } => Some(Slot::Page(page)),
            Edit::Depth { queue, .. } => Some(Slot::Depth(queue)),
            Edit::WaitDepth(_) => Some(Slot::Wait),
            Edit::Combine { stage, .. } => Some(Slot::Combine(stage)),
            Edit::Window(_) => Some(Slot::Window),
            Edit::Cut { .. } | Edit::Horizon(_) => None,
        }
    }
}

/// Whether wait buffers may have a depth.
pub fn is_wait(depth: u32) -> bool
    ensures { result ≡ is_wait depth }
{
    (MIN_WAIT..=MAX_DEPTH).contains(&depth)
}

/// Whether processors may have a window.
pub fn is_window(window: u32) -> bool
    ensures { result ≡ is_window window }
{
    (1..=MAX_WINDOW).contains(&window)
}

/// Whether the address that an entry names is there, if it names one.
pub fn is_addressed(entry: ScriptEntry) -> bool
    ensures { result ≡ is_addressed entry }
{
    match entry {
        ScriptEntry::Reference { address, .. } | ScriptEntry::Until { address, .. } => address
            < ADDRESSES,
        ScriptEntry::Fence | ScriptEntry::Idle(_) => true,
    }
}

/// Whether a reference may be issued as often as an entry says, or an idle last as long.
pub fn is_timed(entry: ScriptEntry) -> bool
    ensures { result ≡ is_timed entry }
{
    match entry {
        ScriptEntry::Reference { times, .. } | ScriptEntry::Until { times, .. } => are_times(times),
        ScriptEntry::Idle(turns) => are_times(turns),
        ScriptEntry::Fence => true,
    }
}

/// Whether a reference may be issued so often, or an idle last so long.
pub fn are_times(times: u32) -> bool
    ensures { result ≡ are_times times }
{
    (1..=MAX_TIMES).contains(&times)
}
