//! The limits of a project, beside those of its page map.
ghost use Rattle.std.specs.Prelude.{◌≡◌};
ghost use Rattle.page_map.specs.Limits.{max_k};
ghost use Rattle.project_book.specs.Limits.{max_horizon, usual_horizon, script_entries, usual_entries, max_times, usual_tries, max_window, min_depth, min_comb_reverse, min_wait, max_depth, max_edits};

use page_map::MAX_K;

/// How many stages a network has at most.
pub const STAGES: usize = MAX_K as usize;

/// The last cycle that a horizon may name in a large project, and so in any.
pub const MAX_HORIZON: u32 = 20_000;

/// The last cycle that a horizon may name in a project of the usual scale.
pub const USUAL_HORIZON: u32 = 2_000;

/// How many entries a script may have in a large project, and so in any.
pub const SCRIPT_ENTRIES: u32 = 4_096;

/// How many entries a script may have in a project of the usual scale.
pub const USUAL_ENTRIES: u32 = 256;

/// How often a reference may be issued, and how long an idle may last, each from 1 on.
pub const MAX_TIMES: u32 = 1_000;

/// How often an entry that waits for a word is issued at most, where its text doesn't say.
pub const USUAL_TRIES: u32 = 1_000;

/// How many references of a processor may be unanswered at once, from 1 on.
pub const MAX_WINDOW: u32 = 8;

/// How many places a queue has at least.
pub const MIN_DEPTH: u32 = 2;

/// How many places a reverse queue of a combining switch has at least: one step can bring four
/// replies, since each of two may be split in two.
pub const MIN_COMB_REVERSE: u32 = 4;

/// How many places a wait buffer has at least.
pub const MIN_WAIT: u32 = 1;

/// How many places a queue or a wait buffer has at most.
pub const MAX_DEPTH: u32 = 16;

/// How many edits a bench accepts.
pub const MAX_EDITS: u32 = 65_535;

/// Each constant is the number that contracts speak of.
pub fn constants_are_limits()
    ensures stages { STAGES ≡ max_k }
    ensures horizon { MAX_HORIZON ≡ max_horizon }
    ensures usual_horizon { USUAL_HORIZON ≡ usual_horizon }
    ensures entries { SCRIPT_ENTRIES ≡ script_entries }
    ensures usual_entries { USUAL_ENTRIES ≡ usual_entries }
    ensures times { MAX_TIMES ≡ max_times }
    ensures tries { USUAL_TRIES ≡ usual_tries }
    ensures window { MAX_WINDOW ≡ max_window }
    ensures shallowest { MIN_DEPTH ≡ min_depth }
    ensures splitting { MIN_COMB_REVERSE ≡ min_comb_reverse }
    ensures waiting { MIN_WAIT ≡ min_wait }
    ensures deepest { MAX_DEPTH ≡ max_depth }
    ensures edits { MAX_EDITS ≡ max_edits }
{}
