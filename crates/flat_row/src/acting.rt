//! What processors do in a cycle.
ghost use Rattle.std.specs.Prelude.{◌≡◌, ℕ, ◌<◌, if◌then◌else◌, length, IsSome, IfSome, Some, true, false, None};
ghost use Rattle.omega_net.specs.Numbers.{lines};
ghost use Rattle.omega_net.specs.Ports.{queue_at, message_at};
ghost use Rattle.omega_net.specs.Queues.{head};
ghost use Rattle.machine_cells.specs.Cycle.{proc_settings};
ghost use Rattle.project_book.specs.Project.{place_for};
ghost use Rattle.project_book.specs.Scripts.{IsEntry};
ghost use Rattle.flat_row.specs.Masks.{has};
ghost use Rattle.flat_row.specs.Combining.{SameLevel};
ghost use Rattle.flat_row.specs.Ends.{AllReceived, HasIssued, HasProcs, OnlyProc, OnlyShown, SameProcs, Stays, got_at, shown_with, acted, ShowsOne};
ghost use Rattle.flat_row.specs.Row.{out_from, Rests};

use crate::bits::{has, not_in};
use crate::level::Level;
use crate::marks::with_mark;
use crate::moving::first_from;
use crate::read::out_from;
use omega_net::{Net, Reply, Request, ScriptEntry};
use page_map::Place;
use project_book::Project;
use ref_proc::{Outgoing, ProcSettings, ProcState, ProcTraffic};

/// Replies of some labels. What stands at the others means nothing.
#[derive(Clone, Copy, Debug)]
pub(crate) struct Replies {
    pub(crate) set: u64,
    pub(crate) at: [Reply; 64],
}

impl Replies {
    /// No replies.
    pub(crate) fn none() -> Replies {
        Replies {
            set: 0,
            at: [Reply::default(); 64],
        }
    }

    /// The reply of a label, if there is one.
    fn of(&self, p: u32) -> Option<Reply>
        requires { p < 64 }
        ensures { result ≡ got_at self.now p }
    {
        if has(self.set, p) {
            Some(self.at[p as usize])
        } else {
            None
        }
    }
}

/// Processors receive the heads of the replies before them on a network.
pub(crate) fn receive(level: &mut Level<Reply>, set: u64, at: &mut [Reply; 64])
    requires { (p : ℕ) → p < 64 → has set p ≡ true → IsSome (head (queue_at level.old.queues p)) }
    ensures shape { SameLevel level.old level.new }
    ensures received { AllReceived set level.old level.new (record { set = set; at = at.new }) }
{
    let mut next = 0;
    while let Some(p) = first_from(set, next) {
        at[p as usize] = level.take(p);
        next = p + 1;
    }
}

/// The processors of a set take their replies, and the entry of each acts: which processors have stayed as they were, and rest. What
/// leaves has left.
pub(crate) fn act_all(
    project: &Project,
    procs: &mut Vec<ProcState>,
    low: &mut Level<Request>,
    comb: &mut Level<Request>,
    low_got: &Replies,
    comb_got: &Replies,
    active: u64,
) -> u64
    requires procs { HasProcs (lines project.now.k) procs.old.items low.old comb.old }
    requires one { (p : ℕ) → ShowsOne low.old comb.old p }
    requires others { (p : ℕ) → p < lines project.now.k → has active p ≡ false → Stays project.now low_got.now comb_got.now (shown_with procs.old.items low.old comb.old p) p }
    ensures same { SameProcs procs.old.items procs.new.items low.old low.new comb.old comb.new }
    ensures one { (p : ℕ) → ShowsOne low.new comb.new p }
    ensures acted { (p : ℕ) → p < lines project.now.k → shown_with procs.new.items low.new comb.new p ≡ acted project.now p (got_at low_got.now p) (got_at comb_got.now p) (shown_with procs.old.items low.old comb.old p) }
    ensures stay { (p : ℕ) → p < lines project.now.k → has result p ≡ true → shown_with procs.new.items low.new comb.new p ≡ shown_with procs.old.items low.old comb.old p }
    ensures rest { (p : ℕ) → p < lines project.now.k → has result p ≡ true → Rests project.now p (shown_with procs.new.items low.new comb.new p) }
{
    project.is_project();
    let lines = project.shape().lines();
    let mut rests = not_in(active);
    let mut next = 0;
    while let Some(p) = first_from(active, next) {
        if p < lines {
            let replies = [low_got.of(p), comb_got.of(p)];
            let stays = act(project, procs, low, comb, p, replies);
            rests = with_mark(rests, p, stays);
        } else {
            // No processor has this label, so it is never asked again.
            rests = with_mark(rests, p, true);
        }
        next = p + 1;
    }
    rests
}

/// A processor takes its replies, and its entry acts: whether it is as it was, and rests.
fn act(
    project: &Project,
    procs: &mut Vec<ProcState>,
    low: &mut Level<Request>,
    comb: &mut Level<Request>,
    p: u32,
    replies: [Option<Reply>; 2],
) -> bool
    requires there { p < lines project.now.k }
    requires procs { HasProcs (lines project.now.k) procs.old.items low.old comb.old }
    requires one { ShowsOne low.old comb.old p }
    ensures only { OnlyProc p procs.old.items procs.new.items low.old low.new comb.old comb.new }
    ensures one { ShowsOne low.new comb.new p }
    ensures acted { shown_with procs.new.items low.new comb.new p ≡ acted project.now p (message_at replies 0) (message_at replies 1) (shown_with procs.old.items low.old comb.old p) }
    ensures stay { result ≡ true → shown_with procs.new.items low.new comb.new p ≡ shown_with procs.old.items low.old comb.old p }
    ensures rest { result ≡ true → Rests project.now p (shown_with procs.new.items low.new comb.new p) }
{
    let own = ProcState {
        out: shown(low, comb, p),
        ..procs[p as usize]
    };
    let next = acted(project, p, own, replies);
    show(low, comb, p, &next);
    procs[p as usize] = next;
    stays(&own, &replies, &next)
}

/// Whether a processor has got no reply, has issued nothing, and is as it was.
fn stays(own: &ProcState, replies: &[Option<Reply>; 2], next: &ProcState) -> bool
    ensures low { result ≡ true → message_at replies.now 0 ≡ None }
    ensures comb { result ≡ true → message_at replies.now 1 ≡ None }
    ensures same { result ≡ true → next.now ≡ own.now }
{
    !next.sent && replies[0].is_none() && replies[1].is_none() && next.same(own)
}

/// What a processor shows.
fn shown(low: &Level<Request>, comb: &Level<Request>, p: u32) -> Option<Outgoing>
    requires low { p < length low.now.queues }
    requires comb { p < length comb.now.queues }
    ensures { result ≡ out_from (head (queue_at low.now.queues p)) (head (queue_at comb.now.queues p)) }
{
    out_from(low.messages(p).first(), comb.messages(p).first())
}

/// A processor one cycle later, where what leaves has left.
fn acted(project: &Project, p: u32, own: ProcState, replies: [Option<Reply>; 2]) -> ProcState
    requires { p < lines project.now.k }
    ensures acted { result ≡ acted project.now p (message_at replies 0) (message_at replies 1) own }
    ensures issued { HasIssued own.out result }
{
    project.is_project();
    let settings = proc_settings(project, p as u8, own.index);
    let traffic = ProcTraffic {
        replies,
        request_leaves: false,
    };
    own.step(&settings, &traffic)
}

/// A processor shows what it has issued, if it has, where it showed nothing.
fn show(low: &mut Level<Request>, comb: &mut Level<Request>, p: u32, next: &ProcState)
    requires low { p < length low.old.queues }
    requires comb { p < length comb.old.queues }
    requires one { ShowsOne low.old comb.old p }
    requires issued { HasIssued (out_from (head (queue_at low.old.queues p)) (head (queue_at comb.old.queues p))) next.now }
    ensures only { OnlyShown p low.old low.new comb.old comb.new }
    ensures one { ShowsOne low.new comb.new p }
    ensures shown { out_from (head (queue_at low.new.queues p)) (head (queue_at comb.new.queues p)) ≡ next.now.out }
{
    match issued(next) {
        Some(outgoing) => give(low, comb, p, next, outgoing),
        None => {}
    }
}

/// A processor shows this request.
fn give(
    low: &mut Level<Request>,
    comb: &mut Level<Request>,
    p: u32,
    next: &ProcState,
    outgoing: Outgoing,
)
    requires low { p < length low.old.queues }
    requires comb { p < length comb.old.queues }
    requires issued { HasIssued (out_from (head (queue_at low.old.queues p)) (head (queue_at comb.old.queues p))) next.now }
    requires outgoing { Some outgoing ≡ (if next.now.sent then next.now.out else None) }
    ensures only { OnlyShown p low.old low.new comb.old comb.new }
    ensures one { ShowsOne low.new comb.new p }
    ensures shown { out_from (head (queue_at low.new.queues p)) (head (queue_at comb.new.queues p)) ≡ next.now.out }
{
    let _ = next;
    match outgoing.net {
        Net::Low => low.give(p, outgoing.request),
        Net::Comb => comb.give(p, outgoing.request),
    }
}

/// The request that was issued in a cycle, if one was.
fn issued(next: &ProcState) -> Option<Outgoing>
    ensures { result ≡ (if next.now.sent then next.now.out else None) }
{
    if next.sent { next.out } else { None }
}

/// What a processor reads of a project where its script has come to that index.
pub(crate) fn proc_settings(project: &Project, proc: u8, index: u16) -> ProcSettings
    ensures { result ≡ proc_settings project.now proc index }
{
    let entry = project.entry(u32::from(proc), u32::from(index));
    ProcSettings {
        proc,
        entry,
        place: place_for(project, entry),
        window: project.window(),
    }
}

/// The place of the address that an entry names; without one, any.
fn place_for(project: &Project, entry: Option<ScriptEntry>) -> Place
    requires { IfSome entry IsEntry }
    ensures { result ≡ place_for project.now entry }
{
    let nowhere = Place { module: 0, row: 0 };
    match entry {
        Some(ScriptEntry::Reference { address, .. } | ScriptEntry::Until { address, .. }) => {
            project.place(address).unwrap_or(nowhere)
        }
        _ => nowhere,
    }
}
