//! One cycle of a processor.
ghost use Rattle.std.specs.Prelude.{◌≡◌};
ghost use Rattle.ref_proc.specs.RefProc.{proc_after, acting, taking, next_entry, on_after, spending, issuing, referring, trying, tries, is_answered, has_brought, answers_last, brings, fencing, count_in, net_for};

use crate::{Outgoing, ProcState};
use omega_net::{Net, Reply, Request, ScriptEntry, Tag};
use page_map::Place;
use word_ops::Op;

/// What a processor reads of its project: its number, the entry at its index, the place of that entry's
/// address, and how many references it may have pending when it issues one more.
#[derive(Clone, Copy, PartialEq, Eq, Debug)]
pub struct ProcSettings {
    pub proc: u8,
    pub entry: Option<ScriptEntry>,
    pub place: Place,
    pub window: u32,
}

/// What a processor is handed in one step: the replies by network, the low one first, and whether its
/// request leaves.
#[derive(Clone, Copy, PartialEq, Eq, Debug)]
pub struct ProcTraffic {
    pub replies: [Option<Reply>; 2],
    pub request_leaves: bool,
}

impl ProcState {
    /// The state one cycle later: replies are taken, the request leaves if it does, then the entry acts.
    /// The counts stop at the last values of their types.
    #[inline(always)]
    pub fn step(&self, settings: &ProcSettings, traffic: &ProcTraffic) -> ProcState
        ensures { result ≡ proc_after settings.now traffic.now self.now }
    {
        self.taking(traffic).acting(settings)
    }

    #[inline(always)]
    fn taking(&self, traffic: &ProcTraffic) -> ProcState
        ensures { result ≡ taking traffic.now self.now }
    {
        let answered = count_in(traffic.replies[0]) + count_in(traffic.replies[1]);
        ProcState {
            got: [traffic.replies[0], traffic.replies[1]],
            pending: self.pending.saturating_sub(answered),
            out: if traffic.request_leaves {
                None
            } else {
                self.out
            },
            sent: false,
            ..*self
        }
    }

    #[inline(always)]
    fn acting(self, settings: &ProcSettings) -> ProcState
        ensures { result ≡ acting settings.now settings.now.entry self }
    {
        match settings.entry {
            None => self,
            Some(
                ScriptEntry::Reference {
                    sync,
                    op,
                    times,
                    ..
                },
            ) => self.referring(settings, sync, op).on_after(times),
            Some(
                ScriptEntry::Until {
                    sync,
                    op,
                    value,
                    times,
                    ..
                },
            ) => self.trying(settings, sync, op, value, times),
            Some(ScriptEntry::Fence) => self.fencing(),
            Some(ScriptEntry::Idle(turns)) => self.spending().on_after(turns),
        }
    }

    #[inline(always)]
    fn referring(self, settings: &ProcSettings, sync: bool, op: Op) -> ProcState
        ensures { result ≡ referring settings.now sync op self }
    {
        if self.out.is_none() && self.pending < settings.window {
            self.issuing(settings, sync, op)
        } else {
            self
        }
    }

    #[inline(always)]
    fn trying(
        self,
        settings: &ProcSettings,
        sync: bool,
        op: Op,
        value: u32,
        times: u32,
    ) -> ProcState
        ensures { result ≡ trying settings.now sync op value times self }
    {
        if self.tries(value, times) {
            self.referring(settings, sync, op)
        } else if self.has_brought(value) || times <= self.spent {
            self.next_entry()
        } else {
            self
        }
    }

    fn tries(self, value: u32, times: u32) -> bool
        ensures { result ≡ tries value times self }
    {
        self.spent == 0 || (self.spent < times && self.is_answered() && !self.has_brought(value))
    }

    fn is_answered(self) -> bool
        ensures { result ≡ is_answered self }
    {
        answers_last(self.issued, self.got[0]) || answers_last(self.issued, self.got[1])
    }

    fn has_brought(self, value: u32) -> bool
        ensures { result ≡ has_brought value self }
    {
        brings(self.issued, value, self.got[0]) || brings(self.issued, value, self.got[1])
    }

    fn fencing(self) -> ProcState
        ensures { result ≡ fencing self }
    {
        if self.pending == 0 && self.out.is_none() {
            self.next_entry()
        } else {
            self
        }
    }

    #[inline(always)]
    fn next_entry(self) -> ProcState
        ensures { result ≡ next_entry self }
    {
        ProcState {
            index: self.index.saturating_add(1),
            spent: 0,
            ..self
        }
    }

    #[inline(always)]
    fn on_after(self, turns: u32) -> ProcState
        ensures { result ≡ on_after turns self }
    {
        if turns <= self.spent {
            self.next_entry()
        } else {
            self
        }
    }

    #[inline(always)]
    fn spending(self) -> ProcState
        ensures { result ≡ spending self }
    {
        ProcState {
            spent: self.spent.saturating_add(1),
            ..self
        }
    }

    #[inline(always)]
    fn issuing(self, settings: &ProcSettings, sync: bool, op: Op) -> ProcState
        ensures { result ≡ issuing settings.now sync op self }
    {
        let tag = Tag {
            proc: settings.proc,
            issue: self.issued,
        };
        let request = Request {
            tag,
            place: settings.place,
            op,
        };
        ProcState {
            out: Some(Outgoing {
                net: net_for(sync),
                request,
            }),
            issued: self.issued.saturating_add(1),
            pending: self.pending.saturating_add(1),
            sent: true,
            ..self.spending()
        }
    }
}

/// The network of a reference: combining where it is synchronizing.
fn net_for(sync: bool) -> Net
    ensures { result ≡ net_for sync }
{
    if sync { Net::Comb } else { Net::Low }
}

/// Whether it is a reply to the last of so many references.
fn answers_last(issued: u32, reply: Option<Reply>) -> bool
    ensures { result ≡ answers_last issued reply }
{
    match reply {
        Some(reply) => reply.tag.issue < issued && reply.tag.issue + 1 == issued,
        None => false,
    }
}

/// Whether it is such a reply, with this word.
fn brings(issued: u32, value: u32, reply: Option<Reply>) -> bool
    ensures { result ≡ brings issued value reply }
{
    match reply {
        Some(reply) => answers_last(issued, Some(reply)) && reply.word == value,
        None => false,
    }
}

fn count_in(reply: Option<Reply>) -> u32
    ensures { result ≡ count_in reply }
{
    if reply.is_some() { 1 } else { 0 }
}
