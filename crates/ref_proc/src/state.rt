//! What a processor holds between two cycles, and what it shows of it.
ghost use Rattle.std.specs.Prelude.{◌≡◌, ◌↔◌, IsTrue};
ghost use Rattle.std.specs.Option.{option_copied};
ghost use Rattle.ref_proc.specs.RefProc.{proc_start, proc_takes_reply, proc_request};

use omega_net::{Net, Reply, Request};

/// A request on its way out, with its network.
#[derive(Clone, Copy, PartialEq, Eq, Debug)]
pub struct Outgoing {
    pub net: Net,
    pub request: Request,
}

/// A processor between two cycles.
#[derive(Clone, Copy, PartialEq, Eq, Debug)]
pub struct ProcState {
    /// The entry of the script that it has come to, from 0.
    pub index: u16,
    /// The turns spent on that entry.
    pub spent: u32,
    /// The references issued, which is the issue number of the next.
    pub issued: u32,
    /// The references not yet answered, the one in `out` included.
    pub pending: u32,
    /// The request that waits to leave.
    pub out: Option<Outgoing>,
    /// The replies received in the last step, by network, the low one first.
    pub got: [Option<Reply>; 2],
    /// Whether a reference was issued in the last step.
    pub sent: bool,
}

impl ProcState {
    /// A processor before its first entry.
    pub fn start() -> ProcState
        ensures { result ≡ proc_start }
    {
        ProcState {
            index: 0,
            spent: 0,
            issued: 0,
            pending: 0,
            out: None,
            got: [None, None],
            sent: false,
        }
    }

    /// Whether it takes a reply from a network in the coming step: it always does.
    pub fn ready(&self, net: Net) -> bool
        ensures { result ≡ proc_takes_reply self.now net }
    {
        true
    }

    /// The request that it shows on a network.
    pub fn offer(&self, net: Net) -> Option<&Request>
        ensures { option_copied result ≡ proc_request self.now net }
    {
        match &self.out {
            Some(out) if out.net == net => Some(&out.request),
            _ => None,
        }
    }

    /// Whether two states are the same.
    #[inline(always)]
    pub fn same(&self, other: &ProcState) -> bool
        ensures { IsTrue result ↔ (self.now ≡ other.now) }
    {
        self.index == other.index
            && self.issued == other.issued
            && self.spent == other.spent
            && self.pending == other.pending
            && self.sent == other.sent
            && same_got(&self.got, &other.got)
            && self.out == other.out
    }
}

fn same_got(a: &[Option<Reply>; 2], b: &[Option<Reply>; 2]) -> bool
    ensures { IsTrue result ↔ (a.now ≡ b.now) }
{
    a == b
}
