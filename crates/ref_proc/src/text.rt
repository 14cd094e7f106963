//! The text of a processor's state.
ghost use Rattle.std.specs.Prelude.{Some};
ghost use Rattle.ref_proc.specs.Texts.{out_text, got_text, counts_text, held_text, proc_text};

use crate::{Outgoing, ProcState};
use omega_net::{Net, Reply};
use std::fmt;

/// `proc index A spent B issued I pending O out X got G G sent S`, all numbers decimal: X is `-`, or `low:` or `comb:`
/// and the request; each G, of the low network and then of the combining one, is `-` or `I=W`, the issue number and
/// the word; S is 1 where a reference was issued in the last step, else 0.
impl fmt::Display for ProcState {
    ghost output = { λ state. Some (proc_text state) };

    fn fmt<W: fmt::Write>(&self, f: &mut fmt::Formatter<W>) -> fmt::Result {
        let counts = Counts(*self);
        let held = Held(*self);
        write!(f, "proc {counts} {held}")
    }
}

/// Prints where a processor is in its script, and its counts.
#[derive(Clone, Copy)]
struct Counts(ProcState);

impl fmt::Display for Counts {
    ghost output = { λ counts. Some (counts_text counts.0) };

    fn fmt<W: fmt::Write>(&self, f: &mut fmt::Formatter<W>) -> fmt::Result {
        let ProcState {
            index,
            spent,
            issued,
            pending,
            ..
        } = self.0;
        write!(
            f,
            "index {index} spent {spent} issued {issued} pending {pending}"
        )
    }
}

/// Prints what a processor holds, and whether it issued.
#[derive(Clone, Copy)]
struct Held(ProcState);

impl fmt::Display for Held {
    ghost output = { λ held. Some (held_text held.0) };

    fn fmt<W: fmt::Write>(&self, f: &mut fmt::Formatter<W>) -> fmt::Result {
        let out = Out(self.0.out);
        let low = Got(self.0.got[0]);
        let comb = Got(self.0.got[1]);
        let sent = if self.0.sent { "1" } else { "0" };
        write!(f, "out {out} got {low} {comb} sent {sent}")
    }
}

/// Prints the request that waits, with its network, or `-`.
#[derive(Clone, Copy)]
struct Out(Option<Outgoing>);

impl fmt::Display for Out {
    ghost output = { λ out. Some (out_text out.0) };

    fn fmt<W: fmt::Write>(&self, f: &mut fmt::Formatter<W>) -> fmt::Result {
        match self.0 {
            None => write!(f, "-"),
            Some(
                Outgoing {
                    net: Net::Low,
                    request,
                },
            ) => write!(f, "low:{request}"),
            Some(
                Outgoing {
                    net: Net::Comb,
                    request,
                },
            ) => write!(f, "comb:{request}"),
        }
    }
}

/// Prints a reply received, or `-`.
#[derive(Clone, Copy)]
struct Got(Option<Reply>);

impl fmt::Display for Got {
    ghost output = { λ got. Some (got_text got.0) };

    fn fmt<W: fmt::Write>(&self, f: &mut fmt::Formatter<W>) -> fmt::Result {
        match self.0 {
            None => write!(f, "-"),
            Some(reply) => {
                let issue = reply.tag.issue;
                let word = reply.word;
                write!(f, "{issue}={word}")
            }
        }
    }
}
