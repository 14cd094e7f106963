//! The text of a module's state.
ghost use Rattle.std.specs.Prelude.{Some};
ghost use Rattle.mem_module.specs.Texts.{stored_text, waiting_text, memory_text, module_text};

use crate::{ModuleState, Stored};
use omega_net::{Listed, Net};
use std::fmt;

/// `R=W`: the row, then its word.
impl fmt::Display for Stored {
    ghost output = { λ stored. Some (stored_text stored) };

    fn fmt<W: fmt::Write>(&self, f: &mut fmt::Formatter<W>) -> fmt::Result {
        let Stored { row, word } = *self;
        write!(f, "{row}={word}")
    }
}

/// `mod q0 L q1 L a0 L a1 L turn T served S mem L`: the requests that wait, then the replies, by network, the low one
/// first; the turn, 0 for the low network and 1 for the combining one; S is 1 where a request was served in the last
/// step, else 0; the words as `R=W`, rows ascending. A list is its items with commas between, in square brackets.
impl fmt::Display for ModuleState {
    ghost output = { module_text };

    fn fmt<W: fmt::Write>(&self, f: &mut fmt::Formatter<W>) -> fmt::Result {
        let waiting = Waiting(self);
        let memory = Memory(self);
        write!(f, "mod {waiting} {memory}")
    }
}

/// Prints what waits at the ports of a module.
#[derive(Clone, Copy)]
struct Waiting<'a>(&'a ModuleState);

impl fmt::Display for Waiting<'_> {
    ghost output = { λ waiting. waiting_text waiting.0.now };

    fn fmt<W: fmt::Write>(&self, f: &mut fmt::Formatter<W>) -> fmt::Result {
        let requests = &self.0.requests[..];
        let replies = &self.0.replies[..];
        let q0 = Listed(requests[0].as_slice());
        let q1 = Listed(requests[1].as_slice());
        let a0 = Listed(replies[0].as_slice());
        let a1 = Listed(replies[1].as_slice());
        write!(f, "q0 {q0} q1 {q1} a0 {a0} a1 {a1}")
    }
}

/// Prints the turn of a module, whether it served, and its words.
#[derive(Clone, Copy)]
struct Memory<'a>(&'a ModuleState);

impl fmt::Display for Memory<'_> {
    ghost output = { λ memory. memory_text memory.0.now };

    fn fmt<W: fmt::Write>(&self, f: &mut fmt::Formatter<W>) -> fmt::Result {
        let turn = match self.0.turn {
            Net::Low => "0",
            Net::Comb => "1",
        };
        let served = if self.0.served { "1" } else { "0" };
        let words = Listed(self.0.words.as_slice());
        write!(f, "turn {turn} served {served} mem {words}")
    }
}
