//! A combining switch's text.
ghost use Rattle.std.specs.Prelude.{Some};
ghost use Rattle.comb_switch.specs.Texts.{comb_forward_text, comb_reverse_text, comb_text, waiting_text};

use crate::{CombState, Waiting};
use omega_net::Listed;
use std::fmt;

/// `P.I=KIND:V<P.I`: the first tag, the operation that stood there, and the tag that was combined into it.
impl fmt::Display for Waiting {
    ghost output = { λ waiting. Some (waiting_text waiting) };

    fn fmt<W: fmt::Write>(&self, f: &mut fmt::Formatter<W>) -> fmt::Result {
        let Waiting { first, op, second } = *self;
        write!(f, "{first}={op}<{second}")
    }
}

/// The requests that wait, and their turns.
#[derive(Clone, Copy)]
struct Forward<'a>(&'a CombState);

impl fmt::Display for Forward<'_> {
    ghost output = { λ forward. comb_forward_text forward.0.now };

    fn fmt<W: fmt::Write>(&self, f: &mut fmt::Formatter<W>) -> fmt::Result {
        let state = self.0;
        let f0 = Listed(&state.fwd[0]);
        let f1 = Listed(&state.fwd[1]);
        let [t0, t1] = state.turn;
        write!(f, "comb f0 {f0} f1 {f1} turn {t0} {t1}")
    }
}

/// The replies that wait, and the turn.
#[derive(Clone, Copy)]
struct Reverse<'a>(&'a CombState);

impl fmt::Display for Reverse<'_> {
    ghost output = { λ reverse. comb_reverse_text reverse.0.now };

    fn fmt<W: fmt::Write>(&self, f: &mut fmt::Formatter<W>) -> fmt::Result {
        let state = self.0;
        let r0 = Listed(&state.rev[0]);
        let r1 = Listed(&state.rev[1]);
        let turn = state.rturn;
        write!(f, " r0 {r0} r1 {r1} rturn {turn}")
    }
}

/// `comb f0 L f1 L turn T T r0 L r1 L rturn T wait L combined N`: the queues of the outputs and their turns, those of
/// the inputs and the turn, the wait buffer, and what the last step combined.
impl fmt::Display for CombState {
    ghost output = { λ state. comb_text state };

    fn fmt<W: fmt::Write>(&self, f: &mut fmt::Formatter<W>) -> fmt::Result {
        let (forward, reverse) = (Forward(self), Reverse(self));
        let (wait, count) = (Listed(&self.wait), self.combined);
        write!(f, "{forward}{reverse} wait {wait} combined {count}")
    }
}
