//! A low switch's text.
ghost use Rattle.low_switch.specs.Texts.{low_forward_text, low_reverse_text, low_text};

use crate::LowState;
use omega_net::Listed;
use std::fmt;

/// The requests that wait, and their turns.
#[derive(Clone, Copy)]
struct Forward<'a>(&'a LowState);

impl fmt::Display for Forward<'_> {
    ghost output = { λ forward. low_forward_text forward.0.now };

    fn fmt<W: fmt::Write>(&self, f: &mut fmt::Formatter<W>) -> fmt::Result {
        let state = self.0;
        let f0 = Listed(&state.fwd[0]);
        let f1 = Listed(&state.fwd[1]);
        let [t0, t1] = state.turn;
        write!(f, "low f0 {f0} f1 {f1} turn {t0} {t1}")
    }
}

/// The replies that wait, and theirs.
#[derive(Clone, Copy)]
struct Reverse<'a>(&'a LowState);

impl fmt::Display for Reverse<'_> {
    ghost output = { λ reverse. low_reverse_text reverse.0.now };

    fn fmt<W: fmt::Write>(&self, f: &mut fmt::Formatter<W>) -> fmt::Result {
        let state = self.0;
        let r0 = Listed(&state.rev[0]);
        let r1 = Listed(&state.rev[1]);
        let [t0, t1] = state.rturn;
        write!(f, " r0 {r0} r1 {r1} rturn {t0} {t1}")
    }
}

/// `low f0 L f1 L turn T T r0 L r1 L rturn T T`: the queues of the outputs and their turns, then those of the inputs.
impl fmt::Display for LowState {
    ghost output = { λ state. low_text state };

    fn fmt<W: fmt::Write>(&self, f: &mut fmt::Formatter<W>) -> fmt::Result {
        let (forward, reverse) = (Forward(self), Reverse(self));
        write!(f, "{forward}{reverse}")
    }
}
