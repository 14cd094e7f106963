//! Fetch-and-op requests.
ghost use Rattle.std.specs.Prelude.{◌≡◌, ◌≢◌, ◌↔◌, ℕ, Some, IsNone, IfSome};
ghost use Rattle.word_ops.specs.Words.{op_text, word_after, then_op};

use crate::Kind;
use std::fmt;

/// A fetch-and-op: a kind and its operand. It prints as `KIND:V`, as `add:3`.
#[derive(Clone, Copy, PartialEq, Eq, Debug, Default)]
pub struct Op {
    pub kind: Kind,
    pub operand: u32,
}

impl Op {
    /// The word that the operation leaves where `word` stood. The request is answered `word`.
    pub fn apply(self, word: u32) -> u32
        ensures { result ≡ word_after self word }
    {
        self.kind.left(self.operand, word)
    }

    /// The one operation that does this one and then the next; None exactly where their kinds
    /// differ (combining, after Gottlieb and others 1983).
    pub fn then(self, next: Op) -> Option<Op>
        ensures op { result ≡ then_op self next }
        ensures differ { IsNone result ↔ (self.kind ≢ next.kind) }
        ensures both { IfSome result (λ both. (word : ℕ) → word_after both word ≡ word_after next (word_after self word)) }
    {
        if self.kind == next.kind {
            Some(Op {
                kind: self.kind,
                operand: self.kind.both(self.operand, next.operand),
            })
        } else {
            None
        }
    }
}

impl fmt::Display for Op {
    ghost output = { λ op. Some (op_text op) };

    fn fmt<W: fmt::Write>(&self, f: &mut fmt::Formatter<W>) -> fmt::Result {
        write!(f, "{}:{}", self.kind, self.operand)
    }
}
