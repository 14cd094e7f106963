//! Messages as two words each.
ghost use Rattle.std.specs.Prelude.{◌≡◌, ℕ};
ghost use Rattle.state_words.specs.Fits.{IsRequest, IsOutgoing, IsReply, IsWaiting};
ghost use Rattle.state_words.specs.Messages.{request_first, request_second, request_from, out_first, out_second, out_from, reply_first, reply_second, reply_from, wait_first, wait_second, wait_from};

use crate::fields::{byte, high, low, net_from, net_number, short};
use crate::fits::{is_byte, is_short, is_tag, is_word};
use comb_switch::Waiting;
use omega_net::{Reply, Request, Tag};
use page_map::Place;
use ref_proc::Outgoing;
use word_ops::{KIND_BITS, Kind, Op};

/// A message that two words tell: where in them its numbers stand is said in `specs/Messages.antt`.
pub trait TwoWords: Copy {
    ghost use Rattle.std.specs.Prelude.{ℕ};

    ghost first: { Self → ℕ };

    ghost second: { Self → ℕ };

    ghost from: { ℕ → ℕ → Self };

    ghost fits: { Self → Type 0 };

    /// The first word.
    fn first(&self) -> u64
        ensures { result ≡ first self.now };

    /// The second word.
    fn second(&self) -> u64
        ensures { result ≡ second self.now };

    /// The message that has these words. Where none has them, some message.
    fn from_words(word: u64, next: u64) -> Self
        ensures { result ≡ from word next };

    /// Its numbers fit their types. Nothing is done when it runs.
    fn fits(&self)
        ensures { fits self.now };
}

impl TwoWords for Request {
    ghost first = { request_first };

    ghost second = { request_second };

    ghost from = { request_from };

    ghost fits = { IsRequest };

    fn first(&self) -> u64 {
        let Request { tag, place, op } = *self;
        tag.proc as u64
            + ((place.module as u64) << 8)
            + ((place.row as u64) << 16)
            + ((op.operand as u64) << 32)
    }

    fn second(&self) -> u64 {
        self.tag.issue as u64 + (self.op.kind.number() << 32)
    }

    fn from_words(word: u64, next: u64) -> Request {
        Request {
            tag: Tag {
                proc: byte(word),
                issue: low(next),
            },
            place: Place {
                module: byte(word >> 8),
                row: short(word >> 16),
            },
            op: Op {
                kind: Kind::from_number((next >> 32) % (1 << KIND_BITS)),
                operand: high(word),
            },
        }
    }

    fn fits(&self) {
        let Request { tag, place, op } = *self;
        is_tag(tag);
        is_byte(place.module);
        is_short(place.row);
        is_word(op.operand);
    }
}

impl TwoWords for Reply {
    ghost first = { reply_first };

    ghost second = { reply_second };

    ghost from = { reply_from };

    ghost fits = { IsReply };

    fn first(&self) -> u64 {
        self.tag.issue as u64 + ((self.word as u64) << 32)
    }

    fn second(&self) -> u64 {
        self.tag.proc as u64
    }

    fn from_words(word: u64, next: u64) -> Reply {
        Reply {
            tag: Tag {
                proc: byte(next),
                issue: low(word),
            },
            word: high(word),
        }
    }

    fn fits(&self) {
        let Reply { tag, word } = *self;
        is_tag(tag);
        is_word(word);
    }
}

impl TwoWords for Outgoing {
    ghost first = { out_first };

    ghost second = { out_second };

    ghost from = { out_from };

    ghost fits = { IsOutgoing };

    fn first(&self) -> u64 {
        self.request.first()
    }

    fn second(&self) -> u64 {
        let request = self.request;
        request.tag.issue as u64
            + (request.op.kind.number() << 32)
            + (net_number(self.net) << (32 + KIND_BITS))
    }

    fn from_words(word: u64, next: u64) -> Outgoing {
        Outgoing {
            net: net_from((next >> (32 + KIND_BITS)) % 2),
            request: Request::from_words(word, next),
        }
    }

    fn fits(&self) {
        self.request.fits();
    }
}

impl TwoWords for Waiting {
    ghost first = { wait_first };

    ghost second = { wait_second };

    ghost from = { wait_from };

    ghost fits = { IsWaiting };

    fn first(&self) -> u64 {
        self.first.issue as u64 + ((self.op.operand as u64) << 32)
    }

    fn second(&self) -> u64 {
        let Waiting { first, op, second } = *self;
        second.issue as u64
            + ((first.proc as u64) << 32)
            + ((second.proc as u64) << 40)
            + (op.kind.number() << 48)
    }

    fn from_words(word: u64, next: u64) -> Waiting {
        Waiting {
            first: Tag {
                proc: byte(next >> 32),
                issue: low(word),
            },
            op: Op {
                kind: Kind::from_number((next >> 48) % (1 << KIND_BITS)),
                operand: high(word),
            },
            second: Tag {
                proc: byte(next >> 40),
                issue: low(next),
            },
        }
    }

    fn fits(&self) {
        let Waiting { first, op, second } = *self;
        is_tag(first);
        is_word(op.operand);
        is_tag(second);
    }
}
