//! What travels over the networks.
ghost use Rattle.std.specs.Prelude.{Some};
ghost use Rattle.omega_net.specs.Texts.{tag_text, request_text, reply_text};

use page_map::Place;
use std::fmt;
use word_ops::Op;

/// A processor's reference, by its issue number.
#[derive(Clone, Copy, PartialEq, Eq, Debug, Default)]
pub struct Tag {
    pub proc: u8,
    pub issue: u32,
}

/// `P.I`: the processor, then the issue number.
impl fmt::Display for Tag {
    ghost output = { λ tag. Some (tag_text tag) };

    fn fmt<W: fmt::Write>(&self, f: &mut fmt::Formatter<W>) -> fmt::Result {
        let Tag { proc, issue } = *self;
        write!(f, "{proc}.{issue}")
    }
}

/// A fetch-and-op on its way to a module.
#[derive(Clone, Copy, PartialEq, Eq, Debug, Default)]
pub struct Request {
    pub tag: Tag,
    pub place: Place,
    pub op: Op,
}

/// `P.I>M:R=KIND:V`: the tag, the place, then the operation.
impl fmt::Display for Request {
    ghost output = { λ request. Some (request_text request) };

    fn fmt<W: fmt::Write>(&self, f: &mut fmt::Formatter<W>) -> fmt::Result {
        let Request { tag, place, op } = *self;
        write!(f, "{tag}>{place}={op}")
    }
}

/// An old word on its way back to a processor.
#[derive(Clone, Copy, PartialEq, Eq, Debug, Default)]
pub struct Reply {
    pub tag: Tag,
    pub word: u32,
}

/// `P.I=W`: the tag, then the word.
impl fmt::Display for Reply {
    ghost output = { λ reply. Some (reply_text reply) };

    fn fmt<W: fmt::Write>(&self, f: &mut fmt::Formatter<W>) -> fmt::Result {
        let Reply { tag, word } = *self;
        write!(f, "{tag}={word}")
    }
}

/// What a switch is handed in one step: what arrives, by port, and which heads leave, by port.
#[derive(Clone, Copy, PartialEq, Eq, Debug)]
pub struct Traffic {
    pub requests: [Option<Request>; 2],
    pub replies: [Option<Reply>; 2],
    pub requests_leave: [bool; 2],
    pub replies_leave: [bool; 2],
}
