//! The kinds of fetch-and-op: all that is known of each stands here, and only here.
ghost use Rattle.std.specs.Prelude.{◌≡◌, ◌<◌, ◌^◌, Some, IfSome, bytes_eq};
ghost use Rattle.word_ops.specs.declared.kind.Kind.{Kind};
ghost use Rattle.word_ops.specs.Words.{both_of, kind_bits, kind_name, kind_named, kind_number, kind_of_number, left_by};

use std::fmt;

/// How many bits a kind's number has.
pub const KIND_BITS: u32 = 3;

/// A text that tells the names of all kinds: what stands before these, and what behind.
#[macro_export]
macro_rules! kinds_told {
    ($before:literal, $behind:literal) => {
        concat!($before, "load, add, and, or, min, max, store or store-if-zero", $behind)
    };
}

/// A text with the names of all kinds, a space before each: what stands before these, and what behind.
#[macro_export]
macro_rules! kinds_listed {
    ($before:literal, $behind:literal) => {
        concat!($before, " load add and or min max store store-if-zero", $behind)
    };
}

/// What a request does to a word, with its operand. It prints as its name.
#[derive(Clone, Copy, PartialEq, Eq, Debug, Default)]
pub enum Kind {
    /// The word stays.
    #[default]
    Load,
    /// The sum of word and operand, wrapping at 2^32.
    Add,
    /// The bits that both have.
    And,
    /// The bits that either has.
    Or,
    /// The lesser of word and operand, unsigned.
    Min,
    /// The greater of word and operand, unsigned.
    Max,
    /// The operand.
    Store,
    /// The operand where the word is 0, else the word.
    StoreIfZero,
}

impl Kind {
    /// All kinds.
    pub const ALL: [Kind; 8] = [
        Kind::Load,
        Kind::Add,
        Kind::And,
        Kind::Or,
        Kind::Min,
        Kind::Max,
        Kind::Store,
        Kind::StoreIfZero,
    ];

    /// The kind's name, as `store-if-zero`.
    pub fn name(self) -> &'static str
        ensures { result.now ≡ kind_name self }
    {
        match self {
            Kind::Load => "load",
            Kind::Add => "add",
            Kind::And => "and",
            Kind::Or => "or",
            Kind::Min => "min",
            Kind::Max => "max",
            Kind::Store => "store",
            Kind::StoreIfZero => "store-if-zero",
        }
    }

    /// The kind's number, of [`KIND_BITS`] bits.
    #[inline]
    pub fn number(self) -> u64
        ensures value { result ≡ kind_number self }
        ensures small { result < 2 ^ kind_bits }
        ensures read { kind_of_number (kind_number self) ≡ self }
    {
        match self {
            Kind::Load => 0,
            Kind::Add => 1,
            Kind::And => 2,
            Kind::Or => 3,
            Kind::Min => 4,
            Kind::Max => 5,
            Kind::Store => 6,
            Kind::StoreIfZero => 7,
        }
    }

    /// The kind of a number; of a number that no kind has, the last kind.
    #[inline]
    pub fn from_number(number: u64) -> Self
        ensures { result ≡ kind_of_number number }
    {
        match number {
            0 => Kind::Load,
            1 => Kind::Add,
            2 => Kind::And,
            3 => Kind::Or,
            4 => Kind::Min,
            5 => Kind::Max,
            6 => Kind::Store,
            _ => Kind::StoreIfZero,
        }
    }

    /// The word that the kind leaves, with its operand, where `word` stood.
    #[inline]
    pub(crate) fn left(self, operand: u32, word: u32) -> u32
        ensures { result ≡ left_by self operand word }
    {
        match self {
            Kind::Load => word,
            Kind::Add => word.wrapping_add(operand),
            Kind::And => word & operand,
            Kind::Or => word | operand,
            Kind::Min => word.min(operand),
            Kind::Max => word.max(operand),
            Kind::Store => operand,
            Kind::StoreIfZero => { if word == 0 { operand } else { word } }
        }
    }

    /// The operand that does `first` and then `next`.
    #[inline]
    pub(crate) fn both(self, first: u32, next: u32) -> u32
        ensures { result ≡ both_of self first next }
    {
        match self {
            Kind::Load => first,
            Kind::Add => first.wrapping_add(next),
            Kind::And => first & next,
            Kind::Or => first | next,
            Kind::Min => first.min(next),
            Kind::Max => first.max(next),
            Kind::Store => next,
            Kind::StoreIfZero => { if first == 0 { next } else { first } }
        }
    }

    fn has_name(self, word: &[u8]) -> bool
        ensures { result ≡ bytes_eq (kind_name self) word.now }
    {
        self.name().as_bytes() == word
    }

    /// The kind that a word names; None where no kind has that name.
    pub fn from_name(word: &[u8]) -> Option<Self>
        ensures kind { result ≡ kind_named word.now }
        ensures named { IfSome result (λ kind. kind_name kind ≡ word.now) }
        ensures read { (kind : Kind) → kind_name kind ≡ word.now → result ≡ Some kind }
    {
        Kind::ALL.iter().find(|kind| kind.has_name(word)).copied()
    }
}

impl fmt::Display for Kind {
    ghost output = { λ kind. Some (kind_name kind) };

    fn fmt<W: fmt::Write>(&self, f: &mut fmt::Formatter<W>) -> fmt::Result {
        f.write_str(self.name())
    }
}

/// The constant is the number that contracts speak of.
pub fn constants_are_limits()
    ensures bits { KIND_BITS ≡ kind_bits }
{}
