//! The first words of commands.
ghost use Rattle.std.specs.Prelude.{◌≡◌};
ghost use Rattle.commands.specs.Commands.{keyword_name, keyword_of, is_query};

/// The first word of a command.
#[derive(Clone, Copy, PartialEq, Eq, Debug)]
pub enum Keyword {
    Entry,
    Cut,
    Word,
    Page,
    Depth,
    Wait,
    Combine,
    Window,
    Horizon,
    Reply,
    State,
    Memory,
    Counter,
    Profile,
    Tree,
    Level,
    Bound,
    Place,
    Order,
}

impl Keyword {
    /// All of them, in the order of the command table.
    pub const ALL: [Keyword; 19] = [
        Keyword::Entry,
        Keyword::Cut,
        Keyword::Word,
        Keyword::Page,
        Keyword::Depth,
        Keyword::Wait,
        Keyword::Combine,
        Keyword::Window,
        Keyword::Horizon,
        Keyword::Reply,
        Keyword::State,
        Keyword::Memory,
        Keyword::Counter,
        Keyword::Profile,
        Keyword::Tree,
        Keyword::Level,
        Keyword::Bound,
        Keyword::Place,
        Keyword::Order,
    ];

    /// The word as it is written.
    pub fn name(self) -> &'static [u8]
        ensures { result.now ≡ keyword_name self }
    {
        match self {
            Keyword::Entry => b"entry",
            Keyword::Cut => b"cut",
            Keyword::Word => b"word",
            Keyword::Page => b"page",
            Keyword::Depth => b"depth",
            Keyword::Wait => b"wait",
            Keyword::Combine => b"combine",
            Keyword::Window => b"window",
            Keyword::Horizon => b"horizon",
            Keyword::Reply => b"reply",
            Keyword::State => b"state",
            Keyword::Memory => b"memory",
            Keyword::Counter => b"counter",
            Keyword::Profile => b"profile",
            Keyword::Tree => b"tree",
            Keyword::Level => b"level",
            Keyword::Bound => b"bound",
            Keyword::Place => b"place",
            Keyword::Order => b"order",
        }
    }

    /// Whether its command is a query.
    pub fn is_query(self) -> bool
        ensures { result ≡ is_query self }
    {
        matches!(
            self,
            Keyword::Reply
                | Keyword::State
                | Keyword::Memory
                | Keyword::Counter
                | Keyword::Profile
                | Keyword::Tree
                | Keyword::Level
                | Keyword::Bound
                | Keyword::Place
                | Keyword::Order
        )
    }

    /// The keyword that a word is, if it is one.
    pub fn read(word: &[u8]) -> Option<Keyword>
        ensures { result ≡ keyword_of word.now }
    {
        Keyword::ALL
            .iter()
            .find(|keyword| keyword.name() == word)
            .copied()
    }
}
