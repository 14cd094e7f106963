//! How a session goes, and how it ends.
ghost use Rattle.std.specs.Prelude.{◌≡◌};
ghost use Rattle.lab_shell.specs.Talks.{is_people};

/// For whom a session answers.
#[derive(Clone, Copy, PartialEq, Eq, Debug)]
pub enum Voice {
    /// Whoever reads the answers of `hotspot`: nothing is written but these.
    Plain,
    /// People who type: there is a prompt before each line, and a reason behind each refusal.
    People,
    /// A program: each line is answered by one object of JSON in a line.
    Json,
}

impl Voice {
    pub(crate) fn is_people(self) -> bool
        ensures { result ≡ is_people self }
    {
        match self {
            Voice::People => true,
            Voice::Plain | Voice::Json => false,
        }
    }
}

/// Where an answer stands among those to one line.
#[derive(Clone, Copy, PartialEq, Eq, Debug)]
pub enum Seat {
    /// It is the only one.
    Alone,
    /// It is the first of several.
    First,
    /// It is behind another one.
    Later,
}

/// How a session goes.
#[derive(Clone, Copy, PartialEq, Eq, Debug)]
pub struct Manner {
    pub voice: Voice,
    /// The first refusal ends the session.
    pub strict: bool,
}

/// How a session ended.
#[derive(Clone, Copy, PartialEq, Eq, Debug)]
pub enum Ended {
    /// The input was at its end.
    Input,
    /// People typed `quit`.
    Quit,
    /// A line was refused in a strict session.
    Refused,
}
