//! Commands.
ghost use Rattle.std.specs.Prelude.{◌≡◌};
ghost use Rattle.line_words.specs.Words.{words_of};
ghost use Rattle.commands.specs.Commands.{command_of};

use crate::edits::read_edit;
use crate::keyword::Keyword;
use crate::queries::read_query;
use line_words::split_word;
use omega_net::Shape;
use project_book::Edit;
use run_queries::Query;

/// What a line asks for.
#[derive(Clone, Copy, PartialEq, Eq, Debug)]
pub enum Command {
    Edit(Edit),
    Query(Query),
}

impl Command {
    /// The command that a line is for a machine of this shape, or None where it is none.
    ///
    /// The line is without its LF. Only its form is looked at: numbers may be past a project's limits.
    pub fn parse(shape: Shape, line: &[u8]) -> Option<Command>
        ensures { result ≡ command_of shape (words_of line.now) }
    {
        let (word, rest) = split_word(line)?;
        let keyword = Keyword::read(word)?;
        if keyword.is_query() {
            Some(Command::Query(read_query(shape, keyword, rest)?))
        } else {
            Some(Command::Edit(read_edit(keyword, rest)?))
        }
    }
}
