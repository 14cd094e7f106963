//! Lines that are queries.
ghost use Rattle.std.specs.Prelude.{◌≡◌};
ghost use Rattle.line_words.specs.Words.{words_of};
ghost use Rattle.commands.specs.Commands.{query_of, state_query};

use crate::component::component;
use crate::keyword::Keyword;
use crate::numbers::{is_blank, one_number, three_numbers, two_numbers};
use crate::reports::{read_counter, read_in_net, read_level};
use line_words::{number, split_word};
use omega_net::Shape;
use run_queries::Query;

/// The query of a keyword, by the words behind it.
pub(crate) fn read_query(shape: Shape, keyword: Keyword, line: &[u8]) -> Option<Query>
    ensures { result ≡ query_of shape keyword (words_of line.now) }
{
    match keyword {
        Keyword::Reply => {
            let (proc, issue) = two_numbers(line)?;
            Some(Query::Reply { proc, issue })
        }
        Keyword::State => read_state(shape, line),
        Keyword::Memory => {
            let (address, cycle) = two_numbers(line)?;
            Some(Query::Memory { address, cycle })
        }
        Keyword::Counter => read_counter(shape, line),
        Keyword::Profile => {
            let (net, stage) = read_in_net(line)?;
            Some(Query::Profile { net, stage })
        }
        Keyword::Tree => {
            let (net, module) = read_in_net(line)?;
            Some(Query::Tree { net, module })
        }
        Keyword::Level => read_level(line),
        Keyword::Bound => {
            let (a, (b, p)) = three_numbers(line)?;
            Some(Query::Bound { a, b, p })
        }
        Keyword::Place => Some(Query::Place {
            address: one_number(line)?,
        }),
        Keyword::Order => Some(Query::Order {
            address: one_number(line)?,
        }),
        _ => None,
    }
}

/// `C T`.
fn read_state(shape: Shape, line: &[u8]) -> Option<Query>
    ensures { result ≡ state_query shape (words_of line.now) }
{
    let (name, rest) = split_word(line)?;
    let (cycle, rest) = split_word(rest)?;
    if !is_blank(rest) {
        return None;
    }
    let component = component(shape, name)?;
    let cycle = number(cycle)?;
    Some(Query::State { component, cycle })
}
