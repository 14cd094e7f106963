//! Queries of counters and reports.
ghost use Rattle.std.specs.Prelude.{◌≡◌};
ghost use Rattle.line_words.specs.Words.{words_of};
ghost use Rattle.commands.specs.Reports.{net_named, who_named, counter_query, in_net, level_query};

use crate::component::component;
use crate::numbers::{one_number, two_numbers};
use line_words::split_word;
use monitor_sums::Counter;
use omega_net::{Net, Shape};
use run_queries::Query;

/// `NAME WHO T0 T1`.
pub(crate) fn read_counter(shape: Shape, line: &[u8]) -> Option<Query>
    ensures { result ≡ counter_query shape (words_of line.now) }
{
    let (name, rest) = split_word(line)?;
    let (who, rest) = split_word(rest)?;
    let counter = Counter::from_name(name)?;
    let who = read_who(shape, who)?;
    let (from, to) = two_numbers(rest)?;
    Some(Query::Counter {
        counter,
        who,
        from,
        to,
    })
}

/// `NET M T`.
pub(crate) fn read_level(line: &[u8]) -> Option<Query>
    ensures { result ≡ level_query (words_of line.now) }
{
    let (net, rest) = split_word(line)?;
    let net = read_net(net)?;
    let (module, cycle) = two_numbers(rest)?;
    Some(Query::Level { net, module, cycle })
}

/// A network and a number.
pub(crate) fn read_in_net(line: &[u8]) -> Option<(Net, u32)>
    ensures { result ≡ in_net (words_of line.now) }
{
    let (net, rest) = split_word(line)?;
    let net = read_net(net)?;
    let number = one_number(rest)?;
    Some((net, number))
}

/// `low` or `comb`.
fn read_net(word: &[u8]) -> Option<Net>
    ensures { result ≡ net_named word.now }
{
    if word == b"low".as_slice() {
        Some(Net::Low)
    } else if word == b"comb".as_slice() {
        Some(Net::Comb)
    } else {
        None
    }
}

/// `all`, or a component.
fn read_who(shape: Shape, word: &[u8]) -> Option<Option<u32>>
    ensures { result ≡ who_named shape word.now }
{
    if word == b"all".as_slice() {
        return Some(None);
    }
    Some(Some(component(shape, word)?))
}
