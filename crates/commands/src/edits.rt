//! Lines that are edits.
ghost use Rattle.std.specs.Prelude.{◌≡◌};
ghost use Rattle.line_words.specs.Words.{words_of};
ghost use Rattle.commands.specs.Commands.{entry_edit, page_edit, depth_edit, combine_edit, switch_named, edit_of};

use crate::keyword::Keyword;
use crate::numbers::{is_blank, one_number, three_numbers, two_numbers};
use crate::queue::queue as named_queue;
use line_words::{number, split_word};
use project_book::{Edit, read_entry};

/// The edit of a keyword, by the words behind it.
pub(crate) fn read_edit(keyword: Keyword, line: &[u8]) -> Option<Edit>
    ensures { result ≡ edit_of keyword (words_of line.now) }
{
    match keyword {
        Keyword::Entry => read_entry_edit(line),
        Keyword::Cut => {
            let (proc, length) = two_numbers(line)?;
            Some(Edit::Cut { proc, length })
        }
        Keyword::Word => {
            let (address, word) = two_numbers(line)?;
            Some(Edit::Word { address, word })
        }
        Keyword::Page => read_page(line),
        Keyword::Depth => read_depth(line),
        Keyword::Wait => Some(Edit::WaitDepth(one_number(line)?)),
        Keyword::Combine => read_combine(line),
        Keyword::Window => Some(Edit::Window(one_number(line)?)),
        Keyword::Horizon => Some(Edit::Horizon(one_number(line)?)),
        _ => None,
    }
}

/// `P I ENTRY`.
fn read_entry_edit(line: &[u8]) -> Option<Edit>
    ensures { result ≡ entry_edit (words_of line.now) }
{
    let (proc, rest) = split_word(line)?;
    let (index, rest) = split_word(rest)?;
    let proc = number(proc)?;
    let index = number(index)?;
    let entry = read_entry(rest)?;
    Some(Edit::Entry { proc, index, entry })
}

/// `G AMOUNT BASE`.
fn read_page(line: &[u8]) -> Option<Edit>
    ensures { result ≡ page_edit (words_of line.now) }
{
    let (page, (amount, base)) = three_numbers(line)?;
    Some(Edit::Page { page, amount, base })
}

/// `Q D`.
fn read_depth(line: &[u8]) -> Option<Edit>
    ensures { result ≡ depth_edit (words_of line.now) }
{
    let (queue, rest) = split_word(line)?;
    let (depth, rest) = split_word(rest)?;
    if !is_blank(rest) {
        return None;
    }
    let queue = named_queue(queue)?;
    let depth = number(depth)?;
    Some(Edit::Depth { queue, depth })
}

/// `S on` or `S off`.
fn read_combine(line: &[u8]) -> Option<Edit>
    ensures { result ≡ combine_edit (words_of line.now) }
{
    let (stage, rest) = split_word(line)?;
    let (on, rest) = split_word(rest)?;
    if !is_blank(rest) {
        return None;
    }
    let stage = number(stage)?;
    let on = read_switch(on)?;
    Some(Edit::Combine { stage, on })
}

/// `on` or `off`.
fn read_switch(word: &[u8]) -> Option<bool>
    ensures { result ≡ switch_named word.now }
{
    if word == b"on".as_slice() {
        Some(true)
    } else if word == b"off".as_slice() {
        Some(false)
    } else {
        None
    }
}
