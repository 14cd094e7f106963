//! The shell's own words.
ghost use Rattle.std.specs.Prelude.{◌≡◌, None, Some, MatchOption};
ghost use Rattle.line_words.specs.Words.{words_of};
ghost use Rattle.lab_shell.specs.Words.{alone, asked_by, first_word, is_order_all, report_named, request_of, with_one, word_of};

use line_words::split_word;

/// What the shell is asked for itself.
#[derive(Clone, Copy, PartialEq, Eq, Debug)]
pub enum ShellWord {
    /// `quit`, where people type: the session ends.
    Quit,
    /// `help`: all commands.
    Help,
    /// `help COMMAND`.
    HelpOn,
    /// `show`: what the project is, in words.
    Show,
    /// `script P`: the entries of a processor.
    Script,
    /// `save F`: the project as a file.
    Save,
    /// `undo`: the last edit is taken back.
    Undo,
    /// `latency ..`: how long references waited.
    Latency,
    /// `done`: when each processor was done.
    Done,
    /// `trace P I`: where a reference was.
    Trace,
    /// `full`: which queues were full.
    Full,
    /// `busy ..`: how busy stages and modules were.
    Busy,
    /// `series ..`: what the run shows, cycle by cycle.
    Series,
    /// `order all`: the table of all references in their one order.
    OrderAll,
}

/// What a word asks for that stands alone.
fn alone(people: bool, word: &[u8]) -> Option<ShellWord>
    ensures { result ≡ alone people word.now }
{
    if people && word == b"quit".as_slice() {
        Some(ShellWord::Quit)
    } else if word == b"help".as_slice() {
        Some(ShellWord::Help)
    } else if word == b"show".as_slice() {
        Some(ShellWord::Show)
    } else if word == b"undo".as_slice() {
        Some(ShellWord::Undo)
    } else {
        None
    }
}

/// What a word asks for with one more behind it.
fn with_one(word: &[u8]) -> Option<ShellWord>
    ensures { result ≡ with_one word.now }
{
    if word == b"help".as_slice() {
        Some(ShellWord::HelpOn)
    } else if word == b"script".as_slice() {
        Some(ShellWord::Script)
    } else if word == b"save".as_slice() {
        Some(ShellWord::Save)
    } else {
        None
    }
}

/// The report of a name, which may have any words behind it.
fn report_named(word: &[u8]) -> Option<ShellWord>
    ensures { result ≡ report_named word.now }
{
    if word == b"latency".as_slice() {
        Some(ShellWord::Latency)
    } else if word == b"done".as_slice() {
        Some(ShellWord::Done)
    } else if word == b"trace".as_slice() {
        Some(ShellWord::Trace)
    } else if word == b"full".as_slice() {
        Some(ShellWord::Full)
    } else if word == b"busy".as_slice() {
        Some(ShellWord::Busy)
    } else if word == b"series".as_slice() {
        Some(ShellWord::Series)
    } else {
        None
    }
}

fn is_order_all(word: &[u8], argument: &[u8]) -> bool
    ensures { result ≡ is_order_all word.now argument.now }
{
    word == b"order".as_slice() && argument == b"all".as_slice()
}

/// What a word asks for that is no report, with these words behind it.
fn asked_by(people: bool, word: &[u8], behind: &[u8]) -> Option<ShellWord>
    ensures { result ≡ asked_by people word.now (words_of behind.now) }
{
    let Some((argument, more)) = split_word(behind) else {
        return alone(people, word);
    };
    if split_word(more).is_some() {
        return None;
    }
    if is_order_all(word, argument) {
        return Some(ShellWord::OrderAll);
    }
    with_one(word)
}

/// What a word asks for with these words behind it.
fn word_of(people: bool, word: &[u8], behind: &[u8]) -> Option<ShellWord>
    ensures { result ≡ word_of people word.now (words_of behind.now) }
{
    match report_named(word) {
        Some(report) => Some(report),
        None => asked_by(people, word, behind),
    }
}

/// What a line asks the shell for, where people type it or not, with the words behind its first one. None where it is no
/// request.
pub fn request(people: bool, line: &[u8]) -> Option<(ShellWord, &[u8])>
    ensures { MatchOption result (request_of people (words_of line.now) ≡ None) (λ p. request_of people (words_of line.now) ≡ Some (p.0, words_of p.1.now)) }
{
    let (first, behind) = split_word(line)?;
    let word = word_of(people, first, behind)?;
    Some((word, behind))
}

/// The first of some words; an empty one where there is none.
pub fn first_word(words: &[u8]) -> &[u8]
    ensures { result.now ≡ first_word (words_of words.now) }
{
    match split_word(words) {
        Some((word, _behind)) => word,
        None => b"".as_slice(),
    }
}
