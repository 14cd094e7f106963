//! A session: lines from a reader, answers to a writer.
ghost use Rattle.std.specs.Prelude.{◌≡◌, ◌≢◌, ◌⊎◌, ℕ, ◌<◌, ◌+◌, ◌-◌, ◌^◌, List, [], ◌∷◌, ◌++◌, Bool, true, false, not, Some, None, OnOk, OnErr, IfOk, MatchOption, length, map};
ghost use Rattle.std.specs.Io.{StopsAt};
ghost use Rattle.std.specs.IoError.{error_kind};
ghost use Rattle.std.specs.Io.KnownBytes.{Appends, Consumes};
ghost use Rattle.bench_shell.specs.Cause.{HasCause};
ghost use Rattle.bench_shell.specs.Output.{is_ok};
ghost use Rattle.bench_shell.specs.Steps.{has_lf};
ghost use Rattle.bench_shell.specs.Store.{store_of};
ghost use Rattle.line_words.specs.Words.{words_of};
ghost use Rattle.lab_shell.specs.Hints.{slip_of};
ghost use Rattle.lab_shell.specs.Sessions.{after_line, held};
ghost use Rattle.lab_shell.specs.Steps.{IsLine, Turned};
ghost use Rattle.lab_shell.specs.Json.{answer_object, seated, text_object};
ghost use Rattle.lab_shell.specs.Reasons.{told_line};
ghost use Rattle.lab_shell.specs.Talks.{IsDrained, answer_text, answer_to, closing, line_at, no_command_text, opening, people_text, prompt, is_refused, lines_in, refused_text, request_in, said_text, several, spoken, stop_at, stop_of, told_text, unsaved_text, Clerked, Helps, HelpsOn, InTurn, Obeyed, ObeyedAs, One, Requested, Talked, TalksPlainly};

use crate::clerk::{Clerk, Said};
use crate::help::{HELP, usage};
use crate::hint::slip;
use crate::json::{answer_object, text_object};
use crate::manner::{Ended, Manner, Seat, Voice};
use crate::range::lines_of_range;
use crate::reason::told_line;
use crate::undo::{edit_in, edited, undone};
use crate::word::{ShellWord, first_word, request};
use bench_core::Bench;
use bench_shell::{Answer, RunFault, Sink, answer_line, hand_on, write_bytes};
use edit_undo::Undos;
use std::alloc::{AllocError, Global};
use std::io::{BufRead, Error, ErrorKind};
use std::thread::Threads;

/// The longest line that is read as a command.
const LONGEST: usize = 4096;

/// What people are told of a line that is no command, before the name that one of its words may be.
const NO_COMMAND: &str = "bad command: there is no such command; is it ";

/// What stands before each line where people read.
const PROMPT: &str = "> ";

/// The next line with its LF; an empty one at the end of the input.
fn next_line<R: BufRead>(alloc: Global, reader: &mut R) -> Result<Vec<u8>, RunFault>
    ensures read { IfOk result (λ line. Consumes (R.remaining reader.old) (R.remaining reader.new) line.items) }
    ensures one { IfOk result (λ line. StopsAt line.items 10) }
    ensures end { IfOk result (λ line. has_lf line.items ≡ false → IsDrained (R.remaining reader.old) (R.remaining reader.new)) }
    ensures cause { HasCause result (Unit {0}) ⊥ ⊥ (Unit {0}) ⊥ }
{
    let mut line = Vec::new(alloc);
    match reader.read_until(b'\n', &mut line) {
        Ok(_) => Ok(line),
        Err(fault) => Err(read_fault(&fault)),
    }
}

/// What became of a session whose read failed: the line may have found no memory.
fn read_fault(fault: &Error) -> RunFault
    ensures memory { error_kind fault.now ≡ ErrorKind.OutOfMemory → result ≡ RunFault.Memory }
    ensures read { error_kind fault.now ≢ ErrorKind.OutOfMemory → result ≡ RunFault.Read }
{
    if fault.kind() == ErrorKind::OutOfMemory {
        RunFault::Memory
    } else {
        RunFault::Read
    }
}

/// The bytes of a line without its LF, and whether it had one.
fn without_end(line: &[u8]) -> (&[u8], bool)
    requires one { StopsAt line.now 10 }
    requires some { 0 < length line.now }
    ensures { IsLine line.now result.0.now result.1 }
{
    let Some((last, front)) = line.split_last() else {
        unreachable!()
    };
    if *last == b'\n' {
        (front, true)
    } else {
        (line, false)
    }
}

/// Writes the line of an answer, for people with the reason behind it.
fn put_line<W: Sink>(
    alloc: Global,
    people: bool,
    answer: &Answer,
    writer: &mut W,
) -> Result<(), RunFault>
    ensures ok { OnOk result (Appends (W.contents writer.old) (W.contents writer.new) (told_line people answer.now)) }
    ensures cause { HasCause result ⊥ (W.has_failed writer.new ≡ true) ⊥ (Unit {0}) ⊥ }
    ensures same_reference { W.lender writer.new ≡ W.lender writer.old }
{
    let text = match told_line(alloc, people, answer) {
        Ok(text) => text,
        Err(_) => return Err(RunFault::Memory),
    };
    write_bytes(writer, text.as_bytes())
}

/// Writes an answer as an object.
fn put_object<W: Sink>(
    alloc: Global,
    seat: Seat,
    answer: &Answer,
    writer: &mut W,
) -> Result<(), RunFault>
    ensures ok { OnOk result (Appends (W.contents writer.old) (W.contents writer.new) (seated seat (answer_object answer.now))) }
    ensures cause { HasCause result ⊥ (W.has_failed writer.new ≡ true) ⊥ (Unit {0}) ⊥ }
    ensures same_reference { W.lender writer.new ≡ W.lender writer.old }
{
    let object = match answer_object(alloc, seat, answer) {
        Ok(object) => object,
        Err(_) => return Err(RunFault::Memory),
    };
    write_bytes(writer, object.as_slice())
}

/// Writes an answer.
pub(crate) fn put_answer<W: Sink>(
    alloc: Global,
    voice: Voice,
    seat: Seat,
    answer: &Answer,
    writer: &mut W,
) -> Result<(), RunFault>
    ensures ok { OnOk result (Appends (W.contents writer.old) (W.contents writer.new) (answer_text voice seat answer.now)) }
    ensures cause { HasCause result ⊥ (W.has_failed writer.new ≡ true) ⊥ (Unit {0}) ⊥ }
    ensures same_reference { W.lender writer.new ≡ W.lender writer.old }
{
    match voice {
        Voice::Plain => put_line(alloc, false, answer, writer),
        Voice::People => put_line(alloc, true, answer, writer),
        Voice::Json => put_object(alloc, seat, answer, writer),
    }
}

/// Writes that a line is no command, but has a word that may be this name.
fn put_name<W: Sink>(name: &[u8], writer: &mut W) -> Result<(), RunFault>
    ensures ok { OnOk result (Appends (W.contents writer.old) (W.contents writer.new) (no_command_text (Some name.now))) }
    ensures cause { HasCause result ⊥ (W.has_failed writer.new ≡ true) ⊥ ⊥ ⊥ }
    ensures same_reference { W.lender writer.new ≡ W.lender writer.old }
{
    match write_bytes(writer, NO_COMMAND.as_bytes()) {
        Ok(()) => {}
        Err(fault) => return Err(fault),
    }
    match write_bytes(writer, name) {
        Ok(()) => {}
        Err(fault) => return Err(fault),
    }
    write_bytes(writer, b"?\n".as_slice())
}

/// Writes that a line is no command, for people.
fn put_no_command<W: Sink>(alloc: Global, line: &[u8], writer: &mut W) -> Result<(), RunFault>
    ensures ok { OnOk result (Appends (W.contents writer.old) (W.contents writer.new) (no_command_text (slip_of (words_of line.now)))) }
    ensures cause { HasCause result ⊥ (W.has_failed writer.new ≡ true) ⊥ (Unit {0}) ⊥ }
    ensures same_reference { W.lender writer.new ≡ W.lender writer.old }
{
    match slip(alloc, line) {
        Ok(Some(name)) => put_name(name, writer),
        Ok(None) => put_line(alloc, true, &Answer::BadCommand, writer),
        Err(_) => Err(RunFault::Memory),
    }
}

/// Writes for people what a line is answered that is no request.
fn put_for_people<W: Sink>(
    alloc: Global,
    line: &[u8],
    is_whole: bool,
    answer: &Answer,
    writer: &mut W,
) -> Result<(), RunFault>
    ensures ok { OnOk result (Appends (W.contents writer.old) (W.contents writer.new) (people_text (line_at is_whole line.now) answer.now)) }
    ensures cause { HasCause result ⊥ (W.has_failed writer.new ≡ true) ⊥ (Unit {0}) ⊥ }
    ensures same_reference { W.lender writer.new ≡ W.lender writer.old }
{
    if !is_whole {
        return put_line(alloc, true, answer, writer);
    }
    match answer {
        Answer::BadCommand => put_no_command(alloc, line, writer),
        Answer::Accepted(_)
        | Answer::Told(..)
        | Answer::Refused(_)
        | Answer::Bad(_)
        | Answer::BadLine
        | Answer::BadCut => put_line(alloc, true, answer, writer),
    }
}

/// Writes what a line is answered that is no request.
fn put_told<W: Sink>(
    alloc: Global,
    voice: Voice,
    seat: Seat,
    line: &[u8],
    is_whole: bool,
    answer: &Answer,
    writer: &mut W,
) -> Result<(), RunFault>
    ensures ok { OnOk result (Appends (W.contents writer.old) (W.contents writer.new) (told_text voice seat (line_at is_whole line.now) answer.now)) }
    ensures cause { HasCause result ⊥ (W.has_failed writer.new ≡ true) ⊥ (Unit {0}) ⊥ }
    ensures same_reference { W.lender writer.new ≡ W.lender writer.old }
{
    match voice {
        Voice::People => put_for_people(alloc, line, is_whole, answer, writer),
        Voice::Plain | Voice::Json => put_answer(alloc, voice, seat, answer, writer),
    }
}

/// What a line is answered that is no request. What takes its edit back is noted where that is accepted.
#[tactic(auto, using(crate::proofs::Undoing::long_session, crate::proofs::Undoing::cut_session, crate::proofs::Undoing::edit_session, crate::proofs::Undoing::other_session, crate::proofs::Undoing::edit_answer))]
fn answer_of<T: Threads + Sync>(
    rt: &T,
    alloc: Global,
    bench: &mut Bench,
    undos: &mut Undos,
    line: &[u8],
    is_whole: bool,
) -> Result<Answer, RunFault>
    ensures answer { IfOk result (λ a. a ≡ answer_to (store_of bench.old) (line_at is_whole line.now)) }
    ensures session { OnOk result (held (store_of bench.new) undos.new ≡ after_line (held (store_of bench.old) undos.old) (line_at is_whole line.now)) }
    ensures kept { OnErr result (store_of bench.new ≡ store_of bench.old) }
    ensures cause { HasCause result ⊥ ⊥ ⊥ (Unit {0}) (bench.new.table.clock ≡ 2 ^ 64 - 1) }
{
    if line.len() > LONGEST {
        return Ok(Answer::BadLine);
    }
    if !is_whole {
        return Ok(Answer::BadCut);
    }
    match edit_in(bench, line) {
        Some(edit) => edited(alloc, bench, undos, edit),
        None => answer_line(rt, bench, line),
    }
}

/// Whether an answer rests on the edits so far, so that nothing was refused.
pub(crate) fn is_taken(answer: &Answer) -> bool
    ensures { result ≡ is_ok answer.now }
{
    match answer {
        Answer::Accepted(_) | Answer::Told(..) => true,
        Answer::Refused(_)
        | Answer::Bad(_)
        | Answer::BadLine
        | Answer::BadCut
        | Answer::BadCommand => false,
    }
}

/// How a request ends the session that was refused, or wasn't.
pub(crate) fn stop_at(manner: Manner, is_bad: bool) -> Option<Ended>
    ensures { result ≡ stop_at manner is_bad }
{
    if manner.strict && is_bad {
        Some(Ended::Refused)
    } else {
        None
    }
}

/// How a line ends the session that is no request.
fn stop_of(manner: Manner, is_whole: bool, is_bad: bool) -> Option<Ended>
    ensures { (line : List ℕ) → result ≡ stop_of manner (line_at is_whole line) is_bad }
{
    if is_whole {
        stop_at(manner, is_bad)
    } else if manner.strict {
        Some(Ended::Refused)
    } else {
        Some(Ended::Input)
    }
}

/// Obeys a line that is no request: how it ends the session.
fn obeyed<T: Threads + Sync, W: Sink>(
    rt: &T,
    alloc: Global,
    manner: Manner,
    seat: Seat,
    bench: &mut Bench,
    undos: &mut Undos,
    line: &[u8],
    is_whole: bool,
    writer: &mut W,
) -> Result<Option<Ended>, RunFault>
    ensures ok { IfOk result (λ stop. (answer : List ℕ) × Appends (W.contents writer.old) (W.contents writer.new) answer
        × Obeyed manner seat (held (store_of bench.old) undos.old) (line_at is_whole line.now) answer (held (store_of bench.new) undos.new) stop) }
    ensures cause { HasCause result ⊥ (W.has_failed writer.new ≡ true) ⊥ (Unit {0}) (bench.new.table.clock ≡ 2 ^ 64 - 1) }
    ensures same_reference { W.lender writer.new ≡ W.lender writer.old }
{
    let answer = match answer_of(rt, alloc, bench, undos, line, is_whole) {
        Ok(answer) => answer,
        Err(fault) => return Err(fault),
    };
    let stop = stop_of(manner, is_whole, !is_taken(&answer));
    match put_told(alloc, manner.voice, seat, line, is_whole, &answer, writer) {
        Ok(()) => Ok(stop),
        Err(fault) => Err(fault),
    }
}

/// The lines that a line stands for, by a range of processors.
fn lines_in(alloc: Global, line: &[u8], is_whole: bool) -> Result<Vec<Vec<u8>>, AllocError>
    ensures { IfOk result (λ v. map (λ l. l.items) v.items ≡ lines_in (line_at is_whole line.now)) }
{
    if !is_whole || line.len() > LONGEST {
        return Ok(Vec::new(alloc));
    }
    lines_of_range(alloc, line)
}

/// Obeys these commands in turn, up to the first that ends the session: how that does.
fn in_turn<T: Threads + Sync, W: Sink>(
    rt: &T,
    alloc: Global,
    manner: Manner,
    bench: &mut Bench,
    undos: &mut Undos,
    lines: &[Vec<u8>],
    writer: &mut W,
) -> Result<Option<Ended>, RunFault>
    ensures ok { IfOk result (λ stop. (answer : List ℕ) × Appends (W.contents writer.old) (W.contents writer.new) answer
        × InTurn manner Seat.First (held (store_of bench.old) undos.old) (map (λ l. l.items) lines.now) answer (held (store_of bench.new) undos.new) stop) }
    ensures cause { HasCause result ⊥ (W.has_failed writer.new ≡ true) ⊥ (Unit {0}) (bench.new.table.clock ≡ 2 ^ 64 - 1) }
    ensures same_reference { W.lender writer.new ≡ W.lender writer.old }
{
    let mut seat = Seat::First;
    for line in lines {
        match obeyed(
            rt,
            alloc,
            manner,
            seat,
            bench,
            undos,
            line.as_slice(),
            true,
            writer,
        ) {
            Ok(None) => seat = Seat::Later,
            Ok(Some(ended)) => return Ok(Some(ended)),
            Err(fault) => return Err(fault),
        }
    }
    Ok(None)
}

/// Writes what stands before several answers to one line.
pub(crate) fn put_opening<W: Sink>(voice: Voice, writer: &mut W) -> Result<(), RunFault>
    ensures ok { OnOk result (Appends (W.contents writer.old) (W.contents writer.new) (opening voice)) }
    ensures cause { HasCause result ⊥ (W.has_failed writer.new ≡ true) ⊥ ⊥ ⊥ }
    ensures same_reference { W.lender writer.new ≡ W.lender writer.old }
{
    let text = match voice {
        Voice::Plain | Voice::People => "",
        Voice::Json => "{\"answers\":[",
    };
    write_bytes(writer, text.as_bytes())
}

/// Writes what stands behind several answers to one line.
pub(crate) fn put_closing<W: Sink>(voice: Voice, writer: &mut W) -> Result<(), RunFault>
    ensures ok { OnOk result (Appends (W.contents writer.old) (W.contents writer.new) (closing voice)) }
    ensures cause { HasCause result ⊥ (W.has_failed writer.new ≡ true) ⊥ ⊥ ⊥ }
    ensures same_reference { W.lender writer.new ≡ W.lender writer.old }
{
    let text = match voice {
        Voice::Plain | Voice::People => "",
        Voice::Json => "]}\n",
    };
    write_bytes(writer, text.as_bytes())
}

/// Obeys these commands in turn, as they are written for one line: how that ends the session.
#[tactic(auto, using(crate::proofs::Ranging::all_between))]
fn all_obeyed<T: Threads + Sync, W: Sink>(
    rt: &T,
    alloc: Global,
    manner: Manner,
    bench: &mut Bench,
    undos: &mut Undos,
    lines: &[Vec<u8>],
    writer: &mut W,
) -> Result<Option<Ended>, RunFault>
    ensures ok { IfOk result (λ stop. (answers : List ℕ) × Appends (W.contents writer.old) (W.contents writer.new) (several manner.voice answers)
        × InTurn manner Seat.First (held (store_of bench.old) undos.old) (map (λ l. l.items) lines.now) answers (held (store_of bench.new) undos.new) stop) }
    ensures cause { HasCause result ⊥ (W.has_failed writer.new ≡ true) ⊥ (Unit {0}) (bench.new.table.clock ≡ 2 ^ 64 - 1) }
    ensures same_reference { W.lender writer.new ≡ W.lender writer.old }
{
    match put_opening(manner.voice, writer) {
        Ok(()) => {}
        Err(fault) => return Err(fault),
    }
    let stop = match in_turn(rt, alloc, manner, bench, undos, lines, writer) {
        Ok(stop) => stop,
        Err(fault) => return Err(fault),
    };
    match put_closing(manner.voice, writer) {
        Ok(()) => Ok(stop),
        Err(fault) => Err(fault),
    }
}

/// Obeys a line that is no request, or each of the lines that it stands for: how that ends the session.
fn obeyed_as<T: Threads + Sync, W: Sink>(
    rt: &T,
    alloc: Global,
    manner: Manner,
    bench: &mut Bench,
    undos: &mut Undos,
    line: &[u8],
    is_whole: bool,
    writer: &mut W,
) -> Result<Option<Ended>, RunFault>
    ensures ok { IfOk result (λ stop. (answer : List ℕ) × Appends (W.contents writer.old) (W.contents writer.new) answer
        × ObeyedAs manner (held (store_of bench.old) undos.old) (line_at is_whole line.now) (lines_in (line_at is_whole line.now)) answer (held (store_of bench.new) undos.new) stop) }
    ensures cause { HasCause result ⊥ (W.has_failed writer.new ≡ true) ⊥ (Unit {0}) (bench.new.table.clock ≡ 2 ^ 64 - 1) }
    ensures same_reference { W.lender writer.new ≡ W.lender writer.old }
{
    let lines = match lines_in(alloc, line, is_whole) {
        Ok(lines) => lines,
        Err(_) => return Err(RunFault::Memory),
    };
    if lines.is_empty() {
        obeyed(
            rt,
            alloc,
            manner,
            Seat::Alone,
            bench,
            undos,
            line,
            is_whole,
            writer,
        )
    } else {
        all_obeyed(rt, alloc, manner, bench, undos, lines.as_slice(), writer)
    }
}

/// Writes that a file wasn't written.
fn put_unsaved<W: Sink>(voice: Voice, writer: &mut W) -> Result<(), RunFault>
    ensures ok { OnOk result (Appends (W.contents writer.old) (W.contents writer.new) (unsaved_text voice)) }
    ensures cause { HasCause result ⊥ (W.has_failed writer.new ≡ true) ⊥ ⊥ ⊥ }
    ensures same_reference { W.lender writer.new ≡ W.lender writer.old }
{
    let text = match voice {
        Voice::Plain => "bad file\n",
        Voice::People => "bad file: it can't be written\n",
        Voice::Json => "{\"bad\":\"file\",\"why\":\"it can't be written\"}\n",
    };
    write_bytes(writer, text.as_bytes())
}

/// Writes a text as an object.
fn put_text_object<W: Sink>(alloc: Global, text: &[u8], writer: &mut W) -> Result<(), RunFault>
    ensures ok { OnOk result (Appends (W.contents writer.old) (W.contents writer.new) (text_object text.now)) }
    ensures cause { HasCause result ⊥ (W.has_failed writer.new ≡ true) ⊥ (Unit {0}) ⊥ }
    ensures same_reference { W.lender writer.new ≡ W.lender writer.old }
{
    let object = match text_object(alloc, text) {
        Ok(object) => object,
        Err(_) => return Err(RunFault::Memory),
    };
    write_bytes(writer, object.as_slice())
}

/// Writes a text that is said to a request.
fn put_text<W: Sink>(
    alloc: Global,
    voice: Voice,
    text: &[u8],
    writer: &mut W,
) -> Result<(), RunFault>
    ensures ok { OnOk result (Appends (W.contents writer.old) (W.contents writer.new) (spoken voice text.now)) }
    ensures cause { HasCause result ⊥ (W.has_failed writer.new ≡ true) ⊥ (Unit {0}) ⊥ }
    ensures same_reference { W.lender writer.new ≡ W.lender writer.old }
{
    match voice {
        Voice::Plain | Voice::People => write_bytes(writer, text),
        Voice::Json => put_text_object(alloc, text, writer),
    }
}

/// Writes that a request is refused.
fn put_refused<W: Sink>(
    alloc: Global,
    voice: Voice,
    words: &[u8],
    answer: &Answer,
    writer: &mut W,
) -> Result<(), RunFault>
    ensures ok { OnOk result (Appends (W.contents writer.old) (W.contents writer.new) (refused_text voice (words_of words.now) answer.now)) }
    ensures cause { HasCause result ⊥ (W.has_failed writer.new ≡ true) ⊥ (Unit {0}) ⊥ }
    ensures same_reference { W.lender writer.new ≡ W.lender writer.old }
{
    put_told(alloc, voice, Seat::Alone, words, true, answer, writer)
}

/// Writes what a clerk said to some words.
fn put_said<W: Sink>(
    alloc: Global,
    voice: Voice,
    words: &[u8],
    said: &Said,
    writer: &mut W,
) -> Result<(), RunFault>
    ensures ok { OnOk result (Appends (W.contents writer.old) (W.contents writer.new) (said_text voice (words_of words.now) said.now)) }
    ensures cause { HasCause result ⊥ (W.has_failed writer.new ≡ true) ⊥ (Unit {0}) ⊥ }
    ensures same_reference { W.lender writer.new ≡ W.lender writer.old }
{
    match said {
        Said::Text(text) => put_text(alloc, voice, text.as_bytes(), writer),
        Said::Refused(answer) => put_refused(alloc, voice, words, answer, writer),
        Said::Unsaved => put_unsaved(voice, writer),
    }
}

/// Whether a request was refused.
fn is_refused(said: &Said) -> bool
    ensures { result ≡ is_refused said.now }
{
    match said {
        Said::Text(_) => false,
        Said::Refused(_) | Said::Unsaved => true,
    }
}

/// Writes what a clerk says to a request: how that ends the session.
fn clerked<C: Clerk, W: Sink>(
    alloc: Global,
    manner: Manner,
    clerk: &C,
    bench: &Bench,
    undos: &Undos,
    word: ShellWord,
    argument: &[u8],
    writer: &mut W,
) -> Result<Option<Ended>, RunFault>
    ensures ok { IfOk result (λ stop. (answer : List ℕ) × Appends (W.contents writer.old) (W.contents writer.new) answer
        × Clerked (C.says clerk.now) manner (held (store_of bench.now) undos.now) word (words_of argument.now) answer (held (store_of bench.now) undos.now) stop) }
    ensures cause { HasCause result ⊥ (W.has_failed writer.new ≡ true) ⊥ (Unit {0}) ⊥ }
    ensures same_reference { W.lender writer.new ≡ W.lender writer.old }
{
    let _ = undos;
    let said = match clerk.say(alloc, bench.project(), word, argument) {
        Ok(said) => said,
        Err(_) => return Err(RunFault::Memory),
    };
    match put_said(alloc, manner.voice, argument, &said, writer) {
        Ok(()) => Ok(stop_at(manner, is_refused(&said))),
        Err(fault) => Err(fault),
    }
}

/// Writes what a command does, or that there is no such command.
fn helped_on<W: Sink>(
    alloc: Global,
    manner: Manner,
    word: &[u8],
    writer: &mut W,
) -> Result<Option<Ended>, RunFault>
    ensures ok { IfOk result (λ stop. (answer : List ℕ) × Appends (W.contents writer.old) (W.contents writer.new) answer
        × HelpsOn manner answer stop) }
    ensures cause { HasCause result ⊥ (W.has_failed writer.new ≡ true) ⊥ (Unit {0}) ⊥ }
    ensures same_reference { W.lender writer.new ≡ W.lender writer.old }
{
    match usage(word) {
        Some(text) => match put_text(alloc, manner.voice, text.as_bytes(), writer) {
            Ok(()) => Ok(None),
            Err(fault) => Err(fault),
        },
        None => match put_answer(
            alloc,
            manner.voice,
            Seat::Alone,
            &Answer::BadCommand,
            writer,
        ) {
            Ok(()) => Ok(stop_at(manner, true)),
            Err(fault) => Err(fault),
        },
    }
}

/// Writes all commands.
fn helped<W: Sink>(alloc: Global, manner: Manner, writer: &mut W) -> Result<Option<Ended>, RunFault>
    ensures ok { IfOk result (λ stop. (answer : List ℕ) × Appends (W.contents writer.old) (W.contents writer.new) answer
        × Helps manner answer stop) }
    ensures cause { HasCause result ⊥ (W.has_failed writer.new ≡ true) ⊥ (Unit {0}) ⊥ }
    ensures same_reference { W.lender writer.new ≡ W.lender writer.old }
{
    match put_text(alloc, manner.voice, HELP.as_bytes(), writer) {
        Ok(()) => Ok(None),
        Err(fault) => Err(fault),
    }
}

/// Answers a request: how it ends the session.
fn requested<C: Clerk, W: Sink>(
    alloc: Global,
    manner: Manner,
    clerk: &C,
    bench: &mut Bench,
    undos: &mut Undos,
    word: ShellWord,
    argument: &[u8],
    writer: &mut W,
) -> Result<Option<Ended>, RunFault>
    ensures ok { IfOk result (λ stop. (answer : List ℕ) × Appends (W.contents writer.old) (W.contents writer.new) answer
        × Requested (C.says clerk.now) manner (held (store_of bench.old) undos.old) word (words_of argument.now) answer (held (store_of bench.new) undos.new) stop) }
    ensures cause { HasCause result ⊥ (W.has_failed writer.new ≡ true) ⊥ (Unit {0}) (bench.new.table.clock ≡ 2 ^ 64 - 1) }
    ensures same_reference { W.lender writer.new ≡ W.lender writer.old }
{
    match word {
        ShellWord::Quit => Ok(Some(Ended::Quit)),
        ShellWord::Help => helped(alloc, manner, writer),
        ShellWord::HelpOn => helped_on(alloc, manner, first_word(argument), writer),
        ShellWord::Show
        | ShellWord::Script
        | ShellWord::Save
        | ShellWord::Latency
        | ShellWord::Done
        | ShellWord::Trace
        | ShellWord::Full
        | ShellWord::Busy
        | ShellWord::Series
        | ShellWord::OrderAll => clerked(
            alloc, manner, clerk, bench, undos, word, argument, writer,
        ),
        ShellWord::Undo => undone(alloc, manner, bench, undos, writer),
    }
}

/// The request that a line is, with the words behind the first one.
fn asked(people: bool, line: &[u8], is_whole: bool) -> Option<(ShellWord, &[u8])>
    ensures { MatchOption result (request_in people (line_at is_whole line.now) ≡ None) (λ p. request_in people (line_at is_whole line.now) ≡ Some (p.0, words_of p.1.now)) }
{
    if !is_whole {
        return None;
    }
    if line.len() > LONGEST {
        return None;
    }
    request(people, line)
}

/// Answers a line: how it ends the session.
fn line_done<T: Threads + Sync, C: Clerk, W: Sink>(
    rt: &T,
    alloc: Global,
    manner: Manner,
    clerk: &C,
    bench: &mut Bench,
    undos: &mut Undos,
    line: &[u8],
    is_whole: bool,
    writer: &mut W,
) -> Result<Option<Ended>, RunFault>
    ensures ok { IfOk result (λ stop. (answer : List ℕ) × Appends (W.contents writer.old) (W.contents writer.new) answer
        × One (C.says clerk.now) manner (held (store_of bench.old) undos.old) (line_at is_whole line.now) answer (held (store_of bench.new) undos.new) stop) }
    ensures cause { HasCause result ⊥ (W.has_failed writer.new ≡ true) ⊥ (Unit {0}) (bench.new.table.clock ≡ 2 ^ 64 - 1) }
    ensures same_reference { W.lender writer.new ≡ W.lender writer.old }
{
    match asked(manner.voice.is_people(), line, is_whole) {
        Some((word, argument)) => requested(
            alloc, manner, clerk, bench, undos, word, argument, writer,
        ),
        None => obeyed_as(rt, alloc, manner, bench, undos, line, is_whole, writer),
    }
}

/// Writes the prompt where people read, and hands on all that was written.
fn put_prompt<W: Sink>(voice: Voice, writer: &mut W) -> Result<(), RunFault>
    ensures ok { OnOk result (Appends (W.contents writer.old) (W.contents writer.new) (prompt voice)) }
    ensures flushed { OnOk result (W.is_flushed writer.new ≡ true) }
    ensures cause { HasCause result ⊥ (W.has_failed writer.new ≡ true) ⊥ ⊥ ⊥ }
    ensures same_reference { W.lender writer.new ≡ W.lender writer.old }
{
    let text = if voice.is_people() { PROMPT } else { "" };
    match write_bytes(writer, text.as_bytes()) {
        Ok(()) => hand_on(writer),
        Err(fault) => Err(fault),
    }
}

/// Reads one line, behind a prompt, and answers it: how that ends the session.
fn turn<T: Threads + Sync, C: Clerk, R: BufRead, W: Sink>(
    rt: &T,
    alloc: Global,
    manner: Manner,
    clerk: &C,
    reader: &mut R,
    writer: &mut W,
    bench: &mut Bench,
    undos: &mut Undos,
) -> Result<Option<Ended>, RunFault>
    ensures ok { IfOk result (Turned (C.says clerk.now) manner (R.remaining reader.old) (R.remaining reader.new)
        (W.contents writer.old) (W.contents writer.new) (held (store_of bench.old) undos.old) (held (store_of bench.new) undos.new)) }
    ensures cause { HasCause result (Unit {0}) (W.has_failed writer.new ≡ true) ⊥ (Unit {0}) (bench.new.table.clock ≡ 2 ^ 64 - 1) }
    ensures same_reference { W.lender writer.new ≡ W.lender writer.old }
{
    match put_prompt(manner.voice, writer) {
        Ok(()) => {}
        Err(fault) => return Err(fault),
    }
    let line = match next_line(alloc, reader) {
        Ok(line) => line,
        Err(fault) => return Err(fault),
    };
    if line.is_empty() {
        return Ok(Some(Ended::Input));
    }
    let (bytes, is_whole) = without_end(line.as_slice());
    line_done(
        rt, alloc, manner, clerk, bench, undos, bytes, is_whole, writer,
    )
}

/// Answers each line that comes, over a session that has nothing to take back.
fn talk_over<T: Threads + Sync, C: Clerk, R: BufRead, W: Sink>(
    rt: &T,
    alloc: Global,
    manner: Manner,
    clerk: &C,
    reader: &mut R,
    writer: &mut W,
    bench: &mut Bench,
    undos: &mut Undos,
) -> Result<Ended, RunFault>
    requires { undos.old ≡ [] }
    ensures talks { IfOk result (Talked (C.says clerk.now) manner (R.remaining reader.old) (R.remaining reader.new)
        (W.contents writer.old) (W.contents writer.new) (store_of bench.old) (store_of bench.new)) }
    ensures plain { manner.voice ≡ Voice.Plain → OnOk result (TalksPlainly (R.remaining reader.old) (R.remaining reader.new)
        (W.contents writer.old) (W.contents writer.new) (store_of bench.old) (store_of bench.new)) }
    ensures cause { HasCause result (Unit {0}) (W.has_failed writer.new ≡ true) ⊥ (Unit {0}) (bench.new.table.clock ≡ 2 ^ 64 - 1) }
    ensures same_writer { W.lender writer.new ≡ W.lender writer.old }
{
    'turns: for _ in 0..u64::MAX {
        match turn(rt, alloc, manner, clerk, reader, writer, bench, undos) {
            Ok(None) => {}
            Ok(Some(ended)) => {
                return match hand_on(writer) {
                    Ok(()) => Ok(ended),
                    Err(fault) => Err(fault),
                };
            }
            Err(fault) => return Err(fault),
        }
    }
    Err(RunFault::Read)
}

/// Answers each line that comes, until the input ends, people type `quit`, or in a strict session a line is refused. What
/// was written is flushed before more is read, and at the end. A line takes as much memory as it has bytes. Threads take part
/// in reports alone.
///
/// # Errors
///
/// `Read` where the reader failed, `Write` where the writer failed or took nothing, `Memory` where a growth was refused, and
/// `Clock` where the bench's clock is at its last value. The lines that were answered before stand as they were obeyed.
pub fn talk<T: Threads + Sync, C: Clerk, R: BufRead, W: Sink>(
    rt: &T,
    alloc: Global,
    manner: Manner,
    clerk: &C,
    reader: &mut R,
    writer: &mut W,
    bench: &mut Bench,
) -> Result<Ended, RunFault>
    ensures talks { IfOk result (Talked (C.says clerk.now) manner (R.remaining reader.old) (R.remaining reader.new)
        (W.contents writer.old) (W.contents writer.new) (store_of bench.old) (store_of bench.new)) }
    ensures plain { manner.voice ≡ Voice.Plain → OnOk result (TalksPlainly (R.remaining reader.old) (R.remaining reader.new)
        (W.contents writer.old) (W.contents writer.new) (store_of bench.old) (store_of bench.new)) }
    ensures cause { HasCause result (Unit {0}) (W.has_failed writer.new ≡ true) ⊥ (Unit {0}) (bench.new.table.clock ≡ 2 ^ 64 - 1) }
    ensures same_writer { W.lender writer.new ≡ W.lender writer.old }
{
    let mut undos = Undos::new(alloc);
    talk_over(rt, alloc, manner, clerk, reader, writer, bench, &mut undos)
}
