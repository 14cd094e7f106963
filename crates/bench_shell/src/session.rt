//! From a reader to a writer, line by line.
ghost use Rattle.std.specs.Prelude.{◌≡◌, ◌⊎◌, ℕ, List, [], ◌∷◌, ◌++◌, true, false, OnOk, OnErr, IfOk, IfErr, IfSome, Some, ◌≤◌, length};
ghost use Rattle.std.specs.Io.KnownBytes.{Appends, Keeps};
ghost use Rattle.bench_shell.specs.Cause.{HasCause, CantRead};
ghost use Rattle.project_book.specs.declared.edit.Edit.{Edit as AnyEdit};
ghost use Rattle.bench_shell.specs.Store.{Store, version_in, edited_store};
ghost use Rattle.bench_shell.specs.Text.{line_text};
ghost use Rattle.bench_shell.specs.Output.{reply, after, command_in, output, is_ok, none_ok, lines_text, has_body, MayStop, StopsAt, AnswersBody, AnswersAll, AnswersPart, AnswersOwn};
ghost use Rattle.bench_shell.specs.Own.{edit_of, EditsAsRead};
ghost use Rattle.bench_shell.specs.Lines.{Whole, lines_of};
ghost use Rattle.bench_shell.specs.Steps.{Holds, AnswersLine, GoesOn, FailsOn, EditsLine, EditsOn, EditsIn};
ghost use Rattle.bench_shell.specs.declared.answer.Answer.{Answer as AnyAnswer};

use crate::answer::Answer;
use crate::desk::Desk;
use crate::ends::{Reading, Sink, Source, Writing};
use crate::fault::RunFault;
use crate::held::Held;
use bench_core::Told;
use commands::Command;
use omega_net::Shape;
use project_book::EditFault;
use std::alloc::Global;
use std::io::{Read, Write};
use std::thread::Threads;

/// Writes all of the bytes.
///
/// # Errors
///
/// `Write` where the writer failed or took nothing. A beginning of the bytes was then written.
pub fn write_bytes<W: Sink>(writer: &mut W, bytes: &[u8]) -> Result<(), RunFault>
    ensures ok { OnOk result (Appends (W.contents writer.old) (W.contents writer.new) bytes.now) }
    ensures err { OnErr result ((told later : List ℕ) × Appends (W.contents writer.old) (W.contents writer.new) told × (bytes.now ≡ told ++ later)) }
    ensures cause { HasCause result ⊥ (W.has_failed writer.new ≡ true) ⊥ ⊥ ⊥ }
    ensures same_reference { W.lender writer.new ≡ W.lender writer.old }
{
    let mut rest = bytes;
    while !rest.is_empty() {
        match writer.write(rest) {
            Ok(count) => rest = rest.split_at(count).1,
            Err(_) => return Err(RunFault::Write),
        }
    }
    Ok(())
}

/// Writes the line of an answer that has a body.
fn write_body<W: Sink>(alloc: Global, writer: &mut W, answer: Answer) -> Result<(), RunFault>
    requires { has_body answer ≡ true }
    ensures ok { OnOk result (Appends (W.contents writer.old) (W.contents writer.new) (line_text answer)) }
    ensures err { OnErr result ((told later : List ℕ) × Appends (W.contents writer.old) (W.contents writer.new) told × (line_text answer ≡ told ++ later)) }
    ensures cause { HasCause result ⊥ (W.has_failed writer.new ≡ true) ⊥ (has_body answer ≡ true) ⊥ }
    ensures same_reference { W.lender writer.new ≡ W.lender writer.old }
{
    let Ok(text) = format!(in alloc; "{answer}\n") else {
        return Err(RunFault::Memory);
    };
    write_bytes(writer, text.as_bytes())
}

/// Writes the line of an answer. Only that of an answer with a body takes memory.
#[tactic(auto, using(crate::proofs::Steps::some_body))]
fn write_line<W: Sink>(alloc: Global, writer: &mut W, answer: Answer) -> Result<(), RunFault>
    ensures ok { OnOk result (Appends (W.contents writer.old) (W.contents writer.new) (line_text answer)) }
    ensures err { OnErr result ((told later : List ℕ) × Appends (W.contents writer.old) (W.contents writer.new) told × (line_text answer ≡ told ++ later)) }
    ensures cause { HasCause result ⊥ (W.has_failed writer.new ≡ true) ⊥ (has_body answer ≡ true) ⊥ }
    ensures same_reference { W.lender writer.new ≡ W.lender writer.old }
{
    match answer.short_line() {
        Some(line) => write_bytes(writer, line.as_str().as_bytes()),
        None => write_body(alloc, writer, answer),
    }
}

/// Hands on all that was written.
///
/// # Errors
///
/// `Write` where that failed.
pub fn hand_on<W: Sink>(writer: &mut W) -> Result<(), RunFault>
    ensures bytes { Keeps (W.contents writer.old) (W.contents writer.new) }
    ensures flushed { OnOk result (W.is_flushed writer.new ≡ true) }
    ensures cause { HasCause result ⊥ (W.has_failed writer.new ≡ true) ⊥ ⊥ ⊥ }
    ensures same_reference { W.lender writer.new ≡ W.lender writer.old }
{
    match writer.flush() {
        Ok(()) => Ok(()),
        Err(_) => Err(RunFault::Write),
    }
}

/// Writes the line of an answer, and flushes.
fn tell<W: Sink>(alloc: Global, writer: &mut W, answer: Answer) -> Result<(), RunFault>
    ensures ok { OnOk result (Appends (W.contents writer.old) (W.contents writer.new) (line_text answer)) }
    ensures err { OnErr result ((told later : List ℕ) × Appends (W.contents writer.old) (W.contents writer.new) told × (line_text answer ≡ told ++ later)) }
    ensures flushed { OnOk result (W.is_flushed writer.new ≡ true) }
    ensures cause { HasCause result ⊥ (W.has_failed writer.new ≡ true) ⊥ (has_body answer ≡ true) ⊥ }
    ensures same_reference { W.lender writer.new ≡ W.lender writer.old }
{
    match write_line(alloc, writer, answer) {
        Ok(()) => hand_on(writer),
        Err(fault) => Err(fault),
    }
}

/// Does what a command says. The version is that of this run's own edits.
fn obey<T: Threads + Sync, D: Desk>(
    rt: &T,
    desk: &mut D,
    version: &mut u32,
    command: Option<Command>,
) -> Result<Answer, RunFault>
    requires { version.old ≡ version_in (D.store desk.old) }
    ensures version { OnOk result (version.new ≡ version_in (D.store desk.new)) }
    ensures earlier { D.is_alone desk.new → D.is_alone desk.old }
    ensures cause { HasCause result ⊥ ⊥ (¬ D.is_alone desk.new) (Unit {0}) (D.clock_is_spent desk.new) }
    ensures answer { D.is_alone desk.new → IfOk result (λ a. a ≡ reply (D.store desk.old) command) }
    ensures store { D.is_alone desk.new → OnOk result (D.store desk.new ≡ after (D.store desk.old) command) }
    ensures kept { D.is_alone desk.new → OnErr result (D.store desk.new ≡ D.store desk.old) }
    ensures stops { D.is_alone desk.new → IfErr result (λ f. MayStop (D.clock_is_spent desk.new) f (D.store desk.old) command) }
    ensures edits { (D.store desk.new ≡ D.store desk.old)
        ⊎ ((e : AnyEdit) × (edit_of command ≡ Some e) × (D.store desk.new ≡ edited_store (D.store desk.old) e)) }
    ensures own { IfOk result (λ a. is_ok a ≡ true → D.is_alone desk.new) }
{
    match command {
        None => Ok(Answer::BadCommand),
        Some(Command::Edit(edit)) => match desk.edit(edit) {
            Ok(now) => {
                if *version == u32::MAX || now != *version + 1 {
                    return Err(RunFault::OtherEditor);
                }
                *version = now;
                Ok(Answer::Accepted(now))
            }
            Err(EditFault::ClockSpent) => Err(RunFault::Clock),
            Err(EditFault::Memory) => Err(RunFault::Memory),
            Err(fault) => Ok(Answer::Refused(fault.number())),
        },
        Some(Command::Query(query)) => match desk.ask(rt, query) {
            Told::Answer { version: at, body } => {
                if at != *version {
                    return Err(RunFault::OtherEditor);
                }
                Ok(Answer::Told(at, body))
            }
            Told::BadQuery(number) => Ok(Answer::Bad(number)),
            Told::ClockSpent => Err(RunFault::Clock),
            Told::Memory => Err(RunFault::Memory),
        },
    }
}

/// The command that a line is for this desk's machine.
fn command_in<D: Desk>(desk: &D, line: &[u8]) -> Option<Command>
    ensures { result ≡ command_in (D.store desk.now) line.now }
{
    let shape = Shape::new(desk.opened().0)?;
    Command::parse(shape, line)
}

/// What a line is answered, which has ended: its bytes without LF, at most 4,096 of them. The desk must not have edited since
/// its opening. Threads take part in reports alone.
///
/// # Errors
///
/// Those of [`run_watched`] but for `Read` and `Write`. Project and journal are then as before.
pub fn answer_line<T: Threads + Sync, D: Desk>(
    rt: &T,
    desk: &mut D,
    line: &[u8],
) -> Result<Answer, RunFault>
    requires opened { D.opening desk.old ≡ version_in (D.store desk.old) }
    ensures earlier { D.is_alone desk.new → D.is_alone desk.old }
    ensures cause { HasCause result ⊥ ⊥ (¬ D.is_alone desk.new) (Unit {0}) (D.clock_is_spent desk.new) }
    ensures answer { D.is_alone desk.new → IfOk result (λ a. a ≡ reply (D.store desk.old) (command_in (D.store desk.old) line.now)) }
    ensures store { D.is_alone desk.new → OnOk result (D.store desk.new ≡ after (D.store desk.old) (command_in (D.store desk.old) line.now)) }
    ensures kept { D.is_alone desk.new → OnErr result (D.store desk.new ≡ D.store desk.old) }
    ensures stops { D.is_alone desk.new → IfErr result (λ f. MayStop (D.clock_is_spent desk.new) f (D.store desk.old) (command_in (D.store desk.old) line.now)) }
    ensures own { IfOk result (λ a. is_ok a ≡ true → D.is_alone desk.new) }
{
    let mut version = desk.opened().1;
    let command = command_in(desk, line);
    obey(rt, desk, &mut version, command)
}

/// The answer to the line that is held, which has ended.
fn line_answer<T: Threads + Sync, D: Desk>(
    rt: &T,
    held: &Held,
    desk: &mut D,
    version: &mut u32,
) -> Result<Answer, RunFault>
    requires { version.old ≡ version_in (D.store desk.old) }
    ensures version { OnOk result (version.new ≡ version_in (D.store desk.new)) }
    ensures earlier { D.is_alone desk.new → D.is_alone desk.old }
    ensures cause { HasCause result ⊥ ⊥ (¬ D.is_alone desk.new) (Unit {0}) (D.clock_is_spent desk.new) }
    ensures answers { D.is_alone desk.new → IfOk result (λ a. (line : List ℕ) → Holds held.now.is_long held.now.bytes.items line
        → AnswersLine (D.store desk.old) line a (D.store desk.new)) }
    ensures kept { D.is_alone desk.new → OnErr result (D.store desk.new ≡ D.store desk.old) }
    ensures stops { D.is_alone desk.new → IfErr result (λ f. (line : List ℕ) → Holds held.now.is_long held.now.bytes.items line
        → StopsAt (D.clock_is_spent desk.new) f (D.store desk.old) (Whole line ∷ [])) }
    ensures body { D.is_alone desk.new → IfOk result (λ a. has_body a ≡ true → (line : List ℕ) → Holds held.now.is_long held.now.bytes.items line
        → AnswersBody (D.store desk.old) (Whole line ∷ [])) }
    ensures edits { (line : List ℕ) → Holds held.now.is_long held.now.bytes.items line → EditsLine (D.store desk.old) line (D.store desk.new) }
    ensures own { IfOk result (λ a. is_ok a ≡ true → D.is_alone desk.new) }
{
    if held.is_long {
        return Ok(Answer::BadLine);
    }
    let command = command_in(desk, held.bytes.as_slice());
    obey(rt, desk, version, command)
}

/// Takes one byte of the input.
fn take_byte<T: Threads + Sync, W: Sink, D: Desk>(
    rt: &T,
    alloc: Global,
    held: &mut Held,
    byte: u8,
    writer: &mut W,
    desk: &mut D,
    version: &mut u32,
) -> Result<(), RunFault>
    requires { version.old ≡ version_in (D.store desk.old) }
    ensures version { OnOk result (version.new ≡ version_in (D.store desk.new)) }
    ensures earlier { D.is_alone desk.new → D.is_alone desk.old }
    ensures cause { HasCause result ⊥ (W.has_failed writer.new ≡ true) (¬ D.is_alone desk.new) (Unit {0}) (D.clock_is_spent desk.new) }
    ensures moves { OnOk result (GoesOn (W.contents writer.old) (W.contents writer.new) (D.is_alone desk.old) (D.is_alone desk.new)
        (D.store desk.old) held.old.is_long held.old.bytes.items (byte ∷ []) (D.store desk.new) held.new.is_long held.new.bytes.items) }
    ensures fails { D.is_alone desk.new → IfErr result (λ f. FailsOn (D.clock_is_spent desk.new) f (W.contents writer.old) (W.contents writer.new)
        (D.store desk.old) held.old.is_long held.old.bytes.items (byte ∷ []) (D.store desk.new)) }
    ensures edits { OnOk result (EditsOn (D.store desk.old) held.old.is_long held.old.bytes.items (byte ∷ []) (D.store desk.new) held.new.is_long held.new.bytes.items) }
    ensures edits_in { OnErr result (EditsIn (D.store desk.old) held.old.is_long held.old.bytes.items (byte ∷ []) (D.store desk.new)) }
    ensures same_reference { W.lender writer.new ≡ W.lender writer.old }
{
    if byte != b'\n' {
        held.hold(byte);
        return Ok(());
    }
    match line_answer(rt, held, desk, version) {
        Ok(answer) => {
            held.clear();
            write_line(alloc, writer, answer)
        }
        Err(fault) => Err(fault),
    }
}

/// Takes each byte of a piece of the input.
fn take_each<T: Threads + Sync, W: Sink, D: Desk>(
    rt: &T,
    alloc: Global,
    held: &mut Held,
    piece: &[u8],
    writer: &mut W,
    desk: &mut D,
    version: &mut u32,
) -> Result<(), RunFault>
    requires { version.old ≡ version_in (D.store desk.old) }
    ensures version { OnOk result (version.new ≡ version_in (D.store desk.new)) }
    ensures earlier { D.is_alone desk.new → D.is_alone desk.old }
    ensures cause { HasCause result ⊥ (W.has_failed writer.new ≡ true) (¬ D.is_alone desk.new) (Unit {0}) (D.clock_is_spent desk.new) }
    ensures moves { OnOk result (GoesOn (W.contents writer.old) (W.contents writer.new) (D.is_alone desk.old) (D.is_alone desk.new)
        (D.store desk.old) held.old.is_long held.old.bytes.items piece.now (D.store desk.new) held.new.is_long held.new.bytes.items) }
    ensures fails { D.is_alone desk.new → IfErr result (λ f. FailsOn (D.clock_is_spent desk.new) f (W.contents writer.old) (W.contents writer.new)
        (D.store desk.old) held.old.is_long held.old.bytes.items piece.now (D.store desk.new)) }
    ensures edits { OnOk result (EditsOn (D.store desk.old) held.old.is_long held.old.bytes.items piece.now (D.store desk.new) held.new.is_long held.new.bytes.items) }
    ensures edits_in { OnErr result (EditsIn (D.store desk.old) held.old.is_long held.old.bytes.items piece.now (D.store desk.new)) }
    ensures same_reference { W.lender writer.new ≡ W.lender writer.old }
{
    for byte in piece {
        match take_byte(rt, alloc, held, *byte, writer, desk, version) {
            Ok(()) => {}
            Err(fault) => return Err(fault),
        }
    }
    Ok(())
}

/// Takes a piece of the input, and hands on all that it was answered.
fn take_piece<T: Threads + Sync, W: Sink, D: Desk>(
    rt: &T,
    alloc: Global,
    held: &mut Held,
    piece: &[u8],
    writer: &mut W,
    desk: &mut D,
    version: &mut u32,
) -> Result<(), RunFault>
    requires { version.old ≡ version_in (D.store desk.old) }
    ensures version { OnOk result (version.new ≡ version_in (D.store desk.new)) }
    ensures flushed { OnOk result (W.is_flushed writer.new ≡ true) }
    ensures earlier { D.is_alone desk.new → D.is_alone desk.old }
    ensures cause { HasCause result ⊥ (W.has_failed writer.new ≡ true) (¬ D.is_alone desk.new) (Unit {0}) (D.clock_is_spent desk.new) }
    ensures moves { OnOk result (GoesOn (W.contents writer.old) (W.contents writer.new) (D.is_alone desk.old) (D.is_alone desk.new)
        (D.store desk.old) held.old.is_long held.old.bytes.items piece.now (D.store desk.new) held.new.is_long held.new.bytes.items) }
    ensures fails { D.is_alone desk.new → IfErr result (λ f. FailsOn (D.clock_is_spent desk.new) f (W.contents writer.old) (W.contents writer.new)
        (D.store desk.old) held.old.is_long held.old.bytes.items piece.now (D.store desk.new)) }
    ensures edits { OnOk result (EditsOn (D.store desk.old) held.old.is_long held.old.bytes.items piece.now (D.store desk.new) held.new.is_long held.new.bytes.items) }
    ensures edits_in { OnErr result (EditsIn (D.store desk.old) held.old.is_long held.old.bytes.items piece.now (D.store desk.new)) }
    ensures same_reference { W.lender writer.new ≡ W.lender writer.old }
{
    match take_each(rt, alloc, held, piece, writer, desk, version) {
        Ok(()) => hand_on(writer),
        Err(fault) => {
            let _ = writer.flush();
            Err(fault)
        }
    }
}

/// Answers the line that the end of the input cuts.
fn finish<W: Sink>(alloc: Global, held: &Held, writer: &mut W) -> Result<(), RunFault>
    requires flushed { W.is_flushed writer.old ≡ true }
    ensures flushed { OnOk result (W.is_flushed writer.new ≡ true) }
    ensures cause { HasCause result ⊥ (W.has_failed writer.new ≡ true) ⊥ ⊥ ⊥ }
    ensures ok { OnOk result ((written : List ℕ) × Appends (W.contents writer.old) (W.contents writer.new) written
        × ((line : List ℕ) → Holds held.now.is_long held.now.bytes.items line → (s : Store) → output s line ≡ written)
        × ((answers : List AnyAnswer) × (written ≡ lines_text answers) × (none_ok answers ≡ true)
        × ((line : List ℕ) → Holds held.now.is_long held.now.bytes.items line → length answers ≡ length (lines_of line)))) }
    ensures err { OnErr result ((written : List ℕ) × Appends (W.contents writer.old) (W.contents writer.new) written
        × ((line : List ℕ) → Holds held.now.is_long held.now.bytes.items line → (s : Store) → (missing : List ℕ) × (output s line ≡ written ++ missing))) }
    ensures same_reference { W.lender writer.new ≡ W.lender writer.old }
{
    if held.is_long {
        return tell(alloc, writer, Answer::BadLine);
    }
    if held.bytes.as_slice().is_empty() {
        return Ok(());
    }
    tell(alloc, writer, Answer::BadCut)
}

/// Answers each line that comes, until the input ends, over a reader and a writer that are watched. Each answer is one
/// line; it is written before the next line is looked at, and flushed before more input is read and before the run ends.
/// A line of any length takes bounded memory, and no byte is looked at twice. Threads take part in reports alone. The desk must not have edited since
/// its opening.
///
/// # Errors
///
/// `Read` where the reader failed or no read was left, `Write` where the writer failed or took nothing, `OtherEditor`
/// where somebody else has edited the project, `Memory` where a growth was refused, and `Clock` where the desk's clock is
/// at its last value. The lines that were answered before stand as they were obeyed, and of one line more at most a
/// beginning of the answer was written.
pub fn run_watched<T: Threads + Sync, R: Source, W: Sink, D: Desk>(
    rt: &T,
    alloc: Global,
    reader: &mut R,
    writer: &mut W,
    desk: &mut D,
) -> Result<(), RunFault>
    requires opened { D.opening desk.old ≡ version_in (D.store desk.old) }
    requires flushed { W.is_flushed writer.old ≡ true }
    ensures ok { D.is_alone desk.new → OnOk result (IfSome (R.remaining reader.old) (λ input.
        Appends (W.contents writer.old) (W.contents writer.new) (output (D.store desk.old) input))) }
    ensures all { D.is_alone desk.new → OnOk result (AnswersAll (R.remaining reader.old) (R.remaining reader.new)
        (W.contents writer.old) (W.contents writer.new) (D.store desk.old) (D.store desk.new)) }
    ensures own { OnOk result (AnswersOwn (R.remaining reader.old) (R.remaining reader.new)
        (W.contents writer.old) (W.contents writer.new) (D.store desk.old)) }
    ensures fault { D.is_alone desk.new → IfErr result (λ f. AnswersPart (D.clock_is_spent desk.new) f (R.remaining reader.old) (R.remaining reader.new)
        (W.contents writer.old) (W.contents writer.new) (D.store desk.old) (D.store desk.new)) }
    ensures edits { EditsAsRead (R.remaining reader.old) (R.remaining reader.new) (D.store desk.old) (D.store desk.new) }
    ensures cause { HasCause result (CantRead (R.has_failed reader.new) (R.left reader.new)) (W.has_failed writer.new ≡ true)
        (¬ D.is_alone desk.new) (Unit {0}) (D.clock_is_spent desk.new) }
    ensures bound { R.left reader.new ≤ R.left reader.old }
    ensures flushed { OnOk result (W.is_flushed writer.new ≡ true) }
    ensures same_reader { R.lender reader.new ≡ R.lender reader.old }
    ensures same_writer { W.lender writer.new ≡ W.lender writer.old }
{
    let mut held = Held::new();
    let mut buffer = [0u8; 4096];
    let mut version = desk.opened().1;
    'pieces: loop {
        let count = match reader.read(writer, &mut buffer) {
            Ok(count) => count,
            Err(_) => return Err(RunFault::Read),
        };
        if count == 0 {
            return finish(alloc, &held, writer);
        }
        let piece = buffer.split_at(count).0;
        match take_piece(rt, alloc, &mut held, piece, writer, desk, &mut version) {
            Ok(()) => {}
            Err(fault) => return Err(fault),
        }
    }
}

/// As [`run_watched`], over any reader and writer: `Read` where the reader failed, or where the next read would be one
/// more than `reads`.
///
/// # Errors
///
/// Those of [`run_watched`].
pub fn run_within<T: Threads + Sync, R: Read, W: Write, D: Desk>(
    rt: &T,
    alloc: Global,
    reader: &mut R,
    writer: &mut W,
    desk: &mut D,
    reads: u32,
) -> Result<(), RunFault>
    requires { D.opening desk.old ≡ version_in (D.store desk.old) }
    ensures ok { D.is_alone desk.new → OnOk result (IfSome (R.remaining reader.old) (λ input.
        Appends (W.contents writer.old) (W.contents writer.new) (output (D.store desk.old) input))) }
    ensures all { D.is_alone desk.new → OnOk result (AnswersAll (R.remaining reader.old) (R.remaining reader.new)
        (W.contents writer.old) (W.contents writer.new) (D.store desk.old) (D.store desk.new)) }
    ensures own { OnOk result (AnswersOwn (R.remaining reader.old) (R.remaining reader.new)
        (W.contents writer.old) (W.contents writer.new) (D.store desk.old)) }
    ensures fault { D.is_alone desk.new → IfErr result (λ f. AnswersPart (D.clock_is_spent desk.new) f (R.remaining reader.old) (R.remaining reader.new)
        (W.contents writer.old) (W.contents writer.new) (D.store desk.old) (D.store desk.new)) }
    ensures edits { EditsAsRead (R.remaining reader.old) (R.remaining reader.new) (D.store desk.old) (D.store desk.new) }
    ensures cause { HasCause result (Unit {0}) (Unit {0}) (¬ D.is_alone desk.new) (Unit {0}) (D.clock_is_spent desk.new) }
{
    let mut source = Reading::within(reader, reads);
    let mut sink = Writing::new(writer);
    run_watched(rt, alloc, &mut source, &mut sink, desk)
}

/// As [`run_within`], in 4,294,967,295 reads at most.
///
/// # Errors
///
/// Those of [`run_watched`].
pub fn run<T: Threads + Sync, R: Read, W: Write, D: Desk>(
    rt: &T,
    alloc: Global,
    reader: &mut R,
    writer: &mut W,
    desk: &mut D,
) -> Result<(), RunFault>
    requires { D.opening desk.old ≡ version_in (D.store desk.old) }
    ensures ok { D.is_alone desk.new → OnOk result (IfSome (R.remaining reader.old) (λ input.
        Appends (W.contents writer.old) (W.contents writer.new) (output (D.store desk.old) input))) }
    ensures all { D.is_alone desk.new → OnOk result (AnswersAll (R.remaining reader.old) (R.remaining reader.new)
        (W.contents writer.old) (W.contents writer.new) (D.store desk.old) (D.store desk.new)) }
    ensures own { OnOk result (AnswersOwn (R.remaining reader.old) (R.remaining reader.new)
        (W.contents writer.old) (W.contents writer.new) (D.store desk.old)) }
    ensures fault { D.is_alone desk.new → IfErr result (λ f. AnswersPart (D.clock_is_spent desk.new) f (R.remaining reader.old) (R.remaining reader.new)
        (W.contents writer.old) (W.contents writer.new) (D.store desk.old) (D.store desk.new)) }
    ensures edits { EditsAsRead (R.remaining reader.old) (R.remaining reader.new) (D.store desk.old) (D.store desk.new) }
    ensures cause { HasCause result (Unit {0}) (Unit {0}) (¬ D.is_alone desk.new) (Unit {0}) (D.clock_is_spent desk.new) }
{
    run_within(rt, alloc, reader, writer, desk, u32::MAX)
}
