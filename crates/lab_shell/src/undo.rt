//! Edits that are taken back.
ghost use Rattle.std.specs.Prelude.{◌≡◌, ℕ, ◌-◌, ◌^◌, ◌&&◌, [], ◌∷◌, List, true, not, None, Some, IfOk, OnOk, OnErr, MatchOption};
ghost use Rattle.std.specs.Io.KnownBytes.{Appends};
ghost use Rattle.std.specs.List.{list_all};
ghost use Rattle.project_book.specs.declared.edit.Edit.{Edit as AnyEdit};
ghost use Rattle.commands.specs.declared.command.Command.{Command as AnyCommand};
ghost use Rattle.bench_shell.specs.Cause.{HasCause};
ghost use Rattle.bench_shell.specs.declared.answer.Answer.{Answer as AnyAnswer};
ghost use Rattle.bench_shell.specs.Output.{after, command_in, is_ok, reply};
ghost use Rattle.bench_shell.specs.Own.{edit_of};
ghost use Rattle.bench_shell.specs.Store.{store_of};
ghost use Rattle.lab_shell.specs.Sessions.{after_edits, has_room, held, noted, replies};
ghost use Rattle.lab_shell.specs.Talks.{answer_text, answers_text, nothing_text, several, Undone};

use crate::manner::{Ended, Manner, Seat, Voice};
use crate::session::{is_taken, put_answer, put_closing, put_opening, stop_at};
use bench_core::Bench;
use bench_shell::{Answer, Desk, RunFault, Sink, write_bytes};
use commands::Command;
use edit_undo::{Undos, undoing};
use project_book::{Edit, EditFault, MAX_EDITS};
use std::alloc::Global;

/// The number by which an edit is refused where the journal is full.
const JOURNAL_FULL: u8 = 1;

/// The edit that a line asks for.
pub(crate) fn edit_in(bench: &Bench, line: &[u8]) -> Option<Edit>
    ensures { MatchOption result (edit_of (command_in (store_of bench.now) line.now) ≡ None) (λ e. command_in (store_of bench.now) line.now ≡ Some (AnyCommand.Edit e)) }
{
    match Command::parse(bench.project().shape(), line) {
        Some(Command::Edit(edit)) => Some(edit),
        Some(Command::Query(_)) | None => None,
    }
}

/// Makes an edit: what that is answered.
fn made(bench: &mut Bench, edit: Edit) -> Result<Answer, RunFault>
    ensures answer { IfOk result (λ a. a ≡ reply (store_of bench.old) (Some (AnyCommand.Edit edit))) }
    ensures store { OnOk result (store_of bench.new ≡ after (store_of bench.old) (Some (AnyCommand.Edit edit))) }
    ensures kept { OnErr result (store_of bench.new ≡ store_of bench.old) }
    ensures cause { HasCause result ⊥ ⊥ ⊥ (Unit {0}) (bench.new.table.clock ≡ 2 ^ 64 - 1) }
{
    match Desk::edit(bench, edit) {
        Ok(version) => Ok(Answer::Accepted(version)),
        Err(EditFault::ClockSpent) => Err(RunFault::Clock),
        Err(EditFault::Memory) => Err(RunFault::Memory),
        Err(fault) => Ok(Answer::Refused(fault.number())),
    }
}

/// Makes an edit, and notes what takes it back where it is accepted: what it is answered.
pub(crate) fn edited(
    alloc: Global,
    bench: &mut Bench,
    undos: &mut Undos,
    edit: Edit,
) -> Result<Answer, RunFault>
    ensures answer { IfOk result (λ a. a ≡ reply (store_of bench.old) (Some (AnyCommand.Edit edit))) }
    ensures store { OnOk result (store_of bench.new ≡ after (store_of bench.old) (Some (AnyCommand.Edit edit))) }
    ensures undos { OnOk result (undos.new ≡ noted (store_of bench.old) (Some edit) undos.old) }
    ensures kept { OnErr result (store_of bench.new ≡ store_of bench.old) }
    ensures cause { HasCause result ⊥ ⊥ ⊥ (Unit {0}) (bench.new.table.clock ≡ 2 ^ 64 - 1) }
{
    let back = match undoing(alloc, bench.project(), edit) {
        Ok(back) => back,
        Err(_) => return Err(RunFault::Memory),
    };
    match undos.push(back) {
        Ok(()) => {}
        Err(_) => return Err(RunFault::Memory),
    }
    let answer = match made(bench, edit) {
        Ok(answer) => answer,
        Err(fault) => return Err(fault),
    };
    if is_taken(&answer) {
        return Ok(answer);
    }
    undos.drop_last();
    Ok(answer)
}

/// Whether the journal has room for these edits.
fn has_room(bench: &Bench, edits: &[Edit]) -> bool
    ensures { result ≡ has_room (store_of bench.now) edits.now }
{
    edits.len() <= MAX_EDITS.saturating_sub(bench.version()) as usize
}

/// Writes that there is nothing to take back.
fn put_nothing<W: Sink>(voice: Voice, writer: &mut W) -> Result<(), RunFault>
    ensures ok { OnOk result (Appends (W.contents writer.old) (W.contents writer.new) (nothing_text voice)) }
    ensures cause { HasCause result ⊥ (W.has_failed writer.new ≡ true) ⊥ ⊥ ⊥ }
    ensures same_reference { W.lender writer.new ≡ W.lender writer.old }
{
    let text = match voice {
        Voice::Plain => "bad command\n",
        Voice::People => "bad command: there is nothing to undo\n",
        Voice::Json => "{\"bad\":\"command\",\"why\":\"there is nothing to undo\"}\n",
    };
    write_bytes(writer, text.as_bytes())
}

/// Makes an edit, and writes what it is answered: whether it was accepted.
fn remade<W: Sink>(
    alloc: Global,
    voice: Voice,
    seat: Seat,
    bench: &mut Bench,
    edit: Edit,
    writer: &mut W,
) -> Result<bool, RunFault>
    ensures ok { OnOk result (Appends (W.contents writer.old) (W.contents writer.new) (answer_text voice seat (reply (store_of bench.old) (Some (AnyCommand.Edit edit))))) }
    ensures store { OnOk result (store_of bench.new ≡ after (store_of bench.old) (Some (AnyCommand.Edit edit))) }
    ensures taken { IfOk result (λ taken. taken ≡ is_ok (reply (store_of bench.old) (Some (AnyCommand.Edit edit)))) }
    ensures cause { HasCause result ⊥ (W.has_failed writer.new ≡ true) ⊥ (Unit {0}) (bench.new.table.clock ≡ 2 ^ 64 - 1) }
    ensures same_reference { W.lender writer.new ≡ W.lender writer.old }
{
    let answer = match made(bench, edit) {
        Ok(answer) => answer,
        Err(fault) => return Err(fault),
    };
    match put_answer(alloc, voice, seat, &answer, writer) {
        Ok(()) => Ok(is_taken(&answer)),
        Err(fault) => Err(fault),
    }
}

fn both(one: bool, other: bool) -> bool
    ensures { result ≡ one && other }
{
    one && other
}

/// Makes edits in turn, and writes what they are answered: whether all were accepted.
#[tactic(auto, using(crate::proofs::Undoing::first_none, crate::proofs::Undoing::first_more, crate::proofs::Undoing::all_written, crate::proofs::Undoing::all_after, crate::proofs::Undoing::all_taken))]
fn all_remade<W: Sink>(
    alloc: Global,
    voice: Voice,
    bench: &mut Bench,
    edits: &[Edit],
    writer: &mut W,
) -> Result<bool, RunFault>
    ensures ok { OnOk result (Appends (W.contents writer.old) (W.contents writer.new) (answers_text voice Seat.First (replies (store_of bench.old) edits.now))) }
    ensures store { OnOk result (store_of bench.new ≡ after_edits (store_of bench.old) edits.now) }
    ensures taken { IfOk result (λ taken. taken ≡ list_all is_ok (replies (store_of bench.old) edits.now)) }
    ensures cause { HasCause result ⊥ (W.has_failed writer.new ≡ true) ⊥ (Unit {0}) (bench.new.table.clock ≡ 2 ^ 64 - 1) }
    ensures same_reference { W.lender writer.new ≡ W.lender writer.old }
{
    let mut all = true;
    let mut seat = Seat::First;
    for edit in edits {
        let taken = match remade(alloc, voice, seat, bench, *edit, writer) {
            Ok(taken) => taken,
            Err(fault) => return Err(fault),
        };
        all = both(all, taken);
        seat = Seat::Later;
    }
    Ok(all)
}

/// Answers that the journal has no room for what takes the last edit back.
fn put_full<W: Sink>(alloc: Global, voice: Voice, writer: &mut W) -> Result<(), RunFault>
    ensures ok { OnOk result (Appends (W.contents writer.old) (W.contents writer.new) (several voice (answers_text voice Seat.First (AnyAnswer.Refused 1 ∷ [])))) }
    ensures cause { HasCause result ⊥ (W.has_failed writer.new ≡ true) ⊥ (Unit {0}) ⊥ }
    ensures same_reference { W.lender writer.new ≡ W.lender writer.old }
{
    match put_opening(voice, writer) {
        Ok(()) => {}
        Err(fault) => return Err(fault),
    }
    match put_answer(
        alloc,
        voice,
        Seat::First,
        &Answer::Refused(JOURNAL_FULL),
        writer,
    ) {
        Ok(()) => {}
        Err(fault) => return Err(fault),
    }
    put_closing(voice, writer)
}

/// Makes edits in turn, and writes what they are answered as that is written for one line: whether all were accepted.
#[tactic(auto, using(crate::proofs::Undoing::between))]
fn put_remade<W: Sink>(
    alloc: Global,
    voice: Voice,
    bench: &mut Bench,
    edits: &[Edit],
    writer: &mut W,
) -> Result<bool, RunFault>
    ensures ok { OnOk result (Appends (W.contents writer.old) (W.contents writer.new) (several voice (answers_text voice Seat.First (replies (store_of bench.old) edits.now)))) }
    ensures store { OnOk result (store_of bench.new ≡ after_edits (store_of bench.old) edits.now) }
    ensures taken { IfOk result (λ taken. taken ≡ list_all is_ok (replies (store_of bench.old) edits.now)) }
    ensures cause { HasCause result ⊥ (W.has_failed writer.new ≡ true) ⊥ (Unit {0}) (bench.new.table.clock ≡ 2 ^ 64 - 1) }
    ensures same_reference { W.lender writer.new ≡ W.lender writer.old }
{
    match put_opening(voice, writer) {
        Ok(()) => {}
        Err(fault) => return Err(fault),
    }
    let taken = match all_remade(alloc, voice, bench, edits, writer) {
        Ok(taken) => taken,
        Err(fault) => return Err(fault),
    };
    match put_closing(voice, writer) {
        Ok(()) => Ok(taken),
        Err(fault) => Err(fault),
    }
}

/// Takes back the last edit of a session that was accepted and not yet taken back: how that ends the session.
#[tactic(auto, using(crate::proofs::Undoing::undone_nothing, crate::proofs::Undoing::undone_full, crate::proofs::Undoing::undone_made))]
pub(crate) fn undone<W: Sink>(
    alloc: Global,
    manner: Manner,
    bench: &mut Bench,
    undos: &mut Undos,
    writer: &mut W,
) -> Result<Option<Ended>, RunFault>
    ensures ok { IfOk result (λ stop. (answer : List ℕ) × Appends (W.contents writer.old) (W.contents writer.new) answer
        × Undone manner (held (store_of bench.old) undos.old) undos.old answer (held (store_of bench.new) undos.new) stop) }
    ensures cause { HasCause result ⊥ (W.has_failed writer.new ≡ true) ⊥ (Unit {0}) (bench.new.table.clock ≡ 2 ^ 64 - 1) }
    ensures same_reference { W.lender writer.new ≡ W.lender writer.old }
{
    let Some(edits) = undos.last() else {
        return match put_nothing(manner.voice, writer) {
            Ok(()) => Ok(stop_at(manner, true)),
            Err(fault) => Err(fault),
        };
    };
    if !has_room(bench, edits) {
        return match put_full(alloc, manner.voice, writer) {
            Ok(()) => Ok(stop_at(manner, true)),
            Err(fault) => Err(fault),
        };
    }
    match put_remade(alloc, manner.voice, bench, edits, writer) {
        Ok(taken) => {
            undos.drop_last();
            Ok(stop_at(manner, !taken))
        }
        Err(fault) => Err(fault),
    }
}
