//! What a session of the shell says of a run: what a subcommand prints of it.
ghost use Rattle.std.specs.Prelude.{◌≡◌, ◌++◌, [], codes, false, IfNone, IfOk, IfSome, MatchBool};
ghost use Rattle.std.specs.List.{list_all};
ghost use Rattle.std.specs.Str.{is_utf8};
ghost use Rattle.clap.specs.Walk.{texts};
ghost use Rattle.clap.specs.Words.{subcommand_of};
ghost use Rattle.line_words.specs.Words.{words_of};
ghost use Rattle.lab_tasks.specs.Busy.{IsBusyText, IsNotBusy};
ghost use Rattle.lab_tasks.specs.CommandLine.{lab};
ghost use Rattle.lab_tasks.specs.Completions.{IsCompletionText};
ghost use Rattle.lab_tasks.specs.Fullness.{IsFullText};
ghost use Rattle.lab_tasks.specs.Gauged.{IsNoSeriesText};
ghost use Rattle.lab_tasks.specs.Latencies.{IsLatencyText, IsNoCondition};
ghost use Rattle.lab_tasks.specs.Orders.{IsNoOrder, IsOrderText};
ghost use Rattle.lab_tasks.specs.ShellReports.{IsAnswered, IsReported, IsSeriesReported, IsSeriesTable, IsSeriesTold, IsText, IsTold, IsToldBy, IsTraced};
ghost use Rattle.lab_tasks.specs.Subcommands.{bad_number, end_answer, word_answer, words_for, AreFaulty};
ghost use Rattle.lab_tasks.specs.Traces.{IsNoTag, IsTraceText};
ghost use Rattle.lab_tasks.specs.Words.{text_of, texts_of, AsksFor};

use crate::busy::{BusyWords, busy_report};
use crate::completion::completion_report;
use crate::cycles::cycles_at;
use crate::end::{End, Reason};
use crate::full::full_report;
use crate::grid::Cell;
use crate::latency::{LatencyWords, condition, report};
use crate::order::{OrderWords, order_text, order_window};
use crate::phrases::phrases;
use crate::series::{SeriesWords, series_texts};
use crate::trace::{TraceWords, trace_made, traced};
use crate::words::{Asked, read_words};
use bench_shell::Answer;
use clap::error::ErrorKind;
use lab_shell::Said;
use line_words::split_word;
use project_book::Project;
use run_reports::Window;
use std::alloc::{AllocError, Global};

/// What a number is answered that isn't within what there is, by its option.
fn bad_number(option: &str) -> u8
    ensures { result ≡ bad_number option.now }
{
    match option {
        "P" | "--processor" => 1,
        "I" => 4,
        _ => 2,
    }
}

/// What a word is answered that is refused.
fn word_answer(option: &str, reason: Reason) -> Answer
    ensures { result ≡ word_answer option.now reason }
{
    match reason {
        Reason::Form(_)
        | Reason::RefusedEdit(_)
        | Reason::Source
        | Reason::NoProject(_)
        | Reason::OtherSize(_) => Answer::BadCommand,
        Reason::Within(_, _) => Answer::Bad(bad_number(option)),
        Reason::Backwards => Answer::Bad(5),
        Reason::Refused(number) => Answer::Bad(number),
    }
}

/// What an end is answered.
pub(crate) fn end_answer(end: End<'_>) -> Answer
    ensures { result ≡ end_answer end.entry }
{
    match end {
        End::Word { option, reason, .. } => word_answer(option, reason),
        End::Done
        | End::Words
        | End::NotRead(_)
        | End::NotWritten(_)
        | End::Project(_)
        | End::Memory
        | End::Spent
        | End::Output => Answer::BadCommand,
    }
}

/// What is said to words of `latency`.
fn latency_said(
    alloc: Global,
    words: &LatencyWords<'_>,
    project: &Project,
) -> Result<Said, AllocError>
    ensures { IfOk result (IsTold (IsLatencyText words.now project.now) (IsNoCondition project.now words.now)) }
{
    let condition = match condition(words, project) {
        Ok(condition) => condition,
        Err(end) => return Ok(Said::Refused(end_answer(end))),
    };
    match report(alloc, words, project, &condition) {
        Ok(text) => Ok(Said::Text(text)),
        Err(_) => Err(AllocError),
    }
}

/// What is said to words of `trace` that name no file.
fn line_said(alloc: Global, words: &TraceWords<'_>, project: &Project) -> Result<Said, AllocError>
    ensures { IfOk result (IsTold (IsTraceText words.now project.now) (IsNoTag project.now words.now)) }
{
    let tag = match traced(words, project) {
        Ok(tag) => tag,
        Err(end) => return Ok(Said::Refused(end_answer(end))),
    };
    match trace_made(alloc, words, project, tag) {
        Ok(text) => Ok(Said::Text(text)),
        Err(_) => Err(AllocError),
    }
}

/// What is said to words of `trace`: no picture is drawn.
fn trace_said(alloc: Global, words: &TraceWords<'_>, project: &Project) -> Result<Said, AllocError>
    ensures { IfOk result (IsTraced (text_of words.now.out) words.now project.now) }
{
    match words.out {
        Some(_) => Ok(Said::Refused(Answer::BadCommand)),
        None => line_said(alloc, words, project),
    }
}

/// What is said to words of `order`.
fn order_said(alloc: Global, words: &OrderWords<'_>, project: &Project) -> Result<Said, AllocError>
    ensures { IfOk result (IsTold (IsOrderText words.now project.now) (IsNoOrder project.now words.now)) }
{
    let window = match order_window(words, project) {
        Ok(window) => window,
        Err(end) => return Ok(Said::Refused(end_answer(end))),
    };
    match order_text(alloc, words, project, window) {
        Ok(text) => Ok(Said::Text(text)),
        Err(_) => Err(AllocError),
    }
}

/// What is said to `done`.
fn done_said(alloc: Global, project: &Project) -> Result<Said, AllocError>
    ensures { IfOk result (IsText (IsCompletionText project.now)) }
{
    match completion_report(alloc, project) {
        Ok(text) => Ok(Said::Text(text)),
        Err(_) => Err(AllocError),
    }
}

/// What is said to `full`.
fn full_said(alloc: Global, project: &Project) -> Result<Said, AllocError>
    ensures { IfOk result (IsText (IsFullText project.now)) }
{
    match full_report(alloc, project) {
        Ok(text) => Ok(Said::Text(text)),
        Err(_) => Err(AllocError),
    }
}

/// What is said to words of `busy`.
fn busy_said(alloc: Global, words: &BusyWords<'_>, project: &Project) -> Result<Said, AllocError>
    ensures { IfOk result (IsTold (IsBusyText words.now project.now) (IsNotBusy project.now words.now)) }
{
    let cycles = match cycles_at(words.from, words.to, project) {
        Ok(cycles) => cycles,
        Err(end) => return Ok(Said::Refused(end_answer(end))),
    };
    let (from, to) = cycles;
    match busy_report(alloc, project, Window { from, to }) {
        Ok(text) => Ok(Said::Text(text)),
        Err(_) => Err(AllocError),
    }
}

/// What is said to words of `series` that name no file.
fn table_said(alloc: Global, words: &SeriesWords<'_>, project: &Project) -> Result<Said, AllocError>
    ensures { IfOk result (IsTold (IsSeriesTable words.now project.now) (IsNoSeriesText words.now project.now)) }
{
    match series_texts(alloc, words, project) {
        Ok(texts) => Ok(Said::Text(texts.table)),
        Err(End::Memory) => Err(AllocError),
        Err(end) => Ok(Said::Refused(end_answer(end))),
    }
}

/// What is said to words of `series`: nothing is written to files.
fn series_said(
    alloc: Global,
    words: &SeriesWords<'_>,
    project: &Project,
) -> Result<Said, AllocError>
    ensures { IfOk result (IsSeriesTold (text_of words.now.csv) (text_of words.now.out) words.now project.now) }
{
    match (words.csv, words.out) {
        (None, None) => table_said(alloc, words, project),
        (Some(_), _) | (None, Some(_)) => Ok(Said::Refused(Answer::BadCommand)),
    }
}

/// What is said where this is asked of a project.
fn answered(alloc: Global, asked: &Asked<'_>, project: &Project) -> Result<Said, AllocError>
    ensures { IfOk result (IsAnswered project.now asked.now) }
{
    match asked {
        Asked::Order(words) => order_said(alloc, words, project),
        Asked::Latency(words) => latency_said(alloc, words, project),
        Asked::Done { .. } => done_said(alloc, project),
        Asked::Trace(words) => trace_said(alloc, words, project),
        Asked::Full { .. } => full_said(alloc, project),
        Asked::Series(words) => series_said(alloc, words, project),
        Asked::Busy(words) => busy_said(alloc, words, project),
        Asked::Map(_)
        | Asked::Compare(_)
        | Asked::Rates(_)
        | Asked::Delays(_)
        | Asked::Load(_)
        | Asked::Sweep(_)
        | Asked::Check { .. }
        | Asked::Convert(_)
        | Asked::Page(_)
        | Asked::Shell(_) => Ok(Said::Refused(Answer::BadCommand)),
    }
}

/// Adds words as texts: whether all of them are UTF-8.
#[tactic(auto, using(crate::proofs::WordTexts::one_more, crate::proofs::WordTexts::valid_more, crate::proofs::WordTexts::invalid))]
fn add_texts<'a>(texts: &mut Vec<&'a str>, words: &'a [u8]) -> Result<bool, AllocError>
    ensures { IfOk result (λ all. MatchBool all (texts_of texts.new.items ≡ texts_of texts.old.items ++ words_of words.entry.now)
        (list_all is_utf8 (words_of words.entry.now) ≡ false)) }
{
    let mut rest = words;
    'words: while let Some((word, behind)) = split_word(rest) {
        let Ok(text) = str::from_utf8(word) else {
            return Ok(false);
        };
        texts.push(text)?;
        rest = behind;
    }
    Ok(true)
}

/// The words of a subcommand of this name; None where they aren't UTF-8.
pub(crate) fn texts_for<'a>(
    alloc: Global,
    name: &'a str,
    words: &'a [u8],
) -> Result<Option<Vec<&'a str>>, AllocError>
    ensures texts { IfOk result (λ o. IfSome o (λ v. texts_of v.items ≡ words_for name.entry.now (words_of words.entry.now))) }
    ensures none { IfOk result (λ o. IfNone o (list_all is_utf8 (words_of words.entry.now) ≡ false)) }
{
    let mut texts = Vec::new(alloc);
    texts.push(name)?;
    texts.push("FILE")?;
    let are_all = add_texts(&mut texts, words)?;
    Ok(if are_all { Some(texts) } else { None })
}

/// What words ask `lab` for; None where `clap` finds a fault in them.
pub(crate) fn asked_by<'a>(
    alloc: Global,
    words: &'a [&'a str],
) -> Result<Option<Asked<'a>>, AllocError>
    ensures asked { IfOk result (λ o. IfSome o (AsksFor (subcommand_of lab (texts words.entry.now)))) }
    ensures none { IfOk result (λ o. IfNone o (AreFaulty (texts words.entry.now))) }
{
    match read_words(alloc, words) {
        Ok(asked) => Ok(Some(asked)),
        Err(error) => {
            if error.kind() == ErrorKind::OutOfMemory {
                Err(AllocError)
            } else {
                Ok(None)
            }
        }
    }
}

/// What is said of a project to the words of a subcommand.
fn told_by(alloc: Global, words: &[&str], project: &Project) -> Result<Said, AllocError>
    ensures { IfOk result (IsToldBy project.now (texts words.entry.now)) }
{
    match asked_by(alloc, words)? {
        Some(asked) => answered(alloc, &asked, project),
        None => Ok(Said::Refused(Answer::BadCommand)),
    }
}

/// What is said of a project to a request with these words: what the subcommand of this name prints of a file that is the project.
pub(crate) fn reported(
    alloc: Global,
    name: &str,
    words: &[u8],
    project: &Project,
) -> Result<Said, AllocError>
    ensures { IfOk result (IsReported project.now name.now (words_of words.now)) }
{
    match texts_for(alloc, name, words)? {
        Some(texts) => told_by(alloc, texts.as_slice(), project),
        None => Ok(Said::Refused(Answer::BadCommand)),
    }
}

/// The words of a subcommand of this name with these texts.
fn words_with<'a>(
    alloc: Global,
    name: &'a str,
    phrases: &'a [Cell],
) -> Result<Vec<&'a str>, AllocError>
    ensures { IfOk result (λ v. texts_of v.items ≡ words_for name.entry.now phrases.entry.now) }
{
    let mut texts = Vec::new(alloc);
    texts.push(name)?;
    texts.push("FILE")?;
    for phrase in phrases {
        texts.push(phrase.as_str())?;
    }
    Ok(texts)
}

/// What is said of a project to the texts of a request `series`.
fn gauges_told(alloc: Global, phrases: &[Cell], project: &Project) -> Result<Said, AllocError>
    ensures { IfOk result (IsToldBy project.now (words_for (codes "series") phrases.now)) }
{
    let texts = words_with(alloc, "series", phrases)?;
    told_by(alloc, texts.as_slice(), project)
}

/// What is said of a project to a request `series` with these words.
pub(crate) fn series_reported(
    alloc: Global,
    words: &[u8],
    project: &Project,
) -> Result<Said, AllocError>
    ensures { IfOk result (IsSeriesReported project.now (words_of words.now)) }
{
    match phrases(alloc, words)? {
        Some(phrases) => gauges_told(alloc, phrases.as_slice(), project),
        None => Ok(Said::Refused(Answer::BadCommand)),
    }
}
