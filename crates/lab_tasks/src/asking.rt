//! What is asked of each project of a sweep: a question of the workbench, or a report of numbers.
ghost use Rattle.std.specs.Prelude.{◌≡◌, IfErr, IfNone, IfOk, IfSome, None, map};
ghost use Rattle.std.specs.List.{AllZip};
ghost use Rattle.clap.specs.Walk.{texts};
ghost use Rattle.line_words.specs.Words.{words_of};
ghost use Rattle.run_queries.specs.Queries.{bad_query};
ghost use Rattle.commands.specs.Commands.{command_of};
ghost use Rattle.lab_tasks.specs.Askings.{report_words, AreUnread, IsAsked, IsLatencyAsk, IsNoLatency, IsNoReport, IsNoReportBy, IsNoReportIn, IsReport, IsReportBy, IsReportIn, RefusesAs, RefusesAsk, RefusesQuery, RefusesReport};
ghost use Rattle.lab_tasks.specs.SweepTables.{AreNotAsked, OrMemory};
ghost use Rattle.lab_tasks.specs.Words.{texts_of};

use crate::end::{End, Reason};
use crate::latency::{LatencyWords, condition};
use crate::shell_report::{asked_by, end_answer, texts_for};
use crate::words::Asked;
use bench_shell::Answer;
use commands::Command;
use line_words::split_word;
use project_book::Project;
use run_queries::Query;
use run_reports::Condition;
use std::alloc::{AllocError, Global};

/// References whose latencies are asked for.
#[derive(Clone, Copy)]
pub(crate) struct LatencyAsk {
    /// Which references, but for the hot word.
    pub condition: Condition,
    /// Those to the hot word alone, or all others.
    pub hot: bool,
    pub cold: bool,
    /// The last cycle of the condition is told; else it is the horizon of the project that is asked.
    pub ends: bool,
}

/// What is asked of a project.
#[derive(Clone, Copy)]
pub(crate) enum Asking {
    /// A question of the workbench.
    Query(Query),
    /// How long references took.
    Latency(LatencyAsk),
    /// When processors were done.
    Done,
    /// How many queues were full.
    Full,
}

/// The references that words of `latency` ask for.
fn latency_ask(words: &LatencyWords<'_>, project: &Project) -> Result<LatencyAsk, Answer>
    ensures asked { IfOk result (IsLatencyAsk project.now words.now) }
    ensures refused { IfErr result (IsNoLatency project.now words.now) }
{
    match condition(words, project) {
        Ok(condition) => Ok(LatencyAsk {
            condition,
            hot: words.hot,
            cold: words.cold,
            ends: words.to.is_some(),
        }),
        Err(end) => Err(end_answer(end)),
    }
}

/// The report that a subcommand asks for.
fn report_of(asked: &Asked<'_>, project: &Project) -> Result<Asking, Answer>
    ensures asked { IfOk result (IsReport project.now asked.now) }
    ensures refused { IfErr result (IsNoReport project.now asked.now) }
{
    match asked {
        Asked::Latency(words) => match latency_ask(words, project) {
            Ok(ask) => Ok(Asking::Latency(ask)),
            Err(answer) => Err(answer),
        },
        Asked::Done { .. } => Ok(Asking::Done),
        Asked::Full { .. } => Ok(Asking::Full),
        Asked::Map(_)
        | Asked::Compare(_)
        | Asked::Order(_)
        | Asked::Trace(_)
        | Asked::Series(_)
        | Asked::Busy(_)
        | Asked::Rates(_)
        | Asked::Delays(_)
        | Asked::Load(_)
        | Asked::Sweep(_)
        | Asked::Check { .. }
        | Asked::Convert(_)
        | Asked::Page(_)
        | Asked::Shell(_) => Err(Answer::BadCommand),
    }
}

/// The words of the subcommand that a line is; None where they are none, or aren't UTF-8.
#[tactic(auto, using(crate::proofs::WordTexts::unread))]
fn report_texts<'a>(alloc: Global, line: &'a [u8]) -> Result<Option<Vec<&'a str>>, AllocError>
    ensures texts { IfOk result (λ o. IfSome o (λ v. texts_of v.items ≡ report_words (words_of line.entry.now))) }
    ensures none { IfOk result (λ o. IfNone o (AreUnread (words_of line.entry.now))) }
{
    let Some((name, behind)) = split_word(line) else {
        return Ok(None);
    };
    match str::from_utf8(name) {
        Ok(name) => texts_for(alloc, name, behind),
        Err(_) => Ok(None),
    }
}

/// The report that the words of a subcommand ask for.
fn report_by(
    alloc: Global,
    words: &[&str],
    project: &Project,
) -> Result<Result<Asking, Answer>, AllocError>
    ensures asked { IfOk result (λ told. IfOk told (IsReportBy project.now (texts words.entry.now))) }
    ensures refused { IfOk result (λ told. IfErr told (IsNoReportBy project.now (texts words.entry.now))) }
{
    match asked_by(alloc, words)? {
        Some(asked) => Ok(report_of(&asked, project)),
        None => Ok(Err(Answer::BadCommand)),
    }
}

/// The report of a line, or what the line is answered.
fn report_in(
    alloc: Global,
    line: &[u8],
    project: &Project,
) -> Result<Result<Asking, Answer>, AllocError>
    ensures asked { IfOk result (λ told. IfOk told (IsReportIn project.now (words_of line.now))) }
    ensures refused { IfOk result (λ told. IfErr told (IsNoReportIn project.now (words_of line.now))) }
{
    match report_texts(alloc, line)? {
        Some(texts) => report_by(alloc, texts.as_slice(), project),
        None => Ok(Err(Answer::BadCommand)),
    }
}

const WANTED: &str = "a question, as 'tree low 0', or a report of numbers, as 'latency'";

/// The end that a word makes for which there is this answer.
fn refused_as<'a>(word: &'a str, answer: Answer) -> End<'a>
    ensures { RefusesAs word.entry.now answer result }
{
    let reason = match answer {
        Answer::Bad(number) => Reason::Refused(number),
        Answer::Accepted(_)
        | Answer::Refused(_)
        | Answer::Told(_, _)
        | Answer::BadLine
        | Answer::BadCut
        | Answer::BadCommand => Reason::Form(WANTED),
    };
    End::Word {
        option: "--ask",
        word,
        reason,
    }
}

/// The report that a word asks for.
fn report_at<'a>(alloc: Global, project: &Project, word: &'a str) -> Result<Asking, End<'a>>
    ensures asked { IfOk result (IsReportIn project.now (words_of word.entry.now)) }
    ensures refused { IfErr result (OrMemory (RefusesReport project.now word.entry.now)) }
{
    match report_in(alloc, word.as_bytes(), project)? {
        Ok(report) => Ok(report),
        Err(answer) => Err(refused_as(word, answer)),
    }
}

/// The question that a project has to answer.
fn query_at<'a>(project: &Project, word: &'a str, query: Query) -> Result<Asking, End<'a>>
    ensures asked { IfOk result (λ what. (what ≡ Asking.Query query) × (bad_query project.now query ≡ None)) }
    ensures refused { IfErr result (RefusesQuery word.entry.now (bad_query project.now query)) }
{
    match query.bad(project) {
        None => Ok(Asking::Query(query)),
        Some(number) => Err(refused_as(word, Answer::Bad(number))),
    }
}

/// What a word asks for.
fn asking_in<'a>(alloc: Global, project: &Project, word: &'a str) -> Result<Asking, End<'a>>
    ensures asked { IfOk result (IsAsked project.now word.entry.now) }
    ensures refused { IfErr result (OrMemory (RefusesAsk project.now word.entry.now (command_of project.now.k (words_of word.entry.now)))) }
{
    match Command::parse(project.shape(), word.as_bytes()) {
        Some(Command::Query(query)) => query_at(project, word, query),
        Some(Command::Edit(_)) | None => report_at(alloc, project, word),
    }
}

/// What the words ask for, in turn.
pub(crate) fn all_askings<'a>(
    alloc: Global,
    project: &Project,
    words: &[&'a str],
) -> Result<Vec<Asking>, End<'a>>
    ensures asked { IfOk result (λ all. AllZip (IsAsked project.now) (map (λ word. word.now) words.entry.now) all.items) }
    ensures refused { IfErr result (OrMemory (AreNotAsked project.now (map (λ word. word.now) words.entry.now))) }
{
    let mut all = Vec::new(alloc);
    for word in words {
        match asking_in(alloc, project, word) {
            Ok(asking) => all.push(asking)?,
            Err(end) => return Err(end),
        }
    }
    Ok(all)
}
