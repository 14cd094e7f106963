//! Lines given to the shell of a bench, and what it writes.
use crate::benches::{Host, same_cells};
use crate::stories::{Stage, Step};
use bench_core::Bench;
use bench_shell::{RunFault, run, run_within};
use project_book::Project;
use std::alloc::Global;
use std::io::{self, Read};
use std::test::Fail;

/// How a run ended, and what it wrote.
#[derive(Drop)]
pub(crate) struct Written {
    pub ended: Result<(), RunFault>,
    pub text: String,
}

/// Gives one byte a call.
#[derive(Drop)]
struct ByteByByte<'a> {
    bytes: &'a [u8],
}

impl Read for ByteByByte<'_> {
    fn read(&mut self, buf: &mut [u8]) -> io::Result<usize> {
        let most = buf.len().min(self.bytes.len()).min(1);
        let (front, rest) = self.bytes.split_at(most);
        buf[..most].copy_from_slice(front);
        self.bytes = rest;
        Ok(most)
    }
}

/// A run of the shell on these bytes.
pub(crate) fn run_on(rt: &impl Host, bench: &mut Bench, input: &[u8]) -> Result<Written, Fail> {
    let mut reader = input;
    let mut writer = Vec::new(rt.alloc());
    let ended = run(rt, rt.alloc(), &mut reader, &mut writer, bench);
    let text = String::from_utf8(writer)?;
    Ok(Written { ended, text })
}

/// What a run of the shell writes on these bytes, where it ends well.
pub(crate) fn text_on(rt: &impl Host, bench: &mut Bench, input: &[u8]) -> Result<String, Fail> {
    let Written { ended, text } = run_on(rt, bench, input)?;
    ended?;
    Ok(text)
}

/// A run of the shell on these bytes, one read for each, in so many reads at most.
pub(crate) fn run_in_reads(
    rt: &impl Host,
    bench: &mut Bench,
    input: &[u8],
    reads: u32,
) -> Result<Written, Fail> {
    let mut reader = ByteByByte { bytes: input };
    let mut writer = Vec::new(rt.alloc());
    let ended = run_within(rt, rt.alloc(), &mut reader, &mut writer, bench, reads);
    let text = String::from_utf8(writer)?;
    Ok(Written { ended, text })
}

/// What a run of the shell writes on this input at a fresh bench of a project, where it isn't what is
/// wanted.
pub(crate) fn otherwise(
    rt: &impl Host,
    project: Project,
    input: &str,
    want: &str,
) -> Result<Option<String>, Fail> {
    let text = text_at(rt, project, input.as_bytes())?;
    Ok(if text.as_str() == want {
        None
    } else {
        Some(text)
    })
}

fn text_at(rt: &impl Host, project: Project, input: &[u8]) -> Result<String, Fail> {
    let mut stage = Stage::opened(rt.alloc(), project, 0)?;
    text_on(rt, &mut stage.bench, input)
}

/// What a run of the shell writes on these lines at a fresh bench of a project, where it isn't their
/// answers.
pub(crate) fn misanswered(
    rt: &impl Host,
    project: Project,
    session: Session,
) -> Result<Option<String>, Fail> {
    let lines = input(rt.alloc(), session)?;
    let answers = output(rt.alloc(), session)?;
    otherwise(rt, project, lines.as_str(), answers.as_str())
}

/// The number of cells that are as the plain simulation has them, once these lines have been obeyed at
/// a fresh bench of a project, and it is settled.
pub(crate) fn same_after(
    rt: &impl Host,
    project: Project,
    session: Session,
) -> Result<usize, Fail> {
    let mut stage = Stage::opened(rt.alloc(), project, 0)?;
    obey(rt, &mut stage.bench, session)?;
    same_settled(rt, &mut stage)
}

fn obey(rt: &impl Host, bench: &mut Bench, session: Session) -> Result<(), Fail> {
    let lines = input(rt.alloc(), session)?;
    text_on(rt, bench, lines.as_bytes())?;
    Ok(())
}

fn same_settled(rt: &impl Host, stage: &mut Stage) -> Result<usize, Fail> {
    stage.play(Step::Settle)?;
    same_cells(rt, &mut stage.bench)
}

/// Lines, each with its answer.
pub(crate) type Session<'a> = &'a [(&'a str, &'a str)];

/// The lines, each with its LF.
pub(crate) fn input(alloc: Global, session: Session) -> Result<String, Fail> {
    let mut text = String::new(alloc);
    for (line, _) in session {
        add_line(&mut text, line)?;
    }
    Ok(text)
}

/// The answers, each with its LF.
pub(crate) fn output(alloc: Global, session: Session) -> Result<String, Fail> {
    let mut text = String::new(alloc);
    for (_, answer) in session {
        add_line(&mut text, answer)?;
    }
    Ok(text)
}

/// Adds a line and its LF.
pub(crate) fn add_line(text: &mut String, line: &str) -> Result<(), Fail> {
    text.push_str(line)?;
    text.push_str("\n")?;
    Ok(())
}
