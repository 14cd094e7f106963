//! The pictures and tables of the examples, made again.

use crate::opened;
use crate::page::{Session, words};
use crate::shells::talked;
use crate::verdict::{Verdict, status_after};
use command_line::read_file;
use lab_tasks::{Asked, OutFile, Outcome, Silent, perform, read_words};
use std::alloc::AllocGlobal;
use std::io;
use std::io::{Print, Write};
use std::rt::Files;
use std::thread::Threads;

/// What the program `lab` is told, beside what the pages have.
pub const RUNS: [&[&str]; 6] = [
    &[
        "sweep",
        "examples/saturation.toml",
        "--depth",
        "low-forward=2..5",
        "--depth",
        "module=2..3",
        "--ask",
        "tree low 0",
        "--ask",
        "counter served m0 0 6",
    ],
    &["order", "examples/flag.toml", "--out", "examples/flag.svg"],
    &["order", "examples/hot_word.toml"],
    &["check", "examples/mixed.toml"],
    &["map", "examples/tree.toml", "--to", "161"],
    &["rates", "--hot", "1,x"],
];

/// Makes again what a run of `lab` makes: prints what it prints, and says of each file that it would write whether the one
/// that lies there is the same. The status is 1 from the first on that isn't.
pub fn play<R: Files + AllocGlobal + Print + Threads + Sync>(
    rt: &R,
    words: &[&str],
    status: u8,
) -> io::Result<u8> {
    let Ok(asked) = read_words(rt.alloc(), words) else {
        println!(rt; "lab: {}", Verdict::NotRun)?;
        return Ok(1);
    };
    let bytes = input(rt, &asked)?;
    match perform(rt, rt.alloc(), &asked, bytes.as_slice(), &mut Silent) {
        Ok(outcome) => shown(rt, &outcome, status),
        Err(end) => {
            println!(rt; "{end}")?;
            Ok(status)
        }
    }
}

/// The file that is asked about, or nothing.
fn input<R: Files + AllocGlobal>(rt: &R, asked: &Asked) -> io::Result<Vec<u8>> {
    match asked.file() {
        Some(name) => read_file(rt, name),
        None => Ok(Vec::new(rt.alloc())),
    }
}

fn shown<R: Files + AllocGlobal + Print>(rt: &R, outcome: &Outcome, status: u8) -> io::Result<u8> {
    io::writer(rt).write_all(outcome.printed.as_slice())?;
    let mut status = status;
    for file in &outcome.files {
        let name = file.name.as_str();
        let verdict = compared(rt, name, file.bytes.as_slice());
        println!(rt; "{name}: {verdict}")?;
        status = status_after(status, verdict);
    }
    Ok(status)
}

/// What is said of a command of `lab` in a page: it has to print what stands below it there, and to make the files of these
/// names that lie in examples/.
pub fn made<R: Files + AllocGlobal + Threads + Sync>(rt: &R, session: &Session) -> Verdict {
    let Some(words) = words(rt.alloc(), session.words.as_str()) else {
        return Verdict::NotRun;
    };
    let Ok(asked) = read_words(rt.alloc(), words.as_slice()) else {
        return Verdict::NotRun;
    };
    if let Asked::Shell(words) = &asked {
        return match opened(rt, words.file.unwrap_or("")) {
            Some(project) => talked(rt, words.strict, project, session),
            None => Verdict::NotRead,
        };
    }
    let Ok(bytes) = input(rt, &asked) else {
        return Verdict::NotRead;
    };
    match perform(rt, rt.alloc(), &asked, bytes.as_slice(), &mut Silent) {
        Ok(outcome) => printed(rt, &outcome, session.printed.as_slice()),
        Err(_) => Verdict::NotRun,
    }
}

/// What is said of a command that has to print this.
fn printed<R: Files + AllocGlobal>(rt: &R, outcome: &Outcome, wanted: &[u8]) -> Verdict {
    if outcome.printed.as_slice() == wanted {
        files_made(rt, outcome)
    } else {
        Verdict::Differs
    }
}

/// Whether a file lies in examples/ with the same bytes.
pub fn is_example<R: Files + AllocGlobal>(rt: &R, file: &OutFile) -> bool {
    in_examples(rt, file) == Verdict::AsExpected
}

/// What is said of a file beside the one of its name in examples/.
fn in_examples<R: Files + AllocGlobal>(rt: &R, file: &OutFile) -> Verdict {
    match format!(in rt.alloc(); "examples/{}", file.name) {
        Ok(name) => compared(rt, name.as_str(), file.bytes.as_slice()),
        Err(_) => Verdict::NotRun,
    }
}

/// What is said of the first file that isn't as expected.
fn files_made<R: Files + AllocGlobal>(rt: &R, outcome: &Outcome) -> Verdict {
    for file in &outcome.files {
        let verdict = in_examples(rt, file);
        if verdict != Verdict::AsExpected {
            return verdict;
        }
    }
    Verdict::AsExpected
}

fn compared<R: Files + AllocGlobal>(rt: &R, name: &str, made: &[u8]) -> Verdict {
    match read_file(rt, name) {
        Ok(bytes) if bytes.as_slice() == made => Verdict::AsExpected,
        Ok(_) => Verdict::Differs,
        Err(_) => Verdict::NotRead,
    }
}
