//! Plays the examples and the pages that lie beside it, whose commands make the pictures of the examples again: it tells whether
//! the answers and the pictures are the expected ones.
#![tactic(auto)]

ghost use Rattle.std.specs.Prelude.{◌≡◌, IfSome};
ghost use Rattle.bench_shell.specs.Output.{output};
ghost use Rattle.bench_shell.specs.Store.{first_store};
ghost use Rattle.example_runs.specs.Verdicts.{Judges};

mod page;
mod pictures;
mod shells;
mod verdict;

use bench_core::Bench;
use bench_shell::run;
use command_line::read_file;
use page::{Program, Session, sessions};
use pictures::{RUNS, made, play};
use project_book::Project;
use project_file::read_project;
use std::alloc::{AllocGlobal, Global};
use std::io;
use std::process::ExitCode;
use std::rt::Files;
use std::thread::Threads;
use verdict::{Verdict, status_after};

/// An example NAME is a project file NAME.toml, commands NAME.in, and the answers NAME.out.
const EXAMPLES: [&str; 12] = [
    "fetch_barrier",
    "flag",
    "flag_fenced",
    "hot_traffic",
    "hot_word",
    "long_run",
    "matrix_stride",
    "one_module",
    "saturation",
    "spin_lock",
    "ticket_lock",
    "work_queue",
];

/// The pages that are played.
const PAGES: [&str; 4] = [
    "README.md",
    "docs/LESSON.md",
    "docs/LAB.md",
    "examples/README.md",
];

fn main(rt: HostRuntime) -> io::Result<ExitCode> {
    let mut status = 0;
    for name in EXAMPLES {
        let verdict = match example(&rt, name) {
            Some(session) => answered(&rt, &session),
            None => Verdict::NotRead,
        };
        println!(rt; "{name}: {verdict}")?;
        status = status_after(status, verdict);
    }
    for name in PAGES {
        let page = read_file(&rt, name)?;
        let Some(found) = sessions(rt.alloc(), page.as_slice()) else {
            println!(rt; "{name}: {}", Verdict::NotRead)?;
            status = status_after(status, Verdict::NotRead);
            continue;
        };
        for session in &found {
            let verdict = match session.program {
                Program::Hotspot => answered(&rt, session),
                Program::Lab => made(&rt, session),
            };
            println!(rt; "{name}, {session}: {verdict}")?;
            status = status_after(status, verdict);
        }
    }
    for words in RUNS {
        status = play(&rt, words, status)?;
    }
    Ok(ExitCode::from(status))
}

/// An example as a session.
fn example<R: Files + AllocGlobal>(rt: &R, name: &str) -> Option<Session> {
    Some(Session {
        program: Program::Hotspot,
        words: format!(in rt.alloc(); "examples/{name}.toml").ok()?,
        typed: file(rt, name, "in")?,
        printed: file(rt, name, "out")?,
    })
}

fn file<R: Files + AllocGlobal>(rt: &R, name: &str, kind: &str) -> Option<Vec<u8>> {
    let path = format!(in rt.alloc(); "examples/{name}.{kind}").ok()?;
    read_file(rt, path.as_str()).ok()
}

/// What is said of a session of the workbench, whose project is read first.
fn answered<R: Files + AllocGlobal + Threads + Sync>(rt: &R, session: &Session) -> Verdict {
    match opened(rt, session.words.as_str().trim()) {
        Some(project) => judged(
            rt,
            rt.alloc(),
            project,
            session.typed.as_slice(),
            session.printed.as_slice(),
        ),
        None => Verdict::NotRead,
    }
}

/// Whether a bench on the project answers what is expected.
fn judged<T: Threads + Sync>(
    rt: &T,
    alloc: Global,
    project: Project,
    commands: &[u8],
    expected: &[u8],
) -> Verdict
    ensures { Judges project commands.now expected.now result }
{
    match answers(rt, alloc, project, commands) {
        Some(given) => {
            if given.as_slice() == expected {
                Verdict::AsExpected
            } else {
                Verdict::Differs
            }
        }
        None => Verdict::NotRun,
    }
}

/// The project of the file, or the built-in one where none is named.
fn opened<R: Files + AllocGlobal>(rt: &R, file: &str) -> Option<Project> {
    if file.is_empty() {
        return Project::built_in(rt.alloc()).ok();
    }
    let bytes = read_file(rt, file).ok()?;
    read_project(rt.alloc(), bytes.as_slice()).ok()
}

/// What a bench on the project answers to the commands.
fn answers<T: Threads + Sync>(
    rt: &T,
    alloc: Global,
    project: Project,
    commands: &[u8],
) -> Option<Vec<u8>>
    ensures { IfSome result (λ given. given.items ≡ output (first_store project) commands.now) }
{
    let mut bench = match Bench::new(alloc, project, 0) {
        Ok(bench) => bench,
        Err(_) => return None,
    };
    let mut reader = commands;
    let mut given = Vec::new(alloc);
    match run(rt, alloc, &mut reader, &mut given, &mut bench) {
        Ok(()) => Some(given),
        Err(_) => None,
    }
}
