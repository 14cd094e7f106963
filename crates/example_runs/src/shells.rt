//! The sessions of `lab shell`, held again.

use crate::page::Session;
use crate::pictures::is_example;
use crate::verdict::Verdict;
use bench_core::Bench;
use bench_shell::Writing;
use lab_shell::{Manner, Voice};
use lab_tasks::{OutFile, Shelf, hold};
use project_book::Project;
use std::alloc::{AllocGlobal, Global};
use std::rt::Files;
use std::thread::Threads;

/// Takes a file that lies in examples/ with the same bytes.
#[derive(Drop)]
struct Examples<'a, R> {
    rt: &'a R,
}

impl<R: Files + AllocGlobal> Shelf for Examples<'_, R> {
    ghost saves = { λ _ _ _ _. Unit {0} };

    fn save(&self, file: &OutFile) -> bool {
        is_example(self.rt, file)
    }
}

/// What is said of a session on a project: it has to print what stands below it on its page, and to save what lies in
/// examples/.
pub fn talked<R: Files + AllocGlobal + Threads + Sync>(
    rt: &R,
    strict: bool,
    project: Project,
    session: &Session,
) -> Verdict {
    let Some(mut bench) = bench_of(rt.alloc(), project) else {
        return Verdict::NotRun;
    };
    match printed(rt, strict, &mut bench, session.typed.as_slice()) {
        Some(printed) if printed.as_slice() == session.printed.as_slice() => Verdict::AsExpected,
        Some(_) => Verdict::Differs,
        None => Verdict::NotRun,
    }
}

/// A bench in a box, since each way out of a function costs its proof something for every field that it lets go.
fn bench_of(alloc: Global, project: Project) -> Option<Box<Bench>> {
    match Bench::new(alloc, project, 0) {
        Ok(bench) => Box::new(alloc, bench).ok(),
        Err(_) => None,
    }
}

/// What a session prints, where no fault ends it.
fn printed<R: Files + AllocGlobal + Threads + Sync>(
    rt: &R,
    strict: bool,
    bench: &mut Bench,
    typed: &[u8],
) -> Option<Vec<u8>> {
    let manner = Manner {
        voice: Voice::Plain,
        strict,
    };
    let alloc = rt.alloc();
    let shelf = Examples { rt };
    let mut reader = typed;
    let mut written = Vec::new(alloc);
    let ended = {
        let mut sink = Writing::new(&mut written);
        hold(rt, alloc, manner, &shelf, &mut reader, &mut sink, bench)
    };
    match ended {
        Ok(_status) => Some(written),
        Err(_) => None,
    }
}
