//! What passes do, one alone or two at once in two threads.
ghost use Rattle.std.specs.Prelude.{◌≡◌};

use bench_core::Told;
use cell_table::{Claim, Given};
use machine_cells::Rp3;
use project_book::{Edit, EditFault};
use run_queries::{Body, Query};
use shared_bench::Pass;
use std::sync::Wait;
use std::thread;
use std::thread::Threads;

/// What passes are asked with.
pub(super) trait Host: Threads + Wait + Sync {}

impl<R: Threads + Wait + Sync> Host for R {}

/// What a pass is to do.
#[derive(Drop)]
pub(super) enum Task {
    Edit(Edit),
    Ask(Query),
    /// Takes the project: its word at address 0.
    Project,
    /// Computes the claim, and gives the result.
    Give(Claim<Rp3>),
}

/// What comes of it.
#[derive(Clone, Copy, PartialEq, Eq, Debug)]
pub(super) enum Came {
    Version(u32),
    Refused(EditFault),
    Word { version: u32, word: u32 },
    ClockSpent,
    Stored { changed: bool },
    NotDue,
    Other,
}

pub(super) fn told(told: Told) -> Came {
    match told {
        Told::Answer {
            version,
            body: Body::Word(word),
        } => Came::Word { version, word },
        Told::ClockSpent => Came::ClockSpent,
        _ => Came::Other,
    }
}

fn given<D: Drop>(given: Given<D>) -> Came {
    match given {
        Given::Stored { changed } => Came::Stored { changed },
        Given::NotDue => Came::NotDue,
        Given::ClockSpent(_) => Came::ClockSpent,
        _ => Came::Other,
    }
}

pub(super) fn does<R: Host>(rt: &R, pass: &mut Pass, what: Task) -> Came
    ensures { pass.new.opening ≡ pass.old.opening }
{
    match what {
        Task::Edit(edit) => match pass.edit(rt, edit) {
            Ok(version) => Came::Version(version),
            Err(fault) => Came::Refused(fault),
        },
        Task::Ask(query) => told(pass.ask(rt, query)),
        Task::Project => match pass.project(rt) {
            Ok((version, project)) => Came::Word {
                version,
                word: project.word(0),
            },
            Err(_) => Came::Other,
        },
        Task::Give(claim) => match claim.compute() {
            Ok(done) => given(pass.give(rt, done)),
            Err(_) => Came::Other,
        },
    }
}

/// The same, in a thread: the pass comes back.
fn done<R: Host>(rt: &R, mut pass: Pass, what: Task) -> (Pass, Came)
    ensures { result.0.opening ≡ pass.opening }
{
    let came = does(rt, &mut pass, what);
    (pass, came)
}

/// Two passes at once, each in a thread of its own.
pub(super) fn together<R: Host>(
    rt: &R,
    one: Pass,
    first: Task,
    other: Pass,
    second: Task,
) -> ((Pass, Came), (Pass, Came))
    ensures one { result.0.0.opening ≡ one.opening }
    ensures other { result.1.0.opening ≡ other.opening }
{
    thread::join(
        rt,
        move || -> (Pass, Came)
            ensures { result.0.opening ≡ one.opening }
        { done(rt, one, first) },
        move || -> (Pass, Came)
            ensures { result.0.opening ≡ other.opening }
        { done(rt, other, second) },
    )
}
