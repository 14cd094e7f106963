//! What passes do, step by step, and what comes of each step.
use crate::claims::Came;
use bench_core::Told;
use cell_table::{Cell, Done};
use machine_cells::Rp3;
use project_book::{Edit, EditFault};
use run_queries::{Body, Query};
use shared_bench::Pass;
use std::sync::Wait;
use std::thread::Threads;
use std::time::Clock;

/// What passes wait and are asked with.
pub(crate) trait Host: Threads + Wait + Clock + Sync {}

impl<R: Threads + Wait + Clock + Sync> Host for R {}

/// What a pass does.
#[derive(Clone, Copy)]
pub(crate) enum Step {
    /// An edit that is accepted with this version, or refused.
    Edit(Edit, Result<u32, EditFault>),
    /// Claims this very cell, computes it, and holds the result.
    Hold {
        component: u32,
        cycle: u32,
    },
    /// Gives the result that was held last.
    Give(Came),
    /// Asks for the word of an address at a cycle, up to which the bench is settled: the version and the word.
    Ask {
        address: u32,
        cycle: u32,
        told: (u32, u32),
    },
    /// Is told, when it asks, that the clock is spent.
    IsSpent,
}

/// Whether what was to come of a step comes.
pub(crate) fn comes<R: Host>(
    rt: &R,
    pass: &mut Pass,
    held: &mut Vec<Done<Rp3>>,
    step: Step,
) -> bool {
    match step {
        Step::Edit(edit, want) => pass.edit(rt, edit) == want,
        Step::Hold { component, cycle } => match result(rt, pass, Cell { cycle, component }) {
            Some(done) => held.push(done).is_ok(),
            None => false,
        },
        Step::Give(want) => match held.pop() {
            Some(done) => Came::of(pass.give(rt, done)) == want,
            None => false,
        },
        Step::Ask {
            address,
            cycle,
            told,
        } => word_told(pass.ask(rt, Query::Memory { address, cycle })) == Some(told),
        Step::IsSpent => is_spent(pass.ask(rt, FIRST_STATE)),
    }
}

const FIRST_STATE: Query = Query::State {
    component: 0,
    cycle: 0,
};

/// The version and the word of an answer.
pub(crate) fn word_told(told: Told) -> Option<(u32, u32)> {
    match told {
        Told::Answer {
            version,
            body: Body::Word(word),
        } => Some((version, word)),
        _ => None,
    }
}

fn is_spent(told: Told) -> bool {
    matches!(told, Told::ClockSpent)
}

/// The result of this very cell.
pub(crate) fn result<R: Host>(rt: &R, pass: &mut Pass, cell: Cell) -> Option<Done<Rp3>> {
    match pass.claim(rt, cell) {
        Ok(Some(claim)) if claim.cell() == cell => claim.compute().ok(),
        _ => None,
    }
}
