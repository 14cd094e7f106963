//! One edit after another on one bench.
ghost use Rattle.std.specs.Prelude.{◌≡◌, ◌⊎◌, IfOk, IfErr, OnOk, Ok, map};
ghost use Rattle.project_book.specs.Edits.{edited};
ghost use Rattle.run_queries.specs.Answers.{answer};
ghost use Rattle.bench_core.specs.Shown.{project_of};
ghost use Rattle.experiments.specs.Told.{IsReason, IsWant, IsEditReason};

use crate::Fault;
use bench_core::{Bench, Told};
use project_book::Edit;
use run_queries::{Body, Query};
use std::alloc::Global;
use std::thread::Threads;

/// What the run of the bench's project says to a query; the due cells that the answer looks at are computed first.
///
/// # Errors
///
/// Query where the query has no answer, with the number of the reason. Else Clock where the clock is spent, and Memory where
/// a growth was refused; both come only where the query's own numbers give no reason against it.
pub fn told<T: Threads + Sync>(rt: &T, bench: &mut Bench, query: Query) -> Result<Body, Fault>
    ensures answer { IfOk result (λ body. answer (project_of bench.old) query ≡ Ok body) }
    ensures bad { IfErr result (IsReason bench.new.table.clock (project_of bench.old) query) }
    ensures project { project_of bench.new ≡ project_of bench.old }
{
    match bench.answer(rt, query) {
        Told::Answer { body, .. } => Ok(body),
        Told::BadQuery(number) => Err(Fault::Query(number)),
        Told::ClockSpent => Err(Fault::Clock),
        Told::Memory => Err(Fault::Memory),
    }
}

/// What is told of a query, or the number of the reason why it has no answer.
///
/// # Errors
///
/// Clock and Memory, as [`told`] has them.
pub fn told_or_bad<T: Threads + Sync>(
    rt: &T,
    bench: &mut Bench,
    query: Query,
) -> Result<Result<Body, u8>, Fault>
    ensures answer { IfOk result (λ says. answer (project_of bench.old) query ≡ says) }
    ensures want { IfErr result (IsWant bench.new.table.clock) }
    ensures project { project_of bench.new ≡ project_of bench.old }
{
    match told(rt, bench, query) {
        Ok(body) => Ok(Ok(body)),
        Err(Fault::Query(number)) => Ok(Err(number)),
        Err(fault) => Err(fault),
    }
}

/// What the run of the bench's project says to each query, in turn: an answer, or the number of the reason why there is none.
///
/// # Errors
///
/// Clock where the clock is spent, Memory where a growth was refused. The bench's project stays.
pub fn told_each<T: Threads + Sync>(
    rt: &T,
    alloc: Global,
    bench: &mut Bench,
    queries: &[Query],
) -> Result<Vec<Result<Body, u8>>, Fault>
    ensures answers { IfOk result (λ row. row.items ≡ map (answer (project_of bench.old)) queries.now) }
    ensures want { IfErr result (IsWant bench.new.table.clock) }
    ensures project { project_of bench.new ≡ project_of bench.old }
{
    let mut row = Vec::new(alloc);
    for query in queries {
        let says = match told_or_bad(rt, bench, *query) {
            Ok(says) => says,
            Err(fault) => return Err(fault),
        };
        row.push(says)?;
    }
    Ok(row)
}

/// A row of a sweep: the edit, then what the run of the edited project says to each query.
///
/// # Errors
///
/// Edit where the edit is refused: the bench's project stays. Those of [`told_each`]: it is the edited one.
pub fn sweep_row<T: Threads + Sync>(
    rt: &T,
    alloc: Global,
    bench: &mut Bench,
    edit: Edit,
    queries: &[Query],
) -> Result<Vec<Result<Body, u8>>, Fault>
    ensures project { OnOk result (project_of bench.new ≡ edited (project_of bench.old) edit) }
    ensures answers { IfOk result (λ row. row.items ≡ map (answer (edited (project_of bench.old) edit)) queries.now) }
    ensures refused { IfErr result (λ fault. IsEditReason bench.old edit fault ⊎ IsWant bench.new.table.clock fault) }
{
    match bench.edit(0, edit) {
        Ok(_) => {}
        Err(fault) => return Err(Fault::Edit(fault)),
    }
    told_each(rt, alloc, bench, queries)
}
