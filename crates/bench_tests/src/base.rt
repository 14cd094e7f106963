//! The base project, benches of it, and edits.
use bench_core::Bench;
use omega_net::ScriptEntry;
use project_book::{Edit, Project};
use shared_bench::Pass;
use std::alloc::Global;
use std::process::Abort;
use std::test::Fail;
use word_ops::{Kind, Op};

/// Two processors and the horizon 10; page 0 on module 0, page 1 on module 1; word 0 is 10. Its components are the
/// processors 0 and 1, the modules 2 and 3, the low switch 4 and the combining switch 5: 66 cells.
pub(crate) fn base(alloc: Global) -> Result<Project, Fail> {
    let mut project = Project::new(alloc, 1, 10)?.ok_or("within the limits")?;
    for edit in [page(0), page(1), word(0, 10)] {
        project = project.apply(edit)?.0;
    }
    Ok(project)
}

/// The page of this number, whole in the module of that number.
pub(crate) fn page(number: u32) -> Edit {
    Edit::Page {
        page: number,
        amount: 0,
        base: number,
    }
}

pub(crate) fn word(address: u32, word: u32) -> Edit {
    Edit::Word { address, word }
}

pub(crate) fn entry(proc: u32, index: u32, entry: ScriptEntry) -> Edit {
    Edit::Entry { proc, index, entry }
}

/// So many additions of this number to address 0, over the combining network or over the low one.
pub(crate) fn adds(sync: bool, operand: u32, times: u32) -> ScriptEntry {
    let op = Op {
        kind: Kind::Add,
        operand,
    };
    ScriptEntry::Reference {
        sync,
        op,
        address: 0,
        times,
    }
}

/// A bench of a project, with its clock at this value. It stands in a box, since each way out of a function costs its
/// proof something for every field that it lets go.
pub(crate) fn bench_of(alloc: Global, project: Project, clock: u64) -> Result<Box<Bench>, Fail> {
    let bench = Bench::new(alloc, project, clock).ok().ok_or("no memory")?;
    Ok(Box::new(alloc, bench)?)
}

/// A fresh bench of the base project.
pub(crate) fn fresh(alloc: Global) -> Result<Box<Bench>, Fail> {
    bench_of(alloc, base(alloc)?, 0)
}

/// Closes the last pass: its bench, in a box at once. A proof of a function that looks at the result of `close` takes minutes.
pub(crate) fn bench_back<R: Abort>(rt: &R, alloc: Global, pass: Pass) -> Box<Bench> {
    let bench = pass.close().ok().expect(rt, "another pass is there");
    Box::new(alloc, bench).ok().expect(rt, "no memory")
}
