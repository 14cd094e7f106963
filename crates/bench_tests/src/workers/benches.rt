//! Passes to a bench of the base project, and benches of a hot spot.
ghost use Rattle.std.specs.Prelude.{◌<◌, ◌≤◌};

use crate::base::{adds, bench_of, entry, fresh, page};
use bench_core::Bench;
use omega_net::ScriptEntry;
use project_book::{Edit, Project};
use shared_bench::{Pass, open};
use std::alloc::Global;
use std::test::Fail;

/// A pass to a fresh bench of the base project, with so many seats.
pub(super) fn opened(alloc: Global, seats: u32) -> Result<Pass, Fail>
    requires { (0 < seats) × (seats ≤ 64) }
{
    let bench = fresh(alloc)?;
    Ok(
        open(alloc, Box::into_inner(bench), seats)
            .ok()
            .ok_or("no memory")?,
    )
}

/// Four processors and the horizon 6, window 8, page 0 whole in module 0. All add 1 to address 0 fifty times over the low
/// network, two of them after an idle of 4. Its components are the processors 0 to 3, the modules 4 to 7, the low switches
/// 8 to 11 and the combining switches 12 to 15: 112 cells.
fn contention(alloc: Global) -> Result<Project, Fail> {
    let adds = adds(false, 1, 50);
    let mut project = Project::new(alloc, 2, 6)?.ok_or("within the limits")?;
    for edit in [
        page(0),
        Edit::Window(8),
        entry(0, 0, adds),
        entry(1, 0, adds),
        entry(2, 0, ScriptEntry::Idle(4)),
        entry(2, 1, adds),
        entry(3, 0, ScriptEntry::Idle(4)),
        entry(3, 1, adds),
    ] {
        project = project.apply(edit)?.0;
    }
    Ok(project)
}

/// A fresh bench of it.
pub(super) fn contended(alloc: Global) -> Result<Box<Bench>, Fail> {
    bench_of(alloc, contention(alloc)?, 0)
}
