//! The flat row beside the plain simulation on projects that are drawn from a seed.

use crate::rows::is_run;
use omega_net::ScriptEntry;
use project_book::{Depths, Edit, Project};
use rand_pcg::Pcg32;
use rand_pcg::rand_core::utils::NextWord;
use std::alloc::Global;
use std::test::Fail;
use word_ops::{Kind, Op};

/// How many projects a test draws; there are four such tests, so that each ends soon where it is run with checks.
const PROJECTS: u64 = 500;

/// How many edits each of them has had; some are refused.
const EDITS: u32 = 24;

/// The last cycle of each of them.
const HORIZON: u32 = 32;

/// A number below a bound, 0 where that is 0.
fn below(draws: &mut Pcg32, bound: u32) -> u32 {
    draws.next_word().checked_rem(bound).unwrap_or(0)
}

/// One of two.
fn either(draws: &mut Pcg32) -> bool {
    below(draws, 2) == 1
}

/// A word of the first page or of the second one, mostly the first.
fn address(draws: &mut Pcg32) -> u32 {
    if either(draws) { 0 } else { below(draws, 512) }
}

fn kind(draws: &mut Pcg32) -> Kind {
    match below(draws, 4) {
        0 => Kind::Load,
        1 => Kind::Add,
        2 => Kind::Max,
        _ => Kind::Store,
    }
}

/// A reference, or what stands between references.
fn entry(draws: &mut Pcg32) -> ScriptEntry {
    let sync = either(draws);
    let op = Op {
        kind: kind(draws),
        operand: below(draws, 4),
    };
    let address = address(draws);
    let times = below(draws, 9).saturating_add(1);
    match below(draws, 8) {
        0 => ScriptEntry::Fence,
        1 => ScriptEntry::Idle(times),
        2 => ScriptEntry::Until {
            sync,
            op,
            address,
            value: below(draws, 3),
            times,
        },
        _ => ScriptEntry::Reference {
            sync,
            op,
            address,
            times,
        },
    }
}

/// An edit of a project of 2^k processors.
fn edit(draws: &mut Pcg32, k: u32) -> Edit {
    match below(draws, 12) {
        0 => depth(draws),
        1 => Edit::WaitDepth(below(draws, 17)),
        2 => Edit::Combine {
            stage: below(draws, k),
            on: either(draws),
        },
        3 => Edit::Window(below(draws, 8).saturating_add(1)),
        4 => page(draws, k),
        5 => Edit::Word {
            address: address(draws),
            word: below(draws, 3),
        },
        _ => Edit::Entry {
            proc: below(draws, 1 << k.min(5)),
            index: below(draws, 4),
            entry: entry(draws),
        },
    }
}

fn depth(draws: &mut Pcg32) -> Edit {
    Edit::Depth {
        queue: match below(draws, 5) {
            0 => Depths::LowForward,
            1 => Depths::LowReverse,
            2 => Depths::CombForward,
            3 => Depths::CombReverse,
            _ => Depths::ModuleQueue,
        },
        depth: below(draws, 17),
    }
}

fn page(draws: &mut Pcg32, k: u32) -> Edit {
    Edit::Page {
        page: below(draws, 2),
        amount: below(draws, k.saturating_add(1)),
        base: below(draws, 1 << k.min(5)),
    }
}

/// The project of a seed.
fn project(alloc: Global, seed: u64) -> Result<Project, Fail> {
    let mut draws = Pcg32::new(seed, 0);
    let k = below(&mut draws, 3).saturating_add(1);
    let mut project = Project::new(alloc, k, HORIZON)?.ok_or("no such project")?;
    for _ in 0..EDITS {
        if let Ok((edited, _)) = project.apply(edit(&mut draws, k)) {
            project = edited;
        }
    }
    Ok(project)
}

/// Whether the runs of the projects from a seed on are the plain ones.
fn are_plain(alloc: Global, from: u64) -> Result<bool, Fail> {
    for seed in 0..PROJECTS {
        let project = project(alloc, from.saturating_add(seed))?;
        if !is_run(alloc, &project)? {
            return Ok(false);
        }
    }
    Ok(true)
}

#[test]
fn drawn_runs_are_the_plain_ones(rt: HostRuntime) -> Result<(), Fail> {
    assert!(rt; are_plain(rt.alloc(), 0)?);
    Ok(())
}

#[test]
fn drawn_runs_from_500_are_the_plain_ones(rt: HostRuntime) -> Result<(), Fail> {
    assert!(rt; are_plain(rt.alloc(), 500)?);
    Ok(())
}

#[test]
fn drawn_runs_from_1000_are_the_plain_ones(rt: HostRuntime) -> Result<(), Fail> {
    assert!(rt; are_plain(rt.alloc(), 1_000)?);
    Ok(())
}

#[test]
fn drawn_runs_from_1500_are_the_plain_ones(rt: HostRuntime) -> Result<(), Fail> {
    assert!(rt; are_plain(rt.alloc(), 1_500)?);
    Ok(())
}
