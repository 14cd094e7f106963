//! The one order of the references to all words.
use crate::again::again;
use crate::benches::{fresh, whole};
use crate::projects::project;
use bench_core::Bench;
use memory_order::memory_order;
use omega_net::Tag;
use serial_order::one_order;
use std::alloc::Global;

pub(crate) fn ordered(alloc: Global) -> bool {
    match project(alloc) {
        Some(project) => is_in_turn(again!(one_order(alloc, &project))),
        None => false,
    }
}

pub(crate) fn linearized(alloc: Global) -> bool {
    match project(alloc) {
        Some(project) => is_in_turn(again!(memory_order(alloc, &project))),
        None => false,
    }
}

/// By the states that the bench holds, and, with cells due, by a simulation.
pub(crate) fn of_benches(alloc: Global) -> bool {
    is_of(whole(alloc)) && is_of(fresh(alloc))
}

fn is_of(bench: Option<Box<Bench>>) -> bool {
    match bench {
        Some(bench) => is_in_turn(again!(bench.one_order())),
        None => false,
    }
}

/// Whether the add of processor 0 is done first, and then that of processor 1, which was combined into it.
fn is_in_turn(tags: Option<Vec<Tag>>) -> bool {
    match tags {
        Some(tags) => match tags.as_slice() {
            [first, second] => first.proc == 0 && second.proc == 1,
            _ => false,
        },
        None => false,
    }
}
