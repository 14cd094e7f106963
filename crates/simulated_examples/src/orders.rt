//! The limits of `order`, its text, and each growth refused.

use expect::equal;
use project_book::{Edit, Project, read_entry};
use serial_order::{Ordered, order};
use std::alloc::Global;
use std::test::Fail;

/// What is answered for an address, as text.
fn told(alloc: Global, project: &Project, address: u32) -> Result<String, Fail> {
    match order(alloc, project, address) {
        Ordered::Order(tags) => Ok(format!(in alloc; "{tags}")?),
        Ordered::NoOrder => Ok(format!(in alloc; "none")?),
        Ordered::BadAddress => Ok(format!(in alloc; "bad address")?),
        Ordered::Memory => Err(Fail::from("no memory")),
    }
}

#[test]
fn one_processor_loads_in_its_order(rt: HostRuntime) -> Result<(), Fail> {
    let alloc = rt.alloc();
    let entry = read_entry(b"sync load 0 0 2").ok_or("an entry")?;
    let edit = Edit::Entry {
        proc: 0,
        index: 0,
        entry,
    };
    let project = Project::built_in(alloc)?.apply(edit)?.0;
    assert!(rt; equal(&rt, told(alloc, &project, 0)?.as_str(), "order 0.0 0.1"));
    assert!(rt; equal(&rt, told(alloc, &project, 16_383)?.as_str(), "order"));
    assert!(rt; equal(&rt, told(alloc, &project, 16_384)?.as_str(), "bad address"));
    Ok(())
}
