//! What is swept.
ghost use Rattle.std.specs.Prelude.{◌≤◌};

use project_book::Depths;

/// The depths of some queues that are gone through.
#[derive(Clone, Copy)]
pub(crate) struct Swept {
    pub queue: Depths,
    pub from: u32,
    pub to: u32,
    ghost order: { from ≤ to },
    ghost within: { to ≤ 16 },
}

/// Some queues have a depth.
#[derive(Clone, Copy)]
pub(crate) struct Setting {
    pub queue: Depths,
    pub depth: u32,
}
