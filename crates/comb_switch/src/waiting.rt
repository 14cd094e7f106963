//! The wait buffer: what has to be known to make two replies of the one to a combined request.
ghost use Rattle.std.specs.Prelude.{◌≡◌, ◌↔◌, IsTrue, OnOk, position, Some};
ghost use Rattle.std.specs.List.{list_any};
ghost use Rattle.omega_net.specs.Ports.{same_tag};
ghost use Rattle.omega_net.specs.Queues.{joined};

use omega_net::{Queue, Tag};
use std::alloc::AllocError;
use word_ops::Op;

/// A request that was combined into another: that one's tag, its operation before, and the tag of the request that
/// was combined into it.
#[derive(Clone, Copy, PartialEq, Eq, Debug, Default)]
pub struct Waiting {
    pub first: Tag,
    pub op: Op,
    pub second: Tag,
}

/// Whether two wait buffers hold the same entries in the same order.
pub(crate) fn same_waiting(first: &Queue<Waiting>, second: &Queue<Waiting>) -> bool
    ensures { IsTrue result ↔ (first.now ≡ second.now) }
{
    first == second
}

/// Whether an entry waits for that tag.
pub(crate) fn is_first(wait: &Queue<Waiting>, tag: Tag) -> bool
    ensures { result ≡ list_any (λ w. same_tag w.first tag) wait.now.items }
{
    wait.iter().any(|w| w.first == tag)
}

/// The index of the first entry that waits for that tag.
pub(crate) fn first_waiting(wait: &Queue<Waiting>, tag: Tag) -> Option<usize>
    ensures { result ≡ position (λ w. same_tag w.first tag) wait.now.items }
{
    wait.iter().position(|w| w.first == tag)
}

/// Puts an entry last, if there is room.
pub(crate) fn join_waiting(wait: &mut Queue<Waiting>, waiting: Waiting) -> Result<(), AllocError>
    ensures { OnOk result (wait.new ≡ joined wait.old (Some waiting)) }
{
    wait.push(waiting)
}
