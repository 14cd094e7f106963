//! Numbers in turn.
ghost use Rattle.std.specs.Prelude.{◌≤◌};

/// The numbers from one to another that isn't less.
#[derive(Clone, Copy)]
pub(crate) struct Span {
    pub from: u32,
    pub to: u32,
    ghost order: { from ≤ to },
}
