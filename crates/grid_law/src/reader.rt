//! A component that may read a slot.

/// One of the components that may read a slot: at cycle 0 where `first`, else at a later cycle.
#[derive(Clone, Copy, PartialEq, Eq, Debug, Drop)]
pub struct Reader {
    pub component: u32,
    pub first: bool,
}
