//! What a combining switch reads of its project.

/// The bit of modules and processors that its stage decides by, whether its stage combines, and the depth of its wait
/// buffer.
#[derive(Clone, Copy, PartialEq, Eq, Debug)]
pub struct CombSettings {
    pub bit: u32,
    pub combine: bool,
    pub wait: u32,
}
