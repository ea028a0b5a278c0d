//! The place of a unit's values in memory.

/// How deep its calls may be, how many slots the memory has, at which slot the unit's values begin, after how many of them
/// its own variables begin, and how many values there are.
#[derive(Clone, Copy)]
pub struct Scope {
    pub depth: u16,
    pub memory: usize,
    pub start: usize,
    pub base: usize,
    pub size: usize,
}
