//! How much of the units' outputs is kept until all units are done.

/// How much of each unit's output is kept.
#[derive(Clone, Copy, Debug, PartialEq, Eq)]
pub enum Retain {
    /// The whole output.
    Everything,
    /// The output without its items, which take most of the memory.
    WithoutItems,
}
