//! The gate of a run.

/// A gate that a worker enters before it preprocesses a unit. `unit` is the unit's number in the list, from 0.
pub trait Gate {
    fn enter(&self, unit: usize);
}
