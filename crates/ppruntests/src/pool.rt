//! Tests of pppool: lists of units that several workers run, desks, and callers with threads of their own over one file table.
mod callers;
mod desks;
pub(crate) mod lists;
mod runs;
pub(crate) mod stage;
