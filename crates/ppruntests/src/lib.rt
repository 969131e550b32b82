//! Tests of whole runs: workers over a list's units, and `serve` from a list's bytes to its output.
//!
//! They have a crate of their own, since a crate with tests is proved twice. It is separate from the tests of the lower
//! libraries, so that both are proved in parallel.
#![tactic(auto)]

#[cfg(test)]
mod pool;
#[cfg(test)]
mod serving;
