//! Tests of the file table by its public functions: what no contract says, and test vectors from outside.
//!
//! They are in a crate of their own, because a crate with tests is proved twice. They are apart from the tests of the
//! other libraries, so that they are proved before these.
#![tactic(auto)]

#[cfg(test)]
mod shelf;
