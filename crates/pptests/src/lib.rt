//! Tests of text, macros, expansion, conditions and units by the libraries' public functions: what no contract states, and
//! examples from other sources.
//!
//! They are a crate of their own because a crate with tests is proved twice.
#![tactic(auto)]

#[cfg(test)]
mod conditions;
#[cfg(test)]
mod defining;
#[cfg(test)]
mod expanding;
#[cfg(test)]
mod macros;
#[cfg(test)]
mod showing;
#[cfg(test)]
mod spending;
#[cfg(test)]
mod text;
#[cfg(test)]
mod units;
