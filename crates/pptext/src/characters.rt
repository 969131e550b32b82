//! Translation phases 1 and 2 (5.1.1.2): the characters that the bytes of a file spell.
use crate::tokens::Place;

/// A character, and the location of its first byte.
#[derive(Clone, Copy, PartialEq, Eq, Debug)]
pub struct Char {
    /// Its code.
    pub code: u8,
    /// The location of its first byte.
    pub at: Place,
}

pub(crate) mod advance;
pub(crate) mod steps;
