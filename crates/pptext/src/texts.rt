//! Texts. Their models are lists.
ghost use Rattle.std.specs.Prelude.{◌≡◌, string_bytes};

use crate::sequences::Sequence;
use std::marker::Model;

/// A text. Its model is the list of its bytes.
#[derive(Drop, Debug)]
pub struct OwnedText {
    text: String,
}

/// A sequence of texts. Its model is the list of the models of the texts.
pub type OwnedTexts = Sequence<OwnedText>;

impl Model for OwnedText {
    ghost use Rattle.std.specs.Prelude.{ℕ, List, string_bytes};

    ghost Value = { List ℕ };

    ghost view = { λ t. string_bytes t.text };
}

impl OwnedText {
    /// Wraps a string.
    pub fn new(text: String) -> OwnedText
        ensures { result ≡ string_bytes text }
    {
        OwnedText { text }
    }

    /// Returns the string.
    pub fn into_string(self) -> String
        ensures { string_bytes result ≡ self }
    {
        self.text
    }

    /// Borrows the string.
    pub fn as_str(&self) -> &str
        ensures { result.now ≡ self.now }
    {
        self.text.as_str()
    }
}
