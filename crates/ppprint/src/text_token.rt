//! Tokens that are printed.
ghost use Rattle.std.specs.Prelude.{◌≡◌};
ghost use Rattle.ppprint.specs.Text.{written};
ghost use Rattle.ppprint.specs.code.Tokens.{printed_token};
ghost use Rattle.ppprint.specs.code.Writings.{written_of};

use crate::apart::Written;
use ppmacro::Hidden;
use pptext::{Kind, Place, Spelling, Token};

/// A borrowed token, whether it is stored with hide sets or not.
#[derive(Clone, Copy)]
pub struct TextToken<'a> {
    pub text: &'a Spelling,
    /// The spelling location.
    pub at: Place,
    /// The expansion location.
    pub used: Place,
    pub kind: Kind,
    /// Whether white space precedes the token.
    pub space: bool,
}

impl<'a> TextToken<'a> {
    /// Borrows a token of a file.
    #[inline(always)]
    pub fn of_file(token: &'a Token) -> TextToken<'a>
        ensures { printed_token result ≡ token.entry.now }
    {
        TextToken {
            text: &token.text,
            at: token.at,
            used: token.used,
            kind: token.kind,
            space: token.space,
        }
    }

    /// Borrows a token with hide sets.
    #[inline(always)]
    pub fn of_hidden(hidden: &'a Hidden<'_>) -> TextToken<'a>
        ensures { printed_token result ≡ hidden.entry.now.token }
    {
        let token = hidden.token();
        TextToken {
            text: &token.text,
            at: token.at,
            used: hidden.used(),
            kind: token.kind,
            space: hidden.space(),
        }
    }

    /// Returns the kind and the spelling.
    #[inline(always)]
    pub(crate) fn written(self) -> Written<'a>
        ensures { written_of result ≡ written (printed_token self.entry) }
    {
        Written {
            kind: self.kind,
            text: self.text.as_bytes(),
        }
    }
}
