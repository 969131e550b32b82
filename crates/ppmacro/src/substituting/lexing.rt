//! The kind of a text that is one token.
ghost use Rattle.std.specs.Prelude.{◌≡◌};
ghost use Rattle.pptext.specs.KindTests.{IsLexer};
ghost use Rattle.ppmacro.specs.Lexing.{kind_of};

use pptext::{Kind, relex};

/// Returns the kind of the token that a text is. `None`: it isn't one token, or is an unmatched quote.
pub(crate) fn kind_of(text: &[u8]) -> Option<Kind>
    ensures { result ≡ kind_of text.now }
{
    relex(text)
}

/// Proves that `kind_of` is the kind of the one token that a text is (6.4), except for an unmatched quote.
pub fn decides_each_kind()
    ensures { IsLexer kind_of }
{}
