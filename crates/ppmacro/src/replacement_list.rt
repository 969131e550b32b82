//! References into a source file that outlives the macro table. Contracts see them as the values that they refer to.
ghost use Rattle.std.specs.Prelude.{◌≡◌};

use pptext::Token;
use std::marker::Model;

/// A token of a replacement list.
#[derive(Drop)]
pub struct BodyToken<'a> {
    token: &'a Token,
}

impl<'a> Model for BodyToken<'a> {
    ghost use Rattle.pptext.specs.declared.tokens.Token.{Token};

    ghost Value = { Token };

    ghost view = { λ t. t.token.now };
}

impl<'a> BodyToken<'a> {
    /// Wraps a token.
    pub(crate) fn new(token: &'a Token) -> BodyToken<'a>
        ensures { result ≡ token.now }
    {
        BodyToken { token }
    }

    /// Returns the token.
    pub fn token(&self) -> &'a Token
        ensures { result.now ≡ self.now }
    {
        self.token
    }
}

/// A replacement list: a slice of a source file's tokens.
#[derive(Drop)]
pub struct ReplacementList<'a> {
    tokens: &'a [Token],
}

impl<'a> Model for ReplacementList<'a> {
    ghost use Rattle.std.specs.Prelude.{List};
    ghost use Rattle.pptext.specs.declared.tokens.Token.{Token};

    ghost Value = { List Token };

    ghost view = { λ t. t.tokens.now };
}

impl<'a> ReplacementList<'a> {
    /// Wraps a slice of tokens.
    pub fn new(tokens: &'a [Token]) -> ReplacementList<'a>
        ensures { result ≡ tokens.now }
    {
        ReplacementList { tokens }
    }

    /// Returns the tokens.
    pub fn as_slice(&self) -> &'a [Token]
        ensures { result.now ≡ self.now }
    {
        self.tokens
    }
}
