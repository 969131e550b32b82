//! Lists of tokens to be expanded that are not all tokens of a file.
ghost use Rattle.std.specs.Prelude.{◌≡◌, ◌<◌, ◌^◌, ◌∷◌, ◌++◌, [], List, length, true, false, MatchOption, OnOk};
ghost use Rattle.std.specs.Option.{option_copied};
ghost use Rattle.pptext.specs.declared.tokens.Token.{Token};
ghost use Rattle.ppmacro.specs.Substituting.{tokens_of};
ghost use Rattle.ppexpand.specs.Slices.{ref_token};
ghost use Rattle.ppexpand.specs.code.Lists.{next_macro};

use crate::expand_step::macro_at;
use crate::token_slice::TokenRef;
use ppmacro::{Hidden, PreparedMacro, Set, Table};
use pptext::{Memory, Token, push};
use std::marker::Model;

/// A list of tokens to be expanded. Those of a file are borrowed, and others are owned. Contracts see the list of the tokens.
///
/// See `Scratch::list`.
#[derive(Drop)]
pub struct TokenList<'x> {
    tokens: Vec<Hidden<'x>>,
    /// The hide set of the tokens. It has no effect: they get the empty one when the list is expanded.
    hide: Set,
}

impl<'x> Model for TokenList<'x> {
    ghost use Rattle.std.specs.Prelude.{List};
    ghost use Rattle.pptext.specs.declared.tokens.Token.{Token};

    ghost Value = { List Token };

    ghost use Rattle.ppmacro.specs.Substituting.{tokens_of};

    ghost view = { λ l. tokens_of l.tokens.items };
}

impl<'x> TokenList<'x> {
    /// Creates an empty list, which uses the memory of this vector.
    pub(crate) fn over(tokens: Vec<Hidden<'x>>, hide: Set) -> TokenList<'x>
        ensures { result ≡ [] }
    {
        let mut tokens = tokens;
        tokens.clear();
        TokenList { tokens, hide }
    }

    /// Creates a list of these tokens.
    pub(crate) fn of(tokens: Vec<Hidden<'x>>, hide: Set) -> TokenList<'x>
        ensures { result ≡ tokens_of tokens.entry.items }
    {
        TokenList { tokens, hide }
    }

    /// Appends a token of a file. Fails only if an allocation fails.
    pub fn push_borrowed(&mut self, token: &'x Token) -> Result<(), Memory>
        ensures { OnOk result (self.new ≡ self.old ++ token.now ∷ []) }
    {
        push(&mut self.tokens, Hidden::new(token, self.hide))
    }

    /// Appends tokens of a file. Fails only if an allocation fails.
    pub fn push_all_borrowed(&mut self, tokens: &'x [Token]) -> Result<(), Memory>
        ensures { OnOk result (self.new ≡ self.old ++ tokens.now) }
    {
        for token in tokens {
            self.push_borrowed(token)?;
        }
        Ok(())
    }

    /// Appends a token of no file. Fails only if an allocation fails.
    pub fn push_owned(&mut self, token: Token) -> Result<(), Memory>
        ensures { OnOk result (self.new ≡ self.old ++ token ∷ []) }
    {
        let hidden = Hidden::synthesized(*self.tokens.allocator(), token, self.hide)?;
        push(&mut self.tokens, hidden)
    }

    /// Returns the number of tokens.
    pub(crate) fn len(&self) -> usize
        ensures is { result ≡ length self.now }
        ensures within { result < 2 ^ 63 }
    {
        self.tokens.len()
    }

    /// Returns whether there are no tokens.
    pub fn is_empty(&self) -> bool
        ensures yes { result ≡ true → self.now ≡ [] }
        ensures no { result ≡ false → 0 < length self.now }
    {
        self.tokens.is_empty()
    }

    /// Returns the first token, if there is one.
    pub fn first(&self) -> Option<TokenRef<'_, 'x>>
        ensures { MatchOption result (self.now ≡ []) (λ t. (rest : List Token) × (self.now ≡ ref_token t ∷ rest)) }
    {
        let hidden = self.tokens.as_slice().first()?;
        Some(TokenRef::Hidden(hidden))
    }

    /// Returns the macro that the first token names, if any.
    pub(crate) fn next_macro<'t, 'b>(&self, table: &'t Table<'b>) -> Option<&'t PreparedMacro<'b>>
        ensures { option_copied result ≡ next_macro table.now.macros self.now }
    {
        macro_at(table, self.tokens.as_slice().first()?.token())
    }

    /// Returns the tokens as they are stored.
    pub(crate) fn as_slice(&self) -> &[Hidden<'x>]
        ensures { tokens_of result.now ≡ self.now }
    {
        self.tokens.as_slice()
    }

    /// Creates an empty list, which can be expanded with the same scratch.
    pub(crate) fn sibling(&self) -> TokenList<'x>
        ensures { result ≡ [] }
    {
        TokenList::over(Vec::new(*self.tokens.allocator()), self.hide)
    }

    /// Returns the tokens.
    pub(crate) fn into_tokens(self) -> Vec<Hidden<'x>>
        ensures { tokens_of result.items ≡ self.entry }
    {
        self.tokens
    }
}
