//! Spans of a file's tokens, which are emitted without a copy.
ghost use Rattle.std.specs.Prelude.{◌≡◌, ◌≤◌, ◌∷◌, ◌++◌, [], map, take, drop, length, true, MatchOption};
ghost use Rattle.std.specs.List.{AllByRecursion};
ghost use Rattle.std.specs.Option.{option_copied};
ghost use Rattle.ppmacro.specs.Substituting.{tokens_of};
ghost use Rattle.ppexpand.specs.code.Lists.{with_set, never_expands, next_macro, NeverExpand};

use crate::expand_step::macro_at;
use ppmacro::{Hidden, PreparedMacro, Set, Table};
use pptext::Token;
use std::marker::Model;

/// Consecutive tokens of a file, all with one hide set. Contracts see them as a list of tokens with hide sets.
#[derive(Drop)]
pub struct TokenSpan<'a> {
    tokens: &'a [Token],
    hide: Set,
}

impl<'a> Model for TokenSpan<'a> {
    ghost use Rattle.std.specs.Prelude.{List, map};
    ghost use Rattle.ppmacro.specs.declared.hidden_token.Hidden.{Hidden};

    ghost Value = { List Hidden };

    ghost use Rattle.ppexpand.specs.code.Lists.{with_set};

    ghost view = { λ s. map (with_set s.hide) s.tokens.now };
}

/// Returns whether a token is emitted unchanged, whatever its hide set is.
#[inline(always)]
pub(crate) fn never_expands(table: &Table, token: &Token) -> bool
    ensures { result ≡ never_expands table.now.macros token.now }
{
    !token.is_unmatched_quote() && macro_at(table, token).is_none()
}

/// Returns how many of the first tokens are emitted unchanged, and the macro that the token after them names.
fn unexpanded_len<'t, 'b>(
    table: &'t Table<'b>,
    tokens: &[Token],
) -> (usize, Option<&'t PreparedMacro<'b>>)
    ensures within { result.0 ≤ length tokens.now }
    ensures unexpanded { AllByRecursion (λ t. never_expands table.now.macros t ≡ true) (take result.0 tokens.now) }
    ensures named { option_copied result.1 ≡ next_macro table.now.macros (drop result.0 tokens.now) }
{
    for (count, token) in tokens.iter().enumerate() {
        let named = macro_at(table, token);
        if named.is_some() || token.is_unmatched_quote() {
            return (count, named);
        }
    }
    (tokens.len(), None)
}

/// Splits tokens into those that are emitted unchanged, up to the first that may not be, and the rest.
pub(crate) fn split_unexpanded<'x>(table: &Table, tokens: &'x [Token]) -> (&'x [Token], &'x [Token])
    ensures laid_out { tokens.now ≡ result.0.now ++ result.1.now }
    ensures unexpanded { AllByRecursion (λ t. never_expands table.now.macros t ≡ true) result.0.now }
{
    let (count, _) = unexpanded_len(table, tokens);
    tokens.split_at(count)
}

impl<'a> TokenSpan<'a> {
    /// Creates a span of these tokens.
    pub(crate) fn new(tokens: &'a [Token], hide: Set) -> TokenSpan<'a>
        ensures { result ≡ map (with_set hide) tokens.now }
    {
        TokenSpan { tokens, hide }
    }

    /// Returns the tokens.
    pub fn tokens(&self) -> &'a [Token]
        ensures { tokens_of self.now ≡ result.now }
    {
        self.tokens
    }

    /// Returns true only if there are no tokens.
    pub(crate) fn is_empty(&self) -> bool
        ensures { result ≡ true → self.now ≡ [] }
    {
        self.tokens.is_empty()
    }

    /// Returns the number of tokens.
    pub(crate) fn len(&self) -> usize {
        self.tokens.len()
    }

    /// Removes the first token.
    pub(crate) fn next(&mut self) -> Option<Hidden<'a>>
        ensures { MatchOption result ((self.old ≡ []) × (self.new ≡ [])) (λ h. self.old ≡ h ∷ self.new) }
    {
        let tokens = self.tokens;
        let Some(first) = tokens.first() else {
            return None;
        };
        self.tokens = &tokens[1..];
        Some(Hidden::new(first, self.hide))
    }

    /// Returns an empty span.
    pub(crate) fn none(&self) -> TokenSpan<'a>
        ensures { result ≡ [] }
    {
        TokenSpan {
            tokens: Default::default(),
            hide: self.hide,
        }
    }

    /// Returns the macro that the first token names.
    pub(crate) fn next_macro<'t, 'b>(&self, table: &'t Table<'b>) -> Option<&'t PreparedMacro<'b>>
        ensures { option_copied result ≡ next_macro table.now.macros (tokens_of self.now) }
    {
        macro_at(table, self.tokens.first()?)
    }

    /// Removes the tokens that are emitted unchanged, up to the first that may not be. Also returns the macro that this one names.
    pub(crate) fn take_unexpanded<'t, 'b>(
        &mut self,
        table: &'t Table<'b>,
    ) -> (TokenSpan<'a>, Option<&'t PreparedMacro<'b>>)
        ensures laid_out { self.old ≡ result.0 ++ self.new }
        ensures unexpanded { NeverExpand table.now.macros result.0 }
        ensures named { option_copied result.1 ≡ next_macro table.now.macros (tokens_of self.new) }
    {
        let (count, named) = unexpanded_len(table, self.tokens);
        let (prefix, rest) = self.tokens.split_at(count);
        self.tokens = rest;
        let passing = TokenSpan {
            tokens: prefix,
            hide: self.hide,
        };
        (passing, named)
    }
}
