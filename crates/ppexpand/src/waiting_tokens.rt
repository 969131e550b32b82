//! Tokens of an open invocation that wait for its `)`, and the number of parentheses around the tokens after them.
//!
//! With this number, only the tokens that come next are looked at to find whether the invocation stays open. So it takes linear time, even if its
//! tokens come in many parts.
ghost use Rattle.std.specs.Prelude.{◌≡◌, ◌++◌, ◌<◌, ◌≤◌, ◌+◌, ◌^◌, ◌&&◌, [], ◌∷◌, List, Some, length, map, true, false, if◌then◌else◌, IfOk, OnOk, MatchOption, IfSome};
ghost use Rattle.pptext.specs.declared.tokens.Token.{Token};
ghost use Rattle.ppmacro.specs.Substitution.{unhidden};
ghost use Rattle.ppmacro.specs.Substituting.{tokens_of};
ghost use Rattle.ppexpand.specs.OpenInvocations.{names_function_like, begins_open};
ghost use Rattle.ppexpand.specs.Slices.{ref_token, slice_tokens};
ghost use Rattle.ppexpand.specs.code.Lists.{next_macro};
ghost use Rattle.ppexpand.specs.code.OpenSearch.{depth_after_all, open_depth};

use crate::open_invocations::depth_after;
use crate::token_list::TokenList;
use crate::token_roles::{is_open, role_of};
use crate::token_slice::{TokenRef, TokenSlice};
use ppmacro::{Hidden, MacroKind, Table};
use pptext::{Memory, Token};
use std::marker::Model;
use std::mem::replace;

/// Returns the number of parentheses around the next token, inside the `(` of an invocation, if there are `start` before these tokens. Returns
/// `None` if the invocation doesn't stay open.
fn depth_after_all(start: usize, tokens: TokenSlice) -> Option<usize>
    requires { start + length (slice_tokens tokens) < 2 ^ 64 }
    ensures { result ≡ depth_after_all start (slice_tokens tokens.entry) }
{
    let mut depth = start;
    let mut rest = tokens.iter();
    while let Some(token) = rest.next() {
        depth = depth_after(role_of(token), depth)?;
    }
    Some(depth)
}

/// Returns the number of parentheses around the token after a list, inside the `(` after its first token. Returns `None` if the second token
/// isn't `(`, or that doesn't stay open.
fn open_depth(tokens: &[Hidden]) -> Option<usize>
    ensures { result ≡ open_depth (tokens_of tokens.now) }
{
    let [_, paren, inside @ ..] = tokens else {
        return None;
    };
    if !is_open(paren) {
        return None;
    }
    depth_after_all(0, TokenSlice::Hidden(inside))
}

/// Tokens of an open invocation that wait for its `)`, or other tokens. Contracts see the list of the tokens.
#[derive(Drop)]
pub struct WaitingTokens<'x> {
    tokens: TokenList<'x>,
    /// The number of parentheses around the tokens after these, inside the `(` after the first token. `None` if that isn't open.
    depth: Option<usize>,
}

impl<'x> Model for WaitingTokens<'x> {
    ghost use Rattle.std.specs.Prelude.{◌≡◌, List};
    ghost use Rattle.pptext.specs.declared.tokens.Token.{Token};
    ghost use Rattle.ppexpand.specs.code.OpenSearch.{open_depth};

    ghost Value = { List Token };

    ghost view = { λ w. w.tokens };

    ghost invariant = { λ w. w.depth ≡ open_depth w.tokens };
}

impl<'x> WaitingTokens<'x> {
    /// Creates the list of these tokens.
    pub fn of(tokens: TokenList<'x>) -> WaitingTokens<'x>
        ensures { result ≡ tokens.entry }
    {
        let depth = open_depth(tokens.as_slice());
        WaitingTokens { tokens, depth }
    }

    /// Returns whether there are no tokens.
    pub fn is_empty(&self) -> bool
        ensures yes { result ≡ true → self.now ≡ [] }
        ensures no { result ≡ false → 0 < length self.now }
    {
        self.tokens.is_empty()
    }

    /// Returns the first token, if there is one.
    pub fn first(&self) -> Option<TokenRef<'_, 'x>>
        ensures { MatchOption result (self.now ≡ []) (λ t. (rest : List Token) × (self.now ≡ ref_token t ∷ rest)) }
    {
        self.tokens.first()
    }

    /// Returns the tokens.
    pub fn into_list(self) -> TokenList<'x>
        ensures { result ≡ self.entry }
    {
        self.tokens
    }

    /// Returns whether the first token names a function-like macro.
    fn names_function_like(&self, table: &Table) -> bool
        ensures { result ≡ names_function_like (next_macro table.now.macros self.now) }
    {
        match self.tokens.next_macro(table) {
            Some(definition) => matches!(definition.kind(), MacroKind::FunctionLike { .. }),
            None => false,
        }
    }

    /// Appends tokens of a file, after which the depth is this one. Fails only if an allocation fails.
    fn append(&mut self, tokens: &'x [Token], depth: usize) -> Result<(), Memory>
        requires { Some depth ≡ open_depth (self.old ++ tokens.now) }
        ensures { OnOk result (self.new ≡ self.old ++ tokens.now) }
    {
        let none = WaitingTokens::of(self.tokens.sibling());
        let mut list = replace(self, none).into_list();
        list.push_all_borrowed(tokens)?;
        *self = WaitingTokens {
            tokens: list,
            depth: Some(depth),
        };
        Ok(())
    }

    /// Appends tokens of a file, if the list begins with an open invocation before and after that, by the macros of this table. Otherwise it stays
    /// as it is. Returns whether they were appended. Takes time that is linear in their number. Fails only if an allocation fails.
    pub fn append_if_open(&mut self, table: &Table, tokens: &'x [Token]) -> Result<bool, Memory>
        ensures is { IfOk result (λ stays. stays ≡ (begins_open table.now.macros (map unhidden self.old) && begins_open table.now.macros (map unhidden (self.old ++ tokens.now)))) }
        ensures list { IfOk result (λ stays. self.new ≡ (if stays then self.old ++ tokens.now else self.old)) }
    {
        let Some(start) = self.start() else {
            return Ok(false);
        };
        if !self.names_function_like(table) {
            return Ok(false);
        }
        let Some(depth) = depth_after_all(start, TokenSlice::InFile(tokens)) else {
            return Ok(false);
        };
        self.append(tokens, depth)?;
        Ok(true)
    }

    /// Returns the depth.
    fn start(&self) -> Option<usize>
        ensures is { result ≡ open_depth self.now }
        ensures within { IfSome result (λ depth. depth < 2 ^ 63) }
    {
        let _count = self.tokens.len();
        self.depth
    }
}
