//! The roles of tokens in an invocation, and the faults at them.
ghost use Rattle.std.specs.Prelude.{◌≡◌, []};
ghost use Rattle.pptext.specs.Errors.{Raises};
ghost use Rattle.pptext.specs.Tokens.{is_unmatched_quote, fault};
ghost use Rattle.ppexpand.specs.ExpansionStep.{quote_fault};
ghost use Rattle.ppexpand.specs.Arguments.{is_open, argument_role};
ghost use Rattle.ppexpand.specs.Slices.{ref_token};
ghost use Rattle.ppexpand.specs.code.OpenSearch.{role_value};

use crate::token_slice::TokenRef;
use ppmacro::Hidden;
use pptext::{Error, Kind, Token};
use std::alloc::Global;

/// Returns whether a token is `(`.
pub(crate) fn is_open(hidden: &Hidden) -> bool
    ensures { result ≡ is_open hidden.now.token }
{
    hidden.token().is_punct(b"(")
}

/// The role of a token in the search for the `)` of an invocation (6.10.3p10, p11).
#[derive(Clone, Copy)]
pub(crate) enum ArgumentRole {
    /// An unmatched quote.
    Quote,
    Open,
    Close,
    Comma,
    /// Any other token.
    Inner,
}

/// Returns the role of a token in the search for the `)` of an invocation.
pub(crate) fn argument_role(hidden: &Hidden) -> ArgumentRole
    ensures { role_value result ≡ argument_role hidden.now.token }
{
    token_role(hidden.token())
}

/// Returns what `argument_role` does, for a borrowed token.
pub(crate) fn role_of(token: TokenRef) -> ArgumentRole
    ensures { role_value result ≡ argument_role (ref_token token.entry) }
{
    match token {
        TokenRef::InFile(token) => token_role(token),
        TokenRef::Hidden(hidden) => argument_role(hidden),
    }
}

/// Returns what `argument_role` does, for a token without hide set.
fn token_role(token: &Token) -> ArgumentRole
    ensures { role_value result ≡ argument_role token.now }
{
    let Kind::Punct = token.kind else {
        return if token.is_unmatched_quote() {
            ArgumentRole::Quote
        } else {
            ArgumentRole::Inner
        };
    };
    let [byte] = token.text.as_bytes() else {
        return ArgumentRole::Inner;
    };
    match *byte {
        b'(' => ArgumentRole::Open,
        b')' => ArgumentRole::Close,
        b',' => ArgumentRole::Comma,
        _ => ArgumentRole::Inner,
    }
}

/// Returns whether a token is an unmatched `'` or `"`.
pub(crate) fn is_quote(hidden: &Hidden) -> bool
    ensures { result ≡ is_unmatched_quote hidden.now.token }
{
    hidden.token().is_unmatched_quote()
}

/// Returns the error of a fault at the expansion location of a token.
#[inline(never)]
pub(crate) fn fault_at_expansion(alloc: Global, number: u8, hidden: &Hidden) -> Error
    ensures { Raises result (fault number hidden.now.token.used hidden.now.token.text) }
{
    Error::of_token(alloc, number, hidden.used(), hidden.token())
}

/// Returns the error of fault 7, for an unmatched quote.
#[inline(never)]
pub(crate) fn quote_fault(alloc: Global, hidden: &Hidden) -> Error
    ensures { Raises result (quote_fault hidden.now.token) }
{
    Error::of_token(alloc, 7, hidden.at(), hidden.token())
}

/// Returns the error of fault 35, for a macro's name that exceeds the budget.
#[inline(never)]
pub(crate) fn budget_fault(alloc: Global, hidden: &Hidden) -> Error
    ensures { Raises result (fault 35 hidden.now.token.used []) }
{
    Error::bare(alloc, 35, hidden.used())
}
