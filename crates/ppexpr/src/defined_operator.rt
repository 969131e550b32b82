//! Replaces the operator `defined` in a controlling expression (6.10.1p1).
ghost use Rattle.std.specs.Prelude.{◌≡◌, IfOk, MatchOption, MatchResult, None, Some, List, [], is_some};
ghost use Rattle.std.specs.FinMap as map;
ghost use Rattle.pptext.specs.declared.tokens.Token.{Token};
ghost use Rattle.pptext.specs.Errors.{UnlessOutOfMemory};
ghost use Rattle.pptext.specs.Tokens.{fault};
ghost use Rattle.ppexpr.specs.DefinedOperator.{is_defined, parenthesized, operand, defined_value, ReplacesDefined};

use ppexpand::{Scratch, TokenList};
use ppmacro::Table;
use pptext::{Error, Kind, Place, Spelling, Token};
use std::alloc::{AllocError, Global};

/// Returns whether a token is the identifier `defined`.
pub(crate) fn is_defined(token: &Token) -> bool
    ensures { result ≡ is_defined token.now }
{
    token.is_identifier_named(b"defined")
}

/// Reads `( X )`. Returns X and the tokens after the `)`.
fn parenthesized(tokens: &[Token]) -> Option<(&Token, &[Token])>
    ensures { MatchOption result (parenthesized tokens.now ≡ None)
        (λ o. parenthesized tokens.now ≡ Some (record { name = o.0.now; rest = o.1.now })) }
{
    let [open, name, close, rest @ ..] = tokens else {
        return None;
    };
    if open.is_punct(b"(") && name.is_identifier() && close.is_punct(b")") {
        Some((name, rest))
    } else {
        None
    }
}

/// Reads the operand of `defined`: `X` or `( X )`. Returns X and the tokens after the operand.
pub(crate) fn operand(tokens: &[Token]) -> Option<(&Token, &[Token])>
    ensures { MatchOption result (operand tokens.now ≡ None) (λ o. operand tokens.now ≡ Some (record { name = o.0.now; rest = o.1.now })) }
{
    let [name, rest @ ..] = tokens else {
        return None;
    };
    if name.is_identifier() {
        return Some((name, rest));
    }
    parenthesized(tokens)
}

/// Returns whether an identifier is defined as a macro name.
#[inline(always)]
pub(crate) fn is_macro_name(table: &Table, name: &Token) -> bool
    ensures { result ≡ is_some (map.get table.now.macros name.now.text) }
{
    table.get(name.text.as_bytes()).is_some()
}

/// Returns the number that replaces `defined` and its operand: 1 if the name is defined, and otherwise 0.
fn defined_value(
    alloc: Global,
    table: &Table,
    defined: &Token,
    name: &Token,
) -> Result<Token, AllocError>
    ensures { IfOk result (λ t. t ≡ defined_value table.now.macros defined.now name.now) }
{
    let digit = if is_macro_name(table, name) {
        b"1".as_slice()
    } else {
        b"0".as_slice()
    };
    Ok(Token {
        kind: Kind::Number,
        text: Spelling::from_slice(alloc, digit)?,
        space: defined.space,
        at: defined.at,
        used: defined.used,
    })
}

/// Replaces each use of `defined` by a number. The list is for the scratch. If a use has no operand, the error is fault 22 at `at`.
pub(crate) fn without_defined<'x>(
    table: &Table,
    at: Place,
    tokens: &'x [Token],
    scratch: &mut Scratch<'x>,
) -> Result<TokenList<'x>, Error>
    ensures { UnlessOutOfMemory result (λ r. MatchResult r (λ v. ReplacesDefined table.now.macros tokens.now v)
        (λ f. (f ≡ fault 22 at []) × ((us : List Token) → ¬ ReplacesDefined table.now.macros tokens.now us))) }
{
    let alloc = scratch.alloc();
    let mut without_defined = scratch.list();
    let mut rest = tokens;
    while let Some((first, following)) = rest.split_first() {
        if !is_defined(first) {
            without_defined.push_borrowed(first)?;
            rest = following;
            continue;
        }
        let Some((name, following)) = operand(following) else {
            return Err(Error::bare(alloc, 22, at));
        };
        without_defined.push_owned(defined_value(alloc, table, first, name)?)?;
        rest = following;
    }
    Ok(without_defined)
}
