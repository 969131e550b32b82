//! The fast path for conditions with `defined` alone: `defined X` and `!defined X`, joined by `&&` and `||`.
ghost use Rattle.std.specs.Prelude.{IfSome, is_some};
ghost use Rattle.std.specs.FinMap as table;
ghost use Rattle.ppexpr.specs.declared.symbols.Symbol.TheVariants.{Constant};
ghost use Rattle.ppexpr.specs.Values.{truth};
ghost use Rattle.ppexpr.specs.code.DefinedOnly.{BeginsWith, BeginsPunct, BeginsTruth, HasTruth};

use crate::defined_operator::{is_defined, is_macro_name, operand};
use crate::nesting::MOST_LEVELS;
use ppmacro::Table;
use pptext::Token;

/// Returns the tokens after a punctuator of this spelling, if they begin with one.
fn following<'x>(tokens: &'x [Token], text: &[u8]) -> Option<&'x [Token]>
    ensures { IfSome result (λ rest. BeginsPunct text.now tokens.now rest.now) }
{
    let (first, following) = tokens.split_first()?;
    if first.is_punct(text) {
        Some(following)
    } else {
        None
    }
}

/// Reads a use of `defined`. Returns whether its name is defined, and the tokens after it.
#[inline(always)]
fn defined_use<'x>(table: &Table, tokens: &'x [Token]) -> Option<(bool, &'x [Token])>
    ensures { IfSome result (λ r. BeginsWith table.now.macros tokens.now (Constant (truth r.0)) r.1.now) }
{
    let (first, following) = tokens.split_first()?;
    if !is_defined(first) {
        return None;
    }
    let (name, rest) = operand(following)?;
    Some((is_macro_name(table, name), rest))
}

/// Reads a use of `defined` with or without `!` before it. Returns its truth value, and the tokens after it.
#[inline(always)]
fn term<'x>(table: &Table, tokens: &'x [Token]) -> Option<(bool, &'x [Token])>
    ensures { IfSome result (λ r. BeginsTruth table.now.macros 12 tokens.now r.0 r.1.now) }
{
    if let Some(following) = following(tokens, b"!") {
        let (holds, rest) = defined_use(table, following)?;
        return Some((!holds, rest));
    }
    let (holds, rest) = defined_use(table, tokens)?;
    Some((holds, rest))
}

/// Reads terms that are joined by `&&` (6.5.13). Returns their truth value, and the tokens after them.
fn conjunction<'x>(table: &Table, tokens: &'x [Token]) -> Option<(bool, &'x [Token])>
    ensures { IfSome result (λ r. BeginsTruth table.now.macros 3 tokens.now r.0 r.1.now) }
{
    let (mut holds, mut rest) = term(table, tokens)?;
    while let Some(next) = following(rest, b"&&") {
        let (right, further) = term(table, next)?;
        holds = holds && right;
        rest = further;
    }
    Some((holds, rest))
}

/// Returns whether a condition that consists of uses of `defined` alone is true (6.5.14), and `None` for any other condition.
pub(crate) fn evaluate_defined_only(table: &Table, tokens: &[Token]) -> Option<bool>
    ensures { IfSome result (λ holds. HasTruth table.now.macros tokens.now holds) }
{
    // A list of at most `MOST_LEVELS` tokens cannot be nested too deep.
    if tokens.len() > MOST_LEVELS {
        return None;
    }
    let (mut holds, mut rest) = conjunction(table, tokens)?;
    while let Some(next) = following(rest, b"||") {
        let (right, further) = conjunction(table, next)?;
        holds = holds || right;
        rest = further;
    }
    if rest.is_empty() { Some(holds) } else { None }
}
