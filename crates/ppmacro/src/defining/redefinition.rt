//! Whether two definitions of one name are identical (6.10.3p1, p2).
ghost use Rattle.std.specs.Prelude.{◌≡◌};
ghost use Rattle.std.specs.FinMap as finite_map;
ghost use Rattle.std.specs.Cmp.Lexicographic.{pointwise};
ghost use Rattle.ppmacro.specs.Define.{same_token, same_body, same_variadic, same_kind, is_conflicting};

use crate::macros::{MacroKind, Variadic};
use crate::prepared_macro::PreparedMacro;
use crate::tables::Table;
use pptext::Token;

/// Returns whether two tokens have the same spelling and the same leading-space flag.
fn same_token(left: &Token, right: &Token) -> bool
    ensures { result ≡ same_token left.now right.now }
{
    left.text.as_bytes() == right.text.as_bytes() && left.space == right.space
}

/// Returns whether two lists have equal tokens.
fn same_tokens(left: &[Token], right: &[Token]) -> bool
    ensures { result ≡ pointwise same_token left.now right.now }
{
    if left.len() != right.len() {
        return false;
    }
    for (i, token) in left.iter().enumerate() {
        if !same_token(token, &right[i]) {
            return false;
        }
    }
    true
}

/// Returns whether two replacement lists are identical. The flag of the first token doesn't count.
fn same_body(left: &[Token], right: &[Token]) -> bool
    ensures { result ≡ same_body left.now right.now }
{
    let Some(first) = left.first() else {
        return right.is_empty();
    };
    let Some(other) = right.first() else {
        return false;
    };
    if first.text.as_bytes() != other.text.as_bytes() {
        return false;
    }
    same_tokens(&left[1..], &right[1..])
}

/// Returns whether two macros take arguments for their last parameter in the same way.
fn same_variadic(left: Variadic, right: Variadic) -> bool
    ensures { result ≡ same_variadic left right }
{
    matches!(
        (left, right),
        (Variadic::No, Variadic::No)
            | (Variadic::Strict, Variadic::Strict)
            | (Variadic::Lenient, Variadic::Lenient)
    )
}

/// Returns whether two macros have the same kind and the same parameters, and take variable arguments in the same way.
fn same_kind(left: &MacroKind, right: &MacroKind) -> bool
    ensures { result ≡ same_kind left.now right.now }
{
    match (left, right) {
        (MacroKind::ObjectLike, MacroKind::ObjectLike) => true,
        (
            MacroKind::FunctionLike {
                parameters: names,
                variadic,
            },
            MacroKind::FunctionLike {
                parameters: others,
                variadic: other,
            },
        ) => names.as_slice() == others.as_slice() && same_variadic(*variadic, *other),
        _ => false,
    }
}

/// Returns whether a name has a different definition.
pub(crate) fn is_conflicting(table: &Table, name: &[u8], definition: &PreparedMacro) -> bool
    ensures { result ≡ is_conflicting (finite_map.get table.now.macros name.now) definition.now }
{
    let Some(before) = table.get(name) else {
        return false;
    };
    !(same_kind(before.kind(), definition.kind()) && same_body(before.body(), definition.body()))
}
