//! Constraints on a replacement list (6.10.3p5, 6.10.3.2p1, 6.10.3.3p1, p3).
ghost use Rattle.std.specs.Prelude.{◌≡◌, IfOk, codes, map, true};
ghost use Rattle.std.specs.List.{list_any};
ghost use Rattle.pptext.specs.Tokens.{is_identifier_named};
ghost use Rattle.ppmacro.specs.Define.{misplaces_variable_arguments, misplaces_paste, begins_with_parameter, misplaces_hash};
ghost use Rattle.ppmacro.specs.code.VaOptLists.{tokens_at};

use super::parameter_lists::has_variable_arguments;
use crate::chains::{Parameters, parameter_names, parameter_of};
use crate::hash_operators::{is_hash, is_paste};
use crate::macros::MacroKind;
use pptext::{Hashing, Memory, Token};
use std::alloc::Global;

/// Returns whether a replacement list contains `__VA_ARGS__`.
fn uses_variable_arguments(body: &[Token]) -> bool
    ensures { result ≡ list_any (is_identifier_named (codes "__VA_ARGS__")) body.now }
{
    body.iter().any(|t| t.is_identifier_named(b"__VA_ARGS__"))
}

/// Returns whether a replacement list contains `__VA_ARGS__`, but it isn't a parameter. It is one if `...` follows no name.
pub(crate) fn misplaces_variable_arguments(kind: &MacroKind, body: &[Token]) -> bool
    ensures { result ≡ misplaces_variable_arguments kind.now body.now }
{
    uses_variable_arguments(body) && !has_variable_arguments(parameter_names(kind))
}

/// Returns whether `##` is the first or the last token, or follows another `##`.
pub(crate) fn misplaces_paste(body: &[Token]) -> bool
    ensures { result ≡ misplaces_paste true body.now }
{
    let mut bare = true;
    for (i, token) in body.iter().enumerate() {
        if !is_paste(token) {
            bare = false;
            continue;
        }
        if bare || i + 1 == body.len() {
            return true;
        }
        bare = true;
    }
    false
}

/// Returns whether `##` is the first or the last of the tokens with these indices, or follows another `##`.
fn misplaces_paste_among(body: &[Token], indices: &[usize]) -> bool
    ensures { result ≡ misplaces_paste true (tokens_at body.now indices.now) }
{
    let mut bare = true;
    let mut last = false;
    for &index in indices {
        let Some(token) = body.get(index) else {
            continue;
        };
        let paste = is_paste(token);
        if paste && bare {
            return true;
        }
        bare = paste;
        last = paste;
    }
    last
}

/// Returns whether `##` is misplaced in a content of `__VA_OPT__`.
pub(crate) fn misplaces_paste_inside(body: &[Token], contents: &[Vec<usize>]) -> bool
    ensures { result ≡ list_any (misplaces_paste true) (map (λ c. tokens_at body.now c.items) contents.now) }
{
    for content in contents {
        if misplaces_paste_among(body, content.as_slice()) {
            return true;
        }
    }
    false
}

/// Returns whether the first token is a parameter.
fn begins_with_parameter(kind: &Parameters, body: &[Token]) -> bool
    ensures { result ≡ begins_with_parameter kind.now.kind body.now }
{
    match body.first() {
        Some(token) => parameter_of(kind, token).is_some(),
        None => false,
    }
}

/// Returns whether there is a `#` without one of these parameters directly after it. The parameters are indexed with `_hashing`,
/// which only the contract reads.
fn misplaces_hash_before(kind: &Parameters, _hashing: Hashing, body: &[Token]) -> bool
    requires { kind.now.hashing ≡ _hashing }
    ensures { result ≡ misplaces_hash kind.now.kind body.now }
{
    for (i, token) in body.iter().enumerate() {
        if is_hash(token) && !begins_with_parameter(kind, &body[i + 1..]) {
            return true;
        }
    }
    false
}

/// Returns whether there is a `#` without a parameter directly after it. Many parameters are indexed with hash function `hashing`.
pub(crate) fn misplaces_hash(
    alloc: Global,
    kind: &MacroKind,
    body: &[Token],
    hashing: Hashing,
) -> Result<bool, Memory>
    ensures { IfOk result (λ r. r ≡ misplaces_hash kind.now body.now) }
{
    let parameters = Parameters::new(alloc, kind, body.len(), hashing)?;
    Ok(misplaces_hash_before(&parameters, hashing, body))
}
