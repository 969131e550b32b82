//! The header that an `#include` line names (6.10.2).
//!
//! A header name right after `include` is a token of its own kind, since phase 3 knows the directive. Otherwise the
//! operands are expanded, and then a string literal or the tokens between `<` and `>` name the header. Those tokens are
//! joined by their spellings, with one space where a token has leading white space.
//!
//! The operand of `__has_include` is read in the same two forms. A name that no file can have, an empty one or one that
//! begins with `/`, is fault 30.
ghost use Rattle.std.specs.Prelude.{◌≡◌, ◌∷◌, IfOk, [], true};
ghost use Rattle.std.specs.Option.{option_map};
ghost use Rattle.pptext.specs.Errors.{UnlessOutOfMemory};
ghost use Rattle.ppunit.specs.DirectiveLines.{line_fault};
ghost use Rattle.ppunit.specs.Including as spec;
ghost use Rattle.ppunit.specs.Directives.{NamesHeader, NamesHeaderByExpansion};
ghost use Rattle.ppunit.specs.States.{with_meter};

use crate::directive_line::{DirectiveTokens, line_fault, push_space};
use crate::line_control::is_plain_string;
use crate::operand_expansion::expand_operands;
use crate::states::State;
use ppshelf::Form;
use pptext::{Error, Kind, Memory, Spelling, Token};
use std::alloc::Global;
use std::marker::Model;

/// The form and the name of a header.
#[derive(Drop)]
pub(crate) struct IncludeName {
    pub form: Form,
    pub name: Spelling,
}

impl Model for IncludeName {
    ghost use Rattle.ppunit.specs.Including.{IncludeName};

    ghost Value = { IncludeName };

    ghost view = { λ a. record { form = a.form; name = a.name } };
}

/// Returns the bytes between the first and the last.
pub(crate) fn inner(text: &[u8]) -> &[u8]
    ensures { result.now ≡ spec.inner text.now }
{
    match text {
        [_, inner @ .., _] => inner,
        _ => b"",
    }
}

/// Returns a header of this form whose name is a copy of `name`.
fn copy_include_name(alloc: Global, form: Form, name: &[u8]) -> Result<IncludeName, Memory>
    ensures { IfOk result (λ a. a ≡ record { form = form; name = name.now }) }
{
    Ok(IncludeName {
        form,
        name: Spelling::from_slice(alloc, name)?,
    })
}

/// Returns the form of a header name token.
fn form_of(text: &[u8]) -> Form
    ensures { result ≡ spec.form_of text.now }
{
    if text.first() == Some(&b'"') {
        Form::Quote
    } else {
        Form::Angle
    }
}

/// Returns the header that a single header name token names.
fn name_of_header(alloc: Global, tokens: &[Token]) -> Result<Option<IncludeName>, Memory>
    ensures { IfOk result (λ a. a ≡ spec.name_of_header tokens.now) }
{
    let [header] = tokens else {
        return Ok(None);
    };
    let text = header.text.as_bytes();
    Ok(Some(copy_include_name(alloc, form_of(text), inner(text))?))
}

/// Returns the spelling of the tokens before the first `>`, or nothing if there is no `>` or if tokens follow it.
fn angle_name(alloc: Global, tokens: &[Token]) -> Result<Option<Vec<u8>>, Memory>
    ensures { IfOk result (λ n. option_map (λ v. v.items) n ≡ spec.angle_name tokens.now) }
{
    let mut name = Vec::new(alloc);
    for (index, token) in tokens.iter().enumerate() {
        push_space(&mut name, token, index == 0)?;
        if token.is_punct(b">") {
            return Ok(if index + 1 == tokens.len() {
                Some(name)
            } else {
                None
            });
        }
        name.extend_from_slice(token.text.as_bytes())?;
    }
    Ok(None)
}

/// Returns the header that a single string literal names after macro replacement.
fn name_of_string(alloc: Global, only: &Token) -> Result<Option<IncludeName>, Memory>
    ensures { IfOk result (λ a. a ≡ spec.name_of_expansion (only.now ∷ [])) }
{
    if !is_plain_string(only) {
        return Ok(None);
    }
    Ok(Some(copy_include_name(alloc, Form::Quote, inner(only.text.as_bytes()))?))
}

/// Returns the header that the tokens after `<` name.
fn name_of_angle(alloc: Global, tokens: &[Token]) -> Result<Option<IncludeName>, Memory>
    ensures { IfOk result (λ a. a ≡ spec.name_of_angle_form (spec.angle_name tokens.now)) }
{
    let Some(name) = angle_name(alloc, tokens)? else {
        return Ok(None);
    };
    Ok(Some(IncludeName {
        form: Form::Angle,
        name: Spelling::new(name)?,
    }))
}

/// Returns the header that the operands name after macro replacement.
fn name_of_expansion(alloc: Global, tokens: &[Token]) -> Result<Option<IncludeName>, Memory>
    ensures { IfOk result (λ a. a ≡ spec.name_of_expansion tokens.now) }
{
    match tokens {
        [only] => name_of_string(alloc, only),
        [first, rest @ ..] if first.is_punct(b"<") => name_of_angle(alloc, rest),
        _ => Ok(None),
    }
}

/// Returns the header, or fault 30 if there is none or no file can have its name.
fn name_or_fault(
    alloc: Global,
    line: &DirectiveTokens<'_>,
    include_name: Option<IncludeName>,
) -> Result<IncludeName, Error>
    ensures { UnlessOutOfMemory result (λ r. r ≡ spec.name_or (line_fault 30 line.now []) (spec.if_possible_name include_name)) }
{
    match include_name {
        Some(include_name) if !is_impossible_name(include_name.name.as_bytes()) => Ok(include_name),
        _ => Err(line_fault(alloc, 30, line, b"")),
    }
}

/// Returns whether no file can have the name: it is empty or begins with `/`.
fn is_impossible_name(name: &[u8]) -> bool
    ensures { result ≡ spec.is_impossible_name name.now }
{
    name.is_empty() || name[0] == b'/'
}

/// Returns the header that the tokens name after macro replacement, or fault 30.
pub(crate) fn name_of_expansion_or(
    alloc: Global,
    line: &DirectiveTokens<'_>,
    tokens: &[Token],
) -> Result<IncludeName, Error>
    ensures { UnlessOutOfMemory result (λ r. r ≡ spec.name_or (line_fault 30 line.now []) (spec.if_possible_name (spec.name_of_expansion tokens.now))) }
{
    let include_name = name_of_expansion(alloc, tokens)?;
    name_or_fault(alloc, line, include_name)
}

/// Returns the header that tokens of a line name once their macros are replaced.
pub(crate) fn expand_include_name<'x>(
    alloc: Global,
    state: &mut State<'x>,
    line: &DirectiveTokens<'x>,
    tokens: &'x [Token],
) -> Result<IncludeName, Error>
    ensures rest { state.new ≡ with_meter state.old state.new.meter }
    ensures names { UnlessOutOfMemory result (λ include_name. NamesHeaderByExpansion state.old line.now tokens.now state.new.meter include_name) }
{
    let expanded = expand_operands(state, tokens)?;
    name_of_expansion_or(alloc, line, expanded.as_slice())
}

/// Returns the header that an include line without unmatched quotes names. Fails with a fault of macro replacement, or
/// fault 30. Changes nothing in `state` but the meter.
pub(crate) fn read_include_name<'x>(
    alloc: Global,
    state: &mut State<'x>,
    line: &DirectiveTokens<'x>,
) -> Result<IncludeName, Error>
    ensures rest { state.new ≡ with_meter state.old state.new.meter }
    ensures names { UnlessOutOfMemory result (λ include_name. NamesHeader state.old line.now state.new.meter include_name) }
{
    let rest = line.operands();
    if let Some(first) = rest.first() {
        if first.kind == Kind::Header {
            let include_name = name_of_header(alloc, rest)?;
            return name_or_fault(alloc, line, include_name);
        }
    }
    expand_include_name(alloc, state, line, rest)
}
