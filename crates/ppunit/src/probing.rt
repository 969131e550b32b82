//! Evaluates `__has_include` and `__has_include_next` in the operands of `#if` and `#elif` (gcc's manual, "__has_include").
//!
//! Each of them is replaced by a number, from the left, before the condition is evaluated: `defined` and the macros outside
//! its operand are replaced later. Macros are replaced in an operand that doesn't begin with `<`.
ghost use Rattle.std.specs.Prelude.{◌≡◌, ◌<◌, ◌^◌, ◌&&◌, ◌||◌, drop, length, codes, IfOk, IfSome};
ghost use Rattle.std.specs.List.{list_any};
ghost use Rattle.std.specs.Str.{bytes_eq};
ghost use Rattle.pptext.specs.Errors.{UnlessOutOfMemory};
ghost use Rattle.pptext.specs.Profiles.{is_gnu};
ghost use Rattle.ppunit.specs.DirectiveLines.{operands};
ghost use Rattle.ppunit.specs.Probing as spec;
ghost use Rattle.ppunit.specs.States.{with_meter};
ghost use Rattle.ppunit.specs.code.Contexts.{search_in_unit};

use crate::directive_line::{DirectiveTokens, line_fault};
use crate::including::{IncludeName, expand_include_name, name_of_expansion_or};
use crate::open_file::{LocatedFile, UnitContext, resolve_in};
use crate::states::State;
use ppshelf::Disk;
use pptext::{Error, Kind, Memory, Profile, Spelling, Token, Tokens};
use std::alloc::Global;

/// Returns whether the token is the name `__has_include_next`.
fn is_has_include_next(token: &Token) -> bool
    ensures { result ≡ spec.is_has_include_next token.now }
{
    token.is_identifier_named(b"__has_include_next")
}

/// Returns whether the text is the name of an operator: `__has_include` or `__has_include_next`.
fn is_operator_name(text: &[u8]) -> bool
    ensures { result ≡ (bytes_eq text.now (codes "__has_include") || bytes_eq text.now (codes "__has_include_next")) }
{
    text == b"__has_include".as_slice() || text == b"__has_include_next".as_slice()
}

/// Returns whether the token is the name of an operator.
fn is_operator(token: &Token) -> bool
    ensures { result ≡ spec.is_operator token.now }
{
    token.is_identifier() && is_operator_name(token.text.as_bytes())
}

/// Returns whether a token is the name of an operator.
fn contains_operator(tokens: &[Token]) -> bool
    ensures { result ≡ list_any spec.is_operator tokens.now }
{
    tokens.iter().any(|token| is_operator(token))
}

/// Returns whether the operands may have an operator that must be replaced before the condition is evaluated.
pub(crate) fn needs_probing(profile: Profile, operands: &[Token]) -> bool
    ensures { result ≡ (is_gnu profile && list_any spec.is_operator operands.now) }
{
    profile.is_gnu() && contains_operator(operands)
}

/// Returns whether the first token is this punctuator.
fn begins_with(text: &[u8], tokens: &[Token]) -> bool
    ensures { result ≡ spec.begins_with text.now tokens.now }
{
    match tokens {
        [first, ..] => first.is_punct(text),
        [] => false,
    }
}

/// Returns whether the token is the name of an operator and the tokens after it begin with `(`.
fn applies(token: &Token, following: &[Token]) -> bool
    ensures { result ≡ spec.applies token.now following.now }
{
    begins_with(b"(", following) && is_operator(token)
}

/// Returns the index of the first `)`.
fn first_close(tokens: &[Token]) -> Option<usize>
    ensures index { result ≡ spec.first_close tokens.now }
    ensures within { IfSome result (λ index. index < length tokens.now) }
{
    tokens.iter().position(|token| token.is_punct(b")"))
}

/// Returns how many parentheses are open after a token, or nothing if it closes the one before all of them.
fn depth_after(depth: usize, token: &Token) -> Option<usize>
    requires { depth < 2 ^ 63 }
    ensures { result ≡ spec.depth_after depth token.now }
{
    if token.is_punct(b"(") {
        Some(depth + 1)
    } else if token.is_punct(b")") {
        depth.checked_sub(1)
    } else {
        Some(depth)
    }
}

/// Returns the index of the `)` that matches a `(` before the tokens.
fn matching_close(tokens: &[Token]) -> Option<usize>
    ensures index { result ≡ spec.matching_close 0 tokens.now }
    ensures within { IfSome result (λ index. index < length tokens.now) }
{
    let mut depth = 0;
    for (index, token) in tokens.iter().enumerate() {
        let Some(inside) = depth_after(depth, token) else {
            return Some(index);
        };
        depth = inside;
    }
    None
}

/// Returns the index of the `)` after the operand: the first one if the operand begins with `<`, otherwise the matching one.
fn operand_end(tokens: &[Token]) -> Option<usize>
    ensures index { result ≡ spec.operand_end tokens.now }
    ensures within { IfSome result (λ index. index < length tokens.now) }
{
    if begins_with(b"<", tokens) {
        first_close(tokens)
    } else {
        matching_close(tokens)
    }
}

/// Returns the tokens after the first.
fn without_first(tokens: &[Token]) -> &[Token]
    ensures { result.now ≡ drop 1 tokens.now }
{
    match tokens {
        [_, rest @ ..] => rest,
        [] => &[],
    }
}

/// Returns the header that an operand in a line names. Fails with a fault of macro replacement, or fault 30. Changes nothing
/// in `state` but the meter.
fn name_of_operand<'x>(
    alloc: Global,
    state: &mut State<'x>,
    line: &DirectiveTokens<'x>,
    operand: &'x [Token],
) -> Result<IncludeName, Error>
    ensures rest { state.new ≡ with_meter state.old state.new.meter }
    ensures names { UnlessOutOfMemory result (λ include_name. spec.NamesOperand state.old line.now operand.now state.new.meter include_name) }
{
    if begins_with(b"<", operand) {
        return name_of_expansion_or(alloc, line, operand);
    }
    expand_include_name(alloc, state, line, operand)
}

/// Returns the number of the directory after which an operator searches, in a file that was found in this directory.
fn directory_before(operator: &Token, directory: Option<usize>) -> Option<usize>
    ensures { result ≡ spec.directory_before operator.now directory }
{
    if is_has_include_next(operator) {
        directory
    } else {
        None
    }
}

/// Returns whether an include line with this header finds a file. The file isn't opened.
fn has_file<D: Disk>(
    context: &UnitContext<'_, '_, D>,
    from: LocatedFile,
    include_name: &IncludeName,
) -> Result<bool, Memory>
    requires { 0 < length context.now.shelf.names }
    ensures { IfOk result (λ found. found ≡ spec.has_file (search_in_unit context.now) from.row from.directory include_name.now) }
{
    let found = resolve_in(context, from, include_name)?;
    Ok(found.is_some())
}

/// Returns the number that replaces an operator and its operand: 1 if a file is found, and 0 otherwise.
fn number_for(alloc: Global, operator: &Token, found: bool) -> Result<Token, Memory>
    ensures { IfOk result (λ t. t ≡ spec.number_for operator.now found) }
{
    let digit = if found {
        b"1".as_slice()
    } else {
        b"0".as_slice()
    };
    Ok(Token {
        kind: Kind::Number,
        text: Spelling::from_slice(alloc, digit)?,
        space: operator.space,
        at: operator.at,
        used: operator.used,
    })
}

/// Returns the number that replaces an operator with this header in the file at index `row`.
fn answer<D: Disk>(
    context: &UnitContext<'_, '_, D>,
    directory: Option<usize>,
    row: usize,
    operator: &Token,
    include_name: IncludeName,
) -> Result<Token, Memory>
    requires { 0 < length context.now.shelf.names }
    ensures { IfOk result (λ t. t ≡ spec.number_for operator.now (spec.has_file (search_in_unit context.now) row (spec.directory_before operator.now directory) include_name)) }
{
    let from = LocatedFile {
        row,
        directory: directory_before(operator, directory),
    };
    let found = has_file(context, from, &include_name)?;
    number_for(context.alloc, operator, found)
}

/// Replaces each operator before a `(` in the operands of a line of the file at index `row`, from the left. Fails with a
/// fault of macro replacement, or fault 30. Changes nothing in `state` but the meter.
pub(crate) fn probe<'x, D: Disk>(
    context: &UnitContext<'_, '_, D>,
    state: &mut State<'x>,
    row: usize,
    line: &DirectiveTokens<'x>,
) -> Result<Tokens, Error>
    requires { 0 < length context.now.shelf.names }
    ensures rest { state.new ≡ with_meter state.old state.new.meter }
    ensures probes { UnlessOutOfMemory result (λ tokens.
        spec.Probes (search_in_unit context.now) row line.now state.old (operands line.now) state.new.meter tokens) }
{
    let mut probed = Vec::new(context.alloc);
    let mut rest = line.operands();
    while let Some((first, following)) = rest.split_first() {
        if !applies(first, following) {
            probed.push(first.clone()?)?;
            rest = following;
            continue;
        }
        let inside = without_first(following);
        let Some(end) = operand_end(inside) else {
            return Err(line_fault(context.alloc, 30, line, b""));
        };
        let include_name = name_of_operand(context.alloc, state, line, &inside[..end])?;
        let number = answer(
            context,
            state.file_context.directory,
            row,
            first,
            include_name,
        )?;
        probed.push(number)?;
        rest = &inside[end + 1..];
    }
    Ok(Tokens::new(probed))
}
