//! Control lines that open no file (6.10.3 to 6.10.7).
ghost use Rattle.std.specs.Prelude.{◌≡◌, ◌++◌, IfOk, OnOk, Some, codes, take, true};
ghost use Rattle.std.specs.Option.{option_copied};
ghost use Rattle.std.specs.Result.{result_err};
ghost use Rattle.pptext.specs.Errors.{Raises, UnlessOutOfMemory};
ghost use Rattle.ppmacro.specs.DefineLines.{IsDefineLine};
ghost use Rattle.ppunit.specs.Directives as spec;
ghost use Rattle.ppunit.specs.DirectiveLines as spec_lines;
ghost use Rattle.ppunit.specs.DirectiveLines.{operands};
ghost use Rattle.ppunit.specs.code.Lines.{directed, IsControl};
ghost use Rattle.ppunit.specs.States.{running};

use crate::directive_line::{DirectiveLine, DirectiveTokens, line_fault, push_space};
use crate::including::inner;
use crate::line_control::{is_plain_string, renumber};
use crate::operand_expansion::expand_operands;
use crate::states::State;
use crate::units::MarkSort;
use ppmacro::{DefineLine, Table, define, define_line, undef};
use pptext::{Directive, Error, Memory, Profile, Token};
use std::alloc::Global;

/// Returns the message of `#error` (6.10.5): the tokens, with one space where a token other than the first has leading
/// white space.
#[tactic(auto, using(crate::proofs::OperandTexts::message_is))]
fn message(alloc: Global, tokens: &[Token]) -> Result<Vec<u8>, Memory>
    ensures { IfOk result (λ m. m.items ≡ spec.message tokens.now) }
{
    let mut text = Vec::new(alloc);
    let mut first = true;
    for token in tokens {
        push_space(&mut text, token, first)?;
        text.extend_from_slice(token.text.as_bytes())?;
        first = false;
    }
    Ok(text)
}

/// Returns fault 34, with the message of an `#error` line.
pub(crate) fn error(alloc: Global, line: &DirectiveTokens<'_>) -> Error
    ensures { Raises result (spec_lines.line_fault 34 line.now (spec.message (spec_lines.operands line.now))) }
{
    match message(alloc, line.operands()) {
        Ok(text) => line_fault(alloc, 34, line, text.as_slice()),
        Err(_) => Error::Memory,
    }
}

/// Returns whether the tokens after `#pragma` are `once`, in a profile that has it: a pragma with an
/// implementation-defined meaning (6.10.6).
fn is_once(profile: Profile, tokens: &[Token]) -> bool
    ensures { result ≡ spec.is_once profile tokens.now }
{
    match tokens {
        [only] => profile.has_later() && only.text.as_bytes() == b"once".as_slice(),
        _ => false,
    }
}

/// Returns the name in `WORD("NAME")`, with which the tokens after `#pragma` begin.
pub(crate) fn name_after<'x>(word: &[u8], tokens: &'x [Token]) -> Option<&'x [u8]>
    ensures { option_copied result ≡ spec.name_after word.now tokens.now }
{
    let [first, left, name, right, ..] = tokens else {
        return None;
    };
    if first.text.as_bytes() != word || !left.is_punct(b"(") {
        return None;
    }
    if !is_plain_string(name) || !right.is_punct(b")") {
        return None;
    }
    Some(inner(name.text.as_bytes()))
}

/// Keeps what the name in `#pragma push_macro("NAME")` is (gcc's manual, "Push/Pop Macro Pragmas").
fn push_named<'x>(
    state: &mut State<'x>,
    profile: Profile,
    tokens: &'x [Token],
) -> Result<(), Memory>
    ensures { OnOk result (state.new ≡ spec.noting_push (spec.name_to_push profile tokens.now) state.old) }
{
    if !profile.is_gnu() {
        return Ok(());
    }
    let Some(name) = name_after(b"push_macro", tokens) else {
        return Ok(());
    };
    state.push_macro(name)
}

/// Gives the name in `#pragma pop_macro("NAME")` back what it was (gcc's manual, "Push/Pop Macro Pragmas").
fn pop_named<'x>(state: &mut State<'x>, profile: Profile, tokens: &'x [Token]) -> Result<(), Memory>
    ensures { OnOk result (state.new ≡ spec.noting_pop (spec.name_to_pop profile tokens.now) state.old) }
{
    if !profile.is_gnu() {
        return Ok(());
    }
    let Some(name) = name_after(b"pop_macro", tokens) else {
        return Ok(());
    };
    state.pop_macro(name)
}

/// Marks the file at index `row` after `#pragma once`.
fn note_once(
    state: &mut State,
    profile: Profile,
    row: usize,
    tokens: &[Token],
) -> Result<(), Memory>
    ensures { OnOk result (state.new ≡ spec.noting_pragma_once profile row tokens.now state.old) }
{
    if is_once(profile, tokens) {
        return state.mark_once(row);
    }
    Ok(())
}

/// Returns whether GNU C replaces macros in a pragma after this word. `omp` and `acc` are such words only where `_OPENMP` and
/// `_OPENACC` are macros.
fn expands_after(macros: &Table, word: &[u8]) -> bool
    ensures { result ≡ spec.expands_after macros.now.macros word.now }
{
    word == b"message".as_slice()
        || word == b"redefine_extname".as_slice()
        || word == b"omp".as_slice() && macros.get(b"_OPENMP").is_some()
        || word == b"acc".as_slice() && macros.get(b"_OPENACC").is_some()
}

/// Returns the tokens of a pragma in which macros are replaced, if there are such, given the tokens after `#pragma`.
fn expanded_operands<'x>(
    profile: Profile,
    macros: &Table,
    tokens: &'x [Token],
) -> Option<&'x [Token]>
    ensures { option_copied result ≡ spec.expanded_operands profile macros.now.macros tokens.now }
{
    let (word, operands) = tokens.split_first()?;
    if profile.is_gnu() && expands_after(macros, word.text.as_bytes()) {
        return Some(operands);
    }
    None
}

/// Returns the first word of a pragma, and these tokens after it.
fn after_word(alloc: Global, pragma: &[Token], tokens: &[Token]) -> Result<Vec<Token>, Memory>
    ensures { IfOk result (λ v. v.items ≡ take 1 pragma.now ++ tokens.now) }
{
    let mut after = Vec::with_capacity(alloc, tokens.len() + 1)?;
    if let Some(word) = pragma.first() {
        after.push(word.clone()?)?;
    }
    for token in tokens {
        after.push(token.clone()?)?;
    }
    Ok(after)
}

/// Emits a pragma after macro replacement in these operands. Its first word stays.
fn expand_pragma<'x>(
    state: &mut State<'x>,
    line: &DirectiveTokens<'x>,
    operands: &'x [Token],
) -> Result<(), Error>
    ensures { UnlessOutOfMemory result (λ r. spec.ExpandsPragma state.old line.now operands.now (record { state = state.new; fault = result_err r })) }
{
    let expanded = expand_operands(state, operands)?;
    let tokens = after_word(state.scratch.alloc(), line.operands(), expanded.as_slice())?;
    state.emit_expanded_pragma(line.hash_place(), tokens)?;
    Ok(())
}

/// Returns whether the tokens after `#pragma` begin with `GCC system_header`.
fn names_system_header(tokens: &[Token]) -> bool
    ensures { result ≡ spec.begins_with_words (codes "GCC") (codes "system_header") tokens.now }
{
    match tokens {
        [first, second, ..] => {
            first.text.as_bytes() == b"GCC".as_slice()
                && second.text.as_bytes() == b"system_header".as_slice()
        }
        _ => false,
    }
}

/// Makes the file a system header after `#pragma GCC system_header`, unless it is the unit's own file (gcc's manual, "System
/// Headers"), and emits a mark.
fn note_system_header(
    state: &mut State,
    profile: Profile,
    line: &DirectiveLine<'_>,
) -> Result<(), Memory>
    ensures { OnOk result (state.new ≡ spec.noting_system_header profile line.now.row (directed line.now.directive line.now.tokens line.now.number) state.old) }
{
    if !profile.is_gnu() || state.file_context.directory.is_none() {
        return Ok(());
    }
    if !names_system_header(line.tokens.operands()) {
        return Ok(());
    }
    state.file_context.system = true;
    state.note_system(true, line.row)?;
    state.emit_mark(MarkSort::Line, line.row, line.number)
}

/// Emits a pragma with its tokens (6.10.6). `#pragma once` keeps the file from being read again, `#pragma push_macro` keeps a macro,
/// `#pragma pop_macro` brings it back, and `#pragma GCC system_header` makes the file a system header.
fn pragma<'x>(
    state: &mut State<'x>,
    profile: Profile,
    line: &DirectiveLine<'x>,
) -> Result<(), Error>
    ensures { UnlessOutOfMemory result (λ r. spec.ExecutesPragma (spec.expanded_operands profile state.old.macros (operands line.now.tokens)) profile line.now.row state.old
        (directed line.now.directive line.now.tokens line.now.number) (record { state = state.new; fault = result_err r })) }
{
    let tokens = line.tokens.operands();
    if let Some(operands) = expanded_operands(profile, &state.macros, tokens) {
        return expand_pragma(state, &line.tokens, operands);
    }
    state.emit_pragma(line.tokens.hash_place(), tokens)?;
    note_once(state, profile, line.row, tokens)?;
    push_named(state, profile, tokens)?;
    pop_named(state, profile, tokens)?;
    note_system_header(state, profile, line)?;
    Ok(())
}

/// Stops a unit with fault 8, with the name of an unknown directive.
fn unknown(alloc: Global, line: &DirectiveTokens<'_>) -> Result<(), Error>
    ensures { UnlessOutOfMemory result (λ r. result_err r ≡ Some (spec_lines.named_fault 8 line.now)) }
{
    Err(line_fault(alloc, 8, line, line.name()))
}

/// Executes a control line without unmatched quotes, whatever its directive.
#[inline(never)]
fn control_any<'x>(
    alloc: Global,
    state: &mut State<'x>,
    profile: Profile,
    line: DirectiveLine<'x>,
) -> Result<(), Error>
    requires { IsControl line.directive }
    ensures { UnlessOutOfMemory result (λ r.
        spec.ExecutesDirective profile line.entry.row (Some line.entry.directive) state.old (directed line.entry.directive line.entry.tokens line.entry.number)
        (record { state = state.new; fault = result_err r })) }
{
    let at = line.tokens.hash_place();
    let operands = line.tokens.operands();
    match line.directive {
        Directive::Define => define(alloc, &mut state.macros, profile, at, operands),
        Directive::Undef => undef(alloc, &mut state.macros, profile, at, operands),
        Directive::Line => renumber(alloc, state, line.row, &line.tokens, line.number),
        Directive::Pragma => pragma(state, profile, &line),
        Directive::Unknown => unknown(alloc, &line.tokens),
        _ => Ok(()),
    }
}

/// Executes a `#define` line that was read before. Fails with its fault.
pub(crate) fn define_as_read<'x>(
    alloc: Global,
    state: &mut State<'x>,
    profile: Profile,
    line: &DirectiveLine<'x>,
    define: DefineLine<'x>,
) -> Result<(), Error>
    requires { IsDefineLine (directed line.now.directive line.now.tokens line.now.number) define }
    ensures { UnlessOutOfMemory result (λ r.
        spec.ExecutesDirective profile line.now.row (Some line.now.directive) state.old (directed line.now.directive line.now.tokens line.now.number)
        (record { state = state.new; fault = result_err r })) }
{
    let _row = line.row;
    define_line(alloc, &mut state.macros, profile, define)
}

/// Executes a control line without unmatched quotes that opens no file. Fails with the line's fault.
pub(crate) fn control<'x>(
    alloc: Global,
    state: &mut State<'x>,
    profile: Profile,
    line: DirectiveLine<'x>,
) -> Result<(), Error>
    requires { IsControl line.directive }
    ensures { UnlessOutOfMemory result (λ r.
        spec.ExecutesDirective profile line.entry.row (Some line.entry.directive) state.old (directed line.entry.directive line.entry.tokens line.entry.number)
        (record { state = state.new; fault = result_err r })) }
{
    control_any(alloc, state, profile, line)
}
