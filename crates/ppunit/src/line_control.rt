//! Executes `#line` (6.10.4).
ghost use Rattle.std.specs.Prelude.{◌≡◌, ◌+◌, ◌-ℤ◌, pos, [], IfOk};
ghost use Rattle.std.specs.Option.{ok_or};
ghost use Rattle.std.specs.Result.{result_err};
ghost use Rattle.pptext.specs.Errors.{UnlessOutOfMemory};
ghost use Rattle.pptext.specs.declared.sources.Directive.TheVariants.{Line};
ghost use Rattle.ppunit.specs.LineControl as spec;
ghost use Rattle.ppunit.specs.DirectiveLines.{line_fault};
ghost use Rattle.ppunit.specs.code.Lines.{directed};
ghost use Rattle.ppunit.specs.Directives.{SetsLine};

use crate::directive_line::{DirectiveTokens, line_fault};
use crate::operand_expansion::expand_operands;
use crate::states::State;
use crate::units::MarkSort;
use crate::well_formed::is_digit;
use ppexpand::{Env, FileName};
use pptext::{Error, Kind, Memory, Spelling, Token};
use std::alloc::Global;
use std::marker::Model;

/// The largest number that `#line` may give (6.10.4p3).
const MAX_LINE_NUMBER: u64 = 2_147_483_647;

/// The presumed number of a line, and the presumed name of its file as a string literal.
#[derive(Drop)]
pub(crate) struct Presumed {
    pub number: u32,
    pub name: Option<Spelling>,
}

impl Model for Presumed {
    ghost use Rattle.ppunit.specs.LineControl.{Presumed};

    ghost Value = { Presumed };

    ghost view = { λ p. record { number = p.number; name = p.name } };
}

/// Returns whether the token is a string literal without prefix.
pub(crate) fn is_plain_string(token: &Token) -> bool
    ensures { result ≡ spec.is_plain_string token.now }
{
    token.kind == Kind::Str && token.text.as_bytes().first() == Some(&b'"')
}

/// Returns the number that decimal digits spell, if it is 1 to 2147483647.
fn line_number(token: &Token) -> Option<u32>
    ensures { result ≡ spec.line_number token.now }
{
    if token.kind != Kind::Number {
        return None;
    }
    let mut number: u64 = 0;
    for byte in token.text.as_bytes() {
        if !is_digit(*byte) {
            return None;
        }
        // A number that is too large stays too large.
        if number <= MAX_LINE_NUMBER {
            number = number * 10 + u64::from(*byte - b'0');
        }
    }
    if number == 0 || number > MAX_LINE_NUMBER {
        return None;
    }
    Some(number as u32)
}

/// Returns the operands of `#line` after macro replacement: a number, or a number and a string literal.
fn presumed_by(tokens: &[Token]) -> Result<Option<Presumed>, Memory>
    ensures { IfOk result (λ p. p ≡ spec.presumed tokens.now) }
{
    let (number, name) = match tokens {
        [number] => (number, None),
        [number, name] if is_plain_string(name) => (number, Some(name.text.clone()?)),
        _ => return Ok(None),
    };
    let Some(number) = line_number(number) else {
        return Ok(None);
    };
    Ok(Some(Presumed { number, name }))
}

/// Replaces the presumed name of the file, if there is a new one.
fn rename(env: &mut Env, name: Option<Spelling>)
    ensures { env.new ≡ record env.old { name = spec.or_old env.old.name name } }
{
    if let Some(name) = name {
        env.name = FileName::spelled(name);
    }
}

/// Returns the operands of `#line` after macro replacement, or fault 33.
fn presumed_or_fault(
    alloc: Global,
    line: &DirectiveTokens<'_>,
    tokens: &[Token],
) -> Result<Presumed, Error>
    ensures { UnlessOutOfMemory result (λ r. r ≡ ok_or (spec.presumed tokens.now) (line_fault 33 line.now [])) }
{
    match presumed_by(tokens)? {
        Some(presumed) => Ok(presumed),
        None => Err(line_fault(alloc, 33, line, b"")),
    }
}

/// Gives the line after the physical line `physical` its presumed number, and the file its presumed name.
fn set_presumed(env: &mut Env, presumed: Presumed, physical: u32)
    ensures { env.new ≡ record env.old { name = spec.or_old env.old.name presumed.name; shift = pos presumed.number -ℤ pos (physical + 1) } }
{
    env.shift = i64::from(presumed.number) - (i64::from(physical) + 1);
    rename(env, presumed.name);
}

/// Executes `#line` (6.10.4): gives the line after the directive's new-line a number, and the file at index `row` a name if
/// there is one, and emits a mark. The new-line ends the physical line `physical`. Fails with a fault of macro replacement, or
/// fault 33.
pub(crate) fn renumber<'x>(
    alloc: Global,
    state: &mut State<'x>,
    row: usize,
    line: &DirectiveTokens<'x>,
    physical: u32,
) -> Result<(), Error>
    ensures { UnlessOutOfMemory result (λ r. SetsLine state.old row (directed Line line.now physical) (record { state = state.new; fault = result_err r })) }
{
    let tokens = expand_operands(state, line.operands())?;
    let presumed = presumed_or_fault(alloc, line, tokens.as_slice())?;
    set_presumed(&mut state.file_context.env, presumed, physical);
    state.emit_mark(MarkSort::Line, row, physical)?;
    Ok(())
}
