//! Evaluates the controlling expression of `#if` or `#elif` (6.10.1).
ghost use Rattle.std.specs.Prelude.{◌≡◌, ◌++◌, List};
ghost use Rattle.std.specs.List.{list_any};
ghost use Rattle.pptext.specs.Errors.{Raises, Returns, UnlessOutOfMemory};
ghost use Rattle.pptext.specs.declared.tokens.Token.{Token};
ghost use Rattle.ppexpr.specs.DefinedOperator.{is_defined, ReplacesDefined};
ghost use Rattle.ppexpr.specs.Tokens.{symbols_of};
ghost use Rattle.ppexpr.specs.Conditions.{failure_fault, taken, EvaluatesShallow, EvaluatesSymbols, EvaluatesTokens, IsCondition};

use crate::defined_only::evaluate_defined_only;
use crate::defined_operator::without_defined;
use crate::nesting::is_too_nested;
use crate::parsing::parse;
use crate::symbols::{Failure, Symbol, Value};
use crate::tokens::{has_defined, have_defined, push_all_symbols, push_symbols};
use ppexpand::{Env, Expanded, Meter, Scratch, TokenSlice, expand, expand_list};
use ppmacro::Table;
use pptext::{Error, Place, Token};
use std::alloc::Global;

/// The number of symbols for which a condition has room at first. Few have more.
const USUAL_SYMBOLS: usize = 32;

/// Returns the error of an expression without a value.
fn failure_error(alloc: Global, at: Place, failure: Failure) -> Error
    ensures { Raises result (failure_fault at failure) }
{
    match failure {
        Failure::ZeroDivisor(operator) => Error::new(alloc, 26, at, operator.spelling()),
        Failure::Overflow(operator) => Error::new(alloc, 27, at, operator.spelling()),
        Failure::Shift(operator) => Error::new(alloc, 28, at, operator.spelling()),
    }
}

/// Returns whether the value is not 0.
fn taken(alloc: Global, at: Place, value: Result<Value, Failure>) -> Result<bool, Error>
    ensures { UnlessOutOfMemory result (λ c. c ≡ taken at value) }
{
    match value {
        Ok(value) => Ok(!value.is_zero()),
        Err(failure) => Err(failure_error(alloc, at, failure)),
    }
}

/// Evaluates symbols that are not nested too deep.
fn evaluate_shallow(alloc: Global, at: Place, symbols: &[Symbol]) -> Result<bool, Error>
    ensures { UnlessOutOfMemory result (λ c. EvaluatesShallow at symbols.now c) }
{
    let Some(evaluation) = parse(alloc, symbols)? else {
        return Err(Error::bare(alloc, 23, at));
    };
    taken(alloc, at, evaluation.value)
}

/// Evaluates symbols.
fn evaluate_symbols(alloc: Global, at: Place, symbols: &[Symbol]) -> Result<bool, Error>
    ensures { UnlessOutOfMemory result (λ c. EvaluatesSymbols at symbols.now c) }
{
    if is_too_nested(symbols) {
        return Err(Error::bare(alloc, 29, at));
    }
    evaluate_shallow(alloc, at, symbols)
}

/// Returns whether one of the tokens of a prefix and of a scratch after it is `defined`.
fn emits_defined(prefix: &[Token], scratch: &Scratch) -> bool
    ensures { result ≡ list_any is_defined (prefix.now ++ scratch.now) }
{
    has_defined(TokenSlice::InFile(prefix)) || have_defined(scratch.slices())
}

/// Returns the symbols of a prefix and of the tokens of a scratch after it, or the first fault from the left.
fn symbols_of(at: Place, prefix: &[Token], scratch: &Scratch) -> Result<Vec<Symbol>, Error>
    ensures { Returns result (λ v. v.items) (symbols_of at (prefix.now ++ scratch.now)) }
{
    let mut symbols = Vec::with_capacity(scratch.alloc(), USUAL_SYMBOLS)?;
    push_symbols(&mut symbols, at, TokenSlice::InFile(prefix))?;
    push_all_symbols(&mut symbols, at, scratch.slices())?;
    Ok(symbols)
}

/// Evaluates a prefix and the tokens of a scratch after it.
fn evaluate_emitted(at: Place, prefix: &[Token], scratch: &Scratch) -> Result<bool, Error>
    ensures { UnlessOutOfMemory result (λ c. EvaluatesTokens at (prefix.now ++ scratch.now) c) }
{
    if emits_defined(prefix, scratch) {
        return Err(Error::bare(scratch.alloc(), 22, at));
    }
    let symbols = symbols_of(at, prefix, scratch)?;
    evaluate_symbols(scratch.alloc(), at, symbols.as_slice())
}

/// Replaces macros in tokens in which each use of `defined` is replaced, and evaluates the result.
fn evaluate_expansion<'x, 'a: 'x>(
    table: &Table<'a>,
    env: &Env,
    meter: &mut Meter,
    at: Place,
    tokens: &'x [Token],
    scratch: &mut Scratch<'x>,
) -> Result<bool, Error>
    ensures { UnlessOutOfMemory result (λ c. (list : List Token) → ReplacesDefined table.now.macros list tokens.now
        → IsCondition table.now.macros env.now at list meter.old c meter.new) }
{
    let Expanded { prefix, fault } = expand(table, env, meter, tokens, scratch)?;
    match fault {
        Some(fault) => Err(Error::Fault(fault)),
        None => evaluate_emitted(at, prefix, scratch),
    }
}

/// Replaces each use of `defined` and then macros, and evaluates the result.
fn evaluate_replaced<'x, 'a: 'x>(
    table: &Table<'a>,
    env: &Env,
    meter: &mut Meter,
    at: Place,
    tokens: &'x [Token],
    scratch: &mut Scratch<'x>,
) -> Result<bool, Error>
    ensures { UnlessOutOfMemory result (λ c. IsCondition table.now.macros env.now at tokens.now meter.old c meter.new) }
{
    let without_defined = without_defined(table, at, tokens, scratch)?;
    match expand_list(table, env, meter, without_defined, scratch)? {
        Some(fault) => Err(Error::Fault(fault)),
        None => evaluate_emitted(at, &[], scratch),
    }
}

/// Returns whether the group after `#if` or `#elif` is taken (6.10.1).
///
/// `at` is the location of the directive's `#`. `tokens` are the tokens after the directive's name. The budget of `meter` is the number of
/// replacements that may be made; `None` means no limit. Each replacement takes one from it. One more replacement is fault 35 at the
/// expansion location of the name.
///
/// # Errors
///
/// Returns the first fault, or `Memory` if an allocation fails. The faults, in the order of the checks:
///
/// - 22: a use of `defined` without a name;
/// - the faults of macro replacement, 35 among them;
/// - 22: a `defined` that replacement made;
/// - 24, 25: the first integer or character constant without a value;
/// - 29: an expression that is nested too deep;
/// - 23: a list that is no expression;
/// - 26, 27, 28: a division by 0, a signed overflow, or a shift without a value.
pub fn evaluate<'x, 'a: 'x>(
    table: &Table<'a>,
    env: &Env,
    meter: &mut Meter,
    at: Place,
    tokens: &'x [Token],
    scratch: &mut Scratch<'x>,
) -> Result<bool, Error>
    ensures { UnlessOutOfMemory result (λ c. IsCondition table.now.macros env.now at tokens.now meter.old c meter.new) }
{
    // Fast path: most conditions consist of uses of `defined` alone.
    if let Some(taken) = evaluate_defined_only(table, tokens) {
        return Ok(taken);
    }
    // Most of the others have no use of `defined`, so that they are expanded as they stand in the file.
    if has_defined(TokenSlice::InFile(tokens)) {
        return evaluate_replaced(table, env, meter, at, tokens, scratch);
    }
    evaluate_expansion(table, env, meter, at, tokens, scratch)
}
