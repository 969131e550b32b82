//! Converts the tokens of a controlling expression to symbols.
ghost use Rattle.std.specs.Prelude.{◌≡◌};
ghost use Rattle.std.specs.List.{list_any};
ghost use Rattle.pptext.specs.Errors.{Returns, UnlessOutOfMemory};
ghost use Rattle.ppmacro.specs.Substituting.{tokens_of};
ghost use Rattle.ppexpand.specs.Slices.{slice_tokens};
ghost use Rattle.ppexpr.specs.DefinedOperator.{is_defined};
ghost use Rattle.ppexpr.specs.Tokens.{other_punctuator, punctuator, symbol_of, symbols_of};
ghost use Rattle.ppexpr.specs.code.Symbols.{with_prefix};

use crate::characters::character_of;
use crate::defined_operator::is_defined;
use crate::integers::integer_of;
use crate::operators::Operator;
use crate::symbols::{Symbol, Value};
use ppexpand::{Slices, TokenSlice};
use ppmacro::Hidden;
use pptext::{Error, Kind, Place, Token, push};
use std::alloc::Global;

/// Returns the symbol of a punctuator that is no operator.
fn other_punctuator(text: &[u8]) -> Symbol
    ensures { result ≡ other_punctuator text.now }
{
    match text {
        b"(" => Symbol::Open,
        b")" => Symbol::Close,
        b"?" => Symbol::Question,
        b":" => Symbol::Colon,
        _ => Symbol::Other,
    }
}

/// Returns the symbol of a punctuator.
fn punctuator(text: &[u8]) -> Symbol
    ensures { result ≡ punctuator text.now }
{
    match Operator::of_spelling(text) {
        Some(operator) => Symbol::Operator(operator),
        None => other_punctuator(text),
    }
}

/// Returns the symbol of a token, or the fault of a constant without a value (24 or 25).
fn symbol_of(alloc: Global, at: Place, token: &Token) -> Result<Symbol, Error>
    ensures { UnlessOutOfMemory result (λ s. s ≡ symbol_of at token.now) }
{
    let text = token.text.as_bytes();
    let (number, constant) = match token.kind {
        Kind::Ident => return Ok(Symbol::Constant(Value::Signed(0))),
        Kind::Punct => return Ok(punctuator(text)),
        Kind::Number => (24, integer_of(text)),
        Kind::CharConst => (25, character_of(text)),
        _ => return Ok(Symbol::Other),
    };
    match constant {
        Some(value) => Ok(Symbol::Constant(value)),
        None => Err(Error::new(alloc, number, at, text)),
    }
}

/// Returns whether one of the tokens is `defined`.
pub(crate) fn has_defined(tokens: TokenSlice) -> bool
    ensures { result ≡ list_any is_defined (slice_tokens tokens.entry) }
{
    match tokens {
        TokenSlice::InFile(tokens) => tokens.iter().any(|token| is_defined(token)),
        TokenSlice::Hidden(tokens) => tokens.iter().any(|hidden| is_defined(hidden.token())),
    }
}

/// Returns whether one of the tokens in these slices is `defined`.
pub(crate) fn have_defined(slices: Slices) -> bool
    ensures { result ≡ list_any is_defined slices.entry }
{
    let mut slices = slices;
    while let Some(slice) = slices.next() {
        if has_defined(slice) {
            return true;
        }
    }
    false
}

/// Appends the symbols of tokens of a file, or stops at the first fault from the left.
fn push_symbols_in_file(symbols: &mut Vec<Symbol>, at: Place, tokens: &[Token]) -> Result<(), Error>
    ensures { Returns result (λ u. symbols.new.items) (with_prefix symbols.old.items (symbols_of at tokens.now)) }
{
    for token in tokens {
        let symbol = symbol_of(*symbols.allocator(), at, token)?;
        push(symbols, symbol)?;
    }
    Ok(())
}

/// Appends the symbols of tokens with hide sets, or stops at the first fault from the left.
fn push_symbols_of_hidden(
    symbols: &mut Vec<Symbol>,
    at: Place,
    tokens: &[Hidden],
) -> Result<(), Error>
    ensures { Returns result (λ u. symbols.new.items) (with_prefix symbols.old.items (symbols_of at (tokens_of tokens.now))) }
{
    for hidden in tokens {
        let symbol = symbol_of(*symbols.allocator(), at, hidden.token())?;
        push(symbols, symbol)?;
    }
    Ok(())
}

/// Appends the symbols of tokens, or stops at the first fault from the left.
pub(crate) fn push_symbols(
    symbols: &mut Vec<Symbol>,
    at: Place,
    tokens: TokenSlice,
) -> Result<(), Error>
    ensures { Returns result (λ u. symbols.new.items) (with_prefix symbols.old.items (symbols_of at (slice_tokens tokens.entry))) }
{
    match tokens {
        TokenSlice::InFile(tokens) => push_symbols_in_file(symbols, at, tokens),
        TokenSlice::Hidden(tokens) => push_symbols_of_hidden(symbols, at, tokens),
    }
}

/// Appends the symbols of the tokens in these slices, or stops at the first fault from the left.
pub(crate) fn push_all_symbols(
    symbols: &mut Vec<Symbol>,
    at: Place,
    slices: Slices,
) -> Result<(), Error>
    ensures { Returns result (λ u. symbols.new.items) (with_prefix symbols.old.items (symbols_of at slices.entry)) }
{
    let mut slices = slices;
    while let Some(slice) = slices.next() {
        push_symbols(symbols, at, slice)?;
    }
    Ok(())
}
