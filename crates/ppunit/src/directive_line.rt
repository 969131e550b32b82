//! The parts of a directive line (6.10).
ghost use Rattle.std.specs.Prelude.{◌≡◌, ◌<◌, ◌++◌, length, IfOk, OnOk, ◌^◌};
ghost use Rattle.std.specs.Option.{option_copied};
ghost use Rattle.std.specs.Result.{result_err};
ghost use Rattle.pptext.specs.Errors.{Raises, UnlessOutOfMemory};
ghost use Rattle.pptext.specs.Tree.{hash_place, name_of};
ghost use Rattle.ppmacro.specs.Substitution.{spelled_space};
ghost use Rattle.pptext.specs.IndexedLines.{line_at, IsTextLine};
ghost use Rattle.ppunit.specs.DirectiveLines as spec;
ghost use Rattle.ppunit.specs.Quotes as quotes;

use pptext::{Directive, Error, Memory, Place, Source, Token};
use std::alloc::Global;
use std::marker::Model;

/// The tokens of a directive line. There is at least one: the first is the `#`. Its model is the list of the tokens.
#[derive(Drop)]
pub(crate) struct DirectiveTokens<'x> {
    tokens: &'x [Token],
}

impl<'x> Model for DirectiveTokens<'x> {
    ghost use Rattle.std.specs.Prelude.{◌<◌, List, length};
    ghost use Rattle.pptext.specs.declared.tokens.Token.{Token};

    ghost Value = { List Token };

    ghost view = { λ l. l.tokens.now };

    ghost invariant = { λ l. 0 < length l.tokens.now };
}

impl<'x> DirectiveTokens<'x> {
    /// Bundles the tokens of a directive line.
    pub(crate) fn new(tokens: &'x [Token]) -> DirectiveTokens<'x>
        requires { 0 < length tokens.now }
        ensures { result ≡ tokens.now }
    {
        DirectiveTokens { tokens }
    }

    /// Returns the tokens of the directive line at `index` of a file.
    pub(crate) fn at(source: &'x Source, index: usize) -> DirectiveTokens<'x>
        requires index { index < length source.now }
        requires directive { ¬ IsTextLine (line_at source.now index) }
        ensures few { length source.now < 2 ^ 64 }
        ensures tokens { result ≡ (line_at source.now index).tokens }
    {
        // For proofs: a directive line has a token.
        let _line = source.line(index);
        DirectiveTokens::new(source.line_tokens(index))
    }

    /// Returns the location of the `#`.
    pub(crate) fn hash_place(&self) -> Place
        ensures { result ≡ hash_place self.now }
    {
        self.tokens[0].at
    }

    /// Returns the directive's name.
    pub(crate) fn name(&self) -> &'x [u8]
        ensures { result.now ≡ name_of self.now }
    {
        match self.tokens {
            [_, name, ..] => name.text.as_bytes(),
            _ => b"",
        }
    }

    /// Returns the tokens after the directive's name.
    pub(crate) fn operands(&self) -> &'x [Token]
        ensures { result.now ≡ spec.operands self.now }
    {
        match self.tokens {
            [_, _, rest @ ..] => rest,
            _ => &[],
        }
    }
}

/// A directive line of the file at index `row`: its directive, its tokens, and the number of the physical line that its new-line ends, from 1.
#[derive(Drop)]
pub(crate) struct DirectiveLine<'x> {
    pub row: usize,
    pub directive: Directive,
    pub tokens: DirectiveTokens<'x>,
    pub number: u32,
}

/// Appends a space if the token has leading white space and isn't the first.
pub(crate) fn push_space(text: &mut Vec<u8>, token: &Token, first: bool) -> Result<(), Memory>
    ensures { OnOk result (text.new.items ≡ text.old.items ++ spelled_space first token.now) }
{
    if token.space && !first {
        text.push(b' ')?;
    }
    Ok(())
}

/// Returns the error of a fault located at the line's `#`, or `Memory` if an allocation fails.
pub(crate) fn line_fault(
    alloc: Global,
    number: u8,
    line: &DirectiveTokens<'_>,
    text: &[u8],
) -> Error
    ensures { Raises result (spec.line_fault number line.now text.now) }
{
    Error::new(alloc, number, line.hash_place(), text)
}

/// Returns the identifier if it is the only token.
pub(crate) fn one_identifier(tokens: &[Token]) -> Option<&[u8]>
    ensures { option_copied result ≡ spec.one_identifier tokens.now }
{
    match tokens {
        [only] if only.is_identifier() => Some(only.text.as_bytes()),
        _ => None,
    }
}

/// Fails with fault 7 at the first unmatched quote (6.4p3), if there is one.
pub(crate) fn refuse_unmatched_quote(alloc: Global, line: &DirectiveTokens<'_>) -> Result<(), Error>
    ensures { UnlessOutOfMemory result (λ r. result_err r ≡ quotes.unmatched_quote line.now) }
{
    for token in line.tokens {
        if token.is_unmatched_quote() {
            return Err(Error::of_token(alloc, 7, token.at, token));
        }
    }
    Ok(())
}
