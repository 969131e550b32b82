//! The operator `#` (6.10.3.2).
ghost use Rattle.std.specs.Prelude.{◌≡◌, ℕ, [], ◌∷◌, ◌++◌, take, IfOk, OnOk, OnErr};
ghost use Rattle.ppmacro.specs.HideSets.{HasSets, hiding};
ghost use Rattle.pptext.specs.Errors.{Returns};
ghost use Rattle.ppmacro.specs.Substitution.{escaped_literal, spelled_space, spelled_in_string, string_text, stringized};
ghost use Rattle.ppmacro.specs.Substituting.{tokens_of};

use crate::hidden_token::Hidden;
use crate::hide_sets::HideSets;
use crate::substituting::lexing::kind_of;
use pptext::{Error, Kind, Memory, Place, Spelling, Token};
use std::alloc::Global;

/// Appends a byte of a literal, with a backslash before `"` and `\`. If an allocation fails, the text is unchanged.
fn push_escaped_byte(text: &mut Vec<u8>, byte: u8) -> Result<(), Memory>
    ensures put { OnOk result (text.new.items ≡ text.old.items ++ escaped_literal (byte ∷ [])) }
    ensures refused { OnErr result (text.new.items ≡ text.old.items) }
{
    if byte == b'"' || byte == b'\\' {
        return text.extend_from_slice(&[b'\\', byte]);
    }
    text.push(byte)?;
    Ok(())
}

/// Appends a literal's spelling, with a backslash before each `"` and `\`. If an allocation fails, a prefix is appended.
pub fn push_escaped(text: &mut Vec<u8>, spelling: &[u8]) -> Result<(), Memory>
    ensures put { OnOk result (text.new.items ≡ text.old.items ++ escaped_literal spelling.now) }
    ensures refused { OnErr result ((n : ℕ) × (text.new.items ≡ text.old.items ++ escaped_literal (take n spelling.now))) }
{
    text.reserve(spelling.len())?;
    for byte in spelling {
        push_escaped_byte(text, *byte)?;
    }
    Ok(())
}

/// Appends the spelling of a token, escaped if it is a literal.
fn push_spelled(text: &mut Vec<u8>, token: &Hidden) -> Result<(), Memory>
    ensures { OnOk result (text.new.items ≡ text.old.items ++ spelled_in_string token.now.token) }
{
    if matches!(token.kind(), Kind::CharConst | Kind::Str) {
        return push_escaped(text, token.text());
    }
    text.extend_from_slice(token.text())
}

/// Appends a token's spelling, after a space if the token has a leading-space flag and isn't the first.
fn push_with_space(text: &mut Vec<u8>, first: bool, token: &Hidden) -> Result<(), Memory>
    ensures { OnOk result (text.new.items ≡ text.old.items ++ (spelled_space first token.now.token ++ spelled_in_string token.now.token)) }
{
    if token.space() && !first {
        text.push(b' ')?;
    }
    push_spelled(text, token)
}

/// Returns the spelling of an argument between quotes.
fn string_text(alloc: Global, argument: &[Hidden]) -> Result<Vec<u8>, Memory>
    ensures { IfOk result (λ v. v.items ≡ string_text (tokens_of argument.now)) }
{
    let mut text = Vec::new(alloc);
    text.push(b'"')?;
    let mut first = true;
    for hidden in argument {
        push_with_space(&mut text, first, hidden)?;
        first = false;
    }
    text.push(b'"')?;
    Ok(text)
}

/// Returns the string literal of an argument (6.10.3.2), without a leading-space flag and with the empty hide set. `at` is the
/// location of `#`, and `used` that of the macro name.
///
/// Fault 20, at `used` and with the text: the text isn't a string literal.
pub fn stringize<'a>(
    alloc: Global,
    argument: &[Hidden],
    at: Place,
    used: Place,
    sets: &HideSets,
) -> Result<Hidden<'a>, Error>
    ensures is { Returns result (hiding sets.now) (stringized (tokens_of argument.now) at used) }
    ensures known { IfOk result (λ h. HasSets sets.now h) }
{
    let text = string_text(alloc, argument)?;
    let kind = kind_of(text.as_slice());
    if !matches!(kind, Some(Kind::Str)) {
        return Err(Error::new(alloc, 20, used, text.as_slice()));
    }
    let token = Token {
        kind: Kind::Str,
        text: Spelling::new(text)?,
        space: false,
        at,
        used,
    };
    Ok(Hidden::synthesized(alloc, token, sets.empty())?)
}
