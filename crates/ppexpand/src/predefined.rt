//! The replacements of the predefined macros (6.10.8.1), and of `__COUNTER__` (gcc's manual, "Common Predefined Macros").
ghost use Rattle.std.specs.Prelude.{◌≡◌, IfOk, None, decimal, nat_abs};
ghost use Rattle.ppmacro.specs.HideSetPool.{HideSetPool};
ghost use Rattle.ppmacro.specs.HideSets.{set_at, hiding};
ghost use Rattle.ppexpand.specs.ExpansionStep.{presumed_line, string_literal, predefined_kind, predefined_text, predefined_value, counter_value};

use crate::env::Env;
use itoa::Buffer;
use ppmacro::{Hidden, PredefinedMacro, Set};
use pptext::{Kind, Memory, Place, Spelling, Token, push};
use std::alloc::Global;

/// Returns the token kind of a predefined macro's replacement.
fn predefined_kind(predefined: PredefinedMacro) -> Kind
    ensures { result ≡ predefined_kind predefined }
{
    match predefined {
        PredefinedMacro::File | PredefinedMacro::Date | PredefinedMacro::Time => Kind::Str,
        PredefinedMacro::Line
        | PredefinedMacro::Stdc
        | PredefinedMacro::StdcHosted
        | PredefinedMacro::StdcVersion => Kind::Number,
    }
}

/// Returns a text between double quotes.
fn string_literal(alloc: Global, text: &[u8]) -> Result<Vec<u8>, Memory>
    ensures { IfOk result (λ v. v.items ≡ string_literal text.now) }
{
    let mut literal = Vec::from_slice(alloc, b"\"")?;
    literal.extend_from_slice(text)?;
    push(&mut literal, b'"')?;
    Ok(literal)
}

/// Returns the presumed line of a location, in decimal.
fn presumed_line(alloc: Global, env: &Env, used: Place) -> Result<Vec<u8>, Memory>
    ensures { IfOk result (λ v. v.items ≡ decimal (nat_abs (presumed_line env.now used))) }
{
    let line = i128::from(used.line) + i128::from(env.shift);
    let mut buffer = Buffer::new();
    Vec::from_slice(alloc, buffer.format(line.unsigned_abs()).as_bytes())
}

/// Returns the spelling of a predefined macro's replacement. `used` is the expansion location of the name.
fn predefined_text(
    alloc: Global,
    predefined: PredefinedMacro,
    env: &Env,
    used: Place,
) -> Result<Vec<u8>, Memory>
    ensures { IfOk result (λ v. v.items ≡ predefined_text predefined env.now used) }
{
    match predefined {
        PredefinedMacro::File => env.name.literal(alloc),
        PredefinedMacro::Line => presumed_line(alloc, env, used),
        PredefinedMacro::Date => string_literal(alloc, env.date.as_bytes()),
        PredefinedMacro::Time => string_literal(alloc, env.time.as_bytes()),
        PredefinedMacro::Stdc | PredefinedMacro::StdcHosted => Vec::from_slice(alloc, b"1"),
        PredefinedMacro::StdcVersion => Vec::from_slice(alloc, b"201112L"),
    }
}

/// Returns the token that replaces the name of a predefined macro.
pub(crate) fn predefined_value<'a>(
    alloc: Global,
    predefined: PredefinedMacro,
    env: &Env,
    name_token: &Hidden,
    names_to_hide: Set,
) -> Result<Hidden<'a>, Memory>
    ensures is { IfOk result (λ h. (sets : HideSetPool) → hiding sets h ≡ predefined_value predefined env.now (hiding sets name_token.now) (set_at sets names_to_hide)) }
    ensures names_to_hide { IfOk result (λ h. (h.hide ≡ names_to_hide) × (h.extra ≡ None)) }
{
    let text = Spelling::new(predefined_text(alloc, predefined, env, name_token.used())?)?;
    let token = Token {
        kind: predefined_kind(predefined),
        text,
        space: name_token.space(),
        at: name_token.at(),
        used: name_token.used(),
    };
    Hidden::synthesized(alloc, token, names_to_hide)
}

/// Returns the token that replaces `__COUNTER__` if this is the number.
pub(crate) fn counter_value<'a>(
    alloc: Global,
    number: u32,
    name_token: &Hidden,
    names_to_hide: Set,
) -> Result<Hidden<'a>, Memory>
    ensures is { IfOk result (λ h. (sets : HideSetPool) → hiding sets h
        ≡ record { token = (counter_value number (hiding sets name_token.now)).token; hide = set_at sets names_to_hide }) }
    ensures names_to_hide { IfOk result (λ h. (h.hide ≡ names_to_hide) × (h.extra ≡ None)) }
{
    let mut buffer = Buffer::new();
    let text = Spelling::from_slice(alloc, buffer.format(number).as_bytes())?;
    let token = Token {
        kind: Kind::Number,
        text,
        space: name_token.space(),
        at: name_token.at(),
        used: name_token.used(),
    };
    Hidden::synthesized(alloc, token, names_to_hide)
}
