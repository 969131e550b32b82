//! Text that continues the identifier or number before it (6.4.2, 6.4.8).
ghost use Rattle.std.specs.Prelude.{◌≡◌, ◌↔◌, ◌<◌, ◌≤◌, ◌-◌, length, drop, IsTrue};
ghost use Rattle.pptext.specs.Spellings.{IsUniversal};
ghost use Rattle.pptext.specs.Continuations.{IsIdentRest, IsNumberRest, IsSignedRest, EndsInUniversal, EndsInExponent, ContinuesToken};

use super::numbers::{is_exponent, is_sign, number_rest_len};
use super::{ident_rest_len, universal_len};
use crate::tokens::Kind;

/// The length of `\u` and four digits.
const SHORT: usize = 6;

/// The length of `\U` and eight digits.
const LONG: usize = 10;

/// Returns whether the text continues an identifier.
fn is_ident_rest(text: &[u8]) -> bool
    ensures { IsTrue result ↔ IsIdentRest text.now }
{
    ident_rest_len(text) == text.len()
}

/// Returns whether the text continues a number.
fn is_number_rest(text: &[u8]) -> bool
    ensures { IsTrue result ↔ IsNumberRest text.now }
{
    number_rest_len(text) == text.len()
}

/// Returns whether the text is a sign and then more of a number.
fn is_signed_rest(text: &[u8]) -> bool
    ensures { IsTrue result ↔ IsSignedRest text.now }
{
    if text.is_empty() {
        return false;
    }
    is_sign(text[0]) && is_number_rest(&text[1..])
}

/// Returns whether a universal character name of this length ends the text.
fn ends_in_name_of(text: &[u8], len: usize) -> bool
    requires { 0 < len }
    ensures { IsTrue result ↔ (len ≤ length text.now) × IsUniversal (drop (length text.now - len) text.now) }
{
    if text.len() < len {
        return false;
    }
    universal_len(&text[text.len() - len..]) == len
}

/// Returns whether a universal character name ends the text (6.4.3).
fn ends_in_universal(text: &[u8]) -> bool
    ensures { IsTrue result ↔ EndsInUniversal text.now }
{
    ends_in_name_of(text, SHORT) || ends_in_name_of(text, LONG)
}

/// Returns whether the text ends in the letter of an exponent that is no digit of a universal character name.
fn ends_in_exponent(text: &[u8]) -> bool
    ensures { IsTrue result ↔ EndsInExponent text.now }
{
    if text.is_empty() {
        return false;
    }
    is_exponent(text[text.len() - 1]) && !ends_in_universal(text)
}

/// Returns whether `more` continues a token of this kind with the spelling `text`. An identifier continues with
/// nondigits and digits (6.4.2). A number continues with these, periods and signed exponents (6.4.8), and with a sign
/// if the text ends in an exponent's letter. If the text is one token of that kind, so is the whole. Only the last
/// bytes of the text are read, however long it is.
pub fn continues(kind: Kind, text: &[u8], more: &[u8]) -> bool
    ensures { IsTrue result ↔ ContinuesToken kind text.now more.now }
{
    match kind {
        Kind::Ident => is_ident_rest(more),
        Kind::Number => is_number_rest(more) || ends_in_exponent(text) && is_signed_rest(more),
        _ => false,
    }
}
