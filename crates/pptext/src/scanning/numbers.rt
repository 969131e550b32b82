//! Preprocessing numbers (6.4.8).
ghost use Rattle.std.specs.Prelude.{◌≡◌, ◌↔◌, ◌||◌, ◌==◌, ◌≤◌, [], ◌∷◌, length, IsTrue, slice_index};
ghost use Rattle.pptext.specs.Languages.{Longest, Repeated, Then, Either, Exactly, One};
ghost use Rattle.pptext.specs.code.Scanning.{NextPart, OnlyPart, LongestOrNone};
ghost use Rattle.pptext.specs.Spellings.{is_digit, is_exponent, is_sign, IsNumberPart, IsNumber};

use super::{is_digit, nondigit_len};

/// Returns whether the byte is e, E, p or P.
pub(super) fn is_exponent(c: u8) -> bool
    ensures { result ≡ is_exponent c }
{
    c == b'e' || c == b'E' || c == b'p' || c == b'P'
}

/// Returns whether the byte is a sign.
pub(super) fn is_sign(c: u8) -> bool
    ensures { result ≡ is_sign c }
{
    c == b'+' || c == b'-'
}

/// Returns whether the byte is a digit or a period.
fn is_digit_or_period(c: u8) -> bool
    ensures { result ≡ (is_digit c || c == 46) }
{
    is_digit(c) || c == b'.'
}

/// Returns whether an exponent's letter and a sign begin the text.
fn begins_with_exponent(text: &[u8]) -> bool
    ensures { IsTrue result
        ↔ (2 ≤ length text.now)
        × IsTrue (is_exponent (slice_index text.now 0))
        × IsTrue (is_sign (slice_index text.now 1)) }
{
    text.len() >= 2 && is_exponent(text[0]) && is_sign(text[1])
}

/// Returns whether a period and a digit begin the text.
fn begins_with_fraction(text: &[u8]) -> bool
    ensures { IsTrue result
        ↔ (2 ≤ length text.now)
        × (slice_index text.now 0 ≡ 46)
        × IsTrue (is_digit (slice_index text.now 1)) }
{
    text.len() >= 2 && text[0] == b'.' && is_digit(text[1])
}

/// Returns the length of the next part of a number, or 0.
fn number_part_len(text: &[u8]) -> usize
    ensures { NextPart IsNumberPart text.now result }
{
    if text.is_empty() {
        return 0;
    }
    if is_digit_or_period(text[0]) {
        return 1;
    }
    if begins_with_exponent(text) {
        return 2;
    }
    nondigit_len(text)
}

/// Returns the length of the parts of a number that begin the text.
pub(super) fn number_rest_len(text: &[u8]) -> usize
    ensures fits { result ≤ length text.now }
    ensures longest { Longest (Repeated IsNumberPart) text.now result }
{
    let mut at = 0;
    loop {
        let n = number_part_len(&text[at..]);
        if n == 0 {
            return at;
        }
        at += n;
    }
}

/// Returns the length of the digit, or the period and digit, that begins a number, or 0.
fn number_start_len(text: &[u8]) -> usize
    ensures { OnlyPart (Either (One is_digit) (Then (Exactly (46 ∷ [])) (One is_digit))) text.now result }
{
    if text.is_empty() {
        return 0;
    }
    if is_digit(text[0]) {
        return 1;
    }
    if begins_with_fraction(text) {
        return 2;
    }
    0
}

/// Returns the length of the longest number that begins the text, or 0.
pub(crate) fn number_len(text: &[u8]) -> usize
    ensures { LongestOrNone IsNumber text.now result }
{
    let start = number_start_len(text);
    if start == 0 {
        return 0;
    }
    start + number_rest_len(&text[start..])
}
