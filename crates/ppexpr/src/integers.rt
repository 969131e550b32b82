//! Reads integer constants (6.4.4.1).
ghost use Rattle.std.specs.Prelude.{◌≡◌, length, ◌≤◌, ◌^◌, ◌<◌, MatchOption};
ghost use Rattle.ppexpr.specs.Integers.{digits_len, number, is_one_of, plain_suffixes, unsigned_suffixes, typed, in_base, integer_of};
ghost use Rattle.std.specs.Char.{is_digit, digit_value};

use crate::symbols::Value;

/// Returns the value of a digit or a letter, and 36 for any other byte.
fn digit_value(c: u8) -> u32
    ensures { result ≡ digit_value c }
{
    char::from(c).to_digit(36).unwrap_or(36)
}

/// Returns whether a byte is a digit of this base.
pub(crate) fn is_digit(c: u8, base: u32) -> bool
    ensures { result ≡ is_digit c base }
{
    digit_value(c) < base
}

/// Returns the number of digits of this base at the start of a text.
fn digits_len(base: u32, text: &[u8]) -> usize
    ensures value { result ≡ digits_len base text.now }
    ensures within { result ≤ length text.now }
{
    for (at, c) in text.iter().enumerate() {
        if !is_digit(*c, base) {
            return at;
        }
    }
    text.len()
}

/// Returns the number that digits denote, if it is below 2^64.
pub(crate) fn number(base: u32, digits: &[u8]) -> Option<u64>
    requires { 0 < base }
    ensures { MatchOption result (2 ^ 64 ≤ number base digits.now) (λ n. n ≡ number base digits.now) }
{
    let mut number: u64 = 0;
    for c in digits {
        let shifted = number.checked_mul(u64::from(base))?;
        number = shifted.checked_add(u64::from(digit_value(*c)))?;
    }
    Some(number)
}

/// Returns whether a text is no suffix or one without `u` and `U`.
fn is_plain_suffix(text: &[u8]) -> bool
    ensures { result ≡ is_one_of plain_suffixes text.now }
{
    matches!(text, b"" | b"l" | b"L" | b"ll" | b"LL")
}

/// Returns whether a text is a suffix with `u` or `U`.
fn is_unsigned_suffix(text: &[u8]) -> bool
    ensures { result ≡ is_one_of unsigned_suffixes text.now }
{
    match text {
        [b'u' | b'U', rest @ ..] => is_plain_suffix(rest),
        [b'l' | b'L', b'u' | b'U'] => true,
        [b'l', b'l', b'u' | b'U'] | [b'L', b'L', b'u' | b'U'] => true,
        _ => false,
    }
}

/// Returns the constant of a number with a suffix, if it has a type.
fn typed(decimal: bool, suffix: &[u8], number: u64) -> Option<Value>
    ensures { result ≡ typed decimal suffix.now number }
{
    if is_unsigned_suffix(suffix) {
        return Some(Value::Unsigned(number));
    }
    if !is_plain_suffix(suffix) {
        return None;
    }
    if number < 1 << 63 {
        return Some(Value::Signed(number as i64));
    }
    if decimal {
        return None;
    }
    Some(Value::Unsigned(number))
}

/// Returns the constant with this spelling after its prefix.
fn in_base(base: u32, decimal: bool, text: &[u8]) -> Option<Value>
    requires { 0 < base }
    ensures { result ≡ in_base base decimal text.now }
{
    let len = digits_len(base, text);
    if len == 0 {
        return None;
    }
    let (digits, suffix) = text.split_at(len);
    typed(decimal, suffix, number(base, digits)?)
}

/// Returns the value of an integer constant with its type, if the text is one.
pub(crate) fn integer_of(text: &[u8]) -> Option<Value>
    ensures { result ≡ integer_of text.now }
{
    if text.starts_with(b"0x") || text.starts_with(b"0X") {
        in_base(16, false, &text[2..])
    } else if text.starts_with(b"0") {
        in_base(8, false, text)
    } else {
        in_base(10, true, text)
    }
}
