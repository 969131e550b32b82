//! Reads character constants (6.4.4.4).
ghost use Rattle.std.specs.Prelude.{◌≡◌, ◌<◌, ◌≤◌, ◌^◌, MatchOption, IfSome, None, Some};
ghost use Rattle.ppexpr.specs.Characters.{unquoted, simple_escape, are_digits, is_octal_escape, is_hexadecimal_escape, other_escape, escape};
ghost use Rattle.ppexpr.specs.Characters.{character, of_type, character_of};
ghost use Rattle.std.specs.List.{list_all};
ghost use Rattle.std.specs.Char.{is_digit};

use crate::integers::{is_digit, number};
use crate::symbols::Value;

/// Returns the bytes between the quotes.
fn unquoted(text: &[u8]) -> Option<&[u8]>
    ensures { MatchOption result (unquoted text.now ≡ None) (λ s. unquoted text.now ≡ Some s.now) }
{
    let [b'\'', body @ .., b'\''] = text else {
        return None;
    };
    Some(body)
}

/// Returns the value of a simple escape sequence, by the byte after the backslash.
fn simple_escape(c: u8) -> Option<u64>
    ensures { result ≡ simple_escape c }
{
    match c {
        b'\'' | b'"' | b'?' | b'\\' => Some(u64::from(c)),
        b'a' => Some(7),
        b'b' => Some(8),
        b't' => Some(9),
        b'n' => Some(10),
        b'v' => Some(11),
        b'f' => Some(12),
        b'r' => Some(13),
        _ => None,
    }
}

/// Returns whether each byte is a digit.
fn all_digits(base: u32, text: &[u8]) -> bool
    ensures { result ≡ list_all (λ c. is_digit c base) text.now }
{
    text.iter().all(|c| is_digit(*c, base))
}

/// Returns whether there is at least one byte, and each byte is a digit.
fn are_digits(base: u32, text: &[u8]) -> bool
    ensures { result ≡ are_digits base text.now }
{
    !text.is_empty() && all_digits(base, text)
}

/// Returns whether the text after the backslash is an octal escape sequence.
fn is_octal_escape(text: &[u8]) -> bool
    ensures { result ≡ is_octal_escape text.now }
{
    text.len() <= 3 && are_digits(8, text)
}

/// Returns whether the text after the backslash is a hexadecimal escape sequence.
fn is_hexadecimal_escape(text: &[u8]) -> bool
    ensures { result ≡ is_hexadecimal_escape text.now }
{
    text.starts_with(b"x") && are_digits(16, &text[1..])
}

/// Returns the value of an escape sequence that is neither octal nor hexadecimal.
fn other_escape(text: &[u8]) -> Option<u64>
    ensures { result ≡ other_escape text.now }
{
    match text {
        [c] => simple_escape(*c),
        _ => None,
    }
}

/// Returns the number of an escape sequence, by the text after the backslash.
fn escape(text: &[u8]) -> Option<u64>
    ensures { MatchOption result (IfSome (escape text.now) (λ n. 2 ^ 64 ≤ n)) (λ n. escape text.now ≡ Some n) }
{
    if is_octal_escape(text) {
        return number(8, text);
    }
    if is_hexadecimal_escape(text) {
        return number(16, &text[1..]);
    }
    other_escape(text)
}

/// Returns the number of a character constant, by the text between the quotes.
fn character(text: &[u8]) -> Option<u64>
    ensures { MatchOption result (IfSome (character text.now) (λ n. 2 ^ 64 ≤ n)) (λ n. character text.now ≡ Some n) }
{
    match text {
        [] => None,
        [b'\\', following @ ..] => escape(following),
        [c] => Some(u64::from(*c)),
        _ => None,
    }
}

/// Returns the constant of this type, by its spelling without the prefix.
fn of_type(greatest: u64, unsigned: bool, text: &[u8]) -> Option<Value>
    requires { greatest < 2 ^ 63 }
    ensures { result ≡ of_type greatest unsigned text.now }
{
    let body = unquoted(text)?;
    let number = character(body)?;
    if number > greatest {
        return None;
    }
    Some(if unsigned {
        Value::Unsigned(number)
    } else {
        Value::Signed(number as i64)
    })
}

/// Returns the value of a character constant with its type, if it has one.
pub(crate) fn character_of(text: &[u8]) -> Option<Value>
    ensures { result ≡ character_of text.now }
{
    match text {
        [b'u', rest @ ..] => of_type(65535, true, rest),
        [b'U', rest @ ..] => of_type(4294967295, true, rest),
        [b'L', rest @ ..] => of_type(4294967295, false, rest),
        _ => of_type(255, false, text),
    }
}
