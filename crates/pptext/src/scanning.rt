//! The lengths of bytes, universal character names and identifiers that begin a text.
ghost use Rattle.std.specs.Prelude.{◌≡◌, ◌↔◌, ◌⊎◌, [], ◌∷◌, ◌||◌, ◌<◌, ◌≤◌, length, take, slice_index, IsTrue};
ghost use Rattle.std.specs.List.{AllPass};
ghost use Rattle.pptext.specs.Languages.{Longest, Repeated, One, Either};
ghost use Rattle.pptext.specs.code.Scanning.{OnlyPart, LongestOrNone, is_ident_byte};
ghost use Rattle.pptext.specs.Lexemes.{BeginsWith};
ghost use Rattle.pptext.specs.code.FoundLexemes.{starts_identifier};
ghost use Rattle.pptext.specs.Spellings.{is_digit, is_hex, is_nondigit, is_blank, IsUniversal, IsNondigit, IsIdent};

pub(crate) mod continuing;
pub(crate) mod headers;
pub(crate) mod literals;
pub(crate) mod numbers;

/// Returns whether the byte is a digit.
fn is_digit(c: u8) -> bool
    ensures { result ≡ is_digit c }
{
    b'0' <= c && c <= b'9'
}

/// Returns whether the byte is a hexadecimal digit.
fn is_hex(c: u8) -> bool
    ensures { result ≡ is_hex c }
{
    is_digit(c) || b'A' <= c && c <= b'F' || b'a' <= c && c <= b'f'
}

/// Returns whether the byte is a letter, `_`, `$` or 128 or higher.
pub(crate) fn is_nondigit(c: u8) -> bool
    ensures { result ≡ is_nondigit c }
{
    b'A' <= c && c <= b'Z' || b'a' <= c && c <= b'z' || c == b'_' || c == b'$' || c >= 128
}

/// Returns whether n hexadecimal digits begin the text.
fn begins_with_hexes(text: &[u8], n: usize) -> bool
    ensures { IsTrue result ↔ (n ≤ length text.now) × AllPass is_hex (take n text.now) }
{
    n <= text.len() && text[..n].iter().all(|c| is_hex(*c))
}

/// Returns the number of digits that must follow the `\u` or `\U` that begins the text, or 0 if neither begins it.
fn universal_digits(text: &[u8]) -> usize
    ensures short { result ≡ 4 → BeginsWith text.now (92 ∷ 117 ∷ []) }
    ensures long { result ≡ 8 → BeginsWith text.now (92 ∷ 85 ∷ []) }
    ensures none { result ≡ 0 → (¬ BeginsWith text.now (92 ∷ 117 ∷ [])) × (¬ BeginsWith text.now (92 ∷ 85 ∷ [])) }
    ensures begins { 0 < result → 2 ≤ length text.now }
    ensures values { (result ≡ 0) ⊎ ((result ≡ 4) ⊎ (result ≡ 8)) }
{
    if text.len() < 2 || text[0] != b'\\' {
        return 0;
    }
    if text[1] == b'u' {
        4
    } else if text[1] == b'U' {
        8
    } else {
        0
    }
}

/// Returns the length of the universal character name that begins the text, or 0.
#[inline(never)]
fn universal_len(text: &[u8]) -> usize
    ensures { OnlyPart IsUniversal text.now result }
{
    let digits = universal_digits(text);
    if digits == 0 {
        return 0;
    }
    if !begins_with_hexes(&text[2..], digits) {
        return 0;
    }
    digits + 2
}

/// Returns the length of the nondigit that begins the text, or 0.
fn nondigit_len(text: &[u8]) -> usize
    ensures { OnlyPart IsNondigit text.now result }
{
    if text.is_empty() {
        return 0;
    }
    if is_nondigit(text[0]) {
        return 1;
    }
    universal_len(text)
}

/// For each byte, whether it is a nondigit but no letter of a literal's prefix.
static WORD_STARTS: [u8; 256] = *b"\
    00000000000000000000000000000000\
    00001000000000000000000000000000\
    01111111111101111111101111100001\
    01111111111111111111101111100000\
    11111111111111111111111111111111\
    11111111111111111111111111111111\
    11111111111111111111111111111111\
    11111111111111111111111111111111";

/// Returns whether the byte begins an identifier and can't begin a literal.
pub(crate) fn starts_identifier(c: u8) -> bool
    ensures { result ≡ starts_identifier c }
{
    WORD_STARTS[c as usize] == b'1'
}

/// For each byte, whether it is a nondigit or a digit. Looking it up is faster than computing it.
static IDENT_BYTES: [u8; 256] = *b"\
    00000000000000000000000000000000\
    00001000000000001111111111000000\
    01111111111111111111111111100001\
    01111111111111111111111111100000\
    11111111111111111111111111111111\
    11111111111111111111111111111111\
    11111111111111111111111111111111\
    11111111111111111111111111111111";

/// Returns whether the byte is a nondigit or a digit.
fn is_ident_byte(c: u8) -> bool
    ensures { result ≡ is_ident_byte c }
{
    IDENT_BYTES[c as usize] == b'1'
}

/// Returns the length of the nondigits and digits that begin the text.
#[inline(always)]
fn ident_rest_len(text: &[u8]) -> usize
    ensures fits { result ≤ length text.now }
    ensures longest { Longest (Repeated (Either IsNondigit (One is_digit))) text.now result }
{
    let mut at = 0;
    while at < text.len() {
        if is_ident_byte(text[at]) {
            at += 1;
            continue;
        }
        if text[at] != b'\\' {
            return at;
        }
        let n = universal_len(&text[at..]);
        if n == 0 {
            return at;
        }
        at += n;
    }
    at
}

/// Returns the length of the longest identifier that begins the text, whose first byte is a nondigit (6.4.2).
#[inline(always)]
pub(crate) fn word_len(text: &[u8]) -> usize
    requires some { 0 < length text.now }
    requires nondigit { IsTrue (is_nondigit (slice_index text.now 0)) }
    ensures some { 0 < result }
    ensures longest { Longest IsIdent text.now result }
{
    1 + ident_rest_len(&text[1..])
}

/// Returns the length of the longest identifier that begins the text (6.4.2), or 0.
pub(crate) fn ident_len(text: &[u8]) -> usize
    ensures { LongestOrNone IsIdent text.now result }
{
    let first = nondigit_len(text);
    if first == 0 {
        return 0;
    }
    first + ident_rest_len(&text[first..])
}

/// Returns whether the byte is white space other than new-line.
pub(crate) fn is_blank(c: u8) -> bool
    ensures { result ≡ is_blank c }
{
    c == b' ' || c == b'\t' || c == 11 || c == 12 || c == b'\r'
}
