//! Punctuators (6.4.6).
ghost use Rattle.std.specs.Prelude.{◌≡◌, ◌↔◌, ◌≤◌, length, take, IsTrue, [], ◌∷◌};
ghost use Rattle.pptext.specs.Spellings.{is_punctuator};
ghost use Rattle.pptext.specs.code.Scanning.{is_punct1, is_punct2, is_punct3, LongestOrNone};
ghost use Rattle.pptext.specs.code.FoundLexemes.{begins_nothing_longer};

/// Returns whether the byte is a punctuator by itself.
fn is_punct1(c: u8) -> bool
    ensures { result ≡ is_punct1 c }
{
    matches!(
        c,
        b'[' | b']'
            | b'('
            | b')'
            | b'{'
            | b'}'
            | b'.'
            | b'&'
            | b'*'
            | b'+'
            | b'-'
            | b'~'
            | b'!'
            | b'/'
            | b'%'
            | b'<'
            | b'>'
            | b'^'
            | b'|'
            | b'?'
            | b':'
            | b';'
            | b'='
            | b','
            | b'#'
    )
}

/// Returns whether the byte is a punctuator by itself, and begins no longer token and no header name.
pub(crate) fn begins_nothing_longer(c: u8) -> bool
    ensures is { result ≡ begins_nothing_longer c }
    ensures punct { IsTrue result → IsTrue (is_punct1 c) }
{
    matches!(c, b'(' | b')' | b',' | b';' | b'[' | b']' | b'{' | b'}')
}

/// Returns whether the two bytes are a punctuator.
fn is_punct2(a: u8, b: u8) -> bool
    ensures { result ≡ is_punct2 a b }
{
    match a {
        b'-' => b == b'>' || b == b'-' || b == b'=',
        b'+' => b == b'+' || b == b'=',
        b'<' => b == b'<' || b == b'=' || b == b':' || b == b'%',
        b'>' => b == b'>' || b == b'=',
        b'&' => b == b'&' || b == b'=',
        b'|' => b == b'|' || b == b'=',
        b'=' | b'!' | b'*' | b'/' | b'^' => b == b'=',
        b'%' => b == b'=' || b == b'>' || b == b':',
        b'#' => b == b'#',
        b':' => b == b'>',
        _ => false,
    }
}

/// Returns whether the three bytes are a punctuator.
fn is_punct3(a: u8, b: u8, c: u8) -> bool
    ensures { result ≡ is_punct3 a b c }
{
    match a {
        b'.' => b == b'.' && c == b'.',
        b'<' => b == b'<' && c == b'=',
        b'>' => b == b'>' && c == b'=',
        _ => false,
    }
}

/// Returns whether the four bytes are a punctuator.
fn is_punct4(a: u8, b: u8, c: u8, d: u8) -> bool
    ensures { result ≡ is_punctuator (a ∷ b ∷ c ∷ d ∷ []) }
{
    a == b'%' && b == b':' && c == b'%' && d == b':'
}

/// Returns whether a punctuator of n bytes begins the text.
fn begins_with_punct(text: &[u8], n: usize) -> bool
    requires { n ≤ 4 }
    ensures { IsTrue result ↔ (n ≤ length text.now) × IsTrue (is_punctuator (take n text.now)) }
{
    if n > text.len() {
        return false;
    }
    match &text[..n] {
        [a] => is_punct1(*a),
        [a, b] => is_punct2(*a, *b),
        [a, b, c] => is_punct3(*a, *b, *c),
        [a, b, c, d] => is_punct4(*a, *b, *c, *d),
        _ => false,
    }
}

/// Returns the length of the longest punctuator that begins the text, or 0.
pub(crate) fn punct_len(text: &[u8]) -> usize
    ensures { LongestOrNone (λ s. IsTrue (is_punctuator s)) text.now result }
{
    if begins_with_punct(text, 4) {
        4
    } else if begins_with_punct(text, 3) {
        3
    } else if begins_with_punct(text, 2) {
        2
    } else if begins_with_punct(text, 1) {
        1
    } else {
        0
    }
}
