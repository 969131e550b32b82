//! Character constants (6.4.4.4) and string literals (6.4.5).
//!
//! A quote that isn't closed in its line is unmatched (6.4p3) and opens no literal. To see that, the search reads to
//! the end of the line. A line of n such quotes would be read n times. So a search that fails returns how far it has
//! read (`QuoteScan`): no quote of the same kind in that range is closed either. `UnmatchedQuotes` has these ranges, and
//! the next searches skip them.
//!
//! The two kinds are apart because their prefixes differ, and because a character constant has at least one element.
ghost use Rattle.std.specs.Prelude.{◌≡◌, ◌≢◌, ◌↔◌, ◌⊎◌, ◌+◌, ◌-◌, ◌<◌, ◌≤◌, ℕ, [], ◌∷◌, length, drop, IsTrue, slice_index, Contains};
ghost use Rattle.pptext.specs.Languages.{Then, Exactly};
ghost use Rattle.pptext.specs.code.Scanning.{OnlyPart, NoPrefix, IsOnly, IsQuoted, AreUnmatched, StaysOpen};
ghost use Rattle.pptext.specs.Spellings.{IsElement, IsCharConst, IsStr, char_prefixes, str_prefixes};

/// How far the quotes of each kind are known to be unmatched, that is, not closed in their line. Each number counts the
/// bytes of the text after that range, so it stays valid as the text is read. Without this, a line of n unmatched
/// quotes would be searched n times.
#[derive(Clone, Copy)]
pub(crate) struct UnmatchedQuotes {
    /// The number of bytes after the range of single quotes.
    pub(crate) single: usize,
    /// The number of bytes after the range of double quotes.
    pub(crate) double: usize,
}

impl UnmatchedQuotes {
    /// Creates the record for a text of `len` bytes of whose quotes nothing is known.
    pub(crate) fn unknown(len: usize) -> UnmatchedQuotes
        ensures { result ≡ record { single = len; double = len } }
    {
        UnmatchedQuotes {
            single: len,
            double: len,
        }
    }
}

/// What follows an opening quote.
#[derive(Clone, Copy)]
pub(crate) enum QuoteScan {
    /// The number of bytes up to and including the closing quote.
    Closed(usize),
    /// No closing quote in this line. The quotes among the first bytes, of which this is the number, aren't closed
    /// either.
    Unmatched(usize),
}

/// Returns whether the byte is a prefix of one letter: u, U or L.
fn is_prefix(c: u8) -> bool
    ensures { IsTrue result ↔ (c ≡ 117) ⊎ ((c ≡ 85) ⊎ (c ≡ 76)) }
{
    c == b'u' || c == b'U' || c == b'L'
}

/// Returns whether the byte may begin a literal: a quote, or the letter of a prefix.
pub(crate) fn may_open_literal(c: u8) -> bool
    ensures { IsTrue result ↔ (c ≡ 39) ⊎ ((c ≡ 34) ⊎ ((c ≡ 117) ⊎ ((c ≡ 85) ⊎ (c ≡ 76)))) }
{
    c == b'\'' || c == b'"' || is_prefix(c)
}

/// Returns the length of the prefix and quote that open a character constant, or 0.
fn char_opening_len(text: &[u8]) -> usize
    ensures { OnlyPart (Then (Contains char_prefixes) (Exactly (39 ∷ []))) text.now result }
{
    if text.is_empty() {
        return 0;
    }
    if text[0] == b'\'' {
        return 1;
    }
    if !is_prefix(text[0]) {
        return 0;
    }
    if text.len() < 2 {
        return 0;
    }
    if text[1] == b'\'' {
        return 2;
    }
    0
}

/// Returns the length of the prefix and quote that open a string literal, or 0.
fn str_opening_len(text: &[u8]) -> usize
    ensures { OnlyPart (Then (Contains str_prefixes) (Exactly (34 ∷ []))) text.now result }
{
    if text.is_empty() {
        return 0;
    }
    if text[0] == b'"' {
        return 1;
    }
    if !is_prefix(text[0]) {
        return 0;
    }
    if text.len() < 2 {
        return 0;
    }
    if text[1] == b'"' {
        return 2;
    }
    if opens_u8(text) {
        return 3;
    }
    0
}

/// Returns whether `u8` and a quote open the text.
fn opens_u8(text: &[u8]) -> bool
    ensures { IsTrue result
        ↔ (3 ≤ length text.now)
        × (slice_index text.now 0 ≡ 117)
        × (slice_index text.now 1 ≡ 56)
        × (slice_index text.now 2 ≡ 34) }
{
    text.len() >= 3 && text[0] == b'u' && text[1] == b'8' && text[2] == b'"'
}

/// Returns the length of the element that begins the text between quotes of this kind, or 0.
fn element_len(text: &[u8], quote: u8) -> usize
    requires { quote ≢ 92 }
    ensures { OnlyPart (IsElement quote) text.now result }
{
    if text.is_empty() {
        return 0;
    }
    if text[0] == quote {
        return 0;
    }
    if text[0] == b'\n' {
        return 0;
    }
    if text[0] != b'\\' {
        return 1;
    }
    if text.len() < 2 {
        return 0;
    }
    if text[1] == b'\n' {
        return 0;
    }
    2
}

/// Returns what follows an opening quote: its elements (6.4.4.4, 6.4.5) up to the closing quote.
fn quoted_rest(text: &[u8], quote: u8) -> QuoteScan
    requires { quote ≢ 92 }
    ensures { elim result [ QuoteScan.Closed n ↦ IsOnly (IsQuoted quote) text.now n | QuoteScan.Unmatched n ↦ StaysOpen quote text.now n ] }
{
    let mut at = 0;
    while at < text.len() {
        if text[at] == quote {
            return QuoteScan::Closed(at + 1);
        }
        let n = element_len(&text[at..], quote);
        if n == 0 {
            return QuoteScan::Unmatched(at);
        }
        at += n;
    }
    QuoteScan::Unmatched(at)
}

/// Returns the length of the literal whose opening has this length, or 0 if no quote closes it. The quotes of its kind
/// are known to be unmatched, except in the last `unknown_len` bytes.
fn literal_len(text: &[u8], opening: usize, quote: u8, unknown_len: &mut usize) -> usize
    requires some { 0 < opening }
    requires fits { opening ≤ length text.now }
    requires last { slice_index text.now (opening - 1) ≡ quote }
    requires first { (r : ℕ) → r + 1 < opening → slice_index text.now r ≢ quote }
    requires no_backslash { quote ≢ 92 }
    requires unmatched { AreUnmatched quote text.now (length text.now - unknown_len.old) }
    ensures none { result ≡ 0 → NoPrefix (IsQuoted quote) (drop opening text.now) }
    ensures some { 0 < result → (opening < result) × IsOnly (IsQuoted quote) (drop opening text.now) (result - opening) }
    ensures unmatched { AreUnmatched quote text.now (length text.now - unknown_len.new) }
{
    if *unknown_len <= text.len() - opening {
        return 0;
    }
    match quoted_rest(&text[opening..], quote) {
        QuoteScan::Closed(n) => opening + n,
        QuoteScan::Unmatched(n) => {
            *unknown_len = text.len() - opening - n;
            0
        }
    }
}

/// Returns whether this byte begins the text.
fn begins_with_byte(text: &[u8], c: u8) -> bool
    ensures { IsTrue result ↔ (0 < length text.now) × (slice_index text.now 0 ≡ c) }
{
    !text.is_empty() && text[0] == c
}

/// Returns the length of the character constant that begins the text, or 0. Single quotes are known to be unmatched, except
/// in the last `unknown_len` bytes.
pub(crate) fn char_const_len(text: &[u8], unknown_len: &mut usize) -> usize
    requires { AreUnmatched 39 text.now (length text.now - unknown_len.old) }
    ensures part { OnlyPart IsCharConst text.now result }
    ensures unmatched { AreUnmatched 39 text.now (length text.now - unknown_len.new) }
{
    let opening = char_opening_len(text);
    if opening == 0 {
        return 0;
    }
    if begins_with_byte(&text[opening..], b'\'') {
        return 0;
    }
    literal_len(text, opening, b'\'', unknown_len)
}

/// Returns the length of the string literal that begins the text, or 0. Double quotes are known to be unmatched, except in
/// the last `unknown_len` bytes.
pub(crate) fn str_len(text: &[u8], unknown_len: &mut usize) -> usize
    requires { AreUnmatched 34 text.now (length text.now - unknown_len.old) }
    ensures part { OnlyPart IsStr text.now result }
    ensures unmatched { AreUnmatched 34 text.now (length text.now - unknown_len.new) }
{
    let opening = str_opening_len(text);
    if opening == 0 {
        return 0;
    }
    literal_len(text, opening, b'"', unknown_len)
}
