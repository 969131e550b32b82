//! The token that begins a text: the longest that the grammar of some kind allows (6.4).
ghost use Rattle.std.specs.Prelude.{◌≡◌, ◌≢◌, ◌↔◌, ◌<◌, ◌≤◌, ℕ, length, take, IsTrue, IfNone, IfSome, slice_index, false};
ghost use Rattle.pptext.specs.Languages.{Longest};
ghost use Rattle.pptext.specs.code.Scanning.{NoPrefix, KnowsUnmatched};
ghost use Rattle.pptext.specs.Spellings.{IsCharConst, IsSpelling, IsStr, Spells, is_blank};
ghost use Rattle.pptext.specs.Lexemes.{OpensBlock, OpensLine, takes_header, AwaitsHeader, HeaderAt, IsLexemeAt, Spelled};
ghost use Rattle.pptext.specs.code.FoundLexemes.{spellings};

use crate::directives::is_hash;
use crate::punctuators::punct_len;
use crate::scanning::headers::header_len;
use crate::scanning::ident_len;
use crate::scanning::literals::{UnmatchedQuotes, char_const_len, may_open_literal, str_len};
use crate::scanning::numbers::number_len;
use crate::sources::Profile;
use crate::tokens::{Kind, Token, is_spelled};

/// Returns whether a header name may follow this directive's name: `include` (6.10.2), and in GNU C `include_next`.
fn takes_header(profile: Profile, name: &[u8]) -> bool
    ensures { result ≡ takes_header profile name.now }
{
    is_spelled(name, b"include") || (profile.is_gnu() && is_spelled(name, b"include_next"))
}

/// Returns whether a header name may follow these tokens of a line (6.4.7).
fn awaits_header(profile: Profile, line: &[Token]) -> bool
    ensures { IsTrue result ↔ AwaitsHeader profile (spellings line.now) }
{
    if line.len() != 2 {
        return false;
    }
    if !is_hash(line[0].text.as_bytes()) {
        return false;
    }
    takes_header(profile, line[1].text.as_bytes())
}

/// Returns the length of the header name that begins the text, after these tokens of its line, or 0.
fn header_at(text: &[u8], line: &[Token], profile: Profile) -> usize
    ensures none { result ≡ 0 → (m : ℕ) → ¬ HeaderAt profile (spellings line.now) text.now m }
    ensures some { 0 < result → HeaderAt profile (spellings line.now) text.now result }
{
    if !awaits_header(profile, line) {
        return 0;
    }
    header_len(text)
}

/// Returns the kind and length of the literal that begins the text. Usually the first byte shows that there is none.
fn literal_at(text: &[u8], unmatched: &mut UnmatchedQuotes) -> Option<(Kind, usize)>
    requires some { 0 < length text.now }
    requires unmatched { KnowsUnmatched text.now unmatched.old.single unmatched.old.double }
    ensures none { IfNone result ((NoPrefix IsCharConst text.now) × (NoPrefix IsStr text.now)) }
    ensures some { IfSome result (λ p. 0 < p.1) }
    ensures longest { IfSome result (λ p. Longest IsSpelling text.now p.1) }
    ensures spelled { IfSome result (λ p. Spells p.0 (take p.1 text.now)) }
    ensures unmatched { KnowsUnmatched text.now unmatched.new.single unmatched.new.double }
{
    if !may_open_literal(text[0]) {
        return None;
    }
    let char_const = char_const_len(text, &mut unmatched.single);
    if char_const > 0 {
        return Some((Kind::CharConst, char_const));
    }
    let string = str_len(text, &mut unmatched.double);
    if string > 0 {
        return Some((Kind::Str, string));
    }
    None
}

/// Returns the kind and length of the token that begins the text where no header name is allowed. If two kinds match,
/// the longer token is tried first: a literal before the identifier that its prefix is and before an unmatched quote, an
/// identifier before the backslash of its universal character name (6.4.3), and a number before its period. So the first
/// kind that matches gives the longest token.
fn plain_token_at(text: &[u8], unmatched: &mut UnmatchedQuotes) -> (Kind, usize)
    requires some { 0 < length text.now }
    requires no_newline { slice_index text.now 0 ≢ 10 }
    requires no_blank { is_blank (slice_index text.now 0) ≡ false }
    requires unmatched { KnowsUnmatched text.now unmatched.old.single unmatched.old.double }
    ensures some { 0 < result.1 }
    ensures longest { Longest IsSpelling text.now result.1 }
    ensures spelled { Spells result.0 (take result.1 text.now) }
    ensures unmatched { KnowsUnmatched text.now unmatched.new.single unmatched.new.double }
{
    if let Some(literal) = literal_at(text, unmatched) {
        return literal;
    }
    let ident = ident_len(text);
    if ident > 0 {
        return (Kind::Ident, ident);
    }
    let number = number_len(text);
    if number > 0 {
        return (Kind::Number, number);
    }
    let punct = punct_len(text);
    if punct > 0 {
        return (Kind::Punct, punct);
    }
    (Kind::Other, 1)
}

/// Returns the kind and length of the token that begins the text, after these tokens of its line. `unmatched` holds what is
/// known of unmatched quotes.
pub(crate) fn token_at(
    text: &[u8],
    line: &[Token],
    unmatched: &mut UnmatchedQuotes,
    profile: Profile,
) -> (Kind, usize)
    requires some { 0 < length text.now }
    requires no_newline { slice_index text.now 0 ≢ 10 }
    requires no_blank { is_blank (slice_index text.now 0) ≡ false }
    requires no_block { ¬ OpensBlock text.now }
    requires no_line { ¬ OpensLine text.now }
    requires unmatched { KnowsUnmatched text.now unmatched.old.single unmatched.old.double }
    ensures fits { (0 < result.1) × (result.1 ≤ length text.now) }
    ensures is_there { IsLexemeAt profile (spellings line.now) text.now result.1 (Spelled result.0) }
    ensures unmatched { KnowsUnmatched text.now unmatched.new.single unmatched.new.double }
{
    let header = header_at(text, line, profile);
    if header > 0 {
        return (Kind::Header, header);
    }
    plain_token_at(text, unmatched)
}
