//! The lexer: tokenizes a text, line by line (5.1.1.2, phase 3).
//!
//! It reads the text once. `fast_lexeme_at` finds a lexeme that its first byte decides: a new-line, white space, most
//! words and some punctuators. Most lexemes are of these kinds, so it is inlined into the loop. `slow_lexeme_at` and
//! `push_long_token` are not inlined, so the loop stays small.
//!
//! A header name depends on the tokens before it in its line (6.4.7). They are the tokens from `start` on, so no state
//! is kept for them. Consecutive blanks count as one lexeme, because tokens keep only whether white space precedes them.
//! The loop asks for the locations of tokens and new-lines alone. It also knows where the last line or comment ended,
//! so that most locations need no search for ends of lines.
ghost use Rattle.std.specs.Prelude.{◌≡◌, ◌≢◌, ◌↔◌, ◌+◌, ◌<◌, ◌≤◌, ℕ, List, [], ◌∷◌, ◌++◌, OnOk, length, take, drop, IsTrue, slice_index, None, IfOk, IfSome, IfNone, false};
ghost use Rattle.pptext.specs.declared.sources.Profile.{Profile};
ghost use Rattle.pptext.specs.Spellings.{is_blank};
ghost use Rattle.pptext.specs.Lexemes.{OpensBlock, OpensLine, CommentAt, ClosesAt};
ghost use Rattle.pptext.specs.Lines.{token_of, line_of};
ghost use Rattle.pptext.specs.code.Scanning.{KnowsUnmatched};
ghost use Rattle.pptext.specs.code.FoundLexemes.{spellings, FindsLexeme, TokenizesInto};
ghost use Rattle.pptext.specs.code.Grouping.{line_span};

use crate::cleaned_text::CleanedText;
use crate::directives::directive_of;
use crate::longest_token::token_at;
use crate::punctuators::begins_nothing_longer;
use crate::scanning::literals::UnmatchedQuotes;
use crate::scanning::{is_blank, starts_identifier, word_len};
use crate::sources::{Line, Profile};
use crate::tokens::{Kind, Place, Spelling, Token};
use crate::vectors::push;
use memchr::{memchr, memmem};
use std::alloc::AllocError;
use std::marker::Model;

/// The lexeme that begins a text, with its length in bytes, or a comment that isn't closed.
#[derive(Clone, Copy)]
pub enum LeadingLexeme {
    /// A new-line.
    NewLine,
    /// Consecutive blanks.
    Blank(usize),
    /// A comment.
    Comment(usize),
    /// A comment that isn't closed.
    Unclosed,
    /// A token of this kind.
    Token(Kind, usize),
}

/// The lexeme that begins a text. Contracts see its kind and its length.
#[derive(Drop)]
pub(crate) struct Found {
    /// The lexeme with its length.
    pub(crate) prefix: LeadingLexeme,
}

impl Model for Found {
    ghost use Rattle.std.specs.Prelude.{ℕ, Option, None, Some};
    ghost use Rattle.pptext.specs.Lexemes as definitions;
    ghost use Rattle.pptext.specs.declared.lexer.LeadingLexeme.TheVariants.{NewLine, Blank, Comment, Unclosed, Token};

    ghost Value = { Option (definitions.LexemeKind × ℕ) };

    ghost view = { λ f. elim f.prefix [
      | NewLine ↦ Some (definitions.NewLine, 1)
      | Blank n ↦ Some (definitions.Blank, n)
      | Comment n ↦ Some (definitions.Comment, n)
      | Unclosed ↦ None
      | Token k n ↦ Some (definitions.Spelled k, n)
    ] };
}

/// Returns whether a block comment begins the text.
fn opens_block(text: &[u8]) -> bool
    ensures { IsTrue result ↔ OpensBlock text.now }
{
    text.len() >= 2 && text[0] == b'/' && text[1] == b'*'
}

/// Returns whether a line comment begins the text.
fn opens_line(text: &[u8]) -> bool
    ensures { IsTrue result ↔ OpensLine text.now }
{
    text.len() >= 2 && text[0] == b'/' && text[1] == b'/'
}

/// Returns the length of the block comment that begins the text, up to the next `*/`, or None if it isn't closed.
fn block_len(text: &[u8]) -> Option<usize>
    requires { OpensBlock text.now }
    ensures none { IfNone result (ClosesAt text.now None) }
    ensures some { IfSome result (λ n. CommentAt text.now n) }
    ensures fits { IfSome result (λ n. (0 < n) × (n ≤ length text.now)) }
{
    if text.len() < 2 {
        return None;
    }
    match memmem::find(&text[2..], b"*/") {
        Some(k) => Some(k + 4),
        None => None,
    }
}

/// Returns the length of the line comment that begins the text, up to the new-line.
fn line_len(text: &[u8]) -> usize
    requires { OpensLine text.now }
    ensures comment { CommentAt text.now result }
    ensures fits { (0 < result) × (result ≤ length text.now) }
{
    match memchr(b'\n', text) {
        Some(n) => n,
        None => text.len(),
    }
}

/// Returns the number of blanks that begin the text.
fn blank_len(text: &[u8]) -> usize
    ensures fits { result ≤ length text.now }
    ensures blank { (k : ℕ) → k < result → IsTrue (is_blank (slice_index text.now k)) }
    ensures longest { 0 < length text.now → IsTrue (is_blank (slice_index text.now 0)) → 0 < result }
{
    for (i, c) in text.iter().enumerate() {
        if !is_blank(*c) {
            return i;
        }
    }
    text.len()
}

/// Returns the lexeme that begins a text, after these tokens of its line. This is the slow path, for a text that begins
/// with neither a new-line nor a blank.
#[inline(never)]
fn slow_lexeme_at(
    text: &[u8],
    line: &[Token],
    unmatched: &mut UnmatchedQuotes,
    profile: Profile,
) -> Found
    requires some { 0 < length text.now }
    requires no_newline { slice_index text.now 0 ≢ 10 }
    requires no_blank { is_blank (slice_index text.now 0) ≡ false }
    requires unmatched { KnowsUnmatched text.now unmatched.old.single unmatched.old.double }
    ensures finds { FindsLexeme profile (spellings line.now) text.now result }
    ensures unmatched { KnowsUnmatched text.now unmatched.new.single unmatched.new.double }
{
    if opens_block(text) {
        let Some(n) = block_len(text) else {
            return Found {
                prefix: LeadingLexeme::Unclosed,
            };
        };
        return Found {
            prefix: LeadingLexeme::Comment(n),
        };
    }
    if opens_line(text) {
        return Found {
            prefix: LeadingLexeme::Comment(line_len(text)),
        };
    }
    let (kind, n) = token_at(text, line, unmatched, profile);
    Found {
        prefix: LeadingLexeme::Token(kind, n),
    }
}

/// Returns the lexeme that begins the text if its first byte decides it, whatever is before it. This is the fast path:
/// most lexemes are of this kind.
#[inline(always)]
fn fast_lexeme_at(text: &[u8]) -> Option<Found>
    requires { 0 < length text.now }
    ensures some { IfSome result (λ f. (profile : Profile) (line : List (List ℕ)) → FindsLexeme profile line text.now f) }
    ensures no_newline { IfNone result (slice_index text.now 0 ≢ 10) }
    ensures no_blank { IfNone result (is_blank (slice_index text.now 0) ≡ false) }
{
    let first = text[0];
    if first == b'\n' {
        return Some(Found {
            prefix: LeadingLexeme::NewLine,
        });
    }
    if is_blank(first) {
        return Some(Found {
            prefix: LeadingLexeme::Blank(blank_len(text)),
        });
    }
    if begins_nothing_longer(first) {
        return Some(Found {
            prefix: LeadingLexeme::Token(Kind::Punct, 1),
        });
    }
    if starts_identifier(first) {
        return Some(Found {
            prefix: LeadingLexeme::Token(Kind::Ident, word_len(text)),
        });
    }
    None
}

/// Returns the lexeme that begins the text, after the tokens of its line, which are those from `start` on. `unmatched` holds
/// what is known of unmatched quotes.
#[inline(always)]
fn lexeme_at(
    text: &[u8],
    tokens: &[Token],
    start: usize,
    unmatched: &mut UnmatchedQuotes,
    profile: Profile,
) -> Found
    requires some { 0 < length text.now }
    requires start { start ≤ length tokens.now }
    requires unmatched { KnowsUnmatched text.now unmatched.old.single unmatched.old.double }
    ensures finds { FindsLexeme profile (spellings (drop start tokens.now)) text.now result }
    ensures unmatched { KnowsUnmatched text.now unmatched.new.single unmatched.new.double }
{
    match fast_lexeme_at(text) {
        Some(found) => found,
        None => slow_lexeme_at(text, &tokens[start..], unmatched, profile),
    }
}

/// Returns the lexeme that begins the text, after these tokens of its line.
pub(crate) fn next_lexeme(text: &[u8], line: &[Token], profile: Profile) -> Found
    requires { 0 < length text.now }
    ensures { FindsLexeme profile (spellings line.now) text.now result }
{
    let mut unmatched = UnmatchedQuotes::unknown(text.len());
    lexeme_at(text, line, 0, &mut unmatched, profile)
}

/// Appends the token that the first n bytes of the text spell.
#[inline(always)]
fn push_token(
    text: &[u8],
    tokens: &mut Vec<Token>,
    n: usize,
    kind: Kind,
    space: bool,
    place: Place,
) -> Result<(), AllocError>
    requires { n ≤ length text.now }
    ensures { OnOk result (tokens.new.items ≡ tokens.old.items ++ record { text = take n text.now; at = place; used = place; kind = kind; space = space } ∷ []) }
{
    match Spelling::prefix_in_place(text, n) {
        Some(text) => push(
            tokens,
            Token {
                kind,
                text,
                space,
                at: place,
                used: place,
            },
        ),
        None => push_long_token(text, tokens, n, kind, space, place),
    }
}

/// Appends the token that the first n bytes of the text spell, if it is long or near the end of the text. Such tokens
/// are rare.
#[inline(never)]
fn push_long_token(
    text: &[u8],
    tokens: &mut Vec<Token>,
    n: usize,
    kind: Kind,
    space: bool,
    place: Place,
) -> Result<(), AllocError>
    requires { n ≤ length text.now }
    ensures { OnOk result (tokens.new.items ≡ tokens.old.items ++ record { text = take n text.now; at = place; used = place; kind = kind; space = space } ∷ []) }
{
    let text = Spelling::prefix(*tokens.allocator(), text, n)?;
    tokens.push(Token {
        kind,
        text,
        space,
        at: place,
        used: place,
    })?;
    Ok(())
}

/// Returns the line of the tokens from `start` on, without its next branch line.
fn unlinked_line(profile: Profile, tokens: &[Token], start: usize, number: u32) -> Line
    requires { start ≤ length tokens.now }
    ensures { result ≡ line_span start (line_of profile (drop start tokens.now) number) }
{
    Line {
        start,
        end: tokens.len(),
        number,
        directive: directive_of(profile, &tokens[start..]),
        next_branch: None,
    }
}

/// Tokenizes a text into lines, without their next branch lines, or returns the location of a comment that isn't
/// closed.
pub(crate) fn tokenize_lines(
    text: &CleanedText<'_>,
    tokens: &mut Vec<Token>,
    lines: &mut Vec<Line>,
    profile: Profile,
) -> Result<Result<(), Place>, AllocError>
    requires no_tokens { tokens.old.items ≡ [] }
    requires no_lines { lines.old.items ≡ [] }
    ensures { IfOk result (TokenizesInto profile text.now tokens.new.items lines.new.items) }
{
    let (mut at, mut start, mut space) = (0, 0, true);
    // The index after the last new-line or comment. No line ends between it and this lexeme.
    let mut line = 0;
    let codes = text.codes();
    let mut places = text.places();
    let mut unmatched = UnmatchedQuotes::unknown(codes.len());
    while at < codes.len() {
        let found = lexeme_at(&codes[at..], tokens, start, &mut unmatched, profile);
        match found.prefix {
            LeadingLexeme::NewLine => {
                let number = places.place(at, line).line;
                lines.push(unlinked_line(profile, tokens, start, number))?;
                start = tokens.len();
                at += 1;
                space = true;
                line = at;
            }
            LeadingLexeme::Blank(n) => {
                at += n;
                space = true;
            }
            LeadingLexeme::Comment(n) => {
                at += n;
                space = true;
                line = at;
            }
            LeadingLexeme::Unclosed => return Ok(Err(places.place(at, line))),
            LeadingLexeme::Token(kind, n) => {
                let place = places.place(at, line);
                push_token(&codes[at..], tokens, n, kind, space, place)?;
                at += n;
                space = false;
            }
        }
    }
    // No token is lost, because a text ends in a new-line after phase 2 (5.1.1.2).
    tokens.truncate(start);
    Ok(Ok(()))
}
