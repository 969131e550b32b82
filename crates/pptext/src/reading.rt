//! The entry points: read a file, and read a text as one token.
ghost use Rattle.std.specs.Prelude.{◌≡◌, ◌↔◌, ◌<◌, ◌≤◌, ℕ, List, [], length, IsTrue, IfSome, IfNone};
ghost use Rattle.pptext.specs.declared.sources.Profile.TheVariants.{C11};
ghost use Rattle.pptext.specs.code.FoundLexemes.{FindsLexeme, found_lexeme};
ghost use Rattle.pptext.specs.Clean.{longest};
ghost use Rattle.pptext.specs.declared.tokens.Kind.{Kind};
ghost use Rattle.pptext.specs.Errors.{UnlessOutOfMemory};
ghost use Rattle.pptext.specs.Guard.{GuardedBy};
ghost use Rattle.pptext.specs.Lines.{AreDirected};
ghost use Rattle.pptext.specs.Sources.{Reads, line_tokens, spans, IsOneToken, IsUnmatchedQuote};

use crate::cleaning::clean_text;
use crate::error::Error;
use crate::grouping::group_lines;
use crate::lexer::{LeadingLexeme, next_lexeme, tokenize_lines};
use crate::sources::{Line, Profile, Source};
use crate::tokens::{Kind, Token};
use std::alloc::Global;

impl Source {
    /// Returns the tokens of all lines, in order.
    pub fn tokens(&self) -> &[Token]
        ensures { result.now ≡ line_tokens self.now }
    {
        self.tokens.as_slice()
    }

    /// Returns the lines, in order, as spans of the tokens. The directive of each is that of its tokens.
    pub fn lines(&self) -> &[Line]
        ensures spans { result.now ≡ spans 0 0 self.now }
        ensures directed { AreDirected self.now }
    {
        self.lines.as_slice()
    }
}

/// Reads a file of at most `LONGEST` bytes: its lines of preprocessing tokens after translation phases 1 to 3 (5.1.1.2,
/// 6.4), and its groups (6.10), with the directives of this profile. Locations have this file number, and the line and
/// byte, both from 1, at which the file spells the character. A byte order mark doesn't count.
///
/// # Errors
///
/// `Fault` with the first fault of the file:
/// - 2, at the `\` of a last line that ends in one; otherwise
/// - 1, at the opening of a comment that isn't closed; otherwise the first of
/// - 3, a branch (such as `#elif` or `#else`) or an `#endif` outside an if-section, and
/// - 4, a branch after the `#else` of its if-section; otherwise
/// - 5, at the innermost if-section that isn't closed.
///
/// Faults 3, 4 and 5 are located at the line's `#`, and have the directive's name. Faults 1 and 2 have no text.
///
/// `Memory` if an allocation fails.
pub fn read_source(
    alloc: Global,
    bytes: &[u8],
    file: u32,
    profile: Profile,
) -> Result<Source, Error>
    requires { length bytes.now ≤ longest }
    ensures { UnlessOutOfMemory result (Reads profile file bytes.now) }
{
    let text = match clean_text(alloc, bytes, file, profile)? {
        Ok(text) => text,
        Err(place) => return Err(Error::bare(alloc, 2, place)),
    };
    // Capacity for about as many as ordinary C has, so that the vectors are seldom moved.
    let mut tokens = Vec::with_capacity(alloc, bytes.len() / 5)?;
    let mut lines = Vec::with_capacity(alloc, bytes.len() / 20)?;
    if let Err(place) = tokenize_lines(&text, &mut tokens, &mut lines, profile)? {
        return Err(Error::bare(alloc, 1, place));
    }
    drop(text);
    // A vector that grew has up to twice the capacity that it needs, and these live as long as the file.
    tokens.shrink_to_fit();
    lines.shrink_to_fit();
    group_lines(alloc, tokens, lines)
}

impl Source {
    /// Returns X if the whole file is one if-section of `#ifndef X`, `#if !defined X` or `#if !defined ( X )` without
    /// other branches, and no line outside it has a token.
    pub fn guard(&self) -> Option<&[u8]>
        ensures none { IfNone result ((x : List ℕ) → ¬ GuardedBy self.now x) }
        ensures some { IfSome result (λ x. GuardedBy self.now x.now) }
    {
        match self.guard {
            Some(i) => Some(self.tokens[i].text.as_bytes()),
            None => None,
        }
    }
}

/// Returns whether the text is `'` or `"` alone.
fn is_unmatched_quote(text: &[u8]) -> bool
    ensures { IsTrue result ↔ IsUnmatchedQuote text.now }
{
    text.len() == 1 && (text[0] == b'\'' || text[0] == b'"')
}

/// Returns the kind of the one preprocessing token (6.4) that the whole text is outside an include line. Returns None
/// if the text is no token, more than one, white space, a comment, or an unmatched quote (6.4p3). Allocates nothing.
#[tactic(auto, using(crate::proofs::SingleTokens::finds_token))]
pub fn relex(text: &[u8]) -> Option<Kind>
    ensures none { IfNone result ((k : Kind) → IsOneToken text.now k → IsUnmatchedQuote text.now) }
    ensures some { IfSome result (λ k. IsOneToken text.now k × (¬ IsUnmatchedQuote text.now)) }
{
    if text.is_empty() {
        return None;
    }
    if is_unmatched_quote(text) {
        return None;
    }
    let found = next_lexeme(text, &[], Profile::C11);
    let LeadingLexeme::Token(kind, n) = found.prefix else {
        return None;
    };
    if n != text.len() {
        return None;
    }
    Some(kind)
}

/// Returns the lexeme that begins a text that no header name begins. Consecutive blanks count as one. Allocates nothing.
pub fn leading_lexeme(text: &[u8]) -> LeadingLexeme
    requires { 0 < length text.now }
    ensures { FindsLexeme C11 [] text.now (found_lexeme result) }
{
    next_lexeme(text, &[], Profile::C11).prefix
}
