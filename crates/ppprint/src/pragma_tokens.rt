//! The tokens of a pragma that an operator makes (6.10.9).
ghost use Rattle.std.specs.Prelude.{◌≡◌, ◌+◌, ◌-◌, ◌<◌, ◌≤◌, ◌++◌, ◌∷◌, [], Some, None, true, false, IfSome, IfNone, length, take, drop, is_some, option_map, if◌then◌else◌};
ghost use Rattle.pptext.specs.Kinds.{unmatched_quote_test};
ghost use Rattle.pptext.specs.Lexemes.{Spelled};
ghost use Rattle.pptext.specs.code.FoundLexemes.{FindsLexeme};
ghost use Rattle.pptext.specs.declared.sources.Profile.TheVariants.{C11};
ghost use Rattle.ppprint.specs.Operators.{after_quote, destringized, is_escape, is_own, longest_literal, pragma_token_of, tokens_after, unescaped};
ghost use Rattle.ppprint.specs.code.PragmaText.{HasFront, length_left, printed_pragma_token, tokens_left, with_pragma_token};

use crate::operators::Operator;
use crate::pragma_line::is_own_pragma;
use pptext::{Kind, LeadingLexeme, leading_lexeme};
use std::marker::Model;

/// The capacity for the text of an operator's literal.
const CAPACITY: usize = 4096;

/// A token of a pragma.
#[derive(Clone, Copy)]
pub struct TextPragmaToken<'t> {
    pub kind: Kind,
    pub text: &'t [u8],
    /// Whether white space precedes the token.
    pub space: bool,
}

/// The text of an operator's literal, without its prefix, its quotes and its escapes. Contracts see the text.
#[derive(Drop)]
pub struct OperatorText {
    bytes: [u8; CAPACITY],
    len: usize,
}

impl Model for OperatorText {
    ghost use Rattle.std.specs.Prelude.{ℕ, List, ◌≤◌, take};

    ghost Value = { List ℕ };

    ghost view = { λ t. take t.len t.bytes };

    ghost invariant = { λ t. t.len ≤ 4096 };
}

impl OperatorText {
    /// Copies the text of an operator's literal.
    pub fn new(operator: &Operator) -> OperatorText
        requires { length operator.now.literal.text.now ≤ longest_literal }
        ensures { result ≡ destringized operator.now.literal.text.now }
    {
        let inner = inner(operator.literal.text.as_bytes());
        let mut text = OperatorText {
            bytes: [0; CAPACITY],
            len: 0,
        };
        text.fill(inner);
        text
    }

    /// Appends text without its escapes.
    fn fill(&mut self, inner: &[u8])
        requires { length self.old + length inner.now ≤ 4096 }
        ensures { self.new ≡ self.old ++ unescaped inner.now }
    {
        let mut rest = inner;
        while let Some((first, others)) = split_unescaped(rest) {
            self.push(first);
            rest = others;
        }
    }

    /// Appends a byte.
    fn push(&mut self, byte: u8)
        requires { length self.old < 4096 }
        ensures { self.new ≡ self.old ++ byte ∷ [] }
    {
        if self.len < CAPACITY {
            self.bytes[self.len] = byte;
            self.len += 1;
        }
    }

    /// Returns the tokens.
    pub fn tokens(&self) -> PragmaTokens<'_>
        ensures left { tokens_left result ≡ tokens_after 0 true self.now }
        ensures length { length_left result ≡ length self.now }
    {
        PragmaTokens {
            rest: &self.bytes[..self.len],
            space: true,
            is_broken: false,
        }
    }

    /// Returns whether the text is that of a pragma: it has no open comment and no unmatched quote.
    pub fn is_pragma(&self) -> bool
        ensures { result ≡ is_some (tokens_after 0 true self.now) }
    {
        let mut tokens = self.tokens();
        while tokens.next().is_some() {}
        !tokens.is_broken
    }

    /// Returns whether the pragma is for the preprocessor alone, if it is one.
    pub fn is_own(&self) -> bool
        ensures { IfSome (tokens_after 0 true self.now) (λ tokens. result ≡ is_own tokens) }
    {
        let mut tokens = self.tokens();
        let first = spelling(tokens.next());
        let second = spelling(tokens.next());
        is_own_pragma(first, second)
    }
}

/// Returns the spelling of a token.
fn spelling<'t>(token: Option<TextPragmaToken<'t>>) -> Option<&'t [u8]>
    ensures { option_map (λ t. t.now) result ≡ option_map (λ t. t.text.now) token.entry }
{
    match token {
        Some(token) => Some(token.text),
        None => None,
    }
}

/// Returns the first character of a text without its escape, and the text after it.
fn split_unescaped(text: &[u8]) -> Option<(u8, &[u8])>
    ensures none { IfNone result (text.now ≡ []) }
    ensures some { IfSome result (λ split. unescaped text.now ≡ split.0 ∷ unescaped split.1.now) }
    ensures shorter { IfSome result (λ split. length split.1.now < length text.now) }
{
    let (first, others) = text.split_first()?;
    let Some((second, more)) = others.split_first() else {
        return Some((*first, others));
    };
    if is_escape(*first, *second) {
        Some((*second, more))
    } else {
        Some((*first, others))
    }
}

/// Returns whether these two characters are an escape that an operator removes.
fn is_escape(first: u8, second: u8) -> bool
    ensures { result ≡ is_escape first second }
{
    first == b'\\' && (second == b'"' || second == b'\\')
}

/// Returns the part of a string literal between its quotes.
fn inner(literal: &[u8]) -> &[u8]
    ensures value { let inside = after_quote literal.now in result.now ≡ take (length inside - 1) inside }
    ensures shorter { length result.now ≤ length literal.now }
{
    let inside = after_quote(literal);
    &inside[..inside.len().saturating_sub(1)]
}

/// Returns what follows the first quote.
fn after_quote(literal: &[u8]) -> &[u8]
    ensures value { result.now ≡ after_quote literal.now }
    ensures shorter { length result.now ≤ length literal.now }
{
    let mut rest = literal;
    while let Some((first, others)) = rest.split_first() {
        if *first == b'"' {
            return others;
        }
        rest = others;
    }
    rest
}

/// Iterates over the tokens of a text that is part of a pragma, so that no header name is formed.
#[derive(Drop)]
pub struct PragmaTokens<'t> {
    rest: &'t [u8],
    space: bool,
    is_broken: bool,
}

impl<'t> PragmaTokens<'t> {
    /// Returns the next token. Returns None at the end, and at an open comment, an unmatched quote or a new-line.
    pub fn next(&mut self) -> Option<TextPragmaToken<'t>>
        ensures none { IfNone result (tokens_left self.old ≡ (if self.new.is_broken then None else Some [])) }
        ensures some { IfSome result (λ token. tokens_left self.old ≡ with_pragma_token token (tokens_left self.new)) }
        ensures shorter { IfSome result (λ token. length_left self.new < length_left self.old) }
    {
        while !self.rest.is_empty() {
            match front_of(self.rest) {
                Front::Blank(n) => {
                    self.rest = &self.rest[n..];
                    self.space = true;
                }
                Front::Token(kind, n) => return Some(self.token(kind, n)),
                Front::Break => {
                    self.is_broken = true;
                    return None;
                }
            }
        }
        None
    }

    /// Moves over a token of n bytes.
    fn token(&mut self, kind: Kind, n: usize) -> TextPragmaToken<'t>
        requires { n ≤ length self.old.rest.now }
        ensures token { printed_pragma_token result ≡ pragma_token_of kind self.old.space (take n self.old.rest.now) }
        ensures rest { self.new.rest.now ≡ drop n self.old.rest.now }
        ensures space { self.new.space ≡ false }
        ensures same { self.new.is_broken ≡ self.old.is_broken }
    {
        let (text, rest) = self.rest.split_at(n);
        let space = self.space;
        self.rest = rest;
        self.space = false;
        TextPragmaToken { kind, text, space }
    }
}

/// What begins a text that is part of a pragma.
#[derive(Clone, Copy)]
enum Front {
    /// White space or a comment.
    Blank(usize),
    /// A token of this kind.
    Token(Kind, usize),
    /// An open comment, an unmatched quote or a new-line.
    Break,
}

/// Returns what begins a text, with its length in bytes.
fn front_of(text: &[u8]) -> Front
    requires { 0 < length text.now }
    ensures { HasFront text.now result }
{
    match leading_lexeme(text) {
        LeadingLexeme::NewLine => Front::Break,
        LeadingLexeme::Blank(n) => Front::Blank(n),
        LeadingLexeme::Comment(n) => Front::Blank(n),
        LeadingLexeme::Unclosed => Front::Break,
        LeadingLexeme::Token(kind, n) => token_front(text, kind, n),
    }
}

/// Returns what begins a text where a token of n bytes does: the token, unless it is an unmatched quote.
fn token_front(text: &[u8], kind: Kind, n: usize) -> Front
    requires long { 0 < length text.now }
    requires found { FindsLexeme C11 [] text.now (Some (Spelled kind, n)) }
    ensures { HasFront text.now result }
{
    if is_unmatched_quote(&text[..n]) {
        Front::Break
    } else {
        Front::Token(kind, n)
    }
}

/// Returns whether a text is `'` or `"` alone.
fn is_unmatched_quote(text: &[u8]) -> bool
    ensures { result ≡ unmatched_quote_test text.now }
{
    matches!(text, [b'\'' | b'"'])
}
