//! The operator `_Pragma` (6.10.9): tokens that may form one are held until that is known.
ghost use Rattle.std.specs.Prelude.{◌≡◌, ◌++◌, ◌&&◌, not, codes};
ghost use Rattle.pptext.specs.Tokens.{is_identifier_named, is_punct};
ghost use Rattle.ppprint.specs.Operators.{is_operand};
ghost use Rattle.ppprint.specs.code.Held.{held_tokens, is_empty, optional_token, taken_tokens, with_part};
ghost use Rattle.ppprint.specs.code.Tokens.{printed_token};

use crate::text_token::TextToken;
use pptext::Kind;

/// The longest literal that an operator may have.
const LONGEST_LITERAL: usize = 4095;

/// The first tokens of what may be an operator.
#[derive(Clone, Copy)]
pub enum HeldTokens<'a> {
    Nothing,
    Name(TextToken<'a>),
    Open(TextToken<'a>, TextToken<'a>),
    Literal(TextToken<'a>, TextToken<'a>, TextToken<'a>),
}

/// The four tokens of an operator.
#[derive(Clone, Copy)]
pub struct Operator<'a> {
    pub name: TextToken<'a>,
    pub open: TextToken<'a>,
    pub literal: TextToken<'a>,
    pub close: TextToken<'a>,
}

/// What a token makes of those that are held.
#[derive(Clone, Copy)]
pub enum Taken<'a> {
    /// It is held, too.
    Held(HeldTokens<'a>),
    /// It completes an operator.
    Operator(Operator<'a>),
    /// They are no operator.
    Broken,
}

impl<'a> HeldTokens<'a> {
    /// Returns whether a token needs no more than to be printed: none is held, and it begins no operator.
    #[inline(always)]
    pub fn passes(&self, token: TextToken<'a>) -> bool
        ensures { result ≡ (is_empty (held_tokens self.now) && not (is_identifier_named (codes "_Pragma") (printed_token token.entry))) }
    {
        matches!(self, HeldTokens::Nothing) && !is_name(token)
    }

    /// Returns the tokens.
    pub fn tokens(
        self,
    ) -> (
        Option<TextToken<'a>>,
        Option<TextToken<'a>>,
        Option<TextToken<'a>>,
    )
        ensures { optional_token result.0 ++ (optional_token result.1 ++ optional_token result.2) ≡ held_tokens self.entry }
    {
        match self {
            HeldTokens::Nothing => (None, None, None),
            HeldTokens::Name(name) => (Some(name), None, None),
            HeldTokens::Open(name, open) => (Some(name), Some(open), None),
            HeldTokens::Literal(name, open, literal) => (Some(name), Some(open), Some(literal)),
        }
    }

    /// Takes a token.
    pub fn take(self, token: TextToken<'a>) -> Taken<'a>
        ensures { taken_tokens result ≡ with_part (held_tokens self.entry) (printed_token token.entry) }
    {
        match self {
            HeldTokens::Nothing if is_name(token) => Taken::Held(HeldTokens::Name(token)),
            HeldTokens::Name(name) if is_punct(token, b"(") => {
                Taken::Held(HeldTokens::Open(name, token))
            }
            HeldTokens::Open(name, open) if is_operand(token) => {
                Taken::Held(HeldTokens::Literal(name, open, token))
            }
            HeldTokens::Literal(name, open, literal) if is_punct(token, b")") => {
                Taken::Operator(Operator {
                    name,
                    open,
                    literal,
                    close: token,
                })
            }
            _ => Taken::Broken,
        }
    }
}

/// Returns whether a token is the name of the operator.
#[inline(always)]
fn is_name(token: TextToken) -> bool
    ensures { result ≡ is_identifier_named (codes "_Pragma") (printed_token token.entry) }
{
    matches!(token.kind, Kind::Ident) && token.text.as_bytes() == b"_Pragma".as_slice()
}

/// Returns whether a token is the punctuator with this spelling.
fn is_punct(token: TextToken, text: &[u8]) -> bool
    ensures { result ≡ is_punct text.now (printed_token token.entry) }
{
    matches!(token.kind, Kind::Punct) && token.text.as_bytes() == text
}

/// Returns whether a token is a string literal that isn't too long.
fn is_operand(token: TextToken) -> bool
    ensures { result ≡ is_operand (printed_token token.entry) }
{
    matches!(token.kind, Kind::Str) && token.text.as_bytes().len() <= LONGEST_LITERAL
}
