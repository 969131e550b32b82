//! The line of a pragma.
ghost use Rattle.std.specs.Prelude.{◌≡◌, ◌||◌, Some, None, option_map};
ghost use Rattle.std.specs.Str.{bytes_eq};
ghost use Rattle.ppprint.specs.Operators.{are_own, is_among, own_gcc_pragmas, own_pragmas};
ghost use Rattle.ppprint.specs.Text.{last_space, pragma_space, pragma_written};
ghost use Rattle.ppprint.specs.code.PragmaText.{printed_pragma_token};

use crate::apart::Written;
use crate::pragma_tokens::TextPragmaToken;
use crate::printer::space_after;
use std::marker::Model;

/// The tokens that a pragma's line has up to here. Contracts see the last one.
#[derive(Drop)]
pub struct PragmaLine<'t> {
    last: Option<Written<'t>>,
}

impl<'t> Model for PragmaLine<'t> {
    ghost use Rattle.std.specs.Prelude.{Option, option_map};
    ghost use Rattle.ppprint.specs.Apart.{Written as Spelled};
    ghost use Rattle.ppprint.specs.code.Writings.{written_of};

    ghost Value = { Option Spelled };

    ghost view = { λ l. option_map written_of l.last };
}

impl<'t> PragmaLine<'t> {
    /// Returns the line before the first token.
    pub fn new() -> PragmaLine<'t>
        ensures { result ≡ None }
    {
        PragmaLine { last: None }
    }

    /// Moves over a token. Returns the number of spaces before it.
    pub fn token(&mut self, token: TextPragmaToken<'t>) -> usize
        ensures spaces { result ≡ pragma_space self.old (printed_pragma_token token.entry) }
        ensures last { self.new ≡ Some (pragma_written (printed_pragma_token token.entry)) }
    {
        let next = Written {
            kind: token.kind,
            text: token.text,
        };
        let parts = match self.last {
            Some(last) => token.space || last.is_apart_from(next),
            None => true,
        };
        self.last = Some(next);
        if parts { 1 } else { 0 }
    }

    /// Returns the number of spaces after the last token.
    pub fn last_space(&self) -> usize
        ensures { result ≡ last_space self.now }
    {
        match self.last {
            Some(last) => space_after(last.text),
            None => 0,
        }
    }
}

/// Returns whether a pragma whose first two tokens have these spellings is for the preprocessor alone.
pub fn is_own_pragma(first: Option<&[u8]>, second: Option<&[u8]>) -> bool
    ensures { result ≡ are_own (option_map (λ t. t.now) first.entry) (option_map (λ t. t.now) second.entry) }
{
    match (first, second) {
        (None, _) => false,
        (Some(first), None) => is_own_name(first),
        (Some(first), Some(second)) => {
            is_own_name(first) || (is_spelled(first, b"GCC") && is_own_gcc_name(second))
        }
    }
}

/// Returns whether this is the name of a pragma for the preprocessor alone.
fn is_own_name(name: &[u8]) -> bool
    ensures { result ≡ is_among own_pragmas name.now }
{
    is_spelled(name, b"once") || is_spelled(name, b"push_macro") || is_spelled(name, b"pop_macro")
}

/// Returns whether this name after `GCC` is that of a pragma for the preprocessor alone.
fn is_own_gcc_name(name: &[u8]) -> bool
    ensures { result ≡ is_among own_gcc_pragmas name.now }
{
    is_spelled(name, b"poison")
        || is_spelled(name, b"system_header")
        || is_spelled(name, b"dependency")
        || is_spelled(name, b"warning")
        || is_spelled(name, b"error")
}

/// Returns whether a name is this one.
fn is_spelled(name: &[u8], text: &[u8]) -> bool
    ensures { result ≡ bytes_eq name.now text.now }
{
    name == text
}
