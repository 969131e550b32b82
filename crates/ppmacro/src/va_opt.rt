//! `__VA_OPT__` in a replacement list (C23, 6.10.5.1). Only GNU C has it.
ghost use Rattle.std.specs.Prelude.{◌≡◌, ◌+◌, ◌<◌, ◌≤◌, ◌^◌, ℕ, IfOk, IfSome, OnOk, Some, List, slice_get, is_some};
ghost use Rattle.std.specs.List.{list_any};
ghost use Rattle.std.specs.Option.{option_map};
ghost use Rattle.pptext.specs.declared.tokens.Token.{Token};
ghost use Rattle.ppmacro.specs.Chains.{lenient_parameter};
ghost use Rattle.ppmacro.specs.VaOpt.{Separated, is_va_opt, closed, after, put, separate, separated};
ghost use Rattle.ppmacro.specs.code.VaOptLists.{depth_of, separated_at, followed_by};
ghost use Rattle.ppmacro.specs.declared.va_opt.Position.TheVariants as at;

use crate::macros::{MacroKind, Variadic};
use pptext::{Memory, Token};
use std::alloc::Global;
use std::mem;

/// Returns whether a token is `__VA_OPT__`.
pub(crate) fn is_va_opt(token: &Token) -> bool
    ensures { result ≡ is_va_opt token.now }
{
    token.is_identifier_named(b"__VA_OPT__")
}

/// Returns whether the tokens contain `__VA_OPT__`.
pub(crate) fn has_va_opt(tokens: &[Token]) -> bool
    ensures { result ≡ list_any is_va_opt tokens.now }
{
    tokens.iter().any(|token| is_va_opt(token))
}

/// A position in a replacement list.
#[derive(Clone, Copy)]
pub(crate) enum Position {
    /// Not in a content.
    Outside,
    /// Directly after a `__VA_OPT__`.
    AfterName,
    /// In a content, where this number of inner parentheses is open.
    Inside(usize),
}

/// A replacement list whose contents are taken out, as indices of its tokens. The content of a `__VA_OPT__` is what is between the `(` after it
/// and the matching `)`. The two parentheses are dropped, so that `__VA_OPT__` alone is left outside.
#[derive(Drop)]
pub(crate) struct SeparatedList {
    pub(crate) outside: Vec<usize>,
    pub(crate) contents: Vec<Vec<usize>>,
    /// The content that is being read.
    current: Vec<usize>,
}

/// Returns the position after a `)` of a content.
fn closed(depth: usize) -> Position
    ensures { result ≡ closed depth }
{
    match depth.checked_sub(1) {
        Some(outer) => Position::Inside(outer),
        None => Position::Outside,
    }
}

/// Returns the position after a token of a content, or `None` if it is a `__VA_OPT__`.
fn after_inside(depth: usize, token: &Token) -> Option<Position>
    requires { depth + 1 < 2 ^ 64 }
    ensures { result ≡ after (at.Inside depth) token.now }
{
    if is_va_opt(token) {
        return None;
    }
    if token.is_punct(b"(") {
        return Some(Position::Inside(depth + 1));
    }
    if token.is_punct(b")") {
        return Some(closed(depth));
    }
    Some(Position::Inside(depth))
}

/// Returns the position after a token, or `None` if the token can't be at its position.
fn after(position: Position, token: &Token) -> Option<Position>
    requires { depth_of position + 1 < 2 ^ 64 }
    ensures is { result ≡ after position token.now }
    ensures depth { IfSome result (λ next. depth_of next ≤ depth_of position + 1) }
{
    match position {
        Position::Outside => {
            if is_va_opt(token) {
                Some(Position::AfterName)
            } else {
                Some(Position::Outside)
            }
        }
        Position::AfterName => {
            if token.is_punct(b"(") {
                Some(Position::Inside(0))
            } else {
                None
            }
        }
        Position::Inside(depth) => after_inside(depth, token),
    }
}

impl SeparatedList {
    /// Ends the content that is being read.
    fn end_content(&mut self) -> Result<(), Memory>
        ensures { OnOk result ((body : List Token) (t : Token) (rest : Separated) (depth : ℕ)
            → followed_by body at.Outside self.new rest ≡ followed_by body (at.Inside depth) self.old (put t (at.Inside depth) at.Outside rest)) }
    {
        let none = Vec::new(*self.contents.allocator());
        let content = mem::replace(&mut self.current, none);
        self.contents.push(content)?;
        Ok(())
    }

    /// Appends the index of a token. The positions are those before and after the token.
    fn put(&mut self, position: Position, next: Position, index: usize) -> Result<(), Memory>
        ensures { OnOk result ((body : List Token) (t : Token) (rest : Separated) → slice_get body index ≡ Some t → after position t ≡ Some next
            → followed_by body next self.new rest ≡ followed_by body position self.old (put t position next rest)) }
    {
        match position {
            Position::Outside => {
                self.outside.push(index)?;
                Ok(())
            }
            Position::AfterName => {
                self.current = Vec::new(*self.contents.allocator());
                Ok(())
            }
            Position::Inside(_) => match next {
                Position::Outside => self.end_content(),
                _ => {
                    self.current.push(index)?;
                    Ok(())
                }
            },
        }
    }
}

/// Takes the contents out of a replacement list. Returns `None` if a `__VA_OPT__` has no content or is in one.
fn separate(alloc: Global, body: &[Token]) -> Result<Option<SeparatedList>, Memory>
    ensures { IfOk result (λ o. option_map (separated_at body.now) o ≡ separate at.Outside body.now) }
{
    let mut list = SeparatedList {
        outside: Vec::new(alloc),
        contents: Vec::new(alloc),
        current: Vec::new(alloc),
    };
    let mut position = Position::Outside;
    for index in 0..body.len() {
        let Some(next) = after(position, &body[index]) else {
            return Ok(None);
        };
        list.put(position, next, index)?;
        position = next;
    }
    match position {
        Position::Outside => Ok(Some(list)),
        _ => Ok(None),
    }
}

/// Returns whether the variable argument of a macro may be absent.
fn is_lenient(kind: &MacroKind) -> bool
    ensures { result ≡ is_some (lenient_parameter kind.now) }
{
    matches!(
        kind,
        MacroKind::FunctionLike {
            variadic: Variadic::Lenient,
            ..
        }
    )
}

/// Takes the contents out of the replacement list of a macro that has `__VA_OPT__`. Returns `None` for another macro, or if a `__VA_OPT__` has no
/// content or is in one.
pub(crate) fn separated(
    alloc: Global,
    kind: &MacroKind,
    body: &[Token],
) -> Result<Option<SeparatedList>, Memory>
    ensures { IfOk result (λ o. option_map (separated_at body.now) o ≡ separated (record { kind = kind.now; body = body.now })) }
{
    if !is_lenient(kind) || !has_va_opt(body) {
        return Ok(None);
    }
    separate(alloc, body)
}
