//! The include guard of a file: one if-section without other branches, and no token outside it.
ghost use Rattle.std.specs.Prelude.{◌≡◌, ◌+◌, ◌<◌, ◌≤◌, length, ℕ, List, take, drop, ◌-◌, None, Some, IfNone, IfSome, slice_index_or, IsTrue, ◌↔◌};
ghost use Rattle.std.specs.Str.{bytes_eq};
ghost use Rattle.pptext.specs.declared.sources.Line.{Line};
ghost use Rattle.pptext.specs.declared.tokens.Token.{Token};
ghost use Rattle.pptext.specs.Sources.{lines_from};
ghost use Rattle.pptext.specs.Guard.{are_parentheses, guard_name, ident_if, is_not_defined};
ghost use Rattle.pptext.specs.Tree.{Opens, Closes};
ghost use Rattle.pptext.specs.code.Grouping.{AreLines, line_role, ClosedAtOnce, FlatGuard};

use crate::directives::{Role, role_of};
use crate::sources::Line;
use crate::tokens::Token;

/// Returns whether the token has this spelling.
fn is_named(token: &Token, text: &[u8]) -> bool
    ensures { result ≡ bytes_eq token.now.text text.now }
{
    token.text.as_bytes() == text
}

/// Returns whether the tokens are `if ! defined`.
fn is_not_defined(name: &Token, not: &Token, defined: &Token) -> bool
    ensures { result ≡ is_not_defined name.now not.now defined.now }
{
    is_named(name, b"if") && is_named(not, b"!") && is_named(defined, b"defined")
}

/// Returns whether the tokens are `(` and `)`.
fn are_parentheses(left: &Token, right: &Token) -> bool
    ensures { result ≡ are_parentheses left.now right.now }
{
    is_named(left, b"(") && is_named(right, b")")
}

/// Returns this index if the test is true and the token is an identifier.
fn ident_if(test: bool, token: &Token, index: usize) -> Option<usize>
    ensures none { IfNone result (ident_if test token.now ≡ None) }
    ensures some { IfSome result (λ i. (i ≡ index) × (ident_if test token.now ≡ Some token.now.text)) }
{
    if test && token.is_identifier() {
        return Some(index);
    }
    None
}

/// Returns the index of X in a line `#ifndef X`, `#if ! defined X` or `#if ! defined ( X )`.
fn name_index(line: &[Token]) -> Option<usize>
    ensures none { IfNone result (guard_name line.now ≡ None) }
    ensures some { IfSome result (λ i. (i < length line.now) × ((d : Token) → guard_name line.now ≡ Some (slice_index_or line.now i d).text)) }
{
    match line {
        [_, name, guard] => ident_if(is_named(name, b"ifndef"), guard, 2),
        [_, name, not, defined, guard] => ident_if(is_not_defined(name, not, defined), guard, 4),
        [_, name, not, defined, left, guard, right] => {
            let parenthesized = is_not_defined(name, not, defined) && are_parentheses(left, right);
            ident_if(parenthesized, guard, 5)
        }
        _ => None,
    }
}

/// Returns the index, among the file's tokens, of the X that `name_index` finds in this line.
fn guard_index(tokens: &[Token], line: Line) -> Option<usize>
    requires begins { line.start ≤ line.end }
    requires within { line.end ≤ length tokens.now }
    ensures none { IfNone result (guard_name (take (line.end - line.start) (drop line.start tokens.now)) ≡ None) }
    ensures some { IfSome result (λ i. (i < length tokens.now) × ((d : Token) → guard_name (take (line.end - line.start) (drop line.start tokens.now)) ≡ Some (slice_index_or tokens.now i d).text)) }
{
    let Some(index) = name_index(&tokens[line.start..line.end]) else {
        return None;
    };
    Some(line.start + index)
}

/// Returns whether the line at this index is an `#endif` and no token of the file follows it.
fn ends_file(tokens: &[Token], lines: &[Line], last: usize) -> bool
    requires { last < length lines.now }
    ensures { (d : Line) → IsTrue result ↔ (line_role (slice_index_or lines.now last d) ≡ Closes) × ((slice_index_or lines.now last d).end ≡ length tokens.now) }
{
    let line = lines[last];
    match role_of(line.directive) {
        Role::Closes => line.end == tokens.len(),
        _ => false,
    }
}

/// Returns whether the if-section that the line at this index opens has no other branch, and no token follows it.
fn closes_file(tokens: &[Token], lines: &[Line], at: usize) -> bool
    requires are_lines { AreLines tokens.now lines.now }
    requires within { at < length lines.now }
    requires opens { (d : Line) → line_role (slice_index_or lines.now at d) ≡ Opens }
    ensures { IsTrue result ↔ ClosedAtOnce (at + 1) (drop (at + 1) (lines_from tokens.now lines.now)) }
{
    match lines[at].next_branch {
        Some(last) => ends_file(tokens, lines, last),
        None => false,
    }
}

/// Returns the index of the guard's token. The line at this index, the first with tokens, must open the if-section.
fn guard_at(tokens: &[Token], lines: &[Line], at: usize) -> Option<usize>
    requires are_lines { AreLines tokens.now lines.now }
    requires within { at < length lines.now }
    requires some { (d : Line) → (slice_index_or lines.now at d).start < (slice_index_or lines.now at d).end }
    ensures none { IfNone result ((x : List ℕ) → ¬ FlatGuard at (drop at (lines_from tokens.now lines.now)) x) }
    ensures some { IfSome result (λ i. (i < length tokens.now) × ((d : Token) → FlatGuard at (drop at (lines_from tokens.now lines.now)) (slice_index_or tokens.now i d).text)) }
{
    let Role::Opens = role_of(lines[at].directive) else {
        return None;
    };
    if !closes_file(tokens, lines, at) {
        return None;
    }
    guard_index(tokens, lines[at])
}

/// Returns the index of the guard's token if the whole file is one guarded if-section.
pub(super) fn guard_token(tokens: &[Token], lines: &[Line]) -> Option<usize>
    requires { AreLines tokens.now lines.now }
    ensures none { IfNone result ((x : List ℕ) → ¬ FlatGuard 0 (lines_from tokens.now lines.now) x) }
    ensures some { IfSome result (λ i. (i < length tokens.now) × ((d : Token) → FlatGuard 0 (lines_from tokens.now lines.now) (slice_index_or tokens.now i d).text)) }
{
    for (at, line) in lines.iter().enumerate() {
        if line.start < line.end {
            return guard_at(tokens, lines, at);
        }
    }
    None
}
