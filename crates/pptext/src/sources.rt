//! A file as its tokens, lines and groups.
ghost use Rattle.std.specs.Prelude.{◌≡◌};
ghost use Rattle.pptext.specs.Profiles.{has_later, is_gnu};

use crate::tokens::Token;
use std::marker::Model;

/// The maximum length of a file, in bytes.
pub const LONGEST: usize = 16_777_216;

/// The rules in use.
#[derive(Clone, Copy, PartialEq, Eq, Debug)]
pub enum Profile {
    /// The rules of ISO/IEC 9899:2011.
    C11,
    /// C11 with `#elifdef` and `#elifndef` of ISO/IEC 9899:2024 (6.10.2), and `#pragma once`.
    Later,
    /// `Later` with the rules of GNU C that the headers of Linux need: named variadic parameters, variable arguments
    /// that may be absent, a macro that is defined again with another definition, a `__STDC_VERSION__` that is defined
    /// again or undefined, `#include_next`, `__has_include`, and `#warning`, `#ident` and `#sccs`, which do nothing.
    /// Trigraphs (5.2.1.1) aren't replaced.
    Gnu,
}

impl Profile {
    /// Returns whether the profile has `#elifdef` and `#elifndef` of ISO/IEC 9899:2024, and `#pragma once`.
    pub fn has_later(self) -> bool
        ensures { result ≡ has_later self }
    {
        matches!(self, Profile::Later | Profile::Gnu)
    }

    /// Returns whether the profile has the rules of GNU C.
    pub fn is_gnu(self) -> bool
        ensures { result ≡ is_gnu self }
    {
        matches!(self, Profile::Gnu)
    }
}

/// A directive, by its name (6.10).
///
/// A line is a directive if its first token is `#` or `%:`. The name is the token after it.
#[derive(Clone, Copy, PartialEq, Eq, Debug)]
pub enum Directive {
    /// `#if` (6.10.1).
    If,
    /// `#ifdef` (6.10.1).
    Ifdef,
    /// `#ifndef` (6.10.1).
    Ifndef,
    /// `#elif` (6.10.1).
    Elif,
    /// `#elifdef` (ISO/IEC 9899:2024, 6.10.2).
    Elifdef,
    /// `#elifndef` (ISO/IEC 9899:2024, 6.10.2).
    Elifndef,
    /// `#else` (6.10.1).
    Else,
    /// `#endif` (6.10.1).
    Endif,
    /// `#include` (6.10.2).
    Include,
    /// `#include_next`: the search continues after the directory in which this file was found (GNU C, "Wrapper
    /// Headers").
    IncludeNext,
    /// `#define` (6.10.3).
    Define,
    /// `#undef` (6.10.3.5).
    Undef,
    /// `#line` (6.10.4).
    Line,
    /// `#error` (6.10.5).
    Error,
    /// `#pragma` (6.10.6).
    Pragma,
    /// `#` alone, the null directive (6.10.7).
    Null,
    /// `#warning`, `#ident`, `#sccs`: do nothing, whatever follows (GNU C, "Diagnostics", "Other Directives").
    Ignored,
    /// Any other token after the `#`: a non-directive (6.10).
    Unknown,
}

/// A line of a file after translation phase 3. A new-line outside a comment ends it (5.1.1.2), so a comment may join
/// several logical source lines.
#[derive(Clone, Copy, PartialEq, Eq, Debug)]
pub struct Line {
    /// The index of its first token among the file's tokens, from 0, or the index of the next token if the line has
    /// none.
    pub start: usize,
    /// The index after its last token.
    pub end: usize,
    /// The physical line of its new-line, from 1.
    pub number: u32,
    /// The directive, if the line is one.
    pub directive: Option<Directive>,
    /// For `#if`, `#ifdef`, `#ifndef` and a branch (such as `#elif` or `#else`), the index of the line of the next
    /// branch or the `#endif` of the same if-section, from 0 (6.10.1). For other lines, None.
    pub next_branch: Option<usize>,
}

/// A file without fault: its tokens, lines and groups (6.10). Contracts see the list of its lines.
#[derive(Drop)]
pub struct Source {
    /// The tokens of all lines.
    pub(crate) tokens: Vec<Token>,
    /// The lines.
    pub(crate) lines: Vec<Line>,
    /// The index of the include guard's name among the tokens.
    pub(crate) guard: Option<usize>,
}

impl Model for Source {
    ghost use Rattle.std.specs.Prelude.{◌≡◌, ◌<◌, ℕ, List, length, MatchOption, slice_index_or};
    ghost use Rattle.pptext.specs.declared.tokens.Token.{Token};
    ghost use Rattle.pptext.specs.Lines.{LogicalLine, AreDirected};

    ghost Value = { List LogicalLine };

    ghost use Rattle.pptext.specs.Sources.{lines_from, line_tokens, spans};
    ghost use Rattle.pptext.specs.Guard.{GuardedBy};

    ghost view = { λ s. lines_from s.tokens.items s.lines.items };

    ghost invariant = { λ s. (line_tokens (lines_from s.tokens.items s.lines.items) ≡ s.tokens.items)
        × (spans 0 0 (lines_from s.tokens.items s.lines.items) ≡ s.lines.items)
        × AreDirected (lines_from s.tokens.items s.lines.items)
        × MatchOption s.guard ((x : List ℕ) → GuardedBy (lines_from s.tokens.items s.lines.items) x → ⊥)
        (λ i. (i < length s.tokens.items) × ((d : Token) → GuardedBy (lines_from s.tokens.items s.lines.items) (slice_index_or s.tokens.items i d).text)) };
}
