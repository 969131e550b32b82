//! The groups of a file (6.10), by directive names alone.
ghost use Rattle.std.specs.Prelude.{◌≡◌, ◌<◌, ◌^◌, [], length, None};
ghost use Rattle.pptext.specs.Errors.{UnlessOutOfMemory};
ghost use Rattle.pptext.specs.Sources.{lines_from};
ghost use Rattle.pptext.specs.Tree.{group_fault};
ghost use Rattle.pptext.specs.code.Grouping.{AreLineSpans, AreLines, GroupsInto};

mod branches;
mod faults;
mod guards;

use crate::error::Error;
use crate::sources::{Line, Source};
use crate::tokens::Token;
use branches::linked_lines;
use faults::first_fault;
use guards::guard_token;
use std::alloc::Global;

/// Makes the source of these tokens and lines, and finds its include guard.
fn source_of(tokens: Vec<Token>, lines: Vec<Line>) -> Source
    requires are_lines { AreLines tokens.items lines.items }
    requires no_fault { group_fault [] (lines_from tokens.items lines.items) ≡ None }
    ensures { result ≡ lines_from tokens.items lines.items }
{
    let guard = guard_token(tokens.as_slice(), lines.as_slice());
    Source {
        tokens,
        lines,
        guard,
    }
}

/// Makes the source of these tokens and lines, which have no next branch lines yet, or returns the first fault of the
/// groups.
pub(crate) fn group_lines(
    alloc: Global,
    tokens: Vec<Token>,
    lines: Vec<Line>,
) -> Result<Source, Error>
    requires are_line_spans { AreLineSpans tokens.items lines.items }
    requires few { length lines.items < 2 ^ 32 }
    ensures { UnlessOutOfMemory result (GroupsInto (lines_from tokens.items lines.items)) }
{
    let lines = linked_lines(alloc, lines)?;
    if let Some(fault) = first_fault(alloc, tokens.as_slice(), lines.as_slice())? {
        return Err(Error::of(alloc, fault));
    }
    Ok(source_of(tokens, lines))
}
