//! The faults of a file's groups.
ghost use Rattle.std.specs.Prelude.{◌≡◌, ◌+◌, ◌<◌, ◌^◌, [], length, reverse, slice_index_or, IfOk};
ghost use Rattle.pptext.specs.declared.sources.Line.{Line};
ghost use Rattle.pptext.specs.declared.tokens.Token.{Token};
ghost use Rattle.pptext.specs.Lines.{LogicalLine};
ghost use Rattle.pptext.specs.Tokens.{fault};
ghost use Rattle.pptext.specs.Sources.{lines_from};
ghost use Rattle.pptext.specs.Tree.{role_by, after_line, fault_at, group_fault};
ghost use Rattle.pptext.specs.code.Grouping.{AreLines, line_role, IsBranching, LineTakes};

use crate::directives::{Role, role_of};
use crate::error::Memory;
use crate::sources::{Directive, Line};
use crate::tokens::{Fault, Token};
use std::alloc::{AllocFailed, Global};
use std::marker::Model;

/// An open if-section: the index of its opening line, and whether its `#else` has occurred.
#[derive(Clone, Copy)]
struct Section {
    opening: u32,
    has_else: bool,
}

impl Model for Section {
    ghost use Rattle.std.specs.Prelude.{ℕ, Bool};

    ghost Value = { ℕ × Bool };

    ghost view = { λ s. (s.opening, s.has_else) };

    ghost inverse = { λ s. record { opening = s.0; has_else = s.1 } };
}

/// Updates the stack of open if-sections for a line with this directive at this index, or returns the number of its
/// fault: 3 outside an if-section, 4 after `#else` (6.10p1). The innermost if-section is last.
fn take_line(
    open_sections: &mut Vec<Section>,
    at: usize,
    directive: Option<Directive>,
) -> Result<Option<u8>, AllocFailed<Section>>
    requires { at < 2 ^ 32 }
    ensures { IfOk result (λ n. LineTakes (after_line (role_by directive) at (reverse open_sections.old.items)) n (reverse open_sections.new.items)) }
{
    match role_of(directive) {
        Role::Opens => {
            open_sections.push(Section {
                opening: at as u32,
                has_else: false,
            })?;
            Ok(None)
        }
        Role::Elses(has_else) => match open_sections.pop() {
            None => Ok(Some(3)),
            Some(section) => {
                if section.has_else {
                    return Ok(Some(4));
                }
                open_sections.push(Section {
                    opening: section.opening,
                    has_else,
                })?;
                Ok(None)
            }
        },
        Role::Closes => match open_sections.pop() {
            None => Ok(Some(3)),
            Some(_) => Ok(None),
        },
        Role::Text | Role::Control => Ok(None),
    }
}

/// Makes the fault of a directive. It is located at the `#`, which has index `hash`, and its text is the directive's
/// name.
fn fault_of(number: u8, tokens: &[Token], hash: usize) -> Result<Fault, Memory>
    requires { hash + 1 < length tokens.now }
    ensures { (d : Token) → IfOk result (λ f. f ≡ fault number (slice_index_or tokens.now hash d).at (slice_index_or tokens.now (hash + 1) d).text) }
{
    Fault::of_token(number, tokens[hash].at, &tokens[hash + 1])
}

/// Makes the fault of the directive line at this index.
fn fault_at(number: u8, tokens: &[Token], lines: &[Line], at: usize) -> Result<Fault, Memory>
    requires are_lines { AreLines tokens.now lines.now }
    requires within { at < length lines.now }
    requires branching { (d : Line) → IsBranching (line_role (slice_index_or lines.now at d)) }
    ensures { (r : LogicalLine) → IfOk result (λ f. f ≡ fault_at number (slice_index_or (lines_from tokens.now lines.now) at r)) }
{
    fault_of(number, tokens, lines[at].start)
}

/// Returns the first fault of the groups, if there is one.
pub(super) fn first_fault(
    alloc: Global,
    tokens: &[Token],
    lines: &[Line],
) -> Result<Option<Fault>, Memory>
    requires are_lines { AreLines tokens.now lines.now }
    requires few { length lines.now < 2 ^ 32 }
    ensures { IfOk result (λ f. f ≡ group_fault [] (lines_from tokens.now lines.now)) }
{
    // A line that opens an if-section has at least two tokens.
    let most = lines.len().min(tokens.len() / 2);
    let mut open_sections = Vec::with_capacity(alloc, most)?;
    for (at, line) in lines.iter().enumerate() {
        if let Some(number) = take_line(&mut open_sections, at, line.directive)? {
            return Ok(Some(fault_at(number, tokens, lines, at)?));
        }
    }
    match open_sections.pop() {
        None => Ok(None),
        Some(section) => Ok(Some(fault_at(5, tokens, lines, section.opening as usize)?)),
    }
}
