//! The next branch line of each line that opens or branches an if-section (6.10.1).
ghost use Rattle.std.specs.Prelude.{◌≡◌, reverse, IfOk, OnOk};
ghost use Rattle.pptext.specs.Tree.{role_by};
ghost use Rattle.pptext.specs.code.Grouping.{step_back, linked};

use crate::directives::{Role, role_of};
use crate::error::Memory;
use crate::sources::{Directive, Line};
use std::alloc::{AllocFailed, Global};

/// Passes a line with this directive on the way from the last line to the first, and returns its next branch line. The
/// stack holds the next branch line of each open if-section, the innermost on top.
fn step_back(
    open_branches: &mut Vec<usize>,
    at: usize,
    directive: Option<Directive>,
) -> Result<Option<usize>, AllocFailed<usize>>
    ensures { IfOk result (λ next. (next, reverse open_branches.new.items) ≡ step_back at (role_by directive) (reverse open_branches.old.items)) }
{
    match role_of(directive) {
        Role::Opens => Ok(open_branches.pop()),
        Role::Elses(_) => {
            let next = open_branches.pop();
            open_branches.push(at)?;
            Ok(next)
        }
        Role::Closes => {
            open_branches.push(at)?;
            Ok(None)
        }
        Role::Text | Role::Control => Ok(None),
    }
}

/// Sets the next branch line of each line, from the last line to the first.
fn link_branches(alloc: Global, lines: &mut [Line]) -> Result<(), Memory>
    ensures { OnOk result (lines.new ≡ linked 0 lines.old) }
{
    let mut open_branches = Vec::new(alloc);
    for at in (0..lines.len()).rev() {
        let next = step_back(&mut open_branches, at, lines[at].directive)?;
        lines[at].next_branch = next;
    }
    Ok(())
}

/// Returns the lines, each with its next branch line.
pub(super) fn linked_lines(alloc: Global, lines: Vec<Line>) -> Result<Vec<Line>, Memory>
    ensures { IfOk result (λ v. v.items ≡ linked 0 lines.items) }
{
    let mut lines = lines;
    link_branches(alloc, lines.as_mut_slice())?;
    Ok(lines)
}
