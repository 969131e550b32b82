//! Skips files whose include guard is defined (6.10.1).
ghost use Rattle.std.specs.Prelude.{◌↔◌, IsTrue};
ghost use Rattle.ppunit.specs.Guarded.{GuardsLeaveOut, GuardsOnlyLeaveOut};
ghost use Rattle.ppunit.specs.code.Opening.{IsLeftOut};

use crate::states::State;
use ppexpand::one_expansion;
use ppexpr::one_condition;
use ppshelf::one_row;
use pptext::{Source, one_reading, one_tree};

/// Returns whether the file is one if-section under a guard, and the guard is defined. Such a file has no effect.
pub(crate) fn is_left_out(state: &State, source: &Source) -> bool
    ensures { IsTrue result ↔ IsLeftOut state.now source.now }
{
    match source.guard() {
        Some(name) => state.macros.get(name).is_some(),
        None => false,
    }
}

/// Theorem: opening a file that is one if-section under a defined guard (6.10.1) adds a dependency, spends one of the
/// budget and emits the marks of its beginning and its end, and changes nothing else, if the file isn't too deep, the budget
/// isn't exhausted, the file may be read again and no invocation waits for its `)`. If the file names are distinct, it has no
/// other outcome.
pub fn guard_changes_nothing()
    ensures leaves_out { GuardsLeaveOut }
    ensures only { GuardsOnlyLeaveOut }
{
    one_expansion();
    one_condition();
    one_reading();
    one_tree();
    one_row();
}
