//! Theorems about units: functions that do nothing, whose contracts state the theorems. They call the theorems that
//! they rest on.
ghost use Rattle.ppunit.specs.Laws.{HasOneValue, HasSomeValue, Grows, ChainIsStack};
ghost use Rattle.ppunit.specs.Capped.{StaysInBudget, BudgetCaps, LargerBudgetsGiveNoLess, OnlyBudgetsRefuse};

use ppexpand::one_expansion;
use ppexpr::{one_condition, some_condition};
use ppshelf::{one_row, some_row};
use pptext::{one_reading, one_tree, some_reading, tree_unless_fault};

/// Theorem: over the same files with distinct names, a unit has one value, and one number of replacements and opened
/// files.
pub fn one_value()
    ensures { HasOneValue }
{
    one_expansion();
    one_condition();
    one_reading();
    one_tree();
    one_row();
}

/// Theorem: if the content of each file is known and the unit's file is one of them, the unit has a value, with any
/// budget and without one.
pub fn some_value()
    ensures { HasSomeValue }
{
    one_expansion();
    some_condition();
    some_reading();
    tree_unless_fault();
    some_row();
}

/// Theorem: the value that a unit has over some files it also has over any larger set of files, with as many
/// replacements and opened files.
pub fn growth()
    ensures { Grows }
{}

/// Theorem: the include chain, which the marks among a unit's items say, is the include stack of the derivation of its value,
/// without the unit's own file.
pub fn chain_is_stack()
    ensures { ChainIsStack }
{}

/// Theorem: the replacements and opened files of a unit total at most its budget.
pub fn stays_in_budget()
    ensures { StaysInBudget }
{}

/// Theorem: if the file names are distinct, the value of a unit with a budget is a prefix of its value without one,
/// over these files and any larger set. It is the whole value exactly if the budget suffices, and otherwise ends in
/// fault 35. If each file is known, there is such a whole value.
pub fn budget_caps_units()
    ensures { BudgetCaps }
{
    one_value();
    some_value();
    growth();
    only_budgets_refuse();
}

/// Theorem: no unit ends in fault 35 without a budget.
pub fn only_budgets_refuse()
    ensures { OnlyBudgetsRefuse }
{}

/// Theorem: if the file names are distinct, the value of a unit with a budget is a prefix of its value with a larger
/// one, or with none, over these files and any larger set, and equal to it unless it ends in fault 35. If each file is
/// known, the unit has a value with the larger budget.
pub fn larger_budgets_give_no_less()
    ensures { LargerBudgetsGiveNoLess }
{
    one_value();
    some_value();
    growth();
}
