//! Executes translation phase 4 of one translation unit over shared files (5.1.1.2, 6.10).
#![tactic(auto)]

mod collections;
mod command_macros;
mod conditions;
mod directive_line;
mod directives;
mod guards;
mod include_stack;
mod including;
mod items;
mod laws;
mod line_control;
mod line_walk;
mod open_file;
mod operand_expansion;
mod preprocessing;
mod preprocessor;
mod probing;
mod shown_names;
mod states;
mod units;
mod waiting;
mod well_formed;

pub use collections::{Items, Rows};
pub use command_macros::CommandMacros;
pub use guards::guard_changes_nothing;
pub use items::{ItemRef, ItemSlice, ItemSlices, ItemsIter};
pub use laws::{
    budget_caps_units, chain_is_stack, growth, larger_budgets_give_no_less, one_value,
    only_budgets_refuse, some_value, stays_in_budget,
};
pub use pptext::{OwnedText, OwnedTexts};
pub use preprocessing::{preprocess, preprocess_without_items};
pub use units::{
    FirstFile, Item, Mark, MarkSort, Setting, ShownDirectories, ShownDirectory, Unit, UnitOut,
};
pub use well_formed::{fits_command, is_date, is_one_line, is_time, setting_ok, unit_ok};
