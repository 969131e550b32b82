//! Macros of C11 (6.10.3): the macro table, hide sets, and the substitution of an invocation.
#![tactic(auto)]

mod chains;
mod define_lines;
mod defining;
mod definition;
mod hash_operators;
mod hidden_token;
mod hide_sets;
mod invocation;
mod kept_chains;
mod laws;
mod macros;
mod name_filter;
mod name_key;
mod parameter_index;
mod patterns;
mod pre_expansion;
mod prepared_macro;
mod prepared_source;
mod pushed_macros;
mod replacement_list;
mod substituting;
mod tables;
mod token_hide_set;
mod va_opt;
mod va_opt_chains;

pub use define_lines::{DefineLine, define_line};
pub use defining::{define, undef};
pub use hidden_token::{ArgumentExpansion, Hidden};
pub use hide_sets::{HideSets, Set};
pub use invocation::{Arguments, MacroName};
pub use laws::{
    lays_out_chains, lenient_in_gnu_alone, reads_parameter_lists, reads_va_opt, traces_origins,
};
pub use macros::{Chain, MacroKind, Names, Operand, Operands, PredefinedMacro, Variadic};
pub use patterns::{Entry, PastedList, Pattern, PlainList};
pub use prepared_macro::PreparedMacro;
pub use prepared_source::PreparedSource;
pub use pushed_macros::PushedMacros;
pub use replacement_list::{BodyToken, ReplacementList};
pub use substituting::{
    argument_of, decides_each_kind, paste, push_escaped, stringize, substitute_pattern,
};
pub use tables::Table;
pub use va_opt_chains::VaOptList;
