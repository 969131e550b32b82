//! Conditional inclusion of C11 (6.10.1): evaluates the controlling expressions of `#if` and `#elif`.
#![tactic(auto)]

mod characters;
mod conditions;
mod defined_only;
mod defined_operator;
mod evaluation;
mod integers;
mod laws;
mod nesting;
mod operators;
mod parsing;
mod symbols;
mod tokens;
mod values;

pub use conditions::evaluate;
pub use laws::{
    budget_caps, budget_is_spent, one_condition, one_tree, only_budgets_refuse, reads_constants,
    some_condition, value_has_its_type, without_a_budget,
};
