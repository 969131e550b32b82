//! Macro replacement of C11 (6.10.3) with hide sets, and the proof that it terminates.
#![tactic(auto)]

mod arguments;
mod context;
mod emitted;
mod env;
mod expand_step;
mod expansion;
mod file_name;
mod laws;
mod lists;
mod lone_steps;
mod meter;
mod open_invocations;
mod predefined;
mod scratch;
mod token_list;
mod token_roles;
mod token_slice;
mod token_span;
mod token_stack;
mod vec_pool;
mod waiting_tokens;

pub use emitted::Piece;
pub use env::Env;
pub use expansion::{Expanded, expand, expand_list};
pub use file_name::{FileName, literal};
pub use laws::{
    budget_caps, budget_is_spent, expansion_terminates, finds_arguments, finds_no_arguments,
    leaves_fully_expanded_tokens, leaves_open, one_expansion, one_outcome, only_budgets_refuse,
    prefixes_terminate, without_a_budget,
};
pub use meter::Meter;
pub use open_invocations::{OpenExpansion, expand_open};
pub use scratch::Scratch;
pub use token_list::TokenList;
pub use token_slice::{SliceIter, Slices, TokenRef, TokenSlice};
pub use token_span::TokenSpan;
pub use waiting_tokens::WaitingTokens;
