//! The inputs of a substitution: the arguments and the macro name token of an invocation.
use crate::hidden_token::{ArgumentExpansion, Hidden};
use crate::hide_sets::Set;
use pptext::Place;

/// The arguments of an invocation (6.10.3.1). There is one for each parameter, except for a variable argument that is absent.
#[derive(Clone, Copy)]
pub struct Arguments<'s, 'x> {
    /// The tokens of each argument, not expanded.
    pub given: &'s [Vec<Hidden<'x>>],
    /// The expansion of each argument that the replacement list uses away from `#` and `##`.
    pub expanded: &'s [ArgumentExpansion<'x>],
}

/// The macro name token of an invocation. `name` and the names of `base` are added to the hide set of each token of the replacement.
#[derive(Clone, Copy)]
pub struct MacroName<'n> {
    /// The hide set of the invocation, to which `name` is added.
    pub base: Set,
    pub name: &'n [u8],
    /// The location of the macro name, which is the expansion location of each token of the replacement.
    pub used: Place,
    /// Whether white space precedes the macro name.
    pub space: bool,
}
