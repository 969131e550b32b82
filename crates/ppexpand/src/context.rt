//! The context in which a list is expanded.
use crate::env::Env;
use ppmacro::Table;

/// The inputs of the expansion of a list. The expansion does not change them.
#[derive(Drop)]
pub(crate) struct Context<'t, 'a> {
    pub(crate) table: &'t Table<'a>,
    pub(crate) env: &'t Env<'t>,
    /// The number of arguments around the list: 0 for text lines.
    pub(crate) level: u32,
}
