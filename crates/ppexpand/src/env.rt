//! The rules in use, and the values of the predefined macros.
use crate::file_name::FileName;
use pptext::{Profile, Spelling};

/// The rules in use, and the values of the predefined macros that are not constant (6.10.8.1): `__FILE__`, `__LINE__`, `__DATE__` and
/// `__TIME__`.
#[derive(Drop, Debug)]
pub struct Env<'x> {
    /// The presumed name of the file.
    pub name: FileName<'x>,
    /// The presumed line of a token minus its line in the file (6.10.4).
    pub shift: i64,
    /// The date of translation as `Mmm dd yyyy`, without quotes.
    pub date: Spelling,
    /// The time of translation as `hh:mm:ss`, without quotes.
    pub time: Spelling,
    /// The rules in use. They say in which order the arguments of an invocation are expanded.
    pub profile: Profile,
}
