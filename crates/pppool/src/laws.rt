//! Theorems: functions that do nothing, whose contracts state the theorems. They call the theorems that they rest on.
ghost use Rattle.pppool.specs.Laws.{EachHasOneValue, HasSomeValues, JoinedAgree, RetainsOneList, ListGrows};

use ppunit::{growth, one_value, some_value};

/// Theorem: the values of units over the files that one worker knows are their values over the files that all know.
pub fn list_growth()
    ensures { ListGrows }
{
    growth();
}

/// Theorem: if file names are distinct, the values of a list's units over one set of files, such as what the pass knows
/// after `run`, are their only values over any larger set; their retained outputs are unique, too.
pub fn each_unit_has_one_value()
    ensures values { EachHasOneValue }
    ensures retained { RetainsOneList }
{
    one_value();
    growth();
}

/// Theorem: if the content of each file is known, and the units' files are among them, each unit of a list has a value,
/// with any budget and without one.
pub fn some_values()
    ensures { HasSomeValues }
{
    some_value();
}

/// Theorem: passes that were merged into one pass, one after the other, agree on each file that two of them know.
pub fn joined_passes_agree()
    ensures { JoinedAgree }
{}
