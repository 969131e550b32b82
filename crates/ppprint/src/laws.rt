//! Theorems about the text: functions that do nothing, whose contracts state the theorems.
ghost use Rattle.ppprint.specs.Laws.{ReadsBack, ReadsOnce, ReadsAsOneFile, StaysInPhases1And2, ShowsWellSpelled};

/// Theorem: the text of items, read by its lines, has exactly their tokens and pragmas, each at its presumed location,
/// and enters and leaves the files that they enter and leave (6.10.4).
pub fn reads_back()
    ensures { ReadsBack }
{}

/// Theorem: a text with line markers is read in one way.
pub fn reads_once()
    ensures { ReadsOnce }
{}

/// Theorem: translation phase 3 (5.1.1.2) finds in the whole text the tokens of its lines, and no comment.
pub fn reads_as_one_file()
    ensures { ReadsAsOneFile }
{}

/// Theorem: translation phases 1 and 2 (5.1.1.2) change nothing in the text of items that begin with a mark, unless a
/// trigraph is in a spelling or a name.
pub fn stays_in_phases_1_and_2()
    ensures { StaysInPhases1And2 }
{}

/// Theorem: what is shown of a unit's items, if their tokens are spelled by their kinds (6.4), is as the theorems above
/// ask, the pragmas of the operator `_Pragma` (6.10.9) too.
pub fn shows_well_spelled()
    ensures { ShowsWellSpelled }
{}
