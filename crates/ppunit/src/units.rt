//! The input and the output of preprocessing a unit.
ghost use Rattle.std.specs.Prelude.{◌≡◌, IfOk};

use crate::collections::{Items, Rows};
use crate::command_macros::CommandMacros;
use pptext::{
    Fault, Memory, OwnedText, OwnedTexts, Place, Profile, Sequence, Spelling, Token, Tokens,
};

/// Why a mark is made.
#[derive(Clone, Copy, Debug)]
pub enum MarkSort {
    /// A file is entered. The place is that of the `#` of the include line.
    Enter(Place),
    /// A file is left, and the including file goes on.
    Leave,
    /// The number, the name or the kind of the lines that follow changes (6.10.4).
    Line,
}

/// From here on a physical line of a file has a presumed number and name (6.10.4).
#[derive(Drop, Debug)]
pub struct Mark {
    pub sort: MarkSort,
    /// The row of the current file.
    pub row: usize,
    /// A physical line, from 1.
    pub physical: usize,
    /// The presumed number of that line.
    pub line: usize,
    /// The presumed name, as a string literal.
    pub name: Spelling,
    /// Whether the file is a system header.
    pub system: bool,
}

impl Mark {
    /// Copies the mark. Fails only if an allocation fails.
    pub(crate) fn copy(&self) -> Result<Mark, Memory>
        ensures { IfOk result (λ m. m ≡ self.now) }
    {
        Ok(Mark {
            sort: self.sort,
            row: self.row,
            physical: self.physical,
            line: self.line,
            name: self.name.clone()?,
            system: self.system,
        })
    }
}

/// An item of the output, for translation phase 5 (5.1.1.2): a token, a pragma with the location of its `#` and the
/// tokens after `pragma` (6.10.6), or a mark, which is no part of the translation unit, and says from which lines of which
/// files the others are.
#[derive(Drop, Debug)]
pub enum Item {
    Token(Token),
    Pragma(Place, Tokens),
    Mark(Mark),
}

/// The output of a unit: its items up to its first fault, the indices of the files that it depends on, and that fault.
#[derive(Drop)]
pub struct UnitOut<'a> {
    pub items: Items<'a>,
    pub deps: Rows,
    pub fault: Option<Fault>,
}

/// How the files of a directory are shown: the name of the directory in theirs, if it isn't its own, and whether they are
/// system headers.
#[derive(Drop, Debug)]
pub struct ShownDirectory {
    pub shown: Option<OwnedText>,
    pub system: bool,
}

/// How directories are shown. The model is the list of what is said of each.
pub type ShownDirectories = Sequence<ShownDirectory>;

/// A file that is read before the unit's own: its index, its shown name, if that isn't its own, and whether it is a system
/// header.
#[derive(Drop, Debug)]
pub struct FirstFile {
    pub file: usize,
    pub shown: Option<OwnedText>,
    pub system: bool,
}

/// What all units of a list share: their profile, the date and the time of their translation (6.10.8.1), the
/// directories that are searched for headers and how each of them is shown, and a budget for each unit. The budget is the largest total of replaced
/// macro names (6.10.3) and opened files (6.10.2); without one there is no limit.
#[derive(Drop, Debug)]
pub struct Setting {
    pub profile: Profile,
    pub date: OwnedText,
    pub time: OwnedText,
    pub search: OwnedTexts,
    pub search_shown: ShownDirectories,
    pub budget: Option<u64>,
}

/// A unit of a list: the index of its file and its shown name, if that isn't its own; its definitions; the files that are read
/// before its own; and the directories that are searched before the setting's, with how each of them is shown.
#[derive(Drop, Debug)]
pub struct Unit {
    pub file: usize,
    pub shown: Option<OwnedText>,
    pub defines: CommandMacros,
    pub first: Sequence<FirstFile>,
    pub search: OwnedTexts,
    pub search_shown: ShownDirectories,
}
