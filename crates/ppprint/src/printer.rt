//! The state of a unit's text: what the marks up to here say, and the line that is being written.
//!
//! The number of the line is stored as the distance from the number that the last mark gave. So tokens are compared by
//! physical lines, and only markers need the presumed number.
ghost use Rattle.std.specs.Prelude.{◌≡◌, ◌+◌, ◌-◌, ◌<◌, ◌≤◌, ◌^◌, ◌&&◌, ◌||◌, false, [], is_some, is_none};
ghost use Rattle.ppshelf.specs.Files.{max_rows};
ghost use Rattle.ppprint.specs.Apart.{are_apart};
ghost use Rattle.ppprint.specs.Located.{location, numbered, turn_of};
ghost use Rattle.ppprint.specs.Shown.{Renumbers};
ghost use Rattle.ppprint.specs.Text.{column_spaces, empty_line, is_hash_text, line_after, most_spaces, padding, space_after, space_between, spaces_before, start_spaces, turn_flag, written};
ghost use Rattle.ppprint.specs.code.Steps.{IsMarker, IsMarkStep, IsPragmaStep, stays, step_line, step_way, target_location, token_step};
ghost use Rattle.ppprint.specs.code.Tokens.{printed_token};
ghost use Rattle.ppprint.specs.code.Writings.{written_of};

use crate::apart::Written;
use crate::system_files::SystemFiles;
use crate::text_token::TextToken;
use ppshelf::MAX_ROWS;
use pptext::Place;
use ppunit::{Mark, MarkSort};
use std::marker::Model;

/// The largest number of new-lines that are written in the place of a marker.
const MOST_NEW_LINES: usize = 8;

/// The largest number of spaces that keep a column.
const MOST_SPACES: usize = 1024;

/// The largest number of characters that are counted. No token has a greater column.
const MOST_COLUMNS: usize = u32::MAX as usize;

/// How the location of a token is reached from the line. `ends` says whether the line has a token, so that it must be
/// ended.
#[derive(Clone, Copy, Debug, PartialEq, Eq)]
pub enum Way {
    /// It is that of the line.
    Stay,
    /// By this number of new-lines, 1 to 8.
    Down { ends: bool, lines: usize },
    /// By a line marker.
    Jump { ends: bool },
}

/// What is written for a token: the way to its location, spaces, and the token.
#[derive(Clone, Copy)]
pub struct TokenStep {
    pub way: Way,
    /// Whether it is the first token of its line.
    pub is_first: bool,
    /// The spaces before it.
    pub spaces: usize,
}

/// A line marker.
#[derive(Clone, Copy)]
pub struct Marker<'a> {
    /// The presumed number of the next line.
    pub number: u128,
    /// The presumed name, a string literal.
    pub name: &'a [u8],
    /// Whether the next line belongs to a system header.
    pub system: bool,
    /// The flag 1 or 2 after a space, or nothing.
    pub flag: &'static str,
}

/// What is written for a pragma: the way to its location, a marker of it if a token is on the line then, and the pragma.
#[derive(Clone, Copy)]
pub struct PragmaStep<'a> {
    pub way: Way,
    pub has_own_marker: bool,
    pub marker: Marker<'a>,
}

/// What is written for a mark: the end of the line if there is a token on it, and a marker.
#[derive(Clone, Copy)]
pub struct MarkStep<'a> {
    pub ends: bool,
    pub marker: Marker<'a>,
}

/// The location of an item: the distance of its presumed line from that of the last mark, and its system flag.
#[derive(Clone, Copy)]
struct Target {
    distance: usize,
    system: bool,
}

/// The state of a unit's text. Contracts see the line that is being written and the numbering of the marks.
#[derive(Drop)]
pub struct Printer<'a> {
    /// The files that are system headers.
    systems: &'a SystemFiles,
    /// The row of the current file.
    row: usize,
    /// A physical line of it, and the presumed number of that line.
    physical: usize,
    number: usize,
    /// The presumed name.
    name: &'a [u8],
    /// Whether the current file is a system header.
    here: bool,
    /// The distance of the presumed number of the line that is being written from `number`.
    distance: usize,
    /// Whether the line belongs to a system header.
    system: bool,
    /// The number of characters on the line.
    columns: usize,
    /// The last token on the line.
    last: Option<Written<'a>>,
    /// Whether the line takes no more tokens.
    is_closed: bool,
}

impl<'a> Model for Printer<'a> {
    ghost use Rattle.ppprint.specs.code.Progress.{Progress};

    ghost Value = { Progress };

    ghost use Rattle.ppprint.specs.code.Printers.{progress_of, IsProgress};

    ghost view = { progress_of };

    ghost invariant = { IsProgress };
}

impl<'a> Printer<'a> {
    /// Returns the state before the first item of a unit, or of a part of it that begins with a mark. These files are
    /// system headers after that mark.
    pub fn new(systems: &'a SystemFiles) -> Printer<'a>
        ensures line { result.line ≡ empty_line 0 false }
        ensures numbering { result.numbering ≡ record { row = max_rows; physical = 0; line = 0; name = []; systems = systems.now } }
    {
        Printer {
            systems,
            row: MAX_ROWS,
            physical: 0,
            number: 0,
            name: b"",
            here: systems.contains(MAX_ROWS),
            distance: 0,
            system: false,
            columns: 0,
            last: None,
            is_closed: false,
        }
    }

    /// Returns the marker of the line.
    pub fn marker(&self) -> Marker<'a>
        ensures { IsMarker Renumbers (record { name = self.now.numbering.name; line = self.now.line.number; system = self.now.line.system }) result }
    {
        Marker {
            number: self.number as u128 + self.distance as u128,
            name: self.name,
            system: self.system,
            flag: "",
        }
    }

    /// Returns whether a token is on the line.
    pub fn has_token(&self) -> bool
        ensures { result ≡ is_some self.now.line.last }
    {
        self.last.is_some()
    }

    /// Moves over a mark. The system files are those after it.
    pub fn mark(&mut self, mark: &'a Mark) -> MarkStep<'a>
        ensures step { IsMarkStep self.old.line (turn_of mark.now.row mark.now.sort) (location self.new.numbering mark.now.physical mark.now.row) result }
        ensures line { let at = location self.new.numbering mark.now.physical mark.now.row in self.new.line ≡ empty_line at.line at.system }
        ensures numbering { self.new.numbering ≡ numbered self.old.numbering.systems mark.now }
    {
        let ends = self.has_token();
        let systems = self.systems;
        let here = systems.contains(mark.row);
        *self = Printer {
            systems,
            row: mark.row,
            physical: mark.physical,
            number: mark.line,
            name: mark.name.as_bytes(),
            here,
            distance: 0,
            system: here,
            columns: 0,
            last: None,
            is_closed: false,
        };
        let marker = Marker {
            number: mark.line as u128,
            name: mark.name.as_bytes(),
            system: here,
            flag: flag_of(mark.row, mark.sort),
        };
        MarkStep { ends, marker }
    }

    /// Moves over a token.
    #[inline(always)]
    pub fn token(&mut self, token: TextToken<'a>) -> TokenStep
        ensures step { result ≡ token_step self.old.line (location self.old.numbering token.entry.used.line token.entry.at.file) (printed_token token.entry) }
        ensures line { self.new.line ≡ line_after (step_line self.old.line (location self.old.numbering token.entry.used.line token.entry.at.file)) (printed_token token.entry) }
        ensures numbering { self.new.numbering ≡ self.old.numbering }
    {
        let target = self.target(token.used.line, token.at.file);
        let way = self.go(target);
        let is_first = !self.has_token();
        let spaces = self.spaces_before(token);
        self.put(token, spaces, is_first);
        TokenStep {
            way,
            is_first,
            spaces,
        }
    }

    /// Moves over a pragma of the current file.
    pub fn pragma(&mut self, at: Place) -> PragmaStep<'a>
        ensures step { IsPragmaStep self.old.line (location self.old.numbering at.line self.old.numbering.row) result }
        ensures line { let target = location self.old.numbering at.line self.old.numbering.row in self.new.line ≡ empty_line (target.line + 1) target.system }
        ensures numbering { self.new.numbering ≡ self.old.numbering }
    {
        let target = Target {
            distance: self.distance_of(at.line),
            system: self.here,
        };
        self.own_line(target)
    }

    /// Moves over the pragma of an operator, whose name is this token.
    pub fn operator(&mut self, name: TextToken<'a>) -> PragmaStep<'a>
        ensures step { IsPragmaStep self.old.line (location self.old.numbering name.entry.used.line name.entry.at.file) result }
        ensures line { let at = location self.old.numbering name.entry.used.line name.entry.at.file in self.new.line ≡ empty_line (at.line + 1) at.system }
        ensures numbering { self.new.numbering ≡ self.old.numbering }
    {
        let target = self.target(name.used.line, name.at.file);
        self.own_line(target)
    }

    /// Returns the distance of a physical line's presumed number.
    #[inline(always)]
    fn distance_of(&self, line: u32) -> usize
        ensures { result ≡ line - self.now.numbering.physical }
    {
        (line as usize).saturating_sub(self.physical)
    }

    /// Returns the location of what a file spells and a physical line of the current file uses.
    #[inline(always)]
    fn target(&self, line: u32, file: u32) -> Target
        ensures at { target_location self.now.numbering result ≡ location self.now.numbering line file }
        ensures near { result.distance ≤ line }
    {
        let file = file as usize;
        let system = if file == self.row || file == MAX_ROWS {
            self.here
        } else {
            self.systems.contains(file)
        };
        Target {
            distance: self.distance_of(line),
            system,
        }
    }

    /// Moves to a location.
    #[inline(always)]
    fn go(&mut self, target: Target) -> Way
        ensures way { result ≡ step_way self.old.line (target_location self.old.numbering target) }
        ensures line { self.new.line ≡ step_line self.old.line (target_location self.old.numbering target) }
        ensures numbering { self.new.numbering ≡ self.old.numbering }
    {
        if target.distance == self.distance && target.system == self.system && !self.is_closed {
            return Way::Stay;
        }
        self.leave(target)
    }

    /// Moves to a location on another line.
    #[inline(never)]
    fn leave(&mut self, target: Target) -> Way
        requires { stays self.old.line (target_location self.old.numbering target) ≡ false }
        ensures way { result ≡ step_way self.old.line (target_location self.old.numbering target) }
        ensures line { self.new.line ≡ step_line self.old.line (target_location self.old.numbering target) }
        ensures numbering { self.new.numbering ≡ self.old.numbering }
    {
        let ends = self.has_token();
        let lines = target.distance.saturating_sub(self.distance);
        let is_down = target.system == self.system && lines >= 1 && lines <= MOST_NEW_LINES;
        self.distance = target.distance;
        self.system = target.system;
        self.clear();
        if is_down {
            Way::Down { ends, lines }
        } else {
            Way::Jump { ends }
        }
    }

    /// Begins an empty line.
    fn clear(&mut self)
        ensures line { self.new.line ≡ empty_line self.old.line.number self.old.line.system }
        ensures numbering { self.new.numbering ≡ self.old.numbering }
    {
        self.columns = 0;
        self.last = None;
        self.is_closed = false;
    }

    /// Moves over a pragma at a location, which has a line of its own.
    fn own_line(&mut self, target: Target) -> PragmaStep<'a>
        requires { target.distance < 2 ^ 32 }
        ensures step { IsPragmaStep self.old.line (target_location self.old.numbering target) result }
        ensures line { let at = target_location self.old.numbering target in self.new.line ≡ empty_line (at.line + 1) at.system }
        ensures numbering { self.new.numbering ≡ self.old.numbering }
    {
        let way = self.go(target);
        let has_own_marker = self.has_token();
        let marker = self.marker();
        self.clear();
        self.distance = target.distance + 1;
        PragmaStep {
            way,
            has_own_marker,
            marker,
        }
    }

    /// Returns the number of spaces before a token on the line.
    #[inline(always)]
    fn spaces_before(&self, token: TextToken<'a>) -> usize
        ensures value { result ≡ spaces_before self.now.line (printed_token token.entry) }
        ensures few { result ≤ most_spaces + 1 }
    {
        match self.last {
            None => first_spaces(columns_before(token), token.text.as_bytes()),
            Some(last) => {
                let between = space_between(last, token);
                between + column_spaces(self.columns + between, token)
            }
        }
    }

    /// Puts a token on the line after spaces.
    #[inline(always)]
    fn put(&mut self, token: TextToken<'a>, spaces: usize, is_first: bool)
        requires spaces { spaces ≡ spaces_before self.old.line (printed_token token) }
        requires few { spaces ≤ most_spaces + 1 }
        requires first { is_first ≡ is_none self.old.line.last }
        ensures line { self.new.line ≡ line_after self.old.line (printed_token token.entry) }
        ensures numbering { self.new.numbering ≡ self.old.numbering }
    {
        let written = token.written();
        let end = self.columns + spaces + written.text.len() + space_after(written.text);
        self.columns = end.min(MOST_COLUMNS);
        self.is_closed = is_first && is_hash(written.text);
        self.last = Some(written);
    }
}

/// Returns the flag of a mark of the file at this row. The unit's own file is entered at its own first byte.
fn flag_of(row: usize, sort: MarkSort) -> &'static str
    ensures { result.now ≡ turn_flag (turn_of row sort) }
{
    match sort {
        MarkSort::Enter(at) => {
            if at.file as usize == row && at.line == 1 && at.col == 1 {
                ""
            } else {
                " 1"
            }
        }
        MarkSort::Leave => " 2",
        MarkSort::Line => "",
    }
}

/// Returns the number of columns before a token's expansion location.
#[inline(always)]
fn columns_before(token: TextToken) -> usize
    ensures { result ≡ token.entry.used.col - 1 }
{
    (token.used.col as usize).saturating_sub(1)
}

/// Returns the number of spaces between two tokens, without those that keep a column.
#[inline(always)]
fn space_between(last: Written, token: TextToken) -> usize
    ensures value { result ≡ space_between (written_of last.entry) (printed_token token.entry) }
    ensures few { result ≤ 1 }
{
    if is_spaced(last, token) { 1 } else { 0 }
}

/// Returns whether white space is written between two tokens.
#[inline(always)]
fn is_spaced(last: Written, token: TextToken) -> bool
    ensures { result ≡ (token.entry.space || are_apart (written_of last.entry) (written (printed_token token.entry))) }
{
    token.space || last.is_apart_from(token.written())
}

/// Returns the number of spaces that take a token to its column, if it is spelled where it is used.
#[inline(always)]
fn column_spaces(columns: usize, token: TextToken) -> usize
    ensures value { result ≡ column_spaces columns (printed_token token.entry) }
    ensures few { result ≤ most_spaces }
{
    if token.at == token.used {
        padding(columns_before(token).saturating_sub(columns))
    } else {
        0
    }
}

/// Returns this number of spaces, or 0 if they are too many.
#[inline(always)]
fn padding(spaces: usize) -> usize
    ensures { result ≡ padding spaces }
{
    if spaces <= MOST_SPACES { spaces } else { 0 }
}

/// Returns the number of spaces before the first token of a line.
#[inline(always)]
fn first_spaces(column: usize, text: &[u8]) -> usize
    ensures { result ≡ start_spaces column text.now }
{
    let spaces = padding(column);
    if spaces == 0 && (is_hash(text) || matches!(text, [b'#', b'#'])) {
        1
    } else {
        spaces
    }
}

/// Returns whether a token with this spelling begins a directive at the beginning of a line.
#[inline(always)]
fn is_hash(text: &[u8]) -> bool
    ensures { result ≡ is_hash_text text.now }
{
    matches!(text, [b'#'] | [b'%', b':'])
}

/// Returns the number of spaces after a token: one after `\`, which would continue the line at its end.
#[inline(always)]
pub(crate) fn space_after(text: &[u8]) -> usize
    ensures { result ≡ space_after text.now }
{
    if matches!(text, [b'\\']) { 1 } else { 0 }
}
