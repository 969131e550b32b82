//! The text of a file after phases 1 and 2: its characters, and where each is spelled.
//!
//! Few files have trigraphs, splices or CRs. The characters of other files are their own bytes, which are not copied.
//! A changed text has a copy of the codes and a table of line notes, not a location for each character, which would
//! take much more memory. A location is computed when it is asked for. The lexer asks in order, so a cursor moves
//! forward from line note to line note and reads each byte of the file at most once.
//!
//! `seek` has two fast paths, for characters before the next line note: within a line it adds to the column, and
//! otherwise it counts the new-lines. Both are inlined into the lexer's loop. The slow path, over line notes, is not.
ghost use Rattle.std.specs.Prelude.{◌≡◌, ◌+◌, ◌-◌, ◌<◌, ◌≤◌, ◌^◌, [], MatchOption, length, slice_index_or, take, drop};
ghost use Rattle.pptext.specs.Clean.{longest, codes_of, place};
ghost use Rattle.pptext.specs.code.Steps.{place_after};
ghost use Rattle.pptext.specs.code.CleanedText.{InLine, IsCursorAt, IsChangedText, text_from};
ghost use Rattle.pptext.specs.declared.characters.Char.{Char};

use crate::characters::advance::{move_after, place_after};
use crate::characters::steps::{CharStep, lacks_newline, next_step};
use crate::sources::Profile;
use crate::tokens::Place;
use std::marker::Model;

/// The text of a file that phases 1 and 2 change: the codes of its characters, and its table of line notes.
///
/// A line note marks where bytes are removed or replaced: a CR before an LF, a splice, or a trigraph. The table has an
/// entry for each line note: the number of bytes between it and the line note before, or the start.
#[derive(Drop)]
pub(crate) struct ChangedText {
    /// The codes of the characters.
    pub(crate) codes: Vec<u8>,
    /// The table of line notes.
    pub(crate) line_notes: Vec<u32>,
}

/// A position in a text: the index of the next character, the index of the byte in the file from which it is sought,
/// the number of bytes between that byte and the next line note, the table's entry after that line note, and the byte's
/// location.
#[derive(Clone, Copy)]
struct TextCursor {
    consumed: usize,
    offset: usize,
    plain: usize,
    next: usize,
    at: Place,
}

impl Model for TextCursor {
    ghost use Rattle.pptext.specs.code.CleanedText.{TextCursor};

    ghost Value = { TextCursor };

    ghost view = { λ c. record { consumed = c.consumed; offset = c.offset; plain = c.plain; next = c.next; at = c.at } };

    ghost inverse = { λ c. record { consumed = c.consumed; offset = c.offset; plain = c.plain; next = c.next; at = c.at } };
}

impl TextCursor {
    /// Advances by `len` of the bytes before the next line note.
    #[inline(always)]
    fn pass(&mut self, raw: &[u8], len: usize)
        requires small { length raw.now ≤ longest }
        requires fits { self.old.offset + len ≤ length raw.now }
        requires plain { len ≤ self.old.plain }
        requires counts { self.old.consumed + len < 2 ^ 64 }
        requires line { self.old.at.line ≤ self.old.offset + 1 }
        requires col { self.old.at.col ≤ self.old.offset + 1 }
        ensures { self.new ≡ record { consumed = self.old.consumed + len; offset = self.old.offset + len; plain = self.old.plain - len; next = self.old.next; at = place_after self.old.at (take len (drop self.old.offset raw.now)) } }
    {
        let offset = self.offset + len;
        move_after(&mut self.at, &raw[self.offset..offset]);
        self.consumed += len;
        self.offset = offset;
        self.plain -= len;
    }

    /// Returns the cursor after a line note whose bytes are `len` in number.
    fn skip(self, raw: &[u8], line_notes: &[u32], len: usize) -> TextCursor
        requires small { length raw.now ≤ longest }
        requires fits { self.offset + len ≤ length raw.now }
        requires next { self.next ≤ self.offset + 1 }
        requires line { self.at.line ≤ self.offset + 1 }
        requires col { self.at.col ≤ self.offset + 1 }
        ensures { result ≡ record {
          consumed = self.consumed;
          offset = self.offset + len;
          plain = slice_index_or line_notes.now self.next (length raw.now - (self.offset + len));
          next = self.next + 1;
          at = place_after self.at (take len (drop self.offset raw.now));
        } }
    {
        let offset = self.offset + len;
        TextCursor {
            consumed: self.consumed,
            offset,
            plain: plain_run_at(line_notes, self.next, raw.len() - offset),
            next: self.next + 1,
            at: place_after(self.at, &raw[self.offset..offset]),
        }
    }

    /// Advances by `len` of the bytes before the next line note, if no line ends among them.
    #[inline(always)]
    fn pass_along(&mut self, len: usize)
        requires offset { self.old.offset + len ≤ longest }
        requires plain { len ≤ self.old.plain }
        requires counts { self.old.consumed + len < 2 ^ 64 }
        requires col { self.old.at.col ≤ self.old.offset + 1 }
        ensures { self.new ≡ record { consumed = self.old.consumed + len; offset = self.old.offset + len; plain = self.old.plain - len; next = self.old.next; at = place self.old.at.file self.old.at.line (self.old.at.col + len) } }
    {
        self.at.col += len as u32;
        self.consumed += len;
        self.offset += len;
        self.plain -= len;
    }

    /// Advances the cursor to this character. No line ends from the character `line` up to it. From `line` on, no bytes
    /// are searched for ends of lines. There are two fast paths before `advance_over_notes`.
    #[inline(always)]
    fn seek(&mut self, raw: &[u8], line_notes: &[u32], profile: Profile, to: usize, line: usize)
        requires small { length raw.now ≤ longest }
        requires is_there { IsCursorAt profile self.old.at.file raw.now line_notes.now self.old }
        requires forward { self.old.consumed ≤ to }
        requires within { to < length (text_from profile self.old.at.file raw.now 0) }
        requires line { InLine (codes_of (text_from profile self.old.at.file raw.now 0)) line to }
        ensures is_there { IsCursorAt profile self.old.at.file raw.now line_notes.now self.new }
        ensures consumed { self.new.consumed ≡ to }
        ensures file { self.new.at.file ≡ self.old.at.file }
        ensures place { (d : Char) → self.new.at ≡ (slice_index_or (text_from profile self.old.at.file raw.now 0) to d).at }
    {
        let ahead = to - self.consumed;
        if ahead >= self.plain {
            self.advance_over_notes(raw, line_notes, profile, to);
            return;
        }
        if line <= self.consumed {
            self.pass_along(ahead);
            return;
        }
        self.pass(raw, ahead);
    }

    /// Advances the cursor to a character that may be after line notes.
    #[inline(never)]
    fn advance_over_notes(&mut self, raw: &[u8], line_notes: &[u32], profile: Profile, to: usize)
        requires small { length raw.now ≤ longest }
        requires is_there { IsCursorAt profile self.old.at.file raw.now line_notes.now self.old }
        requires forward { self.old.consumed ≤ to }
        requires within { to < length (text_from profile self.old.at.file raw.now 0) }
        ensures is_there { IsCursorAt profile self.old.at.file raw.now line_notes.now self.new }
        ensures consumed { self.new.consumed ≡ to }
        ensures file { self.new.at.file ≡ self.old.at.file }
        ensures place { (d : Char) → self.new.at ≡ (slice_index_or (text_from profile self.old.at.file raw.now 0) to d).at }
    {
        *self = self.advanced_over_notes(raw, line_notes, profile, to);
    }

    /// Returns the cursor at a character that may be after line notes.
    fn advanced_over_notes(
        self,
        raw: &[u8],
        line_notes: &[u32],
        profile: Profile,
        to: usize,
    ) -> TextCursor
        requires small { length raw.now ≤ longest }
        requires is_there { IsCursorAt profile self.at.file raw.now line_notes.now self }
        requires forward { self.consumed ≤ to }
        requires within { to < length (text_from profile self.at.file raw.now 0) }
        ensures is_there { IsCursorAt profile self.at.file raw.now line_notes.now result }
        ensures consumed { result.consumed ≡ to }
        ensures file { result.at.file ≡ self.at.file }
        ensures place { (d : Char) → result.at ≡ (slice_index_or (text_from profile self.at.file raw.now 0) to d).at }
    {
        let supplied = lacks_newline(raw);
        let mut cursor = self;
        while cursor.offset < raw.len() {
            let ahead = to - cursor.consumed;
            if ahead < cursor.plain {
                cursor.pass(raw, ahead);
                return cursor;
            }
            if cursor.plain > 0 {
                let plain = cursor.plain;
                cursor.pass(raw, plain);
                continue;
            }
            match next_step(&raw[cursor.offset..], supplied, profile) {
                CharStep::Removed(len) => cursor = cursor.skip(raw, line_notes, len),
                CharStep::Code(_, len) => {
                    if cursor.consumed == to {
                        return cursor;
                    }
                    cursor = cursor.skip(raw, line_notes, len);
                    cursor.consumed += 1;
                }
            }
        }
        cursor
    }
}

/// Returns the number of bytes before this line note, or before the end of the file if there is none.
fn plain_run_at(line_notes: &[u32], at: usize, to_end: usize) -> usize
    ensures { result ≡ slice_index_or line_notes.now at to_end }
{
    match line_notes.get(at) {
        Some(len) => *len as usize,
        None => to_end,
    }
}

/// Returns the table of line notes, which is empty if phases 1 and 2 change nothing.
fn notes_of(cleaned: &Option<ChangedText>) -> &[u32]
    ensures { MatchOption cleaned.now (result.now ≡ []) (λ c. result.now ≡ c.line_notes.items) }
{
    match cleaned {
        Some(cleaned) => cleaned.line_notes.as_slice(),
        None => &[],
    }
}

/// The text of a file after phases 1 and 2.
#[derive(Drop)]
pub(crate) struct CleanedText<'a> {
    file: u32,
    raw: &'a [u8],
    profile: Profile,
    cleaned: Option<ChangedText>,
}

impl<'a> Model for CleanedText<'a> {
    ghost use Rattle.std.specs.Prelude.{List, [], ◌≤◌, MatchOption, length};
    ghost use Rattle.pptext.specs.Clean.{longest};
    ghost use Rattle.pptext.specs.declared.characters.Char.{Char};

    ghost Value = { List Char };

    ghost use Rattle.pptext.specs.code.CleanedText.{IsChangedText, text_from};

    ghost view = { λ t. text_from t.profile t.file t.raw.now 0 };

    ghost invariant = { λ t. (length t.raw.now ≤ longest) × MatchOption t.cleaned (IsChangedText t.profile t.raw.now t.raw.now []) (λ c. IsChangedText t.profile t.raw.now c.codes.items c.line_notes.items) };
}

impl<'a> CleanedText<'a> {
    /// Makes the text of a file's bytes after its byte order mark. `cleaned` is the changed text, if phases 1 and 2
    /// change anything.
    pub(crate) fn new(
        file: u32,
        raw: &'a [u8],
        profile: Profile,
        cleaned: Option<ChangedText>,
    ) -> CleanedText<'a>
        requires small { length raw.now ≤ longest }
        requires is_cleaned { MatchOption cleaned (IsChangedText profile raw.now raw.now []) (λ c. IsChangedText profile raw.now c.codes.items c.line_notes.items) }
        ensures { result ≡ text_from profile file raw.now 0 }
    {
        CleanedText {
            file,
            raw,
            profile,
            cleaned,
        }
    }

    /// Returns the codes of the characters.
    pub(crate) fn codes(&self) -> &[u8]
        ensures { result.now ≡ codes_of self.now }
    {
        match &self.cleaned {
            Some(cleaned) => cleaned.codes.as_slice(),
            None => self.raw,
        }
    }

    /// Creates a reader of the characters' locations, from the first character on.
    pub(crate) fn places(&self) -> Places<'_>
        ensures { result ≡ record { chars = self.now; consumed = 0 } }
    {
        let raw = self.raw;
        let line_notes = notes_of(&self.cleaned);
        let cursor = TextCursor {
            consumed: 0,
            offset: 0,
            plain: plain_run_at(line_notes, 0, raw.len()),
            next: 1,
            at: Place {
                file: self.file,
                line: 1,
                col: 1,
            },
        };
        Places {
            raw,
            line_notes,
            profile: self.profile,
            cursor,
        }
    }
}

/// The locations of a text's characters, in order.
///
/// They are found by reading the file's bytes from line note to line note.
#[derive(Drop)]
pub(crate) struct Places<'a> {
    raw: &'a [u8],
    line_notes: &'a [u32],
    profile: Profile,
    cursor: TextCursor,
}

impl<'a> Model for Places<'a> {
    ghost use Rattle.std.specs.Prelude.{◌≤◌, length};
    ghost use Rattle.pptext.specs.Clean.{longest};
    ghost use Rattle.pptext.specs.code.CleanedText.{Reading};

    ghost Value = { Reading };

    ghost use Rattle.pptext.specs.code.CleanedText.{IsCursorAt, text_from};

    ghost view = { λ t. record { chars = text_from t.profile t.cursor.at.file t.raw.now 0; consumed = t.cursor.consumed } };

    ghost invariant = { λ t. (length t.raw.now ≤ longest) × IsCursorAt t.profile t.cursor.at.file t.raw.now t.line_notes.now t.cursor };
}

impl<'a> Places<'a> {
    /// Returns the location of a character, which must not be before the last one asked for. No line ends from the
    /// character `line` up to it.
    #[inline(always)]
    pub(crate) fn place(&mut self, at: usize, line: usize) -> Place
        requires within { at < length self.old.chars }
        requires forward { self.old.consumed ≤ at }
        requires line { InLine (codes_of self.old.chars) line at }
        ensures place { (d : Char) → result ≡ (slice_index_or self.old.chars at d).at }
        ensures after { self.new ≡ record { chars = self.old.chars; consumed = at } }
    {
        let raw = self.raw;
        let line_notes = self.line_notes;
        let profile = self.profile;
        self.cursor.seek(raw, line_notes, profile, at, line);
        self.cursor.at
    }
}
