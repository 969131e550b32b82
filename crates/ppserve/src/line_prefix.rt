//! Writes the part of a token's line before the spelling.
ghost use Rattle.std.specs.Prelude.{◌≡◌, ◌+◌, ◌≤◌, ◌++◌, [], codes, decimal, length, take};
ghost use Rattle.ppserve.specs.Output.{kind_letter, space_sign as space_sign_of};
ghost use Rattle.ppserve.specs.code.LinePrefix.{before_spelling, location_prefix, max_location, max_locations, max_prefix};

use crate::formatting::{Digits, put_byte, put_number, put_prefix};
use pptext::{Kind, Place};
use std::marker::Model;

/// The capacity for the prefix of a location: a space, two numbers of at most ten digits, and two colons. Copies of 32
/// bytes are fast.
const CAPACITY: usize = 32;

/// The largest number of bytes before a token's spelling: a word of 3, two locations of 33, and 4 after them.
pub(crate) const MAX_PREFIX: usize = 73;

/// What the line of a token has before the spelling.
#[derive(Clone, Copy)]
pub(crate) struct LineFields {
    /// The spelling location.
    pub at: Place,
    /// The expansion location.
    pub used: Place,
    pub kind: Kind,
    /// Whether white space precedes the token.
    pub space: bool,
}

/// The prefix ` FILE:LINE:` of the locations on one line of a file. Its model is its bytes.
#[derive(Drop)]
struct LocationPrefix {
    file: u32,
    line: u32,
    text: [u8; CAPACITY],
    file_len: usize,
    len: usize,
}

impl Model for LocationPrefix {
    ghost use Rattle.std.specs.Prelude.{◌≡◌, ◌≤◌, ℕ, List, take};
    ghost use Rattle.ppserve.specs.code.LinePrefix.{file_prefix, location_prefix};

    ghost Value = { List ℕ };

    ghost view = { λ s. take s.len s.text };

    ghost invariant = { λ s.
        (s.len ≤ 23) × (s.file_len ≤ 12)
        × (take s.file_len s.text ≡ file_prefix s.file)
        × (take s.len s.text ≡ location_prefix s.file s.line) };
}

impl LocationPrefix {
    /// Formats the prefix of this line.
    fn new(file: u32, line: u32) -> LocationPrefix
        ensures { result ≡ location_prefix file line }
    {
        let mut text = [b' '; CAPACITY];
        let end = put_number(&mut text, 1, file);
        let file_len = put_byte(&mut text, end, b':');
        let end = put_number(&mut text, file_len, line);
        let len = put_byte(&mut text, end, b':');
        LocationPrefix {
            file,
            line,
            text,
            file_len,
            len,
        }
    }

    /// Updates the prefix for another location, which mostly is on the same line.
    #[inline(always)]
    fn switch_to(&mut self, place: Place)
        ensures { self.new ≡ location_prefix place.file place.line }
    {
        if self.line != place.line || self.file != place.file {
            self.set_line(place.file, place.line);
        }
    }

    /// Updates the prefix for another line, which mostly is in the same file.
    #[inline(never)]
    fn set_line(&mut self, file: u32, line: u32)
        ensures { self.new ≡ location_prefix file line }
    {
        if self.file != file {
            *self = LocationPrefix::new(file, line);
            return;
        }
        let end = put_number(&mut self.text, self.file_len, line);
        self.len = put_byte(&mut self.text, end, b':');
        self.line = line;
    }

    /// Writes a location on the line after the first `end` bytes. Returns where it ends.
    #[inline(always)]
    fn put(&self, bytes: &mut [u8], end: usize, col: u32) -> usize
        requires { end + max_location ≤ length bytes.old }
        ensures text { take result bytes.new ≡ take end bytes.old ++ self.now ++ decimal col }
        ensures within { result ≤ end + max_location }
    {
        let end = put_prefix(bytes, end, &self.text, self.len);
        put_number(bytes, end, col)
    }

    /// Writes a location on the line twice. Returns where the second ends.
    #[inline(always)]
    fn put_twice(&self, bytes: &mut [u8], end: usize, col: u32) -> usize
        requires { end + max_locations ≤ length bytes.old }
        ensures text { take result bytes.new ≡ take end bytes.old ++ self.now ++ decimal col ++ self.now ++ decimal col }
        ensures within { result ≤ end + max_locations }
    {
        if col >= 100 {
            let end = self.put(bytes, end, col);
            return self.put(bytes, end, col);
        }
        let digits = Digits::of(col);
        let end = put_prefix(bytes, end, &self.text, self.len);
        let end = digits.put(bytes, end);
        let end = put_prefix(bytes, end, &self.text, self.len);
        digits.put(bytes, end)
    }
}

/// The prefixes of the last token's locations. The next token's are mostly the same.
#[derive(Drop)]
pub(crate) struct LastPrefixes {
    at: LocationPrefix,
    used: LocationPrefix,
}

impl LastPrefixes {
    /// Creates the prefixes of line 0 of file 0.
    pub(crate) fn new() -> LastPrefixes {
        LastPrefixes {
            at: LocationPrefix::new(0, 0),
            used: LocationPrefix::new(0, 0),
        }
    }

    /// Writes what is before the spelling of a token after the first `end` bytes. Returns where it ends.
    #[inline(always)]
    pub(crate) fn put(&mut self, bytes: &mut [u8], end: usize, fields: LineFields) -> usize
        requires { end + max_prefix ≤ length bytes.old }
        ensures text { take result bytes.new ≡ take end bytes.old ++ codes "tok" ++ before_spelling fields.at fields.used fields.kind fields.space }
        ensures within { result ≤ end + max_prefix }
    {
        let end = put_prefix(bytes, end, b"tok", 3);
        let end = self.put_places(bytes, end, fields.at, fields.used);
        let end = put_byte(bytes, end, b' ');
        let end = put_byte(bytes, end, letter(fields.kind));
        let end = put_byte(bytes, end, space_sign(fields.space));
        put_byte(bytes, end, b' ')
    }

    /// Writes both locations. Most tokens are spelled where they are used, so that one prefix serves both.
    #[inline(always)]
    fn put_places(&mut self, bytes: &mut [u8], end: usize, at: Place, used: Place) -> usize
        requires { end + max_locations ≤ length bytes.old }
        ensures text { take result bytes.new ≡ take end bytes.old ++ location_prefix at.file at.line ++ decimal at.col
            ++ location_prefix used.file used.line ++ decimal used.col }
        ensures within { result ≤ end + max_locations }
    {
        self.used.switch_to(used);
        if at == used {
            return self.used.put_twice(bytes, end, used.col);
        }
        self.at.switch_to(at);
        let end = self.at.put(bytes, end, at.col);
        self.used.put(bytes, end, used.col)
    }
}

/// Returns `+` if white space precedes the token, and `-` otherwise.
#[inline(always)]
fn space_sign(space: bool) -> u8
    ensures { result ≡ space_sign_of space }
{
    if space { b'+' } else { b'-' }
}

/// Returns the letter of a kind of token.
#[inline(always)]
fn letter(kind: Kind) -> u8
    ensures { result ≡ kind_letter kind }
{
    match kind {
        Kind::Ident => b'i',
        Kind::Number => b'n',
        Kind::CharConst => b'c',
        Kind::Str => b's',
        Kind::Punct => b'p',
        Kind::Header => b'h',
        Kind::Other => b'o',
    }
}
