//! Syntax of the texts of a setting and of a unit.
ghost use Rattle.std.specs.Prelude.{◌≡◌, length, nat_le, nat_lt};
ghost use Rattle.std.specs.List.{list_all};
ghost use Rattle.ppshelf.specs.Content.{longest};
ghost use Rattle.ppunit.specs.WellFormed as spec;
ghost use Rattle.ppunit.specs.Unit.{command_text};

use crate::units::{FirstFile, Setting, Unit};
use ppshelf::{Disk, LONGEST, Shelf};
use pptext::{OwnedText, Profile};

/// Returns whether the text has the format of `__DATE__` (6.10.8.1): `Mmm dd yyyy`, with a space before a day below 10.
pub fn is_date(text: &[u8]) -> bool
    ensures { result ≡ spec.is_date text.now }
{
    text.len() == 11
        && is_month(&text[..3])
        && text[3] == b' '
        && is_day(text[4], text[5])
        && text[6] == b' '
        && is_digits(&text[7..])
}

/// Returns whether the text abbreviates the name of a month.
fn is_month(text: &[u8]) -> bool
    ensures { result ≡ spec.is_month text.now }
{
    match text {
        b"Jan" | b"Feb" | b"Mar" | b"Apr" | b"May" | b"Jun" => true,
        _ => is_late_month(text),
    }
}

/// Returns whether the text abbreviates the name of a month from July on.
fn is_late_month(text: &[u8]) -> bool
    ensures { result ≡ spec.is_late_month text.now }
{
    matches!(text, b"Jul" | b"Aug" | b"Sep" | b"Oct" | b"Nov" | b"Dec")
}

/// Returns whether the two bytes spell a day of a month: 1 to 9 after a space, or 10 to 31.
fn is_day(first: u8, second: u8) -> bool
    ensures { result ≡ spec.is_day first second }
{
    (first == b' ' && matches!(second, b'1'..=b'9'))
        || (first >= b'1' && is_pair(31, first, second))
}

/// Returns whether all bytes are digits.
fn is_digits(text: &[u8]) -> bool
    ensures { result ≡ list_all spec.is_digit text.now }
{
    for byte in text {
        if !is_digit(*byte) {
            return false;
        }
    }
    true
}

/// Returns whether the byte is a decimal digit.
pub(crate) fn is_digit(byte: u8) -> bool
    ensures { result ≡ spec.is_digit byte }
{
    matches!(byte, b'0'..=b'9')
}

/// Returns whether the two bytes are digits that spell a number of at most `most`.
fn is_pair(most: u8, first: u8, second: u8) -> bool
    ensures { result ≡ spec.is_pair most first second }
{
    is_digit(first) && is_digit(second) && (first - b'0') * 10 + (second - b'0') <= most
}

/// Returns whether the text has the format of `__TIME__` (6.10.8.1): `hh:mm:ss`, where the second may be 60, a leap second.
pub fn is_time(text: &[u8]) -> bool
    ensures { result ≡ spec.is_time text.now }
{
    text.len() == 8
        && is_pair(23, text[0], text[1])
        && text[2] == b':'
        && is_pair(59, text[3], text[4])
        && text[5] == b':'
        && is_pair(60, text[6], text[7])
}

/// Returns whether the text has no carriage return and no line feed, so that its definition is one physical line. A `\`
/// at its end still joins that line to the next one (5.1.1.2p1, phase 2).
pub fn is_one_line(text: &[u8]) -> bool
    ensures { result ≡ spec.is_one_line text.now }
{
    for byte in text {
        if !is_in_line(*byte) {
            return false;
        }
    }
    true
}

/// Returns whether the byte is neither a carriage return nor a line feed.
fn is_in_line(byte: u8) -> bool
    ensures { result ≡ spec.is_in_line byte }
{
    byte != b'\r' && byte != b'\n'
}

/// The number of bytes in the line of a definition without its text: `#define ` and a new-line.
const DEFINE_OVERHEAD: usize = 9;

/// Returns whether the file that holds the definitions has at most `LONGEST` bytes. For each definition it has one
/// line: `#define `, the text, and a new-line.
pub fn fits_command(defines: &[OwnedText]) -> bool
    ensures { result ≡ nat_le (length (command_text defines.now)) longest }
{
    let mut capacity = LONGEST;
    for text in defines {
        let len = text.as_str().len();
        if capacity < DEFINE_OVERHEAD || capacity - DEFINE_OVERHEAD < len {
            return false;
        }
        capacity = capacity - DEFINE_OVERHEAD - len;
    }
    true
}

/// Returns whether date and time have the formats of `__DATE__` and `__TIME__` (6.10.8.1).
pub fn setting_ok(setting: &Setting) -> bool
    ensures { result ≡ spec.is_setting setting.now }
{
    is_date(setting.date.as_str().as_bytes()) && is_time(setting.time.as_str().as_bytes())
}

/// Returns whether the profiles are equal.
fn equal_profiles(one: Profile, other: Profile) -> bool
    ensures { result ≡ spec.equal_profiles one other }
{
    one == other
}

/// Returns whether each text is one line.
fn are_lines(texts: &[OwnedText]) -> bool
    ensures { result ≡ list_all spec.is_one_line texts.now }
{
    for text in texts {
        if !is_one_line(text.as_str().as_bytes()) {
            return false;
        }
    }
    true
}

/// Returns whether the files that are read first are among this number of files.
fn are_rows(rows: usize, files: &[FirstFile]) -> bool
    ensures { result ≡ list_all (λ f. nat_lt f.file rows) files.now }
{
    files.iter().all(|file| file.file < rows)
}

/// Returns whether the unit's file and those that are read first are in the file table, the definitions have the table's profile, each of them is one
/// line, and the file that holds them has at most `LONGEST` bytes.
pub fn unit_ok<D: Disk>(shelf: &Shelf<D>, unit: &Unit) -> bool
    ensures { result ≡ spec.is_unit (length shelf.now.names) shelf.now.profile unit.now }
{
    let defines = unit.defines.texts().as_slice();
    unit.file < shelf.len()
        && are_rows(shelf.len(), unit.first.as_slice())
        && equal_profiles(unit.defines.profile(), shelf.profile())
        && are_lines(defines)
        && fits_command(defines)
}
