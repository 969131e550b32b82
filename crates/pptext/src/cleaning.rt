//! Translation phases 1 and 2 (5.1.1.2): makes the text of a file's bytes.
ghost use Rattle.std.specs.Prelude.{◌≡◌, ◌<◌, ◌≤◌, length, IfOk, MatchOption, MatchResult};
ghost use Rattle.pptext.specs.Clean.{longest};
ghost use Rattle.pptext.specs.code.LineNotes.{PlainRun};
ghost use Rattle.pptext.specs.code.Steps.{lacks_newline};
ghost use Rattle.pptext.specs.code.CleanedText.{Cleans, EndsAt, HasLineNotes, IsChangedText};

use crate::characters::advance::place_after;
use crate::characters::steps::{CharStep, first_special, lacks_newline, next_step, without_bom};
use crate::cleaned_text::{ChangedText, CleanedText};
use crate::sources::Profile;
use crate::tokens::Place;
use std::alloc::{AllocError, Global};

/// Returns the index of the first line note: the first byte that phases 1 and 2 remove or replace.
fn first_note(bytes: &[u8], supplied: bool, profile: Profile) -> Option<usize>
    ensures { MatchOption result (PlainRun profile supplied bytes.now (length bytes.now)) (λ at. (at < length bytes.now) × PlainRun profile supplied bytes.now at) }
{
    let mut start = 0;
    while let Some(ahead) = first_special(&bytes[start..]) {
        let at = start + ahead;
        match next_step(&bytes[at..], supplied, profile) {
            CharStep::Code(_, len) => {
                if len != 1 {
                    return Some(at);
                }
                start = at + 1;
            }
            CharStep::Removed(_) => return Some(at),
        }
    }
    None
}

/// Returns the number of line notes in a file, or the index of its last backslash if the file ends in a backslash and a
/// new-line.
fn count_notes(raw: &[u8], supplied: bool, profile: Profile) -> Result<usize, usize>
    requires { supplied ≡ lacks_newline raw.now }
    ensures { MatchResult result (HasLineNotes profile raw.now) (EndsAt profile raw.now) }
{
    let mut count = 0;
    let mut start = 0;
    while let Some(ahead) = first_note(&raw[start..], supplied, profile) {
        let at = start + ahead;
        match next_step(&raw[at..], supplied, profile) {
            CharStep::Code(_, len) => start = at + len,
            CharStep::Removed(len) if at + len == raw.len() => return Err(at),
            CharStep::Removed(len) => start = at + len,
        }
        count += 1;
    }
    Ok(count)
}

/// Copies a file with `count` line notes as phases 1 and 2 change it. Allocates the capacity for the whole text at
/// once.
fn copy_cleaned(
    alloc: Global,
    raw: &[u8],
    supplied: bool,
    profile: Profile,
    count: usize,
) -> Result<ChangedText, AllocError>
    requires small { length raw.now ≤ longest }
    requires supplied { supplied ≡ lacks_newline raw.now }
    requires line_notes { HasLineNotes profile raw.now count }
    ensures { IfOk result (λ c. IsChangedText profile raw.now c.codes.items c.line_notes.items) }
{
    let mut codes = Vec::with_capacity(alloc, raw.len() + 1)?;
    let mut line_notes = Vec::with_capacity(alloc, count)?;
    let mut start = 0;
    while let Some(ahead) = first_note(&raw[start..], supplied, profile) {
        let at = start + ahead;
        codes.extend_from_slice(&raw[start..at])?;
        line_notes.push(ahead as u32)?;
        match next_step(&raw[at..], supplied, profile) {
            CharStep::Code(code, len) => {
                codes.push(code)?;
                start = at + len;
            }
            CharStep::Removed(len) => start = at + len,
        }
    }
    codes.extend_from_slice(&raw[start..])?;
    if supplied {
        codes.push(b'\n')?;
    }
    Ok(ChangedText { codes, line_notes })
}

/// Returns the text of a file after phases 1 and 2 (5.1.1.2), or the location of the last backslash if the file ends in
/// a backslash and a new-line.
pub(crate) fn clean_text<'a>(
    alloc: Global,
    bytes: &'a [u8],
    file: u32,
    profile: Profile,
) -> Result<Result<CleanedText<'a>, Place>, AllocError>
    requires { length bytes.now ≤ longest }
    ensures { IfOk result (Cleans profile file bytes.now) }
{
    let raw = without_bom(bytes);
    let supplied = lacks_newline(raw);
    match count_notes(raw, supplied, profile) {
        Ok(0) if !supplied => Ok(Ok(CleanedText::new(file, raw, profile, None))),
        Ok(count) => {
            let cleaned = copy_cleaned(alloc, raw, supplied, profile, count)?;
            Ok(Ok(CleanedText::new(file, raw, profile, Some(cleaned))))
        }
        Err(at) => {
            let start = Place {
                file,
                line: 1,
                col: 1,
            };
            Ok(Err(place_after(start, &raw[..at])))
        }
    }
}
