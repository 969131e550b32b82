//! Units of small files, and their outputs as texts.
ghost use Rattle.std.specs.Prelude.{[], ◌≡◌, ◌≤◌, IfOk, All, length};
ghost use Rattle.pptext.specs.declared.sources.Profile.TheVariants.{C11};
ghost use Rattle.ppshelf.specs.Files.{max_rows};
ghost use Rattle.ppunit.specs.Unit.{IsUnitOf};

use super::stage::Stage;
use ppshelf::{MAX_ROWS, Shelf};
use pptext::{Fault, Hashing, Profile, Sequence};
use ppunit::{CommandMacros, Item, OwnedText, OwnedTexts, Setting, Unit, UnitOut, fits_command};
use std::alloc::{AllocError, Global};
use std::test::Fail;

fn strings_of(alloc: Global, texts: &[&str]) -> Result<Vec<String>, AllocError> {
    let mut strings = Vec::new(alloc);
    for text in texts {
        strings.push(String::from_str(alloc, text)?)?;
    }
    Ok(strings)
}

fn texts_of(alloc: Global, texts: &[&str]) -> Result<OwnedTexts, AllocError> {
    let mut owned = Vec::new(alloc);
    for text in texts {
        owned.push(OwnedText::new(String::from_str(alloc, text)?))?;
    }
    Ok(OwnedTexts::new(owned))
}

/// Creates a file table with these names.
pub(crate) fn shelf_of(alloc: Global, names: &[&str]) -> Result<Shelf<Stage>, Fail>
    ensures { IfOk result (λ s. s.profile ≡ C11) }
{
    let names = strings_of(alloc, names)?;
    if names.len() > MAX_ROWS {
        return Err(Fail::new("too many names"));
    }
    Ok(Shelf::new(alloc, names, Profile::C11)?)
}

/// Creates a setting that searches the directory `inc`. No file uses its date and time.
pub(crate) fn setting_of(alloc: Global) -> Result<Setting, AllocError>
    ensures { IfOk result (λ s. s.profile ≡ C11) }
{
    let search = texts_of(alloc, &["inc"])?;
    Ok(Setting {
        profile: Profile::C11,
        date: OwnedText::new(String::new(alloc)),
        time: OwnedText::new(String::new(alloc)),
        search,
        search_shown: Sequence::new(Vec::new(alloc)),
        budget: None,
    })
}

/// Creates a unit of the file at index `file`, with these definitions.
pub(crate) fn unit_of(alloc: Global, file: usize, defines: &[&str]) -> Result<Unit, Fail>
    ensures { IfOk result (λ u. (u.file ≡ file) × (u.first ≡ []) × (u.defines.profile ≡ C11)) }
{
    let defines = texts_of(alloc, defines)?;
    if !fits_command(defines.as_slice()) {
        return Err(Fail::new("too long definitions"));
    }
    Ok(Unit {
        file,
        shown: None,
        defines: CommandMacros::read(alloc, None, defines, Profile::C11, Hashing::fixed())?,
        first: Sequence::new(Vec::new(alloc)),
        search: OwnedTexts::new(Vec::new(alloc)),
        search_shown: Sequence::new(Vec::new(alloc)),
    })
}

/// Creates a unit for each of these file indices and definitions.
pub(crate) fn units_of(
    alloc: Global,
    shelf: &Shelf<Stage>,
    rows: &[(usize, &[&str])],
) -> Result<Vec<Unit>, Fail>
    ensures rows { IfOk result (λ us. All (IsUnitOf (length shelf.now.names) C11) us.items) }
    ensures few { IfOk result (λ us. length us.items ≤ max_rows) }
{
    let mut units = Vec::new(alloc);
    for &(file, defines) in rows {
        if file >= shelf.len() {
            return Err(Fail::new("no such file"));
        }
        units.push(unit_of(alloc, file, defines)?)?;
    }
    if units.len() > MAX_ROWS {
        return Err(Fail::new("too many units"));
    }
    Ok(units)
}

/// Appends a unit's tokens, each with a space after it.
fn push_tokens(alloc: Global, text: &mut Vec<u8>, out: &UnitOut) -> Result<(), AllocError> {
    for item in &out.items.to_vec(alloc)? {
        if let Item::Token(token) = item {
            text.extend_from_slice(token.text.as_bytes())?;
            text.push(b' ')?;
        }
    }
    text.extend_from_slice(b"| ")
}

fn push_rows(alloc: Global, text: &mut Vec<u8>, rows: &[usize]) -> Result<(), AllocError> {
    for row in rows {
        text.extend_from_slice(format!(in alloc; "{row} ")?.as_bytes())?;
    }
    Ok(())
}

fn push_fault(alloc: Global, text: &mut Vec<u8>, fault: &Fault) -> Result<(), AllocError> {
    let (number, at) = (fault.number, fault.at);
    let place = format!(in alloc; "| {number} {}:{}:{} ", at.file, at.line, at.col)?;
    text.extend_from_slice(place.as_bytes())?;
    text.extend_from_slice(fault.text.as_bytes())?;
    text.extend_from_slice(b"; ")
}

/// Appends `ok`, or the fault of a unit.
fn push_end(alloc: Global, text: &mut Vec<u8>, end: Option<&Fault>) -> Result<(), AllocError> {
    match end {
        None => text.extend_from_slice(b"| ok; "),
        Some(fault) => push_fault(alloc, text, fault),
    }
}

/// Appends a unit's tokens, the indices of its dependencies, and its end.
pub(crate) fn push_unit(
    alloc: Global,
    text: &mut Vec<u8>,
    out: &UnitOut,
) -> Result<(), AllocError> {
    push_tokens(alloc, text, out)?;
    push_rows(alloc, text, out.deps.as_slice())?;
    push_end(alloc, text, out.fault.as_ref())
}

/// Returns the texts that `push_unit` writes of these units: `1 x | 0 2 | ok; | 0 | 6 0:1:1 a.c; `.
pub(crate) fn as_text(alloc: Global, outs: &[UnitOut]) -> Result<Vec<u8>, AllocError> {
    let mut text = Vec::new(alloc);
    for out in outs {
        push_unit(alloc, &mut text, out)?;
    }
    Ok(text)
}
