//! Tests of phase 4 on whole units with small files. More units are in tests/row_tests.py, which compares the program's output.
ghost use Rattle.std.specs.Prelude.{◌≡◌, length};
ghost use Rattle.ppunit.specs.Unit.{IsUnitOf};

mod again;
mod judging;

use crate::showing::{assert_shown, push_fault, push_place};
use ppshelf::{File, MAX_ROWS, MemoryDisk, Pass, Shelf};
use pptext::{Fault, Hashing, Memory, Profile, Sequence, Token};
use ppunit::{
    CommandMacros, Item, ItemRef, ItemSlice, Items, OwnedText, OwnedTexts, Setting, Unit, UnitOut,
    fits_command, preprocess, preprocess_without_items, unit_ok,
};
use std::alloc::{AllocError, Global};
use std::process::Abort;
use std::test::Fail;

/// The last file of the file table, which no disk has.
const GONE: &str = "gone.h";

/// Returns a file table of these files and `GONE`.
fn shelf_of(alloc: Global, profile: Profile, files: Files) -> Result<Shelf<MemoryDisk>, Fail> {
    let mut names = Vec::new(alloc);
    for (name, _text) in files {
        names.push(String::from_str(alloc, name)?)?;
    }
    names.push(String::from_str(alloc, GONE)?)?;
    if names.len() > MAX_ROWS {
        return Err(Fail::new("too many files"));
    }
    Ok(Shelf::new(alloc, names, profile)?)
}

/// Returns a disk of these files.
fn disk_of(alloc: Global, files: Files) -> Result<MemoryDisk, AllocError> {
    let mut disk = MemoryDisk {
        files: Vec::new(alloc),
    };
    for (name, text) in files {
        disk.files.push(File {
            name: String::from_str(alloc, name)?,
            bytes: Vec::from_slice(alloc, text.as_bytes())?,
        })?;
    }
    Ok(disk)
}

/// Returns copies of these texts.
fn texts_of(alloc: Global, given: &[&str]) -> Result<OwnedTexts, AllocError> {
    let mut texts = Vec::new(alloc);
    for text in given {
        texts.push(text_of(alloc, text)?)?;
    }
    Ok(OwnedTexts::new(texts))
}

/// Returns a copy of a text.
fn text_of(alloc: Global, text: &str) -> Result<OwnedText, AllocError> {
    Ok(OwnedText::new(String::from_str(alloc, text)?))
}

/// Returns a setting with this date and time.
fn setting_of(
    alloc: Global,
    profile: Profile,
    date: &str,
    time: &str,
) -> Result<Setting, AllocError> {
    Ok(Setting {
        profile,
        date: text_of(alloc, date)?,
        time: text_of(alloc, time)?,
        search: texts_of(alloc, &["inc"])?,
        search_shown: Sequence::new(Vec::new(alloc)),
        budget: None,
    })
}

/// Returns a unit for a file with these definitions.
fn unit_of(alloc: Global, profile: Profile, file: usize, defines: &[&str]) -> Result<Unit, Fail> {
    let defines = texts_of(alloc, defines)?;
    if !fits_command(defines.as_slice()) {
        return Err(Fail::new("too long definitions"));
    }
    Ok(Unit {
        file,
        shown: None,
        defines: CommandMacros::read(alloc, None, defines, profile, Hashing::fixed())?,
        first: Sequence::new(Vec::new(alloc)),
        search: texts_of(alloc, &[])?,
        search_shown: Sequence::new(Vec::new(alloc)),
    })
}

/// Appends a token's spelling and a space to a text.
fn push_token(text: &mut Vec<u8>, token: &Token) -> Result<(), AllocError> {
    text.extend_from_slice(token.text.as_bytes())?;
    text.push(b' ')?;
    Ok(())
}

/// Appends an item to a text.
fn push_item(alloc: Global, text: &mut Vec<u8>, item: &Item) -> Result<(), AllocError> {
    match item {
        Item::Token(token) => push_token(text, token),
        Item::Pragma(at, tokens) => {
            text.extend_from_slice(b"pragma@")?;
            push_place(alloc, text, *at)?;
            text.extend_from_slice(b"[ ")?;
            for token in tokens.as_slice() {
                push_token(text, token)?;
            }
            text.extend_from_slice(b"] ")
        }
        Item::Mark(_) => Ok(()),
    }
}

/// Returns the text of items.
fn spelled(alloc: Global, items: &Items) -> Result<Vec<u8>, AllocError> {
    let mut text = Vec::new(alloc);
    for item in items.iter() {
        push_item(alloc, &mut text, &item.to_item(alloc)?)?;
    }
    Ok(text)
}

/// Appends items, as they are stored, to a text.
fn push_items(alloc: Global, text: &mut Vec<u8>, slice: ItemSlice) -> Result<(), AllocError> {
    match slice {
        ItemSlice::Tokens(tokens) => {
            let mut unread = tokens.iter();
            while let Some(token) = unread.next() {
                push_token(text, &token.to_token()?)?;
            }
            Ok(())
        }
        ItemSlice::Pragma(at, tokens) => {
            push_item(alloc, text, &ItemRef::Pragma(at, tokens).to_item(alloc)?)
        }
        ItemSlice::Mark(mark) => push_item(alloc, text, &ItemRef::Mark(mark).to_item(alloc)?),
    }
}

/// Returns the text of items, slice by slice, by a duplicate of the iterator.
fn spelled_in_slices(alloc: Global, items: &Items) -> Result<Vec<u8>, AllocError> {
    let mut text = Vec::new(alloc);
    let mut slices = items.slices().duplicate();
    while let Some(slice) = slices.next() {
        push_items(alloc, &mut text, slice)?;
    }
    Ok(text)
}

/// Appends the files that a unit depends on, and its fault, to a text: `| 0 2 | 31 0:4:1 y.h`.
fn push_end(
    alloc: Global,
    text: &mut Vec<u8>,
    rows: &[usize],
    fault: Option<&Fault>,
) -> Result<(), AllocError> {
    text.extend_from_slice(b"| ")?;
    for row in rows {
        text.extend_from_slice(format!(in alloc; "{row} ")?.as_bytes())?;
    }
    text.extend_from_slice(b"| ")?;
    match fault {
        Some(fault) => push_fault(alloc, text, fault),
        None => text.extend_from_slice(b"ok"),
    }
}

/// Returns a unit's result as text: its items and its end. Asserts that the items, one by one and in slices, are those of its list.
fn as_text(alloc: Global, out: &UnitOut) -> Result<Vec<u8>, Fail> {
    let mut text = Vec::new(alloc);
    for item in &out.items.to_vec(alloc)? {
        push_item(alloc, &mut text, item)?;
    }
    if spelled(alloc, &out.items)?.as_slice() != text.as_slice() {
        return Err(Fail::new("other items one by one"));
    }
    if spelled_in_slices(alloc, &out.items)?.as_slice() != text.as_slice() {
        return Err(Fail::new("other items in slices"));
    }
    push_end(alloc, &mut text, out.deps.as_slice(), out.fault.as_ref())?;
    Ok(text)
}

/// Fails unless the other output has no items, and the files and the fault of this one.
fn check_without_items(alloc: Global, out: &UnitOut, other: &UnitOut) -> Result<(), Fail> {
    let mut wanted = Vec::new(alloc);
    push_end(alloc, &mut wanted, out.deps.as_slice(), out.fault.as_ref())?;
    if as_text(alloc, other)?.as_slice() != wanted.as_slice() {
        return Err(Fail::new("items, other files or another fault"));
    }
    Ok(())
}

/// Preprocesses a unit. If an allocation fails, preprocesses it again with the same file table and pass.
fn preprocess_again<'a>(
    alloc: Global,
    shelf: &'a Shelf<MemoryDisk>,
    pass: &mut Pass<'a, MemoryDisk>,
    disk: &MemoryDisk,
    setting: &Setting,
    unit: &'a Unit,
) -> Result<UnitOut<'a>, Memory>
    requires pass { pass.old.shelf ≡ shelf.now }
    requires profile { shelf.now.profile ≡ setting.now.profile }
    requires unit { IsUnitOf (length shelf.now.names) setting.now.profile unit.now }
    ensures { pass.new.shelf ≡ shelf.now }
{
    let Ok(out) = preprocess(alloc, shelf, pass, disk, setting, unit) else {
        return preprocess(alloc, shelf, pass, disk, setting, unit);
    };
    Ok(out)
}

/// Preprocesses a unit, and then again without its items.
fn preprocess_both<'a>(
    alloc: Global,
    shelf: &'a Shelf<MemoryDisk>,
    pass: &mut Pass<'a, MemoryDisk>,
    disk: &MemoryDisk,
    setting: &Setting,
    unit: &'a Unit,
) -> Result<(UnitOut<'a>, UnitOut<'a>), Memory>
    requires pass { pass.old.shelf ≡ shelf.now }
    requires profile { shelf.now.profile ≡ setting.now.profile }
    requires unit { IsUnitOf (length shelf.now.names) setting.now.profile unit.now }
    ensures { pass.new.shelf ≡ shelf.now }
{
    let out = preprocess_again(alloc, shelf, pass, disk, setting, unit)?;
    let other = preprocess_without_items(alloc, shelf, pass, disk, setting, unit)?;
    Ok((out, other))
}

/// Returns a unit's result as text.
fn given<'a>(
    alloc: Global,
    shelf: &'a Shelf<MemoryDisk>,
    pass: &mut Pass<'a, MemoryDisk>,
    disk: &'a MemoryDisk,
    setting: &'a Setting,
    unit: &'a Unit,
) -> Result<Vec<u8>, Fail>
    requires { pass.old.shelf ≡ shelf.now }
    ensures { pass.new.shelf ≡ shelf.now }
{
    if shelf.profile() != setting.profile {
        return Err(Fail::new("another profile"));
    }
    if !unit_ok(shelf, unit) {
        return Err(Fail::new("no such unit"));
    }
    let (out, other) = preprocess_both(alloc, shelf, pass, disk, setting, unit)?;
    check_without_items(alloc, &out, &other)?;
    as_text(alloc, &out)
}

/// Asserts the results of units, one after another with one pass.
fn assert_given(
    rt: &impl Abort,
    alloc: Global,
    shelf: &Shelf<MemoryDisk>,
    disk: &MemoryDisk,
    setting: &Setting,
    cases: &[Case],
) -> Result<(), Fail> {
    let units = units_of(alloc, Profile::C11, cases)?;
    let mut pass = shelf.pass()?;
    for (unit, (_file, _defines, wanted)) in units.as_slice().iter().zip(cases) {
        let found = given(alloc, shelf, &mut pass, disk, setting, unit)?;
        assert_shown(rt, found.as_slice(), wanted);
    }
    Ok(())
}

/// Names and texts of files.
type Files<'t> = &'t [(&'t str, &'t str)];

/// A unit by the index of its file and its definitions, and its result.
type Case<'t> = (usize, &'t [&'t str], &'t str);

/// Returns the units of these cases.
fn units_of(alloc: Global, profile: Profile, cases: &[Case]) -> Result<Vec<Unit>, Fail> {
    let mut units = Vec::new(alloc);
    for (file, defines, _wanted) in cases {
        units.push(unit_of(alloc, profile, *file, defines)?)?;
    }
    Ok(units)
}

/// Asserts the results of units of these files, one after another with one pass.
fn assert_units(rt: &impl Abort, alloc: Global, files: Files, cases: &[Case]) -> Result<(), Fail> {
    let shelf = shelf_of(alloc, Profile::C11, files)?;
    let disk = disk_of(alloc, files)?;
    let setting = setting_of(alloc, Profile::C11, "Feb  9 2024", "08:05:03")?;
    assert_given(rt, alloc, &shelf, &disk, &setting, cases)
}
