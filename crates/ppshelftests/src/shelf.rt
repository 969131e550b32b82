//! Helpers for the tests of the file table.
ghost use Rattle.std.specs.Prelude.{◌≡◌, ◌≤◌, IfOk, length};
ghost use Rattle.std.specs.Vec.{vec_len};
ghost use Rattle.ppshelf.specs.Files.{max_rows};

mod again;
mod filling;
mod finding;
mod looking;
mod naming;
mod reading;

use ppshelf::{Disk, File, Loaded, MemoryDisk, Pass, ReadFault, Shelf};
use pptext::{Directive, Line, Memory, OwnedText, OwnedTexts, Profile};
use std::alloc::{AllocError, Global};
use std::process::Abort;
use std::sync::atomic::AtomicU64;
use std::sync::atomic::Ordering::SeqCst;
use std::test::Fail;

/// A disk that returns the texts `0`, `1`, .. in turn, and fails to allocate at the read of one number.
#[derive(Drop)]
struct Counting {
    /// The number of reads so far.
    reads: AtomicU64,
    /// The number of the read that fails.
    refused: u64,
}

impl Disk for Counting {
    ghost may = { λ name c. Unit {0} };

    ghost may_return = { λ disk name c. Unit {0} };

    ghost may_return_by_type = { λ disk name c h. tt };

    fn read(&self, alloc: Global, _name: &str) -> Result<Vec<u8>, ReadFault> {
        let count = self.reads.fetch_add(1, SeqCst);
        if count == self.refused {
            return Err(ReadFault::Memory);
        }
        let Ok(text) = format!(in alloc; "{count}\n") else {
            return Err(ReadFault::Memory);
        };
        let Ok(bytes) = Vec::from_slice(alloc, text.as_bytes()) else {
            return Err(ReadFault::Memory);
        };
        Ok(bytes)
    }
}

/// Creates a disk whose read with this number fails.
fn refusing(refused: u64) -> Counting {
    Counting {
        reads: AtomicU64::new(0),
        refused,
    }
}

/// Copies names into a vector.
fn texts(alloc: Global, names: &[&str]) -> Result<Vec<String>, AllocError>
    ensures { IfOk result (λ texts. vec_len texts ≡ length names.now) }
{
    let mut texts = Vec::new(alloc);
    for name in names {
        texts.push(String::from_str(alloc, name)?)?;
    }
    Ok(texts)
}

/// Copies texts.
fn owned(alloc: Global, texts: &[&str]) -> Result<OwnedTexts, AllocError> {
    let mut owned = Vec::new(alloc);
    for text in texts {
        owned.push(OwnedText::new(String::from_str(alloc, text)?))?;
    }
    Ok(OwnedTexts::new(owned))
}

/// Creates a shelf of these names, with no row filled.
fn named<D: Disk>(alloc: Global, names: &[&str]) -> Result<Shelf<D>, Fail>
    requires { length names.now ≤ max_rows }
{
    Ok(Shelf::new(alloc, texts(alloc, names)?, Profile::C11)?)
}

/// Creates a disk of one file `a`.
fn disk_of(alloc: Global, text: &[u8]) -> Result<MemoryDisk, AllocError> {
    let mut files = Vec::new(alloc);
    files.push(File {
        name: String::from_str(alloc, "a")?,
        bytes: Vec::from_slice(alloc, text)?,
    })?;
    Ok(MemoryDisk { files })
}

/// Returns the content that a pass observes of a row, if there is one.
fn shown_of<'a, D: Disk>(
    shelf: &'a Shelf<D>,
    pass: &mut Pass<'a, D>,
    row: usize,
    disk: &D,
) -> Result<Option<&'a Loaded<D>>, Memory>
    requires { pass.old.shelf ≡ shelf.now }
    ensures { pass.new.shelf ≡ shelf.now }
{
    if row >= shelf.len() {
        return Ok(None);
    }
    Ok(Some(shelf.look(pass, row, disk)?))
}

/// Returns the bytes that a pass observes of a row.
fn bytes_of<'a, D: Disk>(
    shelf: &'a Shelf<D>,
    pass: &mut Pass<'a, D>,
    row: usize,
    disk: &D,
) -> Result<Option<&'a [u8]>, Memory>
    requires { pass.old.shelf ≡ shelf.now }
    ensures { pass.new.shelf ≡ shelf.now }
{
    match shown_of(shelf, pass, row, disk)? {
        Some(loaded) => Ok(loaded.bytes()),
        None => Ok(None),
    }
}

/// The result of reading a row's file: the number of its fault, or how many lines it has and the directive of the
/// second.
type Lines = Result<(usize, Option<Directive>), u8>;

/// Returns the result of reading a content, if it is readable.
fn lines_in<D: Disk>(loaded: &Loaded<D>) -> Option<Lines> {
    match loaded.lines()? {
        Ok(prepared) => {
            let lines = prepared.source().lines();
            Some(Ok((lines.len(), second_directive(lines))))
        }
        Err(fault) => Some(Err(fault.number)),
    }
}

/// Returns the directive of the second of these lines.
fn second_directive(lines: &[Line]) -> Option<Directive> {
    match lines {
        [_, line, ..] => line.directive,
        _ => None,
    }
}

/// Asserts that a new pass observes this result of a row.
fn assert_lines<D: Disk>(
    rt: &impl Abort,
    shelf: &Shelf<D>,
    disk: &D,
    row: usize,
    wanted: Option<Lines>,
) -> Result<(), Memory> {
    let mut pass = shelf.pass()?;
    let found = match shown_of(shelf, &mut pass, row, disk)? {
        Some(loaded) => lines_in(loaded),
        None => None,
    };
    assert!(rt; found == wanted, "{row}");
    Ok(())
}

/// Returns whether these are the bytes of a text.
fn are_bytes(found: Option<&[u8]>, wanted: Option<&str>) -> bool {
    match (found, wanted) {
        (Some(found), Some(wanted)) => found == wanted.as_bytes(),
        (None, None) => true,
        _ => false,
    }
}

/// Asserts that a pass observes this text of a row.
fn assert_shown<'a, D: Disk>(
    rt: &impl Abort,
    shelf: &'a Shelf<D>,
    pass: &mut Pass<'a, D>,
    disk: &D,
    row: usize,
    wanted: Option<&str>,
) -> Result<(), Memory>
    requires { pass.old.shelf ≡ shelf.now }
    ensures { pass.new.shelf ≡ shelf.now }
{
    let found = bytes_of(shelf, pass, row, disk)?;
    assert!(rt; are_bytes(found, wanted), "{row}");
    Ok(())
}

/// Asserts that a pass observes these texts of rows.
fn assert_rows<'a, D: Disk>(
    rt: &impl Abort,
    shelf: &'a Shelf<D>,
    pass: &mut Pass<'a, D>,
    disk: &D,
    rows: &[(usize, Option<&str>)],
) -> Result<(), Memory>
    requires { pass.old.shelf ≡ shelf.now }
    ensures { pass.new.shelf ≡ shelf.now }
{
    for case in rows {
        assert_shown(rt, shelf, pass, disk, case.0, case.1)?;
    }
    Ok(())
}

/// Asserts that a new pass observes these texts of rows.
fn assert_new<D: Disk>(
    rt: &impl Abort,
    shelf: &Shelf<D>,
    disk: &D,
    rows: &[(usize, Option<&str>)],
) -> Result<(), Memory> {
    let mut pass = shelf.pass()?;
    assert_rows(rt, shelf, &mut pass, disk, rows)
}
