//! Fills, by reads and by contents that are moved into the rows.
ghost use Rattle.std.specs.Prelude.{◌≡◌, ℕ, ◌<◌, ◌≤◌, length, true};
ghost use Rattle.ppshelf.specs.Content.{longest};
ghost use Rattle.ppshelf.specs.Files.{bytes_at};

use super::{Counting, assert_lines, assert_new, named, refusing};
use ppshelf::{Contents, LONGEST, Shelf};
use pptext::{Memory, Sequence};
use std::alloc::Global;
use std::process::Abort;
use std::sync::atomic::Ordering::SeqCst;
use std::test::Fail;

#[test]
fn a_fill_continues_after_a_failed_allocation(rt: HostRuntime) -> Result<(), Fail> {
    let mut shelf = named(rt.alloc(), &["a", "b", "c"])?;
    let disk = refusing(1);
    assert!(rt; shelf.fill(&disk) == Err(Memory));
    shelf.fill(&disk)?;
    assert!(rt; disk.reads.load(SeqCst) == 4);
    // What a fill read is returned without another read.
    let rows = [(0, Some("0\n")), (2, Some("3\n"))];
    Ok(assert_new(&rt, &shelf, &refusing(0), &rows)?)
}

#[test]
fn a_fill_reads_a_cached_row(rt: HostRuntime) -> Result<(), Fail> {
    let mut shelf = named(rt.alloc(), &["a"])?;
    let disk = refusing(99);
    assert_new(&rt, &shelf, &disk, &[(0, Some("0\n"))])?;
    shelf.fill(&disk)?;
    Ok(assert_new(&rt, &shelf, &disk, &[(0, Some("1\n"))])?)
}

/// Returns whether each content is short enough for a row.
fn are_short(contents: &[Sequence<u8>]) -> bool
    ensures { result ≡ true → (row : ℕ) → row < length contents.now → length (bytes_at contents.now row) ≤ longest }
{
    for bytes in contents {
        if bytes.as_slice().len() > LONGEST {
            return false;
        }
    }
    true
}

/// Moves texts into the rows.
fn fill_with_texts(alloc: Global, shelf: &mut Shelf<Counting>, texts: &[&str]) -> Result<(), Fail> {
    let mut contents = Vec::new(alloc);
    for text in texts {
        contents.push(Sequence::new(Vec::from_slice(alloc, text.as_bytes())?))?;
    }
    if contents.len() != shelf.len() || !are_short(contents.as_slice()) {
        return Err(Fail::new("no such contents"));
    }
    Ok(shelf.fill_with(Contents::new(contents))?)
}

/// Asserts that the rows have the texts of the first fill, the second of which has a fault.
fn assert_moved(rt: &impl Abort, shelf: &Shelf<Counting>, disk: &Counting) -> Result<(), Memory> {
    assert_new(rt, shelf, disk, &[(0, Some("x\n")), (1, Some("/*"))])?;
    assert_lines(rt, shelf, disk, 0, Some(Ok((1, None))))?;
    assert_lines(rt, shelf, disk, 1, Some(Err(1)))
}

#[test]
fn contents_are_moved_to_rows(rt: HostRuntime) -> Result<(), Fail> {
    let alloc = rt.alloc();
    let mut shelf = named(alloc, &["a.c", "h.h"])?;
    let disk = refusing(0);
    fill_with_texts(alloc, &mut shelf, &["x\n", "/*"])?;
    // Filled rows stay as they are.
    fill_with_texts(alloc, &mut shelf, &["y\n", "z\n"])?;
    shelf.fill(&disk)?;
    assert_moved(&rt, &shelf, &disk)?;
    assert!(rt; disk.reads.load(SeqCst) == 0);
    Ok(())
}
