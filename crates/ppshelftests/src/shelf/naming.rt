//! Names in normal form, the rows of a shelf's names, and the search among them.
ghost use Rattle.std.specs.Prelude.{◌≤◌, length};
ghost use Rattle.ppshelf.specs.Files.{max_rows};

use super::{owned, texts};
use ppshelf::{
    Directories, FileNames, Form, MemoryDisk, Shelf, ShelfFault, is_directory, is_file_name,
    resolve,
};
use pptext::{Hashing, Memory, OwnedText, Profile};
use std::alloc::Global;
use std::hash::RandomState;
use std::process::Abort;
use std::test::Fail;

/// Creates a hash function with a random key.
fn drawn(rt: &HostRuntime) -> Result<Hashing, Fail> {
    match RandomState::new(rt) {
        Ok(key) => Ok(Hashing::keyed(key)),
        Err(_) => Err(Fail::new("no key was drawn")),
    }
}

/// Names that are offered, and whether each was appended: it was in normal form and new.
const PUT: &[(&str, bool)] = &[("a", true), ("inc/b.h", true), ("a", false), ("b/", false)];

/// Names, and the row of each.
const NUMBERED: &[(&str, Option<usize>)] = &[("a", Some(0)), ("inc/b.h", Some(1)), ("b", None)];

/// Appends names, and finds them by their names and rows.
fn assert_numbers(rt: &impl Abort, alloc: Global, names: &mut FileNames) -> Result<(), Memory> {
    for &(name, is_new) in PUT {
        assert!(rt; is_file_name(name.as_bytes()) == (name != "b/"), "{name}");
        assert!(rt; is_directory(name.as_bytes()) == (name != "b/"), "{name}");
        assert!(rt;
            names.push(String::from_str(alloc, name)?)? == is_new,
            "{name}"
        );
    }
    for &(name, row) in NUMBERED {
        assert!(rt; names.row_of(name.as_bytes()) == row, "{name}");
    }
    match names.as_slice() {
        [_, last] => assert!(rt; last.as_str() == "inc/b.h"),
        _ => assert!(rt; false, "not two names"),
    }
    Ok(())
}

#[test]
fn file_names_number_each_name_once(rt: HostRuntime) -> Result<(), Fail> {
    let alloc = rt.alloc();
    let mut names = FileNames::new(alloc, drawn(&rt)?);
    assert_numbers(&rt, alloc, &mut names)?;
    assert!(rt; names.len() == 2);
    assert_numbered(&rt, &Shelf::over(alloc, names, Profile::C11)?);
    Ok(())
}

/// Asserts that names are not taken, because of the one at this index.
fn assert_not_taken(
    rt: &impl Abort,
    alloc: Global,
    names: &[&str],
    place: usize,
) -> Result<(), Fail> {
    match FileNames::from_strings(alloc, texts(alloc, names)?, Hashing::fixed()) {
        Err(ShelfFault::Name(found)) => assert!(rt; found == place, "{found}"),
        Err(ShelfFault::Memory) => return Err(Fail::from(Memory)),
        Ok(_) => assert!(rt; false, "a bad name is taken"),
    }
    Ok(())
}

/// Asserts that no shelf is made of these names, because of the one at this index.
fn assert_refuses(rt: &impl Abort, alloc: Global, names: &[&str], place: usize) -> Result<(), Fail>
    requires { length names.now ≤ max_rows }
{
    let made: Result<Shelf<MemoryDisk>, ShelfFault> = Shelf::new(
        alloc,
        texts(alloc, names)?,
        Profile::C11,
    );
    match made {
        Err(ShelfFault::Name(found)) => assert!(rt; found == place, "{found}"),
        Err(ShelfFault::Memory) => return Err(Fail::from(Memory)),
        Ok(_) => assert!(rt; false, "a shelf with a bad name"),
    }
    Ok(())
}

#[test]
fn a_shelf_refuses_the_first_bad_name(rt: HostRuntime) -> Result<(), Fail> {
    assert_not_taken(&rt, rt.alloc(), &["a", "b", "a", "."], 2)?;
    assert_refuses(&rt, rt.alloc(), &["a", "b", "a", "."], 2)?;
    assert_refuses(&rt, rt.alloc(), &["a", "b/", "a"], 1)
}

/// Creates a shelf of `a` and `inc/b.h` with this hash function.
fn keyed(alloc: Global, hashing: Hashing) -> Result<Shelf<MemoryDisk>, Fail> {
    let names = texts(alloc, &["a", "inc/b.h"])?;
    Ok(Shelf::with_hasher(alloc, names, Profile::C11, hashing)?)
}

/// Asserts that a shelf of the two names finds its rows by them.
fn assert_numbered(rt: &impl Abort, shelf: &Shelf<MemoryDisk>) {
    for &(name, row) in NUMBERED {
        assert!(rt; shelf.row_of(name.as_bytes()) == row, "{name}");
    }
    assert!(rt; shelf.len() == 2);
    assert!(rt; shelf.names().len() == 2);
    assert!(rt; shelf.name(1) == "inc/b.h");
}

/// Asserts that a shelf finds its rows by their names, and the second from the first, and that it returns its hash
/// function.
fn assert_finds(
    rt: &impl Abort,
    alloc: Global,
    shelf: &Shelf<MemoryDisk>,
    setting: &[OwnedText],
) -> Result<Hashing, Memory> {
    assert_numbered(rt, shelf);
    assert!(rt; shelf.len() == 2);
    let directories = Directories { unit: &[], setting };
    let found = resolve(alloc, shelf, 0, Form::Angle, b"b.h", directories)?;
    assert!(rt; found == Some((1, 1)));
    Ok(shelf.hashing())
}

#[test]
fn a_shelf_by_a_key_finds_its_rows(rt: HostRuntime) -> Result<(), Fail> {
    let (alloc, setting) = (rt.alloc(), owned(rt.alloc(), &["inc"])?);
    let shelf = keyed(alloc, drawn(&rt)?)?;
    let hashing = assert_finds(&rt, alloc, &shelf, setting.as_slice())?;
    let again = keyed(alloc, hashing)?;
    let _same = assert_finds(&rt, alloc, &again, setting.as_slice())?;
    Ok(())
}
