//! Searches for included files: the rows that they find, and the numbers of the directories.
ghost use Rattle.std.specs.Prelude.{◌≡◌};

use super::{named, owned};
use ppshelf::{Directories, Form, MemoryDisk, Pass, Shelf, resolve, resolve_next};
use pptext::Memory;
use std::alloc::Global;
use std::process::Abort;
use std::test::Fail;

const NAMES: &[&str] = &["src/a.c", "src/h.h", "one/h.h", "two/h.h", "three/h.h"];

/// The names that `src/a.c` includes, with their syntax, the row of the file that is found and the number of its
/// directory.
const INCLUDED: &[(Form, &str, Option<(usize, usize)>)] = &[
    (Form::Quote, "h.h", Some((1, 0))),
    (Form::Angle, "h.h", Some((2, 1))),
    (Form::Quote, "../three/h.h", Some((4, 0))),
    (Form::Angle, "k.h", None),
];

/// Numbers of directories, with the file that a search for `h.h` after that directory finds.
const AFTER: &[(usize, Option<(usize, usize)>)] = &[
    (0, Some((2, 1))),
    (1, Some((3, 2))),
    (2, Some((4, 3))),
    (3, None),
    (9, None),
];

fn assert_finds(
    rt: &impl Abort,
    alloc: Global,
    shelf: &Shelf<MemoryDisk>,
    directories: Directories<'_>,
) -> Result<(), Memory> {
    assert!(rt; shelf.len() == 5);
    for &(form, name, row) in INCLUDED {
        let found = resolve(alloc, shelf, 0, form, name.as_bytes(), directories)?;
        assert!(rt; found == row, "{name}");
    }
    for &(number, row) in AFTER {
        let found = resolve_next(alloc, shelf, number, b"h.h", directories)?;
        assert!(rt; found == row, "{number}");
    }
    Ok(())
}

#[test]
fn searches_number_their_directories(rt: HostRuntime) -> Result<(), Fail> {
    let alloc = rt.alloc();
    let shelf = named(alloc, NAMES)?;
    let (unit, setting) = (owned(alloc, &["one"])?, owned(alloc, &["two", "three"])?);
    let directories = Directories {
        unit: unit.as_slice(),
        setting: setting.as_slice(),
    };
    Ok(assert_finds(&rt, alloc, &shelf, directories)?)
}

/// Asserts that a search by a pass for `<h.h>` in `src/a.c` finds this.
fn assert_pass_finds<'a>(
    rt: &impl Abort,
    alloc: Global,
    shelf: &'a Shelf<MemoryDisk>,
    pass: &mut Pass<'a, MemoryDisk>,
    directories: Directories<'_>,
    row: Option<(usize, usize)>,
) -> Result<(), Memory>
    requires { pass.old.shelf ≡ shelf.now }
    ensures { pass.new.shelf ≡ shelf.now }
{
    assert!(rt; shelf.len() == 5);
    let found = pass.resolve(alloc, 0, Form::Angle, b"h.h", directories)?;
    assert!(rt; found == row);
    Ok(())
}

#[test]
fn a_pass_searches_the_given_directories(rt: HostRuntime) -> Result<(), Fail> {
    let alloc = rt.alloc();
    let shelf = named(alloc, NAMES)?;
    let (one, two) = (owned(alloc, &["one"])?, owned(alloc, &["two", "three"])?);
    let first = Directories {
        unit: one.as_slice(),
        setting: two.as_slice(),
    };
    let second = Directories {
        unit: two.as_slice(),
        setting: one.as_slice(),
    };
    let mut pass = shelf.pass()?;
    assert_pass_finds(&rt, alloc, &shelf, &mut pass, first, Some((2, 1)))?;
    assert_pass_finds(&rt, alloc, &shelf, &mut pass, first, Some((2, 1)))?;
    assert_pass_finds(&rt, alloc, &shelf, &mut pass, second, Some((3, 1)))?;
    assert_pass_finds(&rt, alloc, &shelf, &mut pass, first, Some((2, 1)))?;
    Ok(())
}
