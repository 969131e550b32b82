//! Looks that are repeated if an allocation fails.
ghost use Rattle.std.specs.Prelude.{◌≡◌};

use super::{assert_new, assert_rows, assert_shown, named};
use ppshelf::{File, MemoryDisk, Pass, Shelf};
use pptext::Memory;
use std::alloc::{AllocError, Global};
use std::process::Abort;
use std::test::Fail;

/// The shelf's names.
const NAMES: &[&str] = &[
    "one.c", "call.c", "twice.c", "h.h", "src/a.c", "src/x.h", "inc/x.h", "inc/y.h",
];

/// The texts by their rows: one token, an invocation that takes tokens after its replacement, a guarded header twice,
/// the header, and headers that are searched for in directories. No file has the last name.
const ROWS: &[(usize, Option<&str>)] = &[
    (0, Some("x\n")),
    (1, Some("#define f(a) a*g\n#define g(a) f(a)\nf(2)(9)\n")),
    (2, Some("#include \"h.h\"\n#include \"h.h\"\n")),
    (3, Some("#ifndef H\n#define H\nint a;\n#endif\n")),
    (
        4,
        Some("#include \"x.h\"\n#include <x.h>\n#include \"../inc/x.h\"\n#include <y.h>\n"),
    ),
    (5, Some("1")),
    (6, Some("2")),
    (7, None),
];

/// Creates the disk of these files.
fn disk_of(alloc: Global) -> Result<MemoryDisk, AllocError> {
    let mut files = Vec::new(alloc);
    for (name, &(_row, text)) in NAMES.iter().zip(ROWS) {
        if let Some(text) = text {
            files.push(File {
                name: String::from_str(alloc, name)?,
                bytes: Vec::from_slice(alloc, text.as_bytes())?,
            })?;
        }
    }
    Ok(MemoryDisk { files })
}

/// Asserts that a pass observes this text of a row. If an allocation fails, the pass looks again.
fn assert_shown_again<'a>(
    rt: &impl Abort,
    shelf: &'a Shelf<MemoryDisk>,
    pass: &mut Pass<'a, MemoryDisk>,
    disk: &MemoryDisk,
    row: usize,
    wanted: Option<&str>,
) -> Result<(), Memory>
    requires { pass.old.shelf ≡ shelf.now }
    ensures { pass.new.shelf ≡ shelf.now }
{
    let Ok(()) = assert_shown(rt, shelf, pass, disk, row, wanted) else {
        return assert_shown(rt, shelf, pass, disk, row, wanted);
    };
    Ok(())
}

/// Asserts that a pass observes these texts of rows. Each stays unchanged if the look at a later row is repeated, and
/// another pass observes it too.
fn assert_looks_again(
    rt: &impl Abort,
    shelf: &Shelf<MemoryDisk>,
    disk: &MemoryDisk,
    rows: &[(usize, Option<&str>)],
) -> Result<(), Memory> {
    let mut pass = shelf.pass()?;
    for &(row, text) in rows {
        assert_shown_again(rt, shelf, &mut pass, disk, row, text)?;
    }
    // shows proofs what a pass observes, and changes nothing
    pass.contents_permitted();
    assert_rows(rt, shelf, &mut pass, disk, rows)?;
    assert_new(rt, shelf, disk, rows)
}

#[test]
fn a_look_is_repeated_after_a_failed_allocation(rt: HostRuntime) -> Result<(), Fail> {
    let disk = disk_of(rt.alloc())?;
    let shelf = named(rt.alloc(), NAMES)?;
    Ok(assert_looks_again(&rt, &shelf, &disk, ROWS)?)
}
