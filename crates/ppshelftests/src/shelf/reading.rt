//! How a file is read: with its fault, and by the shelf's profile.
use super::{assert_lines, assert_new, disk_of, named, texts};
use ppshelf::{MemoryDisk, Shelf};
use pptext::{Directive, Profile};
use std::alloc::Global;
use std::process::Abort;
use std::test::Fail;

/// The first row has the fault of a comment without an end, and the second does not exist.
#[test]
fn a_file_is_kept_with_its_fault(rt: HostRuntime) -> Result<(), Fail> {
    let disk = disk_of(rt.alloc(), b"x /*".as_slice())?;
    let mut shelf = named(rt.alloc(), &["a", "b"])?;
    assert_lines(&rt, &shelf, &disk, 0, Some(Err(1)))?;
    assert_lines(&rt, &shelf, &disk, 1, None)?;
    shelf.fill(&disk)?;
    Ok(assert_new(&rt, &shelf, &disk, &[(0, Some("x /*")), (1, None)])?)
}

/// Asserts that a shelf of this profile finds this directive by a look, and by a fill.
fn assert_reads_by(
    rt: &impl Abort,
    alloc: Global,
    disk: &MemoryDisk,
    profile: Profile,
    directive: Directive,
) -> Result<(), Fail> {
    let names = texts(alloc, &["a"])?;
    let mut shelf: Shelf<MemoryDisk> = Shelf::new(alloc, names, profile)?;
    assert!(rt; shelf.profile() == profile);
    assert_lines(rt, &shelf, disk, 0, Some(Ok((3, Some(directive)))))?;
    shelf.fill(disk)?;
    Ok(assert_lines(rt, &shelf, disk, 0, Some(Ok((3, Some(directive)))))?)
}

/// A line that is a directive only in the later profile.
#[test]
fn a_shelf_reads_by_its_profile(rt: HostRuntime) -> Result<(), Fail> {
    let alloc = rt.alloc();
    let disk = disk_of(alloc, b"#if 0\n#elifdef X\n#endif\n".as_slice())?;
    for (profile, directive) in [
        (Profile::C11, Directive::Unknown),
        (Profile::Later, Directive::Elifdef),
    ] {
        assert_reads_by(&rt, alloc, &disk, profile, directive)?;
    }
    Ok(())
}
