//! Looks by several passes and threads.
ghost use Rattle.std.specs.Prelude.{◌≡◌, IfOk};

use super::{Counting, assert_new, assert_rows, bytes_of, lines_in, named, refusing};
use ppshelf::{Loaded, Pass, Shelf};
use pptext::Memory;
use std::alloc::Global;
use std::process::Abort;
use std::sync::atomic::Ordering::SeqCst;
use std::test::Fail;
use std::thread;
use std::thread::Threads;

/// Asserts that two passes observe the same contents, and that after a merge one has observed what the other had.
fn assert_passes_meet(
    rt: &impl Abort,
    shelf: &Shelf<Counting>,
    disk: &Counting,
) -> Result<(), Memory> {
    let (mut one, mut two) = (shelf.pass()?, shelf.pass()?);
    assert_rows(rt, shelf, &mut one, disk, &[(0, Some("0\n"))])?;
    assert_rows(
        rt,
        shelf,
        &mut two,
        disk,
        &[(0, Some("0\n")), (1, Some("1\n"))],
    )?;
    shelf.meet(&mut one, two);
    assert_rows(rt, shelf, &mut one, disk, &[(1, Some("1\n"))])
}

#[test]
fn passes_find_the_same(rt: HostRuntime) -> Result<(), Fail> {
    let shelf = named(rt.alloc(), &["h.h", "a.c"])?;
    let disk = refusing(99);
    assert_passes_meet(&rt, &shelf, &disk)?;
    assert!(rt; disk.reads.load(SeqCst) == 2);
    Ok(())
}

/// Looks at both rows and returns the pass.
fn all_looked_at<'a>(
    shelf: &'a Shelf<Counting>,
    disk: &Counting,
) -> Result<Pass<'a, Counting>, Memory>
    ensures { IfOk result (λ pass. pass.shelf ≡ shelf.now) }
{
    let mut pass = shelf.pass()?;
    for row in 0..shelf.len() {
        let _bytes = bytes_of(shelf, &mut pass, row, disk)?;
    }
    Ok(pass)
}

/// Returns what two threads observe, after their passes are merged.
fn by_two_threads<'a, R: Threads>(
    rt: &R,
    shelf: &'a Shelf<Counting>,
    disk: &Counting,
) -> Result<Pass<'a, Counting>, Memory>
    ensures { IfOk result (λ pass. pass.shelf ≡ shelf.now) }
{
    let one = || -> Result<Pass<Counting>, Memory>
        ensures { IfOk result (λ pass. pass.shelf ≡ shelf.entry.now) }
    { all_looked_at(shelf, disk) };
    let two = || -> Result<Pass<Counting>, Memory>
        ensures { IfOk result (λ pass. pass.shelf ≡ shelf.entry.now) }
    { all_looked_at(shelf, disk) };
    let (one, two) = thread::join(rt, one, two);
    let mut met = one?;
    shelf.meet(&mut met, two?);
    Ok(met)
}

/// Returns what four threads observe, after their passes are merged.
fn by_four_threads<'a, R: Threads + Sync>(
    rt: &R,
    shelf: &'a Shelf<Counting>,
    disk: &Counting,
) -> Result<Pass<'a, Counting>, Memory>
    ensures { IfOk result (λ pass. pass.shelf ≡ shelf.now) }
{
    let one = || -> Result<Pass<Counting>, Memory>
        ensures { IfOk result (λ pass. pass.shelf ≡ shelf.entry.now) }
    { by_two_threads(rt, shelf, disk) };
    let two = || -> Result<Pass<Counting>, Memory>
        ensures { IfOk result (λ pass. pass.shelf ≡ shelf.entry.now) }
    { by_two_threads(rt, shelf, disk) };
    let (one, two) = thread::join(rt, one, two);
    let mut met = one?;
    shelf.meet(&mut met, two?);
    Ok(met)
}

/// Looks at each row while the contents of the earlier ones are borrowed, and returns all contents.
fn all_open<'a>(
    alloc: Global,
    shelf: &'a Shelf<Counting>,
    pass: &mut Pass<'a, Counting>,
    disk: &Counting,
) -> Result<Vec<&'a Loaded<Counting>>, Memory>
    requires { pass.old.shelf ≡ shelf.now }
    ensures { pass.new.shelf ≡ shelf.now }
{
    let mut open = Vec::new(alloc);
    for row in 0..shelf.len() {
        open.push(shelf.look(pass, row, disk)?)?;
    }
    Ok(open)
}

/// Returns whether a content has these bytes, a number and its new-line.
fn is_number(loaded: &Loaded<Counting>, text: &str) -> bool {
    lines_in(loaded) == Some(Ok((1, None))) && loaded.bytes() == Some(text.as_bytes())
}

/// Returns whether three contents are the first numbers.
fn are_numbers(open: &[&Loaded<Counting>]) -> bool {
    match open {
        [one, two, three] => {
            is_number(one, "0\n") && is_number(two, "1\n") && is_number(three, "2\n")
        }
        _ => false,
    }
}

/// Asserts that contents stay unchanged during looks at later rows.
fn assert_outlive(rt: &impl Abort, alloc: Global, shelf: &Shelf<Counting>) -> Result<(), Memory> {
    let mut pass = shelf.pass()?;
    let open = all_open(alloc, shelf, &mut pass, &refusing(99))?;
    assert!(rt; are_numbers(open.as_slice()));
    Ok(())
}

#[test]
fn contents_outlive_later_looks(rt: HostRuntime) -> Result<(), Fail> {
    let alloc = rt.alloc();
    let shelf = named(alloc, &["a", "b", "c"])?;
    Ok(assert_outlive(&rt, alloc, &shelf)?)
}

/// Returns whether two passes observe the same content of the first row.
fn share_first<'a>(
    shelf: &'a Shelf<Counting>,
    one: &mut Pass<'a, Counting>,
    two: &mut Pass<'a, Counting>,
    disk: &Counting,
) -> Result<bool, Memory>
    requires one { one.old.shelf ≡ shelf.now }
    requires two { two.old.shelf ≡ shelf.now }
{
    let first = bytes_of(shelf, one, 0, disk)?;
    Ok(first.is_some() && bytes_of(shelf, two, 0, disk)? == first)
}

/// Asserts that a pass observes what four threads have observed.
fn assert_same_by_threads<R: Abort + Threads + Sync>(
    rt: &R,
    shelf: &Shelf<Counting>,
    disk: &Counting,
) -> Result<(), Memory> {
    let mut pass = by_four_threads(rt, shelf, disk)?;
    let mut other = shelf.pass()?;
    assert!(rt; share_first(shelf, &mut pass, &mut other, disk)?);
    Ok(())
}

#[test]
fn threads_find_the_same(rt: HostRuntime) -> Result<(), Fail> {
    let shelf = named(rt.alloc(), &["h.h", "a.c"])?;
    assert_same_by_threads(&rt, &shelf, &refusing(99))?;
    Ok(())
}

/// Asserts that a pass observes a row as soon as an allocation succeeds, and that from then on it and another pass
/// observe the row without a read.
fn assert_read_once(rt: &impl Abort, shelf: &Shelf<Counting>) -> Result<(), Memory> {
    let mut pass = shelf.pass()?;
    let first = bytes_of(shelf, &mut pass, 0, &refusing(0));
    assert!(rt; first == Err(Memory));
    assert_rows(rt, shelf, &mut pass, &refusing(1), &[(0, Some("0\n"))])?;
    assert_rows(rt, shelf, &mut pass, &refusing(0), &[(0, Some("0\n"))])?;
    assert_new(rt, shelf, &refusing(0), &[(0, Some("0\n"))])
}

#[test]
fn a_cached_row_is_not_read_again(rt: HostRuntime) -> Result<(), Fail> {
    let shelf = named(rt.alloc(), &["h.h"])?;
    assert_read_once(&rt, &shelf)?;
    Ok(())
}
