//! Tests of callers with threads of their own over one file table.
ghost use Rattle.std.specs.Prelude.{◌≡◌, All, IfOk, length};
ghost use Rattle.pptext.specs.declared.sources.Profile.TheVariants.{C11};
ghost use Rattle.ppunit.specs.Unit.{IsUnitOf};

use super::lists::{push_unit, setting_of, shelf_of, units_of};
use super::runs::OVER_ONE_HEADER;
use super::stage::{Change, Stage};
use ppshelf::{Pass, Shelf};
use pptext::Memory;
use ppunit::{Setting, Unit, preprocess};
use std::alloc::Global;
use std::process::Abort;
use std::test::Fail;
use std::thread;
use std::thread::Threads;

/// The result of a thread: its pass, the text of its units' outputs, and whether all threads whose passes it merged
/// found the same.
type Found<'a> = (Pass<'a, Stage>, Vec<u8>, bool);

/// Appends the text of a unit's output.
fn push_one<'a>(
    shelf: &'a Shelf<Stage>,
    pass: &mut Pass<'a, Stage>,
    disk: &Stage,
    setting: &Setting,
    unit: &'a Unit,
    text: &mut Vec<u8>,
) -> Result<(), Memory>
    requires pass { pass.old.shelf ≡ shelf.now }
    requires profile { shelf.now.profile ≡ setting.now.profile }
    requires unit { IsUnitOf (length shelf.now.names) setting.now.profile unit.now }
    ensures { pass.new.shelf ≡ shelf.now }
{
    let alloc = *text.allocator();
    let out = preprocess(alloc, shelf, pass, disk, setting, unit)?;
    Ok(push_unit(alloc, text, &out)?)
}

/// Returns the text of the outputs of units, one after the other.
fn all_in_turn<'a>(
    alloc: Global,
    shelf: &'a Shelf<Stage>,
    pass: &mut Pass<'a, Stage>,
    disk: &Stage,
    setting: &Setting,
    units: &'a [Unit],
) -> Result<Vec<u8>, Memory>
    requires pass { pass.old.shelf ≡ shelf.now }
    requires profile { shelf.now.profile ≡ setting.now.profile }
    requires rows { All (IsUnitOf (length shelf.now.names) setting.now.profile) units.now }
    ensures { pass.new.shelf ≡ shelf.now }
{
    let mut text = Vec::new(alloc);
    for unit in units {
        push_one(shelf, pass, disk, setting, unit, &mut text)?;
    }
    Ok(text)
}

fn by_one<'a>(
    alloc: Global,
    shelf: &'a Shelf<Stage>,
    disk: &Stage,
    setting: &Setting,
    units: &'a [Unit],
) -> Result<Found<'a>, Memory>
    requires profile { shelf.now.profile ≡ setting.now.profile }
    requires rows { All (IsUnitOf (length shelf.now.names) setting.now.profile) units.now }
    ensures { IfOk result (λ f. f.0.shelf ≡ shelf.now) }
{
    let mut pass = shelf.pass()?;
    let text = all_in_turn(alloc, shelf, &mut pass, disk, setting, units)?;
    Ok((pass, text, true))
}

fn together<'a>(shelf: &'a Shelf<Stage>, one: Found<'a>, two: Found<'a>) -> Found<'a>
    requires { (one.0.shelf ≡ shelf.now) × (two.0.shelf ≡ shelf.now) }
    ensures { result.0.shelf ≡ shelf.now }
{
    let (mut pass, text, same) = one;
    let (other, others, others_same) = two;
    shelf.meet(&mut pass, other);
    let same = same && others_same && text.as_slice() == others.as_slice();
    (pass, text, same)
}

fn by_two<'a, R: Threads>(
    rt: &R,
    alloc: Global,
    shelf: &'a Shelf<Stage>,
    disk: &Stage,
    setting: &Setting,
    units: &'a [Unit],
) -> Result<Found<'a>, Memory>
    requires profile { shelf.now.profile ≡ setting.now.profile }
    requires rows { All (IsUnitOf (length shelf.now.names) setting.now.profile) units.now }
    ensures { IfOk result (λ f. f.0.shelf ≡ shelf.now) }
{
    let one = || -> Result<Found, Memory>
        requires { (shelf.now.profile ≡ setting.now.profile) × All (IsUnitOf (length shelf.now.names) setting.now.profile) units.now }
        ensures { IfOk result (λ f. f.0.shelf ≡ shelf.entry.now) }
    { by_one(alloc, shelf, disk, setting, units) };
    let two = || -> Result<Found, Memory>
        requires { (shelf.now.profile ≡ setting.now.profile) × All (IsUnitOf (length shelf.now.names) setting.now.profile) units.now }
        ensures { IfOk result (λ f. f.0.shelf ≡ shelf.entry.now) }
    { by_one(alloc, shelf, disk, setting, units) };
    let (one, two) = thread::join(rt, one, two);
    Ok(together(shelf, one?, two?))
}

fn by_four<'a, R: Threads + Sync>(
    rt: &R,
    alloc: Global,
    shelf: &'a Shelf<Stage>,
    disk: &Stage,
    setting: &Setting,
    units: &'a [Unit],
) -> Result<Found<'a>, Memory>
    requires profile { shelf.now.profile ≡ setting.now.profile }
    requires rows { All (IsUnitOf (length shelf.now.names) setting.now.profile) units.now }
    ensures { IfOk result (λ f. f.0.shelf ≡ shelf.now) }
{
    let one = || -> Result<Found, Memory>
        requires { (shelf.now.profile ≡ setting.now.profile) × All (IsUnitOf (length shelf.now.names) setting.now.profile) units.now }
        ensures { IfOk result (λ f. f.0.shelf ≡ shelf.entry.now) }
    { by_two(rt, alloc, shelf, disk, setting, units) };
    let two = || -> Result<Found, Memory>
        requires { (shelf.now.profile ≡ setting.now.profile) × All (IsUnitOf (length shelf.now.names) setting.now.profile) units.now }
        ensures { IfOk result (λ f. f.0.shelf ≡ shelf.entry.now) }
    { by_two(rt, alloc, shelf, disk, setting, units) };
    let (one, two) = thread::join(rt, one, two);
    Ok(together(shelf, one?, two?))
}

/// Returns whether two units have one content of the header, either one, and each unit its own file.
fn is_of_three_files(text: &[u8]) -> bool {
    text.len() == 32 && text[0] == text[16] && text[2] != text[18]
}

/// Asserts that four threads find the same outputs of two units, over a disk that returns another text at each read.
fn assert_found<R: Threads + Sync + Abort>(
    rt: &R,
    alloc: Global,
    shelf: &Shelf<Stage>,
    setting: &Setting,
    units: &[Unit],
) -> Result<(), Memory>
    requires profile { shelf.now.profile ≡ setting.now.profile }
    requires rows { All (IsUnitOf (length shelf.now.names) setting.now.profile) units.now }
{
    let mut disk = Stage::new(OVER_ONE_HEADER.scene);
    disk.change = Change::EachRead;
    let (_pass, text, same) = by_four(rt, alloc, shelf, &disk, setting, units)?;
    assert!(rt; same && is_of_three_files(text.as_slice()));
    Ok(())
}

fn assert_found_over<R: Threads + Sync + Abort>(
    rt: &R,
    alloc: Global,
    shelf: &Shelf<Stage>,
) -> Result<(), Fail>
    requires { shelf.now.profile ≡ C11 }
{
    let setting = setting_of(alloc)?;
    let units = units_of(alloc, shelf, OVER_ONE_HEADER.units)?;
    Ok(assert_found(rt, alloc, shelf, &setting, units.as_slice())?)
}

#[test]
fn callers_threads_find_the_same(rt: HostRuntime) -> Result<(), Fail> {
    let shelf = shelf_of(rt.alloc(), OVER_ONE_HEADER.names)?;
    assert_found_over(&rt, rt.alloc(), &shelf)
}
