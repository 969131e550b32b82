//! The search for included files (6.10.2).
//!
//! The names of a list are all that exists: a search asks the shelf for the row of each name that it tries, and never the
//! disk. A name is made from a directory and the text of an include line by following segments (`path.rt`), as a system
//! without links would do. Most texts have no `.` and no `..` segments: then both are joined as they are, which the fast
//! path of `row_in_directory` does, into one buffer for all directories.
//!
//! The number of the directory is returned with the row, since `#include_next` goes on after it.
ghost use Rattle.std.specs.Prelude.{◌≡◌, ◌<◌, ◌+◌, ◌++◌, ◌∷◌, [], length, slice_index_or, IfOk, IfSome, OnOk, Some, true};
ghost use Rattle.std.specs.Option.{option_map};
ghost use Rattle.std.specs.List.{list_all};
ghost use Rattle.ppshelf.specs.Names.{is_file_name, name_in, segments};
ghost use Rattle.ppshelf.specs.Search as spec;
ghost use Rattle.ppshelf.specs.code.Paths.{IsRowAt, starts_without_dot};

use crate::disk::Disk;
use crate::names::has_no_dot_segments;
use crate::path::{Path, USUAL_NAME_LEN};
use crate::shelf::Shelf;
use memchr::memrchr;
use pptext::{Memory, OwnedText};
use std::alloc::Global;

/// The syntax of an include name (6.10.2).
#[derive(Clone, Copy, PartialEq, Eq, Debug)]
pub enum Form {
    /// `"name"`: the directory of the including file is searched first.
    Quote,
    /// `<name>`.
    Angle,
}

/// The directories that are searched for every include: first those of the unit, then those of the setting. They are
/// numbered from 1.
#[derive(Clone, Copy)]
pub struct Directories<'a> {
    /// The directories of the unit.
    pub unit: &'a [OwnedText],
    /// The directories of the setting.
    pub setting: &'a [OwnedText],
}

impl<'a> Directories<'a> {
    /// Returns the directory with this index among all of them.
    fn at_index(self, index: usize) -> &'a [u8]
        requires { index < length self.unit.now + length self.setting.now }
        ensures { result.now ≡ slice_index_or (self.entry.unit.now ++ self.entry.setting.now) index [] }
    {
        let own = self.unit.len();
        if index < own {
            return self.unit[index].as_str().as_bytes();
        }
        self.setting[index - own].as_str().as_bytes()
    }
}

/// Finds the file that an include line in row `from` names. Returns its row and the number of the directory that has
/// it, or None if no directory has it. The directory of the including file has number 0.
///
/// Directory and name are joined by `/`. Empty segments and `.` are dropped, and `..` removes the segment before it. A
/// directory from which `..` would lead above the root is skipped.
///
/// # Errors
///
/// An allocation fails.
pub fn resolve<D: Disk>(
    alloc: Global,
    shelf: &Shelf<D>,
    from: usize,
    form: Form,
    name: &[u8],
    directories: Directories<'_>,
) -> Result<Option<(usize, usize)>, Memory>
    requires { from < length shelf.now.names }
    ensures first { IfOk result (λ found. spec.IsFirstRow shelf.now.names
        (spec.candidates form (name_in shelf.now.names from) directories.entry.unit.now
        directories.entry.setting.now name.now) found) }
    ensures within { IfOk result (λ found. IfSome found (λ f. f.0 < length shelf.now.names)) }
{
    let mut joined = Vec::with_capacity(alloc, USUAL_NAME_LEN)?;
    let in_includer_dir = row_in_includer_dir(alloc, shelf, from, form, name, &mut joined)?;
    if let Some(row) = in_includer_dir {
        return Ok(Some((row, 0)));
    }
    row_in_directories(alloc, shelf, 0, name, directories, &mut joined)
}

/// Finds the file that `#include_next` names in a file that was found in the directory with this number (gcc's manual,
/// "Wrapper Headers"). Only directories with larger numbers are searched, whichever syntax the name has.
///
/// # Errors
///
/// An allocation fails.
pub fn resolve_next<D: Disk>(
    alloc: Global,
    shelf: &Shelf<D>,
    number: usize,
    name: &[u8],
    directories: Directories<'_>,
) -> Result<Option<(usize, usize)>, Memory>
    ensures first { IfOk result (λ found. spec.IsFirstRow shelf.now.names
        (spec.candidates_after number directories.entry.unit.now
        directories.entry.setting.now name.now) found) }
    ensures within { IfOk result (λ found. IfSome found (λ f. f.0 < length shelf.now.names)) }
{
    let mut joined = Vec::with_capacity(alloc, USUAL_NAME_LEN)?;
    row_in_directories(alloc, shelf, number, name, directories, &mut joined)
}

/// For `"name"`, returns the row of the name in the directory of the including file.
fn row_in_includer_dir<D: Disk>(
    alloc: Global,
    shelf: &Shelf<D>,
    from: usize,
    form: Form,
    name: &[u8],
    joined: &mut Vec<u8>,
) -> Result<Option<usize>, Memory>
    requires { from < length shelf.now.names }
    ensures { IfOk result (λ row. spec.IsFirstRow shelf.now.names (spec.in_includer_dir form (name_in shelf.now.names from) name.now)
        (option_map (λ r. (r, 0)) row)) }
{
    if form == Form::Angle {
        return Ok(None);
    }
    // For proofs: the names are in normal form.
    shelf.names_are_distinct();
    let directory = directory_of(shelf.name(from).as_bytes());
    row_in_directory(
        alloc,
        shelf,
        directory,
        name,
        has_no_dot_segments(name),
        joined,
    )
}

/// Returns the directory of the file with this name: the text before the last slash, or the empty text, which leads to
/// the root.
fn directory_of(name: &[u8]) -> &[u8]
    requires { is_file_name name.now ≡ true }
    ensures { spec.follow (Some []) result.now ≡ spec.parent_of (spec.follow (Some []) name.now) }
{
    match memrchr(b'/', name) {
        Some(slash) => &name[..slash],
        None => &name[..0],
    }
}

/// Returns the row of the name in the first directory with a number above `number` that has it, and that directory's
/// number.
fn row_in_directories<D: Disk>(
    alloc: Global,
    shelf: &Shelf<D>,
    number: usize,
    name: &[u8],
    directories: Directories<'_>,
    joined: &mut Vec<u8>,
) -> Result<Option<(usize, usize)>, Memory>
    ensures { IfOk result (λ found. spec.IsFirstRow shelf.now.names
        (spec.candidates_after number directories.entry.unit.now
        directories.entry.setting.now name.now) found) }
{
    let dotless = has_no_dot_segments(name);
    let count = directories.unit.len() + directories.setting.len();
    for index in number..count {
        let row = row_in_directory(
            alloc,
            shelf,
            directories.at_index(index),
            name,
            dotless,
            joined,
        )?;
        if let Some(row) = row {
            return Ok(Some((row, index + 1)));
        }
    }
    Ok(None)
}

/// Returns the row of the name in this directory. Fast path: if each segment of both has a first byte that is no `.`, the two are
/// joined without taking them apart.
fn row_in_directory<D: Disk>(
    alloc: Global,
    shelf: &Shelf<D>,
    directory: &[u8],
    name: &[u8],
    dotless: bool,
    joined: &mut Vec<u8>,
) -> Result<Option<usize>, Memory>
    requires { dotless ≡ list_all starts_without_dot (segments name.now) }
    ensures { IfOk result (λ row. IsRowAt shelf.now.names (spec.follow (spec.follow (Some []) directory.now) name.now) row) }
{
    if dotless && has_no_dot_segments(directory) {
        join_path(joined, directory, name)?;
        return Ok(shelf.row_of(joined.as_slice()));
    }
    let mut path = Path::root(alloc);
    if !path.follow(directory)? {
        return Ok(None);
    }
    row_of_path(alloc, shelf, path, name)
}

/// Replaces `joined` by both texts with `/` between them.
fn join_path(joined: &mut Vec<u8>, directory: &[u8], name: &[u8]) -> Result<(), Memory>
    ensures { OnOk result (joined.new.items ≡ directory.now ++ 47 ∷ name.now) }
{
    joined.clear();
    joined.extend_from_slice(directory)?;
    joined.push(b'/')?;
    joined.extend_from_slice(name)?;
    Ok(())
}

/// Returns the row of the name to which the text leads from a path.
fn row_of_path<'a, D: Disk>(
    alloc: Global,
    shelf: &Shelf<D>,
    mut path: Path<'a>,
    text: &'a [u8],
) -> Result<Option<usize>, Memory>
    ensures { IfOk result (λ row. IsRowAt shelf.now.names (spec.follow (Some path.entry) text.now) row) }
{
    if !path.follow(text)? {
        return Ok(None);
    }
    let name = path.name(alloc)?;
    Ok(shelf.row_of(name.as_slice()))
}
