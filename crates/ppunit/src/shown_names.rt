//! How files are shown: under which names in `__FILE__` and in marks, and which of them are system headers.
//!
//! A compiler opens a file by a path that its command and the include lines make, and the list by a name in normal form. If the
//! list says how the paths begin, `__FILE__` is what it is in the build: what is before a header's name is the shown name of its
//! directory, or of the file next to which it was found.
ghost use Rattle.std.specs.Prelude.{◌≡◌, ◌++◌, ℕ, [], IfOk, OnOk, slice_index_or, unwrap_or, None, false};
ghost use Rattle.std.specs.Option.{option_copied};
ghost use Rattle.ppshelf.specs.Files.{Files};
ghost use Rattle.ppunit.specs.Unit.{showing_of, some_is_shown};
ghost use Rattle.ppunit.specs.ShownNames.{shown_or_own};
ghost use Rattle.ppunit.specs.ShownNames as spec;
ghost use Rattle.ppunit.specs.code.Contexts.{context_over};

use crate::including::IncludeName;
use crate::open_file::UnitContext;
use crate::states::State;
use crate::units::{Setting, ShownDirectory, Unit};
use ppshelf::Disk;
use pptext::{Memory, OwnedText, Spelling};
use std::alloc::Global;
use std::marker::Model;

/// What the name under which a file is shown is kept as: its own in the file table, or another.
#[derive(Drop)]
enum Name<'x> {
    Own(&'x [u8]),
    Other(Spelling),
}

/// The name under which a file is shown. Contracts see its bytes.
#[derive(Drop)]
pub(crate) struct ShownName<'x> {
    name: Name<'x>,
}

impl<'x> Model for ShownName<'x> {
    ghost use Rattle.std.specs.Prelude.{List, ℕ};
    ghost use Rattle.ppunit.specs.declared.shown_names.Name.TheVariants.{Own, Other};

    ghost Value = { List ℕ };

    ghost view = { λ n. elim n.name [ Own bytes ↦ bytes.now | Other text ↦ text ] };
}

impl<'x> ShownName<'x> {
    /// Returns the name of a file that has this own name, and is shown by the other if there is one.
    pub(crate) fn of(own: &'x [u8], other: Option<Spelling>) -> ShownName<'x>
        ensures { result ≡ unwrap_or other own.now }
    {
        let name = match other {
            Some(text) => Name::Other(text),
            None => Name::Own(own),
        };
        ShownName { name }
    }

    /// Returns the bytes of the name.
    pub(crate) fn as_bytes(&self) -> &[u8]
        ensures { result.now ≡ self.now }
    {
        match &self.name {
            Name::Own(bytes) => bytes,
            Name::Other(text) => text.as_bytes(),
        }
    }
}

/// How the files of a unit are shown: whether the unit shows names, and how the directories that are searched are shown, the
/// unit's before the setting's.
#[derive(Drop)]
pub(crate) struct Showing<'b> {
    pub shows_names: bool,
    pub unit: &'b [ShownDirectory],
    pub setting: &'b [ShownDirectory],
}

impl<'b> Model for Showing<'b> {
    ghost use Rattle.std.specs.Prelude.{◌++◌};
    ghost use Rattle.ppunit.specs.States.{Showing};

    ghost Value = { Showing };

    ghost view = { λ s. record { shows_names = s.shows_names; directories = s.unit.now ++ s.setting.now } };
}

impl<'b> Showing<'b> {
    /// Returns how the files of a unit are shown.
    pub(crate) fn of(setting: &'b Setting, unit: &'b Unit) -> Showing<'b>
        ensures { result ≡ showing_of setting.now unit.now }
    {
        let own = unit.search_shown.as_slice();
        let shared = setting.search_shown.as_slice();
        Showing {
            shows_names: unit.shown.is_some() || some_is_shown(own) || some_is_shown(shared),
            unit: own,
            setting: shared,
        }
    }
}

/// Returns whether some directory is shown by a name that the list says.
fn some_is_shown(directories: &[ShownDirectory]) -> bool
    ensures { result ≡ some_is_shown directories.now }
{
    directories
        .iter()
        .any(|directory| directory.shown.is_some())
}

/// Returns the part of a name up to its last `/`, or nothing.
#[tactic(auto, using(crate::proofs::FileSearch::folder_before, crate::proofs::FileSearch::folder_ends))]
fn folder_of(name: &[u8]) -> &[u8]
    ensures { result.now ≡ spec.folder_of name.now }
{
    let mut end = name.len();
    while end > 0 {
        if name[end - 1] == b'/' {
            return &name[..end];
        }
        end -= 1;
    }
    b""
}

/// Returns what the list says of the directory with this index: the unit's come before the setting's.
#[tactic(auto, using(crate::proofs::FileSearch::own_directory, crate::proofs::FileSearch::shared_directory))]
fn directory_at<'b>(showing: &Showing<'b>, index: usize) -> Option<&'b ShownDirectory>
    ensures { (other : ShownDirectory) → unwrap_or (option_copied result) other ≡ slice_index_or showing.now.directories index other }
{
    let own = showing.unit;
    if index < own.len() {
        return own.get(index);
    }
    showing.setting.get(index - own.len())
}

/// Returns the name of the directory with this index: the unit's come before the setting's.
#[tactic(auto, using(crate::proofs::FileSearch::own_directory, crate::proofs::FileSearch::shared_directory))]
fn directory_name<'b, D: Disk>(context: &UnitContext<'_, 'b, D>, index: usize) -> &'b [u8]
    ensures { result.now ≡ slice_index_or (context.now.unit_directories ++ context.now.setting_directories) index [] }
{
    let directories = context.directories();
    let own = directories.unit;
    let found = if index < own.len() {
        own.get(index)
    } else {
        directories.setting.get(index - own.len())
    };
    match found {
        Some(name) => name.as_str().as_bytes(),
        None => b"",
    }
}

/// Returns how a directory of this name is shown if the list says nothing of that.
fn own_name(name: &[u8]) -> &[u8]
    ensures { result.now ≡ spec.own_name name.now }
{
    if name == b".".as_slice() { b"" } else { name }
}

/// Returns how the directory with this index is shown: the unit's come before the setting's.
fn shown_directory<'b, D: Disk>(context: &UnitContext<'_, 'b, D>, index: usize) -> &'b [u8]
    ensures { result.now ≡ spec.shown_directory (slice_index_or (context.now.unit_directories ++ context.now.setting_directories) index [])
        (slice_index_or context.now.showing.directories index (record { shown = None; system = false })).shown }
{
    let name = directory_name(context, index);
    let Some(directory) = directory_at(context.showing(), index) else {
        return own_name(name);
    };
    match &directory.shown {
        Some(shown) => shown.as_str().as_bytes(),
        None => own_name(name),
    }
}

/// Appends `/`, unless the text is empty or ends in one.
#[tactic(auto, using(crate::proofs::FileSearch::slash_stays, crate::proofs::FileSearch::slash_comes))]
fn end_in_slash(text: &mut Vec<u8>) -> Result<(), Memory>
    ensures { OnOk result (text.new.items ≡ spec.with_slash text.old.items) }
{
    let len = text.len();
    if len == 0 {
        return Ok(());
    }
    if text[len - 1] == b'/' {
        return Ok(());
    }
    text.push(b'/')?;
    Ok(())
}

/// Returns what is before the name of a header in its shown name, if it is found in the directory of this number: 0 is that of
/// the current file.
fn prefix_in<D: Disk>(
    context: &UnitContext<'_, '_, D>,
    state: &State,
    number: usize,
) -> Result<Vec<u8>, Memory>
    ensures { (files : Files) → IfOk result (λ p. p.items ≡ spec.prefix_in (context_over context.now files) state.now number) }
{
    if number == 0 {
        let folder = folder_of(state.file_context.shown.as_bytes());
        return Ok(Vec::from_slice(context.alloc, folder)?);
    }
    let shown = shown_directory(context, number - 1);
    let mut text = Vec::from_slice(context.alloc, shown)?;
    end_in_slash(&mut text)?;
    Ok(text)
}

/// Returns the name of a header after what is before it in its shown name.
fn prefixed_name<D: Disk>(
    context: &UnitContext<'_, '_, D>,
    state: &State,
    include_name: &IncludeName,
    number: usize,
) -> Result<Spelling, Memory>
    ensures { (files : Files) → IfOk result (λ name. name ≡ spec.prefix_in (context_over context.now files) state.now number ++ include_name.now.name) }
{
    let mut name = prefix_in(context, state, number)?;
    name.extend_from_slice(include_name.name.as_bytes())?;
    Ok(Spelling::new(name)?)
}

/// Returns the shown name of the file that is found for a header in the directory of this number, if the unit shows names.
pub(crate) fn shown_name<D: Disk>(
    context: &UnitContext<'_, '_, D>,
    state: &State,
    include_name: &IncludeName,
    number: usize,
) -> Result<Option<Spelling>, Memory>
    ensures { (files : Files) (row : ℕ) → IfOk result (λ shown.
        shown_or_own context.now.shelf.names row shown ≡ spec.shown_name (context_over context.now files) state.now include_name.now.name (row, number)) }
{
    if !context.showing().shows_names {
        return Ok(None);
    }
    let name = prefixed_name(context, state, include_name, number)?;
    Ok(Some(name))
}

/// Returns whether a file that is found in the directory of this number is a system header.
pub(crate) fn is_system<D: Disk>(
    context: &UnitContext<'_, '_, D>,
    state: &State,
    number: usize,
) -> bool
    ensures { (files : Files) → result ≡ spec.is_system (context_over context.now files) state.now number }
{
    if number == 0 {
        return state.file_context.system;
    }
    match directory_at(context.showing(), number - 1) {
        Some(directory) => directory.system,
        None => false,
    }
}

/// Copies a shown name that the list says.
pub(crate) fn copy_shown(
    alloc: Global,
    shown: &Option<OwnedText>,
) -> Result<Option<Spelling>, Memory>
    ensures { IfOk result (λ s. s ≡ shown.now) }
{
    match shown {
        Some(text) => Ok(Some(Spelling::from_slice(alloc, text.as_str().as_bytes())?)),
        None => Ok(None),
    }
}
