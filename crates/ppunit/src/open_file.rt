//! Opens files (6.10.2): dependencies, contents, and the predefined names in a file.
//!
//! Opening has an order that a unit's value depends on: the depth and the budget are checked first, then the file becomes
//! a dependency, then `#pragma once` is asked, and only then is its content looked up. So a file that isn't read again
//! needs no content, and one that can't be read is a dependency too. A file whose include guard is defined is read and
//! then skipped as a whole: its lines would only be stepped over.
//!
//! A file is opened here and walked in `line_walk`: `open` returns the file, the context that is restored after it, and the
//! line at which the including file goes on, so that no function calls itself for an included file.
ghost use Rattle.std.specs.Prelude.{◌≡◌, ◌<◌, ◌^◌, pos, length, unwrap_or, IfOk, OnOk, IfErr, IfSome};
ghost use Rattle.std.specs.Result.{result_err};
ghost use Rattle.pptext.specs.Errors.{UnlessOutOfMemory};
ghost use Rattle.ppshelf.specs.Files.{Files};
ghost use Rattle.ppshelf.specs.Names.{name_in};
ghost use Rattle.ppunit.specs.Dependencies.{has_row};
ghost use Rattle.ppunit.specs.Directives.{FindsFile};
ghost use Rattle.ppunit.specs.Group.{OpensFile};
ghost use Rattle.ppunit.specs.code.Preprocessor.{KeepsContext};
ghost use Rattle.ppunit.specs.code.Opening.{SpendsOpening, HasLines, HasFault, Begins, opening_in, shown_as};
ghost use Rattle.ppexpand.specs.FileNames.{literal};
ghost use Rattle.ppunit.specs.States.{Progress, file_context, mark_in, with_dependency, begun, leaving, running};
ghost use Rattle.ppunit.specs.declared.units.MarkSort.TheVariants.{Enter};
ghost use Rattle.ppunit.specs.code.Contexts.{context_over};
ghost use Rattle.ppunit.specs.code.Walk.{Leads};

use crate::guards::is_left_out;
use crate::including::IncludeName;
use crate::preprocessor::Preprocessor;
use crate::shown_names::{Showing, ShownName};
use crate::states::{FileContext, Resumption, State};
use crate::units::{Mark, MarkSort};
use ppexpand::{Env, FileName, literal};
use ppmacro::PreparedSource;
use ppshelf::{Directories, Disk, Pass, Shelf, resolve, resolve_next};
use pptext::{Error, Memory, Place, Profile, Source, Spelling};
use std::alloc::Global;
use std::marker::Model;

/// The largest depth of an included file: the unit's file has depth 0, and an included file is one deeper than its
/// include line.
const DEEPEST: u32 = 200;

/// What does not change within a unit: the file table, the disk, the directories that are searched, and how files are shown. Its
/// model is the file table, the directories and how files are shown.
pub(crate) struct UnitContext<'a, 'b, D: Disk> {
    pub alloc: Global,
    shelf: &'a Shelf<D>,
    disk: &'b D,
    directories: Directories<'b>,
    showing: Showing<'b>,
}

impl<'a, 'b, D: Disk> Model for UnitContext<'a, 'b, D> {
    ghost use Rattle.ppunit.specs.code.Contexts.{UnitContext};

    ghost Value = { UnitContext };

    ghost view = { λ a. record {
      shelf = a.shelf.now;
      unit_directories = a.directories.unit.now;
      setting_directories = a.directories.setting.now;
      showing = a.showing;
    } };
}

impl<D: Disk> Drop for UnitContext<'_, '_, D> {
    fn drop(self) {
        let UnitContext {
            alloc: _,
            shelf: _,
            disk: _,
            directories: _,
            showing: _,
        } = self;
    }
}

impl<'a, 'b, D: Disk> UnitContext<'a, 'b, D> {
    /// Bundles a file table, its disk, directories, and how files are shown.
    pub(crate) fn new(
        alloc: Global,
        shelf: &'a Shelf<D>,
        disk: &'b D,
        directories: Directories<'b>,
        showing: Showing<'b>,
    ) -> UnitContext<'a, 'b, D>
        ensures { result ≡ record {
          shelf = shelf.now;
          unit_directories = directories.entry.unit.now;
          setting_directories = directories.entry.setting.now;
          showing = showing.entry;
        } }
    {
        UnitContext {
            alloc,
            shelf,
            disk,
            directories,
            showing,
        }
    }

    /// Returns the file table.
    pub(crate) fn shelf(&self) -> &'a Shelf<D>
        ensures { result.now ≡ self.now.shelf }
    {
        self.shelf
    }

    /// Returns the profile that the files are read with.
    pub(crate) fn profile(&self) -> Profile
        ensures { result ≡ self.now.shelf.profile }
    {
        self.shelf.profile()
    }

    /// Returns how files are shown.
    pub(crate) fn showing(&self) -> &Showing<'b>
        ensures { result.now ≡ self.now.showing }
    {
        &self.showing
    }

    /// Returns the directories that are searched.
    pub(crate) fn directories(&self) -> Directories<'b>
        ensures unit { result.unit.now ≡ self.now.unit_directories }
        ensures setting { result.setting.now ≡ self.now.setting_directories }
    {
        self.directories
    }
}

/// A file that is being processed: its index in the file table, its lines, and the index of the next line.
#[derive(Drop)]
pub(crate) struct OpenFile<'a> {
    pub row: usize,
    pub source: &'a Source,
    pub index: usize,
    /// The same file, with what its `#define` lines define.
    pub prepared: &'a PreparedSource,
}

impl<'a> Model for OpenFile<'a> {
    ghost use Rattle.std.specs.Prelude.{◌≡◌};
    ghost use Rattle.ppunit.specs.code.Opening.{OpenFile};

    ghost Value = { OpenFile };

    ghost view = { λ f. record { row = f.row; lines = f.source.now; index = f.index } };

    ghost invariant = { λ f. f.prepared.now ≡ f.source.now };
}

impl<'a> OpenFile<'a> {
    /// Creates a file that is before its first line.
    pub(crate) fn new(row: usize, prepared: &'a PreparedSource) -> OpenFile<'a>
        ensures file { result ≡ record { row = row; lines = prepared.now; index = 0 } }
        ensures few { length prepared.now < 2 ^ 64 }
    {
        let source = prepared.source();
        // For proofs: the number of lines fits.
        let _lines = source.line_count();
        OpenFile {
            row,
            source,
            index: 0,
            prepared,
        }
    }
}

/// A file that was just opened, the context of the file that includes it, and where that goes on.
#[derive(Drop)]
pub(crate) struct EnteredParts<'x> {
    pub file: OpenFile<'x>,
    pub outer: FileContext<'x>,
    pub resumption: Option<Resumption>,
}

impl<'x> Model for EnteredParts<'x> {
    ghost use Rattle.ppunit.specs.code.Opening.{Entered};

    ghost Value = { Entered };

    ghost view = { λ e. record { file = e.file; outer = e.outer; resumption = e.resumption } };
}

/// A file that was just opened. It is on the heap, since most lines enter no file, and what a line leads to is moved often.
#[derive(Drop)]
pub(crate) struct Entered<'x> {
    parts: Box<EnteredParts<'x>>,
}

impl<'x> Model for Entered<'x> {
    ghost use Rattle.ppunit.specs.code.Opening.{Entered};

    ghost Value = { Entered };

    ghost view = { λ e. e.parts.value };
}

impl<'x> Entered<'x> {
    /// Returns the parts.
    pub(crate) fn into_parts(self) -> EnteredParts<'x>
        ensures { result ≡ self.entry }
    {
        let Entered { parts } = self;
        Box::into_inner(parts)
    }
}

/// An open file: its index in the file table, and the number of the directory after which a search begins, if it doesn't begin
/// with the directory of the file.
#[derive(Clone, Copy)]
pub(crate) struct LocatedFile {
    pub row: usize,
    pub directory: Option<usize>,
}

/// A file to open: its index in the file table, the number of the directory in which it was found (the main file has none), its
/// shown name unless that is its name in the file table, whether it is a system header, and where the including file goes on
/// after it.
#[derive(Drop)]
pub(crate) struct Opening {
    pub row: usize,
    pub directory: Option<usize>,
    pub shown: Option<Spelling>,
    pub system: bool,
    pub resumption: Option<Resumption>,
}

impl Model for Opening {
    ghost use Rattle.ppunit.specs.code.Opening.{ToOpen};

    ghost Value = { ToOpen };

    ghost view = { λ o. record {
      row = o.row;
      directory = o.directory;
      shown = o.shown;
      system = o.system;
      resumption = o.resumption;
    } };
}

/// Returns the predefined names at the beginning of a file.
fn file_env<'x>(outer: &Env<'_>, name: FileName<'x>) -> Result<Env<'x>, Memory>
    ensures { IfOk result (λ e. e ≡ record outer.now { name = name.entry; shift = pos 0 }) }
{
    Ok(Env {
        name,
        shift: 0,
        date: outer.date.clone()?,
        time: outer.time.clone()?,
        profile: outer.profile,
    })
}

/// Returns the index of the file that an include line in the file `from` names, and the number of the directory in
/// which it is found. If `from` has a directory number, only the directories after that one are searched. The file of a
/// unit's definitions isn't in the file table, and has no files next to it: all directories are searched, from number 1
/// on.
pub(crate) fn resolve_in<D: Disk>(
    context: &UnitContext<'_, '_, D>,
    from: LocatedFile,
    include_name: &IncludeName,
) -> Result<Option<(usize, usize)>, Memory>
    requires { 0 < length context.now.shelf.names }
    ensures finds { (files : Files) → IfOk result (λ found. FindsFile (context_over context.now files) from.row from.directory include_name.now found) }
    ensures within { IfOk result (λ found. IfSome found (λ f. f.0 < length context.now.shelf.names)) }
{
    let shelf = context.shelf();
    let directories = context.directories();
    let name = include_name.name.as_bytes();
    if let Some(number) = from.directory {
        return resolve_next(context.alloc, shelf, number, name, directories);
    }
    if from.row < shelf.len() {
        return resolve(
            context.alloc,
            shelf,
            from.row,
            include_name.form,
            name,
            directories,
        );
    }
    resolve_next(context.alloc, shelf, 0, name, directories)
}

/// Does what `resolve_in` does, by the pass if it can.
pub(crate) fn find_file<'a, D: Disk>(
    context: &UnitContext<'a, '_, D>,
    pass: &mut Pass<'a, D>,
    from: LocatedFile,
    include_name: &IncludeName,
) -> Result<Option<(usize, usize)>, Memory>
    requires shelf { pass.old.shelf ≡ context.now.shelf }
    requires rows { 0 < length context.now.shelf.names }
    ensures pass { pass.new ≡ pass.old }
    ensures finds { (files : Files) → IfOk result (λ found. FindsFile (context_over context.now files) from.row from.directory include_name.now found) }
    ensures within { IfOk result (λ found. IfSome found (λ f. f.0 < length context.now.shelf.names)) }
{
    if from.directory.is_none() && from.row < context.shelf().len() {
        return pass.resolve(
            context.alloc,
            from.row,
            include_name.form,
            include_name.name.as_bytes(),
            context.directories(),
        );
    }
    resolve_in(context, from, include_name)
}

/// Spends one opening from the budget, if the file at index `row` may be opened at this depth. Fault 32 if it is too
/// deep, and 35 if the budget is exhausted.
fn spend_opening<D: Disk>(
    context: &UnitContext<'_, '_, D>,
    state: &mut State,
    depth: u32,
    at: Place,
    row: usize,
) -> Result<(), Error>
    requires { row < length context.now.shelf.names }
    ensures { UnlessOutOfMemory result (λ r. SpendsOpening depth at (name_in context.now.shelf.names row) state.old state.new (result_err r)) }
{
    if depth > DEEPEST {
        let name = context.shelf().name(row);
        return Err(Error::new(context.alloc, 32, at, name.as_bytes()));
    }
    if state.is_exhausted() {
        return Err(Error::bare(context.alloc, 35, at));
    }
    state.spend();
    Ok(())
}

/// Adds the file at index `row` to the dependencies. Returns whether it is marked by `#pragma once`.
fn record_dependency(state: &mut State, row: usize) -> Result<bool, Memory>
    ensures joins { OnOk result (state.new ≡ with_dependency state.old row) }
    ensures is_once { IfOk result (λ is_once. is_once ≡ has_row row state.old.once) }
{
    let is_once = state.once.contains(row);
    state.add_dependency(row)?;
    Ok(is_once)
}

/// Returns the name that a file has in the file table.
fn own_name<'a, D: Disk>(context: &UnitContext<'a, '_, D>, row: usize) -> &'a [u8]
    requires { row < length context.now.shelf.names }
    ensures { result.now ≡ name_in context.now.shelf.names row }
{
    context.shelf().name(row).as_bytes()
}

/// Returns the presumed name of a file before its first line, if this is its own name.
fn first_name<'x>(
    alloc: Global,
    own: &'x [u8],
    shown: &Option<Spelling>,
) -> Result<FileName<'x>, Memory>
    ensures { IfOk result (λ name. name ≡ literal (unwrap_or shown.now own.now)) }
{
    match shown {
        Some(shown) => Ok(FileName::spelled(Spelling::new(literal(alloc, shown.as_bytes())?)?)),
        None => Ok(FileName::of_file(own)),
    }
}

/// Enters a file with this own name. Returns the context of the including file.
fn enter_file<'x>(
    alloc: Global,
    state: &mut State<'x>,
    at: Place,
    opening: Opening,
    own: &'x [u8],
) -> Result<FileContext<'x>, Memory>
    ensures outer { IfOk result (λ outer. outer ≡ file_context state.old) }
    ensures begun { OnOk result (state.new ≡ begun at state.old opening.row (shown_as (unwrap_or opening.shown own.now) opening)) }
{
    let Opening {
        row,
        directory,
        shown,
        system,
        resumption: _,
    } = opening;
    let name = first_name(alloc, own, &shown)?;
    let env = file_env(&state.file_context.env, name)?;
    let outer = state.enter(FileContext {
        env,
        directory,
        shown: ShownName::of(own, shown),
        system,
    });
    state.note_system(system, row)?;
    state.emit_mark(MarkSort::Enter(at), row, 0)?;
    Ok(outer)
}

/// Returns the mark at which a file with this own name begins.
fn first_mark(
    alloc: Global,
    state: &State,
    at: Place,
    opening: &Opening,
    own: &[u8],
) -> Result<Mark, Memory>
    ensures { IfOk result (λ m. m ≡ mark_in (record state.now.env { name = literal (unwrap_or opening.now.shown own.now); shift = pos 0 }) state.now.system_rows (Enter at) opening.now.row 0) }
{
    let shown = match &opening.shown {
        Some(shown) => shown.as_bytes(),
        None => own,
    };
    Ok(Mark {
        sort: MarkSort::Enter(at),
        row: opening.row,
        physical: 1,
        line: 1,
        name: Spelling::new(literal(alloc, shown)?)?,
        system: state.system_rows.contains(opening.row),
    })
}

/// Enters a file with this own name, and leaves it at once: emits two marks.
fn skip_file(
    alloc: Global,
    state: &mut State,
    at: Place,
    opening: &Opening,
    own: &[u8],
) -> Result<(), Memory>
    ensures { OnOk result (running state.new ≡ leaving state.old (shown_as (unwrap_or opening.now.shown own.now) opening.now)
        (running (begun at state.old opening.now.row (shown_as (unwrap_or opening.now.shown own.now) opening.now)))) }
{
    state.note_system(opening.system, opening.row)?;
    if !state.keeps {
        return Ok(());
    }
    let mark = first_mark(alloc, state, at, opening, own)?;
    state.items.push_mark(mark)?;
    state.resume(opening.resumption)
}

/// Enters a file with these lines and this own name, before its first line. Returns nothing if its include guard is
/// defined: then its lines have no effect, and neither has its end, unless an invocation waits.
fn begin<'x>(
    alloc: Global,
    state: &mut State<'x>,
    at: Place,
    opening: Opening,
    own: &'x [u8],
    source: &'x PreparedSource,
) -> Result<Option<Entered<'x>>, Memory>
    ensures { IfOk result (λ entered. Begins at opening.row (shown_as (unwrap_or opening.shown own.now) opening) source.now state.old state.new entered) }
{
    if !state.is_waiting() && is_left_out(state, source.source()) {
        skip_file(alloc, state, at, &opening, own)?;
        return Ok(None);
    }
    let resumption = opening.resumption;
    let file = OpenFile::new(opening.row, source);
    let outer = enter_file(alloc, state, at, opening, own)?;
    let parts = EnteredParts {
        file,
        outer,
        resumption,
    };
    Ok(Some(Entered {
        parts: Box::new(alloc, parts)?,
    }))
}

impl<'x, 'a: 'x, D: Disk> Preprocessor<'_, 'x, 'a, D> {
    /// Returns the lines of the file at index `row`. Fault 6 if it can't be read, or the fault of its own lines.
    fn source_of(&mut self, at: Place, row: usize) -> Result<&'a PreparedSource, Error>
        requires { row < length self.old.context.now.shelf.names }
        ensures keeps_context { KeepsContext self.old self.new }
        ensures state { self.new.state ≡ self.old.state }
        ensures lines { IfOk result (λ source. HasLines self.old.context.now.shelf self.new.pass.now.files row source.now) }
        ensures fault { UnlessOutOfMemory result (λ r. IfErr r (λ f. HasFault self.old.context.now.shelf self.new.pass.now.files row at f)) }
    {
        let context = self.context;
        let shelf = context.shelf();
        let loaded = shelf.look(self.pass, row, context.disk)?;
        match loaded.lines() {
            Some(Ok(source)) => Ok(source),
            Some(Err(fault)) => Err(Error::of(context.alloc, fault.clone()?)),
            None => {
                let name = shelf.name(row).as_bytes();
                Err(Error::new(context.alloc, 6, at, name))
            }
        }
    }

    /// Opens a file for the line at location `at`. Returns nothing if the file is skipped: if it is marked by `#pragma
    /// once` or its include guard is defined. Each opening spends one of the budget. Fails with fault 32, 35 if the
    /// budget is exhausted, 6, or a fault of the file's own lines.
    pub(crate) fn open(
        &mut self,
        depth: u32,
        at: Place,
        opening: Opening,
    ) -> Result<Option<Entered<'x>>, Error>
        requires { opening.row < length self.old.context.now.shelf.names }
        ensures keeps_context { KeepsContext self.old self.new }
        ensures opened { UnlessOutOfMemory result (λ outcome.
            Leads (context_over self.old.context.now) self.new.pass.now.files depth
            (λ (more : Files) (m : Progress).
            OpensFile (context_over self.old.context.now more) depth at self.old.state opening.row (opening_in self.old.context.now.shelf.names opening) m)
            self.new.state outcome) }
    {
        let context = self.context;
        let row = opening.row;
        spend_opening(context, &mut self.state, depth, at, row)?;
        if record_dependency(&mut self.state, row)? {
            return Ok(None);
        }
        let source = self.source_of(at, row)?;
        let own = own_name(context, row);
        let state = &mut self.state;
        Ok(begin(context.alloc, state, at, opening, own, source)?)
    }
}
