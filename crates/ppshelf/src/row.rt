//! Rows that are filled once, and what callers have observed of them.
//!
//! A row doesn't know its own number and name: the shelf has the names, and hands a `FileId` to each function. A cell
//! (`OnceBox`) is shared, so no contract says what it holds; a `Note` says what one caller knows of it. `RowObservation` is
//! that note with the reference that the caller was given. A later look returns the reference itself, without access to
//! the cell. The functions here are apart from `shelf.rt`, so that each proof speaks of one row and not of a list.
ghost use Rattle.std.specs.Prelude.{◌≡◌, ◌<◌, IfOk, OnErr, OnOk, IsSome, IfSome, IsOkAnd, Some, None};
ghost use Rattle.ppshelf.specs.Content.{IsPermitted, readable};
ghost use Rattle.ppshelf.specs.Files.{max_rows, or_else};
ghost use Rattle.ppshelf.specs.code.ShelfRows.{LoadedView, IsPlaced, FitsRow, FilledRow};

use crate::disk::Disk;
use crate::loaded::{FileId, Loaded};
use once_cell::race::{Note, OnceBox};
use pptext::Memory;
use std::alloc::Global;
use std::marker::Model;
use std::mem;

/// One row: its content from a fill, and the cell in which looks cache a content.
pub(crate) struct Row<D: Disk> {
    filled: Option<Loaded<D>>,
    cell: OnceBox<Loaded<D>>,
}

impl<D: Disk> Model for Row<D> {
    ghost use Rattle.once_cell.specs.Once.{cell_name};
    ghost use Rattle.ppshelf.specs.code.ShelfRows.{RowState};

    ghost Value = { RowState };

    ghost view = { λ r. record { filled = r.filled; cell = cell_name r.cell } };
}

impl<D: Disk> Drop for Row<D> {
    fn drop(self) {
        let Row { filled: _, cell: _ } = self;
    }
}

/// What a caller has observed of one row: what it knows about the row's cell, and the content that it was given.
pub(crate) struct RowObservation<'a, D: Disk> {
    note: Note<Loaded<D>>,
    shown: Option<&'a Loaded<D>>,
}

impl<'a, D: Disk> Model for RowObservation<'a, D> {
    ghost use Rattle.std.specs.Option.{option_copied};
    ghost use Rattle.ppshelf.specs.code.ShelfRows.{Observation};

    ghost Value = { Observation };

    ghost view = { λ s. record { cell = s.note.cell; noted = s.note.known; shown = option_copied s.shown } };
}

impl<D: Disk> Drop for RowObservation<'_, D> {
    fn drop(self) {
        let RowObservation { note: _, shown: _ } = self;
    }
}

impl<D: Disk> Row<D> {
    /// Creates an empty row.
    pub(crate) fn new(alloc: Global) -> Row<D>
        ensures { result.filled ≡ None }
    {
        Row {
            filled: None,
            cell: OnceBox::new(alloc),
        }
    }

    /// Creates the observation of a caller that has observed nothing of the row.
    pub(crate) fn new_observation<'a>(&'a self) -> RowObservation<'a, D>
        ensures { (result.cell ≡ self.now.cell) × (result.shown ≡ None) }
    {
        RowObservation {
            note: self.cell.note(),
            shown: None,
        }
    }

    /// Reads the row's file, unless the row was filled before.
    pub(crate) fn fill(&mut self, alloc: Global, file: &FileId<'_>, disk: &D) -> Result<(), Memory>
        requires { file.now.row < max_rows }
        ensures fill_effect { FilledRow (IsPermitted (D.may_return disk.now) file.now.name) file.now self.old self.new }
        ensures full { OnOk result (IsSome self.new.filled) }
    {
        if self.filled.is_none() {
            let loaded = Loaded::read(alloc, disk, file)?;
            self.filled = Some(loaded);
        }
        Ok(())
    }

    /// Moves a content into the row, unless the row was filled before.
    pub(crate) fn put(
        &mut self,
        alloc: Global,
        file: &FileId<'_>,
        bytes: Vec<u8>,
    ) -> Result<(), Memory>
        requires row { file.now.row < max_rows }
        requires contents_permitted { IsPermitted D.may file.now.name (readable bytes.items) }
        ensures fill_effect { FilledRow (λ c. c ≡ readable bytes.items) file.now self.old self.new }
        ensures full { OnOk result (IsSome self.new.filled) }
    {
        if self.filled.is_some() {
            return Ok(());
        }
        let loaded = Loaded::from_bytes(alloc, file, bytes)?;
        self.filled = Some(loaded);
        Ok(())
    }

    /// Returns the row's content to a caller, and records that it was observed.
    pub(crate) fn look<'a>(
        &'a self,
        observation: &mut RowObservation<'a, D>,
        alloc: Global,
        file: &FileId<'_>,
        disk: &D,
    ) -> Result<&'a Loaded<D>, Memory>
        requires row { file.now.row < max_rows }
        requires placed { (h : LoadedView) → self.now.filled ≡ Some h → IsPlaced file.now h }
        requires fits { FitsRow D.may file.now self.now observation.old }
        ensures fits { FitsRow D.may file.now self.now observation.new }
        ensures shown { IfOk result (λ l. observation.new.shown ≡ Some l.now) }
        ensures stays { IfSome observation.old.shown (λ h. IsOkAnd result (λ l. l.now ≡ h)) }
        ensures filled { IfSome self.now.filled (λ h. IsOkAnd result (λ l. l.now ≡ h)) }
        ensures err { OnErr result (observation.new.shown ≡ observation.old.shown) }
    {
        if let Some(loaded) = observation.shown {
            return Ok(loaded);
        }
        if let Some(loaded) = &self.filled {
            loaded.show_permitted();
            observation.shown = Some(loaded);
            return Ok(loaded);
        }
        let loaded = self.cached(&mut observation.note, alloc, file, disk)?;
        observation.shown = Some(loaded);
        Ok(loaded)
    }

    /// Returns the content that the row's cell caches. If the cell is empty, reads the disk and caches the content,
    /// unless another caller does so first.
    fn cached<'a>(
        &'a self,
        note: &mut Note<Loaded<D>>,
        alloc: Global,
        file: &FileId<'_>,
        disk: &D,
    ) -> Result<&'a Loaded<D>, Memory>
        requires row { file.now.row < max_rows }
        requires cell { note.old.cell ≡ self.now.cell }
        ensures cell { note.new.cell ≡ note.old.cell }
        ensures known { IfOk result (λ l. note.new.known ≡ Some l.now) }
        ensures place { IfOk result (λ l. IsPlaced file.now l.now) }
        ensures contents_permitted { IfOk result (λ l. IsPermitted D.may l.now.name l.now.content) }
    {
        if let Some(loaded) = self.cell.get_as(note) {
            return loaded.verify(file);
        }
        let new_content = Loaded::read(alloc, disk, file)?;
        let new_content = Box::new(alloc, new_content)?;
        let _lost = self.cell.set_as(new_content, note);
        match self.cell.get_as(note) {
            Some(loaded) => loaded.verify(file),
            None => unreachable!(),
        }
    }
}

impl<'a, D: Disk> RowObservation<'a, D> {
    /// Adds what another caller has observed of the same row.
    pub(crate) fn merge(&mut self, shelf_row: &Row<D>, file: &FileId<'_>, other: Self)
        requires mine { FitsRow D.may file.now shelf_row.now self.old }
        requires theirs { FitsRow D.may file.now shelf_row.now other }
        ensures fits { FitsRow D.may file.now shelf_row.now self.new }
        ensures agree { (h k : LoadedView) → self.old.shown ≡ Some h → other.entry.shown ≡ Some k → h ≡ k }
        ensures shown { self.new.shown ≡ or_else self.old.shown other.entry.shown }
    {
        let RowObservation { note, shown } = other;
        let Some(loaded) = shown else {
            return;
        };
        let mine = mem::replace(&mut self.note, note);
        self.note.compare(mine);
        if self.shown.is_none() {
            self.shown = Some(loaded);
        }
    }
}
