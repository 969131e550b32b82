//! The file table (`Shelf`), and what one caller has observed of it (`Pass`).
//!
//! Units and threads share a shelf, so its rows must give all of them one content, without a lock. Each row has a cell
//! that is written once (`row.rt`), and each caller keeps in its pass which contents it was given. The contract of a look
//! speaks of the pass alone: what it had observed stays, and what it observes is permitted. So a caller's results depend
//! on its own pass, whatever other callers do at the same time. `meet` compares two passes, and shows that they agree on
//! every row that both have observed: that carries results of one caller to another.
//!
//! A fill puts contents into rows before callers share the shelf. They are beside the cells, since a fill has a `&mut` and
//! needs no atomic access; a look takes them first.
ghost use Rattle.std.specs.Prelude.{◌≡◌, ℕ, ◌<◌, ◌≤◌, length, map, replicate, Some, None, slice_set};
ghost use Rattle.std.specs.Prelude.{IfErr, IfOk, OnErr, OnOk, IfSome, IsOkAnd};
ghost use Rattle.std.specs.String.{string_bytes};
ghost use Rattle.std.specs.Vec.{vec_len};
ghost use Rattle.ppshelf.specs.Content.{IsPermitted, readable};
ghost use Rattle.ppshelf.specs.Faults.{IsShelfFault};
ghost use Rattle.ppshelf.specs.Files.{max_rows, file_at, AllPermitted, Agree, Extends, IsMerged, IsFull, Filled, bytes_at};
ghost use Rattle.ppshelf.specs.Names.{AreNames, IsRowOf, name_in};
ghost use Rattle.ppshelf.specs.Search as spec;
ghost use Rattle.ppshelf.specs.code.ShelfRows.{file_in, filled_of};

use crate::disk::Disk;
use crate::file_names::FileNames;
use crate::loaded::{FileId, Loaded};
use crate::row::{Row, RowObservation};
use crate::search::{Directories, Form};
use crate::search_cache::SearchCache;
use pptext::{Hashing, Memory, Profile, Sequence};
use std::alloc::Global;
use std::marker::Model;

/// Contents of files. Its model is the list of their bytes.
pub type Contents = Sequence<Sequence<u8>>;

/// The maximum number of rows of a shelf.
pub const MAX_ROWS: usize = 65_535;

/// A table of files, which are numbered by rows from 0 and read by one profile. A row has one content for all callers:
/// that of `fill` or `fill_with`, or otherwise the one that the first look cached. Simultaneous looks may each read the
/// disk, but only one result is cached.
///
/// Contracts see the names of its rows, the contents from `fill`, its profile, its hash function, and `cells`, which no
/// look or fill changes. A pass belongs to the shelf whose view it has.
pub struct Shelf<D: Disk> {
    alloc: Global,
    profile: Profile,
    names: FileNames,
    rows: Vec<Row<D>>,
}

impl<D: Disk> Model for Shelf<D> {
    ghost use Rattle.ppshelf.specs.Files.{ShelfView};
    ghost use Rattle.ppshelf.specs.code.ShelfRows.{IsShelf, shelf_view};

    ghost Value = { ShelfView };

    ghost view = { λ s. shelf_view s.profile s.names s.rows.items };

    ghost invariant = { λ s. IsShelf s.profile s.names.names s.rows.items };
}

impl<D: Disk> Drop for Shelf<D> {
    fn drop(self) {
        let Shelf {
            alloc: _,
            profile: _,
            names: _,
            rows: _,
        } = self;
    }
}

/// The reason why no shelf was made.
#[derive(Clone, Copy, PartialEq, Eq, Debug, Drop)]
pub enum ShelfFault {
    /// The row, from 0, of the first name that isn't in normal form or that an earlier row has.
    Name(usize),
    /// An allocation fails.
    Memory,
}

/// What one caller has observed of a shelf: a finite map from rows to contents. It also keeps the results of its
/// searches for included files, which contracts don't see.
pub struct Pass<'a, D: Disk> {
    shelf: &'a Shelf<D>,
    rows: Vec<RowObservation<'a, D>>,
    searches: SearchCache<'a, D>,
}

impl<'a, D: Disk> Model for Pass<'a, D> {
    ghost use Rattle.std.specs.Prelude.{◌≡◌};
    ghost use Rattle.ppshelf.specs.Files.{PassView};
    ghost use Rattle.ppshelf.specs.code.ShelfRows.{IsPass, files_of};

    ghost Value = { PassView };

    ghost view = { λ p. record { shelf = p.shelf.now; files = files_of p.rows.items } };

    ghost invariant = { λ p. IsPass D.may p.shelf.now p.rows.items × (p.searches.names ≡ p.shelf.now.names) };
}

impl<D: Disk> Drop for Pass<'_, D> {
    fn drop(self) {
        let Pass {
            shelf: _,
            rows: _,
            searches: _,
        } = self;
    }
}

impl<D: Disk> Shelf<D> {
    /// Creates a shelf of files with these names, at most `MAX_ROWS`, in order, to be read by this profile. No row is
    /// filled. Names are hashed with a public key: see `with_hasher`.
    ///
    /// # Errors
    ///
    /// `Name` with the first row whose name isn't in normal form or occurs before. `Memory` if an allocation fails.
    pub fn new(alloc: Global, names: Vec<String>, profile: Profile) -> Result<Shelf<D>, ShelfFault>
        requires { vec_len names ≤ max_rows }
        ensures names { IfOk result (λ s. s.names ≡ map string_bytes names.items) }
        ensures profile { IfOk result (λ s. s.profile ≡ profile) }
        ensures form { OnOk result (AreNames (map string_bytes names.items)) }
        ensures empty { IfOk result (λ s. s.filled ≡ replicate (length names.items) None) }
        ensures fault { IfErr result (λ e. IsShelfFault e (map string_bytes names.items)) }
    {
        Shelf::with_hasher(alloc, names, profile, Hashing::fixed())
    }

    /// Creates a shelf as `new` does, with this hash function for the names of its rows, and for the names of macros of
    /// the units over its files. With a secret key, names that an attacker chooses cost no more than others.
    ///
    /// # Errors
    ///
    /// `Name` with the first row whose name isn't in normal form or occurs before. `Memory` if an allocation fails.
    pub fn with_hasher(
        alloc: Global,
        names: Vec<String>,
        profile: Profile,
        hashing: Hashing,
    ) -> Result<Shelf<D>, ShelfFault>
        requires { vec_len names ≤ max_rows }
        ensures names { IfOk result (λ s. s.names ≡ map string_bytes names.items) }
        ensures profile { IfOk result (λ s. s.profile ≡ profile) }
        ensures hashing { IfOk result (λ s. s.hashing ≡ hashing) }
        ensures form { OnOk result (AreNames (map string_bytes names.items)) }
        ensures empty { IfOk result (λ s. s.filled ≡ replicate (length names.items) None) }
        ensures fault { IfErr result (λ e. IsShelfFault e (map string_bytes names.items)) }
    {
        let names = FileNames::from_strings(alloc, names, hashing)?;
        let Ok(shelf) = Shelf::over(alloc, names, profile) else {
            return Err(ShelfFault::Memory);
        };
        Ok(shelf)
    }

    /// Creates a shelf of files with these names, at most `MAX_ROWS`, to be read by this profile. No row is filled. The
    /// names' hash function also serves for the names of macros of the units over its files.
    ///
    /// # Errors
    ///
    /// An allocation fails.
    pub fn over(alloc: Global, names: FileNames, profile: Profile) -> Result<Shelf<D>, Memory>
        requires { length names.names ≤ max_rows }
        ensures names { IfOk result (λ s. s.names ≡ names.names) }
        ensures profile { IfOk result (λ s. s.profile ≡ profile) }
        ensures hashing { IfOk result (λ s. s.hashing ≡ names.hashing) }
        ensures empty { IfOk result (λ s. s.filled ≡ replicate (length names.names) None) }
    {
        let rows = empty_rows(alloc, names.len())?;
        Ok(Shelf {
            alloc,
            profile,
            names,
            rows,
        })
    }

    /// Returns the number of rows, at most `MAX_ROWS`.
    pub fn len(&self) -> usize
        ensures count { result ≡ length self.now.names }
        ensures small { result ≤ max_rows }
    {
        self.rows.len()
    }

    /// Returns the names of the rows. Allocates nothing.
    pub fn names(&self) -> &FileNames
        ensures names { result.now.names ≡ self.now.names }
        ensures hashing { result.now.hashing ≡ self.now.hashing }
    {
        &self.names
    }

    /// Returns the profile by which its rows are read. Allocates nothing.
    pub fn profile(&self) -> Profile
        ensures { result ≡ self.now.profile }
    {
        self.profile
    }

    /// Returns the hash function of the names. Allocates nothing.
    pub fn hashing(&self) -> Hashing
        ensures { result ≡ self.now.hashing }
    {
        self.names.hashing()
    }

    /// Returns the row of this name. Allocates nothing.
    pub fn row_of(&self, name: &[u8]) -> Option<usize>
        ensures row { IsRowOf self.now.names name.now result }
        ensures within { IfSome result (λ row. row < length self.now.names) }
    {
        self.names.row_of(name)
    }

    /// Returns the name of a row.
    pub fn name(&self, row: usize) -> &str
        requires { row < length self.now.names }
        ensures { result.now ≡ name_in self.now.names row }
    {
        self.names.get(row)
    }

    /// Returns the file of a row.
    fn file(&self, row: usize) -> FileId<'_>
        requires { row < length self.now.names }
        ensures { result ≡ file_in self.now.profile self.now.names row }
    {
        FileId {
            row,
            name: self.names.get(row),
            profile: self.profile,
            hashing: self.names.hashing(),
        }
    }

    /// Shows proofs that a shelf's names are in normal form, each once, and that its list of filled contents has one
    /// entry for each name. Does nothing.
    pub fn names_are_distinct(&self)
        ensures names { AreNames self.now.names }
        ensures filled { length self.now.filled ≡ length self.now.names }
    {
        self.names.names_are_distinct();
    }

    /// Reads the file of each row that no earlier fill read, even if a look has cached a content.
    ///
    /// # Errors
    ///
    /// An allocation fails, or the disk answers `Memory`. The rows that were read stay filled.
    pub fn fill(&mut self, disk: &D) -> Result<(), Memory>
        ensures shelf { (self.new.names ≡ self.old.names) × (self.new.profile ≡ self.old.profile) × (self.new.cells ≡ self.old.cells) }
        ensures hashing { self.new.hashing ≡ self.old.hashing }
        ensures filled { (row : ℕ) → row < length self.old.names
            → Filled (IsPermitted (D.may_return disk.now) (name_in self.old.names row)) (file_at self.old.filled row) (file_at self.new.filled row) }
        ensures len { length self.new.filled ≡ length self.old.names }
        ensures full { OnOk result (IsFull self.new) }
    {
        let (alloc, profile, hashing) = (self.alloc, self.profile, self.names.hashing());
        for row in 0..self.rows.len() {
            let name = self.names.get(row);
            let file = FileId {
                row,
                name,
                profile,
                hashing,
            };
            self.rows[row].fill(alloc, &file, disk)?;
        }
        Ok(())
    }

    /// Moves contents into the rows that no earlier fill read, and reads their lines. There is one for each row, of at
    /// most `LONGEST` bytes, and it is one that a disk of this type may return. The contents of other rows are dropped.
    ///
    /// # Errors
    ///
    /// An allocation fails. The rows that were read stay filled.
    pub fn fill_with(&mut self, contents: Contents) -> Result<(), Memory>
        requires count { length contents ≡ length self.old.names }
        requires contents_permitted { (row : ℕ) → row < length self.old.names
            → IsPermitted D.may (name_in self.old.names row) (readable (bytes_at contents row)) }
        ensures shelf { (self.new.names ≡ self.old.names) × (self.new.profile ≡ self.old.profile) × (self.new.cells ≡ self.old.cells) }
        ensures hashing { self.new.hashing ≡ self.old.hashing }
        ensures filled { (row : ℕ) → row < length self.old.names
            → Filled (λ c. c ≡ readable (bytes_at contents row)) (file_at self.old.filled row) (file_at self.new.filled row) }
        ensures len { length self.new.filled ≡ length self.old.names }
        ensures full { OnOk result (IsFull self.new) }
    {
        let (alloc, profile, hashing) = (self.alloc, self.profile, self.names.hashing());
        let mut row = 0;
        for bytes in contents.into_vec() {
            let name = self.names.get(row);
            let file = FileId {
                row,
                name,
                profile,
                hashing,
            };
            self.rows[row].put(alloc, &file, bytes.into_vec())?;
            row += 1;
        }
        Ok(())
    }

    /// Creates a pass that has observed nothing.
    ///
    /// # Errors
    ///
    /// An allocation fails.
    pub fn pass(&self) -> Result<Pass<'_, D>, Memory>
        ensures shelf { IfOk result (λ p. p.shelf ≡ self.now) }
        ensures empty { IfOk result (λ p. p.files ≡ replicate (length self.now.names) None) }
    {
        let mut rows = Vec::with_capacity(self.alloc, self.rows.len())?;
        for row in &self.rows {
            rows.push(row.new_observation())?;
        }
        Ok(Pass {
            shelf: self,
            rows,
            searches: SearchCache::new(self.alloc, self)?,
        })
    }

    /// Returns a row's content, which the pass has observed from then on.
    ///
    /// Allocates nothing if the pass has observed the row or the row was filled.
    ///
    /// # Errors
    ///
    /// An allocation fails, or the disk answers `Memory`. The pass is unchanged.
    pub fn look<'a>(
        &'a self,
        pass: &mut Pass<'a, D>,
        row: usize,
        disk: &D,
    ) -> Result<&'a Loaded<D>, Memory>
        requires shelf { pass.old.shelf ≡ self.now }
        requires row { row < length self.now.names }
        ensures shelf { pass.new.shelf ≡ self.now }
        ensures place { IfOk result (λ l. (l.now.row ≡ row) × (l.now.name ≡ name_in self.now.names row) × (l.now.profile ≡ self.now.profile)) }
        ensures known { IfOk result (λ l. pass.new.files ≡ slice_set pass.old.files row (Some l.now.content)) }
        ensures row_observed { IfOk result (λ l. file_at pass.new.files row ≡ Some l.now.content) }
        ensures grows { Extends pass.new.files pass.old.files }
        ensures stays { IfSome (file_at pass.old.files row) (λ c. IsOkAnd result (λ l. l.now.content ≡ c)) }
        ensures from_fill { IfSome (file_at self.now.filled row) (λ c. IsOkAnd result (λ l. l.now.content ≡ c)) }
        ensures err { OnErr result (pass.new ≡ pass.old) }
        ensures contents_permitted { AllPermitted D.may self.now.names pass.new.files }
        ensures filled { Agree self.now.filled pass.new.files }
    {
        pass.contents_permitted();
        let look_result = pass.look_at_row(self, row, disk);
        pass.contents_permitted();
        look_result
    }

    /// Merges two passes of the shelf, which agree on every row that both have observed. Allocates nothing.
    pub fn meet<'a>(&'a self, pass: &mut Pass<'a, D>, other: Pass<'a, D>)
        requires mine { pass.old.shelf ≡ self.now }
        requires theirs { other.shelf ≡ self.now }
        ensures shelf { pass.new.shelf ≡ self.now }
        ensures agree { Agree pass.old.files other.entry.files }
        ensures joined { IsMerged pass.old.files other.entry.files pass.new.files }
        ensures grows { Extends pass.new.files pass.old.files }
        ensures theirs { Extends pass.new.files other.entry.files }
        ensures contents_permitted { AllPermitted D.may self.now.names pass.new.files }
        ensures filled { Agree self.now.filled pass.new.files }
    {
        pass.merge(self, other);
        pass.contents_permitted();
    }
}

/// Creates empty rows.
fn empty_rows<D: Disk>(alloc: Global, count: usize) -> Result<Vec<Row<D>>, Memory>
    ensures count { IfOk result (λ rows. length rows.items ≡ count) }
    ensures empty { IfOk result (λ rows. filled_of rows.items ≡ replicate count None) }
{
    let mut rows = Vec::with_capacity(alloc, count)?;
    for _row in 0..count {
        let Ok(()) = rows.push(Row::new(alloc)) else {
            return Err(Memory);
        };
    }
    Ok(rows)
}

impl<'a, D: Disk> Pass<'a, D> {
    /// Shows proofs that a pass has observed only permitted contents, and those of `fill` for the rows that it filled.
    /// Does nothing.
    pub fn contents_permitted(&self)
        ensures contents_permitted { AllPermitted D.may self.now.shelf.names self.now.files }
        ensures filled { Agree self.now.shelf.filled self.now.files }
        ensures rows { length self.now.files ≡ length self.now.shelf.names }
    {
        let _rows = &self.rows;
    }

    /// Does what the function `resolve` does for the pass's shelf. A search that the pass did before costs less.
    ///
    /// # Errors
    ///
    /// An allocation fails.
    pub fn resolve(
        &mut self,
        alloc: Global,
        from: usize,
        form: Form,
        name: &[u8],
        directories: Directories<'_>,
    ) -> Result<Option<(usize, usize)>, Memory>
        requires { from < length self.old.shelf.names }
        ensures pass { self.new ≡ self.old }
        ensures first { IfOk result (λ found. spec.IsFirstRow self.old.shelf.names
            (spec.candidates form (name_in self.old.shelf.names from) directories.entry.unit.now
            directories.entry.setting.now name.now) found) }
        ensures within { IfOk result (λ found. IfSome found (λ f. f.0 < length self.old.shelf.names)) }
    {
        self.searches.resolve(alloc, from, form, name, directories)
    }

    /// Does what `look` does, without the clauses about permitted contents.
    fn look_at_row(
        &mut self,
        shelf: &'a Shelf<D>,
        row: usize,
        disk: &D,
    ) -> Result<&'a Loaded<D>, Memory>
        requires shelf { self.old.shelf ≡ shelf.now }
        requires row { row < length shelf.now.names }
        ensures shelf { self.new.shelf ≡ shelf.now }
        ensures place { IfOk result (λ l. (l.now.row ≡ row) × (l.now.name ≡ name_in shelf.now.names row) × (l.now.profile ≡ shelf.now.profile)) }
        ensures known { IfOk result (λ l. self.new.files ≡ slice_set self.old.files row (Some l.now.content)) }
        ensures stays { IfSome (file_at self.old.files row) (λ c. IsOkAnd result (λ l. l.now.content ≡ c)) }
        ensures from_fill { IfSome (file_at shelf.now.filled row) (λ c. IsOkAnd result (λ l. l.now.content ≡ c)) }
        ensures err { OnErr result (self.new ≡ self.old) }
    {
        let observation = &mut self.rows[row];
        shelf.rows[row].look(observation, shelf.alloc, &shelf.file(row), disk)
    }

    /// Adds what the other pass has observed.
    fn merge(&mut self, shelf: &Shelf<D>, other: Self)
        requires mine { self.old.shelf ≡ shelf.now }
        requires theirs { other.shelf ≡ shelf.now }
        ensures shelf { self.new.shelf ≡ shelf.now }
        ensures agree { Agree self.old.files other.entry.files }
        ensures joined { IsMerged self.old.files other.entry.files self.new.files }
    {
        let Pass {
            shelf: _,
            mut rows,
            searches: _,
        } = other;
        while let Some(theirs) = rows.pop() {
            let row = rows.len();
            self.rows[row].merge(&shelf.rows[row], &shelf.file(row), theirs);
        }
    }
}
