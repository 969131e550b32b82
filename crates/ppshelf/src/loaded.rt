//! The content of a row, with its name and the profile that it was read by.
//!
//! Phases 1 to 3 run when a file is read, so that all units share its lines. A content says whose it is: a look tests that
//! what a cell holds is of the row's file (`verify`), since the contract of a cell that threads share can't say so. The
//! invariant has what must be true of every content: it is permitted for its name, and its lines are those of its bytes.
//! `D` is the type of the disk that permits it; no disk is held.
ghost use Rattle.std.specs.Prelude.{◌≡◌, ◌<◌, ◌≤◌, ◌↔◌, length, Ok, Err, option_copied};
ghost use Rattle.std.specs.Prelude.{IfOk, IfSome, IsTrue, MatchOption, MatchResult, OnErr};
ghost use Rattle.std.specs.Option.{option_map};
ghost use Rattle.std.specs.String.{string_bytes};
ghost use Rattle.pptext.specs.Sources.{Reads};
ghost use Rattle.ppshelf.specs.Content.{unreadable, readable, IsPermitted, longest, content_of, IsRead};
ghost use Rattle.ppshelf.specs.Files.{max_rows};
ghost use Rattle.ppshelf.specs.code.ShelfRows.{LoadedView, IsPlaced};

use crate::disk::{Disk, ReadFault};
use ppmacro::PreparedSource;
use pptext::{Error, Fault, Hashing, LONGEST, Memory, Profile, read_source};
use std::alloc::Global;
use std::marker::{Model, PhantomData};

/// A file of a shelf: its row, its name, and the profile by which it is read. Its model is these.
#[derive(Drop)]
pub(crate) struct FileId<'a> {
    pub(crate) row: usize,
    pub(crate) name: &'a str,
    pub(crate) profile: Profile,
    /// The hash function for names of parameters, which affects no result.
    pub(crate) hashing: Hashing,
}

impl<'a> Model for FileId<'a> {
    ghost use Rattle.ppshelf.specs.code.ShelfRows.{FileView};

    ghost Value = { FileView };

    ghost view = { λ f. record { row = f.row; name = f.name.now; profile = f.profile } };
}

/// The bytes of a file, with its lines or its first fault.
#[derive(Drop)]
pub(crate) struct Parsed {
    bytes: Vec<u8>,
    lines: Result<PreparedSource, Fault>,
}

/// The content of one row: the bytes of its file with the result of phases 1 to 3, or that the file can't be read or
/// has more than `LONGEST` bytes.
pub struct Loaded<D: Disk> {
    row: usize,
    name: String,
    profile: Profile,
    parsed: Option<Parsed>,
    disk: PhantomData<D>,
}

impl<D: Disk> Model for Loaded<D> {
    ghost use Rattle.std.specs.Prelude.{IfSome};
    ghost use Rattle.std.specs.Option.{option_map};
    ghost use Rattle.std.specs.String.{string_bytes};
    ghost use Rattle.pptext.specs.Sources.{Reads};
    ghost use Rattle.ppshelf.specs.Content.{content_of, IsPermitted};
    ghost use Rattle.ppshelf.specs.code.ShelfRows.{LoadedView};

    ghost Value = { LoadedView };

    ghost view = { λ l. record {
      row = l.row;
      name = string_bytes l.name;
      profile = l.profile;
      content = content_of (option_map (λ p. p.bytes.items) l.parsed);
    } };

    ghost invariant = { λ l. IsPermitted D.may (string_bytes l.name) (content_of (option_map (λ p. p.bytes.items) l.parsed))
        × IfSome l.parsed (λ p. Reads l.profile l.row p.bytes.items p.lines) };
}

impl<D: Disk> Drop for Loaded<D> {
    fn drop(self) {
        let Loaded {
            row: _,
            name: _,
            profile: _,
            parsed: _,
            disk: _,
        } = self;
    }
}

/// Reads the lines of a file from its bytes.
fn parse_bytes(alloc: Global, file: &FileId<'_>, bytes: Vec<u8>) -> Result<Parsed, Memory>
    requires row { file.now.row < max_rows }
    requires short { length bytes.items ≤ longest }
    ensures bytes { IfOk result (λ p. p.bytes.items ≡ bytes.items) }
    ensures reading { IfOk result (λ p. Reads file.now.profile file.now.row p.bytes.items p.lines) }
{
    let lines = match read_source(alloc, bytes.as_slice(), file.row as u32, file.profile) {
        Ok(source) => Ok(PreparedSource::new(alloc, source, file.profile, file.hashing)?),
        Err(Error::Fault(fault)) => Err(fault.into_fault()),
        Err(Error::Memory) => return Err(Memory),
    };
    Ok(Parsed { bytes, lines })
}

/// Reads a file from the disk. Returns None if it can't be read or is too long.
fn read_parsed<D: Disk>(
    alloc: Global,
    disk: &D,
    file: &FileId<'_>,
) -> Result<Option<Parsed>, Memory>
    requires { file.now.row < max_rows }
    ensures content { IfOk result (λ parsed. IsPermitted (D.may_return disk.now) file.now.name (content_of (option_map (λ p. p.bytes.items) parsed))) }
    ensures reading { IfOk result (λ parsed. IfSome parsed (λ p. Reads file.now.profile file.now.row p.bytes.items p.lines)) }
{
    match disk.read(alloc, file.name) {
        Ok(bytes) => {
            if bytes.len() > LONGEST {
                return Ok(None);
            }
            Ok(Some(parse_bytes(alloc, file, bytes)?))
        }
        Err(ReadFault::Unreadable) => Ok(None),
        Err(ReadFault::Memory) => Err(Memory),
    }
}

impl<D: Disk> Loaded<D> {
    /// Reads the content of a file from the disk.
    pub(crate) fn read(alloc: Global, disk: &D, file: &FileId<'_>) -> Result<Loaded<D>, Memory>
        requires { file.now.row < max_rows }
        ensures place { IfOk result (IsPlaced file.now) }
        ensures content { IfOk result (λ l. IsPermitted (D.may_return disk.now) file.now.name l.content) }
    {
        let parsed = read_parsed(alloc, disk, file)?;
        let name = String::from_str(alloc, file.name)?;
        Ok(Loaded {
            row: file.row,
            name,
            profile: file.profile,
            parsed,
            disk: PhantomData,
        })
    }

    /// Makes the content of a file from these bytes.
    pub(crate) fn from_bytes(
        alloc: Global,
        file: &FileId<'_>,
        bytes: Vec<u8>,
    ) -> Result<Loaded<D>, Memory>
        requires row { file.now.row < max_rows }
        requires contents_permitted { IsPermitted D.may file.now.name (readable bytes.items) }
        ensures place { IfOk result (IsPlaced file.now) }
        ensures content { IfOk result (λ l. l.content ≡ readable bytes.items) }
    {
        let parsed = parse_bytes(alloc, file, bytes)?;
        let name = String::from_str(alloc, file.name)?;
        Ok(Loaded {
            row: file.row,
            name,
            profile: file.profile,
            parsed: Some(parsed),
            disk: PhantomData,
        })
    }

    /// Returns the file's bytes, or None if it can't be read or is too long.
    pub fn bytes(&self) -> Option<&[u8]>
        ensures { self.now.content ≡ content_of (option_copied result) }
    {
        match &self.parsed {
            Some(parsed) => Some(parsed.bytes.as_slice()),
            None => None,
        }
    }

    /// Returns the file's lines or its first fault, or None if it can't be read or is too long.
    pub fn lines(&self) -> Option<Result<&PreparedSource, &Fault>>
        ensures { MatchOption result (self.now.content ≡ unreadable) (λ r. MatchResult r
            (λ s. IsRead self.now.profile self.now.row self.now.content (Ok s.now))
            (λ f. IsRead self.now.profile self.now.row self.now.content (Err f.now))) }
    {
        match &self.parsed {
            Some(parsed) => Some(parsed.lines.as_ref()),
            None => None,
        }
    }

    /// Returns whether the content is that of this file.
    pub(crate) fn is_of(&self, file: &FileId<'_>) -> bool
        ensures same { IsTrue result ↔ IsPlaced file.now self.now }
        ensures contents_permitted { IsPermitted D.may self.now.name self.now.content }
    {
        self.row == file.row && self.name.as_str() == file.name && self.profile == file.profile
    }

    /// Shows proofs that the content is permitted. Does nothing.
    pub(crate) fn show_permitted(&self)
        ensures { IsPermitted D.may self.now.name self.now.content }
    {
        let _row = &self.row;
    }

    /// Returns the content itself if it is that of this file, and otherwise `Memory`. A cell only caches contents of
    /// its row's file, but no contract of the cell says so: so `look` tests what it finds there.
    pub(crate) fn verify(&self, file: &FileId<'_>) -> Result<&Loaded<D>, Memory>
        ensures same { IfOk result (λ l. l.now ≡ self.now) }
        ensures place { IfOk result (λ l. IsPlaced file.now l.now) }
        ensures contents_permitted { IfOk result (λ l. IsPermitted D.may l.now.name l.now.content) }
        ensures err { OnErr result (IsPlaced file.now self.now → ⊥) }
    {
        if self.is_of(file) {
            Ok(self)
        } else {
            Err(Memory)
        }
    }
}
