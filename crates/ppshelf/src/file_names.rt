//! The names of files: each once, in order, with the row of each.
ghost use Rattle.std.specs.Prelude.{◌≡◌, ◌<◌, [], length, map, IfErr, IfOk, IfSome, OnErr};
ghost use Rattle.std.specs.String.{string_bytes};
ghost use Rattle.ppshelf.specs.Faults.{IsShelfFault};
ghost use Rattle.ppshelf.specs.Names.{AreNames, IsAppended, IsRowOf, name_in, row_among};

use crate::file_name::{FileName, SoughtName};
use crate::names::is_file_name;
use crate::shelf::ShelfFault;
use indexmap::IndexSet;
use pptext::{Hashing, Memory};
use std::alloc::Global;
use std::marker::Model;

/// Names in normal form, each once, in order. The row of a name is its index. Contracts see the list of the names, and
/// their hash function.
#[derive(Drop, Debug)]
pub struct FileNames {
    names: IndexSet<FileName, Hashing>,
}

impl Model for FileNames {
    ghost use Rattle.ppshelf.specs.Names.{AreNames};
    ghost use Rattle.ppshelf.specs.NamesView.{NamesView, names_view};

    ghost Value = { NamesView };

    ghost view = { λ n. names_view n.names };

    ghost invariant = { λ n. AreNames n.names.keys };
}

impl FileNames {
    /// Creates an empty list of names with this hash function. Allocates nothing.
    pub fn new(alloc: Global, hashing: Hashing) -> FileNames
        ensures empty { result.names ≡ [] }
        ensures hashing { result.hashing ≡ hashing }
    {
        FileNames {
            names: IndexSet::with_hasher(alloc, hashing),
        }
    }

    /// Makes a list of these names.
    ///
    /// # Errors
    ///
    /// `Name` with the row of the first name that isn't in normal form or that occurs before. `Memory` if an allocation
    /// fails.
    pub fn from_strings(
        alloc: Global,
        strings: Vec<String>,
        hashing: Hashing,
    ) -> Result<FileNames, ShelfFault>
        ensures names { IfOk result (λ n. n.names ≡ map string_bytes strings.items) }
        ensures form { IfOk result (λ n. AreNames n.names) }
        ensures hashing { IfOk result (λ n. n.hashing ≡ hashing) }
        ensures fault { IfErr result (λ e. IsShelfFault e (map string_bytes strings.items)) }
    {
        let mut names = FileNames::new(alloc, hashing);
        for name in strings {
            let row = names.len();
            let Ok(new) = names.push(name) else {
                return Err(ShelfFault::Memory);
            };
            if !new {
                return Err(ShelfFault::Name(row));
            }
        }
        names.names_are_distinct();
        Ok(names)
    }

    /// Appends a name if it is in normal form and none of the names equals it. Returns whether it was appended.
    ///
    /// # Errors
    ///
    /// An allocation fails. The names are unchanged.
    pub fn push(&mut self, name: String) -> Result<bool, Memory>
        ensures put { IfOk result (λ new. IsAppended self.old.names (string_bytes name) new self.new.names) }
        ensures hashing { self.new.hashing ≡ self.old.hashing }
        ensures err { OnErr result (self.new ≡ self.old) }
    {
        if !is_file_name(name.as_bytes()) {
            return Ok(false);
        }
        let new = self.names.insert(FileName::new(name))?;
        Ok(new)
    }

    /// Returns the number of names. Allocates nothing.
    pub fn len(&self) -> usize
        ensures { result ≡ length self.now.names }
    {
        self.names.len()
    }

    /// Returns the hash function of the names. Allocates nothing.
    pub fn hashing(&self) -> Hashing
        ensures { result ≡ self.now.hashing }
    {
        *self.names.hasher()
    }

    /// Returns the names in order. Allocates nothing.
    pub fn as_slice(&self) -> &[FileName]
        ensures { result.now ≡ self.now.names }
    {
        self.names.as_slice()
    }

    /// Returns the name of a row. Allocates nothing.
    pub fn get(&self, row: usize) -> &str
        requires { row < length self.now.names }
        ensures { result.now ≡ name_in self.now.names row }
    {
        self.names.as_slice()[row].as_str()
    }

    /// Returns the row of a name. Allocates nothing.
    pub fn row_of(&self, name: &[u8]) -> Option<usize>
        ensures row { IsRowOf self.now.names name.now result }
        ensures first { result ≡ row_among name.now self.now.names }
        ensures within { IfSome result (λ row. row < length self.now.names) }
    {
        self.names.get_index_of(&SoughtName { bytes: name })
    }

    /// Shows proofs that the names are in normal form, each once. Does nothing.
    pub fn names_are_distinct(&self)
        ensures { AreNames self.now.names }
    {
        let _names = &self.names;
    }
}
