//! The macro table.
//!
//! Each identifier of a text line is looked up here, and most name no macro. So a filter of fingerprints comes first: it rejects
//! most of these without a hash and without a comparison. For the others it guesses the index of the macro, and one comparison
//! confirms it. Only a wrong guess needs a hash.
//!
//! The table borrows names, definitions and replacement lists from the files that define them. A definition of a file takes an entry
//! and nothing else.
//!
//! Names are hashed with the key that the table is made with, and each contract promises that the key stays.
ghost use Rattle.std.specs.Prelude.{◌≡◌, IfOk, OnOk, OnErr};
ghost use Rattle.std.specs.Option.{option_copied};
ghost use Rattle.std.specs.FinMap as table;
ghost use Rattle.ppmacro.specs.PushedMacros.{put};
ghost use Rattle.ppmacro.specs.Predefined.{predefined_as, predefined, with_counter};

use crate::macros::PredefinedMacro;
use crate::name_filter::NameFilter;
use crate::name_key::NameKey;
use crate::prepared_macro::PreparedMacro;
use indexmap::IndexMap;
use pptext::{Hashing, Memory};
use std::alloc::Global;
use std::marker::Model;

/// The initial capacity, about the number of macros of a unit in a large project. A table that grows moves its entries.
const INITIAL_CAPACITY: usize = 7_000;

/// The macros of a unit. Contracts see a finite map from names to definitions, and how the names are hashed.
///
/// Most identifiers name no macro, and a filter rejects most of these at once.
#[derive(Drop)]
pub struct Table<'a> {
    macros: IndexMap<NameKey<'a>, PreparedMacro<'a>, Hashing>,
    filter: NameFilter,
}

impl<'a> Model for Table<'a> {
    ghost use Rattle.ppmacro.specs.Names.{TableOfMacros};

    ghost Value = { TableOfMacros };

    ghost use Rattle.std.specs.FinMap as table;
    ghost use Rattle.std.specs.Coded.{codes, coded_list, coded_ℕ};
    ghost use Rattle.std.specs.Ordering.{nat_cmp};
    ghost use Rattle.std.specs.Cmp.Lexicographic.{slice_cmp};
    ghost use Rattle.ppmacro.specs.contracts.macros.Macro as macro_contract;
    ghost use Rattle.std.specs.Prelude.{[]};
    ghost use mir.Syntax.{named};

    ghost coded = { Prim.hlevel (codes, table.code {R = slice_cmp nat_cmp} (coded_list coded_ℕ) ((macro_contract.the_row (record { mir = named 1; lft = [] })).coded)) };

    ghost use Rattle.std.specs.HashMap.{hasher_of};

    ghost view = { λ t. record { macros = table.from_entries t.macros.entries; hashing = hasher_of t.macros } };

    ghost use Rattle.ppmacro.specs.code.NameFilter.{RejectsOnlyUnknown};

    ghost invariant = { λ t. RejectsOnlyUnknown t.filter (table.from_entries t.macros.entries) };
}

impl<'a> Table<'a> {
    /// Creates a table of the predefined macros (6.10.8.1). The hash function has a fixed key: see `with_hasher` for untrusted
    /// names.
    pub fn new(alloc: Global) -> Result<Table<'a>, Memory>
        ensures { IfOk result (λ t. t.macros ≡ predefined) }
    {
        Table::with_hasher(alloc, Hashing::fixed())
    }

    /// Creates a table of the predefined macros that hashes names with `hashing`. With a random key, untrusted names cost no more
    /// than others.
    pub fn with_hasher(alloc: Global, hashing: Hashing) -> Result<Table<'a>, Memory>
        ensures macros { IfOk result (λ t. t.macros ≡ predefined) }
        ensures hashing { IfOk result (λ t. t.hashing ≡ hashing) }
    {
        let mut table = Table::empty(alloc, hashing)?;
        table.predefine_all()?;
        Ok(table)
    }

    /// Returns how its names are hashed: the `Hashing` that was given.
    pub fn hashing(&self) -> Hashing
        ensures { result ≡ self.now.hashing }
    {
        *self.macros.hasher()
    }

    /// Creates an empty table.
    fn empty(alloc: Global, hashing: Hashing) -> Result<Table<'a>, Memory>
        ensures macros { IfOk result (λ t. t.macros ≡ table.empty) }
        ensures hashing { IfOk result (λ t. t.hashing ≡ hashing) }
    {
        let macros = IndexMap::with_capacity_and_hasher(alloc, INITIAL_CAPACITY, hashing)?;
        let filter = NameFilter::new(alloc)?;
        Ok(Table { macros, filter })
    }

    /// Inserts the predefined macros into an empty table.
    fn predefine_all(&mut self) -> Result<(), Memory>
        requires { self.old.macros ≡ table.empty }
        ensures macros { OnOk result (self.new.macros ≡ predefined) }
        ensures hashing { self.new.hashing ≡ self.old.hashing }
    {
        self.predefine(b"__STDC_VERSION__", PredefinedMacro::StdcVersion)?;
        self.predefine(b"__STDC_HOSTED__", PredefinedMacro::StdcHosted)?;
        self.predefine(b"__STDC__", PredefinedMacro::Stdc)?;
        self.predefine(b"__TIME__", PredefinedMacro::Time)?;
        self.predefine(b"__DATE__", PredefinedMacro::Date)?;
        self.predefine(b"__LINE__", PredefinedMacro::Line)?;
        self.predefine(b"__FILE__", PredefinedMacro::File)
    }

    /// Inserts a predefined macro.
    fn predefine(&mut self, name: &'a [u8], predefined: PredefinedMacro) -> Result<(), Memory>
        ensures macros { OnOk result (self.new.macros ≡ table.insert self.old.macros name.now (predefined_as predefined)) }
        ensures hashing { self.new.hashing ≡ self.old.hashing }
    {
        let definition = PreparedMacro::predefined(*self.macros.allocator(), predefined)?;
        self.insert(name, definition)
    }

    /// Inserts `__COUNTER__` (gcc's manual, "Common Predefined Macros"). Fails only if an allocation fails.
    pub fn predefine_counter(&mut self) -> Result<(), Memory>
        ensures macros { OnOk result (self.new.macros ≡ with_counter self.old.macros) }
        ensures hashing { self.new.hashing ≡ self.old.hashing }
    {
        let definition = PreparedMacro::counter(*self.macros.allocator())?;
        self.insert(b"__COUNTER__", definition)
    }

    /// Returns the macro of a name.
    #[inline(always)]
    pub fn get(&self, name: &[u8]) -> Option<&PreparedMacro<'a>>
        ensures { option_copied result ≡ table.get self.now.macros name.now }
    {
        // Fast path: the filter rejects most names without a call.
        let slot = self.filter.slot_of(name);
        if slot == 0 {
            return None;
        }
        self.look_up(usize::from(slot) - 1, name)
    }

    /// Returns the macro of a name. Tries the index `position` first, which needs no hash.
    #[inline(never)]
    fn look_up(&self, position: usize, name: &[u8]) -> Option<&PreparedMacro<'a>>
        ensures { option_copied result ≡ table.get self.now.macros name.now }
    {
        let Some((key, found)) = self.macros.get_index(position) else {
            return self.find(name);
        };
        if key.bytes == name {
            return Some(found);
        }
        self.find(name)
    }

    /// Returns the macro of a name, by its hash.
    #[inline(never)]
    fn find(&self, name: &[u8]) -> Option<&PreparedMacro<'a>>
        ensures { option_copied result ≡ table.get self.now.macros name.now }
    {
        let Some(index) = self.macros.get_index_of(&NameKey { bytes: name }) else {
            return None;
        };
        match self.macros.get_index(index) {
            Some((_, found)) => Some(found),
            None => None,
        }
    }

    /// Returns a copy of the macro of a name, if there is one.
    pub(crate) fn copy_of(&self, name: &[u8]) -> Result<Option<PreparedMacro<'a>>, Memory>
        ensures { IfOk result (λ m. m ≡ table.get self.now.macros name.now) }
    {
        let Some(found) = self.get(name) else {
            return Ok(None);
        };
        let copy = found.duplicate(*self.macros.allocator(), self.hashing())?;
        Ok(Some(copy))
    }

    /// Gives a name this macro, or none.
    pub(crate) fn put(
        &mut self,
        name: &'a [u8],
        definition: Option<PreparedMacro<'a>>,
    ) -> Result<(), Memory>
        ensures macros { OnOk result (self.new.macros ≡ put self.old.macros name.now definition.entry) }
        ensures hashing { self.new.hashing ≡ self.old.hashing }
    {
        let Some(definition) = definition else {
            self.remove(name);
            return Ok(());
        };
        self.insert(name, definition)
    }

    /// Inserts a macro. It replaces an earlier macro with that name.
    pub(crate) fn insert(
        &mut self,
        name: &'a [u8],
        definition: PreparedMacro<'a>,
    ) -> Result<(), Memory>
        ensures ok { OnOk result (self.new.macros ≡ table.insert self.old.macros name.now definition.entry) }
        ensures hashing { self.new.hashing ≡ self.old.hashing }
        ensures err { OnErr result (self.new ≡ self.old) }
    {
        match self.macros.insert_full(NameKey { bytes: name }, definition) {
            Ok((position, _)) => {
                self.filter.put(name, position);
                Ok(())
            }
            Err(_) => Err(Memory),
        }
    }

    /// Removes the macro of a name, if there is one.
    pub(crate) fn remove(&mut self, name: &'a [u8])
        ensures macros { self.new.macros ≡ table.remove self.old.macros name.now }
        ensures hashing { self.new.hashing ≡ self.old.hashing }
    {
        self.macros.swap_remove(&NameKey { bytes: name });
    }
}
