//! A cache of searches for included files (6.10.2).
//!
//! Units mostly search the same directories, and most of their include lines stand in the same headers. So a pass keeps
//! what each search found: by the row of the including file, the syntax of the name, and the name. A search that is in
//! the cache tries no directory. The cache has results for one list of directories, and is emptied when another one is
//! searched.
ghost use Rattle.std.specs.Prelude.{◌≡◌, ◌<◌, length, IfOk, IfSome, OnOk};
ghost use Rattle.std.specs.Bool.{OnTrue};
ghost use Rattle.ppshelf.specs.code.SearchCaches.{Finds, IsDone};

use crate::disk::Disk;
use crate::search::{Directories, Form, resolve};
use crate::shelf::Shelf;
use pptext::{Memory, OwnedText, Spelling};
use std::alloc::Global;
use std::marker::Model;

/// The maximum number of searches in a cache, and the number of its slots.
const SLOTS: usize = 16_384;

/// A search for a name that an include line in row `from` has, and its result.
#[derive(Drop)]
pub(crate) struct CachedSearch {
    from: usize,
    form: Form,
    name: Spelling,
    found: Option<(usize, usize)>,
}

impl CachedSearch {
    /// Returns whether it is the search for this name.
    fn is_of(&self, from: usize, form: Form, name: &[u8]) -> bool
        ensures { OnTrue result ((self.now.from ≡ from) × (self.now.form ≡ form) × (self.now.name ≡ name.now)) }
    {
        self.from == from && self.form == form && self.name.as_bytes() == name
    }
}

/// The searches of one list of directories. A slot has the index of the latest search that belongs there. After the
/// searches are removed it has the index of another search or of none.
pub(crate) struct SearchCache<'a, D: Disk> {
    shelf: &'a Shelf<D>,
    unit: Vec<Spelling>,
    setting: Vec<Spelling>,
    searches: Vec<CachedSearch>,
    slots: Vec<u16>,
}

impl<'a, D: Disk> Model for SearchCache<'a, D> {
    ghost use Rattle.ppshelf.specs.code.SearchCaches.{SearchCacheView, IsSearchCache};

    ghost Value = { SearchCacheView };

    ghost view = { λ c. record { names = c.shelf.now.names; unit = c.unit.items; setting = c.setting.items } };

    ghost invariant = { λ c. IsSearchCache (record { names = c.shelf.now.names; unit = c.unit.items; setting = c.setting.items })
        c.searches.items c.slots.items };
}

impl<D: Disk> Drop for SearchCache<'_, D> {
    fn drop(self) {
        let SearchCache {
            shelf: _,
            unit: _,
            setting: _,
            searches: _,
            slots: _,
        } = self;
    }
}

/// Returns whether a copy is a copy of this text.
fn is_copy(copy: &Spelling, text: &OwnedText) -> bool
    ensures { OnTrue result (copy.now ≡ text.now) }
{
    copy.as_bytes() == text.as_str().as_bytes()
}

/// Returns whether both have the same texts.
fn are_same(copies: &[Spelling], texts: &[OwnedText]) -> bool
    ensures { OnTrue result (copies.now ≡ texts.now) }
{
    if copies.len() != texts.len() {
        return false;
    }
    for index in 0..copies.len() {
        if !is_copy(&copies[index], &texts[index]) {
            return false;
        }
    }
    true
}

/// Replaces the copies by copies of these texts.
fn copy_texts(alloc: Global, copies: &mut Vec<Spelling>, texts: &[OwnedText]) -> Result<(), Memory>
    ensures { OnOk result (copies.new.items ≡ texts.now) }
{
    copies.clear();
    for text in texts {
        copies.push(Spelling::from_slice(alloc, text.as_str().as_bytes())?)?;
    }
    Ok(())
}

/// Returns the slot of a search.
fn slot_of(from: usize, name: &[u8]) -> usize
    ensures { result < 16_384 }
{
    let mut hash = from;
    for byte in name {
        hash = hash.wrapping_mul(31).wrapping_add(*byte as usize);
    }
    hash % SLOTS
}

impl<'a, D: Disk> SearchCache<'a, D> {
    /// Creates an empty cache.
    pub(crate) fn new(alloc: Global, shelf: &'a Shelf<D>) -> Result<SearchCache<'a, D>, Memory>
        ensures { IfOk result (λ c. c.names ≡ shelf.now.names) }
    {
        Ok(SearchCache {
            shelf,
            unit: Vec::new(alloc),
            setting: Vec::new(alloc),
            searches: Vec::new(alloc),
            slots: vec![in alloc; 0u16; SLOTS]?,
        })
    }

    /// Returns whether the cache has results for these directories.
    fn is_for(&self, directories: Directories<'_>) -> bool
        ensures { OnTrue result ((self.now.unit ≡ directories.entry.unit.now) × (self.now.setting ≡ directories.entry.setting.now)) }
    {
        are_same(self.unit.as_slice(), directories.unit)
            && are_same(self.setting.as_slice(), directories.setting)
    }

    /// Empties the cache. From now on it has results for these directories.
    fn restart(&mut self, alloc: Global, directories: Directories<'_>) -> Result<(), Memory>
        ensures names { self.new.names ≡ self.old.names }
        ensures directories { OnOk result ((self.new.unit ≡ directories.entry.unit.now) × (self.new.setting ≡ directories.entry.setting.now)) }
    {
        self.searches.clear();
        copy_texts(alloc, &mut self.unit, directories.unit)?;
        copy_texts(alloc, &mut self.setting, directories.setting)
    }

    /// Returns the result of a search that is in the cache.
    fn cached(
        &self,
        slot: usize,
        from: usize,
        form: Form,
        name: &[u8],
    ) -> Option<Option<(usize, usize)>>
        requires { slot < 16_384 }
        ensures { IfSome result (λ found. Finds self.now from form name.now found) }
    {
        match self.searches.get(self.slots[slot] as usize) {
            Some(search) if search.is_of(from, form, name) => Some(search.found),
            _ => None,
        }
    }

    /// Adds a search. Empties a full cache before.
    fn add(&mut self, slot: usize, search: CachedSearch) -> Result<(), Memory>
        requires slot { slot < 16_384 }
        requires done { IsDone self.old search }
        ensures { self.new ≡ self.old }
    {
        if self.searches.len() >= SLOTS {
            self.searches.clear();
        }
        self.slots[slot] = self.searches.len() as u16;
        self.searches.push(search)?;
        Ok(())
    }

    /// Does what `resolve` does for an include line in row `from`, by the cache if it can.
    pub(crate) fn resolve(
        &mut self,
        alloc: Global,
        from: usize,
        form: Form,
        name: &[u8],
        directories: Directories<'_>,
    ) -> Result<Option<(usize, usize)>, Memory>
        requires { from < length self.old.names }
        ensures names { self.new.names ≡ self.old.names }
        ensures found { IfOk result (Finds (record { names = self.old.names; unit = directories.entry.unit.now; setting = directories.entry.setting.now }) from form name.now) }
    {
        if !self.is_for(directories) {
            self.restart(alloc, directories)?;
        }
        let slot = slot_of(from, name);
        if let Some(found) = self.cached(slot, from, form, name) {
            return Ok(found);
        }
        let found = resolve(alloc, self.shelf, from, form, name, directories)?;
        let name = Spelling::from_slice(alloc, name)?;
        self.add(
            slot,
            CachedSearch {
                from,
                form,
                name,
                found,
            },
        )?;
        Ok(found)
    }
}
