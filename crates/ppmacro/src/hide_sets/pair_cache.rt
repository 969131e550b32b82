//! A cache of results by pairs of numbers.
ghost use Rattle.std.specs.Prelude.{◌≡◌, ◌∷◌, ◌++◌, [], OnOk, OnErr, None};
ghost use Rattle.ppmacro.specs.PairCache.{cached_result};

use indexmap::IndexMap;
use pptext::{Hashing, Memory};
use std::alloc::Global;
use std::marker::Model;

/// Results by pairs of numbers, in the order in which they were added.
#[derive(Drop)]
pub(crate) struct PairCache {
    results: IndexMap<(u32, u32), u32, Hashing>,
}

impl Model for PairCache {
    ghost use Rattle.std.specs.HashMap.{hasher_of};
    ghost use Rattle.ppmacro.specs.code.Hashed.{HashedPairs};

    ghost Value = { HashedPairs };

    ghost view = { λ p. record { results = p.results.entries; hashing = hasher_of p.results } };
}

impl PairCache {
    /// Creates an empty cache that hashes pairs with `hashing`.
    pub(crate) fn new(alloc: Global, hashing: Hashing) -> PairCache
        ensures results { result.results ≡ [] }
        ensures hashing { result.hashing ≡ hashing }
    {
        PairCache {
            results: IndexMap::with_hasher(alloc, hashing),
        }
    }

    /// Returns the result for a pair.
    pub(crate) fn get(&self, left: u32, right: u32) -> Option<u32>
        ensures { result ≡ cached_result self.now.results left right }
    {
        self.results.get(&(left, right)).copied()
    }

    /// Adds the result for a pair.
    pub(crate) fn put(&mut self, left: u32, right: u32, combined: u32) -> Result<(), Memory>
        requires { cached_result self.old.results left right ≡ None }
        ensures ok { OnOk result (self.new.results ≡ self.old.results ++ ((left, right), combined) ∷ []) }
        ensures hashing { self.new.hashing ≡ self.old.hashing }
        ensures err { OnErr result (self.new ≡ self.old) }
    {
        let Ok(_) = self.results.insert((left, right), combined) else {
            return Err(Memory);
        };
        Ok(())
    }
}
