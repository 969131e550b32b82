//! Hide sets: the names of the macros that may not replace a token (Prosser's algorithm).
//!
//! A token has the number of a set, and a pool has the sets. Names have numbers, too, and a set is a node of a trie over these
//! (`nodes`). Each node exists once, so sets with equal members have equal numbers, and `==` on numbers compares sets.
//!
//! A unit computes few different unions and intersections, but computes them for many tokens. So both operations cache their
//! results by pairs of sets: a second call with the same pair allocates nothing and can't fail. Existing sets never change. Sets with
//! one more name are cached in a table of fixed size (`additions`), which contracts don't mention.
//!
//! Names come from the files that are preprocessed, so whoever writes these could choose names that collide. All tables of a pool
//! hash with the key that the pool is made with, and each contract promises that the key stays.
ghost use Rattle.std.specs.Prelude.{◌≡◌, ◌↔◌, IsTrue, ℕ, Some, Ok, IfOk, IfSome, OnErr, length};
ghost use Rattle.std.specs.FinSet as set;
ghost use Rattle.ppmacro.specs.HideSets.{set_at, IsKnown, KeepsSets, initial_pool};
ghost use Rattle.ppmacro.specs.PairCache.{union_known, intersection_known, KeepsPairs};

mod additions;
mod names;
mod nodes;
mod pair_cache;

use additions::{Addition, Additions};
use indexmap::IndexSet;
use names::NameNumbers;
use nodes::{Node, Operation, OperationKind};
use pair_cache::PairCache;
use pptext::{Hashing, Memory};
use std::alloc::Global;
use std::marker::Model;

/// The number of a hide set.
#[derive(Clone, Copy, Debug, PartialEq, Eq)]
pub struct Set {
    number: u32,
}

impl Model for Set {
    ghost use Rattle.std.specs.Prelude.{ℕ};

    ghost Value = { ℕ };

    ghost view = { λ s. s.number };

    ghost inverse = { λ n. record { number = n } };
}

/// A pool of distinct hide sets, and caches of the sets that were computed. A set is a node of a trie over
/// the numbers of names, and its number is the node's number.
#[derive(Drop)]
pub struct HideSets {
    alloc: Global,
    names: NameNumbers,
    nodes: IndexSet<Node, Hashing>,
    unions: PairCache,
    intersections: PairCache,
    additions: Additions,
}

impl Model for HideSets {
    ghost use Rattle.std.specs.HashSet.{hasher_of};
    ghost use Rattle.std.specs.FinSet as set;
    ghost use Rattle.std.specs.Coded.{codes, coded_list, coded_ℕ};
    ghost use Rattle.std.specs.Ordering.{nat_cmp};
    ghost use Rattle.std.specs.Cmp.Lexicographic.{slice_cmp};
    ghost use Rattle.ppmacro.specs.code.Members.{hide_sets};
    ghost use Rattle.ppmacro.specs.HideSetPool.{HideSetPool};
    ghost use Rattle.ppmacro.specs.code.PoolInvariant.{IsPoolHashedBy};

    ghost Value = { HideSetPool };

    ghost coded = { Prim.hlevel (codes, coded_list (set.code {R = slice_cmp nat_cmp} (coded_list coded_ℕ))) };

    ghost view = { λ s. record { sets = hide_sets s.names.names s.nodes.keys; unions = s.unions.results; intersections = s.intersections.results; hashing = hasher_of s.nodes } };

    ghost invariant = { λ s. IsPoolHashedBy (hasher_of s.nodes) s.names s.nodes.keys s.unions s.intersections s.additions };
}

impl HideSets {
    /// Creates a pool with only the empty set. The hash function has a fixed key: see `with_hasher` for untrusted names.
    pub fn new(alloc: Global) -> Result<HideSets, Memory>
        ensures { IfOk result (λ s. s ≡ initial_pool s.hashing) }
    {
        HideSets::with_hasher(alloc, Hashing::fixed())
    }

    /// Creates a pool with only the empty set. Names, nodes and cached pairs are hashed with `hashing`.
    pub fn with_hasher(alloc: Global, hashing: Hashing) -> Result<HideSets, Memory>
        ensures { IfOk result (λ s. s ≡ initial_pool hashing) }
    {
        Ok(HideSets {
            alloc,
            names: NameNumbers::new(alloc, hashing),
            nodes: nodes::start(alloc, hashing)?,
            unions: PairCache::new(alloc, hashing),
            intersections: PairCache::new(alloc, hashing),
            additions: Additions::new(alloc),
        })
    }

    /// Returns how names, nodes and cached pairs are hashed: the `Hashing` that was given.
    pub fn hashing(&self) -> Hashing
        ensures { result ≡ self.now.hashing }
    {
        *self.nodes.hasher()
    }

    /// Returns the number of sets.
    pub fn len(&self) -> usize
        ensures { result ≡ length self.now.sets }
    {
        self.nodes.len()
    }

    /// Returns the empty set.
    pub fn empty(&self) -> Set
        ensures set { set_at self.now result ≡ set.empty }
        ensures known { IsKnown self.now result }
    {
        // Only the contract mentions the nodes.
        let _nodes = &self.nodes;
        Set { number: 0 }
    }

    /// Proves that sets with equal members have equal numbers. It does nothing.
    pub fn sets_are_unique(&self)
        ensures { (m n : ℕ) → IsKnown self.now m → IsKnown self.now n → set_at self.now m ≡ set_at self.now n → m ≡ n }
    {
        let _nodes = &self.nodes;
    }

    /// Returns whether there is a set with this number.
    pub fn knows(&self, hide: Set) -> bool
        ensures { IsTrue result ↔ IsKnown self.now hide }
    {
        (hide.number as usize) < self.nodes.len()
    }

    /// Returns whether a set contains a name.
    pub fn has(&self, hide: Set, name: &[u8]) -> bool
        requires { IsKnown self.now hide }
        ensures { result ≡ set.contains (set_at self.now hide) name.now }
    {
        let nodes = &self.nodes;
        if hide.number == 0 {
            return false;
        }
        match self.names.number_of(name) {
            Some(number) => nodes::has(nodes, hide.number, number),
            None => false,
        }
    }

    /// Returns a set with one more name, if it is cached.
    fn cached_with(&self, hide: Set, name: &[u8]) -> Option<Set>
        requires { IsKnown self.now hide }
        ensures set { IfSome result (λ s. set_at self.now s ≡ set.insert (set_at self.now hide) name.now) }
        ensures known { IfSome result (λ s. IsKnown self.now s) }
        ensures unique { IfSome result (λ s. (n : ℕ) → IsKnown self.now n → set_at self.now n ≡ set.insert (set_at self.now hide) name.now → s ≡ n) }
    {
        let addition = self.additions.get(hide.number, name)?;
        if addition.base != hide.number {
            return None;
        }
        if !self.names.is_name(addition.name, name) {
            return None;
        }
        Some(Set {
            number: addition.result,
        })
    }

    /// Returns a set with one more name. Fails only if an allocation fails, or if the result is a new set and 4,294,967,295 nodes
    /// exist. If the result exists, succeeds and changes nothing. Existing sets never change.
    pub fn with(&mut self, hide: Set, name: &[u8]) -> Result<Set, Memory>
        requires { IsKnown self.old hide }
        ensures set { IfOk result (λ s. set_at self.new s ≡ set.insert (set_at self.old hide) name.now) }
        ensures known { IfOk result (λ s. IsKnown self.new s) }
        ensures keeps { KeepsSets self.old self.new }
        ensures pairs { (self.new.unions ≡ self.old.unions) × (self.new.intersections ≡ self.old.intersections) }
        ensures there { (n : ℕ) → IsKnown self.old n → set_at self.old n ≡ set.insert (set_at self.old hide) name.now → (result ≡ Ok n) × (self.new ≡ self.old) }
    {
        if let Some(cached) = self.cached_with(hide, name) {
            return Ok(cached);
        }
        let (alloc, set) = (self.alloc, hide.number);
        let named = self.names.number_for(alloc, name)?;
        let number = nodes::insert(&mut self.nodes, set, named)?;
        let addition = Addition {
            base: set,
            name: named,
            result: number,
        };
        self.additions.put(alloc, name, addition);
        Ok(Set { number })
    }

    /// Returns the union of two sets. A repeated call returns the same set, allocates nothing and succeeds. Fails like `with`; if the
    /// result exists, only the memory for the pair can be missing, and no set is added.
    pub fn union(&mut self, left: Set, right: Set) -> Result<Set, Memory>
        requires left { IsKnown self.old left }
        requires right { IsKnown self.old right }
        ensures set { IfOk result (λ s. set_at self.new s ≡ set.union (set_at self.old left) (set_at self.old right)) }
        ensures known { IfOk result (λ s. IsKnown self.new s) }
        ensures keeps { KeepsSets self.old self.new }
        ensures remembered { IfOk result (λ n. union_known self.new.unions left right ≡ Some n) }
        ensures if_cached { (n : ℕ) → union_known self.old.unions left right ≡ Some n → (result ≡ Ok n) × (self.new ≡ self.old) }
        ensures unions { KeepsPairs self.old.unions self.new.unions }
        ensures intersections { self.new.intersections ≡ self.old.intersections }
        ensures there { (n : ℕ) → IsKnown self.old n → set_at self.old n ≡ set.union (set_at self.old left) (set_at self.old right)
            → IfOk result (λ m. m ≡ n) × (self.new.sets ≡ self.old.sets) × OnErr result (self.new ≡ self.old) }
    {
        let (nodes, pairs) = (&mut self.nodes, &mut self.unions);
        let operation = Operation {
            kind: OperationKind::Union,
        };
        let number = nodes::combine(nodes, pairs, operation, left.number, right.number)?;
        Ok(Set { number })
    }

    /// Returns the intersection of two sets. A repeated call returns the same set, allocates nothing and succeeds. Fails like
    /// `with`; if the result exists, only the memory for the pair can be missing, and no set is added.
    pub fn meet(&mut self, left: Set, right: Set) -> Result<Set, Memory>
        requires left { IsKnown self.old left }
        requires right { IsKnown self.old right }
        ensures set { IfOk result (λ s. set_at self.new s ≡ set.intersection (set_at self.old left) (set_at self.old right)) }
        ensures known { IfOk result (λ s. IsKnown self.new s) }
        ensures keeps { KeepsSets self.old self.new }
        ensures remembered { IfOk result (λ n. intersection_known self.new.intersections left right ≡ Some n) }
        ensures if_cached { (n : ℕ) → intersection_known self.old.intersections left right ≡ Some n → (result ≡ Ok n) × (self.new ≡ self.old) }
        ensures intersections { KeepsPairs self.old.intersections self.new.intersections }
        ensures unions { self.new.unions ≡ self.old.unions }
        ensures there { (n : ℕ) → IsKnown self.old n → set_at self.old n ≡ set.intersection (set_at self.old left) (set_at self.old right)
            → IfOk result (λ m. m ≡ n) × (self.new.sets ≡ self.old.sets) × OnErr result (self.new ≡ self.old) }
    {
        let (nodes, pairs) = (&mut self.nodes, &mut self.intersections);
        let operation = Operation {
            kind: OperationKind::Intersection,
        };
        let number = nodes::combine(nodes, pairs, operation, left.number, right.number)?;
        Ok(Set { number })
    }
}
