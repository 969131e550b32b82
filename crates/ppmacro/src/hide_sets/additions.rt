//! A cache of sets with one more name, by the set and the name.
//!
//! It has a fixed number of slots, and a new result replaces the one in its slot. So it never grows, and a lookup hashes nothing. Names
//! that are chosen to share a slot make the cache useless, and nothing worse. The slots are allocated only for a pool with more than a
//! few sets. If there is no memory for them, the cache stays empty.
ghost use Rattle.std.specs.Prelude.{◌≡◌, ℕ, List, IfSome, []};
ghost use Rattle.ppmacro.specs.code.Nodes.{Node};
ghost use Rattle.ppmacro.specs.code.PoolInvariant.{IsAddition, AreAdditions};

use crate::name_filter::fingerprint_of;
use std::alloc::Global;
use std::marker::Model;

/// The number of slots.
const SLOTS: usize = 512;

/// The slots are allocated for the first result with this number or a greater one.
const FEW: u32 = 16;

/// The set `result` has the members of the set `base`, and the name with the number `name`.
#[derive(Clone, Copy)]
pub(crate) struct Addition {
    pub(crate) base: u32,
    pub(crate) name: usize,
    pub(crate) result: u32,
}

/// Results by slots.
#[derive(Drop)]
pub(crate) struct Additions {
    slots: Vec<Option<Addition>>,
}

impl Model for Additions {
    ghost use Rattle.std.specs.Prelude.{List, Option};
    ghost use Rattle.ppmacro.specs.declared.hide_sets.additions.Addition.{Addition};

    ghost Value = { List (Option Addition) };

    ghost view = { λ a. a.slots.items };
}

/// Returns the slot for a set and a name.
fn slot_of(base: u32, name: &[u8]) -> usize {
    (fingerprint_of(name) + base as usize % SLOTS * 101) % SLOTS
}

impl Additions {
    /// Creates an empty cache.
    pub(crate) fn new(alloc: Global) -> Additions
        ensures { result ≡ [] }
    {
        Additions {
            slots: Vec::new(alloc),
        }
    }

    /// Returns the result in the slot for a set and a name. It may belong to another set or name.
    pub(crate) fn get(&self, base: u32, name: &[u8]) -> Option<Addition>
        ensures { (count : ℕ) → (ns : List Node) → AreAdditions count ns self.now → IfSome result (IsAddition count ns) }
    {
        let slot = slot_of(base, name);
        if slot < self.slots.len() {
            self.slots[slot]
        } else {
            None
        }
    }

    /// Puts a result into its slot, if there are slots.
    pub(crate) fn put(&mut self, alloc: Global, name: &[u8], addition: Addition)
        ensures { (count : ℕ) → (ns : List Node) → AreAdditions count ns self.old → IsAddition count ns addition → AreAdditions count ns self.new }
    {
        self.allocate_for(alloc, addition.result);
        let slot = slot_of(addition.base, name);
        if slot < self.slots.len() {
            self.slots[slot] = Some(addition);
        }
    }

    /// Allocates the slots for a set, if there is memory.
    fn allocate_for(&mut self, alloc: Global, set: u32)
        ensures { (count : ℕ) → (ns : List Node) → AreAdditions count ns self.old → AreAdditions count ns self.new }
    {
        if set < FEW || !self.slots.is_empty() {
            return;
        }
        if let Ok(slots) = vec![in alloc; None; SLOTS] {
            self.slots = slots;
        }
    }
}
