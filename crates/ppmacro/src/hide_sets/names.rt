//! The names of hide sets, by number.
ghost use Rattle.std.specs.Prelude.{◌≡◌, ◌<◌, ◌++◌, List, ℕ, false, IfOk, IfSome, IfNone, IsOk, IsTrue, OnErr, length, slice_index_or, []};
ghost use Rattle.std.specs.List.{AllByRecursion, IsDistinct};
ghost use Rattle.ppmacro.specs.code.Members.{same_name};

use crate::name_key::NameKey;
use indexmap::IndexSet;
use pptext::{Hashing, Memory};
use std::alloc::Global;
use std::hash::{Hash, Hasher};
use std::marker::Model;

/// The bytes of a name: owned by the table, or borrowed for a lookup.
#[derive(Drop)]
pub(crate) enum NameText<'n> {
    Kept(Vec<u8>),
    Sought(&'n [u8]),
}

/// A name in the table or a name to look up. Contracts see its bytes. It is compared and hashed like a key of the macro table.
#[derive(Drop)]
pub(crate) struct HiddenName<'n> {
    text: NameText<'n>,
}

impl<'n> Model for HiddenName<'n> {
    ghost use Rattle.std.specs.Prelude.{List, ℕ};
    ghost use Rattle.ppmacro.specs.declared.hide_sets.names.NameText.TheVariants.{Kept, Sought};

    ghost Value = { List ℕ };

    ghost view = { λ n. elim n.text [ Kept v ↦ v.items | Sought b ↦ b.now ] };
}

impl HiddenName<'_> {
    /// Returns the name as a key.
    fn key(&self) -> NameKey<'_>
        ensures { result ≡ self.now }
    {
        let bytes = match &self.text {
            NameText::Kept(bytes) => bytes.as_slice(),
            NameText::Sought(bytes) => bytes,
        };
        NameKey { bytes }
    }
}

impl PartialEq for HiddenName<'_> {
    ghost use Rattle.std.specs.Str.{bytes_eq};
    ghost use Rattle.std.specs.Cmp as Cmp;
    ghost use Rattle.std.specs.Cmp.Lexicographic.{nat_list_eq_equiv};

    ghost eq = { bytes_eq };

    ghost laws = { Cmp.partial_equiv_from_equiv nat_list_eq_equiv };

    fn eq(&self, other: &Self) -> bool {
        self.key() == other.key()
    }
}

impl Eq for HiddenName<'_> {
    ghost use Rattle.std.specs.Cmp.Lexicographic.{nat_list_eq_equiv};

    ghost laws = { nat_list_eq_equiv };
}

impl Hash for HiddenName<'_> {
    ghost use Rattle.std.specs.Prelude.{[], ◌∷◌};
    ghost use Rattle.std.proofs.Common.{rules};
    ghost use Rattle.std.specs.Cmp.Rules.{hashing};

    ghost hash_input = { λ n. n ∷ [] };

    ghost respects_eq = { Prim.search (hashing, rules) };

    fn hash<H: Hasher>(&self, state: &mut H) {
        self.key().hash(state);
    }
}

/// Distinct names, numbered from 0.
#[derive(Drop)]
pub(crate) struct NameNumbers {
    names: IndexSet<HiddenName<'static>, Hashing>,
}

impl Model for NameNumbers {
    ghost use Rattle.std.specs.HashSet.{hasher_of};
    ghost use Rattle.std.specs.List.{IsDistinct};
    ghost use Rattle.ppmacro.specs.code.Hashed.{HashedNames};
    ghost use Rattle.ppmacro.specs.code.Members.{same_name};

    ghost Value = { HashedNames };

    ghost view = { λ s. record { names = s.names.keys; hashing = hasher_of s.names } };

    ghost invariant = { λ s. IsDistinct same_name s.names.keys };
}

impl NameNumbers {
    /// Creates an empty table that hashes names with `hashing`.
    pub(crate) fn new(alloc: Global, hashing: Hashing) -> NameNumbers
        ensures names { result.names ≡ [] }
        ensures hashing { result.hashing ≡ hashing }
    {
        NameNumbers {
            names: IndexSet::with_hasher(alloc, hashing),
        }
    }

    /// Returns the number of a name.
    pub(crate) fn number_of(&self, name: &[u8]) -> Option<usize>
        ensures found { IfSome result (λ n. (n < length self.now.names) × (slice_index_or self.now.names n [] ≡ name.now)) }
        ensures none { IfNone result (AllByRecursion (λ y. same_name name.now y ≡ false) self.now.names) }
        ensures distinct { IsDistinct same_name self.now.names }
    {
        let sought = HiddenName {
            text: NameText::Sought(name),
        };
        self.names.get_index_of(&sought)
    }

    /// Returns whether a name has this number.
    pub(crate) fn is_name(&self, number: usize, name: &[u8]) -> bool
        ensures { IsTrue result → (number < length self.now.names) × (slice_index_or self.now.names number [] ≡ name.now) }
    {
        match self.names.get_index(number) {
            Some(kept) => kept.key().bytes == name,
            None => false,
        }
    }

    /// Returns the number of a name. Adds the name if it is new.
    pub(crate) fn number_for(&mut self, alloc: Global, name: &[u8]) -> Result<usize, Memory>
        ensures found { IfOk result (λ n. (n < length self.new.names) × (slice_index_or self.new.names n [] ≡ name.now)) }
        ensures keeps { (more : List (List ℕ)) × (self.new.names ≡ self.old.names ++ more) }
        ensures distinct { IsDistinct same_name self.new.names }
        ensures hashing { self.new.hashing ≡ self.old.hashing }
        ensures err { OnErr result (self.new ≡ self.old) }
        ensures there { ¬ (AllByRecursion (λ y. same_name name.now y ≡ false) self.old.names) → IsOk result × (self.new ≡ self.old) }
    {
        // A name that exists needs no allocation. So it is looked up first, though a new name is then hashed twice.
        if let Some(number) = self.number_of(name) {
            return Ok(number);
        }
        let text = Vec::from_clones(alloc, name)?;
        let kept = HiddenName {
            text: NameText::Kept(text),
        };
        let Ok((number, _)) = self.names.insert_full(kept) else {
            return Err(Memory);
        };
        Ok(number)
    }
}
