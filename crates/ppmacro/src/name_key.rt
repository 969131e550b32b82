//! Names as keys of a hash table.
ghost use Rattle.std.specs.Prelude.{◌≡◌};

use pptext::Token;
use std::hash::{Hash, Hasher};
use std::marker::Model;

/// The name of a macro or of a parameter. Contracts see its bytes. It is hashed in one call; a slice would be hashed byte by byte.
#[derive(Drop)]
pub(crate) struct NameKey<'a> {
    pub(crate) bytes: &'a [u8],
}

impl<'a> Model for NameKey<'a> {
    ghost use Rattle.std.specs.Prelude.{List, ℕ};

    ghost Value = { List ℕ };

    ghost view = { λ k. k.bytes.now };
}

impl<'a> NameKey<'a> {
    /// Returns the spelling of a token as a key.
    pub(crate) fn of(token: &'a Token) -> NameKey<'a>
        ensures { result ≡ token.now.text }
    {
        NameKey {
            bytes: token.text.as_bytes(),
        }
    }
}

impl PartialEq for NameKey<'_> {
    ghost use Rattle.std.specs.Str.{bytes_eq};
    ghost use Rattle.std.specs.Cmp as Cmp;
    ghost use Rattle.std.specs.Cmp.Lexicographic.{nat_list_eq_equiv};

    ghost eq = { bytes_eq };

    ghost laws = { Cmp.partial_equiv_from_equiv nat_list_eq_equiv };

    fn eq(&self, other: &Self) -> bool {
        self.bytes == other.bytes
    }
}

impl Eq for NameKey<'_> {
    ghost use Rattle.std.specs.Cmp.Lexicographic.{nat_list_eq_equiv};

    ghost laws = { nat_list_eq_equiv };
}

impl Hash for NameKey<'_> {
    ghost use Rattle.std.specs.Prelude.{[], ◌∷◌};
    ghost use Rattle.std.proofs.Common.{rules};
    ghost use Rattle.std.specs.Cmp.Rules.{hashing};

    ghost hash_input = { λ k. k ∷ [] };

    ghost respects_eq = { Prim.search (hashing, rules) };

    fn hash<H: Hasher>(&self, state: &mut H) {
        state.write(self.bytes);
    }
}
