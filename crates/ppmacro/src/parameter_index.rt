//! An index of parameter names.
ghost use Rattle.std.specs.Prelude.{◌≡◌, IfOk, is_none};
ghost use Rattle.std.specs.HashSet.{hasher_of};
ghost use Rattle.std.specs.Option.{IfSome};
ghost use Rattle.ppmacro.specs.Define.{repeats};

use crate::name_key::NameKey;
use indexmap::IndexSet;
use pptext::{Hashing, Memory, Spelling};
use std::alloc::Global;

/// The maximum number of names that are searched one by one. More names are indexed.
pub(crate) const MAX_SCANNED: usize = 16;

/// Returns an index of the names, or `None` if a name occurs twice.
pub(crate) fn index_names<'p>(
    alloc: Global,
    names: &'p [Spelling],
    hashing: Hashing,
) -> Result<Option<IndexSet<NameKey<'p>, Hashing>>, Memory>
    ensures keys { IfOk result (λ o. IfSome o (λ s. s.keys ≡ names.now)) }
    ensures hashing { IfOk result (λ o. IfSome o (λ s. hasher_of s ≡ hashing)) }
    ensures repeats { IfOk result (λ o. is_none o ≡ repeats names.now) }
{
    let mut index = IndexSet::with_capacity_and_hasher(alloc, names.len(), hashing)?;
    for name in names {
        let bytes = name.as_bytes();
        let Ok(new) = index.insert(NameKey { bytes }) else {
            return Err(Memory);
        };
        if !new {
            return Ok(None);
        }
    }
    Ok(Some(index))
}
